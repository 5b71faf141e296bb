//! Parts of assertions as they were read, before it is known whether they stand between the parentheses of an
//! expression.

ghost use Rattle.std.specs.Prelude.{◌≡◌, [], ◌∷◌, IfOk};
ghost use Rattle.vf_parse_chunk.specs.Pieces.{part_of_value, term_of, part_of};
ghost use Rattle.vf_parse_chunk.specs.declared.pieces.Piece.TheVariants as pieces;

use std::alloc::Global;
use vf_base::{Memory, Place, Sequence};
use vf_parse_pattern::patterns::Patterns;
use vf_syntax::assertion::{Assertion, Part, PartNode};
use vf_syntax::ghost_expr::{GhostExpr, GhostExprNode};
use vf_syntax::pattern::Pattern;
use vf_syntax::written::Name;

/// A part that an expression spells too.
#[derive(Drop)]
pub enum Value {
    /// An expression that is no application, and its place.
    Term(Place, GhostExpr),
    /// A name applied to expressions.
    Application(Name, Patterns),
}

/// A part as it was read.
#[derive(Drop)]
pub enum Piece {
    /// A part that an expression spells too.
    Value(Value),
    /// A conditional with such branches, which is an expression between parentheses.
    Conditional(Place, GhostExpr, Value, Value),
    /// Any other part.
    Other(Part),
}

/// What stands at the front of a part, behind its share: a chunk, or an operand of an expression.
#[derive(Drop)]
pub enum Front {
    /// A name with patterns, and with more of them where there are two lists.
    Chunk(Name, Patterns, Option<Sequence<Pattern>>),
    /// An operand, behind which the expression may go on.
    Operand(GhostExpr),
}

/// What was read of a part: all of it, or the first operand of its expression.
#[derive(Drop)]
pub enum Begun {
    Whole(Piece),
    Operand(GhostExpr),
}

/// An assertion of one part.
pub fn one_part(alloc: Global, part: Part) -> Result<Assertion, Memory>
    ensures { IfOk result (λ xs. xs ≡ part ∷ []) }
{
    let mut parts = Assertion::new(alloc);
    parts.push(part)?;
    Ok(parts)
}

impl Value {
    /// The part.
    pub fn into_part(self) -> Result<Part, Memory>
        ensures { IfOk result (λ x. x ≡ part_of_value self) }
    {
        match self {
            Value::Term(place, term) => {
                let node = PartNode::Pure(term);
                Ok(Part { place, node })
            }
            Value::Application(name, patterns) => {
                let place = name.place;
                let node = PartNode::Chunk(None, name, patterns.into_sequence()?, None);
                Ok(Part { place, node })
            }
        }
    }

    /// The expression that its tokens spell.
    pub fn into_term(self) -> Result<GhostExpr, Memory>
        ensures { IfOk result (λ x. x ≡ term_of self) }
    {
        match self {
            Value::Term(_, term) => Ok(term),
            Value::Application(name, patterns) => {
                let place = name.place;
                let node = GhostExprNode::Application(name.text, patterns.into_terms()?);
                Ok(GhostExpr { place, node })
            }
        }
    }
}

/// A conditional with branches of one part each.
fn conditional(
    alloc: Global,
    place: Place,
    test: GhostExpr,
    first: Value,
    second: Value,
) -> Result<Part, Memory>
    ensures { IfOk result (λ x. x ≡ part_of (pieces.Conditional place test first second)) }
{
    let first = one_part(alloc, first.into_part()?)?;
    let second = one_part(alloc, second.into_part()?)?;
    let node = PartNode::Conditional(test, first, second);
    Ok(Part { place, node })
}

impl Piece {
    /// The part.
    pub fn into_part(self, alloc: Global) -> Result<Part, Memory>
        ensures { IfOk result (λ x. x ≡ part_of self) }
    {
        match self {
            Piece::Value(value) => value.into_part(),
            Piece::Conditional(place, test, first, second) => {
                conditional(alloc, place, test, first, second)
            }
            Piece::Other(part) => Ok(part),
        }
    }
}
