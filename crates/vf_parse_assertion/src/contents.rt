//! Assertions as they were read, before it is known whether they stand between the parentheses of an expression.

ghost use Rattle.std.specs.Prelude.{◌≡◌, IfOk};
ghost use Rattle.vf_syntax.specs.GhostExprTree as exprs;
ghost use Rattle.vf_parse_chunk.specs.Pieces.{term_of};
ghost use Rattle.vf_parse_chunk.specs.declared.pieces.Piece.TheVariants as pieces;
ghost use Rattle.vf_parse_assertion.specs.Contents.{parts_of, tree_of, enclosed_piece, enclosed, chosen_second, chosen};

use std::alloc::Global;
use vf_base::{Memory, Place};
use vf_parse_chunk::pieces::{Begun, Piece, Value, one_part};
use vf_syntax::assertion::{Assertion, Part, PartNode};
use vf_syntax::ghost_expr::{GhostExpr, GhostExprNode};

/// An assertion as it was read.
#[derive(Drop)]
pub enum Content {
    /// One part.
    Lone(Piece),
    /// Two parts or more.
    Several(Assertion),
}

impl Content {
    /// The assertion.
    pub fn into_assertion(self, alloc: Global) -> Result<Assertion, Memory>
        ensures { IfOk result (λ x. x ≡ parts_of self) }
    {
        match self {
            Content::Lone(piece) => {
                let part = piece.into_part(alloc)?;
                one_part(alloc, part)
            }
            Content::Several(parts) => Ok(parts),
        }
    }
}

fn parenthesized(alloc: Global, place: Place, value: Value) -> Result<GhostExpr, Memory>
    ensures { IfOk result (λ x. x ≡ exprs.parenthesized place (term_of value)) }
{
    let term = value.into_term()?;
    let node = GhostExprNode::Parenthesized(Box::new(alloc, term)?);
    Ok(GhostExpr { place, node })
}

fn boxed_term(alloc: Global, value: Value) -> Result<Box<GhostExpr>, Memory>
    ensures { IfOk result (λ x. x.value ≡ term_of value) }
{
    let term = value.into_term()?;
    Ok(Box::new(alloc, term)?)
}

/// A conditional whose first branch has its box.
fn conditional_of(
    alloc: Global,
    place: Place,
    test: GhostExpr,
    first: Box<GhostExpr>,
    second: Value,
) -> Result<GhostExpr, Memory>
    ensures { IfOk result (λ x. x ≡ exprs.conditional place test first.value (term_of second)) }
{
    match boxed_term(alloc, second) {
        Ok(second) => {
            let node = GhostExprNode::Conditional(Box::new(alloc, test)?, first, second);
            Ok(GhostExpr { place, node })
        }
        Err(failed) => {
            drop(test);
            Err(failed)
        }
    }
}

fn conditional(
    alloc: Global,
    place: Place,
    test: GhostExpr,
    first: Value,
    second: Value,
) -> Result<GhostExpr, Memory>
    ensures { IfOk result (λ x. x ≡ exprs.conditional place test (term_of first) (term_of second)) }
{
    match boxed_term(alloc, first) {
        Ok(first) => conditional_of(alloc, place, test, first, second),
        Err(failed) => {
            drop(test);
            drop(second);
            Err(failed)
        }
    }
}

/// An assertion of one part between parentheses, of which the first stands at a place.
fn enclosed_piece(alloc: Global, place: Place, piece: Piece) -> Result<Begun, Memory>
    ensures { IfOk result (λ x. x ≡ enclosed_piece place piece) }
{
    match piece {
        Piece::Value(value) => Ok(Begun::Operand(parenthesized(alloc, place, value)?)),
        Piece::Conditional(_, test, first, second) => {
            let term = conditional(alloc, place, test, first, second)?;
            Ok(Begun::Operand(term))
        }
        Piece::Other(part) => {
            let node = PartNode::Group(one_part(alloc, part)?);
            Ok(Begun::Whole(Piece::Other(Part { place, node })))
        }
    }
}

/// What an assertion is between parentheses, of which the first stands at a place: an operand where an expression
/// has the same tokens, else a part.
pub fn enclosed(alloc: Global, place: Place, content: Content) -> Result<Begun, Memory>
    ensures { IfOk result (λ x. x ≡ enclosed place content) }
{
    match content {
        Content::Lone(piece) => enclosed_piece(alloc, place, piece),
        Content::Several(parts) => {
            let node = PartNode::Group(parts);
            Ok(Begun::Whole(Piece::Other(Part { place, node })))
        }
    }
}

fn tree_of(
    alloc: Global,
    place: Place,
    test: GhostExpr,
    first: Content,
    second: Content,
) -> Result<Part, Memory>
    ensures { IfOk result (λ x. x ≡ tree_of place test first second) }
{
    match first.into_assertion(alloc) {
        Ok(first) => match second.into_assertion(alloc) {
            Ok(second) => {
                let node = PartNode::Conditional(test, first, second);
                Ok(Part { place, node })
            }
            Err(failed) => {
                drop(test);
                Err(failed)
            }
        },
        Err(failed) => {
            drop(test);
            drop(second);
            Err(failed)
        }
    }
}

/// A conditional whose first branch an expression spells too.
fn chosen_second(
    alloc: Global,
    place: Place,
    test: GhostExpr,
    first: Value,
    second: Content,
) -> Result<Piece, Memory>
    ensures { IfOk result (λ x. x ≡ chosen_second place test first second) }
{
    match second {
        Content::Lone(Piece::Value(second)) => Ok(Piece::Conditional(place, test, first, second)),
        second => {
            let first = Content::Lone(Piece::Value(first));
            Ok(Piece::Other(tree_of(alloc, place, test, first, second)?))
        }
    }
}

/// The conditional with these branches.
pub fn chosen(
    alloc: Global,
    place: Place,
    test: GhostExpr,
    first: Content,
    second: Content,
) -> Result<Piece, Memory>
    ensures { IfOk result (λ x. x ≡ chosen place test first second) }
{
    match first {
        Content::Lone(Piece::Value(first)) => chosen_second(alloc, place, test, first, second),
        first => Ok(Piece::Other(tree_of(alloc, place, test, first, second)?)),
    }
}
