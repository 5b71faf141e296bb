//! Ghost parameters and type parameters.

ghost use Rattle.std.specs.Prelude.{◌≡◌, [], ◌∷◌, IfOk};
ghost use Rattle.vf_syntax.specs.Walks.{head_has};
ghost use Rattle.vf_cursor.specs.Parsing.{Gives};
ghost use Rattle.vf_parse_ghost.specs.Parameters.{parameter_at, is_separator, next_parameter_at, parameter_step, more_parameters_at, parameters_inside_at, parameters_at, type_parameters_at, head_at};

use std::alloc::Global;
use vf_base::{Memory, Sequence};
use vf_cursor::cursor::{Cursor, is_mark};
use vf_cursor::fault::Stop;
use vf_lexer::Punctuator;
use vf_parse_pattern::names::some_names;
use vf_parse_term::sorts::sort;
use vf_syntax::item::GhostParameter;
use vf_syntax::side::Side;
use vf_syntax::written::Name;

/// What fixpoints and lemmas have in front of their bodies.
#[derive(Drop)]
pub struct Heading {
    pub name: Name,
    pub type_parameters: Sequence<Name>,
    pub parameters: Sequence<GhostParameter>,
}

/// A parameter, which stands behind a `;` or not.
#[tactic(auto, unfolding(crate::specs::Parameters::parameter_at))]
pub fn parameter(
    cursor: &mut Cursor,
    after_semicolon: bool,
    depth: u32,
) -> Result<GhostParameter, Stop>
    ensures { Gives result cursor.new.left.now (parameter_at after_semicolon depth cursor.old.left.now) }
{
    let sort = sort(cursor, depth)?;
    let name = cursor.name(Side::Ghost)?;
    Ok(GhostParameter {
        after_semicolon,
        sort,
        name,
    })
}

#[tactic(auto, unfolding(crate::specs::Parameters::is_separator))]
fn sees_separator(cursor: &Cursor) -> bool
    ensures { result ≡ head_has is_separator cursor.now.left.now }
{
    match cursor.left {
        [] => false,
        [first, ..] => {
            is_mark(Side::Ghost, Punctuator::Comma, first)
                || is_mark(Side::Ghost, Punctuator::Semicolon, first)
        }
    }
}

#[tactic(auto, unfolding(crate::specs::Parameters::next_parameter_at))]
fn next_parameter(cursor: &mut Cursor, depth: u32) -> Result<GhostParameter, Stop>
    ensures { Gives result cursor.new.left.now (next_parameter_at depth cursor.old.left.now) }
{
    if cursor.sees_mark(Side::Ghost, Punctuator::Semicolon) {
        cursor.mark(Side::Ghost, Punctuator::Semicolon)?;
        return parameter(cursor, true, depth);
    }
    cursor.mark(Side::Ghost, Punctuator::Comma)?;
    parameter(cursor, false, depth)
}

/// One more parameter.
#[tactic(auto, unfolding(crate::specs::Parameters::parameter_step))]
fn one_more_parameter(
    cursor: &mut Cursor,
    depth: u32,
    before: Sequence<GhostParameter>,
) -> Result<Sequence<GhostParameter>, Stop>
    ensures { Gives result cursor.new.left.now (parameter_step depth before cursor.old.left.now) }
{
    let mut parameters = before;
    let next = next_parameter(cursor, depth)?;
    parameters.push(next)?;
    Ok(parameters)
}

#[tactic(auto, using(vf_cursor::proofs::Loop::many_stops, vf_cursor::proofs::Loop::many_goes, vf_cursor::proofs::Loop::many_fails))]
fn more_parameters(
    cursor: &mut Cursor,
    depth: u32,
    first: Sequence<GhostParameter>,
) -> Result<Sequence<GhostParameter>, Stop>
    ensures { Gives result cursor.new.left.now (more_parameters_at depth first cursor.old.left.now) }
{
    let mut parameters = first;
    let most = cursor.left.len();
    for i in 0..most {
        if !sees_separator(cursor) {
            return Ok(parameters);
        }
        parameters = one_more_parameter(cursor, depth, parameters)?;
    }
    Ok(parameters)
}

fn one_parameter(
    alloc: Global,
    parameter: GhostParameter,
) -> Result<Sequence<GhostParameter>, Memory>
    ensures { IfOk result (λ s. s ≡ parameter ∷ []) }
{
    let mut parameters = Sequence::new(alloc);
    parameters.push(parameter)?;
    Ok(parameters)
}

#[tactic(auto, unfolding(crate::specs::Parameters::parameters_inside_at))]
fn parameters_inside(cursor: &mut Cursor, depth: u32) -> Result<Sequence<GhostParameter>, Stop>
    ensures { Gives result cursor.new.left.now (parameters_inside_at depth cursor.old.left.now) }
{
    if cursor.sees_mark(Side::Ghost, Punctuator::CloseParenthesis) {
        return Ok(Sequence::new(cursor.alloc));
    }
    let first = parameter(cursor, false, depth)?;
    let parameters = one_parameter(cursor.alloc, first)?;
    more_parameters(cursor, depth, parameters)
}

/// Parameters between parentheses.
#[tactic(auto, unfolding(crate::specs::Parameters::parameters_at))]
pub fn parameters(cursor: &mut Cursor, depth: u32) -> Result<Sequence<GhostParameter>, Stop>
    ensures { Gives result cursor.new.left.now (parameters_at depth cursor.old.left.now) }
{
    cursor.mark(Side::Ghost, Punctuator::OpenParenthesis)?;
    let inside = parameters_inside(cursor, depth)?;
    cursor.mark(Side::Ghost, Punctuator::CloseParenthesis)?;
    Ok(inside)
}

/// Type parameters between `<` and `>`, or nothing.
#[tactic(auto, unfolding(crate::specs::Parameters::type_parameters_at))]
pub fn type_parameters(cursor: &mut Cursor) -> Result<Sequence<Name>, Stop>
    ensures { Gives result cursor.new.left.now (type_parameters_at cursor.old.left.now) }
{
    if !cursor.sees_mark(Side::Ghost, Punctuator::Less) {
        return Ok(Sequence::new(cursor.alloc));
    }
    cursor.mark(Side::Ghost, Punctuator::Less)?;
    let names = some_names(cursor)?;
    cursor.mark(Side::Ghost, Punctuator::Greater)?;
    Ok(names)
}

/// A name, type parameters where there are any, and parameters.
#[tactic(auto, unfolding(crate::specs::Parameters::head_at))]
pub fn head(cursor: &mut Cursor, depth: u32) -> Result<Heading, Stop>
    ensures { Gives result cursor.new.left.now (head_at depth cursor.old.left.now) }
{
    let name = cursor.name(Side::Ghost)?;
    let type_parameters = type_parameters(cursor)?;
    let parameters = parameters(cursor, depth)?;
    Ok(Heading {
        name,
        type_parameters,
        parameters,
    })
}
