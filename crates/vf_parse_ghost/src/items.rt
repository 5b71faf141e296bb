//! Ghost items.

ghost use Rattle.std.specs.Prelude.{◌≡◌};
ghost use Rattle.vf_cursor.specs.Parsing.{Gives};
ghost use Rattle.vf_parse_ghost.specs.Items.{definition_at, inductive_at, fixpoint_by, fixpoint_at, predicate_by, predicate_at, index_at, family_at, function_at, instance_at, predicate_constructor_at, lemma_by, lemma_at, predicates_at, form_at, item_at};

use crate::constructors::{bar, constructors};
use crate::contracts::{any_contract, contract};
use crate::fixpoints::fixpoint_body;
use crate::parameters::{Heading, head, parameter, parameters, type_parameters};
use vf_base::Sequence;
use vf_cursor::cursor::Cursor;
use vf_cursor::fault::Stop;
use vf_lexer::Punctuator;
use vf_parse_assertion::assertions::assertion;
use vf_parse_command::commands::body;
use vf_parse_term::sorts::sort;
use vf_syntax::assertion::Assertion;
use vf_syntax::item::{GhostForm, GhostItem, GhostParameter};
use vf_syntax::keyword::Keyword;
use vf_syntax::side::Side;
use vf_syntax::sort::Sort;
use vf_syntax::written::Name;

/// `= A;`
#[tactic(auto, unfolding(crate::specs::Items::definition_at))]
fn definition(cursor: &mut Cursor, depth: u32) -> Result<Assertion, Stop>
    ensures { Gives result cursor.new.left.now (definition_at depth cursor.old.left.now) }
{
    cursor.mark(Side::Ghost, Punctuator::Becomes)?;
    let body = assertion(cursor, depth)?;
    cursor.mark(Side::Ghost, Punctuator::Semicolon)?;
    Ok(body)
}

#[tactic(auto, unfolding(crate::specs::Items::inductive_at))]
fn inductive(cursor: &mut Cursor, depth: u32) -> Result<GhostForm, Stop>
    ensures { Gives result cursor.new.left.now (inductive_at depth cursor.old.left.now) }
{
    cursor.word(Side::Ghost, Keyword::Inductive)?;
    let name = cursor.name(Side::Ghost)?;
    let type_parameters = type_parameters(cursor)?;
    cursor.mark(Side::Ghost, Punctuator::Becomes)?;
    let has_bar = bar(cursor)?;
    let constructors = constructors(cursor, depth)?;
    cursor.mark(Side::Ghost, Punctuator::Semicolon)?;
    Ok(GhostForm::Inductive(name, type_parameters, has_bar, constructors))
}

/// A fixpoint behind its parameters.
#[tactic(auto, unfolding(crate::specs::Items::fixpoint_by))]
fn fixpoint_by(
    cursor: &mut Cursor,
    depth: u32,
    sort: Sort,
    head: Heading,
) -> Result<GhostForm, Stop>
    ensures { Gives result cursor.new.left.now (fixpoint_by depth sort head cursor.old.left.now) }
{
    match cursor.mark(Side::Ghost, Punctuator::OpenBrace) {
        Ok(_) => match fixpoint_body(cursor, depth) {
            Ok(body) => match cursor.mark(Side::Ghost, Punctuator::CloseBrace) {
                Ok(_) => {
                    let Heading {
                        name,
                        type_parameters,
                        parameters,
                    } = head;
                    Ok(GhostForm::Fixpoint(sort, name, type_parameters, parameters, body))
                }
                Err(stop) => {
                    drop(sort);
                    drop(head);
                    drop(body);
                    Err(stop)
                }
            },
            Err(stop) => {
                drop(sort);
                drop(head);
                Err(stop)
            }
        },
        Err(stop) => {
            drop(sort);
            drop(head);
            Err(stop)
        }
    }
}

#[tactic(auto, unfolding(crate::specs::Items::fixpoint_at, crate::specs::Items::fixpoint_by))]
fn fixpoint(cursor: &mut Cursor, depth: u32) -> Result<GhostForm, Stop>
    ensures { Gives result cursor.new.left.now (fixpoint_at depth cursor.old.left.now) }
{
    cursor.word(Side::Ghost, Keyword::Fixpoint)?;
    let sort = sort(cursor, depth)?;
    match head(cursor, depth) {
        Ok(head) => fixpoint_by(cursor, depth, sort, head),
        Err(stop) => {
            drop(sort);
            Err(stop)
        }
    }
}

/// A predicate behind its parameters.
#[tactic(auto, unfolding(crate::specs::Items::predicate_by))]
fn predicate_by(
    cursor: &mut Cursor,
    depth: u32,
    name: Name,
    parameters: Sequence<GhostParameter>,
) -> Result<GhostForm, Stop>
    ensures { Gives result cursor.new.left.now (predicate_by depth name parameters cursor.old.left.now) }
{
    if cursor.sees_mark(Side::Ghost, Punctuator::Becomes) {
        let body = definition(cursor, depth)?;
        return Ok(GhostForm::PredicateBody(name, parameters, body));
    }
    cursor.mark(Side::Ghost, Punctuator::Semicolon)?;
    Ok(GhostForm::Predicate(name, parameters))
}

#[tactic(auto, unfolding(crate::specs::Items::predicate_at))]
fn predicate(cursor: &mut Cursor, depth: u32) -> Result<GhostForm, Stop>
    ensures { Gives result cursor.new.left.now (predicate_at depth cursor.old.left.now) }
{
    cursor.word(Side::Ghost, Keyword::Predicate)?;
    let name = cursor.name(Side::Ghost)?;
    let parameters = parameters(cursor, depth)?;
    predicate_by(cursor, depth, name, parameters)
}

/// The index of a family, between parentheses.
#[tactic(auto, unfolding(crate::specs::Items::index_at))]
fn index(cursor: &mut Cursor, depth: u32) -> Result<GhostParameter, Stop>
    ensures { Gives result cursor.new.left.now (index_at depth cursor.old.left.now) }
{
    cursor.mark(Side::Ghost, Punctuator::OpenParenthesis)?;
    let index = parameter(cursor, false, depth)?;
    cursor.mark(Side::Ghost, Punctuator::CloseParenthesis)?;
    Ok(index)
}

#[tactic(auto, unfolding(crate::specs::Items::family_at))]
fn family(cursor: &mut Cursor, depth: u32) -> Result<GhostForm, Stop>
    ensures { Gives result cursor.new.left.now (family_at depth cursor.old.left.now) }
{
    cursor.word(Side::Ghost, Keyword::PredicateFamily)?;
    let name = cursor.name(Side::Ghost)?;
    let index = index(cursor, depth)?;
    let parameters = parameters(cursor, depth)?;
    cursor.mark(Side::Ghost, Punctuator::Semicolon)?;
    Ok(GhostForm::Family(name, index, parameters))
}

/// The function of an instance, between parentheses.
#[tactic(auto, unfolding(crate::specs::Items::function_at))]
fn function(cursor: &mut Cursor) -> Result<Name, Stop>
    ensures { Gives result cursor.new.left.now (function_at cursor.old.left.now) }
{
    cursor.mark(Side::Ghost, Punctuator::OpenParenthesis)?;
    let name = cursor.name(Side::Ghost)?;
    cursor.mark(Side::Ghost, Punctuator::CloseParenthesis)?;
    Ok(name)
}

#[tactic(auto, unfolding(crate::specs::Items::instance_at))]
fn instance(cursor: &mut Cursor, depth: u32) -> Result<GhostForm, Stop>
    ensures { Gives result cursor.new.left.now (instance_at depth cursor.old.left.now) }
{
    cursor.word(Side::Ghost, Keyword::PredicateFamilyInstance)?;
    let family = cursor.name(Side::Ghost)?;
    let function = function(cursor)?;
    let parameters = parameters(cursor, depth)?;
    let body = definition(cursor, depth)?;
    Ok(GhostForm::Instance(family, function, parameters, body))
}

#[tactic(auto, unfolding(crate::specs::Items::predicate_constructor_at))]
fn predicate_constructor(cursor: &mut Cursor, depth: u32) -> Result<GhostForm, Stop>
    ensures { Gives result cursor.new.left.now (predicate_constructor_at depth cursor.old.left.now) }
{
    cursor.word(Side::Ghost, Keyword::PredicateCtor)?;
    let name = cursor.name(Side::Ghost)?;
    let first = parameters(cursor, depth)?;
    let second = parameters(cursor, depth)?;
    let body = definition(cursor, depth)?;
    Ok(GhostForm::PredicateConstructor(name, first, second, body))
}

/// A lemma behind its parameters.
#[tactic(auto, unfolding(crate::specs::Items::lemma_by))]
fn lemma_by(cursor: &mut Cursor, depth: u32, head: Heading) -> Result<GhostForm, Stop>
    ensures { Gives result cursor.new.left.now (lemma_by depth head cursor.old.left.now) }
{
    let Heading {
        name,
        type_parameters,
        parameters,
    } = head;
    if cursor.sees_mark(Side::Ghost, Punctuator::Semicolon) {
        cursor.mark(Side::Ghost, Punctuator::Semicolon)?;
        let contract = contract(cursor, depth)?;
        return Ok(GhostForm::LemmaPrototype(name, type_parameters, parameters, contract));
    }
    let contract = any_contract(cursor, depth)?;
    let body = body(cursor, depth)?;
    Ok(GhostForm::Lemma(name, type_parameters, parameters, contract, body))
}

#[tactic(auto, unfolding(crate::specs::Items::lemma_at))]
fn lemma(cursor: &mut Cursor, depth: u32) -> Result<GhostForm, Stop>
    ensures { Gives result cursor.new.left.now (lemma_at depth cursor.old.left.now) }
{
    cursor.word(Side::Ghost, Keyword::Lemma)?;
    cursor.word(Side::Ghost, Keyword::Void)?;
    let head = head(cursor, depth)?;
    lemma_by(cursor, depth, head)
}

/// A ghost item that begins with a word for predicates.
#[tactic(auto, unfolding(crate::specs::Items::predicates_at))]
fn predicates(cursor: &mut Cursor, depth: u32) -> Result<GhostForm, Stop>
    ensures { Gives result cursor.new.left.now (predicates_at depth cursor.old.left.now) }
{
    if cursor.sees_word(Side::Ghost, Keyword::Predicate) {
        return predicate(cursor, depth);
    }
    if cursor.sees_word(Side::Ghost, Keyword::PredicateFamily) {
        return family(cursor, depth);
    }
    if cursor.sees_word(Side::Ghost, Keyword::PredicateFamilyInstance) {
        return instance(cursor, depth);
    }
    predicate_constructor(cursor, depth)
}

#[tactic(auto, unfolding(crate::specs::Items::form_at))]
fn form(cursor: &mut Cursor, depth: u32) -> Result<GhostForm, Stop>
    ensures { Gives result cursor.new.left.now (form_at depth cursor.old.left.now) }
{
    if cursor.sees_word(Side::Ghost, Keyword::Inductive) {
        return inductive(cursor, depth);
    }
    if cursor.sees_word(Side::Ghost, Keyword::Fixpoint) {
        return fixpoint(cursor, depth);
    }
    if cursor.sees_word(Side::Ghost, Keyword::Lemma) {
        return lemma(cursor, depth);
    }
    predicates(cursor, depth)
}

/// A ghost item that nests at most so deep.
#[tactic(auto, unfolding(crate::specs::Items::item_at))]
pub fn ghost_item(cursor: &mut Cursor, depth: u32) -> Result<GhostItem, Stop>
    ensures { Gives result cursor.new.left.now (item_at depth cursor.old.left.now) }
{
    let place = cursor.here()?;
    let form = form(cursor, depth)?;
    Ok(GhostItem { place, form })
}
