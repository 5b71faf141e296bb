//! Items: functions, function types, structs, and the items of annotations.

ghost use Rattle.std.specs.Prelude.{◌≡◌};
ghost use Rattle.vf_cursor.specs.Parsing.{Gives};
ghost use Rattle.vf_parse_statement.specs.Parsers.{owed_at, body_at};
ghost use Rattle.vf_parse_item.specs.Parsers.{function_type_at, any_claim_at, any_contract_at, prototype_at, definition_at, function_at, real_item_at, item_at};

use crate::signatures::{sees_struct, signature, structure};
use vf_cursor::cursor::Cursor;
use vf_cursor::fault::Stop;
use vf_lexer::Punctuator;
use vf_parse_statement::annotations::GhostText;
use vf_parse_statement::flat::{is_whole, sees_annotation};
use vf_parse_statement::statements::body;
use vf_syntax::contract::{Claim, Contract};
use vf_syntax::item::{Item, Signature};
use vf_syntax::keyword::Keyword;
use vf_syntax::side::{Grammar, Side};

/// A contract, which the whole grammar owes.
fn owed_contract<G: GhostText>(
    cursor: &mut Cursor,
    annotations: &G,
    grammar: Grammar,
    depth: u32,
) -> Result<Option<Contract>, Stop>
    ensures { Gives result cursor.new.left.now (owed_at grammar (G.contract_at depth) cursor.old.left.now) }
{
    if is_whole(grammar) {
        let read = annotations.contract(cursor, depth)?;
        return Ok(Some(read));
    }
    Ok(None)
}

/// A claim, or none where no `:` comes next.
#[tactic(auto, unfolding(crate::specs::Parsers::any_claim_at))]
fn any_claim<G: GhostText>(
    cursor: &mut Cursor,
    annotations: &G,
    grammar: Grammar,
) -> Result<Option<Claim>, Stop>
    ensures { Gives result cursor.new.left.now (any_claim_at grammar G.claim_at cursor.old.left.now) }
{
    if is_whole(grammar) && cursor.sees_mark(Side::Ghost, Punctuator::Colon) {
        let read = annotations.claim(cursor)?;
        return Ok(Some(read));
    }
    Ok(None)
}

/// A contract, or none where no `requires` comes next.
#[tactic(auto, unfolding(crate::specs::Parsers::any_contract_at))]
fn any_contract<G: GhostText>(
    cursor: &mut Cursor,
    annotations: &G,
    grammar: Grammar,
    depth: u32,
) -> Result<Option<Contract>, Stop>
    ensures { Gives result cursor.new.left.now (any_contract_at grammar (G.contract_at depth) cursor.old.left.now) }
{
    if is_whole(grammar) && cursor.sees_word(Side::Ghost, Keyword::Requires) {
        let read = annotations.contract(cursor, depth)?;
        return Ok(Some(read));
    }
    Ok(None)
}

/// A function type and its contract.
#[tactic(auto, unfolding(crate::specs::Parsers::function_type_at))]
fn function_type<G: GhostText>(
    cursor: &mut Cursor,
    annotations: &G,
    grammar: Grammar,
    depth: u32,
) -> Result<Item, Stop>
    ensures { Gives result cursor.new.left.now (function_type_at grammar (G.contract_at depth) cursor.old.left.now) }
{
    let place = cursor.word(Side::Real, Keyword::Typedef)?;
    let signed = signature(cursor)?;
    cursor.mark(Side::Real, Punctuator::Semicolon)?;
    let contract = owed_contract(cursor, annotations, grammar, depth)?;
    Ok(Item::FunctionType(place, signed, contract))
}

/// What stands behind the signature of a function without a body.
#[tactic(auto, unfolding(crate::specs::Parsers::prototype_at))]
fn prototype<G: GhostText>(
    cursor: &mut Cursor,
    annotations: &G,
    grammar: Grammar,
    depth: u32,
    signed: Signature,
) -> Result<Item, Stop>
    ensures { Gives result cursor.new.left.now (prototype_at grammar G.claim_at (G.contract_at depth) signed cursor.old.left.now) }
{
    cursor.mark(Side::Real, Punctuator::Semicolon)?;
    let claim = any_claim(cursor, annotations, grammar)?;
    let contract = owed_contract(cursor, annotations, grammar, depth)?;
    Ok(Item::Prototype(signed, claim, contract))
}

/// What stands behind the signature of a function with a body.
#[tactic(auto, unfolding(crate::specs::Parsers::definition_at))]
fn definition<G: GhostText>(
    cursor: &mut Cursor,
    annotations: &G,
    grammar: Grammar,
    depth: u32,
    signed: Signature,
) -> Result<Item, Stop>
    ensures { Gives result cursor.new.left.now (definition_at grammar G.claim_at (G.contract_at depth) (body_at grammar G.command_at G.invariant_at depth) signed cursor.old.left.now) }
{
    let claim = any_claim(cursor, annotations, grammar)?;
    let contract = any_contract(cursor, annotations, grammar, depth)?;
    let body = body(cursor, annotations, grammar, depth)?;
    Ok(Item::Function(signed, claim, contract, body))
}

/// A function, with or without a body.
#[tactic(auto, unfolding(crate::specs::Parsers::function_at))]
fn function<G: GhostText>(
    cursor: &mut Cursor,
    annotations: &G,
    grammar: Grammar,
    depth: u32,
) -> Result<Item, Stop>
    ensures { Gives result cursor.new.left.now (function_at grammar G.claim_at (G.contract_at depth) (body_at grammar G.command_at G.invariant_at depth) cursor.old.left.now) }
{
    let signed = signature(cursor)?;
    if cursor.sees_mark(Side::Real, Punctuator::Semicolon) {
        return prototype(cursor, annotations, grammar, depth, signed);
    }
    definition(cursor, annotations, grammar, depth, signed)
}

/// An item of real text.
#[tactic(auto, unfolding(crate::specs::Parsers::real_item_at))]
fn real_item<G: GhostText>(
    cursor: &mut Cursor,
    annotations: &G,
    grammar: Grammar,
    depth: u32,
) -> Result<Item, Stop>
    ensures { Gives result cursor.new.left.now (real_item_at grammar G.claim_at (G.contract_at depth) (body_at grammar G.command_at G.invariant_at depth) cursor.old.left.now) }
{
    if sees_struct(cursor) {
        return structure(cursor);
    }
    if cursor.sees_word(Side::Real, Keyword::Typedef) {
        return function_type(cursor, annotations, grammar, depth);
    }
    function(cursor, annotations, grammar, depth)
}

/// An item that nests so deep at most.
#[tactic(auto, unfolding(crate::specs::Parsers::item_by))]
pub fn item<G: GhostText>(
    cursor: &mut Cursor,
    annotations: &G,
    grammar: Grammar,
    depth: u32,
) -> Result<Item, Stop>
    ensures { Gives result cursor.new.left.now (item_at grammar G.command_at G.invariant_at G.contract_at G.claim_at G.item_at depth cursor.old.left.now) }
{
    if sees_annotation(cursor, grammar) {
        let read = annotations.item(cursor, depth)?;
        return Ok(Item::Ghost(read));
    }
    real_item(cursor, annotations, grammar, depth)
}
