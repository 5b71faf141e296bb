//! Units: items up to the end of the tokens.

ghost use Rattle.std.specs.Prelude.{◌≡◌, [], IfOk, Some, None, Err};
ghost use Rattle.vf_base.specs.declared.place.Place.{Place};
ghost use Rattle.vf_syntax.specs.Walks.{head_has};
ghost use Rattle.vf_syntax.specs.Units.{Spells};
ghost use Rattle.vf_cursor.specs.Parsing.{Gives};
ghost use Rattle.vf_parse_item.specs.Parsers.{item_at};
ghost use Rattle.vf_parse_real.specs.declared.fault.ParseFault.TheVariants as parse_faults;
ghost use Rattle.vf_parse_real.specs.Units.{is_any, items_by, unit_at};
ghost use Rattle.vf_parse_real.specs.Faults.{Answers};
ghost use Rattle.vf_parse_real.specs.Unsupported.{first_unsupported};

use crate::fault::{ParseFault, stop_of};
use crate::unsupported::first_unsupported;
use std::alloc::Global;
use vf_base::{NumberList, Place, Sequence};
use vf_cursor::cursor::Cursor;
use vf_cursor::fault::Stop;
use vf_lexer::Token;
use vf_parse_item::items::item;
use vf_parse_statement::annotations::GhostText;
use vf_syntax::item::{Item, Unit};
use vf_syntax::side::Grammar;

/// How many statements, ghost commands, assertions, sorts, expressions and operators in front of their
/// operand may stand in one another at a token.
pub const MOST_NESTING: u32 = 128;

fn sees_any(cursor: &Cursor) -> bool
    ensures { result ≡ head_has is_any cursor.now.left.now }
{
    match cursor.left {
        [] => false,
        [_, ..] => true,
    }
}

/// Items, one after another.
#[tactic(auto, unfolding(crate::specs::Units::items_by), using(vf_cursor::proofs::Loop::many_stops, vf_parse_expression::proofs::Items::items_go, vf_parse_expression::proofs::Items::items_fail))]
fn items<G: GhostText>(
    cursor: &mut Cursor,
    annotations: &G,
    grammar: Grammar,
    depth: u32,
) -> Result<Sequence<Item>, Stop>
    ensures { Gives result cursor.new.left.now (items_by (item_at grammar G.command_at G.invariant_at G.contract_at G.claim_at G.item_at depth) cursor.old.left.now) }
{
    let mut items = Sequence::new(cursor.alloc);
    let most = cursor.left.len();
    for i in 0..most {
        if !sees_any(cursor) {
            return Ok(items);
        }
        let next = item(cursor, annotations, grammar, depth)?;
        items.push(next)?;
    }
    Ok(items)
}

/// Items up to the end of the tokens.
#[tactic(auto, unfolding(crate::specs::Units::unit_by, vf_cursor::specs::Parsing::end_at))]
fn all_items<G: GhostText>(
    alloc: Global,
    annotations: &G,
    grammar: Grammar,
    depth: u32,
    tokens: &[Token],
) -> Result<Sequence<Item>, Stop>
    ensures { Gives result [] (unit_at grammar G.command_at G.invariant_at G.contract_at G.claim_at G.item_at depth tokens.now) }
{
    let mut cursor = Cursor {
        alloc,
        left: tokens,
    };
    let read = items(&mut cursor, annotations, grammar, depth)?;
    match cursor.left {
        [] => Ok(read),
        [_, ..] => Err(cursor.syntax()),
    }
}

/// Reads tokens, none of which is refused by name.
pub fn parse_supported<G: GhostText>(
    alloc: Global,
    annotations: &G,
    grammar: Grammar,
    tokens: &[Token],
    headers: NumberList,
    end: Place,
) -> Result<Unit, ParseFault>
    ensures spelled { IfOk result (λ u. Spells grammar 128 u tokens.now) }
    ensures read { Answers result end tokens.now (unit_at grammar G.command_at G.invariant_at G.contract_at G.claim_at G.item_at 128 tokens.now) }
    ensures headers { IfOk result (λ u. u.headers ≡ headers) }
{
    match all_items(alloc, annotations, grammar, MOST_NESTING, tokens) {
        Ok(items) => Ok(Unit { items, headers }),
        Err(stop) => Err(stop_of(tokens, end, stop)),
    }
}

/// Reads the tokens of a file by a grammar, with what reads its annotations, the numbers of its headers and
/// the place of its end.
pub fn parse_by<G: GhostText>(
    alloc: Global,
    annotations: &G,
    grammar: Grammar,
    tokens: &[Token],
    headers: NumberList,
    end: Place,
) -> Result<Unit, ParseFault>
    ensures spelled { IfOk result (λ u. Spells grammar 128 u tokens.now) }
    ensures unsupported { (p : Place) → first_unsupported tokens.now ≡ Some p → result ≡ Err (parse_faults.Unsupported p) }
    ensures read { first_unsupported tokens.now ≡ None → Answers result end tokens.now (unit_at grammar G.command_at G.invariant_at G.contract_at G.claim_at G.item_at 128 tokens.now) }
    ensures headers { IfOk result (λ u. u.headers ≡ headers) }
{
    match first_unsupported(tokens) {
        Some(place) => Err(ParseFault::Unsupported(place)),
        None => parse_supported(alloc, annotations, grammar, tokens, headers, end),
    }
}
