//! One part of an annotation.

ghost use Rattle.std.specs.Prelude.{◌≡◌, ◌≤◌, drop, length};
ghost use Rattle.vf_cursor.specs.Parsing.{Gives};
ghost use Rattle.vf_parse_part.specs.Parts.{part_at, PartAnswers};

use std::alloc::Global;
use vf_base::Place;
use vf_cursor::cursor::Cursor;
use vf_cursor::fault::Stop;
use vf_lexer::Token;
use vf_parse_command::commands::command;
use vf_parse_ghost::contracts::{claim, contract, invariant};
use vf_parse_ghost::items::ghost_item;
use vf_parse_real::fault::{ParseFault, stop_of};
use vf_syntax::contract::{Claim, Contract, Invariant};
use vf_syntax::ghost_command::GhostCommand;
use vf_syntax::item::GhostItem;

/// How many ghost commands, assertions, sorts, expressions and operators in front of their operand may stand in
/// one another at a token.
const MOST_NESTING: u32 = 128;

/// A kind of ghost parts.
#[derive(Clone, Copy, Debug, PartialEq, Eq)]
pub enum GhostPart {
    /// `: T`
    Claim,
    /// `requires A; ensures B;`
    Contract,
    /// `invariant A;`
    Invariant,
    /// A datatype, a fixpoint, a predicate or a lemma.
    Item,
    /// A ghost command.
    Command,
}

/// A ghost part of each kind.
#[derive(Drop)]
pub enum GhostTree {
    Claim(Claim),
    Contract(Contract),
    Invariant(Invariant),
    Item(GhostItem),
    Command(GhostCommand),
}

#[tactic(auto, unfolding(crate::specs::Parts::part_at))]
fn part(cursor: &mut Cursor, kind: GhostPart, depth: u32) -> Result<GhostTree, Stop>
    ensures { Gives result cursor.new.left.now (part_at kind depth cursor.old.left.now) }
{
    match kind {
        GhostPart::Claim => Ok(GhostTree::Claim(claim(cursor)?)),
        GhostPart::Contract => Ok(GhostTree::Contract(contract(cursor, depth)?)),
        GhostPart::Invariant => Ok(GhostTree::Invariant(invariant(cursor, depth)?)),
        GhostPart::Item => Ok(GhostTree::Item(ghost_item(cursor, depth)?)),
        GhostPart::Command => Ok(GhostTree::Command(command(cursor, depth)?)),
    }
}

/// One ghost part that begins at an index of the tokens, and the index behind it.
///
/// `end` is the place of the file's end.
///
/// # Errors
///
/// Syntax at the first token that cannot stand there, or at the end; Depth at a token that stands more than 128
/// deep; and Memory.
#[tactic(auto, using(crate::proofs::PartsRead::refused))]
pub fn parse_ghost(
    alloc: Global,
    tokens: &[Token],
    at: usize,
    kind: GhostPart,
    end: Place,
) -> Result<(GhostTree, usize), ParseFault>
    requires { at ≤ length tokens.now }
    ensures { PartAnswers result end tokens.now (part_at kind 128 (drop at tokens.now)) }
{
    let mut cursor = Cursor {
        alloc,
        left: &tokens[at..],
    };
    match part(&mut cursor, kind, MOST_NESTING) {
        Ok(tree) => Ok((tree, tokens.len().saturating_sub(cursor.left.len()))),
        Err(stop) => Err(stop_of(tokens, end, stop)),
    }
}
