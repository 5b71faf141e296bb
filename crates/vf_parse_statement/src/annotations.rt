//! What annotations hold inside C text, read by an implementation that is given from outside.

use vf_cursor::cursor::Cursor;
use vf_cursor::fault::Stop;
use vf_syntax::contract::{Claim, Contract, Invariant};
use vf_syntax::ghost_command::GhostCommand;
use vf_syntax::item::GhostItem;

/// Reads what annotations hold inside C text.
///
/// Each call gives what a parser on lists of tokens gives, and what that reads is spelled by the tokens
/// that it takes, within the nesting that is allowed.
pub trait GhostText {
    ghost use Rattle.std.specs.Prelude.{ℕ};
    ghost use Rattle.vf_syntax.specs.declared.contract.Contract.{Contract};
    ghost use Rattle.vf_syntax.specs.declared.contract.Claim.{Claim};
    ghost use Rattle.vf_syntax.specs.declared.contract.Invariant.{Invariant};
    ghost use Rattle.vf_syntax.specs.declared.item.GhostItem.{GhostItem};
    ghost use Rattle.vf_syntax.specs.GhostCommandTree.{GhostCommandTree};
    ghost use Rattle.vf_cursor.specs.Parsing.{Parser, Gives};
    ghost use Rattle.vf_parse_statement.specs.Annotations.{ReadsCommands, ReadsInvariants, ReadsContracts, ReadsClaims, ReadsItems};

    // the parser of ghost commands that nest so deep at most, themselves counted
    ghost command_at: { ℕ → Parser GhostCommandTree };

    // the parser of invariants that nest so deep at most
    ghost invariant_at: { ℕ → Parser Invariant };

    // the parser of contracts that nest so deep at most
    ghost contract_at: { ℕ → Parser Contract };

    // the parser of claims
    ghost claim_at: { Parser Claim };

    // the parser of ghost items that nest so deep at most
    ghost item_at: { ℕ → Parser GhostItem };

    /// A ghost command that nests so deep at most, itself counted.
    fn command(&self, cursor: &mut Cursor, depth: u32) -> Result<GhostCommand, Stop>
        ensures { Gives result cursor.new.left.now (command_at depth cursor.old.left.now) };

    /// An invariant.
    fn invariant(&self, cursor: &mut Cursor, depth: u32) -> Result<Invariant, Stop>
        ensures { Gives result cursor.new.left.now (invariant_at depth cursor.old.left.now) };

    /// A contract.
    fn contract(&self, cursor: &mut Cursor, depth: u32) -> Result<Contract, Stop>
        ensures { Gives result cursor.new.left.now (contract_at depth cursor.old.left.now) };

    /// A claim.
    fn claim(&self, cursor: &mut Cursor) -> Result<Claim, Stop>
        ensures { Gives result cursor.new.left.now (claim_at cursor.old.left.now) };

    /// A ghost item.
    fn item(&self, cursor: &mut Cursor, depth: u32) -> Result<GhostItem, Stop>
        ensures { Gives result cursor.new.left.now (item_at depth cursor.old.left.now) };

    ghost reads_commands: { ReadsCommands command_at };

    ghost reads_invariants: { ReadsInvariants invariant_at };

    ghost reads_contracts: { ReadsContracts contract_at };

    ghost reads_claims: { ReadsClaims claim_at };

    ghost reads_items: { ReadsItems item_at };
}

/// Reads no annotations, as the grammar without them wants it.
#[derive(Clone, Copy, Debug)]
pub struct NoGhost;

impl GhostText for NoGhost {
    ghost use Rattle.vf_cursor.specs.Parsing.{fails_at};
    ghost use Rattle.vf_parse_statement.specs.Annotations.{reads_none};
    ghost use Rattle.vf_parse_statement.specs.NoGhosts.{no_commands, no_invariants, no_contracts, no_claims, no_items};

    ghost command_at = { reads_none };

    ghost invariant_at = { reads_none };

    ghost contract_at = { reads_none };

    ghost claim_at = { fails_at };

    ghost item_at = { reads_none };

    ghost reads_commands = { no_commands };

    ghost reads_invariants = { no_invariants };

    ghost reads_contracts = { no_contracts };

    ghost reads_claims = { no_claims };

    ghost reads_items = { no_items };

    fn command(&self, cursor: &mut Cursor, _depth: u32) -> Result<GhostCommand, Stop> {
        Err(cursor.syntax())
    }

    fn invariant(&self, cursor: &mut Cursor, _depth: u32) -> Result<Invariant, Stop> {
        Err(cursor.syntax())
    }

    fn contract(&self, cursor: &mut Cursor, _depth: u32) -> Result<Contract, Stop> {
        Err(cursor.syntax())
    }

    fn claim(&self, cursor: &mut Cursor) -> Result<Claim, Stop> {
        Err(cursor.syntax())
    }

    fn item(&self, cursor: &mut Cursor, _depth: u32) -> Result<GhostItem, Stop> {
        Err(cursor.syntax())
    }
}
