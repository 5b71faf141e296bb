//! The reader of annotations in C text.

use vf_cursor::cursor::Cursor;
use vf_cursor::fault::Stop;
use vf_parse_command::commands::command;
use vf_parse_ghost::contracts::{claim, contract, invariant};
use vf_parse_ghost::items::ghost_item;
use vf_parse_statement::annotations::GhostText;
use vf_syntax::contract::{Claim, Contract, Invariant};
use vf_syntax::ghost_command::GhostCommand;
use vf_syntax::item::GhostItem;

/// Reads all that annotations may hold.
#[derive(Clone, Copy, Debug)]
pub struct Annotations;

impl GhostText for Annotations {
    ghost use Rattle.vf_parse_command.specs.Commands as commands;
    ghost use Rattle.vf_parse_ghost.specs.Clauses as clauses;
    ghost use Rattle.vf_parse_ghost.specs.Items as items;
    ghost use Rattle.vf_parse_command.proofs.CommandsRead.{command_sound};
    ghost use Rattle.vf_parse_ghost.proofs.ContractsRead.{claim_sound, contract_sound, invariant_sound};
    ghost use Rattle.vf_parse_ghost.proofs.ItemsRead.{item_sound};

    ghost command_at = { commands.command_at };

    ghost invariant_at = { clauses.invariant_at };

    ghost contract_at = { clauses.contract_at };

    ghost claim_at = { clauses.claim_at };

    ghost item_at = { items.item_at };

    ghost reads_commands = { command_sound };

    ghost reads_invariants = { invariant_sound };

    ghost reads_contracts = { contract_sound };

    ghost reads_claims = { claim_sound };

    ghost reads_items = { item_sound };

    fn command(&self, cursor: &mut Cursor, depth: u32) -> Result<GhostCommand, Stop> {
        command(cursor, depth)
    }

    fn invariant(&self, cursor: &mut Cursor, depth: u32) -> Result<Invariant, Stop> {
        invariant(cursor, depth)
    }

    fn contract(&self, cursor: &mut Cursor, depth: u32) -> Result<Contract, Stop> {
        contract(cursor, depth)
    }

    fn claim(&self, cursor: &mut Cursor) -> Result<Claim, Stop> {
        claim(cursor)
    }

    fn item(&self, cursor: &mut Cursor, depth: u32) -> Result<GhostItem, Stop> {
        ghost_item(cursor, depth)
    }
}
