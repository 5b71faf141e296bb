//! The annotations of a unit.

use crate::forms::form_given;
use std::alloc::Global;
use vf_base::RuleFault;
use vf_commands::{around_statements, command_given};
use vf_contracts::{invariant_given, owned_contract_given};
use vf_datatypes::Stated;
use vf_declared::scope::Scope;
use vf_syntax::contract::{Contract, Invariant};
use vf_syntax::ghost_command::GhostCommand;
use vf_syntax::item::GhostItem;
use vf_walk::{Annotations, Owner};

/// Walks over the annotations of a unit, by the datatypes that stand anywhere in it.
#[derive(Drop)]
pub struct Ghosts {
    pub alloc: Global,
    pub stated: Stated,
}

impl Annotations for Ghosts {
    ghost use Rattle.vf_annotations.specs.Forms.{meanings};

    ghost meanings = { λ g. meanings g.stated };

    fn takes_contracts(&self) -> bool {
        true
    }

    fn contract(
        &self,
        scope: &mut Scope,
        owner: Owner,
        contract: &Contract,
    ) -> Result<(), RuleFault> {
        owned_contract_given(self.alloc, scope, owner, contract)
    }

    fn invariant(
        &self,
        scope: &mut Scope,
        _file: u32,
        invariant: &Invariant,
    ) -> Result<(), RuleFault> {
        invariant_given(self.alloc, scope, invariant)
    }

    fn command(&self, scope: &mut Scope, command: &GhostCommand) -> Result<(), RuleFault> {
        let around = around_statements(self.alloc);
        command_given(self.alloc, scope, &around, command)
    }

    fn item(&self, scope: &mut Scope, item: &GhostItem) -> Result<(), RuleFault> {
        form_given(self.alloc, scope, &self.stated, &item.form)
    }
}
