//! The definitions of a unit.

ghost use Rattle.std.specs.Prelude.{◌≡◌, [], ◌∷◌, ◌++◌, IfOk, OnOk, OnErr};

use crate::fixpoint::Fixpoint;
use std::alloc::Global;
use std::marker::Model;
use vf_base::{Memory, Sequence};

/// The fixpoints of a unit, in the order of their declarations.
#[derive(Debug, Drop)]
pub struct Definitions {
    fixpoints: Sequence<Fixpoint>,
}

impl Model for Definitions {
    ghost use Rattle.std.specs.Prelude.{List};
    ghost use Rattle.std.specs.Coded.{coded_list};
    ghost use Rattle.vf_definitions.specs.declared.fixpoint.Fixpoint.{Fixpoint};
    ghost use Rattle.vf_definitions.specs.contracts.fixpoint.Fixpoint as fixpoint_row;

    ghost Value = { List Fixpoint };

    ghost coded = { coded_list fixpoint_row.the_row.coded };

    ghost view = { λ d. d.fixpoints };
}

/// The same fixpoints again.
fn copied(alloc: Global, fixpoints: &Sequence<Fixpoint>) -> Result<Sequence<Fixpoint>, Memory>
    ensures { IfOk result (λ l. l ≡ fixpoints.now) }
{
    let mut copies = Sequence::new(alloc);
    for fixpoint in fixpoints.as_slice() {
        copies.push(fixpoint.copy(alloc)?)?;
    }
    Ok(copies)
}

impl Definitions {
    /// No definitions, which take no memory.
    pub fn new(alloc: Global) -> Definitions
        ensures { result ≡ [] }
    {
        Definitions {
            fixpoints: Sequence::new(alloc),
        }
    }

    /// Puts a fixpoint behind the others. Where there is no memory for it they stay as they were.
    pub fn push(&mut self, fixpoint: Fixpoint) -> Result<(), Memory>
        ensures pushed { OnOk result (self.new ≡ self.old ++ fixpoint ∷ []) }
        ensures unchanged { OnErr result (self.new ≡ self.old) }
    {
        self.fixpoints.push(fixpoint)
    }

    /// The fixpoints in their order.
    pub fn as_slice(&self) -> &[Fixpoint]
        ensures { result.now ≡ self.now }
    {
        self.fixpoints.as_slice()
    }

    /// The same definitions again.
    pub fn copy(&self, alloc: Global) -> Result<Definitions, Memory>
        ensures { IfOk result (λ d. d ≡ self.now) }
    {
        let fixpoints = copied(alloc, &self.fixpoints)?;
        Ok(Definitions { fixpoints })
    }
}
