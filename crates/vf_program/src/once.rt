//! Structs, each once.

ghost use Rattle.std.specs.Prelude.{◌≡◌, [], map, IfOk};
ghost use Rattle.vf_core.specs.Shown.{struct_of};
ghost use Rattle.vf_program.specs.Indexes.{struct_identities};
ghost use Rattle.vf_program.specs.Programs.{each_once};

use std::alloc::Global;
use vf_base::{Memory, Sequence, Text};
use vf_core::{StructBody, text_of};
use vf_names::Names;

/// Structs of which no two have one identity, and their identities in the same order.
#[derive(Drop)]
pub struct Distinct {
    pub identities: Names,
    pub bodies: Sequence<StructBody>,
}

/// Of each identity among some structs the first.
pub fn each_once(
    alloc: Global,
    names: &Sequence<Text>,
    structs: Vec<StructBody>,
) -> Result<Distinct, Memory>
    ensures bodies { IfOk result (λ d. map (struct_of names.now) d.bodies ≡ each_once [] (map (struct_of names.now) structs.items)) }
    ensures identities { IfOk result (λ d. d.identities ≡ struct_identities names.now d.bodies) }
{
    let mut identities = Names::new(alloc);
    let mut bodies = Sequence::new(alloc);
    for body in structs {
        let identity = text_of(names, body.identity);
        if identities.number(identity).is_none() {
            identities.push(identity)?;
            bodies.push(body)?;
        }
    }
    Ok(Distinct { identities, bodies })
}
