//! Programs as they run.

ghost use Rattle.std.specs.Prelude.{◌≡◌, List, IfOk};
ghost use Rattle.vf_core.specs.Shown.{identity_of, program_of};
ghost use Rattle.vf_core.specs.Resolution.{IsResolved, AreResolved};

use crate::resolve::{Resolved, resolve_text, text_of};
use crate::step::Unit;
use crate::words::Name;
use std::alloc::Global;
use vf_base::{Memory, Sequence};

/// A program that can be run: a unit, and what each of its names calls, found once.
#[derive(Debug, Drop)]
pub struct Program {
    pub unit: Unit,
    pub resolved: Sequence<Resolved>,
    ghost right: { AreResolved unit resolved },
}

/// The program of one unit.
pub fn assemble_unit(alloc: Global, unit: Unit) -> Result<Program, Memory>
    ensures { IfOk result (λ p. p.unit ≡ unit) }
{
    let resolved = resolve_all(alloc, &unit)?;
    Ok(Program { unit, resolved })
}

/// What each name of a unit calls.
fn resolve_all(alloc: Global, unit: &Unit) -> Result<Sequence<Resolved>, Memory>
    ensures { IfOk result (λ all. AreResolved unit.now all) }
{
    let mut all = Sequence::new(alloc);
    for text in unit.names.as_slice() {
        all.push(resolve_text(unit, text.as_bytes()))?;
    }
    Ok(all)
}

/// What a name calls.
pub fn resolved(program: &Program, name: Name) -> Resolved
    ensures { IsResolved (program_of program.now.unit) (identity_of program.now.unit.names name) result }
{
    match program.resolved.get(name.number as usize) {
        Some(resolved) => *resolved,
        None => resolve_text(&program.unit, text_of(&program.unit.names, name)),
    }
}
