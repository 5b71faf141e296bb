//! A refutation over a basis, written behind what was written.

ghost use Rattle.std.specs.Prelude.{◌≡◌, ◌<◌, ◌^◌, ◌++◌, ◌∷◌, [], length, IfOk, OnOk};
ghost use Rattle.vf_refute.specs.Refutations.{IsRefutation};
ghost use Rattle.vf_reasons.specs.Shifts.{HasWritten};
ghost use Rattle.vf_reasons.specs.Follows.{HaveFollowed};

use crate::basis::Basis;
use crate::draft::{Draft, write};
use crate::shifting::shift;
use std::alloc::Global;
use vf_base::Memory;
use vf_recheck::Step;
use vf_refute as refute;
use vf_refute::{Derived, Fact, derive};

/// Writes a step of a refutation over a basis that derives something.
fn follow_one(
    alloc: Global,
    basis: &Basis,
    draft: &mut Draft,
    base: u32,
    step: &refute::Step,
    derived: Derived,
) -> Result<(), Memory>
    requires few { length basis.now.terms.items < 2 ^ 32 }
    ensures known { OnOk result (draft.new.known.items ≡ draft.old.known.items ++ derived ∷ []) }
    ensures step { IfOk result (λ _. HasWritten basis.now base step.now draft.old.steps.items draft.new.steps.items) }
{
    let shifted = shift(alloc, basis, base, step)?;
    write(draft, Step::Plain(shifted), derived)?;
    Ok(())
}

/// The number of what comes behind the steps that were written.
fn base_of(draft: &Draft) -> Result<u32, Memory>
    ensures { IfOk result (λ n. n ≡ length draft.now.known.items) }
{
    match u32::try_from(draft.known.len()) {
        Ok(base) => Ok(base),
        Err(_) => Err(Memory),
    }
}

/// Writes the steps of a refutation over a basis and denials but for the last, and answers that.
pub(crate) fn follow(
    alloc: Global,
    basis: &Basis,
    draft: &mut Draft,
    facts: &[Fact],
    steps: &[refute::Step],
) -> Result<refute::Step, Memory>
    requires few { length basis.now.terms.items < 2 ^ 32 }
    requires refutes { IsRefutation basis.now.nodes.items facts.now steps.now }
    ensures { IfOk result (HaveFollowed basis.now facts.now draft.old draft.new) }
{
    let base = base_of(draft)?;
    let mut known: Vec<Derived> = Vec::new(alloc);
    for (i, step) in steps.iter().enumerate() {
        if i + 1 == steps.len() {
            let last = shift(alloc, basis, base, step)?;
            return Ok(last);
        }
        match derive(&basis.nodes, facts, &known, step) {
            Some(derived) => {
                follow_one(alloc, basis, draft, base, step, derived)?;
                known.push(derived)?;
            }
            None => unreachable!(),
        }
    }
    unreachable!()
}
