//! The steps of a refutation over a basis, behind the steps that were written.

ghost use Rattle.std.specs.Prelude.{◌≡◌, ◌<◌, ◌^◌, ◌+◌, length, map, IfOk};
ghost use Rattle.vf_reasons.specs.Shifts.{IsForFact, IsShifted};

use crate::basis::{Basis, place_of_zero};
use std::alloc::Global;
use vf_base::Memory;
use vf_refute::{Numbers, Step};

/// The number of a step behind a base.
fn shifted(base: u32, number: u32) -> Result<u32, Memory>
    ensures { IfOk result (λ n. n ≡ base + number) }
{
    match base.checked_add(number) {
        Some(shifted) => Ok(shifted),
        None => Err(Memory),
    }
}

/// The numbers of steps behind a base.
fn shifted_all(alloc: Global, base: u32, numbers: &[u32]) -> Result<Vec<u32>, Memory>
    ensures { IfOk result (λ v. v.items ≡ map (λ n. base + n) numbers.now) }
{
    let mut all = Vec::new(alloc);
    for number in numbers {
        all.push(shifted(base, *number)?)?;
    }
    Ok(all)
}

/// A step that derives what the fact with a number says.
fn for_fact(alloc: Global, basis: &Basis, i: u32) -> Step
    requires { length basis.now.terms.items < 2 ^ 32 }
    ensures { IsForFact basis.now i result }
{
    if i < basis.asked {
        return Step::Fact(i);
    }
    if i == basis.asked {
        return Step::Reflexive(place_of_zero(alloc, &basis.terms));
    }
    match basis.equations.get((i - basis.asked - 1) as usize) {
        Some(step) => Step::Symmetric(*step),
        None => Step::Fact(i),
    }
}

/// The same step behind a base; a fact of the basis that is none of the question's is derived by what was
/// written.
pub(crate) fn shift(alloc: Global, basis: &Basis, base: u32, step: &Step) -> Result<Step, Memory>
    requires { length basis.now.terms.items < 2 ^ 32 }
    ensures { IfOk result (IsShifted basis.now base step.now) }
{
    match step {
        Step::Fact(i) => Ok(for_fact(alloc, basis, *i)),
        Step::Reflexive(t) => Ok(Step::Reflexive(*t)),
        Step::Symmetric(a) => Ok(Step::Symmetric(shifted(base, *a)?)),
        Step::Transitive(a, b) => Ok(Step::Transitive(shifted(base, *a)?, shifted(base, *b)?)),
        Step::Congruent(a, b, steps) => {
            let numbers = shifted_all(alloc, base, &steps.numbers)?;
            Ok(Step::Congruent(*a, *b, Numbers { numbers }))
        }
        Step::Part(a, i) => Ok(Step::Part(shifted(base, *a)?, *i)),
        Step::Above(a, origin) => Ok(Step::Above(*a, *origin)),
        Step::Below(a, origin) => Ok(Step::Below(*a, *origin)),
        Step::LevelAbove(a) => Ok(Step::LevelAbove(shifted(base, *a)?)),
        Step::LevelBelow(a) => Ok(Step::LevelBelow(shifted(base, *a)?)),
        Step::Chain(a, b) => Ok(Step::Chain(shifted(base, *a)?, shifted(base, *b)?)),
        Step::Squeezed(a, b) => Ok(Step::Squeezed(shifted(base, *a)?, shifted(base, *b)?)),
        Step::Conflict(a) => Ok(Step::Conflict(shifted(base, *a)?)),
        Step::DeniedDifference(a, b) => {
            Ok(Step::DeniedDifference(shifted(base, *a)?, shifted(base, *b)?))
        }
        Step::Falsehood(i) => Ok(Step::Falsehood(*i)),
    }
}
