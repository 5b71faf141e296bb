//! Uses of what has type parameters, and sorts that are made equal.

ghost use Rattle.std.specs.Prelude.{◌≡◌, ◌+◌, ◌<◌, ◌≤◌, ◌^◌, length, IfOk, OnOk, IsTrue, ◌↔◌};
ghost use Rattle.vf_sorts.specs.Unknowns.{IsBelow};
ghost use Rattle.vf_sorting.specs.Kinds.{with_fresh};
ghost use Rattle.vf_sorting.specs.Answers.{IsEquated};
ghost use Rattle.vf_sorting.specs.Scopes.{IsSchemeBelow};

use crate::refusal::refused;
use crate::scheme::Scheme;
use vf_base::{Memory, Place, Rule, RuleFault};
use vf_sorts::{Sort, Unknowns};

/// So many unknown sorts more; gives the number of the first.
#[tactic(auto, using(crate::proofs::Below::fresh_more, crate::proofs::Below::fresh_length))]
pub fn fresh(unknowns: &mut Unknowns, count: usize) -> Result<usize, Memory>
    ensures first { IfOk result (λ first. first ≡ length unknowns.old) }
    ensures added { OnOk result (unknowns.new ≡ with_fresh unknowns.old count) }
    ensures fits { IfOk result (λ first. first + count < 2 ^ 64) }
{
    let first = unknowns.len();
    for _made in 0..count {
        unknowns.fresh()?;
    }
    let _end = unknowns.len();
    Ok(first)
}

/// Makes a sort equal to a wanted one, or refuses it at a place.
#[tactic(auto, using(crate::proofs::Steps::equated_ok, crate::proofs::Steps::equated_apart, crate::proofs::Steps::equated_memory))]
pub fn equate(
    unknowns: &mut Unknowns,
    sort: &Sort,
    wanted: &Sort,
    place: Place,
) -> Result<(), RuleFault>
    requires sort { IsBelow (length unknowns.old) sort.now }
    requires wanted { IsBelow (length unknowns.old) wanted.now }
    ensures { IsEquated unknowns.old sort.now wanted.now place result unknowns.new }
{
    if !unknowns.unify(sort, wanted)? {
        return Err(refused(Rule::Typing, place));
    }
    Ok(())
}

/// Whether the unknown sorts in a scheme are among those of which something or nothing is known.
#[tactic(auto, using(crate::proofs::Steps::scheme_told, crate::proofs::Steps::scheme_not_told))]
pub fn has_scheme(unknowns: &Unknowns, scheme: &Scheme) -> bool
    ensures { IsTrue result ↔ IsSchemeBelow (length unknowns.now) scheme.now }
{
    if !unknowns.has_all(&scheme.arguments) {
        return false;
    }
    unknowns.has(&scheme.result)
}
