//! Refutations over a basis, no fixpoint being unfolded.

ghost use Rattle.std.specs.Prelude.{◌≡◌, List, IfOk, MatchOption};
ghost use Rattle.vf_closure.specs.Literals as pure;
ghost use Rattle.vf_closure.specs.Closure.{no_unfoldings, Conflict};
ghost use Rattle.vf_refute.specs.Refutations.{IsRefutation};
ghost use Rattle.vf_reasons.specs.Drafts.{IsOver};

use crate::basis::Basis;
use std::alloc::Global;
use vf_base::Memory;
use vf_chains::short_refutation;
use vf_log::copy_table;
use vf_reading::closures_agree;
use vf_refute::{Fact, Step};
use vf_refuting as refuting;

/// A copy of some facts.
pub(crate) fn copy_facts(alloc: Global, facts: &[Fact]) -> Result<Vec<Fact>, Memory>
    ensures { IfOk result (λ v. v.items ≡ facts.now) }
{
    let mut copies = Vec::new(alloc);
    for fact in facts {
        copies.push(*fact)?;
    }
    Ok(copies)
}

/// The same, by the closure of the facts.
fn long_refutation(
    alloc: Global,
    basis: &Basis,
    facts: &[Fact],
) -> Result<Option<Vec<Step>>, Memory>
    requires { (literals : List pure.Literal) × IsOver literals basis.now.nodes.items basis.now.terms.items facts.now }
    ensures { IfOk result
        (λ o. MatchOption o ((literals : List pure.Literal) → IsOver literals basis.now.nodes.items basis.now.terms.items facts.now → Conflict no_unfoldings literals → ⊥)
        (λ steps. IsRefutation basis.now.nodes.items facts.now steps.items)) }
{
    closures_agree();
    let nodes = copy_table(alloc, &basis.nodes)?;
    let copies = copy_facts(alloc, facts)?;
    let steps = refuting::refutation(alloc, nodes, copies)?;
    Ok(steps)
}

/// The steps of a refutation of some facts over the table of a basis; none exactly where the literals that
/// they are have no conflict, no fixpoint being unfolded. First one chain is looked for.
pub(crate) fn refutation_over(
    alloc: Global,
    basis: &Basis,
    facts: &[Fact],
) -> Result<Option<Vec<Step>>, Memory>
    requires { (literals : List pure.Literal) × IsOver literals basis.now.nodes.items basis.now.terms.items facts.now }
    ensures { IfOk result
        (λ o. MatchOption o ((literals : List pure.Literal) → IsOver literals basis.now.nodes.items basis.now.terms.items facts.now → Conflict no_unfoldings literals → ⊥)
        (λ steps. IsRefutation basis.now.nodes.items facts.now steps.items)) }
{
    match short_refutation(alloc, &basis.nodes, facts)? {
        Some(steps) => Ok(Some(steps)),
        None => long_refutation(alloc, basis, facts),
    }
}
