//! Invariants of loops, sorted and resolved.

ghost use Rattle.std.specs.Prelude.{◌≡◌, IfOk};
ghost use Rattle.vf_syntax.specs.AssertionTree.{part_list};
ghost use Rattle.vf_contracts.specs.Comes as contracts;
ghost use Rattle.vf_resolving.specs.Assertions.{parts_resolved};
ghost use Rattle.vf_resolving.specs.Standings.{standing_of};
ghost use Rattle.vf_resolved_contracts.specs.Reading.{around_with};
ghost use Rattle.vf_resolved_texts.specs.Resolves.{anew};
ghost use Rattle.vf_resolved_bodies.specs.Invariants.{IsInvariantKnown, IsInvariantTold};

use std::alloc::Global;
use vf_asserting::assertion_given;
use vf_base::{Memory, RuleFault, Text};
use vf_declared::scope::Scope;
use vf_resolved::assertion::Assertion;
use vf_resolved_contracts::{result_symbol, this_symbol, thread_symbol};
use vf_resolving::{Around, Standing, assertion_resolved};
use vf_sorting::Context;
use vf_sorts::Unknowns;
use vf_syntax::contract::Invariant;

/// What stands around the invariant of a loop.
fn around_invariant() -> Context
    ensures { result ≡ contracts.around_invariant }
{
    Context {
        result: None,
        has_this: false,
        has_thread: true,
        own: None,
    }
}

/// What is known of unknown sorts behind an invariant, whose names are gone; or its refusal.
#[tactic(auto, using(crate::proofs::Steps::invariant_fails, crate::proofs::Steps::invariant_known))]
fn invariant_known(
    alloc: Global,
    scope: &mut Scope,
    context: &Context,
    invariant: &Invariant,
) -> Result<Unknowns, RuleFault>
    requires { context.now ≡ contracts.around_invariant }
    ensures { IsInvariantKnown invariant.now scope.old result scope.new }
{
    let count = scope.locals.names.len();
    let mut unknowns = Unknowns::new(alloc);
    assertion_given(alloc, scope, context, &mut unknowns, &invariant.assertion)?;
    scope.locals.leave(count);
    Ok(unknowns)
}

/// An invariant with what is known of unknown sorts in the end, none of which is used yet.
fn invariant_read(
    alloc: Global,
    paths: &[Text],
    context: &Context,
    unknowns: &Unknowns,
    standing: &mut Standing,
    invariant: &Invariant,
) -> Result<Assertion, Memory>
    ensures { IfOk result (λ xs. parts_resolved (around_with context.now unknowns.now paths.now) (anew standing.old.scope (standing_of standing.old)) (part_list invariant.now.assertion) ≡ record { parts = xs; standing = standing_of standing.new }) }
{
    let result = result_symbol(alloc, context);
    let this_value = this_symbol(alloc);
    let thread = thread_symbol(alloc);
    let words = Around {
        alloc,
        context,
        unknowns,
        paths,
        result: &result,
        this_value: &this_value,
        thread: &thread,
    };
    standing.next = 0;
    assertion_resolved(&words, standing, &invariant.assertion)
}

/// The invariant of a loop where something is declared and numbered, which it goes on: the names that its patterns bind
/// are declared behind it.
///
/// # Errors
///
/// Refused where its sorting refuses it; what is declared and numbered is of no use then.
#[tactic(auto, using(crate::proofs::Steps::memory_of_invariant, crate::proofs::Steps::invariant_stops, crate::proofs::Steps::invariant_told))]
pub fn invariant_told(
    alloc: Global,
    paths: &[Text],
    standing: &mut Standing,
    invariant: &Invariant,
) -> Result<Assertion, RuleFault>
    ensures { IsInvariantTold paths.now invariant.now (standing_of standing.old) result (standing_of standing.new) }
{
    let context = around_invariant();
    let unknowns = invariant_known(alloc, &mut standing.scope, &context, invariant)?;
    let read = invariant_read(alloc, paths, &context, &unknowns, standing, invariant)?;
    Ok(read)
}
