//! `open` and `close`.

ghost use Rattle.std.specs.Prelude.{◌≡◌, length};
ghost use Rattle.vf_binding.specs.Chunks.{IsTakenBelow};
ghost use Rattle.vf_commands.specs.Answers.{AreValues, IsClosed, IsOpened};
ghost use Rattle.vf_commands.specs.Opening.{share_binds};

use std::alloc::Global;
use vf_base::{Place, Rule, RuleFault, Sequence};
use vf_binding::bound::{Bound, no_names};
use vf_binding::chunk_sorts::{ChunkSorts, chunk_takes, has_chunk};
use vf_binding::{head_list_checked, share_bound, taken_bound};
use vf_declared::scope::Scope;
use vf_sorting::Context;
use vf_sorting::refusal::refused;
use vf_sorts::Unknowns;
use vf_syntax::pattern::{Amount, Pattern, Share};
use vf_syntax::written::Name;

/// What `open` binds, or its refusal.
#[tactic(auto, using(crate::proofs::Opens::open_memory, crate::proofs::Opens::open_share_fails, crate::proofs::Opens::open_nothing, crate::proofs::Opens::open_taken_fails, crate::proofs::Opens::open_binds))]
pub fn open_bound(
    alloc: Global,
    scope: &Scope,
    context: &Context,
    unknowns: &mut Unknowns,
    share: &Option<Share>,
    name: &Name,
    first: &Sequence<Pattern>,
    second: &Option<Sequence<Pattern>>,
) -> Result<Bound, RuleFault>
    ensures { IsOpened scope.now context.now unknowns.old share.now name.now first.now second.now result unknowns.new }
{
    let mut bound = no_names(alloc);
    share_bound(alloc, scope, context, unknowns, &mut bound, share)?;
    let Some(taken) = chunk_takes(alloc, scope, unknowns, name)? else {
        return Err(refused(Rule::Name, name.place));
    };
    taken_bound(
        alloc, scope, context, unknowns, &mut bound, &taken, name, first, second,
    )?;
    Ok(bound)
}

/// The place of the `?` of a share that binds a name.
fn share_binds(share: &Option<Share>) -> Option<Place>
    ensures { result ≡ share_binds share.now }
{
    let share = share.as_ref()?;
    match &share.amount {
        Amount::Binds(place, _) => Some(*place),
        Amount::Product(_, _) => None,
    }
}

/// Whether one or two pairs of parentheses behind a name at a place have expressions alone, which pass for what a chunk
/// takes.
#[tactic(auto, using(crate::proofs::Opens::needless_pair, crate::proofs::Opens::missing_pair, crate::proofs::Opens::one_pair_fails, crate::proofs::Opens::one_pair_passes, crate::proofs::Opens::first_pair_fails, crate::proofs::Opens::second_pair_fails, crate::proofs::Opens::two_pairs_pass, vf_binding::proofs::Parts::arguments_below, vf_binding::proofs::Parts::heads_below, vf_binding::proofs::Parts::arguments_below_then))]
fn values_checked(
    alloc: Global,
    scope: &Scope,
    context: &Context,
    unknowns: &mut Unknowns,
    taken: &ChunkSorts,
    place: Place,
    first: &Sequence<Pattern>,
    second: &Option<Sequence<Pattern>>,
) -> Result<(), RuleFault>
    requires { IsTakenBelow (length unknowns.old) taken.now }
    ensures { AreValues scope.now context.now unknowns.old taken.now place first.now second.now result unknowns.new }
{
    let arguments = &taken.arguments;
    let Some(second) = second else {
        if taken.heads.is_some() {
            return Err(refused(Rule::Typing, place));
        }
        head_list_checked(alloc, scope, context, unknowns, arguments, place, first)?;
        return Ok(());
    };
    let Some(heads) = &taken.heads else {
        return Err(refused(Rule::Typing, place));
    };
    head_list_checked(alloc, scope, context, unknowns, heads, place, first)?;
    head_list_checked(alloc, scope, context, unknowns, arguments, place, second)?;
    Ok(())
}

/// Whether `close` may stand.
#[tactic(auto, using(crate::proofs::Opens::close_memory, crate::proofs::Opens::close_share_binds, crate::proofs::Opens::close_share_fails, crate::proofs::Opens::close_nothing, crate::proofs::Opens::close_stray, crate::proofs::Opens::close_values_fail, crate::proofs::Opens::close_passes))]
pub fn close_checked(
    alloc: Global,
    scope: &Scope,
    context: &Context,
    unknowns: &mut Unknowns,
    share: &Option<Share>,
    name: &Name,
    first: &Sequence<Pattern>,
    second: &Option<Sequence<Pattern>>,
) -> Result<(), RuleFault>
    ensures { IsClosed scope.now context.now unknowns.old share.now name.now first.now second.now result unknowns.new }
{
    if let Some(place) = share_binds(share) {
        return Err(refused(Rule::Typing, place));
    }
    let mut bound = no_names(alloc);
    share_bound(alloc, scope, context, unknowns, &mut bound, share)?;
    let Some(taken) = chunk_takes(alloc, scope, unknowns, name)? else {
        return Err(refused(Rule::Name, name.place));
    };
    if !has_chunk(unknowns, &taken) {
        return Err(refused(Rule::Typing, name.place));
    }
    values_checked(
        alloc, scope, context, unknowns, &taken, name.place, first, second,
    )?;
    Ok(())
}
