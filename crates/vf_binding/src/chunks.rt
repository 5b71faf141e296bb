//! Chunks.

ghost use Rattle.std.specs.Prelude.{length};
ghost use Rattle.vf_binding.specs.Answers.{AreArguments, IsChunk, IsTakenBound, IsTruth};
ghost use Rattle.vf_binding.specs.Chunks.{IsTakenBelow};

use crate::bound::Bound;
use crate::chunk_sorts::{ChunkSorts, chunk_takes, has_chunk};
use crate::heads::head_list_checked;
use crate::patterns::list_bound;
use crate::shares::share_bound;
use crate::truths::{is_known, is_plain, truth_checked};
use std::alloc::Global;
use vf_base::{Place, Rule, RuleFault, Sequence};
use vf_declared::scope::Scope;
use vf_sorting::Context;
use vf_sorting::refusal::refused;
use vf_sorts::Unknowns;
use vf_syntax::pattern::{Pattern, Share};
use vf_syntax::written::Name;

/// Binds what the patterns between one or two pairs of parentheses bind, for what a chunk takes whose name stands at a
/// place, or refuses them.
#[tactic(auto, using(crate::proofs::Parts::needless_pair, crate::proofs::Parts::missing_pair, crate::proofs::Parts::one_pair_fails, crate::proofs::Parts::one_pair_binds, crate::proofs::Parts::first_pair_fails, crate::proofs::Parts::second_pair_fails, crate::proofs::Parts::two_pairs_bind, crate::proofs::Parts::arguments_below, crate::proofs::Parts::heads_below, crate::proofs::Parts::arguments_below_then))]
pub fn arguments_bound(
    alloc: Global,
    scope: &Scope,
    context: &Context,
    unknowns: &mut Unknowns,
    bound: &mut Bound,
    taken: &ChunkSorts,
    place: Place,
    first: &Sequence<Pattern>,
    second: &Option<Sequence<Pattern>>,
) -> Result<(), RuleFault>
    requires { IsTakenBelow (length unknowns.old) taken.now }
    ensures { AreArguments scope.now context.now unknowns.old bound.old taken.now place first.now second.now result unknowns.new bound.new }
{
    let Some(second) = second else {
        if taken.heads.is_some() {
            return Err(refused(Rule::Typing, place));
        }
        list_bound(
            alloc,
            scope,
            context,
            unknowns,
            bound,
            &taken.arguments,
            place,
            first,
        )?;
        return Ok(());
    };
    let Some(heads) = &taken.heads else {
        return Err(refused(Rule::Typing, place));
    };
    head_list_checked(alloc, scope, context, unknowns, heads, place, first)?;
    list_bound(
        alloc,
        scope,
        context,
        unknowns,
        bound,
        &taken.arguments,
        place,
        second,
    )?;
    Ok(())
}

/// The same of a chunk whose name takes something, behind its share.
#[tactic(auto, using(crate::proofs::Parts::taken_stray, crate::proofs::Parts::taken_fails, crate::proofs::Parts::taken_binds))]
pub fn taken_bound(
    alloc: Global,
    scope: &Scope,
    context: &Context,
    unknowns: &mut Unknowns,
    bound: &mut Bound,
    taken: &ChunkSorts,
    name: &Name,
    first: &Sequence<Pattern>,
    second: &Option<Sequence<Pattern>>,
) -> Result<(), RuleFault>
    ensures { IsTakenBound scope.now context.now unknowns.old bound.old taken.now name.now first.now second.now result unknowns.new bound.new }
{
    if !has_chunk(unknowns, taken) {
        return Err(refused(Rule::Typing, name.place));
    }
    arguments_bound(
        alloc, scope, context, unknowns, bound, taken, name.place, first, second,
    )?;
    Ok(())
}

/// The same of a chunk whose name takes nothing: it is refused, unless it is a truth value.
#[tactic(auto, using(crate::proofs::Parts::other_memory, crate::proofs::Parts::other_unknown, crate::proofs::Parts::other_form, crate::proofs::Parts::other_fails, crate::proofs::Parts::other_passes, crate::proofs::Parts::plain_values))]
fn other_checked(
    alloc: Global,
    scope: &Scope,
    context: &Context,
    unknowns: &mut Unknowns,
    share: &Option<Share>,
    name: &Name,
    first: &Sequence<Pattern>,
    second: &Option<Sequence<Pattern>>,
) -> Result<(), RuleFault>
    ensures { IsTruth scope.now context.now unknowns.old share.now name.now first.now second.now result unknowns.new }
{
    if !is_known(alloc, scope, name)? {
        return Err(refused(Rule::Name, name.place));
    }
    if !is_plain(share, first, second) {
        return Err(refused(Rule::Typing, name.place));
    }
    truth_checked(alloc, scope, context, unknowns, name, first)?;
    Ok(())
}

/// Binds what a chunk binds, or refuses it. A name in front of expressions that is no chunk's is a truth value.
#[tactic(auto, using(crate::proofs::Parts::chunk_memory, crate::proofs::Parts::chunk_share_fails, crate::proofs::Parts::chunk_taken_fails, crate::proofs::Parts::chunk_taken_binds, crate::proofs::Parts::chunk_other_fails, crate::proofs::Parts::chunk_other_passes))]
pub fn chunk_bound(
    alloc: Global,
    scope: &Scope,
    context: &Context,
    unknowns: &mut Unknowns,
    bound: &mut Bound,
    share: &Option<Share>,
    name: &Name,
    first: &Sequence<Pattern>,
    second: &Option<Sequence<Pattern>>,
) -> Result<(), RuleFault>
    ensures { IsChunk scope.now context.now unknowns.old bound.old share.now name.now first.now second.now result unknowns.new bound.new }
{
    share_bound(alloc, scope, context, unknowns, bound, share)?;
    match chunk_takes(alloc, scope, unknowns, name)? {
        Some(taken) => {
            taken_bound(
                alloc, scope, context, unknowns, bound, &taken, name, first, second,
            )?;
            Ok(())
        }
        None => {
            other_checked(alloc, scope, context, unknowns, share, name, first, second)?;
            Ok(())
        }
    }
}
