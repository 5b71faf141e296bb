//! Shares.

ghost use Rattle.std.specs.Prelude.{◌≡◌};
ghost use Rattle.vf_binding.specs.Shares.{fraction_sort, is_factor};
ghost use Rattle.vf_binding.specs.Answers.{AreFactors, IsAmount, IsFactor, IsNamed, IsShare};
ghost use Rattle.vf_sorting.specs.Answers.{IsChecked};
ghost use Rattle.vf_syntax.specs.GhostExprTree as tree;

use crate::bound::{Bound, name_bound};
use std::alloc::Global;
use vf_base::{Rule, RuleFault, Sequence};
use vf_declared::scope::Scope;
use vf_sorting::Context;
use vf_sorting::fresh::equate;
use vf_sorting::refusal::refused;
use vf_sorting::words::named;
use vf_sorts::{Head, Sort, Unknowns};
use vf_syntax::pattern::{Amount, Factor, FactorLink, Share};
use vf_syntax::written::Name;

/// Positive fractions.
fn fraction_sort(alloc: Global) -> Sort
    ensures { result ≡ fraction_sort }
{
    Sort::leaf(alloc, Head::Real)
}

/// Whether a number may be a factor, or a divisor.
fn is_factor(divides: bool, number: u64) -> bool
    ensures { result ≡ is_factor divides number }
{
    if divides {
        number.is_power_of_two()
    } else {
        number != 0
    }
}

/// Whether a name is that of a fraction.
#[tactic(auto, using(crate::proofs::Steps::fraction_unnamed, crate::proofs::Steps::fraction_other, crate::proofs::Steps::fraction_named, crate::proofs::Steps::fraction_below, vf_sorting::proofs::Steps::sorted_below))]
fn fraction_checked(
    alloc: Global,
    scope: &Scope,
    context: &Context,
    unknowns: &mut Unknowns,
    name: &Name,
) -> Result<(), RuleFault>
    ensures { IsChecked scope.now context.now unknowns.old fraction_sort name.now.place (tree.name_ name.now.place name.now.text) result unknowns.new }
{
    let sort = named(alloc, scope, context, unknowns, name.place, &name.text)?;
    let wanted = fraction_sort(alloc);
    equate(unknowns, &sort, &wanted, name.place)?;
    Ok(())
}

/// Whether a factor or divisor is right: a number, or the name of a fraction that is no divisor.
#[tactic(auto, using(crate::proofs::Steps::number_wrong, crate::proofs::Steps::number_right, crate::proofs::Steps::factor_unnamed, crate::proofs::Steps::factor_divides, crate::proofs::Steps::factor_named))]
fn factor_checked(
    alloc: Global,
    scope: &Scope,
    context: &Context,
    unknowns: &mut Unknowns,
    divides: bool,
    factor: &Factor,
) -> Result<(), RuleFault>
    ensures { IsFactor scope.now context.now unknowns.old divides factor.now result unknowns.new }
{
    match factor {
        Factor::Number(number, _, place) => {
            if !is_factor(divides, *number) {
                return Err(refused(Rule::Typing, *place));
            }
            Ok(())
        }
        Factor::Name(name) => {
            fraction_checked(alloc, scope, context, unknowns, name)?;
            if divides {
                return Err(refused(Rule::Typing, name.place));
            }
            Ok(())
        }
    }
}

/// The same of factors and divisors from left to right.
fn links_checked(
    alloc: Global,
    scope: &Scope,
    context: &Context,
    unknowns: &mut Unknowns,
    links: &Sequence<FactorLink>,
) -> Result<(), RuleFault>
    ensures { AreFactors scope.now context.now unknowns.old links.now result unknowns.new }
{
    for at in 0..links.len() {
        let Some(link) = links.get(at) else {
            return Ok(());
        };
        factor_checked(alloc, scope, context, unknowns, link.divides, &link.factor)?;
    }
    Ok(())
}

/// Binds the name of a fraction, or refuses it.
#[tactic(auto, using(crate::proofs::Steps::fraction_binds))]
fn fraction_bound(
    alloc: Global,
    scope: &Scope,
    bound: &mut Bound,
    name: &Name,
) -> Result<(), RuleFault>
    ensures { IsNamed scope.now bound.old name.now fraction_sort result bound.new }
{
    let sort = fraction_sort(alloc);
    name_bound(alloc, scope, bound, name, &sort)
}

/// Binds the name of how much a share is, or tells whether the factors are right.
#[tactic(auto, using(crate::proofs::Steps::amount_binds, crate::proofs::Steps::amount_unbound, crate::proofs::Steps::first_fails, crate::proofs::Steps::links_fail, crate::proofs::Steps::product_passes))]
fn amount_bound(
    alloc: Global,
    scope: &Scope,
    context: &Context,
    unknowns: &mut Unknowns,
    bound: &mut Bound,
    amount: &Amount,
) -> Result<(), RuleFault>
    ensures { IsAmount scope.now context.now unknowns.old bound.old amount.now result unknowns.new bound.new }
{
    match amount {
        Amount::Binds(_, name) => {
            fraction_bound(alloc, scope, bound, name)?;
            Ok(())
        }
        Amount::Product(first, links) => {
            factor_checked(alloc, scope, context, unknowns, false, first)?;
            links_checked(alloc, scope, context, unknowns, links)?;
            Ok(())
        }
    }
}

/// Binds the name of a share, where there is a share and it has one, or refuses the share.
#[tactic(auto, using(crate::proofs::Steps::share_whole, crate::proofs::Steps::share_fails, crate::proofs::Steps::share_passes))]
pub fn share_bound(
    alloc: Global,
    scope: &Scope,
    context: &Context,
    unknowns: &mut Unknowns,
    bound: &mut Bound,
    share: &Option<Share>,
) -> Result<(), RuleFault>
    ensures { IsShare scope.now context.now unknowns.old bound.old share.now result unknowns.new bound.new }
{
    match share {
        Some(share) => {
            amount_bound(alloc, scope, context, unknowns, bound, &share.amount)?;
            Ok(())
        }
        None => Ok(()),
    }
}
