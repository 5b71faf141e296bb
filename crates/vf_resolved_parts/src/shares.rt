//! Shares.

ghost use Rattle.std.specs.Prelude.{◌≡◌, IfOk};
ghost use Rattle.vf_terms.specs.Settings.{setting_of};
ghost use Rattle.vf_resolved_parts.specs.Shares.{amount_read, counted_as, factor_in_front, factor_read, links_read, product_read, share_read};
ghost use Rattle.vf_binding.specs.Shares.{fraction_sort};

use crate::names::slot_for;
use crate::patterns::next_number;
use crate::progress::Progress;
use std::alloc::Global;
use vf_base::{Memory, Sequence};
use vf_resolved::pattern::{Factor as Resolved, Share as ResolvedShare};
use vf_sorts::{Head, Sort};
use vf_syntax::pattern::{Amount, Factor, FactorLink, Share};
use vf_terms::Setting;
use vf_terms::arguments::named;

/// Positive fractions.
fn fraction_sort(alloc: Global) -> Sort
    ensures { result ≡ fraction_sort }
{
    Sort::leaf(alloc, Head::Real)
}

/// A number as a factor or as a divisor.
fn counted_as(divides: bool, number: u64) -> Resolved
    ensures { result ≡ counted_as divides number }
{
    if divides {
        Resolved::Over(number)
    } else {
        Resolved::Times(number)
    }
}

/// A factor or a divisor; the first number of unknown sorts that is not used goes on.
fn factor_read(
    setting: &Setting<'_>,
    next: &mut usize,
    divides: bool,
    factor: &Factor,
) -> Result<Resolved, Memory>
    ensures { IfOk result (λ x. factor_read (setting_of setting.now) next.old divides factor.now ≡ record { factor = x; next = next.new }) }
{
    match factor {
        Factor::Number(number, _, _) => Ok(counted_as(divides, *number)),
        Factor::Name(name) => {
            let reading = named(setting, *next, name.place, &name.text)?;
            *next = reading.next;
            Ok(Resolved::Named(reading.term))
        }
    }
}

/// A product: a factor, and factors and divisors behind it from left to right.
fn product_read(
    setting: &Setting<'_>,
    next: &mut usize,
    first: &Factor,
    links: &Sequence<FactorLink>,
) -> Result<Sequence<Resolved>, Memory>
    ensures { IfOk result (λ xs. product_read (setting_of setting.now) next.old first.now links.now ≡ record { factors = xs; next = next.new }) }
{
    let mut all = Sequence::new(setting.alloc);
    all.push(factor_read(setting, next, false, first)?)?;
    for at in 0..links.len() {
        let Some(link) = links.get(at) else {
            return Ok(all);
        };
        let factor = factor_read(setting, next, link.divides, &link.factor)?;
        all.push(factor)?;
    }
    Ok(all)
}

/// How much a share is, behind so many names.
fn amount_read(
    setting: &Setting<'_>,
    first: usize,
    progress: &mut Progress,
    amount: &Amount,
) -> Result<ResolvedShare, Memory>
    ensures { IfOk result (λ x. amount_read (setting_of setting.now) first progress.old amount.now ≡ record { amount = x; progress = progress.new }) }
{
    match amount {
        Amount::Binds(_, name) => {
            let number = next_number(first, progress)?;
            let sort = fraction_sort(setting.alloc);
            let slot = slot_for(number, &sort);
            progress.bound.names.push(name.text.as_bytes())?;
            progress.bound.sorts.push(sort)?;
            Ok(ResolvedShare::Binds(slot))
        }
        Amount::Product(factor, links) => {
            let factors = product_read(setting, &mut progress.next, factor, links)?;
            Ok(ResolvedShare::Product(factors))
        }
    }
}

/// A share, where one is written, behind so many names.
pub fn share_read(
    setting: &Setting<'_>,
    first: usize,
    progress: &mut Progress,
    share: &Option<Share>,
) -> Result<Option<ResolvedShare>, Memory>
    ensures { IfOk result (λ x. share_read (setting_of setting.now) first progress.old share.now ≡ record { share = x; progress = progress.new }) }
{
    match share {
        None => Ok(None),
        Some(share) => {
            let amount = amount_read(setting, first, progress, &share.amount)?;
            Ok(Some(amount))
        }
    }
}
