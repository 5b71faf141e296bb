//! Shares in normal form.

ghost use Rattle.std.specs.Prelude.{◌≡◌, ◌≤◌, ◌∷◌, ◌++◌, length, take, drop, IfOk, OnOk, IsErrOf};
ghost use Rattle.vf_normal.specs.Normal.{with_factor, with_factors, multiplied, product_with, share};
ghost use Rattle.vf_formula.specs.Rows.{row};
ghost use Rattle.vf_formula.specs.Shares.{KeepsTimes, KeepsProducts};

use crate::fraction::Dyadic;
use crate::head::Head;
use crate::term::{Term, TermList};
use std::alloc::Global;
use vf_base::Memory;

/// Why a normal form is not made.
#[derive(Clone, Copy, Debug, PartialEq, Eq)]
pub enum NormalFault {
    /// There is no memory left.
    Memory,
    /// A product of fractions in a share is too large or too fine to be kept.
    Fraction,
}

impl From<Memory> for NormalFault {
    ghost use Rattle.std.specs.Prelude.{◌≡◌};
    ghost use Rattle.vf_formula.specs.declared.share.NormalFault.TheVariants as faults;

    ghost from_gives = { λ _ e. e ≡ faults.Memory };

    fn from(_: Memory) -> NormalFault {
        NormalFault::Memory
    }
}

/// A fraction, and the terms that it is multiplied with.
#[derive(Debug, Drop)]
struct Product {
    coefficient: Dyadic,
    factors: TermList,
}

/// How many of the terms stand before the place of one more.
fn place(factors: &TermList, item: &Term) -> usize
    ensures within { result ≤ length factors.now }
    ensures place { with_factor item.now (row factors.now) ≡ row (take result factors.now ++ item.now ∷ drop result factors.now) }
{
    for i in 0..factors.len() {
        if !item.compare(&factors.as_slice()[i]).is_gt() {
            return i;
        }
    }
    factors.len()
}

/// Puts a term among others in their order.
fn put_factor(factors: &mut TermList, item: Term) -> Result<(), Memory>
    ensures { OnOk result (row factors.new ≡ with_factor item (row factors.old)) }
{
    let at = place(factors, &item);
    factors.insert(at, item)
}

/// Puts several terms among others in their order.
fn put_factors(alloc: Global, factors: &mut TermList, items: &TermList) -> Result<(), Memory>
    ensures { OnOk result (row factors.new ≡ with_factors (row items.now) (row factors.old)) }
{
    for i in (0..items.len()).rev() {
        put_factor(factors, items.as_slice()[i].copy(alloc)?)?;
    }
    Ok(())
}

impl Product {
    /// Multiplies with a term: a share's fraction is multiplied and its factors are taken in, any other term is one
    /// factor.
    fn multiply(&mut self, alloc: Global, item: &Term) -> Result<(), NormalFault>
        ensures coefficient { OnOk result (self.new.coefficient ≡ (multiplied item.now (record { coefficient = self.old.coefficient; factors = row self.old.factors })).coefficient) }
        ensures factors { OnOk result (row self.new.factors ≡ (multiplied item.now (record { coefficient = self.old.coefficient; factors = row self.old.factors })).factors) }
        ensures kept { OnOk result (KeepsTimes self.old.coefficient item.now) }
        ensures fraction { IsErrOf result NormalFault.Fraction → KeepsTimes self.old.coefficient item.now → ⊥ }
    {
        match &item.head {
            Head::Share(fraction) => match self.coefficient.times(*fraction) {
                Some(product) => {
                    self.coefficient = product;
                    put_factors(alloc, &mut self.factors, &item.parts)?;
                    Ok(())
                }
                None => Err(NormalFault::Fraction),
            },
            _ => {
                put_factor(&mut self.factors, item.copy(alloc)?)?;
                Ok(())
            }
        }
    }
}

/// A fraction times terms, as a share.
pub fn shared(alloc: Global, fraction: Dyadic, items: &TermList) -> Result<Term, NormalFault>
    ensures value { IfOk result (λ t. t ≡ share (product_with fraction (row items.now))) }
    ensures kept { OnOk result (KeepsProducts fraction (row items.now)) }
    ensures fraction { IsErrOf result NormalFault.Fraction → KeepsProducts fraction (row items.now) → ⊥ }
{
    let mut product = Product {
        coefficient: fraction,
        factors: TermList::new(alloc),
    };
    for i in (0..items.len()).rev() {
        product.multiply(alloc, &items.as_slice()[i])?;
    }
    Ok(Term::new(Head::Share(product.coefficient), product.factors))
}
