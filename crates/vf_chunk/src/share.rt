//! Shares.

ghost use Rattle.std.specs.Prelude.{◌≡◌, ◌≤◌, IfOk, drop, length};
ghost use Rattle.vf_chunk.specs.Shares.{whole_share, are_of_one_product, can_be_taken, is_first_of, divided_out, over, ratio_of};

use std::alloc::Global;
use vf_base::Memory;
use vf_formula::{Term, TermList};
use vf_fractions::{Dyadic, Quotient};

/// A fraction, and the terms of sort `real` that it is multiplied with, in the order of terms.
#[derive(Debug, Drop)]
pub struct Share {
    pub coefficient: Dyadic,
    pub factors: TermList,
}

/// What one share over another is.
#[derive(Debug, Drop)]
pub enum Ratio {
    Share(Share),
    /// A share whose fraction is too large or too fine to be kept.
    NoForm,
    /// No share.
    NoShare,
}

impl Share {
    /// All of a thing.
    pub fn whole(alloc: Global) -> Share
        ensures { result ≡ whole_share }
    {
        Share {
            coefficient: Dyadic::whole(),
            factors: TermList::new(alloc),
        }
    }

    /// The same share again.
    pub fn copy(&self, alloc: Global) -> Result<Share, Memory>
        ensures { IfOk result (λ s. s ≡ self.now) }
    {
        Ok(Share {
            coefficient: self.coefficient,
            factors: self.factors.copy(alloc)?,
        })
    }

    /// Whether two shares are of one product of terms.
    pub fn is_of_one_product(&self, other: &Share) -> bool
        ensures { result ≡ are_of_one_product self.now other.now }
    {
        self.factors.compare(&other.factors).is_eq()
    }

    /// Whether a share can be taken out of another.
    pub fn can_be_taken_of(&self, share: &Share) -> bool
        ensures { result ≡ can_be_taken self.now share.now }
    {
        self.is_of_one_product(share) && self.coefficient.is_at_most(share.coefficient)
    }

    /// What the share over another is.
    #[tactic(auto, using(crate::proofs::Ratios::ratios_told))]
    pub fn over(&self, alloc: Global, scale: &Share) -> Result<Ratio, Memory>
        ensures { IfOk result (λ r. r ≡ ratio_of (over self.now scale.now)) }
    {
        match divided_out(alloc, self.factors.as_slice(), scale.factors.as_slice())? {
            Some(factors) => match self.coefficient.over(scale.coefficient) {
                Quotient::Fraction(coefficient) => Ok(Ratio::Share(Share {
                    coefficient,
                    factors,
                })),
                Quotient::NoForm => Ok(Ratio::NoForm),
                Quotient::NotDyadic => Ok(Ratio::NoShare),
            },
            None => Ok(Ratio::NoShare),
        }
    }
}

/// Whether a term is the first of those from an index on.
fn is_first_of(term: &Term, terms: &[Term], from: usize) -> bool
    requires { from ≤ length terms.now }
    ensures { result ≡ is_first_of term.now (drop from terms.now) }
{
    from < terms.len() && terms[from].compare(term).is_eq()
}

/// The factors that are left when others are divided out.
fn divided_out(
    alloc: Global,
    factors: &[Term],
    divisors: &[Term],
) -> Result<Option<TermList>, Memory>
    ensures { IfOk result (λ left. left ≡ divided_out factors.now divisors.now) }
{
    let mut left = TermList::new(alloc);
    let mut next = 0;
    for factor in factors {
        if is_first_of(factor, divisors, next) {
            next += 1;
        } else {
            left.push(factor.copy(alloc)?)?;
        }
    }
    if next < divisors.len() {
        return Ok(None);
    }
    Ok(Some(left))
}
