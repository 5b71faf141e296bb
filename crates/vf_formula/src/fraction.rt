//! Dyadic fractions.

ghost use Rattle.std.specs.Prelude.{◌≡◌, ◌↔◌, ◌⊎◌, ℕ, ◌<◌, ◌≤◌, ◌^◌, IsNone, IfSome, MatchOption};
ghost use Rattle.std.specs.Prelude.{ℤ};
ghost use Rattle.std.specs.Ordering.{int_cmp};
ghost use Rattle.std.specs.Cmp.Lexicographic.{slice_cmp};
ghost use Rattle.vf_meaning.specs.Fractions.{reduced, product};
ghost use Rattle.vf_normal.specs.Order.{fraction_numbers};
ghost use Rattle.vf_formula.specs.Fractions.{IsLowest, IsKept, IsShare};

use std::cmp::Ordering;
use std::marker::Model;

/// A fraction k / 2^m above 0 in lowest terms, k being less than 2^63 and m at most 60.
#[derive(Clone, Copy, Debug)]
pub struct Dyadic {
    numerator: u64,
    exponent: u32,
}

impl Model for Dyadic {
    ghost use Rattle.vf_model.specs.Values as values;

    ghost Value = { values.Dyadic };

    ghost use Rattle.vf_meaning.specs.Fractions as fractions;
    ghost use Rattle.vf_formula.specs.Fractions.{lowest, IsLowest, IsKept};

    ghost view = { λ a. lowest a.numerator a.exponent };

    ghost invariant = { λ a. IsLowest a.numerator a.exponent × IsKept a.numerator a.exponent };

    ghost inverse = { λ d. record { numerator = fractions.numerator d; exponent = fractions.exponent d } };

    ghost use Rattle.vf_formula.specs.Fractions.{lowest_numerator, lowest_exponent};

    ghost inverse_ok = { λ a h i. record { numerator = lowest_numerator a.numerator a.exponent h.0 i; exponent = lowest_exponent a.numerator a.exponent i } };
}

/// A fraction that may be too large to be kept.
#[derive(Clone, Copy)]
struct Quotient {
    numerator: u128,
    exponent: u32,
}

/// A fraction in lowest terms.
#[tactic(auto, using(crate::proofs::Fractions::halved, crate::proofs::Fractions::odd_lowest))]
fn lowered(numerator: u128, exponent: u32) -> Quotient
    ensures value { reduced result.numerator result.exponent ≡ reduced numerator exponent }
    ensures lowest { IsLowest result.numerator result.exponent }
    ensures above { 0 < numerator → 0 < result.numerator }
{
    let mut odd = numerator;
    for halvings in 0..exponent {
        if odd % 2 != 0 {
            return Quotient {
                numerator: odd,
                exponent: exponent - halvings,
            };
        }
        odd /= 2;
    }
    Quotient {
        numerator: odd,
        exponent: 0,
    }
}

/// A fraction in lowest terms, where it can be kept.
#[tactic(auto, using(crate::proofs::Fractions::not_kept, crate::proofs::Fractions::is_kept))]
fn kept(numerator: u128, exponent: u32) -> Option<Dyadic>
    requires { 0 < numerator }
    ensures { MatchOption result (IsShare (reduced numerator exponent) → ⊥) (λ d. (d ≡ reduced numerator exponent) × IsShare d) }
{
    let lowest = lowered(numerator, exponent);
    if lowest.numerator >= 0x8000_0000_0000_0000 || lowest.exponent > 60 {
        return None;
    }
    Some(Dyadic {
        numerator: lowest.numerator as u64,
        exponent: lowest.exponent,
    })
}

impl Dyadic {
    /// The fraction k / 2^m, where k is not 0, k is less than 2^63 and m is at most 60.
    pub fn new(k: u64, m: u32) -> Option<Dyadic>
        ensures none { IsNone result ↔ (IsKept k m → ⊥) }
        ensures value { IfSome result (λ d. d ≡ reduced k m) }
    {
        if k == 0 || k >= 0x8000_0000_0000_0000 || m > 60 {
            return None;
        }
        kept(k as u128, m)
    }

    /// The product of two fractions, where it can be kept.
    pub fn times(self, other: Dyadic) -> Option<Dyadic>
        ensures { MatchOption result (IsShare (product self other) → ⊥) (λ d. d ≡ product self other) }
    {
        kept(
            self.numerator as u128 * other.numerator as u128,
            self.exponent + other.exponent,
        )
    }

    /// The order of fractions among atoms: the whole ones first, then by exponent, then by numerator.
    pub fn compare(self, other: Dyadic) -> Ordering
        ensures { result ≡ slice_cmp int_cmp (fraction_numbers self) (fraction_numbers other) }
    {
        match self.exponent.cmp(&other.exponent) {
            Ordering::Equal => self.numerator.cmp(&other.numerator),
            order => order,
        }
    }
}
