//! Dyadic fractions.

ghost use Rattle.std.specs.Prelude.{◌≡◌, ◌↔◌, ◌*◌, ◌<◌, ◌≤◌, ◌^◌, IsNone, IfSome, MatchOption, IsTrue};
ghost use Rattle.std.specs.Ordering.{int_cmp};
ghost use Rattle.std.specs.Cmp.Lexicographic.{slice_cmp};
ghost use Rattle.vf_meaning.specs.Fractions.{numerator, exponent, reduced, whole, sum, product, half, is_at_most};
ghost use Rattle.vf_fractions.specs.Kept.{IsLowest, IsKept, HasForm, formed};
ghost use Rattle.vf_fractions.specs.Arithmetic.{difference, odd_part, halvings, quotient, told};

use std::marker::Model;

/// A fraction k / 2^m above 0 in lowest terms, k being less than 2^63 and m at most 60.
#[derive(Clone, Copy, Debug)]
pub struct Dyadic {
    numerator: u64,
    exponent: u32,
}

impl Model for Dyadic {
    ghost use Rattle.vf_model.specs.Values as values;

    ghost Value = { values.Dyadic };

    ghost use Rattle.vf_meaning.specs.Fractions as fractions;
    ghost use Rattle.vf_fractions.specs.Kept.{lowest, IsLowest, IsKept};

    ghost view = { λ a. lowest a.numerator a.exponent };

    ghost invariant = { λ a. IsLowest a.numerator a.exponent × IsKept a.numerator a.exponent };

    ghost inverse = { λ d. record { numerator = fractions.numerator d; exponent = fractions.exponent d } };

    ghost use Rattle.vf_fractions.specs.Kept.{lowest_numerator, lowest_exponent};

    ghost inverse_ok = { λ a h i. record { numerator = lowest_numerator a.numerator a.exponent h.0 i; exponent = lowest_exponent a.numerator a.exponent i } };
}

/// What one fraction over another is.
#[derive(Clone, Copy, Debug)]
pub enum Quotient {
    Fraction(Dyadic),
    /// A dyadic fraction that is too large or too fine to be kept.
    NoForm,
    /// No dyadic fraction.
    NotDyadic,
}

/// A fraction that may be too large to be kept.
#[derive(Clone, Copy)]
struct Wide {
    numerator: u128,
    exponent: u32,
}

/// A fraction in lowest terms.
#[tactic(auto, using(crate::proofs::Lowest::halved, crate::proofs::Lowest::odd_lowest))]
fn lowered(numerator: u128, exponent: u32) -> Wide
    ensures value { reduced result.numerator result.exponent ≡ reduced numerator exponent }
    ensures lowest { IsLowest result.numerator result.exponent }
    ensures above { 0 < numerator → 0 < result.numerator }
{
    let mut odd = numerator;
    for halvings in 0..exponent {
        if odd % 2 != 0 {
            return Wide {
                numerator: odd,
                exponent: exponent - halvings,
            };
        }
        odd /= 2;
    }
    Wide {
        numerator: odd,
        exponent: 0,
    }
}

/// A fraction in lowest terms, where it has a form.
#[tactic(auto, using(crate::proofs::Lowest::not_kept, crate::proofs::Lowest::is_kept))]
fn kept(numerator: u128, exponent: u32) -> Option<Dyadic>
    requires { 0 < numerator }
    ensures { MatchOption result (HasForm (reduced numerator exponent) → ⊥) (λ d. (d ≡ reduced numerator exponent) × HasForm d) }
{
    let lowest = lowered(numerator, exponent);
    if lowest.numerator >= 0x8000_0000_0000_0000 || lowest.exponent > 60 {
        return None;
    }
    Some(Dyadic {
        numerator: lowest.numerator as u64,
        exponent: lowest.exponent,
    })
}

/// An odd number, and how often a number is halved down to it.
#[derive(Clone, Copy)]
struct Halved {
    part: u128,
    halvings: u32,
}

/// The odd part of a number.
#[tactic(auto, using(crate::proofs::Quotients::odd_lowered_part, crate::proofs::Quotients::odd_lowered_few))]
fn odd_part(number: u64) -> Halved
    requires above { 0 < number }
    requires below { number < 2 ^ 63 }
    ensures part { result.part ≡ odd_part number }
    ensures halvings { result.halvings ≡ halvings number }
    ensures few { result.halvings ≤ 63 }
    ensures odd { 0 < result.part }
{
    let low = lowered(number as u128, 63);
    Halved {
        part: low.numerator,
        halvings: 63 - low.exponent,
    }
}

/// A numerator over a denominator that is 2^exponent times as fine.
#[tactic(auto, using(crate::proofs::Lowest::shifted, crate::proofs::Lowest::shifted_below, crate::proofs::Lowest::shifted_above))]
fn finer(numerator: u64, exponent: u32) -> u128
    requires numerator { numerator < 2 ^ 63 }
    requires exponent { exponent ≤ 60 }
    ensures value { result ≡ numerator * 2 ^ exponent }
    ensures below { result < 2 ^ 123 }
    ensures above { 0 < numerator → 0 < result }
{
    (numerator as u128) << exponent
}

impl Dyadic {
    /// The fraction k / 2^m, where k is not 0, k is less than 2^63 and m is at most 60.
    pub fn new(k: u64, m: u32) -> Option<Dyadic>
        ensures none { IsNone result ↔ (IsKept k m → ⊥) }
        ensures value { IfSome result (λ d. d ≡ reduced k m) }
    {
        if k == 0 || k >= 0x8000_0000_0000_0000 || m > 60 {
            return None;
        }
        kept(k as u128, m)
    }

    /// The fraction 1, all of a thing.
    pub fn whole() -> Dyadic
        ensures { result ≡ whole }
    {
        Dyadic {
            numerator: 1,
            exponent: 0,
        }
    }

    /// The numerator in lowest terms.
    #[tactic(auto, using(crate::proofs::Lowest::kept_share, crate::specs::Kept::lowest_numerator))]
    pub fn numerator(self) -> u64
        ensures value { result ≡ numerator self }
        ensures form { HasForm self }
    {
        self.numerator
    }

    /// The exponent of 2 in the denominator in lowest terms.
    #[tactic(auto, using(crate::proofs::Lowest::kept_share, crate::specs::Kept::lowest_exponent))]
    pub fn exponent(self) -> u32
        ensures value { result ≡ exponent self }
        ensures form { HasForm self }
    {
        self.exponent
    }

    /// Half of the fraction, where it has a form.
    #[tactic(auto, using(crate::proofs::Lowest::half_is))]
    pub fn half(self) -> Option<Dyadic>
        ensures { result ≡ formed (half self) }
    {
        let numerator = self.numerator();
        let exponent = self.exponent();
        kept(numerator as u128, exponent + 1)
    }

    /// The sum of two fractions, where it has a form.
    #[tactic(auto, using(crate::proofs::Lowest::formed_from))]
    pub fn plus(self, other: Dyadic) -> Option<Dyadic>
        ensures { result ≡ formed (sum self other) }
    {
        let first = finer(self.numerator(), other.exponent());
        let second = finer(other.numerator(), self.exponent());
        kept(first + second, self.exponent() + other.exponent())
    }

    /// The fraction less another, where it is above 0 and has a form.
    #[tactic(auto, using(crate::proofs::Lowest::formed_from))]
    pub fn minus(self, other: Dyadic) -> Option<Dyadic>
        ensures { result ≡ formed (difference self other) }
    {
        let first = finer(self.numerator(), other.exponent());
        let second = finer(other.numerator(), self.exponent());
        if first <= second {
            return None;
        }
        kept(first - second, self.exponent() + other.exponent())
    }

    /// The product of two fractions, where it has a form.
    #[tactic(auto, using(crate::proofs::Lowest::formed_from, crate::proofs::Lowest::multiplied_below, crate::proofs::Lowest::multiplied_above))]
    pub fn times(self, other: Dyadic) -> Option<Dyadic>
        ensures { result ≡ formed (product self other) }
    {
        let first = self.numerator();
        let second = other.numerator();
        kept(
            first as u128 * second as u128,
            self.exponent() + other.exponent(),
        )
    }

    /// What the fraction over another is.
    #[tactic(auto, using(crate::proofs::Dividing::dividing))]
    pub fn over(self, other: Dyadic) -> Quotient
        ensures { result ≡ told (quotient self other) }
    {
        let odd = odd_part(other.numerator());
        let numerator = self.numerator();
        if numerator as u128 % odd.part != 0 {
            return Quotient::NotDyadic;
        }
        let numerator = finer((numerator as u128 / odd.part) as u64, other.exponent());
        match kept(numerator, self.exponent() + odd.halvings) {
            Some(fraction) => Quotient::Fraction(fraction),
            None => Quotient::NoForm,
        }
    }

    /// Whether the fraction is at most another.
    pub fn is_at_most(self, other: Dyadic) -> bool
        ensures { result ≡ is_at_most self other }
    {
        let first = finer(self.numerator(), other.exponent());
        let second = finer(other.numerator(), self.exponent());
        first <= second
    }
}
