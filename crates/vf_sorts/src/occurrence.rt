//! Where unknown sorts stand.

ghost use Rattle.std.specs.Prelude.{◌≡◌, ◌↔◌, IsTrue};
ghost use Rattle.vf_sorts.specs.Sorts.{row};
ghost use Rattle.vf_sorts.specs.Unknowns.{AreBelow, IsBelow, all_numbered_below, is_in, is_in_some, numbered_below};

use crate::sort::{Head, Sort, SortList};

/// Whether an unknown sort stands in a sort.
#[cycle(is_in)]
#[tactic(auto, using(crate::proofs::Filled::head_held))]
pub fn is_in(number: usize, sort: &Sort) -> bool
    ensures { result ≡ is_in number sort.now }
{
    match sort.head {
        Head::Unknown(other) => number == other,
        _ => is_in_some(number, &sort.parts),
    }
}

/// Whether an unknown sort stands in one of some sorts.
#[cycle(is_in)]
fn is_in_some(number: usize, sorts: &SortList) -> bool
    ensures { result ≡ is_in_some number (row sorts.now) }
{
    for item in &sorts.items {
        if is_in(number, item) {
            return true;
        }
    }
    false
}

/// Whether the unknown sorts in a sort have numbers below a count.
#[cycle(numbered_below)]
#[tactic(auto, using(crate::proofs::Filled::head_numbered))]
fn numbered_below(count: usize, sort: &Sort) -> bool
    ensures { result ≡ numbered_below count sort.now }
{
    match sort.head {
        Head::Unknown(number) => number < count,
        _ => all_numbered_below(count, &sort.parts),
    }
}

/// The same of each of some sorts.
#[cycle(numbered_below)]
fn all_numbered_below(count: usize, sorts: &SortList) -> bool
    ensures { result ≡ all_numbered_below count (row sorts.now) }
{
    for item in &sorts.items {
        if !numbered_below(count, item) {
            return false;
        }
    }
    true
}

/// Whether the unknown sorts in a sort have numbers below a count.
#[tactic(auto, using(crate::proofs::Filled::below_told))]
pub fn is_below(count: usize, sort: &Sort) -> bool
    ensures { IsTrue result ↔ IsBelow count sort.now }
{
    numbered_below(count, sort)
}

/// Whether the unknown sorts in each of some sorts have numbers below a count.
#[tactic(auto, using(crate::proofs::Filled::all_below_told))]
pub fn are_below(count: usize, sorts: &SortList) -> bool
    ensures { IsTrue result ↔ AreBelow count sorts.now }
{
    all_numbered_below(count, sorts)
}
