//! Numbers of which none stands twice.

ghost use Rattle.std.specs.Prelude.{◌≡◌, ◌&&◌, nat_eq, drop, length};
ghost use Rattle.vf_declared.specs.Scopes.{has};
ghost use Rattle.vf_asserting.specs.Cases.{are_distinct};

use vf_base::NumberList;

/// Whether a number is one of some, from an index on.
#[tactic(auto, using(crate::proofs::Lists::has_end, crate::proofs::Lists::has_here, vf_declared::proofs::Loops::has_more))]
fn has_from(numbers: &NumberList, from: usize, number: u64) -> bool
    ensures { result ≡ has (drop from numbers.now) number }
{
    for at in from..numbers.len() {
        let Some(one) = numbers.get(at) else {
            return false;
        };
        if *one == number {
            return true;
        }
    }
    false
}

/// Whether no number stands twice.
#[tactic(auto, using(crate::proofs::Lists::distinct_end, crate::proofs::Lists::distinct_stop, crate::proofs::Lists::distinct_on))]
pub fn are_distinct(numbers: &NumberList) -> bool
    ensures { result ≡ are_distinct numbers.now }
{
    for at in 0..numbers.len() {
        let Some(one) = numbers.get(at) else {
            return true;
        };
        if has_from(numbers, at + 1, *one) {
            return false;
        }
    }
    true
}
