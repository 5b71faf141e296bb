//! Sorts that are to be made equal.

ghost use Rattle.std.specs.Prelude.{◌≡◌, ◌++◌, length, reverse, IfOk, OnOk};
ghost use Rattle.vf_sorts.specs.Pairs.{paired};

use crate::sort::{Sort, SortList};
use std::alloc::Global;
use vf_base::Memory;

/// Two sorts that are to be made equal.
#[derive(Drop)]
pub struct Pair {
    pub left: Sort,
    pub right: Sort,
}

/// The pair of two sorts.
pub fn pair_of(alloc: Global, left: &Sort, right: &Sort) -> Result<Pair, Memory>
    ensures { IfOk result (λ p. p ≡ record { left = left.now; right = right.now }) }
{
    let one = left.copy(alloc)?;
    let other = right.copy(alloc)?;
    Ok(Pair {
        left: one,
        right: other,
    })
}

/// Puts the sorts of two rows to some pairs, place by place, the first at the end.
#[tactic(auto, using(crate::proofs::Pairing::appended_before, crate::proofs::Pairing::paired_none))]
pub fn pair_parts(
    alloc: Global,
    pairs: &mut Vec<Pair>,
    left: &SortList,
    right: &SortList,
) -> Result<(), Memory>
    requires { length left.now ≡ length right.now }
    ensures { OnOk result (pairs.new.items ≡ pairs.old.items ++ reverse (paired left.now right.now)) }
{
    let mut i = left.len();
    while i > 0 {
        i -= 1;
        let Some(one) = left.get(i) else {
            return Ok(());
        };
        let Some(other) = right.get(i) else {
            return Ok(());
        };
        pairs.push(pair_of(alloc, one, other)?)?;
    }
    Ok(())
}
