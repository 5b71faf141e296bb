//! Sorts that are alike.

ghost use Rattle.std.specs.Prelude.{◌≡◌, ◌↔◌, IsTrue};
ghost use Rattle.vf_sorts.specs.Told.{AreAlike};
ghost use Rattle.vf_predicates.specs.Earlier.{AreSame};

use vf_sorts::{Sort, SortList, are_alike};

/// Whether two sorts are one, up to what pointers tell.
#[cycle(alike)]
#[tactic(auto, using(crate::proofs::SameSorts::heads_differ, crate::proofs::SameSorts::parts_agree, crate::proofs::SameSorts::heads_agree))]
fn is_alike(first: &Sort, second: &Sort) -> bool
    ensures { IsTrue result ↔ AreAlike first.now second.now }
{
    if !are_alike(first.head, second.head) {
        return false;
    }
    are_same(&first.parts, &second.parts)
}

/// Whether two lists of sorts are alike, place by place, up to what pointers tell.
#[cycle(alike)]
#[tactic(auto, using(crate::proofs::SameSorts::same_begin, crate::proofs::SameSorts::same_next, crate::proofs::SameSorts::same_end, crate::proofs::SameSorts::same_count, crate::proofs::SameSorts::not_same, crate::proofs::SameSorts::smaller))]
pub fn are_same(first: &SortList, second: &SortList) -> bool
    ensures { IsTrue result ↔ AreSame first.now second.now }
{
    if first.len() != second.len() {
        return false;
    }
    for at in 0..first.len() {
        let Some(one) = first.get(at) else {
            return false;
        };
        let Some(other) = second.get(at) else {
            return false;
        };
        if !is_alike(one, other) {
            return false;
        }
    }
    true
}
