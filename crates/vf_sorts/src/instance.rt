//! Sorts at unknown sorts in the place of type parameters.

ghost use Rattle.std.specs.Prelude.{◌≡◌, ◌+◌, ◌<◌, ◌^◌, map, IfOk};
ghost use Rattle.vf_sorts.specs.Unknowns.{instance};

use crate::sort::{Head, Sort, SortList};
use std::alloc::Global;
use vf_base::Memory;

/// The sort in which unknown sorts, from the first on, stand for the type parameters.
#[cycle(instance)]
#[tactic(auto, using(crate::proofs::Filled::head_of_instance, crate::proofs::Filled::row_of_instances))]
pub fn instance(alloc: Global, first: usize, count: usize, sort: &Sort) -> Result<Sort, Memory>
    requires { first + count < 2 ^ 64 }
    ensures { IfOk result (λ s. s ≡ instance first count sort.now) }
{
    match sort.head {
        Head::Parameter(number) => {
            if number < count {
                return Ok(Sort::leaf(alloc, Head::Unknown(first + number)));
            }
            Ok(Sort::leaf(alloc, Head::Parameter(number)))
        }
        head => Ok(Sort::new(head, instances(alloc, first, count, &sort.parts)?)),
    }
}

/// The same of sorts in a row.
#[cycle(instance)]
fn instances(
    alloc: Global,
    first: usize,
    count: usize,
    sorts: &SortList,
) -> Result<SortList, Memory>
    requires { first + count < 2 ^ 64 }
    ensures { IfOk result (λ l. l ≡ map (instance first count) sorts.now) }
{
    let mut all = SortList::new(alloc);
    for item in &sorts.items {
        all.push(instance(alloc, first, count, item)?)?;
    }
    Ok(all)
}
