//! Sorts in which something stands for the unknown ones.

ghost use Rattle.std.specs.Prelude.{◌≡◌, map, IfOk};
ghost use Rattle.vf_sorts.specs.Unknowns.{any_sort, by_known, filled, only, settling};
ghost use Rattle.vf_sorts.specs.Fillers.{filling_of};

use crate::sort::{Head, Sort, SortList};
use std::alloc::Global;
use vf_base::Memory;

/// What stands for the unknown sorts.
#[derive(Drop)]
pub enum Filler<'a> {
    /// What is known of each, and the unknown sort itself where nothing is.
    Known(&'a [Option<Sort>]),
    /// A sort for one of them, and the others themselves.
    Only(usize, &'a Sort),
    /// `any`.
    AnySort,
}

impl<'a> Filler<'a> {
    /// What stands for the unknown sort with a number.
    fn at(&self, alloc: Global, number: usize) -> Result<Sort, Memory>
        ensures { IfOk result (λ s. s ≡ filling_of self.now number) }
    {
        match self {
            Filler::Known(known) => match known.get(number) {
                Some(Some(sort)) => sort.copy(alloc),
                _ => Ok(Sort::leaf(alloc, Head::Unknown(number))),
            },
            Filler::Only(other, sort) => {
                if *other == number {
                    return sort.copy(alloc);
                }
                Ok(Sort::leaf(alloc, Head::Unknown(number)))
            }
            Filler::AnySort => Ok(Sort::leaf(alloc, Head::Any)),
        }
    }
}

/// The sort in which what fills them stands for the unknown ones.
#[cycle(fill)]
#[tactic(auto, using(crate::proofs::Filled::head_filled, crate::proofs::Filled::row_filled))]
fn filled(alloc: Global, filler: &Filler, sort: &Sort) -> Result<Sort, Memory>
    ensures { IfOk result (λ s. s ≡ filled (filling_of filler.now) sort.now) }
{
    match sort.head {
        Head::Unknown(number) => filler.at(alloc, number),
        head => Ok(Sort::new(head, all_filled(alloc, filler, &sort.parts)?)),
    }
}

/// The same of sorts in a row.
#[cycle(fill)]
fn all_filled(alloc: Global, filler: &Filler, sorts: &SortList) -> Result<SortList, Memory>
    ensures { IfOk result (λ l. l ≡ map (filled (filling_of filler.now)) sorts.now) }
{
    let mut all = SortList::new(alloc);
    for item in &sorts.items {
        all.push(filled(alloc, filler, item)?)?;
    }
    Ok(all)
}

/// The sort in which what is known of them stands for the unknown ones.
pub fn resolve(alloc: Global, known: &[Option<Sort>], sort: &Sort) -> Result<Sort, Memory>
    ensures { IfOk result (λ s. s ≡ filled (by_known known.now) sort.now) }
{
    filled(alloc, &Filler::Known(known), sort)
}

/// The sort in which one sort stands for an unknown one.
pub fn substitute(alloc: Global, number: usize, by: &Sort, sort: &Sort) -> Result<Sort, Memory>
    ensures { IfOk result (λ s. s ≡ filled (only number by.now) sort.now) }
{
    filled(alloc, &Filler::Only(number, by), sort)
}

/// The sort in which what is known of them stands for the unknown ones, and `any` for those that are unknown
/// even so.
#[tactic(auto, using(crate::proofs::Filled::filled_twice))]
pub fn settle(alloc: Global, known: &[Option<Sort>], sort: &Sort) -> Result<Sort, Memory>
    ensures { IfOk result (λ s. s ≡ filled (settling known.now) sort.now) }
{
    let resolved = resolve(alloc, known, sort)?;
    filled(alloc, &Filler::AnySort, &resolved)
}
