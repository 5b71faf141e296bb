//! Sorts of text that stands later, as far as they can be told ahead of it.

ghost use Rattle.std.specs.Prelude.{◌≡◌, IfOk};
ghost use Rattle.std.specs.Option.{option_copied};
ghost use Rattle.vf_syntax.specs.SortTree.{sort_list};
ghost use Rattle.vf_gathering.specs.Told as told;

use crate::ahead::Ahead;
use std::alloc::Global;
use vf_base::{Memory, Sequence};
use vf_sorting::kinds::{bool_sort, int_sort, pointer_sort, value_sort};
use vf_sorts::{Head, Sort, SortList};
use vf_syntax::item::GhostParameter;
use vf_syntax::sort::{Sort as WrittenSort, SortList as WrittenSorts, SortNode};
use vf_syntax::written::TypeForm;

/// The sort of a type of C.
fn told_form(alloc: Global, ahead: &Ahead, form: &TypeForm) -> Sort
    ensures { result ≡ told.told_form ahead.now form.now }
{
    match form {
        TypeForm::Integer(_) => int_sort(alloc),
        TypeForm::Bool => bool_sort(alloc),
        TypeForm::StructPointer(tag) => {
            let number = ahead.tags.number(tag.text.as_bytes());
            Sort::leaf(alloc, Head::Pointer(number))
        }
        _ => pointer_sort(alloc),
    }
}

/// A datatype over sorts, where so many type parameters are told.
fn told_over(alloc: Global, datatype: usize, count: Option<&u64>, arguments: SortList) -> Sort
    ensures { result ≡ told.told_over datatype (option_copied count.entry) arguments }
{
    match count {
        Some(count) => {
            if arguments.len() as u64 == *count {
                Sort::new(Head::Datatype(datatype), arguments)
            } else {
                value_sort(alloc)
            }
        }
        None => value_sort(alloc),
    }
}

/// A datatype by its number, if it has one, over sorts.
fn told_name(alloc: Global, ahead: &Ahead, number: Option<usize>, arguments: SortList) -> Sort
    ensures { result ≡ told.told_name ahead.now number arguments }
{
    match number {
        Some(number) => told_over(alloc, number, ahead.counts.get(number), arguments),
        None => value_sort(alloc),
    }
}

/// The sort that is written, as far as it can be told.
#[cycle(told)]
pub fn told(alloc: Global, ahead: &Ahead, written: &WrittenSort) -> Result<Sort, Memory>
    ensures { IfOk result (λ t. t ≡ told.told ahead.now written.now) }
{
    match &written.node {
        SortNode::Real => Ok(Sort::leaf(alloc, Head::Real)),
        SortNode::Any => Ok(value_sort(alloc)),
        SortNode::Type(ctype) => Ok(told_form(alloc, ahead, &ctype.form)),
        SortNode::Name(name, arguments) => {
            let sorts = told_all(alloc, ahead, arguments)?;
            let number = ahead.datatypes.number(name.as_bytes());
            Ok(told_name(alloc, ahead, number, sorts))
        }
        SortNode::Predicate(arguments) => {
            let sorts = told_all(alloc, ahead, arguments)?;
            Ok(Sort::new(Head::Predicate, sorts))
        }
    }
}

/// The same of sorts one after the other.
#[cycle(told)]
#[tactic(auto, using(vf_sorting::proofs::Spelled::sort_smaller))]
fn told_all(alloc: Global, ahead: &Ahead, written: &WrittenSorts) -> Result<SortList, Memory>
    ensures { IfOk result (λ ts. ts ≡ told.told_all ahead.now (sort_list written.now)) }
{
    let mut all = SortList::new(alloc);
    for at in 0..written.len() {
        let Some(one) = written.get(at) else {
            return Ok(all);
        };
        let sort = told(alloc, ahead, one)?;
        all.push(sort)?;
    }
    Ok(all)
}

/// The sorts of parameters, as far as they can be told.
pub fn told_parameters(
    alloc: Global,
    ahead: &Ahead,
    parameters: &Sequence<GhostParameter>,
) -> Result<SortList, Memory>
    ensures { IfOk result (λ ts. ts ≡ told.told_parameters ahead.now parameters.now) }
{
    let mut all = SortList::new(alloc);
    for parameter in parameters.as_slice() {
        let sort = told(alloc, ahead, &parameter.sort)?;
        all.push(sort)?;
    }
    Ok(all)
}
