//! Which files each file of a unit includes.

ghost use Rattle.std.specs.Prelude.{◌≡◌, ◌∷◌, map, slice_index, option_map, IfOk};
ghost use Rattle.vf_preproc.specs.Scopes.{header_of};
ghost use Rattle.vf_preproc.specs.Units.{unit_of};
ghost use Rattle.vf_expand.specs.Wholes.{files_of, includes_of};

use std::alloc::Global;
use vf_base::{Memory, NumberList, Sequence};
use vf_preproc::{FileList, Header, Unit};

/// The number of a file in the snapshot, by those of all files that were begun.
fn number_at(numbers: &NumberList, file: usize) -> u64
    ensures { result ≡ slice_index numbers.now file }
{
    match numbers.get(file) {
        Some(number) => *number,
        None => 0,
    }
}

/// The numbers in the snapshot of the file that a unit is of and of its headers.
fn numbers_of(alloc: Global, own: u32, headers: &NumberList) -> Result<NumberList, Memory>
    ensures { IfOk result (λ numbers. numbers ≡ own ∷ headers.now) }
{
    let mut numbers = NumberList::new(alloc);
    numbers.push(u64::from(own))?;
    for header in headers.as_slice() {
        numbers.push(*header)?;
    }
    Ok(numbers)
}

/// The numbers in the snapshot of some files.
fn numbered(alloc: Global, numbers: &NumberList, files: &FileList) -> Result<NumberList, Memory>
    ensures { IfOk result (λ list. list ≡ map (slice_index numbers.now) files.now) }
{
    let mut list = NumberList::new(alloc);
    for file in files.as_slice() {
        list.push(number_at(numbers, *file))?;
    }
    Ok(list)
}

/// The numbers in the snapshot of the files of which a file consists, once it is complete.
fn files_of(
    alloc: Global,
    numbers: &NumberList,
    header: &Option<Header>,
) -> Result<NumberList, Memory>
    ensures { IfOk result (λ list. list ≡ map (slice_index numbers.now) (files_of (option_map header_of header.now))) }
{
    match header {
        Some(header) => numbered(alloc, numbers, &header.files),
        None => Ok(NumberList::new(alloc)),
    }
}

/// Of each file of a unit the numbers of the files of which it consists, by the number of the unit's own file.
pub fn includes_of(own: u32, unit: &Unit) -> Result<Sequence<NumberList>, Memory>
    ensures { IfOk result (λ includes. includes ≡ includes_of (own ∷ unit.now.headers) (unit_of unit.now).complete) }
{
    let numbers = numbers_of(unit.alloc, own, &unit.headers)?;
    let mut includes = Sequence::new(unit.alloc);
    for header in &unit.complete {
        includes.push(files_of(unit.alloc, &numbers, header)?)?;
    }
    Ok(includes)
}
