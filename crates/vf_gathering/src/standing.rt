//! In which files names stand.

ghost use Rattle.std.specs.Prelude.{◌≡◌, ◌++◌, ◌∷◌, [], slice_get, IfOk, OnOk, None};
ghost use Rattle.std.specs.Option.{option_copied};
ghost use Rattle.vf_gathering.specs.Named.{with_optional};
ghost use Rattle.vf_gathering.specs.Standing as standing;

use std::alloc::Global;
use vf_base::{Memory, NumberList, Sequence};
use vf_datatypes::Stated;
use vf_names::Names;
use vf_syntax::written::Name;

/// No names.
pub fn no_names(alloc: Global) -> Stated
    ensures { result ≡ standing.no_names }
{
    Stated {
        names: Names::new(alloc),
        files: Sequence::new(alloc),
    }
}

/// Files that may be there, with one more behind them.
fn one_more(alloc: Global, files: Option<&NumberList>, file: u32) -> Result<NumberList, Memory>
    ensures { IfOk result (λ list. list ≡ standing.or_none (option_copied files.entry) ++ file ∷ []) }
{
    let mut list = match files {
        Some(files) => files.copy()?,
        None => NumberList::new(alloc),
    };
    list.push(u64::from(file))?;
    Ok(list)
}

/// Keeps that a name with a number stands in one more file.
fn with_file(alloc: Global, stated: &mut Stated, number: usize, file: u32) -> Result<(), Memory>
    ensures { OnOk result (stated.new ≡ standing.with_file stated.old number file) }
{
    if number < stated.files.len() {
        let files = one_more(alloc, stated.files.get(number), file)?;
        stated.files.set(number, files);
    }
    Ok(())
}

/// Keeps that a new name stands in a file.
fn with_new(alloc: Global, stated: &mut Stated, name: &Name) -> Result<(), Memory>
    ensures { OnOk result (stated.new ≡ standing.with_number stated.old name.now None) }
{
    let files = one_more(alloc, None, name.place.file)?;
    stated.names.push(name.text.as_bytes())?;
    stated.files.push(files)?;
    Ok(())
}

/// Keeps that a name stands in one more file.
pub fn with_name(alloc: Global, stated: &mut Stated, name: &Name) -> Result<(), Memory>
    ensures { OnOk result (stated.new ≡ standing.with_name stated.old name.now) }
{
    match stated.names.number(name.text.as_bytes()) {
        Some(number) => with_file(alloc, stated, number, name.place.file),
        None => with_new(alloc, stated, name),
    }
}

/// Keeps where a name stands, if there is one.
pub fn with_optional(alloc: Global, stated: &mut Stated, name: Option<&Name>) -> Result<(), Memory>
    ensures { OnOk result (stated.new ≡ with_optional stated.old (option_copied name.entry)) }
{
    match name {
        Some(name) => with_name(alloc, stated, name),
        None => Ok(()),
    }
}
