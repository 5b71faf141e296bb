//! The files of a unit, from what expanding it gave.

ghost use Rattle.std.specs.Prelude.{◌≡◌, [], IfOk, OnOk, slice_set, filter};
ghost use Rattle.std.specs.Option.{option_copied};
ghost use Rattle.vf_resolve.specs.UnitFiles as units;
ghost use Rattle.vf_resolve.specs.UnitFiles.{files_of, files_in, has_header, headers_of, is_at, is_prelude, path_of};

use crate::files::Files;
use std::alloc::Global;
use vf_base::{Memory, NumberList, Sequence};
use vf_expand::UnitTokens;
use vf_snapshot::Snapshot;
use vf_threads::prelude;

/// The path of the file with a number; empty where no file has it.
fn path_of(snapshot: &Snapshot, file: u64) -> &str
    ensures { result.now ≡ path_of snapshot.now file }
{
    if file <= u64::from(u32::MAX) && file < snapshot.len() as u64 {
        return snapshot.path(file as u32);
    }
    ""
}

/// Whether a file is a header of the prelude.
fn is_prelude(snapshot: &Snapshot, file: u64) -> bool
    ensures { result ≡ is_prelude snapshot.now file }
{
    let path = path_of(snapshot, file);
    let Some(rest) = path.strip_prefix("<") else {
        return false;
    };
    let Some(name) = rest.strip_suffix(">") else {
        return false;
    };
    prelude(name).is_some()
}

/// Whether a file has a path.
fn is_at(snapshot: &Snapshot, path: &str, file: u64) -> bool
    ensures { result ≡ is_at snapshot.now path.now file }
{
    path_of(snapshot, file).as_bytes() == path.as_bytes()
}

/// Whether one of some headers has a path.
fn has_header(snapshot: &Snapshot, path: &str, headers: &NumberList) -> bool
    ensures { result ≡ has_header snapshot.now path.now headers.now }
{
    for header in headers.as_slice() {
        if is_at(snapshot, path, *header) {
            return true;
        }
    }
    false
}

/// Which of some files are headers of the prelude.
fn preludes_of(alloc: Global, snapshot: &Snapshot, files: &NumberList) -> Result<NumberList, Memory>
    ensures { IfOk result (λ list. list ≡ filter (is_prelude snapshot.now) files.now) }
{
    let mut preludes = NumberList::new(alloc);
    for file in files.as_slice() {
        if is_prelude(snapshot, *file) {
            preludes.push(*file)?;
        }
    }
    Ok(preludes)
}

/// The files of a unit: its own, and its headers.
fn files_in(alloc: Global, unit: &UnitTokens) -> Result<NumberList, Memory>
    ensures { IfOk result (λ list. list ≡ files_in unit.now) }
{
    let mut files = NumberList::new(alloc);
    files.push(u64::from(unit.end.file))?;
    for header in unit.headers.as_slice() {
        files.push(*header)?;
    }
    Ok(files)
}

/// For each file of a snapshot, no files.
#[tactic(auto, using(crate::proofs::Numbered::empty_end))]
fn no_headers(alloc: Global, snapshot: &Snapshot) -> Result<Sequence<NumberList>, Memory>
    ensures { IfOk result (λ list. list ≡ headers_of [] [] snapshot.now) }
{
    let mut headers = Sequence::new(alloc);
    for _number in 0..snapshot.len() {
        headers.push(NumberList::new(alloc))?;
    }
    Ok(headers)
}

/// Puts the files of which a file consists at its number, if there is a place for it.
#[tactic(auto, using(crate::proofs::Numbered::set_past))]
fn with_entry(headers: &mut Sequence<NumberList>, file: u64, consists: NumberList)
    ensures { headers.new ≡ slice_set headers.old file consists }
{
    if file < headers.len() as u64 {
        headers.set(file as usize, consists);
    }
}

/// The same where there is a file, and the files of which it consists are known.
fn with_optional(
    headers: &mut Sequence<NumberList>,
    file: Option<&u64>,
    consists: Option<&NumberList>,
) -> Result<(), Memory>
    ensures { OnOk result (headers.new ≡ units.with_optional headers.old (option_copied file.entry) (option_copied consists.entry)) }
{
    if let Some(file) = file {
        if let Some(consists) = consists {
            with_entry(headers, *file, consists.copy()?);
        }
    }
    Ok(())
}

/// For each file of a snapshot, the files of which it consists.
#[tactic(auto, using(crate::proofs::Numbered::begun, crate::proofs::Numbered::more, crate::proofs::Numbered::ended))]
fn headers_of(
    alloc: Global,
    snapshot: &Snapshot,
    files: &NumberList,
    includes: &Sequence<NumberList>,
) -> Result<Sequence<NumberList>, Memory>
    ensures { IfOk result (λ list. list ≡ headers_of files.now includes.now snapshot.now) }
{
    let mut headers = no_headers(alloc, snapshot)?;
    let count = files.len();
    for done in 0..count {
        let at = count - 1 - done;
        with_optional(&mut headers, files.get(at), includes.get(at))?;
    }
    Ok(headers)
}

/// The files of a unit, from what expanding it gave and the snapshot that it was read into.
///
/// A file of the snapshot that is not of the unit includes nothing. This takes time near the number of the files and of
/// all that they include.
pub fn files_of(alloc: Global, unit: &UnitTokens, snapshot: &Snapshot) -> Result<Files, Memory>
    ensures { IfOk result (λ f. f ≡ files_of unit.now snapshot.now) }
{
    let files = files_in(alloc, unit)?;
    let headers = headers_of(alloc, snapshot, &files, &unit.includes)?;
    let preludes = preludes_of(alloc, snapshot, &files)?;
    Ok(Files {
        own: unit.end.file,
        headers,
        preludes,
        has_stdlib: has_header(snapshot, "<stdlib.h>", &unit.headers),
        has_arrays: has_header(snapshot, "<vf_arrays.h>", &unit.headers),
    })
}
