//! The lines of units.

ghost use Rattle.std.specs.Prelude.{◌≡◌, [], ◌∷◌, ◌++◌, map, slice_get, IfOk, OnOk};
ghost use Rattle.vf_promises.specs.Lines.{held_bytes, item_lines, lines_of, required_line, used_line, used_lines};
ghost use Rattle.vf_promises.specs.Required.{along};
ghost use Rattle.vf_promises.specs.TypeNames as names;

use crate::item::{add_item, add_required_name};
use crate::meaning::path_at;
use crate::required::{learn, required_names};
use crate::type_names::{TypeNames, type_names};
use std::alloc::Global;
use vf_base::{Memory, NumberList, Sequence};
use vf_declared::lookup::has;
use vf_declared::scope::Scope;
use vf_manifest::{Line, Manifest, Word, digest};
use vf_names::Names;
use vf_snapshot::Snapshot;
use vf_syntax::item::Item;

/// The lines of the items of a unit, but for what they require.
fn own_lines(
    alloc: Global,
    snapshot: &Snapshot,
    scope: &Scope,
    names: &TypeNames,
    items: &Sequence<Item>,
) -> Result<Manifest, Memory>
    ensures { IfOk result (λ lines. lines ≡ along (item_lines snapshot.now scope.now names.now) [] items.now) }
{
    let mut known = Names::new(alloc);
    let mut all = Manifest::new(alloc);
    for item in items.as_slice() {
        add_item(alloc, snapshot, scope, names, &known, item, &mut all)?;
        learn(&mut known, item)?;
    }
    Ok(all)
}

/// Adds the lines of what a unit requires.
fn add_required(
    alloc: Global,
    snapshot: &Snapshot,
    scope: &Scope,
    names: &TypeNames,
    required: &Names,
    all: &mut Manifest,
) -> Result<(), Memory>
    ensures { OnOk result (all.new ≡ all.old ++ map (required_line snapshot.now scope.now names.now) required.now) }
{
    for name in required.as_slice() {
        add_required_name(alloc, snapshot, scope, names, name, all)?;
    }
    Ok(())
}

/// The bytes of the file with a number; none where there is no such file.
fn held_bytes(snapshot: &Snapshot, file: u32) -> &[u8]
    ensures { result.now ≡ held_bytes (slice_get snapshot.now file) }
{
    if (file as usize) < snapshot.len() {
        snapshot.bytes(file)
    } else {
        &[]
    }
}

/// Adds the line of a header.
fn add_used(
    alloc: Global,
    snapshot: &Snapshot,
    header: u64,
    all: &mut Manifest,
) -> Result<(), Memory>
    ensures { OnOk result (all.new ≡ all.old ++ used_line snapshot.now header ∷ []) }
{
    let Ok(number) = u32::try_from(header) else {
        return Err(Memory);
    };
    let path = path_at(snapshot, header)?;
    let digest = digest(alloc, held_bytes(snapshot, number))?;
    all.push(Line::Uses {
        header: Word::new(path),
        digest: Word::new(digest.as_bytes()),
    })
}

/// Adds the line of a header, unless it is the prelude's.
fn add_header(
    alloc: Global,
    snapshot: &Snapshot,
    scope: &Scope,
    header: u64,
    all: &mut Manifest,
) -> Result<(), Memory>
    ensures { OnOk result (all.new ≡ all.old ++ used_lines snapshot.now scope.now (header ∷ [])) }
{
    if !has(&scope.preludes, header) {
        add_used(alloc, snapshot, header, all)?;
    }
    Ok(())
}

/// Adds the lines of the headers that are not the prelude's.
fn add_headers(
    alloc: Global,
    snapshot: &Snapshot,
    scope: &Scope,
    headers: &NumberList,
    all: &mut Manifest,
) -> Result<(), Memory>
    ensures { OnOk result (all.new ≡ all.old ++ used_lines snapshot.now scope.now headers.now) }
{
    for header in headers.as_slice() {
        add_header(alloc, snapshot, scope, *header, all)?;
    }
    Ok(())
}

/// The lines of the manifest of a unit that names, types and sorts accept: by what is declared behind its items, its
/// headers and its items. They are those of the items in the order of the text, then one for each name that the unit
/// requires, then one for each header that is not the prelude's.
///
/// # Errors
///
/// Where memory ran out, or a file has a number that is too great for any.
pub fn promised(
    alloc: Global,
    snapshot: &Snapshot,
    scope: &Scope,
    headers: &NumberList,
    items: &Sequence<Item>,
) -> Result<Manifest, Memory>
    ensures { IfOk result (λ lines. lines ≡ lines_of snapshot.now scope.now headers.now items.now) }
{
    let names = type_names(alloc, scope)?;
    let mut all = own_lines(alloc, snapshot, scope, &names, items)?;
    let required = required_names(alloc, scope, items)?;
    add_required(alloc, snapshot, scope, &names, &required, &mut all)?;
    add_headers(alloc, snapshot, scope, headers, &mut all)?;
    Ok(all)
}
