//! Which manifest provides main.

ghost use Rattle.std.specs.Prelude.{◌≡◌, ◌+◌, ◌<◌, [], IfOk, OnOk, IfErr, Some, All, count_by, length, slice_get, slice_index_or};
ghost use Rattle.std.specs.Option.{option_map};
ghost use Rattle.vf_link.specs.Statements.{all_lines, provides_main};
ghost use Rattle.vf_link.specs.Linking.{IsMain, IsRefusal, IfRefused, HasOneMain, mains};

use crate::refusal::{LinkFault, LinkRefusal};
use std::alloc::Global;
use vf_base::{Memory, Text};
use vf_manifest::Manifest;

/// The function with which a program begins.
#[derive(Debug, Drop)]
pub struct Entry {
    /// The number of the manifest that provides it, counted from 0.
    pub manifest: usize,
    /// Its identity's text: path, `#` and name.
    pub identity: Text,
}

/// Whether the line at an index provides a main.
fn provides_main(manifest: &Manifest, at: usize) -> bool
    requires { at < length manifest.now }
    ensures { option_map provides_main (slice_get manifest.now at) ≡ Some result }
{
    match manifest.provided_name(at) {
        Some(name) => name == b"main".as_slice(),
        None => false,
    }
}

/// Adds the mains that the manifest with this number provides.
fn push_mains(
    alloc: Global,
    mains: &mut Vec<Entry>,
    manifests: &[Manifest],
    manifest: usize,
) -> Result<(), Memory>
    requires { manifest < length manifests.now }
    ensures count { OnOk result (length mains.new.items
        ≡ length mains.old.items + count_by provides_main (slice_index_or manifests.now manifest [])) }
    ensures each { OnOk result (All (λ e. IsMain manifests.now e.manifest e.identity) mains.old.items
        → All (λ e. IsMain manifests.now e.manifest e.identity) mains.new.items) }
{
    let lines = &manifests[manifest];
    for at in 0..lines.len() {
        if provides_main(lines, at) {
            let identity = Text::from_bytes(alloc, lines.subject(at))?;
            mains.push(Entry { manifest, identity })?;
        }
    }
    Ok(())
}

/// All mains that are provided.
fn mains(alloc: Global, manifests: &[Manifest]) -> Result<Vec<Entry>, Memory>
    ensures count { IfOk result (λ m. length m.items ≡ mains (all_lines manifests.now)) }
    ensures each { IfOk result (λ m. All (λ e. IsMain manifests.now e.manifest e.identity) m.items) }
{
    let mut mains = Vec::new(alloc);
    for at in 0..manifests.len() {
        push_mains(alloc, &mut mains, manifests, at)?;
    }
    Ok(mains)
}

/// The only main that is provided.
pub fn only_main(alloc: Global, manifests: &[Manifest]) -> Result<Entry, LinkFault>
    ensures one { OnOk result (HasOneMain (all_lines manifests.now)) }
    ensures entry { IfOk result (λ e. IsMain manifests.now e.manifest e.identity) }
    ensures refused { IfErr result (λ e. IfRefused e (IsRefusal (all_lines manifests.now))) }
{
    let mut mains = mains(alloc, manifests)?;
    let count = mains.len() as u64;
    match mains.pop() {
        Some(entry) if count == 1 => Ok(entry),
        _ => Err(LinkFault::Refused(LinkRefusal::NoMain { count })),
    }
}
