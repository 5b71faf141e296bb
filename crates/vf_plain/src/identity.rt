//! Identities of what a unit declares.

ghost use Rattle.std.specs.Prelude.{◌≡◌, IfOk};
ghost use Rattle.vf_terms.specs.Named.{first_path, identity_of};
ghost use Rattle.vf_plain.specs.Identities.{paths_of};

use std::alloc::Global;
use vf_base::{Memory, NumberList, Text};
use vf_snapshot::Snapshot;

/// The path of the first of some files; no bytes where there is none.
fn first_path(alloc: Global, snapshot: &Snapshot, files: &[u64]) -> Result<Text, Memory>
    ensures { IfOk result (λ t. t ≡ first_path (paths_of snapshot.now) files.now) }
{
    let Some(file) = files.get(0) else {
        return Ok(Text::new(alloc));
    };
    let Ok(number) = u32::try_from(*file) else {
        return Err(Memory);
    };
    if (number as usize) < snapshot.len() {
        Text::from_bytes(alloc, snapshot.path(number).as_bytes())
    } else {
        Ok(Text::new(alloc))
    }
}

/// The identity of a name that is declared in some files: the path of the first of them, a `#` and the name.
pub fn identity(
    alloc: Global,
    snapshot: &Snapshot,
    files: &NumberList,
    name: &[u8],
) -> Result<Text, Memory>
    ensures { IfOk result (λ t. t ≡ identity_of (paths_of snapshot.now) files.now name.now) }
{
    let mut identity = first_path(alloc, snapshot, files.as_slice())?;
    identity.push(b'#')?;
    identity.push_bytes(name)?;
    Ok(identity)
}
