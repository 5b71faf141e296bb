//! Names of locals.

ghost use Rattle.std.specs.Prelude.{◌≡◌, ◌<◌, ◌^◌, length};
ghost use Rattle.vf_first.specs.FirstForm.{local_of};

use vf_base::{Sequence, Text};

/// The number of the local that has this name.
pub fn local_of(names: &Sequence<Text>, name: &[u8]) -> Option<u32>
    requires { length names.now < 2 ^ 32 }
    ensures { result ≡ local_of names.now name.now }
{
    let local = names
        .as_slice()
        .iter()
        .position(|declared| declared.as_bytes() == name)?;
    Some(local as u32)
}
