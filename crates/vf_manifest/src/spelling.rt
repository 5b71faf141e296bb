//! The texts of manifests.

ghost use Rattle.std.specs.Prelude.{◌≡◌, ◌<◌, ◌++◌, ◌∷◌, [], IfOk, OnOk, Some, length, slice_get};
ghost use Rattle.std.specs.Option.{option_map};
ghost use Rattle.vf_manifest.specs.declared.line.Version.TheVariants as versions;
ghost use Rattle.vf_manifest.specs.Kept.{word};
ghost use Rattle.vf_manifest.specs.Manifests.{IsManifest, IsManifestText, ended, text_of};

use crate::kind::Kind;
use crate::lines::Manifest;
use std::alloc::Global;
use vf_base::{Memory, Text};

/// The first word of the lines of a kind, and the blank behind it.
fn word_of(kind: Kind) -> &'static str
    ensures { result.now ≡ word kind }
{
    match kind {
        Kind::Body => ".body ",
        Kind::Calls => ".calls ",
        Kind::Claims => ".claims ",
        Kind::Instance => ".instance ",
        Kind::Provides => ".provides ",
        Kind::Requires => ".requires ",
        Kind::Struct => ".struct ",
        Kind::Uses => ".uses ",
    }
}

/// Puts the line at an index behind a text, with the line feed that ends it.
fn push_line(out: &mut Text, manifest: &Manifest, at: usize) -> Result<(), Memory>
    requires { at < length manifest.now }
    ensures { OnOk result (option_map (λ l. out.old ++ ended versions.Second l) (slice_get manifest.now at) ≡ Some out.new) }
{
    out.push_bytes(word_of(manifest.kind(at)).as_bytes())?;
    out.push_bytes(manifest.subject(at))?;
    out.push(b' ')?;
    out.push_bytes(manifest.content(at))?;
    out.push(b'\n')
}

/// The text of a manifest, in version 2.
pub fn write_manifest(alloc: Global, manifest: &Manifest) -> Result<Text, Memory>
    requires { IsManifest manifest.now }
    ensures text { IfOk result (λ text. text ≡ text_of versions.Second manifest.now) }
    ensures reads_back { IfOk result (λ text. IsManifestText text manifest.now) }
{
    let mut out = Text::from_bytes(alloc, b".vfmanifest 2\n")?;
    for at in 0..manifest.len() {
        push_line(&mut out, manifest, at)?;
    }
    Ok(out)
}
