//! Writing a manifest again, in version 2.

ghost use Rattle.std.specs.Prelude.{◌≡◌, IfOk, IfSome, IsErrOf};
ghost use Rattle.vf_base.specs.Outside.{ChangesAtMost, IsAbsent, Rose};
ghost use Rattle.vf_report.specs.Lines.{upgraded_line};
ghost use Rattle.vf_report.specs.Loaded.{HasNoManifest};
ghost use Rattle.vf_manifest_commands.specs.Manifests.{Upgrades};

use std::alloc::Global;
use vf_base::{Files, Memory, PutFault, Text};
use vf_manifest::write_manifest;
use vf_report::{Stop, load_manifest, push_upgraded};

/// Why a manifest was not written again.
#[derive(Clone, Copy, Debug, PartialEq, Eq)]
pub enum UpgradeFault {
    /// It was not read.
    Stopped(Stop),
    /// It could not be written.
    WriteFault,
}

/// What is printed of a manifest that was written again.
fn line_of(alloc: Global, path: &str) -> Result<Text, Memory>
    ensures { IfOk result (λ t. t ≡ upgraded_line path.now) }
{
    let mut text = Text::new(alloc);
    push_upgraded(&mut text, path)?;
    Ok(text)
}

/// Puts the manifest of the file at a path in its place, in version 2, and gives the line that is printed then.
///
/// # Errors
///
/// Where the file is not there or could not be read, where it has no manifest, where it could not be written, or where memory
/// ran out.
pub fn upgrade_answer<F: Files>(
    alloc: Global,
    path: &str,
    files: &mut F,
) -> Result<Text, UpgradeFault>
    ensures line { IfOk result (λ t. t ≡ upgraded_line path.now) }
    ensures upgraded { IfOk result (λ _. IfSome (F.contents files.old) (λ m. Upgrades m (F.contents files.new) path.now)) }
    ensures others { ChangesAtMost (F.contents files.old) (F.contents files.new) path.now }
    ensures unreadable { IsErrOf result (UpgradeFault.Stopped Stop.Unreadable) → IfSome (F.contents files.old) (λ m. HasNoManifest m path.now) }
    ensures lacking { IsErrOf result (UpgradeFault.Stopped Stop.Missing) → IsAbsent (F.contents files.old) path.now }
    ensures missing { IsErrOf result (UpgradeFault.Stopped Stop.Missing) → Rose (F.absences files.old) (F.absences files.new) }
    ensures failed { IsErrOf result (UpgradeFault.Stopped Stop.ReadFault) → Rose (F.failures files.old) (F.failures files.new) }
    ensures unwritten { IsErrOf result UpgradeFault.WriteFault → Rose (F.put_failures files.old) (F.put_failures files.new) }
{
    let lines = match load_manifest(alloc, files, path) {
        Ok(lines) => lines,
        Err(stop) => return Err(UpgradeFault::Stopped(stop)),
    };
    let Ok(line) = line_of(alloc, path) else {
        return Err(UpgradeFault::Stopped(Stop::Memory));
    };
    let Ok(text) = write_manifest(alloc, &lines) else {
        return Err(UpgradeFault::Stopped(Stop::Memory));
    };
    match files.put(path, text.as_bytes()) {
        Ok(()) => Ok(line),
        Err(PutFault::Failed) => Err(UpgradeFault::WriteFault),
        Err(PutFault::Memory) => Err(UpgradeFault::Stopped(Stop::Memory)),
    }
}
