//! Reading the files that words mean.

ghost use Rattle.std.specs.Prelude.{◌≡◌, [], List, ℕ, All, IfOk, IsErrOf, map};
ghost use Rattle.vf_base.specs.Outside.{Rose};
ghost use Rattle.vf_snapshot.specs.declared.held.Held.TheVariants as known;
ghost use Rattle.vf_snapshot.specs.Holdings.{IsHeldAt};
ghost use Rattle.vf_expand.specs.Worlds.{world, Reads};
ghost use Rattle.vf_words.specs.Words.{IsSourcePath};
ghost use Rattle.vf_words.specs.Commands.{paths_of};
ghost use Rattle.vf_module.specs.Readings.{result_of};
ghost use Rattle.vf_try.specs.Files.{FilesRead, IsAscii, IsSomeAbsent, ReadsBy, file_of};

use std::alloc::Global;
use vf_base::{Files, Text};
use vf_module::{Reading, UnitFault, read_unit};
use vf_preproc::path_text;
use vf_report::Stop;
use vf_snapshot::{Snapshot, normal_path};

/// A file that was read: its path, and what came of it.
#[derive(Drop)]
pub struct FileRead {
    pub path: Text,
    pub reading: Reading,
}

/// Files that were read, in order, and what is held of all paths that were asked for.
#[derive(Drop)]
pub struct ReadFiles {
    pub snapshot: Snapshot,
    pub files: Vec<FileRead>,
}

/// How a fault of reading a unit stops a call.
fn stop_of(fault: UnitFault) -> Stop
    ensures missing { result ≡ Stop.Missing → fault ≡ UnitFault.Missing }
    ensures read_fault { result ≡ Stop.ReadFault → fault ≡ UnitFault.ReadFault }
    ensures readable { result ≡ Stop.Unreadable → ⊥ }
{
    match fault {
        UnitFault::Missing => Stop::Missing,
        UnitFault::ReadFault => Stop::ReadFault,
        UnitFault::Memory => Stop::Memory,
    }
}

/// Reads the file at a path.
fn read_path<F: Files>(
    alloc: Global,
    snapshot: &mut Snapshot,
    files: &mut F,
    path: Text,
) -> Result<FileRead, Stop>
    requires ascii { IsAscii path }
    ensures path { IfOk result (λ r. r.path ≡ path) }
    ensures read { IfOk result (λ r. ReadsBy snapshot.new path (result_of r.reading)) }
    ensures missing { IsErrOf result Stop.Missing → (number : ℕ) × IsHeldAt snapshot.new path number known.Missing }
    ensures read_fault { IsErrOf result Stop.ReadFault → Rose (F.failures files.old) (F.failures files.new) }
    ensures readable { IsErrOf result Stop.Unreadable → ⊥ }
    ensures reads { Reads
        (world snapshot.old (F.contents files.old) (F.failures files.old) (F.absences files.old) (F.put_failures files.old))
        (world snapshot.new (F.contents files.new) (F.failures files.new) (F.absences files.new) (F.put_failures files.new)) }
{
    match read_unit(alloc, snapshot, files, path_text(path.as_bytes())) {
        Ok(reading) => Ok(FileRead { path, reading }),
        Err(fault) => Err(stop_of(fault)),
    }
}

/// Reads the files that words mean, in order. A refused file does not stop the later ones.
pub fn read_files<F: Files>(alloc: Global, files: &mut F, words: &[&str]) -> Result<ReadFiles, Stop>
    requires sources { All (λ w. IsSourcePath w.now) words.now }
    ensures read { IfOk result (λ r. FilesRead (F.contents files.old) [] (paths_of words.now) (map file_of r.files.items) r.snapshot) }
    ensures absent { IsErrOf result Stop.Missing → IsSomeAbsent (F.contents files.old) (paths_of words.now) }
    ensures missing { IsErrOf result Stop.Missing → Rose (F.absences files.old) (F.absences files.new) }
    ensures read_fault { IsErrOf result Stop.ReadFault → Rose (F.failures files.old) (F.failures files.new) }
    ensures readable { IsErrOf result Stop.Unreadable → ⊥ }
    ensures unchanged { F.contents files.new ≡ F.contents files.old }
{
    let mut snapshot = Snapshot::new(alloc);
    let mut read = Vec::new(alloc);
    for word in words {
        let path = match normal_path(alloc, "", *word) {
            Ok(path) => path,
            Err(_) => return Err(Stop::Memory),
        };
        let file = match read_path(alloc, &mut snapshot, files, path) {
            Ok(file) => file,
            Err(stop) => return Err(stop),
        };
        match read.push(file) {
            Ok(()) => {}
            Err(_) => return Err(Stop::Memory),
        }
    }
    Ok(ReadFiles {
        snapshot,
        files: read,
    })
}
