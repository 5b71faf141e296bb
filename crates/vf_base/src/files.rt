//! Files, as a program sees them from inside.

ghost use Rattle.std.specs.Prelude.{◌≡◌, ℕ, [], ◌≤◌, OnOk, OnErr, IsErrOf};
ghost use Rattle.vf_base.specs.Outside.{Contents, Rose, IsFront, IsPartOf, IsAbsent, IsWritten, ChangesAtMost};

use crate::memory::Memory;
use std::alloc::AllocError;

/// Files that are read and written whole, by path.
///
/// Contracts see what is told of the files, and three counts that never fall: of reads that failed,
/// of reads of a path that was missing, and of writes that failed.
pub trait Files {
    // What is told of the files.
    ghost contents: { Self → Contents };

    // How many reads failed.
    ghost failures: { Self → ℕ };

    // How many reads found no file.
    ghost absences: { Self → ℕ };

    // How many writes failed.
    ghost put_failures: { Self → ℕ };

    /// Puts the first `limit + 1` bytes of a file into `into`, or all of them where it is shorter.
    ///
    /// A caller who allows `limit` bytes sees by the length that there are more.
    fn read(&mut self, path: &str, limit: u64, into: &mut Vec<u8>) -> Result<(), FileFault>
        requires { into.old.items ≡ [] }
        ensures ok { OnOk result (IsFront (contents self.old) path.now limit into.new.items) }
        ensures err { OnErr result (IsPartOf (contents self.old) path.now into.new.items) }
        ensures failed { IsErrOf result FileFault.Failed → Rose (failures self.old) (failures self.new) }
        ensures missing { IsErrOf result FileFault.Missing → Rose (absences self.old) (absences self.new) }
        ensures absent { IsErrOf result FileFault.Missing → IsAbsent (contents self.old) path.now }
        ensures unchanged { contents self.new ≡ contents self.old }
        ensures failures_never_fall { failures self.old ≤ failures self.new }
        ensures absences_never_fall { absences self.old ≤ absences self.new }
        ensures put_failures_never_fall { put_failures self.old ≤ put_failures self.new };

    /// Makes a file with these bytes at a path, in the place of one that is there.
    fn put(&mut self, path: &str, bytes: &[u8]) -> Result<(), PutFault>
        ensures ok { OnOk result (IsWritten (contents self.old) (contents self.new) path.now bytes.now) }
        ensures others { ChangesAtMost (contents self.old) (contents self.new) path.now }
        ensures failed { IsErrOf result PutFault.Failed → Rose (put_failures self.old) (put_failures self.new) }
        ensures failures_never_fall { failures self.old ≤ failures self.new }
        ensures absences_never_fall { absences self.old ≤ absences self.new }
        ensures put_failures_never_fall { put_failures self.old ≤ put_failures self.new };
}

/// Why a file was not read.
#[derive(Clone, Copy, Debug, PartialEq, Eq)]
pub enum FileFault {
    /// There is no file at the path.
    Missing,
    /// The file could not be read.
    Failed,
    /// There was no memory for its bytes.
    Memory,
}

/// Why a file was not written.
#[derive(Clone, Copy, Debug, PartialEq, Eq)]
pub enum PutFault {
    /// The file could not be written.
    Failed,
    /// There was no memory for its bytes.
    Memory,
}

impl From<Memory> for FileFault {
    ghost use Rattle.std.specs.Prelude.{◌≡◌};
    ghost use Rattle.vf_base.specs.declared.files.FileFault.TheVariants as faults;

    ghost from_gives = { λ _ e. e ≡ faults.Memory };

    fn from(_: Memory) -> FileFault {
        FileFault::Memory
    }
}

impl From<AllocError> for FileFault {
    ghost use Rattle.std.specs.Prelude.{◌≡◌};
    ghost use Rattle.vf_base.specs.declared.files.FileFault.TheVariants as faults;

    ghost from_gives = { λ _ e. e ≡ faults.Memory };

    fn from(_: AllocError) -> FileFault {
        FileFault::Memory
    }
}

impl From<Memory> for PutFault {
    ghost use Rattle.std.specs.Prelude.{◌≡◌};
    ghost use Rattle.vf_base.specs.declared.files.PutFault.TheVariants as faults;

    ghost from_gives = { λ _ e. e ≡ faults.Memory };

    fn from(_: Memory) -> PutFault {
        PutFault::Memory
    }
}
