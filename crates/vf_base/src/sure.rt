//! Files and a sink in memory that never fail.

ghost use Rattle.std.specs.Prelude.{◌≡◌, ◌↔◌, ◌≤◌, ◌++◌, [], Some, None, length, IfOk, OnOk, OnErr, IsErrOf, option_map};
ghost use Rattle.std.specs.FinMap.{empty, get, insert};
ghost use Rattle.vf_base.specs.Outside.{IsFront, ChangesAtMost};
ghost use Rattle.vf_base.specs.InMemory.{after_sure_read};

use crate::file_table::FileTable;
use crate::files::{FileFault, Files, PutFault};
use crate::memory::Memory;
use crate::memory_files::raised;
use crate::sink::{Sink, SinkFault};
use std::alloc::Global;
use std::marker::Model;

/// Files in memory that never fail.
#[derive(Debug, Drop)]
pub struct SureFiles {
    table: FileTable,
    absence_count: u64,
}

impl Model for SureFiles {
    ghost use Rattle.vf_base.specs.InMemory.{SureFilesState, sure_files_code};

    ghost Value = { SureFilesState };

    ghost coded = { sure_files_code };

    ghost view = { λ f. record { map = f.table; absences = f.absence_count } };
}

impl SureFiles {
    /// No files.
    pub fn new(alloc: Global) -> SureFiles
        ensures { result ≡ record { map = empty; absences = 0 } }
    {
        SureFiles {
            table: FileTable::new(alloc),
            absence_count: 0,
        }
    }

    /// Puts bytes at a path, in the place of those that are there.
    pub fn set(&mut self, path: &str, bytes: &[u8]) -> Result<(), Memory>
        ensures ok { OnOk result (self.new ≡ record self.old { map = insert self.old.map path.now bytes.now }) }
        ensures err { OnErr result (self.new ≡ self.old) }
    {
        self.table.set(path.as_bytes(), bytes)
    }

    /// The bytes at a path.
    pub fn at(&self, path: &str) -> Option<&[u8]>
        ensures { option_map (λ b. b.now) result ≡ get self.now.map path.now }
    {
        self.table.get(path.as_bytes())
    }
}

impl Files for SureFiles {
    ghost contents = { λ f. Some f.map };

    ghost failures = { λ _. 0 };

    ghost absences = { λ f. f.absences };

    ghost put_failures = { λ _. 0 };

    fn read(&mut self, path: &str, limit: u64, into: &mut Vec<u8>) -> Result<(), FileFault>
        requires { into.old.items ≡ [] }
        ensures ok { OnOk result (IsFront (Some self.old.map) path.now limit into.new.items) }
        ensures err { OnErr result (into.new.items ≡ []) }
        ensures sure { ¬ IsErrOf result FileFault.Failed }
        ensures missing { IsErrOf result FileFault.Missing ↔ (get self.old.map path.now ≡ None) }
        ensures after { self.new ≡ after_sure_read self.old result }
        ensures absences_never_fall { self.old.absences ≤ self.new.absences }
    {
        let read = self.table.read(path.as_bytes(), limit, into);
        if let Err(FileFault::Missing) = read {
            self.absence_count = raised(self.absence_count);
        }
        read
    }

    #[tactic(auto, using(crate::proofs::Entries::others_kept))]
    fn put(&mut self, path: &str, bytes: &[u8]) -> Result<(), PutFault>
        ensures ok { OnOk result (self.new ≡ record self.old { map = insert self.old.map path.now bytes.now }) }
        ensures err { OnErr result (self.new ≡ self.old) }
        ensures others { ChangesAtMost (Some self.old.map) (Some self.new.map) path.now }
        ensures sure { ¬ IsErrOf result PutFault.Failed }
    {
        self.table.set(path.as_bytes(), bytes)?;
        Ok(())
    }
}

/// A sink in memory that never fails, which contracts see as the list of the bytes that it took.
#[derive(Debug, Drop)]
pub struct SureSink {
    bytes: Vec<u8>,
}

impl Model for SureSink {
    ghost use Rattle.std.specs.Prelude.{List, ℕ};

    ghost Value = { List ℕ };

    ghost view = { λ s. s.bytes.items };
}

impl SureSink {
    /// A sink that took nothing yet.
    pub fn new(alloc: Global) -> SureSink
        ensures { result ≡ [] }
    {
        SureSink {
            bytes: Vec::new(alloc),
        }
    }

    /// The bytes that it took.
    pub fn taken(&self) -> &[u8]
        ensures { result.now ≡ self.now }
    {
        self.bytes.as_slice()
    }
}

impl Sink for SureSink {
    ghost taken = { λ s. Some s };

    ghost failures = { λ _. 0 };

    fn write(&mut self, bytes: &[u8]) -> Result<usize, SinkFault>
        ensures all { IfOk result (λ n. n ≡ length bytes.now) }
        ensures ok { OnOk result (self.new ≡ self.old ++ bytes.now) }
        ensures err { OnErr result (self.new ≡ self.old) }
        ensures sure { ¬ IsErrOf result SinkFault.Failed }
    {
        self.bytes.extend_from_slice(bytes)?;
        Ok(bytes.len())
    }
}
