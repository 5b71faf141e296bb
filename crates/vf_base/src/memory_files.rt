//! Files in memory, of which chosen calls fail.

ghost use Rattle.std.specs.Prelude.{◌≡◌, ◌↔◌, ◌≤◌, [], Some, None, OnOk, OnErr, IsErrOf, IsTrue, Contains, option_map};
ghost use Rattle.std.specs.FinMap.{empty, get, insert};
ghost use Rattle.vf_base.specs.Outside.{next_count, IsFront, ChangesAtMost};
ghost use Rattle.vf_base.specs.InMemory.{after_read, after_put};

use crate::file_table::FileTable;
use crate::files::{FileFault, Files, PutFault};
use crate::memory::Memory;
use crate::sequence::NumberList;
use std::alloc::Global;
use std::marker::Model;

/// Files in memory, of which chosen calls fail.
///
/// Calls of `read` and `put` are counted together, from 0. Contracts see the map, the numbers of the
/// calls that are to fail, and the counts.
#[derive(Debug, Drop)]
pub struct MemoryFiles {
    table: FileTable,
    to_fail: NumberList,
    call_count: u64,
    failure_count: u64,
    absence_count: u64,
    put_failure_count: u64,
}

impl Model for MemoryFiles {
    ghost use Rattle.vf_base.specs.InMemory.{FilesState, files_code};

    ghost Value = { FilesState };

    ghost coded = { files_code };

    ghost view = { λ f. record {
      map = f.table;
      fails = f.to_fail;
      calls = f.call_count;
      failures = f.failure_count;
      absences = f.absence_count;
      put_failures = f.put_failure_count;
    } };
}

/// A count after one more, which stands still at its last value.
pub fn raised(count: u64) -> u64
    ensures { result ≡ next_count count }
{
    count.saturating_add(1)
}

impl MemoryFiles {
    /// No files. The calls with these numbers are to fail.
    pub fn new(alloc: Global, fails: NumberList) -> MemoryFiles
        ensures { result ≡ record {
          map = empty;
          fails = fails;
          calls = 0;
          failures = 0;
          absences = 0;
          put_failures = 0;
        } }
    {
        MemoryFiles {
            table: FileTable::new(alloc),
            to_fail: fails,
            call_count: 0,
            failure_count: 0,
            absence_count: 0,
            put_failure_count: 0,
        }
    }

    /// Puts bytes at a path, in the place of those that are there. It counts as no call.
    pub fn set(&mut self, path: &str, bytes: &[u8]) -> Result<(), Memory>
        ensures ok { OnOk result (self.new ≡ record self.old { map = insert self.old.map path.now bytes.now }) }
        ensures err { OnErr result (self.new ≡ self.old) }
    {
        self.table.set(path.as_bytes(), bytes)
    }

    /// The bytes at a path.
    pub fn at(&self, path: &str) -> Option<&[u8]>
        ensures { option_map (λ b. b.now) result ≡ get self.now.map path.now }
    {
        self.table.get(path.as_bytes())
    }

    /// Counts one call, and says whether it is to fail.
    fn count_call(&mut self) -> bool
        ensures to_fail { IsTrue result ↔ Contains self.old.fails self.old.calls }
        ensures counted { self.new ≡ record self.old { calls = next_count self.old.calls } }
    {
        let fails = self.to_fail.contains(self.call_count);
        self.call_count = raised(self.call_count);
        fails
    }
}

impl Files for MemoryFiles {
    ghost contents = { λ f. Some f.map };

    ghost failures = { λ f. f.failures };

    ghost absences = { λ f. f.absences };

    ghost put_failures = { λ f. f.put_failures };

    fn read(&mut self, path: &str, limit: u64, into: &mut Vec<u8>) -> Result<(), FileFault>
        requires { into.old.items ≡ [] }
        ensures ok { OnOk result (IsFront (Some self.old.map) path.now limit into.new.items) }
        ensures err { OnErr result (into.new.items ≡ []) }
        ensures failed { IsErrOf result FileFault.Failed ↔ Contains self.old.fails self.old.calls }
        ensures missing { IsErrOf result FileFault.Missing
            ↔ (¬ Contains self.old.fails self.old.calls × (get self.old.map path.now ≡ None)) }
        ensures after { self.new ≡ after_read self.old result }
        ensures failures_never_fall { self.old.failures ≤ self.new.failures }
        ensures absences_never_fall { self.old.absences ≤ self.new.absences }
        ensures put_failures_never_fall { self.old.put_failures ≤ self.new.put_failures }
    {
        if self.count_call() {
            self.failure_count = raised(self.failure_count);
            return Err(FileFault::Failed);
        }
        let read = self.table.read(path.as_bytes(), limit, into);
        if let Err(FileFault::Missing) = read {
            self.absence_count = raised(self.absence_count);
        }
        read
    }

    #[tactic(auto, using(crate::proofs::Entries::others_kept))]
    fn put(&mut self, path: &str, bytes: &[u8]) -> Result<(), PutFault>
        ensures others { ChangesAtMost (Some self.old.map) (Some self.new.map) path.now }
        ensures failed { IsErrOf result PutFault.Failed ↔ Contains self.old.fails self.old.calls }
        ensures after { self.new ≡ after_put self.old path.now bytes.now result }
        ensures failures_never_fall { self.old.failures ≤ self.new.failures }
        ensures absences_never_fall { self.old.absences ≤ self.new.absences }
        ensures put_failures_never_fall { self.old.put_failures ≤ self.new.put_failures }
    {
        if self.count_call() {
            self.put_failure_count = raised(self.put_failure_count);
            return Err(PutFault::Failed);
        }
        self.table.set(path.as_bytes(), bytes)?;
        Ok(())
    }
}
