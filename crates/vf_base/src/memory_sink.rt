//! A sink in memory, of which chosen calls fail.

ghost use Rattle.std.specs.Prelude.{◌≡◌, ◌↔◌, ◌<◌, ◌≤◌, [], length, min, IfOk, IsErrOf, IsTrue, Contains};
ghost use Rattle.vf_base.specs.Outside.{next_count};
ghost use Rattle.vf_base.specs.InMemory.{after_write};

use crate::memory_files::raised;
use crate::sequence::NumberList;
use crate::sink::{Sink, SinkFault};
use std::alloc::Global;
use std::marker::Model;

/// A sink in memory that takes at most so many bytes a call, and of which chosen calls fail.
///
/// Calls of `write` are counted from 0. Contracts see the bytes that it took, the numbers of the calls
/// that are to fail, how many bytes it takes a call, and the counts.
#[derive(Debug, Drop)]
pub struct MemorySink {
    bytes: Vec<u8>,
    to_fail: NumberList,
    most_a_call: u64,
    call_count: u64,
    failure_count: u64,
}

impl Model for MemorySink {
    ghost use Rattle.std.specs.Prelude.{◌<◌};
    ghost use Rattle.vf_base.specs.InMemory.{SinkState};

    ghost Value = { SinkState };

    ghost view = { λ s. record {
      taken = s.bytes.items;
      fails = s.to_fail;
      most = s.most_a_call;
      calls = s.call_count;
      failures = s.failure_count;
    } };

    ghost invariant = { λ s. 0 < s.most_a_call };
}

impl MemorySink {
    /// A sink that took nothing yet, and takes at most `most` bytes a call. The calls with these
    /// numbers are to fail.
    pub fn new(alloc: Global, fails: NumberList, most: u64) -> MemorySink
        requires { 1 ≤ most }
        ensures { result ≡ record {
          taken = [];
          fails = fails;
          most = most;
          calls = 0;
          failures = 0;
        } }
    {
        MemorySink {
            bytes: Vec::new(alloc),
            to_fail: fails,
            most_a_call: most,
            call_count: 0,
            failure_count: 0,
        }
    }

    /// The bytes that it took.
    pub fn taken(&self) -> &[u8]
        ensures { result.now ≡ self.now.taken }
    {
        self.bytes.as_slice()
    }

    /// Counts one call, and says whether it is to fail.
    fn count_call(&mut self) -> bool
        ensures to_fail { IsTrue result ↔ Contains self.old.fails self.old.calls }
        ensures counted { self.new ≡ record self.old { calls = next_count self.old.calls } }
    {
        let fails = self.to_fail.contains(self.call_count);
        self.call_count = raised(self.call_count);
        fails
    }
}

impl Sink for MemorySink {
    ghost use Rattle.std.specs.Prelude.{Some};

    ghost taken = { λ s. Some s.taken };

    ghost failures = { λ s. s.failures };

    fn write(&mut self, bytes: &[u8]) -> Result<usize, SinkFault>
        ensures ok { IfOk result (λ n. n ≡ min (length bytes.now) self.old.most) }
        ensures some { IfOk result (λ n. 0 < length bytes.now → 0 < n) }
        ensures failed { IsErrOf result SinkFault.Failed ↔ Contains self.old.fails self.old.calls }
        ensures after { self.new ≡ after_write self.old bytes.now result }
        ensures failures_never_fall { self.old.failures ≤ self.new.failures }
    {
        if self.count_call() {
            self.failure_count = raised(self.failure_count);
            return Err(SinkFault::Failed);
        }
        let most = self.most_a_call as usize;
        let count = bytes.len().min(most);
        self.bytes.extend_from_slice(&bytes[..count])?;
        Ok(count)
    }
}
