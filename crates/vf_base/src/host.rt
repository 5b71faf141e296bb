//! The files of the host, and its standard output.

ghost use Rattle.std.specs.Prelude.{◌≡◌, ◌+◌, ◌≤◌, ◌↔◌, [], length, IfOk};
ghost use Rattle.std.specs.IoError.{error_kind};
ghost use Rattle.vf_base.specs.Host.{after_host_read, after_host_put, after_host_write};

use crate::files::{FileFault, Files, PutFault};
use crate::memory_files::raised;
use crate::sink::{Sink, SinkFault};
use std::io::{ErrorKind, Read};
use std::marker::Model;
use std::{fs, io, rt};

/// The files of the host. They tell nothing of what is in them, and contracts see their counts alone.
#[derive(Drop)]
pub struct HostFiles<R> {
    runtime: R,
    failure_count: u64,
    absence_count: u64,
    put_failure_count: u64,
}

impl<R> Model for HostFiles<R> {
    ghost use Rattle.vf_base.specs.Host.{HostCounts};

    ghost Value = { HostCounts };

    ghost view = { λ f. record {
      failures = f.failure_count;
      absences = f.absence_count;
      put_failures = f.put_failure_count;
    } };
}

impl<R> HostFiles<R> {
    /// The files that a runtime reaches, with each count 0.
    pub fn new(runtime: R) -> HostFiles<R>
        ensures { result ≡ record { failures = 0; absences = 0; put_failures = 0 } }
    {
        HostFiles {
            runtime,
            failure_count: 0,
            absence_count: 0,
            put_failure_count: 0,
        }
    }
}

impl<R: rt::Files> Files for HostFiles<R> {
    ghost use Rattle.std.specs.Prelude.{None};

    ghost contents = { λ _. None };

    ghost failures = { λ f. f.failures };

    ghost absences = { λ f. f.absences };

    ghost put_failures = { λ f. f.put_failures };

    fn read(&mut self, path: &str, limit: u64, into: &mut Vec<u8>) -> Result<(), FileFault>
        requires { into.old.items ≡ [] }
        ensures bounded { length into.new.items ≤ limit + 1 }
        ensures after { self.new ≡ after_host_read self.old result }
        ensures failures_never_fall { self.old.failures ≤ self.new.failures }
        ensures absences_never_fall { self.old.absences ≤ self.new.absences }
        ensures put_failures_never_fall { self.old.put_failures ≤ self.new.put_failures }
    {
        let read = read_path(&self.runtime, path, limit, into);
        match read {
            Err(FileFault::Failed) => self.failure_count = raised(self.failure_count),
            Err(FileFault::Missing) => self.absence_count = raised(self.absence_count),
            _ => {}
        }
        read
    }

    fn put(&mut self, path: &str, bytes: &[u8]) -> Result<(), PutFault>
        ensures after { self.new ≡ after_host_put self.old result }
        ensures failures_never_fall { self.old.failures ≤ self.new.failures }
        ensures absences_never_fall { self.old.absences ≤ self.new.absences }
        ensures put_failures_never_fall { self.old.put_failures ≤ self.new.put_failures }
    {
        if fs::write(&self.runtime, path, bytes).is_err() {
            self.put_failure_count = raised(self.put_failure_count);
            return Err(PutFault::Failed);
        }
        Ok(())
    }
}

/// Reads the first `limit + 1` bytes of a file of the host, or all of them where it is shorter.
fn read_path<R: rt::Files>(
    runtime: &R,
    path: &str,
    limit: u64,
    into: &mut Vec<u8>,
) -> Result<(), FileFault>
    requires { into.old.items ≡ [] }
    ensures { length into.new.items ≤ limit + 1 }
{
    match fs::open(runtime, path) {
        Ok(mut file) => read_front(&mut file, limit, into),
        Err(error) => Err(fault_of(&error)),
    }
}

/// Why a file could not be opened: only where the host finds none is it missing.
fn fault_of(error: &io::Error) -> FileFault
    ensures { result ≡ FileFault.Missing ↔ error_kind error.now ≡ ErrorKind.NotFound }
{
    if error.kind() == ErrorKind::NotFound {
        FileFault::Missing
    } else {
        FileFault::Failed
    }
}

/// Reads the first `limit + 1` bytes of what is left, or all of them where it is less.
fn read_front<F: Read>(file: &mut F, limit: u64, into: &mut Vec<u8>) -> Result<(), FileFault>
    requires { into.old.items ≡ [] }
    ensures { length into.new.items ≤ limit + 1 }
{
    let mut buffer = [0u8; 4096];
    while into.len() as u64 <= limit {
        let more = limit - into.len() as u64;
        let wanted = more.min(4095) as usize + 1;
        let Ok(count) = file.read(&mut buffer[..wanted]) else {
            return Err(FileFault::Failed);
        };
        if count == 0 {
            return Ok(());
        }
        into.extend_from_slice(&buffer[..count])?;
    }
    Ok(())
}

/// The standard output of the host. Contracts see the count of its failures alone.
#[derive(Drop)]
pub struct HostSink<R> {
    runtime: R,
    failure_count: u64,
}

impl<R> Model for HostSink<R> {
    ghost use Rattle.std.specs.Prelude.{ℕ};

    ghost Value = { ℕ };

    ghost view = { λ s. s.failure_count };
}

impl<R> HostSink<R> {
    /// The standard output that a runtime reaches, without a failure yet.
    pub fn new(runtime: R) -> HostSink<R>
        ensures { result ≡ 0 }
    {
        HostSink {
            runtime,
            failure_count: 0,
        }
    }
}

impl<R: Print> Sink for HostSink<R> {
    ghost use Rattle.std.specs.Prelude.{None};

    ghost taken = { λ _. None };

    ghost failures = { λ s. s };

    fn write(&mut self, bytes: &[u8]) -> Result<usize, SinkFault>
        ensures bounded { IfOk result (λ n. n ≤ length bytes.now) }
        ensures after { self.new ≡ after_host_write self.old bytes.now result }
        ensures failures_never_fall { self.old ≤ self.new }
    {
        match self.runtime.write_some(bytes) {
            Ok(count) => {
                if count == 0 && !bytes.is_empty() {
                    self.failure_count = raised(self.failure_count);
                }
                Ok(count)
            }
            Err(_) => {
                self.failure_count = raised(self.failure_count);
                Err(SinkFault::Failed)
            }
        }
    }
}
