//! A table of files, which contracts see as a finite map.

ghost use Rattle.std.specs.Prelude.{◌≡◌, ◌↔◌, ◌+◌, [], take, Some, None, MatchOption, OnOk, OnErr, IsErrOf, option_map};
ghost use Rattle.std.specs.FinMap.{empty, get, insert};
ghost use Rattle.vf_base.specs.Outside.{IsFront};
ghost use Rattle.vf_base.specs.InMemory.{IsFirstAt, IsNowhere};

use crate::files::FileFault;
use crate::memory::Memory;
use crate::sequence::Sequence;
use crate::text::Text;
use std::alloc::Global;
use std::marker::Model;

/// The paths and bytes of files, which contracts see as a finite map. The first entry at a path counts.
#[derive(Debug, Drop)]
pub struct FileTable {
    alloc: Global,
    entries: Sequence<(Text, Text)>,
}

impl Model for FileTable {
    ghost use Rattle.std.specs.FinMap.{from_entries, code};
    ghost use Rattle.std.specs.Coded.{coded_list, coded_ℕ};
    ghost use Rattle.vf_base.specs.Outside.{FileMap};

    ghost Value = { FileMap };

    ghost coded = { code (coded_list coded_ℕ) (coded_list coded_ℕ) };

    ghost view = { λ t. from_entries t.entries };
}

impl FileTable {
    /// The table without files.
    pub fn new(alloc: Global) -> FileTable
        ensures { result ≡ empty }
    {
        FileTable {
            alloc,
            entries: Sequence::new(alloc),
        }
    }

    /// The bytes at a path.
    pub fn get(&self, path: &[u8]) -> Option<&[u8]>
        ensures { option_map (λ b. b.now) result ≡ get self.now path.now }
    {
        let entries = self.entries.as_slice();
        match place_of(entries, path) {
            Some(at) => Some(entries[at].1.as_bytes()),
            None => None,
        }
    }

    /// Puts the first `limit + 1` bytes at a path into `into`, or all of them where they are fewer.
    pub fn read(&self, path: &[u8], limit: u64, into: &mut Vec<u8>) -> Result<(), FileFault>
        requires { into.old.items ≡ [] }
        ensures ok { OnOk result (IsFront (Some self.now) path.now limit into.new.items) }
        ensures err { OnErr result (into.new.items ≡ []) }
        ensures missing { IsErrOf result FileFault.Missing ↔ (get self.now path.now ≡ None) }
        ensures never { ¬ IsErrOf result FileFault.Failed }
    {
        match self.get(path) {
            Some(all) => {
                into.extend_from_slice(front_of(all, limit))?;
                Ok(())
            }
            None => Err(FileFault::Missing),
        }
    }

    /// Puts bytes at a path, in the place of those that are there.
    pub fn set(&mut self, path: &[u8], bytes: &[u8]) -> Result<(), Memory>
        ensures ok { OnOk result (self.new ≡ insert self.old path.now bytes.now) }
        ensures err { OnErr result (self.new ≡ self.old) }
    {
        let name = Text::from_bytes(self.alloc, path)?;
        let content = Text::from_bytes(self.alloc, bytes)?;
        match place_of(self.entries.as_slice(), path) {
            Some(at) => {
                self.entries.set(at, (name, content));
                Ok(())
            }
            None => {
                self.entries.push((name, content))?;
                Ok(())
            }
        }
    }
}

/// The first `limit + 1` bytes, or all where they are fewer.
fn front_of(all: &[u8], limit: u64) -> &[u8]
    ensures { result.now ≡ take (limit + 1) all.now }
{
    let last = limit as usize;
    if last < all.len() {
        &all[..last + 1]
    } else {
        all
    }
}

/// Where the first entry at a path stands.
fn place_of(entries: &[(Text, Text)], path: &[u8]) -> Option<usize>
    ensures { MatchOption result (IsNowhere entries.now path.now) (IsFirstAt entries.now path.now) }
{
    for (at, entry) in entries.iter().enumerate() {
        if entry.0.has_bytes(path) {
            return Some(at);
        }
    }
    None
}
