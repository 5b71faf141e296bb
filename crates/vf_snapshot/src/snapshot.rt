//! Files, each read once.

ghost use Rattle.std.specs.Prelude.{◌≡◌, ℕ, [], ◌∷◌, ◌++◌, ◌<◌, ◌≤◌, length, Some, None, Ok, IfSome, IfOk, IfErr, OnOk, OnErr, IsErrOf, List, take, slice_get, option_map};
ghost use Rattle.vf_base.specs.Outside.{Rose, IsFront};
ghost use Rattle.vf_snapshot.specs.declared.held.Held.{Held};
ghost use Rattle.vf_snapshot.specs.declared.held.Held.TheVariants as known;
ghost use Rattle.vf_snapshot.specs.Holdings.{number_in, known_of, IsKnown, Learns, answer, bytes_of, IsOutside, Stands, Grows, IsHeldAt};

use crate::held::{Held, SnapFault};
use std::alloc::Global;
use std::marker::Model;
use vf_base::{FileFault, Files, Memory, Text};
use vf_names::Names;

/// The most bytes of a file that are held.
const MOST_BYTES: u64 = 1_048_576;

/// How many paths have numbers.
const MOST_PATHS: usize = 4_294_967_295;

/// A path and what is known of it.
#[derive(Drop)]
struct Entry {
    path: String,
    held: Held,
}

/// What is known of files, each of which is read once. A file's number counts the paths that came before it.
///
/// Contracts see the list of the paths, each with what is known of it. A path is found in logarithmic time.
#[derive(Drop)]
pub struct Snapshot {
    alloc: Global,
    names: Names,
    entries: Vec<Entry>,
}

impl Model for Snapshot {
    ghost use Rattle.std.specs.Prelude.{map};
    ghost use Rattle.vf_snapshot.specs.Holdings.{Holdings};
    ghost use Rattle.vf_snapshot.specs.Entries.{entry_of, Match};

    ghost Value = { Holdings };

    ghost view = { λ s. map entry_of s.entries.items };

    ghost invariant = { λ s. Match s.names s.entries.items };
}

impl Snapshot {
    /// Nothing is known yet. It takes no memory.
    pub fn new(alloc: Global) -> Snapshot
        ensures { result ≡ [] }
    {
        Snapshot {
            alloc,
            names: Names::new(alloc),
            entries: Vec::new(alloc),
        }
    }

    /// The number of a path's file, which is read where nothing is known of the path yet.
    ///
    /// # Errors
    ///
    /// Missing where there is no file, TooLong where it has more than 1,048,576 bytes, both once and for
    /// all; ReadFault where a read failed, and Memory, after which nothing is held of the path.
    pub fn get<F: Files>(&mut self, files: &mut F, path: &str) -> Result<u32, SnapFault>
        ensures known { (number : ℕ) (held : Held) → number_in self.old path.now ≡ Some number
            → slice_get self.old number ≡ Some (path.now, held)
            → (result ≡ answer number held) × (self.new ≡ self.old) × (files.new ≡ files.old) }
        ensures learnt { number_in self.old path.now ≡ None
            → Learns (F.contents files.old) path.now self.old self.new result }
        ensures there { Stands self.new path.now result }
        ensures grows { Grows self.old self.new }
        ensures read_fault { IsErrOf result SnapFault.ReadFault → Rose (F.failures files.old) (F.failures files.new) }
        ensures missing { IsErrOf result SnapFault.Missing → number_in self.old path.now ≡ None
            → Rose (F.absences files.old) (F.absences files.new) }
        ensures files_unchanged { F.contents files.new ≡ F.contents files.old }
        ensures failures_never_fall { F.failures files.old ≤ F.failures files.new }
        ensures absences_never_fall { F.absences files.old ≤ F.absences files.new }
        ensures put_failures_never_fall { F.put_failures files.old ≤ F.put_failures files.new }
    {
        match self.number(path) {
            Some(number) => self.answer(number),
            None => {
                let held = read_held(self.alloc, files, path)?;
                let number = self.hold(path, held)?;
                self.answer(number)
            }
        }
    }

    /// Holds these bytes of a path, of which nothing was read, and gives its number.
    ///
    /// A path of which something is known already keeps its number and its bytes. Where there is no memory
    /// nothing changes.
    pub fn keep(&mut self, path: &str, bytes: &[u8]) -> Result<u32, Memory>
        ensures known { (number : ℕ) → number_in self.old path.now ≡ Some number
            → (result ≡ Ok number) × (self.new ≡ self.old) }
        ensures kept { number_in self.old path.now ≡ None → IfOk result (λ number.
            (number ≡ length self.old) × (self.new ≡ self.old ++ (path.now, known.Bytes bytes.now) ∷ [])) }
        ensures there { IfOk result (λ number. (held : Held) × IsHeldAt self.new path.now number held) }
        ensures grows { Grows self.old self.new }
        ensures unchanged { OnErr result (self.new ≡ self.old) }
    {
        match self.number(path) {
            Some(number) => Ok(number),
            None => {
                let bytes = Text::from_bytes(self.alloc, bytes)?;
                self.hold(path, Held::Bytes(bytes))
            }
        }
    }

    /// The bytes of a file, of which there are none where it was too long or missing.
    pub fn bytes(&self, file: u32) -> &[u8]
        requires { file < length self.now }
        ensures { option_map (λ e. bytes_of e.1) (slice_get self.now file) ≡ Some result.now }
    {
        match &self.entries[file as usize].held {
            Held::Bytes(bytes) => bytes.as_bytes(),
            _ => b"".as_slice(),
        }
    }

    /// How many paths something is known of.
    pub fn len(&self) -> usize
        ensures { result ≡ length self.now }
    {
        self.entries.len()
    }

    /// The path of a file.
    pub fn path(&self, file: u32) -> &str
        requires { file < length self.now }
        ensures { option_map (λ e. e.0) (slice_get self.now file) ≡ Some result.now }
    {
        self.entries[file as usize].path.as_str()
    }

    /// The number of a path.
    fn number(&self, path: &str) -> Option<u32>
        ensures number { result ≡ number_in self.now path.now }
        ensures there { IfSome result (λ n. (held : Held) × (slice_get self.now n ≡ Some (path.now, held))) }
    {
        let _entries = &self.entries;
        match self.names.number(path.as_bytes()) {
            Some(number) => Some(number as u32),
            None => None,
        }
    }

    /// The answer for the path with a number.
    fn answer(&self, number: u32) -> Result<u32, SnapFault>
        requires { number < length self.now }
        ensures { option_map (λ e. answer number e.1) (slice_get self.now number) ≡ Some result }
    {
        match &self.entries[number as usize].held {
            Held::Bytes(_) => Ok(number),
            Held::TooLong => Err(SnapFault::TooLong(number)),
            Held::Missing => Err(SnapFault::Missing),
        }
    }

    /// Holds what is known of one more path.
    fn hold(&mut self, path: &str, held: Held) -> Result<u32, Memory>
        requires { number_in self.old path.now ≡ None }
        ensures number { IfOk result (λ number. number ≡ length self.old) }
        ensures held { OnOk result (self.new ≡ self.old ++ (path.now, held) ∷ []) }
        ensures unchanged { OnErr result (self.new ≡ self.old) }
    {
        let number = self.entries.len();
        if number >= MOST_PATHS {
            return Err(Memory);
        }
        let entry = Entry {
            path: String::from_str(self.alloc, path)?,
            held,
        };
        self.entries.push(entry)?;
        match self.names.put(path.as_bytes()) {
            Ok(_) => Ok(number as u32),
            Err(_) => {
                let _last = self.entries.pop();
                Err(Memory)
            }
        }
    }
}

/// Reads what there is to know of a path's file.
fn read_held<F: Files>(alloc: Global, files: &mut F, path: &str) -> Result<Held, SnapFault>
    ensures known { IfOk result (λ held. IsKnown (F.contents files.old) path.now held) }
    ensures missing { result ≡ Ok known.Missing → Rose (F.absences files.old) (F.absences files.new) }
    ensures read_fault { IsErrOf result SnapFault.ReadFault → Rose (F.failures files.old) (F.failures files.new) }
    ensures faults { IfErr result IsOutside }
    ensures files_unchanged { F.contents files.new ≡ F.contents files.old }
    ensures failures_never_fall { F.failures files.old ≤ F.failures files.new }
    ensures absences_never_fall { F.absences files.old ≤ F.absences files.new }
    ensures put_failures_never_fall { F.put_failures files.old ≤ F.put_failures files.new }
{
    let mut bytes = Vec::new(alloc);
    match files.read(path, MOST_BYTES, &mut bytes) {
        Ok(()) => held_bytes(alloc, &bytes),
        Err(FileFault::Missing) => Ok(Held::Missing),
        Err(FileFault::Failed) => Err(SnapFault::ReadFault),
        Err(FileFault::Memory) => Err(SnapFault::Memory),
    }
}

/// What there is to know of a file, of which these are the bytes or the first 1,048,577 of them.
fn held_bytes(alloc: Global, bytes: &[u8]) -> Result<Held, SnapFault>
    ensures there { result ≡ Ok known.Missing → ⊥ }
    ensures known { IfOk result (λ held. (all : List ℕ) → bytes.now ≡ take 1048577 all → held ≡ known_of (Some all)) }
    ensures memory { IfErr result (λ fault. fault ≡ SnapFault.Memory) }
{
    if bytes.len() as u64 > MOST_BYTES {
        return Ok(Held::TooLong);
    }
    let text = Text::from_bytes(alloc, bytes)?;
    Ok(Held::Bytes(text))
}
