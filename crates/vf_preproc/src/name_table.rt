//! The names that stand in files.

ghost use Rattle.std.specs.Prelude.{◌≡◌, ◌<◌, ◌∷◌, ◌++◌, [], length, slice_get, slice_set, unwrap_or, IfOk, OnOk};
ghost use Rattle.std.specs.List.{list_any};
ghost use Rattle.vf_preproc.specs.UnitText.{is_among};
ghost use Rattle.vf_preproc.specs.Joins.{stands_in};
ghost use Rattle.vf_preproc.specs.NameTables.{Adds, Indexed, IsEvenIndex};

use crate::files::FileList;
use std::alloc::Global;
use std::marker::Model;
use std::mem;
use vf_base::{Memory, Sequence};
use vf_names::Names;

/// Names, and beside each the files in which it stands.
#[derive(Drop)]
pub struct Index {
    pub names: Names,
    pub files: Vec<Sequence<usize>>,
}

impl Index {
    /// Puts a file to those in which a name stands.
    fn add(&mut self, alloc: Global, name: &[u8], file: usize) -> Result<(), Memory>
        requires { IsEvenIndex self.old }
        ensures { OnOk result (Adds name.now file self.old self.new) }
    {
        match self.names.number(name) {
            Some(at) => add_at(&mut self.files, at, file),
            None => {
                let mut files = Sequence::new(alloc);
                files.push(file)?;
                self.names.put(name)?;
                self.files.push(files)?;
                Ok(())
            }
        }
    }
}

/// Puts a file to the end of the list with a number.
fn add_at(lists: &mut Vec<Sequence<usize>>, at: usize, file: usize) -> Result<(), Memory>
    requires { at < length lists.old.items }
    ensures { OnOk result (lists.new.items ≡ slice_set lists.old.items at (unwrap_or (slice_get lists.old.items at) [] ++ file ∷ [])) }
{
    lists[at].push(file)
}

/// Whether one of some files is among others.
fn is_one_among(files: &FileList, others: &[usize]) -> bool
    ensures { result ≡ list_any (λ f. is_among files.now f) others.now }
{
    for other in others {
        if files.has(*other) {
            return true;
        }
    }
    false
}

/// The names that stand in each of some files, each name once a file. Contracts see the list of these lists.
///
/// The files in which a name stands are found in logarithmic time.
#[derive(Drop)]
pub struct NameTable {
    alloc: Global,
    own: Vec<Names>,
    index: Index,
}

impl Model for NameTable {
    ghost use Rattle.std.specs.Prelude.{List, ℕ};
    ghost use Rattle.vf_preproc.specs.NameTables.{Indexed};

    ghost Value = { List (List (List ℕ)) };

    ghost view = { λ t. t.own.items };

    ghost invariant = { λ t. Indexed t.own.items t.index };
}

impl NameTable {
    /// No files, which takes no memory.
    pub fn new(alloc: Global) -> NameTable
        ensures { result ≡ [] }
    {
        NameTable {
            alloc,
            own: Vec::new(alloc),
            index: Index {
                names: Names::new(alloc),
                files: Vec::new(alloc),
            },
        }
    }

    /// Puts a file with its names to the end.
    pub fn push(&mut self, names: Names) -> Result<(), Memory>
        ensures { OnOk result (self.new ≡ self.old ++ names ∷ []) }
    {
        let alloc = self.alloc;
        let table = mem::replace(self, NameTable::new(alloc));
        *self = table.with(names)?;
        Ok(())
    }

    /// The table with a file and its names at the end.
    fn with(self, names: Names) -> Result<NameTable, Memory>
        ensures { IfOk result (λ table. table ≡ self ++ names ∷ []) }
    {
        let NameTable {
            alloc,
            mut own,
            mut index,
        } = self;
        let file = own.len();
        for name in names.as_slice() {
            index.add(alloc, name.as_bytes(), file)?;
        }
        own.push(names)?;
        Ok(NameTable { alloc, own, index })
    }

    /// Whether a name stands in one of some files.
    pub fn stands(&self, name: &[u8], files: &FileList) -> bool
        ensures { result ≡ list_any (stands_in self.now name.now) files.now }
    {
        let Some(at) = self.index.names.number(name) else {
            return false;
        };
        match self.index.files.get(at) {
            Some(found) => is_one_among(files, found.as_slice()),
            None => false,
        }
    }
}
