//! Files by their numbers.

ghost use Rattle.std.specs.Prelude.{◌≡◌, [], ◌∷◌, ◌++◌, false, fold, OnOk, IfOk};
ghost use Rattle.vf_preproc.specs.UnitText.{is_among, with_file};

use std::alloc::Global;
use std::collections::BTreeSet;
use std::marker::Model;
use vf_base::Memory;

/// Files by their numbers, each once, in the order in which they came. Contracts see the list of the numbers.
///
/// Whether a file is one of them is found in logarithmic time.
#[derive(Drop)]
pub struct FileList {
    numbers: Vec<usize>,
    known: BTreeSet<usize>,
}

impl Model for FileList {
    ghost use Rattle.std.specs.Prelude.{List, ℕ};
    ghost use Rattle.vf_preproc.specs.FileLists.{AreKnown};

    ghost Value = { List ℕ };

    ghost view = { λ f. f.numbers.items };

    ghost invariant = { λ f. AreKnown f.known f.numbers.items };
}

impl FileList {
    /// No files, which takes no memory.
    fn new(alloc: Global) -> FileList
        ensures { result ≡ [] }
    {
        FileList {
            numbers: Vec::new(alloc),
            known: BTreeSet::new(alloc),
        }
    }

    /// One file.
    pub fn of(alloc: Global, file: usize) -> Result<FileList, Memory>
        ensures { IfOk result (λ files. files ≡ file ∷ []) }
    {
        let mut files = FileList::new(alloc);
        files.push(file)?;
        Ok(files)
    }

    /// The numbers as a slice.
    pub fn as_slice(&self) -> &[usize]
        ensures { result.now ≡ self.now }
    {
        self.numbers.as_slice()
    }

    /// Whether a file is one of them.
    pub fn has(&self, file: usize) -> bool
        ensures { result ≡ is_among self.now file }
    {
        self.known.contains(&file)
    }

    /// Puts a file to the end that is none of them.
    fn push(&mut self, file: usize) -> Result<(), Memory>
        requires { is_among self.old file ≡ false }
        ensures { OnOk result (self.new ≡ self.old ++ file ∷ []) }
    {
        self.numbers.push(file)?;
        match self.known.insert(file) {
            Ok(_) => Ok(()),
            Err(_) => {
                let _last = self.numbers.pop();
                Err(Memory)
            }
        }
    }

    /// Puts a file to the end, unless it is one of them.
    fn put(&mut self, file: usize) -> Result<(), Memory>
        ensures { OnOk result (self.new ≡ with_file self.old file) }
    {
        if self.has(file) {
            return Ok(());
        }
        self.push(file)
    }

    /// Puts each of some files to the end that is none of them.
    pub fn join(&mut self, others: &FileList) -> Result<(), Memory>
        ensures { OnOk result (self.new ≡ fold with_file self.old others.now) }
    {
        for file in others.as_slice() {
            self.put(*file)?;
        }
        Ok(())
    }
}
