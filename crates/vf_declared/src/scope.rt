//! What is declared at a place of a unit.

ghost use Rattle.std.specs.Prelude.{◌≡◌};
ghost use Rattle.std.specs.Option.{option_copied};
ghost use Rattle.vf_declared.specs.Beginning.{empty};
ghost use Rattle.vf_declared.specs.Scopes.{datatype_of, declaration_of, field_of, function_type_of, ghost_of, has_fields, is_declared, is_later_predicate, is_visible, later_predicate, local_of, sees, sides_of_ghost, signature_of, tag_of};

use crate::ctype::CType;
use crate::declaration::{
    Datatype, Declaration, GhostDeclaration, GhostSides, Meaning, Sides, Signature, Structure,
};
use crate::locals::{Local, Locals};
use crate::lookup::{at_name, has};
use crate::stack::Stack;
use std::alloc::Global;
use vf_base::{NumberList, Sequence, Text};
use vf_names::Names;
use vf_sorts::SortList;

/// What is declared at a place of a unit.
///
/// Names stand beside what they mean: the third name of `names` has the third of `declarations`.
#[derive(Drop)]
pub struct Scope {
    /// The number of the unit's own file.
    pub file: u32,
    /// For each file by its number, the headers that it includes, directly or through others.
    pub headers: Sequence<NumberList>,
    /// The numbers of the files that are preludes.
    pub preludes: NumberList,
    /// Whether `<stdlib.h>` is in the unit.
    pub has_stdlib: bool,
    /// Whether `<vf_arrays.h>` is in the unit.
    pub has_arrays: bool,
    /// The locals.
    pub locals: Locals,
    /// The names of file level.
    pub names: Names,
    /// What each of them means.
    pub declarations: Stack<Declaration>,
    /// The names of the predicates that stand anywhere in the unit.
    pub predicates: Names,
    /// The files in which each of them stands.
    pub predicate_files: Sequence<NumberList>,
    /// The sorts of the arguments of each of them, as far as they can be told before it is declared; `any` where they
    /// can't.
    pub predicate_sorts: Sequence<SortList>,
    /// The tags of structs.
    pub tags: Names,
    /// The struct of each tag.
    pub structures: Stack<Structure>,
    /// The functions, by their numbers.
    pub functions: Sequence<Signature>,
    /// What each of them is declared with so far.
    pub sides: Stack<Sides>,
    /// The function types, by their numbers.
    pub function_types: Sequence<Signature>,
    /// What annotations declare, by numbers.
    pub ghosts: Sequence<GhostDeclaration>,
    /// What each of them is declared with so far.
    pub ghost_sides: Stack<GhostSides>,
    /// The datatypes, by their numbers.
    pub datatypes: Sequence<Datatype>,
}

impl Scope {
    /// A unit of a file, in which nothing is declared and which includes nothing. This takes no memory.
    pub fn new(alloc: Global, file: u32) -> Scope
        ensures { result ≡ empty file }
    {
        Scope {
            file,
            headers: Sequence::new(alloc),
            preludes: NumberList::new(alloc),
            has_stdlib: false,
            has_arrays: false,
            locals: Locals::new(alloc),
            names: Names::new(alloc),
            declarations: Stack::new(alloc),
            predicates: Names::new(alloc),
            predicate_files: Sequence::new(alloc),
            predicate_sorts: Sequence::new(alloc),
            tags: Names::new(alloc),
            structures: Stack::new(alloc),
            functions: Sequence::new(alloc),
            sides: Stack::new(alloc),
            function_types: Sequence::new(alloc),
            ghosts: Sequence::new(alloc),
            ghost_sides: Stack::new(alloc),
            datatypes: Sequence::new(alloc),
        }
    }

    /// Whether what is declared in a file is seen from another: from the unit's own, from itself, and from each that
    /// includes it.
    pub fn sees(&self, from: u32, file: u64) -> bool
        ensures { result ≡ sees self.now from file }
    {
        if from == self.file || u64::from(from) == file {
            return true;
        }
        match self.headers.get(from as usize) {
            Some(files) => has(files, file),
            None => false,
        }
    }

    /// Whether one of some files is seen from a file.
    #[tactic(auto, using(crate::proofs::Loops::visible_here, crate::proofs::Loops::visible_more, crate::proofs::Loops::visible_none, crate::proofs::Loops::visible_end))]
    pub fn is_visible(&self, from: u32, files: &NumberList) -> bool
        ensures { result ≡ is_visible self.now from files.now }
    {
        for at in 0..files.len() {
            let Some(file) = files.get(at) else {
                return false;
            };
            if self.sees(from, *file) {
                return true;
            }
        }
        false
    }

    /// The local of a name.
    pub fn local(&self, name: &Text) -> Option<&Local>
        ensures { option_copied result ≡ local_of self.now name.now }
    {
        let number = self.locals.names.number(name.as_bytes())?;
        self.locals.meanings.get(number)
    }

    /// What a name of file level means in a file.
    pub fn declaration(&self, name: &Text, from: u32) -> Option<Meaning>
        ensures { result ≡ declaration_of self.now name.now from }
    {
        let number = self.names.number(name.as_bytes())?;
        let declaration = self.declarations.get(number)?;
        if self.is_visible(from, &declaration.files) {
            Some(declaration.meaning)
        } else {
            None
        }
    }

    /// Whether a name of file level is declared, in a file that is seen or not.
    pub fn is_declared(&self, name: &[u8]) -> bool
        ensures { result ≡ is_declared self.now name.now }
    {
        self.names.number(name).is_some()
    }

    /// Whether a name that is not declared yet is that of a predicate which stands later in the unit, and is seen from
    /// a file.
    pub fn is_later_predicate(&self, name: &Text, from: u32) -> bool
        ensures { result ≡ is_later_predicate self.now name.now from }
    {
        if self.is_declared(name.as_bytes()) {
            return false;
        }
        match at_name(&self.predicates, &self.predicate_files, name) {
            Some(files) => self.is_visible(from, files),
            None => false,
        }
    }

    /// The number of a tag that is seen from a file.
    pub fn tag(&self, tag: &Text, from: u32) -> Option<usize>
        ensures { result ≡ tag_of self.now tag.now from }
    {
        let number = self.tags.number(tag.as_bytes())?;
        let structure = self.structures.get(number)?;
        if self.is_visible(from, &structure.files) {
            Some(number)
        } else {
            None
        }
    }

    /// Whether the fields of a struct are declared.
    pub fn has_fields(&self, number: usize) -> bool
        ensures { result ≡ has_fields self.now number }
    {
        match self.structures.get(number) {
            Some(structure) => structure.fields.is_some(),
            None => false,
        }
    }

    /// The type of a field of a struct whose fields are seen from a file.
    pub fn field(&self, number: usize, name: &Text, from: u32) -> Option<CType>
        ensures { result ≡ field_of self.now number name.now from }
    {
        let structure = self.structures.get(number)?;
        let Some(fields) = &structure.fields else {
            return None;
        };
        if !self.sees(from, u64::from(fields.file)) {
            return None;
        }
        at_name(&fields.names, &fields.types, name).copied()
    }

    /// What a function gives and takes.
    pub fn signature(&self, number: usize) -> Option<&Signature>
        ensures { option_copied result ≡ signature_of self.now number }
    {
        self.functions.get(number)
    }

    /// What the functions of a function type give and take.
    pub fn function_type(&self, number: usize) -> Option<&Signature>
        ensures { option_copied result ≡ function_type_of self.now number }
    {
        self.function_types.get(number)
    }

    /// What annotations declare by a number.
    pub fn ghost_declaration(&self, number: usize) -> Option<&GhostDeclaration>
        ensures { option_copied result ≡ ghost_of self.now number }
    {
        self.ghosts.get(number)
    }

    /// What a predicate, a lemma or a family with a number is declared with so far.
    pub fn sides_of_ghost(&self, number: usize) -> Option<&GhostSides>
        ensures { option_copied result ≡ sides_of_ghost self.now number }
    {
        self.ghost_sides.get(number)
    }

    /// A datatype by its number.
    pub fn datatype(&self, number: usize) -> Option<&Datatype>
        ensures { option_copied result ≡ datatype_of self.now number }
    {
        self.datatypes.get(number)
    }

    /// The sorts of the arguments of a predicate that stands later in the unit and is seen from a file.
    pub fn later_predicate(&self, name: &Text, from: u32) -> Option<&SortList>
        ensures { option_copied result ≡ later_predicate self.now name.now from }
    {
        if !self.is_later_predicate(name, from) {
            return None;
        }
        at_name(&self.predicates, &self.predicate_sorts, name)
    }
}
