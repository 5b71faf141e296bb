//! Declaring at file level.

ghost use Rattle.std.specs.Prelude.{◌≡◌, [], ◌∷◌, ◌++◌, IfOk, OnOk};
ghost use Rattle.vf_declared.specs.Writing.{with_body, no_ghost_sides, with_fields, with_file, with_function, with_ghost, with_ghost_body, with_ghost_prototype, with_instance, with_name, with_name_again, with_prototype, with_struct, with_struct_again};

use crate::declaration::{
    Declaration, Fields, GhostDeclaration, GhostSides, Meaning, Sides, Signature, Structure,
};
use crate::locals::Locals;
use crate::lookup::has;
use crate::scope::Scope;
use std::alloc::Global;
use vf_base::{Memory, NumberList};

/// The file alone.
fn only(alloc: Global, file: u32) -> Result<NumberList, Memory>
    ensures { IfOk result (λ files. files ≡ file ∷ []) }
{
    let mut files = NumberList::new(alloc);
    files.push(u64::from(file))?;
    Ok(files)
}

/// Puts a file to the end of some, unless it is among them.
fn add_file(files: &mut NumberList, file: u32) -> Result<(), Memory>
    ensures { OnOk result (files.new ≡ with_file files.old file) }
{
    if has(files, u64::from(file)) {
        return Ok(());
    }
    files.push(u64::from(file))?;
    Ok(())
}

/// Puts a function to the end of some.
fn add_function(functions: &mut NumberList, function: usize) -> Result<(), Memory>
    ensures { OnOk result (functions.new ≡ functions.old ++ function ∷ []) }
{
    functions.push(function as u64)?;
    Ok(())
}

/// A declaration that stands for one while it changes.
fn no_declaration(alloc: Global) -> Declaration {
    Declaration {
        meaning: Meaning::Ghost(0),
        files: NumberList::new(alloc),
    }
}

/// A struct that stands for one while it changes.
fn no_structure(alloc: Global) -> Structure {
    Structure {
        files: NumberList::new(alloc),
        fields: None,
        is_opaque: false,
    }
}

/// What stands for the sides of a function while they change.
fn no_sides() -> Sides {
    Sides {
        prototype: None,
        is_defined: false,
    }
}

/// What a predicate, a lemma or a family is declared with at first.
fn no_ghost_sides(alloc: Global) -> GhostSides
    ensures { result ≡ no_ghost_sides }
{
    GhostSides {
        prototype: None,
        is_defined: false,
        functions: NumberList::new(alloc),
    }
}

impl Scope {
    /// Declares a new name of file level in a file.
    pub fn declare_name(
        &mut self,
        alloc: Global,
        name: &[u8],
        meaning: Meaning,
        file: u32,
    ) -> Result<(), Memory>
        ensures { OnOk result (self.new ≡ with_name self.old name.now meaning file) }
    {
        let files = only(alloc, file)?;
        self.names.push(name)?;
        self.declarations.push(Declaration { meaning, files })?;
        Ok(())
    }

    /// Declares the name with a number in a file too.
    pub fn declare_name_again(
        &mut self,
        alloc: Global,
        number: usize,
        file: u32,
    ) -> Result<(), Memory>
        ensures { OnOk result (self.new ≡ with_name_again self.old number file) }
    {
        if number < self.declarations.len() {
            let mut declaration = self.declarations.replace(number, no_declaration(alloc));
            add_file(&mut declaration.files, file)?;
            let _none = self.declarations.replace(number, declaration);
        }
        Ok(())
    }

    /// Declares a new struct in a file, without its fields so far.
    pub fn declare_struct(
        &mut self,
        alloc: Global,
        tag: &[u8],
        file: u32,
        is_opaque: bool,
    ) -> Result<(), Memory>
        ensures { OnOk result (self.new ≡ with_struct self.old tag.now file is_opaque) }
    {
        let files = only(alloc, file)?;
        self.tags.push(tag)?;
        self.structures.push(Structure {
            files,
            fields: None,
            is_opaque,
        })?;
        Ok(())
    }

    /// Declares the struct with a number in a file too.
    pub fn declare_struct_again(
        &mut self,
        alloc: Global,
        number: usize,
        file: u32,
        is_opaque: bool,
    ) -> Result<(), Memory>
        ensures { OnOk result (self.new ≡ with_struct_again self.old number file is_opaque) }
    {
        if number < self.structures.len() {
            let mut structure = self.structures.replace(number, no_structure(alloc));
            add_file(&mut structure.files, file)?;
            structure.is_opaque = structure.is_opaque || is_opaque;
            let _none = self.structures.replace(number, structure);
        }
        Ok(())
    }

    /// Gives the struct with a number its fields.
    pub fn declare_fields(&mut self, alloc: Global, number: usize, fields: Fields)
        ensures { self.new ≡ with_fields self.old number fields }
    {
        if number < self.structures.len() {
            let mut structure = self.structures.replace(number, no_structure(alloc));
            structure.fields = Some(fields);
            let _none = self.structures.replace(number, structure);
        }
    }

    /// Declares a new function in a file.
    pub fn declare_function(
        &mut self,
        alloc: Global,
        name: &[u8],
        file: u32,
        signature: Signature,
    ) -> Result<(), Memory>
        ensures { OnOk result (self.new ≡ with_function self.old name.now file signature) }
    {
        let number = self.functions.len();
        self.declare_name(alloc, name, Meaning::Function(number), file)?;
        self.functions.push(signature)?;
        self.sides.push(Sides {
            prototype: None,
            is_defined: false,
        })?;
        Ok(())
    }

    /// Keeps the locals behind the prototype of the function with a number.
    pub fn declare_prototype(&mut self, number: usize, locals: Locals)
        ensures { self.new ≡ with_prototype self.old number locals }
    {
        if number < self.sides.len() {
            let mut sides = self.sides.replace(number, no_sides());
            sides.prototype = Some(locals);
            let _none = self.sides.replace(number, sides);
        }
    }

    /// Keeps that the function with a number has a body.
    pub fn declare_body(&mut self, number: usize)
        ensures { self.new ≡ with_body self.old number }
    {
        if number < self.sides.len() {
            let mut sides = self.sides.replace(number, no_sides());
            sides.is_defined = true;
            let _none = self.sides.replace(number, sides);
        }
    }

    /// Declares one more thing of annotations.
    pub fn declare_ghost(
        &mut self,
        alloc: Global,
        declaration: GhostDeclaration,
    ) -> Result<(), Memory>
        ensures { OnOk result (self.new ≡ with_ghost self.old declaration) }
    {
        self.ghosts.push(declaration)?;
        self.ghost_sides.push(no_ghost_sides(alloc))?;
        Ok(())
    }

    /// Keeps the locals behind the declaration without a body of the predicate or lemma with a number.
    pub fn declare_ghost_prototype(&mut self, alloc: Global, number: usize, locals: Locals)
        ensures { self.new ≡ with_ghost_prototype self.old number locals }
    {
        if number < self.ghost_sides.len() {
            let mut sides = self.ghost_sides.replace(number, no_ghost_sides(alloc));
            sides.prototype = Some(locals);
            let _none = self.ghost_sides.replace(number, sides);
        }
    }

    /// Keeps that the predicate or lemma with a number has a body.
    pub fn declare_ghost_body(&mut self, alloc: Global, number: usize)
        ensures { self.new ≡ with_ghost_body self.old number }
    {
        if number < self.ghost_sides.len() {
            let mut sides = self.ghost_sides.replace(number, no_ghost_sides(alloc));
            sides.is_defined = true;
            let _none = self.ghost_sides.replace(number, sides);
        }
    }

    /// Keeps that the family with a number has a body for the function with a number.
    pub fn declare_instance(
        &mut self,
        alloc: Global,
        number: usize,
        function: usize,
    ) -> Result<(), Memory>
        ensures { OnOk result (self.new ≡ with_instance self.old number function) }
    {
        if number < self.ghost_sides.len() {
            let mut sides = self.ghost_sides.replace(number, no_ghost_sides(alloc));
            add_function(&mut sides.functions, function)?;
            let _none = self.ghost_sides.replace(number, sides);
        }
        Ok(())
    }
}
