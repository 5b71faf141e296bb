//! Locals.

ghost use Rattle.std.specs.Prelude.{◌≡◌, ℕ, List, None, IfOk, OnOk};
ghost use Rattle.vf_names.specs.Names.{number_of};
ghost use Rattle.vf_declared.specs.Beginning.{no_locals};
ghost use Rattle.vf_declared.specs.Scopes.{local_in};
ghost use Rattle.vf_declared.specs.Changes.{IsAligned, first_locals, with_local, without_local};

use crate::ctype::CType;
use crate::stack::Stack;
use std::alloc::Global;
use vf_base::Memory;
use vf_names::Names;
use vf_sorts::Sort;

/// What the name of a local means.
#[derive(Drop)]
pub enum Local {
    /// A local or parameter of C, and its type.
    Real(CType),
    /// A name of an annotation.
    Ghost(GhostLocal),
}

/// A name of an annotation: its sort, and whether it is a ghost local, which may be assigned; parameters, names of
/// patterns and names of cases are not.
#[derive(Drop)]
pub struct GhostLocal {
    pub is_variable: bool,
    pub sort: Sort,
}

impl Local {
    /// The same local again.
    fn copy(&self, alloc: Global) -> Result<Local, Memory>
        ensures { IfOk result (λ local. local ≡ self.now) }
    {
        match self {
            Local::Real(ctype) => Ok(Local::Real(*ctype)),
            Local::Ghost(local) => {
                let sort = local.sort.copy(alloc)?;
                Ok(Local::Ghost(GhostLocal {
                    is_variable: local.is_variable,
                    sort,
                }))
            }
        }
    }
}

/// The names of the locals that are visible, the innermost last, and in the same order what each means.
#[derive(Drop)]
pub struct Locals {
    pub names: Names,
    pub meanings: Stack<Local>,
}

impl Locals {
    /// No locals, which takes no memory.
    pub fn new(alloc: Global) -> Locals
        ensures aligned { IsAligned result }
        ensures nothing { (name : List ℕ) → local_in result name ≡ None }
        ensures empty { result ≡ no_locals }
    {
        Locals {
            names: Names::new(alloc),
            meanings: Stack::new(alloc),
        }
    }

    /// Declares a local whose name no visible local has.
    pub fn declare(&mut self, name: &[u8], local: Local) -> Result<(), Memory>
        requires { number_of self.old.names name.now ≡ None }
        ensures { OnOk result (self.new ≡ with_local self.old name.now local) }
    {
        self.names.put(name)?;
        self.meanings.push(local)?;
        Ok(())
    }

    /// Keeps the first locals, as many as a count says: those that were there when a block was entered.
    pub fn leave(&mut self, count: usize)
        ensures { self.new ≡ first_locals self.old count }
    {
        self.names.truncate(count);
        self.meanings.truncate(count);
    }

    /// Takes the local at an index away, if there is one; those declared behind it stay.
    pub fn remove(&mut self, at: usize) -> Result<(), Memory>
        ensures { OnOk result (self.new ≡ without_local self.old at) }
    {
        self.names.remove(at)?;
        self.meanings.remove(at);
        Ok(())
    }

    /// The same locals again.
    pub fn copy(&self, alloc: Global) -> Result<Locals, Memory>
        ensures { IfOk result (λ locals. locals ≡ self.now) }
    {
        let names = self.names.copy()?;
        let meanings = copies(alloc, &self.meanings)?;
        Ok(Locals { names, meanings })
    }
}

/// The same meanings again.
#[tactic(auto, using(crate::proofs::Lists::taken_more, crate::proofs::Lists::taken_all))]
fn copies(alloc: Global, meanings: &Stack<Local>) -> Result<Stack<Local>, Memory>
    ensures { IfOk result (λ same. same ≡ meanings.now) }
{
    let mut same = Stack::new(alloc);
    for at in 0..meanings.len() {
        let Some(local) = meanings.get(at) else {
            return Ok(same);
        };
        same.push(local.copy(alloc)?)?;
    }
    Ok(same)
}
