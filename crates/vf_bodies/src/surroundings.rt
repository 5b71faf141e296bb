//! What is declared where a statement stands.

ghost use Rattle.std.specs.Prelude.{◌≡◌, OnOk};
ghost use Rattle.vf_lower.specs.Shown.{setting_of};
ghost use Rattle.vf_lower.specs.Statements.{at, with_variable};
ghost use Rattle.vf_bodies.specs.Standing.{back_at, mark_of, standing_of};

use std::alloc::Global;
use vf_base::{Memory, Place};
use vf_declared::ctype::CType;
use vf_declared::locals::Local;
use vf_declared::scope::Scope;
use vf_declared::stack::Stack;
use vf_lower::Setting;
use vf_syntax::written::Name;

/// What is declared where a statement stands; beside each visible local its number among the locals of the body; and
/// the first token of the statement.
#[derive(Drop)]
pub struct Surroundings {
    pub scope: Scope,
    pub numbers: Stack<usize>,
    pub statement: Place,
    pub alloc: Global,
}

/// How many locals there are at a place, and the first token of the statement there.
#[derive(Clone, Copy)]
pub struct Mark {
    names: usize,
    meanings: usize,
    numbers: usize,
    statement: Place,
}

impl Surroundings {
    /// Where an expression of the statement stands.
    pub fn setting(&self) -> Setting<'_>
        ensures { setting_of result ≡ standing_of self.now }
    {
        Setting {
            scope: &self.scope,
            numbers: &self.numbers,
            statement: self.statement,
            alloc: self.alloc,
        }
    }

    /// Where an expression of another statement stands, which begins at a place.
    pub fn setting_at(&self, statement: Place) -> Setting<'_>
        ensures { setting_of result ≡ at (standing_of self.now) statement }
    {
        Setting {
            scope: &self.scope,
            numbers: &self.numbers,
            statement,
            alloc: self.alloc,
        }
    }

    /// Declares a local of a type, with its number among the locals of the body.
    pub fn declare(&mut self, name: &Name, ctype: CType, local: usize) -> Result<(), Memory>
        ensures { OnOk result (standing_of self.new ≡ with_variable (standing_of self.old) name.now.text ctype local) }
    {
        self.scope.locals.names.push(name.text.as_bytes())?;
        self.scope.locals.meanings.push(Local::Real(ctype))?;
        self.numbers.push(local)?;
        Ok(())
    }

    /// A mark of what is declared here.
    pub fn mark(&self) -> Mark
        ensures { result ≡ mark_of (standing_of self.now) }
    {
        Mark {
            names: self.scope.locals.names.len(),
            meanings: self.scope.locals.meanings.len(),
            numbers: self.numbers.len(),
            statement: self.statement,
        }
    }

    /// Goes back to a mark: the locals that were declared since are gone.
    pub fn leave(&mut self, mark: Mark)
        ensures { standing_of self.new ≡ back_at mark (standing_of self.old) }
    {
        self.scope.locals.names.truncate(mark.names);
        self.scope.locals.meanings.truncate(mark.meanings);
        self.numbers.truncate(mark.numbers);
        self.statement = mark.statement;
    }
}
