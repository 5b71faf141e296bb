//! Unfoldings.

ghost use Rattle.std.specs.Prelude.{◌≡◌, IfOk};
ghost use Rattle.vf_formula.specs.Literals.{shown_literal};
ghost use Rattle.vf_question.specs.Unfolded.{equation};

use std::alloc::Global;
use vf_base::Memory;
use vf_formula::{Literal, Term};

/// An unfolding: an application, what it was unfolded to, and a depth at which it arises, as does the
/// term of a constructor that it was unfolded by.
#[derive(Debug, Drop)]
pub struct Unfolding {
    pub application: Term,
    pub body: Term,
    pub depth: u32,
}

impl Unfolding {
    /// Its equation.
    pub fn equation(&self, alloc: Global) -> Result<Literal, Memory>
        ensures { IfOk result (λ l. shown_literal l ≡ equation self.now) }
    {
        Ok(Literal::Equal(self.application.copy(alloc)?, self.body.copy(alloc)?))
    }
}
