//! Fixpoints and their cases.

ghost use Rattle.std.specs.Prelude.{◌≡◌, IfOk};

use std::alloc::Global;
use vf_base::{Memory, Sequence, Text};
use vf_formula::{Kind, Term};

/// A case of a fixpoint that switches over a value of a datatype.
#[derive(Debug, Drop)]
pub struct Case {
    /// The identity of the constructor.
    pub constructor: Text,
    /// How many names it has for the constructor's arguments.
    pub names: usize,
    /// What it returns, over the parameters of the fixpoint and, behind them, these names.
    pub result: Term,
}

/// Cases in the order of the text.
pub type CaseList = Sequence<Case>;

/// What a fixpoint returns. A numbered symbol stands for the parameter at its place, counted from 0.
#[derive(Debug, Drop)]
pub enum Body {
    /// A term over the parameters.
    Returns(Term),
    /// What the case of a constructor returns, by the parameter at this place.
    Switches(usize, CaseList),
}

/// A fixpoint, with the kind of what it returns.
#[derive(Debug, Drop)]
pub struct Fixpoint {
    pub kind: Kind,
    /// The path of the first declaration and the name.
    pub identity: Text,
    /// How many parameters it has.
    pub parameters: usize,
    pub body: Body,
}

impl Case {
    /// The same case again.
    pub fn copy(&self, alloc: Global) -> Result<Case, Memory>
        ensures { IfOk result (λ c. c ≡ self.now) }
    {
        Ok(Case {
            constructor: self.constructor.copy()?,
            names: self.names,
            result: self.result.copy(alloc)?,
        })
    }
}

/// The same cases again.
fn copied(alloc: Global, cases: &CaseList) -> Result<CaseList, Memory>
    ensures { IfOk result (λ l. l ≡ cases.now) }
{
    let mut copies = Sequence::new(alloc);
    for case in cases.as_slice() {
        copies.push(case.copy(alloc)?)?;
    }
    Ok(copies)
}

impl Body {
    /// The same body again.
    pub fn copy(&self, alloc: Global) -> Result<Body, Memory>
        ensures { IfOk result (λ b. b ≡ self.now) }
    {
        match self {
            Body::Returns(result) => Ok(Body::Returns(result.copy(alloc)?)),
            Body::Switches(parameter, cases) => {
                Ok(Body::Switches(*parameter, copied(alloc, cases)?))
            }
        }
    }
}

impl Fixpoint {
    /// The same fixpoint again.
    pub fn copy(&self, alloc: Global) -> Result<Fixpoint, Memory>
        ensures { IfOk result (λ f. f ≡ self.now) }
    {
        Ok(Fixpoint {
            kind: self.kind,
            identity: self.identity.copy()?,
            parameters: self.parameters,
            body: self.body.copy(alloc)?,
        })
    }
}
