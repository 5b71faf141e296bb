//! The core of a unit: bodies as lists of core steps.

ghost use Rattle.std.specs.Prelude.{◌≡◌};

use vf_base::{Place, Sequence, Text};

/// An operator between two integers.
#[derive(Clone, Copy, Debug, PartialEq, Eq)]
pub enum Operator {
    Add,
    Subtract,
}

/// What stands between the operators of a sum.
#[derive(Clone, Copy, Debug, PartialEq, Eq)]
pub enum Operand {
    /// A number of type `int`.
    Number(i128),
    /// A local of type `int`, by its number among the locals of the body; the place is its name.
    Local { local: u32, place: Place },
}

/// An operator with the operand on its right; the place is the operator's.
#[derive(Clone, Copy, Debug, PartialEq, Eq)]
pub struct Link {
    pub operator: Operator,
    pub place: Place,
    pub operand: Operand,
}

/// A sum of type `int`, evaluated from left to right. It is kept flat, so that no walk over it
/// recurses as deep as it is long.
#[derive(Debug, Drop)]
pub struct Expression {
    pub first: Operand,
    pub rest: Sequence<Link>,
}

/// One event of a thread. `next` is the number of the step that follows.
#[derive(Debug, Drop)]
pub enum CoreStep {
    /// Evaluates the expression into a local.
    Set {
        local: u32,
        value: Expression,
        next: u32,
    },
    /// Leaves the body with the expression's value.
    Return {
        value: Expression,
    },
}

/// A function with its body: `locals` locals, all of type `int`, and steps of which the first is
/// number 0. `closing` is the closing brace.
#[derive(Debug, Drop)]
pub struct Function {
    /// The path of the file, `#`, and the name.
    pub identity: Text,
    pub locals: u32,
    pub steps: Sequence<CoreStep>,
    pub closing: Place,
}

/// A unit as a C compiler reads it: its functions, and which of them is main.
#[derive(Debug, Drop)]
pub struct Plain {
    pub functions: Sequence<Function>,
    pub main: u32,
}

/// A pure part of a contract; the place is its first token.
#[derive(Clone, Copy, Debug, PartialEq, Eq)]
pub enum Pure {
    /// `true`
    True { place: Place },
    /// `result == number`
    ResultIs { number: i128, place: Place },
}

/// What a function asks of its caller and what it promises.
#[derive(Clone, Copy, Debug, PartialEq, Eq)]
pub struct Contract {
    pub precondition: Pure,
    pub postcondition: Pure,
}

/// A unit with its annotations: the plain unit, the place of main's name, and main's contract.
#[derive(Debug, Drop)]
pub struct Core {
    pub plain: Plain,
    pub name: Place,
    pub contract: Contract,
}

/// The unit without its annotations.
pub fn erase(core: Core) -> Plain
    ensures { result ≡ core.plain }
{
    let Core {
        plain,
        name: _,
        contract: _,
    } = core;
    plain
}
