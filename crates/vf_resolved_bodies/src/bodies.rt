//! Whole bodies.

ghost use Rattle.std.specs.Prelude.{◌≡◌, IfOk};
ghost use Rattle.vf_resolving.specs.Standings.{standing_of};
ghost use Rattle.vf_resolved_bodies.specs.Bodies.{IsBodyTold, first_numbers};

use crate::annotation::Annotation;
use crate::statements::statements_told;
use crate::telling::Telling;
use std::alloc::Global;
use vf_base::{Memory, RuleFault, Sequence, Text};
use vf_declared::scope::Scope;
use vf_resolved::contract::Names;
use vf_resolving::Standing;
use vf_syntax::stmt::StmtList;

/// The annotations in the body of a function.
#[derive(Drop)]
pub struct Annotated {
    /// The names of the function: those of its contract, and those that its body declares.
    pub names: Names,
    /// The numbers of the names that are locals of C, in the order in which these are declared, the parameters first.
    pub reals: Sequence<usize>,
    /// One for each ghost command that is a statement and for each loop, in the order of the text.
    pub told: Sequence<Annotation>,
}

/// The annotations in the body of a function, and what is declared behind it.
#[derive(Drop)]
pub struct BodyTold {
    pub annotated: Annotated,
    pub scope: Scope,
}

/// The first numbers, so many.
fn first_numbers(alloc: Global, count: usize) -> Result<Sequence<usize>, Memory>
    ensures { IfOk result (λ ns. ns ≡ first_numbers count) }
{
    let mut numbers = Sequence::new(alloc);
    for number in 0..count {
        numbers.push(number)?;
    }
    Ok(numbers)
}

/// The annotations in the body of a function with so many parameters, behind its contract.
///
/// # Errors
///
/// Refused at the first annotation whose sorting is refused.
#[tactic(auto, using(crate::proofs::Steps::body_memory, crate::proofs::Steps::body_stops, crate::proofs::Steps::body_tells))]
pub fn body_told(
    alloc: Global,
    paths: &[Text],
    standing: Standing,
    parameters: usize,
    statements: &StmtList,
) -> Result<BodyTold, RuleFault>
    ensures { IsBodyTold paths.now parameters statements.now (standing_of standing) result }
{
    let reals = first_numbers(alloc, parameters)?;
    let told = Sequence::new(alloc);
    let mut telling = Telling {
        standing,
        reals,
        told,
    };
    statements_told(alloc, paths, &mut telling, statements)?;
    let Telling {
        standing,
        reals,
        told,
    } = telling;
    let Standing { scope, sorts, .. } = standing;
    Ok(BodyTold {
        annotated: Annotated {
            names: Names { sorts, parameters },
            reals,
            told,
        },
        scope,
    })
}
