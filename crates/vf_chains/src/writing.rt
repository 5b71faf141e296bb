//! Steps that derive what chains of links say.

use crate::links::{Link, Origin, number_of};
use vf_base::Memory;
use vf_refute::Step;

/// Writes a step, and answers its number.
pub(crate) fn write(steps: &mut Vec<Step>, step: Step) -> Result<u32, Memory> {
    let number = number_of(steps.len());
    steps.push(step)?;
    Ok(number)
}

/// Writes the steps that derive a link, and answers the last.
fn write_link(steps: &mut Vec<Step>, link: &Link) -> Result<u32, Memory> {
    match link.origin {
        Origin::Fact(fact) => write(steps, Step::Fact(fact)),
        Origin::Turned(fact) => {
            let known = write(steps, Step::Fact(fact))?;
            write(steps, Step::Symmetric(known))
        }
        Origin::FactAbove(fact) => {
            let known = write(steps, Step::Fact(fact))?;
            write(steps, Step::LevelAbove(known))
        }
        Origin::FactBelow(fact) => {
            let known = write(steps, Step::Fact(fact))?;
            write(steps, Step::LevelBelow(known))
        }
        Origin::TermAbove(term, zero) => write(steps, Step::Above(term, zero)),
        Origin::TermBelow(term, zero) => write(steps, Step::Below(term, zero)),
    }
}

/// How two steps that meet are brought together.
#[derive(Clone, Copy, Debug)]
pub(crate) enum Meeting {
    Bounds,
    Equalities,
}

/// The step by which two steps meet.
fn meet(meeting: Meeting, left: u32, right: u32) -> Step {
    match meeting {
        Meeting::Bounds => Step::Chain(left, right),
        Meeting::Equalities => Step::Transitive(left, right),
    }
}

/// Writes the steps that derive what a chain of links says, and answers the last, where there is a link.
pub(crate) fn write_chain(
    steps: &mut Vec<Step>,
    meeting: Meeting,
    links: &[Link],
) -> Result<Option<u32>, Memory> {
    let mut last = None;
    for link in links {
        let number = write_link(steps, link)?;
        last = match last {
            Some(before) => Some(write(steps, meet(meeting, before, number))?),
            None => Some(number),
        };
    }
    Ok(last)
}
