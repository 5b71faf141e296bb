//! Assertions.

ghost use Rattle.std.specs.Prelude.{◌≡◌, ◌++◌, OnOk};
ghost use Rattle.vf_syntax.specs.AssertionTree.{assertion_case_list, part_list};
ghost use Rattle.vf_mentions.specs.GhostText.{mentioned_in_assertion_case, mentioned_in_assertion_cases, mentioned_in_part, mentioned_in_parts};

use crate::ghost_expr::{find_in_chunk, find_in_ghost_expr, find_in_pattern};
use crate::mention::Mention;
use vf_base::{Memory, Sequence};
use vf_names::Names;
use vf_syntax::assertion::{Assertion, AssertionCase, AssertionCaseList, Part, PartNode};

/// Puts what a part of an assertion mentions behind what was found.
#[cycle(assertion)]
fn find_in_part(locals: &Names, found: &mut Sequence<Mention>, part: &Part) -> Result<(), Memory>
    ensures { OnOk result (found.new ≡ found.old ++ mentioned_in_part locals.now part.now) }
{
    match &part.node {
        PartNode::Conditional(test, yes, no) => {
            find_in_ghost_expr(locals, found, test)?;
            find_in_assertion(locals, found, yes)?;
            find_in_assertion(locals, found, no)
        }
        PartNode::Switch(value, cases) => {
            find_in_ghost_expr(locals, found, value)?;
            find_in_assertion_cases(locals, found, cases)
        }
        PartNode::Cell(_, pointer, _, content) => {
            find_in_ghost_expr(locals, found, pointer)?;
            find_in_pattern(locals, found, content)
        }
        PartNode::Chunk(_, _, first, second) => find_in_chunk(locals, found, first, second),
        PartNode::Empty => Ok(()),
        PartNode::Pure(expr) => find_in_ghost_expr(locals, found, expr),
        PartNode::Group(inner) => find_in_assertion(locals, found, inner),
    }
}

/// The same of an assertion.
#[cycle(assertion)]
#[tactic(auto, using(crate::proofs::Lists::part_smaller))]
pub fn find_in_assertion(
    locals: &Names,
    found: &mut Sequence<Mention>,
    assertion: &Assertion,
) -> Result<(), Memory>
    ensures { OnOk result (found.new ≡ found.old ++ mentioned_in_parts locals.now (part_list assertion.now)) }
{
    for at in 0..assertion.len() {
        let Some(part) = assertion.get(at) else {
            return Ok(());
        };
        find_in_part(locals, found, part)?;
    }
    Ok(())
}

/// The same of a case of a `switch`.
#[cycle(assertion)]
fn find_in_assertion_case(
    locals: &Names,
    found: &mut Sequence<Mention>,
    case: &AssertionCase,
) -> Result<(), Memory>
    ensures { OnOk result (found.new ≡ found.old ++ mentioned_in_assertion_case locals.now case.now) }
{
    find_in_assertion(locals, found, &case.body)
}

/// The same of some cases of a `switch`.
#[cycle(assertion)]
#[tactic(auto, using(crate::proofs::Lists::assertion_case_smaller))]
fn find_in_assertion_cases(
    locals: &Names,
    found: &mut Sequence<Mention>,
    cases: &AssertionCaseList,
) -> Result<(), Memory>
    ensures { OnOk result (found.new ≡ found.old ++ mentioned_in_assertion_cases locals.now (assertion_case_list cases.now)) }
{
    for at in 0..cases.len() {
        let Some(case) = cases.get(at) else {
            return Ok(());
        };
        find_in_assertion_case(locals, found, case)?;
    }
    Ok(())
}
