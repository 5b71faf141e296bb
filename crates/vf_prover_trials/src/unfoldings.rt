//! Questions for which fixpoints are unfolded.

use crate::relations::{Relation, Side, definitions, difference, equal, literal, literals};
use std::alloc::Global;
use std::test::Fail;
use vf_answer::{Answer, answered, can_be_denied, question};
use vf_base::Memory;
use vf_definitions::Definitions;
use vf_formula::Literal;
use vf_question::are_plain;
use vf_unfolding::refuted;

/// What follows from facts, in a unit with these fixpoints: what is answered of a goal, and whether its denial is
/// refuted; none where the literals are not plain.
fn follows(
    alloc: Global,
    definitions: &Definitions,
    facts: &[Literal],
    goal: &Literal,
) -> Result<Option<(Answer, bool)>, Memory> {
    if !can_be_denied(goal) {
        return Ok(None);
    }
    let literals = question(alloc, facts, goal)?;
    if !are_plain(&literals) {
        return Ok(None);
    }
    let refuted = refuted(alloc, definitions, &literals)?;
    let answer = answered(alloc, definitions, facts, goal)?;
    Ok(Some((answer, refuted == Some(true))))
}

/// The same, in a unit that has `length`.
fn follows_from(
    alloc: Global,
    facts: &[Relation],
    goal: Relation,
) -> Result<Option<(Answer, bool)>, Memory> {
    let definitions = definitions(alloc)?;
    let facts = literals(alloc, facts)?;
    let goal = literal(alloc, goal)?;
    follows(alloc, &definitions, &facts, &goal)
}

/// Behind `s == cons(a, t)` and `t == nil` the length of s is 1.
#[test]
fn fixpoints_are_unfolded(rt: HostRuntime) -> Result<(), Fail> {
    let facts = [
        equal(Side::List(3), Side::Cons(4, 2)),
        equal(Side::List(2), Side::Nil),
    ];
    for (length, expected) in [
        (1, Some((Answer::Proved, true))),
        (2, Some((Answer::Unknown, false))),
        (1 << 101, None),
    ] {
        let goal = difference(Side::Length(3), Side::Number(0), length);
        assert_eq!(rt; follows_from(rt.alloc(), &facts, goal)?, expected);
    }
    Ok(())
}
