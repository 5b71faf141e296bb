//! What is proved of lists and integers, and the refutations that are handed over.

ghost use Rattle.std.specs.Prelude.{◌<◌, length};
ghost use Rattle.vf_asking.specs.Journal.{HasNode};

use crate::asked::{hang, is_proved};
use crate::relations::{
    Relation, Side, at_most, definitions, difference, equal, literal, literals,
};
use std::alloc::Global;
use std::test::Fail;
use vf_answer::{can_be_denied, question};
use vf_asking::{Asker, Journal};
use vf_base::{Memory, RuleFault};
use vf_definitions::Definitions;
use vf_formula::Literal;
use vf_prover::{Explain, Prover};
use vf_question::are_plain;
use vf_recheck::{Step, recheck};
use vf_trail::Node;

/// What comes of a question.
#[derive(Clone, Copy, Debug, PartialEq, Eq)]
enum Outcome {
    Unknown,
    /// The goal is proved, and the check accepts the refutation that is handed over.
    Refuted,
    /// There is a refutation where the goal is not proved, none where it is, or one that the check does not accept.
    Wrong,
}

/// Two facts and a goal.
#[derive(Clone, Copy)]
struct Asked {
    first: Relation,
    second: Relation,
    goal: Relation,
}

/// Whether steps refute the denial of a goal behind facts.
fn refute(
    alloc: Global,
    definitions: &Definitions,
    facts: &[Literal],
    goal: &Literal,
    steps: &[Step],
) -> Result<bool, Memory> {
    if !can_be_denied(goal) {
        return Ok(false);
    }
    let literals = question(alloc, facts, goal)?;
    if !are_plain(&literals) {
        return Ok(false);
    }
    recheck(alloc, definitions, &literals, steps)
}

/// What a check comes to.
fn outcome_of(is_refuted: bool) -> Outcome {
    if is_refuted {
        Outcome::Refuted
    } else {
        Outcome::Wrong
    }
}

/// What a goal behind facts comes to whose steps are handed over.
fn judged_behind(
    alloc: Global,
    definitions: &Definitions,
    facts: &[Literal],
    goal: Relation,
    steps: &[Step],
) -> Result<bool, Memory> {
    let goal = literal(alloc, goal)?;
    refute(alloc, definitions, facts, &goal, steps)
}

/// What a question comes to whose steps are handed over.
fn judged(
    alloc: Global,
    definitions: &Definitions,
    asked: Asked,
    steps: &[Step],
) -> Result<bool, Memory> {
    let facts = literals(alloc, &[asked.first, asked.second])?;
    judged_behind(alloc, definitions, &facts, asked.goal, steps)
}

/// What comes of the question that was asked last.
fn told_of(
    alloc: Global,
    definitions: &Definitions,
    prover: &mut Prover,
    asked: Asked,
    proved: bool,
) -> Result<Outcome, Memory> {
    match prover.last() {
        Some(refutation) if proved => {
            judged(alloc, definitions, asked, &refutation.steps).map(outcome_of)
        }
        None if !proved => Ok(Outcome::Unknown),
        _ => Ok(Outcome::Wrong),
    }
}

/// What comes of a question whose facts hang on a node.
#[tactic(auto, using(vf_asking::proofs::Seeing::grown))]
fn told_behind(
    alloc: Global,
    definitions: &Definitions,
    prover: &mut Prover,
    root: Node,
    asked: Asked,
) -> Result<Outcome, RuleFault>
    requires begun { 0 < length prover.old.journal.units }
    requires there { HasNode prover.old.journal root }
{
    let first = hang(alloc, prover, root, asked.first)?;
    let second = hang(alloc, prover, first, asked.second)?;
    let proved = is_proved(alloc, prover, second, asked.goal)?;
    Ok(told_of(alloc, definitions, prover, asked, proved)?)
}

/// The same, of a new prover.
#[tactic(auto, using(vf_asking::proofs::Seeing::beginning))]
fn told_with(alloc: Global, definitions: &Definitions, asked: Asked) -> Result<Outcome, RuleFault> {
    let mut prover = Prover::new(Journal::new(alloc));
    match prover.begin(definitions) {
        Ok(root) => told_behind(alloc, definitions, &mut prover, root, asked),
        Err(_) => Err(RuleFault::Memory),
    }
}

/// The same, in a unit that has `length`.
fn told(alloc: Global, asked: Asked) -> Result<Outcome, RuleFault> {
    let definitions = definitions(alloc)?;
    told_with(alloc, &definitions, asked)
}

/// Of integers x, y and z, and lists s and t.
#[test]
fn questions_are_answered(rt: HostRuntime) -> Result<(), Fail> {
    let x = Side::Integer(0);
    let y = Side::Integer(1);
    let z = Side::Integer(2);
    let s = Side::List(3);
    let t = Side::List(2);
    let zero = Side::Number(0);
    for (first, second, goal, expected) in [
        (
            at_most(x, y, 0),
            at_most(y, z, -1),
            at_most(x, z, -1),
            Outcome::Refuted,
        ),
        (
            at_most(x, y, 0),
            at_most(y, z, -1),
            difference(x, z, -1),
            Outcome::Unknown,
        ),
        (
            equal(s, Side::Cons(4, 2)),
            equal(t, Side::Nil),
            difference(Side::Length(3), zero, 1),
            Outcome::Refuted,
        ),
        (
            equal(Side::Cons(4, 3), Side::Cons(5, 2)),
            equal(s, Side::Nil),
            equal(t, Side::Nil),
            Outcome::Refuted,
        ),
    ] {
        let asked = Asked {
            first,
            second,
            goal,
        };
        assert_eq!(rt; told(rt.alloc(), asked)?, expected);
    }
    Ok(())
}

/// A prover hands its journal back, in which nothing was asked.
#[test]
fn journals_are_handed_back(rt: HostRuntime) {
    let prover = Prover::new(Journal::new(rt.alloc()));
    assert_eq!(rt; prover.finish().entries.len(), 0);
}
