//! Facts and questions that are put to the prover.

ghost use Rattle.std.specs.Prelude.{◌<◌, length, IfOk};
ghost use Rattle.vf_asking.specs.Journal.{HasNode, Grew};

use crate::relations::{Relation, literal};
use std::alloc::Global;
use vf_asking::{can_be_asked, can_be_fact, holds, note};
use vf_base::{Place, RuleFault};
use vf_formula::Literal;
use vf_prover::Prover;
use vf_trail::Node;

/// Where the facts and the goals stand.
const PLACE: Place = Place {
    file: 0,
    line: 4,
    column: 5,
};

/// Hangs a literal on a node; the node itself is answered where the literal may be no fact.
#[tactic(auto, using(vf_asking::proofs::Seeing::grown))]
fn hang_literal(prover: &mut Prover, at: Node, fact: &Literal) -> Result<Node, RuleFault>
    requires begun { 0 < length prover.old.journal.units }
    requires there { HasNode prover.old.journal at }
    ensures grew { Grew prover.old.journal prover.new.journal }
    ensures there { IfOk result (λ node. HasNode prover.new.journal node) }
{
    if !can_be_fact(fact) {
        return Ok(at);
    }
    note(prover, at, fact, PLACE)
}

/// Hangs a fact on a node.
#[tactic(auto, using(vf_asking::proofs::Seeing::grown))]
pub(crate) fn hang(
    alloc: Global,
    prover: &mut Prover,
    at: Node,
    fact: Relation,
) -> Result<Node, RuleFault>
    requires begun { 0 < length prover.old.journal.units }
    requires there { HasNode prover.old.journal at }
    ensures grew { Grew prover.old.journal prover.new.journal }
    ensures there { IfOk result (λ node. HasNode prover.new.journal node) }
{
    let fact = literal(alloc, fact)?;
    hang_literal(prover, at, &fact)
}

/// Whether a literal is proved at a node.
#[tactic(auto, using(vf_asking::proofs::Seeing::grown))]
fn is_literal_proved(prover: &mut Prover, at: Node, goal: &Literal) -> Result<bool, RuleFault>
    requires begun { 0 < length prover.old.journal.units }
    requires there { HasNode prover.old.journal at }
    ensures grew { Grew prover.old.journal prover.new.journal }
{
    if !can_be_asked(goal) {
        return Ok(false);
    }
    holds(prover, at, goal, PLACE)
}

/// Whether a goal is proved at a node.
#[tactic(auto, using(vf_asking::proofs::Seeing::grown))]
pub(crate) fn is_proved(
    alloc: Global,
    prover: &mut Prover,
    at: Node,
    goal: Relation,
) -> Result<bool, RuleFault>
    requires begun { 0 < length prover.old.journal.units }
    requires there { HasNode prover.old.journal at }
    ensures grew { Grew prover.old.journal prover.new.journal }
{
    let goal = literal(alloc, goal)?;
    is_literal_proved(prover, at, &goal)
}
