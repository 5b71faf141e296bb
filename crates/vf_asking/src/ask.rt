//! Questions and facts, with their places.

ghost use Rattle.std.specs.Prelude.{◌≡◌, ◌<◌, length, IfOk};
ghost use Rattle.vf_asking.specs.Course.{Says, asked, pushed};
ghost use Rattle.vf_asking.specs.Journal.{Grew, HasNode, path_at, seen};
ghost use Rattle.vf_formula.specs.Literals.{shown_literal};
ghost use Rattle.vf_question.specs.Plain.{IsPlainLiteral};
ghost use Rattle.vf_asking.specs.Plain.{CanBeAsked};

use crate::answers::Answer;
use crate::asker::{AskFault, Asker};
use vf_base::{Place, Refusal, Rule, RuleFault, Shown};
use vf_formula::Literal;
use vf_trail::Node;

/// Whether the goal is proved from the facts of a node's path. A question that has too many terms is
/// refused by [`Rule::Terms`] at the place.
#[tactic(auto, using(crate::proofs::Following::asking))]
pub fn holds<A: Asker>(
    asker: &mut A,
    at: Node,
    goal: &Literal,
    place: Place,
) -> Result<bool, RuleFault>
    requires begun { 0 < length (A.journal asker.old).units }
    requires there { HasNode (A.journal asker.old) at }
    requires plain { CanBeAsked (shown_literal goal.now) }
    ensures says { Says (asked place (path_at (A.journal asker.old) at) (shown_literal goal.now))
        (λ yes. yes)
        (seen (A.journal asker.old)) (seen (A.journal asker.new)) result }
    ensures grew { Grew (A.journal asker.old) (A.journal asker.new) }
    ensures origin { A.origin asker.new ≡ A.origin asker.old }
{
    match asker.ask(at, goal) {
        Ok(Answer::Proved) => Ok(true),
        Ok(Answer::Unknown) => Ok(false),
        Err(AskFault::Terms) => Err(RuleFault::Refused(Refusal {
            rule: Rule::Terms,
            place,
            shown: Shown::Nothing,
        })),
        Err(AskFault::Full) => unreachable!(),
        Err(AskFault::Memory) => Err(RuleFault::Memory),
    }
}

/// Hangs a fact on a node. Where the trail is full it is refused by [`Rule::Paths`] at the place.
#[tactic(auto, using(crate::proofs::Following::noting))]
pub fn note<A: Asker>(
    asker: &mut A,
    at: Node,
    fact: &Literal,
    place: Place,
) -> Result<Node, RuleFault>
    requires begun { 0 < length (A.journal asker.old).units }
    requires there { HasNode (A.journal asker.old) at }
    requires plain { IsPlainLiteral (shown_literal fact.now) }
    ensures says { Says (pushed place (path_at (A.journal asker.old) at) (shown_literal fact.now))
        (λ node. path_at (A.journal asker.new) node)
        (seen (A.journal asker.old)) (seen (A.journal asker.new)) result }
    ensures node { IfOk result (λ node. HasNode (A.journal asker.new) node) }
    ensures grew { Grew (A.journal asker.old) (A.journal asker.new) }
    ensures origin { A.origin asker.new ≡ A.origin asker.old }
{
    match asker.push(at, fact) {
        Ok(node) => Ok(node),
        Err(AskFault::Full) => Err(RuleFault::Refused(Refusal {
            rule: Rule::Paths,
            place,
            shown: Shown::Nothing,
        })),
        Err(AskFault::Terms) => unreachable!(),
        Err(AskFault::Memory) => Err(RuleFault::Memory),
    }
}
