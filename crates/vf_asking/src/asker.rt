//! Who answers questions.

use crate::answers::Answer;
use crate::journal::Journal;
use std::alloc::{AllocError, AllocFailed};
use vf_base::Memory;
use vf_definitions::Definitions;
use vf_formula::Literal;
use vf_trail::{MOST_FACTS, Node, TrailFault};

/// Why a unit is not begun, a fact not taken or a question not answered.
#[derive(Clone, Copy, Debug, PartialEq, Eq)]
pub enum AskFault {
    /// The question has more than [`MOST_TERMS`](vf_question::MOST_TERMS) distinct terms.
    Terms,
    /// The trail is full.
    Full,
    Memory,
}

impl From<Memory> for AskFault {
    ghost use Rattle.std.specs.Prelude.{◌≡◌};
    ghost use Rattle.vf_asking.specs.declared.asker.AskFault.TheVariants as faults;

    ghost from_gives = { λ _ e. e ≡ faults.Memory };

    fn from(_: Memory) -> AskFault {
        AskFault::Memory
    }
}

impl From<AllocError> for AskFault {
    ghost use Rattle.std.specs.Prelude.{◌≡◌};
    ghost use Rattle.vf_asking.specs.declared.asker.AskFault.TheVariants as faults;

    ghost from_gives = { λ _ e. e ≡ faults.Memory };

    fn from(_: AllocError) -> AskFault {
        AskFault::Memory
    }
}

impl<T: Drop> From<AllocFailed<T>> for AskFault {
    ghost use Rattle.std.specs.Prelude.{◌≡◌};
    ghost use Rattle.vf_asking.specs.declared.asker.AskFault.TheVariants as faults;

    ghost from_gives = { λ _ e. e ≡ faults.Memory };

    fn from(_: AllocFailed<T>) -> AskFault {
        AskFault::Memory
    }
}

impl From<TrailFault> for AskFault {
    ghost use Rattle.vf_asking.specs.Faults.{ask_fault_of};
    ghost use Rattle.std.specs.Prelude.{◌≡◌};

    ghost from_gives = { λ fault e. e ≡ ask_fault_of fault };

    fn from(fault: TrailFault) -> AskFault {
        match fault {
            TrailFault::Full => AskFault::Full,
            TrailFault::Memory => AskFault::Memory,
        }
    }
}

/// Begins units, takes facts and answers questions, each with its line in a journal. Any answer is
/// allowed here; a refused call leaves the journal as it was.
pub trait Asker {
    ghost use Rattle.std.specs.Prelude.{◌≡◌, ◌+◌, ◌<◌, ◌≤◌, ◌^◌, ◌↔◌, ℕ, length, IfOk, OnOk, OnErr, IsErrOf, IsOkUnless, IsTrue};
    ghost use Rattle.vf_asking.specs.declared.journal.Journal.{Journal};
    ghost use Rattle.vf_asking.specs.Journal.{HasAsked, HasBegun, HasNode, HasPushed, IsAsBefore, path_at};
    ghost use Rattle.vf_formula.specs.Literals.{shown_literal};
    ghost use Rattle.vf_question.specs.Plain.{IsPlainLiteral};
    ghost use Rattle.vf_asking.specs.Plain.{CanBeAsked};
    ghost use Rattle.vf_asking.specs.Question.{has_too_many_terms};

    // what it has begun, taken and answered
    ghost journal: { Self → Journal };

    // how many entries the journal held when the asker was made; no call changes it
    ghost origin: { Self → ℕ };

    // how many entries the journal held when the asker was last asked for a refutation; no call here changes it
    ghost handed: { Self → ℕ };

    /// Begins the next unit, counted from 0, with a copy of its definitions, and answers the root.
    fn begin(&mut self, defs: &Definitions) -> Result<Node, AskFault>
        requires { length (journal self.old).units + 1 < 2 ^ 32 }
        ensures begun { OnOk result (HasBegun defs.now (journal self.old) (journal self.new)) }
        ensures root { IfOk result (λ node. node.number ≡ 0) }
        ensures memory { IsOkUnless result AskFault.Memory }
        ensures unchanged { OnErr result (IsAsBefore (journal self.old) (journal self.new)) }
        ensures origin { origin self.new ≡ origin self.old }
        ensures handed { handed self.new ≡ handed self.old };

    /// Hangs a fact on a node.
    fn push(&mut self, at: Node, fact: &Literal) -> Result<Node, AskFault>
        requires begun { 0 < length (journal self.old).units }
        requires there { HasNode (journal self.old) at }
        requires plain { IsPlainLiteral (shown_literal fact.now) }
        ensures pushed { OnOk result (HasPushed at fact.now (journal self.old) (journal self.new)) }
        ensures node { IfOk result
            (λ node. node.number ≡ length (journal self.old).trail.facts + 1) }
        ensures full { IsErrOf result AskFault.Full
            ↔ (MOST_FACTS ≤ length (journal self.old).trail.facts) }
        ensures never_terms { IsErrOf result AskFault.Terms → ⊥ }
        ensures unchanged { OnErr result (IsAsBefore (journal self.old) (journal self.new)) }
        ensures origin { origin self.new ≡ origin self.old }
        ensures handed { handed self.new ≡ handed self.old };

    /// Answers whether the goal follows from the facts of a node's path.
    fn ask(&mut self, at: Node, goal: &Literal) -> Result<Answer, AskFault>
        requires begun { 0 < length (journal self.old).units }
        requires there { HasNode (journal self.old) at }
        requires plain { CanBeAsked (shown_literal goal.now) }
        ensures asked { IfOk result
            (λ answer. HasAsked at goal.now answer (journal self.old) (journal self.new)) }

        // A question of too many terms is never answered; Memory may come first.
        ensures terms { IsErrOf result AskFault.Terms
            → IsTrue (has_too_many_terms (path_at (journal self.old) at) (shown_literal goal.now)) }
        ensures few { OnOk result
            (IsTrue (has_too_many_terms (path_at (journal self.old) at) (shown_literal goal.now)) → ⊥) }
        ensures never_full { IsErrOf result AskFault.Full → ⊥ }
        ensures unchanged { OnErr result (IsAsBefore (journal self.old) (journal self.new)) }
        ensures origin { origin self.new ≡ origin self.old }
        ensures handed { handed self.new ≡ handed self.old };
}
