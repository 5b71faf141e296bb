//! Laws of programs of several units. Each function does nothing; its contract is the law.

ghost use Rattle.vf_linked.specs.CallOrder.{CallsAreOrdered};
ghost use Rattle.vf_linked.specs.Lemmas.{LinkedLemmasHold};
ghost use Rattle.vf_linked.specs.Linked.{LinkedProgramsAreSafe, LinkedProgramsLeakNothing};
ghost use Rattle.vf_linked.specs.Refined.{RefinedLemmasHold};

/// A lemma that holds under a contract holds under each contract that it refines.
pub fn refined_lemmas_hold()
    ensures { RefinedLemmasHold }
{}

/// Lemmas of linked units hold under each of their contracts where each is accepted if the others that it calls hold,
/// and none reaches itself over calls.
pub fn linked_lemmas_hold()
    ensures { LinkedLemmasHold }
{}

/// Lemmas none of which reaches itself over the calls between them can be put in the order of these calls.
pub fn calls_are_ordered()
    ensures { CallsAreOrdered }
{}

/// Every run of a program of accepted and linked units is safe and keeps what the program owes.
pub fn linked_programs_are_safe()
    ensures { LinkedProgramsAreSafe }
{}

/// Where no `leak` stands in any of the units, nothing is ever leaked, whichever lemmas of other units are called.
pub fn linked_programs_leak_nothing()
    ensures { LinkedProgramsLeakNothing }
{}
