//! Laws of terms, definitions and answers. Each function does nothing; its contract is the law.

ghost use Rattle.vf_entailment.specs.Laws.{BodiesStayOfTheirKind, DefinitionsAreMet, LinkedAnswersEntail, LinkedDefinitionsStand, LiteralsAreFacts, ProvedFalsehoodIsInfeasible, RightAnswersEntail, RightAnswersServeStates, TermsHaveTheirMeaning, WholeNumbersStay};

/// A term has the value of the expression that it means, whatever names and fixpoints stand for.
pub fn terms_have_their_meaning()
    ensures { TermsHaveTheirMeaning }
{}

/// What has a whole number for its value keeps it in the view, in which it is read as one whatever its value.
pub fn whole_numbers_stay()
    ensures { WholeNumbersStay }
{}

/// A valuation meets a literal exactly where what it says is true.
pub fn literals_are_facts()
    ensures { LiteralsAreFacts }
{}

/// A body whose results are of a kind is the same with its results taken as ones of that kind.
pub fn bodies_stay_of_their_kind()
    ensures { BodiesStayOfTheirKind }
{}

/// The meaning of an environment gives the fixpoints of a unit, where they stand among its own, the values of their
/// bodies.
pub fn definitions_are_met()
    ensures { DefinitionsAreMet }
{}

/// Where an answer is right, the facts of its path entail a goal that is proved.
pub fn right_answers_entail()
    ensures { RightAnswersEntail }
{}

/// So do the facts of a state wherever what meets them meets the path's.
pub fn right_answers_serve_states()
    ensures { RightAnswersServeStates }
{}

/// Where `false` is proved, no valuation meets the path.
pub fn proved_falsehood_is_infeasible()
    ensures { ProvedFalsehoodIsInfeasible }
{}

/// What stands among the fixpoints of a unit stands among those of the linked environment, which are in order.
pub fn linked_definitions_stand()
    ensures { LinkedDefinitionsStand }
{}

/// So right answers to one of the units entail in the linked environment.
pub fn linked_answers_entail()
    ensures { LinkedAnswersEntail }
{}
