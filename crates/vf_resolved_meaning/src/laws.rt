//! Laws of the meaning of resolved trees. Each function does nothing; its contract is the law.

ghost use Rattle.vf_resolved_meaning.specs.Examples.{MeantInExamples};
ghost use Rattle.vf_resolved_meaning.specs.Laws.{TruthsMeanTheirTerms};

/// A truth value that is told apart means what its term means.
pub fn truths_mean_their_terms()
    ensures { TruthsMeanTheirTerms }
{}

/// Contracts of the prelude mean those that the rules have for its functions, and shares, cells and chunks what is written.
pub fn meant_in_examples()
    ensures { MeantInExamples }
{}
