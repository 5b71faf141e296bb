//! Laws and examples of taking. Each function does nothing; its contract is the law.

ghost use Rattle.vf_take.specs.Laws.{TakesAreDetermined, ReadsAreDetermined};
ghost use Rattle.vf_take.specs.Examples.{TakesInExamples};

/// Right answers lead to one result of taking.
pub fn takes_are_determined()
    ensures { TakesAreDetermined }
{}

/// Right answers lead to one result of reading.
pub fn reads_are_determined()
    ensures { ReadsAreDetermined }
{}

/// Taking and reading a cell, in examples.
pub fn takes_in_examples()
    ensures { TakesInExamples }
{}
