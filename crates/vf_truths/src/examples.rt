//! Worked examples. Each function does nothing; its contract is the examples.

ghost use Rattle.vf_truths.specs.Examples.{WorkedExamples};

/// The spellings of a truth value with their literals, and comparisons and their negations.
pub fn truths_in_examples()
    ensures { WorkedExamples }
{}
