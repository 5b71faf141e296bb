//! Worked examples. The function does nothing; its contract is the examples.

ghost use Rattle.vf_lower.specs.Examples.{WorkedExamples};

/// What a sum, comparisons, conversions, a changed local and a loop become.
pub fn lowered_in_examples()
    ensures { WorkedExamples }
{}
