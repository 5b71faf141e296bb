//! Worked examples. Each function does nothing; its contract is the examples.

ghost use Rattle.vf_normal.specs.Examples.{ComparisonExamples, WorkedExamples};

/// Terms with their normal forms: sums, numbers that are too large, comparisons, conditionals,
/// pointers' sums and shares.
pub fn normal_forms_in_examples()
    ensures { WorkedExamples }
{}

/// Comparisons of integer terms with their literals.
pub fn literals_in_examples()
    ensures { ComparisonExamples }
{}
