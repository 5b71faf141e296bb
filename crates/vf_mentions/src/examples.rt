//! Worked examples. The function does nothing; its contract is the examples.

ghost use Rattle.vf_mentions.specs.Examples.{WorkedExamples};

/// What a declaration, a block, a loop and a call of a lemma mention.
pub fn mentioned_in_examples()
    ensures { WorkedExamples }
{}
