//! Laws of the rules for assertions. Each function does nothing; its contract is the law.

ghost use Rattle.vf_rules.specs.Laws.{ProducingAdds, ConsumingTakes, JoiningKeeps, ChangesKeep};

/// Producing an assertion adds to what a state stands for a part that satisfies it.
pub fn producing_adds()
    ensures { ProducingAdds }
{}

/// Consuming an assertion takes from what a state stands for a part that satisfies it.
pub fn consuming_takes()
    ensures { ConsumingTakes }
{}

/// Two chunks of one location are one chunk of the sum of their shares.
pub fn joining_keeps()
    ensures { JoiningKeeps }
{}

/// Entailed facts, joined chunks and predicate values by their names change nothing of what a state stands for.
pub fn changes_keep()
    ensures { ChangesKeep }
{}
