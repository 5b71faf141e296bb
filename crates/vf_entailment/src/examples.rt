//! Examples. Each function does nothing; its contract is the example.

ghost use Rattle.vf_entailment.specs.Example.{IntegersAreWhole, ListsEntail};

/// A unit with `length`, `append` and two more fixpoints over lists: its definitions stand in its environment, its
/// question is answered right, and its facts entail the goal in the linked environment.
pub fn lists_entail()
    ensures { ListsEntail }
{}

/// Without reading integers as whole numbers the definitions of a unit are not met.
pub fn integers_are_whole()
    ensures { IntegersAreWhole }
{}
