//! The rules keep the sorts and ranges of symbolic states. Each function does nothing; its contract is the law.

ghost use Rattle.vf_rules.specs.Ranges.{FactsKeepTypes, ChangesKeepTypes, SettingKeepsTypes, LoadingKeepsTypes, TakingKeepsTypes, StoringKeepsTypes, AllocatingKeepsTypes, NamingKeepsTypes, ProducingKeepsTypes, ConsumingKeepsTypes, RangesWiden};

/// What is assumed, seen or known besides keeps the sorts and ranges of a state.
pub fn facts_keep_types()
    ensures { FactsKeepTypes }
{}

/// Entailed facts, joined chunks and predicate values by their names keep them.
pub fn changes_keep_types()
    ensures { ChangesKeepTypes }
{}

/// A local that gets a term in its type's range keeps them.
pub fn setting_keeps_types()
    ensures { SettingKeepsTypes }
{}

/// A local that is loaded from a field of its type keeps them.
pub fn loading_keeps_types()
    ensures { LoadingKeepsTypes }
{}

/// Taking a share of a chunk keeps them.
pub fn taking_keeps_types()
    ensures { TakingKeepsTypes }
{}

/// A field that is written with a term in its type's range keeps them.
pub fn storing_keeps_types()
    ensures { StoringKeepsTypes }
{}

/// Producing an assertion keeps them in each state that is so got.
pub fn producing_keeps_types()
    ensures { ProducingKeepsTypes }
{}

/// Consuming an assertion keeps them in each state that is so got.
pub fn consuming_keeps_types()
    ensures { ConsumingKeepsTypes }
{}

/// New memory keeps them.
pub fn allocating_keeps_types()
    ensures { AllocatingKeepsTypes }
{}

/// A symbol of which a sort is known may be given that sort.
pub fn naming_keeps_types()
    ensures { NamingKeepsTypes }
{}

/// A term in a type's range is within each bound of a type that is as wide there.
pub fn ranges_widen()
    ensures { RangesWiden }
{}
