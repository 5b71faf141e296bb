//! Laws of the parsers on lists. Each function does nothing; its contract is the law.

ghost use Rattle.vf_grammar_read.specs.ghost_items.Laws.{ClaimsAreRead, ContractsAreRead, GhostItemsAreRead, GhostItemsHaveOneReading, InvariantsAreRead};

/// A claim, a contract or an invariant that tokens spell is read from them, whatever stands behind it.
pub fn contracts_are_read()
    ensures claims { ClaimsAreRead }
    ensures contracts { ContractsAreRead }
    ensures invariants { InvariantsAreRead }
{}

/// A ghost item that tokens spell is read from them, whatever stands behind it.
pub fn ghost_items_are_read()
    ensures { GhostItemsAreRead }
{}

/// Two ghost items that the same tokens spell are one.
pub fn ghost_items_have_one_reading()
    ensures { GhostItemsHaveOneReading }
{}
