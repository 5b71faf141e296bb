//! Laws of the parsers on lists. Each function does nothing; its contract is the law.

ghost use Rattle.vf_grammar_stops.specs.ghost_items.Laws.{ClaimsStopAlike, ContractsRefuseAlike, ContractsStopAlike, GhostItemsRefuseAlike, GhostItemsStopAlike, InvariantsRefuseAlike, InvariantsStopAlike};

/// Where a token is refused in a contract, one is refused in all tokens that are alike up to it.
pub fn contracts_refuse_alike()
    ensures { ContractsRefuseAlike }
{}

/// The same of an invariant.
pub fn invariants_refuse_alike()
    ensures { InvariantsRefuseAlike }
{}

/// The same of a ghost item.
pub fn ghost_items_refuse_alike()
    ensures { GhostItemsRefuseAlike }
{}

/// A token is refused in a claim only where no claim begins with the tokens up to it.
pub fn claims_stop_alike()
    ensures { ClaimsStopAlike }
{}

/// The same of a contract.
pub fn contracts_stop_alike()
    ensures { ContractsStopAlike }
{}

/// The same of an invariant.
pub fn invariants_stop_alike()
    ensures { InvariantsStopAlike }
{}

/// The same of a ghost item.
pub fn ghost_items_stop_alike()
    ensures { GhostItemsStopAlike }
{}
