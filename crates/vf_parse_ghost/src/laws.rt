//! Laws of the parsers on lists. Each function does nothing; its contract is the law.

ghost use Rattle.vf_parse_ghost.specs.Laws.{ClaimsAreSpelled, ContractsAreSpelled, InvariantsAreSpelled, GhostItemsAreSpelled};

/// Claims, contracts and invariants that are read are spelled by the tokens that are taken, and nest no deeper
/// than is allowed.
pub fn contracts_are_spelled()
    ensures claims { ClaimsAreSpelled }
    ensures contracts { ContractsAreSpelled }
    ensures invariants { InvariantsAreSpelled }
{}

/// The same of ghost items.
pub fn ghost_items_are_spelled()
    ensures { GhostItemsAreSpelled }
{}
