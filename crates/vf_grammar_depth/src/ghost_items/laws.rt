//! Laws of the parsers on lists. Each function does nothing; its contract is the law.

ghost use Rattle.vf_grammar_depth.specs.ghost_items.Deep.{ClaimsDeepen, ContractsDeepen, GhostItemsDeepen, InvariantsDeepen};

/// Nothing in a claim is too deep.
pub fn claims_deepen()
    ensures { ClaimsDeepen }
{}

/// Where a contract nests too deep, one in which two more may nest is read past that token.
pub fn contracts_deepen()
    ensures { ContractsDeepen }
{}

/// The same of an invariant.
pub fn invariants_deepen()
    ensures { InvariantsDeepen }
{}

/// The same of a ghost item.
pub fn ghost_items_deepen()
    ensures { GhostItemsDeepen }
{}
