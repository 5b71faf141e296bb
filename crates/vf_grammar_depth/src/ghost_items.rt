//! What the parsers of contracts, invariants and ghost items refuse as too deep, they go past where more may nest.
//!
//! So a token that is refused as too deep is none that this parser refuses where enough may nest. Nothing in a claim nests.
//!
//! Laws: `contracts_deepen`, `invariants_deepen`, `ghost_items_deepen`, and of claims `claims_deepen`. That something
//! could be written behind such a token is not said.

pub mod laws;
