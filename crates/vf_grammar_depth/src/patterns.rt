//! What the parser of patterns refuses as too deep, it goes past where more may nest.
//!
//! Nothing nests in shares and in what cases are for, so nothing in them is too deep.
//!
//! Laws: of patterns, where two more may nest (`patterns_deepen`, `pattern_lists_deepen`, `any_patterns_deepen`);
//! shares and what cases are for are never too deep (`shares_deepen`, `cases_deepen`). That something could be
//! written behind such a token is not said.

pub mod laws;
