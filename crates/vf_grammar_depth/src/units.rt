//! What the parser of units without annotations refuses as too deep, it goes past where more may nest.
//!
//! So the place of such a refusal is none that this parser refuses where enough may nest. `proofs/` says it of the
//! units of the whole grammar too, where the parsers of annotations do so.
//!
//! Laws, as for expressions: `plain_items_deepen`, `plain_units_deepen`. Where `parse_plain` answers that a place is
//! too deep, no token is unsupported, and the place is that of a token which the parser goes past where more may nest
//! (`too_deep_units_go_on`). That something could be written behind such a token is not said.

pub mod laws;
