//! What the parsers of sorts and expressions of annotations refuse as too deep, they go past where more may nest.
//!
//! So a token that is refused as too deep is none that this parser refuses where enough may nest.
//!
//! Laws: as for expressions of real text, of sorts, and of expressions where two more may nest, since what stands
//! behind the `?` of a conditional counts two (`sorts_deepen`, `terms_deepen`). That something could be written
//! behind such a token is not said.

pub mod laws;
