//! What the parser of statements without annotations refuses as too deep, it goes past where more may nest.
//!
//! So a token that is refused as too deep is none that this parser refuses where enough may nest. `proofs/` says it of the
//! statements of the whole grammar too, where the parsers of annotations do so.
//!
//! Laws, as for expressions: `simples_deepen`, `plain_statements_deepen`, `plain_bodies_deepen`. That something could
//! be written behind such a token is not said.

pub mod laws;
