//! What the parser of units of the whole grammar refuses as too deep, it goes past where more may nest.
//!
//! So the place of such a refusal is none that this parser refuses where enough may nest.
//!
//! Law: `whole_units_deepen`. Where `parse` answers that a place is too deep, no token is unsupported, and the place
//! is that of a token which the parser goes past where two more may nest (`too_deep_wholes_go_on`). That something
//! could be written behind such a token is not said.

pub mod laws;
