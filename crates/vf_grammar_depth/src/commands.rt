//! What the parsers of ghost commands and of the bodies of lemmas refuse as too deep, they go past where more may nest.
//!
//! So a token that is refused as too deep is none that this parser refuses where enough may nest.
//!
//! Laws: `commands_deepen`, `ghost_bodies_deepen`. That something could be written behind such a token is not said.

pub mod laws;
