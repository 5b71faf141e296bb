//! What the parser of assertions refuses as too deep, it goes past where more may nest.
//!
//! So a token that is refused as too deep is none that this parser refuses where enough may nest.
//!
//! A branch of a conditional and a case of a `switch` count one level, so that two more are enough. Law:
//! `assertions_deepen`. That something could be written behind such a token is not said.

pub mod laws;
