//! Where the parser of types stops, no type could go on.
//!
//! In `proofs/` stands for all parsers on lists what it rests on: a parser does the same on other tokens
//! that are alike up to the token in front of which it stopped.
//!
//! Law: a token is refused in a type only where no tokens that are alike up to it begin with a type
//! (`types_stop_alike`).

pub mod laws;
