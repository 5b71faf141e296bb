//! What is spelled is supported: no token of a spelled unit is refused by name.
//!
//! Words, marks and texts of C that the language has not are refused before anything is read. Here stands the law
//! that this refuses no unit that its grammar spells.
//!
//! Law: tokens that spell a unit, by either grammar, hold none that is refused by name
//! (`spelled_units_are_supported`).

pub mod laws;
