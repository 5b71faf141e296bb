//! A unit's tokens to its tree, with all that is promised of it.
//!
//! Just the units that tokens spell within 128 levels are answered, and each refusal says why: a token that the
//! language has not, one that no unit has there, or one that stands too deep.
//!
//! `parse` is by the whole grammar, `parse_plain` of the tokens of real text by the grammar without annotations.
//! Clauses: `spelled` and `only` (a unit is answered where all of the tokens spell one within 128 levels, and it is
//! that one), `unsupported` and `named` (the first token that is refused by name is named, and no other), `syntax`
//! (where a place is refused, no unit begins with the tokens up to there, the end of the file included), `depth`
//! (where one is too deep, the parser goes past it where more may nest) and `headers`. That something could be
//! written behind a token that is too deep is not said.
#![tactic(auto)]

pub mod plain;
pub mod whole;
