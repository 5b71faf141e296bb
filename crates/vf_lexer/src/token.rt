//! Tokens.

use crate::punctuator::Punctuator;
use vf_base::{IntType, Place, Sequence, Text};

/// What a token is.
#[derive(Clone, Copy, Debug, PartialEq, Eq)]
pub enum Kind {
    /// A name, or a keyword.
    Name,
    /// `_` in ghost text, the pattern that fits everything.
    Wild,
    /// A number and its type. One of ghost text that no type of its list holds has the widest type.
    Number { value: u64, int_type: IntType },
    /// A character constant, by the value of its byte. Its type is `int`.
    Character { value: u8 },
    /// A text between double quotes.
    Literal,
    /// An operator, a bracket or another mark (C11 6.4.6, and those of ghost text).
    Punctuator(Punctuator),
}

/// A token, which is the bytes of a file from `start` to `end`.
#[derive(Debug, Drop)]
pub struct Token {
    /// What the token is.
    pub kind: Kind,
    /// Its bytes.
    pub text: Text,
    /// How many bytes of the file stand before it.
    pub start: u32,
    /// How many bytes of the file stand before the first behind it.
    pub end: u32,
    /// The line and the column, in bytes and from 1, of its first byte.
    pub place: Place,
    /// Whether it stands in an annotation or in a ghost header.
    pub is_ghost: bool,
}

/// The tokens of a text, in order.
pub type TokenList = Sequence<Token>;
