//! The tokens of a text.

use std::alloc::Global;
use vf_base::{Memory, Place};
use vf_lexer::{TokenList, lex};

/// The place behind the texts here.
pub const END: Place = Place {
    file: 0,
    line: 99,
    column: 1,
};

/// The tokens of a short text, which are ghost or real where nothing else says so.
pub fn tokens(alloc: Global, text: &str, is_ghost: bool) -> Result<TokenList, Memory> {
    if text.len() > 1500 {
        return Err(Memory);
    }
    match lex(alloc, text.as_bytes(), 0, is_ghost) {
        Ok(tokens) => Ok(tokens),
        Err(_) => Err(Memory),
    }
}
