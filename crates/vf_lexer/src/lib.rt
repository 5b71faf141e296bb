//! The tokens of a text.
//!
//! A text is cut into its elements: tokens, blank space, comments, and annotations, which have elements
//! of their own. [`lex`] gives the tokens of the one way to cut it, and where there is none the first byte
//! at which nothing can start or go on.
//!
//! No position of a reader is in the definition. Which token stands in front of a text it says by a function, of
//! which `longest_token` shows that it is written as its kind is, and that no longer front is written as a token of
//! any kind is. Laws: `one_reading`, `longest_token`, `longest_punctuator`, `tokens_are_slices`,
//! `tokens_have_their_places`.
#![tactic(auto)]

mod class;
mod cursor;
mod fault;
mod lexer;
mod literal;
mod number;
mod piece;
mod punctuator;
mod token;

pub use fault::LexFault;
pub use lexer::{lex, longest_token, one_reading, tokens_are_slices, tokens_have_their_places};
pub use punctuator::{Punctuator, longest_punctuator};
pub use token::{Kind, Token, TokenList};
