//! Files and their tokens.

use vf_base::Text;
use vf_lexer::TokenList;

/// A file with its tokens.
#[derive(Drop)]
pub struct Loaded {
    pub number: u32,
    pub bytes: Text,
    pub tokens: TokenList,
}
