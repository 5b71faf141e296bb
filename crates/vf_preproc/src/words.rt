//! The words of directives.

ghost use Rattle.std.specs.Prelude.{◌≡◌, ◌+◌, ◌<◌, ◌≤◌, ◌∷◌, length, take, drop};
ghost use Rattle.std.specs.List.{list_any};
ghost use Rattle.vf_preproc.specs.Directives.{is_hash, word_of, word_named, has_ghost, is_same_line, lines_of, is_alike};

use crate::replace::is_name;
use vf_lexer::{Kind, Punctuator, Token};

/// Which directive a line is.
#[derive(Clone, Copy, Debug, PartialEq, Eq)]
pub enum Word {
    Include,
    Define,
    IfDefined,
    IfNotDefined,
    Else,
    EndIf,
    Other,
}

/// Whether a token is `#`.
pub fn is_hash(token: &Token) -> bool
    ensures { result ≡ is_hash token.now }
{
    match token.kind {
        Kind::Punctuator(Punctuator::Hash) => true,
        _ => false,
    }
}

/// Which directive the tokens behind a `#` are.
pub fn word_of(words: &[Token]) -> Word
    ensures { result ≡ word_of words.now }
{
    match words {
        [] => Word::Other,
        [first, ..] => {
            if is_name(first) {
                word_named(first.text.as_bytes())
            } else {
                Word::Other
            }
        }
    }
}

/// Which directive a name begins.
fn word_named(name: &[u8]) -> Word
    ensures { result ≡ word_named name.now }
{
    if name == b"include".as_slice() {
        Word::Include
    } else if name == b"define".as_slice() {
        Word::Define
    } else if name == b"ifdef".as_slice() {
        Word::IfDefined
    } else if name == b"ifndef".as_slice() {
        Word::IfNotDefined
    } else if name == b"else".as_slice() {
        Word::Else
    } else if name == b"endif".as_slice() {
        Word::EndIf
    } else {
        Word::Other
    }
}

/// Whether ghost text is among some tokens.
pub fn has_ghost(tokens: &[Token]) -> bool
    ensures { result ≡ has_ghost tokens.now }
{
    tokens.iter().any(|token| token.is_ghost)
}

/// How many tokens stand on the first line.
pub fn first_line(tokens: &[Token]) -> usize
    requires { 0 < length tokens.now }
    ensures within { result ≤ length tokens.now }
    ensures some { 0 < result }
    ensures line { lines_of tokens.now ≡ take result tokens.now ∷ lines_of (drop result tokens.now) }
{
    let line = tokens[0].place.line;
    for at in 1..tokens.len() {
        if tokens[at].place.line != line {
            return at;
        }
    }
    tokens.len()
}

/// Whether two lists of tokens look alike.
pub fn is_alike(first: &[Token], second: &[Token]) -> bool
    ensures { result ≡ is_alike first.now second.now }
{
    if first.len() != second.len() {
        return false;
    }
    for (at, token) in first.iter().enumerate() {
        if token.text.as_bytes() != second[at].text.as_bytes() {
            return false;
        }
    }
    true
}
