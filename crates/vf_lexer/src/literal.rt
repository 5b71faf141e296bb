//! Character constants, texts between quotes, and the token in front of a text.

ghost use Rattle.std.specs.Prelude.{◌≡◌, ◌<◌, ◌≤◌, ◌+◌, ◌∷◌, length, IfSome};
ghost use Rattle.vf_lexer.specs.Pieces.{name_kind, name_front, number_front, escaped, plain_character, escaped_character, character_front, literal_front, punctuator_front, token_front};

use crate::class::{Class, is_letter, is_plain};
use crate::number::number_of;
use crate::punctuator::punctuator_of;
use crate::token::Kind;

fn name_kind(ghost_text: bool, word: &[u8]) -> Kind
    ensures { result ≡ name_kind ghost_text word.now }
{
    if ghost_text && word == b"_".as_slice() {
        Kind::Wild
    } else {
        Kind::Name
    }
}

fn name(ghost_text: bool, text: &[u8]) -> Option<(Kind, usize)>
    ensures { result ≡ name_front ghost_text text.now }
{
    let len = Class::Word.run_len(text);
    Some((name_kind(ghost_text, &text[..len]), len))
}

fn number(ghost_text: bool, text: &[u8]) -> Option<(Kind, usize)>
    ensures { result ≡ number_front ghost_text text.now }
{
    let len = Class::Number.run_len(text);
    let (value, int_type) = number_of(ghost_text, &text[..len])?;
    Some((Kind::Number { value, int_type }, len))
}

/// The byte that a letter behind a backslash means.
fn escaped(letter: u8) -> Option<u8>
    ensures { result ≡ escaped letter }
{
    match letter {
        b'n' => Some(b'\n'),
        b't' => Some(b'\t'),
        b'r' => Some(b'\r'),
        b'0' => Some(0),
        b'\\' => Some(b'\\'),
        b'\'' => Some(b'\''),
        b'"' => Some(b'"'),
        _ => None,
    }
}

fn plain_character(value: u8, quote: u8) -> Option<(Kind, usize)>
    ensures { result ≡ plain_character value quote }
{
    if is_plain(value) && quote == b'\'' {
        Some((Kind::Character { value }, 3))
    } else {
        None
    }
}

fn escaped_character(letter: u8, quote: u8) -> Option<(Kind, usize)>
    ensures { result ≡ escaped_character letter quote }
{
    if quote != b'\'' {
        return None;
    }
    let value = escaped(letter)?;
    Some((Kind::Character { value }, 4))
}

/// The character constant whose opening quote stands before a text.
fn character(text: &[u8]) -> Option<(Kind, usize)>
    ensures { result ≡ character_front text.now }
{
    match text {
        [first, second, third, ..] => {
            if *first == b'\\' {
                escaped_character(*second, *third)
            } else {
                plain_character(*first, *second)
            }
        }
        [first, second] => plain_character(*first, *second),
        _ => None,
    }
}

/// The text between double quotes whose opening quote stands before a text.
fn literal(text: &[u8]) -> Option<(Kind, usize)>
    requires { length text.now ≤ 1048576 }
    ensures { result ≡ literal_front text.now }
{
    let len = Class::Quoted.run_len(text);
    match text.get(len) {
        Some(b'"') => Some((Kind::Literal, len + 2)),
        _ => None,
    }
}

fn punctuator(ghost_text: bool, text: &[u8]) -> Option<(Kind, usize)>
    ensures { result ≡ punctuator_front ghost_text text.now }
{
    let punctuator = punctuator_of(ghost_text, text)?;
    Some((Kind::Punctuator(punctuator), punctuator.spelling().len()))
}

/// The kind of the token in front of a text, and how many bytes it takes.
#[tactic(auto, unfolding(crate::specs::Pieces::token_front))]
pub fn token_front(ghost_text: bool, text: &[u8]) -> Option<(Kind, usize)>
    requires { length text.now ≤ 1048576 }
    ensures { result ≡ token_front ghost_text text.now }
{
    match text {
        [] => None,
        [first, rest @ ..] => {
            if is_letter(*first) {
                name(ghost_text, text)
            } else if first.is_ascii_digit() {
                number(ghost_text, text)
            } else if *first == b'\'' {
                character(rest)
            } else if *first == b'"' {
                literal(rest)
            } else {
                punctuator(ghost_text, text)
            }
        }
    }
}
