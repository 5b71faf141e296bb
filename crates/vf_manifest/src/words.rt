//! The words of lines.

ghost use Rattle.std.specs.Prelude.{◌≡◌, ◌==◌, ◌<◌, [], ◌∷◌, length, IfOk, IfSome, IfNone, position};
ghost use Rattle.std.specs.List.{list_all, list_any};
ghost use Rattle.std.specs.Option.{option_map};
ghost use Rattle.std.specs.Str.{bytes_eq};
ghost use Rattle.vf_manifest.specs.Words.{is_visible, is_path_byte, is_file_path, is_prelude_path, is_path, is_letter, is_word_byte, is_name, is_lower_hex, is_digest, is_identity, is_own_identity};
ghost use Rattle.vf_manifest.specs.Cuts.{cut};
ghost use Rattle.vf_manifest.specs.Reading.{Gives, tested, identity_at};

use crate::fault::WordFault;
use crate::identity::Identity;
use crate::word::Word;

/// The paths of the prelude's headers.
const PRELUDE_PATHS: [&str; 7] = [
    "<stddef.h>",
    "<stdbool.h>",
    "<stdlib.h>",
    "<stdio.h>",
    "<vf_output.h>",
    "<threading.h>",
    "<vf_arrays.h>",
];

/// Whether a byte is printed and no blank.
pub fn is_visible(byte: u8) -> bool
    ensures { result ≡ is_visible byte }
{
    33 <= byte && byte <= 126
}

fn is_path_byte(byte: u8) -> bool
    ensures { result ≡ is_path_byte byte }
{
    is_visible(byte)
        && byte != b'"'
        && byte != b'#'
        && byte != b'\''
        && byte != b'<'
        && byte != b'>'
}

/// Whether each byte may stand in a path.
fn are_path_bytes(text: &[u8]) -> bool
    ensures { result ≡ list_all is_path_byte text.now }
{
    text.iter().all(|b| is_path_byte(*b))
}

/// Whether a text is the path of a file.
fn is_file_path(text: &[u8]) -> bool
    ensures { result ≡ is_file_path text.now }
{
    !text.is_empty() && are_path_bytes(text)
}

/// Whether bytes are a text.
pub fn is_text(bytes: &[u8], text: &str) -> bool
    ensures { result ≡ bytes_eq bytes.now text.now }
{
    bytes == text.as_bytes()
}

/// Whether a text is one of these.
pub fn is_among(texts: &[&str], text: &[u8]) -> bool
    ensures { result ≡ list_any (λ t. bytes_eq text.now t.now) texts.now }
{
    for other in texts {
        if text == other.as_bytes() {
            return true;
        }
    }
    false
}

fn is_prelude_path(text: &[u8]) -> bool
    ensures { result ≡ is_prelude_path text.now }
{
    is_among(&PRELUDE_PATHS, text)
}

/// Whether a text is the path of a file or of a header of the prelude.
fn is_path(text: &[u8]) -> bool
    ensures { result ≡ is_path text.now }
{
    is_file_path(text) || is_prelude_path(text)
}

fn is_letter(byte: u8) -> bool
    ensures { result ≡ is_letter byte }
{
    byte.is_ascii_alphabetic() || byte == b'_'
}

/// Whether a byte is a letter, a digit or `_`.
pub fn is_word_byte(byte: u8) -> bool
    ensures { result ≡ is_word_byte byte }
{
    is_letter(byte) || byte.is_ascii_digit()
}

/// Whether each byte is a letter, a digit or `_`.
fn are_word_bytes(text: &[u8]) -> bool
    ensures { result ≡ list_all is_word_byte text.now }
{
    text.iter().all(|b| is_word_byte(*b))
}

/// Whether a text is a name, as C has them.
pub fn is_name(text: &[u8]) -> bool
    ensures { result ≡ is_name text.now }
{
    match text {
        [] => false,
        [first, rest @ ..] => is_letter(*first) && are_word_bytes(rest),
    }
}

fn is_lower_hex(byte: u8) -> bool
    ensures { result ≡ is_lower_hex byte }
{
    byte.is_ascii_digit() || 97 <= byte && byte <= 102
}

/// Whether each byte is a hexadecimal digit in lower case.
fn are_lower_hex(text: &[u8]) -> bool
    ensures { result ≡ list_all is_lower_hex text.now }
{
    text.iter().all(|b| is_lower_hex(*b))
}

fn is_digest(text: &[u8]) -> bool
    ensures { result ≡ is_digest text.now }
{
    text.len() == 64 && are_lower_hex(text)
}

/// The first byte of a text, and what follows it.
pub fn first_and_rest(text: &[u8]) -> Option<(u8, &[u8])>
    ensures found { IfSome result (λ x. text.now ≡ x.0 ∷ x.1.now) }
    ensures none { IfNone result (text.now ≡ []) }
{
    match text {
        [first, rest @ ..] => Some((*first, rest)),
        [] => None,
    }
}

/// The place of the first byte of this value.
fn place_of(text: &[u8], byte: u8) -> Option<usize>
    ensures value { result ≡ position (λ b. b == byte) text.now }
    ensures within { IfSome result (λ at. at < length text.now) }
{
    text.iter().position(|b| *b == byte)
}

/// What stands before the first byte of this value, and what stands behind it.
pub fn split(text: &[u8], byte: u8) -> Option<(&[u8], &[u8])>
    ensures { option_map (λ x. (x.0.now, x.1.now)) result ≡ cut byte text.now }
{
    match place_of(text, byte) {
        Some(at) => Some((&text[..at], &text[at + 1..])),
        None => None,
    }
}

/// The first line of a text, without the line feed that ends it, and what stands behind it.
pub fn split_line(text: &[u8]) -> Option<(&[u8], &[u8])>
    ensures { option_map (λ x. (x.0.now, x.1.now)) result ≡ cut 10 text.now }
{
    match memchr::memchr(b'\n', text) {
        Some(at) => Some((&text[..at], &text[at + 1..])),
        None => None,
    }
}

/// The same, where that byte has to stand in the text.
pub fn cut(text: &[u8], byte: u8) -> Result<(&[u8], &[u8]), WordFault>
    ensures { Gives (λ x. (x.0.now, x.1.now)) result (cut byte text.now) }
{
    match split(text, byte) {
        Some(parts) => Ok(parts),
        None => Err(WordFault::Syntax),
    }
}

/// The path of a file.
pub fn file_path(text: &[u8]) -> Result<Word<'_>, WordFault>
    ensures { Gives (λ t. t) result (tested is_file_path text.now) }
{
    if !is_file_path(text) {
        return Err(WordFault::Syntax);
    }
    Ok(Word::new(text))
}

/// A path of a file or of a header of the prelude.
pub fn path(text: &[u8]) -> Result<Word<'_>, WordFault>
    ensures { Gives (λ t. t) result (tested is_path text.now) }
{
    if !is_path(text) {
        return Err(WordFault::Syntax);
    }
    Ok(Word::new(text))
}

/// A digest in hexadecimal.
pub fn digest_text(text: &[u8]) -> Result<Word<'_>, WordFault>
    ensures { Gives (λ t. t) result (tested is_digest text.now) }
{
    if !is_digest(text) {
        return Err(WordFault::Syntax);
    }
    Ok(Word::new(text))
}

/// An identity.
#[tactic(auto, unfolding(crate::specs::Reading::identity_at))]
pub fn identity(text: &[u8]) -> Result<Identity<'_>, WordFault>
    ensures { Gives (λ i. i) result (identity_at is_identity text.now) }
{
    let (path, name) = cut(text, b'#')?;
    let is_path = is_path(path);
    let is_name = is_name(name);
    if !(is_path && is_name) {
        return Err(WordFault::Syntax);
    }
    Ok(Identity::new(path, name))
}

/// An identity of a file.
#[tactic(auto, unfolding(crate::specs::Reading::identity_at))]
pub fn own_identity(text: &[u8]) -> Result<Identity<'_>, WordFault>
    ensures { Gives (λ i. i) result (identity_at is_own_identity text.now) }
{
    let (path, name) = cut(text, b'#')?;
    let is_path = is_file_path(path);
    let is_name = is_name(name);
    if !(is_path && is_name) {
        return Err(WordFault::Syntax);
    }
    Ok(Identity::new(path, name))
}
