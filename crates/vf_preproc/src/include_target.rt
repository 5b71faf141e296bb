//! What an `#include` means.

ghost use Rattle.std.specs.Prelude.{◌≡◌, IfOk, IsTrue, option_map, is_some};
ghost use Rattle.std.specs.List.{list_all};
ghost use Rattle.vf_preproc.specs.Targets.{is_scoped, is_path_byte, is_ghost_path, folder_of, prelude_path, between_quotes, file_target, prelude_target, quoted_target, angle_target, closing, between, target, is_literal_kind, is_less_kind, is_greater_kind, is_ascii};
ghost use Rattle.vf_threads.specs.Prelude.{text_of};
ghost use Rattle.vf_preproc.specs.Answers.{Gives};

use crate::fault::ExpandFault;
use std::alloc::Global;
use vf_base::{Memory, Place, Rule, Text};
use vf_lexer::{Kind, Punctuator, Token};
use vf_snapshot::normal_path_of_bytes;
use vf_threads::prelude;

/// Whether a byte may stand in a path.
fn is_path_byte(byte: u8) -> bool
    ensures { result ≡ is_path_byte byte }
{
    33 <= byte
        && byte <= 126
        && byte != b'"'
        && byte != b'#'
        && byte != b'\''
        && byte != b'<'
        && byte != b'>'
}

/// Whether the bytes of a path may stand in one.
fn is_scoped(path: &[u8]) -> bool
    ensures { result ≡ is_scoped path.now }
{
    path.iter().all(|byte| is_path_byte(*byte))
}

/// Whether a path is that of a ghost header.
pub fn is_ghost_path(path: &[u8]) -> bool
    ensures { result ≡ is_ghost_path path.now }
{
    path.ends_with(b".gh".as_slice())
}

/// The folder of a path, up to its last slash.
fn folder_of(path: &[u8]) -> &[u8]
    ensures { result.now ≡ folder_of path.now }
{
    let mut size = 0;
    for (at, byte) in path.iter().enumerate() {
        if *byte == b'/' {
            size = at + 1;
        }
    }
    &path[..size]
}

/// The path by which a header of the prelude is known.
fn prelude_path(alloc: Global, name: &[u8]) -> Result<Text, Memory>
    ensures { IfOk result (λ path. path ≡ prelude_path name.now) }
{
    let mut path = Text::from_bytes(alloc, b"<".as_slice())?;
    path.push_bytes(name)?;
    path.push_bytes(b">".as_slice())?;
    Ok(path)
}

/// The header of the prelude with a name.
fn prelude_target(
    alloc: Global,
    is_ghost: bool,
    hash: Place,
    name: &[u8],
) -> Result<Text, ExpandFault>
    ensures { Gives (λ path. path) result (prelude_target is_ghost hash name.now) }
{
    if is_ghost {
        return Err(ExpandFault::directive(hash));
    }
    Ok(prelude_path(alloc, name)?)
}

/// The file at a path.
fn file_target(is_ghost: bool, hash: Place, path: Text) -> Result<Text, ExpandFault>
    ensures { Gives (λ path. path) result (file_target is_ghost hash path) }
{
    let bytes = path.as_bytes();
    let fits = if is_ghost {
        is_ghost_path(bytes)
    } else {
        !is_ghost_path(bytes)
    };
    if is_scoped(bytes) && bytes != b"".as_slice() && fits {
        Ok(path)
    } else {
        Err(ExpandFault::directive(hash))
    }
}

/// The bytes from one index to another, or as many of them as there are.
fn between(bytes: &[u8], from: u32, to: u32) -> &[u8]
    ensures { result.now ≡ between bytes.now from to }
{
    let from = (from as usize).min(bytes.len());
    let to = (to as usize).min(bytes.len()).max(from);
    &bytes[from..to]
}

/// What `"name"` means in a file.
fn quoted_target(
    alloc: Global,
    is_ghost: bool,
    file: &[u8],
    hash: Place,
    name: &[u8],
) -> Result<Text, ExpandFault>
    ensures { Gives (λ path. path) result (quoted_target is_ghost file.now hash name.now) }
{
    if !is_scoped(name) || name == b"".as_slice() {
        return Err(ExpandFault::directive(hash));
    }
    if is_prelude(name) {
        return prelude_target(alloc, is_ghost, hash, name);
    }
    let path = normal_path_of_bytes(alloc, folder_of(file), name)?;
    file_target(is_ghost, hash, path)
}

/// Whether the prelude has a header with a name.
fn is_prelude(name: &[u8]) -> bool
    requires { IsTrue (is_scoped name.now) }
    ensures { result ≡ is_some (text_of name.now) }
{
    prelude(path_text(name)).is_some()
}

/// The bytes of a path as a text.
pub fn path_text(path: &[u8]) -> &str
    requires { IsTrue (list_all is_ascii path.now) }
    ensures { result.now ≡ path.now }
{
    match str::from_utf8(path) {
        Ok(text) => text,
        Err(_) => unreachable!(),
    }
}

/// What `<name>` means.
fn angle_target(
    alloc: Global,
    is_ghost: bool,
    hash: Place,
    name: &[u8],
) -> Result<Text, ExpandFault>
    ensures { Gives (λ path. path) result (angle_target is_ghost hash name.now) }
{
    if is_scoped(name) && is_prelude(name) {
        prelude_target(alloc, is_ghost, hash, name)
    } else {
        Err(ExpandFault::refusal(Rule::Include, hash))
    }
}

/// Whether a token is a text between quotes.
fn is_literal(token: &Token) -> bool
    ensures { result ≡ is_literal_kind token.now.kind }
{
    match token.kind {
        Kind::Literal => true,
        _ => false,
    }
}

/// Whether a token is `<`.
fn is_less(token: &Token) -> bool
    ensures { result ≡ is_less_kind token.now.kind }
{
    match token.kind {
        Kind::Punctuator(Punctuator::Less) => true,
        _ => false,
    }
}

/// Whether a token is `>`.
fn is_greater(token: &Token) -> bool
    ensures { result ≡ is_greater_kind token.now.kind }
{
    match token.kind {
        Kind::Punctuator(Punctuator::Greater) => true,
        _ => false,
    }
}

/// The bytes of a literal between its quotes.
fn between_quotes(text: &[u8]) -> &[u8]
    ensures { result.now ≡ between_quotes text.now }
{
    let from = 1.min(text.len());
    let size = text.len().saturating_sub(2);
    let rest = &text[from..];
    &rest[..size.min(rest.len())]
}

/// Where the `>` begins that ends some tokens, where it is their only one.
fn closing(tokens: &[Token]) -> Option<u32>
    ensures { result ≡ option_map (λ t. t.start) (closing tokens.now) }
{
    for (at, token) in tokens.iter().enumerate() {
        if is_greater(token) {
            if at + 1 == tokens.len() {
                return Some(token.start);
            }
            return None;
        }
    }
    None
}

/// The path that an include means, from the tokens behind its `#`.
pub fn target(
    alloc: Global,
    is_ghost: bool,
    file: &[u8],
    bytes: &[u8],
    hash: Place,
    words: &[Token],
) -> Result<Text, ExpandFault>
    ensures { Gives (λ path. path) result (target is_ghost file.now bytes.now hash words.now) }
{
    match words {
        [_, first] => {
            if is_literal(first) {
                quoted_target(
                    alloc,
                    is_ghost,
                    file,
                    hash,
                    between_quotes(first.text.as_bytes()),
                )
            } else {
                Err(ExpandFault::directive(hash))
            }
        }
        [_, first, rest @ ..] => {
            if !is_less(first) {
                return Err(ExpandFault::directive(hash));
            }
            match closing(rest) {
                Some(to) => angle_target(alloc, is_ghost, hash, between(bytes, first.end, to)),
                None => Err(ExpandFault::directive(hash)),
            }
        }
        _ => Err(ExpandFault::directive(hash)),
    }
}
