//! The piece in front of a text.

ghost use Rattle.std.specs.Prelude.{◌≡◌, ◌<◌, ◌≤◌, ◌+◌, length, IfSome};
ghost use Rattle.vf_lexer.specs.Pieces.{gap, opening, solid_piece, ended_from, block_comment, plain_piece, closed_block, block_opening, outer_piece, inner_piece, begins_with_mark, header_piece, PieceFits};

use crate::class::{Class, is_blank};
use crate::literal::token_front;
use crate::token::Kind;

/// What a piece is: a token, or what parts tokens.
#[derive(Clone, Copy, Debug)]
pub enum Shape {
    /// Blank space, a comment, or a mark of an annotation.
    Gap,
    /// A token of this kind.
    Token(Kind),
}

/// How much of an annotation follows: the bytes inside, and those of the mark that closes it.
#[derive(Clone, Copy, Debug)]
pub struct Region {
    /// How many bytes are left inside.
    pub inside: usize,
    /// How many bytes the mark behind those has.
    pub closing: usize,
}

/// A piece in front of a text, and what of an annotation that it opens follows it.
#[derive(Clone, Copy, Debug)]
pub struct Piece {
    /// What it is.
    pub shape: Shape,
    /// How many bytes it has, one at least.
    pub size: usize,
    /// What of an annotation follows it.
    pub region: Region,
}

/// A piece of so many bytes that only parts tokens.
pub fn gap(size: usize) -> Piece
    ensures { result ≡ gap size }
{
    Piece {
        shape: Shape::Gap,
        size,
        region: Region {
            inside: 0,
            closing: 0,
        },
    }
}

fn opening(inside: usize, closing: usize) -> Piece
    ensures { result ≡ opening inside closing }
{
    Piece {
        shape: Shape::Gap,
        size: 3,
        region: Region { inside, closing },
    }
}

/// A blank byte, or a token.
#[tactic(auto, unfolding(crate::specs::Pieces::solid_piece))]
fn solid_piece(ghost_text: bool, text: &[u8]) -> Option<Piece>
    requires { length text.now ≤ 1048576 }
    ensures { result ≡ solid_piece ghost_text text.now }
{
    match text {
        [] => None,
        [first, ..] => {
            if is_blank(*first) {
                return Some(gap(1));
            }
            let (kind, size) = token_front(ghost_text, text)?;
            Some(Piece {
                shape: Shape::Token(kind),
                size,
                region: Region {
                    inside: 0,
                    closing: 0,
                },
            })
        }
    }
}

/// How many bytes there are up to the end of the first `*/`, `before` of them before this text.
fn ended_from(before: usize, text: &[u8]) -> Option<usize>
    requires { before + length text.now ≤ 1048576 }
    ensures same { result ≡ ended_from before text.now }
    ensures within { IfSome result (λ n. n ≤ before + length text.now) }
{
    let mut count = before;
    let mut left = text;
    while let [_, rest @ ..] = left {
        if left.starts_with(b"*/") {
            return Some(count + 2);
        }
        count += 1;
        left = rest;
    }
    None
}

/// The comment in front of a text that begins with `/*`.
fn block_comment(text: &[u8]) -> Option<Piece>
    requires long { 2 ≤ length text.now }
    requires small { length text.now ≤ 1048576 }
    ensures { result ≡ block_comment text.now }
{
    let size = ended_from(2, &text[2..])?;
    Some(gap(size))
}

/// A comment, a blank byte or a token.
#[tactic(auto, unfolding(crate::specs::Pieces::plain_piece))]
fn plain_piece(ghost_text: bool, text: &[u8]) -> Option<Piece>
    requires { length text.now ≤ 1048576 }
    ensures { result ≡ plain_piece ghost_text text.now }
{
    if text.starts_with(b"//") {
        return Some(gap(Class::Line.run_len(text)));
    }
    if text.starts_with(b"/*") {
        return block_comment(text);
    }
    solid_piece(ghost_text, text)
}

/// The annotation whose opening mark stands before a text, where the first `*/` ends it.
fn block_opening(text: &[u8]) -> Option<Piece>
    requires { length text.now ≤ 1048576 }
    ensures { result ≡ block_opening text.now }
{
    let size = ended_from(0, text)?;
    if size < 3 {
        return None;
    }
    let inside = size - 3;
    if text[inside..].starts_with(b"@") {
        Some(opening(inside, 3))
    } else {
        None
    }
}

/// A piece outside annotations.
#[tactic(auto, using(crate::proofs::Sizes::outer_fits), unfolding(crate::specs::Pieces::outer_piece))]
pub fn outer_piece(text: &[u8]) -> Option<Piece>
    requires { length text.now ≤ 1048576 }
    ensures same { result ≡ outer_piece text.now }
    ensures fits { PieceFits (length text.now) result }
{
    if text.starts_with(b"//@") {
        return Some(opening(Class::Line.run_len(&text[3..]), 0));
    }
    if text.starts_with(b"/*@") {
        return block_opening(&text[3..]);
    }
    plain_piece(false, text)
}

/// A piece of the text inside an annotation.
#[tactic(auto, using(crate::proofs::Sizes::inner_fits), unfolding(crate::specs::Pieces::inner_piece))]
pub fn inner_piece(text: &[u8]) -> Option<Piece>
    requires { length text.now ≤ 1048576 }
    ensures same { result ≡ inner_piece text.now }
    ensures fits { PieceFits (length text.now) result }
{
    if text.starts_with(b"//") {
        return Some(gap(Class::Line.run_len(text)));
    }
    if text.starts_with(b"/*") {
        return None;
    }
    solid_piece(true, text)
}

fn begins_with_mark(text: &[u8]) -> bool
    ensures { result ≡ begins_with_mark text.now }
{
    text.starts_with(b"//@") || text.starts_with(b"/*@") || text.starts_with(b"@*/")
}

/// A piece of a ghost header, where the marks of annotations are gaps.
#[tactic(auto, using(crate::proofs::Sizes::header_fits), unfolding(crate::specs::Pieces::header_piece))]
pub fn header_piece(text: &[u8]) -> Option<Piece>
    requires { length text.now ≤ 1048576 }
    ensures same { result ≡ header_piece text.now }
    ensures fits { PieceFits (length text.now) result }
{
    if begins_with_mark(text) {
        Some(gap(3))
    } else {
        plain_piece(true, text)
    }
}
