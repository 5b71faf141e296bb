//! What is left of a text.

ghost use Rattle.std.specs.Prelude.{◌≡◌, ◌<◌, ◌≤◌, ◌+◌, ◌^◌, [], ◌∷◌, length, nat_eq, IfOk, IfErr, OnOk, IfSome, IfNone, Ok, Err};
ghost use Rattle.vf_lexer.specs.Tokens.{Spot, beginning, place_behind, walk, piece_at, token_of, spot_behind, is_ghost, next_at, annotated_piece, Fault, Piece_is, IfLex};
ghost use Rattle.std.specs.List.{list_any, starts_with};
ghost use Rattle.vf_lexer.specs.Bytes.{is_barred};
ghost use Rattle.vf_lexer.specs.Pieces.{PieceFits};

use crate::fault::LexFault;
use crate::piece::{Piece, Region, Shape, gap, header_piece, inner_piece, outer_piece};
use crate::token::Token;
use std::alloc::Global;
use std::marker::Model;
use vf_base::{Place, Text};

/// What may stand nowhere: a backslash that ends its line, and the trigraphs.
const BARRED: [&str; 11] = [
    "\\\n", "\\\r\n", "??=", "??/", "??'", "??(", "??)", "??!", "??<", "??>", "??-",
];

fn begins_with_one_of(words: &[&str], text: &[u8]) -> bool
    ensures { result ≡ list_any (λ w. starts_with nat_eq text.now w.now) words.now }
{
    for word in words {
        if text.starts_with(word.as_bytes()) {
            return true;
        }
    }
    false
}

/// Whether a text begins with what may stand nowhere.
#[tactic(auto, unfolding(crate::specs::Bytes::is_barred))]
fn is_barred(text: &[u8]) -> bool
    ensures { result ≡ is_barred text.now }
{
    begins_with_one_of(&BARRED, text)
}

/// The place behind a byte: a line feed ends its line, and each other byte takes one column.
fn place_behind(place: Place, byte: u8) -> Place
    requires line { place.line + 1 < 2 ^ 32 }
    requires column { place.column + 1 < 2 ^ 32 }
    ensures same { result ≡ place_behind place byte }
    ensures line { result.line ≤ place.line + 1 }
    ensures column { result.column ≤ place.column + 1 }
{
    if byte == b'\n' {
        Place {
            file: place.file,
            line: place.line + 1,
            column: 1,
        }
    } else {
        Place {
            file: place.file,
            line: place.line,
            column: place.column + 1,
        }
    }
}

/// The first byte of a text, and what follows it.
fn first_and_rest(text: &[u8]) -> Option<(u8, &[u8])>
    ensures found { IfSome result (λ x. text.now ≡ x.0 ∷ x.1.now) }
    ensures none { IfNone result (text.now ≡ []) }
{
    match text {
        [first, rest @ ..] => Some((*first, rest)),
        [] => None,
    }
}

/// The place behind so many bytes, or that of the first at which begins what may stand nowhere.
#[tactic(auto, using(crate::proofs::Steps::walk_goes, crate::proofs::Steps::walk_stops))]
fn walk(text: &[u8], size: usize, start: Place) -> Result<Place, Place>
    requires size { size ≤ length text.now }
    requires line { start.line + length text.now < 2 ^ 32 }
    requires column { start.column + length text.now < 2 ^ 32 }
    ensures same { result ≡ walk start size text.now }
    ensures line { IfOk result (λ p. p.line + length text.now < 2 ^ 32 + size) }
    ensures column { IfOk result (λ p. p.column + length text.now < 2 ^ 32 + size) }
{
    let mut place = start;
    let mut left = text;
    let mut count = size;
    while count > 0 {
        let Some((first, rest)) = first_and_rest(left) else {
            break;
        };
        if is_barred(left) {
            return Err(place);
        }
        place = place_behind(place, first);
        left = rest;
        count -= 1;
    }
    Ok(place)
}

/// What is left of a text, and its place.
#[derive(Drop)]
pub struct Cursor<'a> {
    header: bool,
    place: Place,
    start: u32,
    region: Region,
    left: &'a [u8],
}

impl<'a> Model for Cursor<'a> {
    ghost use Rattle.std.specs.Prelude.{◌+◌, ◌<◌, ◌≤◌, ◌^◌, length};
    ghost use Rattle.vf_lexer.specs.Tokens.{Spot};

    ghost Value = { Spot };

    ghost view = { λ c. record { header = c.header; place = c.place; start = c.start; region = c.region; text = c.left.now } };

    // Each byte takes the place at most one line or one column further.
    ghost invariant = { λ c. (c.place.line + length c.left.now < 2 ^ 32)
        × (c.place.column + length c.left.now < 2 ^ 32)
        × (c.start + length c.left.now ≤ 1048576)
        × (c.region.inside + c.region.closing ≤ length c.left.now) };
}

impl<'a> Cursor<'a> {
    /// The beginning of a text.
    pub fn new(text: &'a [u8], file: u32, header: bool) -> Cursor<'a>
        requires { length text.now ≤ 1048576 }
        ensures { result ≡ beginning header file text.now }
    {
        Cursor {
            header,
            place: Place {
                file,
                line: 1,
                column: 1,
            },
            start: 0,
            region: Region {
                inside: 0,
                closing: 0,
            },
            left: text,
        }
    }

    /// How many bytes are left.
    pub fn len(&self) -> usize
        ensures { result ≡ length self.now.text }
    {
        self.left.len()
    }

    fn is_ghost(&self) -> bool
        ensures { result ≡ is_ghost self.now }
    {
        self.header || self.region.inside > 0
    }

    fn annotated_piece(&self) -> Option<Piece>
        ensures same { result ≡ annotated_piece self.now.region self.now.text }
        ensures fits { PieceFits (length self.now.text) result }
    {
        if self.region.inside > 0 {
            let piece = inner_piece(&self.left[..self.region.inside])?;
            return Some(Piece {
                shape: piece.shape,
                size: piece.size,
                region: Region {
                    inside: self.region.inside - piece.size,
                    closing: self.region.closing,
                },
            });
        }
        if self.region.closing > 0 {
            return Some(gap(self.region.closing));
        }
        outer_piece(self.left)
    }

    /// The piece that stands here.
    #[tactic(auto, unfolding(crate::specs::Tokens::piece_at))]
    fn piece(&self) -> Option<Piece>
        ensures same { result ≡ piece_at self.now }
        ensures fits { PieceFits (length self.now.text) result }
    {
        if self.header {
            header_piece(self.left)
        } else {
            self.annotated_piece()
        }
    }

    /// The token that a piece is, if it is one.
    fn token(&self, alloc: Global, shape: Shape, size: usize) -> Result<Option<Token>, LexFault>
        requires { size ≤ length self.now.text }
        ensures gives { IfOk result (λ token. token ≡ token_of self.now shape size) }
        ensures memory { IfErr result (λ e. e ≡ LexFault.Memory) }
    {
        match shape {
            Shape::Gap => Ok(None),
            Shape::Token(kind) => {
                let text = Text::from_bytes(alloc, &self.left[..size])?;
                Ok(Some(Token {
                    kind,
                    text,
                    start: self.start,
                    end: self.start + size as u32,
                    place: self.place,
                    is_ghost: self.is_ghost(),
                }))
            }
        }
    }

    /// Goes over the next piece, and gives the token that it is, if it is one.
    #[tactic(auto, unfolding(crate::specs::Tokens::next_at))]
    pub fn next(&mut self, alloc: Global) -> Result<Option<Token>, LexFault>
        requires { 0 < length self.old.text }
        ensures gives { IfOk result (λ token. next_at self.old ≡ Piece_is token self.new) }
        ensures shorter { OnOk result (length self.new.text < length self.old.text) }
        ensures fault { IfErr result (λ e. IfLex e (λ p. next_at self.old ≡ Fault p)) }
    {
        let Some(piece) = self.piece() else {
            return Err(LexFault::Lex(self.place));
        };
        let place = match walk(self.left, piece.size, self.place) {
            Ok(place) => place,
            Err(place) => return Err(LexFault::Lex(place)),
        };
        let token = self.token(alloc, piece.shape, piece.size)?;
        self.place = place;
        self.start += piece.size as u32;
        self.region = piece.region;
        self.left = &self.left[piece.size..];
        Ok(token)
    }
}
