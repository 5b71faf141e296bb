//! Tokens that are still to be read.

ghost use Rattle.std.specs.Prelude.{◌≡◌, IfOk, length};
ghost use Rattle.vf_syntax.specs.Walks.{head_has, is_on, is_mark, is_word, is_name, is_wild, is_word_kind, is_wild_kind, is_punctuator};
ghost use Rattle.vf_syntax.specs.declared.side.Side.TheVariants.{Real, Ghost};
ghost use Rattle.vf_cursor.specs.declared.fault.Stop.TheVariants as stops;
ghost use Rattle.vf_cursor.specs.declared.fault.Fault.TheVariants as faults;
ghost use Rattle.vf_cursor.specs.Parsing.{Gives, here_at, mark_at, word_at, wild_at, name_at, number_at, character_at, next_by, number_of, character_of, is_there};

use crate::fault::{Fault, Stop};
use std::alloc::Global;
use vf_base::{IntType, Place};
use vf_lexer::{Kind, Punctuator, Token};
use vf_syntax::keyword::{Keyword, is_keyword};
use vf_syntax::side::Side;
use vf_syntax::written::Name;

/// Tokens that are still to be read.
#[derive(Drop)]
pub struct Cursor<'a> {
    pub alloc: Global,
    pub left: &'a [Token],
}

/// Whether a token is of a kind of text.
pub fn is_on(side: Side, token: &Token) -> bool
    ensures { result ≡ is_on side token.now }
{
    match side {
        Side::Real => !token.is_ghost,
        Side::Ghost => token.is_ghost,
    }
}

fn is_punctuator(punctuator: Punctuator, kind: Kind) -> bool
    ensures { result ≡ is_punctuator punctuator kind }
{
    match kind {
        Kind::Punctuator(other) => other.spelling() == punctuator.spelling(),
        _ => false,
    }
}

/// Whether a token is a punctuator of a kind of text.
#[tactic(auto, unfolding(vf_syntax::specs::Walks::is_mark))]
pub fn is_mark(side: Side, punctuator: Punctuator, token: &Token) -> bool
    ensures { result ≡ is_mark side punctuator token.now }
{
    is_on(side, token) && is_punctuator(punctuator, token.kind)
}

fn is_word_kind(kind: Kind) -> bool
    ensures { result ≡ is_word_kind kind }
{
    match kind {
        Kind::Name => true,
        _ => false,
    }
}

fn is_wild_kind(kind: Kind) -> bool
    ensures { result ≡ is_wild_kind kind }
{
    match kind {
        Kind::Wild => true,
        _ => false,
    }
}

/// Whether a token is a keyword of a kind of text.
#[tactic(auto, unfolding(vf_syntax::specs::Walks::is_word))]
pub fn is_word(side: Side, keyword: Keyword, token: &Token) -> bool
    ensures { result ≡ is_word side keyword token.now }
{
    is_on(side, token) && is_word_kind(token.kind) && token.text.as_bytes() == keyword.spelling()
}

/// Whether a token is a name of a kind of text.
#[tactic(auto, unfolding(vf_syntax::specs::Walks::is_name))]
pub fn is_name(side: Side, token: &Token) -> bool
    ensures { result ≡ is_name side token.now }
{
    is_on(side, token) && is_word_kind(token.kind) && !is_keyword(token.text.as_bytes())
}

/// Whether a token is the wild pattern.
#[tactic(auto, unfolding(vf_syntax::specs::Walks::is_wild))]
pub fn is_wild(token: &Token) -> bool
    ensures { result ≡ is_wild token.now }
{
    is_on(Side::Ghost, token) && is_wild_kind(token.kind)
}

fn number_of(kind: Kind) -> Option<(u64, IntType)>
    ensures { result ≡ number_of kind }
{
    match kind {
        Kind::Number { value, int_type } => Some((value, int_type)),
        _ => None,
    }
}

fn character_of(kind: Kind) -> Option<u8>
    ensures { result ≡ character_of kind }
{
    match kind {
        Kind::Character { value } => Some(value),
        _ => None,
    }
}

impl<'a> Cursor<'a> {
    /// Whether the next token is a punctuator.
    pub fn sees_mark(&self, side: Side, punctuator: Punctuator) -> bool
        ensures { result ≡ head_has (is_mark side punctuator) self.now.left.now }
    {
        match self.left {
            [] => false,
            [first, ..] => is_mark(side, punctuator, first),
        }
    }

    /// Whether the next token is a keyword.
    pub fn sees_word(&self, side: Side, keyword: Keyword) -> bool
        ensures { result ≡ head_has (is_word side keyword) self.now.left.now }
    {
        match self.left {
            [] => false,
            [first, ..] => is_word(side, keyword, first),
        }
    }

    /// Whether the next token is a name.
    pub fn sees_name(&self, side: Side) -> bool
        ensures { result ≡ head_has (is_name side) self.now.left.now }
    {
        match self.left {
            [] => false,
            [first, ..] => is_name(side, first),
        }
    }

    /// Whether the next token is the wild pattern.
    pub fn sees_wild(&self) -> bool
        ensures { result ≡ head_has is_wild self.now.left.now }
    {
        match self.left {
            [] => false,
            [first, ..] => is_wild(first),
        }
    }

    /// Whether the next token is a number.
    pub fn sees_number(&self, side: Side) -> bool
        ensures { result ≡ is_there (next_by side number_of self.now.left.now) }
    {
        match self.left {
            [] => false,
            [first, ..] => is_on(side, first) && number_of(first.kind).is_some(),
        }
    }

    /// Whether the next token is a character constant.
    pub fn sees_character(&self) -> bool
        ensures { result ≡ is_there (next_by Real character_of self.now.left.now) }
    {
        match self.left {
            [] => false,
            [first, ..] => is_on(Side::Real, first) && character_of(first.kind).is_some(),
        }
    }

    /// The same tokens, which are still to be read here.
    pub fn copy(&self) -> Cursor<'a>
        ensures { result.left.now ≡ self.now.left.now }
    {
        Cursor {
            alloc: self.alloc,
            left: self.left,
        }
    }

    /// The next token can't stand there.
    pub fn syntax(&self) -> Stop
        ensures { result ≡ stops.Fault (faults.Syntax (length self.now.left.now)) }
    {
        Stop::Fault(Fault::Syntax(self.left.len()))
    }

    /// The next token stands too deep.
    pub fn depth(&self) -> Stop
        ensures { result ≡ stops.Fault (faults.Depth (length self.now.left.now)) }
    {
        Stop::Fault(Fault::Depth(self.left.len()))
    }

    /// The place of the next token.
    #[tactic(auto, unfolding(crate::specs::Parsing::here_at))]
    pub fn here(&self) -> Result<Place, Stop>
        ensures { Gives result self.now.left.now (here_at self.now.left.now) }
    {
        match self.left {
            [] => Err(Stop::Fault(Fault::Syntax(0))),
            [first, ..] => Ok(first.place),
        }
    }

    /// Takes a punctuator, and gives its place.
    #[tactic(auto, unfolding(crate::specs::Parsing::mark_at))]
    pub fn mark(&mut self, side: Side, punctuator: Punctuator) -> Result<Place, Stop>
        ensures { Gives result self.new.left.now (mark_at side punctuator self.old.left.now) }
    {
        match self.left {
            [first, rest @ ..] if is_mark(side, punctuator, first) => {
                let place = first.place;
                self.left = rest;
                Ok(place)
            }
            _ => Err(self.syntax()),
        }
    }

    /// Takes a keyword, and gives its place.
    #[tactic(auto, unfolding(crate::specs::Parsing::word_at))]
    pub fn word(&mut self, side: Side, keyword: Keyword) -> Result<Place, Stop>
        ensures { Gives result self.new.left.now (word_at side keyword self.old.left.now) }
    {
        match self.left {
            [first, rest @ ..] if is_word(side, keyword, first) => {
                let place = first.place;
                self.left = rest;
                Ok(place)
            }
            _ => Err(self.syntax()),
        }
    }

    /// Takes the wild pattern, and gives its place.
    #[tactic(auto, unfolding(crate::specs::Parsing::wild_at))]
    pub fn wild(&mut self) -> Result<Place, Stop>
        ensures { Gives result self.new.left.now (wild_at self.old.left.now) }
    {
        match self.left {
            [first, rest @ ..] if is_wild(first) => {
                let place = first.place;
                self.left = rest;
                Ok(place)
            }
            _ => Err(self.syntax()),
        }
    }

    /// Takes a name with its place.
    #[tactic(auto, unfolding(crate::specs::Parsing::name_at))]
    pub fn name(&mut self, side: Side) -> Result<Name, Stop>
        ensures { Gives result self.new.left.now (name_at side self.old.left.now) }
    {
        match self.left {
            [first, rest @ ..] if is_name(side, first) => {
                let text = first.text.copy()?;
                let place = first.place;
                self.left = rest;
                Ok(Name { text, place })
            }
            _ => Err(self.syntax()),
        }
    }

    /// Takes a number, and gives it with its type.
    #[tactic(auto, unfolding(crate::specs::Parsing::number_at))]
    pub fn number(&mut self, side: Side) -> Result<(u64, IntType), Stop>
        ensures { Gives result self.new.left.now (number_at side self.old.left.now) }
    {
        match self.left {
            [first, rest @ ..] if is_on(side, first) => match number_of(first.kind) {
                Some(number) => {
                    self.left = rest;
                    Ok(number)
                }
                None => Err(self.syntax()),
            },
            _ => Err(self.syntax()),
        }
    }

    /// Takes a character constant, and gives the value of its byte.
    #[tactic(auto, unfolding(crate::specs::Parsing::character_at))]
    pub fn character(&mut self) -> Result<u8, Stop>
        ensures { Gives result self.new.left.now (character_at self.old.left.now) }
    {
        match self.left {
            [first, rest @ ..] if is_on(Side::Real, first) => match character_of(first.kind) {
                Some(value) => {
                    self.left = rest;
                    Ok(value)
                }
                None => Err(self.syntax()),
            },
            _ => Err(self.syntax()),
        }
    }
}
