//! Signatures of functions and lemmas.

ghost use Rattle.std.specs.Prelude.{◌≡◌, ◌==◌, ◌≤◌, ◌&&◌, true, not, ℕ, List, [], ◌∷◌, ◌++◌, length, reverse, IfOk};
ghost use Rattle.std.specs.Char.{is_ascii_digit};
ghost use Rattle.std.specs.List.{list_all, list_any, prefix_len, slice_split};
ghost use Rattle.std.specs.Str.{bytes_eq};
ghost use Rattle.std.specs.Option.{option_map};
ghost use Rattle.vf_manifest.specs.declared.signature.Stage.TheVariants as stages;
ghost use Rattle.vf_manifest.specs.Reading.{Gives, tested};
ghost use Rattle.vf_manifest.specs.Trees.{Sorts, are_good, sorts_text};
ghost use Rattle.vf_manifest.specs.Words.{is_visible};
ghost use Rattle.vf_manifest.specs.Signatures.{plain_types, is_empty, is_starred_name, is_pointer_type, is_type, are_types, is_function, is_numeral, is_at_most, is_parameter, is_datatype, is_sort_word, is_sort_byte, can_begin, ends_sort, ends_none, closes, next, are_sorts, is_lemma, is_signature};

use crate::fault::WordFault;
use crate::word::Word;
use crate::words::{first_and_rest, is_among, is_name, is_text, is_visible, is_word_byte, split};
use std::alloc::Global;
use std::cmp::Ordering;
use vf_base::Memory;

/// The types of C without names.
const PLAIN_TYPES: [&str; 14] = [
    "void", "bool", "char", "uchar", "short", "ushort", "int", "uint", "long", "ulong", "llong",
    "ullong", "void*", "int*",
];

/// How many bytes the longest of these has.
const LONGEST_PLAIN: usize = 6;

/// The sorts that have names of their own.
const OWN_SORTS: [&str; 5] = ["int", "bool", "ptr", "real", "any"];

/// Where in the sorts of a lemma a text stands.
#[derive(Clone, Copy)]
pub enum Stage {
    /// A sort begins.
    Begins,
    /// A sort begins, or the list ends.
    BeginsOrEnds,
    /// A sort has ended.
    Ended,
}

fn is_starred_name(text: &[u8]) -> bool
    ensures { result ≡ is_starred_name text.now }
{
    match split(text, b'*') {
        Some((name, rest)) => is_name(name) && rest.is_empty(),
        None => false,
    }
}

fn is_pointer_type(text: &[u8]) -> bool
    ensures { result ≡ is_pointer_type text.now }
{
    match split(text, b':') {
        Some((word, rest)) => (is_text(word, "struct") || is_text(word, "fn"))
            && is_starred_name(rest),
        None => false,
    }
}

#[tactic(auto, using(crate::proofs::Plain::long_is_not_plain))]
fn is_plain_type(text: &[u8]) -> bool
    ensures { result ≡ list_any (λ t. bytes_eq text.now t) plain_types }
{
    text.len() <= LONGEST_PLAIN && is_among(&PLAIN_TYPES, text)
}

#[tactic(auto, unfolding(crate::specs::Signatures::is_type))]
fn is_type(text: &[u8]) -> bool
    ensures { result ≡ is_type text.now }
{
    is_plain_type(text) || is_pointer_type(text)
}

/// Whether each part between commas is a type.
fn each_type(text: &[u8]) -> bool
    ensures { result ≡ list_all is_type (slice_split (λ b. b == 44) text.now) }
{
    let mut left = text;
    'parts: loop {
        let Some((part, rest)) = split(left, b',') else {
            return is_type(left);
        };
        if !is_type(part) {
            return false;
        }
        left = rest;
    }
}

#[tactic(auto, unfolding(crate::specs::Signatures::are_types))]
fn are_types(text: &[u8]) -> bool
    ensures { result ≡ are_types text.now }
{
    text.is_empty() || each_type(text)
}

#[tactic(auto, unfolding(crate::specs::Signatures::is_function))]
fn is_function(text: &[u8]) -> bool
    ensures { result ≡ is_function text.now }
{
    let Some((returned, rest)) = split(text, b'(') else {
        return false;
    };
    let Some((parameters, rest)) = split(rest, b')') else {
        return false;
    };
    is_type(returned) && are_types(parameters) && rest.is_empty()
}

/// Whether each byte is a digit.
fn are_digits(text: &[u8]) -> bool
    ensures { result ≡ list_all is_ascii_digit text.now }
{
    text.iter().all(|b| b.is_ascii_digit())
}

fn is_numeral(text: &[u8]) -> bool
    ensures { result ≡ is_numeral text.now }
{
    match text {
        [] => false,
        [first, rest @ ..] => {
            first.is_ascii_digit() && are_digits(rest) && (*first != b'0' || rest.is_empty())
        }
    }
}

fn is_at_most(number: &[u8], limit: &[u8]) -> bool
    ensures { result ≡ is_at_most number.now limit.now }
{
    number.len() < limit.len()
        || number.len() == limit.len() && !matches!(number.cmp(limit), Ordering::Greater)
}

fn is_parameter(parameters: &[u8], word: &[u8]) -> bool
    ensures { result ≡ is_parameter parameters.now word.now }
{
    match word {
        [] => false,
        [first, number @ ..] => {
            *first == b'$'
                && is_numeral(number)
                && !is_text(number, "0")
                && is_at_most(number, parameters)
        }
    }
}

fn is_datatype(word: &[u8]) -> bool
    ensures { result ≡ is_datatype word.now }
{
    is_name(word) && !is_among(&OWN_SORTS, word)
}

fn is_sort_word(parameters: &[u8], word: &[u8]) -> bool
    ensures { result ≡ is_sort_word parameters.now word.now }
{
    is_name(word) || is_parameter(parameters, word)
}

fn is_sort_byte(byte: u8) -> bool
    ensures { result ≡ is_sort_byte byte }
{
    is_word_byte(byte) || byte == b'$'
}

/// How many bytes at the front of a text are of a word.
fn word_len(text: &[u8]) -> usize
    ensures same { result ≡ prefix_len is_sort_byte text.now }
    ensures within { result ≤ length text.now }
{
    let mut len = 0;
    while len < text.len() && is_sort_byte(text[len]) {
        len += 1;
    }
    len
}

impl Stage {
    fn can_begin(self) -> bool
        ensures { result ≡ can_begin self }
    {
        match self {
            Stage::Begins | Stage::BeginsOrEnds => true,
            Stage::Ended => false,
        }
    }

    fn ends_sort(self, parameters: &[u8], word: &[u8]) -> bool
        ensures { result ≡ ends_sort parameters.now self word.now }
    {
        match self {
            Stage::Begins | Stage::BeginsOrEnds => is_sort_word(parameters, word),
            Stage::Ended => word.is_empty(),
        }
    }

    fn ends_none(self, word: &[u8]) -> bool
        ensures { result ≡ ends_none self word.now }
    {
        match self {
            Stage::BeginsOrEnds => word.is_empty(),
            Stage::Begins | Stage::Ended => false,
        }
    }
}

/// Closes the bracket that was opened last, if this byte does.
fn close(closers: &mut Vec<u8>, byte: u8) -> Option<Stage>
    ensures { option_map (λ s. (s, reverse closers.new.items)) result ≡ closes (reverse closers.old.items) byte }
{
    match closers.pop() {
        Some(closing) if closing == byte => Some(Stage::Ended),
        _ => None,
    }
}

/// The stage behind a word and a byte. The brackets that are open are known by the bytes that will close them, the
/// outermost one first.
#[tactic(auto, unfolding(crate::specs::Signatures::next))]
fn next(
    parameters: &[u8],
    stage: Stage,
    word: &[u8],
    closers: &mut Vec<u8>,
    byte: u8,
) -> Result<Option<Stage>, Memory>
    ensures { IfOk result (λ after. option_map (λ s. (s, reverse closers.new.items)) after
        ≡ next parameters.now stage word.now (reverse closers.old.items) byte) }
{
    if byte == b'(' {
        if !(stage.can_begin() && is_text(word, "pred")) {
            return Ok(None);
        }
        closers.push(b')')?;
        return Ok(Some(Stage::BeginsOrEnds));
    }
    if byte == b'<' {
        if !(stage.can_begin() && is_datatype(word)) {
            return Ok(None);
        }
        closers.push(b'>')?;
        return Ok(Some(Stage::Begins));
    }
    let ends = stage.ends_sort(parameters, word);
    if byte == b',' {
        if ends && !closers.is_empty() {
            return Ok(Some(Stage::Begins));
        }
        return Ok(None);
    }
    if ends || stage.ends_none(word) {
        return Ok(close(closers, byte));
    }
    Ok(None)
}

/// Whether the sorts end behind a word that is the last one.
fn ends_here(stage: Stage, word: &[u8], closers: &[u8]) -> bool
    ensures { result ≡ (not (can_begin stage) && is_empty word.now && is_empty (reverse closers.now)) }
{
    !stage.can_begin() && word.is_empty() && closers.is_empty()
}

/// Whether a text has the sorts of a lemma with so many type parameters, and what closes their list.
fn are_sorts(alloc: Global, parameters: &[u8], text: &[u8]) -> Result<bool, Memory>
    ensures { IfOk result (λ b. b ≡ are_sorts parameters.now stages.BeginsOrEnds [] (41 ∷ []) text.now) }
{
    let mut closers = Vec::new(alloc);
    closers.push(b')')?;
    let mut stage = Stage::BeginsOrEnds;
    let mut left = text;
    'sorts: loop {
        let (word, rest) = left.split_at(word_len(left));
        let Some((byte, rest)) = first_and_rest(rest) else {
            let ends = ends_here(stage, word, closers.as_slice());
            return Ok(ends);
        };
        let Some(after) = next(parameters, stage, word, &mut closers, byte)? else {
            return Ok(false);
        };
        stage = after;
        left = rest;
    }
}

#[tactic(auto, unfolding(crate::specs::Signatures::is_lemma))]
fn is_lemma(alloc: Global, text: &[u8]) -> Result<bool, Memory>
    ensures { IfOk result (λ b. b ≡ is_lemma text.now) }
{
    let Some((word, rest)) = split(text, b'/') else {
        return Ok(false);
    };
    let Some((parameters, sorts)) = split(rest, b'(') else {
        return Ok(false);
    };
    if is_text(word, "lemma") && is_numeral(parameters) {
        are_sorts(alloc, parameters, sorts)
    } else {
        Ok(false)
    }
}

/// Whether each byte is printed and no blank.
fn are_visible(text: &[u8]) -> bool
    ensures { result ≡ list_all is_visible text.now }
{
    text.iter().all(|b| is_visible(*b))
}

#[tactic(auto, unfolding(crate::specs::Signatures::is_signature))]
fn is_signature(alloc: Global, text: &[u8]) -> Result<bool, Memory>
    ensures { IfOk result (λ b. b ≡ is_signature text.now) }
{
    if !are_visible(text) {
        return Ok(false);
    }
    if is_text(text, "?") {
        return Ok(true);
    }
    if is_function(text) {
        return Ok(true);
    }
    is_lemma(alloc, text)
}

/// A signature.
pub fn signature(alloc: Global, text: &[u8]) -> Result<Word<'_>, WordFault>
    ensures { Gives (λ t. t) result (tested is_signature text.now) }
{
    if !is_signature(alloc, text)? {
        return Err(WordFault::Syntax);
    }
    Ok(Word::new(text))
}

/// The signature of a lemma, as a tree of sorts spells it, is read.
pub fn trees_are_read()
    ensures { (parameters : List ℕ) (sorts : Sorts) → are_good parameters sorts ≡ true
        → are_sorts parameters stages.BeginsOrEnds [] (41 ∷ []) (sorts_text sorts ++ 41 ∷ []) ≡ true }
{}
