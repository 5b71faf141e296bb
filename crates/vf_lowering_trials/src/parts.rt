//! Texts of annotations, and the parts that stand in them.

use crate::texts::{END, tokens};
use std::alloc::Global;
use vf_base::Memory;
use vf_lexer::Token;
use vf_parse_part::part::{GhostPart, GhostTree, parse_ghost};
use vf_parse_real::fault::ParseFault;

/// What comes of a part: the index behind it, or the column at which it is refused, 1 at the end.
#[derive(Clone, Copy, Debug, PartialEq, Eq)]
enum Answer {
    Behind(usize),
    Refused(u32),
}

/// The answer of the parser of parts.
fn answer_of(found: &Result<(GhostTree, usize), ParseFault>) -> Result<Answer, Memory> {
    match found {
        Ok(part) => Ok(Answer::Behind(part.1)),
        Err(ParseFault::Syntax(place)) => Ok(Answer::Refused(place.column)),
        Err(_) => Err(Memory),
    }
}

/// What comes of the part of a kind that begins at an index of some tokens.
fn found_in(alloc: Global, read: &[Token], at: usize, kind: GhostPart) -> Result<Answer, Memory> {
    if at > read.len() {
        return Err(Memory);
    }
    answer_of(&parse_ghost(alloc, read, at, kind, END))
}

/// The same of a text.
fn found(alloc: Global, text: &str, at: usize, kind: GhostPart) -> Result<Answer, Memory> {
    match tokens(alloc, text, true) {
        Ok(read) => found_in(alloc, read.as_slice(), at, kind),
        Err(memory) => Err(memory),
    }
}

/// A text, the index of the first token of a part, its kind, and what comes of it.
type Row = (&'static str, usize, GhostPart, Answer);

/// The first text of which something else comes.
fn first_other(alloc: Global, rows: &[Row]) -> Option<&'static str> {
    for row in rows {
        if found(alloc, row.0, row.1, row.2) != Ok(row.3) {
            return Some(row.0);
        }
    }
    None
}

const PARTS: &[Row] = &[
    (": t requires", 0, GhostPart::Claim, Answer::Behind(2)),
    (
        "x requires true; ensures true; y",
        1,
        GhostPart::Contract,
        Answer::Behind(7),
    ),
    (
        "invariant p(x) &*& q(); z",
        0,
        GhostPart::Invariant,
        Answer::Behind(10),
    ),
    (
        "; predicate p(int x) = x == 0; lemma",
        1,
        GhostPart::Item,
        Answer::Behind(12),
    ),
    (
        "{ assert true; } close",
        0,
        GhostPart::Command,
        Answer::Behind(5),
    ),
    (": 3", 0, GhostPart::Claim, Answer::Refused(3)),
    ("struct s;", 0, GhostPart::Item, Answer::Refused(1)),
];

/// Parts of each kind, and texts that have none there.
#[test]
fn parts(rt: HostRuntime) {
    assert_eq!(rt; first_other(rt.alloc(), PARTS), None, "the text of a row");
}
