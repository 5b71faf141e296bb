//! What is wanted of a heap, and what comes of it.

use vf_base::{Place, Sequence};
use vf_chunk::{Chunk, Head, Heap, Share};
use vf_formula::Term;
use vf_fractions::Dyadic;

/// Where refusals stand.
#[derive(Clone, Copy, Debug)]
pub struct Places {
    /// That no chunk fits, and that content is not known (rules 22 and 23).
    pub part: Place,
    /// That a question has too many terms, and that a fraction has no form (rules 42 and 44).
    pub statement: Place,
    /// That there are too many facts (rule 41).
    pub name: Place,
}

/// What an argument is to be.
#[derive(Debug, Drop)]
pub enum Pattern {
    /// The value of an expression.
    Is(Term),
    /// A value that gets a name, `?x`.
    Name,
    /// Anything, `_`.
    Wild,
}

/// Patterns in their order.
pub type PatternList = Sequence<Pattern>;

/// The share that is wanted.
#[derive(Debug, Drop)]
pub enum SharePattern {
    Is(Share),
    /// Whatever share the chunk has, `[?f]`; f stands for it over the scale.
    Name(Share),
}

/// The chunk that is wanted.
#[derive(Debug, Drop)]
pub struct Wanted {
    pub head: Head,
    pub patterns: PatternList,
    pub share: SharePattern,
}

/// How arguments meet patterns.
#[derive(Clone, Copy, Debug)]
pub(crate) enum Match {
    Matches,
    /// They match, but content that is wanted is not known.
    Lacks,
    /// An argument is not proved equal.
    Differs,
}

/// What is taken of a chunk.
#[derive(Debug, Drop)]
pub(crate) enum Portion {
    /// All of it, and what `?f` stands for.
    Whole(Option<Share>),
    /// The part with this fraction.
    Part(Dyadic),
}

/// A chunk that fits.
#[derive(Debug, Drop)]
pub(crate) struct Found {
    /// Its place in the heap.
    pub at: usize,
    pub portion: Portion,
}

/// A chunk that took in younger ones.
#[derive(Debug, Drop)]
pub(crate) struct Gathered {
    pub chunk: Chunk,
    /// The younger chunks that it did not take in.
    pub stay: Heap,
    /// Whether it took in any.
    pub has_merged: bool,
}

/// A chunk that may have taken in younger ones.
#[derive(Debug, Drop)]
pub(crate) struct Attempt {
    pub gathered: Gathered,
    /// What is taken of it, where it took in any and fits.
    pub portion: Option<Portion>,
}

/// What is taken out of a heap.
#[derive(Debug, Drop)]
pub struct Taken {
    pub chunk: Chunk,
    /// What `?f` stands for, where that was wanted.
    pub bound: Option<Share>,
    /// What is left.
    pub heap: Heap,
}
