//! Names, shares and patterns.

use vf_base::Sequence;
use vf_formula::{Kind, Term};

/// A name of ghost text: its number among the names of the text in which it stands, in the order in which they are
/// declared, the parameters first; and the kind of the terms that stand for it.
#[derive(Clone, Copy, Debug)]
pub struct Slot {
    pub number: usize,
    pub kind: Kind,
}

/// The share of a chunk that is written.
#[derive(Drop)]
pub enum Share {
    /// `[?f]`: whatever there is, which f names from there on.
    Binds(Slot),
    /// The product of these, from left to right.
    Product(Sequence<Factor>),
}

/// A factor of a share.
#[derive(Drop)]
pub enum Factor {
    /// A number, which is not 0.
    Times(u64),
    /// A divisor, which is a power of two.
    Over(u64),
    /// The fraction that a name stands for.
    Named(Term),
}

/// A value of a sort: its term, and the kind of the sort, which may be another than that of the term where the sort is
/// `any`.
#[derive(Drop)]
pub struct Argument {
    pub kind: Kind,
    pub term: Term,
}

/// What an argument of a chunk or the content of a cell is to be.
#[derive(Drop)]
pub enum Pattern {
    /// This value.
    Is(Argument),
    /// `?x`: any value, which the name stands for from there on.
    Binds(Slot),
    /// `_`: anything of this kind.
    Wild(Kind),
}
