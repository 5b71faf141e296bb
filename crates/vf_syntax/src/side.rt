//! The two kinds of text.

/// What a token stands in: the text that a C compiler reads, or an annotation.
#[derive(Clone, Copy, Debug, PartialEq, Eq)]
pub enum Side {
    Real,
    Ghost,
}

/// How much of the grammar a text is read by.
#[derive(Clone, Copy, Debug, PartialEq, Eq)]
pub enum Grammar {
    /// All of it.
    Whole,
    /// The grammar without claims, contracts, invariants, ghost items and ghost commands, over real tokens alone.
    Plain,
}
