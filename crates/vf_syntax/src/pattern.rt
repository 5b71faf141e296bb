//! Patterns of assertions, shares, and the patterns of cases.

use crate::ghost_expr::GhostExpr;
use crate::written::Name;
use vf_base::{IntType, Place, Sequence};

/// What an argument of a chunk or the content of a cell is to be.
#[derive(Drop)]
pub enum Pattern {
    /// The value of an expression.
    Is(GhostExpr),
    /// `?x`, and the place of the `?`: any value, which x names from there on.
    Binds(Place, Name),
    /// `_`, and its place: anything.
    Wild(Place),
}

/// A share between `[` and `]`, and the place of the `[`.
#[derive(Drop)]
pub struct Share {
    pub place: Place,
    pub amount: Amount,
}

/// How much a share is.
#[derive(Drop)]
pub enum Amount {
    /// `?f`, and the place of the `?`: whatever there is, which f names from there on.
    Binds(Place, Name),
    /// A product of factors and divisors.
    Product(Factor, Sequence<FactorLink>),
}

/// `*` or `/` in a share, and the factor behind it.
#[derive(Drop)]
pub struct FactorLink {
    pub divides: bool,
    pub factor: Factor,
}

/// A factor of a share.
#[derive(Drop)]
pub enum Factor {
    /// A number, its type and its place.
    Number(u64, IntType, Place),
    /// A name.
    Name(Name),
}

/// What a case is for: a constructor, and names for its arguments where there are parentheses.
#[derive(Drop)]
pub struct CasePattern {
    pub constructor: Name,
    pub names: Option<Sequence<Name>>,
}
