//! Where the words of lines stand in the memory that keeps them.

ghost use Rattle.std.specs.Prelude.{◌≡◌};
ghost use Rattle.vf_manifest.specs.Kept as kept;

use crate::identity::Identity;
use crate::kind::Kind;
use crate::line::Line;

/// The kind of a line, and where in its words paths and identities end.
#[derive(Clone, Copy, Debug)]
pub struct Shape {
    pub kind: Kind,
    /// How many bytes the path of the first identity has.
    pub path: usize,
    /// How many bytes the first of two identities has that stand in one word.
    pub first: usize,
    /// How many bytes the path of the second identity has.
    pub second: usize,
}

/// Where the words of a line stand: that of which it speaks, and behind it that which it says.
#[derive(Clone, Copy, Debug)]
pub struct Spot {
    pub shape: Shape,
    pub start: usize,
    pub middle: usize,
    pub end: usize,
}

/// The shape of a line of this kind that has one identity.
fn with_one(kind: Kind, identity: &Identity<'_>) -> Shape
    ensures { result ≡ kept.with_one kind identity.now }
{
    Shape {
        kind,
        path: identity.path().len(),
        first: 0,
        second: 0,
    }
}

/// The shape of a line of this kind that has two identities in two words.
fn with_two(kind: Kind, identity: &Identity<'_>, other: &Identity<'_>) -> Shape
    ensures { result ≡ kept.with_two kind identity.now other.now }
{
    Shape {
        kind,
        path: identity.path().len(),
        first: 0,
        second: other.path().len(),
    }
}

/// The shape of a line.
pub fn shape_of(line: &Line<'_>) -> Shape
    ensures { result ≡ kept.shape_of line.now }
{
    match line {
        Line::Body { predicate, .. } => with_one(Kind::Body, predicate),
        Line::Calls { caller, callee } => with_two(Kind::Calls, caller, callee),
        Line::Claims { function, claimed } => with_two(Kind::Claims, function, claimed),
        Line::Instance {
            family,
            function,
            ..
        } => Shape {
            kind: Kind::Instance,
            path: family.path().len(),
            first: family.text_len(),
            second: function.path().len(),
        },
        Line::Provides { provided, .. } => with_one(Kind::Provides, provided),
        Line::Requires { required, .. } => with_one(Kind::Requires, required),
        Line::Struct { tag, .. } => with_one(Kind::Struct, tag),
        Line::Uses { .. } => Shape {
            kind: Kind::Uses,
            path: 0,
            first: 0,
            second: 0,
        },
    }
}
