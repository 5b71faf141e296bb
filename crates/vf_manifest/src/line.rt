//! The lines of manifests.

use crate::identity::Identity;
use crate::word::Word;

/// A line of a manifest, whose words are lent.
#[derive(Debug, Drop)]
pub enum Line<'a> {
    /// The body of a predicate stands in a file.
    Body {
        predicate: Identity<'a>,
        file: Word<'a>,
    },
    /// The body of a lemma calls another lemma.
    Calls {
        caller: Identity<'a>,
        callee: Identity<'a>,
    },
    /// A function that is defined claims a function type.
    Claims {
        function: Identity<'a>,
        claimed: Identity<'a>,
    },
    /// An instance of a predicate family at a function stands in a file.
    Instance {
        family: Identity<'a>,
        function: Identity<'a>,
        file: Word<'a>,
    },
    /// A function or lemma has its body here, and this signature.
    Provides {
        provided: Identity<'a>,
        signature: Word<'a>,
    },
    /// A function or lemma of this signature has its body elsewhere.
    Requires {
        required: Identity<'a>,
        signature: Word<'a>,
    },
    /// The body of a struct stands in a file.
    Struct {
        tag: Identity<'a>,
        file: Word<'a>,
    },
    /// A header was read, and its bytes have this digest.
    Uses {
        header: Word<'a>,
        digest: Word<'a>,
    },
}

/// The version of a manifest's text: the first one has no signatures.
#[derive(Clone, Copy, Debug, PartialEq, Eq)]
pub enum Version {
    First,
    Second,
}
