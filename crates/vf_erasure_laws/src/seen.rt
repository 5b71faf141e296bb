//! What C text sees of what is declared: all but what annotations declare.
//!
//! `specs/seen/Seen.antt` has the definition, and `specs/seen/Unseen.antt` when the names of annotations are not seen. Each law is
//! the contract of a public function with an empty body.
//!
//! In `specs/`: what C text sees of what is declared: all but what annotations declare; and when annotations are
//! unseen. Law `types_are_seen`: an expression that has a type has the same type where nothing of annotations is
//! declared.

ghost use Rattle.vf_erasure_laws.specs.seen.Laws.{TypesAreSeen};

/// An expression that has a type has the same type where nothing of annotations is declared.

pub fn types_are_seen()
    ensures { TypesAreSeen }
{}
