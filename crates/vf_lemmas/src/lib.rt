//! Lemmas: what is accepted as a lemma holds.
//!
//! The definitions stand in `specs/`; the code here is public functions with an empty body, each of
//! which has a law as its contract.
//!
//! In `specs/`: when the body of a lemma is accepted: annotations alone, and calls of lemmas that hold otherwise (as
//! those on rows of int cells do), that stand earlier, or for which one of three measures falls (whole cells, the size
//! of a value, the depth of the precondition's first part). Laws: `accepted_lemmas_hold` (each accepted lemma gives,
//! from every part that satisfies its precondition, a part not greater that satisfies its postcondition; the rest is
//! leaked, and is nothing where it does not leak), `calling_keeps`, `components_are_smaller`, `opening_goes_lower`,
//! `asserting_is_proved`; that the first part may be opened in two shares, the second one later: `chunks_are_shared`,
//! `named_shares_are_halved`, `written_shares_are_added`, `opening_share_goes_lower`.
#![tactic(auto)]

mod laws;

pub use laws::{
    accepted_lemmas_hold, asserting_is_proved, calling_keeps, chunks_are_shared,
    components_are_smaller, named_shares_are_halved, opening_goes_lower, opening_share_goes_lower,
    written_shares_are_added,
};
