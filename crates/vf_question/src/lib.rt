//! Questions over terms, and what they are over a table of terms.
//!
//! The terms of a question's literals are numbered in their order, parts before wholes, each once, and
//! the literals become facts over the numbers. The law of readings of `vf_reading` carries what is
//! decided of these facts back to the literals. How fixpoints are unfolded stands in `specs/`, with
//! laws that say when enough was unfolded and why it ends.
//!
//! Laws: `right_is_sound`, `settled_is_enough`, `next_is_right`, `unfolding_ends`: a conflict with right unfoldings as
//! facts is one of the closure with unfolding; unfoldings made one after the other until none comes next are all that
//! the closure asks for, and they end. Exact for literals whose numbers have no parts and are within 2^100, and whose
//! bounds are between integer terms.
#![tactic(auto)]

mod laws;
mod numbering;
mod plain;
mod question;
mod unfolding;

pub use laws::{next_is_right, right_is_sound, settled_is_enough, unfolding_ends};
pub use numbering::MOST_TERMS;
pub use plain::{are_plain, is_plain, is_plain_literal};
pub use question::Question;
pub use unfolding::Unfolding;
