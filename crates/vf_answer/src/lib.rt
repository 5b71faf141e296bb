//! Questions and their answers.
//!
//! A question asks whether facts entail a goal. It is answered by the closure of the facts and the goal's negation,
//! fixpoints being unfolded: a conflict is a refutation of the negation. Along a path of facts a question
//! costs what its goal adds.
//!
//! `answered_along`, over a path of facts, which it leaves where it was, and `answered`, from nothing, say Proved
//! exactly where there is a plain refutation, Unknown exactly where there is none, and Terms exactly where facts and
//! goal have more than 1,024 terms; law `goals_are_counted`: the goal and its negation have as many terms. Exact for
//! the literals of `vf_question`.
#![tactic(auto)]

mod answer;
mod asking;
mod laws;

pub use answer::{Answer, answered, answered_along};
pub use asking::{can_be_denied, denied, question};
pub use laws::goals_are_counted;
