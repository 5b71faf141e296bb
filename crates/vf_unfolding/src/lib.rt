//! Unfolding, round by round, over facts that come one after the other along a path.
//!
//! The facts and the equations of what was unfolded are kept by `vf_interning`, which closes them as they
//! come. Where there is no conflict, what is equal says which unfolding comes next; its equation is one
//! literal more, and nothing is made anew. A fact is taken back with all that was unfolded since it came.
//!
//! `Path::push` adds a fact and unfolds until there is a conflict or nothing comes next; `refuted` holds exactly
//! where the closure of the facts with unfolding has a conflict; `facts` and `made` are its facts and its unfoldings,
//! each of which came next after those before it; `count` is how many terms the facts have; `pop` leaves exactly what
//! there was before the last fact and takes no memory; where there is no memory the path stays as it was. `path_of`
//! and `refuted` start from nothing, and answer none exactly where the literals have more than 1,024 terms. Exact for
//! the literals of `vf_question`, with whatever an `Unfolder` says.
#![tactic(auto)]

mod deciding;
mod depths;
mod mark;
mod marking;
mod path;
mod round;
mod searching;
mod settling;
mod within;

pub use deciding::{path_of, refuted};
pub use mark::Mark;
pub use path::Path;
pub use round::Round;
