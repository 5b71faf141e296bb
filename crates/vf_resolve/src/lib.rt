//! Names, types and sorts of whole units: what a unit declares, or where it is refused first; and of which files it is.
//!
//! In `specs/`: of which files a unit is, what is declared in front of its items, and what a whole unit comes to.
//! `files_of`: of which files each file of a unit consists, which of them are preludes, and which headers are there,
//! from what expanding it gave. `begin`: the scope in front of the items. `resolve`: what a unit declares is what its
//! items come to one after the other, by the walk of `vf_walk` and the annotations of `vf_annotations`, and a refusal
//! is one that they come to. They come to one thing at most (`vf_order_laws::determined`).
#![tactic(auto)]

mod files;
mod unit_files;
mod units;

pub use files::Files;
pub use unit_files::files_of;
pub use units::{begin, resolve};
