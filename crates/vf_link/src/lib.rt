//! Linking: which manifests make up a program, and otherwise the first clause that fails.
//!
//! All is said over the lines of all manifests: [`link_manifests`] accepts them exactly where they link, and else refuses them by
//! the first clause that fails, showing the least of what fails it in the order of bytes, or how many mains there are. Of
//! manifests that link it tells which of them provides main, and an order of the lemmas in which each stands behind those
//! that it calls.
//!
//! What the lines say of one topic is copied behind each other into one piece of memory ([`texts`]), and compared by
//! numbers: for each text that is spoken of the place where it is mentioned first ([`firsts`]), by a map that keeps the
//! order of insertion. The time is in proportion to the bytes of the lines, but for collisions of hashes.
#![tactic(auto)]

mod call_order;
mod entry;
mod firsts;
mod least;
mod link;
mod refusal;
mod repeats;
mod requirements;
mod statement;
mod texts;

pub use entry::Entry;
pub use link::{Linked, link_manifests};
pub use refusal::{LinkFault, LinkRefusal};

#[cfg(test)]
mod tests;
