//! Manifests: what a file that was accepted provides and requires, as data and as text.
//!
//! This is the layer of linking. A manifest is a set of lines of eight kinds, kept in the order of their bytes, each
//! once. All lines of a [`Manifest`] stand in one piece of memory: a [`Line`] is lent to be put there, and what it speaks
//! of and says is lent from there. [`write_manifest`] gives the text of a manifest in version 2. [`read_manifest`] reads a
//! text of version 1 or 2: its answer is the manifest that the text stands for, or the first line at which the text is
//! that of no manifest. A signature that version 1 does not tell is `?`. [`digest`] is what a manifest says of a header's
//! bytes.
//!
//! What is written reads back. A text stands for one manifest at most ([`one_reading`]). The texts of a manifest's lines
//! stand in the order of bytes, each once ([`texts_ascend`]). What a lemma's signature may have is said by what may
//! stand next, byte for byte; each tree of sorts is read so ([`trees_are_read`]), and that nothing else is has no proof.
#![tactic(auto)]

mod fault;
mod hashing;
mod identity;
mod kind;
mod line;
mod lines;
mod manifest;
mod order;
mod signature;
mod spelling;
mod spot;
mod word;
mod words;

pub use fault::ManifestFault;
pub use hashing::digest;
pub use identity::Identity;
pub use kind::Kind;
pub use line::{Line, Version};
pub use lines::Manifest;
pub use manifest::{MOST_BYTES, one_reading, read_manifest, texts_ascend};
pub use signature::trees_are_read;
pub use spelling::write_manifest;
pub use word::Word;

#[cfg(test)]
mod tests;
