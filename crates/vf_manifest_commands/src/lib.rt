//! The commands `link` and `upgrade`: manifests are read from files, linked, or written again in version 2.
//!
//! [`link_answer`]: the link line by the definition of linking over the lines of the manifests that the files have.
//! [`upgrade_answer`]: the manifest that the file has is written in its place, in version 2. Each stop has its cause.
#![tactic(auto)]

mod linking;
mod upgrading;

pub use linking::link_answer;
pub use upgrading::{UpgradeFault, upgrade_answer};
