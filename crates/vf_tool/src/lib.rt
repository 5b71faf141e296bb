//! The one public call of `vf`: from the words of the command line to what is printed.
//!
//! The contract of `run_words` speaks of each command. Of `run`: the printed verdict is the one that the written rules come to
//! with just the questions and answers that the journal gained (`verdict`), these answers are right (`right`), an accepted text
//! has a linked environment in which every list of events is safe (`safe`), and where nothing stands in the way the verdict is
//! the one by right answers (`complete`). Of `try`, `trace` and `link`: the printed text and the status are those of the
//! files as they read, of linking by its definition, and of the machine (`answer`). Of `upgrade`: the file has the manifest
//! in version 2 (`upgraded`). Each status comes exactly, or only, where its cause is (`usage` to `never`).
#![tactic(auto)]

mod answer;
mod checked;
mod printing;
mod reading;
mod run;
mod verdict;

pub use run::run_words;
pub use vf_report::Status;
