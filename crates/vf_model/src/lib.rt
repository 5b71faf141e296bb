//! What C programs and their annotations mean: values, memory, threads, steps, faults and races.
//!
//! The definitions stand in `specs/`; the code here is the words that the machine's calls share with
//! them, and public functions with an empty body, each of which has a law as its contract.
//!
//! In `specs/`: values, blocks, threads, steps, grants, faults, races and runs, of the whole language. Laws:
//! `ends_for_good`, `stays_ended`, `tells_steppers`, `idles_elsewhere`, `finds_steppers`, `faults_by_any_grant`,
//! `grants_wanted`, `grants_least_free`, `tells_identities`, `tells_signatures`.
#![tactic(auto)]

mod laws;
mod words;

pub use laws::{
    ends_for_good, faults_by_any_grant, finds_steppers, grants_least_free, grants_wanted,
    idles_elsewhere, stays_ended, tells_identities, tells_signatures, tells_steppers,
};
pub use words::{Event, FaultKind, Outcome};
