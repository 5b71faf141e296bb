//! What is known of what a snapshot holds.

ghost use Rattle.vf_snapshot.specs.Holdings.{Holdings};
ghost use Rattle.vf_preproc.specs.UnitText.{Library};
ghost use Rattle.vf_preproc.specs.Units.{Tells};

/// Whatever a snapshot holds, there is a library that tells just that: so what is said of each such library is
/// said of one at least.
#[tactic(auto, using(crate::proofs::Telling::told))]
pub fn snapshots_are_told()
    ensures { (held : Holdings) → (library : Library) × Tells library held }
{}
