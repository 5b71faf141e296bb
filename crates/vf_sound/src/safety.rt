//! The safety of what is accepted.

ghost use Rattle.vf_sound.specs.Laws.{AcceptedIsSafe};

/// Where the rules accept a unit by right answers, no list of events brings its program to a fault
/// or a race, and each keeps main's contract and the share-outs of its states.
pub fn accepted_is_safe()
    ensures { AcceptedIsSafe }
{}
