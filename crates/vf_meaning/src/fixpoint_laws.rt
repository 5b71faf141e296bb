//! The laws of fixpoints. Each function does nothing; its contract is the law.

ghost use Rattle.vf_meaning.specs.Structural.{FixpointsMeetEquations, ListedFixpointsMeetEquations};

/// A fixpoint that uses itself only on what is smaller has the value that its equation gives.
pub fn fixpoints_meet_equations()
    ensures { FixpointsMeetEquations }
{}

/// Each fixpoint of a list, in which every one stands before those that it names, has the value that its equation gives.
pub fn listed_fixpoints_meet_equations()
    ensures { ListedFixpointsMeetEquations }
{}
