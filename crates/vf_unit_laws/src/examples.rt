//! An example. The function does nothing; its contract is the example.

ghost use Rattle.vf_unit_laws.specs.Example.{LengthsStandInOrder};

/// The unit of lists and their lengths is accepted; its fixpoint stands in order, and its right answers entail.
pub fn lengths_stand_in_order()
    ensures { LengthsStandInOrder }
{}
