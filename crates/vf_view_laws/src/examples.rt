//! An example. The function does nothing; its contract is the example.

ghost use Rattle.vf_view_laws.specs.Example.{ListsStandInOrder};

/// The fixpoints over lists stand in the order of their declaration, and the unit's definitions are theirs.
pub fn lists_stand_in_order()
    ensures { ListsStandInOrder }
{}
