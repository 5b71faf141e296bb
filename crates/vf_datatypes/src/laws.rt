//! A law of values. The function does nothing; its contract is the law.

ghost use Rattle.vf_datatypes.specs.Inhabited.{ValuesAreBuilt};

/// Where the datatypes of a unit stand in order, as they are accepted, each sort over them has a value, every sort but
/// a datatype being taken to have one.
pub fn values_are_built()
    ensures { ValuesAreBuilt }
{}
