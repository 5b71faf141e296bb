//! Laws of linked environments. Each function does nothing; its contract is the law.

ghost use Rattle.vf_meaning.specs.LinkingLaws.{LinkedUnitsAgree, NoLeaksAreLinked, UnitsLink};

/// Units of which every two agree, and whose fixpoints stand in order, have a linked environment.
pub fn units_link()
    ensures { UnitsLink }
{}

/// Units that have a linked environment agree.
pub fn linked_units_agree()
    ensures { LinkedUnitsAgree }
{}

/// Where no `leak` stands in any unit, nothing is leaked in any ghost text of the linked environment.
pub fn no_leaks_are_linked()
    ensures { NoLeaksAreLinked }
{}
