//! Laws of the sorts of names. Each function does nothing; its contract is the law.

ghost use Rattle.vf_rules.specs.Inhabited.{ClosedSortsHaveValues};

/// Where each datatype has a value, every sort without type parameters has one.
pub fn closed_sorts_have_values()
    ensures { ClosedSortsHaveValues }
{}
