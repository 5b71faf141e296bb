//! Laws of switches in a program of several units. Each function does nothing; its contract is the law.

ghost use Rattle.vf_rule_laws.specs.Covering.{EachConstructorCovers, LinkingAddsNoConstructor, SwitchesCoverWhereLinked};

/// Branches that have each constructor of a datatype cover a value of it.
pub fn each_constructor_covers()
    ensures { EachConstructorCovers }
{}

/// Branches that have each constructor in a unit have each in the linked environment.
pub fn linking_adds_no_constructor()
    ensures { LinkingAddsNoConstructor }
{}

/// So a switch that covers in its unit covers in the linked environment.
pub fn switches_cover_where_linked()
    ensures { SwitchesCoverWhereLinked }
{}
