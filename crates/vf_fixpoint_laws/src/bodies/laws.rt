//! Laws of fixpoints. Each function does nothing; its contract is the law.

ghost use Rattle.vf_fixpoint_laws.specs.bodies.Applied.{DefinedKeepSorts, DefinitionsAreKinded, ReadingsAreKinded};
ghost use Rattle.vf_fixpoint_laws.specs.bodies.Bodies.{BodiesGiveSorts};
ghost use Rattle.vf_fixpoint_laws.specs.bodies.Closed.{PlacedAlike};
ghost use Rattle.vf_fixpoint_laws.specs.bodies.Example.{ListsAreDefined};
ghost use Rattle.vf_fixpoint_laws.specs.bodies.Expressions.{ValuesFollowSorting};
ghost use Rattle.vf_fixpoint_laws.specs.bodies.Fronts.{FrontsAreCovered, LaterPredicatesStay};
ghost use Rattle.vf_fixpoint_laws.specs.bodies.Numbers.{NumbersKeepSorts, NumbersKeepValues, NumbersMeetDefinitions};
ghost use Rattle.vf_fixpoint_laws.specs.bodies.Recursion.{BodiesKeepSorts};
ghost use Rattle.vf_fixpoint_laws.specs.bodies.Resolved.{EquatingResolves, PassingResolves, PassingSettles};
ghost use Rattle.vf_fixpoint_laws.specs.bodies.Units.{UnitsKeepSorts};

/// Sorts that are alike in place of the type parameters make alike sorts of one that has no others, and no unknown
/// sorts.
pub fn sorts_are_placed_alike()
    ensures { PlacedAlike }
{}

/// Where sorts are made equal whose unknown sorts have numbers, what is known stays resolved: nothing is known of the
/// unknown sorts that stand in what is known of others.
pub fn equating_resolves()
    ensures { EquatingResolves }
{}

/// Behind an expression that passes for a sort whose unknown sorts have numbers, what is known stays resolved.
pub fn passing_resolves()
    ensures { PassingResolves }
{}

/// Behind such an expression the sorts that are settled in the end agree with what is known.
pub fn passing_settles()
    ensures { PassingSettles }
{}

/// All that is declared covers what is so up to a name, where the predicates that may be built stay such: a name that is
/// found in a front of the names is found at the same place among all.
pub fn fronts_are_covered()
    ensures { FrontsAreCovered }
{}

/// The predicates that may be built up to a name stay such, where those that stand later than it, and are declared, are
/// declared over the sorts and in the files that were told of them.
pub fn later_predicates_stay()
    ensures { LaterPredicatesStay }
{}

/// At values of its arguments' sorts a fixpoint that has the values of its body has, as its kind has it, a value of its
/// result's sort, where the fixpoints that the body applies keep sorts there: the body returns an expression, or has
/// one for each constructor of the datatype of an argument.
pub fn bodies_give_sorts()
    ensures { BodiesGiveSorts }
{}

/// Fixpoints that have the values of their bodies keep sorts, where each application in a body is of an earlier fixpoint,
/// or of the same to a component of what the body switches over.
pub fn bodies_keep_sorts()
    ensures { BodiesKeepSorts }
{}

/// Where an interpretation gives the definitions of the items of a unit the values of their bodies, the fixpoints that
/// the unit declares keep sorts.
pub fn units_keep_sorts()
    ensures { UnitsKeepSorts }
{}

/// Terms in which fixpoints with results of integers are applied as such have the same values where these fixpoints give
/// numbers.
pub fn numbers_keep_values()
    ensures { NumbersKeepValues }
{}

/// So definitions whose bodies are such terms are met where these fixpoints give numbers.
pub fn numbers_meet_definitions()
    ensures { NumbersMeetDefinitions }
{}

/// Where an interpretation gives the definitions of the items of a unit the values of their bodies, which are such
/// terms, the fixpoints that the unit declares keep sorts where those with results of integers give numbers.
pub fn numbers_keep_sorts()
    ensures { NumbersKeepSorts }
{}

/// Terms that are read apply fixpoints with results of integers as such, where the terms that stand in a setting do.
pub fn readings_are_kinded()
    ensures { ReadingsAreKinded }
{}

/// So do the bodies of the definitions of the items of a unit.
pub fn definitions_are_kinded()
    ensures { DefinitionsAreKinded }
{}

/// Where an interpretation gives the definitions of the items of a unit the values of their bodies, the fixpoints that
/// the unit declares keep sorts where those with results of integers give numbers, which are the same in terms.
pub fn defined_keep_sorts()
    ensures { DefinedKeepSorts }
{}

/// Where an interpretation gives the fixpoints that the items of a unit declare the values of their bodies, and the terms
/// that stand in a setting have values of their sorts, the term of an expression that has a sort, or passes for a wanted
/// one, has a value of that sort as it is known in the end.
pub fn values_follow_sorting()
    ensures { ValuesFollowSorting }
{}

/// What is asked of units can be met together: by one of lists with two fixpoints, of which one switches and applies
/// itself, and the other applies the first; a predicate over lists stands behind both.
pub fn lists_are_defined()
    ensures { ListsAreDefined }
{}
