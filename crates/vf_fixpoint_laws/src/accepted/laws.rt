//! Laws of the fixpoints of accepted units. Each function does nothing; its contract is the law.

ghost use Rattle.vf_fixpoint_laws.specs.accepted.Accepted.{AcceptedFixpointsKeepSorts, AcceptedUnitsDefine, AcceptedValuesFollowSorting};
ghost use Rattle.vf_fixpoint_laws.specs.accepted.Example.{RestsAreLists};
ghost use Rattle.vf_fixpoint_laws.specs.accepted.Parameters.{IntegersAreMet, ParametersAreMet};
ghost use Rattle.vf_fixpoint_laws.specs.accepted.Reading.{ReadFixpointsKeepSorts, ReadValuesFollowSorting};

/// A unit that is accepted, in whose names no `#` stands, meets all that is asked of units, where an interpretation gives
/// the definitions of its items the values of their bodies.
pub fn accepted_units_define()
    ensures { AcceptedUnitsDefine }
{}

/// So the fixpoints that such a unit declares keep sorts, where those with results of integers give numbers.
pub fn accepted_fixpoints_keep_sorts()
    ensures { AcceptedFixpointsKeepSorts }
{}

/// And the term of an expression that has a sort, or passes for one, where the unit covers what is declared, has a value of
/// that sort as it is known in the end, where the terms that stand there have values of their sorts.
pub fn accepted_values_follow_sorting()
    ensures { AcceptedValuesFollowSorting }
{}

/// The fixpoints of a unit that is read from a file and accepted keep sorts in the same way: nothing is asked of its names.
pub fn read_fixpoints_keep_sorts()
    ensures { ReadFixpointsKeepSorts }
{}

/// And values follow sorting over such a unit.
pub fn read_values_follow_sorting()
    ensures { ReadValuesFollowSorting }
{}

/// A unit of lists with the rest and the length of one is accepted, and in each interpretation that gives these the values
/// of their bodies `rest(xs)` has a list as its value wherever `xs` has one, and `length(rest(xs))` a number.
pub fn rests_are_lists()
    ensures { RestsAreLists }
{}

/// Where a fixpoint has the values of its body, its definition for integers has those of the body taken as numbers.
pub fn integers_are_met()
    ensures { IntegersAreMet }
{}

/// So an interpretation gives both definitions of a fixpoint with a result of a type parameter the values of their bodies,
/// which none would if both had the same body.
pub fn parameters_are_met()
    ensures { ParametersAreMet }
{}
