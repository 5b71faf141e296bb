//! Laws of the fixpoints of accepted units. Each function does nothing; its contract is the law.

ghost use Rattle.vf_fixpoint_laws.specs.descending.Example.{ListsAreAccepted};
ghost use Rattle.vf_fixpoint_laws.specs.descending.Laws.{AcceptedFixpointsGoDown, AcceptedFixpointsHaveEachCase, UnmarkedItemsHavePlainNames};
ghost use Rattle.vf_fixpoint_laws.specs.descending.Marked.{MarkedNamesNeverGoDown};

/// No `#` stands in the names that an accepted unit declares, where none stands in those that its items declare: so
/// identities of names that differ are different.
pub fn unmarked_items_have_plain_names()
    ensures { UnmarkedItemsHavePlainNames }
{}

/// The fixpoints of an accepted unit go down in the order in which they are declared: each application in the body of one
/// is of an earlier fixpoint, or of the same one to a component of what the body switches over.
pub fn accepted_fixpoints_go_down()
    ensures { AcceptedFixpointsGoDown }
{}

/// The body of each fixpoint of an accepted unit has a case for each constructor of the datatype of what it switches over.
pub fn accepted_fixpoints_have_each_case()
    ensures { AcceptedFixpointsHaveEachCase }
{}

/// The unit of a datatype of lists and a fixpoint that gives their lengths is accepted, and its definitions go down.
pub fn lists_are_accepted()
    ensures { ListsAreAccepted }
{}

/// Where a `#` stands in a name two fixpoints may have one identity: the definitions of a unit that is accepted but for
/// this go down in no order.
pub fn marked_names_never_go_down()
    ensures { MarkedNamesNeverGoDown }
{}
