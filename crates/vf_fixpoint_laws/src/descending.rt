//! The fixpoints of an accepted unit go down, and their bodies have a case for each constructor.
//!
//! The definitions stand in `specs/`; the code here is public functions with an empty body, each of
//! which has a law as its contract.
//!
//! In `specs/`: the order in which fixpoints are declared, by the names in their identities, and when no `#` stands
//! in a name; and two small units. Laws: `accepted_fixpoints_go_down` (in an accepted unit whose names have no `#`
//! each application in the body of a fixpoint is of one that is declared before it, or of the same to a component of
//! what the body switches over), `accepted_fixpoints_have_each_case` (and each body that switches has a case for each
//! constructor of the datatype), `unmarked_items_have_plain_names` (the names that a unit declares have no `#` where
//! those of its items have none); examples: `lists_are_accepted` (a unit of lists and their lengths meets this),
//! `marked_names_never_go_down` (the definitions of a unit with a `#` in a name go down in no order). That names are
//! identifiers, and so have no `#`, is a premise, which units that are read from texts meet
//! (`vf_fixpoint_laws::identifiers`).

mod laws;

pub use laws::{
    accepted_fixpoints_go_down, accepted_fixpoints_have_each_case, lists_are_accepted,
    marked_names_never_go_down, unmarked_items_have_plain_names,
};
