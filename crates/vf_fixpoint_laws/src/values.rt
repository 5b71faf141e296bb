//! The terms of expressions that have sorts have values of these sorts.
//!
//! The definitions stand in `specs/`; the code here is public functions with an empty body, each of
//! which has a law as its contract.
//!
//! In `specs/`: which values a sort of ghost text has, with type parameters, datatypes over sorts and predicates, by
//! what is declared; when that covers what is declared elsewhere; what is given of the terms that stand in a setting;
//! and when a fixpoint keeps sorts at values. Laws: `values_have_sorts` (where the terms that stand in a setting have
//! values of their sorts and fixpoints keep sorts, the term that `read` gives for an expression that has a sort, or
//! passes for one, has a value of that sort as it is known in the end, whatever sorts stand for type parameters, and
//! by all that covers what the setting declares), `readings_follow_sorting` (so it has where the fixpoints that the
//! term applies keep sorts there; and the unknown sorts behind the expression are numbered as where it is sorted),
//! `terms_keep_all`, `agreement_goes_back` (sorts that agree with what is known in the end agree with it behind each
//! expression), `each_covers_itself`, `covers_compose` and `covers_keep_values` (values keep their sorts where more
//! is declared), `sorts_tell_values`, and `first_has_its_sort`, an example of lists over a type parameter. That
//! fixpoints keep sorts is a premise here, which `vf_fixpoint_laws::bodies` takes from their bodies.

mod laws;

pub use laws::{
    agreement_goes_back, covers_compose, covers_keep_values, each_covers_itself,
    first_has_its_sort, readings_follow_sorting, sorts_tell_values, terms_keep_all,
    values_have_sorts,
};
