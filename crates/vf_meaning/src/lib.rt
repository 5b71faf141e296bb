//! What annotations mean: fractions, values of ghost expressions, parts of memory, and when a part
//! satisfies an assertion.
//!
//! The definitions stand in `specs/`, above those of the machine; the code here is public functions
//! with an empty body, each of which has a law as its contract.
//!
//! In `specs/`: dyadic fractions, values of ghost expressions, fixpoints, sorts, assertions, parts of memory and when
//! one fits, satisfaction at a depth and a scale, linked environments, share-outs, what a run keeps. Laws of
//! fractions (`form_is_one`, `product_distributes`, `halves_make_the_whole`, `order_is_total` and more), of values
//! (`tells_values`, `tells_claims`, `values_agree`, `divides_by_nought`), of fixpoints (`fixpoints_meet_equations`,
//! `listed_fixpoints_meet_equations`), of parts (`sums_regroup`, `fitting_is_consistent`, `whole_is_alone` and more),
//! of what fits before and after each change of memory (`fields_are_there`, `fields_are_written`, `blocks_are_added`,
//! `blocks_are_freed`, `mutexes_are_acquired`, `mutexes_are_released` and more), of satisfaction (`depth_grows`,
//! `scales_split`, `chunks_join`, `rows_join`, `names_agree`, `declarations_grow` and more), of linked environments
//! (`units_link`, `linked_units_agree`, `no_leaks_are_linked`), of share-outs (`sums_open`, `sums_close`,
//! `members_are_apart`, `share_outs_exclude_races`).
#![tactic(auto)]

mod fit_laws;
mod fixpoint_laws;
mod fraction_laws;
mod linking_laws;
mod part_laws;
mod satisfaction_laws;
mod share_out_laws;
mod value_laws;

pub use fit_laws::{
    blocks_are_added, blocks_are_freed, fields_are_there, fields_are_written, handles_are_there,
    held_are_there, indexes_are_there, indexes_are_written, int_blocks_are_there,
    mutexes_are_acquired, mutexes_are_released, mutexes_are_there, structs_are_there,
};
pub use fixpoint_laws::{fixpoints_meet_equations, listed_fixpoints_meet_equations};
pub use fraction_laws::{
    counts_in_units, form_is_one, halves_make_the_whole, nought_adds_nothing, order_is_by_sums,
    order_is_total, order_is_transitive, product_associates, product_commutes, product_distributes,
    reduces_to_its_value, stays_positive, sum_associates, sum_commutes, tells_order,
    whole_scales_nothing,
};
pub use linking_laws::{linked_units_agree, no_leaks_are_linked, units_link};
pub use part_laws::{
    fitting_is_at_most_whole, fitting_is_consistent, nothing_fits_empty, nothing_is_neutral,
    parts_add, singles_add, singles_have_just_that, sums_are_consistent, sums_regroup, sums_turn,
    tells_contents, tells_locations, whole_is_alone,
};
pub use satisfaction_laws::{
    cells_join, chunks_join, declarations_grow, depth_falls, depth_grows, halves_split,
    names_agree, rows_join, satisfying_is_consistent, scales_split,
};
pub use share_out_laws::{members_are_apart, share_outs_exclude_races, sums_close, sums_open};
pub use value_laws::{divides_by_nought, tells_claims, tells_names, tells_values, values_agree};
