//! The laws of the prover.

use vf_answer::goals_are_counted;
use vf_asking::{courses_are_determined, courses_only_append, right_courses_are_determined};
use vf_definitions as definitions;
use vf_recheck::{
    conflicts_are_met_by_none, definitions_entail, refutations_are_sound,
    refutations_show_conflicts,
};

#[test]
fn refutations_have_laws() {
    refutations_show_conflicts();
    conflicts_are_met_by_none();
    refutations_are_sound();
    definitions_entail();
    definitions::definitions_keep_values();
    definitions::definitions_entail();
}

#[test]
fn questions_have_laws() {
    goals_are_counted();
    courses_only_append::<bool>();
    courses_are_determined::<bool>();
    right_courses_are_determined::<bool>();
}
