//! Normal forms of terms, the order of terms, and the literals of comparisons.
//!
//! The order, the normal form and the literals stand in `specs/` as pure data; the code here is public functions
//! with an empty body, each of which has a law as its contract.
//!
//! In `specs/`: the order of terms, linear sums over atoms, the normal form of a term, what terms in normal form look
//! like, and the literals of comparisons. Laws: `order_is_total` (terms that the order takes for equal are one term),
//! `normal_forms_keep_values` (whatever is declared, in every valuation), `normal_forms_look_normal` (with all
//! subterms; and a normal form is its own), `normal_forms_stay` (a term that looks normal is its own normal form),
//! `comparison_literals_mean_it` (a valuation meets the literal of a comparison of integer terms exactly where the
//! comparison holds); examples: `normal_forms_in_examples`, `literals_in_examples`.
#![tactic(auto)]

mod examples;
mod laws;

pub use examples::{literals_in_examples, normal_forms_in_examples};
pub use laws::{
    comparison_literals_mean_it, normal_forms_keep_values, normal_forms_look_normal,
    normal_forms_stay, order_is_total,
};
