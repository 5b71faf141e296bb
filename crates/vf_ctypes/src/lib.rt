//! C's integer types: what they range over, and how they turn into one another.
//!
//! Nothing here takes memory. Numbers are exact: 128 bits hold each number of each type.
//!
//! `least`, `greatest`, `in_range`, `promote`, `common` and `convert` give what C11's text says, and take no memory.
//! Laws: `promotion_keeps`, `common_types_are_wide`, `common_types_are_mutual`, `common_types_stay`,
//! `conversions_fit`, `conversions_keep`.
#![tactic(auto)]

mod laws;
mod ranges;
mod types;

pub use laws::{
    common_types_are_mutual, common_types_are_wide, common_types_stay, conversions_fit,
    conversions_keep, promotion_keeps,
};
pub use ranges::{convert, greatest, in_range, least};
pub use types::{common, promote};
