//! Ghost expressions as terms of questions.
//!
//! An expression that was sorted is read once more, with what is known of unknown sorts in the end: names
//! come to terms and identities, a `0` to the null pointer where a pointer stands beside it or is wanted,
//! and each application and choice has the kind of its sort.
//!
//! `read` is what the definition says, and unknown sorts are numbered as where the expression is sorted; want of
//! memory alone is free.
#![tactic(auto)]

pub mod arguments;
mod expression;
mod forms;
pub mod named;
mod operated;
mod reading;
pub mod setting;

pub use expression::read;
pub use forms::is_null;
pub use reading::{Reading, Row};
pub use setting::Setting;
