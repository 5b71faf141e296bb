//! From the nodes of a body to the steps of the machine.
//!
//! Lowering makes nodes, of which some are no steps: jumps and ways back, ghost commands, declarations without a value,
//! the heads and ends of loops, and the end of a body that owes a value. The machine has the steps alone. A step's
//! number is how many steps stand before it, and a node that is no step leads to the step at which it goes on.
//! [`number_nodes`] gives these numbers for all nodes of a body, and [`make_steps`] the steps, each with the numbers of
//! those that follow it. A body that comes past its last step owes a value.
//!
//! Law `all_steps_stand`: each step stands at the number of its node.
//!
//! Both give what the definitions give, also where nodes skip past the end or go back for ever. Want of memory alone is
//! free, and so is a body with more than 4,294,967,295 steps, locals or fields, for which a unit has no numbers. They
//! take time as the nodes are many, where the first node of each loop leads forward to a step.
#![tactic(auto)]

mod called;
mod counts;
mod expression;
mod flow;
mod flows;
mod follow;
mod laws;
mod naming;
mod numbers;
mod reach;
mod step;
mod steps;

pub use flow::Flow;
pub use flows::node_flows;
pub use follow::number_nodes;
pub use laws::all_steps_stand;
pub use naming::Naming;
pub use numbers::StepNumbers;
pub use steps::{BodySteps, make_steps};
