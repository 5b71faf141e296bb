//! The step that a node leads to.

ghost use Rattle.std.specs.Prelude.{◌≡◌, ℕ, ◌+◌, ◌≤◌, length, slice_get, IfOk};
ghost use Rattle.vf_flow.specs.Leads.{comes_to, step_number};
ghost use Rattle.vf_flow.specs.Shown.{come_to, number_in};
ghost use Rattle.vf_flow.specs.Tables.{Lists, reached_backward, steps_before};

use crate::counts::count_steps;
use crate::flow::Flow;
use crate::numbers::StepNumbers;
use crate::reach::{number_or, reach_all};
use std::alloc::Global;
use vf_base::{Memory, Sequence};

/// What comes behind a node that was reached.
#[derive(Clone, Copy)]
enum Way {
    /// The step of this number, or the end behind all steps.
    Ends(u32),
    /// A node before, at which it goes on.
    Back(usize),
}

/// The way on from a node that was reached, by how many steps stand before each node.
fn way_from(flows: &Sequence<Flow>, counts: &StepNumbers, at: usize) -> Way
    requires { (i : ℕ) → number_in counts.now i ≡ steps_before flows.now i }
    ensures comes { (before : ℕ → ℕ) → come_to before result ≡ comes_to flows.now before at (slice_get flows.now at) }
    ensures within { (i : ℕ) → result ≡ Way.Back i → i ≤ at }
{
    match flows.get(at) {
        Some(Flow::Step | Flow::Skip(_)) => Way::Ends(counts.at(at)),
        Some(Flow::Back(by)) => Way::Back(at.saturating_sub(*by)),
        Some(Flow::End) | None => Way::Ends(counts.at(flows.len())),
    }
}

/// The number of the step that a node leads to, by how many steps stand before each node, and by which nodes are
/// reached, in backward order.
fn follow(flows: &Sequence<Flow>, counts: &StepNumbers, all: &Sequence<usize>, node: usize) -> u32
    requires counts { (i : ℕ) → number_in counts.now i ≡ steps_before flows.now i }
    requires size { length all.now ≡ length flows.now + 1 }
    requires all { Lists (reached_backward flows.now) all.now }
    requires within { node ≤ length flows.now }
    ensures { result ≡ step_number flows.now node }
{
    let end = flows.len();
    let mut at = node;
    for turn in 0..end {
        let reached = number_or(all, end - at, end);
        let way = way_from(flows, counts, reached);
        match way {
            Way::Ends(number) => return number,
            Way::Back(before) => at = before,
        }
    }
    counts.at(end)
}

/// The number of the step that each node of a body leads to, and that of what is behind all steps.
///
/// # Errors
///
/// Where memory ran out, or there are more steps than a unit has numbers for.
pub fn number_nodes(alloc: Global, flows: &Sequence<Flow>) -> Result<StepNumbers, Memory>
    ensures { IfOk result (λ s. (i : ℕ) → number_in s i ≡ step_number flows.now i) }
{
    let counts = count_steps(alloc, flows)?;
    let all = reach_all(alloc, flows)?;
    let mut numbers = Sequence::new(alloc);
    for node in 0..flows.len() {
        let number = follow(flows, &counts, &all, node);
        numbers.push(number)?;
    }
    let end = counts.at(flows.len());
    Ok(StepNumbers::new(numbers, end))
}
