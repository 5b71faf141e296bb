//! How many of the nodes of a body are steps.

ghost use Rattle.std.specs.Prelude.{◌≡◌, ℕ, suc, ◌<◌, if◌then◌else◌, IfOk};
ghost use Rattle.vf_flow.specs.Leads.{is_step};
ghost use Rattle.vf_flow.specs.Shown.{number_in};
ghost use Rattle.vf_flow.specs.Tables.{steps_before};

use crate::flow::{Flow, flow_at};
use crate::numbers::{StepNumbers, narrow};
use std::alloc::Global;
use vf_base::{Memory, Sequence};

/// One more, where a node is a step.
fn counted(count: usize, flow: Flow) -> usize
    requires { count < 18446744073709551615 }
    ensures { result ≡ (if is_step flow then suc count else count) }
{
    if flow.is_step() { count + 1 } else { count }
}

/// How many steps stand before each node, and how many there are.
pub fn count_steps(alloc: Global, flows: &Sequence<Flow>) -> Result<StepNumbers, Memory>
    ensures { IfOk result (λ s. (i : ℕ) → number_in s i ≡ steps_before flows.now i) }
{
    let mut numbers = Sequence::new(alloc);
    let mut count = 0;
    for at in 0..flows.len() {
        let number = narrow(count)?;
        numbers.push(number)?;
        let flow = flow_at(flows, at);
        count = counted(count, flow);
    }
    let end = narrow(count)?;
    Ok(StepNumbers::new(numbers, end))
}
