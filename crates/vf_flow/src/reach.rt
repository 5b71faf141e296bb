//! Which nodes are reached forward.

ghost use Rattle.std.specs.Prelude.{◌≡◌, ◌+◌, ◌-◌, length, get_or, option_map, unwrap_or, IfOk};
ghost use Rattle.vf_flow.specs.Tables.{Lists, reached_backward};

use crate::flow::{Flow, flow_at};
use std::alloc::Global;
use vf_base::{Memory, Sequence};

/// The number at an index of a list, and another where there is none.
pub fn number_or(list: &Sequence<usize>, at: usize, other: usize) -> usize
    ensures { result ≡ get_or list.now at other }
{
    match list.get(at) {
        Some(number) => *number,
        None => other,
    }
}

/// Which node is reached from one, behind which so many are done, where it may skip some of them.
fn reach(all: &Sequence<usize>, at: usize, done: usize, skipped: Option<usize>, end: usize) -> usize
    ensures { result ≡ unwrap_or (option_map (λ k. get_or all.now (done - k) end) skipped) at }
{
    match skipped {
        Some(by) => number_or(all, done.saturating_sub(by), end),
        None => at,
    }
}

/// Which node is reached from each node, in backward order: from the end first, and from the first node last.
///
/// Each is found by those behind it.
pub fn reach_all(alloc: Global, flows: &Sequence<Flow>) -> Result<Sequence<usize>, Memory>
    ensures size { IfOk result (λ all. length all ≡ length flows.now + 1) }
    ensures right { IfOk result (λ all. Lists (reached_backward flows.now) all) }
{
    let count = flows.len();
    let mut all = Sequence::new(alloc);
    all.push(count)?;
    for done in 0..count {
        let at = count - 1 - done;
        let flow = flow_at(flows, at);
        let skipped = flow.skips();
        let reached = reach(&all, at, done, skipped, count);
        all.push(reached)?;
    }
    Ok(all)
}
