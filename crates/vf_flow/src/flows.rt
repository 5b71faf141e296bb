//! What the nodes of a body are to the machine.

ghost use Rattle.std.specs.Prelude.{◌≡◌, IfOk};
ghost use Rattle.vf_steps.specs.Shown.{action_of, nodes_of};
ghost use Rattle.vf_flow.specs.Steps.{flow_of, flows_of};

use crate::flow::Flow;
use std::alloc::Global;
use vf_base::{Memory, Sequence};
use vf_steps::{Action, Node};

/// What a node that does something is to the machine.
fn flow_of(action: &Action<'_>) -> Flow
    ensures { result ≡ flow_of (action_of action.now) }
{
    match action {
        Action::Jump(by) => Flow::Skip(*by),
        Action::Unset(_) | Action::Ghost(_) | Action::Loop { .. } | Action::Exit => Flow::Skip(0),
        Action::Back(by) => Flow::Back(*by),
        Action::NoReturn => Flow::End,
        _ => Flow::Step,
    }
}

/// What the nodes of a body are to the machine.
pub fn node_flows(alloc: Global, nodes: &Vec<Node<'_>>) -> Result<Sequence<Flow>, Memory>
    ensures { IfOk result (λ fs. fs ≡ flows_of (nodes_of nodes.now.items)) }
{
    let mut all = Sequence::new(alloc);
    for node in nodes {
        all.push(flow_of(&node.action))?;
    }
    Ok(all)
}
