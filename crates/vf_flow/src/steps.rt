//! The steps of a body.

ghost use Rattle.std.specs.Prelude.{◌≡◌, ℕ, ◌++◌, map, option_map, option_to_list, IfOk, OnOk};
ghost use Rattle.vf_core.specs.Shown.{step_of};
ghost use Rattle.vf_steps.specs.Core.{step_tree};
ghost use Rattle.vf_steps.specs.Shown.{action_of, nodes_of};
ghost use Rattle.vf_flow.specs.Shown.{number_in};
ghost use Rattle.vf_flow.specs.Named.{naming_of};
ghost use Rattle.vf_flow.specs.Steps.{number_of, renumbered, steps_from, steps_of};

use crate::flows::node_flows;
use crate::follow::number_nodes;
use crate::naming::Naming;
use crate::numbers::StepNumbers;
use crate::step::core_step;
use std::alloc::Global;
use vf_base::{Memory, Sequence};
use vf_core::CoreStep;
use vf_steps::Node;

/// The steps of a body, and the number of the step that each of its nodes leads to.
#[derive(Debug, Drop)]
pub struct BodySteps {
    pub steps: Sequence<CoreStep>,
    pub numbers: StepNumbers,
}

/// Adds the step of a node at an index, if it is one.
fn add_step(
    alloc: Global,
    naming: &Naming<'_>,
    numbers: &StepNumbers,
    steps: &mut Sequence<CoreStep>,
    at: usize,
    node: &Node<'_>,
) -> Result<(), Memory>
    ensures { OnOk result (map (step_of naming.now.names.now) steps.new ≡ map (step_of naming.now.names.now) steps.old ++ option_to_list (option_map (renumbered (number_in numbers.now)) (step_tree (naming_of naming.now) at (action_of node.now.action)))) }
{
    if let Some(step) = core_step(alloc, naming, numbers, at, &node.action)? {
        steps.push(step)?;
    }
    Ok(())
}

/// The steps of nodes in order, by the numbers of the steps that they lead to.
fn all_steps(
    alloc: Global,
    naming: &Naming<'_>,
    numbers: &StepNumbers,
    nodes: &Vec<Node<'_>>,
) -> Result<Sequence<CoreStep>, Memory>
    ensures { IfOk result (λ steps. map (step_of naming.now.names.now) steps ≡ steps_from (naming_of naming.now) (number_in numbers.now) 0 (nodes_of nodes.now.items)) }
{
    let mut steps = Sequence::new(alloc);
    for at in 0..nodes.len() {
        add_step(alloc, naming, numbers, &mut steps, at, &nodes[at])?;
    }
    Ok(steps)
}

/// The steps of a body whose functions, structs and function types have names.
///
/// # Errors
///
/// Where memory ran out, or a number is too great for a unit.
pub fn make_steps(
    alloc: Global,
    naming: &Naming<'_>,
    nodes: &Vec<Node<'_>>,
) -> Result<BodySteps, Memory>
    ensures steps { IfOk result (λ b. map (step_of naming.now.names.now) b.steps ≡ steps_of (naming_of naming.now) (nodes_of nodes.now.items)) }
    ensures numbers { IfOk result (λ b. (i : ℕ) → number_in b.numbers i ≡ number_of (nodes_of nodes.now.items) i) }
{
    let flows = node_flows(alloc, nodes)?;
    let numbers = number_nodes(alloc, &flows)?;
    let steps = all_steps(alloc, naming, &numbers, nodes)?;
    Ok(BodySteps { steps, numbers })
}
