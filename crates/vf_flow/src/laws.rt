//! What is claimed of the steps of a body.

ghost use Rattle.vf_flow.specs.Laws.{AllStepsStand};

/// There are as many steps as nodes that are steps, and each stands at the number of its node.
pub fn all_steps_stand()
    ensures { AllStepsStand }
{}
