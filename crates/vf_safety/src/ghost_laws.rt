//! The law of ghost steps. The function does nothing; its contract is the law.

ghost use Rattle.vf_safety.specs.GhostLaws.{GhostStepsKeep};

/// Ghost steps change nothing of what a state stands for.
pub fn ghost_steps_keep()
    ensures { GhostStepsKeep }
{}
