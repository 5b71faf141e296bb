//! Laws of steps. Each function does nothing; its contract is the law.

ghost use Rattle.vf_run.specs.Making.{QuietStepsMakeNothing};

/// A read, a write, a release, a return, a test or a step of locals alone makes nothing: no block, cell,
/// thread, frame or output. So the machine takes it outright.
pub fn quiet_steps_make_nothing()
    ensures { QuietStepsMakeNothing }
{}
