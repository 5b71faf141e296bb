//! Laws about what is counted. Each function does nothing; its contract is the law.

ghost use Rattle.vf_local_numbers.specs.Laws.{CountingIsLowering};

/// Behind each statement what is counted stands where lowering stands, and so does the number of the next local.
#[tactic(auto, using(crate::proofs::Agreeing::counting_is_lowering))]
pub fn counting_is_lowering()
    ensures { CountingIsLowering }
{}
