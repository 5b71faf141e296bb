//! Laws of literals. The function does nothing; its contract is the law.

ghost use Rattle.vf_equality.specs.Laws.{ComparisonsCanBeAsked};

/// The literal of each comparison of two plain terms can be asked.
pub fn comparisons_can_be_asked()
    ensures { ComparisonsCanBeAsked }
{}
