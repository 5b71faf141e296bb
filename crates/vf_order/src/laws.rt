//! A law about refusals. The function does nothing; its contract is the law.

ghost use Rattle.vf_order.specs.Ordered.{RefusalsAreOfPairs};

/// An expression is refused nowhere exactly where no two operands anywhere in it are out of order.
pub fn refusals_are_of_pairs()
    ensures { RefusalsAreOfPairs }
{}
