//! Laws about units and their plain readings. Each function does nothing; its contract is the law.

ghost use Rattle.vf_lowering.specs.Orders.{OrdersArePlain};

/// A unit and its plain reading are refused at the same place since the order of two operands matters, or both are not.
#[tactic(auto, using(crate::proofs::Orders::orders_are_plain))]
pub fn orders_are_plain()
    ensures { OrdersArePlain }
{}
