//! The phase of the order of operands.

ghost use Rattle.std.specs.Prelude.{◌≡◌, MatchResult, None, Some};
ghost use Rattle.vf_order.specs.Statements.{first_unordered};
ghost use Rattle.vf_phases.specs.Phases.{IsRefusedAt};
ghost use Rattle.vf_base.specs.declared.rule.Rule.TheVariants.{Order};

use vf_base::{Refusal, Rule, Shown};
use vf_order::first_unordered;
use vf_syntax::item::Unit;

/// Whether the order of no two operands of a unit matters.
pub fn check_order(unit: &Unit) -> Result<(), Refusal>
    ensures { MatchResult result
        (λ _. first_unordered unit.now.items ≡ None)
        (IsRefusedAt Order (first_unordered unit.now.items)) }
{
    match first_unordered(unit) {
        Some(place) => Err(Refusal {
            rule: Rule::Order,
            place,
            shown: Shown::Nothing,
        }),
        None => Ok(()),
    }
}
