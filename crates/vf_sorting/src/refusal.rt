//! Refusals.

ghost use Rattle.std.specs.Prelude.{◌≡◌};
ghost use Rattle.vf_base.specs.declared.refusal.RuleFault.TheVariants.{Refused};
ghost use Rattle.vf_sorting.specs.Refusals.{refused};

use vf_base::{Place, Refusal, Rule, RuleFault, Shown};

/// A refusal by a rule at a place, which shows nothing else.
pub fn refused(rule: Rule, place: Place) -> RuleFault
    ensures { result ≡ Refused (refused rule place) }
{
    RuleFault::Refused(Refusal {
        rule,
        place,
        shown: Shown::Nothing,
    })
}
