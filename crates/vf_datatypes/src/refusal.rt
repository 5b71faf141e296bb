//! Refusals.

ghost use Rattle.std.specs.Prelude.{◌≡◌};
ghost use Rattle.vf_sorting.specs.Refusals.{refused};

use vf_base::{Place, Refusal, Rule, Shown};

/// A refusal by a rule at a place, which shows nothing else.
pub fn refused(rule: Rule, place: Place) -> Refusal
    ensures { result ≡ refused rule place }
{
    Refusal {
        rule,
        place,
        shown: Shown::Nothing,
    }
}
