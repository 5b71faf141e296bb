//! Refusals.

use crate::memory::Memory;
use crate::place::Place;
use crate::rule::Rule;
use crate::text::Text;

/// What a refusal shows beside its rule and its place.
#[derive(Debug, Drop)]
pub enum Shown {
    Nothing,
    /// An identity or a path.
    Name(Text),
    Count(u64),
}

/// Why a file is refused, and where.
#[derive(Debug, Drop)]
pub struct Refusal {
    pub rule: Rule,
    pub place: Place,
    pub shown: Shown,
}

/// Why a call that follows the rules gives no result.
#[derive(Debug, Drop)]
pub enum RuleFault {
    Refused(Refusal),
    Memory,
}

impl From<Memory> for RuleFault {
    ghost use Rattle.std.specs.Prelude.{◌≡◌};
    ghost use Rattle.vf_base.specs.declared.refusal.RuleFault.TheVariants as faults;

    ghost from_gives = { λ _ e. e ≡ faults.Memory };

    fn from(_: Memory) -> RuleFault {
        RuleFault::Memory
    }
}

impl From<Refusal> for RuleFault {
    ghost use Rattle.std.specs.Prelude.{◌≡◌};
    ghost use Rattle.vf_base.specs.declared.refusal.RuleFault.TheVariants as faults;

    ghost from_gives = { λ refusal e. e ≡ faults.Refused refusal };

    fn from(refusal: Refusal) -> RuleFault {
        RuleFault::Refused(refusal)
    }
}
