//! Why a unit has no text.

ghost use Rattle.std.specs.Prelude.{◌≡◌};
ghost use Rattle.vf_base.specs.declared.refusal.Shown.TheVariants as shown;
ghost use Rattle.vf_base.specs.declared.rule.Rule.TheVariants as rules_of;
ghost use Rattle.vf_preproc.specs.declared.fault.ExpandFault.TheVariants as faults;

use std::alloc::{AllocError, AllocFailed};
use vf_base::{Memory, Place, Refusal, Rule, Shown};

/// Why `expand` gives no unit.
#[derive(Debug, Drop)]
pub enum ExpandFault {
    /// The named file is missing.
    Missing,
    /// A file could not be read.
    ReadFault,
    /// By rule 1, 2, 3 or 43.
    Refused(Refusal),
    Memory,
}

impl ExpandFault {
    /// A refusal by a rule at a place, which shows nothing beside them.
    pub fn refusal(rule: Rule, place: Place) -> ExpandFault
        ensures { result ≡ faults.Refused (record { rule = rule; place = place; shown = shown.Nothing }) }
    {
        ExpandFault::Refused(Refusal {
            rule,
            place,
            shown: Shown::Nothing,
        })
    }

    /// A refusal of a directive.
    pub fn directive(place: Place) -> ExpandFault
        ensures { result ≡ faults.Refused (record { rule = rules_of.Directive; place = place; shown = shown.Nothing }) }
    {
        ExpandFault::refusal(Rule::Directive, place)
    }
}

impl From<Memory> for ExpandFault {
    ghost use Rattle.std.specs.Prelude.{◌≡◌};
    ghost use Rattle.vf_preproc.specs.declared.fault.ExpandFault.TheVariants as faults;

    ghost from_gives = { λ _ e. e ≡ faults.Memory };

    fn from(_: Memory) -> ExpandFault {
        ExpandFault::Memory
    }
}

impl From<AllocError> for ExpandFault {
    ghost use Rattle.std.specs.Prelude.{◌≡◌};
    ghost use Rattle.vf_preproc.specs.declared.fault.ExpandFault.TheVariants as faults;

    ghost from_gives = { λ _ e. e ≡ faults.Memory };

    fn from(_: AllocError) -> ExpandFault {
        ExpandFault::Memory
    }
}

impl<T: Drop> From<AllocFailed<T>> for ExpandFault {
    ghost use Rattle.std.specs.Prelude.{◌≡◌};
    ghost use Rattle.vf_preproc.specs.declared.fault.ExpandFault.TheVariants as faults;

    ghost from_gives = { λ _ e. e ≡ faults.Memory };

    fn from(_: AllocFailed<T>) -> ExpandFault {
        ExpandFault::Memory
    }
}
