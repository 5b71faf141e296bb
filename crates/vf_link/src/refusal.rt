//! Why manifests do not link.

ghost use Rattle.std.specs.Prelude.{◌≡◌};
ghost use Rattle.vf_link.specs.Refusals.{rule_of, shown_of};

use vf_base::{Memory, Rule, Shown, Text};

/// The first clause of linking that fails. Identities are told by their texts: path, `#` and name.
#[derive(Debug, Drop)]
pub enum LinkRefusal {
    /// So many mains are provided, which are not one.
    NoMain { count: u64 },
    /// This identity is provided twice.
    Duplicate { identity: Text },
    /// The body of this predicate or struct, or the instance of this family at a function, stands in two files.
    TwoBodies { identity: Text },
    /// This header has two digests.
    HeaderDiffers { path: Text },
    /// This identity is required and not provided.
    Unmet { identity: Text },
    /// This identity is provided with a signature that does not agree with one with which it is required.
    Signature { identity: Text },
    /// This lemma calls itself, directly or through others.
    LemmaCycle { identity: Text },
}

impl LinkRefusal {
    /// The rule by which manifests are refused so.
    pub fn rule(&self) -> Rule
        ensures { result ≡ rule_of self.now }
    {
        match self {
            LinkRefusal::NoMain { .. } => Rule::NoMain,
            LinkRefusal::Duplicate { .. } => Rule::Duplicate,
            LinkRefusal::TwoBodies { .. } => Rule::TwoBodies,
            LinkRefusal::HeaderDiffers { .. } => Rule::HeaderDiffers,
            LinkRefusal::Unmet { .. } => Rule::Unmet,
            LinkRefusal::Signature { .. } => Rule::Signature,
            LinkRefusal::LemmaCycle { .. } => Rule::LemmaCycle,
        }
    }

    /// What is shown of it.
    pub fn into_shown(self) -> Shown
        ensures { result ≡ shown_of self }
    {
        match self {
            LinkRefusal::NoMain { count } => Shown::Count(count),
            LinkRefusal::HeaderDiffers { path } => Shown::Name(path),
            LinkRefusal::Duplicate { identity }
            | LinkRefusal::TwoBodies { identity }
            | LinkRefusal::Unmet { identity }
            | LinkRefusal::Signature { identity }
            | LinkRefusal::LemmaCycle { identity } => Shown::Name(identity),
        }
    }
}

/// Why manifests were not linked.
#[derive(Debug, Drop)]
pub enum LinkFault {
    /// They do not link.
    Refused(LinkRefusal),
    Memory,
}

impl From<Memory> for LinkFault {
    ghost use Rattle.std.specs.Prelude.{◌≡◌};
    ghost use Rattle.vf_link.specs.declared.refusal.LinkFault.TheVariants as faults;

    ghost from_gives = { λ _ e. e ≡ faults.Memory };

    fn from(_: Memory) -> LinkFault {
        LinkFault::Memory
    }
}
