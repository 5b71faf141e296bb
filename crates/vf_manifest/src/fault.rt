//! Why a text is no manifest's.

use vf_base::Memory;

/// Why `read_manifest` gives no manifest.
#[derive(Clone, Copy, Debug, PartialEq, Eq)]
pub enum ManifestFault {
    /// The text is no manifest's, and this is the first line, counted from 1, that can't stand where it stands.
    Syntax { line: u32 },
    Memory,
}

impl From<Memory> for ManifestFault {
    ghost use Rattle.std.specs.Prelude.{◌≡◌};
    ghost use Rattle.vf_manifest.specs.declared.fault.ManifestFault.TheVariants as faults;

    ghost from_gives = { λ _ e. e ≡ faults.Memory };

    fn from(_: Memory) -> ManifestFault {
        ManifestFault::Memory
    }
}

/// Why a word or a line was not read.
#[derive(Clone, Copy)]
pub enum WordFault {
    /// It is not of the form that is wanted.
    Syntax,
    Memory,
}

impl From<Memory> for WordFault {
    ghost use Rattle.std.specs.Prelude.{◌≡◌};
    ghost use Rattle.vf_manifest.specs.declared.fault.WordFault.TheVariants as faults;

    ghost from_gives = { λ _ e. e ≡ faults.Memory };

    fn from(_: Memory) -> WordFault {
        WordFault::Memory
    }
}
