//! Why a part of a tree gives nothing.

use vf_base::Memory;

/// Why a part of a tree gives nothing.
#[derive(Clone, Copy, Debug)]
pub enum Stop {
    /// It is not of the first form.
    Other,
    Memory,
}

impl From<Memory> for Stop {
    ghost use Rattle.std.specs.Prelude.{◌≡◌};
    ghost use Rattle.vf_first.specs.declared.stop.Stop.TheVariants as stops;

    ghost from_gives = { λ _ e. e ≡ stops.Memory };

    fn from(_: Memory) -> Stop {
        Stop::Memory
    }
}
