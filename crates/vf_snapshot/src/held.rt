//! What a snapshot holds of a path.

use std::alloc::AllocError;
use vf_base::{Memory, Text};

/// What is known of a path.
#[derive(Debug, Drop)]
pub enum Held {
    /// Its file has these bytes, at most 1,048,576.
    Bytes(Text),
    /// Its file has more bytes.
    TooLong,
    /// There is no file.
    Missing,
}

/// Why a snapshot gives no file.
#[derive(Clone, Copy, Debug, PartialEq, Eq)]
pub enum SnapFault {
    /// There is no file at the path.
    Missing,
    /// The file could not be read.
    ReadFault,
    /// The file with this number has more than 1,048,576 bytes.
    TooLong(u32),
    Memory,
}

impl From<Memory> for SnapFault {
    ghost use Rattle.std.specs.Prelude.{◌≡◌};
    ghost use Rattle.vf_snapshot.specs.declared.held.SnapFault.TheVariants as faults;

    ghost from_gives = { λ _ e. e ≡ faults.Memory };

    fn from(_: Memory) -> SnapFault {
        SnapFault::Memory
    }
}

impl From<AllocError> for SnapFault {
    ghost use Rattle.std.specs.Prelude.{◌≡◌};
    ghost use Rattle.vf_snapshot.specs.declared.held.SnapFault.TheVariants as faults;

    ghost from_gives = { λ _ e. e ≡ faults.Memory };

    fn from(_: AllocError) -> SnapFault {
        SnapFault::Memory
    }
}
