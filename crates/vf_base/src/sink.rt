//! Where bytes are written to.

ghost use Rattle.std.specs.Prelude.{◌≡◌, ℕ, List, Option, ◌<◌, ◌≤◌, length, take, IfOk, OnOk, OnErr, IsErrOf};
ghost use Rattle.vf_base.specs.Outside.{Rose, Takes, TakesFront};

use crate::memory::Memory;
use std::alloc::AllocError;

/// A place that takes bytes in order.
///
/// Contracts see the list of the bytes that it took, where it tells them, and a count of its failures
/// that never falls.
pub trait Sink {
    // The bytes that it took, where it tells them.
    ghost taken: { Self → Option (List ℕ) };

    // How many writes failed, or took nothing of a piece that is not empty.
    ghost failures: { Self → ℕ };

    /// Takes bytes of the front of a piece, and says how many.
    fn write(&mut self, bytes: &[u8]) -> Result<usize, SinkFault>
        ensures bounded { IfOk result (λ n. n ≤ length bytes.now) }
        ensures ok { IfOk result (λ n. Takes (taken self.old) (taken self.new) (take n bytes.now)) }
        ensures nothing { IfOk result (λ n. n ≡ 0 → 0 < length bytes.now → Rose (failures self.old) (failures self.new)) }
        ensures failed { IsErrOf result SinkFault.Failed → Rose (failures self.old) (failures self.new) }
        ensures err { OnErr result (taken self.new ≡ taken self.old) }
        ensures failures_never_fall { failures self.old ≤ failures self.new };
}

/// Why no byte was taken.
#[derive(Clone, Copy, Debug, PartialEq, Eq)]
pub enum SinkFault {
    /// The bytes could not be written.
    Failed,
    /// There was no memory for them.
    Memory,
}

impl From<Memory> for SinkFault {
    ghost use Rattle.std.specs.Prelude.{◌≡◌};
    ghost use Rattle.vf_base.specs.declared.sink.SinkFault.TheVariants as faults;

    ghost from_gives = { λ _ e. e ≡ faults.Memory };

    fn from(_: Memory) -> SinkFault {
        SinkFault::Memory
    }
}

impl From<AllocError> for SinkFault {
    ghost use Rattle.std.specs.Prelude.{◌≡◌};
    ghost use Rattle.vf_base.specs.declared.sink.SinkFault.TheVariants as faults;

    ghost from_gives = { λ _ e. e ≡ faults.Memory };

    fn from(_: AllocError) -> SinkFault {
        SinkFault::Memory
    }
}

/// Writes a whole piece, by as many writes as that takes. A sink that takes nothing has failed.
pub fn write_all<S: Sink>(out: &mut S, piece: &[u8]) -> Result<(), SinkFault>
    ensures ok { OnOk result (Takes (S.taken out.old) (S.taken out.new) piece.now) }
    ensures front { TakesFront (S.taken out.old) (S.taken out.new) piece.now }
    ensures failed { IsErrOf result SinkFault.Failed → Rose (S.failures out.old) (S.failures out.new) }
    ensures failures_never_fall { S.failures out.old ≤ S.failures out.new }
{
    let mut at = 0;
    while at < piece.len() {
        let count = out.write(&piece[at..])?;
        if count == 0 {
            return Err(SinkFault::Failed);
        }
        at += count;
    }
    Ok(())
}
