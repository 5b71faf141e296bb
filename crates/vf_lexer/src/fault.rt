//! Why a text has no tokens.

use vf_base::{Memory, Place};

/// Why `lex` gives no tokens.
#[derive(Clone, Copy, Debug, PartialEq, Eq)]
pub enum LexFault {
    /// The first byte at which no token can start or continue.
    Lex(Place),
    /// There was not enough memory.
    Memory,
}

impl From<Memory> for LexFault {
    ghost use Rattle.std.specs.Prelude.{◌≡◌};
    ghost use Rattle.vf_lexer.specs.declared.fault.LexFault.TheVariants as faults;

    ghost from_gives = { λ _ e. e ≡ faults.Memory };

    fn from(_: Memory) -> LexFault {
        LexFault::Memory
    }
}
