//! Why tokens are no unit.

ghost use Rattle.std.specs.Prelude.{◌≡◌};
ghost use Rattle.vf_parse_real.specs.Faults.{place_at, fault_of, stop_of};

use vf_base::{Memory, Place};
use vf_cursor::fault::{Fault, Stop};
use vf_lexer::Token;

/// Why tokens are no unit.
#[derive(Clone, Copy, Debug, PartialEq, Eq)]
pub enum ParseFault {
    /// A token that the language names as one that it has not.
    Unsupported(Place),
    /// A token that can't stand there, or the end of the file.
    Syntax(Place),
    /// A token that stands too deep.
    Depth(Place),
    /// There was no memory for the tree.
    Memory,
}

impl From<Memory> for ParseFault {
    ghost use Rattle.std.specs.Prelude.{◌≡◌};
    ghost use Rattle.vf_parse_real.specs.declared.fault.ParseFault.TheVariants as parse_faults;

    ghost from_gives = { λ _ e. e ≡ parse_faults.Memory };

    fn from(_: Memory) -> ParseFault {
        ParseFault::Memory
    }
}

/// The place of the token with which so many tokens are left, or the end of the file where none is.
fn place_at(tokens: &[Token], end: Place, left: usize) -> Place
    ensures { result ≡ place_at tokens.now end left }
{
    let count = tokens.len();
    let at = if left <= count { count - left } else { 0 };
    match tokens.get(at) {
        Some(token) => token.place,
        None => end,
    }
}

fn fault_of(tokens: &[Token], end: Place, fault: Fault) -> ParseFault
    ensures { result ≡ fault_of tokens.now end fault }
{
    match fault {
        Fault::Syntax(left) => ParseFault::Syntax(place_at(tokens, end, left)),
        Fault::Depth(left) => ParseFault::Depth(place_at(tokens, end, left)),
    }
}

/// Why reading stopped, by its place.
pub fn stop_of(tokens: &[Token], end: Place, stop: Stop) -> ParseFault
    ensures { result ≡ stop_of tokens.now end stop }
{
    match stop {
        Stop::Memory => ParseFault::Memory,
        Stop::Fault(fault) => fault_of(tokens, end, fault),
    }
}
