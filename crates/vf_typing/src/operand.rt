//! What typing keeps of an expression.

ghost use Rattle.std.specs.Prelude.{◌≡◌, Ok, Err};
ghost use Rattle.vf_typing.specs.Operands.{used, value};
ghost use Rattle.vf_typing.specs.Refusals.{refused};

use crate::refusal::refused;
use crate::types::is_void;
use vf_base::{Place, Refusal, Rule};
use vf_declared::ctype::CType;

/// Of an expression: the place of its first token, its type, and whether it is a `0`, which is the null pointer where a
/// pointer is wanted.
#[derive(Clone, Copy, Debug)]
pub struct Operand {
    pub place: Place,
    pub ctype: CType,
    pub is_null: bool,
}

impl Operand {
    /// What is kept of an expression that is no `0`.
    pub fn value(place: Place, ctype: CType) -> Operand
        ensures { result ≡ value place ctype }
    {
        Operand {
            place,
            ctype,
            is_null: false,
        }
    }

    /// This, where it has a value.
    pub fn used(self) -> Result<Operand, Refusal>
        ensures { result ≡ used (Ok self) }
    {
        if is_void(self.ctype) {
            return Err(refused(Rule::Typing, self.place));
        }
        Ok(self)
    }
}
