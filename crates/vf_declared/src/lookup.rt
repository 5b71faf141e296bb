//! Look-ups in lists.

ghost use Rattle.std.specs.Prelude.{◌≡◌};
ghost use Rattle.std.specs.Option.{option_copied};
ghost use Rattle.vf_declared.specs.Scopes.{at_name, has};

use vf_base::{NumberList, Sequence, Text};
use vf_names::Names;

/// The item that stands beside a name.
pub fn at_name<'a, T>(names: &Names, items: &'a Sequence<T>, name: &Text) -> Option<&'a T>
    ensures { option_copied result ≡ at_name names.now items.now name.now }
{
    let number = names.number(name.as_bytes())?;
    items.get(number)
}

/// Whether a number is one of some.
#[tactic(auto, using(crate::proofs::Loops::has_here, crate::proofs::Loops::has_more, crate::proofs::Loops::has_none, crate::proofs::Loops::has_end))]
pub fn has(numbers: &NumberList, number: u64) -> bool
    ensures { result ≡ has numbers.now number }
{
    for at in 0..numbers.len() {
        let Some(one) = numbers.get(at) else {
            return false;
        };
        if *one == number {
            return true;
        }
    }
    false
}
