//! Which datatypes stand in items.

ghost use Rattle.std.specs.Prelude.{◌≡◌, IfOk};
ghost use Rattle.std.specs.Option.{option_copied};
ghost use Rattle.vf_gathering.specs.Named as named;
ghost use Rattle.vf_gathering.specs.Standing.{Tells, no_names, with_names};

use crate::standing::{no_names, with_optional};
use std::alloc::Global;
use vf_base::{Memory, Sequence};
use vf_datatypes::Stated;
use vf_syntax::item::{GhostForm, Item};
use vf_syntax::written::Name;

/// The name of the datatype that an item declares.
fn datatype_of(item: &Item) -> Option<&Name>
    ensures { option_copied result ≡ named.datatype_of item.now }
{
    match item {
        Item::Ghost(annotation) => match &annotation.form {
            GhostForm::Inductive(name, _, _, _) => Some(name),
            _ => None,
        },
        _ => None,
    }
}

/// The names of the datatypes that items declare, each with the files in which one of that name stands.
#[tactic(auto, using(crate::proofs::Tables::all_told))]
pub fn datatypes_of(alloc: Global, items: &Sequence<Item>) -> Result<Stated, Memory>
    ensures tells { IfOk result (λ d. Tells (named.datatypes_in items.now) d) }
    ensures is { IfOk result (λ d. d ≡ with_names no_names (named.datatypes_in items.now)) }
{
    let mut stated = no_names(alloc);
    for item in items.as_slice() {
        with_optional(alloc, &mut stated, datatype_of(item))?;
    }
    Ok(stated)
}
