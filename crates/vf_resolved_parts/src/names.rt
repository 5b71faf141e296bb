//! Names by their numbers, and the symbols that stand for them.

ghost use Rattle.std.specs.Prelude.{◌≡◌};
ghost use Rattle.vf_resolved_parts.specs.Names.{kind_for, slot_for, symbol_for};

use std::alloc::Global;
use vf_formula::{Head, Kind, Name, Term};
use vf_resolved::pattern::Slot;
use vf_sorts::{Head as SortHead, Sort};

/// The kind of the terms of a sort.
pub fn kind_for(sort: &Sort) -> Kind
    ensures { result ≡ kind_for sort.now }
{
    match sort.head {
        SortHead::Int => Kind::Integer,
        _ => Kind::Other,
    }
}

/// The name with a number, which has a sort.
pub fn slot_for(number: usize, sort: &Sort) -> Slot
    ensures { result ≡ slot_for number sort.now }
{
    Slot {
        number,
        kind: kind_for(sort),
    }
}

/// The symbol of a name.
pub fn symbol_for(alloc: Global, slot: Slot) -> Term
    ensures { result ≡ symbol_for slot }
{
    Term::leaf(
        alloc,
        Head::Symbol(slot.kind, Name::Numbered(slot.number as u64)),
    )
}
