//! Items and units.

ghost use Rattle.std.specs.Prelude.{◌≡◌};
ghost use Rattle.vf_order.specs.Statements.{first_unordered, unordered_item};

use crate::stmt::unordered_statements;
use vf_base::Place;
use vf_syntax::item::{Item, Unit};

/// Where an item is refused first.
fn unordered_item(item: &Item) -> Option<Place>
    ensures { result ≡ unordered_item item.now }
{
    match item {
        Item::Function(_, _, _, body) => unordered_statements(&body.statements),
        _ => None,
    }
}

/// The first place of a unit where the order of two operands matters.
#[tactic(auto, using(crate::proofs::Loops::items_none, crate::proofs::Loops::items_end))]
pub fn first_unordered(unit: &Unit) -> Option<Place>
    ensures { result ≡ first_unordered unit.now.items }
{
    let mut refused = None;
    for at in 0..unit.items.len() {
        let Some(item) = unit.items.get(at) else {
            return refused;
        };
        let found = unordered_item(item);
        refused = refused.or(found);
    }
    refused
}
