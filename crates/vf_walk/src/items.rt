//! Items of a unit.

ghost use Rattle.std.specs.Prelude.{◌≡◌};
ghost use Rattle.vf_walk.specs.Items.{WalksItem, WalksItems};
ghost use Rattle.vf_walk.specs.Walking.{Follows};

use crate::annotations::Annotations;
use crate::function::{walk_definition, walk_prototype};
use crate::function_type::walk_function_type;
use crate::structure::{walk_struct, walk_struct_name};
use std::alloc::Global;
use vf_base::{RuleFault, Sequence};
use vf_declared::scope::Scope;
use vf_syntax::item::Item;

/// Walks over an item: what it declares is added to the scope, or it is refused, behind which the scope is of no use.
#[tactic(auto, using(crate::proofs::Steps::just))]
pub fn walk_item<A: Annotations>(
    alloc: Global,
    scope: &mut Scope,
    annotations: &A,
    item: &Item,
) -> Result<(), RuleFault>
    ensures { Follows (WalksItem (A.meanings annotations.now) item.now scope.old) result scope.new }
{
    match item {
        Item::Opaque(_, name) => walk_struct_name(alloc, scope, name, true),
        Item::Struct(_, name, fields) => walk_struct(alloc, scope, name, fields),
        Item::FunctionType(_, signature, contract) => {
            walk_function_type(alloc, scope, annotations, signature, contract)
        }
        Item::Prototype(signature, _, contract) => {
            walk_prototype(alloc, scope, annotations, signature, contract)
        }
        Item::Function(signature, _, contract, body) => {
            walk_definition(alloc, scope, annotations, signature, contract, body)
        }
        Item::Ghost(item) => annotations.item(scope, item),
    }
}

/// Walks over items in the order of the text: what they declare is added to the scope, or the first of them that is
/// refused is answered with its refusal, behind which the scope is of no use.
#[tactic(auto, using(crate::proofs::Loops::leads_here, crate::proofs::Loops::items_more, crate::proofs::Loops::items_stop, crate::proofs::Loops::items_none, crate::proofs::Loops::items_end))]
pub fn walk_items<A: Annotations>(
    alloc: Global,
    scope: &mut Scope,
    annotations: &A,
    items: &Sequence<Item>,
) -> Result<(), RuleFault>
    ensures { Follows (WalksItems (A.meanings annotations.now) items.now scope.old) result scope.new }
{
    for at in 0..items.len() {
        let Some(item) = items.get(at) else {
            return Ok(());
        };
        walk_item(alloc, scope, annotations, item)?;
    }
    Ok(())
}
