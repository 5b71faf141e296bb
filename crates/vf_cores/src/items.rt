//! The functions that the items of a unit make.

ghost use Rattle.std.specs.Prelude.{◌≡◌, ◌++◌, OnOk};
ghost use Rattle.vf_functions.specs.Units.{Comes, cores_of};
ghost use Rattle.vf_cores.specs.Shown.{answer_shown, cores_shown};

use crate::cores::Core;
use crate::function::lower_function;
use std::alloc::Global;
use vf_base::{Memory, RuleFault, Sequence};
use vf_declared::scope::Scope;
use vf_syntax::item::Item;
use vf_walk::{Annotations, walk_item};

/// Adds the function that an item makes, if it makes one, where what it declares is declared.
fn add_core<'a>(
    alloc: Global,
    scope: &mut Scope,
    cores: &mut Vec<Core<'a>>,
    item: &'a Item,
) -> Result<(), Memory>
    ensures kept { OnOk result (scope.new ≡ scope.old) }
    ensures added { OnOk result (cores_shown cores.new.items ≡ cores_shown cores.old.items ++ cores_of scope.old item.now) }
{
    match item {
        Item::Function(signature, _, contract, body) => {
            let core = lower_function(alloc, scope, signature, contract, body)?;
            cores.push(core)?;
            Ok(())
        }
        _ => Ok(()),
    }
}

/// The functions that items make, in the order of the text: those with a body, in steps. What the items declare is added
/// to the scope.
///
/// # Errors
///
/// The first of the items that is refused is answered with its refusal, behind which the scope is of no use.
pub fn lower_items<'a, A: Annotations>(
    alloc: Global,
    scope: &mut Scope,
    annotations: &A,
    items: &'a Sequence<Item>,
) -> Result<Vec<Core<'a>>, RuleFault>
    ensures { Comes (A.meanings annotations.now) items.now scope.old (answer_shown result) scope.new }
{
    let mut cores = Vec::new(alloc);
    for at in 0..items.len() {
        let Some(item) = items.get(at) else {
            return Ok(cores);
        };
        walk_item(alloc, scope, annotations, item)?;
        add_core(alloc, scope, &mut cores, item)?;
    }
    Ok(cores)
}
