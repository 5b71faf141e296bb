//! The items that declare each name.

ghost use Rattle.std.specs.Prelude.{◌≡◌, [], map, IfOk};
ghost use Rattle.vf_env.specs.Named.{named, tagged};
ghost use Rattle.vf_env.specs.Trees.{HasTrees};

use crate::noting::{note_names, note_tag};
use std::alloc::Global;
use vf_base::{Memory, NumberList, Sequence};
use vf_declared::stack::Stack;
use vf_names::Names;
use vf_syntax::item::Item;

/// For each name, no items.
fn no_trees(alloc: Global, names: &Names) -> Result<Stack<NumberList>, Memory>
    ensures { IfOk result (λ list. list ≡ map (λ name. []) names.now) }
{
    let mut trees = Stack::new(alloc);
    for _name in names.as_slice() {
        trees.push(NumberList::new(alloc))?;
    }
    Ok(trees)
}

/// For each name of file level, the items that declare it.
pub fn beside_names(
    alloc: Global,
    names: &Names,
    items: &Sequence<Item>,
) -> Result<Stack<NumberList>, Memory>
    ensures { IfOk result (HasTrees named names.now items.now) }
{
    let mut trees = no_trees(alloc, names)?;
    for at in 0..items.len() {
        let Some(item) = items.get(at) else {
            return Ok(trees);
        };
        note_names(alloc, names, &mut trees, at as u64, item)?;
    }
    Ok(trees)
}

/// For each tag, the items that declare it.
pub fn beside_tags(
    alloc: Global,
    tags: &Names,
    items: &Sequence<Item>,
) -> Result<Stack<NumberList>, Memory>
    ensures { IfOk result (HasTrees tagged tags.now items.now) }
{
    let mut trees = no_trees(alloc, tags)?;
    for at in 0..items.len() {
        let Some(item) = items.get(at) else {
            return Ok(trees);
        };
        note_tag(alloc, tags, &mut trees, at as u64, item)?;
    }
    Ok(trees)
}
