//! What is told of a unit ahead of its items.

ghost use Rattle.std.specs.Prelude.{◌≡◌, IfOk, OnOk};
ghost use Rattle.vf_gathering.specs.Ahead as units;

use std::alloc::Global;
use vf_base::{Memory, NumberList, Sequence};
use vf_names::Names;
use vf_syntax::item::{GhostForm, Item};
use vf_syntax::written::Name;

/// The datatypes and structs of a unit, by their numbers: in the order in which they come, each once.
#[derive(Drop)]
pub struct Ahead {
    /// The names of the datatypes.
    pub datatypes: Names,
    /// How many type parameters each of them has.
    pub counts: NumberList,
    /// The tags of the structs.
    pub tags: Names,
}

/// Keeps a datatype with so many type parameters, unless there is one of that name.
fn with_datatype(ahead: &mut Ahead, name: &Name, count: usize) -> Result<(), Memory>
    ensures { OnOk result (ahead.new ≡ units.with_datatype ahead.old name.now count) }
{
    if ahead.datatypes.number(name.text.as_bytes()).is_none() {
        ahead.datatypes.push(name.text.as_bytes())?;
        ahead.counts.push(count as u64)?;
    }
    Ok(())
}

/// Keeps what a ghost item declares.
fn with_form(ahead: &mut Ahead, form: &GhostForm) -> Result<(), Memory>
    ensures { OnOk result (ahead.new ≡ units.with_form ahead.old form.now) }
{
    match form {
        GhostForm::Inductive(name, parameters, _, _) => {
            with_datatype(ahead, name, parameters.len())
        }
        _ => Ok(()),
    }
}

/// Keeps the tag of a struct.
fn with_tag(ahead: &mut Ahead, name: &Name) -> Result<(), Memory>
    ensures { OnOk result (ahead.new ≡ units.with_tag ahead.old name.now) }
{
    ahead.tags.put(name.text.as_bytes())?;
    Ok(())
}

/// Keeps what an item declares.
fn with_item(ahead: &mut Ahead, item: &Item) -> Result<(), Memory>
    ensures { OnOk result (ahead.new ≡ units.with_item ahead.old item.now) }
{
    match item {
        Item::Opaque(_, name) => with_tag(ahead, name),
        Item::Struct(_, name, _) => with_tag(ahead, name),
        Item::Ghost(annotation) => with_form(ahead, &annotation.form),
        _ => Ok(()),
    }
}

/// The datatypes and structs that items declare.
pub fn ahead_of(alloc: Global, items: &Sequence<Item>) -> Result<Ahead, Memory>
    ensures { IfOk result (λ w. w ≡ units.with_items units.nothing items.now) }
{
    let mut ahead = Ahead {
        datatypes: Names::new(alloc),
        counts: NumberList::new(alloc),
        tags: Names::new(alloc),
    };
    for item in items.as_slice() {
        with_item(&mut ahead, item)?;
    }
    Ok(ahead)
}
