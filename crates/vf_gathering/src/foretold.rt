//! The predicates that stand anywhere in a unit.

ghost use Rattle.std.specs.Prelude.{◌≡◌, IfOk, OnOk};
ghost use Rattle.vf_gathering.specs.Foretold as units;
ghost use Rattle.vf_gathering.specs.Named.{predicates_in};
ghost use Rattle.vf_gathering.specs.Standing.{Tells};

use crate::ahead::Ahead;
use crate::standing::{no_names, with_name};
use crate::telling::told_parameters;
use std::alloc::Global;
use vf_base::{Memory, Sequence};
use vf_datatypes::Stated;
use vf_sorts::SortList;
use vf_syntax::item::{GhostForm, GhostParameter, Item};
use vf_syntax::written::Name;

/// The predicates that stand anywhere in a unit: their names, the files in which each of them stands, and the sorts of
/// its arguments as far as they can be told ahead of it.
#[derive(Drop)]
pub struct Foretold {
    pub stated: Stated,
    pub sorts: Sequence<SortList>,
}

/// Keeps a predicate with its parameters.
fn with_predicate(
    alloc: Global,
    ahead: &Ahead,
    foretold: &mut Foretold,
    name: &Name,
    parameters: &Sequence<GhostParameter>,
) -> Result<(), Memory>
    ensures { OnOk result (foretold.new ≡ units.with_predicate ahead.now foretold.old name.now parameters.now) }
{
    if foretold.stated.names.number(name.text.as_bytes()).is_none() {
        let sorts = told_parameters(alloc, ahead, parameters)?;
        foretold.sorts.push(sorts)?;
    }
    with_name(alloc, &mut foretold.stated, name)
}

/// Keeps the predicate that a ghost item declares, if it declares one.
fn with_form(
    alloc: Global,
    ahead: &Ahead,
    foretold: &mut Foretold,
    form: &GhostForm,
) -> Result<(), Memory>
    ensures { OnOk result (foretold.new ≡ units.with_form ahead.now foretold.old form.now) }
{
    match form {
        GhostForm::Predicate(name, parameters) => {
            with_predicate(alloc, ahead, foretold, name, parameters)
        }
        GhostForm::PredicateBody(name, parameters, _) => {
            with_predicate(alloc, ahead, foretold, name, parameters)
        }
        _ => Ok(()),
    }
}

/// Keeps the predicate that an item declares, if it declares one.
fn with_item(
    alloc: Global,
    ahead: &Ahead,
    foretold: &mut Foretold,
    item: &Item,
) -> Result<(), Memory>
    ensures { OnOk result (foretold.new ≡ units.with_item ahead.now foretold.old item.now) }
{
    match item {
        Item::Ghost(annotation) => with_form(alloc, ahead, foretold, &annotation.form),
        _ => Ok(()),
    }
}

/// The predicates that items declare, where the datatypes and structs of the unit are told.
#[tactic(auto, using(crate::proofs::Sorting::predicates_told))]
pub fn predicates_of(
    alloc: Global,
    ahead: &Ahead,
    items: &Sequence<Item>,
) -> Result<Foretold, Memory>
    ensures is { IfOk result (λ t. t ≡ units.with_items ahead.now units.none_foretold items.now) }
    ensures tells { IfOk result (λ t. Tells (predicates_in items.now) t.stated) }
{
    let mut foretold = Foretold {
        stated: no_names(alloc),
        sorts: Sequence::new(alloc),
    };
    for item in items.as_slice() {
        with_item(alloc, ahead, &mut foretold, item)?;
    }
    Ok(foretold)
}
