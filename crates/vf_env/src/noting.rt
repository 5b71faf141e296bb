//! One more item that declares names.

ghost use Rattle.std.specs.Prelude.{◌≡◌, ◌∷◌, [], map, OnOk};
ghost use Rattle.vf_env.specs.Named.{constructor_name, named, named_by_form, tagged};
ghost use Rattle.vf_env.specs.Noted.{AreNoted, ending_with, is_last};

use std::alloc::Global;
use vf_base::{Memory, NumberList, Sequence};
use vf_declared::stack::Stack;
use vf_names::Names;
use vf_syntax::item::{Constructor, GhostForm, Item};
use vf_syntax::written::Name;

/// Whether a number stands at the end of a list.
fn is_last(list: &NumberList, number: u64) -> bool
    ensures { result ≡ is_last list.now number }
{
    if list.is_empty() {
        return false;
    }
    match list.get(list.len() - 1) {
        Some(last) => *last == number,
        None => false,
    }
}

/// Puts a number at the end of a list, unless it is there.
fn end_with(list: &mut NumberList, number: u64) -> Result<(), Memory>
    ensures { OnOk result (list.new ≡ ending_with list.old number) }
{
    if !is_last(list, number) {
        list.push(number)?;
    }
    Ok(())
}

/// Keeps that the item with a number declares a name, if it is among names.
fn note(
    alloc: Global,
    names: &Names,
    trees: &mut Stack<NumberList>,
    number: u64,
    name: &Name,
) -> Result<(), Memory>
    ensures { OnOk result (AreNoted names.now (name.now.text ∷ []) number trees.old trees.new) }
{
    let Some(at) = names.number(name.text.as_bytes()) else {
        return Ok(());
    };
    if at >= trees.len() {
        return Ok(());
    }
    let mut list = trees.replace(at, NumberList::new(alloc));
    end_with(&mut list, number)?;
    let _none = trees.replace(at, list);
    Ok(())
}

/// The same of the constructors of a datatype.
fn note_constructors(
    alloc: Global,
    names: &Names,
    trees: &mut Stack<NumberList>,
    number: u64,
    constructors: &Sequence<Constructor>,
) -> Result<(), Memory>
    ensures { OnOk result (AreNoted names.now (map constructor_name constructors.now) number trees.old trees.new) }
{
    for constructor in constructors.as_slice() {
        note(alloc, names, trees, number, &constructor.name)?;
    }
    Ok(())
}

/// The same of a datatype with its constructors.
fn note_datatype(
    alloc: Global,
    names: &Names,
    trees: &mut Stack<NumberList>,
    number: u64,
    name: &Name,
    constructors: &Sequence<Constructor>,
) -> Result<(), Memory>
    ensures { OnOk result (AreNoted names.now (name.now.text ∷ map constructor_name constructors.now) number trees.old trees.new) }
{
    note(alloc, names, trees, number, name)?;
    note_constructors(alloc, names, trees, number, constructors)?;
    Ok(())
}

/// Keeps which names a ghost item with a number declares.
fn note_form(
    alloc: Global,
    names: &Names,
    trees: &mut Stack<NumberList>,
    number: u64,
    form: &GhostForm,
) -> Result<(), Memory>
    ensures { OnOk result (AreNoted names.now (named_by_form form.now) number trees.old trees.new) }
{
    match form {
        GhostForm::Inductive(name, _, _, constructors) => {
            note_datatype(alloc, names, trees, number, name, constructors)
        }
        GhostForm::Fixpoint(_, name, _, _, _) => note(alloc, names, trees, number, name),
        GhostForm::Predicate(name, _) => note(alloc, names, trees, number, name),
        GhostForm::PredicateBody(name, _, _) => note(alloc, names, trees, number, name),
        GhostForm::Family(name, _, _) => note(alloc, names, trees, number, name),
        GhostForm::Instance(family, _, _, _) => note(alloc, names, trees, number, family),
        GhostForm::PredicateConstructor(name, _, _, _) => note(alloc, names, trees, number, name),
        GhostForm::LemmaPrototype(name, _, _, _) => note(alloc, names, trees, number, name),
        GhostForm::Lemma(name, _, _, _, _) => note(alloc, names, trees, number, name),
    }
}

/// Keeps which names of file level an item with a number declares.
pub fn note_names(
    alloc: Global,
    names: &Names,
    trees: &mut Stack<NumberList>,
    number: u64,
    item: &Item,
) -> Result<(), Memory>
    ensures { OnOk result (AreNoted names.now (named item.now) number trees.old trees.new) }
{
    match item {
        Item::Opaque(_, _) => Ok(()),
        Item::Struct(_, _, _) => Ok(()),
        Item::FunctionType(_, signature, _) => note(alloc, names, trees, number, &signature.name),
        Item::Prototype(signature, _, _) => note(alloc, names, trees, number, &signature.name),
        Item::Function(signature, _, _, _) => note(alloc, names, trees, number, &signature.name),
        Item::Ghost(annotation) => note_form(alloc, names, trees, number, &annotation.form),
    }
}

/// Keeps which tag an item with a number declares, if any.
pub fn note_tag(
    alloc: Global,
    tags: &Names,
    trees: &mut Stack<NumberList>,
    number: u64,
    item: &Item,
) -> Result<(), Memory>
    ensures { OnOk result (AreNoted tags.now (tagged item.now) number trees.old trees.new) }
{
    match item {
        Item::Opaque(_, tag) => note(alloc, tags, trees, number, tag),
        Item::Struct(_, tag, _) => note(alloc, tags, trees, number, tag),
        _ => Ok(()),
    }
}
