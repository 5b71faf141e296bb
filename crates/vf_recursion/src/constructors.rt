//! The constructors of the datatype by which a fixpoint goes.

ghost use Rattle.std.specs.Prelude.{◌≡◌, IfOk, option_map};
ghost use Rattle.std.specs.Option.{option_copied};
ghost use Rattle.vf_recursion.specs.Faults as faults;
ghost use Rattle.vf_recursion.specs.Faults.{constructors_at, constructors_in, constructors_named, name_in, names_of, sort_name};

use std::alloc::Global;
use vf_base::{Memory, Sequence, Text};
use vf_names::Names;
use vf_syntax::item::{Constructor, FixpointBody, GhostForm, GhostParameter, Item};
use vf_syntax::sort::{Sort, SortNode};

/// The constructors of the datatype with a name, where a form declares that.
fn constructors_in<'a>(name: &Text, form: &'a GhostForm) -> Option<&'a Sequence<Constructor>>
    ensures { option_map names_of (option_copied result) ≡ constructors_in name.now form.now }
{
    match form {
        GhostForm::Inductive(datatype, _, _, constructors) => {
            if name.as_bytes() == datatype.text.as_bytes() {
                Some(constructors)
            } else {
                None
            }
        }
        _ => None,
    }
}

/// The same of an item.
fn constructors_at<'a>(name: &Text, item: &'a Item) -> Option<&'a Sequence<Constructor>>
    ensures { option_map names_of (option_copied result) ≡ constructors_at name.now item.now }
{
    match item {
        Item::Ghost(annotation) => constructors_in(name, &annotation.form),
        _ => None,
    }
}

/// The constructors of the first datatype with a name that items declare.
fn constructors_named<'a>(
    name: &Text,
    items: &'a Sequence<Item>,
) -> Option<&'a Sequence<Constructor>>
    ensures { option_map names_of (option_copied result) ≡ constructors_named name.now items.now }
{
    for item in items.as_slice() {
        if let Some(constructors) = constructors_at(name, item) {
            return Some(constructors);
        }
    }
    None
}

/// The name that a sort is written by, where that is a datatype's or a type parameter's.
fn name_in(sort: &Sort) -> Option<&Text>
    ensures { option_copied result ≡ name_in sort.now }
{
    match &sort.node {
        SortNode::Name(name, _) => Some(name),
        _ => None,
    }
}

/// The name of the sort of the parameter with a name.
fn sort_name<'a>(parameters: &'a Sequence<GhostParameter>, name: &Text) -> Option<&'a Text>
    ensures { option_copied result ≡ sort_name parameters.now name.now }
{
    for parameter in parameters.as_slice() {
        if name.as_bytes() == parameter.name.text.as_bytes() {
            return name_in(&parameter.sort);
        }
    }
    None
}

/// The names of constructors.
fn names_of(alloc: Global, constructors: &Sequence<Constructor>) -> Result<Names, Memory>
    ensures { IfOk result (λ names. names ≡ names_of constructors.now) }
{
    let mut names = Names::new(alloc);
    for constructor in constructors.as_slice() {
        names.push(constructor.name.text.as_bytes())?;
    }
    Ok(names)
}

/// The names of the constructors of the datatype that a name means in items; none where there is no such datatype.
fn constructors_by(
    alloc: Global,
    items: &Sequence<Item>,
    name: Option<&Text>,
) -> Result<Names, Memory>
    ensures { IfOk result (λ names. names ≡ faults.constructors_by items.now (option_copied name.entry)) }
{
    let Some(name) = name else {
        return Ok(Names::new(alloc));
    };
    match constructors_named(name, items) {
        Some(constructors) => names_of(alloc, constructors),
        None => Ok(Names::new(alloc)),
    }
}

/// The names of the constructors of the datatype by which a fixpoint goes.
pub fn constructors_of(
    alloc: Global,
    items: &Sequence<Item>,
    parameters: &Sequence<GhostParameter>,
    body: &FixpointBody,
) -> Result<Names, Memory>
    ensures { IfOk result (λ names. names ≡ faults.constructors_of items.now parameters.now body.now) }
{
    match body {
        FixpointBody::Value(_) => Ok(Names::new(alloc)),
        FixpointBody::Switch(name, _) => {
            constructors_by(alloc, items, sort_name(parameters, &name.text))
        }
    }
}
