//! The fixpoints of a unit as definitions.

ghost use Rattle.std.specs.Prelude.{◌≡◌, ℕ, [], ◌++◌, map, IfOk, OnOk, MatchOption};
ghost use Rattle.std.specs.Option.{option_map};
ghost use Rattle.vf_declared.specs.declared.declaration.Fixpoint as fixpoints;
ghost use Rattle.vf_syntax.specs.declared.item.GhostParameter as rows;
ghost use Rattle.vf_defining.specs.Symbols.{without_locals};
ghost use Rattle.vf_defining.specs.UpTo.{AreFirst, with_level};
ghost use Rattle.vf_defining.specs.Units.{AreDefined, IsAdded, IsNumbered, definitions_by, written_form, written_in, written_of};

use crate::bodies::identity_at;
use crate::fixpoints::define_body;
use crate::integers::of_integers;
use crate::up_to::{FileLevel, keep_up_to};
use std::alloc::Global;
use vf_base::{Memory, RuleFault, Sequence, Text};
use vf_binding::bound::{Bound, declare_names};
use vf_declared::declaration::{Fixpoint as DeclaredFixpoint, GhostDeclaration, Meaning};
use vf_declared::scope::Scope;
use vf_declared::stack::Stack;
use vf_definitions::{Body, Definitions, Fixpoint};
use vf_formula::Kind;
use vf_names::Names;
use vf_sorts::{Head, Sort};
use vf_syntax::item::{FixpointBody, GhostForm, GhostParameter, Item};
use vf_syntax::written::Name;

/// A fixpoint as the text has it.
#[derive(Clone, Copy)]
struct Written<'a> {
    name: &'a Name,
    parameters: &'a Sequence<GhostParameter>,
    body: &'a FixpointBody,
}

/// The fixpoint that a form of ghost items is, if it is one.
fn written_form<'a>(form: &'a GhostForm) -> Option<Written<'a>>
    ensures { option_map written_of result ≡ written_form form.now }
{
    match form {
        GhostForm::Fixpoint(_, name, _, parameters, body) => Some(Written {
            name,
            parameters,
            body,
        }),
        _ => None,
    }
}

/// The fixpoint that an item is, if it is one.
fn written_in<'a>(item: &'a Item) -> Option<Written<'a>>
    ensures { option_map written_of result ≡ written_in item.now }
{
    match item {
        Item::Ghost(of_annotations) => written_form(&of_annotations.form),
        _ => None,
    }
}

/// The number and the declaration of the fixpoint that a name means.
fn numbered<'a>(scope: &'a Scope, written: &Written<'_>) -> Option<(usize, &'a DeclaredFixpoint)>
    ensures { MatchOption result
        ((n : ℕ) (f : fixpoints.Fixpoint) → IsNumbered scope.now (written_of written.now) n f → ⊥)
        (λ p. IsNumbered scope.now (written_of written.now) p.0 p.1.now) }
{
    let Some(Meaning::Ghost(number)) = scope.declaration(
        &written.name.text,
        written.name.place.file,
    ) else {
        return None;
    };
    match scope.ghost_declaration(number) {
        Some(GhostDeclaration::Fixpoint(fixpoint)) => Some((number, fixpoint)),
        _ => None,
    }
}

/// The texts of the names of parameters.
fn texts(alloc: Global, parameters: &Sequence<GhostParameter>) -> Result<Names, Memory>
    ensures { IfOk result (λ ns. ns ≡ map (λ (g : rows.GhostParameter). g.name.text) parameters.now) }
{
    let mut texts = Names::new(alloc);
    for parameter in parameters.as_slice() {
        texts.push(parameter.name.text.as_bytes())?;
    }
    Ok(texts)
}

/// Adds the definitions of a fixpoint as the text has it, one for each kind of its applications.
fn add(
    alloc: Global,
    into: &mut Definitions,
    sort: &Sort,
    identity: Text,
    parameters: usize,
    body: Body,
) -> Result<(), Memory>
    ensures { OnOk result (into.new ≡ into.old ++ definitions_by identity parameters body sort.now) }
{
    match sort.head {
        Head::Int => into.push(Fixpoint {
            kind: Kind::Integer,
            identity,
            parameters,
            body,
        }),
        Head::Parameter(_) => {
            into.push(Fixpoint {
                kind: Kind::Other,
                identity: identity.copy()?,
                parameters,
                body: body.copy(alloc)?,
            })?;
            let body = of_integers(alloc, body)?;
            into.push(Fixpoint {
                kind: Kind::Integer,
                identity,
                parameters,
                body,
            })
        }
        _ => into.push(Fixpoint {
            kind: Kind::Other,
            identity,
            parameters,
            body,
        }),
    }
}

/// Adds the definitions of an item, where some first of the names of file level are declared. These and the locals may
/// be others behind it.
#[tactic(auto, using(crate::proofs::Adding::memory, crate::proofs::Adding::other, crate::proofs::Adding::stray, crate::proofs::Adding::refused, crate::proofs::Adding::added))]
fn item_defined(
    alloc: Global,
    scope: &mut Scope,
    level: &FileLevel,
    paths: &[Text],
    item: &Item,
    into: &mut Definitions,
) -> Result<(), RuleFault>
    requires names { AreFirst level.now.names scope.old.names }
    requires declarations { AreFirst level.now.declarations scope.old.declarations }
    ensures added { IsAdded (with_level scope.old level.now) paths.now item.now into.old into.new result }
    ensures rest { OnOk result (with_level scope.new level.now ≡ with_level scope.old level.now) }
    ensures names { OnOk result (AreFirst level.now.names scope.new.names) }
    ensures declarations { OnOk result (AreFirst level.now.declarations scope.new.declarations) }
{
    let Some(written) = written_in(item) else {
        return Ok(());
    };
    keep_up_to(alloc, scope, level, written.name)?;
    let Some((number, fixpoint)) = numbered(scope, &written) else {
        return Ok(());
    };
    let sort = fixpoint.result.copy(alloc)?;
    let sorts = fixpoint.arguments.copy(alloc)?;
    let identity = identity_at(alloc, scope, paths, written.name)?;
    let names = texts(alloc, written.parameters)?;
    declare_names(alloc, scope, &Bound { names, sorts })?;
    let body = define_body(alloc, scope, paths, number, written.body)?;
    add(alloc, into, &sort, identity, written.parameters.len(), body)?;
    Ok(())
}

/// The definitions of items, where no names of file level are declared. These and the locals may be others behind them.
fn items_defined(
    alloc: Global,
    scope: &mut Scope,
    level: &FileLevel,
    paths: &[Text],
    items: &Sequence<Item>,
) -> Result<Definitions, RuleFault>
    requires names { scope.old.names ≡ [] }
    requires declarations { scope.old.declarations ≡ [] }
    ensures defined { AreDefined (with_level scope.old level.now) paths.now items.now result }
    ensures rest { OnOk result (with_level scope.new level.now ≡ with_level scope.old level.now) }
{
    let mut all = Definitions::new(alloc);
    for at in 0..items.len() {
        let Some(item) = items.get(at) else {
            return Ok(all);
        };
        item_defined(alloc, scope, level, paths, item, &mut all)?;
    }
    Ok(all)
}

/// The fixpoints that the items of a unit declare, as definitions, where all of it is declared. The paths
/// are those of its files, by their numbers. Of what is declared locals alone may be others behind it.
///
/// The names of file level are taken out and come back one by one, so that in the body of each fixpoint those count that
/// were declared up to it.
///
/// # Errors
///
/// Refused where the body of a fixpoint is refused with the names that were declared up to it: in a unit that was
/// accepted, and whose files see through each other, no body is.
pub fn definitions(
    alloc: Global,
    scope: &mut Scope,
    paths: &[Text],
    items: &Sequence<Item>,
) -> Result<Definitions, RuleFault>
    ensures defined { AreDefined (without_locals scope.old) paths.now items.now result }
    ensures rest { OnOk result (without_locals scope.new ≡ without_locals scope.old) }
{
    let names = std::mem::replace(&mut scope.names, Names::new(alloc));
    let declarations = std::mem::replace(&mut scope.declarations, Stack::new(alloc));
    let level = FileLevel {
        names,
        declarations,
    };
    let defined = items_defined(alloc, scope, &level, paths, items);
    scope.names = level.names;
    scope.declarations = level.declarations;
    defined
}
