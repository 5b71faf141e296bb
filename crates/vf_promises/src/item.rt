//! The lines of items.

ghost use Rattle.std.specs.Prelude.{◌≡◌, [], ◌∷◌, ◌++◌, fold, map, IfOk, OnOk};
ghost use Rattle.vf_names.specs.Names.{put};
ghost use Rattle.vf_promises.specs.Lines.{body_lines, call_line, call_lines, claim_lines, form_lines, instance_line, is_claimed, is_other_lemma, is_own, item_lines, others_called, provided_line, required_line, struct_lines};
ghost use Rattle.vf_promises.specs.Required.{each_once};

use crate::meaning::{
    identity_named, identity_tagged, is_among, is_defined_function, is_name_of_lemma,
    is_type_meant, path_at, signature_named,
};
use crate::required::name_of;
use crate::type_names::TypeNames;
use std::alloc::Global;
use vf_base::{Memory, Sequence, Text};
use vf_declared::lookup::has;
use vf_declared::scope::Scope;
use vf_manifest::{Line, Manifest, Word};
use vf_mentions::{Mention, mentions_of_lemma};
use vf_names::Names;
use vf_snapshot::Snapshot;
use vf_syntax::contract::Claim;
use vf_syntax::item::{GhostForm, Item};
use vf_syntax::written::Name;

/// Whether a name stands in a file that is no header of the prelude.
fn is_own(scope: &Scope, name: &Name) -> bool
    ensures { result ≡ is_own scope.now name.now }
{
    !has(&scope.preludes, u64::from(name.place.file))
}

/// Adds the line of a function or lemma that has its body here.
fn add_provided(
    alloc: Global,
    snapshot: &Snapshot,
    scope: &Scope,
    names: &TypeNames,
    name: &Text,
    all: &mut Manifest,
) -> Result<(), Memory>
    ensures { OnOk result (all.new ≡ all.old ++ provided_line snapshot.now scope.now names.now name.now ∷ []) }
{
    let provided = identity_named(snapshot, scope, name.as_bytes())?;
    let signature = signature_named(alloc, scope, names, name.as_bytes())?;
    let signature = Word::new(signature.as_bytes());
    all.push(Line::Provides {
        provided,
        signature,
    })
}

/// Adds the line of a function or lemma that has its body elsewhere.
pub fn add_required_name(
    alloc: Global,
    snapshot: &Snapshot,
    scope: &Scope,
    names: &TypeNames,
    name: &Text,
    all: &mut Manifest,
) -> Result<(), Memory>
    ensures { OnOk result (all.new ≡ all.old ++ required_line snapshot.now scope.now names.now name.now ∷ []) }
{
    let required = identity_named(snapshot, scope, name.as_bytes())?;
    let signature = signature_named(alloc, scope, names, name.as_bytes())?;
    let signature = Word::new(signature.as_bytes());
    all.push(Line::Requires {
        required,
        signature,
    })
}

/// Adds the line of a struct with its fields, unless it is the prelude's.
fn add_struct(
    snapshot: &Snapshot,
    scope: &Scope,
    name: &Name,
    all: &mut Manifest,
) -> Result<(), Memory>
    ensures { OnOk result (all.new ≡ all.old ++ struct_lines snapshot.now scope.now name.now) }
{
    if is_own(scope, name) {
        let tag = identity_tagged(snapshot, scope, &name.text)?;
        let file = Word::new(path_at(snapshot, u64::from(name.place.file))?);
        all.push(Line::Struct { tag, file })?;
    }
    Ok(())
}

/// Adds the line of the body of a predicate, unless it is the prelude's.
fn add_body(
    snapshot: &Snapshot,
    scope: &Scope,
    name: &Name,
    all: &mut Manifest,
) -> Result<(), Memory>
    ensures { OnOk result (all.new ≡ all.old ++ body_lines snapshot.now scope.now name.now) }
{
    if is_own(scope, name) {
        let predicate = identity_named(snapshot, scope, name.text.as_bytes())?;
        let file = Word::new(path_at(snapshot, u64::from(name.place.file))?);
        all.push(Line::Body { predicate, file })?;
    }
    Ok(())
}

/// The line of an instance of a family.
fn instance_line<'a>(
    snapshot: &'a Snapshot,
    scope: &Scope,
    family: &'a Name,
    function: &'a Name,
) -> Result<Line<'a>, Memory>
    ensures { IfOk result (λ line. line ≡ instance_line snapshot.now scope.now family.now function.now) }
{
    Ok(Line::Instance {
        family: identity_named(snapshot, scope, family.text.as_bytes())?,
        function: identity_named(snapshot, scope, function.text.as_bytes())?,
        file: Word::new(path_at(snapshot, u64::from(family.place.file))?),
    })
}

/// Whether a function with a body in the unit claims a function type, which is known there and seen from the claim.
fn is_claimed(scope: &Scope, known: &Names, name: &Text, claim: &Claim) -> bool
    ensures { result ≡ is_claimed scope.now known.now name.now claim.now }
{
    is_defined_function(scope, name.as_bytes())
        && is_among(known, claim.name.text.as_bytes())
        && is_type_meant(scope.declaration(&claim.name.text, claim.name.place.file))
}

/// Adds the line of the claim that may stand beside a function.
fn add_claim(
    snapshot: &Snapshot,
    scope: &Scope,
    known: &Names,
    name: &Text,
    claim: &Option<Claim>,
    all: &mut Manifest,
) -> Result<(), Memory>
    ensures { OnOk result (all.new ≡ all.old ++ claim_lines snapshot.now scope.now known.now name.now claim.now) }
{
    let Some(claim) = claim else {
        return Ok(());
    };
    if is_claimed(scope, known, name, claim) {
        let function = identity_named(snapshot, scope, name.as_bytes())?;
        let claimed = identity_named(snapshot, scope, claim.name.text.as_bytes())?;
        all.push(Line::Claims { function, claimed })?;
    }
    Ok(())
}

/// Whether a mention is the call of a lemma other than this one.
fn is_other_lemma(scope: &Scope, own: &Text, mention: &Mention) -> bool
    ensures { result ≡ is_other_lemma scope.now own.now mention.now }
{
    match mention {
        Mention::Function(_) => false,
        Mention::Lemma(name) => {
            is_name_of_lemma(scope, name.as_bytes()) && own.as_bytes() != name.as_bytes()
        }
    }
}

/// Adds the name that is mentioned, if it is that of a lemma other than this one.
fn add_called(scope: &Scope, own: &Text, mention: &Mention, names: &mut Names) -> Result<(), Memory>
    ensures { OnOk result (names.new ≡ fold put names.old (others_called scope.now own.now (mention.now ∷ []))) }
{
    if is_other_lemma(scope, own, mention) {
        names.put(name_of(mention).as_bytes())?;
    }
    Ok(())
}

/// The names of the lemmas that the body of a lemma calls beside itself, each once.
fn called_names(
    alloc: Global,
    scope: &Scope,
    own: &Text,
    mentions: &Sequence<Mention>,
) -> Result<Names, Memory>
    ensures { IfOk result (λ names. names ≡ each_once (others_called scope.now own.now mentions.now)) }
{
    let mut names = Names::new(alloc);
    for mention in mentions.as_slice() {
        add_called(scope, own, mention, &mut names)?;
    }
    Ok(names)
}

/// The line of a call in the body of a lemma.
fn call_line<'a>(
    snapshot: &'a Snapshot,
    scope: &Scope,
    own: &'a Text,
    name: &'a Text,
) -> Result<Line<'a>, Memory>
    ensures { IfOk result (λ line. line ≡ call_line snapshot.now scope.now own.now name.now) }
{
    Ok(Line::Calls {
        caller: identity_named(snapshot, scope, own.as_bytes())?,
        callee: identity_named(snapshot, scope, name.as_bytes())?,
    })
}

/// Adds the lines of the calls in the body of a lemma.
fn add_calls(
    alloc: Global,
    snapshot: &Snapshot,
    scope: &Scope,
    own: &Text,
    mentions: &Sequence<Mention>,
    all: &mut Manifest,
) -> Result<(), Memory>
    ensures { OnOk result (all.new ≡ all.old ++ call_lines snapshot.now scope.now own.now mentions.now) }
{
    let names = called_names(alloc, scope, own, mentions)?;
    for name in names.as_slice() {
        all.push(call_line(snapshot, scope, own, name)?)?;
    }
    Ok(())
}

/// Adds the lines of a ghost item.
fn add_form(
    alloc: Global,
    snapshot: &Snapshot,
    scope: &Scope,
    names: &TypeNames,
    form: &GhostForm,
    all: &mut Manifest,
) -> Result<(), Memory>
    ensures { OnOk result (all.new ≡ all.old ++ form_lines snapshot.now scope.now names.now form.now) }
{
    match form {
        GhostForm::PredicateBody(name, _, _) => add_body(snapshot, scope, name, all),
        GhostForm::Instance(family, function, _, _) => {
            all.push(instance_line(snapshot, scope, family, function)?)
        }
        GhostForm::Lemma(name, _, _, _, body) => {
            add_provided(alloc, snapshot, scope, names, &name.text, all)?;
            let mentions = mentions_of_lemma(alloc, body)?;
            add_calls(alloc, snapshot, scope, &name.text, &mentions, all)
        }
        _ => Ok(()),
    }
}

/// Adds the lines of an item but for what it requires, where these functions and function types are known.
pub fn add_item(
    alloc: Global,
    snapshot: &Snapshot,
    scope: &Scope,
    names: &TypeNames,
    known: &Names,
    item: &Item,
    all: &mut Manifest,
) -> Result<(), Memory>
    ensures { OnOk result (all.new ≡ all.old ++ item_lines snapshot.now scope.now names.now known.now item.now) }
{
    match item {
        Item::Struct(_, name, _) => add_struct(snapshot, scope, name, all),
        Item::Prototype(signature, claim, _) => {
            let name = &signature.name.text;
            add_claim(snapshot, scope, known, name, claim, all)
        }
        Item::Function(signature, claim, _, _) => {
            let name = &signature.name.text;
            add_provided(alloc, snapshot, scope, names, name, all)?;
            add_claim(snapshot, scope, known, name, claim, all)
        }
        Item::Ghost(annotation) => {
            add_form(alloc, snapshot, scope, names, &annotation.form, all)
        }
        _ => Ok(()),
    }
}
