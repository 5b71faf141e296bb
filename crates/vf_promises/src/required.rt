//! Which functions and lemmas a unit requires.

ghost use Rattle.std.specs.Prelude.{◌≡◌, [], ◌∷◌, fold, IfOk, OnOk};
ghost use Rattle.std.specs.Option.{option_copied};
ghost use Rattle.vf_names.specs.Names.{put};
ghost use Rattle.vf_promises.specs.Required as required;
ghost use Rattle.vf_promises.specs.Required.{hidden_names, is_hidden, is_required, is_required_function, known_with_form, required_by_claim, required_in, required_in_form, required_of};

use crate::meaning::{is_among, is_undefined_function, is_unproved_lemma, prototype_names};
use std::alloc::Global;
use vf_base::{Memory, Sequence, Text};
use vf_declared::scope::Scope;
use vf_mentions::{Mention, mentions_of_body, mentions_of_lemma};
use vf_names::Names;
use vf_syntax::contract::{Claim, Contract};
use vf_syntax::item::{GhostForm, Item};

/// Keeps the name of the lemma that a ghost item declares, if it declares one.
fn learn_form(known: &mut Names, form: &GhostForm) -> Result<(), Memory>
    ensures { OnOk result (known.new ≡ known_with_form known.old form.now) }
{
    match form {
        GhostForm::LemmaPrototype(name, _, _, _) => {
            known.put(name.text.as_bytes())?;
            Ok(())
        }
        GhostForm::Lemma(name, _, _, _, _) => {
            known.put(name.text.as_bytes())?;
            Ok(())
        }
        _ => Ok(()),
    }
}

/// Keeps the name of the function, function type or lemma that an item declares, if it declares one.
pub fn learn(known: &mut Names, item: &Item) -> Result<(), Memory>
    ensures { OnOk result (known.new ≡ required.known_with known.old item.now) }
{
    match item {
        Item::FunctionType(_, signature, _) => {
            known.put(signature.name.text.as_bytes())?;
            Ok(())
        }
        Item::Prototype(signature, _, _) => {
            known.put(signature.name.text.as_bytes())?;
            Ok(())
        }
        Item::Function(signature, _, _, _) => {
            known.put(signature.name.text.as_bytes())?;
            Ok(())
        }
        Item::Ghost(annotation) => learn_form(known, &annotation.form),
        _ => Ok(()),
    }
}

/// The name that is mentioned.
pub fn name_of(mention: &Mention) -> &Text
    ensures { result.now ≡ required.name_of mention.now }
{
    match mention {
        Mention::Function(name) => name,
        Mention::Lemma(name) => name,
    }
}

/// Whether a name is that of a known function that has no body in the unit and is not the prelude's.
fn is_required_function(scope: &Scope, known: &Names, name: &[u8]) -> bool
    ensures { result ≡ is_required_function scope.now known.now name.now }
{
    is_among(known, name) && is_undefined_function(scope, name)
}

/// Whether a name is one of some that may be there.
fn is_hidden(hidden: Option<&Names>, name: &[u8]) -> bool
    ensures { result ≡ is_hidden (option_copied hidden.entry) name.now }
{
    match hidden {
        Some(names) => is_among(names, name),
        None => false,
    }
}

/// Whether what is mentioned where some names are hidden has no body in the unit and is not the prelude's.
fn is_required(scope: &Scope, known: &Names, hidden: Option<&Names>, mention: &Mention) -> bool
    ensures { result ≡ is_required scope.now known.now (option_copied hidden.entry) mention.now }
{
    match mention {
        Mention::Function(name) => {
            !is_hidden(hidden, name.as_bytes())
                && is_required_function(scope, known, name.as_bytes())
        }
        Mention::Lemma(name) => {
            is_unproved_lemma(scope, name.as_bytes())
                || is_required_function(scope, known, name.as_bytes())
        }
    }
}

/// Adds the name that is mentioned, if it is required.
fn require_mention(
    scope: &Scope,
    known: &Names,
    hidden: Option<&Names>,
    mention: &Mention,
    names: &mut Names,
) -> Result<(), Memory>
    ensures { OnOk result (names.new ≡ fold put names.old (required_of scope.now known.now (option_copied hidden.entry) (mention.now ∷ []))) }
{
    if is_required(scope, known, hidden, mention) {
        names.put(name_of(mention).as_bytes())?;
    }
    Ok(())
}

/// Adds the names that are required of some that are mentioned.
fn require_mentioned(
    scope: &Scope,
    known: &Names,
    hidden: Option<&Names>,
    mentions: &Sequence<Mention>,
    names: &mut Names,
) -> Result<(), Memory>
    ensures { OnOk result (names.new ≡ fold put names.old (required_of scope.now known.now (option_copied hidden.entry) mentions.now)) }
{
    for mention in mentions.as_slice() {
        require_mention(scope, known, hidden, mention, names)?;
    }
    Ok(())
}

/// What a contract hides in the body behind it: where the body takes that of a prototype in front of it, the names of
/// that one.
fn hidden_names<'a>(
    scope: &'a Scope,
    known: &Names,
    name: &Text,
    contract: &Option<Contract>,
) -> Option<&'a Names>
    ensures { option_copied result ≡ hidden_names scope.now known.now name.now contract.now }
{
    match contract {
        Some(_) => None,
        None => {
            if is_among(known, name.as_bytes()) {
                prototype_names(scope, name.as_bytes())
            } else {
                None
            }
        }
    }
}

/// Adds the name of a function that is required for the claim that may stand beside it.
fn require_claiming(
    scope: &Scope,
    name: &Text,
    claim: &Option<Claim>,
    names: &mut Names,
) -> Result<(), Memory>
    ensures { OnOk result (names.new ≡ fold put names.old (required_by_claim scope.now name.now claim.now)) }
{
    if claim.is_some() && is_undefined_function(scope, name.as_bytes()) {
        names.put(name.as_bytes())?;
    }
    Ok(())
}

/// Adds the names that a ghost item requires.
fn require_form(
    alloc: Global,
    scope: &Scope,
    known: &Names,
    form: &GhostForm,
    names: &mut Names,
) -> Result<(), Memory>
    ensures { OnOk result (names.new ≡ fold put names.old (required_in_form scope.now known.now form.now)) }
{
    match form {
        GhostForm::Lemma(name, _, _, contract, body) => {
            let hidden = hidden_names(scope, known, &name.text, contract);
            let mentions = mentions_of_lemma(alloc, body)?;
            require_mentioned(scope, known, hidden, &mentions, names)
        }
        _ => Ok(()),
    }
}

/// Adds the names that an item requires.
fn require_item(
    alloc: Global,
    scope: &Scope,
    known: &Names,
    item: &Item,
    names: &mut Names,
) -> Result<(), Memory>
    ensures { OnOk result (names.new ≡ fold put names.old (required_in scope.now known.now item.now)) }
{
    match item {
        Item::Prototype(signature, claim, _) => {
            require_claiming(scope, &signature.name.text, claim, names)
        }
        Item::Function(signature, claim, contract, body) => {
            let name = &signature.name.text;
            require_claiming(scope, name, claim, names)?;
            let hidden = hidden_names(scope, known, name, contract);
            let mentions = mentions_of_body(alloc, &signature.parameters, body)?;
            require_mentioned(scope, known, hidden, &mentions, names)
        }
        Item::Ghost(annotation) => require_form(alloc, scope, known, &annotation.form, names),
        _ => Ok(()),
    }
}

/// The names that a unit requires, each once.
pub fn required_names(alloc: Global, scope: &Scope, items: &Sequence<Item>) -> Result<Names, Memory>
    ensures { IfOk result (λ names. names ≡ required.required_names scope.now items.now) }
{
    let mut known = Names::new(alloc);
    let mut names = Names::new(alloc);
    for item in items.as_slice() {
        require_item(alloc, scope, &known, item, &mut names)?;
        learn(&mut known, item)?;
    }
    Ok(names)
}
