//! Which item of a unit has to be checked against a contract, and has none.
//!
//! Functions with a body and lemmas with a body are checked against their contracts in the order of the text. Each has
//! its own, or that of its prototype.
//!
//! In `specs/`: which item is the first that is checked against a contract, and whether it has one.
//! `missing_contract` gives its name where neither it nor a prototype of it has a contract.
#![tactic(auto)]

ghost use Rattle.std.specs.Prelude.{◌≡◌};
ghost use Rattle.std.specs.Option.{option_copied};
ghost use Rattle.vf_contractless.specs.Missing.{bare_name, bare_proof, first_checked, is_checked, is_proof, is_stated, missing_contract, states, states_proof};

use vf_base::{Place, Sequence, Text};
use vf_syntax::item::{GhostForm, Item};
use vf_syntax::written::Name;

/// Whether a ghost item is a lemma with a body.
fn is_proof(form: &GhostForm) -> bool
    ensures { result ≡ is_proof form.now }
{
    match form {
        GhostForm::Lemma(..) => true,
        _ => false,
    }
}

/// Whether an item is checked against a contract.
fn is_checked(item: &Item) -> bool
    ensures { result ≡ is_checked item.now }
{
    match item {
        Item::Function(..) => true,
        Item::Ghost(item) => is_proof(&item.form),
        _ => false,
    }
}

/// The first item that is checked against a contract.
#[tactic(auto, using(crate::proofs::Loops::found_here, crate::proofs::Loops::found_none, crate::proofs::Loops::found_end))]
fn first_checked(items: &Sequence<Item>) -> Option<&Item>
    ensures { option_copied result ≡ first_checked items.now }
{
    for at in 0..items.len() {
        let Some(item) = items.get(at) else {
            return None;
        };
        if is_checked(item) {
            return Some(item);
        }
    }
    None
}

/// The name of a lemma with a body that has no contract of its own.
fn bare_proof(form: &GhostForm) -> Option<&Name>
    ensures { option_copied result ≡ bare_proof form.now }
{
    match form {
        GhostForm::Lemma(name, _, _, None, _) => Some(name),
        _ => None,
    }
}

/// The name of an item that is checked, where it has no contract of its own.
fn bare_name(item: &Item) -> Option<&Name>
    ensures { option_copied result ≡ bare_name item.now }
{
    match item {
        Item::Function(signature, _, None, _) => Some(&signature.name),
        Item::Ghost(item) => bare_proof(&item.form),
        _ => None,
    }
}

/// Whether a ghost item is the prototype of a lemma with a name.
fn states_proof(name: &Text, form: &GhostForm) -> bool
    ensures { result ≡ states_proof name.now form.now }
{
    match form {
        GhostForm::LemmaPrototype(stated, _, _, _) => stated.text.as_bytes() == name.as_bytes(),
        _ => false,
    }
}

/// Whether an item is a prototype of a name with a contract.
fn states(name: &Text, item: &Item) -> bool
    ensures { result ≡ states name.now item.now }
{
    match item {
        Item::Prototype(signature, _, Some(_)) => {
            signature.name.text.as_bytes() == name.as_bytes()
        }
        Item::Ghost(item) => states_proof(name, &item.form),
        _ => false,
    }
}

/// Whether a prototype of a name with a contract is among items.
#[tactic(auto, using(crate::proofs::Loops::any_here, crate::proofs::Loops::any_none, crate::proofs::Loops::any_end))]
fn is_stated(name: &Text, items: &Sequence<Item>) -> bool
    ensures { result ≡ is_stated name.now items.now }
{
    for at in 0..items.len() {
        let Some(item) = items.get(at) else {
            return false;
        };
        if states(name, item) {
            return true;
        }
    }
    false
}

/// The name of the first item of a unit that is checked against a contract, where neither it nor a prototype of it has
/// one.
pub fn missing_contract(items: &Sequence<Item>) -> Option<Place>
    ensures { result ≡ missing_contract items.now }
{
    let name = bare_name(first_checked(items)?)?;
    if is_stated(&name.text, items) {
        None
    } else {
        Some(name.place)
    }
}
