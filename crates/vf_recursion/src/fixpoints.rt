//! The check of all fixpoints.

ghost use Rattle.std.specs.Prelude.{◌≡◌, MatchResult, None};
ghost use Rattle.vf_fixpoint.specs.Answers.{IsFaultOf};
ghost use Rattle.vf_recursion.specs.Faults.{first_fault, form_fault, item_fault};

use crate::constructors::constructors_of;
use std::alloc::Global;
use vf_base::{RuleFault, Sequence};
use vf_fixpoint::check_fixpoint;
use vf_syntax::item::{GhostForm, Item};

/// Whether a form among items has a value, if it is a fixpoint.
fn check_form(alloc: Global, items: &Sequence<Item>, form: &GhostForm) -> Result<(), RuleFault>
    ensures { MatchResult result
        (λ _. form_fault items.now form.now ≡ None)
        (IsFaultOf (form_fault items.now form.now)) }
{
    match form {
        GhostForm::Fixpoint(_, name, _, parameters, body) => {
            let constructors = constructors_of(alloc, items, parameters, body)?;
            check_fixpoint(alloc, name, parameters, body, &constructors)
        }
        _ => Ok(()),
    }
}

/// The same of an item.
fn check_item(alloc: Global, items: &Sequence<Item>, item: &Item) -> Result<(), RuleFault>
    ensures { MatchResult result
        (λ _. item_fault items.now item.now ≡ None)
        (IsFaultOf (item_fault items.now item.now)) }
{
    match item {
        Item::Ghost(annotation) => check_form(alloc, items, &annotation.form),
        _ => Ok(()),
    }
}

/// Whether each fixpoint that items declare has a value: the datatype by which it goes has one case for each constructor,
/// and each call of itself passes a component.
///
/// # Errors
///
/// Refused by rule 10 where the first fixpoint in the order of the text is refused: at its name where a case is missing
/// or doubled, and else at its first call of itself that does not pass a component, those inside of a call before it.
#[tactic(auto, using(crate::proofs::Loops::here, crate::proofs::Loops::more))]
pub fn check_fixpoints(alloc: Global, items: &Sequence<Item>) -> Result<(), RuleFault>
    ensures { MatchResult result
        (λ _. first_fault items.now ≡ None)
        (IsFaultOf (first_fault items.now)) }
{
    for item in items.as_slice() {
        check_item(alloc, items, item)?;
    }
    Ok(())
}
