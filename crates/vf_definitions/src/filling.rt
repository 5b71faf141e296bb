//! Terms with arguments in place of their symbols.

ghost use Rattle.std.specs.Prelude.{◌≡◌, IfOk, MatchOption};
ghost use Rattle.vf_closure.specs.Terms.{Symbol};
ghost use Rattle.vf_normal.specs.Normal.{as_kind};
ghost use Rattle.vf_formula.specs.Heads.{shown_kind, shown_name, shown_head};
ghost use Rattle.vf_formula.specs.Rows.{row};
ghost use Rattle.vf_definitions.specs.Filled.{argument_for, filled, IsNoSymbol};
ghost use Rattle.vf_definitions.specs.Kept.{kept_form};

use std::alloc::Global;
use vf_base::{Memory, Sequence};
use vf_formula::{Head, Kind, Name, NormalFault, Term, TermList};
use vf_question::is_plain;

/// The argument that a name stands for; where there is none, the number 0.
#[tactic(auto, using(crate::proofs::Rows::argument_got, crate::proofs::Rows::argument_missed))]
fn argument_for(alloc: Global, arguments: &TermList, name: Name) -> Result<Term, Memory>
    ensures { IfOk result (λ t. t ≡ argument_for (row arguments.now) (shown_name name)) }
{
    match name {
        Name::Numbered(number) => match arguments.get(number as usize) {
            Some(argument) => argument.copy(alloc),
            None => Ok(Term::of_number(alloc, 0)),
        },
        _ => Ok(Term::of_number(alloc, 0)),
    }
}

/// A term as a term of a kind.
fn as_kind(alloc: Global, kind: Kind, whole: Term) -> Result<Term, Memory>
    ensures { IfOk result (λ t. t ≡ as_kind (shown_kind kind) whole) }
{
    match kind {
        Kind::Other => Ok(whole),
        Kind::Integer => match whole.head.kind() {
            Kind::Integer => Ok(whole),
            Kind::Other => {
                let mut factors = Sequence::new(alloc);
                factors.push(1)?;
                Term::with_one(alloc, Head::Sum(factors), whole)
            }
        },
    }
}

/// The kind and the name of a symbol, if a head is one.
fn symbol(head: &Head) -> Option<(Kind, Name)>
    ensures { MatchOption result (IsNoSymbol (shown_head head.now)) (λ p. shown_head head.now ≡ Symbol (shown_kind p.0) (shown_name p.1)) }
{
    match head {
        Head::Symbol(kind, name) => Some((*kind, *name)),
        _ => None,
    }
}

/// A term with arguments in place of its symbols.
fn filled(alloc: Global, arguments: &TermList, body: &Term) -> Result<Term, Memory>
    ensures { IfOk result (λ t. t ≡ filled (row arguments.now) body.now) }
{
    if let Some((kind, name)) = symbol(&body.head) {
        let argument = argument_for(alloc, arguments, name)?;
        return as_kind(alloc, kind, argument);
    }
    let mut all = TermList::new(alloc);
    for part in body.parts.as_slice() {
        let part = filled(alloc, arguments, part)?;
        all.push(part)?;
    }
    Ok(Term::new(body.head.copy()?, all))
}

/// The normal form of a term with arguments in place of its symbols; none where a product of fractions
/// in it is not kept, or a number in it is not small.
#[tactic(auto, using(crate::proofs::Keeping::form_kept, crate::proofs::Keeping::form_lost, crate::proofs::Keeping::form_large))]
pub(crate) fn filled_form(
    alloc: Global,
    arguments: &TermList,
    body: &Term,
) -> Result<Option<Term>, Memory>
    ensures { IfOk result (λ o. o ≡ kept_form (filled (row arguments.now) body.now)) }
{
    let whole = filled(alloc, arguments, body)?;
    match whole.normal(alloc) {
        Ok(form) => {
            if is_plain(&form) {
                Ok(Some(form))
            } else {
                Ok(None)
            }
        }
        Err(NormalFault::Fraction) => Ok(None),
        Err(NormalFault::Memory) => Err(Memory),
    }
}
