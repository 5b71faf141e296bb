//! What stands in front of the parameters of a lemma.

ghost use Rattle.std.specs.Prelude.{◌≡◌, IfOk, Ok, Err};
ghost use Rattle.std.specs.Option.{option_copied};
ghost use Rattle.vf_declared.specs.Scopes.{at_name};
ghost use Rattle.vf_sorting.specs.Answers.{Answers};
ghost use Rattle.vf_predicates.specs.Earlier as predicates;
ghost use Rattle.vf_lemma_items.specs.Earlier as earlier;

use std::alloc::Global;
use vf_base::{Memory, NumberList, Refusal, Rule, RuleFault, Sequence};
use vf_datatypes::names::{names_c, type_parameters};
use vf_datatypes::refusal::refused;
use vf_declared::declaration::{Declaration, GhostDeclaration, GhostSides, Lemma, Meaning};
use vf_declared::lookup::has;
use vf_declared::scope::Scope;
use vf_names::Names;
use vf_sorts::SortList;
use vf_syntax::written::Name;

/// What stands in front of a lemma's parameters: the number of the lemma that it is, where one is declared already, and
/// the names of its type parameters.
#[derive(Drop)]
pub struct Head {
    pub earlier: Option<usize>,
    pub parameters: Names,
}

/// What is a lemma.
fn lemma_in(declaration: Option<&GhostDeclaration>) -> Option<&Lemma>
    ensures { option_copied result ≡ earlier.lemma_in (option_copied declaration.entry) }
{
    match declaration {
        Some(GhostDeclaration::Lemma(lemma)) => Some(lemma),
        _ => None,
    }
}

/// The sorts of the arguments of the lemma with a number.
pub fn sorts_of(alloc: Global, scope: &Scope, number: usize) -> Result<SortList, Memory>
    ensures { IfOk result (λ sorts. sorts ≡ earlier.sorts_of scope.now number) }
{
    match lemma_in(scope.ghost_declaration(number)) {
        Some(lemma) => lemma.arguments.copy(alloc),
        None => Ok(SortList::new(alloc)),
    }
}

/// Whether a name is declared, and not seen from the file where it stands now.
fn is_hidden(scope: &Scope, name: &Name) -> bool
    ensures { result ≡ earlier.is_hidden scope.now name.now }
{
    scope.is_declared(name.text.as_bytes())
        && scope.declaration(&name.text, name.place.file).is_none()
}

/// Why a lemma may not have a name, whatever the name means already, if it may not.
fn name_refusal(scope: &Scope, name: &Name) -> Option<Refusal>
    ensures { result ≡ earlier.name_refusal scope.now name.now }
{
    if names_c(scope, &name.text, name.place.file) {
        return Some(refused(Rule::GhostInReal, name.place));
    }
    if is_hidden(scope, name) {
        return Some(refused(Rule::Name, name.place));
    }
    if name.text.as_bytes() == b"main".as_slice() {
        return Some(refused(Rule::Typing, name.place));
    }
    None
}

/// Whether what is declared once more, with a body or without one, is so declared already.
fn is_doubled(has_body: bool, sides: Option<&GhostSides>) -> bool
    ensures { result ≡ predicates.is_doubled has_body (option_copied sides.entry) }
{
    match sides {
        Some(sides) => {
            if has_body {
                sides.is_defined
            } else {
                sides.prototype.is_some()
            }
        }
        None => false,
    }
}

/// Whether the first of some files is one of others.
fn first_is_among(others: &NumberList, files: &NumberList) -> bool
    ensures { result ≡ predicates.first_is_among others.now files.now }
{
    match files.get(0) {
        Some(file) => has(others, *file),
        None => false,
    }
}

/// Whether a declaration stands first in a prelude.
fn is_of_prelude(scope: &Scope, declaration: Option<&Declaration>) -> bool
    ensures { result ≡ predicates.is_of_prelude scope.now (option_copied declaration.entry) }
{
    match declaration {
        Some(declaration) => first_is_among(&scope.preludes, &declaration.files),
        None => false,
    }
}

/// The declaration of a name, in a file that is seen or not.
fn declaration<'a>(scope: &'a Scope, name: &[u8]) -> Option<&'a Declaration>
    ensures { option_copied result ≡ at_name scope.now.names scope.now.declarations name.now }
{
    let number = scope.names.number(name)?;
    scope.declarations.get(number)
}

/// The lemma of a meaning, where a body, or a declaration without one, may be added to it.
fn lemma_of(scope: &Scope, has_body: bool, meaning: Meaning) -> Option<usize>
    ensures { result ≡ earlier.lemma_of scope.now has_body meaning }
{
    match meaning {
        Meaning::Ghost(number) => {
            if lemma_in(scope.ghost_declaration(number)).is_some()
                && !is_doubled(has_body, scope.sides_of_ghost(number))
            {
                Some(number)
            } else {
                None
            }
        }
        _ => None,
    }
}

/// The same where a name has that meaning: nothing is added to what is a prelude's.
fn extended(scope: &Scope, has_body: bool, name: &Name, meaning: Meaning) -> Option<usize>
    ensures { result ≡ earlier.extended scope.now has_body name.now meaning }
{
    if is_of_prelude(scope, declaration(scope, name.text.as_bytes())) {
        None
    } else {
        lemma_of(scope, has_body, meaning)
    }
}

/// What a body of a name, or a declaration without one, is of: of none that is declared before, or of a lemma by its
/// number.
fn earlier(scope: &Scope, has_body: bool, name: &Name) -> Result<Option<usize>, Refusal>
    ensures { result ≡ earlier.earlier scope.now has_body name.now }
{
    if let Some(refusal) = name_refusal(scope, name) {
        return Err(refusal);
    }
    let Some(meaning) = scope.declaration(&name.text, name.place.file) else {
        return Ok(None);
    };
    match extended(scope, has_body, name, meaning) {
        Some(number) => Ok(Some(number)),
        None => Err(refused(Rule::Name, name.place)),
    }
}

/// Whether a lemma that may be none has as many type parameters as there are names.
fn has_as_many(parameters: &Names, lemma: Option<&Lemma>) -> bool
    ensures { result ≡ earlier.has_as_many parameters.now (option_copied lemma.entry) }
{
    match lemma {
        Some(lemma) => lemma.parameters == parameters.len(),
        None => true,
    }
}

/// The lemma that a number stands for, if it stands for one.
fn lemma_at(scope: &Scope, number: Option<usize>) -> Option<&Lemma>
    ensures { option_copied result ≡ earlier.lemma_at scope.now number }
{
    let number = number?;
    lemma_in(scope.ghost_declaration(number))
}

/// What stands in front of the parameters of a lemma with a body, or without one.
#[tactic(auto, using(crate::proofs::Steps::name_stops, crate::proofs::Steps::types_stop, crate::proofs::Steps::types_agree, crate::proofs::Steps::types_differ))]
pub fn find_head(
    alloc: Global,
    scope: &Scope,
    has_body: bool,
    name: &Name,
    types: &Sequence<Name>,
) -> Result<Head, RuleFault>
    ensures { Answers (λ h. earlier.head scope.now has_body name.now types.now ≡ Ok h) (λ r. earlier.head scope.now has_body name.now types.now ≡ Err r) result }
{
    let earlier = earlier(scope, has_body, name)?;
    let parameters = type_parameters(alloc, scope, types)?;
    if has_as_many(&parameters, lemma_at(scope, earlier)) {
        Ok(Head {
            earlier,
            parameters,
        })
    } else {
        Err(RuleFault::Refused(refused(Rule::Name, name.place)))
    }
}
