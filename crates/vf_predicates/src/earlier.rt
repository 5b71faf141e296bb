//! What stands for a predicate already where it is declared once more.

ghost use Rattle.std.specs.Prelude.{◌≡◌, IfOk, OnOk, is_some};
ghost use Rattle.std.specs.Option.{option_copied};
ghost use Rattle.vf_declared.specs.Scopes.{at_name};
ghost use Rattle.vf_asserting.specs.Cases as cases;
ghost use Rattle.vf_predicates.specs.Earlier as earlier;

use std::alloc::Global;
use vf_base::{Memory, NumberList, Refusal, Rule};
use vf_datatypes::refusal::refused;
use vf_declared::declaration::{Declaration, GhostDeclaration, GhostSides, Meaning};
use vf_declared::lookup::has;
use vf_declared::scope::Scope;
use vf_sorts::SortList;
use vf_syntax::written::Name;

/// The number of what a name of file level means, where annotations declare it.
pub fn ghost_number(meaning: Option<Meaning>) -> Option<usize>
    ensures { result ≡ cases.ghost_number meaning }
{
    match meaning {
        Some(Meaning::Ghost(number)) => Some(number),
        _ => None,
    }
}

/// The sorts of the arguments of what is a predicate.
fn predicate_sorts(declaration: Option<&GhostDeclaration>) -> Option<&SortList>
    ensures { option_copied result ≡ earlier.predicate_sorts (option_copied declaration.entry) }
{
    match declaration {
        Some(GhostDeclaration::Predicate(sorts)) => Some(sorts),
        _ => None,
    }
}

/// The predicate that a name means already where it stands, by its number.
pub fn earlier(scope: &Scope, name: &Name) -> Option<usize>
    ensures { result ≡ earlier.earlier scope.now name.now }
{
    let meaning = scope.declaration(&name.text, name.place.file);
    let number = ghost_number(meaning)?;
    if predicate_sorts(scope.ghost_declaration(number)).is_some() {
        Some(number)
    } else {
        None
    }
}

/// The sorts of the arguments of the predicate with a number.
pub fn sorts_of(alloc: Global, scope: &Scope, number: usize) -> Result<SortList, Memory>
    ensures { IfOk result (λ sorts. sorts ≡ earlier.sorts_of scope.now number) }
{
    match predicate_sorts(scope.ghost_declaration(number)) {
        Some(sorts) => sorts.copy(alloc),
        None => Ok(SortList::new(alloc)),
    }
}

/// Whether what is declared once more, with a body or without one, is so declared already.
fn is_doubled(has_body: bool, sides: Option<&GhostSides>) -> bool
    ensures { result ≡ earlier.is_doubled has_body (option_copied sides.entry) }
{
    match sides {
        Some(sides) => {
            if has_body {
                sides.is_defined
            } else {
                sides.prototype.is_some()
            }
        }
        None => false,
    }
}

/// Whether the first of some files is one of others.
fn first_is_among(others: &NumberList, files: &NumberList) -> bool
    ensures { result ≡ earlier.first_is_among others.now files.now }
{
    match files.get(0) {
        Some(file) => has(others, *file),
        None => false,
    }
}

/// Whether a declaration stands first in a prelude.
fn is_of_prelude(scope: &Scope, declaration: Option<&Declaration>) -> bool
    ensures { result ≡ earlier.is_of_prelude scope.now (option_copied declaration.entry) }
{
    match declaration {
        Some(declaration) => first_is_among(&scope.preludes, &declaration.files),
        None => false,
    }
}

/// The declaration of a name, in a file that is seen or not.
fn declaration<'a>(scope: &'a Scope, name: &[u8]) -> Option<&'a Declaration>
    ensures { option_copied result ≡ at_name scope.now.names scope.now.declarations name.now }
{
    let number = scope.names.number(name)?;
    scope.declarations.get(number)
}

/// Whether a name is a prelude's, and does not stand in a prelude here.
fn is_foreign(scope: &Scope, name: &Name) -> bool
    ensures { result ≡ earlier.is_foreign scope.now name.now }
{
    is_of_prelude(scope, declaration(scope, name.text.as_bytes()))
        && !has(&scope.preludes, u64::from(name.place.file))
}

/// Why the predicate with a number may not be declared once more, if it may not (rule 5).
pub fn again_refusal(has_body: bool, scope: &Scope, name: &Name, number: usize) -> Option<Refusal>
    ensures { result ≡ earlier.again_refusal has_body scope.now name.now number }
{
    if is_doubled(has_body, scope.sides_of_ghost(number)) || has_body && is_foreign(scope, name) {
        Some(refused(Rule::Name, name.place))
    } else {
        None
    }
}

/// What is declared under a name stands in the name's file too.
pub fn declare_too(alloc: Global, scope: &mut Scope, name: &Name) -> Result<(), Memory>
    ensures { OnOk result (scope.new ≡ earlier.seen_too scope.old name.now) }
{
    match scope.names.number(name.text.as_bytes()) {
        Some(number) => scope.declare_name_again(alloc, number, name.place.file),
        None => Ok(()),
    }
}
