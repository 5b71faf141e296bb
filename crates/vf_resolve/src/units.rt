//! Whole units.

ghost use Rattle.std.specs.Prelude.{◌≡◌, IfOk};
ghost use Rattle.vf_resolve.specs.Beginning.{beginning};
ghost use Rattle.vf_resolve.specs.Units.{IsResolved};

use crate::files::Files;
use std::alloc::Global;
use vf_annotations::Ghosts;
use vf_base::{Memory, RuleFault, Sequence};
use vf_declared::scope::Scope;
use vf_gathering::{ahead_of, datatypes_of, predicates_of};
use vf_syntax::item::Item;
use vf_walk::walk_items;

/// What is declared in front of the items of a unit: nothing yet, but its files are known, and the predicates that
/// stand in it.
pub fn begin(alloc: Global, files: Files, items: &Sequence<Item>) -> Result<Scope, Memory>
    ensures { IfOk result (λ s. s ≡ beginning files items.now) }
{
    let ahead = ahead_of(alloc, items)?;
    let foretold = predicates_of(alloc, &ahead, items)?;
    let mut scope = Scope::new(alloc, files.own);
    scope.headers = files.headers;
    scope.preludes = files.preludes;
    scope.has_stdlib = files.has_stdlib;
    scope.has_arrays = files.has_arrays;
    scope.predicates = foretold.stated.names;
    scope.predicate_files = foretold.stated.files;
    scope.predicate_sorts = foretold.sorts;
    Ok(scope)
}

/// What a unit declares, its annotations included: the names of its items with their types and sorts, in the order of
/// the text.
///
/// # Errors
///
/// Refused at the first fault in the order of the text, by the rules of names, of types and sorts, of ghost names in C
/// text, of the order of operands, of datatypes without a value, and of what is not supported.
#[tactic(auto, using(crate::proofs::Wholes::memory, crate::proofs::Wholes::stops, crate::proofs::Wholes::comes))]
pub fn resolve(alloc: Global, files: Files, items: &Sequence<Item>) -> Result<Scope, RuleFault>
    ensures { IsResolved files items.now result }
{
    let mut scope = begin(alloc, files, items)?;
    let ghosts = Ghosts {
        alloc,
        stated: datatypes_of(alloc, items)?,
    };
    walk_items(alloc, &mut scope, &ghosts, items)?;
    Ok(scope)
}
