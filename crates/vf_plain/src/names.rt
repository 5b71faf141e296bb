//! What the functions, function types and structs of a unit are called.

ghost use Rattle.std.specs.Prelude.{◌≡◌, ℕ, List, [], ◌++◌, ◌+◌, ◌<◌, length, drop, IfOk, OnOk};
ghost use Rattle.vf_tree.specs.Core.{Identity};
ghost use Rattle.vf_flow.specs.Named.{identities};
ghost use Rattle.vf_plain.specs.Identities.{identities_behind, identities_named, named_number, paths_of, tag_identities};

use crate::identity::identity;
use std::alloc::Global;
use vf_base::{Memory, Sequence, Text};
use vf_core::Name;
use vf_declared::declaration::Meaning;
use vf_declared::scope::Scope;
use vf_program::push_texts;
use vf_snapshot::Snapshot;

/// What a name of file level may mean that the plain reading has.
#[derive(Clone, Copy, Debug, PartialEq, Eq)]
pub enum Named {
    Function,
    FunctionType,
}

impl Named {
    /// The number of the function or function type that a name means.
    pub fn number(self, meaning: Meaning) -> Option<usize>
        ensures { result ≡ named_number self meaning }
    {
        match (self, meaning) {
            (Named::Function, Meaning::Function(number)) => Some(number),
            (Named::FunctionType, Meaning::FunctionType(number)) => Some(number),
            _ => None,
        }
    }
}

/// So many texts without bytes.
fn empty_texts(alloc: Global, count: usize) -> Result<Sequence<Text>, Memory>
    ensures { IfOk result (λ ts. ts ≡ identities_behind Named.Function [] [] [] count) }
{
    let mut texts = Sequence::new(alloc);
    for _number in 0..count {
        texts.push(Text::new(alloc))?;
    }
    Ok(texts)
}

/// Writes the identity of the declared name at an index in the place of what it means.
fn put_identity(
    alloc: Global,
    snapshot: &Snapshot,
    scope: &Scope,
    named: Named,
    at: usize,
    texts: &mut Sequence<Text>,
) -> Result<(), Memory>
    ensures { OnOk result ((count : ℕ)
        → texts.old ≡ identities_behind named (paths_of snapshot.now) (drop (at + 1) scope.now.names) (drop (at + 1) scope.now.declarations) count
        → texts.new ≡ identities_behind named (paths_of snapshot.now) (drop at scope.now.names) (drop at scope.now.declarations) count) }
{
    let Some(name) = scope.names.name(at) else {
        return Ok(());
    };
    let Some(declaration) = scope.declarations.get(at) else {
        return Ok(());
    };
    let Some(number) = named.number(declaration.meaning) else {
        return Ok(());
    };
    if number < texts.len() {
        texts.set(number, identity(alloc, snapshot, &declaration.files, name)?);
    }
    Ok(())
}

/// The identities of a unit's functions or function types, by their numbers.
fn identities_named(
    alloc: Global,
    snapshot: &Snapshot,
    scope: &Scope,
    named: Named,
    count: usize,
) -> Result<Sequence<Text>, Memory>
    ensures { IfOk result (λ ts. ts ≡ identities_named named (paths_of snapshot.now) scope.now count) }
{
    let mut texts = empty_texts(alloc, count)?;
    let names = scope.names.len();
    for done in 0..names {
        put_identity(alloc, snapshot, scope, named, names - 1 - done, &mut texts)?;
    }
    Ok(texts)
}

/// The identities of a unit's structs, by their numbers.
fn tag_identities(
    alloc: Global,
    snapshot: &Snapshot,
    scope: &Scope,
) -> Result<Sequence<Text>, Memory>
    ensures { IfOk result (λ ts. ts ≡ tag_identities (paths_of snapshot.now) scope.now.tags scope.now.structures) }
{
    let mut texts = Sequence::new(alloc);
    for at in 0..scope.structures.len() {
        let Some(tag) = scope.tags.name(at) else {
            return Ok(texts);
        };
        let Some(structure) = scope.structures.get(at) else {
            return Ok(texts);
        };
        texts.push(identity(alloc, snapshot, &structure.files, tag)?)?;
    }
    Ok(texts)
}

/// The names with as many numbers as a count says, from a first one on.
fn names_from(alloc: Global, first: usize, count: usize) -> Result<Sequence<Name>, Memory>
    ensures between { IfOk result (λ ns. (before texts behind : List Identity) → length before ≡ first → length texts ≡ count → identities (before ++ texts ++ behind) ns ≡ texts) }
    ensures last { IfOk result (λ ns. (before texts : List Identity) → length before ≡ first → length texts ≡ count → identities (before ++ texts) ns ≡ texts) }
{
    let mut names = Sequence::new(alloc);
    for at in 0..count {
        let Some(number) = first.checked_add(at) else {
            return Err(Memory);
        };
        let Ok(number) = u32::try_from(number) else {
            return Err(Memory);
        };
        names.push(Name { number })?;
    }
    Ok(names)
}

/// A table of names, and which of them the functions, the structs and the function types of a unit have, by their
/// numbers.
#[derive(Drop)]
pub struct UnitNames {
    pub table: Sequence<Text>,
    pub functions: Sequence<Name>,
    pub structures: Sequence<Name>,
    pub function_types: Sequence<Name>,
}

/// What the functions, function types and structs of a unit are called.
///
/// # Errors
///
/// Where memory ran out, or there are more of them than names have numbers.
pub fn unit_names(alloc: Global, snapshot: &Snapshot, scope: &Scope) -> Result<UnitNames, Memory>
    ensures few { IfOk result (λ u. length u.table < 4294967296) }
    ensures functions { IfOk result (λ u. identities u.table u.functions ≡ identities_named Named.Function (paths_of snapshot.now) scope.now (length scope.now.functions)) }
    ensures structures { IfOk result (λ u. identities u.table u.structures ≡ tag_identities (paths_of snapshot.now) scope.now.tags scope.now.structures) }
    ensures function_types { IfOk result (λ u. identities u.table u.function_types ≡ identities_named Named.FunctionType (paths_of snapshot.now) scope.now (length scope.now.function_types)) }
{
    let count = scope.functions.len();
    let functions = identities_named(alloc, snapshot, scope, Named::Function, count)?;
    let structures = tag_identities(alloc, snapshot, scope)?;
    let count = scope.function_types.len();
    let function_types = identities_named(alloc, snapshot, scope, Named::FunctionType, count)?;
    let mut table = Sequence::new(alloc);
    push_texts(&mut table, &functions)?;
    let first_structure = table.len();
    push_texts(&mut table, &structures)?;
    let first_type = table.len();
    push_texts(&mut table, &function_types)?;
    if table.len() > u32::MAX as usize {
        return Err(Memory);
    }
    Ok(UnitNames {
        table,
        functions: names_from(alloc, 0, functions.len())?,
        structures: names_from(alloc, first_structure, structures.len())?,
        function_types: names_from(alloc, first_type, function_types.len())?,
    })
}
