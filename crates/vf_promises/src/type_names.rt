//! What the tags, function types and datatypes of a unit are called.

ghost use Rattle.std.specs.Prelude.{◌≡◌, ℕ, [], ◌+◌, length, drop, IfOk, OnOk};
ghost use Rattle.std.specs.Option.{option_copied};
ghost use Rattle.vf_promises.specs.TypeNames as names;
ghost use Rattle.vf_promises.specs.TypeNames.{datatype_number, named_number, names_behind, names_named};

use std::alloc::Global;
use vf_base::{Memory, Sequence, Text};
use vf_declared::declaration::{GhostDeclaration, Meaning};
use vf_declared::scope::Scope;

/// What a name of file level may mean that stands in signatures by its name.
#[derive(Clone, Copy, Debug, PartialEq, Eq)]
pub enum Named {
    FunctionType,
    Datatype,
}

/// The number of the datatype that annotations declare.
fn datatype_number(declaration: Option<&GhostDeclaration>) -> Option<usize>
    ensures { result ≡ datatype_number (option_copied declaration.entry) }
{
    match declaration {
        Some(GhostDeclaration::Datatype(number)) => Some(*number),
        _ => None,
    }
}

impl Named {
    /// The number of the function type, or of the datatype, that a name means.
    fn number(self, scope: &Scope, meaning: Meaning) -> Option<usize>
        ensures { result ≡ named_number scope.now self meaning }
    {
        match (self, meaning) {
            (Named::FunctionType, Meaning::FunctionType(number)) => Some(number),
            (Named::Datatype, Meaning::Ghost(number)) => {
                datatype_number(scope.ghost_declaration(number))
            }
            _ => None,
        }
    }
}

/// So many names without bytes.
fn empty_names(alloc: Global, scope: &Scope, count: usize) -> Result<Sequence<Text>, Memory>
    ensures { IfOk result (λ xs. xs ≡ names_behind scope.now Named.Datatype [] [] count) }
{
    let mut names = Sequence::new(alloc);
    for _number in 0..count {
        names.push(Text::new(alloc))?;
    }
    Ok(names)
}

/// Writes the declared name at an index in the place of what it means.
fn put_name(
    alloc: Global,
    scope: &Scope,
    named: Named,
    at: usize,
    names: &mut Sequence<Text>,
) -> Result<(), Memory>
    ensures { OnOk result ((count : ℕ)
        → names.old ≡ names_behind scope.now named (drop (at + 1) scope.now.names) (drop (at + 1) scope.now.declarations) count
        → names.new ≡ names_behind scope.now named (drop at scope.now.names) (drop at scope.now.declarations) count) }
{
    let Some(name) = scope.names.name(at) else {
        return Ok(());
    };
    let Some(declaration) = scope.declarations.get(at) else {
        return Ok(());
    };
    let Some(number) = named.number(scope, declaration.meaning) else {
        return Ok(());
    };
    if number < names.len() {
        names.set(number, Text::from_bytes(alloc, name)?);
    }
    Ok(())
}

/// What the function types or the datatypes of a unit are called, of which there are so many.
fn names_named(
    alloc: Global,
    scope: &Scope,
    named: Named,
    count: usize,
) -> Result<Sequence<Text>, Memory>
    ensures { IfOk result (λ xs. xs ≡ names_named scope.now named count) }
{
    let mut names = empty_names(alloc, scope, count)?;
    let declared = scope.names.len();
    for done in 0..declared {
        put_name(alloc, scope, named, declared - 1 - done, &mut names)?;
    }
    Ok(names)
}

/// What the tags of a unit are called.
fn tags(alloc: Global, scope: &Scope) -> Result<Sequence<Text>, Memory>
    ensures { IfOk result (λ xs. xs ≡ scope.now.tags) }
{
    let mut tags = Sequence::new(alloc);
    for tag in scope.tags.as_slice() {
        tags.push(tag.copy()?)?;
    }
    Ok(tags)
}

/// What the tags, function types and datatypes of a unit are called, by their numbers.
#[derive(Drop)]
pub struct TypeNames {
    pub tags: Sequence<Text>,
    pub function_types: Sequence<Text>,
    pub datatypes: Sequence<Text>,
}

/// What the tags, function types and datatypes of a unit are called.
pub fn type_names(alloc: Global, scope: &Scope) -> Result<TypeNames, Memory>
    ensures { IfOk result (λ t. t ≡ names.type_names scope.now) }
{
    let function_types = scope.function_types.len();
    let datatypes = scope.datatypes.len();
    Ok(TypeNames {
        tags: tags(alloc, scope)?,
        function_types: names_named(alloc, scope, Named::FunctionType, function_types)?,
        datatypes: names_named(alloc, scope, Named::Datatype, datatypes)?,
    })
}
