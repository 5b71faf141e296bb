//! What chunks take.

ghost use Rattle.std.specs.Prelude.{◌≡◌, ◌↔◌, IsTrue, IfOk, OnOk, length};
ghost use Rattle.std.specs.Option.{option_copied};
ghost use Rattle.vf_binding.specs.Chunks.{IsTakenBelow, block_takes, chunk_takes, declared_takes, ghost_takes, later_takes, local_takes, names_block, value_takes, with_arguments, with_heads, sorts_of};
ghost use Rattle.vf_declared.specs.Scopes.{declaration_of, later_predicate};

use std::alloc::Global;
use vf_base::{Memory, Text};
use vf_declared::declaration::{GhostDeclaration, Meaning};
use vf_declared::locals::Local;
use vf_declared::scope::Scope;
use vf_sorting::kinds::pointer_sort;
use vf_sorting::names::sort_of_local;
use vf_sorts::{Head, Sort, SortList, Unknowns};
use vf_syntax::written::Name;

/// What a chunk takes: the sorts of the first pair of parentheses where there are two, and those of the arguments.
#[derive(Drop)]
pub struct ChunkSorts {
    pub heads: Option<SortList>,
    pub arguments: SortList,
}

/// The sorts of the arguments of one pair of parentheses.
fn with_arguments(arguments: SortList) -> ChunkSorts
    ensures { result ≡ with_arguments arguments }
{
    ChunkSorts {
        heads: None,
        arguments,
    }
}

/// What a value of a sort takes, if it is a predicate sort.
#[tactic(auto, using(crate::proofs::Lists::row_sorts))]
fn value_takes(sort: Sort) -> Option<ChunkSorts>
    ensures { result ≡ value_takes sort }
{
    match sort.head {
        Head::Predicate => Some(with_arguments(sort.parts)),
        _ => None,
    }
}

/// What a local takes, if it has a predicate sort, as far as is known.
fn local_takes(
    alloc: Global,
    unknowns: &Unknowns,
    local: Option<&Local>,
) -> Result<Option<ChunkSorts>, Memory>
    ensures { IfOk result (λ t. t ≡ local_takes unknowns.now (option_copied local.entry)) }
{
    let Some(local) = local else {
        return Ok(None);
    };
    let sort = sort_of_local(alloc, local)?;
    let resolved = unknowns.resolve(&sort)?;
    Ok(value_takes(resolved))
}

/// What is declared by annotations takes, if it makes chunks.
fn ghost_takes(
    alloc: Global,
    declaration: Option<&GhostDeclaration>,
) -> Result<Option<ChunkSorts>, Memory>
    ensures { IfOk result (λ t. t ≡ ghost_takes (option_copied declaration.entry)) }
{
    match declaration {
        Some(GhostDeclaration::Predicate(arguments)) => {
            let arguments = arguments.copy(alloc)?;
            Ok(Some(with_arguments(arguments)))
        }
        Some(GhostDeclaration::Family(family)) => {
            let mut heads = SortList::new(alloc);
            heads.push(family.index.copy(alloc)?)?;
            let arguments = family.arguments.copy(alloc)?;
            Ok(Some(ChunkSorts {
                heads: Some(heads),
                arguments,
            }))
        }
        Some(GhostDeclaration::PredicateConstructor(constructor)) => {
            let heads = constructor.first.copy(alloc)?;
            let arguments = constructor.second.copy(alloc)?;
            Ok(Some(ChunkSorts {
                heads: Some(heads),
                arguments,
            }))
        }
        _ => Ok(None),
    }
}

/// Whether a name is `malloc_block_S` for a struct S that is seen from a file.
fn names_block(alloc: Global, scope: &Scope, name: &Text, file: u32) -> Result<bool, Memory>
    ensures { IfOk result (λ yes. yes ≡ names_block scope.now name.now file) }
{
    let bytes = name.as_bytes();
    if !bytes.starts_with(b"malloc_block_") {
        return Ok(false);
    }
    let tag = Text::from_bytes(alloc, &bytes[13..])?;
    Ok(scope.tag(&tag, file).is_some())
}

/// What `malloc_block_S` takes, if a name is that.
fn block_takes(
    alloc: Global,
    scope: &Scope,
    name: &Text,
    file: u32,
) -> Result<Option<ChunkSorts>, Memory>
    ensures { IfOk result (λ t. t ≡ block_takes scope.now name.now file) }
{
    if !names_block(alloc, scope, name, file)? {
        return Ok(None);
    }
    let mut arguments = SortList::new(alloc);
    arguments.push(pointer_sort(alloc))?;
    Ok(Some(with_arguments(arguments)))
}

/// What a predicate that stands later in the unit takes, or `malloc_block_S`.
fn later_takes(
    alloc: Global,
    scope: &Scope,
    name: &Text,
    file: u32,
) -> Result<Option<ChunkSorts>, Memory>
    ensures { IfOk result (λ t. t ≡ later_takes scope.now name.now file (later_predicate scope.now name.now file)) }
{
    match scope.later_predicate(name, file) {
        Some(arguments) => {
            let arguments = arguments.copy(alloc)?;
            Ok(Some(with_arguments(arguments)))
        }
        None => block_takes(alloc, scope, name, file),
    }
}

/// What a name of file level takes, if it makes chunks.
fn declared_takes(
    alloc: Global,
    scope: &Scope,
    name: &Text,
    file: u32,
) -> Result<Option<ChunkSorts>, Memory>
    ensures { IfOk result (λ t. t ≡ declared_takes scope.now name.now file (declaration_of scope.now name.now file)) }
{
    match scope.declaration(name, file) {
        None => later_takes(alloc, scope, name, file),
        Some(Meaning::Ghost(number)) => ghost_takes(alloc, scope.ghost_declaration(number)),
        Some(_) => Ok(None),
    }
}

/// What a name takes as that of a chunk, if it is one.
pub fn chunk_takes(
    alloc: Global,
    scope: &Scope,
    unknowns: &Unknowns,
    name: &Name,
) -> Result<Option<ChunkSorts>, Memory>
    ensures { IfOk result (λ t. t ≡ chunk_takes scope.now unknowns.now name.now) }
{
    let local = local_takes(alloc, unknowns, scope.local(&name.text))?;
    match local {
        Some(taken) => Ok(Some(taken)),
        None => declared_takes(alloc, scope, &name.text, name.place.file),
    }
}

/// Whether the unknown sorts in what a chunk takes are among those of which something or nothing is known.
#[tactic(auto, using(crate::proofs::Steps::heads_told, crate::proofs::Steps::heads_not_told))]
pub fn has_chunk(unknowns: &Unknowns, taken: &ChunkSorts) -> bool
    ensures { IsTrue result ↔ IsTakenBelow (length unknowns.now) taken.now }
{
    if let Some(heads) = &taken.heads {
        if !unknowns.has_all(heads) {
            return false;
        }
    }
    unknowns.has_all(&taken.arguments)
}
