//! What the names of a unit mean for its manifest.

ghost use Rattle.std.specs.Prelude.{◌≡◌, IfOk};
ghost use Rattle.std.specs.Option.{option_copied};
ghost use Rattle.vf_snapshot.specs.Holdings.{paths};
ghost use Rattle.vf_declared.specs.Scopes.{at_name};
ghost use Rattle.vf_terms.specs.Named.{first_path};
ghost use Rattle.vf_promises.specs.Meanings as meant;
ghost use Rattle.vf_promises.specs.Meanings.{declared, function_told, has_ghost_side, has_side, identity_in, is_lemma, is_of_prelude, lemma_told, means_defined, means_lemma, means_undefined, means_unproved, names_in, names_meant, names_of_ghost_side, names_of_side, signature_meant};

use crate::signature::{function_signature, lemma_signature};
use crate::type_names::TypeNames;
use std::alloc::Global;
use vf_base::{Memory, NumberList, Text};
use vf_declared::declaration::{
    Declaration, GhostDeclaration, GhostSides, Meaning, Sides, Signature, Structure,
};
use vf_declared::locals::Locals;
use vf_declared::lookup::has;
use vf_declared::scope::Scope;
use vf_manifest::Identity;
use vf_names::Names;
use vf_snapshot::Snapshot;

/// The path of the file with a number; no bytes where there is none.
pub fn path_at(snapshot: &Snapshot, file: u64) -> Result<&[u8], Memory>
    ensures { IfOk result (λ t. t.now ≡ meant.path_at snapshot.now file) }
{
    let Ok(number) = u32::try_from(file) else {
        return Err(Memory);
    };
    if (number as usize) < snapshot.len() {
        Ok(snapshot.path(number).as_bytes())
    } else {
        Ok(&[])
    }
}

/// The path of the first of some files; no bytes where there is none.
fn first_path<'a>(snapshot: &'a Snapshot, files: &[u64]) -> Result<&'a [u8], Memory>
    ensures { IfOk result (λ t. t.now ≡ first_path (paths snapshot.now) files.now) }
{
    match files.get(0) {
        Some(file) => path_at(snapshot, *file),
        None => Ok(&[]),
    }
}

/// The identity of a name that is declared in some files.
fn identity_in<'a>(
    snapshot: &'a Snapshot,
    files: &[u64],
    name: &'a [u8],
) -> Result<Identity<'a>, Memory>
    ensures { IfOk result (λ i. i ≡ identity_in snapshot.now files.now name.now) }
{
    let path = first_path(snapshot, files)?;
    Ok(Identity::new(path, name))
}

/// What declares a name of file level.
fn declared<'a>(scope: &'a Scope, name: &[u8]) -> Option<&'a Declaration>
    ensures { option_copied result ≡ declared scope.now name.now }
{
    let number = scope.names.number(name)?;
    scope.declarations.get(number)
}

/// The identity of a name of file level.
pub fn identity_named<'a>(
    snapshot: &'a Snapshot,
    scope: &Scope,
    name: &'a [u8],
) -> Result<Identity<'a>, Memory>
    ensures { IfOk result (λ i. i ≡ meant.identity_named snapshot.now scope.now name.now) }
{
    match declared(scope, name) {
        Some(declaration) => identity_in(snapshot, declaration.files.as_slice(), name),
        None => identity_in(snapshot, &[], name),
    }
}

/// What is declared with a tag.
fn structure_at<'a>(scope: &'a Scope, tag: &[u8]) -> Option<&'a Structure>
    ensures { option_copied result ≡ at_name scope.now.tags scope.now.structures tag.now }
{
    let number = scope.tags.number(tag)?;
    scope.structures.get(number)
}

/// The identity of a tag.
pub fn identity_tagged<'a>(
    snapshot: &'a Snapshot,
    scope: &Scope,
    tag: &'a Text,
) -> Result<Identity<'a>, Memory>
    ensures { IfOk result (λ i. i ≡ meant.identity_tagged snapshot.now scope.now tag.now) }
{
    match structure_at(scope, tag.as_bytes()) {
        Some(structure) => { identity_in(snapshot, structure.files.as_slice(), tag.as_bytes()) }
        None => identity_in(snapshot, &[], tag.as_bytes()),
    }
}

/// Whether what is declared in some files is the prelude's.
fn is_of_prelude(scope: &Scope, files: &NumberList) -> bool
    ensures { result ≡ is_of_prelude scope.now files.now }
{
    match files.get(0) {
        Some(file) => has(&scope.preludes, *file),
        None => false,
    }
}

/// The signature of a function, which is not told where there is none.
fn function_told(
    alloc: Global,
    names: &TypeNames,
    signature: Option<&Signature>,
) -> Result<Text, Memory>
    ensures { IfOk result (λ t. t ≡ function_told names.now (option_copied signature.entry)) }
{
    match signature {
        Some(signature) => function_signature(alloc, names, signature),
        None => Text::from_bytes(alloc, b"?"),
    }
}

/// The signature of a lemma, which is not told of anything else.
fn lemma_told(
    alloc: Global,
    names: &TypeNames,
    declaration: Option<&GhostDeclaration>,
) -> Result<Text, Memory>
    ensures { IfOk result (λ t. t ≡ lemma_told names.now (option_copied declaration.entry)) }
{
    match declaration {
        Some(GhostDeclaration::Lemma(lemma)) => lemma_signature(alloc, names, lemma),
        _ => Text::from_bytes(alloc, b"?"),
    }
}

/// The signature of what a name means.
fn signature_meant(
    alloc: Global,
    scope: &Scope,
    names: &TypeNames,
    meaning: Meaning,
) -> Result<Text, Memory>
    ensures { IfOk result (λ t. t ≡ signature_meant scope.now names.now meaning) }
{
    match meaning {
        Meaning::Function(number) => function_told(alloc, names, scope.signature(number)),
        Meaning::FunctionType(_) => Text::from_bytes(alloc, b"?"),
        Meaning::Ghost(number) => lemma_told(alloc, names, scope.ghost_declaration(number)),
    }
}

/// The signature of the function or the lemma with a name.
pub fn signature_named(
    alloc: Global,
    scope: &Scope,
    names: &TypeNames,
    name: &[u8],
) -> Result<Text, Memory>
    ensures { IfOk result (λ t. t ≡ meant.signature_named scope.now names.now name.now) }
{
    match declared(scope, name) {
        Some(declaration) => signature_meant(alloc, scope, names, declaration.meaning),
        None => Text::from_bytes(alloc, b"?"),
    }
}

/// Whether a function has a body in the unit, by what it is declared with.
fn has_side(sides: Option<&Sides>) -> bool
    ensures { result ≡ has_side (option_copied sides.entry) }
{
    match sides {
        Some(sides) => sides.is_defined,
        None => false,
    }
}

/// Whether a lemma has a body in the unit, by what it is declared with.
fn has_ghost_side(sides: Option<&GhostSides>) -> bool
    ensures { result ≡ has_ghost_side (option_copied sides.entry) }
{
    match sides {
        Some(sides) => sides.is_defined,
        None => false,
    }
}

/// Whether annotations declare a lemma.
fn is_lemma(declaration: Option<&GhostDeclaration>) -> bool
    ensures { result ≡ is_lemma (option_copied declaration.entry) }
{
    match declaration {
        Some(GhostDeclaration::Lemma(_)) => true,
        _ => false,
    }
}

/// Whether a name means a function that has a body in the unit.
fn means_defined(scope: &Scope, meaning: Meaning) -> bool
    ensures { result ≡ means_defined scope.now meaning }
{
    match meaning {
        Meaning::Function(number) => has_side(scope.sides.get(number)),
        _ => false,
    }
}

/// Whether a name means a function that has no body in the unit.
fn means_undefined(scope: &Scope, meaning: Meaning) -> bool
    ensures { result ≡ means_undefined scope.now meaning }
{
    match meaning {
        Meaning::Function(number) => !has_side(scope.sides.get(number)),
        _ => false,
    }
}

/// Whether a name means a lemma.
fn means_lemma(scope: &Scope, meaning: Meaning) -> bool
    ensures { result ≡ means_lemma scope.now meaning }
{
    match meaning {
        Meaning::Ghost(number) => is_lemma(scope.ghost_declaration(number)),
        _ => false,
    }
}

/// Whether a name means a lemma that has no body in the unit.
fn means_unproved(scope: &Scope, meaning: Meaning) -> bool
    ensures { result ≡ means_unproved scope.now meaning }
{
    match meaning {
        Meaning::Ghost(number) => {
            is_lemma(scope.ghost_declaration(number))
                && !has_ghost_side(scope.sides_of_ghost(number))
        }
        _ => false,
    }
}

/// Whether a name is that of a function with a body in the unit.
pub fn is_defined_function(scope: &Scope, name: &[u8]) -> bool
    ensures { result ≡ meant.is_defined_function scope.now name.now }
{
    match declared(scope, name) {
        Some(declaration) => means_defined(scope, declaration.meaning),
        None => false,
    }
}

/// Whether a name is that of a function that has no body in the unit and is not the prelude's.
pub fn is_undefined_function(scope: &Scope, name: &[u8]) -> bool
    ensures { result ≡ meant.is_undefined_function scope.now name.now }
{
    match declared(scope, name) {
        Some(declaration) => {
            means_undefined(scope, declaration.meaning) && !is_of_prelude(scope, &declaration.files)
        }
        None => false,
    }
}

/// Whether a name is that of a lemma.
pub fn is_name_of_lemma(scope: &Scope, name: &[u8]) -> bool
    ensures { result ≡ meant.is_name_of_lemma scope.now name.now }
{
    match declared(scope, name) {
        Some(declaration) => means_lemma(scope, declaration.meaning),
        None => false,
    }
}

/// Whether a name is that of a lemma that has no body in the unit and is not the prelude's.
pub fn is_unproved_lemma(scope: &Scope, name: &[u8]) -> bool
    ensures { result ≡ meant.is_unproved_lemma scope.now name.now }
{
    match declared(scope, name) {
        Some(declaration) => {
            means_unproved(scope, declaration.meaning) && !is_of_prelude(scope, &declaration.files)
        }
        None => false,
    }
}

/// The names of some locals that may be there.
fn names_in(locals: &Option<Locals>) -> Option<&Names>
    ensures { option_copied result ≡ names_in locals.now }
{
    match locals {
        Some(locals) => Some(&locals.names),
        None => None,
    }
}

/// The names behind the prototype of a function.
fn names_of_side(sides: Option<&Sides>) -> Option<&Names>
    ensures { option_copied result ≡ names_of_side (option_copied sides.entry) }
{
    match sides {
        Some(sides) => names_in(&sides.prototype),
        None => None,
    }
}

/// The names behind the prototype of a lemma.
fn names_of_ghost_side(sides: Option<&GhostSides>) -> Option<&Names>
    ensures { option_copied result ≡ names_of_ghost_side (option_copied sides.entry) }
{
    match sides {
        Some(sides) => names_in(&sides.prototype),
        None => None,
    }
}

/// The names behind the prototype of what a name means, where it has one.
fn names_meant(scope: &Scope, meaning: Meaning) -> Option<&Names>
    ensures { option_copied result ≡ names_meant scope.now meaning }
{
    match meaning {
        Meaning::Function(number) => names_of_side(scope.sides.get(number)),
        Meaning::FunctionType(_) => None,
        Meaning::Ghost(number) => names_of_ghost_side(scope.sides_of_ghost(number)),
    }
}

/// The names behind the prototype of the function or the lemma with a name, where it has one.
pub fn prototype_names<'a>(scope: &'a Scope, name: &[u8]) -> Option<&'a Names>
    ensures { option_copied result ≡ meant.prototype_names scope.now name.now }
{
    match declared(scope, name) {
        Some(declaration) => names_meant(scope, declaration.meaning),
        None => None,
    }
}

/// Whether a name is one of some.
pub fn is_among(names: &Names, name: &[u8]) -> bool
    ensures { result ≡ meant.is_among names.now name.now }
{
    names.number(name).is_some()
}

/// Whether a name means a function type, where it is seen.
pub fn is_type_meant(meaning: Option<Meaning>) -> bool
    ensures { result ≡ meant.is_type_meant meaning }
{
    match meaning {
        Some(Meaning::FunctionType(_)) => true,
        _ => false,
    }
}
