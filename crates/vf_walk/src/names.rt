//! When names of file level and tags may be declared.

ghost use Rattle.std.specs.Prelude.{◌≡◌};
ghost use Rattle.std.specs.Option.{option_copied};
ghost use Rattle.vf_declared.specs.Scopes.{at_name};
ghost use Rattle.vf_walk.specs.Names.{earlier, extended, function_of, has_types, is_new, is_of_prelude, is_stated, is_taken, lacks, may_be_stated};

use vf_base::{NumberList, Refusal, Rule, Sequence};
use vf_declared::ctype::CType;
use vf_declared::declaration::{Declaration, Meaning, Sides, Signature, Structure};
use vf_declared::lookup::has;
use vf_declared::scope::Scope;
use vf_syntax::written::Name;
use vf_typing::{refused, same_types};

/// Whether a name is that of `free`, in a unit that has `<stdlib.h>`.
fn is_taken(scope: &Scope, name: &[u8]) -> bool
    ensures { result ≡ is_taken scope.now name.now }
{
    scope.has_stdlib && name == b"free".as_slice()
}

/// Whether the first of the files in which something is declared is a prelude's.
fn is_of_prelude(scope: &Scope, files: &NumberList) -> bool
    ensures { result ≡ is_of_prelude scope.now files.now }
{
    match files.as_slice() {
        [] => false,
        [file, ..] => has(&scope.preludes, *file),
    }
}

/// Whether a function has no prototype so far, or no body.
fn lacks(has_body: bool, sides: Option<&Sides>) -> bool
    ensures { result ≡ lacks has_body (option_copied sides.entry) }
{
    match sides {
        Some(sides) => {
            if has_body {
                !sides.is_defined
            } else {
                sides.prototype.is_none()
            }
        }
        None => false,
    }
}

/// The function of a meaning, if a prototype or a body may be added to it.
fn function_of(scope: &Scope, has_body: bool, meaning: Meaning) -> Option<usize>
    ensures { result ≡ function_of scope.now has_body meaning }
{
    match meaning {
        Meaning::Function(number) => {
            if lacks(has_body, scope.sides.get(number)) {
                Some(number)
            } else {
                None
            }
        }
        _ => None,
    }
}

/// The same of a declaration, where the new one stands in a file.
fn extended(scope: &Scope, file: u32, has_body: bool, declaration: &Declaration) -> Option<usize>
    ensures { result ≡ extended scope.now file has_body declaration.now }
{
    if scope.is_visible(file, &declaration.files) && !is_of_prelude(scope, &declaration.files) {
        function_of(scope, has_body, declaration.meaning)
    } else {
        None
    }
}

/// The declaration of a name, in a file that is seen or not.
fn declaration<'a>(scope: &'a Scope, name: &[u8]) -> Option<&'a Declaration>
    ensures { option_copied result ≡ at_name scope.now.names scope.now.declarations name.now }
{
    let number = scope.names.number(name)?;
    scope.declarations.get(number)
}

/// What a prototype or a body of a name is of: of none that is declared before, or of a function by its number.
pub fn earlier(scope: &Scope, name: &Name, has_body: bool) -> Result<Option<usize>, Refusal>
    ensures { result ≡ earlier scope.now name.now has_body }
{
    if is_taken(scope, name.text.as_bytes()) {
        return Err(refused(Rule::Name, name.place));
    }
    let Some(before) = declaration(scope, name.text.as_bytes()) else {
        return Ok(None);
    };
    match extended(scope, name.place.file, has_body, before) {
        Some(number) => Ok(Some(number)),
        None => Err(refused(Rule::Name, name.place)),
    }
}

/// Whether nothing of file level has a name so far.
pub fn is_new(scope: &Scope, name: &[u8]) -> bool
    ensures { result ≡ is_new scope.now name.now }
{
    !is_taken(scope, name) && !scope.is_declared(name)
}

/// Whether a function has these types.
pub fn has_types(given: CType, taken: &Sequence<CType>, signature: Option<&Signature>) -> bool
    ensures { result ≡ has_types given taken.now (option_copied signature.entry) }
{
    match signature {
        Some(signature) => {
            signature.result.same(given) && same_types(&signature.parameters, taken)
        }
        None => false,
    }
}

/// Whether a struct is declared already as opaque, or with its fields.
fn is_stated(is_opaque: bool, structure: &Structure) -> bool
    ensures { result ≡ is_stated is_opaque structure.now }
{
    if is_opaque {
        structure.is_opaque
    } else {
        structure.fields.is_some()
    }
}

/// Whether a struct may be declared again in a file, as opaque or with its fields.
pub fn may_be_stated(
    scope: &Scope,
    file: u32,
    is_opaque: bool,
    structure: Option<&Structure>,
) -> bool
    ensures { result ≡ may_be_stated scope.now file is_opaque (option_copied structure.entry) }
{
    let Some(structure) = structure else {
        return false;
    };
    if !scope.is_visible(file, &structure.files) || is_stated(is_opaque, structure) {
        return false;
    }
    !is_of_prelude(scope, &structure.files) || has(&scope.preludes, u64::from(file))
}
