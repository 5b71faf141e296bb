//! Memory, reads and what is called.

ghost use Rattle.std.specs.Prelude.{◌≡◌, Ok, Some};
ghost use Rattle.std.specs.Option.{option_copied};
ghost use Rattle.vf_typing.specs.Parts.{allocated, called, element, field_behind, field_found, freed, freed_type, int_memory, struct_memory};

use crate::operand::Operand;
use crate::operators::if_typed;
use crate::refusal::refused;
use crate::types::{is_index, is_int};
use vf_base::{IntType, Place, Refusal, Rule};
use vf_declared::ctype::CType;
use vf_declared::declaration::Signature;
use vf_declared::scope::Scope;
use vf_syntax::written::Name;

/// Memory for a struct by its number, whose fields are declared.
fn struct_memory(
    scope: &Scope,
    place: Place,
    tag: Place,
    number: Option<usize>,
) -> Result<Operand, Refusal>
    ensures { result ≡ struct_memory scope.now place tag number }
{
    match number {
        Some(number) => {
            let pointer = Operand::value(place, CType::StructPointer(number));
            if_typed(scope.has_fields(number), place, pointer)
        }
        None => Err(refused(Rule::Name, tag)),
    }
}

/// `malloc(sizeof(struct S))` at a place.
pub fn allocated(scope: &Scope, place: Place, tag: &Name) -> Result<Operand, Refusal>
    ensures { result ≡ allocated scope.now place tag.now }
{
    if !scope.has_stdlib {
        return Err(refused(Rule::Name, place));
    }
    let number = scope.tag(&tag.text, tag.place.file);
    struct_memory(scope, place, tag.place, number)
}

/// Memory at a place for some ints, of which the operand is the number.
pub fn int_memory(place: Place, length: Operand) -> Result<Operand, Refusal>
    ensures { result ≡ int_memory place (Ok length) }
{
    let pointer = Operand::value(place, CType::IntPointer);
    if_typed(is_int(length.ctype), length.place, pointer)
}

/// A call of `free` at a place with one argument.
pub fn freed(scope: &Scope, place: Place, argument: Operand) -> Result<Operand, Refusal>
    ensures { result ≡ freed scope.now place (Ok argument) }
{
    let nothing = Operand::value(place, CType::Void);
    match argument.ctype {
        CType::IntPointer => Ok(nothing),
        CType::StructPointer(number) => if_typed(scope.has_fields(number), place, nothing),
        _ => Err(refused(Rule::Typing, argument.place)),
    }
}

/// A field at a place, if it is found.
fn field_found(place: Place, name: Place, ctype: Option<CType>) -> Result<Operand, Refusal>
    ensures { result ≡ field_found place name ctype }
{
    match ctype {
        Some(ctype) => Ok(Operand::value(place, ctype)),
        None => Err(refused(Rule::Name, name)),
    }
}

/// The field of a name behind an operand.
pub fn field_behind(scope: &Scope, operand: Operand, name: &Name) -> Result<Operand, Refusal>
    ensures { result ≡ field_behind scope.now operand.place name.now operand.ctype }
{
    match operand.ctype {
        CType::StructPointer(number) => {
            let found = scope.field(number, &name.text, name.place.file);
            field_found(operand.place, name.place, found)
        }
        _ => Err(refused(Rule::Typing, operand.place)),
    }
}

/// An element at a place of an array, behind a `[`.
pub fn element(
    scope: &Scope,
    place: Place,
    bracket: Place,
    index: Operand,
) -> Result<Operand, Refusal>
    ensures { result ≡ element scope.now place bracket index }
{
    if !is_index(index.ctype) {
        return Err(refused(Rule::Typing, index.place));
    }
    if scope.has_arrays {
        Ok(Operand::value(place, CType::Integer(IntType::Int)))
    } else {
        Err(refused(Rule::Name, bracket))
    }
}

/// What is called.
pub fn called(scope: &Scope, ctype: CType) -> Option<&Signature>
    ensures { option_copied result ≡ called scope.now ctype }
{
    match ctype {
        CType::Function(number) => scope.signature(number),
        CType::FunctionPointer(number) => scope.function_type(number),
        _ => None,
    }
}
