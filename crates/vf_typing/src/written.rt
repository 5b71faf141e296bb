//! Types as they are written.

ghost use Rattle.std.specs.Option.{option_copied};
ghost use Rattle.std.specs.Prelude.{◌≡◌};
ghost use Rattle.vf_typing.specs.Names.{form_type, integer_type, no_function_type, pointer_to, signed_width, struct_pointer, unsigned_width, written_type};

use crate::refusal::refused;
use vf_base::{IntType, Place, Refusal, Rule, Text};
use vf_declared::ctype::CType;
use vf_declared::declaration::Meaning;
use vf_declared::locals::Local;
use vf_declared::scope::Scope;
use vf_syntax::written::{CType as WrittenType, IntegerWords, Sign, TypeForm, Width};

/// The type of a width with a sign.
fn signed_width(width: Width) -> IntType
    ensures { result ≡ signed_width width }
{
    match width {
        Width::Char => IntType::Char,
        Width::Short | Width::ShortInt => IntType::Short,
        Width::Int => IntType::Int,
        Width::Long | Width::LongInt => IntType::Long,
        Width::LongLong | Width::LongLongInt => IntType::LongLong,
    }
}

/// The type of a width without a sign.
fn unsigned_width(width: Width) -> IntType
    ensures { result ≡ unsigned_width width }
{
    match width {
        Width::Char => IntType::UChar,
        Width::Short | Width::ShortInt => IntType::UShort,
        Width::Int => IntType::UInt,
        Width::Long | Width::LongInt => IntType::ULong,
        Width::LongLong | Width::LongLongInt => IntType::ULongLong,
    }
}

/// The integer type that words name (C11 6.7.2).
fn integer_type(words: IntegerWords) -> IntType
    ensures { result ≡ integer_type words }
{
    match words {
        IntegerWords::Sign(Sign::Signed) => IntType::Int,
        IntegerWords::Sign(Sign::Unsigned) => IntType::UInt,
        IntegerWords::Width(width) => signed_width(width),
        IntegerWords::Both(Sign::Signed, width) => signed_width(width),
        IntegerWords::Both(Sign::Unsigned, width) => unsigned_width(width),
    }
}

/// The refusal of a name that is of no function type, where it may be that of a local.
fn no_function_type(local: Option<&Local>, place: Place) -> Result<CType, Refusal>
    ensures { result ≡ no_function_type (option_copied local.entry) place }
{
    match local {
        Some(Local::Ghost(_)) => Err(refused(Rule::GhostInReal, place)),
        _ => Err(refused(Rule::Name, place)),
    }
}

/// A pointer to what a name of file level means in a type.
fn pointer_to(
    scope: &Scope,
    place: Place,
    name: &Text,
    meaning: Option<Meaning>,
) -> Result<CType, Refusal>
    ensures { result ≡ pointer_to scope.now place name.now meaning }
{
    match meaning {
        Some(Meaning::FunctionType(number)) => Ok(CType::FunctionPointer(number)),
        Some(Meaning::Ghost(_)) => Err(refused(Rule::GhostInReal, place)),
        _ => no_function_type(scope.local(name), place),
    }
}

/// A pointer to a struct by its number, or a refusal of the tag.
fn struct_pointer(place: Place, number: Option<usize>) -> Result<CType, Refusal>
    ensures { result ≡ struct_pointer place number }
{
    match number {
        Some(number) => Ok(CType::StructPointer(number)),
        None => Err(refused(Rule::Name, place)),
    }
}

/// The type that is written, or its refusal at an unknown tag or an unknown function type.
pub fn written_type(scope: &Scope, written: &WrittenType) -> Result<CType, Refusal>
    ensures { result ≡ written_type scope.now written.now }
{
    match &written.form {
        TypeForm::Integer(words) => Ok(CType::Integer(integer_type(*words))),
        TypeForm::Bool => Ok(CType::Integer(IntType::Bool)),
        TypeForm::VoidPointer => Ok(CType::VoidPointer),
        TypeForm::IntPointer => Ok(CType::IntPointer),
        TypeForm::StructPointer(tag) => {
            let number = scope.tag(&tag.text, tag.place.file);
            struct_pointer(tag.place, number)
        }
        TypeForm::NamedPointer(name) => {
            let meaning = scope.declaration(name, written.place.file);
            pointer_to(scope, written.place, name, meaning)
        }
    }
}
