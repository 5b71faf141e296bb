//! Signatures.

ghost use Rattle.std.specs.Prelude.{◌≡◌, map, [], ◌∷◌};
ghost use Rattle.vf_base.specs.declared.int_type.IntType.TheVariants as types;
ghost use Rattle.std.specs.Cmp.Lexicographic.{pointwise};
ghost use Rattle.vf_tree.specs.Core.{Integer, PointerToVoid, PointerToStruct};
ghost use Rattle.vf_model.specs.Values.{same_type, same_signature};
ghost use Rattle.vf_model.specs.PreludeFunctions.{signature_of as prelude_signature, run_signature, pointer_to_mutex, pointer_to_thread};
ghost use Rattle.vf_core.specs.Shown.{type_of, signature_of, prelude_of};

use vf_base::{IntType, Sequence, Text};
use vf_core::{PreludeFunction, Scalar, Signature, same_name, text_of};

/// Whether two types are one.
fn same_type(names: &Sequence<Text>, first: Scalar, second: Scalar) -> bool
    ensures { result ≡ same_type (type_of names.now first) (type_of names.now second) }
{
    match first {
        Scalar::Void => matches!(second, Scalar::Void),
        Scalar::Integer(of) => match second {
            Scalar::Integer(other) => of == other,
            _ => false,
        },
        Scalar::PointerToVoid => matches!(second, Scalar::PointerToVoid),
        Scalar::PointerToInt => matches!(second, Scalar::PointerToInt),
        Scalar::PointerToStruct(name) => match second {
            Scalar::PointerToStruct(other) => same_name(names, name, other),
            _ => false,
        },
        Scalar::PointerToFunction(name) => match second {
            Scalar::PointerToFunction(other) => same_name(names, name, other),
            _ => false,
        },
    }
}

/// Whether two lists of types are one.
fn same_types(names: &Sequence<Text>, first: &[Scalar], second: &[Scalar]) -> bool
    ensures { result ≡ pointwise same_type (map (type_of names.now) first.now) (map (type_of names.now) second.now) }
{
    match first {
        [] => second.is_empty(),
        [one, more @ ..] => match second {
            [] => false,
            [other, others @ ..] => {
                same_type(names, *one, *other) && same_types(names, more, others)
            }
        },
    }
}

/// Whether two signatures are one.
pub fn same_signature(names: &Sequence<Text>, first: &Signature, second: &Signature) -> bool
    ensures { result ≡ same_signature (signature_of names.now first.now) (signature_of names.now second.now) }
{
    same_type(names, first.gives, second.gives)
        && same_types(
            names,
            first.parameters.as_slice(),
            second.parameters.as_slice(),
        )
}

/// Whether a thread can be started in a function of that signature.
pub fn is_run_signature(names: &Sequence<Text>, signature: &Signature) -> bool
    ensures { result ≡ same_signature (signature_of names.now signature.now) run_signature }
{
    match signature.gives {
        Scalar::Void => matches!(signature.parameters.as_slice(), [Scalar::PointerToVoid]),
        _ => false,
    }
}

/// Whether a type is a pointer to the struct of that text.
fn is_struct_pointer(names: &Sequence<Text>, text: &[u8], scalar: Scalar) -> bool
    ensures { result ≡ same_type (PointerToStruct text.now) (type_of names.now scalar) }
{
    match scalar {
        Scalar::PointerToStruct(name) => text == text_of(names, name),
        _ => false,
    }
}

/// Whether a type is `int`.
fn is_int(names: &Sequence<Text>, scalar: Scalar) -> bool
    ensures { result ≡ same_type (Integer types.Int) (type_of names.now scalar) }
{
    matches!(scalar, Scalar::Integer(IntType::Int))
}

/// Whether a type is `struct mutex *`.
fn is_mutex(names: &Sequence<Text>, scalar: Scalar) -> bool
    ensures { result ≡ same_type pointer_to_mutex (type_of names.now scalar) }
{
    is_struct_pointer(names, b"<threading.h>#mutex", scalar)
}

/// Whether a type is `struct thread *`.
fn is_thread(names: &Sequence<Text>, scalar: Scalar) -> bool
    ensures { result ≡ same_type pointer_to_thread (type_of names.now scalar) }
{
    is_struct_pointer(names, b"<threading.h>#thread", scalar)
}

/// Whether a function of the prelude has the signature.
pub fn has_prelude_signature(
    names: &Sequence<Text>,
    function: PreludeFunction,
    want: &Signature,
) -> bool
    ensures { result ≡ same_signature (prelude_signature (prelude_of function)) (signature_of names.now want.now) }
{
    let parameters = want.parameters.as_slice();
    let is_void = matches!(want.gives, Scalar::Void);
    match function {
        PreludeFunction::Abort => is_void && parameters.is_empty(),
        PreludeFunction::PutChar => is_int(names, want.gives) && is_one_int(names, parameters),
        PreludeFunction::PrintInt => is_void && is_one_int(names, parameters),
        PreludeFunction::ThreadStart => is_void && are_two_pointers(names, parameters),
        PreludeFunction::ThreadStartJoinable => {
            is_thread(names, want.gives) && are_two_pointers(names, parameters)
        }
        PreludeFunction::ThreadJoin => is_void && is_one_thread(names, parameters),
        PreludeFunction::CreateMutex => is_mutex(names, want.gives) && parameters.is_empty(),
        PreludeFunction::MutexAcquire
        | PreludeFunction::MutexRelease
        | PreludeFunction::MutexDispose => is_void && is_one_mutex(names, parameters),
    }
}

/// Whether the one parameter is an `int`.
fn is_one_int(names: &Sequence<Text>, parameters: &[Scalar]) -> bool
    ensures { result ≡ pointwise same_type (Integer types.Int ∷ []) (map (type_of names.now) parameters.now) }
{
    match parameters {
        [one] => is_int(names, *one),
        _ => false,
    }
}

/// Whether the one parameter is a `struct mutex *`.
fn is_one_mutex(names: &Sequence<Text>, parameters: &[Scalar]) -> bool
    ensures { result ≡ pointwise same_type (pointer_to_mutex ∷ []) (map (type_of names.now) parameters.now) }
{
    match parameters {
        [one] => is_mutex(names, *one),
        _ => false,
    }
}

/// Whether the one parameter is a `struct thread *`.
fn is_one_thread(names: &Sequence<Text>, parameters: &[Scalar]) -> bool
    ensures { result ≡ pointwise same_type (pointer_to_thread ∷ []) (map (type_of names.now) parameters.now) }
{
    match parameters {
        [one] => is_thread(names, *one),
        _ => false,
    }
}

/// Whether the two parameters are `void *`.
fn are_two_pointers(names: &Sequence<Text>, parameters: &[Scalar]) -> bool
    ensures { result ≡ pointwise same_type (PointerToVoid ∷ PointerToVoid ∷ []) (map (type_of names.now) parameters.now) }
{
    matches!(parameters, [Scalar::PointerToVoid, Scalar::PointerToVoid])
}
