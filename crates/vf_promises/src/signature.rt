//! How the signatures of functions and lemmas are spelled.

ghost use Rattle.std.specs.Prelude.{◌≡◌, ◌+◌, ◌++◌, map, IfOk, OnOk};
ghost use Rattle.std.specs.Fmt.{decimal};
ghost use Rattle.std.specs.List.{join_with_byte};
ghost use Rattle.vf_sorts.specs.Sorts.{row};
ghost use Rattle.vf_manifest.specs.Trees.{sorts_text};
ghost use Rattle.vf_promises.specs.Signatures.{brackets_text, comma_before, function_signature, integer_text, lemma_signature, name_at, sort_text, trees_of, type_text};

use crate::type_names::TypeNames;
use std::alloc::Global;
use vf_base::{IntType, Memory, Sequence, Text};
use vf_declared::ctype::CType;
use vf_declared::declaration::{Lemma, Signature};
use vf_sorts::{Head, Sort, SortList};

/// How an integer type of C is spelled.
fn integer_text(of: IntType) -> &'static str
    ensures { result.now ≡ integer_text of }
{
    match of {
        IntType::Bool => "bool",
        IntType::Char => "char",
        IntType::UChar => "uchar",
        IntType::Short => "short",
        IntType::UShort => "ushort",
        IntType::Int => "int",
        IntType::UInt => "uint",
        IntType::Long => "long",
        IntType::ULong => "ulong",
        IntType::LongLong => "llong",
        IntType::ULongLong => "ullong",
    }
}

/// Writes the name with a number, if there is one.
fn push_name(out: &mut Text, names: &Sequence<Text>, number: usize) -> Result<(), Memory>
    ensures { OnOk result (out.new ≡ out.old ++ name_at names.now number) }
{
    match names.get(number) {
        Some(name) => out.push_bytes(name.as_bytes()),
        None => Ok(()),
    }
}

/// Writes a type of C.
fn push_type(out: &mut Text, names: &TypeNames, of: CType) -> Result<(), Memory>
    ensures { OnOk result (out.new ≡ out.old ++ type_text names.now of) }
{
    match of {
        CType::Void => out.push_bytes(b"void"),
        CType::Integer(integer) => out.push_bytes(integer_text(integer).as_bytes()),
        CType::VoidPointer => out.push_bytes(b"void*"),
        CType::IntPointer => out.push_bytes(b"int*"),
        CType::StructPointer(number) => {
            out.push_bytes(b"struct:")?;
            push_name(out, &names.tags, number)?;
            out.push_bytes(b"*")
        }
        CType::FunctionPointer(number) => {
            out.push_bytes(b"fn:")?;
            push_name(out, &names.function_types, number)?;
            out.push_bytes(b"*")
        }
        CType::Function(_) => out.push_bytes(b"?"),
    }
}

/// Writes a comma in front of all but the first.
fn push_comma(out: &mut Text, at: usize) -> Result<(), Memory>
    ensures { OnOk result (out.new ≡ out.old ++ comma_before at) }
{
    if at == 0 {
        return Ok(());
    }
    out.push_bytes(b",")
}

/// Writes the types of parameters with commas between them.
fn push_types(out: &mut Text, names: &TypeNames, types: &Sequence<CType>) -> Result<(), Memory>
    ensures { OnOk result (out.new ≡ out.old ++ join_with_byte 44 (map (type_text names.now) types.now)) }
{
    for at in 0..types.len() {
        let Some(of) = types.get(at) else {
            return Ok(());
        };
        push_comma(out, at)?;
        push_type(out, names, *of)?;
    }
    Ok(())
}

/// The signature of a function: the type of its result, and those of its parameters in parentheses.
pub fn function_signature(
    alloc: Global,
    names: &TypeNames,
    signature: &Signature,
) -> Result<Text, Memory>
    ensures { IfOk result (λ text. text ≡ function_signature names.now signature.now) }
{
    let mut text = Text::new(alloc);
    push_type(&mut text, names, signature.result)?;
    text.push_bytes(b"(")?;
    push_types(&mut text, names, &signature.parameters)?;
    text.push_bytes(b")")?;
    Ok(text)
}

/// Writes a number in decimal.
fn push_number(alloc: Global, out: &mut Text, number: u128) -> Result<(), Memory>
    ensures { OnOk result (out.new ≡ out.old ++ decimal number) }
{
    let digits = format!(in alloc; "{number}")?;
    out.push_bytes(digits.as_str().as_bytes())
}

/// Writes a sort.
#[cycle(sorts)]
fn push_sort(
    alloc: Global,
    out: &mut Text,
    names: &Sequence<Text>,
    sort: &Sort,
) -> Result<(), Memory>
    ensures { OnOk result (out.new ≡ out.old ++ sort_text names.now sort.now) }
{
    match sort.head {
        Head::Int => out.push_bytes(b"int"),
        Head::Bool => out.push_bytes(b"bool"),
        Head::Pointer(_) => out.push_bytes(b"ptr"),
        Head::Real => out.push_bytes(b"real"),
        Head::Any | Head::Unknown(_) => out.push_bytes(b"any"),
        Head::Parameter(number) => {
            out.push_bytes(b"$")?;
            push_number(alloc, out, number as u128 + 1)
        }
        Head::Datatype(number) => {
            push_name(out, names, number)?;
            push_brackets(alloc, out, names, &sort.parts)
        }
        Head::Predicate => {
            out.push_bytes(b"pred(")?;
            push_sorts(alloc, out, names, &sort.parts)?;
            out.push_bytes(b")")
        }
    }
}

/// Writes the sorts in the brackets of a datatype, if there are any.
#[cycle(sorts)]
fn push_brackets(
    alloc: Global,
    out: &mut Text,
    names: &Sequence<Text>,
    sorts: &SortList,
) -> Result<(), Memory>
    ensures { OnOk result (out.new ≡ out.old ++ brackets_text names.now (row sorts.now)) }
{
    if sorts.len() == 0 {
        return Ok(());
    }
    out.push_bytes(b"<")?;
    push_sorts(alloc, out, names, sorts)?;
    out.push_bytes(b">")?;
    Ok(())
}

/// Writes sorts with commas between them.
#[cycle(sorts)]
#[tactic(auto, using(crate::proofs::Commas::sort_smaller))]
fn push_sorts(
    alloc: Global,
    out: &mut Text,
    names: &Sequence<Text>,
    sorts: &SortList,
) -> Result<(), Memory>
    ensures { OnOk result (out.new ≡ out.old ++ sorts_text (trees_of names.now (row sorts.now))) }
{
    for at in 0..sorts.len() {
        let Some(sort) = sorts.get(at) else {
            return Ok(());
        };
        push_comma(out, at)?;
        push_sort(alloc, out, names, sort)?;
    }
    Ok(())
}

/// The signature of a lemma: the number of its type parameters, and its sorts in parentheses.
pub fn lemma_signature(alloc: Global, names: &TypeNames, lemma: &Lemma) -> Result<Text, Memory>
    ensures { IfOk result (λ text. text ≡ lemma_signature names.now lemma.now) }
{
    let mut text = Text::new(alloc);
    text.push_bytes(b"lemma/")?;
    push_number(alloc, &mut text, lemma.parameters as u128)?;
    text.push_bytes(b"(")?;
    push_sorts(alloc, &mut text, &names.datatypes, &lemma.arguments)?;
    text.push_bytes(b")")?;
    Ok(text)
}
