//! What each identity calls in a program, found by a map.

ghost use Rattle.std.specs.Prelude.{◌≡◌, List, IfOk, option_map, option_and_then, slice_get};
ghost use Rattle.vf_tree.specs.Core.{Identity};
ghost use Rattle.vf_model.specs.Accesses.{field_count_in};
ghost use Rattle.vf_core.specs.Shown.{program_of, struct_of};
ghost use Rattle.vf_core.specs.Resolution.{AreResolved, IsResolved};
ghost use Rattle.vf_program.specs.Indexes.{function_identities, number_or_end, struct_identities};

use std::alloc::Global;
use vf_base::{Memory, Sequence, Text};
use vf_core::{Function, Resolved, StructBody, Unit, prelude_named, text_of};
use vf_names::Names;

/// The identities of functions, in order.
pub fn index_functions(
    alloc: Global,
    names: &Sequence<Text>,
    functions: &Sequence<Function>,
) -> Result<Names, Memory>
    ensures { IfOk result (λ index. index ≡ function_identities names.now functions.now) }
{
    let mut index = Names::new(alloc);
    for function in functions.as_slice() {
        index.push(text_of(names, function.identity))?;
    }
    Ok(index)
}

/// The number of an identity among others, and how many these are where it is none of them.
///
/// # Errors
///
/// Where it is too great for a program.
pub fn number_or_end(index: &Names, identity: &[u8]) -> Result<u32, Memory>
    ensures { IfOk result (λ n. n ≡ number_or_end index.now identity.now) }
{
    let number = match index.number(identity) {
        Some(number) => number,
        None => index.len(),
    };
    match u32::try_from(number) {
        Ok(number) => Ok(number),
        Err(_) => Err(Memory),
    }
}

/// How many fields the struct with a number that may be there has, and 0 where there is none.
fn field_count(structs: &Sequence<StructBody>, number: Option<usize>) -> usize
    ensures { (names : List Identity) → result ≡ field_count_in (option_map (struct_of names) (option_and_then (slice_get structs.now) number)) }
{
    match number {
        Some(number) => match structs.get(number) {
            Some(body) => body.fields.len(),
            None => 0,
        },
        None => 0,
    }
}

/// The identities of the functions and of the structs of a program, in order.
#[derive(Drop)]
pub struct Index {
    pub functions: Names,
    pub structs: Names,
}

/// What an identity calls.
fn resolve(unit: &Unit, index: &Index, identity: &[u8]) -> Resolved
    requires functions { index.now.functions ≡ function_identities unit.now.names unit.now.functions }
    requires structs { index.now.structs ≡ struct_identities unit.now.names unit.now.structs }
    ensures { IsResolved (program_of unit.now) identity.now result }
{
    Resolved {
        prelude: prelude_named(identity),
        body: index.functions.number(identity),
        fields: field_count(&unit.structs, index.structs.number(identity)),
    }
}

/// What each name of a program calls.
pub fn resolve_all(alloc: Global, unit: &Unit, index: &Index) -> Result<Sequence<Resolved>, Memory>
    requires functions { index.now.functions ≡ function_identities unit.now.names unit.now.functions }
    requires structs { index.now.structs ≡ struct_identities unit.now.names unit.now.structs }
    ensures { IfOk result (λ all. AreResolved unit.now all) }
{
    let mut all = Sequence::new(alloc);
    for text in unit.names.as_slice() {
        all.push(resolve(unit, index, text.as_bytes()))?;
    }
    Ok(all)
}
