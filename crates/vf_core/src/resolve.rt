//! What a name calls.

ghost use Rattle.std.specs.Prelude.{◌≡◌, List, IsTrue, codes};
ghost use Rattle.std.specs.Option.{option_map};
ghost use Rattle.vf_tree.specs.Core.{Identity};
ghost use Rattle.vf_model.specs.Values.{same_identity};
ghost use Rattle.vf_model.specs.PreludeFunctions.{prelude_named};
ghost use Rattle.vf_model.specs.State.{function_named};
ghost use Rattle.vf_model.specs.Accesses.{field_count};
ghost use Rattle.vf_core.specs.Shown.{identity_of, prelude_of, program_of};
ghost use Rattle.vf_core.specs.Resolution.{IsResolved};

use crate::step::Unit;
use crate::words::{Name, PreludeFunction};
use vf_base::{Sequence, Text};

/// What a name calls, and which struct it names.
#[derive(Clone, Copy, Debug, PartialEq, Eq)]
pub struct Resolved {
    /// The function of the prelude that has the name, which is done in one step.
    pub prelude: Option<PreludeFunction>,
    /// The number of the program's function of the name.
    pub body: Option<usize>,
    /// How many fields the program's struct of the name has, and 0 where it has none.
    pub fields: usize,
}

/// The bytes of a name, and no bytes where the table has no such name.
pub fn text_of(names: &Sequence<Text>, name: Name) -> &[u8]
    ensures { result.now ≡ identity_of names.now name }
{
    match names.get(name.number as usize) {
        Some(text) => text.as_bytes(),
        None => &[],
    }
}

/// Whether two names are of one text.
pub fn same_name(names: &Sequence<Text>, first: Name, second: Name) -> bool
    ensures { result ≡ same_identity (identity_of names.now first) (identity_of names.now second) }
{
    text_of(names, first) == text_of(names, second)
}

/// The prelude function of a text.
pub fn prelude_named(text: &[u8]) -> Option<PreludeFunction>
    ensures { option_map prelude_of result ≡ prelude_named text.now }
{
    if b"<stdlib.h>#abort".as_slice() == text {
        Some(PreludeFunction::Abort)
    } else if b"<stdio.h>#putchar".as_slice() == text {
        Some(PreludeFunction::PutChar)
    } else if b"<vf_output.h>#print_int".as_slice() == text {
        Some(PreludeFunction::PrintInt)
    } else if b"<threading.h>#thread_start".as_slice() == text {
        Some(PreludeFunction::ThreadStart)
    } else if b"<threading.h>#thread_start_joinable".as_slice() == text {
        Some(PreludeFunction::ThreadStartJoinable)
    } else if b"<threading.h>#thread_join".as_slice() == text {
        Some(PreludeFunction::ThreadJoin)
    } else if b"<threading.h>#create_mutex".as_slice() == text {
        Some(PreludeFunction::CreateMutex)
    } else if b"<threading.h>#mutex_acquire".as_slice() == text {
        Some(PreludeFunction::MutexAcquire)
    } else if b"<threading.h>#mutex_release".as_slice() == text {
        Some(PreludeFunction::MutexRelease)
    } else if b"<threading.h>#mutex_dispose".as_slice() == text {
        Some(PreludeFunction::MutexDispose)
    } else {
        None
    }
}

/// The number of the function that has a text as its name.
fn body_named(unit: &Unit, text: &[u8]) -> Option<usize>
    ensures { result ≡ function_named (program_of unit.now) text.now }
{
    for i in 0..unit.functions.len() {
        if let Some(function) = unit.functions.get(i)
            && text_of(&unit.names, function.identity) == text
        {
            return Some(i);
        }
    }
    None
}

/// How many fields the struct has that has a text as its name, and 0 where there is none.
fn fields_named(unit: &Unit, text: &[u8]) -> usize
    ensures { result ≡ field_count (program_of unit.now) text.now }
{
    for i in 0..unit.structs.len() {
        if let Some(body) = unit.structs.get(i)
            && text_of(&unit.names, body.identity) == text
        {
            return body.fields.len();
        }
    }
    0
}

/// What a text calls, and which struct it names.
pub fn resolve_text(unit: &Unit, text: &[u8]) -> Resolved
    ensures { IsResolved (program_of unit.now) text.now result }
{
    Resolved {
        prelude: prelude_named(text),
        body: body_named(unit, text),
        fields: fields_named(unit, text),
    }
}
