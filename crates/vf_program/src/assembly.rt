//! One program of several units.

ghost use Rattle.std.specs.Prelude.{◌≡◌, ◌<◌, [], ◌++◌, length, map, IfOk, OnOk};
ghost use Rattle.std.specs.List.{flat_map};
ghost use Rattle.vf_core.specs.Shown.{function_of, program_of, struct_of};
ghost use Rattle.vf_program.specs.Indexes.{names_of};
ghost use Rattle.vf_program.specs.Programs.{program_of_units};
ghost use Rattle.vf_program.specs.Units.{unit_of};

use crate::index::{Index, index_functions, number_or_end, resolve_all};
use crate::once::{Distinct, each_once};
use crate::renaming::Renaming;
use crate::texts::push_texts;
use crate::unit::PlainUnit;
use std::alloc::Global;
use vf_base::{Memory, Sequence, Text};
use vf_core::{Function, Program, StructBody, Unit};

/// The names of all units, in order.
fn all_names(alloc: Global, units: &[PlainUnit]) -> Result<Sequence<Text>, Memory>
    ensures names { IfOk result (λ names. names ≡ names_of units.now) }
    ensures few { IfOk result (λ names. length names < 4294967296) }
{
    let mut names = Sequence::new(alloc);
    for unit in units {
        push_texts(&mut names, &unit.names)?;
    }
    if names.len() > u32::MAX as usize {
        return Err(Memory);
    }
    Ok(names)
}

/// Functions and structs of several units, with names in one table.
#[derive(Drop)]
struct Parts {
    functions: Sequence<Function>,
    structs: Vec<StructBody>,
}

/// Adds the functions and structs of a unit.
fn add_unit(
    alloc: Global,
    renaming: &Renaming<'_>,
    unit: &PlainUnit,
    parts: &mut Parts,
) -> Result<(), Memory>
    requires { renaming.now.own.now ≡ unit.now.names }
    ensures functions { OnOk result (map (function_of renaming.now.all.now) parts.new.functions ≡ map (function_of renaming.now.all.now) parts.old.functions ++ (unit_of unit.now).functions) }
    ensures structs { OnOk result (map (struct_of renaming.now.all.now) parts.new.structs.items ≡ map (struct_of renaming.now.all.now) parts.old.structs.items ++ (unit_of unit.now).structs) }
{
    for function in unit.functions.as_slice() {
        parts.functions.push(renaming.function(alloc, function)?)?;
    }
    for body in unit.structs.as_slice() {
        parts.structs.push(renaming.structure(alloc, body)?)?;
    }
    Ok(())
}

/// The functions and structs of all units, in order.
fn collect(alloc: Global, units: &[PlainUnit], all: &Sequence<Text>) -> Result<Parts, Memory>
    requires names { all.now ≡ names_of units.now }
    requires few { length all.now < 4294967296 }
    ensures functions { IfOk result (λ parts. map (function_of all.now) parts.functions ≡ flat_map (λ u. (unit_of u).functions) units.now) }
    ensures structs { IfOk result (λ parts. map (struct_of all.now) parts.structs.items ≡ flat_map (λ u. (unit_of u).structs) units.now) }
{
    let mut parts = Parts {
        functions: Sequence::new(alloc),
        structs: Vec::new(alloc),
    };
    let mut first = 0;
    for unit in units {
        let renaming = Renaming {
            own: &unit.names,
            all,
            first,
        };
        add_unit(alloc, &renaming, unit, &mut parts)?;
        first += unit.names.len();
    }
    Ok(parts)
}

/// The program of several units, which begins with the function of an identity.
///
/// # Errors
///
/// Where memory ran out, or a number is too great for a program.
pub fn assemble(alloc: Global, units: &[PlainUnit], main: &[u8]) -> Result<Program, Memory>
    ensures { IfOk result (λ p. program_of p.unit ≡ program_of_units (map unit_of units.now) main.now) }
{
    let names = all_names(alloc, units)?;
    let Parts { functions, structs } = collect(alloc, units, &names)?;
    let Distinct { identities, bodies } = each_once(alloc, &names, structs)?;
    let index = Index {
        functions: index_functions(alloc, &names, &functions)?,
        structs: identities,
    };
    let main = number_or_end(&index.functions, main)?;
    let unit = Unit {
        names,
        functions,
        structs: bodies,
        main,
    };
    let resolved = resolve_all(alloc, &unit, &index)?;
    Ok(Program { unit, resolved })
}
