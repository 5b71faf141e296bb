//! The functions and structs of a unit in the core of whole programs.

ghost use Rattle.std.specs.Prelude.{◌≡◌, ◌++◌, map, option_map, option_to_list, IfOk, OnOk};
ghost use Rattle.vf_core.specs.Shown.{function_of, identity_of, signature_of, struct_of, text_or_empty};
ghost use Rattle.vf_declared.specs.Scopes.{at_index};
ghost use Rattle.vf_steps.specs.Core.{signature_tree};
ghost use Rattle.vf_flow.specs.Named.{naming_of};
ghost use Rattle.vf_erase.specs.Shown.{plain_shown, plains_shown};
ghost use Rattle.vf_plain.specs.Identities.{paths_of};
ghost use Rattle.vf_program.specs.Units.{unit_of};
ghost use Rattle.vf_plain.specs.Units.{function_number, function_tree, struct_tree, structs_from, unit_tree};

use crate::names::{Named, UnitNames, unit_names};
use std::alloc::Global;
use vf_base::{Memory, Sequence};
use vf_core::{Function, Name, Signature, StructBody};
use vf_declared::declaration::Structure;
use vf_declared::scope::Scope;
use vf_erase::PlainFunction;
use vf_flow::{Naming, make_steps};
use vf_program::PlainUnit;
use vf_snapshot::Snapshot;

/// The number of the function of a name.
fn function_number(scope: &Scope, name: &[u8]) -> Option<usize>
    ensures { result ≡ function_number scope.now name.now }
{
    let number = scope.names.number(name)?;
    let declaration = scope.declarations.get(number)?;
    Named::Function.number(declaration.meaning)
}

/// The name of the function with a number that may be there.
fn function_name(naming: &Naming<'_>, number: Option<usize>) -> Name
    ensures { identity_of naming.now.names.now result ≡ text_or_empty (at_index (naming_of naming.now).functions number) }
{
    match number {
        Some(number) => naming.function(number),
        None => Name { number: u32::MAX },
    }
}

/// The signature of the function with a number that may be there, and one of nothing where there is no such function.
fn function_signature(
    alloc: Global,
    naming: &Naming<'_>,
    scope: &Scope,
    number: Option<usize>,
) -> Result<Signature, Memory>
    ensures { IfOk result (λ s. signature_of naming.now.names.now s ≡ signature_tree (naming_of naming.now) (at_index scope.now.functions number)) }
{
    let signature = match number {
        Some(number) => scope.functions.get(number),
        None => None,
    };
    naming.signature(alloc, signature)
}

/// A function in the core of whole programs.
fn function(
    alloc: Global,
    naming: &Naming<'_>,
    scope: &Scope,
    plain: &PlainFunction<'_>,
) -> Result<Function, Memory>
    ensures { IfOk result (λ f. function_of naming.now.names.now f ≡ function_tree (naming_of naming.now) scope.now (plain_shown plain.now)) }
{
    let number = function_number(scope, plain.name.text.as_bytes());
    let body = make_steps(alloc, naming, &plain.nodes)?;
    Ok(Function {
        identity: function_name(naming, number),
        signature: function_signature(alloc, naming, scope, number)?,
        locals: naming.scalars(alloc, &plain.locals)?,
        steps: body.steps,
        closing: plain.closing,
    })
}

/// The functions of a unit in the core of whole programs, in order.
fn functions(
    alloc: Global,
    naming: &Naming<'_>,
    scope: &Scope,
    plains: &Vec<PlainFunction<'_>>,
) -> Result<Sequence<Function>, Memory>
    ensures { IfOk result (λ fs. map (function_of naming.now.names.now) fs ≡ map (function_tree (naming_of naming.now) scope.now) (plains_shown plains.now.items)) }
{
    let mut all = Sequence::new(alloc);
    for plain in plains {
        all.push(function(alloc, naming, scope, plain)?)?;
    }
    Ok(all)
}

/// Adds the struct with a number, if it has fields.
fn add_struct(
    alloc: Global,
    naming: &Naming<'_>,
    number: usize,
    structure: &Structure,
    structs: &mut Sequence<StructBody>,
) -> Result<(), Memory>
    ensures { OnOk result (map (struct_of naming.now.names.now) structs.new ≡ map (struct_of naming.now.names.now) structs.old ++ option_to_list (option_map (struct_tree (naming_of naming.now) number) structure.now.fields)) }
{
    if let Some(fields) = &structure.fields {
        structs.push(StructBody {
            identity: naming.structure(number),
            fields: naming.scalars(alloc, &fields.types)?,
        })?;
    }
    Ok(())
}

/// The structs of a unit that have fields, in order.
fn structs(
    alloc: Global,
    naming: &Naming<'_>,
    scope: &Scope,
) -> Result<Sequence<StructBody>, Memory>
    ensures { IfOk result (λ ss. map (struct_of naming.now.names.now) ss ≡ structs_from (naming_of naming.now) 0 scope.now.structures) }
{
    let mut all = Sequence::new(alloc);
    for number in 0..scope.structures.len() {
        let Some(structure) = scope.structures.get(number) else {
            return Ok(all);
        };
        add_struct(alloc, naming, number, structure, &mut all)?;
    }
    Ok(all)
}

/// A unit in the core of whole programs, by what is declared in it and its functions without their annotations.
///
/// # Errors
///
/// Where memory ran out, or a number is too great for a program.
pub fn plain_unit(
    alloc: Global,
    snapshot: &Snapshot,
    scope: &Scope,
    plains: &Vec<PlainFunction<'_>>,
) -> Result<PlainUnit, Memory>
    ensures { IfOk result (λ u. unit_of u ≡ unit_tree (paths_of snapshot.now) scope.now (plains_shown plains.now.items)) }
{
    let UnitNames {
        table,
        functions: function_names,
        structures,
        function_types,
    } = unit_names(alloc, snapshot, scope)?;
    let naming = Naming {
        names: &table,
        functions: function_names,
        structures,
        function_types,
        signatures: &scope.function_types,
    };
    let functions = functions(alloc, &naming, scope, plains)?;
    let structs = structs(alloc, &naming, scope)?;
    drop(naming);
    Ok(PlainUnit {
        names: table,
        functions,
        structs,
    })
}
