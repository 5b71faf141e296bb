//! Structs.

ghost use Rattle.std.specs.Prelude.{◌≡◌};
ghost use Rattle.vf_names.specs.Names.{number_of};
ghost use Rattle.vf_walk.specs.Items.{field_walked, fields_behind, fields_walked, struct_, struct_found, struct_number, struct_walked, with_field};
ghost use Rattle.vf_walk.specs.Walking.{Gives};

use crate::names::may_be_stated;
use std::alloc::Global;
use vf_base::{Rule, RuleFault, Sequence};
use vf_declared::ctype::CType;
use vf_declared::declaration::Fields;
use vf_declared::scope::Scope;
use vf_names::Names;
use vf_syntax::item::Typed;
use vf_syntax::written::Name;
use vf_typing::{refused, written_type};

/// The number of a struct that is declared, where it may be declared before.
fn struct_number(scope: &Scope, found: Option<usize>) -> usize
    ensures { result ≡ struct_number scope.now found }
{
    match found {
        Some(number) => number,
        None => scope.structures.len(),
    }
}

/// Declares a struct, which may be declared before by a number.
#[tactic(auto, using(crate::proofs::Steps::out_of_memory))]
fn walk_found(
    alloc: Global,
    scope: &mut Scope,
    name: &Name,
    is_opaque: bool,
    found: Option<usize>,
) -> Result<(), RuleFault>
    ensures { Gives result scope.new (struct_found name.now is_opaque found scope.old) }
{
    let file = name.place.file;
    let Some(number) = found else {
        scope.declare_struct(alloc, name.text.as_bytes(), file, is_opaque)?;
        return Ok(());
    };
    if !may_be_stated(scope, file, is_opaque, scope.structures.get(number)) {
        return Err(RuleFault::Refused(refused(Rule::Name, name.place)));
    }
    scope.declare_struct_again(alloc, number, file, is_opaque)?;
    Ok(())
}

/// Declares a struct as opaque, or so that its fields may follow.
pub fn walk_struct_name(
    alloc: Global,
    scope: &mut Scope,
    name: &Name,
    is_opaque: bool,
) -> Result<(), RuleFault>
    ensures { Gives result scope.new (struct_ name.now is_opaque scope.old) }
{
    let found = scope.tags.number(name.text.as_bytes());
    walk_found(alloc, scope, name, is_opaque, found)
}

/// One more field of a type.
#[tactic(auto, using(crate::proofs::Steps::out_of_memory))]
fn add_field(fields: &mut Fields, field: &Typed, ctype: CType) -> Result<(), RuleFault>
    ensures { Gives result fields.new (with_field field.now ctype fields.old) }
{
    if fields.names.number(field.name.text.as_bytes()).is_some() {
        return Err(RuleFault::Refused(refused(Rule::Name, field.name.place)));
    }
    fields.names.push(field.name.text.as_bytes())?;
    fields.types.push(ctype)?;
    Ok(())
}

/// One more field.
#[tactic(auto, using(crate::proofs::Steps::go, crate::proofs::Steps::stop_at))]
fn walk_field(scope: &Scope, field: &Typed, fields: &mut Fields) -> Result<(), RuleFault>
    ensures { Gives result fields.new (field_walked scope.now field.now fields.old) }
{
    let ctype = written_type(scope, &field.written)?;
    add_field(fields, field, ctype)
}

/// More fields.
#[tactic(auto, using(crate::proofs::Loops::fields_stop, crate::proofs::Loops::fields_none, crate::proofs::Loops::fields_end))]
fn walk_field_list(
    scope: &Scope,
    list: &Sequence<Typed>,
    fields: &mut Fields,
) -> Result<(), RuleFault>
    ensures { Gives result fields.new (fields_behind scope.now list.now fields.old) }
{
    for at in 0..list.len() {
        let Some(field) = list.get(at) else {
            return Ok(());
        };
        walk_field(scope, field, fields)?;
    }
    Ok(())
}

/// The fields of the struct with a number.
#[tactic(auto, using(crate::proofs::Steps::go, crate::proofs::Steps::stop))]
fn walk_fields(
    alloc: Global,
    scope: &mut Scope,
    name: &Name,
    list: &Sequence<Typed>,
    number: usize,
) -> Result<(), RuleFault>
    ensures { Gives result scope.new (fields_walked name.now list.now number scope.old) }
{
    let mut fields = Fields {
        file: name.place.file,
        names: Names::new(alloc),
        types: Sequence::new(alloc),
    };
    walk_field_list(scope, list, &mut fields)?;
    scope.declare_fields(alloc, number, fields);
    Ok(())
}

/// A struct with its fields.
#[tactic(auto, using(crate::proofs::Steps::go, crate::proofs::Steps::stop))]
pub fn walk_struct(
    alloc: Global,
    scope: &mut Scope,
    name: &Name,
    list: &Sequence<Typed>,
) -> Result<(), RuleFault>
    ensures { Gives result scope.new (struct_walked name.now list.now scope.old) }
{
    let number = struct_number(scope, scope.tags.number(name.text.as_bytes()));
    walk_struct_name(alloc, scope, name, false)?;
    walk_fields(alloc, scope, name, list, number)
}
