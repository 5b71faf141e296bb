//! Where an expression stands, and what is known of expressions there.

ghost use Rattle.std.specs.Prelude.{◌≡◌, slice_get};
ghost use Rattle.vf_declared.specs.Scopes.{fields_in};
ghost use Rattle.vf_steps.specs.Shown.{value_of};
ghost use Rattle.vf_lower.specs.Settings.{declared_value, field_number, index_in, integer_in, kind, local_number, named, place_of, structure_in, tag_number};
ghost use Rattle.vf_lower.specs.Shown.{kind_of, setting_of};

use std::alloc::Global;
use vf_base::{IntType, Place, Text};
use vf_declared::ctype::CType;
use vf_declared::declaration::Meaning;
use vf_declared::scope::Scope;
use vf_declared::stack::Stack;
use vf_steps::{FieldNumber, Value};
use vf_syntax::expr::Expr;
use vf_syntax::written::Name;
use vf_typing::typed;

/// Where an expression stands: what is declared there; beside each visible local its number among the locals of the
/// body; and the first token of the statement.
#[derive(Clone, Copy)]
pub struct Setting<'a> {
    pub scope: &'a Scope,
    pub numbers: &'a Stack<usize>,
    pub statement: Place,
    pub alloc: Global,
}

/// A type, and whether what has it is a `0`.
#[derive(Clone, Copy, Debug)]
pub struct Kind {
    pub ctype: CType,
    pub is_null: bool,
}

/// The kind of an expression, and that of nothing where it has no type.
pub fn find_kind(setting: &Setting<'_>, expr: &Expr) -> Kind
    ensures { kind_of result ≡ kind (setting_of setting.now) expr.now }
{
    match typed(setting.scope, expr) {
        Ok(operand) => Kind {
            ctype: operand.ctype,
            is_null: operand.is_null,
        },
        Err(_) => Kind {
            ctype: CType::Void,
            is_null: false,
        },
    }
}

/// The integer type that a type is, and `int` where it is none.
pub fn integer_in(of: CType) -> IntType
    ensures { result ≡ integer_in of }
{
    match of {
        CType::Integer(of) => of,
        _ => IntType::Int,
    }
}

/// The number of the struct that a type points to.
pub fn structure_in(of: CType) -> usize
    ensures { result ≡ structure_in of }
{
    match of {
        CType::StructPointer(number) => number,
        _ => 0,
    }
}

/// The number of the struct of a tag.
pub fn tag_number(setting: &Setting<'_>, tag: &Name) -> usize
    ensures { result ≡ tag_number (setting_of setting.now) tag.now }
{
    match setting.scope.tag(&tag.text, tag.place.file) {
        Some(number) => number,
        None => 0,
    }
}

/// The place of a field of a name in the struct with a number.
fn field_index(scope: &Scope, structure: usize, name: &Text) -> usize
    ensures { result ≡ index_in (fields_in (slice_get scope.now.structures structure)) name.now }
{
    let Some(structure) = scope.structures.get(structure) else {
        return 0;
    };
    let Some(fields) = &structure.fields else {
        return 0;
    };
    match fields.names.number(name.as_bytes()) {
        Some(number) => number,
        None => 0,
    }
}

/// The field of a name behind a type.
pub fn field_number(setting: &Setting<'_>, of: CType, name: &Name) -> FieldNumber
    ensures { result ≡ field_number (setting_of setting.now) of name.now }
{
    let structure = structure_in(of);
    FieldNumber {
        structure,
        index: field_index(setting.scope, structure, &name.text),
    }
}

/// What a name of file level is as a value.
fn declared_value(meaning: Option<Meaning>) -> Value
    ensures { value_of result ≡ declared_value meaning }
{
    match meaning {
        Some(Meaning::Function(number)) => Value::Function(number),
        _ => Value::Null,
    }
}

/// The number that a local of a name has among the locals of the body.
pub fn local_number(setting: &Setting<'_>, name: &Text) -> Option<usize>
    ensures { result ≡ local_number (setting_of setting.now) name.now }
{
    let number = setting.scope.locals.names.number(name.as_bytes())?;
    setting.numbers.get(number).copied()
}

/// A name at a place as a value.
pub fn named(setting: &Setting<'_>, place: Place, name: &Text) -> Value
    ensures { value_of result ≡ named (setting_of setting.now) place name.now }
{
    match local_number(setting, name) {
        Some(local) => Value::Read { local, place },
        None => declared_value(setting.scope.declaration(name, place.file)),
    }
}

/// The place of the first token of an expression.
#[tactic(auto, using(crate::proofs::Places::place_is))]
pub fn place_of(expr: &Expr) -> Place
    ensures { result ≡ place_of expr.now }
{
    expr.place
}
