//! Names in expressions.

ghost use Rattle.std.specs.Prelude.{◌≡◌};
ghost use Rattle.vf_typing.specs.Names.{declared_type, name_type};
ghost use Rattle.vf_typing.specs.Parts.{free_place, means_free};

use crate::refusal::refused;
use vf_base::{Place, Refusal, Rule, Text};
use vf_declared::ctype::CType;
use vf_declared::declaration::Meaning;
use vf_declared::locals::Local;
use vf_declared::scope::Scope;
use vf_syntax::expr::{Expr, ExprNode};

/// The type of a name of file level with a meaning.
fn declared_type(
    scope: &Scope,
    place: Place,
    name: &Text,
    meaning: Option<Meaning>,
) -> Result<CType, Refusal>
    ensures { result ≡ declared_type scope.now place name.now meaning }
{
    match meaning {
        Some(Meaning::Function(number)) => Ok(CType::Function(number)),
        Some(Meaning::FunctionType(_)) => Err(refused(Rule::Typing, place)),
        Some(Meaning::Ghost(_)) => Err(refused(Rule::GhostInReal, place)),
        None => {
            if scope.is_later_predicate(name, place.file) {
                Err(refused(Rule::GhostInReal, place))
            } else {
                Err(refused(Rule::Name, place))
            }
        }
    }
}

/// The type of a name at a place.
pub fn name_type(scope: &Scope, place: Place, name: &Text) -> Result<CType, Refusal>
    ensures { result ≡ name_type scope.now place name.now }
{
    match scope.local(name) {
        Some(Local::Real(ctype)) => Ok(*ctype),
        Some(Local::Ghost(_)) => Err(refused(Rule::GhostInReal, place)),
        None => {
            let meaning = scope.declaration(name, place.file);
            declared_type(scope, place, name, meaning)
        }
    }
}

/// Whether a name means the `free` of `<stdlib.h>`.
fn means_free(scope: &Scope, name: &Text) -> bool
    ensures { result ≡ means_free scope.now name.now }
{
    name.as_bytes() == b"free".as_slice()
        && scope.local(name).is_none()
        && !scope.is_declared(name.as_bytes())
}

/// Where an expression, in parentheses or not, is the name `free` of `<stdlib.h>`.
pub fn free_name(scope: &Scope, expr: &Expr) -> Option<Place>
    ensures { result ≡ free_place scope.now expr.now }
{
    match &expr.node {
        ExprNode::Name(name) => {
            if means_free(scope, name) {
                Some(expr.place)
            } else {
                None
            }
        }
        ExprNode::Parenthesized(inner) => free_name(scope, inner),
        _ => None,
    }
}
