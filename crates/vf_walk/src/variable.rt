//! Locals of C, and parts of statements that declare nothing.

ghost use Rattle.std.specs.Prelude.{◌≡◌, Some};
ghost use Rattle.vf_walk.specs.Statements.{condition, declaration, declared, first_part, first_value, return_refusal, simple, variable, with_variable};
ghost use Rattle.vf_walk.specs.Walking.{Gives, optional, unless};
ghost use Rattle.vf_walk.specs.Statements as statements;
ghost use Rattle.vf_typing.specs.Typed as typing;

use vf_base::{Place, Refusal, Rule, RuleFault};
use vf_declared::ctype::CType;
use vf_declared::locals::Local;
use vf_declared::scope::Scope;
use vf_syntax::expr::Expr;
use vf_syntax::simple::{First, Simple};
use vf_syntax::written::{CType as WrittenType, Name};
use vf_typing::{assigned, refused, refused_condition, refused_simple, typed, written_type};

/// Nothing, or a refusal that there may be.
fn unless(scope: &Scope, refusal: Option<Refusal>) -> Result<(), RuleFault>
    ensures { Gives result scope.now (unless refusal scope.now) }
{
    match refusal {
        Some(refusal) => Err(RuleFault::Refused(refusal)),
        None => Ok(()),
    }
}

/// Declares a local of C.
#[tactic(auto, using(crate::proofs::Steps::out_of_memory))]
fn declare_variable(scope: &mut Scope, name: &Name, ctype: CType) -> Result<(), RuleFault>
    ensures { Gives result scope.new (with_variable name.now ctype scope.old) }
{
    if scope.locals.names.number(name.text.as_bytes()).is_some() {
        return Err(RuleFault::Refused(refused(Rule::Name, name.place)));
    }
    scope
        .locals
        .declare(name.text.as_bytes(), Local::Real(ctype))?;
    Ok(())
}

/// Declares a local of C of a type that is written.
#[tactic(auto, using(crate::proofs::Steps::go, crate::proofs::Steps::stop_at))]
pub fn walk_variable(scope: &mut Scope, name: &Name, written: &WrittenType) -> Result<(), RuleFault>
    ensures { Gives result scope.new (variable name.now written.now scope.old) }
{
    let ctype = written_type(scope, written)?;
    declare_variable(scope, name, ctype)
}

/// The first value of a local of a type.
fn walk_value(scope: &Scope, ctype: CType, value: &Expr) -> Result<(), RuleFault>
    ensures { Gives result scope.now (first_value ctype value.now scope.now) }
{
    unless(scope, assigned(scope, ctype, value))
}

/// The first value of a local of a type, if it has one.
fn walk_optional_value(scope: &Scope, ctype: CType, value: &Option<Expr>) -> Result<(), RuleFault>
    ensures { Gives result scope.now (optional (first_value ctype) value.now scope.now) }
{
    match value {
        Some(value) => walk_value(scope, ctype, value),
        None => Ok(()),
    }
}

/// Declares a local of C of a type, with its first value, if it has one.
#[tactic(auto, using(crate::proofs::Steps::go, crate::proofs::Steps::stop))]
fn walk_declared(
    scope: &mut Scope,
    name: &Name,
    value: &Option<Expr>,
    ctype: CType,
) -> Result<(), RuleFault>
    ensures { Gives result scope.new (declared name.now value.now ctype scope.old) }
{
    declare_variable(scope, name, ctype)?;
    walk_optional_value(scope, ctype, value)
}

/// A declaration of a local.
#[tactic(auto, using(crate::proofs::Steps::go, crate::proofs::Steps::stop_at))]
pub fn walk_declaration(
    scope: &mut Scope,
    written: &WrittenType,
    name: &Name,
    value: &Option<Expr>,
) -> Result<(), RuleFault>
    ensures { Gives result scope.new (declaration written.now name.now value.now scope.old) }
{
    let ctype = written_type(scope, written)?;
    walk_declared(scope, name, value, ctype)
}

/// Declares a local of C of a type, with its first value.
#[tactic(auto, using(crate::proofs::Steps::go, crate::proofs::Steps::stop))]
fn walk_set(scope: &mut Scope, name: &Name, value: &Expr, ctype: CType) -> Result<(), RuleFault>
    ensures { Gives result scope.new (declared name.now (Some value.now) ctype scope.old) }
{
    declare_variable(scope, name, ctype)?;
    walk_value(scope, ctype, value)
}

/// A declaration of a local with its first value.
#[tactic(auto, using(crate::proofs::Steps::go, crate::proofs::Steps::stop_at))]
fn walk_set_declaration(
    scope: &mut Scope,
    written: &WrittenType,
    name: &Name,
    value: &Expr,
) -> Result<(), RuleFault>
    ensures { Gives result scope.new (declaration written.now name.now (Some value.now) scope.old) }
{
    let ctype = written_type(scope, written)?;
    walk_set(scope, name, value, ctype)
}

/// An assignment or a call.
pub fn walk_simple(scope: &Scope, part: &Simple) -> Result<(), RuleFault>
    ensures { Gives result scope.now (simple part.now scope.now) }
{
    unless(scope, refused_simple(scope, part))
}

/// What stands first in a `for`.
pub fn walk_first(scope: &mut Scope, part: &First) -> Result<(), RuleFault>
    ensures { Gives result scope.new (first_part part.now scope.old) }
{
    match part {
        First::Declaration(written, name, value) => {
            walk_set_declaration(scope, written, name, value)
        }
        First::Simple(part) => walk_simple(scope, part),
    }
}

/// A condition.
pub fn walk_condition(scope: &Scope, test: &Expr) -> Result<(), RuleFault>
    ensures { Gives result scope.now (condition test.now scope.now) }
{
    unless(scope, refused_condition(scope, test))
}

/// The refusal of a value that is given where a function gives none.
fn needless(scope: &Scope, value: &Expr) -> Refusal
    ensures { result ≡ statements.needless (typing.typed scope.now value.now) }
{
    match typed(scope, value) {
        Err(refusal) => refusal,
        Ok(operand) => refused(Rule::Typing, operand.place),
    }
}

/// The refusal of a `return` at a place, in a function that gives a type.
fn return_refusal(
    scope: &Scope,
    given: CType,
    place: Place,
    value: &Option<Expr>,
) -> Option<Refusal>
    ensures { result ≡ return_refusal scope.now given place value.now }
{
    let is_void = given.same(CType::Void);
    match value {
        None => {
            if is_void {
                None
            } else {
                Some(refused(Rule::Typing, place))
            }
        }
        Some(value) => {
            if is_void {
                Some(needless(scope, value))
            } else {
                assigned(scope, given, value)
            }
        }
    }
}

/// A `return` at a place, in a function that gives a type.
pub fn walk_return(
    scope: &Scope,
    given: CType,
    place: Place,
    value: &Option<Expr>,
) -> Result<(), RuleFault>
    ensures { Gives result scope.now (unless (statements.return_refusal scope.now given place value.now) scope.now) }
{
    unless(scope, return_refusal(scope, given, place, value))
}
