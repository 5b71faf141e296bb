//! Functions with their bodies.

ghost use Rattle.std.specs.Prelude.{◌≡◌, IfOk, OnOk};
ghost use Rattle.vf_walk.specs.Items.{is_main};
ghost use Rattle.vf_lower.specs.Did.{Does};
ghost use Rattle.vf_bodies.specs.Standing.{standing_of};
ghost use Rattle.vf_functions.specs.Definitions.{core_of, function_lowered};
ghost use Rattle.vf_cores.specs.Shown.{core_shown};

use crate::cores::Core;
use crate::parameters::{given, lower_parameters};
use std::alloc::Global;
use vf_base::{Memory, Sequence};
use vf_bodies::{Surroundings, lower_body};
use vf_declared::scope::Scope;
use vf_declared::stack::Stack;
use vf_lower::Draft;
use vf_syntax::contract::Contract;
use vf_syntax::item::{Body, Signature};
use vf_syntax::written::Name;

/// Whether it is the name of the function that a program begins with.
fn is_main(name: &Name) -> bool
    ensures { result ≡ is_main name.now.text }
{
    name.text.as_bytes() == b"main".as_slice()
}

/// Adds to a draft what a function with its body becomes. Behind it what is declared is as before.
fn lower_whole<'a>(
    around: &mut Surroundings,
    draft: &mut Draft<'a>,
    signature: &Signature,
    body: &'a Body,
) -> Result<(), Memory>
    ensures kept { OnOk result (standing_of around.new ≡ standing_of around.old) }
    ensures done { Does (λ u. tt) (function_lowered (standing_of around.old) signature.now body.now) draft.old draft.new result }
{
    let before = around.mark();
    let given = given(&around.scope, &signature.result);
    lower_parameters(around, draft, &signature.parameters)?;
    let is_main = is_main(&signature.name);
    lower_body(around, draft, given, is_main, &body.statements, body.last)?;
    around.leave(before);
    Ok(())
}

/// A function with its body in steps, where these things are declared, its own item among them.
///
/// # Errors
///
/// Where memory ran out; what is declared is of no use then.
pub fn lower_function<'a>(
    alloc: Global,
    scope: &mut Scope,
    signature: &'a Signature,
    contract: &'a Option<Contract>,
    body: &'a Body,
) -> Result<Core<'a>, Memory>
    ensures kept { OnOk result (scope.new ≡ scope.old) }
    ensures core { IfOk result (λ f. core_shown f ≡ core_of scope.old signature.now contract.now body.now) }
{
    let mut around = Surroundings {
        scope: std::mem::replace(scope, Scope::new(alloc, 0)),
        numbers: Stack::new(alloc),
        statement: signature.name.place,
        alloc,
    };
    let mut draft = Draft {
        locals: Sequence::new(alloc),
        nodes: Vec::new(alloc),
    };
    lower_whole(&mut around, &mut draft, signature, body)?;
    *scope = around.scope;
    Ok(Core {
        name: &signature.name,
        contract,
        locals: draft.locals,
        nodes: draft.nodes,
        closing: body.last,
    })
}
