//! Parameters, and the types of locals.

ghost use Rattle.std.specs.Prelude.{◌≡◌, [], ◌∷◌, ◌++◌, IfOk, OnOk};
ghost use Rattle.vf_walk.specs.Items.{first_renamed, is_empty, listed, parameters_walked, real_types, signature_of};
ghost use Rattle.vf_walk.specs.Walking.{Gives};

use crate::variable::walk_variable;
use std::alloc::Global;
use vf_base::{Memory, Place, RuleFault, Sequence};
use vf_declared::ctype::CType;
use vf_declared::declaration::Signature;
use vf_declared::locals::Local;
use vf_declared::scope::Scope;
use vf_declared::stack::Stack;
use vf_names::Names;
use vf_syntax::item::{Parameters, Typed};

/// Parameters, one after another.
#[tactic(auto, using(crate::proofs::Loops::parameters_stop, crate::proofs::Loops::parameters_none, crate::proofs::Loops::parameters_end))]
fn walk_list(scope: &mut Scope, list: &Sequence<Typed>) -> Result<(), RuleFault>
    ensures { Gives result scope.new (parameters_walked list.now scope.old) }
{
    for at in 0..list.len() {
        let Some(parameter) = list.get(at) else {
            return Ok(());
        };
        walk_variable(scope, &parameter.name, &parameter.written)?;
    }
    Ok(())
}

/// The parameters of a function.
pub fn walk_parameters(scope: &mut Scope, parameters: &Parameters) -> Result<(), RuleFault>
    ensures { Gives result scope.new (parameters_walked (listed parameters.now) scope.old) }
{
    match parameters {
        Parameters::Void => Ok(()),
        Parameters::Listed(list) => walk_list(scope, list),
    }
}

/// Whether a function takes nothing.
pub fn is_empty(parameters: &Parameters) -> bool
    ensures { result ≡ is_empty (listed parameters.now) }
{
    match parameters {
        Parameters::Void => true,
        Parameters::Listed(list) => list.is_empty(),
    }
}

/// Puts the type of a local to the end of some, where it is one of C.
fn add_type(types: &mut Sequence<CType>, local: &Local) -> Result<(), Memory>
    ensures { OnOk result (types.new ≡ types.old ++ real_types (local.now ∷ [])) }
{
    match local {
        Local::Real(ctype) => {
            types.push(*ctype)?;
            Ok(())
        }
        Local::Ghost(_) => Ok(()),
    }
}

/// The types of the locals of C among some.
#[tactic(auto, using(crate::proofs::Loops::types_more, crate::proofs::Loops::types_none, crate::proofs::Loops::types_end))]
pub fn real_types(alloc: Global, meanings: &Stack<Local>) -> Result<Sequence<CType>, Memory>
    ensures { IfOk result (λ types. types ≡ real_types meanings.now) }
{
    let mut types = Sequence::new(alloc);
    for at in 0..meanings.len() {
        let Some(local) = meanings.get(at) else {
            return Ok(types);
        };
        add_type(&mut types, local)?;
    }
    Ok(types)
}

/// The signature of what gives a type and takes the locals.
pub fn signature(alloc: Global, scope: &Scope, given: CType) -> Result<Signature, Memory>
    ensures { IfOk result (λ signature. signature ≡ signature_of given scope.now) }
{
    let parameters = real_types(alloc, &scope.locals.meanings)?;
    Ok(Signature {
        result: given,
        parameters,
    })
}

/// The first of some parameters whose name is not the one among names that stands there.
#[tactic(auto, using(crate::proofs::Loops::renamed_here, crate::proofs::Loops::renamed_more, crate::proofs::Loops::renamed_none, crate::proofs::Loops::renamed_nameless, crate::proofs::Loops::renamed_end))]
fn renamed_in(names: &Names, list: &Sequence<Typed>) -> Option<Place>
    ensures { result ≡ first_renamed names.now list.now }
{
    for at in 0..list.len() {
        let (Some(name), Some(parameter)) = (names.name(at), list.get(at)) else {
            return None;
        };
        if name != parameter.name.text.as_bytes() {
            return Some(parameter.name.place);
        }
    }
    None
}

/// The same of the parameters of a function.
#[tactic(auto, using(crate::proofs::Loops::renamed_nothing))]
pub fn first_renamed(names: &Names, parameters: &Parameters) -> Option<Place>
    ensures { result ≡ first_renamed names.now (listed parameters.now) }
{
    match parameters {
        Parameters::Void => None,
        Parameters::Listed(list) => renamed_in(names, list),
    }
}
