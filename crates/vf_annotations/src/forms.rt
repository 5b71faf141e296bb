//! Ghost items.

ghost use Rattle.vf_datatypes.specs.Datatypes.{datatype_behind};
ghost use Rattle.vf_heads.specs.Heads.{family_behind};
ghost use Rattle.vf_walk.specs.Walking.{Follows, Only};
ghost use Rattle.vf_annotations.specs.Forms.{FormComes};

use std::alloc::Global;
use vf_base::{RuleFault, Sequence};
use vf_datatypes::{Stated, declare_datatype};
use vf_declared::scope::Scope;
use vf_equations::declare_fixpoint_body;
use vf_heads::declare_family;
use vf_lemma_items::{declare_lemma, declare_lemma_prototype};
use vf_predicates::{
    declare_constructor_body, declare_instance, declare_predicate, declare_predicate_body,
};
use vf_syntax::item::{Constructor, GhostForm, GhostParameter};
use vf_syntax::written::Name;

/// Declares a datatype of a unit in which these datatypes stand.
fn datatype_given(
    alloc: Global,
    scope: &mut Scope,
    stated: &Stated,
    name: &Name,
    parameters: &Sequence<Name>,
    constructors: &Sequence<Constructor>,
) -> Result<(), RuleFault>
    ensures { Follows (Only (datatype_behind stated.now name.now parameters.now constructors.now scope.old)) result scope.new }
{
    declare_datatype(alloc, scope, stated, name, parameters, constructors)
}

/// Declares a family of predicates.
fn family_given(
    alloc: Global,
    scope: &mut Scope,
    name: &Name,
    index: &GhostParameter,
    parameters: &Sequence<GhostParameter>,
) -> Result<(), RuleFault>
    ensures { Follows (Only (family_behind name.now index.now parameters.now scope.old)) result scope.new }
{
    declare_family(alloc, scope, name, index, parameters)
}

/// Declares what a ghost item of a unit declares in which these datatypes stand.
pub fn form_given(
    alloc: Global,
    scope: &mut Scope,
    stated: &Stated,
    form: &GhostForm,
) -> Result<(), RuleFault>
    ensures { Follows (FormComes stated.now form.now scope.old) result scope.new }
{
    match form {
        GhostForm::Inductive(name, types, _, constructors) => {
            datatype_given(alloc, scope, stated, name, types, constructors)
        }
        GhostForm::Fixpoint(sort, name, types, parameters, body) => {
            declare_fixpoint_body(alloc, scope, sort, name, types, parameters, body)
        }
        GhostForm::Predicate(name, parameters) => {
            declare_predicate(alloc, scope, name, parameters)
        }
        GhostForm::PredicateBody(name, parameters, body) => {
            declare_predicate_body(alloc, scope, name, parameters, body)
        }
        GhostForm::Family(name, index, parameters) => {
            family_given(alloc, scope, name, index, parameters)
        }
        GhostForm::Instance(family, function, parameters, body) => {
            declare_instance(alloc, scope, family, function, parameters, body)
        }
        GhostForm::PredicateConstructor(name, first, second, body) => {
            declare_constructor_body(alloc, scope, name, first, second, body)
        }
        GhostForm::LemmaPrototype(name, types, parameters, contract) => {
            declare_lemma_prototype(alloc, scope, name, types, parameters, contract)
        }
        GhostForm::Lemma(name, types, parameters, contract, body) => {
            declare_lemma(alloc, scope, name, types, parameters, contract, body)
        }
    }
}
