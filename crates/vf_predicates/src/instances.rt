//! Bodies of families for functions.

ghost use Rattle.std.specs.Prelude.{◌≡◌, IfOk};
ghost use Rattle.std.specs.Option.{option_copied};
ghost use Rattle.vf_syntax.specs.AssertionTree.{part_list};
ghost use Rattle.vf_walk.specs.Walking.{Follows};
ghost use Rattle.vf_declared.specs.Scopes.{ghost_of};
ghost use Rattle.vf_predicates.specs.Earlier.{or_none};
ghost use Rattle.vf_predicates.specs.Instances as instances;

use crate::alike::are_same;
use crate::bodies::body_given;
use crate::earlier::ghost_number;
use std::alloc::Global;
use vf_base::{Memory, Rule, RuleFault, Sequence};
use vf_datatypes::refusal::refused;
use vf_declared::declaration::{GhostDeclaration, GhostSides, Meaning};
use vf_declared::lookup::has;
use vf_declared::scope::Scope;
use vf_heads::parameters::declare_parameters;
use vf_names::Names;
use vf_sorts::SortList;
use vf_syntax::assertion::Assertion;
use vf_syntax::item::GhostParameter;
use vf_syntax::written::Name;

/// The sorts of the arguments of what is a family.
fn family_sorts(declaration: Option<&GhostDeclaration>) -> Option<&SortList>
    ensures { option_copied result ≡ instances.family_sorts (option_copied declaration.entry) }
{
    match declaration {
        Some(GhostDeclaration::Family(family)) => Some(&family.arguments),
        _ => None,
    }
}

/// The family that a name means where it stands, by its number.
fn family_at(scope: &Scope, name: &Name) -> Option<usize>
    ensures { result ≡ instances.family_at scope.now name.now }
{
    let meaning = scope.declaration(&name.text, name.place.file);
    let number = ghost_number(meaning)?;
    if family_sorts(scope.ghost_declaration(number)).is_some() {
        Some(number)
    } else {
        None
    }
}

/// The function of C that a name means where it stands, by its number.
fn function_at(scope: &Scope, name: &Name) -> Option<usize>
    ensures { result ≡ instances.function_at scope.now name.now }
{
    match scope.declaration(&name.text, name.place.file) {
        Some(Meaning::Function(number)) => Some(number),
        _ => None,
    }
}

/// Whether a family has a body for the function with a number already.
fn has_instance(sides: Option<&GhostSides>, function: usize) -> bool
    ensures { result ≡ instances.has_instance (option_copied sides.entry) function }
{
    match sides {
        Some(sides) => has(&sides.functions, function as u64),
        None => false,
    }
}

/// A family, and a function for which it has no body yet, by their numbers.
#[derive(Clone, Copy, Debug)]
pub struct Instance {
    pub family: usize,
    pub function: usize,
}

/// The family and the function of a body, whose names stand in it.
#[tactic(auto, using(crate::proofs::Naming::no_family, crate::proofs::Naming::no_function, crate::proofs::Naming::again, crate::proofs::Naming::found))]
fn named(scope: &Scope, family: &Name, function: &Name) -> Result<Instance, RuleFault>
    ensures { instances.AreNamed family.now function.now scope.now result }
{
    let Some(number) = family_at(scope, family) else {
        return Err(RuleFault::Refused(refused(Rule::Name, family.place)));
    };
    let Some(of) = function_at(scope, function) else {
        return Err(RuleFault::Refused(refused(Rule::Name, function.place)));
    };
    if has_instance(scope.sides_of_ghost(number), of) {
        return Err(RuleFault::Refused(refused(Rule::Name, function.place)));
    }
    Ok(Instance {
        family: number,
        function: of,
    })
}

/// The sorts of the arguments of the family with a number.
fn sorts_of(alloc: Global, scope: &Scope, number: usize) -> Result<SortList, Memory>
    ensures { IfOk result (λ sorts. sorts ≡ or_none (instances.family_sorts (ghost_of scope.now number))) }
{
    match family_sorts(scope.ghost_declaration(number)) {
        Some(sorts) => sorts.copy(alloc),
        None => Ok(SortList::new(alloc)),
    }
}

/// Compares the sorts of the parameters of a body with those of its family; the family has a body for the function then.
#[tactic(auto, using(crate::proofs::Coming::memory, crate::proofs::Naming::agree_differs, crate::proofs::Naming::agree_well))]
fn agree(
    alloc: Global,
    scope: &mut Scope,
    name: &Name,
    instance: Instance,
    sorts: &SortList,
) -> Result<(), RuleFault>
    ensures { Follows (instances.IsInstance name.now instance.family instance.function (record { scope = scope.old; sorts = sorts.now })) result scope.new }
{
    let wanted = sorts_of(alloc, scope, instance.family)?;
    if !are_same(sorts, &wanted) {
        return Err(RuleFault::Refused(refused(Rule::Name, name.place)));
    }
    scope.declare_instance(alloc, instance.family, instance.function)?;
    Ok(())
}

/// Declares a body of a family for a function.
///
/// # Errors
///
/// Refused at the first of these: the family's name by rule 5 where it is none; the function's by rule 5 where it is
/// none, or the family has a body for it already; a parameter as that of a family; the family's name by rule 5 where
/// the parameters have other sorts than the family's; and then what stands in the body.
#[tactic(auto, using(crate::proofs::Naming::names_fail, crate::proofs::Naming::parameters_fail, crate::proofs::Naming::sorts_fail, crate::proofs::Naming::comes))]
pub fn declare_instance(
    alloc: Global,
    scope: &mut Scope,
    family: &Name,
    function: &Name,
    parameters: &Sequence<GhostParameter>,
    body: &Assertion,
) -> Result<(), RuleFault>
    ensures { Follows (instances.InstanceComes family.now function.now parameters.now (part_list body.now) scope.old) result scope.new }
{
    let instance = named(scope, family, function)?;
    let count = scope.locals.names.len();
    let mut sorts = SortList::new(alloc);
    declare_parameters(alloc, scope, &Names::new(alloc), parameters, &mut sorts)?;
    agree(alloc, scope, family, instance, &sorts)?;
    body_given(alloc, scope, count, body)
}
