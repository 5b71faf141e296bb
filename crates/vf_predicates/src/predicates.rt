//! Predicates and predicate constructors.

ghost use Rattle.std.specs.Prelude.{◌≡◌, [], Some};
ghost use Rattle.vf_syntax.specs.AssertionTree.{part_list};
ghost use Rattle.vf_datatypes.specs.Walking.{Gives};
ghost use Rattle.vf_walk.specs.Walking.{Follows};
ghost use Rattle.vf_predicates.specs.Earlier as earlier;
ghost use Rattle.vf_predicates.specs.Predicates.{ConstructorComes, HeadComes, IsAgain, PredicateBodyComes, PredicateComes, again_behind, first_behind, number_at};

use crate::alike::are_same;
use crate::bodies::body_given;
use crate::earlier::{again_refusal, declare_too, earlier, sorts_of};
use std::alloc::Global;
use vf_base::{Rule, RuleFault, Sequence};
use vf_datatypes::declaring::declare_next;
use vf_datatypes::names::name_refusal;
use vf_datatypes::refusal::refused;
use vf_declared::declaration::GhostDeclaration;
use vf_declared::scope::Scope;
use vf_heads::declare_predicate_constructor;
use vf_heads::parameters::declare_parameters;
use vf_names::Names;
use vf_sorts::SortList;
use vf_syntax::assertion::Assertion;
use vf_syntax::item::GhostParameter;
use vf_syntax::written::Name;

/// Declares a predicate for the first time; its parameters are locals then.
#[tactic(auto, using(vf_heads::proofs::Steps::refused_first, crate::proofs::Heads::first_stops, crate::proofs::Heads::first_goes, vf_heads::proofs::Steps::out_of_memory))]
fn declare_first(
    alloc: Global,
    scope: &mut Scope,
    name: &Name,
    parameters: &Sequence<GhostParameter>,
) -> Result<(), RuleFault>
    ensures { Gives result scope.new (first_behind name.now parameters.now scope.old) }
{
    if let Some(refusal) = name_refusal(scope, name) {
        return Err(RuleFault::Refused(refusal));
    }
    declare_next(alloc, scope, name)?;
    let mut sorts = SortList::new(alloc);
    declare_parameters(alloc, scope, &Names::new(alloc), parameters, &mut sorts)?;
    scope.declare_ghost(alloc, GhostDeclaration::Predicate(sorts))?;
    Ok(())
}

/// Takes the parameters of a predicate with a number that is declared once more.
#[tactic(auto, using(vf_heads::proofs::Steps::refused_first, crate::proofs::Heads::again_passes, vf_heads::proofs::Steps::out_of_memory))]
fn take_again(
    alloc: Global,
    scope: &mut Scope,
    name: &Name,
    parameters: &Sequence<GhostParameter>,
    number: usize,
    has_body: bool,
    sorts: &mut SortList,
) -> Result<(), RuleFault>
    requires { sorts.old ≡ [] }
    ensures { Gives result (record { scope = scope.new; sorts = sorts.new }) (again_behind has_body name.now parameters.now number scope.old) }
{
    if let Some(refusal) = again_refusal(has_body, scope, name, number) {
        return Err(RuleFault::Refused(refusal));
    }
    declare_parameters(alloc, scope, &Names::new(alloc), parameters, sorts)
}

/// Compares the sorts of a predicate's parameters with those that it had before; it stands in one file more then.
#[tactic(auto, using(crate::proofs::Coming::memory, crate::proofs::Heads::agree_differs, crate::proofs::Heads::agree_well))]
fn agree(
    alloc: Global,
    scope: &mut Scope,
    name: &Name,
    number: usize,
    sorts: &SortList,
) -> Result<(), RuleFault>
    ensures { Follows (IsAgain name.now number (record { scope = scope.old; sorts = sorts.now })) result scope.new }
{
    let earlier = sorts_of(alloc, scope, number)?;
    if !are_same(sorts, &earlier) {
        return Err(RuleFault::Refused(refused(Rule::Name, name.place)));
    }
    declare_too(alloc, scope, name)?;
    Ok(())
}

/// Declares a predicate once more, in front of its body or without one; its parameters are locals then.
#[tactic(auto, using(crate::proofs::Heads::again_stops, crate::proofs::Heads::again_goes))]
fn declare_again(
    alloc: Global,
    scope: &mut Scope,
    name: &Name,
    parameters: &Sequence<GhostParameter>,
    number: usize,
    has_body: bool,
) -> Result<(), RuleFault>
    requires { earlier.earlier scope.old name.now ≡ Some number }
    ensures { Follows (HeadComes has_body name.now parameters.now scope.old) result scope.new }
{
    let mut sorts = SortList::new(alloc);
    take_again(alloc, scope, name, parameters, number, has_body, &mut sorts)?;
    agree(alloc, scope, name, number, &sorts)
}

/// Declares a predicate in front of its body, or without one; its parameters are locals then.
#[tactic(auto, using(crate::proofs::Heads::first_comes))]
fn declare_head(
    alloc: Global,
    scope: &mut Scope,
    name: &Name,
    parameters: &Sequence<GhostParameter>,
    has_body: bool,
) -> Result<(), RuleFault>
    ensures { Follows (HeadComes has_body name.now parameters.now scope.old) result scope.new }
{
    match earlier(scope, name) {
        Some(number) => declare_again(alloc, scope, name, parameters, number, has_body),
        None => declare_first(alloc, scope, name, parameters),
    }
}

/// The number of the predicate that a name means, or the next one where it means none yet.
fn number_at(scope: &Scope, name: &Name) -> usize
    ensures { result ≡ number_at scope.now name.now }
{
    match earlier(scope, name) {
        Some(number) => number,
        None => scope.ghosts.len(),
    }
}

/// Declares a predicate without a body.
///
/// # Errors
///
/// Refused at the first of these in the order of the text: its name by rule 7 where it is one of C, by rule 5 where it
/// means something else, or a predicate that is declared without a body already; the sort of a parameter by the rules
/// of sorts; the name of a parameter by rule 7 where it is one of C, by rule 5 where another local has it; and its name
/// by rule 5 where it is a predicate over other sorts.
#[tactic(auto, using(crate::proofs::Wholes::predicate_stops, crate::proofs::Coming::memory, crate::proofs::Wholes::predicate_comes))]
pub fn declare_predicate(
    alloc: Global,
    scope: &mut Scope,
    name: &Name,
    parameters: &Sequence<GhostParameter>,
) -> Result<(), RuleFault>
    ensures { Follows (PredicateComes name.now parameters.now scope.old) result scope.new }
{
    let count = scope.locals.names.len();
    let number = number_at(scope, name);
    declare_head(alloc, scope, name, parameters, false)?;
    let locals = scope.locals.copy(alloc)?;
    scope.locals.leave(count);
    scope.declare_ghost_prototype(alloc, number, locals);
    Ok(())
}

/// Declares a predicate with its body, which may speak of the predicate itself.
///
/// # Errors
///
/// Refused as a predicate without a body, by rule 5 at its name also where it has a body already, or is a prelude's and
/// stands outside of the preludes; and then at the first fault of its body.
#[tactic(auto, using(crate::proofs::Wholes::head_stops, crate::proofs::Wholes::body_comes))]
pub fn declare_predicate_body(
    alloc: Global,
    scope: &mut Scope,
    name: &Name,
    parameters: &Sequence<GhostParameter>,
    body: &Assertion,
) -> Result<(), RuleFault>
    ensures { Follows (PredicateBodyComes name.now parameters.now (part_list body.now) scope.old) result scope.new }
{
    let count = scope.locals.names.len();
    let number = number_at(scope, name);
    declare_head(alloc, scope, name, parameters, true)?;
    scope.declare_ghost_body(alloc, number);
    body_given(alloc, scope, count, body)
}

/// Declares a predicate constructor with its body.
///
/// # Errors
///
/// Refused at the first fault in the order of the text: its name and its parameters as those of a family, and then what
/// stands in its body.
#[tactic(auto, using(crate::proofs::Wholes::constructor_stops, crate::proofs::Wholes::constructor_comes))]
pub fn declare_constructor_body(
    alloc: Global,
    scope: &mut Scope,
    name: &Name,
    first: &Sequence<GhostParameter>,
    second: &Sequence<GhostParameter>,
    body: &Assertion,
) -> Result<(), RuleFault>
    ensures { Follows (ConstructorComes name.now first.now second.now (part_list body.now) scope.old) result scope.new }
{
    let count = scope.locals.names.len();
    declare_predicate_constructor(alloc, scope, name, first, second)?;
    body_given(alloc, scope, count, body)
}
