//! Families, predicate constructors and fixpoints, in front of their bodies.

ghost use Rattle.std.specs.Prelude.{length};
ghost use Rattle.vf_datatypes.specs.Walking.{Gives};
ghost use Rattle.vf_heads.specs.Heads as heads;

use crate::parameters::{declare_named, declare_parameters};
use std::alloc::Global;
use vf_base::{RuleFault, Sequence};
use vf_datatypes::declaring::declare_next;
use vf_datatypes::names::{name_refusal, type_parameters};
use vf_declared::declaration::{Family, Fixpoint, GhostDeclaration, PredicateConstructor};
use vf_declared::scope::Scope;
use vf_names::Names;
use vf_sorting::written_sort;
use vf_sorts::{Sort, SortList};
use vf_syntax::item::GhostParameter;
use vf_syntax::sort::Sort as WrittenSort;
use vf_syntax::written::Name;

/// The parameters of a family behind its index, which has a sort; behind it as many locals as a count says are left.
#[tactic(auto, using(crate::proofs::Steps::stop, crate::proofs::Families::family_goes, crate::proofs::Steps::out_of_memory))]
fn declare_behind_index(
    alloc: Global,
    scope: &mut Scope,
    index: Sort,
    written: &Sequence<GhostParameter>,
    count: usize,
) -> Result<(), RuleFault>
    ensures { Gives result scope.new (heads.behind_index count index written.now scope.old) }
{
    let mut sorts = SortList::new(alloc);
    declare_parameters(alloc, scope, &Names::new(alloc), written, &mut sorts)?;
    scope.locals.leave(count);
    scope.declare_ghost(
        alloc,
        GhostDeclaration::Family(Family {
            index,
            arguments: sorts,
        }),
    )?;
    Ok(())
}

/// The index of a family, which has a sort, and its parameters.
#[tactic(auto, using(crate::proofs::Families::index_stops, crate::proofs::Families::index_goes))]
fn declare_indexed(
    alloc: Global,
    scope: &mut Scope,
    index: &GhostParameter,
    sort: Sort,
    written: &Sequence<GhostParameter>,
) -> Result<(), RuleFault>
    ensures { Gives result scope.new (heads.indexed index.now written.now scope.old sort) }
{
    let count = scope.locals.names.len();
    let mut sorts = SortList::new(alloc);
    declare_named(alloc, scope, &index.name, &sort, &mut sorts)?;
    declare_behind_index(alloc, scope, sort, written, count)
}

/// Declares a family of predicates.
///
/// # Errors
///
/// Refused at the first of these in the order of the text: its name by rule 7 where it is one of C, by rule 5 where it
/// is declared already; the sort of the index or of a parameter by the rules of sorts; the name of the index or of a
/// parameter by rule 7 where it is one of C, by rule 5 where another local has it.
#[tactic(auto, using(crate::proofs::Steps::refused_first, crate::proofs::Families::sort_stops, crate::proofs::Families::sort_goes, crate::proofs::Steps::out_of_memory))]
pub fn declare_family(
    alloc: Global,
    scope: &mut Scope,
    name: &Name,
    index: &GhostParameter,
    parameters: &Sequence<GhostParameter>,
) -> Result<(), RuleFault>
    ensures { Gives result scope.new (heads.family_behind name.now index.now parameters.now scope.old) }
{
    if let Some(refusal) = name_refusal(scope, name) {
        return Err(RuleFault::Refused(refusal));
    }
    declare_next(alloc, scope, name)?;
    let sort = written_sort(alloc, scope, &Names::new(alloc), &index.sort)?;
    declare_indexed(alloc, scope, index, sort, parameters)
}

/// The second parameters of a predicate constructor, whose first ones have these sorts.
#[tactic(auto, using(crate::proofs::Steps::stop, crate::proofs::Constructors::second_goes, crate::proofs::Steps::out_of_memory))]
fn declare_second(
    alloc: Global,
    scope: &mut Scope,
    first: SortList,
    written: &Sequence<GhostParameter>,
) -> Result<(), RuleFault>
    ensures { Gives result scope.new (heads.second_behind written.now (record { scope = scope.old; sorts = first })) }
{
    let mut second = SortList::new(alloc);
    declare_parameters(alloc, scope, &Names::new(alloc), written, &mut second)?;
    scope.declare_ghost(
        alloc,
        GhostDeclaration::PredicateConstructor(PredicateConstructor { first, second }),
    )?;
    Ok(())
}

/// Declares a predicate constructor in front of its body, for which its parameters are locals.
///
/// # Errors
///
/// Refused as a family is, at the first fault in the order of the text.
#[tactic(auto, using(crate::proofs::Steps::refused_first, crate::proofs::Constructors::first_stops, crate::proofs::Constructors::first_goes, crate::proofs::Steps::out_of_memory))]
pub fn declare_predicate_constructor(
    alloc: Global,
    scope: &mut Scope,
    name: &Name,
    first: &Sequence<GhostParameter>,
    second: &Sequence<GhostParameter>,
) -> Result<(), RuleFault>
    ensures { Gives result scope.new (heads.constructor_behind name.now first.now second.now scope.old) }
{
    if let Some(refusal) = name_refusal(scope, name) {
        return Err(RuleFault::Refused(refusal));
    }
    declare_next(alloc, scope, name)?;
    let mut sorts = SortList::new(alloc);
    declare_parameters(alloc, scope, &Names::new(alloc), first, &mut sorts)?;
    declare_second(alloc, scope, sorts, second)
}

/// The name of a fixpoint, whose result is of a sort, and its parameters.
#[tactic(auto, using(crate::proofs::Steps::refused_first, crate::proofs::Fixpoints::parameters_stop, crate::proofs::Fixpoints::parameters_go, crate::proofs::Steps::out_of_memory))]
fn declare_named_fixpoint(
    alloc: Global,
    scope: &mut Scope,
    name: &Name,
    type_parameters: &Names,
    given: Sort,
    written: &Sequence<GhostParameter>,
) -> Result<(), RuleFault>
    ensures { Gives result scope.new (heads.named_fixpoint name.now written.now scope.old type_parameters.now given) }
{
    if let Some(refusal) = name_refusal(scope, name) {
        return Err(RuleFault::Refused(refusal));
    }
    declare_next(alloc, scope, name)?;
    let mut sorts = SortList::new(alloc);
    declare_parameters(alloc, scope, type_parameters, written, &mut sorts)?;
    scope.declare_ghost(
        alloc,
        GhostDeclaration::Fixpoint(Fixpoint {
            parameters: type_parameters.len(),
            arguments: sorts,
            result: given,
        }),
    )?;
    Ok(())
}

/// Declares a fixpoint in front of its body, for which its parameters are locals.
///
/// # Errors
///
/// Refused at the first of these in the order of the text: a type parameter by rule 5 where it is one already, by
/// rule 7 where it is one of C; the sort of the result by the rules of sorts; its name, and then its parameters, as
/// those of a family.
#[tactic(auto, using(crate::proofs::Fixpoints::types_stop, crate::proofs::Fixpoints::given_stops, crate::proofs::Fixpoints::given_goes))]
pub fn declare_fixpoint(
    alloc: Global,
    scope: &mut Scope,
    given: &WrittenSort,
    name: &Name,
    types: &Sequence<Name>,
    parameters: &Sequence<GhostParameter>,
) -> Result<(), RuleFault>
    ensures { Gives result scope.new (heads.fixpoint_behind given.now name.now types.now parameters.now scope.old) }
{
    let types = type_parameters(alloc, scope, types)?;
    let sort = written_sort(alloc, scope, &types, given)?;
    declare_named_fixpoint(alloc, scope, name, &types, sort, parameters)
}
