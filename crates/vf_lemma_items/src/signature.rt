//! Parameters of lemmas, and their declaration behind them.

ghost use Rattle.std.specs.Prelude.{◌≡◌, OnOk};
ghost use Rattle.vf_walk.specs.Walking.{Follows};
ghost use Rattle.vf_predicates.specs.Earlier.{seen_too};
ghost use Rattle.vf_lemma_items.specs.Lemmas as lemmas;

use crate::earlier::{Head, sorts_of};
use std::alloc::Global;
use vf_base::{Memory, Rule, RuleFault, Sequence};
use vf_datatypes::declaring::declare_next;
use vf_datatypes::refusal::refused;
use vf_declared::declaration::{GhostDeclaration, Lemma};
use vf_declared::scope::Scope;
use vf_heads::parameters::declare_parameters;
use vf_predicates::are_same;
use vf_sorts::SortList;
use vf_syntax::item::GhostParameter;
use vf_syntax::written::Name;

/// The number of a lemma that is declared already or not.
pub fn lemma_number(scope: &Scope, earlier: Option<usize>) -> usize
    ensures { result ≡ lemmas.number scope.now earlier }
{
    match earlier {
        Some(number) => number,
        None => scope.ghosts.len(),
    }
}

/// Declares the name of a new lemma, in front of what it is.
fn begin(
    alloc: Global,
    scope: &mut Scope,
    name: &Name,
    earlier: Option<usize>,
) -> Result<(), Memory>
    ensures { OnOk result (scope.new ≡ lemmas.begun name.now earlier scope.old) }
{
    match earlier {
        Some(_) => Ok(()),
        None => declare_next(alloc, scope, name),
    }
}

/// What is declared under a name stands in the name's file too.
fn declare_too(alloc: Global, scope: &mut Scope, name: &Name) -> Result<(), Memory>
    ensures { OnOk result (scope.new ≡ seen_too scope.old name.now) }
{
    match scope.names.number(name.text.as_bytes()) {
        Some(number) => scope.declare_name_again(alloc, number, name.place.file),
        None => Ok(()),
    }
}

/// Declares a new lemma over these sorts, or compares them with those that the lemma had before.
#[tactic(auto, using(vf_predicates::proofs::Coming::memory, crate::proofs::Steps::new_comes, crate::proofs::Steps::sorts_differ, crate::proofs::Steps::sorts_agree))]
fn declare(
    alloc: Global,
    scope: &mut Scope,
    name: &Name,
    head: &Head,
    sorts: SortList,
) -> Result<(), RuleFault>
    ensures { Follows (lemmas.IsLemma name.now head.now.parameters head.now.earlier (record { scope = scope.old; sorts = sorts })) result scope.new }
{
    let Some(number) = head.earlier else {
        let lemma = Lemma {
            parameters: head.parameters.len(),
            arguments: sorts,
        };
        scope.declare_ghost(alloc, GhostDeclaration::Lemma(lemma))?;
        return Ok(());
    };
    let earlier = sorts_of(alloc, scope, number)?;
    if !are_same(&sorts, &earlier) {
        return Err(RuleFault::Refused(refused(Rule::Name, name.place)));
    }
    declare_too(alloc, scope, name)?;
    Ok(())
}

/// Takes the parameters of a lemma, which are locals then, and declares the lemma behind them.
#[tactic(auto, using(vf_predicates::proofs::Coming::memory, crate::proofs::Steps::parameters_stop, crate::proofs::Steps::signature_comes))]
pub fn declare_signature(
    alloc: Global,
    scope: &mut Scope,
    name: &Name,
    parameters: &Sequence<GhostParameter>,
    head: &Head,
) -> Result<(), RuleFault>
    ensures { Follows (lemmas.SignatureComes name.now parameters.now head.now scope.old) result scope.new }
{
    begin(alloc, scope, name, head.earlier)?;
    let mut sorts = SortList::new(alloc);
    declare_parameters(alloc, scope, &head.parameters, parameters, &mut sorts)?;
    declare(alloc, scope, name, head, sorts)
}
