//! Parameters of ghost text.

ghost use Rattle.std.specs.Prelude.{◌≡◌};
ghost use Rattle.std.specs.Option.{option_copied};
ghost use Rattle.vf_datatypes.specs.Walking.{Gives};
ghost use Rattle.vf_heads.specs.Parameters as heads;

use std::alloc::Global;
use vf_base::{Refusal, Rule, RuleFault, Sequence};
use vf_datatypes::names::names_c;
use vf_datatypes::refusal::refused;
use vf_declared::locals::{GhostLocal, Local};
use vf_declared::scope::Scope;
use vf_names::Names;
use vf_sorting::written_sort;
use vf_sorts::{Sort, SortList};
use vf_syntax::item::GhostParameter;
use vf_syntax::written::Name;

/// Whether a local is one of C.
fn is_real(local: Option<&Local>) -> bool
    ensures { result ≡ heads.is_real (option_copied local.entry) }
{
    match local {
        Some(Local::Real(_)) => true,
        _ => false,
    }
}

/// Why ghost text may not give a local a name, if it may not: it is one of C (rule 7), or another local's (rule 5).
pub fn local_refusal(scope: &Scope, name: &Name) -> Option<Refusal>
    ensures { result ≡ heads.local_refusal scope.now name.now }
{
    if is_real(scope.local(&name.text)) || names_c(scope, &name.text, name.place.file) {
        return Some(refused(Rule::GhostInReal, name.place));
    }
    if scope.locals.names.number(name.text.as_bytes()).is_some() {
        return Some(refused(Rule::Name, name.place));
    }
    None
}

/// Makes a parameter of a sort a local, and puts its sort behind others.
#[tactic(auto, using(crate::proofs::Steps::refused_first, crate::proofs::Steps::named_goes, crate::proofs::Steps::out_of_memory, crate::proofs::Steps::is_absent))]
pub fn declare_named(
    alloc: Global,
    scope: &mut Scope,
    name: &Name,
    sort: &Sort,
    sorts: &mut SortList,
) -> Result<(), RuleFault>
    ensures { Gives result (record { scope = scope.new; sorts = sorts.new }) (heads.named name.now (record { scope = scope.old; sorts = sorts.old }) sort.now) }
{
    if let Some(refusal) = local_refusal(scope, name) {
        return Err(RuleFault::Refused(refusal));
    }
    let kept = sort.copy(alloc)?;
    let local = Local::Ghost(GhostLocal {
        is_variable: false,
        sort: kept,
    });
    scope.locals.declare(name.text.as_bytes(), local)?;
    sorts.push(sort.copy(alloc)?)?;
    Ok(())
}

/// A parameter: its sort, then its name.
#[tactic(auto, using(crate::proofs::Steps::go, crate::proofs::Steps::stop_told))]
fn declare_parameter(
    alloc: Global,
    scope: &mut Scope,
    type_parameters: &Names,
    written: &GhostParameter,
    sorts: &mut SortList,
) -> Result<(), RuleFault>
    ensures { Gives result (record { scope = scope.new; sorts = sorts.new }) (heads.parameter_behind type_parameters.now written.now (record { scope = scope.old; sorts = sorts.old })) }
{
    let sort = written_sort(alloc, scope, type_parameters, &written.sort)?;
    declare_named(alloc, scope, &written.name, &sort, sorts)
}

/// Makes parameters locals, one after the other, and puts their sorts behind others. Refused at the first fault in the
/// order of the text: a sort by the rules of sorts, and then a name that is one of C (rule 7) or another local's
/// (rule 5).
#[tactic(auto, using(crate::proofs::Loops::parameters_none, crate::proofs::Loops::parameters_end))]
pub fn declare_parameters(
    alloc: Global,
    scope: &mut Scope,
    type_parameters: &Names,
    written: &Sequence<GhostParameter>,
    sorts: &mut SortList,
) -> Result<(), RuleFault>
    ensures { Gives result (record { scope = scope.new; sorts = sorts.new }) (heads.parameters_behind type_parameters.now written.now (record { scope = scope.old; sorts = sorts.old })) }
{
    for at in 0..written.len() {
        let Some(parameter) = written.get(at) else {
            return Ok(());
        };
        declare_parameter(alloc, scope, type_parameters, parameter, sorts)?;
    }
    Ok(())
}
