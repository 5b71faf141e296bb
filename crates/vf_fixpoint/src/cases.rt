//! Cases of a fixpoint.

ghost use Rattle.std.specs.Prelude.{◌≡◌, [], true, false, IfOk, MatchOption};
ghost use Rattle.vf_fixpoint.specs.Cases.{are_covered, constructors_of, is_complete, is_doubled};

use std::alloc::Global;
use vf_base::{Memory, Sequence};
use vf_names::Names;
use vf_syntax::item::FixpointCase;

/// The names of the constructors of cases; none where one of them has two cases.
fn case_names(alloc: Global, cases: &[FixpointCase]) -> Result<Option<Names>, Memory>
    ensures { IfOk result (λ o. MatchOption o
        (is_doubled [] (constructors_of cases.now) ≡ true)
        (λ names. (is_doubled [] (constructors_of cases.now) ≡ false) × (names ≡ constructors_of cases.now))) }
{
    let mut names = Names::new(alloc);
    for case in cases {
        let name = case.pattern.constructor.text.as_bytes();
        if names.number(name).is_some() {
            return Ok(None);
        }
        names.put(name)?;
    }
    Ok(Some(names))
}

/// Whether each of some constructors has a case.
fn are_covered(constructors: &Names, cases: &Names) -> bool
    ensures { result ≡ are_covered constructors.now cases.now }
{
    for constructor in constructors.as_slice() {
        if cases.number(constructor.as_bytes()).is_none() {
            return false;
        }
    }
    true
}

/// Whether no case is missing, and none is doubled.
pub fn is_complete(
    alloc: Global,
    constructors: &Names,
    cases: &[FixpointCase],
) -> Result<bool, Memory>
    ensures { IfOk result (λ yes. yes ≡ is_complete constructors.now (constructors_of cases.now)) }
{
    match case_names(alloc, cases)? {
        Some(names) => Ok(are_covered(constructors, &names)),
        None => Ok(false),
    }
}
