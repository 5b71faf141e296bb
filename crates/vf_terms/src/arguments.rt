//! What names may be used at.

ghost use Rattle.std.specs.Prelude.{◌≡◌, ◌+◌, ◌<◌, ◌^◌, IfOk};
ghost use Rattle.vf_sorting.specs.Kinds.{int_sort};
ghost use Rattle.vf_sorting.specs.Schemes as schemes;
ghost use Rattle.vf_terms.specs.Named.{scheme_or_int, term_of_name};
ghost use Rattle.vf_terms.specs.Readings.{applied_at, used_at};
ghost use Rattle.vf_terms.specs.Settings.{setting_of, settled};
ghost use Rattle.vf_sorts.specs.Unknowns.{instance};

use crate::named::{applied_term, term_of_name};
use crate::reading::{Reading, Row};
use crate::setting::{Setting, kind_of_sort, settled};
use std::alloc::Global;
use vf_base::{Memory, Place, RuleFault, Text};
use vf_sorting::Scheme;
use vf_sorting::kinds::int_sort;
use vf_sorting::names::{application_scheme, name_scheme};
use vf_sorts::{Sort, SortList};

/// What is used at whole numbers, and is applied to nothing.
fn at_int(alloc: Global) -> Scheme
    ensures { result ≡ schemes.at_sort int_sort }
{
    Scheme {
        parameters: 0,
        arguments: SortList::new(alloc),
        result: int_sort(alloc),
    }
}

/// What a name may be used at as a value; where it may not be used, whole numbers.
pub(crate) fn scheme_of_name(
    setting: &Setting<'_>,
    place: Place,
    name: &Text,
) -> Result<Scheme, Memory>
    ensures { IfOk result (λ g. g ≡ scheme_or_int (schemes.name_scheme (setting_of setting.now).scope place name.now)) }
{
    match name_scheme(setting.alloc, setting.scope, place, name) {
        Ok(scheme) => Ok(scheme),
        Err(RuleFault::Refused(_)) => Ok(at_int(setting.alloc)),
        Err(RuleFault::Memory) => Err(Memory),
    }
}

/// What a name may be applied at; where it may not be applied, whole numbers.
pub fn scheme_of_application(
    setting: &Setting<'_>,
    place: Place,
    name: &Text,
) -> Result<Scheme, Memory>
    ensures { IfOk result (λ g. g ≡ scheme_or_int (schemes.application_scheme (setting_of setting.now).scope (setting_of setting.now).context.own place name.now)) }
{
    match application_scheme(
        setting.alloc,
        setting.scope,
        setting.context.own,
        place,
        name,
    ) {
        Ok(scheme) => Ok(scheme),
        Err(RuleFault::Refused(_)) => Ok(at_int(setting.alloc)),
        Err(RuleFault::Memory) => Err(Memory),
    }
}

/// The number behind those of so many unknown sorts from one on. There is no memory for more than numbers
/// have bits for.
pub fn behind(first: usize, count: usize) -> Result<usize, Memory>
    ensures { IfOk result (λ n. n ≡ first + count) }
{
    match first.checked_add(count) {
        Some(next) => Ok(next),
        None => Err(Memory),
    }
}

/// The sort of a parameter or a result at unknown sorts from a number on, as it is known in the end.
pub fn settled_instance(
    setting: &Setting<'_>,
    first: usize,
    count: usize,
    sort: &Sort,
) -> Result<Sort, Memory>
    requires { first + count < 2 ^ 64 }
    ensures { IfOk result (λ t. t ≡ settled (setting_of setting.now) (instance first count sort.now)) }
{
    let instance = setting.unknowns.instance(first, count, sort)?;
    settled(setting, &instance)
}

/// A name at a place as a value.
pub fn named(
    setting: &Setting<'_>,
    next: usize,
    place: Place,
    name: &Text,
) -> Result<Reading, Memory>
    ensures { IfOk result (λ r. r ≡ used_at (setting_of setting.now) (scheme_or_int (schemes.name_scheme (setting_of setting.now).scope place name.now)) (term_of_name (setting_of setting.now) name.now place.file) next) }
{
    let scheme = scheme_of_name(setting, place, name)?;
    let behind = behind(next, scheme.parameters)?;
    let sort = settled_instance(setting, next, scheme.parameters, &scheme.result)?;
    let term = term_of_name(setting, name, place.file)?;
    Ok(Reading {
        sort,
        term,
        next: behind,
    })
}

/// A name in front of arguments that were read, at what it may be applied at.
pub fn applied(
    setting: &Setting<'_>,
    scheme: &Scheme,
    name: &Text,
    from: u32,
    first: usize,
    arguments: Row,
) -> Result<Reading, Memory>
    requires { first + scheme.now.parameters < 2 ^ 64 }
    ensures { IfOk result (λ r. r ≡ applied_at (setting_of setting.now) scheme.now name.now from first arguments) }
{
    let sort = settled_instance(setting, first, scheme.parameters, &scheme.result)?;
    let term = applied_term(setting, kind_of_sort(&sort), name, from, arguments.terms)?;
    Ok(Reading {
        sort,
        term,
        next: arguments.next,
    })
}
