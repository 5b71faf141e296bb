//! Patterns.

ghost use Rattle.std.specs.Prelude.{◌≡◌, ◌+◌, IfOk};
ghost use Rattle.vf_terms.specs.Settings.{setting_of};
ghost use Rattle.vf_terms.specs.Named.{scheme_or_int};
ghost use Rattle.vf_sorting.specs.Schemes as schemes;
ghost use Rattle.vf_resolved_parts.specs.Patterns.{application_read, argument_of, arguments_read, next_number, passed, pattern_read, patterns_read, value_read, values_read};

use crate::names::{kind_for, slot_for};
use crate::progress::Progress;
use vf_asserting::cases::instances;
use vf_base::{Memory, Sequence};
use vf_formula::{Term, TermList};
use vf_resolved::pattern::{Argument, Pattern as Resolved};
use vf_sorting::kinds::{int_sort, is_pointer};
use vf_sorts::{Sort, SortList};
use vf_syntax::ghost_expr::GhostExpr;
use vf_syntax::pattern::Pattern;
use vf_syntax::written::Name;
use vf_terms::arguments::{applied, behind, scheme_of_application};
use vf_terms::setting::settled;
use vf_terms::{Reading, Row, Setting, read};

/// The number of the next name that a part binds, behind so many names. There is no memory for more names than
/// numbers have bits for.
pub(crate) fn next_number(first: usize, progress: &Progress) -> Result<usize, Memory>
    ensures { IfOk result (λ n. n ≡ next_number first progress.now) }
{
    behind(first, progress.bound.sorts.len())
}

/// An expression that passes for a sort.
pub fn passed(
    setting: &Setting<'_>,
    sort: &Sort,
    next: usize,
    expr: &GhostExpr,
) -> Result<Reading, Memory>
    ensures { IfOk result (λ r. r ≡ passed (setting_of setting.now) sort.now next expr.now) }
{
    let wanted = settled(setting, sort)?;
    read(setting, is_pointer(&wanted), next, expr)
}

/// A value of a sort.
fn argument_of(setting: &Setting<'_>, sort: &Sort, term: Term) -> Result<Argument, Memory>
    ensures { IfOk result (λ x. x ≡ argument_of (setting_of setting.now) sort.now term) }
{
    let settled = settled(setting, sort)?;
    Ok(Argument {
        kind: kind_for(&settled),
        term,
    })
}

/// A pattern for values of a sort, behind so many names.
pub fn pattern_read(
    setting: &Setting<'_>,
    first: usize,
    sort: &Sort,
    progress: &mut Progress,
    pattern: &Pattern,
) -> Result<Resolved, Memory>
    ensures { IfOk result (λ x. pattern_read (setting_of setting.now) first sort.now progress.old pattern.now ≡ record { pattern = x; progress = progress.new }) }
{
    match pattern {
        Pattern::Is(expr) => {
            let reading = passed(setting, sort, progress.next, expr)?;
            progress.next = reading.next;
            let argument = argument_of(setting, sort, reading.term)?;
            Ok(Resolved::Is(argument))
        }
        Pattern::Binds(_, name) => {
            let number = next_number(first, progress)?;
            let settled = settled(setting, sort)?;
            progress.bound.names.push(name.text.as_bytes())?;
            progress.bound.sorts.push(sort.copy(setting.alloc)?)?;
            Ok(Resolved::Binds(slot_for(number, &settled)))
        }
        Pattern::Wild(_) => {
            let settled = settled(setting, sort)?;
            Ok(Resolved::Wild(kind_for(&settled)))
        }
    }
}

/// Patterns for values of these sorts, from left to right, behind so many names.
pub fn patterns_read(
    setting: &Setting<'_>,
    first: usize,
    sorts: &SortList,
    progress: &mut Progress,
    patterns: &Sequence<Pattern>,
) -> Result<Sequence<Resolved>, Memory>
    ensures { IfOk result (λ xs. patterns_read (setting_of setting.now) first sorts.now progress.old patterns.now ≡ record { patterns = xs; progress = progress.new }) }
{
    let mut all = Sequence::new(setting.alloc);
    for at in 0..patterns.len().min(sorts.len()) {
        let Some(sort) = sorts.get(at) else {
            return Ok(all);
        };
        let Some(pattern) = patterns.get(at) else {
            return Ok(all);
        };
        let pattern = pattern_read(setting, first, sort, progress, pattern)?;
        all.push(pattern)?;
    }
    Ok(all)
}

/// A pattern that binds nothing and passes for a sort; another one counts as the number 0.
fn value_read(
    setting: &Setting<'_>,
    sort: &Sort,
    next: usize,
    pattern: &Pattern,
) -> Result<Reading, Memory>
    ensures { IfOk result (λ r. r ≡ value_read (setting_of setting.now) sort.now next pattern.now) }
{
    match pattern {
        Pattern::Is(expr) => passed(setting, sort, next, expr),
        _ => Ok(Reading {
            sort: int_sort(setting.alloc),
            term: Term::of_number(setting.alloc, 0),
            next,
        }),
    }
}

/// Such patterns, one for each of these sorts, from left to right.
pub fn values_read(
    setting: &Setting<'_>,
    sorts: &SortList,
    next: usize,
    patterns: &Sequence<Pattern>,
) -> Result<Row, Memory>
    ensures { IfOk result (λ xs. xs ≡ values_read (setting_of setting.now) sorts.now next patterns.now) }
{
    let mut row = Row {
        terms: TermList::new(setting.alloc),
        next,
    };
    for at in 0..patterns.len().min(sorts.len()) {
        let Some(sort) = sorts.get(at) else {
            return Ok(row);
        };
        let Some(pattern) = patterns.get(at) else {
            return Ok(row);
        };
        let value = value_read(setting, sort, row.next, pattern)?;
        row.terms.push(value.term)?;
        row.next = value.next;
    }
    Ok(row)
}

/// Some values, and the first number of unknown sorts that is not used behind them.
#[derive(Drop)]
pub struct Arguments {
    pub arguments: Sequence<Argument>,
    pub next: usize,
}

/// Such patterns as values of these sorts, one for each, from left to right.
pub fn arguments_read(
    setting: &Setting<'_>,
    sorts: &SortList,
    next: usize,
    patterns: &Sequence<Pattern>,
) -> Result<Arguments, Memory>
    ensures { IfOk result (λ xs. arguments_read (setting_of setting.now) sorts.now next patterns.now ≡ record { arguments = xs.arguments; next = xs.next }) }
{
    let mut all = Arguments {
        arguments: Sequence::new(setting.alloc),
        next,
    };
    for at in 0..patterns.len().min(sorts.len()) {
        let Some(sort) = sorts.get(at) else {
            return Ok(all);
        };
        let Some(pattern) = patterns.get(at) else {
            return Ok(all);
        };
        let value = value_read(setting, sort, all.next, pattern)?;
        let argument = argument_of(setting, sort, value.term)?;
        all.arguments.push(argument)?;
        all.next = value.next;
    }
    Ok(all)
}

/// An application that is a truth value.
pub fn application_read(
    setting: &Setting<'_>,
    name: &Name,
    next: usize,
    patterns: &Sequence<Pattern>,
) -> Result<Reading, Memory>
    ensures { IfOk result (λ r. r ≡ application_read (setting_of setting.now) name.now next patterns.now) }
{
    let scheme = scheme_of_application(setting, name.place, &name.text)?;
    let behind = behind(next, scheme.parameters)?;
    let sorts = instances(
        setting.alloc,
        setting.unknowns,
        next,
        scheme.parameters,
        &scheme.arguments,
    )?;
    let row = values_read(setting, &sorts, behind, patterns)?;
    applied(setting, &scheme, &name.text, name.place.file, next, row)
}
