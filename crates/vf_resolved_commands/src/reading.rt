//! Commands and expressions where something is declared and numbered.

ghost use Rattle.std.specs.Prelude.{◌≡◌, length, IfOk};
ghost use Rattle.vf_terms.specs.Named.{term_of_name};
ghost use Rattle.vf_resolved_parts.specs.Patterns.{passed};
ghost use Rattle.vf_resolving.specs.Standings.{around_of, setting_at, standing_of};
ghost use Rattle.vf_resolved_commands.specs.Commands.{call_read, close_read, open_read};

use crate::calls::call_read;
use crate::command_reading::CommandReading;
use crate::opening::{close_read, open_read};
use vf_base::{Memory, Place, Sequence, Text};
use vf_formula::Term;
use vf_resolved::command::Command;
use vf_resolved_parts::Progress;
use vf_resolved_parts::patterns::passed;
use vf_resolving::{Around, Standing};
use vf_sorts::Sort;
use vf_syntax::ghost_expr::{GhostExpr, GhostExprList};
use vf_syntax::pattern::{Pattern, Share};
use vf_syntax::written::Name;
use vf_terms::named::term_of_name;
use vf_terms::{Reading, Setting};

/// An expression that passes for a sort.
pub fn passed_at(
    around: &Around<'_>,
    standing: &Standing,
    sort: &Sort,
    expr: &GhostExpr,
) -> Result<Reading, Memory>
    ensures { IfOk result (λ x. x ≡ passed (setting_at (around_of around.now) (standing_of standing.now)) sort.now standing.now.next expr.now) }
{
    let setting = Setting {
        alloc: around.alloc,
        scope: &standing.scope,
        context: around.context,
        unknowns: around.unknowns,
        paths: around.paths,
        locals: &standing.terms,
        result: around.result,
        this_value: around.this_value,
        thread: around.thread,
    };
    passed(&setting, sort, standing.next, expr)
}

/// What a name in a file means.
pub fn name_at(
    around: &Around<'_>,
    standing: &Standing,
    name: &Text,
    from: u32,
) -> Result<Term, Memory>
    ensures { IfOk result (λ x. x ≡ term_of_name (setting_at (around_of around.now) (standing_of standing.now)) name.now from) }
{
    let setting = Setting {
        alloc: around.alloc,
        scope: &standing.scope,
        context: around.context,
        unknowns: around.unknowns,
        paths: around.paths,
        locals: &standing.terms,
        result: around.result,
        this_value: around.this_value,
        thread: around.thread,
    };
    term_of_name(&setting, name, from)
}

/// `open` at a place.
pub fn open_at(
    around: &Around<'_>,
    standing: &Standing,
    progress: &mut Progress,
    place: Place,
    share: &Option<Share>,
    name: &Name,
    one: &Sequence<Pattern>,
    two: &Option<Sequence<Pattern>>,
) -> Result<Command, Memory>
    ensures { IfOk result (λ x. open_read (setting_at (around_of around.now) (standing_of standing.now)) (length standing.now.sorts) progress.old place share.now name.now one.now two.now ≡ record { command = x; progress = progress.new }) }
{
    let setting = Setting {
        alloc: around.alloc,
        scope: &standing.scope,
        context: around.context,
        unknowns: around.unknowns,
        paths: around.paths,
        locals: &standing.terms,
        result: around.result,
        this_value: around.this_value,
        thread: around.thread,
    };
    let many = standing.sorts.len();
    open_read(&setting, many, progress, place, share, name, one, two)
}

/// `close` at a place.
pub fn close_at(
    around: &Around<'_>,
    standing: &Standing,
    progress: &mut Progress,
    place: Place,
    share: &Option<Share>,
    name: &Name,
    one: &Sequence<Pattern>,
    two: &Option<Sequence<Pattern>>,
) -> Result<CommandReading, Memory>
    ensures { IfOk result (λ x. x ≡ close_read (setting_at (around_of around.now) (standing_of standing.now)) (length standing.now.sorts) progress.old place share.now name.now one.now two.now) }
{
    let setting = Setting {
        alloc: around.alloc,
        scope: &standing.scope,
        context: around.context,
        unknowns: around.unknowns,
        paths: around.paths,
        locals: &standing.terms,
        result: around.result,
        this_value: around.this_value,
        thread: around.thread,
    };
    let many = standing.sorts.len();
    close_read(&setting, many, progress, place, share, name, one, two)
}

/// A call at a place.
pub fn call_at(
    around: &Around<'_>,
    standing: &Standing,
    place: Place,
    name: &Text,
    arguments: &GhostExprList,
) -> Result<CommandReading, Memory>
    ensures { IfOk result (λ x. x ≡ call_read (setting_at (around_of around.now) (standing_of standing.now)) standing.now.next place name.now arguments.now) }
{
    let setting = Setting {
        alloc: around.alloc,
        scope: &standing.scope,
        context: around.context,
        unknowns: around.unknowns,
        paths: around.paths,
        locals: &standing.terms,
        result: around.result,
        this_value: around.this_value,
        thread: around.thread,
    };
    call_read(&setting, standing.next, place, name, arguments)
}
