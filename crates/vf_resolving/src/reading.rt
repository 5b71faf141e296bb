//! Expressions, chunks and cells where something is declared and numbered.

ghost use Rattle.std.specs.Prelude.{◌≡◌, false, length, IfOk};
ghost use Rattle.vf_terms.specs.Readings.{read};
ghost use Rattle.vf_resolved_parts.specs.Parts.{cell_read, chunk_read};
ghost use Rattle.vf_resolved_parts.specs.Truths.{truth};
ghost use Rattle.vf_resolving.specs.Standings.{around_of, setting_at, standing_of};

use crate::standing::{Around, Standing};
use vf_base::{Memory, Place, Sequence};
use vf_resolved::assertion::Part;
use vf_resolved_parts::parts::{cell_read, chunk_read};
use vf_resolved_parts::{Progress, TruthReading, truth};
use vf_syntax::ghost_expr::GhostExpr;
use vf_syntax::pattern::{Pattern, Share};
use vf_syntax::written::Name;
use vf_terms::{Reading, Setting, read};

/// A truth value.
pub fn truth_at(
    around: &Around<'_>,
    standing: &Standing,
    expr: &GhostExpr,
) -> Result<TruthReading, Memory>
    ensures { IfOk result (λ x. x ≡ truth (setting_at (around_of around.now) (standing_of standing.now)) standing.now.next expr.now) }
{
    let setting = Setting {
        alloc: around.alloc,
        scope: &standing.scope,
        context: around.context,
        unknowns: around.unknowns,
        paths: around.paths,
        locals: &standing.terms,
        result: around.result,
        this_value: around.this_value,
        thread: around.thread,
    };
    truth(&setting, standing.next, expr)
}

/// An expression of which no pointer is wanted.
pub fn read_at(
    around: &Around<'_>,
    standing: &Standing,
    expr: &GhostExpr,
) -> Result<Reading, Memory>
    ensures { IfOk result (λ x. x ≡ read (setting_at (around_of around.now) (standing_of standing.now)) false standing.now.next expr.now) }
{
    let setting = Setting {
        alloc: around.alloc,
        scope: &standing.scope,
        context: around.context,
        unknowns: around.unknowns,
        paths: around.paths,
        locals: &standing.terms,
        result: around.result,
        this_value: around.this_value,
        thread: around.thread,
    };
    read(&setting, false, standing.next, expr)
}

/// A chunk at a place.
pub fn chunk_at(
    around: &Around<'_>,
    standing: &Standing,
    progress: &mut Progress,
    place: Place,
    share: &Option<Share>,
    name: &Name,
    one: &Sequence<Pattern>,
    two: &Option<Sequence<Pattern>>,
) -> Result<Part, Memory>
    ensures { IfOk result (λ x. chunk_read (setting_at (around_of around.now) (standing_of standing.now)) (length standing.now.sorts) progress.old place share.now name.now one.now two.now ≡ record { part = x; progress = progress.new }) }
{
    let setting = Setting {
        alloc: around.alloc,
        scope: &standing.scope,
        context: around.context,
        unknowns: around.unknowns,
        paths: around.paths,
        locals: &standing.terms,
        result: around.result,
        this_value: around.this_value,
        thread: around.thread,
    };
    let many = standing.sorts.len();
    chunk_read(&setting, many, progress, place, share, name, one, two)
}

/// A cell at a place.
pub fn cell_at(
    around: &Around<'_>,
    standing: &Standing,
    progress: &mut Progress,
    place: Place,
    share: &Option<Share>,
    pointer: &GhostExpr,
    field: &Name,
    content: &Pattern,
) -> Result<Part, Memory>
    ensures { IfOk result (λ x. cell_read (setting_at (around_of around.now) (standing_of standing.now)) (length standing.now.sorts) progress.old place share.now pointer.now field.now content.now ≡ record { part = x; progress = progress.new }) }
{
    let setting = Setting {
        alloc: around.alloc,
        scope: &standing.scope,
        context: around.context,
        unknowns: around.unknowns,
        paths: around.paths,
        locals: &standing.terms,
        result: around.result,
        this_value: around.this_value,
        thread: around.thread,
    };
    let many = standing.sorts.len();
    cell_read(
        &setting, many, progress, place, share, pointer, field, content,
    )
}
