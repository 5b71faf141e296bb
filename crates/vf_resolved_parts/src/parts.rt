//! Chunks and cells.

ghost use Rattle.std.specs.Prelude.{◌≡◌, IfOk};
ghost use Rattle.vf_terms.specs.Settings.{setting_of};
ghost use Rattle.vf_resolved_parts.specs.Heads.{form_of};
ghost use Rattle.vf_resolved_parts.specs.Patterns.{application_read};
ghost use Rattle.vf_resolved_parts.specs.Parts.{beginning, cell_read, chunk_of, chunk_read, content_read, pairs_read, truth_of};

use crate::heads::{cell_field, content_sort, field_type, form_of, head_for, told_struct};
use crate::patterns::{application_read, arguments_read, pattern_read, patterns_read};
use crate::progress::Progress;
use crate::shares::share_read;
use std::alloc::Global;
use vf_base::{Memory, Place, Sequence};
use vf_binding::bound::no_names;
use vf_binding::chunk_sorts::{ChunkSorts, chunk_takes};
use vf_resolved::assertion::{Part, PartNode};
use vf_resolved::pattern::{Argument, Pattern as Resolved, Share as ResolvedShare};
use vf_resolved::truth::{Truth, TruthNode};
use vf_syntax::ghost_expr::GhostExpr;
use vf_syntax::pattern::{Pattern, Share};
use vf_syntax::written::Name;
use vf_terms::{Reading, Setting, read};

/// The parentheses of a chunk: the values in the first of two pairs, and the arguments.
#[derive(Drop)]
pub struct Pairs {
    pub first: Sequence<Argument>,
    pub arguments: Sequence<Resolved>,
}

/// Nothing is bound.
pub fn beginning(alloc: Global, next: usize) -> Progress
    ensures { result ≡ beginning next }
{
    Progress {
        bound: no_names(alloc),
        next,
    }
}

/// One or two pairs of parentheses, by what a chunk takes.
pub fn pairs_read(
    setting: &Setting<'_>,
    first: usize,
    progress: &mut Progress,
    taken: &ChunkSorts,
    one: &Sequence<Pattern>,
    two: &Option<Sequence<Pattern>>,
) -> Result<Pairs, Memory>
    ensures { IfOk result (λ x. pairs_read (setting_of setting.now) first progress.old taken.now.heads taken.now.arguments one.now two.now ≡ record { first = x.first; arguments = record { patterns = x.arguments; progress = progress.new } }) }
{
    match &taken.heads {
        None => {
            let arguments = patterns_read(setting, first, &taken.arguments, progress, one)?;
            Ok(Pairs {
                first: Sequence::new(setting.alloc),
                arguments,
            })
        }
        Some(heads) => {
            let row = arguments_read(setting, heads, progress.next, one)?;
            progress.next = row.next;
            let none = Sequence::new(setting.alloc);
            let patterns = match two {
                Some(patterns) => patterns,
                None => &none,
            };
            let arguments = patterns_read(setting, first, &taken.arguments, progress, patterns)?;
            Ok(Pairs {
                first: row.arguments,
                arguments,
            })
        }
    }
}

/// An application as a truth value at a place.
fn truth_of(
    setting: &Setting<'_>,
    place: Place,
    name: &Name,
    patterns: &Sequence<Pattern>,
    progress: &mut Progress,
) -> Result<Part, Memory>
    ensures { IfOk result (λ x. truth_of place progress.old (application_read (setting_of setting.now) name.now progress.old.next patterns.now) ≡ record { part = x; progress = progress.new }) }
{
    let reading = application_read(setting, name, progress.next, patterns)?;
    progress.next = reading.next;
    Ok(Part {
        place,
        node: PartNode::Pure(Truth {
            node: TruthNode::Value(reading.term),
        }),
    })
}

/// A chunk whose share is read, by what its name takes.
fn taken_read(
    setting: &Setting<'_>,
    first: usize,
    place: Place,
    name: &Name,
    one: &Sequence<Pattern>,
    two: &Option<Sequence<Pattern>>,
    share: Option<ResolvedShare>,
    progress: &mut Progress,
    taken: &ChunkSorts,
) -> Result<Part, Memory>
    ensures { IfOk result (λ x. chunk_of place (record { share = share; progress = progress.old }) (form_of (setting_of setting.now) name.now) (pairs_read (setting_of setting.now) first progress.old taken.now.heads taken.now.arguments one.now two.now) ≡ record { part = x; progress = progress.new }) }
{
    let pairs = pairs_read(setting, first, progress, taken, one, two)?;
    let form = form_of(setting, name)?;
    let head = head_for(setting.alloc, form, pairs.first)?;
    Ok(Part {
        place,
        node: PartNode::Chunk(share, head, pairs.arguments),
    })
}

/// A chunk at a place, behind so many names.
pub fn chunk_read(
    setting: &Setting<'_>,
    first: usize,
    progress: &mut Progress,
    place: Place,
    share: &Option<Share>,
    name: &Name,
    one: &Sequence<Pattern>,
    two: &Option<Sequence<Pattern>>,
) -> Result<Part, Memory>
    ensures { IfOk result (λ x. chunk_read (setting_of setting.now) first progress.old place share.now name.now one.now two.now ≡ record { part = x; progress = progress.new }) }
{
    let share = share_read(setting, first, progress, share)?;
    match chunk_takes(setting.alloc, setting.scope, setting.unknowns, name)? {
        Some(taken) => taken_read(
            setting, first, place, name, one, two, share, progress, &taken,
        ),
        None => truth_of(setting, place, name, one, progress),
    }
}

/// The content of a cell at a place whose share and pointer are read.
fn content_read(
    setting: &Setting<'_>,
    first: usize,
    progress: &mut Progress,
    place: Place,
    field: &Name,
    content: &Pattern,
    share: Option<ResolvedShare>,
    pointer: Reading,
) -> Result<Part, Memory>
    ensures { IfOk result (λ x. content_read (setting_of setting.now) first place field.now content.now (record { share = share; progress = progress.old }) pointer ≡ record { part = x; progress = progress.new }) }
{
    let number = told_struct(&pointer.sort);
    let sort = content_sort(setting.alloc, field_type(setting, number, field));
    progress.next = pointer.next;
    let content = pattern_read(setting, first, &sort, progress, content)?;
    let field = cell_field(setting, number, field)?;
    Ok(Part {
        place,
        node: PartNode::Cell(share, pointer.term, field, content),
    })
}

/// A cell at a place, behind so many names.
pub fn cell_read(
    setting: &Setting<'_>,
    first: usize,
    progress: &mut Progress,
    place: Place,
    share: &Option<Share>,
    pointer: &GhostExpr,
    field: &Name,
    content: &Pattern,
) -> Result<Part, Memory>
    ensures { IfOk result (λ x. cell_read (setting_of setting.now) first progress.old place share.now pointer.now field.now content.now ≡ record { part = x; progress = progress.new }) }
{
    let share = share_read(setting, first, progress, share)?;
    let pointer = read(setting, false, progress.next, pointer)?;
    content_read(
        setting, first, progress, place, field, content, share, pointer,
    )
}
