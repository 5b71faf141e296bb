//! `open` and `close`.

ghost use Rattle.std.specs.Prelude.{◌≡◌, IfOk};
ghost use Rattle.vf_terms.specs.Settings.{setting_of};
ghost use Rattle.vf_resolved_commands.specs.Commands.{close_read, open_read, taken_or_none, values_read};

use crate::command_reading::CommandReading;
use std::alloc::Global;
use vf_base::{Memory, Place, Sequence};
use vf_binding::chunk_sorts::{ChunkSorts, chunk_takes};
use vf_resolved::command::{Command, CommandNode};
use vf_resolved::pattern::Argument;
use vf_resolved_parts::Progress;
use vf_resolved_parts::heads::{form_of, head_for};
use vf_resolved_parts::parts::pairs_read;
use vf_resolved_parts::patterns::{Arguments, arguments_read};
use vf_resolved_parts::shares::share_read;
use vf_sorts::SortList;
use vf_syntax::pattern::{Pattern, Share};
use vf_syntax::written::Name;
use vf_terms::Setting;

/// What a name takes; where it takes nothing, no arguments.
fn taken_or_none(alloc: Global, taken: Option<ChunkSorts>) -> ChunkSorts
    ensures { result ≡ taken_or_none taken }
{
    match taken {
        Some(taken) => taken,
        None => ChunkSorts {
            heads: None,
            arguments: SortList::new(alloc),
        },
    }
}

/// `open` at a place, behind so many names.
pub fn open_read(
    setting: &Setting<'_>,
    first: usize,
    progress: &mut Progress,
    place: Place,
    share: &Option<Share>,
    name: &Name,
    one: &Sequence<Pattern>,
    two: &Option<Sequence<Pattern>>,
) -> Result<Command, Memory>
    ensures { IfOk result (λ x. open_read (setting_of setting.now) first progress.old place share.now name.now one.now two.now ≡ record { command = x; progress = progress.new }) }
{
    let share = share_read(setting, first, progress, share)?;
    let taken = chunk_takes(setting.alloc, setting.scope, setting.unknowns, name)?;
    let taken = taken_or_none(setting.alloc, taken);
    let pairs = pairs_read(setting, first, progress, &taken, one, two)?;
    let form = form_of(setting, name)?;
    let head = head_for(setting.alloc, form, pairs.first)?;
    Ok(Command {
        place,
        node: CommandNode::Open(share, head, pairs.arguments),
    })
}

/// The values in one or two pairs of parentheses in which expressions alone stand: those of the first of two pairs, and
/// the others.
#[derive(Drop)]
struct Values {
    first: Sequence<Argument>,
    others: Arguments,
}

/// The values in one or two pairs of parentheses, by what a chunk takes.
fn values_read(
    setting: &Setting<'_>,
    next: usize,
    taken: &ChunkSorts,
    one: &Sequence<Pattern>,
    two: &Option<Sequence<Pattern>>,
) -> Result<Values, Memory>
    ensures { IfOk result (λ x. values_read (setting_of setting.now) next taken.now.heads taken.now.arguments one.now two.now ≡ record { first = x.first; others = record { arguments = x.others.arguments; next = x.others.next } }) }
{
    match &taken.heads {
        None => {
            let others = arguments_read(setting, &taken.arguments, next, one)?;
            Ok(Values {
                first: Sequence::new(setting.alloc),
                others,
            })
        }
        Some(heads) => {
            let row = arguments_read(setting, heads, next, one)?;
            let none = Sequence::new(setting.alloc);
            let patterns = match two {
                Some(patterns) => patterns,
                None => &none,
            };
            let others = arguments_read(setting, &taken.arguments, row.next, patterns)?;
            Ok(Values {
                first: row.arguments,
                others,
            })
        }
    }
}

/// `close` at a place, behind so many names.
pub fn close_read(
    setting: &Setting<'_>,
    first: usize,
    progress: &mut Progress,
    place: Place,
    share: &Option<Share>,
    name: &Name,
    one: &Sequence<Pattern>,
    two: &Option<Sequence<Pattern>>,
) -> Result<CommandReading, Memory>
    ensures { IfOk result (λ x. x ≡ close_read (setting_of setting.now) first progress.old place share.now name.now one.now two.now) }
{
    let share = share_read(setting, first, progress, share)?;
    let taken = chunk_takes(setting.alloc, setting.scope, setting.unknowns, name)?;
    let taken = taken_or_none(setting.alloc, taken);
    let values = values_read(setting, progress.next, &taken, one, two)?;
    let next = values.others.next;
    let form = form_of(setting, name)?;
    let head = head_for(setting.alloc, form, values.first)?;
    Ok(CommandReading {
        command: Command {
            place,
            node: CommandNode::Close(share, head, values.others.arguments),
        },
        next,
    })
}
