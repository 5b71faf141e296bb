//! What a try or a trace of files answers.

ghost use Rattle.std.specs.Prelude.{◌≡◌, ◌≤◌, ◌++◌, [], List, ℕ, All, length, map, IfOk, OnOk, IfSome, IsErrOf};
ghost use Rattle.vf_base.specs.Outside.{Rose};
ghost use Rattle.vf_program.specs.Units.{unit_of};
ghost use Rattle.vf_words.specs.Words.{IsSourcePath};
ghost use Rattle.vf_words.specs.Commands.{paths_of};
ghost use Rattle.vf_report.specs.Loaded.{HasNoSchedule};
ghost use Rattle.vf_report.specs.Status.{IsTold};
ghost use Rattle.vf_try.specs.Files.{file_of};
ghost use Rattle.vf_try.specs.Answers.{IsAnswer, IsLackingOne, Prints, UnitsPrint, file_line, file_lines, path_by};

use crate::files::{FileRead, ReadFiles, read_files};
use crate::program::push_program;
use crate::purpose::Purpose;
use crate::units::{Units, units_of};
use std::alloc::Global;
use vf_base::{Files, Memory, Text};
use vf_link::{LinkFault, link_manifests};
use vf_module::Reading;
use vf_program::assemble;
use vf_report::{
    Answered, Status, Stop, load_schedule, push_linked, push_read, push_refusal, push_unlinked,
};
use vf_schedule::Schedule;
use vf_snapshot::Snapshot;

/// Prints what came of reading a file.
fn push_file(
    alloc: Global,
    text: &mut Text,
    snapshot: &Snapshot,
    file: &FileRead,
) -> Result<(), Memory>
    ensures { OnOk result (text.new ≡ text.old ++ file_line snapshot.now (file_of file.now)) }
{
    match &file.reading {
        Reading::Read(_) => push_read(text, file.path.as_bytes()),
        Reading::Refused(refusal) => push_refusal(alloc, text, snapshot, "", refusal),
    }
}

/// Prints what came of reading files, in order.
fn push_files(
    alloc: Global,
    text: &mut Text,
    snapshot: &Snapshot,
    files: &[FileRead],
) -> Result<(), Memory>
    ensures { OnOk result (text.new ≡ text.old ++ file_lines snapshot.now (map file_of files.now)) }
{
    for file in files {
        push_file(alloc, text, snapshot, file)?;
    }
    Ok(())
}

/// Links units, and prints why they don't link, or what is wanted of their program's run.
fn push_units(
    alloc: Global,
    text: &mut Text,
    snapshot: &Snapshot,
    purpose: Purpose,
    units: &Units,
    schedule: &Schedule,
) -> Result<Status, Memory>
    requires few { length schedule.now ≤ 1000000 }
    ensures { IfOk result (λ s. (shown : List ℕ) × (text.new ≡ text.old ++ shown) × UnitsPrint purpose (path_by snapshot.now) units.now.manifests.items (map unit_of units.now.plains.items) schedule.now s shown) }
{
    match link_manifests(alloc, units.manifests.as_slice()) {
        Ok(linked) => {
            push_linked(text)?;
            let main = linked.entry.identity.as_bytes();
            let program = assemble(alloc, units.plains.as_slice(), main)?;
            push_program(alloc, text, snapshot, purpose, program, schedule)
        }
        Err(LinkFault::Refused(refusal)) => {
            let rule = refusal.rule();
            push_unlinked(alloc, text, rule, &refusal.into_shown())?;
            Ok(Status::LinkRefused)
        }
        Err(LinkFault::Memory) => Err(Memory),
    }
}

/// The answer for files that were read.
fn answer_of(
    alloc: Global,
    purpose: Purpose,
    read: ReadFiles,
    schedule: &Schedule,
) -> Result<Answered, Memory>
    requires few { length schedule.now ≤ 1000000 }
    ensures { IfOk result (λ a. Prints purpose read.snapshot (map file_of read.files.items) schedule.now a.status a.text) }
{
    let ReadFiles { snapshot, files } = read;
    let mut text = Text::new(alloc);
    push_files(alloc, &mut text, &snapshot, files.as_slice())?;
    let units = units_of(alloc, files)?;
    if units.is_any_refused {
        return Ok(Answered {
            status: Status::Refused,
            text,
        });
    }
    let status = push_units(alloc, &mut text, &snapshot, purpose, &units, schedule)?;
    Ok(Answered { status, text })
}

/// What a try or a trace of the source files that words mean answers, under a schedule.
///
/// # Errors
///
/// Where the schedule or a source file is not there or could not be read, where the schedule has no reading, or where
/// memory ran out.
pub fn try_answer<F: Files>(
    alloc: Global,
    purpose: Purpose,
    schedule: &str,
    words: &[&str],
    files: &mut F,
) -> Result<Answered, Stop>
    requires sources { All (λ w. IsSourcePath w.now) words.now }
    ensures answered { IfOk result (λ a. IfSome (F.contents files.old) (λ m. IsAnswer m purpose schedule.now (paths_of words.now) a.status a.text)) }
    ensures told { IfOk result (λ a. IsTold a.status) }
    ensures unreadable { IsErrOf result Stop.Unreadable → IfSome (F.contents files.old) (λ m. HasNoSchedule m schedule.now) }
    ensures lacking { IsErrOf result Stop.Missing → IfSome (F.contents files.old) (λ m. IsLackingOne m schedule.now (paths_of words.now)) }
    ensures missing { IsErrOf result Stop.Missing → Rose (F.absences files.old) (F.absences files.new) }
    ensures failed { IsErrOf result Stop.ReadFault → Rose (F.failures files.old) (F.failures files.new) }
    ensures unchanged { F.contents files.new ≡ F.contents files.old }
{
    let schedule = match load_schedule(alloc, files, schedule) {
        Ok(schedule) => schedule,
        Err(stop) => return Err(stop),
    };
    let read = match read_files(alloc, files, words) {
        Ok(read) => read,
        Err(stop) => return Err(stop),
    };
    match answer_of(alloc, purpose, read, &schedule) {
        Ok(answer) => Ok(answer),
        Err(_) => Err(Stop::Memory),
    }
}
