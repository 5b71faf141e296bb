//! The top call.

ghost use Rattle.std.specs.Prelude.{◌≡◌, ◌⊎◌, List, ℕ, All, IfOk, IfNone, IfSome, IsUtf8, Some};
ghost use Rattle.vf_base.specs.Outside.{ChangesAtMost, FileMap, Rose, Takes};
ghost use Rattle.vf_model.specs.declared.words.Event.{Event};
ghost use Rattle.vf_asking.specs.Journal.{seen, nothing_seen};
ghost use Rattle.vf_asking.specs.Right.{AreRightFrom};
ghost use Rattle.vf_words.specs.Commands.{Asks, owned};
ghost use Rattle.vf_words.specs.Positionals.{texts};
ghost use Rattle.vf_words.specs.Words.{AskNothing, IsRun, IsUpgrade};
ghost use Rattle.vf_report.specs.Lines.{upgraded_line};
ghost use Rattle.vf_report.specs.Loaded.{HasSchedule, HasNoSchedule};
ghost use Rattle.vf_report.specs.Status.{CanCome};
ghost use Rattle.vf_manifest_commands.specs.Manifests.{Upgrades};
ghost use Rattle.vf_tool.specs.Run.{Prints, BeginsToPrint, CanComeOfRun, OnVerdict, OnStop, IsLacking, Decides};
ghost use Rattle.vf_tool.specs.Safe.{IsSafeRun};
ghost use Rattle.vf_tool.specs.Commands.{AsksAnswer, BeginsAnswer, CanComeOfUpgrade, HasNoReading, Lacks, OnAnswer, PrintsAnswer};

use crate::checked::print_run;
use crate::printing::{print_answer, print_upgrade};
use std::alloc::Global;
use vf_asking::Journal;
use vf_base::{Files, Memory, Sink};
use vf_manifest_commands::{link_answer, upgrade_answer};
use vf_report::Status;
use vf_try::{Purpose, try_answer};
use vf_words::{Command, command_of, texts_of};

/// The command that words ask for, from their texts, or none where they ask for none.
fn command_in<'a>(
    alloc: Global,
    words: &[String],
    given: &'a [&'a str],
) -> Result<Option<Command<'a>>, Memory>
    requires same { texts given.now ≡ owned words.now }
    requires text { All (λ w. IsUtf8 w.now) given.now }
    ensures found { IfOk result (λ o. IfSome o (λ c. Asks (owned words.now) c)) }
    ensures none { IfOk result (λ o. IfNone o (AskNothing (owned words.now))) }
{
    command_of(alloc, given)
}

/// Does what the words after the program's name ask for.
///
/// - `run`, the path of a schedule, and a word that means the path of a source file: the file is checked by itself, linked and
///   run under the schedule. The journal is handed in fresh, and gains every question with its answer.
/// - `try`, the path of a schedule, and words that mean paths of source files: these are read, linked and run under the schedule;
///   nothing is checked of their annotations.
/// - `trace`, with the same words: they are read and linked, and their run is searched for its first fault or race.
/// - `link` and paths of manifests: these are linked.
/// - `upgrade` and the path of a manifest: it is written again, in version 2.
///
/// What came of it is printed at the end.
pub fn run_words<F: Files, S: Sink>(
    alloc: Global,
    words: &[String],
    files: &mut F,
    out: &mut S,
    journal: &mut Journal,
) -> Status
    requires fresh { seen journal.old ≡ nothing_seen }

    // Of a run, over files that are told: where the status is that of a verdict, the printed text is that of the
    // verdict which the rules come to with just the journal's answers, and of linking and the run.
    ensures verdict { (m : FileMap) → F.contents files.old ≡ Some m → (schedule file : List ℕ) → IsRun (owned words.now) schedule file
        → OnVerdict result (Prints m schedule file (seen journal.new) (S.taken out.old) (S.taken out.new)) }

    // Every answer in the journal is right.
    ensures right { AreRightFrom 0 (seen journal.new) }

    // Of a run, over files that are told: where the status is that of a verdict, what is accepted and linked has no
    // fault of any thread and no race, whichever the events, and keeps its share-outs and contracts.
    ensures safe { (m : FileMap) → F.contents files.old ≡ Some m → (schedule file : List ℕ) → IsRun (owned words.now) schedule file
        → OnVerdict result (IsSafeRun m file (seen journal.new)) }

    // Else nothing is printed of a run, but where the sink itself gave up: then a front of that text.
    ensures printed { (m : FileMap) → F.contents files.old ≡ Some m → (schedule file : List ℕ) → IsRun (owned words.now) schedule file
        → OnStop result (BeginsToPrint m schedule file (seen journal.new) (S.taken out.old) (S.taken out.new)) (S.taken out.new ≡ S.taken out.old) }

    // Of a try, a trace and the linking of manifests, over files that are told: the printed text and the status are those
    // of what the files read as, of linking by its definition, and of the machine's run of the linked program or of what is
    // found in it; a front of that text where the sink gave up; and nothing for every other status.
    ensures answer { (m : FileMap) → F.contents files.old ≡ Some m → AsksAnswer (owned words.now)
        → OnAnswer result (PrintsAnswer m (owned words.now) (S.taken out.old) (S.taken out.new)) (BeginsAnswer m (owned words.now) (S.taken out.old) (S.taken out.new)) (S.taken out.new ≡ S.taken out.old) }

    // A manifest that was written again has its text of version 2, and the line that says so was printed.
    ensures upgraded { (m : FileMap) → F.contents files.old ≡ Some m → (manifest : List ℕ) → IsUpgrade (owned words.now) manifest → result ≡ Status.Done
        → Upgrades m (F.contents files.new) manifest × Takes (S.taken out.old) (S.taken out.new) (upgraded_line manifest) }
    ensures quiet { (result ≡ Status.Usage) ⊎ ((result ≡ Status.ReadFault) ⊎ ((result ≡ Status.Missing) ⊎ (result ≡ Status.Unreadable))) → S.taken out.new ≡ S.taken out.old }
    ensures files { ((manifest : List ℕ) → IsUpgrade (owned words.now) manifest → ⊥) → F.contents files.new ≡ F.contents files.old }
    ensures others { (manifest : List ℕ) → IsUpgrade (owned words.now) manifest → ChangesAtMost (F.contents files.old) (F.contents files.new) manifest }

    // When each status comes.
    ensures usage { result ≡ Status.Usage → AskNothing (owned words.now) }
    ensures usage_of_others { AskNothing (owned words.now) → (result ≡ Status.Usage) ⊎ (result ≡ Status.Memory) }
    ensures read_fault { result ≡ Status.ReadFault → Rose (F.failures files.old) (F.failures files.new) }
    ensures write_fault { result ≡ Status.WriteFault → Rose (S.failures out.old) (S.failures out.new) ⊎ Rose (F.put_failures files.old) (F.put_failures files.new) }
    ensures missing { result ≡ Status.Missing → Rose (F.absences files.old) (F.absences files.new) }
    ensures lacking { (m : FileMap) → F.contents files.old ≡ Some m → (schedule file : List ℕ) → IsRun (owned words.now) schedule file → result ≡ Status.Missing → IsLacking m schedule file }
    ensures lacking_of_others { (m : FileMap) → F.contents files.old ≡ Some m → ((schedule file : List ℕ) → IsRun (owned words.now) schedule file → ⊥) → result ≡ Status.Missing → Lacks m (owned words.now) }
    ensures unreadable { (m : FileMap) → F.contents files.old ≡ Some m → (schedule file : List ℕ) → IsRun (owned words.now) schedule file → result ≡ Status.Unreadable → HasNoSchedule m schedule }
    ensures unreadable_of_others { (m : FileMap) → F.contents files.old ≡ Some m → ((schedule file : List ℕ) → IsRun (owned words.now) schedule file → ⊥) → result ≡ Status.Unreadable → HasNoReading m (owned words.now) }
    ensures never { CanCome result }
    ensures never_of_run { (schedule file : List ℕ) → IsRun (owned words.now) schedule file → CanComeOfRun result }
    ensures never_of_upgrade { (manifest : List ℕ) → IsUpgrade (owned words.now) manifest → CanComeOfUpgrade result }

    // Where the words are those of a run, no count rises, and the schedule reads, the file has a verdict
    // by what the files tell and by right answers, and the status tells it, or there was no memory.
    ensures complete { (m : FileMap) → F.contents files.old ≡ Some m → (schedule file : List ℕ) → IsRun (owned words.now) schedule file
        → (Rose (F.failures files.old) (F.failures files.new) → ⊥) → (Rose (F.absences files.old) (F.absences files.new) → ⊥) → (Rose (S.failures out.old) (S.failures out.new) → ⊥)
        → (events : List Event) → HasSchedule m schedule events → Decides m file result }
{
    let Ok(texts) = texts_of(alloc, words) else {
        return Status::Memory;
    };
    let Ok(asked) = command_in(alloc, words, texts.as_slice()) else {
        return Status::Memory;
    };
    match asked {
        None => Status::Usage,
        Some(Command::Run(run)) => {
            print_run(alloc, run.schedule, run.word, files, out, journal)
        },
        Some(Command::Try(asked)) => {
            let given = asked.words.as_slice();
            print_answer(
                try_answer(alloc, Purpose::Run, asked.schedule, given, files),
                out,
            )
        }
        Some(Command::Trace(asked)) => {
            let given = asked.words.as_slice();
            print_answer(
                try_answer(alloc, Purpose::Trace, asked.schedule, given, files),
                out,
            )
        }
        Some(Command::Link(manifests)) => {
            print_answer(link_answer(alloc, manifests.as_slice(), files), out)
        }
        Some(Command::Upgrade(manifest)) => {
            print_upgrade(upgrade_answer(alloc, manifest, files), out)
        }
    }
}
