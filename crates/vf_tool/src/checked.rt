//! The command `run`.

ghost use Rattle.std.specs.Prelude.{◌≡◌, List, ℕ, [], Some};
ghost use Rattle.vf_base.specs.Outside.{FileMap, Rose};
ghost use Rattle.vf_model.specs.declared.words.Event.{Event};
ghost use Rattle.vf_snapshot.specs.Paths.{normal};
ghost use Rattle.vf_asking.specs.Journal.{seen, nothing_seen};
ghost use Rattle.vf_asking.specs.Right.{AreRightFrom};
ghost use Rattle.vf_words.specs.Words.{IsSourcePath};
ghost use Rattle.vf_report.specs.Loaded.{HasSchedule, HasNoSchedule};
ghost use Rattle.vf_tool.specs.Run.{Prints, BeginsToPrint, CanComeOfRun, OnVerdict, OnStop, IsLacking, Decides};
ghost use Rattle.vf_tool.specs.Safe.{IsSafeRun};

use crate::answer::run_answer;
use std::alloc::Global;
use vf_asking::Journal;
use vf_base::{Files, Sink, SinkFault, write_all};
use vf_report::Status;

/// Checks the file that a word means by itself, links it and runs it under a schedule, and prints what came of it.
pub fn print_run<F: Files, S: Sink>(
    alloc: Global,
    schedule: &str,
    word: &str,
    files: &mut F,
    out: &mut S,
    journal: &mut Journal,
) -> Status
    requires fresh { seen journal.old ≡ nothing_seen }
    requires source { IsSourcePath word.now }
    ensures verdict { (m : FileMap) → F.contents files.old ≡ Some m → OnVerdict result (Prints m schedule.now (normal [] word.now) (seen journal.new) (S.taken out.old) (S.taken out.new)) }
    ensures right { AreRightFrom 0 (seen journal.new) }
    ensures safe { (m : FileMap) → F.contents files.old ≡ Some m → OnVerdict result (IsSafeRun m (normal [] word.now) (seen journal.new)) }
    ensures printed { (m : FileMap) → F.contents files.old ≡ Some m → OnStop result (BeginsToPrint m schedule.now (normal [] word.now) (seen journal.new) (S.taken out.old) (S.taken out.new)) (S.taken out.new ≡ S.taken out.old) }
    ensures read_quiet { result ≡ Status.ReadFault → S.taken out.new ≡ S.taken out.old }
    ensures missing_quiet { result ≡ Status.Missing → S.taken out.new ≡ S.taken out.old }
    ensures unreadable_quiet { result ≡ Status.Unreadable → S.taken out.new ≡ S.taken out.old }
    ensures files { F.contents files.new ≡ F.contents files.old }
    ensures read_fault { result ≡ Status.ReadFault → Rose (F.failures files.old) (F.failures files.new) }
    ensures write_fault { result ≡ Status.WriteFault → Rose (S.failures out.old) (S.failures out.new) }
    ensures missing { result ≡ Status.Missing → Rose (F.absences files.old) (F.absences files.new) }
    ensures lacking { (m : FileMap) → F.contents files.old ≡ Some m → result ≡ Status.Missing → IsLacking m schedule.now (normal [] word.now) }
    ensures unreadable { (m : FileMap) → F.contents files.old ≡ Some m → result ≡ Status.Unreadable → HasNoSchedule m schedule.now }
    ensures never { CanComeOfRun result }
    ensures complete { (m : FileMap) → F.contents files.old ≡ Some m
        → (Rose (F.failures files.old) (F.failures files.new) → ⊥) → (Rose (F.absences files.old) (F.absences files.new) → ⊥) → (Rose (S.failures out.old) (S.failures out.new) → ⊥)
        → (events : List Event) → HasSchedule m schedule.now events → Decides m (normal [] word.now) result }
{
    let answer = match run_answer(alloc, schedule, word, files, journal) {
        Ok(answer) => answer,
        Err(stop) => return stop.status(),
    };
    match write_all(out, answer.text.as_bytes()) {
        Ok(()) => {}
        Err(SinkFault::Failed) => return Status::WriteFault,
        Err(SinkFault::Memory) => return Status::Memory,
    }
    if answer.accepted {
        Status::Done
    } else {
        Status::Refused
    }
}
