//! What a run answers: a status, and the text that is to be printed.

ghost use Rattle.std.specs.Prelude.{◌≡◌, [], ◌++◌, OnOk, IfOk, IfSome, IsErrOf};
ghost use Rattle.vf_tree.specs.Shown.{program_of};
ghost use Rattle.std.specs.List.{fold};
ghost use Rattle.vf_model.specs.Runs.{after};
ghost use Rattle.vf_machine.specs.Machine.{machine_program, machine_state};
ghost use Rattle.vf_base.specs.Outside.{Rose, IsAbsent};
ghost use Rattle.vf_asking.specs.Journal.{seen, nothing_seen};
ghost use Rattle.vf_asking.specs.Right.{AreRightFrom};
ghost use Rattle.vf_report.specs.Loaded.{HasNoSchedule};
ghost use Rattle.vf_snapshot.specs.Paths.{normal};
ghost use Rattle.vf_report.specs.Lines.{path_in, run_lines};
ghost use Rattle.vf_words.specs.Words.{IsSourcePath};
ghost use Rattle.vf_tool.specs.Run.{text_of, is_accepted, Answers, IsAnswer, IsLacking};

use crate::verdict::{Verdict, check_unit};
use std::alloc::Global;
use std::mem;
use vf_asking::Journal;
use vf_base::{Files, Memory, Text};
use vf_machine::{Machine, assemble_one};
use vf_model::Event;
use vf_preproc::path_text;
use vf_prover::Prover;
use vf_report::{
    Stop, load_schedule, push_accepted, push_linked, push_outcome, push_output, push_refusal,
};
use vf_snapshot::{Snapshot, normal_path};
use vf_tree::{Plain, erase};

/// Whether the file is accepted, and what is to be printed.
#[derive(Debug, Drop)]
pub struct Answer {
    pub accepted: bool,
    pub text: Text,
}

/// One event of a machine. In this form a step never fails.
fn step_once(machine: &mut Machine, event: Event)
    ensures program { machine_program machine.new ≡ machine_program machine.old }
    ensures state { machine_state machine.new ≡ after (machine_program machine.old) (machine_state machine.old) event }
{
    match machine.step(event) {
        Ok(_) => {}
        Err(_) => unreachable!(),
    }
}

/// Steps a machine through a schedule.
#[tactic(auto, using(std::proofs::lemmas::List::Sums::fold_more))]
fn follow(machine: &mut Machine, events: &[Event])
    ensures program { machine_program machine.new ≡ machine_program machine.old }
    ensures state { machine_state machine.new ≡ fold (after (machine_program machine.old)) (machine_state machine.old) events.now }
{
    for event in events {
        step_once(machine, *event);
    }
}

/// Runs a program, and prints what it wrote and how the run stands.
fn push_run(
    alloc: Global,
    text: &mut Text,
    snapshot: &Snapshot,
    path: &str,
    plain: Plain,
    events: &[Event],
) -> Result<(), Memory>
    ensures { OnOk result (text.new ≡ text.old ++ run_lines (path_in snapshot.now path.now) (program_of plain) events.now) }
{
    let program = assemble_one(plain)?;
    let mut machine = Machine::start(alloc, program)?;
    follow(&mut machine, events);
    push_output(text, machine.output())?;
    push_outcome(alloc, text, snapshot, path, machine.outcome())?;
    Ok(())
}

/// Prints a verdict, and where the file is accepted its run.
fn push_verdict(
    alloc: Global,
    text: &mut Text,
    snapshot: &Snapshot,
    path: &str,
    events: &[Event],
    verdict: Verdict,
) -> Result<(), Memory>
    ensures { OnOk result (text.new ≡ text.old ++ text_of snapshot.now path.now events.now verdict) }
{
    match verdict {
        Verdict::Accepted(core) => {
            push_accepted(text, path)?;
            push_linked(text)?;
            push_run(alloc, text, snapshot, path, erase(core), events)?;
        }
        Verdict::Refused(refusal) => push_refusal(alloc, text, snapshot, path, &refusal)?,
    }
    Ok(())
}

/// The answer for a verdict.
fn answer_of(
    alloc: Global,
    snapshot: &Snapshot,
    path: &str,
    events: &[Event],
    verdict: Verdict,
) -> Result<Answer, Memory>
    ensures accepted { IfOk result (λ a. a.accepted ≡ is_accepted verdict) }
    ensures text { IfOk result (λ a. a.text ≡ text_of snapshot.now path.now events.now verdict) }
{
    let accepted = match &verdict {
        Verdict::Accepted(_) => true,
        Verdict::Refused(_) => false,
    };
    let mut text = Text::new(alloc);
    push_verdict(alloc, &mut text, snapshot, path, events, verdict)?;
    Ok(Answer { accepted, text })
}

/// Checks a file with a fresh journal, and prints its verdict and, where that is to accept, its run.
#[tactic(auto, using(crate::proofs::Answering::answering))]
fn judge<F: Files>(
    alloc: Global,
    path: &str,
    files: &mut F,
    events: &[Event],
    journal: &mut Journal,
) -> Result<Answer, Stop>
    requires fresh { seen journal.old ≡ nothing_seen }
    ensures answers { IfOk result (λ a. IfSome (F.contents files.old) (λ m. Answers m path.now events.now (seen journal.new) a.accepted a.text)) }
    ensures readable { IsErrOf result Stop.Unreadable → ⊥ }
    ensures absent { IsErrOf result Stop.Missing → IsAbsent (F.contents files.old) path.now }
    ensures missing { IsErrOf result Stop.Missing → Rose (F.absences files.old) (F.absences files.new) }
    ensures failed { IsErrOf result Stop.ReadFault → Rose (F.failures files.old) (F.failures files.new) }
    ensures unchanged { F.contents files.new ≡ F.contents files.old }
    ensures right { AreRightFrom 0 (seen journal.new) }
{
    let mut snapshot = Snapshot::new(alloc);
    let mut prover = Prover::new(mem::replace(journal, Journal::new(alloc)));
    let verdict = check_unit(alloc, &mut snapshot, files, path, &mut prover);
    *journal = prover.finish();
    match verdict {
        Ok(verdict) => match answer_of(alloc, &snapshot, path, events, verdict) {
            Ok(answer) => Ok(answer),
            Err(_) => Err(Stop::Memory),
        },
        Err(stop) => Err(stop),
    }
}

/// What a run of the source file that a word means answers, under a schedule.
#[tactic(auto, using(crate::proofs::Answering::telling))]
pub fn run_answer<F: Files>(
    alloc: Global,
    schedule: &str,
    word: &str,
    files: &mut F,
    journal: &mut Journal,
) -> Result<Answer, Stop>
    requires fresh { seen journal.old ≡ nothing_seen }
    requires source { IsSourcePath word.now }
    ensures answered { IfOk result (λ a. IfSome (F.contents files.old) (λ m. IsAnswer m schedule.now (normal [] word.now) (seen journal.new) a.accepted a.text)) }
    ensures unreadable { IsErrOf result Stop.Unreadable → IfSome (F.contents files.old) (λ m. HasNoSchedule m schedule.now) }
    ensures lacking { IsErrOf result Stop.Missing → IfSome (F.contents files.old) (λ m. IsLacking m schedule.now (normal [] word.now)) }
    ensures missing { IsErrOf result Stop.Missing → Rose (F.absences files.old) (F.absences files.new) }
    ensures failed { IsErrOf result Stop.ReadFault → Rose (F.failures files.old) (F.failures files.new) }
    ensures unchanged { F.contents files.new ≡ F.contents files.old }
    ensures right { AreRightFrom 0 (seen journal.new) }
{
    let events = match load_schedule(alloc, files, schedule) {
        Ok(events) => events,
        Err(stop) => return Err(stop),
    };
    let path = match normal_path(alloc, "", word) {
        Ok(path) => path,
        Err(_) => return Err(Stop::Memory),
    };
    let file = path_text(path.as_bytes());
    match judge(alloc, file, files, events.as_slice(), journal) {
        Ok(answer) => Ok(answer),
        Err(stop) => Err(stop),
    }
}
