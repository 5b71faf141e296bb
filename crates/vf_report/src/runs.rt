//! The lines that tell of a run.

ghost use Rattle.std.specs.Prelude.{◌≡◌, ◌++◌, OnOk, codes};
ghost use Rattle.std.specs.Fmt.{decimal, signed_decimal};
ghost use Rattle.vf_report.specs.Lines.{path_in, shown_place, kind_name, shown_outcome, outcome_line, closed_output, limit_name, capacity_line, shown_after, shown_step, shown_finding, finding_line};

use crate::lines::{push_number, push_place};
use std::alloc::Global;
use vf_base::{Memory, Place, Text};
use vf_engine::Limit;
use vf_model::{FaultKind, Outcome};
use vf_snapshot::Snapshot;
use vf_trace::Finding;

fn push_signed(alloc: Global, text: &mut Text, number: i128) -> Result<(), Memory>
    ensures { OnOk result (text.new ≡ text.old ++ signed_decimal number) }
{
    let digits = format!(in alloc; "{number}")?;
    text.push_bytes(digits.as_str().as_bytes())?;
    Ok(())
}

fn kind_name(kind: FaultKind) -> &'static str
    ensures { result.now ≡ kind_name kind }
{
    match kind {
        FaultKind::Access => "access",
        FaultKind::Unset => "unset",
        FaultKind::Range => "range",
        FaultKind::Divisor => "divisor",
        FaultKind::Free => "free",
        FaultKind::Pointer => "pointer",
        FaultKind::Mutex => "mutex",
        FaultKind::Join => "join",
        FaultKind::NoReturn => "noreturn",
    }
}

fn push_fault(
    alloc: Global,
    text: &mut Text,
    snapshot: &Snapshot,
    path: &str,
    kind: FaultKind,
    place: Place,
) -> Result<(), Memory>
    ensures { OnOk result (text.new ≡ text.old ++ shown_outcome (path_in snapshot.now path.now) (Outcome.Fault kind place)) }
{
    text.push_bytes(b"fault ")?;
    text.push_bytes(kind_name(kind).as_bytes())?;
    text.push_bytes(b" ")?;
    push_place(alloc, text, snapshot, path, place)?;
    Ok(())
}

fn push_returned(alloc: Global, text: &mut Text, number: i128) -> Result<(), Memory>
    ensures { OnOk result (text.new ≡ text.old ++ codes "returned " ++ signed_decimal number) }
{
    text.push_bytes(b"returned ")?;
    push_signed(alloc, text, number)?;
    Ok(())
}

/// Prints how a run stands.
pub fn push_outcome(
    alloc: Global,
    text: &mut Text,
    snapshot: &Snapshot,
    path: &str,
    outcome: Outcome,
) -> Result<(), Memory>
    ensures { OnOk result (text.new ≡ text.old ++ outcome_line (path_in snapshot.now path.now) outcome) }
{
    match outcome {
        Outcome::Returned(number) => push_returned(alloc, text, number)?,
        Outcome::Aborted => text.push_bytes(b"aborted")?,
        Outcome::Blocked => text.push_bytes(b"blocked")?,
        Outcome::Running => text.push_bytes(b"running")?,
        Outcome::Fault(kind, place) => push_fault(alloc, text, snapshot, path, kind, place)?,
    }
    text.push_bytes(b"\n")?;
    Ok(())
}

/// Prints what a program wrote, with a line feed where it does not end in one.
pub fn push_output(text: &mut Text, output: &[u8]) -> Result<(), Memory>
    ensures { OnOk result (text.new ≡ text.old ++ closed_output output.now) }
{
    text.push_bytes(output)?;
    match output.last() {
        Some(last) if *last != b'\n' => text.push_bytes(b"\n")?,
        _ => {}
    }
    Ok(())
}

fn limit_name(limit: Limit) -> &'static str
    ensures { result.now ≡ limit_name limit }
{
    match limit {
        Limit::Blocks => "blocks",
        Limit::Threads => "threads",
        Limit::Frames => "frames",
        Limit::Cells => "cells",
    }
}

/// Prints that the next step of a run needs more than a limit of the machine.
pub fn push_capacity(text: &mut Text, limit: Limit) -> Result<(), Memory>
    ensures { OnOk result (text.new ≡ text.old ++ capacity_line limit) }
{
    text.push_bytes(b"capacity ")?;
    text.push_bytes(limit_name(limit).as_bytes())?;
    text.push_bytes(b"\n")?;
    Ok(())
}

/// Prints the number of events before what was found.
fn push_after(alloc: Global, text: &mut Text, count: u32) -> Result<(), Memory>
    ensures { OnOk result (text.new ≡ text.old ++ shown_after count) }
{
    text.push_bytes(b"after ")?;
    push_number(alloc, text, count)?;
    text.push_bytes(b" events: ")?;
    Ok(())
}

/// Prints a place of a thread's step.
fn push_step(
    alloc: Global,
    text: &mut Text,
    snapshot: &Snapshot,
    path: &str,
    place: Place,
    thread: u32,
) -> Result<(), Memory>
    ensures { OnOk result (text.new ≡ text.old ++ shown_step (path_in snapshot.now path.now) place thread) }
{
    push_place(alloc, text, snapshot, path, place)?;
    text.push_bytes(b" thread ")?;
    push_number(alloc, text, thread)?;
    Ok(())
}

fn push_found(
    alloc: Global,
    text: &mut Text,
    snapshot: &Snapshot,
    path: &str,
    finding: Finding,
) -> Result<(), Memory>
    ensures { OnOk result (text.new ≡ text.old ++ shown_finding (path_in snapshot.now path.now) finding) }
{
    match finding {
        Finding::Clean => text.push_bytes(b"clean")?,
        Finding::Fault {
            after,
            thread,
            kind,
            place,
        } => {
            push_after(alloc, text, after)?;
            text.push_bytes(b"fault ")?;
            text.push_bytes(kind_name(kind).as_bytes())?;
            text.push_bytes(b" ")?;
            push_step(alloc, text, snapshot, path, place, thread)?;
        }
        Finding::Race {
            after,
            first,
            first_place,
            second,
            second_place,
        } => {
            push_after(alloc, text, after)?;
            text.push_bytes(b"race ")?;
            push_step(alloc, text, snapshot, path, first_place, first)?;
            text.push_bytes(b", ")?;
            push_step(alloc, text, snapshot, path, second_place, second)?;
        }
    }
    Ok(())
}

/// Prints what a trace found.
pub fn push_finding(
    alloc: Global,
    text: &mut Text,
    snapshot: &Snapshot,
    path: &str,
    finding: Finding,
) -> Result<(), Memory>
    ensures { OnOk result (text.new ≡ text.old ++ finding_line (path_in snapshot.now path.now) finding) }
{
    push_found(alloc, text, snapshot, path, finding)?;
    text.push_bytes(b"\n")?;
    Ok(())
}
