//! Printing what commands answer.

ghost use Rattle.std.specs.Prelude.{◌≡◌, IfOk, IsErrOf};
ghost use Rattle.vf_base.specs.Outside.{Rose};
ghost use Rattle.vf_report.specs.Status.{CanCome, IsTold};
ghost use Rattle.vf_tool.specs.Commands.{CanComeOfUpgrade};
ghost use Rattle.vf_tool.specs.Printed.{IsPrinted, IsLinePrinted, IsUnwritten};

use vf_base::{Sink, SinkFault, Text, write_all};
use vf_manifest_commands::UpgradeFault;
use vf_report::{Answered, Status, Stop};

/// Prints an answer, where there is one.
#[tactic(auto, using(crate::proofs::Statuses::told, crate::proofs::Statuses::stopped))]
pub fn print_answer<S: Sink>(answer: Result<Answered, Stop>, out: &mut S) -> Status
    requires told { IfOk answer (λ a. IsTold a.status) }
    ensures printed { IsPrinted answer (S.taken out.old) (S.taken out.new) result }
    ensures usage { result ≡ Status.Usage → ⊥ }
    ensures read_fault { result ≡ Status.ReadFault → IsErrOf answer Stop.ReadFault }
    ensures missing { result ≡ Status.Missing → IsErrOf answer Stop.Missing }
    ensures unreadable { result ≡ Status.Unreadable → IsErrOf answer Stop.Unreadable }
    ensures read_quiet { result ≡ Status.ReadFault → S.taken out.new ≡ S.taken out.old }
    ensures missing_quiet { result ≡ Status.Missing → S.taken out.new ≡ S.taken out.old }
    ensures unreadable_quiet { result ≡ Status.Unreadable → S.taken out.new ≡ S.taken out.old }
    ensures write_fault { result ≡ Status.WriteFault → Rose (S.failures out.old) (S.failures out.new) }
    ensures never { CanCome result }
{
    let answer = match answer {
        Ok(answer) => answer,
        Err(stop) => return stop.status(),
    };
    match write_all(out, answer.text.as_bytes()) {
        Ok(()) => answer.status,
        Err(SinkFault::Failed) => Status::WriteFault,
        Err(SinkFault::Memory) => Status::Memory,
    }
}

/// Prints that a manifest was written again, where it was.
#[tactic(auto, using(crate::proofs::Statuses::stopped))]
pub fn print_upgrade<S: Sink>(answer: Result<Text, UpgradeFault>, out: &mut S) -> Status
    ensures done { result ≡ Status.Done → IsLinePrinted answer (S.taken out.old) (S.taken out.new) }
    ensures usage { result ≡ Status.Usage → ⊥ }
    ensures read_fault { result ≡ Status.ReadFault → IsErrOf answer (UpgradeFault.Stopped Stop.ReadFault) }
    ensures missing { result ≡ Status.Missing → IsErrOf answer (UpgradeFault.Stopped Stop.Missing) }
    ensures unreadable { result ≡ Status.Unreadable → IsErrOf answer (UpgradeFault.Stopped Stop.Unreadable) }
    ensures read_quiet { result ≡ Status.ReadFault → S.taken out.new ≡ S.taken out.old }
    ensures missing_quiet { result ≡ Status.Missing → S.taken out.new ≡ S.taken out.old }
    ensures unreadable_quiet { result ≡ Status.Unreadable → S.taken out.new ≡ S.taken out.old }
    ensures write_fault { result ≡ Status.WriteFault → IsUnwritten answer (Rose (S.failures out.old) (S.failures out.new)) }
    ensures never { CanComeOfUpgrade result }
{
    let text = match answer {
        Ok(text) => text,
        Err(UpgradeFault::Stopped(stop)) => return stop.status(),
        Err(UpgradeFault::WriteFault) => return Status::WriteFault,
    };
    match write_all(out, text.as_bytes()) {
        Ok(()) => Status::Done,
        Err(SinkFault::Failed) => Status::WriteFault,
        Err(SinkFault::Memory) => Status::Memory,
    }
}
