//! `vf`: checks a C file against the contracts in its comments, and runs it under a schedule.
//!
//! What the words after the program's name ask for is done by `vf_tool::run_words`, over the files and
//! the standard output of the host. Where a call ends without an answer, one line on standard error
//! says why.
#![tactic(auto)]

ghost use Rattle.vf_report.specs.Status.{CanCome};

use std::alloc::Global;
use std::process::ExitCode;
use std::rt::{Env, Files};
use std::{env, io};
use vf_asking::Journal;
use vf_base::{HostFiles, HostSink};
use vf_tool::{Status, run_words};

/// The words that each command takes.
const USAGE: &str = "usage: vf run SCHEDULE FILE.c
       vf try SCHEDULE FILE.c..
       vf trace SCHEDULE FILE.c..
       vf link MANIFEST.vfmanifest..
       vf upgrade MANIFEST.vfmanifest";

fn main(rt: HostRuntime) -> ExitCode {
    let status = answer(&rt);
    if let Some(cause) = cause_of(status) {
        // Where standard error is closed too, the status alone tells.
        let _ = eprintln!(&rt; "vf: {cause}");
    }
    ExitCode::from(status.code())
}

/// Does what the words after the program's name ask for.
fn answer<R: AllocGlobal + Env + Files + Print>(rt: &R) -> Status
    ensures never { CanCome result }
{
    let all = match env::args(rt) {
        Ok(all) => all,
        Err(error) => return status_of_words(&error),
    };
    let words: Vec<String> = match all.skip(1).collect(rt.alloc()) {
        Ok(words) => words,
        Err(_) => return Status::Memory,
    };
    let mut files = HostFiles::new(rt);
    let mut out = HostSink::new(rt);
    let mut journal = Journal::new(rt.alloc());
    run_words(rt.alloc(), &words, &mut files, &mut out, &mut journal)
}

/// The status where the words could not be had: a word that is no text is that of no command.
fn status_of_words(error: &io::Error) -> Status
    ensures never { CanCome result }
{
    if error.kind() == io::ErrorKind::OutOfMemory {
        Status::Memory
    } else {
        Status::Usage
    }
}

/// Why a call ended without an answer. Where there is one, what is printed says all.
fn cause_of(status: Status) -> Option<&'static str> {
    match status {
        Status::Done | Status::Refused | Status::LinkRefused | Status::RunFault => None,
        Status::Usage => Some(USAGE),
        Status::ReadFault => Some("a file could not be read"),
        Status::WriteFault => Some("standard output or a manifest could not be written"),
        Status::Memory => Some("there is no memory left"),
        Status::Capacity => Some("a step of the run needs more than the machine has"),
        Status::Missing => Some("a file is missing"),
        Status::Unreadable => Some("a schedule or a manifest cannot be read"),
        Status::CertRefused => Some("the certificate is refused"),
    }
}
