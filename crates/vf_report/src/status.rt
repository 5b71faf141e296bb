//! How a call of the tool ended.

ghost use Rattle.std.specs.Prelude.{◌≡◌};
ghost use Rattle.vf_report.specs.Status.{code_of, status_of_stop};

use vf_base::Text;

/// How a call of the tool ended.
#[derive(Clone, Copy, Debug, PartialEq, Eq)]
pub enum Status {
    /// All was done, and the printed text says what came of it.
    Done,
    /// Some file is refused.
    Refused,
    /// No file is refused, and linking is.
    LinkRefused,
    /// The run of a program that was not verified ended in a fault.
    RunFault,
    /// The words are not those of a command.
    Usage,
    /// A file could not be read.
    ReadFault,
    /// The text or a file could not be written.
    WriteFault,
    /// There is no memory left.
    Memory,
    /// A step of the run needs more than a limit of the machine.
    Capacity,
    /// A file that the words name is not there.
    Missing,
    /// A schedule, a manifest or a certificate has no reading.
    Unreadable,
    /// A certificate is refused.
    CertRefused,
}

impl Status {
    /// The exit code of the program.
    pub fn code(&self) -> u8
        ensures { result ≡ code_of self.now }
    {
        match self {
            Status::Done => 0,
            Status::Refused => 1,
            Status::LinkRefused => 2,
            Status::RunFault => 3,
            Status::Usage => 4,
            Status::ReadFault => 5,
            Status::WriteFault => 6,
            Status::Memory => 7,
            Status::Capacity => 8,
            Status::Missing => 9,
            Status::Unreadable => 10,
            Status::CertRefused => 11,
        }
    }
}

/// A status, and the text that is to be printed.
#[derive(Debug, Drop)]
pub struct Answered {
    pub status: Status,
    pub text: Text,
}

/// Why nothing is printed.
#[derive(Clone, Copy, Debug, PartialEq, Eq)]
pub enum Stop {
    ReadFault,
    Missing,
    Unreadable,
    Memory,
}

impl Stop {
    /// The status of a call that was stopped.
    pub fn status(self) -> Status
        ensures { result ≡ status_of_stop self }
    {
        match self {
            Stop::ReadFault => Status::ReadFault,
            Stop::Missing => Status::Missing,
            Stop::Unreadable => Status::Unreadable,
            Stop::Memory => Status::Memory,
        }
    }
}
