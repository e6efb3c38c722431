//! How the program ends.
ghost use Rattle.std.specs.Prelude.{◌≡◌};
ghost use Rattle.std.specs.Process.{exit_status};
ghost use Rattle.usb_run.specs.Status.{number_of};

use std::fmt;
use std::fmt::Display;
use std::process::ExitCode;
use usb_scene::Cause;

/// How the program ended.
#[derive(Clone, Copy, Debug, PartialEq)]
pub enum Status {
    /// The input was read to its end, and the whole text was written.
    Done,
    /// The source failed.
    ReadFault,
    /// The sink failed, after some part of the text.
    WriteFault,
    /// The words of the command line are not in the word grammar.
    BadWords,
    /// The input is no scene: its first bad line, counted from 1, and the first cause against it.
    BadScene { line: u32, cause: Cause },
    /// The input is longer than a scene may be.
    TooLong,
    /// Memory ran out.
    Memory,
}

impl Status {
    /// The number of the status.
    pub fn number(self) -> u8
        ensures { result ≡ number_of self }
    {
        match self {
            Status::Done => 0,
            Status::ReadFault => 1,
            Status::WriteFault => 2,
            Status::BadWords => 3,
            Status::BadScene { .. } => 4,
            Status::TooLong => 5,
            Status::Memory => 6,
        }
    }
}

/// A process ends with the number of its status.
impl From<Status> for ExitCode {
    ghost from_gives = { λ status code. exit_status code ≡ number_of status };

    fn from(status: Status) -> ExitCode {
        ExitCode::from(status.number())
    }
}

/// What the program prints on standard error: nothing for Done.
impl Display for Status {
    fn fmt<W: fmt::Write>(&self, f: &mut fmt::Formatter<W>) -> fmt::Result {
        match *self {
            Status::Done => Ok(()),
            Status::ReadFault => write!(f, "usbrun: read fault"),
            Status::WriteFault => write!(f, "usbrun: write fault"),
            Status::BadWords => write!(f, "usbrun: bad words"),
            Status::BadScene { line, cause } => write!(f, "usbrun: line {line}: {cause}"),
            Status::TooLong => write!(f, "usbrun: too long"),
            Status::Memory => write!(f, "usbrun: no memory"),
        }
    }
}
