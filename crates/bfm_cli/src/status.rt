ghost use Rattle.std.specs.Prelude.{◌≡◌};
ghost use Rattle.std.specs.Process.{exit_status};
ghost use Rattle.bfm_cli.specs.Ending.{code_of, ended_status, fault_status, status_of};

use crate::ending::{Ending, Fault};
use std::process::ExitCode;

/// How the program ended.
#[derive(Clone, Copy, Debug, PartialEq, Eq)]
pub enum Status {
    Done,
    /// A word is wrong, or one is missing.
    BadWords,
    /// The input is no file that can be read.
    BadFile,
    /// The box has too little room for the start.
    NoRoom,
    /// Reading the input failed.
    ReadFault,
    /// Writing the output failed.
    WriteFault,
    /// Want of memory.
    Memory,
    /// The input has more bytes than the limit.
    TooLong,
    /// Writing the report failed.
    ReportFault,
    /// The run would pass the greatest time or the greatest coordinate.
    TooFar,
}

impl Status {
    /// The status of a job that came to its ending or was kept from it by a fault.
    pub fn of(ended: &Result<Ending, Fault>) -> Status
        ensures { result ≡ ended_status ended.now }
    {
        match ended {
            Ok(ending) => ending_status(ending),
            Err(fault) => fault_status(fault),
        }
    }

    /// The exit status of the process as a number.
    pub fn code(&self) -> u8
        ensures { result ≡ code_of self.now }
    {
        match self {
            Status::Done => 0,
            Status::BadWords => 2,
            Status::BadFile => 3,
            Status::NoRoom => 4,
            Status::ReadFault => 5,
            Status::WriteFault => 6,
            Status::Memory => 7,
            Status::TooLong => 8,
            Status::ReportFault => 9,
            Status::TooFar => 10,
        }
    }

    /// The exit status of the process.
    pub fn exit_code(&self) -> ExitCode
        ensures { exit_status result ≡ code_of self.now }
    {
        ExitCode::from(self.code())
    }
}

fn ending_status(ending: &Ending) -> Status
    ensures { result ≡ status_of ending.now }
{
    match ending {
        Ending::Ran(_) => Status::Done,
        Ending::Answered => Status::Done,
        Ending::Built => Status::Done,
        Ending::BadWords(_) => Status::BadWords,
        Ending::BadFile(_) => Status::BadFile,
        Ending::NoRoom { .. } => Status::NoRoom,
        Ending::TooLong(_) => Status::TooLong,
        Ending::TooFar { .. } => Status::TooFar,
    }
}

fn fault_status(fault: &Fault) -> Status
    ensures { result ≡ fault_status fault.now }
{
    match fault {
        Fault::Read => Status::ReadFault,
        Fault::Write => Status::WriteFault,
        Fault::Memory => Status::Memory,
    }
}
