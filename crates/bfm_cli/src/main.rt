//! The program `bfm_cli`: runs polymers in the bond fluctuation model, from a file on standard input
//! to a file on standard output, and reports on standard error.
//! It stands on `bfm_base` for the outside world and on `bfm_session` for reading a file and running
//! what it holds; what is here are the words of a job, its report and its status.
//! It promises in `run_tool` that status, output and report are those that words and input call for,
//! and says what was done where a fault kept the job from that.
#![tactic(auto)]

mod building;
#[cfg(test)]
mod building_tests;
#[cfg(test)]
mod contact_tests;
#[cfg(test)]
mod cut_tests;
mod ending;
#[cfg(test)]
mod fault_tests;
mod job;
#[cfg(test)]
mod limit_tests;
#[cfg(test)]
mod link_tests;
#[cfg(test)]
mod melt_tests;
#[cfg(test)]
mod reading_tests;
mod report;
mod start;
mod status;
#[cfg(test)]
mod table_tests;
#[cfg(test)]
mod tests;
mod tool;
#[cfg(test)]
mod trajectories;
#[cfg(test)]
mod trial_tests;
mod trials;
mod words;

ghost use Rattle.std.specs.Prelude.{◌≡◌, ◌≢◌, ◌⊎◌, IfErr};
ghost use Rattle.std.specs.IoError.{error_kind};

use crate::status::Status;
use crate::tool::run_tool;
use bfm_base::{StdSink, StdSource};
use std::env;
use std::io::{BufWriter, Error, ErrorKind};
use std::process::ExitCode;

/// How many bytes of output are gathered for one call of the system.
const BUFFER: usize = 65_536;

fn main(rt: HostRuntime) -> ExitCode {
    program(&rt).exit_code()
}

/// Runs the tool over the words and the standard streams of the process.
fn program(rt: &HostRuntime) -> Status {
    let words = match words_of(rt) {
        Ok(words) => words,
        Err(status) => return status,
    };
    let Ok(buffered) = BufWriter::with_capacity(rt.alloc(), BUFFER, rt.stdout()) else {
        return Status::Memory;
    };
    run_tool(
        rt.alloc(),
        &words,
        &mut StdSource::new(rt.stdin()),
        &mut StdSink::new(buffered),
        &mut StdSink::new(rt.stderr()),
    )
}

/// The words after the program's name, or the status where they are not UTF-8 or memory is wanting.
fn words_of(rt: &HostRuntime) -> Result<Vec<String>, Status>
    ensures { IfErr result (λ status. (status ≡ Status.BadWords) ⊎ (status ≡ Status.Memory)) }
{
    let mut words = match env::args(rt) {
        Ok(words) => words,
        Err(error) => return Err(status_without_words(&error)),
    };
    let _name = words.next();
    match words.collect(rt.alloc()) {
        Ok(words) => Ok(words),
        Err(_) => Err(Status::Memory),
    }
}

/// The status where the words could not be had: one of them is not UTF-8, or memory is wanting.
fn status_without_words(error: &Error) -> Status
    ensures invalid { error_kind error.now ≡ ErrorKind.InvalidData → result ≡ Status.BadWords }
    ensures other { error_kind error.now ≢ ErrorKind.InvalidData → result ≡ Status.Memory }
{
    if error.kind() == ErrorKind::InvalidData {
        Status::BadWords
    } else {
        Status::Memory
    }
}
