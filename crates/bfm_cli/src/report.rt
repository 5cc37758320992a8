ghost use Rattle.std.specs.Prelude.{◌≡◌};
ghost use Rattle.bfm_base.specs.Account.{Delivers, Sends};
ghost use Rattle.bfm_cli.specs.Ending.{ended_report, fault_report, report_of};
ghost use Rattle.bfm_cli.specs.Promise.{Tells};
ghost use Rattle.bfm_cli.specs.declared.ending.Ending.TheVariants as ends;

use crate::ending::{Ending, Fault, RunReport};
use crate::status::Status;
use bfm_base::{Failed, Refused, Sink, send, send_pieces};
use bfm_session::{crossing_lines, number_lines};
use itoa::Buffer;

/// Reports on how a job ended, and answers the status: that of the ending or of the fault, or a
/// fault of the report. Want of memory makes no call.
pub fn tell<P: Sink>(ended: &Result<Ending, Fault>, report: &mut P) -> Status
    ensures { Tells ended.now result (P.account report.old) (P.account report.new) (report.new ≡ report.old) }
{
    if let Err(Fault::Memory) = ended {
        return Status::Memory;
    }
    match write_report(ended, report) {
        Ok(()) => Status::of(ended),
        Err(_) => Status::ReportFault,
    }
}

/// Writes the report on how a job ended, and flushes it.
fn write_report<P: Sink>(ended: &Result<Ending, Fault>, report: &mut P) -> Result<(), Failed>
    ensures { Delivers result (P.account report.old) (P.account report.new) (ended_report ended.now) }
{
    write_text(ended, report)?;
    report.flush()
}

/// Writes the text of the report.
fn write_text<P: Sink>(ended: &Result<Ending, Fault>, report: &mut P) -> Result<(), Failed>
    ensures { Sends result (P.account report.old) (P.account report.new) (ended_report ended.now) }
{
    match ended {
        Ok(ending) => write_ending(ending, report),
        Err(fault) => write_fault(fault, report),
    }
}

fn write_fault<P: Sink>(fault: &Fault, report: &mut P) -> Result<(), Failed>
    ensures { Sends result (P.account report.old) (P.account report.new) (fault_report fault.now) }
{
    match fault {
        Fault::Read => send(report, b"read\n"),
        Fault::Write => send(report, b"write\n"),
        Fault::Memory => Ok(()),
    }
}

fn write_ending<P: Sink>(ending: &Ending, report: &mut P) -> Result<(), Failed>
    ensures { Sends result (P.account report.old) (P.account report.new) (report_of ending.now) }
{
    match ending {
        Ending::Ran(done) => write_run(done, report),
        Ending::Answered | Ending::Built => Ok(()),
        Ending::BadWords(word) => number_lines(report, &[(b"words", &[*word])]),
        Ending::BadFile(refused) => write_refused(refused, report),
        Ending::NoRoom { need, have } => number_lines(report, &[(b"room", &[*need, *have])]),
        Ending::TooLong(limit) => number_lines(report, &[(b"long", &[*limit])]),
        Ending::TooFar { mcs, reach } => write_far(*mcs, *reach, report),
    }
}

fn write_run<P: Sink>(done: &RunReport, report: &mut P) -> Result<(), Failed>
    ensures { Sends result (P.account report.old) (P.account report.new) (report_of (ends.Ran done.now)) }
{
    number_lines(
        report,
        &[
            (b"kept", &[done.kept]),
            (b"frames", &[done.frames]),
            (b"mcs", &[done.mcs]),
            (b"skipped", &[done.skipped]),
            (b"accepted", &[done.tally.accepted]),
            (b"links", &[done.tally.links]),
        ],
    )?;
    crossing_lines(&done.verdict, report)
}

fn write_refused<P: Sink>(refused: &Refused, report: &mut P) -> Result<(), Failed>
    ensures { Sends result (P.account report.old) (P.account report.new) (report_of (ends.BadFile refused.now)) }
{
    let (mut line, mut cause) = (Buffer::new(), Buffer::new());
    let line = line.format(refused.line).as_bytes();
    let cause = cause.format(refused.cause.number()).as_bytes();
    let name = refused.cause.name().as_bytes();
    send_pieces(
        report,
        &[b"line ", line, b" cause ", cause, b" ", name, b"\n"],
    )
}

fn write_far<P: Sink>(mcs: u128, reach: u128, report: &mut P) -> Result<(), Failed>
    ensures { Sends result (P.account report.old) (P.account report.new) (report_of (ends.TooFar mcs reach)) }
{
    let (mut last, mut far) = (Buffer::new(), Buffer::new());
    let last = last.format(mcs).as_bytes();
    let far = far.format(reach).as_bytes();
    send_pieces(report, &[b"far ", last, b" ", far, b"\n"])
}
