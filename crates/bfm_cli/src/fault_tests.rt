//! Each call on the outside is made to fail in turn, in jobs of every kind: how the job ends then, what stands of its
//! output and its report, and how many calls there are.

use crate::building_tests::{STARTS, start_file};
use crate::status::Status;
use crate::tests::{ONE, PAIR, SIX, file_with, middles, run_over};
use bfm_base::{MemSink, MemSource, Sink, Source};
use std::alloc::{AllocError, Global};
use std::process::Abort;
use std::test::Fail;

/// How much an output or a report takes, in bytes.
const ROOM: usize = 6000;

/// A byte a call, 50 bytes, and whole pieces.
const STEPS: [usize; 3] = [1, 50, 65_536];

/// The number of a call that no job comes to.
const MANY: u64 = 20_000;

/// Which calls fail, counted from 1 on; 0 is none.
#[derive(Clone, Copy)]
struct Faults {
    input: u64,
    output: u64,
    report: u64,
}

const NONE: Faults = Faults {
    input: 0,
    output: 0,
    report: 0,
};

/// A job over an input, the calls that fail in any case, and how the job ends where no other call fails.
#[derive(Clone, Copy)]
struct Case<'a> {
    words: &'a str,
    input: &'a [u8],
    /// The number of calls of an input that gives a byte a call.
    reads: u64,
    faults: Faults,
    status: Status,
    output: &'a [u8],
    report: &'a [u8],
}

/// What a job left, and the streams that it left it in.
#[derive(Drop)]
struct Ended {
    status: Status,
    input: MemSource,
    output: MemSink,
    report: MemSink,
}

/// Does the job with further calls that fail, where a call moves `step` bytes at most.
fn run_with(alloc: Global, case: &Case, more: Faults, step: usize) -> Result<Ended, AllocError> {
    let step = step.max(1);
    let first = case.faults;
    let mut input = MemSource::new(alloc, case.input, step, &[first.input, more.input])?;
    let mut output = MemSink::new(alloc, ROOM, step, &[first.output, more.output])?;
    let mut report = MemSink::new(alloc, ROOM, step, &[first.report, more.report])?;
    let status = run_over(alloc, case.words, &mut input, &mut output, &mut report)?;
    Ok(Ended {
        status,
        input,
        output,
        report,
    })
}

/// Whether a job ended as if no further call had failed.
fn is_met(case: &Case, ended: &Ended) -> bool {
    ended.status == case.status
        && ended.output.bytes() == case.output
        && ended.report.bytes() == case.report
}

/// How many calls a sink had before these, of which the one with the number MANY fails.
fn calls_of_sink(sink: &mut MemSink) -> u64 {
    for further in 1..MANY {
        if sink.flush().is_err() {
            return MANY - further;
        }
    }
    0
}

/// And a source.
fn calls_of_source(source: &mut MemSource) -> u64 {
    for further in 1..MANY {
        if source.read(&mut []).is_err() {
            return MANY - further;
        }
    }
    0
}

/// A call of the input that fails ends a job that reads, and leaves the output as it was.
fn input_fails(rt: &impl Abort, alloc: Global, case: &Case, step: usize) -> Result<u64, Fail> {
    let all = Faults {
        input: MANY,
        ..NONE
    };
    let mut ended = run_with(alloc, case, all, step)?;
    assert!(rt; is_met(case, &ended), "{}", case.words);
    let calls = calls_of_source(&mut ended.input);
    for call in 1..=calls {
        let more = Faults {
            input: call,
            ..NONE
        };
        let ended = run_with(alloc, case, more, step)?;
        assert_eq!(rt;
            ended.status,
            Status::ReadFault,
            "{} call {call}",
            case.words
        );
        assert!(rt;
            ended.output.bytes().is_empty(),
            "{} call {call}",
            case.words
        );
        assert!(rt;
            ended.report.bytes() == b"read\n".as_slice(),
            "{} call {call}",
            case.words
        );
    }
    Ok(calls)
}

/// A call of the output that fails leaves a prefix. Each call but the last takes a byte at least, so the last one is the flush.
fn output_fails(rt: &impl Abort, alloc: Global, case: &Case, step: usize) -> Result<u64, Fail> {
    let all = Faults {
        output: MANY,
        ..NONE
    };
    let mut ended = run_with(alloc, case, all, step)?;
    assert!(rt; is_met(case, &ended), "{}", case.words);
    let calls = calls_of_sink(&mut ended.output);
    let mut least = 0;
    for call in 1..=calls {
        let more = Faults {
            output: call,
            ..NONE
        };
        let ended = run_with(alloc, case, more, step)?;
        let taken = ended.output.bytes();
        assert_eq!(rt;
            ended.status,
            Status::WriteFault,
            "{} call {call}",
            case.words
        );
        assert!(rt;
            case.output.starts_with(taken),
            "{} call {call}",
            case.words
        );
        assert!(rt; taken.len() >= least, "{} call {call}", case.words);
        assert!(rt;
            (taken == case.output) == (call == calls),
            "{} call {call}",
            case.words
        );
        assert!(rt;
            ended.report.bytes() == b"write\n".as_slice(),
            "{} call {call}",
            case.words
        );
        least = taken.len() + 1;
    }
    Ok(calls)
}

/// So does a call of the report, behind a job that is as it was.
fn report_fails(rt: &impl Abort, alloc: Global, case: &Case, step: usize) -> Result<u64, Fail> {
    let all = Faults {
        report: MANY,
        ..NONE
    };
    let mut ended = run_with(alloc, case, all, step)?;
    assert!(rt; is_met(case, &ended), "{}", case.words);
    let calls = calls_of_sink(&mut ended.report);
    let mut least = 0;
    for call in 1..=calls {
        let more = Faults {
            report: call,
            ..NONE
        };
        let ended = run_with(alloc, case, more, step)?;
        let taken = ended.report.bytes();
        assert_eq!(rt;
            ended.status,
            Status::ReportFault,
            "{} call {call}",
            case.words
        );
        assert!(rt;
            ended.output.bytes() == case.output,
            "{} call {call}",
            case.words
        );
        assert!(rt;
            case.report.starts_with(taken),
            "{} call {call}",
            case.words
        );
        assert!(rt; taken.len() >= least, "{} call {call}", case.words);
        assert!(rt;
            (taken == case.report) == (call == calls),
            "{} call {call}",
            case.words
        );
        least = taken.len() + 1;
    }
    Ok(calls)
}

/// A report on a fault of the input, or of the output, is cut in the same way.
fn reports_of_faults_fail(rt: &impl Abort, alloc: Global, case: &Case) -> Result<(), Fail> {
    if case.reads > 0 {
        let unread = Case {
            faults: Faults { input: 1, ..NONE },
            status: Status::ReadFault,
            output: b"",
            report: b"read\n",
            ..*case
        };
        assert_eq!(rt; report_fails(rt, alloc, &unread, 1)?, 6, "{}", case.words);
    }
    if case.status == Status::Done {
        let unwritten = Case {
            faults: Faults { output: 1, ..NONE },
            status: Status::WriteFault,
            output: b"",
            report: b"write\n",
            ..*case
        };
        assert_eq!(rt;
            report_fails(rt, alloc, &unwritten, 1)?,
            7,
            "{}",
            case.words
        );
    }
    Ok(())
}

/// Each call fails in turn, of streams that move at least so many bytes a call.
fn fails_in_turn(rt: &impl Abort, alloc: Global, case: &Case, least: usize) -> Result<(), Fail> {
    for step in STEPS {
        if step < least {
            continue;
        }
        let reads = input_fails(rt, alloc, case, step)?;
        let writes = output_fails(rt, alloc, case, step)?;
        let told = report_fails(rt, alloc, case, step)?;
        if step == 1 {
            let written = if case.status == Status::Done {
                case.output.len() as u64 + 1
            } else {
                0
            };
            assert_eq!(rt; reads, case.reads, "{}", case.words);
            assert_eq!(rt; writes, written, "{}", case.words);
            assert_eq!(rt; told, case.report.len() as u64 + 1, "{}", case.words);
        }
    }
    reports_of_faults_fail(rt, alloc, case)
}

/// What a job writes.
#[derive(Clone, Copy)]
enum Text {
    /// The input, and this behind it.
    Behind(&'static str),
    /// This alone.
    Alone(&'static str),
}

const LINKS: &str = "!set_of_bondvectors\n0 2 0:65\n0 -2 0:66\n!bfm_valence\n1-2:1\n";

const LINKED: &str =
    "\n!add_bonds\n1 2\n!mcs=1\n0 3 0 B\n\n!mcs=2\n0 3 0 B\n\n!mcs=3\n0 3 0 B\n\n!mcs=4\n0 3 0 B\n\n!mcs=5\n0 3 0 B\n";

const INFO: &str =
    "monomers 1\nbox 8 8 8\nperiodic 1 1 1\nvectors 0\nbonds 0\nframes 1\nmcs 0\nkept 104\nskipped 0\n";

// A run of one frame, of two, with links and of a file with two frames; the analyses; and what is turned down: (words, monomers,
// lines of the header, frame, calls of an input that gives a byte a call, status, output, report).
#[rattlefmt::skip]
const JOBS: [(&str, &str, &str, &str, u64, Status, Text, &str); 16] = [
    ("run seed=42 frames=1 every=1", "1", "", "3 3 3\n", 105, Status::Done, Text::Behind("\n!mcs=1\n3 4 3\n"), "kept 104\nframes 1\nmcs 1\nskipped 0\naccepted 1\nlinks 0\ncrossing free\n"),
    ("run seed=42 frames=2 every=1", "1", "", "3 3 3\n", 105, Status::Done, Text::Behind("\n!mcs=1\n3 4 3\n\n!mcs=2\n3 4 4\n"), "kept 104\nframes 2\nmcs 2\nskipped 0\naccepted 2\nlinks 0\ncrossing free\n"),
    ("run seed=42 frames=5 every=1 link=on", "2", LINKS, "0 3 0\n0 0 0\n", 169, Status::Done, Text::Behind(LINKED), "kept 168\nframes 5\nmcs 5\nskipped 0\naccepted 1\nlinks 1\ncrossing free\n"),
    ("run seed=42 frames=1 every=1", "1", "", "3 3 3\n\n!mcs=1\n3 4 3\n", 119, Status::Done, Text::Behind("\n!mcs=2\n3 4 4\n"), "kept 118\nframes 1\nmcs 2\nskipped 0\naccepted 1\nlinks 0\ncrossing free\n"),
    ("info", "1", "", "3 3 3\n", 105, Status::Done, Text::Alone(INFO), ""),
    ("check", "2", PAIR, "0 0 0  \n", 146, Status::Done, Text::Alone("crossing free\n"), ""),
    ("radii", "2", PAIR, "0 0 0  \n", 146, Status::Done, Text::Alone("molecule 1 2 4/4 4\n"), ""),
    ("moves", "1", "", "3 3 3\n\n!mcs=1\n3 4 3\n\n!mcs=2\n3 4 4\n", 133, Status::Done, Text::Alone("monomers 2/1\nmolecule 1 1 2/1\n"), ""),
    ("contacts", "2", "!attributes\n1-2:1\n", "0 3 0\n0 1 0\n", 129, Status::Done, Text::Alone("1 1 1\ntotal 1\n"), ""),
    ("clusters", "2", "", "0 0 0\n6 0 0\n", 111, Status::Done, Text::Alone("2 1\n"), ""),
    ("run seed=42 frames=1", "1", "", "3 3 3\n", 0, Status::BadWords, Text::Alone(""), "words 4\n"),
    ("info", "1", "", "3 3 3\n4 4 4\n!mcs=1\n", 110, Status::BadFile, Text::Alone(""), "line 10 cause 7 FrameLong\n"),
    ("run seed=42 frames=1 every=1", "1", "", "3 3 3", 104, Status::BadFile, Text::Alone(""), "line 9 cause 18 NoFrame\n"),
    ("check limit=50", "1", "", "3 3 3\n", 51, Status::TooLong, Text::Alone(""), "long 50\n"),
    ("run seed=42 frames=1 every=1", "1", "", "-17592186044416 0 0\n", 119, Status::TooFar, Text::Alone(""), "far 1 17592186044417\n"),
    ("build melt x=8 y=8 z=8 chains=17 length=4", "1", "", "3 3 3\n", 0, Status::NoRoom, Text::Alone(""), "room 68 64\n"),
];

#[test]
fn each_call_of_a_job_fails_in_turn(rt: HostRuntime) -> Result<(), Fail> {
    for (words, monomers, lines, frame, reads, status, text, report) in JOBS {
        let file = file_with(rt.alloc(), monomers, "8", lines, frame)?;
        let output = match text {
            Text::Behind(added) => format!(in rt.alloc(); "{file}{added}")?,
            Text::Alone(text) => String::from_str(rt.alloc(), text)?,
        };
        let case = Case {
            words,
            input: file.as_bytes(),
            reads,
            faults: NONE,
            status,
            output: output.as_bytes(),
            report: report.as_bytes(),
        };
        fails_in_turn(&rt, rt.alloc(), &case, 1)?;
    }
    Ok(())
}

#[test]
fn each_call_of_a_start_fails_in_turn(rt: HostRuntime) -> Result<(), Fail> {
    let table = [(STARTS[0], 50), (STARTS[3], 50), (STARTS[5], 1)];
    for (start, least) in table {
        let output = start_file(rt.alloc(), &start)?;
        let case = Case {
            words: start.0,
            input: ONE.as_bytes(),
            reads: 0,
            faults: NONE,
            status: Status::Done,
            output: output.as_bytes(),
            report: b"",
        };
        fails_in_turn(&rt, rt.alloc(), &case, least)?;
    }
    Ok(())
}

// The weights of a crossing are free.
#[test]
fn each_call_of_a_check_with_a_crossing_fails_in_turn(rt: HostRuntime) -> Result<(), Fail> {
    let alloc = rt.alloc();
    let lines = format!(in alloc; "!set_of_bondvectors\n{SIX}")?;
    let file = file_with(alloc, "1", "8", lines.as_str(), "3 3 3\n")?;
    let mut case = Case {
        words: "check",
        input: file.as_bytes(),
        reads: file.len() as u64 + 1,
        faults: NONE,
        status: Status::Done,
        output: b"",
        report: b"",
    };
    let told = run_with(alloc, &case, NONE, 1)?;
    let output = middles(alloc, "2 2 0 0 0 1 0 2 0 2 -2 0", told.output.bytes())?;
    case.output = output.as_bytes();
    fails_in_turn(&rt, alloc, &case, 1)
}
