use crate::status::Status;
use crate::tests::{FOREIGN, ONE, PAIR, file_with, run_over, usual_entries};
use bfm_base::{MemSink, MemSource};
use std::alloc::{AllocError, Global};
use std::test::Fail;

/// What is told of the first file.
const INFO: &str =
    "monomers 1\nbox 8 8 8\nperiodic 1 1 1\nvectors 0\nbonds 0\nframes 1\nmcs 0\nkept 104\nskipped 0\n";

// The same with two frames more, with a space behind a position, and for the file of another hand.
const LATER: &str =
    "monomers 1\nbox 8 8 8\nperiodic 1 1 1\nvectors 0\nbonds 0\nframes 3\nmcs 2\nkept 132\nskipped 0\n";

const SPACE: &str =
    "monomers 1\nbox 8 8 8\nperiodic 1 1 1\nvectors 0\nbonds 0\nframes 1\nmcs 0\nkept 105\nskipped 0\n";

const OTHER: &str =
    "monomers 1\nbox 8 8 8\nperiodic 1 1 1\nvectors 0\nbonds 0\nframes 1\nmcs 0\nkept 153\nskipped 2\n";

// Of two monomers with a bond between them.
const BONDED: &str =
    "monomers 2\nbox 8 8 8\nperiodic 1 1 1\nvectors 2\nbonds 1\nframes 1\nmcs 0\nkept 145\nskipped 0\n";

// Of two monomers with a bond that is added behind the first frame, whether a second one follows or not, and with one
// that is removed.
const ADDED: &str =
    "monomers 2\nbox 8 8 8\nperiodic 1 1 1\nvectors 2\nbonds 1\nframes 2\nmcs 1\nkept 183\nskipped 0\n";

const UNBONDED: &str =
    "monomers 2\nbox 8 8 8\nperiodic 1 1 1\nvectors 2\nbonds 0\nframes 1\nmcs 0\nkept 149\nskipped 0\n";

const REMOVED: &str =
    "monomers 2\nbox 8 8 8\nperiodic 1 1 1\nvectors 2\nbonds 0\nframes 2\nmcs 1\nkept 182\nskipped 0\n";

/// The second job on the first file writes these groups.
const GROUPS: &str = "\n!mcs=1\n3 4 3\n\n!mcs=2\n3 4 4\n";

/// Runs the tool over an input that gives `step` bytes a call and fails in one call, counted from 1,
/// or in none, and compares the status, the output and the report.
pub(crate) fn answers(
    alloc: Global,
    words: &str,
    input: &[u8],
    (step, fail): (usize, u64),
    (status, output, report): (Status, &[u8], &str),
) -> Result<bool, AllocError> {
    let mut source = MemSource::new(alloc, input, step.max(1), &[fail])?;
    let mut written = MemSink::new(alloc, 3000, 3000, &[])?;
    let mut told = MemSink::new(alloc, 1000, 1000, &[])?;
    let ended = run_over(alloc, words, &mut source, &mut written, &mut told)?;
    Ok(ended == status && written.bytes() == output && told.bytes() == report.as_bytes())
}

// (words, what is put behind the first file, bytes a call, status, output, report)
#[rattlefmt::skip]
const ACCEPTED: [(&str, &str, usize, Status, &str, &str); 15] = [
    ("info", "", 1, Status::Done, INFO, ""),
    ("info", "", 65_536, Status::Done, INFO, ""),
    ("info limit=1073741824", "\n!mcs=1\n3 4 3", 50, Status::Done, INFO, ""),
    ("info", GROUPS, 50, Status::Done, LATER, ""),
    ("info limit=132", GROUPS, 65_536, Status::Done, LATER, ""),
    ("info limit=131", GROUPS, 65_536, Status::TooLong, "", "long 131\n"),
    ("info limit=104", "", 50, Status::Done, INFO, ""),
    ("info limit=103", "", 50, Status::TooLong, "", "long 103\n"),
    ("check limit=5", "", 65_536, Status::TooLong, "", "long 5\n"),
    ("run limit=0 seed=42 frames=1 every=1", "", 1, Status::TooLong, "", "long 0\n"),
    ("radii limit=104", "", 50, Status::Done, "molecule 1 1 0/1 0\n", ""),
    ("moves limit=103", "", 50, Status::TooLong, "", "long 103\n"),
    ("moves limit=1073741824", GROUPS, 50, Status::Done, "monomers 2/1\nmolecule 1 1 2/1\n", ""),
    ("contacts limit=0", "", 1, Status::TooLong, "", "long 0\n"),
    ("clusters limit=132", GROUPS, 1, Status::Done, "1 1\n", ""),
];

#[test]
fn what_the_first_file_holds_within_a_limit(rt: HostRuntime) -> Result<(), Fail> {
    for (words, more, step, status, output, report) in ACCEPTED {
        let file = format!(in rt.alloc(); "{ONE}{more}")?;
        let wanted = (status, output.as_bytes(), report);
        assert!(rt;
            answers(rt.alloc(), words, file.as_bytes(), (step, 0), wanted)?,
            "{words}"
        );
    }
    Ok(())
}

// The first file's header without a side.
const FLAT: &str =
    "!number_of_monomers=1\n!box_y=8\n!box_z=8\n!periodic_x=1\n!periodic_y=1\n!periodic_z=1\n";

// (words, the first line, what stands behind it, bytes a call, status, output, report)
#[rattlefmt::skip]
const OTHERS: [(&str, &str, &str, usize, Status, &str, &str); 10] = [
    ("info", FOREIGN, "\r\n", 50, Status::Done, OTHER, ""),
    ("info limit=10", "!box_x=8\n", "\n", 1, Status::BadFile, "", "line 3 cause 18 NoFrame\n"),
    ("info limit=9", "!box_x=8\n", "\n", 1, Status::TooLong, "", "long 9\n"),
    ("info", FLAT, "!mcs=0\n3 3 3\n", 1, Status::BadFile, "", "line 7 cause 9 Missing\n"),
    ("info limit=0", "", "", 1, Status::BadFile, "", "line 1 cause 18 NoFrame\n"),
    ("info limit=2", "x\n", ONE, 50, Status::BadFile, "", "line 1 cause 1 BadLine\n"),
    ("info limit=1", "x\n", ONE, 50, Status::TooLong, "", "long 1\n"),
    ("info limit=20", "!box_x=8\nx\n", ONE, 65_536, Status::BadFile, "", "line 2 cause 1 BadLine\n"),
    ("info limit=10", "!box_x=8\nx\n", ONE, 65_536, Status::TooLong, "", "long 10\n"),
    ("run every=1 limit=1000 seed=42 frames=1", "x", "", 1, Status::BadFile, "", "line 1 cause 18 NoFrame\n"),
];

#[test]
fn a_wrong_line_goes_before_the_limit_behind_it(rt: HostRuntime) -> Result<(), Fail> {
    for (words, first, rest, step, status, output, report) in OTHERS {
        let file = format!(in rt.alloc(); "{first}{rest}")?;
        let wanted = (status, output.as_bytes(), report);
        assert!(rt;
            answers(rt.alloc(), words, file.as_bytes(), (step, 0), wanted)?,
            "{words}"
        );
    }
    Ok(())
}

// (monomers, lines of the header, frame, status, output, report)
#[rattlefmt::skip]
const FRAMES: [(&str, &str, &str, Status, &str, &str); 7] = [
    ("2", PAIR, "0 0 0  \n", Status::Done, BONDED, ""),
    ("1", "", "5 5 5 \n", Status::Done, SPACE, ""),
    ("1", "", "3 3 3", Status::BadFile, "", "line 9 cause 18 NoFrame\n"),
    ("2", "", "0 0 0\n4 4 4\n\n!mcs=1\nx\n", Status::BadFile, "", "line 13 cause 1 BadLine\n"),
    ("2", PAIR, "0 0 0\n2 0 0\n!add_bonds\n1 2\n!mcs=1\n0 0 0\n2 0 0\n", Status::Done, ADDED, ""),
    ("2", PAIR, "0 0 0\n2 0 0\n!add_bonds\n1 2\n", Status::Done, UNBONDED, ""),
    ("2", PAIR, "0 0 0  \n!remove_bonds\n2 1\n!mcs=1\n0 0 0\n4 0 0\n", Status::Done, REMOVED, ""),
];

#[test]
fn what_frames_hold(rt: HostRuntime) -> Result<(), Fail> {
    for (monomers, lines, frame, status, output, report) in FRAMES {
        let file = file_with(rt.alloc(), monomers, "8", lines, frame)?;
        let wanted = (status, output.as_bytes(), report);
        assert!(rt;
            answers(rt.alloc(), "info", file.as_bytes(), (7, 0), wanted)?,
            "{report}"
        );
    }
    Ok(())
}

// Bonds of the first of ten monomers with each other one, and a bond of two.
const NINE: &str = "!bonds\n1 2\n1 3\n1 4\n1 5\n1 6\n1 7\n1 8\n1 9\n1 10\n";

const JOINED: &str = "!set_of_bondvectors\n2 0 0:32\n-2 0 0:33\n!bonds\n1 2\n";

// (monomers, lines of the header, frame, report)
#[rattlefmt::skip]
const WRONG: [(&str, &str, &str, &str); 9] = [
    ("1", "", "3 3 3\n!box_x=8\n", "line 10 cause 10 Misplaced\n"),
    ("1", "", "3 3 3\n4 4 4\n", "line 10 cause 7 FrameLong\n"),
    ("2", "", "0 0 0\n\n!mcs=1\n", "line 11 cause 8 FrameShort\n"),
    ("2", PAIR, "0 0 0 A\n", "line 12 cause 6 UnknownId\n"),
    ("2", PAIR, "0 0 0  \n!remove_bonds\n1 2\n1 2\n", "line 15 cause 17 BondUnknown\n"),
    ("2", PAIR, "0 0 0  \n!add_bonds\n1 3\n", "line 14 cause 14 BadMonomer\n"),
    ("2", JOINED, "0 0 0\n4 0 0\n", "line 15 cause 15 BadBond\n"),
    ("10", NINE, "3 3 3\n", "line 18 cause 16 TooManyBonds\n"),
    ("1", "!bfm_solid\n", "3 3 3\n", "line 8 cause 19 Unbuilt\n"),
];

#[test]
fn wrong_lines_are_told_with_their_causes(rt: HostRuntime) -> Result<(), Fail> {
    for (monomers, lines, frame, report) in WRONG {
        let file = file_with(rt.alloc(), monomers, "8", lines, frame)?;
        let wanted = (Status::BadFile, b"".as_slice(), report);
        assert!(rt;
            answers(rt.alloc(), "info", file.as_bytes(), (65_536, 0), wanted)?,
            "{report}"
        );
    }
    Ok(())
}

// A file of two bytes whose line is wrong, and the first file: (words, the front, bytes a call, the
// call that fails, status, report). The earliest of them decides.
#[rattlefmt::skip]
const FAILING: [(&str, &str, usize, u64, Status, &str); 7] = [
    ("info", "x\n", 1, 2, Status::ReadFault, "read\n"),
    ("info", "x\n", 1, 3, Status::BadFile, "line 1 cause 1 BadLine\n"),
    ("info", "x\n", 2, 2, Status::BadFile, "line 1 cause 1 BadLine\n"),
    ("info limit=10", "", 5, 3, Status::ReadFault, "read\n"),
    ("info limit=10", "", 5, 4, Status::TooLong, "long 10\n"),
    ("info limit=104", "", 104, 2, Status::ReadFault, "read\n"),
    ("check", "", 65_536, 1, Status::ReadFault, "read\n"),
];

#[test]
fn a_call_that_fails_decides_only_where_it_comes_first(rt: HostRuntime) -> Result<(), Fail> {
    for (words, front, step, fail, status, report) in FAILING {
        let file = format!(in rt.alloc(); "{front}{ONE}")?;
        let wanted = (status, b"".as_slice(), report);
        assert!(rt;
            answers(rt.alloc(), words, file.as_bytes(), (step, fail), wanted)?,
            "{words}"
        );
    }
    Ok(())
}

/// A chain of 32 monomers along x, two lattice units apart, once around a box of 64.
const CHAIN: &str =
    "0 0 0 \x11\x11\x11\x11\x11\x11\x11\x11\x11\x11\x11\x11\x11\x11\x11\x11\x11\x11\x11\x11\x11\x11\x11\x11\x11\x11\x11\x11\x11\x11\x11\n";

/// What a job writes over an input.
fn written_by(alloc: Global, words: &str, input: &[u8]) -> Result<MemSink, AllocError> {
    let mut source = MemSource::new(alloc, input, 65_536, &[])?;
    let mut output = MemSink::new(alloc, 30_000, 30_000, &[])?;
    let mut report = MemSink::new(alloc, 1000, 1000, &[])?;
    let _status = run_over(alloc, words, &mut source, &mut output, &mut report)?;
    Ok(output)
}

/// A file with the frames of runs behind it, each of which begins where the one before it ended.
fn file_after(alloc: Global, file: &[u8], runs: &[&str]) -> Result<Vec<u8>, AllocError> {
    let mut bytes = Vec::from_slice(alloc, file)?;
    for words in runs {
        let output = written_by(alloc, words, &bytes)?;
        bytes = Vec::from_slice(alloc, output.bytes())?;
    }
    Ok(bytes)
}

const TEN: &str = "run seed=7 frames=10 every=3";

#[test]
fn a_run_in_parts_writes_the_bytes_of_one_run(rt: HostRuntime) -> Result<(), Fail> {
    let entries = usual_entries(rt.alloc())?;
    let lines = format!(in rt.alloc(); "!set_of_bondvectors\n{entries}")?;
    let file = file_with(rt.alloc(), "32", "64", lines.as_str(), CHAIN)?;
    let file = file.as_bytes();
    let one = file_after(rt.alloc(), file, &["run seed=7 frames=50 every=3"])?;
    let two = file_after(
        rt.alloc(),
        file,
        &[
            "run seed=7 frames=20 every=3",
            "run seed=7 frames=30 every=3",
        ],
    )?;
    let five = file_after(rt.alloc(), file, &[TEN, TEN, TEN, TEN, TEN])?;
    assert!(rt; one == two);
    assert!(rt; one == five);
    assert!(rt; one.starts_with(file));
    assert!(rt; !one.ends_with(CHAIN.as_bytes()));
    let kept = one.len();
    let told = written_by(rt.alloc(), "info", &one)?;
    let wanted = format!(in rt.alloc();
        "monomers 32\nbox 64 64 64\nperiodic 1 1 1\nvectors 108\nbonds 31\nframes 51\nmcs 150\nkept {kept}\nskipped 0\n"
    )?;
    assert!(rt; told.bytes() == wanted.as_bytes());
    Ok(())
}
