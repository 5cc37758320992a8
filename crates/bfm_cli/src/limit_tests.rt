//! The limits of a file at their last right value and behind it, and a file that is cut at each byte.

use crate::reading_tests::answers;
use crate::status::Status;
use crate::tests::{ADDED, ONE, WORDS, run_over};
use bfm_base::{MemSink, MemSource};
use std::alloc::{AllocError, Global};
use std::test::Fail;

const FRAMELESS: &str = "run seed=42 frames=0 every=1";

/// The first file with other values.
fn file_at(
    alloc: Global,
    monomers: &str,
    [x, y, z]: [&str; 3],
    mcs: &str,
    frame: &str,
) -> Result<String, AllocError> {
    format!(in alloc;
        "!number_of_monomers={monomers}\n!box_x={x}\n!box_y={y}\n!box_z={z}\n!periodic_x=1\n!periodic_y=1\n!periodic_z=1\n!mcs={mcs}\n{frame}\n"
    )
}

// (words, monomers, sides, time, frame line, what is written behind the file, report)
#[rattlefmt::skip]
const ACCEPTED: [(&str, &str, [&str; 3], &str, &str, &str, &str); 2] = [
    (WORDS, "1", ["512", "512", "64"], "0", "3 3 3", ADDED, "kept 109\nframes 1\nmcs 1\nskipped 0\naccepted 1\nlinks 0\ncrossing free\n"),
    (FRAMELESS, "1", ["8", "8", "8"], "0", "17592186044416 3 3", "", "kept 117\nframes 0\nmcs 0\nskipped 0\naccepted 0\nlinks 0\ncrossing free\n"),
];

// (monomers, sides, time, frame line, status, report)
#[rattlefmt::skip]
const REFUSED: [(&str, [&str; 3], &str, &str, Status, &str); 7] = [
    ("1", ["7", "8", "8"], "0", "3 3 3", Status::BadFile, "line 2 cause 2 OutOfLimit\n"),
    ("1", ["513", "8", "8"], "0", "3 3 3", Status::BadFile, "line 2 cause 2 OutOfLimit\n"),
    ("1", ["512", "512", "65"], "0", "3 3 3", Status::BadFile, "line 8 cause 2 OutOfLimit\n"),
    ("0", ["8", "8", "8"], "0", "3 3 3", Status::BadFile, "line 1 cause 2 OutOfLimit\n"),
    ("1", ["8", "8", "8"], "1099511627777", "3 3 3", Status::BadFile, "line 8 cause 2 OutOfLimit\n"),
    ("1", ["8", "8", "8"], "0", "17592186044416 3 3", Status::TooFar, "far 1 17592186044417\n"),
    ("1", ["8", "8", "8"], "0", "17592186044417 3 3", Status::BadFile, "line 9 cause 2 OutOfLimit\n"),
];

#[test]
fn values_at_their_limits(rt: HostRuntime) -> Result<(), Fail> {
    for (words, monomers, sides, mcs, frame, added, report) in ACCEPTED {
        let file = file_at(rt.alloc(), monomers, sides, mcs, frame)?;
        let output = format!(in rt.alloc(); "{file}{added}")?;
        let wanted = (Status::Done, output.as_bytes(), report);
        assert!(rt;
            answers(rt.alloc(), words, file.as_bytes(), (50, 0), wanted)?,
            "{report}"
        );
    }
    Ok(())
}

#[test]
fn values_beyond_their_limits(rt: HostRuntime) -> Result<(), Fail> {
    for (monomers, sides, mcs, frame, status, report) in REFUSED {
        let file = file_at(rt.alloc(), monomers, sides, mcs, frame)?;
        let wanted = (status, b"".as_slice(), report);
        assert!(rt;
            answers(rt.alloc(), WORDS, file.as_bytes(), (50, 0), wanted)?,
            "{report}"
        );
    }
    Ok(())
}

/// The first file behind a comment of so many bytes, its mark and its newline not counted.
fn behind_a_comment(alloc: Global, length: usize) -> Result<String, AllocError> {
    let mut file = String::from_str(alloc, "#")?;
    for _ in 0..length {
        file.push_str("a")?;
    }
    file.push_str("\n")?;
    file.push_str(ONE)?;
    Ok(file)
}

#[test]
fn the_longest_line(rt: HostRuntime) -> Result<(), Fail> {
    let done = "kept 524392\nframes 1\nmcs 1\nskipped 0\naccepted 1\nlinks 0\ncrossing free\n";
    // (bytes of the comment, status, report)
    let table = [
        (524_286, Status::Done, done),
        (524_287, Status::BadFile, "line 1 cause 2 OutOfLimit\n"),
    ];
    for (length, status, report) in table {
        let file = behind_a_comment(rt.alloc(), length)?;
        let whole = format!(in rt.alloc(); "{file}{ADDED}")?;
        let mut input = MemSource::new(rt.alloc(), file.as_bytes(), 65_536, &[])?;
        let mut output = MemSink::new(rt.alloc(), 600_000, 600_000, &[])?;
        let mut told = MemSink::new(rt.alloc(), 1000, 1000, &[])?;
        let ended = run_over(rt.alloc(), WORDS, &mut input, &mut output, &mut told)?;
        assert_eq!(rt; ended, status, "{length}");
        assert!(rt; told.bytes() == report.as_bytes(), "{length}");
        assert!(rt;
            output.bytes().is_empty() || output.bytes() == whole.as_bytes(),
            "{length}"
        );
        assert!(rt;
            output.bytes().is_empty() == (status == Status::BadFile),
            "{length}"
        );
    }
    Ok(())
}

#[test]
fn a_file_that_is_cut_at_each_byte_has_no_frame(rt: HostRuntime) -> Result<(), Fail> {
    for (n, _) in ONE.as_bytes().iter().enumerate() {
        let cut = &ONE.as_bytes()[..n];
        let line = 1 + cut.iter().filter(|byte| **byte == b'\n').count();
        let report = format!(in rt.alloc(); "line {line} cause 18 NoFrame\n")?;
        let wanted = (Status::BadFile, b"".as_slice(), report.as_str());
        assert!(rt; answers(rt.alloc(), WORDS, cut, (50, 0), wanted)?, "{n}");
    }
    Ok(())
}
