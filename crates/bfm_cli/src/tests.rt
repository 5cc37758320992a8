ghost use Rattle.std.specs.Prelude.{◌<◌};

use crate::status::Status;
use crate::tool::run_tool;
use crate::trajectories::TRAJECTORIES;
use bfm_base::{MemSink, MemSource, Source};
use bond_set::BondSet;
use std::alloc::{AllocError, Global};
use std::test::Fail;

/// The text of a file in a box of sides 8 that is periodic along x and z.
fn file_of(
    alloc: Global,
    monomers: &str,
    periodic_y: &str,
    mcs: &str,
    positions: &str,
) -> Result<String, AllocError> {
    format!(in alloc;
        "!number_of_monomers={monomers}\n!box_x=8\n!box_y=8\n!box_z=8\n!periodic_x=1\n!periodic_y={periodic_y}\n!periodic_z=1\n!mcs={mcs}\n{positions}"
    )
}

/// The file of one monomer at (3, 3, 3), of 104 bytes.
pub(crate) const ONE: &str =
    "!number_of_monomers=1\n!box_x=8\n!box_y=8\n!box_z=8\n!periodic_x=1\n!periodic_y=1\n!periodic_z=1\n!mcs=0\n3 3 3\n";

/// What the first job adds to that file, and what it reports.
pub(crate) const ADDED: &str = "\n!mcs=1\n3 4 3\n";

const REPORT: &str = "kept 104\nframes 1\nmcs 1\nskipped 0\naccepted 1\nlinks 0\ncrossing free\n";

/// The words of the first job.
pub(crate) const WORDS: &str = "run seed=42 frames=1 every=1";

/// Runs the tool over memory, and answers its status.
pub(crate) fn run_over(
    alloc: Global,
    words: &str,
    input: &mut MemSource,
    output: &mut MemSink,
    report: &mut MemSink,
) -> Result<Status, AllocError> {
    let mut list = Vec::new(alloc);
    for word in words.split_whitespace() {
        list.push(String::from_str(alloc, word)?)?;
    }
    Ok(run_tool(alloc, &list, input, output, report))
}

/// What the tool answers where nothing fails.
#[derive(Drop)]
struct Answer {
    status: Status,
    output: MemSink,
    report: MemSink,
}

/// Runs the tool over an input that gives `step` bytes a call.
fn answer_to(alloc: Global, words: &str, input: &[u8], step: usize) -> Result<Answer, AllocError>
    requires { 0 < step }
{
    let mut input = MemSource::new(alloc, input, step, &[])?;
    let mut output = MemSink::new(alloc, 3000, step, &[])?;
    let mut report = MemSink::new(alloc, 1000, step, &[])?;
    let status = run_over(alloc, words, &mut input, &mut output, &mut report)?;
    Ok(Answer {
        status,
        output,
        report,
    })
}

// (words, bytes a call, what is added, the last lines of the report)
#[rattlefmt::skip]
const JOBS: [(&str, usize, &str, &str); 4] = [
    (WORDS, 1000, ADDED, "frames 1\nmcs 1\nskipped 0\naccepted 1\n"),
    (WORDS, 1, ADDED, "frames 1\nmcs 1\nskipped 0\naccepted 1\n"),
    ("run every=1 frames=1 seed=42", 1000, ADDED, "frames 1\nmcs 1\nskipped 0\naccepted 1\n"),
    ("run seed=42 frames=1 every=2", 7, "\n!mcs=2\n3 4 4\n", "frames 1\nmcs 2\nskipped 0\naccepted 2\n"),
];

#[test]
fn the_first_job_and_its_words(rt: HostRuntime) -> Result<(), Fail> {
    for (words, step, added, report) in JOBS {
        assert!(rt; step > 0);
        let ended = answer_to(rt.alloc(), words, ONE.as_bytes(), step)?;
        let output = format!(in rt.alloc(); "{ONE}{added}")?;
        let report = format!(in rt.alloc(); "kept 104\n{report}links 0\ncrossing free\n")?;
        assert_eq!(rt; ended.status, Status::Done, "{words}");
        assert!(rt; ended.output.bytes() == output.as_bytes(), "{words}");
        assert!(rt; ended.report.bytes() == report.as_bytes(), "{words}");
    }
    Ok(())
}

// (monomers, whether y is periodic, time, positions, words, what is written after the file, the report)
#[rattlefmt::skip]
const WORKED: [(&str, &str, &str, &str, &str, Option<&str>, &str); 11] = [
    ("1", "1", "0", "3 3 3\n", "run seed=42 frames=2 every=1", Some("\n!mcs=1\n3 4 3\n\n!mcs=2\n3 4 4\n"), "kept 104\nframes 2\nmcs 2\nskipped 0\naccepted 2\nlinks 0\ncrossing free\n"),
    ("1", "1", "0", "3 3 3\n", "run seed=42 frames=1 every=2", Some("\n!mcs=2\n3 4 4\n"), "kept 104\nframes 1\nmcs 2\nskipped 0\naccepted 2\nlinks 0\ncrossing free\n"),
    ("1", "1", "0", "3 3 3\r\n", WORDS, Some(ADDED), "kept 105\nframes 1\nmcs 1\nskipped 0\naccepted 1\nlinks 0\ncrossing free\n"),
    ("1", "1", "0", "3 3 3\n\n!mcs=1\n3 4 3\n", WORDS, Some("\n!mcs=2\n3 4 4\n"), "kept 118\nframes 1\nmcs 2\nskipped 0\naccepted 1\nlinks 0\ncrossing free\n"),
    ("1", "1", "0", "3 3 3\n", "run seed=42 frames=0 every=1", Some(""), "kept 104\nframes 0\nmcs 0\nskipped 0\naccepted 0\nlinks 0\ncrossing free\n"),
    ("2", "1", "0", "0 0 0\n0 6 0\n", WORDS, Some("\n!mcs=1\n0 0 0\n0 6 1\n"), "kept 110\nframes 1\nmcs 1\nskipped 0\naccepted 1\nlinks 0\ncrossing free\n"),
    ("1", "0", "0", "3 6 3\n", WORDS, Some("\n!mcs=1\n3 6 3\n"), "kept 104\nframes 1\nmcs 1\nskipped 0\naccepted 0\nlinks 0\ncrossing free\n"),
    ("1", "0", "0", "3 7 3\n", WORDS, None, "line 9 cause 12 Outside\n"),
    ("1", "1", "0", "3 7 3\n", WORDS, Some("\n!mcs=1\n3 8 3\n"), REPORT),
    ("2", "1", "0", "0 0 0\n1 1 1\n", WORDS, None, "line 10 cause 13 Overlap\n"),
    ("1", "1", "1099511627776", "3 3 3\n", WORDS, None, "far 1099511627777 4\n"),
];

#[test]
fn worked_cases(rt: HostRuntime) -> Result<(), Fail> {
    for (monomers, periodic, mcs, positions, words, added, report) in WORKED {
        let file = file_of(rt.alloc(), monomers, periodic, mcs, positions)?;
        let ended = answer_to(rt.alloc(), words, file.as_bytes(), 1000)?;
        let text = report.as_bytes();
        assert!(rt; ended.report.bytes() == text);
        match added {
            Some(added) => {
                assert!(rt; ended.status == Status::Done);
                let output = format!(in rt.alloc(); "{file}{added}")?;
                assert!(rt; ended.output.bytes() == output.as_bytes());
            }
            None => {
                assert!(rt; ended.status == Status::BadFile || ended.status == Status::TooFar);
                assert!(rt; ended.output.bytes().is_empty());
            }
        }
    }
    Ok(())
}

// The first file with carriage returns, a version, a command that is not known, and 153 bytes.
pub(crate) const FOREIGN: &str =
    "#!version=2.0\r\n!number_of_monomers=1\r\n!box_x=8\r\n!box_y=8\r\n!box_z=8\r\n\
    !periodic_x=1\r\n!periodic_y=1\r\n!periodic_z=1\r\n!my_interaction 1 2 0.5\r\n!mcs=0\r\n3 3 3\r\n";

// (what is kept, what stands behind it, the report)
#[rattlefmt::skip]
const TAILS: [(&str, &str, &str); 3] = [
    (ONE, "\n!mcs=1\n3 4 3", REPORT),
    (ONE, "\n!mcs=1\n", REPORT),
    (FOREIGN, "\r\n", "kept 153\nframes 1\nmcs 1\nskipped 2\naccepted 1\nlinks 0\ncrossing free\n"),
];

#[test]
fn what_stands_behind_the_last_whole_frame_is_left_out(rt: HostRuntime) -> Result<(), Fail> {
    for (kept, tail, report) in TAILS {
        let file = format!(in rt.alloc(); "{kept}{tail}")?;
        let ended = answer_to(rt.alloc(), WORDS, file.as_bytes(), 1000)?;
        let output = format!(in rt.alloc(); "{kept}{ADDED}")?;
        assert_eq!(rt; ended.status, Status::Done, "{tail:?}");
        assert!(rt; ended.output.bytes() == output.as_bytes(), "{tail:?}");
        assert!(rt; ended.report.bytes() == report.as_bytes(), "{tail:?}");
    }
    Ok(())
}

/// The text of a file in a periodic box of this side, with lines of its header before the frame.
pub(crate) fn file_with(
    alloc: Global,
    monomers: &str,
    side: &str,
    lines: &str,
    frame: &str,
) -> Result<String, AllocError> {
    format!(in alloc;
        "!number_of_monomers={monomers}\n!box_x={side}\n!box_y={side}\n!box_z={side}\n!periodic_x=1\n!periodic_y=1\n!periodic_z=1\n{lines}!mcs=0\n{frame}"
    )
}

// A set of two vectors, and sets that are wrong.
pub(crate) const PAIR: &str = "!set_of_bondvectors\n2 0 0:32\n-2 0 0:33\n";

const UNPAIRED: &str = "!set_of_bondvectors\n2 0 0:17\n";

const TOO_SHORT: &str = "!set_of_bondvectors\n1 1 0:17\n";

const TWICE: &str = "!set_of_bondvectors\n2 0 0:17\n2 0 0:17\n";

// (monomers, lines before the frame, the frame, what is written after the file, the report)
#[rattlefmt::skip]
const HEADERS: [(&str, &str, &str, Option<&str>, &str); 7] = [
    ("2", PAIR, "0 0 0  \n", Some("\n!mcs=1\n0 0 0  \n"), "kept 145\nframes 1\nmcs 1\nskipped 0\naccepted 0\nlinks 0\ncrossing free\n"),
    ("2", PAIR, "0 0 0\n2 0 0\n!add_bonds\n1 2\n!mcs=1\n0 0 0\n2 0 0\n", Some("\n!mcs=2\n0 0 0  \n"), "kept 183\nframes 1\nmcs 2\nskipped 0\naccepted 0\nlinks 0\ncrossing free\n"),
    ("1", "!bfm_fixed\n1\n", "3 3 3\n", Some("\n!mcs=1\n3 3 3\n"), "kept 117\nframes 1\nmcs 1\nskipped 0\naccepted 0\nlinks 0\ncrossing free\n"),
    ("1", "", "5 5 5 \n", Some("\n!mcs=1\n5 6 5\n"), "kept 105\nframes 1\nmcs 1\nskipped 0\naccepted 1\nlinks 0\ncrossing free\n"),
    ("1", UNPAIRED, "3 3 3\n", None, "line 10 cause 5 NotSymmetric\n"),
    ("1", TOO_SHORT, "3 3 3\n", None, "line 9 cause 3 BadVector\n"),
    ("1", TWICE, "3 3 3\n", None, "line 10 cause 4 Repeated\n"),
];

#[test]
fn sets_of_vectors_and_identifiers(rt: HostRuntime) -> Result<(), Fail> {
    for (monomers, lines, frame, added, report) in HEADERS {
        let file = file_with(rt.alloc(), monomers, "8", lines, frame)?;
        let ended = answer_to(rt.alloc(), WORDS, file.as_bytes(), 1000)?;
        assert!(rt; ended.report.bytes() == report.as_bytes(), "{report}");
        match added {
            Some(added) => {
                assert_eq!(rt; ended.status, Status::Done, "{report}");
                let output = format!(in rt.alloc(); "{file}{added}")?;
                assert!(rt; ended.output.bytes() == output.as_bytes(), "{report}");
            }
            None => {
                assert_eq!(rt; ended.status, Status::BadFile, "{report}");
                assert!(rt; ended.output.bytes().is_empty(), "{report}");
            }
        }
    }
    Ok(())
}

/// The entries of the usual set of bond vectors, a line each.
pub(crate) fn usual_entries(alloc: Global) -> Result<String, AllocError> {
    let set = BondSet::usual(alloc)?;
    let mut entries = String::new(alloc);
    for k in 0..set.len() {
        let v = set.vector(k);
        let entry = format!(in alloc; "{} {} {}:{}\n", v.x, v.y, v.z, set.id(k))?;
        entries.push_str(entry.as_str())?;
    }
    Ok(entries)
}

// Two bonds cross, from (0, 0, 0) to (2, 2, 1) and from (2, 0, 0) to (0, 2, 1). Each step of each
// monomer would break its bond or overlap another monomer.
#[test]
fn crossed_bonds_hold_each_other(rt: HostRuntime) -> Result<(), Fail> {
    let entries = usual_entries(rt.alloc())?;
    let lines = format!(in rt.alloc(); "!set_of_bondvectors\n{entries}")?;
    let frame = "0 0 0 G\n2 0 0 W\n";
    let file = file_with(rt.alloc(), "4", "16", lines.as_str(), frame)?;
    let words = "run seed=7 frames=1 every=10";
    let ended = answer_to(rt.alloc(), words, file.as_bytes(), 1000)?;
    let output = format!(in rt.alloc(); "{file}\n!mcs=10\n{frame}")?;
    let kept = file.len();
    let report = format!(in rt.alloc();
        "kept {kept}\nframes 1\nmcs 10\nskipped 0\naccepted 0\nlinks 0\ncrossing free\n"
    )?;
    assert_eq!(rt; ended.status, Status::Done);
    assert!(rt; ended.output.bytes() == output.as_bytes());
    assert!(rt; ended.report.bytes() == report.as_bytes());
    let checked = answer_to(rt.alloc(), "check", file.as_bytes(), 1000)?;
    assert_eq!(rt; checked.status, Status::Done);
    assert!(rt; checked.output.bytes() == b"crossing free\n".as_slice());
    Ok(())
}

// The kind (2,2,0) behind the usual set, in descending order.
#[rattlefmt::skip]
const TWELVE: &str = "2 2 0:125\n2 0 2:126\n2 0 -2:127\n2 -2 0:128\n0 2 2:129\n0 2 -2:130\n0 -2 2:131\n0 -2 -2:132\n-2 2 0:133\n-2 0 2:134\n-2 0 -2:135\n-2 -2 0:136\n";

// The end of a bond steps from the first vector to the third, through a bond of the fifth.
pub(crate) const SIX: &str = "2 2 0:17\n-2 -2 0:18\n2 2 1:19\n-2 -2 -1:20\n2 -2 0:21\n-2 2 0:22\n";

/// The first number of the line of weights, where it is at least 1.
fn first_weight(text: &str) -> Option<u64> {
    let (_, weights) = text.split_once("weights ")?;
    let (first, _) = weights.split_once(' ')?;
    first.parse::<u64>().ok().filter(|k| *k > 0)
}

/// The crossing lines where two bonds of the set cross in their middles. One of them is an edge of
/// the triangle, so each of its ends has the same weight k as the ends of the other.
pub(crate) fn middles(alloc: Global, crossing: &str, text: &[u8]) -> Result<String, Fail> {
    let k = first_weight(str::from_utf8(text)?).unwrap_or(1);
    Ok(format!(in alloc; "crossing {crossing}\nweights {k} {k} 0 {k} {k}\n")?)
}

#[test]
fn a_check_names_the_first_crossing(rt: HostRuntime) -> Result<(), Fail> {
    let usual = usual_entries(rt.alloc())?;
    // (whether the usual set is there, further vectors, b, the step, c and e of the crossing)
    let table = [
        (true, "", None),
        (true, TWELVE, Some("2 2 1 0 0 -1 0 2 0 2 -2 1")),
        (false, SIX, Some("2 2 0 0 0 1 0 2 0 2 -2 0")),
        (false, "", None),
    ];
    for (with_usual, more, crossing) in table {
        let first = if with_usual { usual.as_str() } else { "" };
        let lines = format!(in rt.alloc(); "!set_of_bondvectors\n{first}{more}")?;
        let file = file_with(rt.alloc(), "1", "8", lines.as_str(), "3 3 3\n")?;
        let checked = answer_to(rt.alloc(), "check", file.as_bytes(), 1000)?;
        let output = match crossing {
            Some(crossing) => middles(rt.alloc(), crossing, checked.output.bytes())?,
            None => String::from_str(rt.alloc(), "crossing free\n")?,
        };
        assert_eq!(rt; checked.status, Status::Done);
        assert!(rt; checked.report.bytes().is_empty());
        assert!(rt; checked.output.bytes() == output.as_bytes());
        let kept = file.len();
        let report = format!(in rt.alloc();
            "kept {kept}\nframes 0\nmcs 0\nskipped 0\naccepted 0\nlinks 0\n{output}"
        )?;
        let words = "run seed=1 frames=0 every=1";
        let ran = answer_to(rt.alloc(), words, file.as_bytes(), 1000)?;
        assert!(rt; ran.report.bytes() == report.as_bytes());
    }
    Ok(())
}

#[test]
fn chains_move_as_another_hand_computed(rt: HostRuntime) -> Result<(), Fail> {
    for trajectory in TRAJECTORIES {
        let ended = answer_to(
            rt.alloc(),
            trajectory.words,
            trajectory.input.as_bytes(),
            1000,
        )?;
        let output = format!(in rt.alloc(); "{}{}", trajectory.input, trajectory.added)?;
        assert_eq!(rt; ended.status, Status::Done, "{}", trajectory.words);
        assert!(rt;
            ended.output.bytes() == output.as_bytes(),
            "{}",
            trajectory.words
        );
        assert!(rt;
            ended.report.bytes() == trajectory.report.as_bytes(),
            "{}",
            trajectory.words
        );
    }
    Ok(())
}

// (monomers, whether y is periodic, time, positions, status, report)
#[rattlefmt::skip]
const REFUSALS: [(&str, &str, &str, &str, Status, &str); 8] = [
    ("1", "1", "0", "3 3 3", Status::BadFile, "line 9 cause 18 NoFrame\n"),
    ("2", "1", "0", "0 0 0\n", Status::BadFile, "line 10 cause 18 NoFrame\n"),
    ("262145", "1", "0", "0 0 0\n", Status::BadFile, "line 1 cause 2 OutOfLimit\n"),
    ("1", "2", "0", "0 0 0\n", Status::BadFile, "line 6 cause 2 OutOfLimit\n"),
    ("1", "1", "0", "0 0\n", Status::BadFile, "line 9 cause 1 BadLine\n"),
    ("1", "1", "0", "0 0 0\n\n!mcs=1\nx\n", Status::BadFile, "line 12 cause 1 BadLine\n"),
    ("1", "1", "5", "3 3 3\n!mcs=4\n", Status::BadFile, "line 10 cause 11 McsOrder\n"),
    ("1", "1", "0", "-17592186044416 0 0\n", Status::TooFar, "far 1 17592186044417\n"),
];

#[test]
fn refused_files_and_far_runs(rt: HostRuntime) -> Result<(), Fail> {
    for (monomers, periodic, mcs, positions, status, report) in REFUSALS {
        let file = file_of(rt.alloc(), monomers, periodic, mcs, positions)?;
        let ended = answer_to(rt.alloc(), WORDS, file.as_bytes(), 1000)?;
        assert_eq!(rt; ended.status, status, "{report}");
        assert!(rt; ended.output.bytes().is_empty(), "{report}");
        assert!(rt; ended.report.bytes() == report.as_bytes(), "{report}");
    }
    Ok(())
}

#[test]
fn wrong_words_leave_the_input_unread(rt: HostRuntime) -> Result<(), Fail> {
    // (words, the number of the first wrong one)
    let table = [
        ("", 1),
        ("walk seed=42 frames=1 every=1", 1),
        ("run seed=42 frames=1", 4),
        ("run seed=42 seed=1 frames=1 every=1", 3),
        ("run seed=42 frames=1048577 every=1", 3),
        ("run seed=42 frames=1 every=0", 4),
        ("run seed=18446744073709551616 frames=1 every=1", 2),
        ("run seed=42 frames=1 every=1 speed=1", 5),
        ("check seed=42", 2),
        ("check check", 2),
        ("checks", 1),
        ("info limit=10 limit=10", 3),
        ("info limit=1073741825", 2),
        ("info limit=-1", 2),
        ("info info", 2),
        ("check limit=", 2),
        ("run seed=42 frames=1 every=1 limit=1073741825", 5),
        ("run limit=5 seed=42 frames=1", 5),
        ("radii frames=1", 2),
        ("moves link=on", 2),
        ("contacts limit=10 limit=10", 3),
        ("clusters limit=1073741825", 2),
        ("clusters clusters", 2),
        ("cluster", 1),
    ];
    for (words, place) in table {
        let mut input = MemSource::new(rt.alloc(), ONE.as_bytes(), 1, &[])?;
        let mut output = MemSink::new(rt.alloc(), 0, 1, &[])?;
        let mut report = MemSink::new(rt.alloc(), 100, 1, &[])?;
        let status = run_over(rt.alloc(), words, &mut input, &mut output, &mut report)?;
        let text = format!(in rt.alloc(); "words {place}\n")?;
        let mut first = [0u8; 8];
        assert_eq!(rt; status, Status::BadWords, "{words}");
        assert!(rt; report.bytes() == text.as_bytes(), "{words}");
        assert!(rt; input.read(&mut first) == Ok(1), "{words}");
        assert_eq!(rt; first[0], b'!', "{words}");
    }
    Ok(())
}
