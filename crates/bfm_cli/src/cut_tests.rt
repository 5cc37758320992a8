//! Outputs that were cut off, at each byte. How many frames are missing is told by hand, group by group.

use crate::link_tests::{LINKED, two_open};
use crate::reading_tests::answers;
use crate::status::Status;
use crate::tests::{ADDED, ONE, run_over};
use bfm_base::{MemSink, MemSource};
use std::alloc::Global;
use std::process::Abort;
use std::test::Fail;

/// How much an output or a report of these tests takes, in bytes.
const ROOM: usize = 1000;

/// The input of a run with links, in a box with walls along z: a chain of four monomers, two chains of three and two
/// monomers more, of which one is fixed, as is the first of all.
const NETTED: &str =
    "!number_of_monomers=12\n!box_x=8\n!box_y=8\n!box_z=9\n!periodic_x=1\n!periodic_y=1\n!periodic_z=0\n\
    !set_of_bondvectors\n2 0 0:65\n0 2 0:66\n0 0 2:67\n0 0 -2:68\n0 -2 0:69\n-2 0 0:70\n2 1 0:71\n2 0 1:72\n2 0 -1:73\n\
    2 -1 0:74\n1 2 0:75\n1 0 2:76\n1 0 -2:77\n1 -2 0:78\n0 2 1:79\n0 2 -1:80\n0 1 2:81\n0 1 -2:82\n0 -1 2:83\n0 -1 -2:84\n\
    0 -2 1:85\n0 -2 -1:86\n-1 2 0:87\n-1 0 2:88\n-1 0 -2:89\n-1 -2 0:90\n-2 1 0:91\n-2 0 1:92\n-2 0 -1:93\n-2 -1 0:94\n\
    !bfm_valence\n1-12:3\n!bfm_fixed\n1\n8\n!mcs=0\n0 0 0 AAA\n2 4 0 BC\n6 6 4\n0 4 4 BA\n4 0 6\n";

/// How many frames are missing where an output is cut within this group, and the group.
type Missing = (u32, &'static str);

// Its five groups. The bytes were computed by a program of another hand, written in Python from the rules of the model and
// of the format alone.
#[rattlefmt::skip]
const NETTING: [Missing; 5] = [
    (5, "\n!add_bonds\n1 4\n!mcs=4\n0 0 0 HIA\n1 4 0 KC\n6 6 4\n0 4 5 PA\n5 -1 7\n"),
    (4, "\n!add_bonds\n2 6\n7 11\n!mcs=8\n0 0 0 AHI\n1 4 0 KS\n6 6 4\n0 4 4 BJ\n8 0 7\n"),
    (3, "\n!add_bonds\n8 10\n!mcs=12\n0 0 0 AHA\n2 4 0 BS\n6 6 4\n0 4 4 BJ\n9 0 6\n"),
    (2, "\n!mcs=16\n0 0 0 AAH\n2 4 0 BS\n6 6 4\n0 4 5 PJ\n8 1 5\n"),
    (1, "\n!add_bonds\n9 12\n!mcs=20\n0 0 0 AAJ\n2 4 0 BS\n6 6 4\n0 4 4 OI\n8 2 5\n"),
];

/// The first job's file with two frames more, and that of a run that has linked its only pair.
const STEPS: [Missing; 2] = [(2, ADDED), (1, "\n!mcs=2\n3 4 4\n")];

const LINKING: [Missing; 2] = [(2, LINKED), (1, "\n!mcs=2\n0 3 0 B\n")];

/// Whether a run with the missing frames over a front, which its limit just admits, writes the whole output and tells how
/// much of the front it has kept.
fn finishes(
    alloc: Global,
    words: &str,
    front: &[u8],
    (missing, kept): (u32, usize),
    whole: &[u8],
) -> Result<bool, Fail> {
    let limit = front.len();
    let words = format!(in alloc; "run {words} frames={missing} limit={limit}")?;
    let told = format!(in alloc; "kept {kept}\nframes {missing}\n")?;
    let mut input = MemSource::new(alloc, front, ROOM, &[])?;
    let mut output = MemSink::new(alloc, ROOM, ROOM, &[])?;
    let mut report = MemSink::new(alloc, ROOM, ROOM, &[])?;
    let status = run_over(alloc, words.as_str(), &mut input, &mut output, &mut report)?;
    Ok(
        status == Status::Done
            && output.bytes() == whole
            && report.bytes().starts_with(told.as_bytes()),
    )
}

/// Cuts the output of a run at each byte behind its input, and finishes it.
fn is_finished_from_each_front<R: Abort>(
    rt: &R,
    alloc: Global,
    words: &str,
    file: &str,
    groups: &[Missing],
) -> Result<(), Fail> {
    let mut whole = String::from_str(alloc, file)?;
    for (_, group) in groups {
        whole.push_str(group)?;
    }
    let whole = whole.as_bytes();
    let mut front = Vec::from_slice(alloc, file.as_bytes())?;
    for (missing, group) in groups {
        let kept = front.len();
        for byte in group.bytes() {
            let told = (*missing, kept);
            assert!(rt;
                finishes(alloc, words, &front, told, whole)?,
                "{words}, {}",
                front.len()
            );
            front.push(byte)?;
        }
    }
    assert!(rt;
        finishes(alloc, words, whole, (0, whole.len()), whole)?,
        "{words}"
    );
    Ok(())
}

#[test]
fn a_run_that_was_cut_at_any_byte_is_finished_to_the_same_bytes(
    rt: HostRuntime,
) -> Result<(), Fail> {
    let alloc = rt.alloc();
    let two = two_open(alloc)?;
    // (words, input, groups)
    let table = [
        ("seed=42 every=1", ONE, STEPS.as_slice()),
        ("seed=42 every=1 link=on", two.as_str(), LINKING.as_slice()),
        ("seed=32 every=4 link=on", NETTED, NETTING.as_slice()),
    ];
    for (words, file, groups) in table {
        is_finished_from_each_front(&rt, alloc, words, file, groups)?;
    }
    Ok(())
}

#[test]
fn a_link_of_a_group_that_was_cut_off_is_made_again(rt: HostRuntime) -> Result<(), Fail> {
    let alloc = rt.alloc();
    let file = two_open(alloc)?;
    let cut = format!(in alloc; "{file}\n!add_bonds\n1 2\n")?;
    let whole = format!(in alloc; "{file}{LINKED}\n!mcs=2\n0 3 0 B\n")?;
    let words = "run seed=42 frames=2 every=1 link=on";
    let report = "kept 168\nframes 2\nmcs 2\nskipped 0\naccepted 1\nlinks 1\ncrossing free\n";
    let wanted = (Status::Done, whole.as_bytes(), report);
    assert!(rt; cut.len() == 184 && whole.len() == 215);
    assert!(rt; answers(alloc, words, cut.as_bytes(), (50, 0), wanted)?);
    Ok(())
}

// The first file up to its last frame, of seven lines and the line of its time, and fronts of that frame.
const HEADER: &str =
    "!number_of_monomers=1\n!box_x=8\n!box_y=8\n!box_z=8\n!periodic_x=1\n!periodic_y=1\n!periodic_z=1\n";

#[rattlefmt::skip]
const NO_FRAME: [(&str, &str); 5] = [
    ("", "line 8 cause 18 NoFrame\n"),
    ("!mcs=", "line 8 cause 18 NoFrame\n"),
    ("!mcs=0\n", "line 9 cause 18 NoFrame\n"),
    ("!mcs=0\n3", "line 9 cause 18 NoFrame\n"),
    ("!mcs=0\n3 3 3", "line 9 cause 18 NoFrame\n"),
];

#[test]
fn a_cut_in_the_last_frame_of_the_input_leaves_the_frame_before_it(
    rt: HostRuntime,
) -> Result<(), Fail> {
    let alloc = rt.alloc();
    let words = "run seed=42 frames=1 every=1";
    for (front, report) in NO_FRAME {
        let cut = format!(in alloc; "{HEADER}{front}")?;
        let wanted = (Status::BadFile, b"".as_slice(), report);
        assert!(rt;
            answers(alloc, words, cut.as_bytes(), (50, 0), wanted)?,
            "{front}"
        );
    }
    // The run of one frame over the first file and one frame more, whose own input was cut within that frame.
    let whole = format!(in alloc; "{ONE}{ADDED}")?;
    let report = "kept 104\nframes 1\nmcs 1\nskipped 0\naccepted 1\nlinks 0\ncrossing free\n";
    for front in ["", "\n", "\n!mcs=1", "\n!mcs=1\n", "\n!mcs=1\n3 4 3"] {
        let cut = format!(in alloc; "{ONE}{front}")?;
        let wanted = (Status::Done, whole.as_bytes(), report);
        assert!(rt;
            answers(alloc, words, cut.as_bytes(), (50, 0), wanted)?,
            "{front}"
        );
    }
    Ok(())
}
