use crate::status::Status;
use crate::tests::{run_over, usual_entries};
use bfm_base::{MemSink, MemSource, Source};
use std::alloc::{AllocError, Global};
use std::process::Abort;
use std::test::Fail;

/// How much the output of a test takes, in bytes.
const ROOM: usize = 6000;

/// The 64 monomers of 16 chains of 4, each along x in one row of cells and back in the next.
const MELT_FRAME: &str =
    "!mcs=0\n0 0 0 \x11\x11\x11\n6 2 0 \x16\x16\x16\n0 4 0 \x11\x11\x11\n6 6 0 \x16\x16\x16\n\
    0 6 2 \x11\x11\x11\n6 4 2 \x16\x16\x16\n0 2 2 \x11\x11\x11\n6 0 2 \x16\x16\x16\n\
    0 0 4 \x11\x11\x11\n6 2 4 \x16\x16\x16\n0 4 4 \x11\x11\x11\n6 6 4 \x16\x16\x16\n\
    0 6 6 \x11\x11\x11\n6 4 6 \x16\x16\x16\n0 2 6 \x11\x11\x11\n6 0 6 \x16\x16\x16\n";

/// The 16 monomers of 4 upright chains.
const BRUSH_FRAME: &str =
    "!mcs=0\n0 0 0 \x13\x13\x13\n4 0 0 \x13\x13\x13\n0 4 0 \x13\x13\x13\n4 4 0 \x13\x13\x13\n";

const FEET: &str = "!bfm_fixed\n1\n5\n9\n13\n";

/// The bonds of a node with three strands of three that no line of its frame shows, and that frame.
const NETWORK_BONDS: &str = "!bonds\n1 4\n1 5\n1 7\n1 8\n1 10\n";

const NETWORK_FRAME: &str = "!mcs=0\n0 0 0 \x11\x11\x11\n0 2 0 \x12\x12\n0 0 2 \x13\x13\n";

const ONE_MONOMER: &str = "!mcs=0\n0 0 0\n";

// (words, number of monomers, z side, which axes are periodic, what stands behind the set, the frame)
#[rattlefmt::skip]
pub(crate) const STARTS: [(&str, &str, &str, [&str; 3], &str, &str); 7] = [
    ("build melt x=8 y=8 z=8 chains=16 length=4", "64", "8", ["1", "1", "1"], "", MELT_FRAME),
    ("build melt length=4 pz=0 chains=16 px=0 z=9 y=8 x=8", "64", "9", ["0", "1", "0"], "", MELT_FRAME),
    ("build melt x=8 y=8 z=8 chains=1 length=1 py=0", "1", "8", ["1", "0", "1"], "", ONE_MONOMER),
    ("build brush x=8 y=8 z=9 spacing=4 length=4", "16", "9", ["1", "1", "0"], FEET, BRUSH_FRAME),
    ("build brush x=8 y=8 z=8 spacing=4 length=4 py=0 px=1", "16", "8", ["1", "0", "0"], FEET, BRUSH_FRAME),
    ("build network strand=3 nodes=1", "10", "8", ["1", "1", "1"], NETWORK_BONDS, NETWORK_FRAME),
    ("build brush z=8 y=8 x=8 spacing=8 length=1", "1", "8", ["1", "1", "0"], "!bfm_fixed\n1\n", ONE_MONOMER),
];

/// The file of a start.
pub(crate) fn start_file(
    alloc: Global,
    start: &(&str, &str, &str, [&str; 3], &str, &str),
) -> Result<String, AllocError> {
    let entries = usual_entries(alloc)?;
    let (_, monomers, z, [px, py, pz], marks, frame) = *start;
    format!(in alloc;
        "!number_of_monomers={monomers}\n!box_x=8\n!box_y=8\n!box_z={z}\n!periodic_x={px}\n!periodic_y={py}\n!periodic_z={pz}\n!set_of_bondvectors\n{entries}{marks}\n{frame}"
    )
}

#[test]
fn starts_are_written_whole(rt: HostRuntime) -> Result<(), Fail> {
    for start in STARTS {
        let words = start.0;
        let file = start_file(rt.alloc(), &start)?;
        let built = answer_over(rt.alloc(), words, b"")?;
        assert_eq!(rt; built.status, Status::Done, "{words}");
        assert!(rt; built.output.bytes() == file.as_bytes(), "{words}");
        assert!(rt; built.report.bytes().is_empty(), "{words}");
    }
    Ok(())
}

#[test]
fn a_run_of_no_frames_gives_a_start_back(rt: HostRuntime) -> Result<(), Fail> {
    for (words, ..) in [STARTS[1], STARTS[3], STARTS[5]] {
        let built = answer_over(rt.alloc(), words, b"")?;
        let file = built.output.bytes();
        let again = answer_over(rt.alloc(), "run seed=1 frames=0 every=1", file)?;
        assert_eq!(rt; again.status, Status::Done, "{words}");
        assert!(rt; again.output.bytes() == file, "{words}");
    }
    Ok(())
}

/// What the tool did over an input that never fails.
#[derive(Drop)]
struct Answer {
    status: Status,
    /// How many bytes of the input were left.
    left: usize,
    output: MemSink,
    report: MemSink,
}

fn answer_over(alloc: Global, words: &str, input: &[u8]) -> Result<Answer, AllocError> {
    let mut source = MemSource::new(alloc, input, ROOM, &[])?;
    let mut output = MemSink::new(alloc, ROOM, ROOM, &[])?;
    let mut report = MemSink::new(alloc, 1000, 1000, &[])?;
    let status = run_over(alloc, words, &mut source, &mut output, &mut report)?;
    let mut rest = [0u8; 10];
    let left = source.read(&mut rest).unwrap_or(0);
    Ok(Answer {
        status,
        left,
        output,
        report,
    })
}

/// Words that the tool turns down leave output and input alone.
fn is_turned_down(
    rt: &impl Abort,
    alloc: Global,
    words: &str,
    status: Status,
    report: &str,
) -> Result<(), Fail> {
    let ended = answer_over(alloc, words, b"left alone")?;
    assert_eq!(rt; ended.status, status, "{words}");
    assert!(rt; ended.output.bytes().is_empty(), "{words}");
    assert!(rt; ended.report.bytes() == report.as_bytes(), "{words}");
    assert_eq!(rt; ended.left, 10, "{words}");
    Ok(())
}

// The last right value of each range and of each rule of two numbers, where there is too little room, and the first wrong
// one, with the number of the wrong word: (words, status, report).
#[rattlefmt::skip]
const CHAINS_OF_MELTS: [(&str, Status, &str); 14] = [
    ("build", Status::BadWords, "words 2\n"),
    ("build pile x=8", Status::BadWords, "words 2\n"),
    ("build x=8 melt", Status::BadWords, "words 2\n"),
    ("melt x=8 y=8 z=8 chains=1 length=1", Status::BadWords, "words 1\n"),
    ("build melt x=8 y=8 z=8 chains=17 length=4", Status::NoRoom, "room 68 64\n"),
    ("build melt x=9 y=9 z=9 chains=65 length=1", Status::NoRoom, "room 65 64\n"),
    ("build melt x=8 y=8 z=8 chains=262144 length=1", Status::NoRoom, "room 262144 64\n"),
    ("build melt x=8 y=8 z=8 chains=262145 length=1", Status::BadWords, "words 6\n"),
    ("build melt x=8 y=8 z=8 chains=1 length=262144", Status::NoRoom, "room 262144 64\n"),
    ("build melt x=8 y=8 z=8 chains=1 length=262145", Status::BadWords, "words 7\n"),
    ("build melt x=8 y=8 z=8 chains=512 length=512", Status::NoRoom, "room 262144 64\n"),
    ("build melt x=8 y=8 z=8 chains=512 length=513", Status::BadWords, "words 8\n"),
    ("build melt x=8 y=8 z=8 chains=0 length=1", Status::BadWords, "words 6\n"),
    ("build melt x=8 y=8 z=8 chains=1 length=0", Status::BadWords, "words 7\n"),
];

#[rattlefmt::skip]
const BOXES_OF_MELTS: [(&str, Status, &str); 19] = [
    ("build melt x=7 y=8 z=8 chains=1 length=1", Status::BadWords, "words 3\n"),
    ("build melt x=8 y=7 z=8 chains=1 length=1", Status::BadWords, "words 4\n"),
    ("build melt x=8 y=8 z=7 chains=1 length=1", Status::BadWords, "words 5\n"),
    ("build melt x=512 y=8 z=8 chains=1025 length=4", Status::NoRoom, "room 4100 4096\n"),
    ("build melt x=513 y=8 z=8 chains=1 length=1", Status::BadWords, "words 3\n"),
    ("build melt x=8 y=512 z=8 chains=1025 length=4", Status::NoRoom, "room 4100 4096\n"),
    ("build melt x=8 y=513 z=8 chains=1 length=1", Status::BadWords, "words 4\n"),
    ("build melt x=8 y=8 z=512 chains=1025 length=4", Status::NoRoom, "room 4100 4096\n"),
    ("build melt x=8 y=8 z=513 chains=1 length=1", Status::BadWords, "words 5\n"),
    ("build melt x=512 y=512 z=65 chains=1 length=1", Status::BadWords, "words 8\n"),
    ("build melt x=8 y=8 z=8 chains=1 length=1 px=2", Status::BadWords, "words 8\n"),
    ("build melt x=8 y=8 z=8 py=2 chains=1 length=1", Status::BadWords, "words 6\n"),
    ("build melt pz=2 x=8 y=8 z=8 chains=1 length=1", Status::BadWords, "words 3\n"),
    ("build melt x=8 y=8 x=8 z=8 chains=1 length=1", Status::BadWords, "words 5\n"),
    ("build melt x=8 y=8 z=8 chains=1 length=1 spacing=2", Status::BadWords, "words 8\n"),
    ("build melt x=8 y=8 z=8 chains=1 length=1 limit=5", Status::BadWords, "words 8\n"),
    ("build melt y=8 z=8 chains=1 length=1", Status::BadWords, "words 7\n"),
    ("build melt x=8 y=8 z=8 chains=1", Status::BadWords, "words 7\n"),
    ("build melt", Status::BadWords, "words 3\n"),
];

#[rattlefmt::skip]
const NETWORKS: [(&str, Status, &str); 13] = [
    ("build network", Status::BadWords, "words 3\n"),
    ("build network nodes=0 strand=3", Status::BadWords, "words 3\n"),
    ("build network nodes=129 strand=0", Status::BadWords, "words 3\n"),
    ("build network nodes=128 strand=0", Status::BadWords, "words 5\n"),
    ("build network nodes=65 strand=0", Status::BadWords, "words 5\n"),
    ("build network nodes=3 strand=0", Status::BadWords, "words 5\n"),
    ("build network nodes=1 strand=2", Status::BadWords, "words 5\n"),
    ("build network nodes=1 strand=128", Status::BadWords, "words 5\n"),
    ("build network nodes=1 strand=255", Status::BadWords, "words 5\n"),
    ("build network nodes=1 strand=256", Status::BadWords, "words 4\n"),
    ("build network nodes=1", Status::BadWords, "words 4\n"),
    ("build network nodes=1 nodes=1 strand=3", Status::BadWords, "words 4\n"),
    ("build network nodes=1 strand=3 x=8", Status::BadWords, "words 5\n"),
];

#[rattlefmt::skip]
const BRUSHES: [(&str, Status, &str); 13] = [
    ("build brush x=8 y=8 z=9 spacing=4 length=5", Status::NoRoom, "room 5 4\n"),
    ("build brush x=8 y=8 z=8 spacing=1 length=1", Status::BadWords, "words 6\n"),
    ("build brush x=8 y=8 z=8 spacing=2 length=5", Status::NoRoom, "room 5 4\n"),
    ("build brush x=512 y=512 z=8 spacing=512 length=262144", Status::NoRoom, "room 262144 4\n"),
    ("build brush x=512 y=512 z=8 spacing=513 length=5", Status::BadWords, "words 6\n"),
    ("build brush x=9 y=9 z=8 spacing=9 length=5", Status::NoRoom, "room 5 4\n"),
    ("build brush x=8 y=9 z=8 spacing=9 length=5", Status::BadWords, "words 8\n"),
    ("build brush x=9 y=8 z=8 spacing=9 length=5", Status::BadWords, "words 8\n"),
    ("build brush x=512 y=512 z=8 spacing=4 length=16", Status::NoRoom, "room 16 4\n"),
    ("build brush x=512 y=512 z=8 spacing=4 length=17", Status::BadWords, "words 8\n"),
    ("build brush x=8 y=8 z=8 spacing=4 length=4 pz=0", Status::BadWords, "words 8\n"),
    ("build brush x=8 y=8 z=8 spacing=4 length=4 px=2", Status::BadWords, "words 8\n"),
    ("build brush x=8 y=8 z=8 length=4", Status::BadWords, "words 7\n"),
];

#[test]
fn chains_of_a_melt_are_turned_down(rt: HostRuntime) -> Result<(), Fail> {
    for (words, status, report) in CHAINS_OF_MELTS {
        is_turned_down(&rt, rt.alloc(), words, status, report)?;
    }
    Ok(())
}

#[test]
fn boxes_of_a_melt_are_turned_down(rt: HostRuntime) -> Result<(), Fail> {
    for (words, status, report) in BOXES_OF_MELTS {
        is_turned_down(&rt, rt.alloc(), words, status, report)?;
    }
    Ok(())
}

#[test]
fn networks_are_turned_down(rt: HostRuntime) -> Result<(), Fail> {
    for (words, status, report) in NETWORKS {
        is_turned_down(&rt, rt.alloc(), words, status, report)?;
    }
    Ok(())
}

#[test]
fn brushes_are_turned_down(rt: HostRuntime) -> Result<(), Fail> {
    for (words, status, report) in BRUSHES {
        is_turned_down(&rt, rt.alloc(), words, status, report)?;
    }
    Ok(())
}
