ghost use Rattle.std.specs.Prelude.{◌<◌, ◌≤◌, length};

use crate::{Loaded, Reader};
use bfm_base::{Cause, ReadStop, Refused};
use std::alloc::{AllocError, Global};
use std::process::Abort;
use std::test::Fail;

const ONE: &str = "!number_of_monomers=1\n!box_x=8\n!box_y=8\n!box_z=8\n\
    !periodic_x=1\n!periodic_y=1\n!periodic_z=1\n";

const TWO: &str = "!number_of_monomers=2\n!box_x=8\n!box_y=8\n!box_z=8\n\
    !periodic_x=1\n!periodic_y=1\n!periodic_z=1\n";

const TEN: &str = "!number_of_monomers=10\n!box_x=8\n!box_y=8\n!box_z=8\n\
    !periodic_x=1\n!periodic_y=1\n!periodic_z=1\n";

// Four monomers in a box with walls along x and y.
const WALLED: &str = "!number_of_monomers=4\n!box_x=8\n!box_y=8\n!box_z=8\n\
    !periodic_x=0\n!periodic_y=0\n!periodic_z=1\n";

// A side is missing.
const FLAT: &str = "!number_of_monomers=1\n!box_y=8\n!box_z=8\n\
    !periodic_x=1\n!periodic_y=1\n!periodic_z=1\n";

// 512 * 512 * 512 is 2^27.
const LARGE: &str = "!box_z=512\n!box_y=512\n!box_x=512\n";

// The bytes 32 and 33 are a space and an exclamation mark, 65 and 66 are A and B.
const SHORT: &str = "!set_of_bondvectors\n2 0 0:32\n-2 0 0:33\n";

// Two monomers, and the set of two vectors, up to the first frame line.
const PAIR: &str = "!number_of_monomers=2\n!box_x=8\n!box_y=8\n!box_z=8\n\
    !periodic_x=1\n!periodic_y=1\n!periodic_z=1\n\
    !set_of_bondvectors\n2 0 0:32\n-2 0 0:33\n!mcs=0\n";

// Ten monomers, of which the first has eight bonds, with a whole frame: 36 lines.
const STAR: &str = "!number_of_monomers=10\n!box_x=8\n!box_y=8\n!box_z=8\n\
    !periodic_x=1\n!periodic_y=1\n!periodic_z=1\n\
    !set_of_bondvectors\n2 0 0:1\n-2 0 0:2\n0 2 0:3\n0 -2 0:4\n0 0 2:5\n0 0 -2:6\n3 3 3:7\n-3 -3 -3:8\n\
    !bonds\n1 2\n1 3\n1 4\n1 5\n1 6\n1 7\n1 8\n1 9\n\
    !mcs=0\n0 0 0\n2 0 0\n-2 0 0\n0 2 0\n0 -2 0\n0 0 2\n0 0 -2\n3 3 3\n-3 -3 -3\n4 4 0\n";

const LONG: &str = "!set_of_bondvectors\n 3\t0 0 : 65 \n-3 0 0:66\n";

// What comes first, what comes then, and the refused line with its cause: the least one where it
// has several.
#[rattlefmt::skip]
const REFUSED: [(&str, &str, u64, Cause); 39] = [
    ("", "3 3 3\n", 1, Cause::BadLine),
    ("!box_x 8\n", "", 1, Cause::BadLine),
    ("!box_x=7\n", "", 1, Cause::OutOfLimit),
    ("!box_x=8\n", "3 3 3\n", 2, Cause::BadLine),
    ("!box_x=8\n\n# a comment\n", "3\n", 4, Cause::BadLine),
    ("!box_x=8\n", "!box_x=9\n", 2, Cause::Repeated),
    ("!box_x=8\n", "!box_x=7\n", 2, Cause::OutOfLimit),
    ("!bonds\n", "!bonds \n", 2, Cause::Repeated),
    ("!bonds 1\n", "", 1, Cause::BadLine),
    ("!attributes 1\n", "", 1, Cause::BadLine),
    ("!attributes\n", "1 2\n", 2, Cause::BadLine),
    ("!attributes\n", "-1-2:3\n", 2, Cause::BadLine),
    ("!attributes\n", "-1:3\n", 2, Cause::OutOfLimit),
    ("!attributes\n", "1:2147483647\n1:2147483648\n", 3, Cause::OutOfLimit),
    ("!attributes\n", "262144:1\n1-262145:1\n", 3, Cause::OutOfLimit),
    ("!attributes\n", "2-2:1\n2-1:1\n", 3, Cause::BadMonomer),
    ("!attributes\n", "!bfm_valence\n!attributes\n", 3, Cause::Repeated),
    ("!bfm_valence\n", "1-2:8\n1 - 2 : 9\n", 3, Cause::OutOfLimit),
    ("!bfm_valence\n", "1-2:-1\n", 2, Cause::OutOfLimit),
    ("!bfm_fixed 1\n", "", 1, Cause::BadLine),
    ("!bfm_fixed\n", "1:1\n", 2, Cause::BadLine),
    ("!bfm_fixed\n", "0\n", 2, Cause::OutOfLimit),
    ("!bfm_fixed\n", "262144\n1-262145\n", 3, Cause::OutOfLimit),
    ("!bfm_fixed\n", "2-2\n2-1\n", 3, Cause::BadMonomer),
    ("!bfm_fixed\n1\n", "!bfm_fixed\n", 3, Cause::Repeated),
    ("!bfm_solid\n", "", 1, Cause::Unbuilt),
    ("!add_bonds\n", "", 1, Cause::Misplaced),
    ("!remove_bonds 1\n", "", 1, Cause::BadLine),
    ("!box_x=8\n\n", "", 3, Cause::NoFrame),
    ("", "", 1, Cause::NoFrame),
    (FLAT, "!mcs=0\n3 3 3\n", 7, Cause::Missing),
    (LARGE, "!mcs=0\n", 4, Cause::OutOfLimit),
    (ONE, "!mcs=-1\n", 8, Cause::OutOfLimit),
    (ONE, "!mcs=5\n3 3 3\n!mcs=4\n", 10, Cause::McsOrder),
    (TWO, "!set_of_bondvectors\n1 1 0:17\n", 9, Cause::BadVector),
    (TWO, "!set_of_bondvectors\n2 0 0:17\n2 0 0:17\n", 10, Cause::Repeated),
    (TWO, "!set_of_bondvectors\n2 0 0:9\n", 9, Cause::OutOfLimit),
    (TWO, "!bonds\n5 5\n", 9, Cause::BadMonomer),
    (SHORT, "!number_of_monomers=2\n!bonds\n1 2\n", 7, Cause::NoFrame),
];

// The same where a frame has begun.
#[rattlefmt::skip]
const REFUSED_FRAMES: [(&str, &str, u64, Cause); 43] = [
    (ONE, "!mcs=0\n3 3 3", 9, Cause::NoFrame),
    (ONE, "!mcs=0\n3 3 3\n!box_x=8\n", 10, Cause::Misplaced),
    (ONE, "!mcs=0\n3 3 3\n4 4 4\n", 10, Cause::FrameLong),
    (ONE, "!mcs=0\n3 3 3\n!mcs=1\nx\n", 11, Cause::BadLine),
    (ONE, "!mcs=0\n3 3 3\nx\n", 10, Cause::BadLine),
    (ONE, "!mcs=0\n3 3 3\n17592186044417 0 0\n", 10, Cause::OutOfLimit),
    (ONE, "!mcs=0\n3 3 3\n3 3 3 A\n", 10, Cause::UnknownId),
    (ONE, "!mcs=0\n3 3 3\n!bfm_valence\n", 10, Cause::Misplaced),
    (ONE, "!mcs=0\n3 3 3\n!bfm_fixed\n", 10, Cause::Misplaced),
    (TWO, "!mcs=0\n0 0 0\n!bfm_fixed\n", 10, Cause::FrameShort),
    (ONE, "!bfm_fixed\n1\n1-2\n!mcs=0\n", 11, Cause::BadMonomer),
    (ONE, "!attributes\n1-2:1\n!mcs=0\n", 10, Cause::BadMonomer),
    (ONE, "!bfm_valence\n1:1\n2:1\n!mcs=0\n", 11, Cause::BadMonomer),
    (TWO, "!mcs=0\n0 0 0\n!add_bonds\n", 10, Cause::FrameShort),
    (TWO, "!mcs=0\n0 0 0\n!add_bonds 1\n", 10, Cause::BadLine),
    (TWO, "!mcs=0\n0 0 0\n4 4 4\n!add_bonds\n0 0\n", 12, Cause::OutOfLimit),
    (TWO, "!mcs=0\n0 0 0\n4 4 4\n!remove_bonds\n2 2\n", 12, Cause::BadMonomer),
    (TWO, "!mcs=0\n0 0 0\n4 4 4\n!remove_bonds\n3 1\n", 12, Cause::BadMonomer),
    (TWO, "!mcs=0\n0 0 0\n4 4 4\n!remove_bonds\n1 2\n", 12, Cause::BondUnknown),
    (TWO, "!mcs=0\n0 0 0\n4 4 4\n!add_bonds\n1 2\n!mcs=1\n0 0 0\n4 4 4\n", 15, Cause::BadBond),
    (PAIR, "0 0 0  \n!remove_bonds\n1 2\n1 2\n", 15, Cause::BondUnknown),
    (PAIR, "0 0 0  \n!add_bonds\n1 3\n", 14, Cause::BadMonomer),
    (PAIR, "0 0 0  \n!remove_bonds\n2 1\n!mcs=0\n0 0 0  \n", 16, Cause::BondUnknown),
    (STAR, "!add_bonds\n1 2\n10 2\n10 1\n", 40, Cause::TooManyBonds),
    (TWO, "!mcs=0\n0 0 0\n\n!mcs=1\n", 11, Cause::FrameShort),
    (TWO, "!mcs=0\n0 0 0\n!box_x=7\n", 10, Cause::OutOfLimit),
    (TWO, "!mcs=0\n0 0 0\n!box_x=8\n", 10, Cause::FrameShort),
    (TWO, "!mcs=0\n0 0 0\n!bfm_solid\n", 10, Cause::FrameShort),
    (TWO, "!mcs=0\n0 0 0\n!other\n", 10, Cause::FrameShort),
    (TWO, "!mcs=0\n0 0 0\n4 4 4\n\n!mcs=1\nx\n", 13, Cause::BadLine),
    (TWO, "!mcs=0\n0 0 0\n1 1 1\n", 10, Cause::Overlap),
    (TWO, "!mcs=0\n0 0 0\t\n", 9, Cause::BadLine),
    (TWO, "!set_of_bondvectors\n2 0 0:17\n!mcs=0\n", 10, Cause::NotSymmetric),
    (TWO, "!bonds\n!other\n1 2 3\n1 3\n!mcs=0\n0 0 0\n", 14, Cause::NoFrame),
    (TWO, "!bonds\n1 3\n!mcs=0\n", 10, Cause::BadMonomer),
    (TEN, "!bonds\n1 2\n1 3\n1 4\n1 5\n1 6\n1 7\n1 8\n1 9\n1 10\n!mcs=0\n", 18, Cause::TooManyBonds),
    (TWO, "!set_of_bondvectors\n2 0 0:32\n-2 0 0:33\n!mcs=0\n0 0 0\n2 0 0\n\n!mcs=1\n0 0 0  \n", 16, Cause::BondUnknown),
    (WALLED, "!mcs=0\n3 7 3\n", 9, Cause::Outside),
    (WALLED, "!set_of_bondvectors\n3 0 0:65\n-3 0 0:66\n!mcs=0\n0 0 0\n1 1 1 AA\n", 13, Cause::Outside),
    (LONG, "!mcs=0\n", 4, Cause::Missing),
    (TWO, "!set_of_bondvectors\n2 0 0:32\n-2 0 0:33\n!mcs=0\n0 0 0 A\n", 12, Cause::UnknownId),
    (TWO, "!set_of_bondvectors\n2 0 0:32\n-2 0 0:33\n!mcs=0\n0 0 0   \n", 12, Cause::FrameLong),
    (TWO, "!set_of_bondvectors\n2 0 0:32\n-2 0 0:33\n!bonds\n1 2\n!mcs=0\n0 0 0\n4 0 0\n", 15, Cause::BadBond),
];

// The same of the commands that give weights of contacts and thresholds of acceptance.
#[rattlefmt::skip]
const REFUSED_TABLES: [(&str, &str, u64, Cause); 16] = [
    ("!bfm_contacts 1\n", "", 1, Cause::BadLine),
    ("!bfm_contacts\n1 2:3\n", "!bfm_contacts\n", 3, Cause::Repeated),
    ("!bfm_contacts\n", "1 2\n", 2, Cause::BadLine),
    ("!bfm_contacts\n", "0 1:1\n", 2, Cause::OutOfLimit),
    ("!bfm_contacts\n1 15:1\n", "1 16:1\n", 3, Cause::OutOfLimit),
    ("!bfm_contacts\n1 1:1000\n", "1 1:1001\n", 3, Cause::OutOfLimit),
    ("!bfm_contacts\n1 1:-1000\n", "1 1:-1001\n", 3, Cause::OutOfLimit),
    ("!bfm_acceptance=1\n", "", 1, Cause::BadLine),
    ("!bfm_acceptance\n4294967296\n", "4294967297\n", 3, Cause::OutOfLimit),
    ("!bfm_acceptance\n", "-1\n", 2, Cause::OutOfLimit),
    ("!bfm_acceptance\n", "1 2\n", 2, Cause::BadLine),
    ("!bfm_acceptance\n", "!bfm_contacts\n!bfm_acceptance\n", 3, Cause::Repeated),
    (ONE, "!mcs=0\n3 3 3\n!bfm_contacts\n", 10, Cause::Misplaced),
    (ONE, "!mcs=0\n3 3 3\n!bfm_acceptance\n", 10, Cause::Misplaced),
    (TWO, "!mcs=0\n0 0 0\n!bfm_contacts\n", 10, Cause::FrameShort),
    (TWO, "!mcs=0\n0 0 0\n!bfm_acceptance\n", 10, Cause::FrameShort),
];

fn text_of(alloc: Global, first: &str, then: &str) -> Result<String, AllocError> {
    format!(in alloc; "{first}{then}")
}

// The verdict on a file that is fed whole.
fn read(rt: &impl Abort, alloc: Global, file: &str) -> Result<Loaded, ReadStop> {
    let bytes = file.as_bytes();
    assert!(rt; bytes.len() <= 3000);
    let Ok(mut reader) = Reader::new(alloc) else {
        return Err(ReadStop::Memory);
    };
    reader.feed(bytes)?;
    reader.end()
}

// The verdict on a file that is fed byte by byte.
fn read_slowly(rt: &impl Abort, alloc: Global, file: &str) -> Result<Loaded, ReadStop> {
    let bytes = file.as_bytes();
    assert!(rt; bytes.len() <= 1000);
    let Ok(mut reader) = Reader::new(alloc) else {
        return Err(ReadStop::Memory);
    };
    for k in 0..bytes.len() {
        reader.feed(&bytes[k..k + 1])?;
    }
    reader.end()
}

fn refused(line: u64, cause: Cause) -> Option<ReadStop> {
    Some(ReadStop::Refused(Refused { line, cause }))
}

// Whether a file is refused at this line for this cause, fed whole and byte by byte.
fn is_refused_at(rt: &impl Abort, alloc: Global, file: &str, line: u64, cause: Cause) -> bool {
    let want = refused(line, cause);
    read(rt, alloc, file).err() == want && read_slowly(rt, alloc, file).err() == want
}

#[test]
fn refused_files(rt: HostRuntime) -> Result<(), Fail> {
    for (first, then, line, cause) in REFUSED {
        let file = text_of(rt.alloc(), first, then)?;
        assert!(rt;
            is_refused_at(&rt, rt.alloc(), &file, line, cause),
            "{file:?}"
        );
    }
    Ok(())
}

#[test]
fn refused_tables(rt: HostRuntime) -> Result<(), Fail> {
    for (first, then, line, cause) in REFUSED_TABLES {
        let file = text_of(rt.alloc(), first, then)?;
        assert!(rt;
            is_refused_at(&rt, rt.alloc(), &file, line, cause),
            "{file:?}"
        );
    }
    Ok(())
}

#[test]
fn refused_frames(rt: HostRuntime) -> Result<(), Fail> {
    for (first, then, line, cause) in REFUSED_FRAMES {
        let file = text_of(rt.alloc(), first, then)?;
        assert!(rt;
            is_refused_at(&rt, rt.alloc(), &file, line, cause),
            "{file:?}"
        );
    }
    Ok(())
}

// What a file gives: the number of frames, the time of the last one, in sweeps, the length in bytes
// of what is kept, the number of skipped commands, and the x of the last monomer in the last frame
// and in the first one.
#[rattlefmt::skip]
const ACCEPTED: [(&str, &str, u64, u64, u64, u64, i64, i64); 9] = [
    (ONE, "!mcs=0\n3 3 3\n", 1, 0, 104, 0, 3, 3),
    (ONE, "!mcs=0\n5 5 5 \n", 1, 0, 105, 0, 5, 5),
    (ONE, "!mcs=0\n3 3 3\n\n!mcs=1\n4 3 3", 1, 0, 104, 0, 3, 3),
    (ONE, "!mcs=0\n3 3 3\n\n!mcs=1\n4 3 3\n\n!mcs=1\n5 3 3\n\n!mcs=7\n", 3, 1, 132, 0, 5, 3),
    (ONE, "!mcs=0\r\n  3 \t 3 3\r\n", 1, 0, 110, 0, 3, 3),
    ("#!version=2.0\n", "!periodic_z=1\n!periodic_y=1\n#\n\n!box_x=8\n!box_y=8\n!my_interaction 1 2 0.5\nx\n!box_z=8\n!periodic_x=1\n!number_of_monomers=1\n#!mcs = -0 \n-12 3 3\n!last\n", 1, 0, 154, 3, -12, -12),
    (TWO, "!set_of_bondvectors\n2 0 0:32\n-2 0 0:33\n!mcs=0\n0 0 0  \n", 1, 0, 145, 0, 2, 2),
    (TWO, "!set_of_bondvectors\n2 0 0:32\n-2 0 0:33\n!mcs=0\n0 0 0 !\n!mcs=3\n1 0 0\n3 0 0\n", 2, 3, 164, 0, 3, -2),
    (TWO, "!set_of_bondvectors\n2 0 0:32\n-2 0 0:33\n!bonds\n2 1\n1 2\n!mcs=0\n0 0 0\n6 0 0\n", 1, 0, 164, 0, 6, 6),
];

#[test]
fn accepted_files(rt: HostRuntime) -> Result<(), Fail> {
    for (first, then, frames, mcs, kept, skipped, last_x, first_x) in ACCEPTED {
        let file = text_of(rt.alloc(), first, then)?;
        let loaded = read(&rt, rt.alloc(), &file)?;
        assert!(rt; loaded.frames == frames && loaded.mcs == mcs, "of {file:?}");
        assert!(rt;
            loaded.kept == kept && loaded.skipped == skipped,
            "of {file:?}"
        );
        assert!(rt; loaded.total == file.len() as u64, "of {file:?}");
        let last = loaded.world.positions().last().map(|p| p.x);
        let first = loaded.first.list().last().map(|p| p.x);
        assert!(rt;
            last == Some(last_x) && first == Some(first_x),
            "of {file:?}"
        );
        let slowly = read_slowly(&rt, rt.alloc(), &file)?;
        assert!(rt;
            slowly.kept == kept && slowly.frames == frames && slowly.mcs == mcs,
            "of {file:?} byte by byte"
        );
    }
    Ok(())
}

// What a file of two monomers gives: whether they are bonded, their labels, and their valences.
#[rattlefmt::skip]
const GIVEN: [(&str, &str, bool, [u32; 2], [u8; 2]); 9] = [
    (TWO, "!mcs=0\n0 0 0\n4 4 4\n", false, [0, 0], [0, 0]),
    (TWO, "!attributes\n1-2:1\n2:20\n1-1:5\n!bfm_valence\n2:3\n1-2:0\n2-2:8\n!mcs=0\n0 0 0\n4 4 4\n", false, [5, 20], [0, 8]),
    (TWO, "!attributes\n!other\n1:7\n!bfm_valence\n1:4\n!mcs=0\n0 0 0\n4 4 4\n", false, [0, 0], [4, 0]),
    (PAIR, "0 0 0\n2 0 0\n!add_bonds\n2 1\n1 2\n!mcs=1\n0 0 0\n2 0 0\n", true, [0, 0], [0, 0]),
    (PAIR, "0 0 0\n2 0 0\n!add_bonds\n2 1\n", false, [0, 0], [0, 0]),
    (PAIR, "0 0 0\n4 0 0\n!add_bonds\n2 1\n!mcs=0\n0 0 0\n", false, [0, 0], [0, 0]),
    (PAIR, "0 0 0  \n!remove_bonds\n1 2\n!mcs=1\n0 0 0\n4 0 0\n", false, [0, 0], [0, 0]),
    (PAIR, "0 0 0  \n!remove_bonds\n1 2\n!mcs=1\n0 0 0\n", true, [0, 0], [0, 0]),
    (PAIR, "0 0 0  \n!remove_bonds\n1 2\n!add_bonds\n1 2\n!mcs=1\n0 0 0  \n!remove_bonds\n2 1\n", true, [0, 0], [0, 0]),
];

#[test]
fn bonds_labels_and_valences(rt: HostRuntime) -> Result<(), Fail> {
    for (first, then, bonded, labels, valences) in GIVEN {
        let file = text_of(rt.alloc(), first, then)?;
        let world = read(&rt, rt.alloc(), &file)?.world;
        assert_eq!(rt; world.len(), 2);
        assert!(rt; world.bonded(0, 1) == bonded, "of {file:?}");
        assert!(rt; [world.label(0), world.label(1)] == labels, "of {file:?}");
        assert!(rt;
            [world.valence(0), world.valence(1)] == valences,
            "of {file:?}"
        );
    }
    Ok(())
}

// What comes behind the commands with a value of a file of two monomers, and which of them are fixed.
#[rattlefmt::skip]
const FIXED: [(&str, [bool; 2]); 5] = [
    ("!mcs=0\n0 0 0\n4 4 4\n", [false, false]),
    ("!bfm_fixed\n2\n!mcs=0\n0 0 0\n4 4 4\n", [false, true]),
    ("!bfm_fixed\n1-2\n!mcs=0\n0 0 0\n4 4 4\n!mcs=1\n0 0 0\n5 4 4\n", [true, true]),
    ("!bfm_fixed\n!other\n1\n!mcs=0\n0 0 0\n4 4 4\n", [false, false]),
    ("!bfm_fixed\n1-1\n# 2\n 1 \n!bfm_valence\n2:1\n!mcs=0\n0 0 0\n4 4 4\n", [true, false]),
];

#[test]
fn fixed_monomers(rt: HostRuntime) -> Result<(), Fail> {
    for (then, fixed) in FIXED {
        let file = text_of(rt.alloc(), TWO, then)?;
        let world = read(&rt, rt.alloc(), &file)?.world;
        assert_eq!(rt; world.len(), 2);
        assert!(rt; [world.fixed(0), world.fixed(1)] == fixed, "of {file:?}");
    }
    Ok(())
}

// What comes behind the commands with a value, the weights of classes 1 and 2 and of 15 with itself,
// how many thresholds there are, and those of 1 to 4.
#[rattlefmt::skip]
const TABLES: [(&str, [i32; 2], u32, [u64; 4]); 4] = [
    ("!mcs=0\n3 3 3\n", [0, 0], 0, [0, 0, 0, 0]),
    ("!bfm_contacts\n1 2:-3\n!mcs=0\n3 3 3\n", [-3, 0], 0, [0, 0, 0, 0]),
    ("!bfm_contacts\n1 2:-3\n15 15:1000\n2 1:4\n!bfm_acceptance\n7\n4294967296\n0\n!mcs=0\n3 3 3\n!mcs=1\n4 3 3\n", [4, 1000], 3, [7, 4_294_967_296, 0, 0]),
    ("!bfm_acceptance\n# 9\n 5 \n!other\n6\n!bfm_contacts\n!other\n1 2:9\n!mcs=0\n3 3 3\n", [0, 0], 1, [5, 0, 0, 0]),
];

#[test]
fn weights_of_contacts_and_thresholds_of_acceptance(rt: HostRuntime) -> Result<(), Fail> {
    for (then, [other, same], count, thresholds) in TABLES {
        let file = text_of(rt.alloc(), ONE, then)?;
        let loaded = read(&rt, rt.alloc(), &file)?;
        let table = loaded.world.table();
        assert!(rt;
            [table.weight(1, 2), table.weight(2, 1)] == [other, other],
            "of {file:?}"
        );
        assert!(rt;
            [table.weight(15, 15), table.weight(1, 1)] == [same, 0],
            "of {file:?}"
        );
        assert!(rt; table.thresholds() == count, "of {file:?}");
        let found = [1, 2, 3, 4].map(|delta| table.threshold(delta));
        assert!(rt; found == thresholds, "of {file:?}");
    }
    Ok(())
}

// A file of one monomer with so many thresholds, from its ninth line on.
fn with_thresholds(alloc: Global, count: u32) -> Result<String, AllocError> {
    let mut file = text_of(alloc, ONE, "!bfm_acceptance\n")?;
    for _ in 0..count {
        file.push_str("1\n")?;
    }
    file.push_str("!mcs=0\n3 3 3\n")?;
    Ok(file)
}

#[test]
fn a_file_may_have_1024_thresholds_and_no_more(rt: HostRuntime) -> Result<(), Fail> {
    let file = with_thresholds(rt.alloc(), 1_024)?;
    let loaded = read(&rt, rt.alloc(), &file)?;
    assert_eq!(rt; loaded.world.table().thresholds(), 1_024);
    let file = with_thresholds(rt.alloc(), 1_025)?;
    let stop = read(&rt, rt.alloc(), &file).err();
    assert!(rt; stop == refused(1_033, Cause::OutOfLimit));
    Ok(())
}

// The first file, and so many groups behind it, of a monomer that goes to and fro.
fn with_groups(alloc: Global, count: u64) -> Result<String, AllocError> {
    let mut file = text_of(alloc, ONE, "!mcs=0\n3 3 3\n")?;
    for mcs in 1..=count {
        let x = 3 + mcs % 2;
        file.push_str(&format!(in alloc; "\n!mcs={mcs}\n{x} 3 3\n")?)?;
    }
    Ok(file)
}

// The greatest line, and 11 for the one monomer.
const MOST_HELD: u64 = 524_298;

// Feeds a file in pieces of this length, and tells how many whole frames it has, where no more was
// held behind a piece than may be.
fn frames_in_pieces(
    rt: &impl Abort,
    alloc: Global,
    bytes: &[u8],
    step: usize,
) -> Result<u64, ReadStop>
    requires some { 0 < step }
    requires short { step ≤ 30000 }
    requires few { length bytes.now ≤ 30000 }
{
    let Ok(mut reader) = Reader::new(alloc) else {
        return Err(ReadStop::Memory);
    };
    let mut at = 0;
    while at < bytes.len() {
        let end = bytes.len().min(at + step);
        reader.feed(&bytes[at..end])?;
        assert!(rt; reader.held() <= MOST_HELD);
        at = end;
    }
    assert_eq!(rt; reader.held(), 3);
    Ok(reader.end()?.frames)
}

#[test]
fn past_frames_are_not_held(rt: HostRuntime) -> Result<(), Fail> {
    let file = with_groups(rt.alloc(), 1_000)?;
    let bytes = file.as_bytes();
    assert!(rt; bytes.len() <= 30000);
    for step in [1, 7, 1_001, 29_999] {
        let frames = frames_in_pieces(&rt, rt.alloc(), bytes, step)?;
        assert_eq!(rt; frames, 1_001, "in pieces of {step}");
    }
    Ok(())
}

// How much is held of a text: pairs that are listed, bytes of the last line, positions and pairs.
#[rattlefmt::skip]
const HELD: [(&str, &str, u64); 9] = [
    ("", "", 0),
    (ONE, "!mcs=", 5),
    (TWO, "!bonds\n1 2\n2 1\n", 2),
    (TWO, "!bonds\n1 2\n2 1\n!mcs=0\n", 1),
    (PAIR, "0 0 0\n2 ", 3),
    (PAIR, "0 0 0  \n", 8),
    (PAIR, "0 0 0  \n!remove_bonds\n1 2\n!mcs=1\n0 0 0\n", 6),
    (PAIR, "0 0 0  \n!remove_bonds\n1 2\n!mcs=1\n0 0 0\n2 0 0\n", 6),
    (PAIR, "0 0 0  \nx\n0 0 0", 0),
];

#[test]
fn what_is_held(rt: HostRuntime) -> Result<(), Fail> {
    for (first, then, want) in HELD {
        let file = text_of(rt.alloc(), first, then)?;
        assert!(rt; file.len() <= 3000);
        let mut reader = Reader::new(rt.alloc())?;
        let _ = reader.feed(file.as_bytes());
        assert_eq!(rt; reader.held(), want, "of {file:?}");
    }
    Ok(())
}
