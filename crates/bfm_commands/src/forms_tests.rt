use crate::commands::{Known, command_of};
use crate::forms::{
    Range, contact_entry, frame_line, monomers_entry, pair_entry, range_entry, threshold_entry,
    value_of, vector_entry,
};
use bfm_base::{Cause, P3};
use bfm_lexer::is_bare;
use std::test::Fail;

const FORM: Cause = Cause::BadLine;

const SIZE: Cause = Cause::OutOfLimit;

const MONOMER: Cause = Cause::BadMonomer;

#[rattlefmt::skip]
const COMMANDS: [(&[u8], Option<Known>, &[u8]); 14] = [
    (b"!mcs=0", Some(Known::Mcs), b"=0"),
    (b"#!mcs = 0 ", Some(Known::Mcs), b" = 0 "),
    (b"!number_of_monomers=1", Some(Known::NumberOfMonomers), b"=1"),
    (b"!set_of_bondvectors", Some(Known::SetOfBondVectors), b""),
    (b"!bonds \t", Some(Known::Bonds), b" \t"),
    (b"!bfm_solid", Some(Known::Solid), b""),
    (b"!bfm_stream 1", Some(Known::Stream), b" 1"),
    (b"#!version=2.0", None, b"=2.0"),
    (b"!my_interaction 1 2", None, b" 1 2"),
    (b"!Mcs=0", None, b"=0"),
    (b"!mcs_=0", None, b"=0"),
    (b"! mcs=0", None, b" mcs=0"),
    (b"!mcs\xc3\xa9=0", Some(Known::Mcs), b"\xc3\xa9=0"),
    (b"!", None, b""),
];

const OTHERS: [&[u8]; 5] = [b"", b"#", b"# !mcs", b" !mcs=0", b"3 3 3"];

#[test]
fn commands_by_name(rt: HostRuntime) -> Result<(), Fail> {
    for (line, known, rest) in COMMANDS {
        let command = command_of(line).ok_or("no command")?;
        assert_eq!(rt; command.known, known, "of {line:?}");
        assert_eq!(rt; command.rest, rest, "of {line:?}");
    }
    for line in OTHERS {
        assert!(rt; command_of(line).is_none(), "of {line:?}");
    }
    assert!(rt; is_bare(b" \t "));
    assert!(rt; !is_bare(b" =1"));
    Ok(())
}

#[rattlefmt::skip]
const VALUES: [(&[u8], Result<u64, Cause>); 15] = [
    (b"=8", Ok(8)),
    (b"=512", Ok(512)),
    (b" \t=\t 0064 ", Ok(64)),
    (b"=7", Err(SIZE)),
    (b"=513", Err(SIZE)),
    (b"=-8", Err(SIZE)),
    (b"=-0", Err(SIZE)),
    (b"=00000000000000000000000000000000000000000513", Err(SIZE)),
    (b"=99999999999999999999999999999999999999999999", Err(SIZE)),
    (b"", Err(FORM)),
    (b"=", Err(FORM)),
    (b"64", Err(FORM)),
    (b"==64", Err(FORM)),
    (b"=64 64", Err(FORM)),
    (b"=+64", Err(FORM)),
];

#[test]
fn values_of_commands(rt: HostRuntime) {
    for (rest, want) in VALUES {
        assert_eq!(rt; value_of(rest, 8, 512), want, "of {rest:?}");
    }
}

const DIAGONAL: P3 = P3 { x: 2, y: -2, z: 1 };

const FAR: P3 = P3 {
    x: 0,
    y: 0,
    z: 4_611_686_018_427_387_904,
};

#[rattlefmt::skip]
const VECTORS: [(&[u8], Result<(P3, i64), Cause>); 16] = [
    (b"2 -2 1:77", Ok((DIAGONAL, 77))),
    (b" \t2\t-2 \t 01 : 77\t", Ok((DIAGONAL, 77))),
    (b"2 -2 1:-77", Ok((DIAGONAL, -77))),
    (b"-0 0 4611686018427387904:0", Ok((FAR, 0))),
    (b"0 0 4611686018427387905:0", Err(SIZE)),
    (b"0 -99999999999999999999 0:1", Err(SIZE)),
    (b"2 -2 1:99999999999999999999", Err(SIZE)),
    (b"2 -2 99999999999999999999:77x", Err(FORM)),
    (b"2 -2 1:", Err(FORM)),
    (b"2 -2 1", Err(FORM)),
    (b"2 -2:77", Err(FORM)),
    (b"2 -2 1 1:77", Err(FORM)),
    (b"2 -2 1:77:77", Err(FORM)),
    (b"2:-2 1:77", Err(FORM)),
    (b"2-2 1:77", Err(FORM)),
    (b"2,-2,1:77", Err(FORM)),
];

#[test]
fn vectors(rt: HostRuntime) {
    for (line, want) in VECTORS {
        assert_eq!(rt; vector_entry(line), want, "of {line:?}");
    }
}

#[rattlefmt::skip]
const PAIRS: [(&[u8], Result<(u32, u32), Cause>); 15] = [
    (b"1 2", Ok((0, 1))),
    (b"\t262144 \t 1 ", Ok((262_143, 0))),
    (b"002 0000000000000000000000000000001", Ok((1, 0))),
    (b"5 5", Err(MONOMER)),
    (b"0 0", Err(SIZE)),
    (b"-1 -1", Err(SIZE)),
    (b"1 262145", Err(SIZE)),
    (b"99999999999999999999 99999999999999999999", Err(SIZE)),
    (b"1", Err(FORM)),
    (b"1 2 3", Err(FORM)),
    (b"0 0 x", Err(FORM)),
    (b"1-2", Err(FORM)),
    (b"1:2", Err(FORM)),
    (b"1,2", Err(FORM)),
    (b"1 +2", Err(FORM)),
];

#[test]
fn pairs(rt: HostRuntime) {
    for (line, want) in PAIRS {
        assert_eq!(rt; pair_entry(line), want, "of {line:?}");
    }
}

#[rattlefmt::skip]
const RANGES: [(&[u8], Result<(Range, u32), Cause>); 24] = [
    (b"1-3:8", Ok((Range { first: 0, last: 2 }, 8))),
    (b"3:0", Ok((Range { first: 2, last: 2 }, 0))),
    (b" 1 - 3 : 8 ", Ok((Range { first: 0, last: 2 }, 8))),
    (b"1 -2:3", Ok((Range { first: 0, last: 1 }, 3))),
    (b"1- 262144:-0", Ok((Range { first: 0, last: 262_143 }, 0))),
    (b"3-1:8", Err(MONOMER)),
    (b"3-1:9", Err(SIZE)),
    (b"0-1:8", Err(SIZE)),
    (b"1-262145:8", Err(SIZE)),
    (b"1-2:-5", Err(SIZE)),
    (b"1:9", Err(SIZE)),
    (b"-1:3", Err(SIZE)),
    (b"1-99999999999999999999:3", Err(SIZE)),
    (b"99999999999999999999-1:3x", Err(FORM)),
    (b"-1-2:3", Err(FORM)),
    (b"1--2:3", Err(FORM)),
    (b"- 1:3", Err(FORM)),
    (b"1-2-3:4", Err(FORM)),
    (b"1-2", Err(FORM)),
    (b"1 2:3", Err(FORM)),
    (b"1-:3", Err(FORM)),
    (b"1:2-3", Err(FORM)),
    (b"1-2:3 4", Err(FORM)),
    (b":3", Err(FORM)),
];

#[rattlefmt::skip]
const MONOMERS: [(&[u8], Result<Range, Cause>); 9] = [
    (b" 1 - 3 ", Ok(Range { first: 0, last: 2 })),
    (b"3", Ok(Range { first: 2, last: 2 })),
    (b"3-1", Err(MONOMER)),
    (b"0", Err(SIZE)),
    (b"-3", Err(SIZE)),
    (b"1--3", Err(FORM)),
    (b"-1-3", Err(FORM)),
    (b"1 3", Err(FORM)),
    (b"1:3", Err(FORM)),
];

#[test]
fn ranges(rt: HostRuntime) {
    for (line, want) in RANGES {
        assert_eq!(rt; range_entry(line, 8), want, "of {line:?}");
    }
    for (line, want) in MONOMERS {
        assert_eq!(rt; monomers_entry(line), want, "of {line:?}");
    }
}

#[rattlefmt::skip]
const CONTACTS: [(&[u8], Result<((u8, u8), i32), Cause>); 8] = [
    (b"1 15:-1000", Ok(((1, 15), -1_000))),
    (b" 2\t2 : 1000 ", Ok(((2, 2), 1_000))),
    (b"1 16:0", Err(SIZE)),
    (b"0 1:0", Err(SIZE)),
    (b"1 1:1001", Err(SIZE)),
    (b"1 1:-1001", Err(SIZE)),
    (b"1-1:0", Err(FORM)),
    (b"1 1 0", Err(FORM)),
];

#[rattlefmt::skip]
const THRESHOLDS: [(&[u8], Result<u64, Cause>); 5] = [
    (b" 3122475825 ", Ok(3_122_475_825)),
    (b"4294967296", Ok(4_294_967_296)),
    (b"4294967297", Err(SIZE)),
    (b"-1", Err(SIZE)),
    (b"1 1", Err(FORM)),
];

#[test]
fn contacts_and_thresholds(rt: HostRuntime) {
    for (line, want) in CONTACTS {
        assert_eq!(rt; contact_entry(line), want, "of {line:?}");
    }
    for (line, want) in THRESHOLDS {
        assert_eq!(rt; threshold_entry(line), want, "of {line:?}");
    }
}

const ORIGIN: P3 = P3 { x: 0, y: 0, z: 0 };

const EDGE: P3 = P3 {
    x: 17_592_186_044_416,
    y: -17_592_186_044_416,
    z: 3,
};

#[rattlefmt::skip]
const FRAMES: [(&[u8], P3, &[u8]); 8] = [
    (b"0 0 0", ORIGIN, b""),
    (b"0 0 0 ", ORIGIN, b""),
    (b"0 0 0  ", ORIGIN, b" "),
    (b"0 0 0 G", ORIGIN, b"G"),
    (b"-0 00\t \t0  \tGW\r", ORIGIN, b" \tGW\r"),
    (b" \t0 0 0 1 2", ORIGIN, b"1 2"),
    (b"17592186044416 -17592186044416 3", EDGE, b""),
    (b"17592186044416 -17592186044416 03 :", EDGE, b":"),
];

#[rattlefmt::skip]
const REFUSED_FRAMES: [(&[u8], Cause); 10] = [
    (b"17592186044417 0 0", SIZE),
    (b"0 0 -17592186044417 G", SIZE),
    (b"0 99999999999999999999 0", SIZE),
    (b"0 0 0\t", FORM),
    (b"0 0 0\tG", FORM),
    (b"0 0 0G", FORM),
    (b"0 0", FORM),
    (b"0 0 -", FORM),
    (b"99999999999999999999 0 x", FORM),
    (b"0,0,0", FORM),
];

#[test]
fn frame_lines(rt: HostRuntime) -> Result<(), Fail> {
    for (line, position, ids) in FRAMES {
        let read = frame_line(line).ok().ok_or("refused")?;
        assert_eq!(rt; read.0, position, "of {line:?}");
        assert_eq!(rt; read.1, ids, "of {line:?}");
    }
    for (line, cause) in REFUSED_FRAMES {
        assert_eq!(rt; frame_line(line).err(), Some(cause), "of {line:?}");
    }
    Ok(())
}
