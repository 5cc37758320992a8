ghost use Rattle.std.specs.Prelude.{◌<◌};

use crate::{
    Cut, LineCutter, LineKind, behind_mark, kind, lone_natural, lone_number, natural_before,
    number, number_before, number_field,
};
use bfm_base::Cause;
use std::alloc::Global;
use std::process::Abort;
use std::test::Fail;

#[rattlefmt::skip]
const KINDS: [(&[u8], LineKind); 16] = [
    (b"", LineKind::Blank),
    (b" ", LineKind::Blank),
    (b"\t \t", LineKind::Blank),
    (b"#", LineKind::Comment),
    (b"# !mcs=0", LineKind::Comment),
    (b"##!", LineKind::Comment),
    (b"!", LineKind::Command),
    (b"!mcs=0", LineKind::Command),
    (b"#!version=2.0", LineKind::Command),
    (b"#!", LineKind::Command),
    (b"3 3 3", LineKind::Entry),
    (b" !mcs=0", LineKind::Entry),
    (b"\t#", LineKind::Entry),
    (b"\x0b", LineKind::Entry),
    (b"\xa0", LineKind::Entry),
    (b"\r", LineKind::Entry),
];

#[test]
fn kinds_by_the_first_bytes(rt: HostRuntime) {
    for (line, want) in KINDS {
        assert_eq!(rt; kind(line), want, "of {line:?}");
    }
}

// 2^62 is 4611686018427387904.
#[rattlefmt::skip]
const NUMBERS: [(&[u8], Result<i64, Cause>); 22] = [
    (b"0", Ok(0)),
    (b"-0", Ok(0)),
    (b"007", Ok(7)),
    (b"-12", Ok(-12)),
    (b"4611686018427387903", Ok(4611686018427387903)),
    (b"4611686018427387904", Ok(4611686018427387904)),
    (b"-4611686018427387904", Ok(-4611686018427387904)),
    (b"04611686018427387904", Ok(4611686018427387904)),
    (b"4611686018427387905", Err(Cause::OutOfLimit)),
    (b"-4611686018427387905", Err(Cause::OutOfLimit)),
    (b"4611686018427387910", Err(Cause::OutOfLimit)),
    (b"18446744073709551617", Err(Cause::OutOfLimit)),
    (b"100000000000000000000000", Err(Cause::OutOfLimit)),
    (b"100000000000000000000000.", Err(Cause::BadLine)),
    (b"", Err(Cause::BadLine)),
    (b"-", Err(Cause::BadLine)),
    (b"--1", Err(Cause::BadLine)),
    (b"+1", Err(Cause::BadLine)),
    (b"1-", Err(Cause::BadLine)),
    (b" 1", Err(Cause::BadLine)),
    (b"1a", Err(Cause::BadLine)),
    (b"1/", Err(Cause::BadLine)),
];

#[test]
fn numbers_by_form_and_size(rt: HostRuntime) {
    for (digits, want) in NUMBERS {
        assert_eq!(rt; number(digits), want, "of {digits:?}");
    }
}

#[rattlefmt::skip]
const LONG_NUMBERS: [(u8, &[u8], Result<i64, Cause>); 4] = [
    (b'0', b"4611686018427387904", Ok(4611686018427387904)),
    (b'0', b"4611686018427387905", Err(Cause::OutOfLimit)),
    (b'9', b"0", Err(Cause::OutOfLimit)),
    (b'9', b" ", Err(Cause::BadLine)),
];

#[test]
fn numbers_of_half_a_million_digits(rt: HostRuntime) -> Result<(), Fail> {
    for (front, end, want) in LONG_NUMBERS {
        let mut digits = vec![in rt.alloc(); front; 500_000]?;
        digits.extend_from_slice(end)?;
        assert_eq!(rt; number(&digits), want, "of {front} and {end:?}");
    }
    Ok(())
}

// The next number beyond 2^62 stands for all that are beyond.
#[rattlefmt::skip]
const LONE_NUMBERS: [(&[u8], Option<i64>); 6] = [
    (b"\t4611686018427387904 ", Some(4_611_686_018_427_387_904)),
    (b"4611686018427387906", Some(4_611_686_018_427_387_905)),
    (b"-99999999999999999999", Some(-4_611_686_018_427_387_905)),
    (b"7 3", None),
    (b"7x", None),
    (b"", None),
];

#[test]
fn fields_and_marks(rt: HostRuntime) -> Result<(), Fail> {
    let (number, rest) = number_field(b" \t-7\t3 ").ok_or("no field")?;
    assert_eq!(rt; number, -7);
    assert_eq!(rt; rest, b"\t3 ".as_slice());
    let (number, rest) = number_before(b':', b" -7 : 3:").ok_or("no number")?;
    assert_eq!(rt; number, -7);
    assert_eq!(rt; rest, b" 3:".as_slice());
    let (number, rest) = natural_before(b'-', b"7\t--3").ok_or("no number")?;
    assert_eq!(rt; number, 7);
    assert_eq!(rt; rest, b"-3".as_slice());
    let rest = behind_mark(b'=', b"\t =").ok_or("no mark")?;
    assert!(rt; rest.is_empty());
    assert!(rt; number_field(b" ").is_none());
    assert!(rt; number_field(b"7:3").is_none());
    assert!(rt; number_before(b':', b"7 3:1").is_none());
    assert!(rt; number_before(b':', b"7").is_none());
    assert!(rt; natural_before(b'-', b"-7-3").is_none());
    assert!(rt; behind_mark(b'=', b"7=").is_none());
    for (text, want) in LONE_NUMBERS {
        assert_eq!(rt; lone_number(text), want, "of {text:?}");
    }
    assert_eq!(rt; lone_natural(b" 007 "), Some(7));
    assert_eq!(rt; lone_natural(b"-7"), None);
    Ok(())
}

// What the cutter answers for the pieces of a text: a line and `|`, `*|` for a long one.
fn answers(rt: &impl Abort, alloc: Global, text: &[u8], step: usize) -> Result<Vec<u8>, Fail>
    requires { 0 < step }
{
    let mut cutter = LineCutter::new(alloc)?;
    let mut seen = Vec::new(alloc);
    for piece in text.chunks(step) {
        let mut at = 0;
        for _ in 0..=piece.len() {
            assert!(rt; at <= piece.len());
            match cutter.feed(piece, &mut at) {
                Cut::Line => {
                    seen.extend_from_slice(cutter.line())?;
                    seen.push(b'|')?;
                }
                Cut::Long => seen.extend_from_slice(b"*|")?,
                Cut::Used => break,
            }
        }
    }
    Ok(seen)
}

#[rattlefmt::skip]
const TEXTS: [(&[u8], &[u8]); 7] = [
    (b"", b""),
    (b"3 3 3", b""),
    (b"\n", b"|"),
    (b"!mcs=0\n3 3 3\n", b"!mcs=0|3 3 3|"),
    (b"\n\nab\n\n c", b"||ab||"),
    (b"a\r\n\r\nb\r\r\n\rc\n", b"a||b\r|\rc|"),
    (b"a\rb\nc\r", b"a\rb|"),
];

#[test]
fn lines_in_any_cutting(rt: HostRuntime) -> Result<(), Fail> {
    for (text, want) in TEXTS {
        for step in 1..=text.len() + 1 {
            let seen = answers(&rt, rt.alloc(), text, step)?;
            assert_eq!(rt; seen.as_slice(), want, "in pieces of {step}");
        }
    }
    Ok(())
}

#[rattlefmt::skip]
const LIMITS: [(usize, &[u8], bool); 4] = [
    (524_287, b"\nb\n", true),
    (524_288, b"\nb\n", false),
    (524_286, b"\r\nb\n", true),
    (524_287, b"\r\nb\n", false),
];

#[test]
fn lines_at_the_limit(rt: HostRuntime) -> Result<(), Fail> {
    for (count, end, fits) in LIMITS {
        let mut text = vec![in rt.alloc(); b'a'; count]?;
        let mut want = Vec::new(rt.alloc());
        if fits {
            want.extend_from_slice(&text)?;
            want.extend_from_slice(b"|b|")?;
        } else {
            want.extend_from_slice(b"*|b|")?;
        }
        text.extend_from_slice(end)?;
        for step in [1, 65_536, 1_000_000] {
            let seen = answers(&rt, rt.alloc(), &text, step)?;
            assert!(rt;
                seen.as_slice() == want.as_slice(),
                "{count} in pieces of {step}"
            );
        }
    }
    Ok(())
}

#[test]
fn takes_no_more_than_a_line(rt: HostRuntime) -> Result<(), Fail> {
    let mut cutter = LineCutter::new(rt.alloc())?;
    let mut at = 0;
    assert_eq!(rt; cutter.feed(b"", &mut at), Cut::Used);
    assert_eq!(rt; at, 0);
    at = 2;
    assert_eq!(rt; cutter.feed(b"a\nbc\nd\n", &mut at), Cut::Line);
    assert_eq!(rt; at, 5);
    assert_eq!(rt; cutter.begun(), 0);
    at = 7;
    assert_eq!(rt; cutter.feed(b"a\nbc\nd\n", &mut at), Cut::Used);
    assert_eq!(rt; at, 7);
    at = 4;
    assert_eq!(rt; cutter.feed(b"a\nbc d", &mut at), Cut::Used);
    assert_eq!(rt; cutter.begun(), 2);
    let line = vec![in rt.alloc(); b'a'; 524_286]?;
    at = 0;
    assert_eq!(rt; cutter.feed(&line, &mut at), Cut::Used);
    assert_eq!(rt; cutter.begun(), 524_287);
    Ok(())
}
