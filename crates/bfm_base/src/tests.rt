ghost use Rattle.std.specs.Prelude.{◌≤◌, IfOk};

use crate::{Cause, Dir, MemSink, MemSource, P3, Sink, Source, StdSink, StdSource, send};
use std::io;
use std::io::{Read, Write};
use std::test::Fail;

#[test]
fn names_and_numbers_of_causes(rt: HostRuntime) {
    let table = [
        (Cause::BadLine, 1, "BadLine"),
        (Cause::NotSymmetric, 5, "NotSymmetric"),
        (Cause::Outside, 12, "Outside"),
        (Cause::Overlap, 13, "Overlap"),
        (Cause::NoFrame, 18, "NoFrame"),
        (Cause::Unbuilt, 19, "Unbuilt"),
    ];
    for (cause, number, name) in table {
        assert_eq!(rt; cause.number(), number);
        assert_eq!(rt; cause.name(), name);
    }
    assert_eq!(rt; Dir::of(2).step(), P3 { x: 0, y: 1, z: 0 });
    assert_eq!(rt; Dir::of(5).step(), P3 { x: 0, y: 0, z: -1 });
}

#[test]
fn a_source_gives_pieces_and_fails_when_told(rt: HostRuntime) -> Result<(), Fail> {
    let mut source = MemSource::new(rt.alloc(), b"abcde", 3, &[2])?;
    let mut piece = [0u8; 4];
    assert!(rt; source.read(&mut piece) == Ok(3));
    assert_eq!(rt; piece, *b"abc\0");
    assert!(rt; source.read(&mut piece).is_err());
    assert!(rt; source.read(&mut piece) == Ok(2));
    assert_eq!(rt; piece, *b"dec\0");
    assert!(rt; source.read(&mut piece) == Ok(0));
    Ok(())
}

#[test]
fn a_sink_takes_pieces_and_fails_when_told(rt: HostRuntime) -> Result<(), Fail> {
    // (room, step, failing calls, what is sent, whether all of it is taken, what was taken)
    let table: [(usize, usize, &[u64], bool, &[u8]); 5] = [
        (9, 9, &[], true, b"abcde"),
        (5, 1, &[], true, b"abcde"),
        (9, 2, &[3], false, b"abcd"),
        (9, 9, &[1], false, b""),
        (4, 9, &[], false, b"abcd"),
    ];
    for (room, step, fail, whole, taken) in table {
        assert!(rt; step > 0);
        let mut sink = MemSink::new(rt.alloc(), room, step, fail)?;
        assert_eq!(rt; send(&mut sink, b"abcde").is_ok(), whole);
        assert!(rt; sink.bytes() == taken);
    }
    let mut sink = MemSink::new(rt.alloc(), 0, 1, &[2])?;
    assert!(rt; sink.write(b"") == Ok(0));
    assert!(rt; sink.flush().is_err());
    assert!(rt; sink.flush().is_ok());
    Ok(())
}

/// A reader or a writer that passes on at most two bytes a call, and fails once so many calls were
/// made.
#[derive(Drop)]
struct Halting {
    calls: usize,
}

impl Halting {
    fn pass(&mut self, most: usize) -> io::Result<usize>
        ensures { IfOk result (λ n. n ≤ most) }
    {
        if self.calls == 0 {
            return Err(io::Error::from(io::ErrorKind::BrokenPipe));
        }
        self.calls -= 1;
        Ok(most.min(2))
    }
}

impl Read for Halting {
    fn read(&mut self, buf: &mut [u8]) -> io::Result<usize> {
        self.pass(buf.len())
    }
}

impl Write for Halting {
    fn write(&mut self, buf: &[u8]) -> io::Result<usize> {
        self.pass(buf.len())
    }

    fn flush(&mut self) -> io::Result<()> {
        self.pass(0)?;
        Ok(())
    }
}

/// A writer that takes nothing.
#[derive(Drop)]
struct Full;

impl Write for Full {
    fn write(&mut self, _buf: &[u8]) -> io::Result<usize> {
        Ok(0)
    }

    fn flush(&mut self) -> io::Result<()> {
        Ok(())
    }
}

#[test]
fn adapters_of_std_pass_bytes_and_faults_on(rt: HostRuntime) -> Result<(), Fail> {
    let mut piece = [0u8; 3];
    let mut source = StdSource::new(b"abcd".as_slice());
    assert!(rt; source.read(&mut piece) == Ok(3));
    assert_eq!(rt; piece, *b"abc");
    assert!(rt; source.read(&mut piece) == Ok(1));
    assert!(rt; source.read(&mut piece) == Ok(0));
    let mut halting = StdSource::new(Halting { calls: 1 });
    assert!(rt; halting.read(&mut piece) == Ok(2));
    assert!(rt; halting.read(&mut piece).is_err());
    let mut sink = StdSink::new(Vec::new(rt.alloc()));
    assert!(rt; sink.write(b"xyz") == Ok(3));
    assert!(rt; sink.flush().is_ok());
    let mut halting = StdSink::new(Halting { calls: 3 });
    assert!(rt; halting.write(b"xyz") == Ok(2));
    assert!(rt; halting.write(b"z") == Ok(1));
    assert!(rt; halting.flush().is_ok());
    assert!(rt; halting.write(b"x").is_err());
    assert!(rt; halting.flush().is_err());
    assert!(rt; send(&mut StdSink::new(Halting { calls: 3 }), b"abcde").is_ok());
    assert!(rt; send(&mut StdSink::new(Halting { calls: 2 }), b"abcde").is_err());
    let mut full = StdSink::new(Full);
    assert!(rt; full.write(b"") == Ok(0));
    assert!(rt; full.write(b"x").is_err());
    Ok(())
}
