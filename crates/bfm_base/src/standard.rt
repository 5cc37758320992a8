ghost use Rattle.std.specs.Prelude.{◌≡◌, ◌<◌, ◌≤◌, true, length, take, IfOk, OnOk, OnErr};
ghost use Rattle.std.specs.Io.{ReadsAtMost, WritesAtMost};
ghost use Rattle.std.specs.Io.KnownBytes.{ReadConsumes};
ghost use Rattle.bfm_base.specs.Faults.{Rose, one_more};
ghost use Rattle.bfm_base.specs.Account.{TookAll, FailedCall, Flushes, account_by};

use crate::stream::{Failed, Sink, Source};
use std::io::{Read, Write};

/// A reader of std as a source. It counts its faults, and tells the bytes that are left where the
/// reader tells them.
#[derive(Drop)]
pub struct StdSource<R: Read + Drop> {
    reader: R,
    faults: u64,
}

impl<R: Read + Drop> StdSource<R> {
    /// Takes the reader, with no fault counted.
    pub fn new(reader: R) -> StdSource<R>
        ensures { result ≡ record { reader = reader; faults = 0 } }
    {
        StdSource { reader, faults: 0 }
    }
}

impl<R: Read + Drop> Source for StdSource<R> {
    ghost left = { λ s. R.remaining s.reader };

    ghost faults = { λ s. s.faults };

    fn read(&mut self, into: &mut [u8]) -> Result<usize, Failed>
        ensures bound { ReadsAtMost result into.new }
        ensures bytes { ReadConsumes (R.remaining self.old.reader) (R.remaining self.new.reader) result into.new }
        ensures calm { OnOk result (self.new.faults ≡ self.old.faults) }
        ensures counted { OnErr result (self.new.faults ≡ one_more self.old.faults) }
        ensures rose { OnErr result (Rose self.old.faults self.new.faults) }
        ensures never_falls { self.old.faults ≤ self.new.faults }
    {
        match self.reader.read(into) {
            Ok(given) => Ok(given),
            Err(_) => {
                self.faults = self.faults.saturating_add(1);
                Err(Failed)
            }
        }
    }
}

/// A writer of std as a sink. It counts its faults, knows whether it was flushed since it last took
/// bytes, and tells the bytes that it took where the writer tells them.
#[derive(Drop)]
pub struct StdSink<W: Write + Drop> {
    writer: W,
    faults: u64,
    flushed: bool,
}

impl<W: Write + Drop> StdSink<W> {
    /// Takes the writer, with no fault counted and nothing to flush.
    pub fn new(writer: W) -> StdSink<W>
        ensures { result ≡ record { writer = writer; faults = 0; flushed = true } }
    {
        StdSink {
            writer,
            faults: 0,
            flushed: true,
        }
    }
}

impl<W: Write + Drop> Sink for StdSink<W> {
    ghost account = { λ s. account_by (W.contents s.writer) s.faults s.flushed };

    // A writer that takes nothing of a piece that is not empty would hold up the program for good,
    // so this counts as a fault.
    fn write(&mut self, from: &[u8]) -> Result<usize, Failed>
        ensures bound { WritesAtMost result from.now }
        ensures moves { IfOk result (λ n. 0 < length from.now → 0 < n) }
        ensures taken { IfOk result (λ n. TookAll (account_by (W.contents self.old.writer) self.old.faults self.old.flushed)
            (account_by (W.contents self.new.writer) self.new.faults self.new.flushed) (take n from.now)) }
        ensures failed { OnErr result (FailedCall (account_by (W.contents self.old.writer) self.old.faults self.old.flushed)
            (account_by (W.contents self.new.writer) self.new.faults self.new.flushed)) }
        ensures counted { OnErr result (self.new.faults ≡ one_more self.old.faults) }
    {
        match self.writer.write(from) {
            Ok(taken) if taken > 0 || from.is_empty() => {
                self.flushed = self.flushed && taken == 0;
                Ok(taken)
            }
            _ => {
                self.faults = self.faults.saturating_add(1);
                Err(Failed)
            }
        }
    }

    fn flush(&mut self) -> Result<(), Failed>
        ensures flushed { OnOk result (Flushes (account_by (W.contents self.old.writer) self.old.faults self.old.flushed)
            (account_by (W.contents self.new.writer) self.new.faults self.new.flushed)) }
        ensures failed { OnErr result (FailedCall (account_by (W.contents self.old.writer) self.old.faults self.old.flushed)
            (account_by (W.contents self.new.writer) self.new.faults self.new.flushed)) }
        ensures counted { OnErr result (self.new.faults ≡ one_more self.old.faults) }
    {
        match self.writer.flush() {
            Ok(()) => {
                self.flushed = true;
                Ok(())
            }
            Err(_) => {
                self.faults = self.faults.saturating_add(1);
                Err(Failed)
            }
        }
    }
}
