ghost use Rattle.std.specs.Prelude.{◌≡◌, ℕ, ◌+◌, ◌-◌, ◌<◌, ◌≤◌, ◌↔◌, ◌⊎◌, ◌&&◌, min, true, [], ◌++◌, length, take, drop, Some, IfOk, OnOk, OnErr, IsErr, Contains};
ghost use Rattle.std.specs.Io.{ReadsAtMost, WritesAtMost};
ghost use Rattle.std.specs.Io.KnownBytes.{ReadConsumes};
ghost use Rattle.bfm_base.specs.Faults.{one_more};
ghost use Rattle.bfm_base.specs.Account.{TookAll, FailedCall, Flushes, is_empty};
ghost use Rattle.bfm_base.specs.Memory.{account_of, IsFullFor};

use crate::stream::{Failed, Sink, Source};
use std::alloc::{AllocError, Global};
use std::marker::Model;

/// A source over memory, which tests hand to what reads. It fails in the calls that it is told.
#[derive(Drop)]
pub struct MemSource {
    bytes: Vec<u8>,
    at: usize,
    step: usize,
    fail: Vec<u64>,
    calls: u64,
    faults: u64,
}

impl Model for MemSource {
    ghost use Rattle.std.specs.Prelude.{◌≤◌, ◌<◌, ◌^◌, vec_len, drop};
    ghost use Rattle.bfm_base.specs.Memory.{Supply};

    ghost Value = { Supply };

    ghost view = { λ s. record { left = drop s.at s.bytes.items; step = s.step; failing = s.fail.items; calls = s.calls; faults = s.faults } };

    ghost invariant = { λ s. (s.at ≤ vec_len s.bytes) × (0 < s.step) };
}

impl MemSource {
    /// A source of these bytes that gives at most `step` of them a call, and fails in the calls
    /// whose numbers, from 1, are in `fail`.
    pub fn new(
        alloc: Global,
        bytes: &[u8],
        step: usize,
        fail: &[u64],
    ) -> Result<MemSource, AllocError>
        requires { 0 < step }
        ensures { IfOk result (λ source. source ≡ record { left = bytes.now; step = step; failing = fail.now; calls = 0; faults = 0 }) }
    {
        Ok(MemSource {
            bytes: Vec::from_slice(alloc, bytes)?,
            at: 0,
            step,
            fail: Vec::from_slice(alloc, fail)?,
            calls: 0,
            faults: 0,
        })
    }
}

impl Source for MemSource {
    ghost use Rattle.std.specs.Prelude.{Some};

    ghost left = { λ s. Some s.left };

    ghost faults = { λ s. s.faults };

    fn read(&mut self, into: &mut [u8]) -> Result<usize, Failed>
        ensures bound { ReadsAtMost result into.new }
        ensures bytes { ReadConsumes (Some self.old.left) (Some self.new.left) result into.new }
        ensures fails { IsErr result ↔ Contains self.old.failing (one_more self.old.calls) }
        ensures never_falls { self.old.faults ≤ self.new.faults }
        ensures ok { IfOk result (λ n.
            (n ≡ min self.old.step (min (length into.old) (length self.old.left)))
            × (self.new ≡ record self.old { left = drop n self.old.left; calls = one_more self.old.calls })) }
        ensures err { OnErr result
            (self.new ≡ record self.old { calls = one_more self.old.calls; faults = one_more self.old.faults }) }
    {
        self.calls = self.calls.saturating_add(1);
        if self.fail.contains(&self.calls) {
            self.faults = self.faults.saturating_add(1);
            return Err(Failed);
        }
        let given = self.step.min(into.len().min(self.bytes.len() - self.at));
        let end = self.at + given;
        into[..given].copy_from_slice(&self.bytes[self.at..end]);
        self.at = end;
        Ok(given)
    }
}

/// A sink over memory, which tests hand to what writes. It fails in the calls that it is told, and
/// where its room is used up.
#[derive(Drop)]
pub struct MemSink {
    bytes: Vec<u8>,
    flushed: bool,
    room: usize,
    step: usize,
    fail: Vec<u64>,
    calls: u64,
    faults: u64,
}

impl Model for MemSink {
    ghost use Rattle.std.specs.Prelude.{◌≤◌, ◌<◌, vec_len, vec_capacity};
    ghost use Rattle.bfm_base.specs.Memory.{Store};

    ghost Value = { Store };

    ghost view = { λ s. record { taken = s.bytes.items; flushed = s.flushed; room = s.room; step = s.step; failing = s.fail.items; calls = s.calls; faults = s.faults } };

    ghost invariant = { λ s. (vec_len s.bytes ≤ s.room) × (s.room ≤ vec_capacity s.bytes) × (0 < s.step) };
}

impl MemSink {
    /// A sink with room for `room` bytes in all, which takes at most `step` of them a call. It
    /// fails in the calls whose numbers, from 1 and over `write` and `flush` together, are in
    /// `fail`.
    pub fn new(alloc: Global, room: usize, step: usize, fail: &[u64]) -> Result<MemSink, AllocError>
        requires { 0 < step }
        ensures { IfOk result (λ sink. sink ≡ record { taken = []; flushed = true; room = room; step = step; failing = fail.now; calls = 0; faults = 0 }) }
    {
        Ok(MemSink {
            bytes: Vec::with_capacity(alloc, room)?,
            flushed: true,
            room,
            step,
            fail: Vec::from_slice(alloc, fail)?,
            calls: 0,
            faults: 0,
        })
    }

    /// The bytes that it took.
    pub fn bytes(&self) -> &[u8]
        ensures { result.now ≡ self.now.taken }
    {
        &self.bytes
    }
}

impl Sink for MemSink {
    ghost use Rattle.bfm_base.specs.Memory.{account_of};

    ghost account = { account_of };

    fn write(&mut self, from: &[u8]) -> Result<usize, Failed>
        ensures bound { WritesAtMost result from.now }
        ensures moves { IfOk result (λ n. 0 < length from.now → 0 < n) }
        ensures taken { IfOk result (λ n. TookAll (account_of self.old) (account_of self.new) (take n from.now)) }
        ensures failed { OnErr result (FailedCall (account_of self.old) (account_of self.new)) }
        ensures fails { IsErr result ↔ (Contains self.old.failing (one_more self.old.calls) ⊎ IsFullFor self.old from.now) }
        ensures count { IfOk result (λ n. n ≡ min self.old.step (min (self.old.room - length self.old.taken) (length from.now))) }
        ensures ok { IfOk result (λ n. self.new ≡ record self.old {
          taken = self.old.taken ++ take n from.now;
          flushed = self.old.flushed && is_empty (take n from.now);
          calls = one_more self.old.calls;
        }) }
        ensures err { OnErr result
            (self.new ≡ record self.old { calls = one_more self.old.calls; faults = one_more self.old.faults }) }
    {
        self.calls = self.calls.saturating_add(1);
        let left = self.room - self.bytes.len();
        if self.fail.contains(&self.calls) || (left == 0 && !from.is_empty()) {
            self.faults = self.faults.saturating_add(1);
            return Err(Failed);
        }
        let taken = &from[..self.step.min(left.min(from.len()))];
        self.bytes.extend_from_slice(taken).unwrap();
        self.flushed = self.flushed && taken.is_empty();
        Ok(taken.len())
    }

    fn flush(&mut self) -> Result<(), Failed>
        ensures flushed { OnOk result (Flushes (account_of self.old) (account_of self.new)) }
        ensures failed { OnErr result (FailedCall (account_of self.old) (account_of self.new)) }
        ensures fails { IsErr result ↔ Contains self.old.failing (one_more self.old.calls) }
        ensures ok { OnOk result (self.new ≡ record self.old { flushed = true; calls = one_more self.old.calls }) }
        ensures err { OnErr result
            (self.new ≡ record self.old { calls = one_more self.old.calls; faults = one_more self.old.faults }) }
    {
        self.calls = self.calls.saturating_add(1);
        if self.fail.contains(&self.calls) {
            self.faults = self.faults.saturating_add(1);
            return Err(Failed);
        }
        self.flushed = true;
        Ok(())
    }
}
