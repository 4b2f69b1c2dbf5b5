//! The sink for tests.

ghost use Rattle.std.specs.Prelude.{◌≤◌, length};

use crate::device::calls::Calls;
use crate::device::{DeviceFault, Sink};

/// A sink over lent bytes, for tests: it takes what it is given in pieces, fails from the call that it is
/// told, and stalls where it has no room. It allocates nothing.
#[derive(Drop)]
pub struct Tape<'a> {
    bytes: &'a mut [u8],
    at: usize,
    flushed: usize,
    piece: usize,
    calls: Calls,
    ghost in_range: { at ≤ length bytes.now },
    ghost in_taken: { flushed ≤ at },
}

impl<'a> Tape<'a> {
    ghost use Rattle.std.specs.Prelude.{◌≡◌, ◌-◌, [], length};
    ghost use Rattle.dir_ldif.specs.TestDevices.{flushed_by, room_of, tape_failures, tape_good_calls, tape_piece, taken_by};

    /// Takes what there is room for in `bytes`, and then no more.
    pub fn new(bytes: &'a mut [u8]) -> Tape<'a>
        ensures taken { (taken_by result ≡ []) × (flushed_by result ≡ []) }
        ensures room { room_of result ≡ length bytes.old }
        ensures calls { (tape_failures result ≡ 0) × (tape_good_calls result ≡ u64.MAX) }
        ensures piece { tape_piece result ≡ usize.MAX }
    {
        Tape {
            bytes,
            at: 0,
            flushed: 0,
            piece: usize::MAX,
            calls: Calls::ALL_GOOD,
        }
    }

    /// At most `size` bytes in a call.
    pub fn pieces(mut self, size: usize) -> Tape<'a>
        ensures taken { (taken_by result ≡ taken_by self.entry) × (flushed_by result ≡ flushed_by self.entry) }
        ensures room { room_of result ≡ room_of self.entry }
        ensures calls { (tape_failures result ≡ tape_failures self.entry) × (tape_good_calls result ≡ tape_good_calls self.entry) }
        ensures piece { tape_piece result ≡ size }
    {
        self.piece = size;
        self
    }

    /// Fails from this call on; the first call, a write or a flush, is 1.
    pub fn failing_from(mut self, call: u64) -> Tape<'a>
        ensures taken { (taken_by result ≡ taken_by self.entry) × (flushed_by result ≡ flushed_by self.entry) }
        ensures room { room_of result ≡ room_of self.entry }
        ensures calls { (tape_failures result ≡ 0) × (tape_good_calls result ≡ call - 1) }
        ensures piece { tape_piece result ≡ tape_piece self.entry }
    {
        self.calls = Calls::failing_from(call);
        self
    }

    /// What was taken.
    pub fn as_slice(&self) -> &[u8]
        ensures { result.now ≡ taken_by self.now }
    {
        &self.bytes[..self.at]
    }

    /// What had been taken at the last flush that did not fail.
    pub fn flushed(&self) -> &[u8]
        ensures { result.now ≡ flushed_by self.now }
    {
        &self.bytes[..self.flushed]
    }
}

impl Sink for Tape<'_> {
    ghost use Rattle.std.specs.Prelude.{◌≡◌, ◌-◌, ◌<◌, ◌≤◌, ◌⊎◌, ◌↔◌, IfOk, IsErr, MatchResult, OnErr, OnOk, Some, length, min};
    ghost use Rattle.std.specs.Io.KnownBytes.{Keeps, WriteAppends};
    ghost use Rattle.dir_ldif.specs.Device.{Counts};
    ghost use Rattle.dir_ldif.specs.TestDevices.{flushed_by, room_of, tape_failures, tape_good_calls, tape_piece, taken_by};
    ghost use Rattle.dir_ldif.specs.TestDevices.{calls_after};

    ghost taken = { λ t. Some (taken_by t) };

    ghost failures = { tape_failures };

    ghost may_stall = { λ t. (room_of t ≡ 0) ⊎ (tape_piece t ≡ 0) };

    ghost is_flushed = { λ t. flushed_by t ≡ taken_by t };

    fn write(&mut self, bytes: &[u8]) -> Result<usize, DeviceFault>
        ensures bound { IfOk result (λ n. n ≤ length bytes.now) }
        ensures bytes { WriteAppends (Some (taken_by self.old)) (Some (taken_by self.new)) result bytes.now }
        ensures count { Counts result (tape_failures self.old) (tape_failures self.new) }
        ensures stalls { IfOk result (λ n. n ≡ 0 → 0 < length bytes.now → (room_of self.new ≡ 0) ⊎ (tape_piece self.new ≡ 0)) }
        ensures fails { IsErr result ↔ (tape_good_calls self.old ≡ 0) }
        ensures calls { tape_good_calls self.new ≡ calls_after (tape_good_calls self.old) }
        ensures size { tape_piece self.new ≡ tape_piece self.old }
        ensures room { MatchResult result (λ n. room_of self.new ≡ room_of self.old - n) (λ _. room_of self.new ≡ room_of self.old) }
        ensures piece { IfOk result (λ n. n ≡ min (min (tape_piece self.old) (length bytes.now)) (room_of self.old)) }
        ensures unflushed { flushed_by self.new ≡ flushed_by self.old }
    {
        if self.calls.fails() {
            return Err(DeviceFault);
        }
        let n = self.piece.min(bytes.len()).min(self.bytes.len() - self.at);
        let at = self.at;
        self.bytes[at..at + n].copy_from_slice(&bytes[..n]);
        self.at += n;
        Ok(n)
    }

    fn flush(&mut self) -> Result<(), DeviceFault>
        ensures bytes { Keeps (Some (taken_by self.old)) (Some (taken_by self.new)) }
        ensures count { Counts result (tape_failures self.old) (tape_failures self.new) }
        ensures passed { OnOk result (flushed_by self.new ≡ taken_by self.new) }
        ensures unflushed { OnErr result (flushed_by self.new ≡ flushed_by self.old) }
        ensures fails { IsErr result ↔ (tape_good_calls self.old ≡ 0) }
        ensures calls { tape_good_calls self.new ≡ calls_after (tape_good_calls self.old) }
        ensures size { tape_piece self.new ≡ tape_piece self.old }
        ensures room { room_of self.new ≡ room_of self.old }
    {
        if self.calls.fails() {
            return Err(DeviceFault);
        }
        self.flushed = self.at;
        Ok(())
    }
}
