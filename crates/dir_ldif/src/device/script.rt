//! The source for tests.

ghost use Rattle.std.specs.Prelude.{◌<◌, ◌≤◌, length};

use crate::device::calls::Calls;
use crate::device::{DeviceFault, Source};

/// A source over lent bytes, for tests: it gives them in pieces, and fails from the call that it is told. It
/// allocates nothing.
#[derive(Drop)]
pub struct Script<'a> {
    bytes: &'a [u8],
    at: usize,
    first: usize,
    piece: usize,
    endless: bool,
    calls: Calls,
    ghost in_range: { at ≤ length bytes.now },
    ghost some_first: { 0 < first },
    ghost some_piece: { 0 < piece },
}

impl<'a> Script<'a> {
    ghost use Rattle.std.specs.Prelude.{◌≡◌, ◌++◌, ◌-◌, ◌<◌, ◌≤◌, ℕ, [], None, Some, drop, false, length, max, take, true};
    ghost use Rattle.std.specs.List.{repeat};
    ghost use Rattle.dir_ldif.specs.TestDevices.{failures_of, first_size, good_calls, is_endless, left_of, piece_size, rest_and_turns};

    /// Gives all bytes, as many in a call as there is room for.
    pub fn new(bytes: &'a [u8]) -> Script<'a>
        ensures left { left_of result ≡ Some bytes.now }
        ensures turns { (is_endless result ≡ false) × ((n : ℕ) → rest_and_turns n result ≡ bytes.now ++ repeat n bytes.now) }
        ensures calls { (failures_of result ≡ 0) × (good_calls result ≡ u64.MAX) }
        ensures pieces { (first_size result ≡ usize.MAX) × (piece_size result ≡ usize.MAX) }
    {
        Script {
            bytes,
            at: 0,
            first: usize::MAX,
            piece: usize::MAX,
            endless: false,
            calls: Calls::ALL_GOOD,
        }
    }

    /// At most `size` bytes in a call, but at least one.
    pub fn pieces(mut self, size: usize) -> Script<'a>
        ensures left { left_of result ≡ left_of self.entry }
        ensures turns { (is_endless result ≡ is_endless self.entry) × ((n : ℕ) → rest_and_turns n result ≡ rest_and_turns n self.entry) }
        ensures calls { (failures_of result ≡ failures_of self.entry) × (good_calls result ≡ good_calls self.entry) }
        ensures pieces { (first_size result ≡ max size 1) × (piece_size result ≡ max size 1) }
    {
        let size = size.max(1);
        self.first = size;
        self.piece = size;
        self
    }

    /// At most `size` bytes in the first call, but at least one.
    pub fn first_piece(mut self, size: usize) -> Script<'a>
        ensures left { left_of result ≡ left_of self.entry }
        ensures turns { (is_endless result ≡ is_endless self.entry) × ((n : ℕ) → rest_and_turns n result ≡ rest_and_turns n self.entry) }
        ensures calls { (failures_of result ≡ failures_of self.entry) × (good_calls result ≡ good_calls self.entry) }
        ensures pieces { (first_size result ≡ max size 1) × (piece_size result ≡ piece_size self.entry) }
    {
        self.first = size.max(1);
        self
    }

    /// The bytes over and over, without end.
    pub fn endless(mut self) -> Script<'a>
        ensures left { left_of result ≡ None }
        ensures turns { (is_endless result ≡ true) × ((n : ℕ) → rest_and_turns n result ≡ rest_and_turns n self.entry) }
        ensures calls { (failures_of result ≡ failures_of self.entry) × (good_calls result ≡ good_calls self.entry) }
        ensures pieces { (first_size result ≡ first_size self.entry) × (piece_size result ≡ piece_size self.entry) }
    {
        self.endless = true;
        self
    }

    /// Fails from this call on; the first call is 1.
    pub fn failing_from(mut self, call: u64) -> Script<'a>
        ensures left { left_of result ≡ left_of self.entry }
        ensures turns { (is_endless result ≡ is_endless self.entry) × ((n : ℕ) → rest_and_turns n result ≡ rest_and_turns n self.entry) }
        ensures calls { (failures_of result ≡ 0) × (good_calls result ≡ call - 1) }
        ensures pieces { (first_size result ≡ first_size self.entry) × (piece_size result ≡ piece_size self.entry) }
    {
        self.calls = Calls::failing_from(call);
        self
    }

    /// Begins the text again where nothing of it is left.
    fn begin_again(&mut self)
        ensures turns { (n : ℕ) → (m : ℕ) × (rest_and_turns m self.old ≡ rest_and_turns n self.new) }
        ensures some { drop self.new.at self.new.bytes.now ≡ [] → self.old.bytes.now ≡ [] }
        ensures text { self.new.bytes.now ≡ self.old.bytes.now }
        ensures calls { self.new.calls ≡ self.old.calls }
        ensures endless { self.new.endless ≡ self.old.endless }
        ensures pieces { (self.new.first ≡ self.old.first) × (self.new.piece ≡ self.old.piece) }
    {
        if self.at == self.bytes.len() {
            self.at = 0;
        }
    }

    /// Gives the next piece, and answers its length.
    fn give(&mut self, buffer: &mut [u8]) -> usize
        ensures bound { result ≤ length buffer.new }
        ensures bytes { drop self.old.at self.old.bytes.now ≡ take result buffer.new ++ drop self.new.at self.new.bytes.now }
        ensures end { result ≡ 0 → 0 < length buffer.new → drop self.new.at self.new.bytes.now ≡ [] }
        ensures text { self.new.bytes.now ≡ self.old.bytes.now }
        ensures calls { self.new.calls ≡ self.old.calls }
        ensures endless { self.new.endless ≡ self.old.endless }
        ensures pieces { (result ≤ self.old.first) × (self.new.first ≡ self.old.piece) × (self.new.piece ≡ self.old.piece) }
    {
        let n = self.first.min(buffer.len()).min(self.bytes.len() - self.at);
        buffer[..n].copy_from_slice(&self.bytes[self.at..self.at + n]);
        self.at += n;
        self.first = self.piece;
        n
    }
}

impl Source for Script<'_> {
    ghost use Rattle.std.specs.Prelude.{◌≡◌, ◌++◌, ◌<◌, ◌≤◌, ◌↔◌, ℕ, [], ⊤, IfOk, IsErr, IsTrue, MatchResult, OnErr, length, take};
    ghost use Rattle.std.specs.Io.KnownBytes.{ReadConsumes};
    ghost use Rattle.dir_ldif.specs.Device.{Counts};
    ghost use Rattle.dir_ldif.specs.TestDevices.{calls_after, failures_of, first_size, good_calls, is_endless, left_of, piece_size, rest_and_turns};

    ghost left = { left_of };

    ghost failures = { failures_of };

    ghost is_same = { λ _ _. ⊤ };

    ghost same_refl = { λ _. tt };

    ghost same_trans = { λ _ _ _ _ _. tt };

    fn read(&mut self, buffer: &mut [u8]) -> Result<usize, DeviceFault>
        ensures bound { IfOk result (λ n. n ≤ length buffer.new) }
        ensures bytes { ReadConsumes (left_of self.old) (left_of self.new) result buffer.new }
        ensures count { Counts result (failures_of self.old) (failures_of self.new) }
        ensures same { ⊤ }
        ensures fails { IsErr result ↔ (good_calls self.old ≡ 0) }
        ensures calls { good_calls self.new ≡ calls_after (good_calls self.old) }
        ensures pieces { MatchResult result (λ n. (n ≤ first_size self.old) × (first_size self.new ≡ piece_size self.old)) (λ _. first_size self.new ≡ first_size self.old) }
        ensures size { piece_size self.new ≡ piece_size self.old }
        ensures endless { is_endless self.new ≡ is_endless self.old }
        ensures turns { IsTrue (is_endless self.old) → IfOk result (λ k. (n : ℕ) → (m : ℕ) × (rest_and_turns m self.old ≡ take k buffer.new ++ rest_and_turns n self.new)) }
        ensures some { IsTrue (is_endless self.old) → IfOk result (λ k. k ≡ 0 → 0 < length buffer.new → (n : ℕ) → rest_and_turns n self.old ≡ []) }
        ensures stays { OnErr result ((n : ℕ) → rest_and_turns n self.new ≡ rest_and_turns n self.old) }
    {
        if self.calls.fails() {
            return Err(DeviceFault);
        }
        if self.endless {
            self.begin_again();
            return Ok(self.give(buffer));
        }
        Ok(self.give(buffer))
    }
}
