//! The greatest size of a file that the system lets this process write (`RLIMIT_FSIZE` of getrlimit(2)). A write past it
//! would end the program by a signal, so no such write is made.

ghost use Rattle.std.specs.Prelude.{◌≡◌, ◌+◌, ◌<◌, ◌≤◌, ◌⊎◌, IfOk, OnErr, length};
ghost use Rattle.std.specs.Io.KnownBytes.{WriteAppends};
ghost use Rattle.dir_ldif.specs.Device.{Counts};

use crate::devices::write_at_most;
use crate::proc::{ROOM, told};
use dir_ldif::{DeviceFault, Sink};
use std::fs;
use std::rt::Files;

/// Where the system tells the limits of this process.
const LIMITS: &str = "/proc/self/limits";

/// The name of the limit there. What counts is in the next column, in bytes, or `unlimited`.
const FILE_SIZE: &str = "Max file size";

/// The file that standard output is.
const OUTPUT: &str = "/proc/self/fd/1";

/// Where the system tells how that file is open.
const OPEN_OUTPUT: &str = "/proc/self/fdinfo/1";

/// Among its flags, which are in octal, the one of a file that is appended to (`O_APPEND` of open(2)).
const APPENDED: u64 = 0o2000;

/// The greatest size of a file, in bytes: the greatest number where no limit is told.
pub fn largest_file<R: Files>(rt: &R) -> u64 {
    told_limit(rt).unwrap_or(u64::MAX)
}

fn told_limit<R: Files>(rt: &R) -> Option<u64> {
    let mut room = [0u8; ROOM];
    limit_in(told(rt, LIMITS, &mut room)?)
}

fn limit_in(text: &str) -> Option<u64> {
    let columns = text.lines().find_map(|line| line.strip_prefix(FILE_SIZE))?;
    columns.split_ascii_whitespace().next()?.parse::<u64>().ok()
}

/// How many bytes standard output takes: the greatest number where it is no regular file, and where the system doesn't
/// tell at which place of the file the next byte is written.
pub fn room_of_output<R: Files>(rt: &R) -> u64 {
    match end_of_output(rt) {
        Some(end) => largest_file(rt).saturating_sub(end),
        None => u64::MAX,
    }
}

/// The bytes of the regular file that standard output is, before the next one that is written.
fn end_of_output<R: Files>(rt: &R) -> Option<u64> {
    let file = fs::metadata(rt, OUTPUT).ok()?;
    if !file.is_file() {
        return None;
    }
    let mut room = [0u8; ROOM];
    let (position, flags) = position_and_flags_in(told(rt, OPEN_OUTPUT, &mut room)?)?;
    if flags & APPENDED == 0 {
        Some(position)
    } else {
        Some(file.len())
    }
}

fn position_and_flags_in(text: &str) -> Option<(u64, u64)> {
    let position = text.lines().find_map(|line| line.strip_prefix("pos:"))?;
    let flags = text.lines().find_map(|line| line.strip_prefix("flags:"))?;
    Some((
        position.trim_ascii().parse::<u64>().ok()?,
        u64::from_str_radix(flags.trim_ascii(), 8).ok()?,
    ))
}

/// A sink that takes no more than a limit.
#[derive(Drop)]
pub struct LimitedWriter<W> {
    inner: W,
    room: u64,
}

impl<W: Sink> LimitedWriter<W> {
    pub fn new(inner: W, limit: u64) -> LimitedWriter<W>
        ensures taken { ⟦<LimitedWriter<W> as Sink>⟧.taken result ≡ W.taken inner }
        ensures failures { ⟦<LimitedWriter<W> as Sink>⟧.failures result ≡ W.failures inner }
        ensures room { result.room ≡ limit }
    {
        LimitedWriter { inner, room: limit }
    }

    pub fn inner(&self) -> &W
        ensures taken { W.taken result.now ≡ ⟦<LimitedWriter<W> as Sink>⟧.taken self.now }
        ensures failures { W.failures result.now ≡ ⟦<LimitedWriter<W> as Sink>⟧.failures self.now }
    {
        &self.inner
    }

    /// Writes a text's first bytes, no more than there is room for.
    fn write_within(&mut self, bytes: &[u8]) -> Result<usize, DeviceFault>
        ensures bound { IfOk result (λ n. (n ≤ length bytes.now) × (n ≤ self.old.room)) }
        ensures room { IfOk result (λ n. self.new.room + n ≡ self.old.room) }
        ensures kept { OnErr result (self.new.room ≡ self.old.room) }
        ensures bytes { WriteAppends (W.taken self.old.inner) (W.taken self.new.inner) result bytes.now }
        ensures count { Counts result (W.failures self.old.inner) (W.failures self.new.inner) }
        ensures stalls { IfOk result (λ n. n ≡ 0 → 0 < length bytes.now → (self.new.room ≡ 0) ⊎ W.may_stall self.new.inner) }
    {
        let most = usize::try_from(self.room).unwrap_or(usize::MAX);
        let n = write_at_most(&mut self.inner, bytes, most)?;
        self.room -= n as u64;
        Ok(n)
    }
}

impl<W: Sink> Sink for LimitedWriter<W> {
    ghost taken = { λ s. W.taken s.inner };

    ghost failures = { λ s. W.failures s.inner };

    ghost may_stall = { λ s. (s.room ≡ 0) ⊎ W.may_stall s.inner };

    ghost is_flushed = { λ s. W.is_flushed s.inner };

    fn write(&mut self, bytes: &[u8]) -> Result<usize, DeviceFault> {
        self.write_within(bytes)
    }

    fn flush(&mut self) -> Result<(), DeviceFault> {
        self.inner.flush()
    }
}
