//! Devices over the system's files and standard streams, and one that drops what it takes.

ghost use Rattle.std.specs.Prelude.{◌≡◌, ◌<◌, ◌≤◌, ⊤, IfOk, None, length};
ghost use Rattle.std.specs.Io.{ReadsAtMost, WritesAtMost};
ghost use Rattle.std.specs.Io.KnownBytes.{WriteAppends};
ghost use Rattle.dir_ldif.specs.Device.{Counts};

use dir_ldif::{DeviceFault, Sink, Source};
use std::io::{self, ErrorKind, Read, Write};

/// A source over a reader. A read that a signal interrupts is made again.
#[derive(Drop)]
pub struct PatientReader<R> {
    inner: R,
    failures: u64,
}

impl<R: Read> PatientReader<R> {
    pub fn new(inner: R) -> PatientReader<R>
        ensures { ⟦<PatientReader<R> as Source>⟧.failures result ≡ 0 }
    {
        PatientReader { inner, failures: 0 }
    }

    /// How often a read has failed.
    pub fn failures(&self) -> u64
        ensures { result ≡ ⟦<PatientReader<R> as Source>⟧.failures self.now }
    {
        self.failures
    }
}

impl<R: Read> Source for PatientReader<R> {
    ghost left = { λ _. None };

    ghost failures = { λ s. s.failures };

    ghost is_same = { λ _ _. ⊤ };

    ghost same_refl = { λ _. tt };

    ghost same_trans = { λ _ _ _ _ _. tt };

    fn read(&mut self, buffer: &mut [u8]) -> Result<usize, DeviceFault> {
        match read_again(&mut self.inner, buffer) {
            Ok(n) => Ok(n),
            Err(_) => {
                self.failures = self.failures.saturating_add(1);
                Err(DeviceFault)
            }
        }
    }
}

/// A sink over a writer. A write that a signal interrupts is made again.
#[derive(Drop)]
pub struct PatientWriter<W> {
    inner: W,
    failures: u64,
}

impl<W: Write> PatientWriter<W> {
    pub fn new(inner: W) -> PatientWriter<W>
        ensures { ⟦<PatientWriter<W> as Sink>⟧.failures result ≡ 0 }
    {
        PatientWriter { inner, failures: 0 }
    }

    pub fn inner(&self) -> &W
        ensures { result.now ≡ self.now.inner }
    {
        &self.inner
    }
}

impl<W: Write> Sink for PatientWriter<W> {
    ghost taken = { λ _. None };

    ghost failures = { λ s. s.failures };

    ghost may_stall = { λ _. ⊤ };

    ghost is_flushed = { λ _. ⊤ };

    fn write(&mut self, bytes: &[u8]) -> Result<usize, DeviceFault> {
        match write_again(&mut self.inner, bytes) {
            Ok(n) => Ok(n),
            Err(_) => {
                self.failures = self.failures.saturating_add(1);
                Err(DeviceFault)
            }
        }
    }

    fn flush(&mut self) -> Result<(), DeviceFault> {
        match flush_again(&mut self.inner) {
            Ok(()) => Ok(()),
            Err(_) => {
                self.failures = self.failures.saturating_add(1);
                Err(DeviceFault)
            }
        }
    }
}

/// Reads, again and again while signals interrupt the call.
fn read_again<R: Read>(reader: &mut R, buffer: &mut [u8]) -> io::Result<usize>
    ensures { ReadsAtMost result buffer.new }
{
    for _ in 0..u64::MAX {
        match reader.read(buffer) {
            Err(error) if error.kind() == ErrorKind::Interrupted => {}
            answer => return answer,
        }
    }
    Err(io::Error::from(ErrorKind::Interrupted))
}

/// Writes, again and again while signals interrupt the call.
fn write_again<W: Write>(writer: &mut W, bytes: &[u8]) -> io::Result<usize>
    ensures { WritesAtMost result bytes.now }
{
    for _ in 0..u64::MAX {
        match writer.write(bytes) {
            Err(error) if error.kind() == ErrorKind::Interrupted => {}
            answer => return answer,
        }
    }
    Err(io::Error::from(ErrorKind::Interrupted))
}

/// Flushes, again and again while signals interrupt the call.
fn flush_again<W: Write>(writer: &mut W) -> io::Result<()> {
    for _ in 0..u64::MAX {
        match writer.flush() {
            Err(error) if error.kind() == ErrorKind::Interrupted => {}
            answer => return answer,
        }
    }
    Err(io::Error::from(ErrorKind::Interrupted))
}

/// Writes a text's first bytes, so many of them at most.
pub fn write_at_most<W: Sink>(sink: &mut W, bytes: &[u8], most: usize) -> Result<usize, DeviceFault>
    ensures bound { IfOk result (λ n. (n ≤ length bytes.now) × (n ≤ most)) }
    ensures bytes { WriteAppends (W.taken sink.old) (W.taken sink.new) result bytes.now }
    ensures count { Counts result (W.failures sink.old) (W.failures sink.new) }
    ensures stalls { IfOk result (λ n. n ≡ 0 → 0 < length bytes.now → 0 < most → W.may_stall sink.new) }
{
    let n = most.min(bytes.len());
    sink.write(&bytes[..n])
}

/// A sink that drops what it takes. It takes all, and never fails.
#[derive(Drop)]
pub(crate) struct Dropped;

impl Sink for Dropped {
    ghost taken = { λ _. None };

    ghost failures = { λ _. 0 };

    ghost may_stall = { λ _. ⊥ };

    ghost is_flushed = { λ _. ⊤ };

    fn write(&mut self, bytes: &[u8]) -> Result<usize, DeviceFault> {
        Ok(bytes.len())
    }

    fn flush(&mut self) -> Result<(), DeviceFault> {
        Ok(())
    }
}
