//! Devices over std's readers and writers.

ghost use Rattle.std.specs.Prelude.{◌≡◌, ⊤, IsErr, MatchResult};
ghost use Rattle.dir_ldif.specs.Device.{Counts};

use crate::device::{DeviceFault, Sink, Source};
use std::io::{self, Read, Write};

/// The answer of a reader or a writer, as the answer of a device: a failure is counted.
fn counted<T: Drop>(answer: io::Result<T>, failures: &mut u64) -> Result<T, DeviceFault>
    ensures answer { MatchResult answer (λ value. result ≡ Ok value) (λ _. IsErr result) }
    ensures count { Counts answer failures.old failures.new }
{
    match answer {
        Ok(value) => Ok(value),
        Err(_) => {
            *failures = failures.saturating_add(1);
            Err(DeviceFault)
        }
    }
}

/// A source over any reader.
#[derive(Drop)]
pub struct Reader<R> {
    inner: R,
    failures: u64,
}

impl<R: Read> Reader<R> {
    pub fn new(inner: R) -> Reader<R>
        ensures left { ⟦<Reader<R> as Source>⟧.left result ≡ R.remaining inner }
        ensures failures { ⟦<Reader<R> as Source>⟧.failures result ≡ 0 }
    {
        Reader { inner, failures: 0 }
    }
}

impl<R: Read> Source for Reader<R> {
    ghost left = { λ s. R.remaining s.inner };

    ghost failures = { λ s. s.failures };

    ghost is_same = { λ _ _. ⊤ };

    ghost same_refl = { λ _. tt };

    ghost same_trans = { λ _ _ _ _ _. tt };

    fn read(&mut self, buffer: &mut [u8]) -> Result<usize, DeviceFault> {
        counted(self.inner.read(buffer), &mut self.failures)
    }
}

/// A sink over any writer. A flush flushes the writer; the contract of `Write` says of that only that it
/// leaves the writer's contents.
#[derive(Drop)]
pub struct Writer<W> {
    inner: W,
    failures: u64,
}

impl<W: Write> Writer<W> {
    pub fn new(inner: W) -> Writer<W>
        ensures taken { ⟦<Writer<W> as Sink>⟧.taken result ≡ W.contents inner }
        ensures failures { ⟦<Writer<W> as Sink>⟧.failures result ≡ 0 }
    {
        Writer { inner, failures: 0 }
    }
}

impl<W: Write> Sink for Writer<W> {
    ghost taken = { λ s. W.contents s.inner };

    ghost failures = { λ s. s.failures };

    ghost may_stall = { λ _. ⊤ };

    ghost is_flushed = { λ _. ⊤ };

    fn write(&mut self, bytes: &[u8]) -> Result<usize, DeviceFault> {
        counted(self.inner.write(bytes), &mut self.failures)
    }

    fn flush(&mut self) -> Result<(), DeviceFault> {
        counted(self.inner.flush(), &mut self.failures)
    }
}
