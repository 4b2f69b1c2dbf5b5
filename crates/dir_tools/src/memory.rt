//! Devices over memory: a text to read from, and a buffer that keeps what is written.

ghost use Rattle.std.specs.Prelude.{◌≡◌, Some, []};

use dir_ldif::{DeviceFault, Sink, Source};
use std::alloc::Global;

/// A source over a text in memory, which never fails.
#[derive(Drop)]
pub(crate) struct Text<'a> {
    rest: &'a [u8],
}

impl<'a> Text<'a> {
    pub(crate) fn new(text: &'a [u8]) -> Text<'a>
        ensures { ⟦<Text<'a> as Source>⟧.left result ≡ Some text.now }
    {
        Text { rest: text }
    }
}

impl Source for Text<'_> {
    ghost use Rattle.std.specs.Prelude.{⊤, Some};

    ghost left = { λ t. Some t.rest.now };

    ghost failures = { λ _. 0 };

    ghost is_same = { λ _ _. ⊤ };

    ghost same_refl = { λ _. tt };

    ghost same_trans = { λ _ _ _ _ _. tt };

    fn read(&mut self, buffer: &mut [u8]) -> Result<usize, DeviceFault> {
        let n = buffer.len().min(self.rest.len());
        let (piece, rest) = self.rest.split_at(n);
        buffer[..n].copy_from_slice(piece);
        self.rest = rest;
        Ok(n)
    }
}

/// A sink that keeps in memory what it takes. It fails only where memory runs out.
#[derive(Drop)]
pub struct Buffer {
    bytes: Vec<u8>,
    failures: u64,
}

impl Buffer {
    pub fn new(alloc: Global) -> Buffer
        ensures { ⟦<Buffer as Sink>⟧.taken result ≡ Some [] }
    {
        Buffer {
            bytes: Vec::new(alloc),
            failures: 0,
        }
    }

    /// What was taken.
    pub fn as_slice(&self) -> &[u8]
        ensures { ⟦<Buffer as Sink>⟧.taken self.now ≡ Some result.now }
    {
        self.bytes.as_slice()
    }

    /// What was taken.
    pub fn into_vec(self) -> Vec<u8>
        ensures { ⟦<Buffer as Sink>⟧.taken self ≡ Some result.items }
    {
        self.bytes
    }
}

impl Sink for Buffer {
    ghost use Rattle.std.specs.Prelude.{⊤, Some};

    ghost taken = { λ b. Some b.bytes.items };

    ghost failures = { λ b. b.failures };

    ghost may_stall = { λ _. ⊥ };

    ghost is_flushed = { λ _. ⊤ };

    fn write(&mut self, bytes: &[u8]) -> Result<usize, DeviceFault> {
        match self.bytes.extend_from_slice(bytes) {
            Ok(()) => Ok(bytes.len()),
            Err(_) => {
                self.failures = self.failures.saturating_add(1);
                Err(DeviceFault)
            }
        }
    }

    fn flush(&mut self) -> Result<(), DeviceFault> {
        Ok(())
    }
}
