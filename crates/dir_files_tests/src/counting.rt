//! Devices that count how often they have failed.

use dir_ldif::{DeviceFault, Sink, Source};

/// A device, and how often it has failed.
#[derive(Drop)]
pub(super) struct Counting<D> {
    pub(super) device: D,
    pub(super) failures: u64,
}

impl<D> Counting<D> {
    ghost use Rattle.std.specs.Prelude.{◌≡◌};

    pub(super) fn new(device: D) -> Counting<D>
        ensures { result ≡ record { device = device; failures = 0 } }
    {
        Counting {
            device,
            failures: 0,
        }
    }
}

impl<S: Source> Source for Counting<S> {
    ghost left = { λ s. S.left s.device };

    ghost failures = { λ s. s.failures };

    ghost is_same = { λ s t. S.is_same s.device t.device };

    ghost same_refl = { λ s. S.same_refl s.device };

    ghost same_trans = { λ s t u. S.same_trans s.device t.device u.device };

    fn read(&mut self, buffer: &mut [u8]) -> Result<usize, DeviceFault> {
        match self.device.read(buffer) {
            Ok(n) => Ok(n),
            Err(fault) => {
                self.failures = self.failures.saturating_add(1);
                Err(fault)
            }
        }
    }
}

impl<W: Sink> Sink for Counting<W> {
    ghost taken = { λ s. W.taken s.device };

    ghost failures = { λ s. s.failures };

    ghost may_stall = { λ s. W.may_stall s.device };

    ghost is_flushed = { λ s. W.is_flushed s.device };

    fn write(&mut self, bytes: &[u8]) -> Result<usize, DeviceFault> {
        match self.device.write(bytes) {
            Ok(n) => Ok(n),
            Err(fault) => {
                self.failures = self.failures.saturating_add(1);
                Err(fault)
            }
        }
    }

    fn flush(&mut self) -> Result<(), DeviceFault> {
        match self.device.flush() {
            Ok(()) => Ok(()),
            Err(fault) => {
                self.failures = self.failures.saturating_add(1);
                Err(fault)
            }
        }
    }
}
