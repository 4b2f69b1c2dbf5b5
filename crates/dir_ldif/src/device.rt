//! Devices: sources that give bytes and sinks that take them, each of which may fail; over std's readers and
//! writers, and over lent bytes for tests.

ghost use Rattle.std.specs.Prelude.{◌≡◌, ◌<◌, ◌≤◌, ℕ, List, Option, length, IfOk, OnOk, refl};
ghost use Rattle.std.proofs.Common.{◌∙◌};
ghost use Rattle.std.specs.Io.KnownBytes.{Keeps, ReadConsumes, WriteAppends};
ghost use Rattle.dir_ldif.specs.Device.{Counts};

mod calls;
mod script;
mod standard;
mod tape;
mod whole;

pub use script::Script;
pub use standard::{Reader, Writer};
use std::error::Error;
use std::fmt;
pub use tape::Tape;
pub use whole::{write_flushed, write_whole};

/// A device failed. In that call it took and gave no byte.
#[derive(Clone, Copy, PartialEq, Eq, Debug)]
pub struct DeviceFault;

impl fmt::Display for DeviceFault {
    ghost use Rattle.std.specs.Prelude.{Some};
    ghost use Rattle.dir_ldif.specs.FaultText.{device_fault_text};

    ghost output = { λ _. Some device_fault_text };

    ghost styled_output = { λ _ _. Some device_fault_text };

    fn fmt<W: fmt::Write>(&self, f: &mut fmt::Formatter<W>) -> fmt::Result {
        f.write_str("the device failed")
    }
}

impl Error for DeviceFault {}

/// A source of bytes.
pub trait Source {
    // The bytes that are left, where the source tells them.
    ghost left: { Self → Option (List ℕ) };

    // How often the source has failed; the count stops at the greatest number.
    ghost failures: { Self → ℕ };

    // Of a borrowed source, that it is still the same one.
    ghost is_same: { Self → Self → Type 0 };

    /// Puts up to `buffer.len()` bytes at the start of `buffer`, and answers how many. It answers 0 only at
    /// the end, or where the buffer is empty.
    fn read(&mut self, buffer: &mut [u8]) -> Result<usize, DeviceFault>
        ensures bound { IfOk result (λ n. n ≤ length buffer.new) }
        ensures bytes { ReadConsumes (left self.old) (left self.new) result buffer.new }
        ensures count { Counts result (failures self.old) (failures self.new) }
        ensures same { is_same self.old self.new };

    ghost same_refl: { (a : Self) → is_same a a };

    ghost same_trans: { (a b c : Self) → is_same a b → is_same b c → is_same a c };
}

/// A sink for bytes.
pub trait Sink {
    // The bytes that were taken, where the sink tells them.
    ghost taken: { Self → Option (List ℕ) };

    // How often the sink has failed; the count stops at the greatest number.
    ghost failures: { Self → ℕ };

    // Whether the sink may take no byte of a text that is not empty.
    ghost may_stall: { Self → Type 0 };

    // That the sink has passed on what it took. Of a sink that does not tell, this holds always.
    ghost is_flushed: { Self → Type 0 };

    /// Takes a prefix of `bytes`, and answers its length.
    fn write(&mut self, bytes: &[u8]) -> Result<usize, DeviceFault>
        ensures bound { IfOk result (λ n. n ≤ length bytes.now) }
        ensures bytes { WriteAppends (taken self.old) (taken self.new) result bytes.now }
        ensures count { Counts result (failures self.old) (failures self.new) }
        ensures stalls { IfOk result (λ n. n ≡ 0 → 0 < length bytes.now → may_stall self.new) };

    /// Passes on what was taken.
    fn flush(&mut self) -> Result<(), DeviceFault>
        ensures bytes { Keeps (taken self.old) (taken self.new) }
        ensures count { Counts result (failures self.old) (failures self.new) }
        ensures passed { OnOk result (is_flushed self.new) };
}

impl<S: Source> Source for &mut S {
    ghost left = { λ s. S.left s.now };

    ghost failures = { λ s. S.failures s.now };

    ghost is_same = { λ s t. t.ghost_name ≡ s.ghost_name };

    ghost same_refl = { λ _. refl };

    ghost same_trans = { λ _ _ _ p q. q ∙ p };

    fn read(&mut self, buffer: &mut [u8]) -> Result<usize, DeviceFault> {
        (**self).read(buffer)
    }
}

impl<S: Sink> Sink for &mut S {
    ghost taken = { λ s. S.taken s.now };

    ghost failures = { λ s. S.failures s.now };

    ghost may_stall = { λ s. S.may_stall s.now };

    ghost is_flushed = { λ s. S.is_flushed s.now };

    fn write(&mut self, bytes: &[u8]) -> Result<usize, DeviceFault> {
        (**self).write(bytes)
    }

    fn flush(&mut self) -> Result<(), DeviceFault> {
        (**self).flush()
    }
}
