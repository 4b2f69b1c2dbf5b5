//! The fault of calls that can fail only when memory runs out.

ghost use Rattle.std.specs.Prelude.{Some};
ghost use Rattle.dir_names.specs.FaultText.{memory_text};

use std::alloc::{AllocError, AllocFailed};
use std::fmt;
use thiserror::Error;

/// Memory ran out. It is the fault of calls that have no other.
#[derive(Clone, Copy, PartialEq, Eq, Debug, Error)]
pub struct Memory;

impl fmt::Display for Memory {
    ghost output = { λ _. Some memory_text };

    ghost styled_output = { λ _ _. Some memory_text };

    fn fmt<W: fmt::Write>(&self, f: &mut fmt::Formatter<W>) -> fmt::Result {
        f.write_str("out of memory")
    }
}

impl From<AllocError> for Memory {
    fn from(_error: AllocError) -> Memory {
        Memory
    }
}

impl<T: Drop> From<AllocFailed<T>> for Memory {
    fn from(_error: AllocFailed<T>) -> Memory {
        Memory
    }
}
