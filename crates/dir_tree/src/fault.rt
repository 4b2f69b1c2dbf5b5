//! Why an entry is refused.

ghost use Rattle.std.specs.Prelude.{◌≡◌, Some};
ghost use Rattle.dir_tree.specs.declared.fault.EntryFault.TheVariants.{Memory};
ghost use Rattle.dir_tree.specs.FaultText.{entry_fault_text};
ghost use Rattle.dir_tree.specs.NewEntry.{entry_fault_of};

use dir_names::{Memory, NameFault};
use std::alloc::{AllocError, AllocFailed};
use std::fmt;
use thiserror::Error;

/// Why an entry isn't made or changed.
#[derive(Clone, Copy, PartialEq, Eq, Debug, Error)]
pub enum EntryFault {
    /// A value has no key under the rule of its type.
    BadValue,
    /// Two values of one attribute have the same key.
    Twice,
    /// The entry has no own RDN, or one without a key.
    NotNamed,
    /// An attribute of a single type has more than one value.
    Single,
    /// Memory ran out.
    Memory,
}

impl fmt::Display for EntryFault {
    ghost output = { λ fault. Some (entry_fault_text fault) };

    ghost styled_output = { λ fault _. Some (entry_fault_text fault) };

    fn fmt<W: fmt::Write>(&self, f: &mut fmt::Formatter<W>) -> fmt::Result {
        f.write_str(match self {
            EntryFault::BadValue => "E1 BadValue",
            EntryFault::Twice => "E2 Twice",
            EntryFault::NotNamed => "E3 NotNamed",
            EntryFault::Single => "E4 Single",
            EntryFault::Memory => "E5 Memory",
        })
    }
}

impl From<Memory> for EntryFault {
    ghost from_gives = { λ _ e. e ≡ Memory };

    fn from(_error: Memory) -> EntryFault {
        EntryFault::Memory
    }
}

impl From<AllocError> for EntryFault {
    ghost from_gives = { λ _ e. e ≡ Memory };

    fn from(_error: AllocError) -> EntryFault {
        EntryFault::Memory
    }
}

impl<T: Drop> From<AllocFailed<T>> for EntryFault {
    ghost from_gives = { λ _ e. e ≡ Memory };

    fn from(_error: AllocFailed<T>) -> EntryFault {
        EntryFault::Memory
    }
}

/// Why a value has no key: the value, or memory.
impl From<NameFault> for EntryFault {
    ghost from_gives = { λ fault e. e ≡ entry_fault_of fault };

    fn from(fault: NameFault) -> EntryFault {
        match fault {
            NameFault::Memory => EntryFault::Memory,
            _ => EntryFault::BadValue,
        }
    }
}
