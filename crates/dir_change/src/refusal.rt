//! Why a change is not applied.

ghost use Rattle.std.specs.Prelude.{◌≡◌};
ghost use Rattle.dir_change.specs.declared.refusal.Refusal.TheVariants.{Memory};
ghost use Rattle.dir_change.specs.Refusals.{entry_refusal};

use crate::ResultCode;
use dir_names::Memory;
use dir_tree::EntryFault;
use std::alloc::{AllocError, AllocFailed};

/// Why a change is not applied.
#[derive(Clone, Copy, PartialEq, Eq, Debug)]
pub enum Refusal {
    /// The operation's result code.
    Code(ResultCode),
    /// Memory ran out.
    Memory,
}

impl From<AllocError> for Refusal {
    ghost from_gives = { λ _ e. e ≡ Memory };

    fn from(_error: AllocError) -> Refusal {
        Refusal::Memory
    }
}

impl<T: Drop> From<AllocFailed<T>> for Refusal {
    ghost from_gives = { λ _ e. e ≡ Memory };

    fn from(_error: AllocFailed<T>) -> Refusal {
        Refusal::Memory
    }
}

impl From<Memory> for Refusal {
    ghost from_gives = { λ _ e. e ≡ Memory };

    fn from(_error: Memory) -> Refusal {
        Refusal::Memory
    }
}

impl From<EntryFault> for Refusal {
    ghost from_gives = { λ fault refusal. refusal ≡ entry_refusal fault };

    fn from(fault: EntryFault) -> Refusal {
        match fault {
            EntryFault::BadValue => Refusal::Code(ResultCode::InvalidAttributeSyntax),
            EntryFault::Twice => Refusal::Code(ResultCode::AttributeOrValueExists),
            EntryFault::NotNamed => Refusal::Code(ResultCode::NotAllowedOnRdn),
            EntryFault::Single => Refusal::Code(ResultCode::ConstraintViolation),
            EntryFault::Memory => Refusal::Memory,
        }
    }
}
