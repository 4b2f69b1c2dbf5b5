//! Faults: of one record, after which reading goes on, and of the whole stream, which end it.

use dir_names::NameFault;
use std::alloc::{AllocError, AllocFailed};
use std::error::Error;
use std::fmt;

/// Why a block of lines is not a record. The first line that has a fault decides.
#[derive(Clone, Copy, PartialEq, Eq, Debug)]
pub enum RecordFault {
    /// A line without a name or a colon, a plain value with a NUL or a CR, or a line where none is allowed.
    BadLine,
    /// A base64 text that RFC 4648 doesn't allow, as with stray bits or without its padding.
    BadBase64,
    /// A value that is named by a URL.
    UrlValue,
    /// A control.
    Control,
    /// A change type that isn't known, or a content record where a change is expected.
    BadChangetype,
    /// A line of a modification that is not allowed there.
    BadModify,
    /// A line of a rename that is missing, misplaced or one too many.
    BadRename,
    /// A value of more than 1,048,576 bytes.
    ValueTooLong,
    /// An invalid name or description.
    Name(NameFault),
}

impl fmt::Display for RecordFault {
    ghost use Rattle.std.specs.Prelude.{Some};
    ghost use Rattle.dir_ldif.specs.FaultText.{record_fault_text};

    ghost output = { λ fault. Some (record_fault_text fault) };

    ghost styled_output = { λ fault _. Some (record_fault_text fault) };

    fn fmt<W: fmt::Write>(&self, f: &mut fmt::Formatter<W>) -> fmt::Result {
        f.write_str(self.text())
    }
}

impl RecordFault {
    ghost use Rattle.std.specs.Prelude.{◌≡◌};
    ghost use Rattle.dir_ldif.specs.FaultText.{record_fault_text};

    /// The number and the name of the fault.
    fn text(&self) -> &'static str
        ensures { result.now ≡ record_fault_text self.now }
    {
        match self {
            RecordFault::BadLine => "L1 BadLine",
            RecordFault::BadBase64 => "L2 BadBase64",
            RecordFault::UrlValue => "L3 UrlValue",
            RecordFault::Control => "L4 Control",
            RecordFault::BadChangetype => "L5 BadChangetype",
            RecordFault::BadModify => "L6 BadModify",
            RecordFault::BadRename => "L7 BadRename",
            RecordFault::ValueTooLong => "L8 ValueTooLong",
            RecordFault::Name(NameFault::BadDescription) => "L9 N1 BadDescription",
            RecordFault::Name(NameFault::ReservedName) => "L9 N2 ReservedName",
            RecordFault::Name(NameFault::BadValue) => "L9 N3 BadValue",
            RecordFault::Name(NameFault::BadDn) => "L9 N4 BadDn",
            RecordFault::Name(NameFault::NameLimit) => "L9 N5 NameLimit",
            RecordFault::Name(NameFault::Memory) => "L9 N6 Memory",
            RecordFault::Name(NameFault::BadType) => "L9 N7 BadType",
        }
    }
}

impl Error for RecordFault {}

/// Why a text gives no further records.
#[derive(Clone, Copy, PartialEq, Eq, Debug)]
pub enum StreamFault {
    /// A logical line of more than 2,097,152 bytes.
    LineTooLong,
    /// The source failed in this call.
    Read,
    /// Memory ran out.
    Memory,
    /// An earlier call answered a fault.
    Ended,
    /// The source gave no end within the read calls that are allowed.
    TooManyTurns,
    /// The text begins with a version line of another version than 1.
    BadVersion,
    /// A mark of a group that is not the one due, or a record before the first mark, where groups are counted.
    BadMark,
}

impl fmt::Display for StreamFault {
    ghost use Rattle.std.specs.Prelude.{Some};
    ghost use Rattle.dir_ldif.specs.FaultText.{stream_fault_text};

    ghost output = { λ fault. Some (stream_fault_text fault) };

    ghost styled_output = { λ fault _. Some (stream_fault_text fault) };

    fn fmt<W: fmt::Write>(&self, f: &mut fmt::Formatter<W>) -> fmt::Result {
        f.write_str(match self {
            StreamFault::LineTooLong => "L10 LineTooLong",
            StreamFault::Read => "L11 Read",
            StreamFault::Memory => "L12 Memory",
            StreamFault::Ended => "L13 Ended",
            StreamFault::TooManyTurns => "L14 TooManyTurns",
            StreamFault::BadVersion => "L15 BadVersion",
            StreamFault::BadMark => "L16 BadMark",
        })
    }
}

impl Error for StreamFault {}

impl From<AllocError> for StreamFault {
    ghost use Rattle.std.specs.Prelude.{◌≡◌};
    ghost use Rattle.dir_ldif.specs.declared.faults.StreamFault.TheVariants.{Memory};

    ghost from_gives = { λ _ e. e ≡ Memory };

    fn from(_error: AllocError) -> StreamFault {
        StreamFault::Memory
    }
}

impl<T: Drop> From<AllocFailed<T>> for StreamFault {
    ghost use Rattle.std.specs.Prelude.{◌≡◌};
    ghost use Rattle.dir_ldif.specs.declared.faults.StreamFault.TheVariants.{Memory};

    ghost from_gives = { λ _ e. e ≡ Memory };

    fn from(_error: AllocFailed<T>) -> StreamFault {
        StreamFault::Memory
    }
}

/// Why a block was not read: for a fault of its own, or since memory ran out.
#[derive(Clone, Copy, PartialEq, Eq, Debug)]
pub enum Refusal {
    Fault(RecordFault),
    Memory,
}

impl From<RecordFault> for Refusal {
    ghost use Rattle.std.specs.Prelude.{◌≡◌};
    ghost use Rattle.dir_ldif.specs.declared.faults.Refusal.TheVariants.{Fault};

    ghost from_gives = { λ f r. r ≡ Fault f };

    fn from(fault: RecordFault) -> Refusal {
        Refusal::Fault(fault)
    }
}

impl From<NameFault> for Refusal {
    ghost use Rattle.std.specs.Prelude.{◌≡◌};
    ghost use Rattle.dir_ldif.specs.Inside.Refusals.{refusal_of};

    ghost from_gives = { λ f r. r ≡ refusal_of f };

    fn from(fault: NameFault) -> Refusal {
        match fault {
            NameFault::Memory => Refusal::Memory,
            fault => Refusal::Fault(RecordFault::Name(fault)),
        }
    }
}

impl From<AllocError> for Refusal {
    ghost use Rattle.std.specs.Prelude.{◌≡◌};
    ghost use Rattle.dir_ldif.specs.declared.faults.Refusal.TheVariants.{Memory};

    ghost from_gives = { λ _ r. r ≡ Memory };

    fn from(_error: AllocError) -> Refusal {
        Refusal::Memory
    }
}

impl<T: Drop> From<AllocFailed<T>> for Refusal {
    ghost use Rattle.std.specs.Prelude.{◌≡◌};
    ghost use Rattle.dir_ldif.specs.declared.faults.Refusal.TheVariants.{Memory};

    ghost from_gives = { λ _ r. r ≡ Memory };

    fn from(_error: AllocFailed<T>) -> Refusal {
        Refusal::Memory
    }
}
