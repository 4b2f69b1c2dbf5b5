//! The faults of this crate.

ghost use Rattle.std.specs.Prelude.{◌≡◌};
ghost use Rattle.dir_names.specs.Outcome.{as_bad_dn};
ghost use Rattle.dir_names.specs.declared.fault.NameFault.TheVariants.{Memory};
ghost use Rattle.dir_names.specs.FaultText.{name_fault_text};
ghost use Rattle.std.specs.Prelude.{Some};

pub(crate) mod memory;

use std::alloc::{AllocError, AllocFailed};
use std::error::Error;
use std::fmt;

/// Why a text is not a description, a value or a name.
#[derive(Clone, Copy, PartialEq, Eq, Debug)]
pub enum NameFault {
    /// The text is not an attribute description (RFC 4512, section 2.5), or is longer than 512 bytes.
    BadDescription,
    /// The description is of a type that LDIF reserves: `dn`, `changetype` or `control`.
    ReservedName,
    /// The value has no comparison key under the rule of its type.
    BadValue,
    /// The text is not a distinguished name (RFC 4514), or the name has no key.
    BadDn,
    /// The name has more than 64 RDNs, or one that prints to more than 4,096 bytes.
    NameLimit,
    /// Memory ran out.
    Memory,
    /// The text is no definition of an attribute type (RFC 4512, section 4.1.2), or gives a type a name that it can't have, or
    /// no rule.
    BadType,
}

impl fmt::Display for NameFault {
    ghost output = { λ fault. Some (name_fault_text fault) };

    ghost styled_output = { λ fault _. Some (name_fault_text fault) };

    fn fmt<W: fmt::Write>(&self, f: &mut fmt::Formatter<W>) -> fmt::Result {
        f.write_str(match self {
            NameFault::BadDescription => "N1 BadDescription",
            NameFault::ReservedName => "N2 ReservedName",
            NameFault::BadValue => "N3 BadValue",
            NameFault::BadDn => "N4 BadDn",
            NameFault::NameLimit => "N5 NameLimit",
            NameFault::Memory => "N6 Memory",
            NameFault::BadType => "N7 BadType",
        })
    }
}

impl Error for NameFault {}

impl From<AllocError> for NameFault {
    ghost from_gives = { λ _ e. e ≡ Memory };

    fn from(_error: AllocError) -> NameFault {
        NameFault::Memory
    }
}

impl<T: Drop> From<AllocFailed<T>> for NameFault {
    ghost from_gives = { λ _ e. e ≡ Memory };

    fn from(_error: AllocFailed<T>) -> NameFault {
        NameFault::Memory
    }
}

/// The fault of a name that has a part with this fault.
pub(crate) fn as_bad_dn(fault: NameFault) -> NameFault
    ensures { result ≡ as_bad_dn fault }
{
    match fault {
        NameFault::Memory => NameFault::Memory,
        _ => NameFault::BadDn,
    }
}
