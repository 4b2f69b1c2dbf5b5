//! What is wrong with the configuration of a site.

ghost use Rattle.std.specs.Prelude.{◌≡◌, Some};
ghost use Rattle.dir_conf.specs.FaultText.{conf_fault_text, line_of};
ghost use Rattle.dir_conf.specs.declared.fault.ConfFault.TheVariants as fault;

use dir_ldif::{RecordFault, StreamFault};
use dir_names::Memory;
use std::alloc::{AllocError, AllocFailed};
use std::fmt::{self, Display};
use thiserror::Error;

/// What is wrong with the configuration of a site. Numbers are those of lines, from 1 on.
#[derive(Clone, Copy, PartialEq, Eq, Debug, Error)]
pub enum ConfFault {
    /// A line of LDIF that can't be read, and why.
    BadLine(u64, RecordFault),
    /// The fault in which a text of LDIF ends.
    Ended(StreamFault),
    /// A line that includes no file: it has not exactly one argument, or one that is no UTF-8; or its file isn't given, would be more than 16 files
    /// deep, or is beyond the thousandth.
    BadInclude(u64),
    /// A value that does not begin with its place in braces, after one that does.
    BadOrder(u64),
    /// A line or a value that can't be cut into arguments; a suffix or rootdn with a line feed; a definition whose first word stands in quotes; a macro
    /// that is not a name and a word; a `database` without a name, or a `suffix` that isn't one argument.
    BadArguments(u64),
    /// A suffix that is no legal name.
    BadName(u64),
    /// No database has this suffix.
    NoDatabase,
    /// A second database has this suffix.
    SecondDatabase(u64),
    /// Another database has a suffix below this one.
    Subordinate(u64),
    /// The configuration, or the flat one that it comes to, has more than 16,777,216 bytes.
    TooLong,
    /// Memory ran out.
    Memory,
}

impl ConfFault {
    ghost use Rattle.std.specs.Prelude.{◌≡◌};
    ghost use Rattle.dir_conf.specs.FaultText.{line_of};

    /// The number of the line that is at fault, if one is.
    pub fn line(&self) -> Option<u64>
        ensures { result ≡ line_of self.now }
    {
        match self {
            ConfFault::BadLine(line, _)
            | ConfFault::BadInclude(line)
            | ConfFault::BadOrder(line)
            | ConfFault::BadArguments(line)
            | ConfFault::BadName(line)
            | ConfFault::SecondDatabase(line)
            | ConfFault::Subordinate(line) => Some(*line),
            ConfFault::Ended(_) | ConfFault::NoDatabase | ConfFault::TooLong | ConfFault::Memory =>
                None,
        }
    }
}

/// The number and the name of a fault. Its line isn't shown.
impl Display for ConfFault {
    ghost output = { λ fault. Some (conf_fault_text fault) };

    ghost styled_output = { λ fault _. Some (conf_fault_text fault) };

    fn fmt<W: fmt::Write>(&self, f: &mut fmt::Formatter<W>) -> fmt::Result {
        match self {
            ConfFault::BadLine(_, fault) => fault.fmt(f),
            ConfFault::Ended(fault) => fault.fmt(f),
            ConfFault::BadInclude(_) => f.write_str("K1 BadInclude"),
            ConfFault::BadOrder(_) => f.write_str("K2 BadOrder"),
            ConfFault::BadArguments(_) => f.write_str("K3 BadArguments"),
            ConfFault::NoDatabase => f.write_str("K4 NoDatabase"),
            ConfFault::SecondDatabase(_) => f.write_str("K5 SecondDatabase"),
            ConfFault::Subordinate(_) => f.write_str("K6 Subordinate"),
            ConfFault::TooLong => f.write_str("K7 TooLong"),
            ConfFault::BadName(_) => f.write_str("K8 BadName"),
            ConfFault::Memory => f.write_str("out of memory"),
        }
    }
}

impl From<AllocError> for ConfFault {
    ghost from_gives = { λ _ e. e ≡ fault.Memory };

    fn from(_error: AllocError) -> ConfFault {
        ConfFault::Memory
    }
}

impl<T: Drop> From<AllocFailed<T>> for ConfFault {
    ghost from_gives = { λ _ e. e ≡ fault.Memory };

    fn from(_error: AllocFailed<T>) -> ConfFault {
        ConfFault::Memory
    }
}

impl From<Memory> for ConfFault {
    ghost from_gives = { λ _ e. e ≡ fault.Memory };

    fn from(_error: Memory) -> ConfFault {
        ConfFault::Memory
    }
}
