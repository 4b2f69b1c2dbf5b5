//! The faults of this crate.

ghost use Rattle.std.specs.Prelude.{◌≡◌, Some};
ghost use Rattle.dir_acl.specs.FaultText.{config_cause_text, filter_fault_text};
ghost use Rattle.dir_acl.specs.declared.fault.ConfigCause.TheVariants as ConfigCause;
ghost use Rattle.dir_acl.specs.declared.fault.FilterFault.TheVariants as FilterFault;

use std::alloc::{AllocError, AllocFailed};
use std::fmt;
use thiserror::Error;

/// Why a text is not read as a filter.
#[derive(Clone, Copy, PartialEq, Eq, Debug, Error)]
pub enum FilterFault {
    /// The text is no filter (RFC 4515, section 3).
    BadFilter,
    /// The text begins a filter with more than 64 levels of parentheses.
    TooDeep,
    /// Memory ran out.
    Memory,
}

impl fmt::Display for FilterFault {
    ghost output = { λ fault. Some (filter_fault_text fault) };

    ghost styled_output = { λ fault _. Some (filter_fault_text fault) };

    fn fmt<W: fmt::Write>(&self, f: &mut fmt::Formatter<W>) -> fmt::Result {
        f.write_str(match self {
            FilterFault::BadFilter => "Q1 BadFilter",
            FilterFault::TooDeep => "Q2 TooDeep",
            FilterFault::Memory => "Q3 Memory",
        })
    }
}

impl From<AllocError> for FilterFault {
    ghost from_gives = { λ _ e. e ≡ FilterFault.Memory };

    fn from(_error: AllocError) -> FilterFault {
        FilterFault::Memory
    }
}

impl<T: Drop> From<AllocFailed<T>> for FilterFault {
    ghost from_gives = { λ _ e. e ≡ FilterFault.Memory };

    fn from(_error: AllocFailed<T>) -> FilterFault {
        FilterFault::Memory
    }
}

/// Why a text is not read as a configuration, and where.
#[derive(Clone, Copy, PartialEq, Eq, Debug)]
pub struct ConfigFault {
    /// The number, from 1, of the line on which the faulty line begins; 0 for `NoSuffix`, `ConfigTooLong` and
    /// `Memory`.
    pub line: u64,
    pub cause: ConfigCause,
}

/// What is wrong with a configuration.
#[derive(Clone, Copy, PartialEq, Eq, Debug, Error)]
pub enum ConfigCause {
    /// A directive that is out of its place, has too few or too many arguments, or has one with an open quote or a
    /// backslash at its end.
    BadDirective,
    /// A word of an access rule that is not supported.
    Unsupported,
    /// A text that is no filter.
    BadFilter,
    /// A text that is no name, no description or no object class.
    Name,
    /// A second database, beside those of `config` and `monitor`.
    SecondDatabase,
    /// A second suffix.
    SecondSuffix,
    /// An access rule before the database.
    GlobalAccess,
    /// A filter with more than 64 levels of parentheses.
    FilterTooDeep,
    /// Memory ran out.
    Memory,
    /// There is no suffix.
    NoSuffix,
    /// The text has more than 16,777,216 bytes.
    ConfigTooLong,
    /// What `attributetype` says is no definition of an attribute type, or one that can't be added (`NameFault::BadType`).
    BadType,
}

impl fmt::Display for ConfigCause {
    ghost output = { λ cause. Some (config_cause_text cause) };

    ghost styled_output = { λ cause _. Some (config_cause_text cause) };

    fn fmt<W: fmt::Write>(&self, f: &mut fmt::Formatter<W>) -> fmt::Result {
        f.write_str(match self {
            ConfigCause::BadDirective => "C1 BadDirective",
            ConfigCause::Unsupported => "C2 Unsupported",
            ConfigCause::BadFilter => "C3 BadFilter",
            ConfigCause::Name => "C4 Name",
            ConfigCause::SecondDatabase => "C5 SecondDatabase",
            ConfigCause::SecondSuffix => "C6 SecondSuffix",
            ConfigCause::GlobalAccess => "C7 GlobalAccess",
            ConfigCause::FilterTooDeep => "C8 FilterTooDeep",
            ConfigCause::Memory => "C9 Memory",
            ConfigCause::NoSuffix => "C10 NoSuffix",
            ConfigCause::ConfigTooLong => "C11 ConfigTooLong",
            ConfigCause::BadType => "C12 BadType",
        })
    }
}

impl From<AllocError> for ConfigCause {
    ghost from_gives = { λ _ e. e ≡ ConfigCause.Memory };

    fn from(_error: AllocError) -> ConfigCause {
        ConfigCause::Memory
    }
}

impl<T: Drop> From<AllocFailed<T>> for ConfigCause {
    ghost from_gives = { λ _ e. e ≡ ConfigCause.Memory };

    fn from(_error: AllocFailed<T>) -> ConfigCause {
        ConfigCause::Memory
    }
}

impl From<AllocError> for ConfigFault {
    ghost from_gives = { λ _ e. e ≡ record { line = 0; cause = ConfigCause.Memory } };

    fn from(_error: AllocError) -> ConfigFault {
        ConfigFault {
            line: 0,
            cause: ConfigCause::Memory,
        }
    }
}
