//! Why a tool gives no answer, and the texts of these faults.

ghost use Rattle.std.specs.Prelude.{◌≡◌, Some};
ghost use Rattle.std.specs.Fmt.{decimal, formatter_spec, option_append, DisplaysOnOk, DisplaysStyledOnOk};
ghost use Rattle.dir_tools.specs.FaultText.{input_text, item_text, output_text, tool_fault_text};
ghost use Rattle.dir_tools.specs.Report.{cause_text};
ghost use Rattle.dir_tools.specs.declared.fault.ToolFault.TheVariants.{Memory};

use dir_acl::ConfigFault;
use dir_change::ResultCode;
use dir_ldif::{RecordFault, StreamFault};
use dir_names::Memory;
use itoa::Buffer;
use std::alloc::{AllocError, AllocFailed};
use std::fmt::{self, Display};
use thiserror::Error;

/// Why a tool gives no answer.
#[derive(Clone, Copy, PartialEq, Eq, Debug, Error)]
pub enum ToolFault {
    /// The copy is not a directory: the line of the record that is at fault, or 0 where the text itself
    /// is, and why.
    BadCopy(u64, Cause),
    /// A reader failed.
    Read(Input),
    /// A writer failed, or took no byte of a text.
    Write(Output),
    /// Memory ran out.
    Memory,
    /// A part of the question is not a legal name or description.
    BadQuestion(Item),
    /// The text of changes is at fault as a whole.
    BadChanges(StreamFault),
    /// The configuration is at fault.
    Config(ConfigFault),
    /// The base of the question is outside the suffix, or the copy has no entry of this name.
    NoEntry,
    /// The undo text has only so many groups, fewer than are to be run.
    TooFewGroups(u64),
}

impl Display for ToolFault {
    ghost output = { λ fault. Some (tool_fault_text fault) };

    ghost styled_output = { λ fault _. Some (tool_fault_text fault) };

    fn fmt<W: fmt::Write>(&self, f: &mut fmt::Formatter<W>) -> fmt::Result {
        match self {
            ToolFault::BadCopy(line, cause) => {
                show_after(f, "copy, line ", &Number(*line))?;
                show_after(f, ": ", cause)
            }
            ToolFault::Read(input) => show_after(f, "cannot read ", input),
            ToolFault::Write(output) => show_after(f, "cannot write ", output),
            ToolFault::Memory => f.write_str("out of memory"),
            ToolFault::BadQuestion(item) => show_after(f, "bad question: ", item),
            ToolFault::BadChanges(fault) => show_after(f, "changes: ", fault),
            ToolFault::Config(fault) => {
                show_after(f, "config, line ", &Number(fault.line))?;
                show_after(f, ": ", &fault.cause)
            }
            ToolFault::NoEntry => f.write_str("no such entry"),
            ToolFault::TooFewGroups(groups) => {
                show_after(f, "cannot go back, only ", &Number(*groups))?;
                f.write_str(" groups")
            }
        }
    }
}

/// Why a record is refused, or a copy.
#[derive(Clone, Copy, PartialEq, Eq, Debug, Error)]
pub enum Cause {
    /// The operation's result code.
    Code(ResultCode),
    /// The record's own fault.
    Fault(RecordFault),
    /// The text ended in a fault.
    Ended(StreamFault),
}

impl Display for Cause {
    ghost output = { λ cause. Some (cause_text cause) };

    ghost styled_output = { λ cause _. Some (cause_text cause) };

    fn fmt<W: fmt::Write>(&self, f: &mut fmt::Formatter<W>) -> fmt::Result {
        match self {
            Cause::Code(code) => code.fmt(f),
            Cause::Fault(fault) => fault.fmt(f),
            Cause::Ended(fault) => fault.fmt(f),
        }
    }
}

/// What a tool reads.
#[derive(Clone, Copy, PartialEq, Eq, Debug, Error)]
pub enum Input {
    Copy,
    Changes,
    Config,
}

impl Display for Input {
    ghost output = { λ input. Some (input_text input) };

    ghost styled_output = { λ input _. Some (input_text input) };

    fn fmt<W: fmt::Write>(&self, f: &mut fmt::Formatter<W>) -> fmt::Result {
        match self {
            Input::Copy => f.write_str("copy"),
            Input::Changes => f.write_str("changes"),
            Input::Config => f.write_str("config"),
        }
    }
}

/// What a tool writes.
#[derive(Clone, Copy, PartialEq, Eq, Debug, Error)]
pub enum Output {
    Undo,
    Out,
    Report,
}

impl Display for Output {
    ghost output = { λ output. Some (output_text output) };

    ghost styled_output = { λ output _. Some (output_text output) };

    fn fmt<W: fmt::Write>(&self, f: &mut fmt::Formatter<W>) -> fmt::Result {
        match self {
            Output::Undo => f.write_str("undo"),
            Output::Out => f.write_str("out"),
            Output::Report => f.write_str("report"),
        }
    }
}

/// A part of a question.
#[derive(Clone, Copy, PartialEq, Eq, Debug, Error)]
pub enum Item {
    Suffix,
    Base,
    Authc,
    /// A word, counted from 1.
    Word(u64),
}

impl Display for Item {
    ghost output = { λ item. Some (item_text item) };

    ghost styled_output = { λ item _. Some (item_text item) };

    fn fmt<W: fmt::Write>(&self, f: &mut fmt::Formatter<W>) -> fmt::Result {
        match self {
            Item::Suffix => f.write_str("suffix"),
            Item::Base => f.write_str("base"),
            Item::Authc => f.write_str("authcDN"),
            Item::Word(n) => show_after(f, "word ", &Number(*n)),
        }
    }
}

/// A number, shown by its decimal digits alone, whatever the options of the format.
#[derive(Drop)]
pub struct Number(pub u64);

impl Display for Number {
    ghost output = { λ number. Some (decimal number.0) };

    ghost styled_output = { λ number _. Some (decimal number.0) };

    fn fmt<W: fmt::Write>(&self, f: &mut fmt::Formatter<W>) -> fmt::Result {
        let mut digits = Buffer::new();
        f.write_str(digits.format(self.0))
    }
}

/// Shows a value after some words.
fn show_after<W: fmt::Write, D: Display>(
    f: &mut fmt::Formatter<W>,
    words: &str,
    value: &D,
) -> fmt::Result
    ensures writes { DisplaysOnOk W.write_str_gives f.old result (option_append (Some words.now) (D.output value.now)) f.new }
    ensures styled { DisplaysStyledOnOk W.write_str_gives f.old result (option_append (Some words.now) (D.styled_output value.now (formatter_spec f.old))) f.new }
{
    f.write_str(words)?;
    value.fmt(f)
}

impl From<Memory> for ToolFault {
    ghost from_gives = { λ _ e. e ≡ Memory };

    fn from(_error: Memory) -> ToolFault {
        ToolFault::Memory
    }
}

impl From<AllocError> for ToolFault {
    ghost from_gives = { λ _ e. e ≡ Memory };

    fn from(_error: AllocError) -> ToolFault {
        ToolFault::Memory
    }
}

impl<T: Drop> From<AllocFailed<T>> for ToolFault {
    ghost from_gives = { λ _ e. e ≡ Memory };

    fn from(_error: AllocFailed<T>) -> ToolFault {
        ToolFault::Memory
    }
}
