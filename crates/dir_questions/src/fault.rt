//! Why a file of questions has no answers, and the texts of these faults.

ghost use Rattle.std.specs.Prelude.{◌≡◌, Some};
ghost use Rattle.std.specs.Fmt.{decimal, formatter_spec, option_append, DisplaysOnOk, DisplaysStyledOnOk};
ghost use Rattle.dir_questions.specs.FaultText.{question_cause_text, questions_fault_text};
ghost use Rattle.dir_questions.specs.declared.fault.QuestionsFault.TheVariants as QuestionsFault;
ghost use Rattle.dir_tools.specs.declared.fault.ToolFault.TheVariants as ToolFault;

use dir_ldif::{RecordFault, StreamFault};
use dir_names::Memory;
use dir_tools::{Number, ToolFault};
use std::alloc::{AllocError, AllocFailed};
use std::fmt::{self, Display};
use thiserror::Error;

/// Why a file of questions has no answers.
#[derive(Clone, Copy, PartialEq, Eq, Debug, Error)]
pub enum QuestionsFault {
    /// A fault of the configuration or of the copy, of the report's writer, or out of memory.
    Tool(ToolFault),
    /// The reader of the questions failed.
    Read,
    /// The questions have more than 16,777,216 bytes.
    TooLong,
    /// The questions end in a fault of their text.
    Stream(StreamFault),
    /// A block is no question: the number of the line that is at fault, and why.
    Block(u64, QuestionCause),
    /// The writer of the answers failed, or took no byte of a text.
    Write,
}

impl Display for QuestionsFault {
    ghost output = { λ fault. Some (questions_fault_text fault) };

    ghost styled_output = { λ fault _. Some (questions_fault_text fault) };

    fn fmt<W: fmt::Write>(&self, f: &mut fmt::Formatter<W>) -> fmt::Result {
        match self {
            QuestionsFault::Tool(fault) => fault.fmt(f),
            QuestionsFault::Read => f.write_str("cannot read questions"),
            QuestionsFault::TooLong => f.write_str("questions: A5 TooLong"),
            QuestionsFault::Stream(fault) => show_after(f, "questions: ", fault),
            QuestionsFault::Block(line, cause) => {
                show_after(f, "questions, line ", &Number(*line))?;
                show_after(f, ": ", cause)
            }
            QuestionsFault::Write => f.write_str("cannot write answers"),
        }
    }
}

/// Why a block is no question.
#[derive(Clone, Copy, PartialEq, Eq, Debug, Error)]
pub enum QuestionCause {
    /// The line has no name and value.
    Line(RecordFault),
    /// The line is out of its place, or the block has no `dn`, or no word.
    BadBlock,
    /// The value is no legal name.
    BadName,
    /// The name of the line is no word `attr[/access]`.
    BadWord,
    /// No report has this answer to the word.
    BadAnswer,
}

impl Display for QuestionCause {
    ghost output = { λ cause. Some (question_cause_text cause) };

    ghost styled_output = { λ cause _. Some (question_cause_text cause) };

    fn fmt<W: fmt::Write>(&self, f: &mut fmt::Formatter<W>) -> fmt::Result {
        match self {
            QuestionCause::Line(fault) => fault.fmt(f),
            QuestionCause::BadBlock => f.write_str("A1 BadBlock"),
            QuestionCause::BadName => f.write_str("A2 BadName"),
            QuestionCause::BadWord => f.write_str("A3 BadWord"),
            QuestionCause::BadAnswer => f.write_str("A4 BadAnswer"),
        }
    }
}

/// Shows a value after some words.
fn show_after<W: fmt::Write, D: Display>(
    f: &mut fmt::Formatter<W>,
    words: &str,
    value: &D,
) -> fmt::Result
    ensures writes { DisplaysOnOk W.write_str_gives f.old result (option_append (Some words.now) (D.output value.now)) f.new }
    ensures styled { DisplaysStyledOnOk W.write_str_gives f.old result (option_append (Some words.now) (D.styled_output value.now (formatter_spec f.old))) f.new }
{
    f.write_str(words)?;
    value.fmt(f)
}

impl From<Memory> for QuestionsFault {
    ghost from_gives = { λ _ e. e ≡ QuestionsFault.Tool ToolFault.Memory };

    fn from(_error: Memory) -> QuestionsFault {
        QuestionsFault::Tool(ToolFault::Memory)
    }
}

impl From<AllocError> for QuestionsFault {
    ghost from_gives = { λ _ e. e ≡ QuestionsFault.Tool ToolFault.Memory };

    fn from(_error: AllocError) -> QuestionsFault {
        QuestionsFault::Tool(ToolFault::Memory)
    }
}

impl<T: Drop> From<AllocFailed<T>> for QuestionsFault {
    ghost from_gives = { λ _ e. e ≡ QuestionsFault.Tool ToolFault.Memory };

    fn from(_error: AllocFailed<T>) -> QuestionsFault {
        QuestionsFault::Tool(ToolFault::Memory)
    }
}
