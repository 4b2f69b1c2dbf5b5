//! Why the program ends without an answer, and what it says then.

ghost use Rattle.std.specs.Prelude.{◌++◌, decimal};
ghost use Rattle.std.specs.Fmt.{WritesOnOk, WritesStyledOnOk};
ghost use Rattle.dir_files.specs.Escape.{escaped};
ghost use Rattle.dir_files.specs.FaultText.{conf_file_text, conf_line_text, conf_text, fault_text};
ghost use Rattle.dir_conf.specs.FaultText.{line_of};

use crate::escape::show_escaped;
use crate::note::{show_bytes, show_line};
use dir_conf::FileFault;
use dir_questions::QuestionsFault;
use dir_tools::{Number, ToolFault};
use std::fmt::{self, Display};
use std::io;

/// Why the program ends without an answer.
#[derive(Debug, Drop)]
pub enum Fault<'a> {
    /// The words of the command line can't be read, as where one is not UTF-8.
    NoWords(io::Error),
    /// Two of the paths are the same text.
    SamePath(&'a str),
    /// A file can't be opened or created.
    CannotOpen(&'a str),
    /// A file that is to be written exists already.
    Exists(&'a str),
    /// There are notes on the configuration or on the question, and an answer is wanted only where there are none.
    HasNotes,
    /// The notes can't be written.
    NotesUntold,
    /// The undo file has fewer groups than are to be taken back.
    TooFewGroups { wanted: u64, groups: u64 },
    /// A fault of a site's configuration.
    Conf(FileFault),
    /// The flat configuration can't be written.
    FlatUnwritten,
    /// A fault of the questions, or of the writer of their answers.
    Questions(QuestionsFault),
    /// The tool's own fault.
    Tool(ToolFault),
}

impl Display for Fault<'_> {
    ghost output = { fault_text };

    ghost styled_output = { λ fault _. fault_text fault };

    fn fmt<W: fmt::Write>(&self, f: &mut fmt::Formatter<W>) -> fmt::Result {
        match self {
            Fault::NoWords(error) => write!(f, "cannot read the command line: {error}"),
            Fault::SamePath(path) => show_path(f, "same path twice: ", path),
            Fault::CannotOpen(path) => show_path(f, "cannot open ", path),
            Fault::Exists(path) => show_path(f, "exists already: ", path),
            Fault::HasNotes => f.write_str("not answered, because there are notes"),
            Fault::NotesUntold => f.write_str("cannot write notes"),
            Fault::TooFewGroups { wanted, groups } => {
                show_number(f, "cannot go back ", *wanted)?;
                show_number(f, ", only ", *groups)?;
                f.write_str(" groups")
            }
            Fault::Conf(fault) => show_conf_fault(f, fault),
            Fault::FlatUnwritten => f.write_str("cannot write flat configuration"),
            Fault::Questions(fault) => fault.fmt(f),
            Fault::Tool(fault) => fault.fmt(f),
        }
    }
}

/// Shows a path after some words, whatever the options. Its control characters are escaped.
fn show_path<W: fmt::Write>(f: &mut fmt::Formatter<W>, words: &str, path: &str) -> fmt::Result
    ensures writes { WritesOnOk W.write_str_gives f.old result (words.now ++ escaped path.now) f.new }
    ensures styled { WritesStyledOnOk W.write_str_gives f.old result (words.now ++ escaped path.now) f.new }
{
    f.write_str(words)?;
    show_escaped(f, path)
}

/// Shows a number after some words, whatever the options.
fn show_number<W: fmt::Write>(f: &mut fmt::Formatter<W>, words: &str, number: u64) -> fmt::Result
    ensures writes { WritesOnOk W.write_str_gives f.old result (words.now ++ decimal number) f.new }
    ensures styled { WritesStyledOnOk W.write_str_gives f.old result (words.now ++ decimal number) f.new }
{
    f.write_str(words)?;
    Number(number).fmt(f)
}

/// Shows a fault of a site's configuration, after the file and the line of it.
fn show_conf_fault<W: fmt::Write>(f: &mut fmt::Formatter<W>, fault: &FileFault) -> fmt::Result
    ensures writes { WritesOnOk W.write_str_gives f.old result (conf_text fault.now) f.new }
    ensures styled { WritesStyledOnOk W.write_str_gives f.old result (conf_text fault.now) f.new }
{
    show_conf_file(f, fault)?;
    show_conf_line(f, fault)?;
    fault.fault.fmt(f)
}

fn show_conf_file<W: fmt::Write>(f: &mut fmt::Formatter<W>, fault: &FileFault) -> fmt::Result
    ensures writes { WritesOnOk W.write_str_gives f.old result (conf_file_text fault.now.file) f.new }
    ensures styled { WritesStyledOnOk W.write_str_gives f.old result (conf_file_text fault.now.file) f.new }
{
    match &fault.file {
        Some(file) => show_bytes(f, file.as_slice()),
        None => f.write_str("config"),
    }
}

fn show_conf_line<W: fmt::Write>(f: &mut fmt::Formatter<W>, fault: &FileFault) -> fmt::Result
    ensures writes { WritesOnOk W.write_str_gives f.old result (conf_line_text (line_of fault.now.fault)) f.new }
    ensures styled { WritesStyledOnOk W.write_str_gives f.old result (conf_line_text (line_of fault.now.fault)) f.new }
{
    match fault.fault.line() {
        Some(line) => show_line(f, ", line ", line),
        None => f.write_str(": "),
    }
}
