//! The argument of a configuration's line that a fault is about, as it is shown.

ghost use Rattle.std.specs.Prelude.{Some};
ghost use Rattle.dir_files.specs.NoteText.{argument_text};

use crate::note::{show_between, show_line};
use dir_acl::FaultArgument;
use std::fmt::{self, Display};

/// The argument that a fault is about, as standard error shows it after the program's name.
#[derive(Drop)]
pub struct ShownArgument<'a>(pub &'a FaultArgument);

impl Display for ShownArgument<'_> {
    ghost output = { λ shown. Some (argument_text shown.0.now) };

    ghost styled_output = { λ shown _. Some (argument_text shown.0.now) };

    fn fmt<W: fmt::Write>(&self, f: &mut fmt::Formatter<W>) -> fmt::Result {
        let FaultArgument { line, argument } = self.0;
        show_line(f, "note: line ", *line)?;
        match argument {
            Some(argument) => show_between(f, "\"", argument.as_slice(), "\""),
            None => f.write_str("an open quote or a final backslash"),
        }
    }
}
