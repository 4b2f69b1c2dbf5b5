//! The notes on a configuration and on questions: how they are shown, and whoever tells them.

ghost use Rattle.std.specs.Prelude.{◌≡◌, [], ◌∷◌, ◌++◌, ℕ, Option, List, Some};
ghost use Rattle.std.specs.Fmt.{WritesOnOk, WritesStyledOnOk};
ghost use Rattle.dir_acl.specs.declared.deciding.FaultArgument.{FaultArgument};
ghost use Rattle.dir_acl.specs.declared.note.Note.{Note};
ghost use Rattle.dir_ldif.specs.Device.{Counts};
ghost use Rattle.dir_files.specs.NoteText.{at_line, derived_text, note_text, place_text, shown_bytes, unknown_text, word_place, word_text};
ghost use Rattle.dir_files.specs.Notes.{WereGiven};

use crate::escape::show_escaped;
use crate::files::Refusal;
use dir_acl::{FaultArgument, Note, NoteCause};
use dir_tools::Number;
use std::fmt::{self, Display};

/// Whoever tells an administrator what a configuration or a question says that isn't known or not looked at.
pub trait NoteTeller {
    // The notes that it was given so far, if it can say.
    ghost given: { Self → Option (List Note) };

    // How often it could not tell them.
    ghost failures: { Self → ℕ };

    // The arguments that it was handed so far, if it can say.
    ghost arguments: { Self → Option (List FaultArgument) };

    /// Tells these notes.
    ///
    /// # Errors
    ///
    /// They can't be told.
    fn tell(&mut self, notes: &[Note]) -> Result<(), Refusal>
        ensures given { WereGiven (given self.old) (given self.new) notes.now }
        ensures count { Counts result (failures self.old) (failures self.new) }
        ensures arguments { arguments self.new ≡ arguments self.old };

    /// Keeps the argument that the fault of a configuration is about, to be told after that.
    fn keep(&mut self, argument: FaultArgument)
        ensures kept { WereGiven (arguments self.old) (arguments self.new) (argument ∷ []) }
        ensures given { given self.new ≡ given self.old }
        ensures count { failures self.new ≡ failures self.old };
}

/// A note, as standard error shows it after the program's name.
#[derive(Drop)]
pub struct ShownNote<'a>(pub &'a Note);

impl Display for ShownNote<'_> {
    ghost output = { λ note. Some (note_text note.0.now) };

    ghost styled_output = { λ note _. Some (note_text note.0.now) };

    fn fmt<W: fmt::Write>(&self, f: &mut fmt::Formatter<W>) -> fmt::Result {
        let Note { line, cause } = self.0;
        match cause {
            NoteCause::NoRule => {
                f.write_str("note: config: no access rule, so everybody may read")
            }
            NoteCause::Include(file) => {
                show_place(f, *line)?;
                show_between(f, "include \"", file.as_slice(), "\" is not read")
            }
            NoteCause::UnknownType(description) => {
                show_place(f, *line)?;
                show_unknown(f, description.as_slice())
            }
            NoteCause::Supertype(description) => {
                show_place(f, *line)?;
                show_derived(f, description.as_slice())
            }
            NoteCause::ObjectClass => {
                show_place(f, *line)?;
                f.write_str("objectClass: only the classes that an entry lists are looked at")
            }
            NoteCause::HalfOfWrite => {
                show_place(f, *line)?;
                f.write_str("for -a or -z slapd takes all of w away")
            }
            NoteCause::OtherDatabase => {
                show_place(f, *line)?;
                f.write_str("access rule of database config or monitor is passed over")
            }
            NoteCause::UnknownInWord(word, description) => {
                show_word(f, *line, word.as_slice())?;
                show_unknown(f, description.as_slice())
            }
        }
    }
}

/// Shows on which line of the configuration it is.
fn show_place<W: fmt::Write>(f: &mut fmt::Formatter<W>, line: u64) -> fmt::Result
    ensures writes { WritesOnOk W.write_str_gives f.old result (place_text line) f.new }
    ensures styled { WritesStyledOnOk W.write_str_gives f.old result (place_text line) f.new }
{
    show_line(f, "note: config, line ", line)
}

/// Shows which word of a question it is, and on which line of a file of questions. Line 0 is for a word of a command line.
fn show_word<W: fmt::Write>(f: &mut fmt::Formatter<W>, line: u64, word: &[u8]) -> fmt::Result
    ensures writes { WritesOnOk W.write_str_gives f.old result (word_text line word.now) f.new }
    ensures styled { WritesStyledOnOk W.write_str_gives f.old result (word_text line word.now) f.new }
{
    show_word_place(f, line)?;
    show_between(f, "word \"", word, "\": ")
}

fn show_word_place<W: fmt::Write>(f: &mut fmt::Formatter<W>, line: u64) -> fmt::Result
    ensures writes { WritesOnOk W.write_str_gives f.old result (word_place line) f.new }
    ensures styled { WritesStyledOnOk W.write_str_gives f.old result (word_place line) f.new }
{
    if line > 0 {
        show_line(f, "note: questions, line ", line)
    } else {
        f.write_str("note: ")
    }
}

/// Shows on which line it is, after these words.
pub(crate) fn show_line<W: fmt::Write>(
    f: &mut fmt::Formatter<W>,
    before: &str,
    line: u64,
) -> fmt::Result
    ensures writes { WritesOnOk W.write_str_gives f.old result (at_line before.now line) f.new }
    ensures styled { WritesStyledOnOk W.write_str_gives f.old result (at_line before.now line) f.new }
{
    f.write_str(before)?;
    Number(line).fmt(f)?;
    f.write_str(": ")
}

/// Shows that the type of a description isn't known.
fn show_unknown<W: fmt::Write>(f: &mut fmt::Formatter<W>, description: &[u8]) -> fmt::Result
    ensures writes { WritesOnOk W.write_str_gives f.old result (unknown_text description.now) f.new }
    ensures styled { WritesStyledOnOk W.write_str_gives f.old result (unknown_text description.now) f.new }
{
    show_between(f, "unknown attribute \"", description, "\"")
}

/// Shows that the types below that of a description are not looked at.
fn show_derived<W: fmt::Write>(f: &mut fmt::Formatter<W>, description: &[u8]) -> fmt::Result
    ensures writes { WritesOnOk W.write_str_gives f.old result (derived_text description.now) f.new }
    ensures styled { WritesStyledOnOk W.write_str_gives f.old result (derived_text description.now) f.new }
{
    show_between(
        f,
        "types derived from \"",
        description,
        "\" are not looked at",
    )
}

/// Shows a text of the configuration or of the question between words.
pub(crate) fn show_between<W: fmt::Write>(
    f: &mut fmt::Formatter<W>,
    before: &str,
    text: &[u8],
    after: &str,
) -> fmt::Result
    ensures writes { WritesOnOk W.write_str_gives f.old result (before.now ++ shown_bytes text.now ++ after.now) f.new }
    ensures styled { WritesStyledOnOk W.write_str_gives f.old result (before.now ++ shown_bytes text.now ++ after.now) f.new }
{
    f.write_str(before)?;
    show_bytes(f, text)?;
    f.write_str(after)
}

/// Shows bytes with the control characters escaped; of those that are no text, that they are none.
pub(crate) fn show_bytes<W: fmt::Write>(f: &mut fmt::Formatter<W>, bytes: &[u8]) -> fmt::Result
    ensures writes { WritesOnOk W.write_str_gives f.old result (shown_bytes bytes.now) f.new }
    ensures styled { WritesStyledOnOk W.write_str_gives f.old result (shown_bytes bytes.now) f.new }
{
    match std::str::from_utf8(bytes) {
        Ok(text) => show_escaped(f, text),
        Err(_) => f.write_str("(not UTF-8)"),
    }
}
