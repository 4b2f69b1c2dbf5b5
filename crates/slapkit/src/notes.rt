//! Notes on a configuration, and the argument that its fault is about, printed on standard error.

ghost use Rattle.std.specs.Prelude.{[], ◌∷◌, List, OnOk, Option};
ghost use Rattle.dir_acl.specs.declared.note.Note.{Note};
ghost use Rattle.dir_files.specs.Notes.{WereGiven};

use dir_acl::{FaultArgument, Note};
use dir_files::{NoteTeller, ProgressLine, Refusal, ShownArgument, ShownNote};
use std::io;

/// Prints notes on standard error, a line each.
#[derive(Drop)]
pub struct PrintedNotes<'a, R> {
    rt: &'a R,
    /// The line that tells how far the run is, which makes room for them.
    line: &'a ProgressLine,
    failures: u64,
    /// The argument that is printed after the fault.
    argument: Option<FaultArgument>,
}

impl<'a, R: Eprint> PrintedNotes<'a, R> {
    pub fn new(rt: &'a R, line: &'a ProgressLine) -> PrintedNotes<'a, R> {
        PrintedNotes {
            rt,
            line,
            failures: 0,
            argument: None,
        }
    }

    /// Prints the argument that the fault is about, if it was handed over.
    pub fn print_argument(&self) -> io::Result<()> {
        if let Some(argument) = &self.argument {
            eprintln!(self.rt; "slapkit: {}", ShownArgument(argument))?;
        }
        Ok(())
    }
}

impl<R: Eprint> NoteTeller for PrintedNotes<'_, R> {
    ghost use Rattle.std.specs.Prelude.{None};

    ghost given = { λ _. None };

    ghost failures = { λ notes. notes.failures };

    ghost arguments = { λ _. None };

    fn tell(&mut self, notes: &[Note]) -> Result<(), Refusal> {
        self.line.clear();
        match print_notes(&mut NoteLines { rt: self.rt }, notes) {
            Ok(()) => Ok(()),
            Err(_) => {
                self.failures = self.failures.saturating_add(1);
                Err(Refusal::Other)
            }
        }
    }

    fn keep(&mut self, argument: FaultArgument) {
        self.argument = Some(argument);
    }
}

/// Whatever prints notes.
trait NotePrinter {
    // The notes that it has printed so far, if it can say.
    ghost printed: { Self → Option (List Note) };

    /// Prints a note.
    fn print(&mut self, note: &Note) -> io::Result<()>
        ensures { OnOk result (WereGiven (printed self.old) (printed self.new) (note.now ∷ [])) };
}

/// Prints a note on standard error, as a line.
#[derive(Drop)]
struct NoteLines<'a, R> {
    rt: &'a R,
}

impl<R: Eprint> NotePrinter for NoteLines<'_, R> {
    ghost use Rattle.std.specs.Prelude.{None};

    ghost printed = { λ _. None };

    fn print(&mut self, note: &Note) -> io::Result<()> {
        eprintln!(self.rt; "slapkit: {}", ShownNote(note))
    }
}

/// Prints each of these notes, in their order.
fn print_notes<P: NotePrinter>(printer: &mut P, notes: &[Note]) -> io::Result<()>
    ensures { OnOk result (WereGiven (P.printed printer.old) (P.printed printer.new) notes.now) }
{
    for note in notes {
        printer.print(note)?;
    }
    Ok(())
}
