//! What the program tells on standard error: the fault in which a run has ended, notes, and what is known beside them.

ghost use Rattle.std.specs.Prelude.{◌≡◌, [], ◌∷◌, List, None, OnOk, Option};
ghost use Rattle.dir_files.specs.Notes.{WereGiven};
ghost use Rattle.dir_files.specs.declared.fault.Fault.{Fault};
ghost use Rattle.slapkit.specs.Ends.{LooksAt};

use crate::hints::{Hints, KeptSuffixes};
use crate::notes::PrintedNotes;
use dir_files::slapconf::SuffixTeller;
use dir_files::{
    AccessWords, ConfWords, Fault, FileSystem, ModifyWords, NoteTeller, ProgressLine,
    QuestionWords, SystemFiles,
};
use dir_questions::Tally;
use dir_tools::Summary;
use std::io::{self, Input, IsTerminal};
use std::rt::Files;

/// Whoever tells an administrator what stands in no report. For what is known beside an answer the files may be looked at once more.
pub trait Console {
    /// The files of the runs that it tells of.
    type Files: FileSystem;

    /// What tells notes while a run goes on.
    type Notes: NoteTeller;

    /// What keeps the suffixes of a configuration in which the wanted one was not found.
    type Suffixes: SuffixTeller;

    // The faults that it has told so far, if it can say.
    ghost told: { Self → Option (List Fault) };

    /// Tells the fault in which a run has ended.
    fn tell_fault(&mut self, fault: &Fault<'_>) -> io::Result<()>
        ensures { OnOk result (WereGiven (told self.old) (told self.new) (fault.now ∷ [])) };

    /// Tells the argument that this fault is about, if it was handed over.
    fn tell_argument(&mut self, notes: &Self::Notes) -> io::Result<()>
        ensures { told self.new ≡ told self.old };

    /// Tells what is known beside the answer of slapmodify.
    fn after_run(
        &mut self,
        files: &mut Self::Files,
        words: &ModifyWords<'_>,
        answer: &Result<Summary, Fault<'_>>,
    ) -> io::Result<()>
        ensures told { told self.new ≡ told self.old }
        ensures looks { LooksAt (Self.Files.disk files.old) (Self.Files.disk files.new) };

    /// Tells what is known beside the answer of slapacl.
    fn after_question(
        &mut self,
        files: &mut Self::Files,
        words: &AccessWords<'_>,
        answer: &Result<(), Fault<'_>>,
    ) -> io::Result<()>
        ensures told { told self.new ≡ told self.old }
        ensures looks { LooksAt (Self.Files.disk files.old) (Self.Files.disk files.new) };

    /// Tells what is known beside the answer to a file of questions.
    fn after_questions(
        &mut self,
        files: &mut Self::Files,
        words: &QuestionWords<'_>,
        answer: &Result<Tally, Fault<'_>>,
    ) -> io::Result<()>
        ensures told { told self.new ≡ told self.old }
        ensures looks { LooksAt (Self.Files.disk files.old) (Self.Files.disk files.new) };

    /// Tells what is known beside the answer of slapconf.
    fn after_configuration(
        &mut self,
        files: &mut Self::Files,
        words: &ConfWords<'_>,
        suffixes: &Self::Suffixes,
        answer: &Result<dir_conf::Tally, Fault<'_>>,
    ) -> io::Result<()>
        ensures told { told self.new ≡ told self.old }
        ensures looks { LooksAt (Self.Files.disk files.old) (Self.Files.disk files.new) };
}

/// Standard error.
#[derive(Drop)]
pub struct StandardError<'a, R> {
    rt: &'a R,
    /// The line that tells how far the run is, which makes room for what is told.
    line: &'a ProgressLine,
}

impl<'a, R> StandardError<'a, R> {
    pub fn new(rt: &'a R, line: &'a ProgressLine) -> StandardError<'a, R> {
        StandardError { rt, line }
    }
}

impl<'a, R: Files + Input + Print + Eprint + AllocGlobal> Console for StandardError<'a, R>
where
    R::Reader: IsTerminal,
{
    type Files = SystemFiles<'a, R>;

    type Notes = PrintedNotes<'a, R>;

    type Suffixes = KeptSuffixes;

    ghost told = { λ _. None };

    fn tell_fault(&mut self, fault: &Fault<'_>) -> io::Result<()> {
        self.line.clear();
        eprintln!(self.rt; "slapkit: {fault}")
    }

    fn tell_argument(&mut self, notes: &PrintedNotes<'a, R>) -> io::Result<()> {
        notes.print_argument()
    }

    fn after_run(
        &mut self,
        files: &mut SystemFiles<'a, R>,
        words: &ModifyWords<'_>,
        answer: &Result<Summary, Fault<'_>>,
    ) -> io::Result<()> {
        self.line.clear();
        Hints::new(self.rt, self.line, files).after_run(words, answer)?;
        self.line.clear();
        Ok(())
    }

    fn after_question(
        &mut self,
        files: &mut SystemFiles<'a, R>,
        words: &AccessWords<'_>,
        answer: &Result<(), Fault<'_>>,
    ) -> io::Result<()> {
        self.line.clear();
        Hints::new(self.rt, self.line, files).after_question(words, answer)?;
        self.line.clear();
        Ok(())
    }

    fn after_questions(
        &mut self,
        files: &mut SystemFiles<'a, R>,
        words: &QuestionWords<'_>,
        answer: &Result<Tally, Fault<'_>>,
    ) -> io::Result<()> {
        self.line.clear();
        Hints::new(self.rt, self.line, files).after_questions(words, answer)?;
        self.line.clear();
        Ok(())
    }

    fn after_configuration(
        &mut self,
        files: &mut SystemFiles<'a, R>,
        words: &ConfWords<'_>,
        suffixes: &KeptSuffixes,
        answer: &Result<dir_conf::Tally, Fault<'_>>,
    ) -> io::Result<()> {
        self.line.clear();
        Hints::new(self.rt, self.line, files).after_configuration(words, suffixes, answer)?;
        self.line.clear();
        Ok(())
    }
}
