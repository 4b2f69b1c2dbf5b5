//! The report of a run.

ghost use Rattle.std.specs.Prelude.{◌≡◌, [], ◌++◌, IfOk, OnOk, cond};
ghost use Rattle.dir_tools.specs.Report.{accepted_line, numbers_line, refused_line};

use crate::{Cause, Summary};
use dir_names::Memory;
use std::alloc::Global;

/// The report of a run as far as it has come, a line for each record that it speaks of.
#[derive(Drop)]
pub(crate) struct Report {
    text: Vec<u8>,
    alloc: Global,
    verbose: bool,
}

impl Report {
    pub(crate) fn new(alloc: Global, verbose: bool) -> Report
        ensures { (result.text.items ≡ []) × (result.verbose ≡ verbose) }
    {
        Report {
            text: Vec::new(alloc),
            alloc,
            verbose,
        }
    }

    /// Tells of an accepted record, where the report is verbose.
    pub(crate) fn accept(&mut self, line: u64) -> Result<(), Memory>
        ensures text { OnOk result (self.new.text.items ≡ self.old.text.items ++ cond self.old.verbose (accepted_line line) []) }
        ensures verbose { self.new.verbose ≡ self.old.verbose }
    {
        if self.verbose {
            let text = format!(in self.alloc; "line {line}: accepted\n")?;
            self.text.extend_from_slice(text.as_bytes())?;
        }
        Ok(())
    }

    pub(crate) fn refuse(&mut self, line: u64, cause: Cause) -> Result<(), Memory>
        ensures text { OnOk result (self.new.text.items ≡ self.old.text.items ++ refused_line line cause) }
        ensures verbose { self.new.verbose ≡ self.old.verbose }
    {
        let text = format!(in self.alloc; "line {line}: refused, {cause}\n")?;
        self.text.extend_from_slice(text.as_bytes())?;
        Ok(())
    }

    /// The whole report, whose last line has the numbers.
    pub(crate) fn close(self, summary: Summary) -> Result<Vec<u8>, Memory>
        ensures { IfOk result (λ text. text.items ≡ self.text.items ++ numbers_line summary.accepted summary.refused) }
    {
        let Report {
            mut text,
            alloc,
            verbose: _,
        } = self;
        let accepted = summary.accepted;
        let refused = summary.refused;
        let last = format!(in alloc; "accepted {accepted}, refused {refused}\n")?;
        text.extend_from_slice(last.as_bytes())?;
        Ok(text)
    }
}
