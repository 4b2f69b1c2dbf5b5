//! A run of changes on a directory: how it is run, what it counts, and its texts.

ghost use Rattle.std.specs.Prelude.{◌≡◌, ℕ, List, [], Some, IfErr, IfOk};
ghost use Rattle.std.specs.Option.{option_and_then, option_map};
ghost use Rattle.dir_ldif.specs.declared.faults.StreamFault.TheVariants as StreamFault;
ghost use Rattle.dir_ldif.specs.Limits.{most_read_calls};
ghost use Rattle.dir_ldif.specs.Reader.{IsReading, answers_to_come, answers_to_come_with, in_hand, marks_at_end, schema_of, source_of, turns_left};
ghost use Rattle.dir_ldif.specs.Records.{marks_up_to};
ghost use Rattle.dir_tools.specs.RunOf.{records_at};
ghost use Rattle.dir_tools.specs.Inside.Running.{changes_fault};

use crate::canonical::canonical_text;
use crate::held::HeldMemory;
use crate::report::Report;
use crate::taking::{End, Taker, take_records};
use crate::{Cause, Input, ToolFault};
use dir_change::{History, Refusal, apply};
use dir_ldif::{Change, Record, RecordFault, RecordReader, Source, StreamFault};
use dir_names::Schema;
use dir_tree::Directory;
use std::alloc::Global;

/// How changes are run.
#[derive(Clone, Copy, PartialEq, Eq, Debug)]
pub struct ModifyOptions {
    /// Go on after a refused record.
    pub go_on: bool,
    /// Write only the report.
    pub dry: bool,
    /// Report accepted records too.
    pub verbose: bool,
    /// Run the first so many groups of an undo text, and no more: that takes back the last so many accepted records.
    pub last: Option<u64>,
}

/// How many records a run accepted and how many it refused.
#[derive(Clone, Copy, PartialEq, Eq, Debug)]
pub struct Summary {
    pub accepted: u64,
    pub refused: u64,
}

/// What a run writes.
#[derive(Drop)]
pub(crate) struct RunTexts {
    /// None in a dry run.
    pub(crate) files: Option<Files>,
    pub(crate) report: Vec<u8>,
    pub(crate) summary: Summary,
}

/// The undo text and the new copy.
#[derive(Drop)]
pub(crate) struct Files {
    pub(crate) undo: Vec<u8>,
    pub(crate) out: Vec<u8>,
}

/// A run as far as it has come.
#[derive(Drop)]
pub(crate) struct Run<D: Directory + Drop> {
    directory: D,
    history: History,
    report: Report,
    summary: Summary,
    options: ModifyOptions,
}

impl<D: Directory + Drop> Run<D> {
    ghost use Rattle.std.specs.Prelude.{◌≡◌, ◌<◌, ◌+◌, ◌^◌, ◌-◌, ℕ, Err, IfErr, IfOk, IfSome, None, OnOk, Some, false, true};
    ghost use Rattle.dir_ldif.specs.declared.faults.StreamFault.TheVariants as StreamFault;
    ghost use Rattle.dir_tools.specs.CompleteRecords.{CompleteRecordsAreAccepted, GaveBytes, GaveBytesTo, IsReaderFault, changes_after};
    ghost use Rattle.dir_tools.specs.ReadCalls.{FillsReadCalls, GaveAtLeast};
    ghost use Rattle.dir_tools.specs.declared.fault.ToolFault.TheVariants as ToolFault;
    ghost use Rattle.std.specs.Option.{option_and_then, option_map};
    ghost use Rattle.dir_ldif.specs.Reader.{IsReading, answers_to_come, marks_at_end, schema_of, source_of, turns_left};
    ghost use Rattle.dir_tools.specs.RunOf.{marks_at, records_at, too_few_groups};
    ghost use Rattle.dir_tools.specs.Inside.Running.{AreTextsOfRun, HasChangeOutcome, HasOutcome, HasTakenNone, IsChangesFaultCause, KeepsReport, RunsOver, Takes, records_taken};

    /// A run that has taken no record.
    pub(crate) fn new(alloc: Global, directory: D, options: ModifyOptions) -> Run<D>
        ensures { HasTakenNone directory options result }
    {
        Run {
            directory,
            history: History::new(alloc),
            report: Report::new(alloc, options.verbose),
            summary: Summary {
                accepted: 0,
                refused: 0,
            },
            options,
        }
    }

    /// Reads the changes to their end, or up to the first refused one where the run doesn't go on; with `last` the first so
    /// many groups of an undo text.
    pub(crate) fn take_all<R: Source>(
        &mut self,
        alloc: Global,
        schema: &Schema,
        changes: &mut R,
    ) -> Result<(), ToolFault>
        requires { records_taken self.old ≡ 0 }
        ensures ok { OnOk result (RunsOver D.state schema.now (option_map (records_at schema.now self.old.options.last) (R.left changes.old))
            (option_and_then (marks_at self.old.options.last) (R.left changes.old)) self.old self.new) }
        ensures blamed { IfErr result (IsChangesFaultCause D.state schema.now (option_map (records_at schema.now self.old.options.last) (R.left changes.old))
            (option_and_then (marks_at self.old.options.last) (R.left changes.old)) (R.failures changes.old) (R.failures changes.new) self.old) }
        ensures unfailed { OnOk result (R.failures changes.new ≡ R.failures changes.old) }
        ensures settled { IfErr result (λ fault. IsReaderFault fault → self.old.options.go_on ≡ false → GaveBytes (R.left changes.old) (R.left changes.new)
            (λ bytes. CompleteRecordsAreAccepted schema.now (D.state self.old.directory) (changes_after schema.now self.old.options.last bytes))) }
        ensures long { result ≡ Err (ToolFault.BadChanges StreamFault.TooManyTurns) → IfSome (R.left changes.old) FillsReadCalls }
        ensures options { self.new.options ≡ self.old.options }
    {
        let mut records = match reader_of(alloc, schema, changes, self.options.last) {
            Ok(records) => records,
            Err(fault) => return Err(ended(fault)),
        };
        let answer = self.take_records(alloc, schema, &mut records);
        records.into_source();
        answer
    }

    fn take_records<S: Source + Drop>(
        &mut self,
        alloc: Global,
        schema: &Schema,
        records: &mut RecordReader<'_, S>,
    ) -> Result<(), ToolFault>
        requires records_taken { records_taken self.old ≡ 0 }
        requires reading { IsReading records.old }
        requires schema { schema_of records.old ≡ schema.now }
        ensures ok { OnOk result (RunsOver D.state schema.now (answers_to_come S.left records.old) (marks_at_end S.left records.old) self.old self.new) }
        ensures blamed { IfErr result (IsChangesFaultCause D.state schema.now (answers_to_come S.left records.old) (marks_at_end S.left records.old)
            (S.failures (source_of records.old)) (S.failures (source_of records.new)) self.old) }
        ensures settled { IfErr result (λ fault. IsReaderFault fault → self.old.options.go_on ≡ false → GaveBytesTo S.left records.old records.new (CompleteRecordsAreAccepted schema.now (D.state self.old.directory))) }
        ensures turns { result ≡ Err (ToolFault.BadChanges StreamFault.TooManyTurns) → GaveAtLeast (S.left (source_of records.old)) (S.left (source_of records.new)) (turns_left records.old) }
        ensures unfailed { OnOk result (S.failures (source_of records.new) ≡ S.failures (source_of records.old)) }
        ensures same { S.is_same (source_of records.old) (source_of records.new) }
        ensures options { self.new.options ≡ self.old.options }
    {
        match take_records(self, alloc, schema, records) {
            End::AtEnd => self.has_groups(records.marks()),
            End::Enough => Ok(()),
            End::TextFault(fault) => Err(ended(fault)),
            End::TakeFault(fault) => Err(fault),
        }
    }

    /// Whether a text that has ended after so many marks had the groups that are wanted.
    fn has_groups(&self, marks: u64) -> Result<(), ToolFault>
        ensures ok { OnOk result (too_few_groups self.now.options.last (Some marks) true ≡ None) }
        ensures err { IfErr result (λ fault. (wanted : ℕ) × (self.now.options.last ≡ Some wanted) × (marks < wanted) × (fault ≡ ToolFault.TooFewGroups marks)) }
    {
        match self.options.last {
            Some(groups) if marks < groups => Err(ToolFault::TooFewGroups(marks)),
            _ => Ok(()),
        }
    }

    /// Takes one record, and tells whether it is accepted.
    fn take_record(
        &mut self,
        alloc: Global,
        schema: &Schema,
        line: u64,
        found: Result<Record, RecordFault>,
    ) -> Result<bool, ToolFault>
        requires { records_taken self.old < 2 ^ 64 - 1 }
        ensures ok { IfOk result (λ is_accepted. Takes is_accepted D.state schema.now line found self.old self.new) }
        ensures records_taken { IfOk result (λ _. records_taken self.new ≡ records_taken self.old + 1) }
        ensures err { IfErr result (λ e. e ≡ ToolFault.Memory) }
        ensures options { self.new.options ≡ self.old.options }
    {
        match self.outcome(alloc, schema, found)? {
            None => {
                self.report.accept(line)?;
                self.summary.accepted += 1;
                Ok(true)
            }
            Some(cause) => {
                self.report.refuse(line, cause)?;
                self.summary.refused += 1;
                Ok(false)
            }
        }
    }

    /// Why a record is refused, or none where it is applied.
    fn outcome(
        &mut self,
        alloc: Global,
        schema: &Schema,
        found: Result<Record, RecordFault>,
    ) -> Result<Option<Cause>, ToolFault>
        ensures ok { IfOk result (HasOutcome D.state schema.now found self.old self.new) }
        ensures err { IfErr result (λ e. e ≡ ToolFault.Memory) }
        ensures kept { KeepsReport self.old self.new }
    {
        match found {
            Ok(Record::Change(change)) => self.change(alloc, schema, &change),
            Ok(Record::Content { .. }) => Ok(Some(Cause::Fault(RecordFault::BadChangetype))),
            Err(fault) => Ok(Some(Cause::Fault(fault))),
        }
    }

    fn change(
        &mut self,
        alloc: Global,
        schema: &Schema,
        change: &Change,
    ) -> Result<Option<Cause>, ToolFault>
        ensures ok { IfOk result (HasChangeOutcome D.state schema.now change.now self.old self.new) }
        ensures err { IfErr result (λ e. e ≡ ToolFault.Memory) }
        ensures kept { KeepsReport self.old self.new }
    {
        match apply(alloc, schema, &mut self.directory, change) {
            Ok(undo) => match self.history.push(undo) {
                Ok(()) => Ok(None),
                Err(_) => Err(ToolFault::Memory),
            },
            Err(Refusal::Code(code)) => Ok(Some(Cause::Code(code))),
            Err(Refusal::Memory) => Err(ToolFault::Memory),
        }
    }

    /// The texts of the run. The directory and its history go.
    pub(crate) fn finish(self, alloc: Global, held: HeldMemory) -> Result<RunTexts, ToolFault>
        ensures err { IfErr result (λ e. e ≡ ToolFault.Memory) }
        ensures texts { IfOk result (AreTextsOfRun D.state self) }
    {
        let Run {
            directory,
            history,
            report,
            summary,
            options,
        } = self;
        let files = if options.dry {
            None
        } else {
            Some(Files {
                undo: history.undo_text(alloc)?,
                out: canonical_text(alloc, &directory)?,
            })
        };
        let report = report.close(summary)?;
        held.let_go((directory, history));
        Ok(RunTexts {
            files,
            report,
            summary,
        })
    }
}

impl<D: Directory + Drop> Taker for Run<D> {
    ghost use Rattle.dir_tools.specs.Inside.Running.{TakesRecord, records_taken};

    ghost take_gives = { TakesRecord D.state };

    ghost counted = { records_taken };

    /// More records are wanted after an accepted one, and after a refused one where the run goes on.
    fn take(
        &mut self,
        alloc: Global,
        schema: &Schema,
        line: u64,
        found: Result<Record, RecordFault>,
    ) -> Result<bool, ToolFault> {
        let is_accepted = self.take_record(alloc, schema, line, found)?;
        Ok(is_accepted || self.options.go_on)
    }
}

/// A reader of all records of a text of changes, or of its first groups, so many.
fn reader_of<'s, S: Source + Drop>(
    alloc: Global,
    schema: &'s Schema,
    changes: S,
    last: Option<u64>,
) -> Result<RecordReader<'s, S>, StreamFault>
    ensures answers { IfOk result (λ r. answers_to_come S.left r ≡ option_map (records_at schema.now last) (S.left changes)) }
    ensures ahead { IfOk result (λ r. (in_hand r ≡ []) × ((text : List ℕ) → answers_to_come_with r text ≡ records_at schema.now last text)) }
    ensures marks { IfOk result (λ r. (wanted : ℕ) → last ≡ Some wanted → marks_at_end S.left r ≡ option_and_then (marks_up_to wanted) (S.left changes)) }
    ensures turns { IfOk result (λ r. turns_left r ≡ most_read_calls) }
    ensures source { IfOk result (λ r. (source_of r ≡ changes) × (schema_of r ≡ schema.now) × IsReading r) }
    ensures err { IfErr result (λ fault. fault ≡ StreamFault.Memory) }
{
    match last {
        None => RecordReader::new(alloc, schema, changes),
        Some(groups) => RecordReader::up_to(alloc, schema, changes, groups),
    }
}

/// What a fault that ends the text of changes means.
fn ended(fault: StreamFault) -> ToolFault
    ensures { result ≡ changes_fault fault }
{
    match fault {
        StreamFault::Read => ToolFault::Read(Input::Changes),
        StreamFault::Memory => ToolFault::Memory,
        fault => ToolFault::BadChanges(fault),
    }
}
