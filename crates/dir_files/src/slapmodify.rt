//! `slapkit slapmodify`: the files that a command line names, and the run over them.

ghost use Rattle.std.specs.Prelude.{◌≡◌, ◌⊎◌, Err, IfErr, IfOk, IfSome, Some};
ghost use Rattle.std.specs.Option.{option_copied};
ghost use Rattle.dir_ldif.specs.Device.{HasFailed};
ghost use Rattle.dir_names.specs.Table.Builtin.{builtin_rows};
ghost use Rattle.dir_tools.specs.AccessAnswers.{IsTypesFault};
ghost use Rattle.dir_tools.specs.Headline.{RunOutput};
ghost use Rattle.dir_tools.specs.RunAnswers.{AnswersRun, IsWholeRun, sources};
ghost use Rattle.dir_tools.specs.StoppedReading.{HeldBefore};
ghost use Rattle.dir_tools.specs.Writing.{FlushedInOrder, WroteInOrder};
ghost use Rattle.dir_tools.specs.declared.fault.Input.TheVariants as Input;
ghost use Rattle.dir_tools.specs.declared.fault.Output.TheVariants as Output;
ghost use Rattle.dir_tools.specs.declared.fault.ToolFault.TheVariants as ToolFault;
ghost use Rattle.dir_files.specs.Failures.{FailsByDevice, FailsByDeviceOr};
ghost use Rattle.dir_files.specs.Faults.{IsModifyFault, NamesNoPath};
ghost use Rattle.dir_files.specs.Paths.{IsWriteFaultOf, NamesItsPath, RefusesSamePath, first_repeated, outputs_of};
ghost use Rattle.dir_files.specs.Runs.{AllCalls, AreTypesOf, CallsUnder, Made, Publishes, RunsOver, Syncs, WritesAll, WritesOutputs, WritesReport, changes_text, terms_of, sources_of};

use crate::call_faults::{not_created, not_opened, not_reported, not_written, run_fault};
use crate::devices::Dropped;
use crate::fault::Fault;
use crate::files::FileSystem;
use crate::words::{ModifyWords, OutputPaths};
use dir_ldif::{Sink, Source};
use dir_names::Schema;
use dir_tools::{Buffer, HeldMemory, Output, Summary, ToolFault, run_modify_holding, run_schema};
use std::alloc::Global;

/// Runs `slapmodify` on the files that the words name. The attribute types that a configuration defines are read first, in a dry run too,
/// and its file is let go before another is opened.
///
/// The undo file and the new copy get their names only when both are whole and synced, the undo file first, and
/// the report is written last. After a fault nothing is left of what the run has made. The memory that the run
/// held is left to the system: a program that goes on afterwards doesn't get it back.
///
/// # Errors
///
/// In this order: two paths that are the same; the configuration can't be opened, or its types can't be read; another file that can't
/// be opened, the copy before the changes; one that can't be created, the undo file before the new copy; the tool's own fault; a file
/// that can't be synced or published, or the report that can't be written.
pub fn run<'a, F: FileSystem>(
    alloc: Global,
    files: &mut F,
    words: &ModifyWords<'a>,
) -> Result<Summary, Fault<'a>>
    ensures faults { RefusesSamePath words.now (first_repeated words.now) result }
    ensures calls { Made (F.disk files.old) (F.disk files.new) (λ d. AllCalls (first_repeated words.now) words.now d result) }
    ensures failed { FailsByDevice result (F.failures files.old) (F.failures files.new) }
{
    if let Some(path) = first_repeated(words) {
        return Err(Fault::SamePath(path));
    }
    match words.config {
        Some(path) => {
            let mut config = match files.open(path) {
                Ok(config) => config.file,
                Err(why) => return Err(not_opened(path, why)),
            };
            let types = types_in(alloc, &mut config);
            files.close(config);
            match types {
                Ok(schema) => run_under(alloc, files, &schema, words),
                Err(fault) => Err(run_fault(fault)),
            }
        }
        None => match Schema::builtin(alloc) {
            Ok(schema) => run_under(alloc, files, &schema, words),
            Err(_) => Err(run_fault(ToolFault::Memory)),
        },
    }
}

/// The built-in types, with those that a configuration defines.
fn types_in<R: Source>(alloc: Global, config: &mut R) -> Result<Schema, ToolFault>
    ensures ok { IfOk result (AreTypesOf (R.left config.old)) }
    ensures fault { IfErr result (IsTypesFault builtin_rows (R.left config.old)) }
    ensures read { result ≡ Err (ToolFault.Read Input.Config) → HasFailed (R.failures config.old) (R.failures config.new) }
{
    let Ok(schema) = Schema::builtin(alloc) else {
        return Err(ToolFault::Memory);
    };
    run_schema(alloc, &schema, config)
}

/// Opens the copy and the changes, and runs over them.
fn run_under<'a, F: FileSystem>(
    alloc: Global,
    files: &mut F,
    schema: &Schema,
    words: &ModifyWords<'a>,
) -> Result<Summary, Fault<'a>>
    ensures faults { IfErr result (NamesItsPath words.now) }
    ensures calls { Made (F.disk files.old) (F.disk files.new) (λ d. CallsUnder schema.now words.now d result) }
    ensures failed { FailsByDevice result (F.failures files.old) (F.failures files.new) }
{
    let copy = match files.open(words.data) {
        Ok(copy) => copy,
        Err(why) => return Err(not_opened(words.data, why)),
    };
    let mut text = copy.file;
    match words.changes {
        Some(path) => {
            let mut changes = match files.open(path) {
                Ok(changes) => changes.file,
                Err(why) => return Err(not_opened(path, why)),
            };
            let answer = with_changes(
                alloc,
                files,
                schema,
                words,
                copy.mode,
                &mut text,
                &mut changes,
            );
            files.close(changes);
            files.close(text);
            answer
        }
        None => {
            let mut changes = files.standard_input();
            let answer = with_changes(
                alloc,
                files,
                schema,
                words,
                copy.mode,
                &mut text,
                &mut changes,
            );
            files.close_standard_input(changes);
            files.close(text);
            answer
        }
    }
}

/// The first path that is the same text as one given before it.
pub fn first_repeated<'a>(words: &ModifyWords<'a>) -> Option<&'a str>
    ensures { option_copied result ≡ first_repeated words.now }
{
    let config = words.config;
    let data = Some(words.data);
    let out = words.out;
    let undo = words.undo;
    let changes = words.changes;
    if data == config {
        return data;
    }
    if out.is_some() && (out == config || out == data) {
        return out;
    }
    if undo.is_some() && (undo == config || undo == data || undo == out) {
        return undo;
    }
    if changes.is_some()
        && (changes == config || changes == data || changes == out || changes == undo)
    {
        return changes;
    }
    None
}

/// The files that are to be written: none in a dry run.
fn outputs_of<'a>(words: &ModifyWords<'a>) -> Option<OutputPaths<'a>>
    ensures { result ≡ outputs_of words.now }
{
    match (words.out, words.undo) {
        (Some(out), Some(undo)) if !words.options.dry => Some(OutputPaths { out, undo }),
        _ => None,
    }
}

/// Runs over the copy and the changes.
fn with_changes<'a, F: FileSystem, R: Source, R2: Source>(
    alloc: Global,
    files: &mut F,
    schema: &Schema,
    words: &ModifyWords<'a>,
    mode: u32,
    copy: &mut R,
    changes: &mut R2,
) -> Result<Summary, Fault<'a>>
    requires copy { IfSome (F.disk files.old) (λ d. R.left copy.old ≡ d.text_at words.now.data.now) }
    requires changes { IfSome (F.disk files.old) (λ d. R2.left changes.old ≡ changes_text d (option_copied words.now.changes)) }
    requires mode { IfSome (F.disk files.old) (λ d. mode ≡ d.mode_at words.now.data.now) }
    ensures faults { IfErr result (NamesItsPath words.now) }
    ensures calls { Made (F.disk files.old) (F.disk files.new) (λ d. WritesAll (outputs_of words.now) (d.mode_at words.now.data.now) (terms_of schema.now words.now) (sources_of words.now d) result) }
    ensures failed { FailsByDeviceOr (HasFailed (R.failures copy.old) (R.failures copy.new) ⊎ HasFailed (R2.failures changes.old) (R2.failures changes.new)) result (F.failures files.old) (F.failures files.new) }
{
    match outputs_of(words) {
        Some(paths) => with_outputs(alloc, files, schema, words, &paths, mode, copy, changes),
        None => without_outputs(alloc, files, schema, words, copy, changes),
    }
}

/// Runs without files to be written.
fn without_outputs<'a, F: FileSystem, R: Source, R2: Source>(
    alloc: Global,
    files: &mut F,
    schema: &Schema,
    words: &ModifyWords<'a>,
    copy: &mut R,
    changes: &mut R2,
) -> Result<Summary, Fault<'a>>
    ensures faults { IfErr result (NamesItsPath words.now) }
    ensures calls { Made (F.disk files.old) (F.disk files.new) (λ _. WritesReport (terms_of schema.now words.now) (sources (R.left copy.old) (R2.left changes.old)) result) }
    ensures failed { FailsByDeviceOr (HasFailed (R.failures copy.old) (R.failures copy.new) ⊎ HasFailed (R2.failures changes.old) (R2.failures changes.new)) result (F.failures files.old) (F.failures files.new) }
{
    let mut undo = Dropped;
    let mut out = Dropped;
    let mut report = Buffer::new(alloc);
    match with_files(
        alloc,
        schema,
        words,
        copy,
        changes,
        &mut undo,
        &mut out,
        &mut report,
    ) {
        Ok(summary) => match files.report(report.as_slice()) {
            Ok(()) => Ok(summary),
            Err(why) => Err(not_reported(why)),
        },
        Err(fault) => Err(modify_fault(words.options.last, fault)),
    }
}

/// Creates the drafts of the two files, that of the undo file first, and runs over them.
fn with_outputs<'a, F: FileSystem, R: Source, R2: Source>(
    alloc: Global,
    files: &mut F,
    schema: &Schema,
    words: &ModifyWords<'a>,
    paths: &OutputPaths<'a>,
    mode: u32,
    copy: &mut R,
    changes: &mut R2,
) -> Result<Summary, Fault<'a>>
    requires { outputs_of words.now ≡ Some paths.now }
    ensures faults { IfErr result (NamesItsPath words.now) }
    ensures calls { Made (F.disk files.old) (F.disk files.new) (λ _. WritesOutputs paths.now mode (terms_of schema.now words.now) (sources (R.left copy.old) (R2.left changes.old)) result) }
    ensures failed { FailsByDeviceOr (HasFailed (R.failures copy.old) (R.failures copy.new) ⊎ HasFailed (R2.failures changes.old) (R2.failures changes.new)) result (F.failures files.old) (F.failures files.new) }
{
    let mut undo = match files.create(paths.undo, mode) {
        Ok(undo) => undo,
        Err(why) => return Err(not_created(paths.undo, why)),
    };
    let mut out = match files.create(paths.out, mode) {
        Ok(out) => out,
        Err(why) => {
            files.discard(paths.undo, undo);
            return Err(not_created(paths.out, why));
        }
    };
    let mut report = Buffer::new(alloc);
    let answer = with_files(
        alloc,
        schema,
        words,
        copy,
        changes,
        &mut undo,
        &mut out,
        &mut report,
    );
    match answer {
        Ok(summary) => sync_outputs(files, paths, undo, out, report.as_slice(), summary),
        Err(fault) => {
            files.discard(paths.out, out);
            files.discard(paths.undo, undo);
            Err(modify_fault(words.options.last, fault))
        }
    }
}

/// Syncs the two files, and publishes them.
fn sync_outputs<'a, F: FileSystem>(
    files: &mut F,
    paths: &OutputPaths<'a>,
    undo: F::Draft,
    out: F::Draft,
    report: &[u8],
    summary: Summary,
) -> Result<Summary, Fault<'a>>
    ensures faults { IfErr result (IsWriteFaultOf paths.now) }
    ensures calls { Made (F.disk files.old) (F.disk files.new) (λ _. Syncs paths.now (F.Draft.taken undo) (F.Draft.taken out) report.now summary result) }
    ensures failed { FailsByDevice result (F.failures files.old) (F.failures files.new) }
{
    if let Err(why) = files.sync(paths.undo, &undo) {
        files.discard(paths.out, out);
        files.discard(paths.undo, undo);
        return Err(not_written(paths.undo, Output::Undo, why));
    }
    if let Err(why) = files.sync(paths.out, &out) {
        files.discard(paths.out, out);
        files.discard(paths.undo, undo);
        return Err(not_written(paths.out, Output::Out, why));
    }
    publish_outputs(files, paths, undo, out, report, summary)
}

/// Publishes the two files, the undo file first, and writes the report.
fn publish_outputs<'a, F: FileSystem>(
    files: &mut F,
    paths: &OutputPaths<'a>,
    undo: F::Draft,
    out: F::Draft,
    report: &[u8],
    summary: Summary,
) -> Result<Summary, Fault<'a>>
    ensures faults { IfErr result (IsWriteFaultOf paths.now) }
    ensures calls { Made (F.disk files.old) (F.disk files.new) (λ _. Publishes paths.now (F.Draft.taken undo) (F.Draft.taken out) report.now summary result) }
    ensures failed { FailsByDevice result (F.failures files.old) (F.failures files.new) }
{
    if let Err(why) = files.publish(paths.undo, undo) {
        files.discard(paths.out, out);
        return Err(not_written(paths.undo, Output::Undo, why));
    }
    if let Err(why) = files.publish(paths.out, out) {
        files.withdraw(paths.undo);
        return Err(not_written(paths.out, Output::Out, why));
    }
    if let Err(why) = files.report(report) {
        files.withdraw(paths.out);
        files.withdraw(paths.undo);
        return Err(not_reported(why));
    }
    Ok(summary)
}

/// Runs what the words ask for.
fn with_files<R: Source, R2: Source, W: Sink, W2: Sink, W3: Sink>(
    alloc: Global,
    schema: &Schema,
    words: &ModifyWords<'_>,
    copy: &mut R,
    changes: &mut R2,
    undo: &mut W,
    out: &mut W2,
    report: &mut W3,
) -> Result<Summary, ToolFault>
    ensures headline { (output : RunOutput)
        × WroteInOrder words.now.options.dry result output.texts (W.taken undo.old, W.taken undo.new) (W2.taken out.old, W2.taken out.new) (W3.taken report.old, W3.taken report.new)
        × AnswersRun (terms_of schema.now words.now) (sources (R.left copy.old) (R2.left changes.old)) result output
        × IsWholeRun (terms_of schema.now words.now) (sources (R.left copy.old) (R2.left changes.old)) result output }
    ensures first { IfErr result (HeldBefore (terms_of schema.now words.now) (R.left copy.old, R.left copy.new) (R2.left changes.old, R2.left changes.new)) }
    ensures flushed { FlushedInOrder words.now.options.dry result (W.is_flushed undo.new) (W2.is_flushed out.new) (W3.is_flushed report.new) }
    ensures read_copy { result ≡ Err (ToolFault.Read Input.Copy) → HasFailed (R.failures copy.old) (R.failures copy.new) }
    ensures read_changes { result ≡ Err (ToolFault.Read Input.Changes) → HasFailed (R2.failures changes.old) (R2.failures changes.new) }
    ensures write_undo { result ≡ Err (ToolFault.Write Output.Undo) → HasFailed (W.failures undo.old) (W.failures undo.new) ⊎ W.may_stall undo.new }
    ensures write_out { result ≡ Err (ToolFault.Write Output.Out) → HasFailed (W2.failures out.old) (W2.failures out.new) ⊎ W2.may_stall out.new }
{
    run_modify_holding(
        alloc,
        HeldMemory::Left,
        schema,
        words.suffix.as_bytes(),
        words.options,
        copy,
        changes,
        undo,
        out,
        report,
    )
}

/// The fault of a run that is to take so many records back, if it is, as the program's.
fn modify_fault<'a>(last: Option<u64>, fault: ToolFault) -> Fault<'a>
    ensures told { IsModifyFault last fault result }
    ensures named { NamesNoPath result }
{
    match (last, fault) {
        (Some(wanted), ToolFault::TooFewGroups(groups)) => Fault::TooFewGroups { wanted, groups },
        (_, fault) => run_fault(fault),
    }
}
