//! `run_modify`: changes applied to a copy, and the undo text, the new copy and the report written.

ghost use Rattle.std.specs.Prelude.{◌≡◌, ◌⊎◌, Err, IfErr, IfOk, OnOk, Some};
ghost use Rattle.dir_ldif.specs.Device.{HasFailed};
ghost use Rattle.dir_tools.specs.Headline.{RunOutput, terms};
ghost use Rattle.dir_tools.specs.Inside.RunTexts.{AreTexts, is_dry, texts_of};
ghost use Rattle.dir_tools.specs.RunAnswers.{AnswersRun, IsCausedBy, IsStatedRun, IsWholeRun, sources};
ghost use Rattle.dir_tools.specs.StoppedReading.{HeldBefore};
ghost use Rattle.dir_names.specs.NameKeys.{name_key};
ghost use Rattle.dir_tools.specs.Suffix.{IsNoSuffix, nonempty_key, suffix_of};
ghost use Rattle.dir_tools.specs.Writing.{FlushedInOrder, IsWriteFault, WroteInOrder};
ghost use Rattle.dir_tools.specs.declared.fault.Input.TheVariants as Input;
ghost use Rattle.dir_tools.specs.declared.fault.Output.TheVariants as Output;
ghost use Rattle.dir_tools.specs.declared.fault.ToolFault.TheVariants as ToolFault;

use crate::copy::read_copy;
use crate::held::HeldMemory;
use crate::laws::{groups_are_undos, written_runs_are_taken_back, written_runs_go_back};
use crate::run::{ModifyOptions, Run, RunTexts, Summary};
use crate::write::write_text;
use crate::{Item, Output, ToolFault};
use dir_ldif::{Sink, Source, marks_are_known};
use dir_names::{Dn, DnKey, NameFault, Schema};
use dir_tree::TreeDirectory;
use std::alloc::Global;

/// Applies a text of changes to a copy of a directory. The undo text, the new copy and the report are
/// built whole, and then written one after the other, each flushed before the next is begun.
///
/// A record that is not a legal change counts as refused. Unless the run goes on, it ends after the
/// first refused record; what was accepted before is kept and written. A dry run writes only the
/// report. With `last` the changes are an undo text, of which the first so many groups are run: that takes
/// back the last so many accepted records of the run that wrote it.
///
/// # Errors
///
/// In this order: the suffix is not a name of at least one RDN; the copy, as `read_copy` answers; the
/// fault in which the text of changes ends, if the run comes to it; that it ended after fewer groups than
/// are wanted; a writer's fault. Out of memory comes where it is met.
pub fn run_modify<R: Source, R2: Source, W: Sink, W2: Sink, W3: Sink>(
    alloc: Global,
    schema: &Schema,
    suffix: &[u8],
    options: ModifyOptions,
    copy: &mut R,
    changes: &mut R2,
    undo: &mut W,
    out: &mut W2,
    report: &mut W3,
) -> Result<Summary, ToolFault>
    ensures unfailed { OnOk result ((W.failures undo.new ≡ W.failures undo.old) × (W2.failures out.new ≡ W2.failures out.old) × (W3.failures report.new ≡ W3.failures report.old)) }
    ensures headline { (output : RunOutput)
        × WroteInOrder options.dry result output.texts (W.taken undo.old, W.taken undo.new) (W2.taken out.old, W2.taken out.new) (W3.taken report.old, W3.taken report.new)
        × AnswersRun (terms schema.now suffix.now options) (sources (R.left copy.old) (R2.left changes.old)) result output
        × IsWholeRun (terms schema.now suffix.now options) (sources (R.left copy.old) (R2.left changes.old)) result output }
    ensures first { IfErr result (HeldBefore (terms schema.now suffix.now options) (R.left copy.old, R.left copy.new) (R2.left changes.old, R2.left changes.new)) }
    ensures unfailed_copy { OnOk result (R.failures copy.new ≡ R.failures copy.old) }
    ensures unfailed_changes { OnOk result (R2.failures changes.new ≡ R2.failures changes.old) }
    ensures read_copy { result ≡ Err (ToolFault.Read Input.Copy) → HasFailed (R.failures copy.old) (R.failures copy.new) }
    ensures read_changes { result ≡ Err (ToolFault.Read Input.Changes) → HasFailed (R2.failures changes.old) (R2.failures changes.new) }
    ensures flushed { FlushedInOrder options.dry result (W.is_flushed undo.new) (W2.is_flushed out.new) (W3.is_flushed report.new) }
    ensures write_undo { result ≡ Err (ToolFault.Write Output.Undo) → HasFailed (W.failures undo.old) (W.failures undo.new) ⊎ W.may_stall undo.new }
    ensures write_out { result ≡ Err (ToolFault.Write Output.Out) → HasFailed (W2.failures out.old) (W2.failures out.new) ⊎ W2.may_stall out.new }
    ensures write_report { result ≡ Err (ToolFault.Write Output.Report) → HasFailed (W3.failures report.old) (W3.failures report.new) ⊎ W3.may_stall report.new }
{
    run_modify_holding(
        alloc,
        HeldMemory::Freed,
        schema,
        suffix,
        options,
        copy,
        changes,
        undo,
        out,
        report,
    )
}

/// Runs as `run_modify` does, and says what becomes of the memory that the run held.
///
/// # Errors
///
/// Those of `run_modify`.
pub fn run_modify_holding<R: Source, R2: Source, W: Sink, W2: Sink, W3: Sink>(
    alloc: Global,
    held: HeldMemory,
    schema: &Schema,
    suffix: &[u8],
    options: ModifyOptions,
    copy: &mut R,
    changes: &mut R2,
    undo: &mut W,
    out: &mut W2,
    report: &mut W3,
) -> Result<Summary, ToolFault>
    ensures unfailed { OnOk result ((W.failures undo.new ≡ W.failures undo.old) × (W2.failures out.new ≡ W2.failures out.old) × (W3.failures report.new ≡ W3.failures report.old)) }
    ensures headline { (output : RunOutput)
        × WroteInOrder options.dry result output.texts (W.taken undo.old, W.taken undo.new) (W2.taken out.old, W2.taken out.new) (W3.taken report.old, W3.taken report.new)
        × AnswersRun (terms schema.now suffix.now options) (sources (R.left copy.old) (R2.left changes.old)) result output
        × IsWholeRun (terms schema.now suffix.now options) (sources (R.left copy.old) (R2.left changes.old)) result output }
    ensures first { IfErr result (HeldBefore (terms schema.now suffix.now options) (R.left copy.old, R.left copy.new) (R2.left changes.old, R2.left changes.new)) }
    ensures unfailed_copy { OnOk result (R.failures copy.new ≡ R.failures copy.old) }
    ensures unfailed_changes { OnOk result (R2.failures changes.new ≡ R2.failures changes.old) }
    ensures read_copy { result ≡ Err (ToolFault.Read Input.Copy) → HasFailed (R.failures copy.old) (R.failures copy.new) }
    ensures read_changes { result ≡ Err (ToolFault.Read Input.Changes) → HasFailed (R2.failures changes.old) (R2.failures changes.new) }
    ensures flushed { FlushedInOrder options.dry result (W.is_flushed undo.new) (W2.is_flushed out.new) (W3.is_flushed report.new) }
    ensures write_undo { result ≡ Err (ToolFault.Write Output.Undo) → HasFailed (W.failures undo.old) (W.failures undo.new) ⊎ W.may_stall undo.new }
    ensures write_out { result ≡ Err (ToolFault.Write Output.Out) → HasFailed (W2.failures out.old) (W2.failures out.new) ⊎ W2.may_stall out.new }
    ensures write_report { result ≡ Err (ToolFault.Write Output.Report) → HasFailed (W3.failures report.old) (W3.failures report.new) ⊎ W3.may_stall report.new }
{
    let texts = match make_texts(alloc, held, schema, suffix, options, copy, changes) {
        Ok(texts) => texts,
        Err(fault) => return Err(fault),
    };
    match write_texts(&texts, undo, out, report) {
        Ok(()) => Ok(texts.summary),
        Err(fault) => Err(fault),
    }
}

/// Writes the texts of a run one after the other.
fn write_texts<W: Sink, W2: Sink, W3: Sink>(
    texts: &RunTexts,
    undo: &mut W,
    out: &mut W2,
    report: &mut W3,
) -> Result<(), ToolFault>
    ensures unfailed { OnOk result ((W.failures undo.new ≡ W.failures undo.old) × (W2.failures out.new ≡ W2.failures out.old) × (W3.failures report.new ≡ W3.failures report.old)) }
    ensures texts { WroteInOrder (is_dry texts.now) result (texts_of texts.now) (W.taken undo.old, W.taken undo.new) (W2.taken out.old, W2.taken out.new) (W3.taken report.old, W3.taken report.new) }
    ensures fault { IfErr result IsWriteFault }
    ensures flushed { FlushedInOrder (is_dry texts.now) result (W.is_flushed undo.new) (W2.is_flushed out.new) (W3.is_flushed report.new) }
    ensures write_undo { result ≡ Err (ToolFault.Write Output.Undo) → HasFailed (W.failures undo.old) (W.failures undo.new) ⊎ W.may_stall undo.new }
    ensures write_out { result ≡ Err (ToolFault.Write Output.Out) → HasFailed (W2.failures out.old) (W2.failures out.new) ⊎ W2.may_stall out.new }
    ensures write_report { result ≡ Err (ToolFault.Write Output.Report) → HasFailed (W3.failures report.old) (W3.failures report.new) ⊎ W3.may_stall report.new }
{
    if let Some(files) = &texts.files {
        if let Err(fault) = write_text(undo, files.undo.as_slice(), Output::Undo) {
            return Err(fault);
        }
        if let Err(fault) = write_text(out, files.out.as_slice(), Output::Out) {
            return Err(fault);
        }
    }
    write_text(report, texts.report.as_slice(), Output::Report)
}

fn make_texts<R: Source, R2: Source>(
    alloc: Global,
    held: HeldMemory,
    schema: &Schema,
    suffix: &[u8],
    options: ModifyOptions,
    copy: &mut R,
    changes: &mut R2,
) -> Result<RunTexts, ToolFault>
    ensures ok { IfOk result (λ texts. (output : RunOutput) × AreTexts options.dry output.texts texts × (texts.summary ≡ output.summary)
        × IsStatedRun (terms schema.now suffix.now options) (sources (R.left copy.old) (R2.left changes.old)) output) }
    ensures blamed { IfErr result (IsCausedBy (terms schema.now suffix.now options) (sources (R.left copy.old) (R2.left changes.old))) }
    ensures first { IfErr result (HeldBefore (terms schema.now suffix.now options) (R.left copy.old, R.left copy.new) (R2.left changes.old, R2.left changes.new)) }
    ensures unfailed_copy { OnOk result (R.failures copy.new ≡ R.failures copy.old) }
    ensures unfailed_changes { OnOk result (R2.failures changes.new ≡ R2.failures changes.old) }
    ensures read_copy { result ≡ Err (ToolFault.Read Input.Copy) → HasFailed (R.failures copy.old) (R.failures copy.new) }
    ensures read_changes { result ≡ Err (ToolFault.Read Input.Changes) → HasFailed (R2.failures changes.old) (R2.failures changes.new) }
{
    let key = match suffix_key(alloc, schema, suffix) {
        Ok(key) => key,
        Err(fault) => return Err(fault),
    };
    let directory = match read_copy(alloc, schema, TreeDirectory::new(alloc, key), copy) {
        Ok(directory) => directory,
        Err(fault) => return Err(fault),
    };
    let mut run = Run::new(alloc, directory, options);
    marks_are_known();
    if let Err(fault) = run.take_all(alloc, schema, changes) {
        held.let_go(run);
        return Err(fault);
    }
    written_runs_are_taken_back();
    written_runs_go_back();
    groups_are_undos();
    run.finish(alloc, held)
}

/// The key of the suffix, which has at least one RDN.
///
/// # Errors
///
/// `BadQuestion` of the suffix, if it is no legal name (RFC 4514) or has no RDN. `Memory` if memory runs out.
pub fn suffix_key(alloc: Global, schema: &Schema, text: &[u8]) -> Result<DnKey, ToolFault>
    ensures ok { IfOk result (λ key. suffix_of schema.now text.now ≡ Some key) }
    ensures blamed { IfErr result (IsNoSuffix (suffix_of schema.now text.now)) }
{
    let name = match Dn::read(alloc, text) {
        Ok(name) => name,
        Err(NameFault::Memory) => return Err(ToolFault::Memory),
        Err(_) => return Err(ToolFault::BadQuestion(Item::Suffix)),
    };
    key_with_rdn(alloc, schema, &name)
}

/// The key of a name of at least one RDN.
fn key_with_rdn(alloc: Global, schema: &Schema, name: &Dn) -> Result<DnKey, ToolFault>
    ensures ok { IfOk result (λ key. nonempty_key (name_key schema.now name.now) ≡ Some key) }
    ensures blamed { IfErr result (IsNoSuffix (nonempty_key (name_key schema.now name.now))) }
{
    match name.key(alloc, schema) {
        Ok(key) => {
            if key.depth() == 0 {
                return Err(ToolFault::BadQuestion(Item::Suffix));
            }
            Ok(key)
        }
        Err(NameFault::Memory) => Err(ToolFault::Memory),
        Err(_) => Err(ToolFault::BadQuestion(Item::Suffix)),
    }
}
