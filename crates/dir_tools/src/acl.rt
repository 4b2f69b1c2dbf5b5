//! `run_acl`: what a requester may do, by a configuration and a copy, and the report written (slapacl(8)). Whoever is to hear the
//! notes on the configuration and on the question first calls `read_config_with_argument`, `with_notes_on_words`, and then `run_acl_under`;
//! `read_config_with_argument` is for whoever is also to hear which argument a fault of the configuration is about.

mod configuration;
mod parts;
mod report;
mod word_notes;

ghost use Rattle.std.specs.Io.KnownBytes.{Consumes};
ghost use Rattle.std.specs.Prelude.{◌≡◌, ◌⊎◌, ◌≤◌, ℕ, Err, IfErr, IfOk, IfSome, List, Ok, OnOk, Option, length, option_copied};
ghost use Rattle.dir_names.specs.declared.schema.TypeRow.{TypeRow};
ghost use Rattle.dir_tree.specs.WellFormed.{IsWellFormed, IsWithinLimits};
ghost use Rattle.dir_acl.specs.Inside.ReadingConfig.{configuration_of};
ghost use Rattle.dir_tools.specs.CompleteRecords.{CompleteRecordsLoad, GaveBytes, IsReaderFault, answers_after};
ghost use Rattle.dir_tools.specs.CopyFaults.{HasRdn, IsCopyFaultCause};
ghost use Rattle.dir_tools.specs.CopyOf.{copy_of, empty_copy};
ghost use Rattle.dir_tools.specs.Inside.Asking.{IsNoReport, IsReportOn, configured_under, parts_in};
ghost use Rattle.dir_ldif.specs.Device.{HasFailed};
ghost use Rattle.dir_tools.specs.AccessAnswers.{AccessHeldBefore, AnswersQuestion, ComesAfterConfig, IsAccessFault, IsStatedReport, IsTextOf, IsWholeReport, access_sources};
ghost use Rattle.dir_tools.specs.AccessReport.{access_terms, parts_of, target_of};
ghost use Rattle.dir_tools.specs.Writing.{WroteReport};
ghost use Rattle.dir_tools.specs.declared.fault.Input.TheVariants as Input;
ghost use Rattle.dir_tools.specs.declared.fault.Output.TheVariants as Output;
ghost use Rattle.dir_tools.specs.declared.fault.ToolFault.TheVariants as ToolFault;

pub use crate::acl::configuration::{
    FaultWithArgument, NotedConfig, read_bounded, read_config, read_config_with_argument,
    run_schema,
};
use crate::acl::parts::{Parts, read_parts};
pub use crate::acl::parts::{Word, read_name, read_word};
pub use crate::acl::report::push_answer;
use crate::acl::report::report_text;
pub use crate::acl::word_notes::{with_note_on_word, with_notes_on_words};
use crate::copy::read_copy;
use crate::held::HeldMemory;
use crate::write::write_text;
use crate::{Output, ToolFault};
use dir_acl::Config;
use dir_ldif::{Sink, Source};
use dir_names::{Bytes, DnKey, Schema, Texts};
use dir_tree::{Directory, Entry, TreeDirectory};
use std::alloc::Global;

/// What slapacl is asked (slapacl(8)).
#[derive(Debug)]
pub struct Question {
    /// The name of the target (`-b`).
    pub base: Bytes,
    /// The requester's name (`-D`). Nobody asks if there is none, or if it is the name without RDNs.
    pub authc: Option<Bytes>,
    /// The words `attr[/access][:value]`. Without any word, `entry` is asked for.
    pub words: Texts,
    /// The target is not looked up: it has no attributes, whether or not the copy has it (`-u`).
    pub fake: bool,
    /// The report begins with the requester's name (`-v`).
    pub verbose: bool,
}

// Written out, so that a drop is one call in proofs (docs/CONTRIBUTING.md).
impl Drop for Question {
    fn drop(self) {
        let Question {
            base,
            authc,
            words,
            fake: _,
            verbose: _,
        } = self;
        drop(base);
        drop(authc);
        drop(words);
    }
}

/// Reports what a requester may do with an entry of a copy, under the access rules of a slapd.conf, and under the attribute
/// types of the schema with those that the slapd.conf defines. The report is built whole, and then written and flushed.
///
/// At most 16,785,408 bytes of the configuration are read, whatever its reader gives.
///
/// # Errors
///
/// In this order: the configuration's first fault; the base, the requester or the first word that is faulty;
/// the copy, as `read_copy` answers; `NoEntry`, if the base is outside the suffix, or the copy has no such entry
/// and it is to be looked up; the writer's fault. A read fault and out of memory come where they are met.
pub fn run_acl<R: Source, R2: Source, W: Sink>(
    alloc: Global,
    schema: &Schema,
    question: &Question,
    config: &mut R,
    copy: &mut R2,
    report: &mut W,
) -> Result<(), ToolFault>
    ensures unfailed { OnOk result (W.failures report.new ≡ W.failures report.old) }
    ensures answer { (text : List ℕ)
        × WroteReport result (W.taken report.old, W.taken report.new) text
        × AnswersQuestion (access_terms schema.now question.now) (access_sources (R.left config.old) (R2.left copy.old)) result text
        × IsWholeReport (access_terms schema.now question.now) (access_sources (R.left config.old) (R2.left copy.old)) result text }
    ensures first { IfErr result (AccessHeldBefore (access_terms schema.now question.now) (R.left config.old) (R2.left copy.old, R2.left copy.new)) }
    ensures bounded { (bytes : List ℕ) × Consumes (R.left config.old) (R.left config.new) bytes × (length bytes ≤ 16785408) }
    ensures unfailed_config { OnOk result (R.failures config.new ≡ R.failures config.old) }
    ensures unfailed_copy { OnOk result (R2.failures copy.new ≡ R2.failures copy.old) }
    ensures read_config { result ≡ Err (ToolFault.Read Input.Config) → HasFailed (R.failures config.old) (R.failures config.new) }
    ensures read_copy { result ≡ Err (ToolFault.Read Input.Copy) → HasFailed (R2.failures copy.old) (R2.failures copy.new) }
    ensures flushed { OnOk result (W.is_flushed report.new) }
    ensures write_report { result ≡ Err (ToolFault.Write Output.Report) → HasFailed (W.failures report.old) (W.failures report.new) ⊎ W.may_stall report.new }
{
    let (types, config) = match read_config(alloc, schema, config) {
        Ok(found) => found,
        Err(fault) => return Err(fault),
    };
    run_acl_under(
        alloc,
        HeldMemory::Freed,
        &types,
        question,
        &config,
        copy,
        report,
    )
}

/// Reports as `run_acl` does, under a configuration that was read, and its types, and says what becomes of the memory
/// that the directory takes.
///
/// # Errors
///
/// Those of `run_acl` that come after the configuration's.
pub fn run_acl_under<R: Source, W: Sink>(
    alloc: Global,
    held: HeldMemory,
    schema: &Schema,
    question: &Question,
    config: &Config,
    copy: &mut R,
    report: &mut W,
) -> Result<(), ToolFault>
    ensures unfailed { OnOk result (W.failures report.new ≡ W.failures report.old) }
    ensures answer { (text : List ℕ)
        × WroteReport result (W.taken report.old, W.taken report.new) text
        × ((start : List TypeRow) (known : Option (List ℕ)) → IsTextOf start known (configured_under schema.now config.now)
        → AnswersQuestion (access_terms start question.now) (access_sources known (R.left copy.old)) result text
        × IsWholeReport (access_terms start question.now) (access_sources known (R.left copy.old)) result text) }
    ensures first { IfErr result (λ fault. (start : List TypeRow) (known : Option (List ℕ)) → IsTextOf start known (configured_under schema.now config.now)
        → AccessHeldBefore (access_terms start question.now) known (R.left copy.old, R.left copy.new) fault) }
    ensures unfailed_copy { OnOk result (R.failures copy.new ≡ R.failures copy.old) }
    ensures after { IfErr result ComesAfterConfig }
    ensures read_copy { result ≡ Err (ToolFault.Read Input.Copy) → HasFailed (R.failures copy.old) (R.failures copy.new) }
    ensures flushed { OnOk result (W.is_flushed report.new) }
    ensures write_report { result ≡ Err (ToolFault.Write Output.Report) → HasFailed (W.failures report.old) (W.failures report.new) ⊎ W.may_stall report.new }
{
    let text = match report_under(alloc, held, schema, question, config, copy) {
        Ok(text) => text,
        Err(fault) => return Err(fault),
    };
    write_text(report, text.as_slice(), Output::Report)
}

/// The report under a configuration that was read.
fn report_under<R: Source>(
    alloc: Global,
    held: HeldMemory,
    schema: &Schema,
    question: &Question,
    config: &Config,
    copy: &mut R,
) -> Result<Vec<u8>, ToolFault>
    ensures ok { IfOk result (λ text. (start : List TypeRow) (known : Option (List ℕ)) → IsTextOf start known (configured_under schema.now config.now)
        → IsStatedReport (access_terms start question.now) (access_sources known (R.left copy.old)) text.items) }
    ensures blamed { IfErr result (λ fault. (start : List TypeRow) (known : Option (List ℕ)) → IsTextOf start known (configured_under schema.now config.now)
        → IsAccessFault (access_terms start question.now) (access_sources known (R.left copy.old)) fault) }
    ensures first { IfErr result (λ fault. (start : List TypeRow) (known : Option (List ℕ)) → IsTextOf start known (configured_under schema.now config.now)
        → AccessHeldBefore (access_terms start question.now) known (R.left copy.old, R.left copy.new) fault) }
    ensures unfailed_copy { OnOk result (R.failures copy.new ≡ R.failures copy.old) }
    ensures after { IfErr result ComesAfterConfig }
    ensures read_copy { result ≡ Err (ToolFault.Read Input.Copy) → HasFailed (R.failures copy.old) (R.failures copy.new) }
{
    let parts = match read_parts(alloc, schema, question) {
        Ok(parts) => parts,
        Err(fault) => return Err(fault),
    };
    report_for(alloc, held, schema, question, config, &parts, copy)
}

/// The report on a question with these parts.
fn report_for<R: Source>(
    alloc: Global,
    held: HeldMemory,
    schema: &Schema,
    question: &Question,
    config: &Config,
    parts: &Parts<'_>,
    copy: &mut R,
) -> Result<Vec<u8>, ToolFault>
    requires { parts_of (access_terms schema.now question.now) ≡ Ok (parts_in parts.now) }
    ensures ok { IfOk result (λ text. (start : List TypeRow) (known : Option (List ℕ)) → IsTextOf start known (configured_under schema.now config.now)
        → IsStatedReport (access_terms start question.now) (access_sources known (R.left copy.old)) text.items) }
    ensures blamed { IfErr result (λ fault. (start : List TypeRow) (known : Option (List ℕ)) → IsTextOf start known (configured_under schema.now config.now)
        → IsAccessFault (access_terms start question.now) (access_sources known (R.left copy.old)) fault) }
    ensures first { IfErr result (λ fault. (start : List TypeRow) (known : Option (List ℕ)) → IsTextOf start known (configured_under schema.now config.now)
        → AccessHeldBefore (access_terms start question.now) known (R.left copy.old, R.left copy.new) fault) }
    ensures unfailed_copy { OnOk result (R.failures copy.new ≡ R.failures copy.old) }
    ensures after { IfErr result ComesAfterConfig }
    ensures read_copy { result ≡ Err (ToolFault.Read Input.Copy) → HasFailed (R.failures copy.old) (R.failures copy.new) }
{
    let directory = match read_copy_under(alloc, schema, config, copy) {
        Ok(directory) => directory,
        Err(fault) => return Err(fault),
    };
    match report_on(alloc, question, config, &directory, parts) {
        Ok(text) => {
            held.let_go(directory);
            Ok(text)
        }
        Err(fault) => Err(fault),
    }
}

/// Reads the copy that a configuration is about, under its suffix.
///
/// # Errors
///
/// Those of `read_copy`.
pub fn read_copy_under<R: Source>(
    alloc: Global,
    schema: &Schema,
    config: &Config,
    copy: &mut R,
) -> Result<TreeDirectory, ToolFault>
    ensures suffix { IfOk result (λ directory. directory.suffix ≡ (configuration_of config.now).suffix) }
    ensures reads { IfOk result (λ directory. IfSome (R.left copy.old) (λ text. copy_of schema.now (configuration_of config.now).suffix text ≡ Ok directory)) }
    ensures sound { IfOk result (λ directory. HasRdn (configuration_of config.now).suffix → IsWellFormed schema.now directory × IsWithinLimits directory) }
    ensures unfailed { OnOk result (R.failures copy.new ≡ R.failures copy.old) }
    ensures blamed { IfErr result (IsCopyFaultCause schema.now (empty_copy (configuration_of config.now).suffix).entries (R.left copy.old) (R.failures copy.old) (R.failures copy.new)) }
    ensures settled { IfErr result (λ fault. IsReaderFault fault → GaveBytes (R.left copy.old) (R.left copy.new)
        (λ bytes. CompleteRecordsLoad schema.now (empty_copy (configuration_of config.now).suffix) (answers_after schema.now bytes))) }
{
    match config.suffix().try_clone(alloc) {
        Ok(suffix) => read_copy(alloc, schema, TreeDirectory::new(alloc, suffix), copy),
        Err(_) => Err(ToolFault::Memory),
    }
}

/// The report on a question with these parts, on a directory.
fn report_on<D: Directory>(
    alloc: Global,
    question: &Question,
    config: &Config,
    directory: &D,
    parts: &Parts<'_>,
) -> Result<Vec<u8>, ToolFault>
    ensures ok { IfOk result (λ text. IsReportOn question.now (configuration_of config.now) (D.state directory.now) (parts_in parts.now) text.items) }
    ensures err { IfErr result (IsNoReport (target_of question.now.fake (D.state directory.now) (parts_in parts.now).base)) }
{
    let target = match find_target(directory, &parts.base, question.fake) {
        Ok(target) => target,
        Err(fault) => return Err(fault),
    };
    match report_text(alloc, question.verbose, config, directory, parts, target) {
        Ok(text) => Ok(text),
        Err(_) => Err(ToolFault::Memory),
    }
}

/// The entry of a base, or none if it is made up.
///
/// # Errors
///
/// `NoEntry`, if the base is outside the suffix, or the directory has no such entry and it is not made up.
pub fn find_target<'d, D: Directory>(
    directory: &'d D,
    base: &DnKey,
    fake: bool,
) -> Result<Option<&'d Entry>, ToolFault>
    ensures ok { IfOk result (λ target. target_of fake (D.state directory.now) base.now ≡ Ok (option_copied target)) }
    ensures none { IfErr result (λ fault. (fault ≡ ToolFault.NoEntry) × (target_of fake (D.state directory.now) base.now ≡ Err ToolFault.NoEntry)) }
{
    if !base.at_or_below(directory.suffix()) {
        return Err(ToolFault::NoEntry);
    }
    if fake {
        return Ok(None);
    }
    match directory.get(base) {
        Some(entry) => Ok(Some(entry)),
        None => Err(ToolFault::NoEntry),
    }
}
