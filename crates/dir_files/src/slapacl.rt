//! `slapkit slapacl`: the files that a command line names, and the question over them.

ghost use Rattle.std.specs.Prelude.{◌≡◌, ◌⊎◌, ◌++◌, ℕ, IfErr, IfOk, IfSome, List, Option, map};
ghost use Rattle.dir_acl.specs.Notes.{notes_of};
ghost use Rattle.dir_ldif.specs.Device.{HasFailed};
ghost use Rattle.dir_names.specs.Table.Builtin.{builtin_rows};
ghost use Rattle.dir_names.specs.declared.schema.TypeRow.{TypeRow};
ghost use Rattle.dir_tools.specs.Inside.Asking.{configured_of, configured_under};
ghost use Rattle.dir_tools.specs.AccessAnswers.{IsTextOf, access_sources};
ghost use Rattle.dir_tools.specs.AccessReport.{access_terms};
ghost use Rattle.dir_tools.specs.WordNotes.{notes_on_words};
ghost use Rattle.dir_files.specs.AccessRuns.{AllAccessCalls, Asks, AsksOrStops, NamesItsFile, RefusesSameFile, asked_for, first_repeated_file};
ghost use Rattle.dir_files.specs.Failures.{FailsByDevice, FailsByDeviceOr};
ghost use Rattle.dir_files.specs.FaultArguments.{TellsArgument};
ghost use Rattle.dir_files.specs.Notes.{AreOnWords, EndsIfUntold, IsAfterConfig, TellsFor, told_text};
ghost use Rattle.dir_files.specs.Runs.{Made};

use crate::call_faults::{not_opened, not_reported, run_fault};
use crate::fault::Fault;
use crate::files::FileSystem;
use crate::note::NoteTeller;
use crate::teller::{hand_over, tell};
use crate::words::AccessWords;
use dir_acl::{Config, Note};
use dir_ldif::Source;
use dir_names::{Bytes, Memory, Schema, Texts};
use dir_tools::{
    Buffer, HeldMemory, NotedConfig, Question, ToolFault, read_config_with_argument, run_acl_under,
    with_notes_on_words,
};
use std::alloc::Global;

/// Runs `slapacl` on the files that the words name. The notes on the configuration, and then those on the words of the question, are told
/// before anything is answered; where a strict answer is wanted and there are some, nothing is. Where the words ask for more to be told,
/// the teller is handed the argument that a fault of the configuration is about; it has none if memory ran out as that was sought.
///
/// The memory that the copy's entries take is left to the system: a program that goes on afterwards doesn't get it back.
///
/// # Errors
///
/// In this order: two paths that are the same; a file that can't be opened, the configuration before the copy;
/// the configuration's fault; notes that can't be told, or are there though a strict answer is wanted; the tool's other faults; the
/// report can't be written.
pub fn run<'a, F: FileSystem, T: NoteTeller>(
    alloc: Global,
    files: &mut F,
    teller: &mut T,
    words: &AccessWords<'a>,
) -> Result<(), Fault<'a>>
    ensures faults { RefusesSameFile words.now (first_repeated_file words.now) result }
    ensures calls { Made (F.disk files.old) (F.disk files.new) (λ d. AllAccessCalls (first_repeated_file words.now) words.now d result) }
    ensures notes { TellsFor (AreOnWords (asked_for words.now).words) words.now.strict (told_text (F.disk files.old) (F.disk files.new) words.now.config.now) result (T.given teller.old) (T.given teller.new) }
    ensures untold { EndsIfUntold result (T.failures teller.old) (T.failures teller.new) }
    ensures argument { TellsArgument words.now.verbose (told_text (F.disk files.old) (F.disk files.new) words.now.config.now) result (T.arguments teller.old) (T.arguments teller.new) }
    ensures failed { FailsByDevice result (F.failures files.old) (F.failures files.new) }
{
    if words.data == words.config {
        return Err(Fault::SamePath(words.data));
    }
    let mut config = match files.open(words.config) {
        Ok(opened) => opened.file,
        Err(why) => return Err(not_opened(words.config, why)),
    };
    let mut copy = match files.open(words.data) {
        Ok(opened) => opened.file,
        Err(why) => return Err(not_opened(words.data, why)),
    };
    let answer = answer(alloc, files, teller, words, &mut config, &mut copy);
    files.close(copy);
    files.close(config);
    answer
}

/// Reads the configuration, and answers the question under it.
fn answer<'a, F: FileSystem, T: NoteTeller, R: Source, R2: Source>(
    alloc: Global,
    files: &mut F,
    teller: &mut T,
    words: &AccessWords<'a>,
    config: &mut R,
    copy: &mut R2,
) -> Result<(), Fault<'a>>
    ensures faults { IfErr result (NamesItsFile words.now) }
    ensures calls { Made (F.disk files.old) (F.disk files.new) (λ _. AsksOrStops words.now (access_sources (R.left config.old) (R2.left copy.old)) result) }
    ensures notes { TellsFor (AreOnWords (asked_for words.now).words) words.now.strict (R.left config.old) result (T.given teller.old) (T.given teller.new) }
    ensures untold { EndsIfUntold result (T.failures teller.old) (T.failures teller.new) }
    ensures argument { TellsArgument words.now.verbose (R.left config.old) result (T.arguments teller.old) (T.arguments teller.new) }
    ensures failed { FailsByDeviceOr (HasFailed (R.failures config.old) (R.failures config.new) ⊎ HasFailed (R2.failures copy.old) (R2.failures copy.new)) result (F.failures files.old) (F.failures files.new) }
{
    let Ok(schema) = Schema::builtin(alloc) else {
        return Err(run_fault(ToolFault::Memory));
    };
    match read_config_with_argument(alloc, &schema, config) {
        Ok(noted) => answer_under(alloc, files, teller, words, noted, copy),
        Err(why) => {
            hand_over(teller, words.verbose, why.argument);
            Err(run_fault(why.fault))
        }
    }
}

/// Tells the notes on a configuration and on the question, asks, and writes the report.
fn answer_under<'a, F: FileSystem, T: NoteTeller, R: Source>(
    alloc: Global,
    files: &mut F,
    teller: &mut T,
    words: &AccessWords<'a>,
    noted: NotedConfig,
    copy: &mut R,
) -> Result<(), Fault<'a>>
    ensures faults { IfErr result (NamesItsFile words.now) }
    ensures calls { (known : Option (List ℕ)) → IsTextOf builtin_rows known (configured_of noted)
        → Made (F.disk files.old) (F.disk files.new) (λ _. AsksOrStops words.now (access_sources known (R.left copy.old)) result) }
    ensures notes { (known : Option (List ℕ)) → IsTextOf builtin_rows known (configured_of noted) → IfSome known (λ text. noted.notes.items ≡ notes_of noted.types text)
        → TellsFor (AreOnWords (asked_for words.now).words) words.now.strict known result (T.given teller.old) (T.given teller.new) }
    ensures untold { EndsIfUntold result (T.failures teller.old) (T.failures teller.new) }
    ensures argument { T.arguments teller.new ≡ T.arguments teller.old }
    ensures failed { FailsByDeviceOr (HasFailed (R.failures copy.old) (R.failures copy.new)) result (F.failures files.old) (F.failures files.new) }
{
    let NotedConfig {
        types,
        config,
        notes,
    } = noted;
    let (question, notes) = match noted_question(alloc, &types, words, notes) {
        Ok(asked) => asked,
        Err(_) => return Err(run_fault(ToolFault::Memory)),
    };
    tell(teller, notes.as_slice(), words.strict)?;
    report(alloc, files, &types, &question, &config, copy)
}

/// Asks, and writes the report.
fn report<'a, F: FileSystem, R: Source>(
    alloc: Global,
    files: &mut F,
    schema: &Schema,
    question: &Question,
    config: &Config,
    copy: &mut R,
) -> Result<(), Fault<'a>>
    ensures faults { IfErr result IsAfterConfig }
    ensures calls { (start : List TypeRow) (known : Option (List ℕ)) → IsTextOf start known (configured_under schema.now config.now)
        → Made (F.disk files.old) (F.disk files.new) (λ _. Asks (access_terms start question.now) (access_sources known (R.left copy.old)) result) }
    ensures failed { FailsByDeviceOr (HasFailed (R.failures copy.old) (R.failures copy.new)) result (F.failures files.old) (F.failures files.new) }
{
    let mut report = Buffer::new(alloc);
    match run_acl_under(
        alloc,
        HeldMemory::Left,
        schema,
        question,
        config,
        copy,
        &mut report,
    ) {
        Ok(()) => match files.report(report.as_slice()) {
            Ok(()) => Ok(()),
            Err(why) => Err(not_reported(why)),
        },
        Err(fault) => Err(run_fault(fault)),
    }
}

/// What the words ask, and the notes with those on the words of the question.
fn noted_question(
    alloc: Global,
    schema: &Schema,
    words: &AccessWords<'_>,
    notes: Vec<Note>,
) -> Result<(Question, Vec<Note>), Memory>
    ensures question { IfOk result (λ asked. asked.0 ≡ asked_for words.now) }
    ensures notes { IfOk result (λ asked. asked.1.items ≡ notes.items ++ notes_on_words schema.now (asked_for words.now).words) }
{
    let question = question(alloc, words)?;
    let notes = with_notes_on_words(alloc, schema, notes, question.words.as_slice())?;
    Ok((question, notes))
}

/// What the words ask.
fn question(alloc: Global, words: &AccessWords<'_>) -> Result<Question, Memory>
    ensures { IfOk result (λ question. question ≡ asked_for words.now) }
{
    let authc = match words.authc {
        Some(name) => Some(bytes(alloc, name)?),
        None => None,
    };
    Ok(Question {
        base: bytes(alloc, words.base)?,
        authc,
        words: texts(alloc, words.words.as_slice())?,
        fake: words.fake,
        verbose: words.verbose,
    })
}

fn texts(alloc: Global, words: &[&str]) -> Result<Texts, Memory>
    ensures { IfOk result (λ texts. texts ≡ map (λ word. word.now) words.now) }
{
    let mut items = Vec::new(alloc);
    for word in words {
        items.push(bytes(alloc, word)?)?;
    }
    Ok(Texts::new(items))
}

fn bytes(alloc: Global, text: &str) -> Result<Bytes, Memory>
    ensures { IfOk result (λ bytes. bytes ≡ text.now) }
{
    match Bytes::copy_of(alloc, text.as_bytes()) {
        Ok(bytes) => Ok(bytes),
        Err(_) => Err(Memory),
    }
}
