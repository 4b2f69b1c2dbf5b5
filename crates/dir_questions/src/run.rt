//! `run_questions`: a file of questions answered over a configuration and a copy, which are read once.

ghost use Rattle.std.specs.Io.KnownBytes.{Consumes};
ghost use Rattle.std.specs.Prelude.{◌≡◌, ◌⊎◌, ◌≤◌, ℕ, Err, IfErr, IfOk, List, Ok, OnOk, OnErr, Option, length, map, not, true};
ghost use Rattle.dir_names.specs.declared.schema.TypeRow.{TypeRow};
ghost use Rattle.dir_acl.specs.Inside.ReadingConfig.{configuration_of};
ghost use Rattle.dir_ldif.specs.Device.{HasFailed};
ghost use Rattle.dir_tools.specs.AccessAnswers.{IsTextOf};
ghost use Rattle.dir_tools.specs.Inside.Asking.{configured_under};
ghost use Rattle.dir_tools.specs.Writing.{TookFile, TookPrefix};
ghost use Rattle.dir_tools.specs.declared.fault.Input.TheVariants as Input;
ghost use Rattle.dir_tools.specs.declared.fault.Output.TheVariants as Output;
ghost use Rattle.dir_tools.specs.declared.fault.ToolFault.TheVariants as ToolFault;
ghost use Rattle.dir_questions.specs.Answers.{questions_report, written_questions, all_answers, outcome_of, tally_of};
ghost use Rattle.dir_questions.specs.Reading.{block_in};
ghost use Rattle.dir_questions.specs.Inside.Running.{HasTexts, IsFaultOfCopy, IsWriterFault, MadeOver};
ghost use Rattle.dir_questions.specs.Laws.{AnswersAreFixed, AnswersAreReports};
ghost use Rattle.dir_questions.specs.Runs.{AnswersQuestions, AsksThese, ComesAfterConfig, ComesAfterQuestions, IsWholeAnswer, QuestionTexts, QuestionsHeldBefore, WroteAnswers, question_sources};
ghost use Rattle.dir_questions.specs.declared.fault.QuestionsFault.TheVariants as QuestionsFault;

use crate::answering::answers_to;
use crate::fault::QuestionsFault;
use crate::reading::{Block, read_lines, read_questions};
use crate::report::{Tally, push_block, push_lines, push_tally, tally_of};
use dir_acl::Config;
use dir_ldif::{DeviceFault, Sink, Source, write_flushed};
use dir_names::{Memory, Schema};
use dir_tools::{HeldMemory, Output, ToolFault, read_config, read_copy_under};
use dir_tree::Directory;
use std::alloc::Global;

/// How a file of questions is answered.
#[derive(Clone, Copy, PartialEq, Eq, Debug)]
pub struct QuestionOptions {
    /// Write the questions again, with their answers.
    pub answers: bool,
    /// Report each answer, also those that are as expected.
    pub verbose: bool,
}

/// What is written, and how the answers were.
#[derive(Drop)]
struct Texts {
    answers: Vec<u8>,
    report: Vec<u8>,
    tally: Tally,
}

/// Answers a file of questions about access (slapacl(8)), under the access rules of a slapd.conf, and the attribute types that it
/// defines. The configuration and the copy are read once. The answers are written, and flushed, before the report is; each is built whole
/// before its first byte is written.
///
/// At most 16,785,408 bytes of the configuration are read, and of the questions, whatever their readers give.
///
/// # Errors
///
/// In this order: the configuration's first fault; the questions: too long, the fault in which their text ends, or the first line that is at
/// fault; the copy, as `read_copy` answers; the answers' writer; the report's. A read fault and out of memory come where they are met.
#[tactic(auto, using(crate::proofs::AnswersLaw::answers_are_reports, crate::proofs::FixedLaw::answers_are_fixed))]
pub fn run_questions<R: Source, R2: Source, R3: Source, W: Sink, W2: Sink>(
    alloc: Global,
    schema: &Schema,
    options: QuestionOptions,
    config: &mut R,
    questions: &mut R2,
    copy: &mut R3,
    answers: &mut W,
    report: &mut W2,
) -> Result<Tally, QuestionsFault>
    ensures answer { (texts : QuestionTexts)
        × WroteAnswers options.answers result texts (W.taken answers.old, W.taken answers.new) (W2.taken report.old, W2.taken report.new)
        × AnswersQuestions schema.now options (question_sources (R.left config.old) (R2.left questions.old) (R3.left copy.old)) result texts
        × IsWholeAnswer schema.now options (question_sources (R.left config.old) (R2.left questions.old) (R3.left copy.old)) result texts }
    ensures first { IfErr result (QuestionsHeldBefore schema.now (R.left config.old) (R2.left questions.old) (R3.left copy.old, R3.left copy.new)) }
    ensures laws { AnswersAreReports × AnswersAreFixed }
    ensures bounded { (bytes : List ℕ) × Consumes (R.left config.old) (R.left config.new) bytes × (length bytes ≤ 16785408) }
    ensures bounded_questions { (bytes : List ℕ) × Consumes (R2.left questions.old) (R2.left questions.new) bytes × (length bytes ≤ 16785408) }
    ensures unfailed { OnOk result (W2.failures report.new ≡ W2.failures report.old) }
    ensures unfailed_answers { OnOk result (W.failures answers.new ≡ W.failures answers.old) }
    ensures unfailed_config { OnOk result (R.failures config.new ≡ R.failures config.old) }
    ensures unfailed_questions { OnOk result (R2.failures questions.new ≡ R2.failures questions.old) }
    ensures unfailed_copy { OnOk result (R3.failures copy.new ≡ R3.failures copy.old) }
    ensures read_config { result ≡ Err (QuestionsFault.Tool (ToolFault.Read Input.Config)) → HasFailed (R.failures config.old) (R.failures config.new) }
    ensures read_questions { result ≡ Err QuestionsFault.Read → HasFailed (R2.failures questions.old) (R2.failures questions.new) }
    ensures read_copy { result ≡ Err (QuestionsFault.Tool (ToolFault.Read Input.Copy)) → HasFailed (R3.failures copy.old) (R3.failures copy.new) }
    ensures flushed { OnOk result (W2.is_flushed report.new) }
    ensures flushed_answers { OnOk result (options.answers ≡ true → W.is_flushed answers.new) }
    ensures write_report { result ≡ Err (QuestionsFault.Tool (ToolFault.Write Output.Report)) → HasFailed (W2.failures report.old) (W2.failures report.new) ⊎ W2.may_stall report.new }
    ensures write_answers { result ≡ Err QuestionsFault.Write → HasFailed (W.failures answers.old) (W.failures answers.new) ⊎ W.may_stall answers.new }
{
    match read_config(alloc, schema, config) {
        Ok((types, config)) => run_under(
            alloc, &types, options, &config, questions, copy, answers, report,
        ),
        Err(fault) => Err(QuestionsFault::Tool(fault)),
    }
}

/// Reads the questions, and answers them under a configuration and its types.
fn run_under<R: Source, R2: Source, W: Sink, W2: Sink>(
    alloc: Global,
    schema: &Schema,
    options: QuestionOptions,
    config: &Config,
    questions: &mut R,
    copy: &mut R2,
    answers: &mut W,
    report: &mut W2,
) -> Result<Tally, QuestionsFault>
    ensures answer { (texts : QuestionTexts)
        × WroteAnswers options.answers result texts (W.taken answers.old, W.taken answers.new) (W2.taken report.old, W2.taken report.new)
        × ((start : List TypeRow) (known : Option (List ℕ)) → IsTextOf start known (configured_under schema.now config.now)
        → AnswersQuestions start options (question_sources known (R.left questions.old) (R2.left copy.old)) result texts
        × IsWholeAnswer start options (question_sources known (R.left questions.old) (R2.left copy.old)) result texts) }
    ensures first { IfErr result (λ fault. (start : List TypeRow) (known : Option (List ℕ)) → IsTextOf start known (configured_under schema.now config.now)
        → QuestionsHeldBefore start known (R.left questions.old) (R2.left copy.old, R2.left copy.new) fault) }
    ensures bounded_questions { (bytes : List ℕ) × Consumes (R.left questions.old) (R.left questions.new) bytes × (length bytes ≤ 16785408) }
    ensures unfailed { OnOk result (W2.failures report.new ≡ W2.failures report.old) }
    ensures unfailed_answers { OnOk result (W.failures answers.new ≡ W.failures answers.old) }
    ensures unfailed_questions { OnOk result (R.failures questions.new ≡ R.failures questions.old) }
    ensures unfailed_copy { OnOk result (R2.failures copy.new ≡ R2.failures copy.old) }
    ensures after { IfErr result ComesAfterConfig }
    ensures read_questions { result ≡ Err QuestionsFault.Read → HasFailed (R.failures questions.old) (R.failures questions.new) }
    ensures read_copy { result ≡ Err (QuestionsFault.Tool (ToolFault.Read Input.Copy)) → HasFailed (R2.failures copy.old) (R2.failures copy.new) }
    ensures flushed { OnOk result (W2.is_flushed report.new) }
    ensures flushed_answers { OnOk result (options.answers ≡ true → W.is_flushed answers.new) }
    ensures write_report { result ≡ Err (QuestionsFault.Tool (ToolFault.Write Output.Report)) → HasFailed (W2.failures report.old) (W2.failures report.new) ⊎ W2.may_stall report.new }
    ensures write_answers { result ≡ Err QuestionsFault.Write → HasFailed (W.failures answers.old) (W.failures answers.new) ⊎ W.may_stall answers.new }
{
    let lines = match read_lines(alloc, questions) {
        Ok(lines) => lines,
        Err(fault) => return Err(fault),
    };
    match read_questions(alloc, schema, lines.as_slice()) {
        Ok(blocks) => answer_questions(
            alloc,
            HeldMemory::Freed,
            schema,
            options,
            config,
            blocks.as_slice(),
            copy,
            answers,
            report,
        ),
        Err(fault) => Err(fault),
    }
}

/// Answers questions that were read, under a configuration and its types: reads the copy, and writes the answers, if they are wanted, and
/// then the report. Says what becomes of the memory that the directory takes.
///
/// # Errors
///
/// Those of `run_questions` that come after the questions'.
pub fn answer_questions<R: Source, W: Sink, W2: Sink>(
    alloc: Global,
    held: HeldMemory,
    schema: &Schema,
    options: QuestionOptions,
    config: &Config,
    blocks: &[Block<'_>],
    copy: &mut R,
    answers: &mut W,
    report: &mut W2,
) -> Result<Tally, QuestionsFault>
    ensures answer { (texts : QuestionTexts)
        × WroteAnswers options.answers result texts (W.taken answers.old, W.taken answers.new) (W2.taken report.old, W2.taken report.new)
        × ((start : List TypeRow) (known questions : Option (List ℕ)) → IsTextOf start known (configured_under schema.now config.now) → AsksThese schema.now questions (map block_in blocks.now)
        → AnswersQuestions start options (question_sources known questions (R.left copy.old)) result texts
        × IsWholeAnswer start options (question_sources known questions (R.left copy.old)) result texts) }
    ensures first { IfErr result (λ fault. (start : List TypeRow) (known questions : Option (List ℕ)) → IsTextOf start known (configured_under schema.now config.now) → AsksThese schema.now questions (map block_in blocks.now)
        → QuestionsHeldBefore start known questions (R.left copy.old, R.left copy.new) fault) }
    ensures unfailed { OnOk result (W2.failures report.new ≡ W2.failures report.old) }
    ensures unfailed_answers { OnOk result (W.failures answers.new ≡ W.failures answers.old) }
    ensures unfailed_copy { OnOk result (R.failures copy.new ≡ R.failures copy.old) }
    ensures after { IfErr result ComesAfterQuestions }
    ensures read_copy { result ≡ Err (QuestionsFault.Tool (ToolFault.Read Input.Copy)) → HasFailed (R.failures copy.old) (R.failures copy.new) }
    ensures flushed { OnOk result (W2.is_flushed report.new) }
    ensures flushed_answers { OnOk result (options.answers ≡ true → W.is_flushed answers.new) }
    ensures write_report { result ≡ Err (QuestionsFault.Tool (ToolFault.Write Output.Report)) → HasFailed (W2.failures report.old) (W2.failures report.new) ⊎ W2.may_stall report.new }
    ensures write_answers { result ≡ Err QuestionsFault.Write → HasFailed (W.failures answers.old) (W.failures answers.new) ⊎ W.may_stall answers.new }
{
    match answered(alloc, held, schema, options, config, blocks, copy) {
        Ok(texts) => write_texts(options.answers, &texts, answers, report),
        Err(fault) => Err(QuestionsFault::Tool(fault)),
    }
}

/// Writes the answers, if they are wanted, and then the report.
fn write_texts<W: Sink, W2: Sink>(
    wanted: bool,
    texts: &Texts,
    answers: &mut W,
    report: &mut W2,
) -> Result<Tally, QuestionsFault>
    ensures wrote { (made : QuestionTexts) → HasTexts wanted texts.now made
        → WroteAnswers wanted result made (W.taken answers.old, W.taken answers.new) (W2.taken report.old, W2.taken report.new) }
    ensures tally { IfOk result (λ tally. tally ≡ texts.now.tally) }
    ensures fault { IfErr result IsWriterFault }
    ensures unfailed { OnOk result (W2.failures report.new ≡ W2.failures report.old) }
    ensures unfailed_answers { OnOk result (W.failures answers.new ≡ W.failures answers.old) }
    ensures flushed { OnOk result (W2.is_flushed report.new) }
    ensures flushed_answers { OnOk result (wanted ≡ true → W.is_flushed answers.new) }
    ensures write_report { result ≡ Err (QuestionsFault.Tool (ToolFault.Write Output.Report)) → HasFailed (W2.failures report.old) (W2.failures report.new) ⊎ W2.may_stall report.new }
    ensures write_answers { result ≡ Err QuestionsFault.Write → HasFailed (W.failures answers.old) (W.failures answers.new) ⊎ W.may_stall answers.new }
{
    match write_answers(wanted, answers, texts.answers.as_slice()) {
        Ok(()) => match write_flushed(report, texts.report.as_slice()) {
            Ok(()) => Ok(texts.tally),
            Err(_) => Err(QuestionsFault::Tool(ToolFault::Write(Output::Report))),
        },
        Err(_) => Err(QuestionsFault::Write),
    }
}

/// Writes the answers, if they are wanted.
fn write_answers<W: Sink>(wanted: bool, writer: &mut W, text: &[u8]) -> Result<(), DeviceFault>
    ensures ok { OnOk result (TookFile (not wanted) (W.taken writer.old, W.taken writer.new) text.now) }
    ensures front { OnErr result ((wanted ≡ true) × TookPrefix (W.taken writer.old, W.taken writer.new) text.now) }
    ensures unfailed { OnOk result (W.failures writer.new ≡ W.failures writer.old) }
    ensures flushed { OnOk result (wanted ≡ true → W.is_flushed writer.new) }
    ensures err { OnErr result (HasFailed (W.failures writer.old) (W.failures writer.new) ⊎ W.may_stall writer.new) }
{
    if wanted {
        write_flushed(writer, text)
    } else {
        Ok(())
    }
}

/// What is to be written.
fn answered<R: Source>(
    alloc: Global,
    held: HeldMemory,
    schema: &Schema,
    options: QuestionOptions,
    config: &Config,
    blocks: &[Block<'_>],
    copy: &mut R,
) -> Result<Texts, ToolFault>
    ensures ok { IfOk result (MadeOver (configured_under schema.now config.now) options (R.left copy.old) (map block_in blocks.now)) }
    ensures blamed { IfErr result (IsFaultOfCopy (configured_under schema.now config.now) (R.left copy.old, R.left copy.new)) }
    ensures unfailed { OnOk result (R.failures copy.new ≡ R.failures copy.old) }
    ensures read { result ≡ Err (ToolFault.Read Input.Copy) → HasFailed (R.failures copy.old) (R.failures copy.new) }
{
    let directory = match read_copy_under(alloc, schema, config, copy) {
        Ok(directory) => directory,
        Err(fault) => return Err(fault),
    };
    match texts_of(alloc, options, config, &directory, blocks) {
        Ok(texts) => {
            held.let_go(directory);
            Ok(texts)
        }
        Err(_) => Err(ToolFault::Memory),
    }
}

/// The texts on a directory.
fn texts_of<D: Directory>(
    alloc: Global,
    options: QuestionOptions,
    config: &Config,
    directory: &D,
    blocks: &[Block<'_>],
) -> Result<Texts, Memory>
    ensures answers { IfOk result (λ texts. options.answers ≡ true → texts.answers.items ≡ written_questions (configuration_of config.now) (D.state directory.now) (map block_in blocks.now)) }
    ensures report { IfOk result (λ texts. texts.report.items ≡ questions_report options.verbose (configuration_of config.now) (D.state directory.now) (map block_in blocks.now)) }
    ensures tally { IfOk result (λ texts. texts.tally ≡ tally_of (map outcome_of (all_answers (configuration_of config.now) (D.state directory.now) (map block_in blocks.now)))) }
{
    let mut answers = Vec::new(alloc);
    let mut report = Vec::new(alloc);
    let mut outcomes = Vec::new(alloc);
    for block in blocks {
        let found = answers_to(alloc, config, directory, block)?;
        push_lines(
            alloc,
            &mut report,
            &mut outcomes,
            options.verbose,
            found.as_slice(),
        )?;
        if options.answers {
            push_block(alloc, &mut answers, block, found.as_slice())?;
        }
    }
    let tally = tally_of(outcomes.as_slice());
    push_tally(alloc, &mut report, tally)?;
    Ok(Texts {
        answers,
        report,
        tally,
    })
}
