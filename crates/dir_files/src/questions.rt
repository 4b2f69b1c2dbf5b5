//! `slapkit slapacl --questions`: the files that a command line names, and the questions over them.

ghost use Rattle.std.specs.Prelude.{◌≡◌, ◌⊎◌, ℕ, IfErr, IfSome, List, None, Option, Some, is_some, map, true};
ghost use Rattle.std.specs.Option.{option_copied};
ghost use Rattle.dir_acl.specs.Notes.{notes_of};
ghost use Rattle.dir_ldif.specs.Device.{HasFailed};
ghost use Rattle.dir_names.specs.Table.Builtin.{builtin_rows};
ghost use Rattle.dir_questions.specs.Runs.{HasLines, question_sources};
ghost use Rattle.dir_tools.specs.AccessAnswers.{IsTextOf};
ghost use Rattle.dir_tools.specs.Inside.Asking.{configured_of, configured_under};
ghost use Rattle.dir_files.specs.Failures.{FailsByDevice, FailsByDeviceOr, OnlyWhere};
ghost use Rattle.dir_files.specs.FaultArguments.{TellsArgument};
ghost use Rattle.dir_files.specs.Faults.{IsQuestionsFault};
ghost use Rattle.dir_files.specs.Notes.{AreOnQuestions, EndsIfUntold, TellsFor, told_text};
ghost use Rattle.dir_files.specs.QuestionRuns.{AllQuestionCalls, AnswersAll, AnswersOrStops, EndsAnswering, NamesItsAnswers, RefusesRepeated, ReportsAnswers, WritesAnswers, first_repeated_of, options_of};
ghost use Rattle.dir_files.specs.Runs.{Made};

use crate::call_faults::{not_created, not_opened, not_reported, run_fault};
use crate::devices::Dropped;
use crate::fault::Fault;
use crate::files::FileSystem;
use crate::note::NoteTeller;
use crate::one_output::finish;
use crate::teller::{hand_over, tell};
use crate::words::QuestionWords;
use dir_acl::{Config, Note};
use dir_ldif::{Line, Sink, Source};
use dir_names::Schema;
use dir_questions::{
    QuestionOptions, QuestionsFault, Tally, answer_questions, read_lines, read_questions,
    with_notes_on_questions,
};
use dir_tools::{Buffer, HeldMemory, NotedConfig, ToolFault, read_config_with_argument};
use std::alloc::Global;

/// Answers the file of questions that the words name. The notes on the configuration, and then those on the words of the questions, are told
/// once both were read, before anything is answered; where a strict answer is wanted and there are some, nothing is. Where the words ask for
/// more to be told, the teller is handed the argument that a fault of the configuration is about; it has none if memory ran out as that was
/// sought.
///
/// The file of answers gets its name only when it is whole and synced, and the report is written last. After a fault nothing is left of
/// what the run has made. It has the mode of the questions. The memory that the copy's entries take is left to the system: a program that
/// goes on afterwards doesn't get it back.
///
/// # Errors
///
/// In this order: two paths that are the same; a file that can't be opened, the configuration before the questions and these before the
/// copy; the file of answers can't be created; the configuration's fault; the first fault of the questions; notes that can't be told, or are
/// there though a strict answer is wanted; the first fault of the copy; the file of answers can't be written, synced or published, or the
/// report can't be written.
pub fn run<'a, F: FileSystem, T: NoteTeller>(
    alloc: Global,
    files: &mut F,
    teller: &mut T,
    words: &QuestionWords<'a>,
) -> Result<Tally, Fault<'a>>
    ensures faults { RefusesRepeated words.now (first_repeated_of words.now) result }
    ensures calls { Made (F.disk files.old) (F.disk files.new) (λ d. AllQuestionCalls (first_repeated_of words.now) words.now d result) }
    ensures notes { TellsFor (AreOnQuestions (told_text (F.disk files.old) (F.disk files.new) words.now.questions.now)) words.now.strict (told_text (F.disk files.old) (F.disk files.new) words.now.config.now) result (T.given teller.old) (T.given teller.new) }
    ensures untold { EndsIfUntold result (T.failures teller.old) (T.failures teller.new) }
    ensures argument { TellsArgument words.now.verbose (told_text (F.disk files.old) (F.disk files.new) words.now.config.now) result (T.arguments teller.old) (T.arguments teller.new) }
    ensures failed { FailsByDevice result (F.failures files.old) (F.failures files.new) }
{
    if let Some(path) = first_repeated(words) {
        return Err(Fault::SamePath(path));
    }
    let mut config = match files.open(words.config) {
        Ok(opened) => opened.file,
        Err(why) => return Err(not_opened(words.config, why)),
    };
    let opened = match files.open(words.questions) {
        Ok(opened) => opened,
        Err(why) => return Err(not_opened(words.questions, why)),
    };
    let mode = opened.mode;
    let mut questions = opened.file;
    let mut copy = match files.open(words.data) {
        Ok(opened) => opened.file,
        Err(why) => return Err(not_opened(words.data, why)),
    };
    let answer = answer_all(
        alloc,
        files,
        teller,
        words,
        mode,
        &mut config,
        &mut questions,
        &mut copy,
    );
    files.close(copy);
    files.close(questions);
    files.close(config);
    answer
}

/// Answers the questions, into the file of answers if the words name one.
fn answer_all<'a, F: FileSystem, T: NoteTeller, R: Source, R2: Source, R3: Source>(
    alloc: Global,
    files: &mut F,
    teller: &mut T,
    words: &QuestionWords<'a>,
    mode: u32,
    config: &mut R,
    questions: &mut R2,
    copy: &mut R3,
) -> Result<Tally, Fault<'a>>
    ensures faults { IfErr result (NamesItsAnswers words.now) }
    ensures calls { Made (F.disk files.old) (F.disk files.new) (λ _. AnswersAll (option_copied words.now.answers) mode words.now (question_sources (R.left config.old) (R2.left questions.old) (R3.left copy.old)) result) }
    ensures notes { TellsFor (AreOnQuestions (R2.left questions.old)) words.now.strict (R.left config.old) result (T.given teller.old) (T.given teller.new) }
    ensures untold { EndsIfUntold result (T.failures teller.old) (T.failures teller.new) }
    ensures argument { TellsArgument words.now.verbose (R.left config.old) result (T.arguments teller.old) (T.arguments teller.new) }
    ensures failed { FailsByDeviceOr (HasFailed (R.failures config.old) (R.failures config.new) ⊎ (HasFailed (R2.failures questions.old) (R2.failures questions.new) ⊎ HasFailed (R3.failures copy.old) (R3.failures copy.new))) result (F.failures files.old) (F.failures files.new) }
{
    match words.answers {
        Some(path) => with_answers(
            alloc, files, teller, words, path, mode, config, questions, copy,
        ),
        None => without_answers(alloc, files, teller, words, config, questions, copy),
    }
}

/// The first path that is the same text as one given before it.
pub fn first_repeated<'a>(words: &QuestionWords<'a>) -> Option<&'a str>
    ensures { option_copied result ≡ first_repeated_of words.now }
{
    let config = words.config;
    let questions = words.questions;
    let data = words.data;
    let answers = words.answers;
    if questions == config {
        return Some(questions);
    }
    if data == config || data == questions {
        return Some(data);
    }
    if answers == Some(config) || answers == Some(questions) || answers == Some(data) {
        return answers;
    }
    None
}

/// Creates the draft of the file of answers, and answers the questions into it.
fn with_answers<'a, F: FileSystem, T: NoteTeller, R: Source, R2: Source, R3: Source>(
    alloc: Global,
    files: &mut F,
    teller: &mut T,
    words: &QuestionWords<'a>,
    path: &'a str,
    mode: u32,
    config: &mut R,
    questions: &mut R2,
    copy: &mut R3,
) -> Result<Tally, Fault<'a>>
    requires { option_copied words.now.answers ≡ Some path.now }
    ensures faults { IfErr result (NamesItsAnswers words.now) }
    ensures calls { Made (F.disk files.old) (F.disk files.new) (λ _. WritesAnswers path.entry.now mode words.now (question_sources (R.left config.old) (R2.left questions.old) (R3.left copy.old)) result) }
    ensures notes { TellsFor (AreOnQuestions (R2.left questions.old)) words.now.strict (R.left config.old) result (T.given teller.old) (T.given teller.new) }
    ensures untold { EndsIfUntold result (T.failures teller.old) (T.failures teller.new) }
    ensures argument { TellsArgument words.now.verbose (R.left config.old) result (T.arguments teller.old) (T.arguments teller.new) }
    ensures failed { FailsByDeviceOr (HasFailed (R.failures config.old) (R.failures config.new) ⊎ (HasFailed (R2.failures questions.old) (R2.failures questions.new) ⊎ HasFailed (R3.failures copy.old) (R3.failures copy.new))) result (F.failures files.old) (F.failures files.new) }
{
    let mut draft = match files.create(path, mode) {
        Ok(draft) => draft,
        Err(why) => return Err(not_created(path, why)),
    };
    let mut report = Buffer::new(alloc);
    match answered(
        alloc,
        teller,
        words,
        config,
        questions,
        copy,
        &mut draft,
        &mut report,
    ) {
        Ok(tally) => finish(
            files,
            path,
            draft,
            report.as_slice(),
            Fault::Questions(QuestionsFault::Write),
            tally,
        ),
        Err(fault) => {
            files.discard(path, draft);
            Err(fault)
        }
    }
}

/// Answers the questions, and writes the report alone.
fn without_answers<'a, F: FileSystem, T: NoteTeller, R: Source, R2: Source, R3: Source>(
    alloc: Global,
    files: &mut F,
    teller: &mut T,
    words: &QuestionWords<'a>,
    config: &mut R,
    questions: &mut R2,
    copy: &mut R3,
) -> Result<Tally, Fault<'a>>
    requires { option_copied words.now.answers ≡ None }
    ensures faults { IfErr result (NamesItsAnswers words.now) }
    ensures calls { Made (F.disk files.old) (F.disk files.new) (λ _. ReportsAnswers words.now (question_sources (R.left config.old) (R2.left questions.old) (R3.left copy.old)) result) }
    ensures notes { TellsFor (AreOnQuestions (R2.left questions.old)) words.now.strict (R.left config.old) result (T.given teller.old) (T.given teller.new) }
    ensures untold { EndsIfUntold result (T.failures teller.old) (T.failures teller.new) }
    ensures argument { TellsArgument words.now.verbose (R.left config.old) result (T.arguments teller.old) (T.arguments teller.new) }
    ensures failed { FailsByDeviceOr (HasFailed (R.failures config.old) (R.failures config.new) ⊎ (HasFailed (R2.failures questions.old) (R2.failures questions.new) ⊎ HasFailed (R3.failures copy.old) (R3.failures copy.new))) result (F.failures files.old) (F.failures files.new) }
{
    let mut answers = Dropped;
    let mut report = Buffer::new(alloc);
    let tally = answered(
        alloc,
        teller,
        words,
        config,
        questions,
        copy,
        &mut answers,
        &mut report,
    )?;
    match files.report(report.as_slice()) {
        Ok(()) => Ok(tally),
        Err(why) => Err(not_reported(why)),
    }
}

/// Reads the configuration, and answers the questions under it.
fn answered<'a, T: NoteTeller, R: Source, R2: Source, R3: Source, W: Sink, W2: Sink>(
    alloc: Global,
    teller: &mut T,
    words: &QuestionWords<'a>,
    config: &mut R,
    questions: &mut R2,
    copy: &mut R3,
    answers: &mut W,
    report: &mut W2,
) -> Result<Tally, Fault<'a>>
    ensures faults { IfErr result (EndsAnswering words.now.strict) }
    ensures answer { AnswersOrStops words.now (question_sources (R.left config.old) (R2.left questions.old) (R3.left copy.old)) result (W.taken answers.old, W.taken answers.new) (W2.taken report.old, W2.taken report.new) }
    ensures notes { TellsFor (AreOnQuestions (R2.left questions.old)) words.now.strict (R.left config.old) result (T.given teller.old) (T.given teller.new) }
    ensures untold { EndsIfUntold result (T.failures teller.old) (T.failures teller.new) }
    ensures argument { TellsArgument words.now.verbose (R.left config.old) result (T.arguments teller.old) (T.arguments teller.new) }
    ensures failed { OnlyWhere ((HasFailed (R.failures config.old) (R.failures config.new) ⊎ (HasFailed (R2.failures questions.old) (R2.failures questions.new) ⊎ HasFailed (R3.failures copy.old) (R3.failures copy.new))) ⊎ ((is_some words.now.answers ≡ true) × (HasFailed (W.failures answers.old) (W.failures answers.new) ⊎ W.may_stall answers.new))) result }
{
    let Ok(schema) = Schema::builtin(alloc) else {
        return Err(run_fault(ToolFault::Memory));
    };
    let noted = match read_config_with_argument(alloc, &schema, config) {
        Ok(noted) => noted,
        Err(why) => {
            hand_over(teller, words.verbose, why.argument);
            return Err(run_fault(why.fault));
        }
    };
    answered_under(
        alloc, teller, words, noted, questions, copy, answers, report,
    )
}

/// Reads the lines of the questions, and answers them under a configuration.
fn answered_under<'a, T: NoteTeller, R: Source, R2: Source, W: Sink, W2: Sink>(
    alloc: Global,
    teller: &mut T,
    words: &QuestionWords<'a>,
    noted: NotedConfig,
    questions: &mut R,
    copy: &mut R2,
    answers: &mut W,
    report: &mut W2,
) -> Result<Tally, Fault<'a>>
    ensures faults { IfErr result (EndsAnswering words.now.strict) }
    ensures answer { (known : Option (List ℕ)) → IsTextOf builtin_rows known (configured_of noted)
        → AnswersOrStops words.now (question_sources known (R.left questions.old) (R2.left copy.old)) result (W.taken answers.old, W.taken answers.new) (W2.taken report.old, W2.taken report.new) }
    ensures notes { (known : Option (List ℕ)) → IsTextOf builtin_rows known (configured_of noted) → IfSome known (λ text. noted.notes.items ≡ notes_of noted.types text)
        → TellsFor (AreOnQuestions (R.left questions.old)) words.now.strict known result (T.given teller.old) (T.given teller.new) }
    ensures untold { EndsIfUntold result (T.failures teller.old) (T.failures teller.new) }
    ensures argument { T.arguments teller.new ≡ T.arguments teller.old }
    ensures failed { OnlyWhere ((HasFailed (R.failures questions.old) (R.failures questions.new) ⊎ HasFailed (R2.failures copy.old) (R2.failures copy.new)) ⊎ ((is_some words.now.answers ≡ true) × (HasFailed (W.failures answers.old) (W.failures answers.new) ⊎ W.may_stall answers.new))) result }
{
    let NotedConfig {
        types,
        config,
        notes,
    } = noted;
    let lines = match read_lines(alloc, questions) {
        Ok(lines) => lines,
        Err(fault) => return Err(questions_fault(fault)),
    };
    answered_lines(
        alloc,
        teller,
        words,
        &types,
        &config,
        notes,
        lines.as_slice(),
        copy,
        answers,
        report,
    )
}

/// Reads the questions of these lines, tells the notes on the configuration and on them, and answers.
fn answered_lines<'a, T: NoteTeller, R: Source, W: Sink, W2: Sink>(
    alloc: Global,
    teller: &mut T,
    words: &QuestionWords<'a>,
    types: &Schema,
    config: &Config,
    notes: Vec<Note>,
    lines: &[Vec<Line>],
    copy: &mut R,
    answers: &mut W,
    report: &mut W2,
) -> Result<Tally, Fault<'a>>
    ensures faults { IfErr result (EndsAnswering words.now.strict) }
    ensures answer { (known questions : Option (List ℕ)) → IsTextOf builtin_rows known (configured_under types.now config.now) → HasLines questions (map (λ block. block.items) lines.now)
        → AnswersOrStops words.now (question_sources known questions (R.left copy.old)) result (W.taken answers.old, W.taken answers.new) (W2.taken report.old, W2.taken report.new) }
    ensures notes { (known questions : Option (List ℕ)) → IsTextOf builtin_rows known (configured_under types.now config.now) → IfSome known (λ text. notes.items ≡ notes_of types.now text)
        → HasLines questions (map (λ block. block.items) lines.now) → TellsFor (AreOnQuestions questions) words.now.strict known result (T.given teller.old) (T.given teller.new) }
    ensures untold { EndsIfUntold result (T.failures teller.old) (T.failures teller.new) }
    ensures argument { T.arguments teller.new ≡ T.arguments teller.old }
    ensures failed { OnlyWhere ((HasFailed (R.failures copy.old) (R.failures copy.new)) ⊎ ((is_some words.now.answers ≡ true) × (HasFailed (W.failures answers.old) (W.failures answers.new) ⊎ W.may_stall answers.new))) result }
{
    let blocks = match read_questions(alloc, types, lines) {
        Ok(blocks) => blocks,
        Err(fault) => return Err(questions_fault(fault)),
    };
    let Ok(notes) = with_notes_on_questions(alloc, types, notes, blocks.as_slice()) else {
        return Err(run_fault(ToolFault::Memory));
    };
    tell(teller, notes.as_slice(), words.strict)?;
    match answer_questions(
        alloc,
        HeldMemory::Left,
        types,
        options_of(words),
        config,
        blocks.as_slice(),
        copy,
        answers,
        report,
    ) {
        Ok(tally) => Ok(tally),
        Err(fault) => Err(questions_fault(fault)),
    }
}

/// How the words ask that the questions are answered.
fn options_of(words: &QuestionWords<'_>) -> QuestionOptions
    ensures { result ≡ options_of words.now }
{
    QuestionOptions {
        answers: words.answers.is_some(),
        verbose: words.verbose,
    }
}

/// The fault of a file of questions, as the program's. The report is written into memory first.
fn questions_fault<'a>(fault: QuestionsFault) -> Fault<'a>
    ensures { IsQuestionsFault fault result }
{
    match fault {
        QuestionsFault::Tool(fault) => run_fault(fault),
        fault => Fault::Questions(fault),
    }
}
