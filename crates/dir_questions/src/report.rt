//! The report on the answers to a file of questions, and the file written with its answers.

ghost use Rattle.std.specs.Prelude.{◌≡◌, ◌++◌, OnOk, map, option_map};
ghost use Rattle.std.specs.Fmt.{decimal};
ghost use Rattle.std.specs.List.{flat_map};
ghost use Rattle.dir_questions.specs.Answers.{answer_line, answered_line, answered_text, block_text, count, line_by, named_line, outcome_of, requester_line, tally_line, tally_of};
ghost use Rattle.dir_questions.specs.Inside.Answering.{answer_in};
ghost use Rattle.dir_questions.specs.Reading.{block_in, given_in};

use crate::answering::Answer;
use crate::reading::{Block, GivenName};
use dir_ldif::{push_end, push_line};
use dir_names::Memory;
use std::alloc::Global;

/// How many answers are as expected, otherwise, and only asked for.
#[derive(Clone, Copy, PartialEq, Eq, Debug)]
pub struct Tally {
    pub expected: u64,
    pub otherwise: u64,
    pub asked: u64,
}

/// What the answer to a word is beside the one that is expected.
#[derive(Clone, Copy, PartialEq, Eq, Debug)]
pub(crate) enum Outcome {
    /// No answer is expected.
    Asked,
    Expected,
    Otherwise,
}

fn outcome_of(answer: &Answer<'_, '_>) -> Outcome
    ensures { result ≡ outcome_of (answer_in answer.now) }
{
    let expected = answer.asked.expected.as_slice();
    if expected.is_empty() {
        Outcome::Asked
    } else if expected == answer.text.as_slice() {
        Outcome::Expected
    } else {
        Outcome::Otherwise
    }
}

/// How many of these outcomes there are.
fn count(outcomes: &[Outcome], wanted: Outcome) -> u64
    ensures { result ≡ count wanted outcomes.now }
{
    let mut n: u64 = 0;
    for outcome in outcomes {
        if *outcome == wanted {
            n += 1;
        }
    }
    n
}

pub(crate) fn tally_of(outcomes: &[Outcome]) -> Tally
    ensures { result ≡ tally_of outcomes.now }
{
    Tally {
        expected: count(outcomes, Outcome::Expected),
        otherwise: count(outcomes, Outcome::Otherwise),
        asked: count(outcomes, Outcome::Asked),
    }
}

/// Appends the lines of answers to a report, and their outcomes to those before.
pub(crate) fn push_lines(
    alloc: Global,
    text: &mut Vec<u8>,
    outcomes: &mut Vec<Outcome>,
    verbose: bool,
    answers: &[Answer<'_, '_>],
) -> Result<(), Memory>
    ensures text { OnOk result (text.new.items ≡ text.old.items ++ flat_map (answer_line verbose) (map answer_in answers.now)) }
    ensures outcomes { OnOk result (outcomes.new.items ≡ outcomes.old.items ++ map outcome_of (map answer_in answers.now)) }
{
    for answer in answers {
        let outcome = outcome_of(answer);
        push_answer_line(alloc, text, verbose, outcome, answer)?;
        outcomes.push(outcome)?;
    }
    Ok(())
}

/// Appends the line of an answer. One that is as expected, or only asked for, is told in a verbose report alone.
fn push_answer_line(
    alloc: Global,
    text: &mut Vec<u8>,
    verbose: bool,
    outcome: Outcome,
    answer: &Answer<'_, '_>,
) -> Result<(), Memory>
    ensures { OnOk result (text.new.items ≡ text.old.items ++ line_by outcome verbose (answer_in answer.now)) }
{
    match outcome {
        Outcome::Asked if verbose => push_answered(alloc, text, answer, b"\n"),
        Outcome::Expected if verbose => push_answered(alloc, text, answer, b", as expected\n"),
        Outcome::Otherwise => {
            push_answered(alloc, text, answer, b", expected ")?;
            text.extend_from_slice(answer.asked.expected.as_slice())?;
            text.push(b'\n')?;
            Ok(())
        }
        _ => Ok(()),
    }
}

/// Appends `line N: WORD: ANSWER`, and what comes after it.
fn push_answered(
    alloc: Global,
    text: &mut Vec<u8>,
    answer: &Answer<'_, '_>,
    after: &[u8],
) -> Result<(), Memory>
    ensures { OnOk result (text.new.items ≡ text.old.items ++ answered_text (answer_in answer.now) ++ after.now) }
{
    let line = answer.asked.line;
    let number = format!(in alloc; "line {line}: ")?;
    text.extend_from_slice(number.as_bytes())?;
    text.extend_from_slice(answer.asked.text)?;
    text.extend_from_slice(b": ")?;
    text.extend_from_slice(answer.text.as_slice())?;
    text.extend_from_slice(after)?;
    Ok(())
}

/// Appends the last line of a report.
pub(crate) fn push_tally(alloc: Global, text: &mut Vec<u8>, tally: Tally) -> Result<(), Memory>
    ensures { OnOk result (text.new.items ≡ text.old.items ++ tally_line tally) }
{
    push_count(alloc, text, b"as expected ", tally.expected)?;
    push_count(alloc, text, b", otherwise ", tally.otherwise)?;
    push_count(alloc, text, b", asked ", tally.asked)?;
    text.push(b'\n')?;
    Ok(())
}

/// Appends words and a number.
fn push_count(alloc: Global, text: &mut Vec<u8>, words: &[u8], number: u64) -> Result<(), Memory>
    ensures { OnOk result (text.new.items ≡ text.old.items ++ (words.now ++ decimal number)) }
{
    text.extend_from_slice(words)?;
    let digits = format!(in alloc; "{number}")?;
    text.extend_from_slice(digits.as_bytes())?;
    Ok(())
}

/// Appends a block with its answers, and an empty line.
pub(crate) fn push_block(
    alloc: Global,
    text: &mut Vec<u8>,
    block: &Block<'_>,
    answers: &[Answer<'_, '_>],
) -> Result<(), Memory>
    ensures { OnOk result (text.new.items ≡ text.old.items ++ block_text (block_in block.now) (map answer_in answers.now)) }
{
    push_requester(alloc, text, &block.requester)?;
    if block.fake {
        push_line(text, b"fake", b"true")?;
    }
    push_named(alloc, text, b"dn", &block.base)?;
    push_answers(text, answers)?;
    push_end(text)?;
    Ok(())
}

/// Appends the line of the requester, if somebody asks.
fn push_requester(
    alloc: Global,
    text: &mut Vec<u8>,
    requester: &Option<GivenName>,
) -> Result<(), Memory>
    ensures { OnOk result (text.new.items ≡ text.old.items ++ requester_line (option_map given_in requester.now)) }
{
    match requester {
        Some(given) => push_named(alloc, text, b"authcDN", given),
        None => Ok(()),
    }
}

/// Appends the lines of words with their answers.
fn push_answers(text: &mut Vec<u8>, answers: &[Answer<'_, '_>]) -> Result<(), Memory>
    ensures { OnOk result (text.new.items ≡ text.old.items ++ flat_map answered_line (map answer_in answers.now)) }
{
    for answer in answers {
        push_line(text, answer.asked.text, answer.text.as_slice())?;
    }
    Ok(())
}

/// Appends a line of this name, with a name as it is printed.
fn push_named(
    alloc: Global,
    text: &mut Vec<u8>,
    word: &[u8],
    given: &GivenName,
) -> Result<(), Memory>
    ensures { OnOk result (text.new.items ≡ text.old.items ++ named_line word.now (given_in given.now).name) }
{
    let name = given.name.print(alloc).map_err(|_| Memory)?;
    push_line(text, word, name.as_slice())?;
    Ok(())
}
