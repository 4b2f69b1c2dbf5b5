//! The arguments of a line (slapd.conf(5), "GENERAL FORMAT").

ghost use Rattle.std.specs.Prelude.{◌≡◌, ◌≤◌, ◌++◌, ℕ, IfOk, List, drop, length, take, true};
ghost use Rattle.dir_conf_text.specs.Arguments.{all_whole, arguments_from, arguments_of, last_argument, step_in_argument, step_of, whole_words, words_of};
ghost use Rattle.dir_conf_text.specs.Lines.{is_comment};

use crate::definitions::definition_in;
use dir_names::{Bytes, Memory, Texts, is_blank};
use std::alloc::Global;

/// Where in a line the reader is.
#[derive(Clone, Copy)]
pub(crate) enum Spot {
    /// Between arguments.
    Between,
    /// In an argument.
    Plain,
    /// In an argument, in quotes.
    Quoted,
    /// After a backslash in an argument.
    PlainEscape,
    /// After a backslash in quotes.
    QuotedEscape,
}

/// What a byte does.
#[derive(Clone, Copy)]
pub(crate) enum Step {
    /// It is no part of an argument.
    Skip(Spot),
    /// It is the next byte of the argument.
    Take(Spot),
    /// It ends the argument.
    Close,
}

/// The words of a line: its arguments. A comment has none, nor has the definition of a type, which is not cut.
pub(crate) fn read_words(alloc: Global, line: &[u8]) -> Result<Vec<Option<Bytes>>, Memory>
    ensures { IfOk result (λ words. words.items ≡ words_of line.now) }
{
    if is_comment(line) || definition_in(line).is_some() {
        return Ok(Vec::new(alloc));
    }
    read_arguments(alloc, line)
}

/// The words of a line of a configuration (slapd.conf(5), "GENERAL FORMAT"), if none has an open quote or a backslash at the line's end. A comment
/// has none, nor has the definition of an attribute type by `attributetype`.
///
/// # Errors
///
/// Memory runs out.
pub fn line_words(alloc: Global, line: &[u8]) -> Result<Option<Texts>, Memory>
    ensures { IfOk result (λ words. words ≡ whole_words line.now) }
{
    all_whole(alloc, read_words(alloc, line)?)
}

/// The words, if there is none that could not be read.
fn all_whole(alloc: Global, words: Vec<Option<Bytes>>) -> Result<Option<Texts>, Memory>
    ensures { IfOk result (λ found. found ≡ all_whole words.items) }
{
    let mut found = Vec::new(alloc);
    for word in words {
        let Some(word) = word else {
            return Ok(None);
        };
        found.push(word)?;
    }
    Ok(Some(Texts::new(found)))
}

fn is_comment(line: &[u8]) -> bool
    ensures { result ≡ is_comment line.now }
{
    match line {
        [first, ..] => *first == b'#',
        [] => false,
    }
}

/// The arguments of a line. One with an open quote or a backslash at the line's end is `None`; it is the last.
fn read_arguments(alloc: Global, line: &[u8]) -> Result<Vec<Option<Bytes>>, Memory>
    ensures { IfOk result (λ arguments. arguments.items ≡ arguments_of line.now) }
{
    let mut arguments = Vec::new(alloc);
    let mut item = Vec::new(alloc);
    let mut spot = Spot::Between;
    let mut rest = line;
    while let [b, more @ ..] = rest {
        match step_at(spot, *b) {
            Step::Skip(next) => {
                spot = next;
                rest = more;
            }
            Step::Take(next) => {
                let (run, after) = rest.split_at(1 + taken_at(next, more));
                item.extend_from_slice(run)?;
                spot = next;
                rest = after;
            }
            Step::Close => {
                arguments.push(Some(Bytes::new(item)))?;
                item = Vec::new(alloc);
                spot = Spot::Between;
                rest = more;
            }
        }
    }
    with_last_argument(arguments, spot, item)
}

/// The arguments with the one that the line's end leaves.
fn with_last_argument(
    arguments: Vec<Option<Bytes>>,
    spot: Spot,
    item: Vec<u8>,
) -> Result<Vec<Option<Bytes>>, Memory>
    ensures { IfOk result (λ found. found.items ≡ arguments.items ++ last_argument spot item.items) }
{
    let mut arguments = arguments;
    match spot {
        Spot::Between => {}
        Spot::Plain => arguments.push(Some(Bytes::new(item)))?,
        Spot::Quoted | Spot::PlainEscape | Spot::QuotedEscape => arguments.push(None)?,
    }
    Ok(arguments)
}

pub(crate) fn step_at(spot: Spot, b: u8) -> Step
    ensures { result ≡ step_of spot b }
{
    match spot {
        Spot::Between if is_blank(b) => Step::Skip(Spot::Between),
        Spot::Between => step_in_argument(b),
        Spot::Plain if is_blank(b) => Step::Close,
        Spot::Plain => step_in_argument(b),
        Spot::Quoted => match b {
            b'\\' => Step::Skip(Spot::QuotedEscape),
            b'"' => Step::Skip(Spot::Plain),
            _ => Step::Take(Spot::Quoted),
        },
        Spot::PlainEscape => Step::Take(Spot::Plain),
        Spot::QuotedEscape => Step::Take(Spot::Quoted),
    }
}

/// How many bytes at the beginning of a text are taken one after the other, from a spot and to the same.
fn taken_at(spot: Spot, text: &[u8]) -> usize
    ensures within { result ≤ length text.now }
    ensures same { (item : List ℕ) → arguments_from spot item text.now ≡ arguments_from spot (item ++ take result text.now) (drop result text.now) }
{
    for (at, b) in text.iter().enumerate() {
        if !stays_at(spot, *b) {
            return at;
        }
    }
    text.len()
}

/// Whether a byte is taken at a spot, and the next one is read at the same.
fn stays_at(spot: Spot, b: u8) -> bool
    ensures { result ≡ true → step_of spot b ≡ Step.Take spot }
{
    match spot {
        Spot::Plain if is_blank(b) => false,
        Spot::Plain | Spot::Quoted => !matches!(b, b'\\' | b'"'),
        Spot::Between | Spot::PlainEscape | Spot::QuotedEscape => false,
    }
}

/// A byte of an argument outside quotes, or its first one.
fn step_in_argument(b: u8) -> Step
    ensures { result ≡ step_in_argument b }
{
    match b {
        b'\\' => Step::Skip(Spot::PlainEscape),
        b'"' => Step::Skip(Spot::Quoted),
        _ => Step::Take(Spot::Plain),
    }
}
