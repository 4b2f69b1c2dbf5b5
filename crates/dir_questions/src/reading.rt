//! A file of questions, read as blocks of lines, and these as what they ask.

ghost use Rattle.std.specs.Io.KnownBytes.{Consumes};
ghost use Rattle.std.specs.Prelude.{◌≡◌, ◌≤◌, IfErr, IfOk, List, MatchResult, Err, Ok, OnOk, length, map, option_map, ℕ};
ghost use Rattle.dir_tools.specs.Inside.Asking as asking;
ghost use Rattle.dir_acl.specs.declared.privileges.Level.{Level};
ghost use Rattle.dir_ldif.specs.LogicalLines.{Line};
ghost use Rattle.dir_questions.specs.Inside.Reading.{left_in, lines_fault, numbered_in};
ghost use Rattle.dir_questions.specs.Reading.{GivesAsked, block_in, given_in, word_in};
ghost use Rattle.dir_questions.specs.Questions.{asked_word, base_in, collect, fake_in, given_name, is_answer, is_nobody, is_reserved, line_of_first, line_parts, may_be_expected, optional_line, requester_in, word_line, words_in, read_block};
ghost use Rattle.dir_questions.specs.Runs.{HasLines, HasNoLines};

use crate::fault::{QuestionCause, QuestionsFault};
use dir_acl::{Level, Privileges};
use dir_conf_text::MAX_CONFIG;
use dir_ldif::{Line, Source, StreamFault, line_parts, read_blocks};
use dir_names::{Dn, DnKey, Memory, Schema};
use dir_tools::{ToolFault, Word, read_bounded, read_name, read_word};
use std::alloc::Global;

/// The greatest length of a file of questions, in bytes: `read_bounded` reads it as it reads a configuration.
const MAX_QUESTIONS: usize = MAX_CONFIG;

/// The answer where the copy has no such entry.
pub(crate) const NO_SUCH_ENTRY: &[u8] = b"no such entry";

/// A legal name, as it is written in the file, and what it spells.
pub(crate) struct GivenName {
    pub(crate) text: Vec<u8>,
    pub(crate) name: Dn,
    pub(crate) key: DnKey,
}

// Written out, so that a drop is one call in proofs (docs/CONTRIBUTING.md).
impl Drop for GivenName {
    fn drop(self) {
        let GivenName { text, name, key } = self;
        drop(text);
        drop(name);
        drop(key);
    }
}

/// A word, with its line and the answer that is expected. That is empty where the word is only asked for.
pub(crate) struct AskedWord<'t> {
    pub(crate) line: u64,
    pub(crate) text: &'t [u8],
    pub(crate) word: Word<'t>,
    pub(crate) expected: Vec<u8>,
}

// Written out, so that a drop is one call in proofs (docs/CONTRIBUTING.md).
impl Drop for AskedWord<'_> {
    fn drop(self) {
        let AskedWord {
            line: _,
            text: _,
            word,
            expected,
        } = self;
        drop(word);
        drop(expected);
    }
}

/// What a block of a file of questions asks.
pub struct Block<'t> {
    /// Who asks, if somebody does.
    pub(crate) requester: Option<GivenName>,
    /// The entry is not looked up: it has no attributes.
    pub(crate) fake: bool,
    pub(crate) base: GivenName,
    pub(crate) words: Vec<AskedWord<'t>>,
}

// Written out, so that a drop is one call in proofs (docs/CONTRIBUTING.md).
impl Drop for Block<'_> {
    fn drop(self) {
        let Block {
            requester,
            fake: _,
            base,
            words,
        } = self;
        drop(requester);
        drop(base);
        drop(words);
    }
}

/// A value, with the number of its line.
#[derive(Drop)]
struct Numbered {
    line: u64,
    value: Vec<u8>,
}

/// The lines of a file of questions, in blocks.
///
/// At most 16,785,408 bytes are read.
///
/// # Errors
///
/// The questions can't be read; they have more than 16,777,216 bytes; the fault in which their text ends; memory ran out.
pub fn read_lines<R: Source>(
    alloc: Global,
    questions: &mut R,
) -> Result<Vec<Vec<Line>>, QuestionsFault>
    ensures ok { IfOk result (λ lines. HasLines (R.left questions.old) (map (λ block. block.items) lines.items)) }
    ensures err { IfErr result (HasNoLines (R.left questions.old) (R.failures questions.old) (R.failures questions.new)) }
    ensures bounded { (bytes : List ℕ) × Consumes (R.left questions.old) (R.left questions.new) bytes × (length bytes ≤ 16785408) }
    ensures unfailed { OnOk result (R.failures questions.new ≡ R.failures questions.old) }
{
    let Some(text) = read_bounded(alloc, questions)? else {
        return Err(QuestionsFault::Read);
    };
    if text.len() > MAX_QUESTIONS {
        return Err(QuestionsFault::TooLong);
    }
    match read_blocks(alloc, text.as_slice()) {
        Ok(blocks) => Ok(blocks),
        Err(fault) => Err(lines_fault(fault)),
    }
}

/// The fault in which a text of questions ends, as a fault of the questions.
fn lines_fault(fault: StreamFault) -> QuestionsFault
    ensures { result ≡ lines_fault fault }
{
    match fault {
        StreamFault::Memory => QuestionsFault::Tool(ToolFault::Memory),
        _ => QuestionsFault::Stream(fault),
    }
}

/// Reads what blocks of lines ask, in their order, with these attribute types.
///
/// # Errors
///
/// The first line that is at fault, and why; memory ran out.
pub fn read_questions<'t>(
    alloc: Global,
    schema: &Schema,
    blocks: &'t [Vec<Line>],
) -> Result<Vec<Block<'t>>, QuestionsFault>
    ensures { GivesAsked (λ found. map block_in found.items) result (collect (λ lines. read_block schema.now lines.items) blocks.now) }
{
    let mut found = Vec::new(alloc);
    for lines in blocks {
        found.push(read_block(alloc, schema, lines.as_slice())?)?;
    }
    Ok(found)
}

fn read_block<'t>(
    alloc: Global,
    schema: &Schema,
    lines: &'t [Line],
) -> Result<Block<'t>, QuestionsFault>
    ensures { GivesAsked block_in result (read_block schema.now lines.now) }
{
    let begin = line_of_first(0, lines);
    let (who, lines) = optional_line(alloc, b"authcDN", lines)?;
    let requester = requester_in(alloc, schema, who)?;
    let (made_up, lines) = optional_line(alloc, b"fake", lines)?;
    let fake = fake_in(made_up)?;
    let (target, lines) = optional_line(alloc, b"dn", lines)?;
    let base = base_in(alloc, schema, begin, target, lines)?;
    let words = words_in(alloc, schema, begin, lines)?;
    Ok(Block {
        requester,
        fake,
        base,
        words,
    })
}

/// The number of the first of these lines, or `begin` where there is none.
fn line_of_first(begin: u64, lines: &[Line]) -> u64
    ensures { result ≡ line_of_first begin lines.now }
{
    match lines.first() {
        Some(line) => line.number(),
        None => begin,
    }
}

/// The value of the first of these lines, if it has this name, and the lines that are left.
fn optional_line<'t>(
    alloc: Global,
    name: &[u8],
    lines: &'t [Line],
) -> Result<(Option<Numbered>, &'t [Line]), QuestionsFault>
    ensures { GivesAsked left_in result (optional_line name.now lines.now) }
{
    let Some((line, rest)) = lines.split_first() else {
        return Ok((None, lines));
    };
    let (found, value) = parts_of(alloc, line)?;
    if found.eq_ignore_ascii_case(name) {
        let line = line.number();
        Ok((Some(Numbered { line, value }), rest))
    } else {
        Ok((None, lines))
    }
}

/// The name and the value of a line.
fn parts_of(alloc: Global, line: &Line) -> Result<(&[u8], Vec<u8>), QuestionsFault>
    ensures { GivesAsked (λ p. (p.0.now, p.1.items)) result (line_parts line.now) }
{
    match line_parts(alloc, line.text())? {
        Ok(parts) => Ok(parts),
        Err(fault) => Err(QuestionsFault::Block(line.number(), QuestionCause::Line(fault))),
    }
}

/// The requester: none where the line is absent, or names nobody.
fn requester_in(
    alloc: Global,
    schema: &Schema,
    value: Option<Numbered>,
) -> Result<Option<GivenName>, QuestionsFault>
    ensures { GivesAsked (option_map given_in) result (requester_in schema.now (option_map numbered_in value)) }
{
    match value {
        Some(value) if !is_nobody(value.value.as_slice()) => {
            Ok(Some(given_name(alloc, schema, value)?))
        }
        _ => Ok(None),
    }
}

fn is_nobody(value: &[u8]) -> bool
    ensures { result ≡ is_nobody value.now }
{
    value.is_empty() || value.eq_ignore_ascii_case(b"anonymous")
}

fn given_name(alloc: Global, schema: &Schema, value: Numbered) -> Result<GivenName, QuestionsFault>
    ensures { GivesAsked given_in result (given_name schema.now (numbered_in value)) }
{
    let Numbered { line, value: text } = value;
    match read_name(alloc, schema, text.as_slice())? {
        Some((name, key)) => Ok(GivenName { text, name, key }),
        None => Err(QuestionsFault::Block(line, QuestionCause::BadName)),
    }
}

/// Whether the entry is made up: `fake: true`.
fn fake_in(value: Option<Numbered>) -> Result<bool, QuestionsFault>
    ensures { GivesAsked (λ fake. fake) result (fake_in (option_map numbered_in value)) }
{
    match value {
        None => Ok(false),
        Some(value) if value.value.as_slice().eq_ignore_ascii_case(b"true") => Ok(true),
        Some(value) => Err(QuestionsFault::Block(value.line, QuestionCause::BadBlock)),
    }
}

/// The name of the entry. `lines` are those after its line, or those that stand in its place.
fn base_in(
    alloc: Global,
    schema: &Schema,
    begin: u64,
    value: Option<Numbered>,
    lines: &[Line],
) -> Result<GivenName, QuestionsFault>
    ensures { GivesAsked given_in result (base_in schema.now begin (option_map numbered_in value, lines.now)) }
{
    match value {
        Some(value) => given_name(alloc, schema, value),
        None => Err(QuestionsFault::Block(line_of_first(begin, lines), QuestionCause::BadBlock)),
    }
}

/// The words, of which there is one at least.
fn words_in<'t>(
    alloc: Global,
    schema: &Schema,
    begin: u64,
    lines: &'t [Line],
) -> Result<Vec<AskedWord<'t>>, QuestionsFault>
    ensures { GivesAsked (λ words. map word_in words.items) result (words_in schema.now begin lines.now) }
{
    if lines.is_empty() {
        return Err(QuestionsFault::Block(begin, QuestionCause::BadBlock));
    }
    let mut words = Vec::new(alloc);
    for line in lines {
        words.push(word_line(alloc, schema, line)?)?;
    }
    Ok(words)
}

fn word_line<'t>(
    alloc: Global,
    schema: &Schema,
    line: &'t Line,
) -> Result<AskedWord<'t>, QuestionsFault>
    ensures { GivesAsked word_in result (word_line schema.now line.now) }
{
    let (text, expected) = parts_of(alloc, line)?;
    match asked_word(alloc, schema, line.number(), text, expected)? {
        Ok(word) => Ok(word),
        Err(cause) => Err(QuestionsFault::Block(line.number(), cause)),
    }
}

/// The word of a line, by the line's name and value, or why it is none.
fn asked_word<'t>(
    alloc: Global,
    schema: &Schema,
    line: u64,
    text: &'t [u8],
    expected: Vec<u8>,
) -> Result<Result<AskedWord<'t>, QuestionCause>, Memory>
    ensures { IfOk result (λ answer. MatchResult answer
        (λ word. asked_word schema.now line (text.now, expected.items) ≡ Ok (word_in word))
        (λ why. asked_word schema.now line (text.now, expected.items) ≡ Err why)) }
{
    if is_reserved(text) {
        return Ok(Err(QuestionCause::BadBlock));
    }
    let Some(word) = read_word(alloc, schema, text)? else {
        return Ok(Err(QuestionCause::BadWord));
    };
    if !may_be_expected(alloc, &word, expected.as_slice())? {
        return Ok(Err(QuestionCause::BadAnswer));
    }
    Ok(Ok(AskedWord {
        line,
        text,
        word,
        expected,
    }))
}

/// Whether this is the name of a line that is no word.
fn is_reserved(name: &[u8]) -> bool
    ensures { result ≡ is_reserved name.now }
{
    name.eq_ignore_ascii_case(b"authcDN")
        || name.eq_ignore_ascii_case(b"fake")
        || name.eq_ignore_ascii_case(b"dn")
}

/// Whether an answer may be expected of a word.
fn may_be_expected(alloc: Global, word: &Word<'_>, text: &[u8]) -> Result<bool, Memory>
    ensures { IfOk result (λ may. may ≡ may_be_expected (asking.word_in word.now) text.now) }
{
    if text.is_empty() || text == NO_SUCH_ENTRY {
        return Ok(true);
    }
    is_answer(alloc, word.access.is_some(), text)
}

/// Whether a report can have this answer to a word, with a level or without one.
fn is_answer(alloc: Global, has_level: bool, text: &[u8]) -> Result<bool, Memory>
    ensures { IfOk result (λ is. is ≡ is_answer has_level text.now) }
{
    if has_level {
        return Ok(text == b"ALLOWED".as_slice() || text == b"DENIED".as_slice());
    }
    Ok(Privileges::read(alloc, text)?.is_some())
}
