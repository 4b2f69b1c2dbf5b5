//! What the lines of a slapd.conf say (slapd.conf(5), "GENERAL FORMAT").

ghost use Rattle.std.specs.List.{list_all};
ghost use Rattle.std.specs.Prelude.{◌≡◌, map, option_copied};
ghost use Rattle.dir_conf.specs.Flat.{is_no_feed};
ghost use Rattle.dir_conf.specs.Outcome.{GivesConf};
ghost use Rattle.dir_conf.specs.SlapdConf.Files.{placed};
ghost use Rattle.dir_conf.specs.SlapdConf.Statements.{by_words, defined_in, is_definition_word, some_statement, statement_in, statement_of, statements_from};
ghost use Rattle.dir_conf_text.specs.Arguments.{whole_words};

use crate::cn_config::is_one_line;
use crate::cn_config::macros::{first_word, without_spaces};
use crate::fault::ConfFault;
use crate::slapd_conf::files::PlacedLine;
use dir_conf_text::{begins_with, line_words};
use dir_names::{Bytes, Texts};
use std::alloc::Global;

/// What a line says.
#[derive(Drop)]
pub(crate) enum Said {
    /// It has the definition of an attribute type.
    Defines(Bytes),
    /// It has these words, the first of which is its keyword.
    Words(Texts),
}

/// What a line says, with its number among all lines.
#[derive(Drop)]
pub(crate) struct SaidLine {
    pub(crate) line: u64,
    pub(crate) said: Said,
}

/// What the lines say, those that say something.
pub(crate) fn read_statements(
    alloc: Global,
    lines: &[PlacedLine],
) -> Result<Vec<SaidLine>, ConfFault>
    ensures { GivesConf (λ found. map statement_of found.items) result (statements_from 1 (map placed lines.now)) }
{
    let mut found = Vec::new(alloc);
    for (at, line) in lines.iter().enumerate() {
        if let Some(statement) = statement_in(alloc, at as u64 + 1, line)? {
            found.push(statement)?;
        }
    }
    Ok(found)
}

fn statement_in(
    alloc: Global,
    number: u64,
    line: &PlacedLine,
) -> Result<Option<SaidLine>, ConfFault>
    ensures { GivesConf some_statement result (statement_in number (placed line.now)) }
{
    match defined_in(line.text.as_slice()) {
        Some(definition) => Ok(Some(SaidLine {
            line: number,
            said: Said::Defines(Bytes::new(definition.to_vec(alloc)?)),
        })),
        None => by_words(alloc, number, line.text.as_slice()),
    }
}

/// The definition of an attribute type in a line: all that is after its first word, where this begins with `attribute`.
fn defined_in(line: &[u8]) -> Option<&[u8]>
    ensures { option_copied result ≡ defined_in line.now }
{
    let (word, rest) = first_word(without_spaces(line));
    if is_definition_word(word) {
        Some(rest)
    } else {
        None
    }
}

fn is_definition_word(word: &[u8]) -> bool
    ensures { result ≡ is_definition_word word.now }
{
    begins_with(word, b"attribute") && !word.eq_ignore_ascii_case(b"attributeoptions")
}

fn by_words(alloc: Global, number: u64, line: &[u8]) -> Result<Option<SaidLine>, ConfFault>
    ensures { GivesConf some_statement result (by_words number (whole_words line.now)) }
{
    let Some(words) = line_words(alloc, line)? else {
        return Err(ConfFault::BadArguments(number));
    };
    match words.as_slice() {
        [] => return Ok(None),
        [keyword, ..] if keyword.as_slice().eq_ignore_ascii_case(b"include") => {
            return Err(ConfFault::BadInclude(number));
        }
        [keyword, ..] if is_definition_word(keyword.as_slice()) => {
            return Err(ConfFault::BadArguments(number));
        }
        _ => {}
    }
    if !are_one_line(words.as_slice()) {
        return Err(ConfFault::BadArguments(number));
    }
    Ok(Some(SaidLine {
        line: number,
        said: Said::Words(words),
    }))
}

/// Whether no word has a line feed.
fn are_one_line(words: &[Bytes]) -> bool
    ensures { result ≡ list_all (list_all is_no_feed) words.now }
{
    words.iter().all(|word| is_one_line(word.as_slice()))
}
