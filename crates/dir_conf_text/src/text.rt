//! A text that is cut into the lines that say something: all that reads a configuration goes through these.

ghost use Rattle.std.specs.Prelude.{◌≡◌, ◌≤◌, IfOk, length, option_copied, option_map};
ghost use Rattle.dir_conf_text.specs.Definitions.{definition_in};
ghost use Rattle.dir_conf_text.specs.Text.{config_lines, definition_by, definition_lines, said_in, words_by};
ghost use Rattle.dir_conf_text.specs.declared.text.Said.TheVariants.{Definition};

use crate::arguments::read_words;
use crate::definitions::definition_in;
use crate::joining::Joining;
use crate::lines::LogicalLines;
use dir_names::{Bytes, Memory};
use std::alloc::Global;
use std::marker::Model;

/// The words of a line. One with an open quote or a backslash at the line's end is `None`; it is the last.
#[derive(Debug, Drop)]
pub struct Words {
    items: Vec<Option<Bytes>>,
}

impl Model for Words {
    ghost use Rattle.std.specs.Prelude.{ℕ, List, Option};

    ghost Value = { List (Option (List ℕ)) };

    ghost view = { λ w. w.items.items };
}

impl Words {
    fn new(items: Vec<Option<Bytes>>) -> Words
        ensures { result ≡ items.items }
    {
        Words { items }
    }

    pub fn as_slice(&self) -> &[Option<Bytes>]
        ensures { result.now ≡ self.now }
    {
        self.items.as_slice()
    }
}

/// What a line says.
#[derive(Debug, Drop)]
pub enum Said {
    /// These words, the first of which is the directive.
    Words(Words),
    /// The definition of an attribute type: all that is after the first word, which is `attributetype`. It is not cut.
    Definition(Bytes),
}

/// A line that says something.
#[derive(Debug, Drop)]
pub struct ConfigLine {
    /// The number, from 1, of its first physical line.
    pub number: u64,
    pub said: Said,
}

impl ConfigLine {
    /// Its words. The definition of an attribute type has none.
    pub fn words(&self) -> &[Option<Bytes>]
        ensures { result.now ≡ words_by self.now.said }
    {
        match &self.said {
            Said::Words(words) => words.as_slice(),
            Said::Definition(_) => &[],
        }
    }

    /// The definition of an attribute type, if that is what it says.
    pub fn definition(&self) -> Option<&[u8]>
        ensures { option_copied result ≡ definition_by self.now.said }
    {
        match &self.said {
            Said::Words(_) => None,
            Said::Definition(definition) => Some(definition.as_slice()),
        }
    }
}

/// A text, cut into its lines. Comments and lines without words are not among them.
#[derive(Debug, Drop)]
pub struct ConfigText {
    lines: Vec<ConfigLine>,
}

impl Model for ConfigText {
    ghost use Rattle.std.specs.Prelude.{List};
    ghost use Rattle.dir_conf_text.specs.declared.text.ConfigLine.{ConfigLine};

    ghost Value = { List ConfigLine };

    ghost view = { λ text. text.lines.items };
}

impl ConfigText {
    /// Cuts a text of at most `MAX_CONFIG` bytes. Its physical lines are joined as `Joining::Plain` says.
    ///
    /// # Errors
    ///
    /// Memory runs out.
    pub fn cut(alloc: Global, text: &[u8]) -> Result<ConfigText, Memory>
        requires { length text.now ≤ 16777216 }
        ensures { IfOk result (λ cut. cut ≡ config_lines text.now) }
    {
        let mut found = Vec::new(alloc);
        let mut lines = LogicalLines::new(alloc, text, Joining::Plain)?;
        while let Some((number, line)) = lines.next(alloc)? {
            if let Some(said) = said_in(alloc, line.as_slice())? {
                found.push(ConfigLine { number, said })?;
            }
        }
        Ok(ConfigText { lines: found })
    }

    /// Cuts a text as `cut` does, and keeps the definitions of attribute types alone: no other line is cut into words.
    ///
    /// # Errors
    ///
    /// Memory runs out.
    pub fn cut_definitions(alloc: Global, text: &[u8]) -> Result<ConfigText, Memory>
        requires { length text.now ≤ 16777216 }
        ensures { IfOk result (λ cut. cut ≡ definition_lines text.now) }
    {
        let mut found = Vec::new(alloc);
        let mut lines = LogicalLines::new(alloc, text, Joining::Plain)?;
        while let Some((number, line)) = lines.next(alloc)? {
            if let Some(said) = defined_in(alloc, line.as_slice())? {
                found.push(ConfigLine { number, said })?;
            }
        }
        Ok(ConfigText { lines: found })
    }

    pub fn lines(&self) -> &[ConfigLine]
        ensures { result.now ≡ self.now }
    {
        self.lines.as_slice()
    }

    /// Its lines, so that the words of each can go when it is read.
    pub fn into_lines(self) -> Vec<ConfigLine>
        ensures { result.items ≡ self }
    {
        let ConfigText { lines } = self;
        lines
    }
}

/// What a line says, if anything.
fn said_in(alloc: Global, line: &[u8]) -> Result<Option<Said>, Memory>
    ensures { IfOk result (λ said. said ≡ said_in line.now) }
{
    if let Some(said) = defined_in(alloc, line)? {
        return Ok(Some(said));
    }
    let words = read_words(alloc, line)?;
    if words.is_empty() {
        return Ok(None);
    }
    Ok(Some(Said::Words(Words::new(words))))
}

/// What a line says, if it defines an attribute type.
fn defined_in(alloc: Global, line: &[u8]) -> Result<Option<Said>, Memory>
    ensures { IfOk result (λ said. said ≡ option_map Definition (definition_in line.now)) }
{
    match definition_in(line) {
        Some(definition) => Ok(Some(Said::Definition(Bytes::new(definition.to_vec(alloc)?)))),
        None => Ok(None),
    }
}
