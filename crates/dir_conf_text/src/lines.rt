//! The logical lines of a configuration (slapd.conf(5), "GENERAL FORMAT").

ghost use Rattle.std.specs.Prelude.{◌≡◌, ◌≤◌, [], IfNone, IfOk, length, map, option_map};
ghost use Rattle.dir_conf_text.specs.Lines.{line_by, logical_lines};
ghost use Rattle.dir_conf_text.specs.Inside.LinesToCome.{with_first};

use crate::joining::{Joining, joined, joins, text_of};
use dir_names::{Bytes, Memory, split_once, without_return};
use std::alloc::Global;
use std::marker::Model;

/// A line, with the number of its first physical line, from 1 on.
#[derive(Debug, Drop)]
pub struct TextLine {
    pub number: u64,
    pub text: Bytes,
}

/// The logical lines of a text of at most `MAX_CONFIG` bytes; comments and empty lines are among them.
///
/// # Errors
///
/// Memory runs out.
pub fn text_lines(alloc: Global, text: &[u8], joining: Joining) -> Result<Vec<TextLine>, Memory>
    requires { length text.now ≤ 16777216 }
    ensures { IfOk result (λ lines. map line_by lines.items ≡ logical_lines joining text.now) }
{
    let mut found = Vec::new(alloc);
    let mut lines = LogicalLines::new(alloc, text, joining)?;
    while let Some((number, text)) = lines.next(alloc)? {
        found.push(TextLine {
            number,
            text: Bytes::new(text),
        })?;
    }
    Ok(found)
}

/// The logical lines of a text, one after another.
#[derive(Drop)]
pub(crate) struct LogicalLines<'t> {
    joining: Joining,
    /// The next line so far, and the number of its first physical line; none after the last one.
    begun: Option<(u64, Vec<u8>)>,
    /// The number of the physical line with which the text that is left begins.
    number: u64,
    left: Option<&'t [u8]>,
}

impl<'t> Model for LogicalLines<'t> {
    ghost use Rattle.std.specs.Prelude.{◌+◌, ◌≤◌, ℕ, List, length, option_copied, option_map};
    ghost use Rattle.std.specs.Option.{option_map_or};
    ghost use Rattle.dir_conf_text.specs.Inside.LinesToCome.{lines_to_come};

    ghost Value = { List (ℕ × List ℕ) };

    ghost view = { λ lines. lines_to_come lines.joining (option_map (λ p. (p.0, p.1.items)) lines.begun) lines.number (option_copied lines.left) };

    ghost invariant = { λ lines. lines.number + option_map_or (λ text. length text + 1) (option_copied lines.left) 0 ≤ 16777220 };
}

impl<'t> LogicalLines<'t> {
    pub(crate) fn new(
        alloc: Global,
        text: &'t [u8],
        joining: Joining,
    ) -> Result<LogicalLines<'t>, Memory>
        requires { length text.now ≤ 16777216 }
        ensures { IfOk result (λ lines. lines ≡ logical_lines joining text.now) }
    {
        let (first, left) = split_once(text_of(joining, text), b'\n');
        Ok(LogicalLines {
            joining,
            begun: Some((1, without_return(first).to_vec(alloc)?)),
            number: 2,
            left,
        })
    }

    /// The next line, with the number of its first physical line.
    pub(crate) fn next(&mut self, alloc: Global) -> Result<Option<(u64, Vec<u8>)>, Memory>
        ensures { IfOk result (λ line. self.old ≡ with_first (option_map (λ p. (p.0, p.1.items)) line) self.new × (IfNone line (self.old ≡ []))) }
    {
        let Some((number, mut line)) = self.begun.take() else {
            return Ok(None);
        };
        while let Some(more) = self.left {
            let (physical, after) = split_once(more, b'\n');
            let physical = without_return(physical);
            if !joins(self.joining, line.as_slice(), physical) {
                self.begun = Some((self.number, physical.to_vec(alloc)?));
                self.number += 1;
                self.left = after;
                return Ok(Some((number, line)));
            }
            line = joined(self.joining, line, physical)?;
            self.number += 1;
            self.left = after;
        }
        Ok(Some((number, line)))
    }
}
