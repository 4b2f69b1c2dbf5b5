//! The unfolder: from the chunks of a text it makes logical lines, drops comments and the version line, and
//! gathers the lines to blocks (RFC 2849, notes 1 to 3).

ghost use Rattle.std.specs.Prelude.{◌≡◌, ◌+◌, ◌∷◌, ◌++◌, ◌<◌, ◌≤◌, ◌^◌, [], IfErr, IfOk, IfSome, List, MatchOption, None, OnOk, Some, drop, false, true, length, ℕ};
ghost use Rattle.std.specs.List.{list_any};
ghost use Rattle.dir_ldif.specs.Bytes.{begins_with, without_last};
ghost use Rattle.dir_ldif.specs.Inside.Bounds.{has_room, may_be_continued};
ghost use Rattle.dir_ldif.specs.LogicalLines.{is_comment, is_lf, is_long};
ghost use Rattle.dir_names.specs.Ascii.{carriage_return, line_feed, space};

use crate::faults::StreamFault;
use crate::reader::bytes::{begins_with_space, cut_at, parts_without_cr, without_cr};
use crate::reader::marks::Marks;
use crate::reader::spare::Spare;
use crate::reader::version::{Version, version_of};
use std::alloc::Global;
use std::marker::Model;
use std::mem;

/// The greatest length of a logical line, in bytes, unfolded and without its final CR.
pub const MAX_LINE: usize = 2_097_152;

/// For at most how many lines room is made at once: as many as the block before had.
const MOST_ROOM: usize = 64;

/// A logical line of a text: its physical lines, unfolded (RFC 2849, notes 1 to 3), with the number of the first of them.
#[derive(Debug, Drop)]
pub struct Line {
    number: u64,
    text: Vec<u8>,
}

impl Model for Line {
    ghost use Rattle.std.specs.Prelude.{ℕ, List};

    ghost Value = { ℕ × List ℕ };

    ghost view = { λ l. (l.number, l.text.items) };
}

impl Line {
    fn new(number: u64, text: Vec<u8>) -> Line
        ensures { result ≡ (number, text.items) }
    {
        Line { number, text }
    }

    /// The number of its first physical line in the text, from 1. Each physical line counts: comments and empty ones too.
    pub fn number(&self) -> u64
        ensures { result ≡ self.now.0 }
    {
        self.number
    }

    /// Its text, unfolded: its physical lines one after the other, each without its LF and without one CR before that, and
    /// each continuation without the space that it begins with.
    pub fn text(&self) -> &[u8]
        ensures { result.now ≡ self.now.1 }
    {
        self.text.as_slice()
    }

    /// The line with its continuation, which comes in two parts and begins with a space.
    fn with_continuation(mut self, front: &[u8], back: &[u8]) -> Result<Line, StreamFault>
        requires { begins_with space front.now ≡ true }
        ensures ok { IfOk result (λ line. line ≡ (self.0, self.1 ++ drop 1 (front.now ++ back.now))) }
        ensures err { IfErr result (λ fault. fault ≡ StreamFault.Memory) }
    {
        self.text.extend_from_slice(&front[1..])?;
        self.text.extend_from_slice(back)?;
        Ok(self)
    }

    /// The text of the line, moved out of it.
    pub(crate) fn into_text(self) -> Vec<u8>
        ensures { result.items ≡ self.1 }
    {
        self.text
    }

    fn is_long(&self) -> bool
        ensures { result ≡ is_long self.now }
    {
        self.text.len() > MAX_LINE
    }
}

/// Unfolds the lines of a text that comes in chunks, and gathers them to blocks.
#[derive(Drop)]
pub(crate) struct Unfolder {
    // the lines of the block in hand, which are complete
    block: Vec<Line>,
    // whether the text has had a line, so that no version line may come
    begun: bool,
    // the last logical line, which the next physical line may continue
    last: Option<Line>,
    // the number of the next physical line
    pub(crate) number: u64,
    // the physical line that has not ended. If it continues the last line, its text is there already, and
    // here are its space and a CR that may be its final one
    partial: Vec<u8>,
    // which marks of groups end the text
    marks: Marks,
    alloc: Global,
    ghost continuable: { may_be_continued last ≡ true },
    ghost ended: { marks.is_over ≡ true → block.items ≡ [] },
    ghost unended: { list_any is_lf partial.items ≡ false },
    ghost short: { has_room last partial.items ≡ true },
}

impl Unfolder {
    ghost use Rattle.std.specs.Prelude.{◌≡◌, ◌+◌, ◌∷◌, ◌++◌, ◌<◌, ◌≤◌, ◌^◌, [], IfErr, IfOk, IfSome, List, MatchOption, None, OnOk, Some, drop, false, if◌then◌else◌, true, length, ℕ};
    ghost use Rattle.dir_ldif.specs.Bytes.{begins_with, is_empty, without_last};
    ghost use Rattle.dir_ldif.specs.Reader.Unfolding.{to_come, to_come_with};
    ghost use Rattle.dir_ldif.specs.Inside.Unfolder.{TakesLine, after_block};
    ghost use Rattle.dir_ldif.specs.Inside.Bounds.{has_room, may_be_continued};
    ghost use Rattle.dir_ldif.specs.LogicalLines.{Line, cut, is_lf, is_long, lines_of, logical_lines, physical_lines};
    ghost use Rattle.dir_ldif.specs.Marks.{ignored};
    ghost use Rattle.dir_ldif.specs.Remainder.{FailsAtOnce, Remainder, done, remainder_from, then_rest};

    pub(crate) fn new(alloc: Global, marks: Marks) -> Unfolder
        ensures number { result.number ≡ 1 }
        ensures text { (text : List ℕ) → to_come result text ≡ remainder_from marks false [] (lines_of text) }
        ensures marks { result.marks ≡ marks }
    {
        Unfolder {
            block: Vec::new(alloc),
            begun: false,
            last: None,
            number: 1,
            partial: Vec::new(alloc),
            marks,
            alloc,
        }
    }

    /// Whether a mark has ended the text. What follows it belongs to no block.
    pub(crate) fn is_over(&self) -> bool
        ensures { result ≡ self.now.marks.is_over }
    {
        self.marks.is_over()
    }

    /// The marks that were passed.
    pub(crate) fn marks(&self) -> u64
        ensures { result ≡ self.now.marks.passed }
    {
        self.marks.passed()
    }

    /// Takes the next chunk of the text, up to the end of a block if one ends in it. Answers that block and the
    /// rest of the chunk, or none where all was taken.
    pub(crate) fn push_chunk<'a>(
        &mut self,
        spare: &mut Spare,
        chunk: &'a [u8],
    ) -> Result<Option<(Vec<Line>, &'a [u8])>, StreamFault>
        requires going { self.old.marks.is_over ≡ false }
        requires given { self.old.number + length chunk.now < 2 ^ 63 }
        ensures ignored { self.old.marks ≡ ignored → self.new.marks ≡ ignored }
        ensures number { self.new.number ≤ self.old.number + length chunk.now }
        ensures left { IfOk result (λ o. IfSome o
            (λ p. self.new.number + length p.1.now ≤ self.old.number + length chunk.now)) }
        ensures shorter { IfOk result (λ o. IfSome o (λ p. length p.1.now < length chunk.now)) }
        ensures used { IfOk result (λ o. IfSome o (λ p. (used : List ℕ) × (chunk.now ≡ used ++ p.1.now)
            × ((text : List ℕ) → to_come self.old (used ++ text) ≡ then_rest p.0.items (to_come self.new text)))) }
        ensures ok { IfOk result (λ o. MatchOption o
            ((text : List ℕ) → to_come self.old (chunk.now ++ text) ≡ to_come self.new text)
            (λ p. (text : List ℕ) → to_come self.old (chunk.now ++ text) ≡ then_rest p.0.items (to_come self.new (p.1.now ++ text)))) }
        ensures some { IfOk result (λ o. IfSome o (λ p. is_empty p.0.items ≡ false)) }
        ensures going { IfOk result (λ o. IfSome o (λ _. self.new.marks.is_over ≡ false)) }
        ensures err { IfErr result (λ fault. (text : List ℕ) → FailsAtOnce fault (to_come self.old (chunk.now ++ text))) }
    {
        let mut rest = chunk;
        while let Some((text, after)) = cut_at(b'\n', rest) {
            rest = after;
            if let Some(block) = self.finish_line(spare, text)? {
                return Ok(Some((block, rest)));
            }
            if self.is_over() {
                return Ok(None);
            }
        }
        self.push_partial_line(rest)?;
        Ok(None)
    }

    /// Finishes the physical line in hand, with the bytes before its LF. Answers the block, if that ends one
    /// which has a line.
    fn finish_line(
        &mut self,
        spare: &mut Spare,
        text: &[u8],
    ) -> Result<Option<Vec<Line>>, StreamFault>
        requires going { self.old.marks.is_over ≡ false }
        requires room { self.old.number < 2 ^ 63 }
        requires line { list_any is_lf text.now ≡ false }
        ensures ignored { self.old.marks ≡ ignored → self.new.marks ≡ ignored }
        ensures number { self.new.number ≡ self.old.number + 1 }
        ensures ok { IfOk result (λ o. MatchOption o
            ((rest : List ℕ) → to_come self.old (text.now ++ line_feed ∷ rest) ≡ to_come self.new rest)
            (λ block. (rest : List ℕ) → to_come self.old (text.now ++ line_feed ∷ rest) ≡ then_rest block.items (to_come self.new rest))) }
        ensures some { IfOk result (λ o. IfSome o (λ block. is_empty block.items ≡ false)) }
        ensures going { IfOk result (λ o. IfSome o (λ _. self.new.marks.is_over ≡ false)) }
        ensures err { IfErr result (λ fault. (rest : List ℕ) → FailsAtOnce fault (to_come self.old (text.now ++ line_feed ∷ rest))) }
    {
        if self.finish_physical_line(spare, text)? {
            Ok(self.finish_block())
        } else {
            Ok(None)
        }
    }

    /// Finishes the block in hand: moves it out, if it has a line.
    fn finish_block(&mut self) -> Option<Vec<Line>>
        requires { self.old.last ≡ None }
        ensures ignored { self.old.marks ≡ ignored → self.new.marks ≡ ignored }
        ensures number { self.new.number ≡ self.old.number }
        ensures partial { self.new.partial ≡ self.old.partial }
        ensures blocks { (more : List Line) → MatchOption result
            (after_block self.old more ≡ to_come_with self.new more)
            (λ block. after_block self.old more ≡ then_rest block.items (to_come_with self.new more)) }
        ensures some { IfSome result (λ block. is_empty block.items ≡ false) }
        ensures going { IfSome result (λ _. self.new.marks.is_over ≡ false) }
    {
        if self.block.is_empty() {
            return None;
        }
        Some(self.take_block())
    }

    /// Moves the block out.
    fn take_block(&mut self) -> Vec<Line>
        ensures ignored { self.old.marks ≡ ignored → self.new.marks ≡ ignored }
        ensures block { result.items ≡ self.old.block.items }
        ensures empty { self.new.block.items ≡ [] }
        ensures marks { self.new.marks ≡ self.old.marks }
        ensures begun { self.new.begun ≡ self.old.begun }
        ensures last { self.new.last ≡ self.old.last }
        ensures number { self.new.number ≡ self.old.number }
        ensures partial { self.new.partial ≡ self.old.partial }
    {
        let room = self.block.len().min(MOST_ROOM);
        let next = match Vec::with_capacity(self.alloc, room) {
            Ok(next) => next,
            Err(_) => Vec::new(self.alloc),
        };
        mem::replace(&mut self.block, next)
    }

    /// Takes bytes in which no line ends.
    fn push_partial_line(&mut self, chunk: &[u8]) -> Result<(), StreamFault>
        requires going { self.old.marks.is_over ≡ false }
        requires given { list_any is_lf chunk.now ≡ false }
        ensures ignored { self.old.marks ≡ ignored → self.new.marks ≡ ignored }
        ensures number { self.new.number ≡ self.old.number }
        ensures ok { OnOk result ((text : List ℕ) → to_come self.old (chunk.now ++ text) ≡ to_come self.new text) }
        ensures err { IfErr result (λ fault. (text : List ℕ) → FailsAtOnce fault (to_come self.old (chunk.now ++ text))) }
    {
        if chunk.is_empty() {
            return Ok(());
        }
        let partial = mem::replace(&mut self.partial, Vec::new(self.alloc));
        match self.last.take() {
            Some(last) => self.push_partial_after(last, partial, chunk),
            None => self.push_partial_alone(partial, chunk),
        }
    }

    /// Takes a physical line that has not ended, in two parts, where a line comes before it.
    fn push_partial_after(
        &mut self,
        last: Line,
        front: Vec<u8>,
        back: &[u8],
    ) -> Result<(), StreamFault>
        requires going { self.old.marks.is_over ≡ false }
        requires none { (self.old.partial.items ≡ []) × (self.old.last ≡ None) }
        requires continuable { may_be_continued (Some last) ≡ true }
        requires line { list_any is_lf (front.items ++ back.now) ≡ false }
        requires some { is_empty (front.items ++ back.now) ≡ false }
        ensures ignored { self.old.marks ≡ ignored → self.new.marks ≡ ignored }
        ensures number { self.new.number ≡ self.old.number }
        ensures ok { OnOk result ((text : List ℕ) → remainder_from self.old.marks self.old.begun self.old.block.items
            (logical_lines (last ∷ physical_lines self.old.number (cut is_lf ((front.items ++ back.now) ++ text)))) ≡ to_come self.new text) }
        ensures err { IfErr result (λ fault. (text : List ℕ) → FailsAtOnce fault (remainder_from self.old.marks self.old.begun self.old.block.items
            (logical_lines (last ∷ physical_lines self.old.number (cut is_lf ((front.items ++ back.now) ++ text)))))) }
    {
        let (begin, end) = parts_without_cr(front.as_slice(), back);
        if begins_with_space(begin) {
            let has_cr = begin.len() + end.len() < front.len() + back.len();
            return self.continue_partly(last, begin, end, has_cr);
        }
        self.push_to_block(last)?;
        if self.is_over() {
            return Ok(());
        }
        self.push_partial_alone(front, back)
    }

    /// Continues a line by the text of a physical line that has not ended. Its space is left in hand, and a
    /// CR that may be its final one.
    fn continue_partly(
        &mut self,
        last: Line,
        front: &[u8],
        back: &[u8],
        has_cr: bool,
    ) -> Result<(), StreamFault>
        requires going { self.old.marks.is_over ≡ false }
        requires none { (self.old.partial.items ≡ []) × (self.old.last ≡ None) }
        requires continuable { may_be_continued (Some last) ≡ true }
        requires space { begins_with space front.now ≡ true }
        ensures ignored { self.old.marks ≡ ignored → self.new.marks ≡ ignored }
        ensures number { self.new.number ≡ self.old.number }
        ensures block { (self.new.begun ≡ self.old.begun) × (self.new.block ≡ self.old.block) × (self.new.marks ≡ self.old.marks) }
        ensures ok { OnOk result ((self.new.last ≡ Some (last.0, last.1 ++ drop 1 (front.now ++ back.now)))
            × (self.new.partial.items ≡ (if has_cr then space ∷ carriage_return ∷ [] else space ∷ []))) }
        ensures err { IfErr result (λ fault. (text : List ℕ) → (n : ℕ) → (more : List Line)
            → FailsAtOnce fault (remainder_from self.old.marks self.old.begun self.old.block.items (logical_lines (last ∷ (n, (front.now ++ back.now) ++ text) ∷ more)))) }
    {
        let longer = last.with_continuation(front, back)?;
        if longer.is_long() {
            return Err(StreamFault::LineTooLong);
        }
        let rest: &[u8] = if has_cr { b" \r" } else { b" " };
        self.partial = rest.to_vec(self.alloc)?;
        self.last = Some(longer);
        Ok(())
    }

    /// Takes a physical line that has not ended, in two parts, where it continues no line.
    fn push_partial_alone(&mut self, front: Vec<u8>, back: &[u8]) -> Result<(), StreamFault>
        requires going { self.old.marks.is_over ≡ false }
        requires none { self.old.last ≡ None }
        requires line { list_any is_lf (front.items ++ back.now) ≡ false }
        ensures ignored { self.old.marks ≡ ignored → self.new.marks ≡ ignored }
        ensures number { self.new.number ≡ self.old.number }
        ensures ok { OnOk result ((text : List ℕ) → remainder_from self.old.marks self.old.begun self.old.block.items
            (logical_lines (physical_lines self.old.number (cut is_lf ((front.items ++ back.now) ++ text)))) ≡ to_come self.new text) }
        ensures err { IfErr result (λ fault. (text : List ℕ) → FailsAtOnce fault (remainder_from self.old.marks self.old.begun self.old.block.items
            (logical_lines (physical_lines self.old.number (cut is_lf ((front.items ++ back.now) ++ text)))))) }
    {
        let mut partial = front;
        partial.extend_from_slice(back)?;
        if without_cr(partial.as_slice()).len() > MAX_LINE {
            return Err(StreamFault::LineTooLong);
        }
        self.partial = partial;
        Ok(())
    }

    /// Finishes the physical line in hand, with the bytes before its LF. Answers whether it is empty, so that
    /// the block has ended.
    #[inline(always)]
    fn finish_physical_line(&mut self, spare: &mut Spare, text: &[u8]) -> Result<bool, StreamFault>
        requires going { self.old.marks.is_over ≡ false }
        requires room { self.old.number < 2 ^ 63 }
        ensures ignored { self.old.marks ≡ ignored → self.new.marks ≡ ignored }
        ensures number { self.new.number ≡ self.old.number + 1 }
        ensures partial { self.new.partial.items ≡ [] }
        ensures last { IfOk result (λ ends. ends ≡ true → self.new.last ≡ None) }
        ensures takes { TakesLine (λ more. to_come_with self.old ((self.old.number, without_last carriage_return (self.old.partial.items ++ text.now)) ∷ more)) result self.new }
    {
        let number = self.number;
        self.number = number + 1;
        if self.partial.is_empty() {
            let whole = without_cr(text);
            if !whole.is_empty() && whole.len() <= MAX_LINE && !begins_with_space(whole) {
                return self.begin_whole_line(number, whole, spare);
            }
        }
        let line = mem::replace(&mut self.partial, Vec::new(self.alloc));
        self.unfold(number, line, text, spare)
    }

    /// Begins a logical line by a physical line that is in one part, and neither empty nor too long: most are such.
    #[inline(always)]
    fn begin_whole_line(
        &mut self,
        number: u64,
        text: &[u8],
        spare: &mut Spare,
    ) -> Result<bool, StreamFault>
        requires going { self.old.marks.is_over ≡ false }
        requires none { self.old.partial.items ≡ [] }
        requires some { is_empty text.now ≡ false }
        requires short { length text.now ≤ 2097152 }
        requires begins { begins_with space text.now ≡ false }
        ensures ignored { self.old.marks ≡ ignored → self.new.marks ≡ ignored }
        ensures number { self.new.number ≡ self.old.number }
        ensures partial { self.new.partial ≡ self.old.partial }
        ensures last { IfOk result (λ ends. ends ≡ false) }
        ensures takes { TakesLine (λ more. to_come_with self.old ((number, text.now) ∷ more)) result self.new }
    {
        let mut copy = spare.text(Vec::new(self.alloc));
        copy.extend_from_slice(text)?;
        let line = Line::new(number, copy);
        if let Some(last) = mem::replace(&mut self.last, Some(line)) {
            self.push_to_block(last)?;
        }
        Ok(false)
    }

    /// Takes a physical line, in two parts: it continues the last line, or begins a line.
    #[inline(never)]
    fn unfold(
        &mut self,
        number: u64,
        front: Vec<u8>,
        back: &[u8],
        spare: &mut Spare,
    ) -> Result<bool, StreamFault>
        requires going { self.old.marks.is_over ≡ false }
        requires given { self.old.partial.items ≡ [] }
        ensures ignored { self.old.marks ≡ ignored → self.new.marks ≡ ignored }
        ensures number { self.new.number ≡ self.old.number }
        ensures partial { self.new.partial ≡ self.old.partial }
        ensures last { IfOk result (λ ends. ends ≡ true → self.new.last ≡ None) }
        ensures takes { TakesLine (λ more. to_come_with self.old ((number, without_last carriage_return (front.items ++ back.now)) ∷ more)) result self.new }
    {
        if let Some(last) = self.last.take() {
            let (begin, end) = parts_without_cr(front.as_slice(), back);
            if begins_with_space(begin) {
                return self.continue_line(last, begin, end);
            }
            self.push_to_block(last)?;
            if self.is_over() {
                return Ok(false);
            }
        }
        let mut text = spare.text(front);
        text.extend_from_slice(back)?;
        drop_cr(&mut text);
        self.begin_line(Line::new(number, text))
    }

    /// Continues a line by one that begins with a space, in two parts.
    fn continue_line(&mut self, last: Line, front: &[u8], back: &[u8]) -> Result<bool, StreamFault>
        requires going { self.old.marks.is_over ≡ false }
        requires none { self.old.partial.items ≡ [] }
        requires continuable { may_be_continued (Some last) ≡ true }
        requires space { begins_with space front.now ≡ true }
        ensures ignored { self.old.marks ≡ ignored → self.new.marks ≡ ignored }
        ensures number { self.new.number ≡ self.old.number }
        ensures partial { self.new.partial ≡ self.old.partial }
        ensures last { IfOk result (λ ends. ends ≡ true → self.new.last ≡ None) }
        ensures takes { (n : ℕ) → TakesLine (λ more. remainder_from self.old.marks self.old.begun self.old.block.items (logical_lines (last ∷ (n, front.now ++ back.now) ∷ more))) result self.new }
    {
        self.set_last(last.with_continuation(front, back)?)
    }

    /// Begins a logical line. Answers whether it is empty, so that the block has ended.
    fn begin_line(&mut self, line: Line) -> Result<bool, StreamFault>
        requires going { self.old.marks.is_over ≡ false }
        requires none { self.old.partial.items ≡ [] }
        requires last { self.old.last ≡ None }
        ensures ignored { self.old.marks ≡ ignored → self.new.marks ≡ ignored }
        ensures number { self.new.number ≡ self.old.number }
        ensures partial { self.new.partial ≡ self.old.partial }
        ensures last { IfOk result (λ ends. ends ≡ true → self.new.last ≡ None) }
        ensures takes { TakesLine (λ more. remainder_from self.old.marks self.old.begun self.old.block.items (logical_lines (line ∷ more))) result self.new }
    {
        if line.text().is_empty() {
            return Ok(true);
        }
        self.set_last(line)
    }

    /// Makes a line the last one, unless it is too long.
    fn set_last(&mut self, line: Line) -> Result<bool, StreamFault>
        requires going { self.old.marks.is_over ≡ false }
        requires none { self.old.partial.items ≡ [] }
        requires some { is_empty line.1 ≡ false }
        ensures ignored { self.old.marks ≡ ignored → self.new.marks ≡ ignored }
        ensures number { self.new.number ≡ self.old.number }
        ensures partial { self.new.partial ≡ self.old.partial }
        ensures last { IfOk result (λ ends. ends ≡ false) }
        ensures takes { TakesLine (λ more. remainder_from self.old.marks self.old.begun self.old.block.items (logical_lines (line ∷ more))) result self.new }
    {
        if line.is_long() {
            return Err(StreamFault::LineTooLong);
        }
        self.last = Some(line);
        Ok(false)
    }

    /// Adds a line that is complete to the block. Comments and the version line belong to no block.
    #[inline(always)]
    fn push_to_block(&mut self, line: Line) -> Result<(), StreamFault>
        requires going { self.old.marks.is_over ≡ false }
        requires given { may_be_continued (Some line) ≡ true }
        ensures ignored { self.old.marks ≡ ignored → self.new.marks ≡ ignored }
        ensures number { self.new.number ≡ self.old.number }
        ensures last { self.new.last ≡ self.old.last }
        ensures partial { self.new.partial ≡ self.old.partial }
        ensures ok { OnOk result ((more : List Line) → remainder_from self.old.marks self.old.begun self.old.block.items (line ∷ more)
            ≡ remainder_from self.new.marks self.new.begun self.new.block.items more) }
        ensures err { IfErr result (λ fault. (more : List Line)
            → FailsAtOnce fault (remainder_from self.old.marks self.old.begun self.old.block.items (line ∷ more))) }
    {
        if is_comment(&line) {
            return match self.block.is_empty() {
                true => self.marks.pass(line.text()),
                false => Ok(()),
            };
        }
        if !self.begun {
            self.begun = true;
            match version_of(line.text()) {
                Version::Absent => {}
                Version::One => return Ok(()),
                Version::Other => return Err(StreamFault::BadVersion),
            }
        }
        if !self.marks.may_have_records() {
            return Err(StreamFault::BadMark);
        }
        self.block.push(line)?;
        Ok(())
    }

    /// Ends the text: what is in hand is its last line. Answers the last block.
    pub(crate) fn finish(&mut self, spare: &mut Spare) -> Result<Vec<Line>, StreamFault>
        requires going { self.old.marks.is_over ≡ false }
        requires given { self.old.number < 2 ^ 63 }
        ensures number { self.new.number ≤ self.old.number + 1 }
        ensures ok { IfOk result (λ block. to_come self.old [] ≡ then_rest block.items (done self.new.marks.passed)) }
        ensures err { IfErr result (λ fault. FailsAtOnce fault (to_come self.old [])) }
    {
        self.finish_partial_line(spare)?;
        self.finish_last_line()?;
        Ok(self.take_block())
    }

    /// Finishes the physical line in hand, if there is one: the text has ended.
    fn finish_partial_line(&mut self, spare: &mut Spare) -> Result<(), StreamFault>
        requires going { self.old.marks.is_over ≡ false }
        requires given { self.old.number < 2 ^ 63 }
        ensures number { self.new.number ≤ self.old.number + 1 }
        ensures ok { OnOk result (to_come self.old [] ≡ to_come_with self.new []) }
        ensures err { IfErr result (λ fault. FailsAtOnce fault (to_come self.old [])) }
    {
        if self.partial.is_empty() {
            return Ok(());
        }
        let _ = self.finish_physical_line(spare, &[])?;
        Ok(())
    }

    /// Adds the last line, if there is one, to the block: no line follows.
    fn finish_last_line(&mut self) -> Result<(), StreamFault>
        ensures number { self.new.number ≡ self.old.number }
        ensures ok { OnOk result (to_come_with self.old [] ≡ then_rest self.new.block.items (done self.new.marks.passed)) }
        ensures err { IfErr result (λ fault. FailsAtOnce fault (to_come_with self.old [])) }
    {
        if self.is_over() {
            return Ok(());
        }
        match self.last.take() {
            Some(last) => self.push_to_block(last),
            None => Ok(()),
        }
    }
}

/// Whether a line is a comment.
fn is_comment(line: &Line) -> bool
    ensures { result ≡ is_comment line.now }
{
    line.text().first() == Some(&b'#')
}

fn drop_cr(text: &mut Vec<u8>)
    ensures { text.new.items ≡ without_last carriage_return text.old.items }
{
    let length = without_cr(text.as_slice()).len();
    text.truncate(length);
}
