//! The reader: it takes the bytes of a source in pieces, unfolds their lines (`unfolder`), and reads each block of
//! lines as a record (`parser`).

ghost use Rattle.std.specs.Prelude.{◌≡◌, ◌+◌, ◌-◌, ◌*◌, ◌++◌, ◌∷◌, ◌^◌, ◌<◌, ◌≤◌, [], All, Err, IfErr, IfOk, OnOk, false, length, vec_len};
ghost use Rattle.dir_ldif.specs.declared.reader.Place.TheVariants.{Reading};
ghost use Rattle.dir_ldif.specs.Limits.{most_read_calls};
ghost use Rattle.dir_ldif.specs.Records.{EndsIn, all_found, found_of, records_of};
ghost use Rattle.dir_ldif.specs.SoundRecords.{IsLegalFound, IsSoundFound};

mod attrval;
mod blocks;
mod bytes;
mod marks;
mod parser;
mod spare;
mod unfolder;
mod version;

use crate::device::Source;
use crate::faults::{RecordFault, Refusal, StreamFault};
use crate::reader::marks::Marks;
use crate::reader::parser::record_of;
use crate::reader::spare::Spare;
use crate::reader::unfolder::Unfolder;
use crate::records::Record;
pub use attrval::{MAX_VALUE, line_parts};
pub use blocks::read_blocks;
use dir_names::{NameReader, Schema};
use std::alloc::Global;
pub use unfolder::{Line, MAX_LINE};

/// The greatest number of read calls of one reader.
pub const MAX_TURNS: u64 = 1_099_511_627_776;

/// The greatest number of bytes of a text that is read at once.
pub const MAX_TEXT: usize = 9_007_199_254_732_800;

/// The greatest number of bytes that one read call is asked for.
const PIECE: usize = 8192;

/// The answer on one record: the number of its first line that is no comment, and the record or its fault.
pub type Answer = (u64, Result<Record, RecordFault>);

/// The state of a reader.
#[derive(Clone, Copy, PartialEq, Eq)]
enum Place {
    Reading,
    /// The source gave its end.
    AtEnd,
    /// A stream fault was answered.
    Ended,
}

/// Reads the records of a source, one after the other.
#[derive(Drop)]
pub struct RecordReader<'s, R> {
    schema: &'s Schema,
    source: R,
    core: Core,
}

impl<'s, R: Source + Drop> RecordReader<'s, R> {
    ghost use Rattle.std.specs.Prelude.{◌≡◌, ◌<◌, ℕ, List, [], None, Ok, Err, IfErr, IfNone, IfOk, IfSome, OnOk};
    ghost use Rattle.std.specs.Option.{option_and_then, option_map};
    ghost use Rattle.dir_ldif.specs.Reader.Answers.{GivesFirst, GivesNone, KeepsMarks};
    ghost use Rattle.dir_ldif.specs.Reader.{GivesLegal, GivesSound, IsAtEnd, IsEnded, IsReading, ReadsPieces, SpendsTurns, StopsFor, StopsSoonFor, UsesUp, answers_to_come, answers_to_come_with, budget, in_hand, marks_at_end, marks_passed, schema_of, source_of, turns_left};
    ghost use Rattle.dir_ldif.specs.Records.{marks_up_to, records_of, records_up_to};

    /// A reader that is allowed 1,099,511,627,776 read calls.
    ///
    /// # Errors
    ///
    /// `Memory` alone.
    pub fn new(
        alloc: Global,
        schema: &'s Schema,
        source: R,
    ) -> Result<RecordReader<'s, R>, StreamFault>
        ensures answers { IfOk result (λ r. answers_to_come R.left r ≡ option_map (records_of schema.now) (R.left source)) }
        ensures ahead { IfOk result (λ r. (in_hand r ≡ []) × ((text : List ℕ) → answers_to_come_with r text ≡ records_of schema.now text)) }
        ensures turns { IfOk result (λ r. turns_left r ≡ most_read_calls) }
        ensures source { IfOk result (λ r. (source_of r ≡ source) × (schema_of r ≡ schema.now) × IsReading r) }
        ensures err { IfErr result (λ fault. fault ≡ StreamFault.Memory) }
    {
        RecordReader::with_turns(alloc, schema, source, MAX_TURNS)
    }

    /// A reader that is allowed this number of read calls, which is at most `MAX_TURNS`.
    ///
    /// # Errors
    ///
    /// `Memory` alone.
    pub fn with_turns(
        alloc: Global,
        schema: &'s Schema,
        source: R,
        turns: u64,
    ) -> Result<RecordReader<'s, R>, StreamFault>
        requires { turns ≤ most_read_calls }
        ensures answers { IfOk result (λ r. answers_to_come R.left r ≡ option_map (records_of schema.now) (R.left source)) }
        ensures ahead { IfOk result (λ r. (in_hand r ≡ []) × ((text : List ℕ) → answers_to_come_with r text ≡ records_of schema.now text)) }
        ensures turns { IfOk result (λ r. turns_left r ≡ turns) }
        ensures source { IfOk result (λ r. (source_of r ≡ source) × (schema_of r ≡ schema.now) × IsReading r) }
        ensures err { IfErr result (λ fault. fault ≡ StreamFault.Memory) }
    {
        Ok(RecordReader {
            schema,
            source,
            core: Core::new(alloc, turns, Marks::ignored())?,
        })
    }

    /// A reader of the first groups of an undo text, so many: for it the text ends before the mark after them. It is allowed
    /// as many read calls as that of `new`.
    ///
    /// # Errors
    ///
    /// `Memory` alone.
    pub fn up_to(
        alloc: Global,
        schema: &'s Schema,
        source: R,
        groups: u64,
    ) -> Result<RecordReader<'s, R>, StreamFault>
        ensures answers { IfOk result (λ r. answers_to_come R.left r ≡ option_map (records_up_to schema.now groups) (R.left source)) }
        ensures ahead { IfOk result (λ r. (in_hand r ≡ []) × ((text : List ℕ) → answers_to_come_with r text ≡ records_up_to schema.now groups text)) }
        ensures marks { IfOk result (λ r. marks_at_end R.left r ≡ option_and_then (marks_up_to groups) (R.left source)) }
        ensures turns { IfOk result (λ r. turns_left r ≡ most_read_calls) }
        ensures source { IfOk result (λ r. (source_of r ≡ source) × (schema_of r ≡ schema.now) × IsReading r) }
        ensures err { IfErr result (λ fault. fault ≡ StreamFault.Memory) }
    {
        Ok(RecordReader {
            schema,
            source,
            core: Core::new(alloc, MAX_TURNS, Marks::up_to(groups))?,
        })
    }

    /// The marks of groups that were passed; 0 where they are not counted.
    pub fn marks(&self) -> u64
        ensures { result ≡ marks_passed self.now }
    {
        self.core.unfolder.marks()
    }

    /// The next record or its fault, or none at the end. After a stream fault each call answers `Ended`, and
    /// after the end none.
    ///
    /// # Errors
    ///
    /// `LineTooLong`, `BadVersion` and `BadMark` where the text is at fault and no record is left; `Read` where the source
    /// failed in this call; `TooManyTurns` where the source gave at least as many bytes as read calls were
    /// left; `Memory`; `Ended`.
    pub fn next(&mut self) -> Result<Option<Answer>, StreamFault>
        ensures some { IfOk result (λ o. IfSome o (λ found. GivesFirst (Ok found) (answers_to_come R.left self.old) (answers_to_come R.left self.new))) }
        ensures used { IfOk result (λ o. IfSome o (λ found. IsReading self.new → UsesUp R.left found self.old self.new)) }
        ensures shrinks { IfOk result (λ o. IfSome o (λ _. budget self.new < budget self.old)) }
        ensures none { IfOk result (λ o. IfNone o (GivesNone (answers_to_come R.left self.old) × IsAtEnd self.new)) }
        ensures err { IfErr result (λ fault. StopsFor R.left R.failures fault self.old self.new × IsEnded self.new) }
        ensures soon { IfErr result (λ fault. StopsSoonFor R.left fault self.old self.new) }
        ensures pieces { ReadsPieces R.left self.old self.new }
        ensures legal { IfOk result (λ o. IfSome o (GivesLegal self.old)) }
        ensures sound { IfOk result (λ o. IfSome o (GivesSound self.old)) }
        ensures ended { IsEnded self.old → result ≡ Err StreamFault.Ended }
        ensures at_end { IsAtEnd self.old → result ≡ Ok None }
        ensures schema { schema_of self.new ≡ schema_of self.old }
        ensures going { OnOk result (¬ (IsEnded self.new)) }
        ensures count { OnOk result (R.failures (source_of self.new) ≡ R.failures (source_of self.old)) }
        ensures turns { IfOk result (λ _. IsReading self.new → SpendsTurns R.left self.old self.new) }
        ensures marks { IfOk result (λ _. KeepsMarks (marks_at_end R.left self.old) (marks_at_end R.left self.new)) }
        ensures counted { IfOk result (λ o. IfNone o (IfSome (marks_at_end R.left self.old) (λ n. marks_passed self.new ≡ n))) }
        ensures same { R.is_same (source_of self.old) (source_of self.new) }
    {
        self.core.next(self.schema, &mut self.source)
    }

    /// The source, of which some pieces were read.
    pub fn into_source(self) -> R
        ensures { result ≡ source_of self.entry }
    {
        let RecordReader { source, .. } = self;
        source
    }
}

/// A reader without its source and its schema.
#[derive(Drop)]
struct Core {
    unfolder: Unfolder,
    spare: Spare,
    names: NameReader,
    // the last piece that was read; `at..end` are the bytes in hand, which are not used up yet
    buffer: Vec<u8>,
    at: usize,
    end: usize,
    // the read calls that are left
    turns: u64,
    place: Place,
    alloc: Global,
    ghost in_range: { at ≤ end },
    ghost in_buffer: { end ≤ vec_len buffer },
    ghost piece: { vec_len buffer ≡ 8192 },
    ghost going: { place ≡ Reading → unfolder.marks.is_over ≡ false },
    ghost room: { unfolder.number + (end - at) + 8192 * turns < 2 ^ 62 },
}

impl Core {
    ghost use Rattle.std.specs.Prelude.{◌≡◌, ◌⊎◌, ◌+◌, ◌++◌, ◌*◌, ◌^◌, ◌<◌, ◌≤◌, ℕ, List, [], None, Ok, Err, true, false, IfErr, IfNone, IfOk, IfSome, MatchOption, OnOk, length};
    ghost use Rattle.std.specs.Io.KnownBytes.{Consumes, IsAtEnd};
    ghost use Rattle.dir_ldif.specs.declared.reader.Place.TheVariants.{AtEnd, Ended, Reading};
    ghost use Rattle.dir_ldif.specs.Reader.Answers.{EndsSoon, ExplainsFault, GivesFirst, GivesNone, GoesOn, KeepsMarks, answers_left, marks_left};
    ghost use Rattle.dir_ldif.specs.SoundRecords.{IsLegalFound, IsSoundFound};
    ghost use Rattle.dir_ldif.specs.Bytes.{is_empty};
    ghost use Rattle.dir_ldif.specs.Inside.Reader.{FailsToRead};
    ghost use Rattle.dir_ldif.specs.Reader.Unfolding.{to_come};
    ghost use Rattle.dir_ldif.specs.LogicalLines.{lines_of};
    ghost use Rattle.dir_ldif.specs.Remainder.{FailsAtOnce, done, remainder_from, then_rest};
    ghost use Rattle.dir_ldif.specs.Inside.Reader.{Finds, Stops, StopsSoon, Uses};
    ghost use Rattle.dir_ldif.specs.Reader.Answers.{IsInPieces, to_read, bytes_ahead, hand};

    fn new(alloc: Global, turns: u64, marks: Marks) -> Result<Core, StreamFault>
        requires turns { turns ≤ most_read_calls }
        requires going { marks.is_over ≡ false }
        ensures text { IfOk result (λ c. (text : List ℕ) → to_come c.unfolder text ≡ remainder_from marks false [] (lines_of text)) }
        ensures fresh { IfOk result (λ c. hand c ≡ []) }
        ensures place { IfOk result (λ c. c.place ≡ Reading) }
        ensures turns { IfOk result (λ c. c.turns ≡ turns) }
        ensures err { IfErr result (λ fault. fault ≡ StreamFault.Memory) }
    {
        Ok(Core {
            unfolder: Unfolder::new(alloc, marks),
            spare: Spare::new(alloc),
            names: NameReader::new(alloc),
            buffer: vec![in alloc; 0; PIECE]?,
            at: 0,
            end: 0,
            turns,
            place: Place::Reading,
            alloc,
        })
    }

    fn next<S: Source>(
        &mut self,
        schema: &Schema,
        source: &mut S,
    ) -> Result<Option<Answer>, StreamFault>
        ensures some { IfOk result (λ o. IfSome o (λ found. GivesFirst (Ok found)
            (answers_left schema.now self.old (S.left source.old)) (answers_left schema.now self.new (S.left source.new)))) }
        ensures used { IfOk result (λ o. IfSome o (λ found. self.new.place ≡ Reading → GoesOn found schema.now self.old self.new (S.left source.old) (S.left source.new))) }
        ensures shrinks { IfOk result (λ o. IfSome o (λ _. bytes_ahead self.new < bytes_ahead self.old)) }
        ensures none { IfOk result (λ o. IfNone o (GivesNone (answers_left schema.now self.old (S.left source.old)) × (self.new.place ≡ AtEnd))) }
        ensures err { IfErr result (λ fault. ExplainsFault fault schema.now self.old (S.left source.old) (S.left source.new) (S.failures source.old) (S.failures source.new)
            × (self.new.place ≡ Ended)) }
        ensures soon { IfErr result (λ fault. EndsSoon fault schema.now self.old (S.left source.old) (S.left source.new)) }
        ensures pieces { IsInPieces self.old self.new (S.left source.old) (S.left source.new) }
        ensures legal { IfOk result (λ o. IfSome o (IsLegalFound schema.now)) }
        ensures sound { IfOk result (λ o. IfSome o (IsSoundFound schema.now)) }
        ensures ended { self.old.place ≡ Ended → result ≡ Err StreamFault.Ended }
        ensures at_end { self.old.place ≡ AtEnd → (result ≡ Ok None) }
        ensures going { OnOk result (¬ (self.new.place ≡ Ended)) }
        ensures turns { IfOk result (λ _. self.new.place ≡ Reading → (bytes : List ℕ)
            × Consumes (S.left source.old) (S.left source.new) bytes × (self.old.turns ≤ self.new.turns + length bytes)) }
        ensures count { OnOk result (S.failures source.new ≡ S.failures source.old) }
        ensures marks { IfOk result (λ _. KeepsMarks (marks_left self.old (S.left source.old)) (marks_left self.new (S.left source.new))) }
        ensures counted { IfOk result (λ o. IfNone o (IfSome (marks_left self.old (S.left source.old)) (λ n. self.new.unfolder.marks.passed ≡ n))) }
        ensures same { S.is_same source.old source.new }
    {
        match self.place {
            Place::Ended => Err(StreamFault::Ended),
            Place::AtEnd => Ok(None),
            Place::Reading => match self.next_answer(schema, source) {
                Ok(answer) => Ok(answer),
                Err(fault) => {
                    self.place = Place::Ended;
                    Err(fault)
                }
            },
        }
    }

    /// The answer on the next block.
    fn next_answer<S: Source>(
        &mut self,
        schema: &Schema,
        source: &mut S,
    ) -> Result<Option<Answer>, StreamFault>
        requires { self.old.place ≡ Reading }
        ensures some { IfOk result (λ o. IfSome o (λ found. GivesFirst (Ok found)
            (answers_left schema.now self.old (S.left source.old)) (answers_left schema.now self.new (S.left source.new)))) }
        ensures used { IfOk result (λ o. IfSome o (λ found. self.new.place ≡ Reading → GoesOn found schema.now self.old self.new (S.left source.old) (S.left source.new))) }
        ensures shrinks { IfOk result (λ o. IfSome o (λ _. bytes_ahead self.new < bytes_ahead self.old)) }
        ensures none { IfOk result (λ o. IfNone o (GivesNone (answers_left schema.now self.old (S.left source.old)) × (self.new.place ≡ AtEnd))) }
        ensures err { IfErr result (λ fault. ExplainsFault fault schema.now self.old (S.left source.old) (S.left source.new) (S.failures source.old) (S.failures source.new)) }
        ensures soon { IfErr result (λ fault. EndsSoon fault schema.now self.old (S.left source.old) (S.left source.new)) }
        ensures pieces { IsInPieces self.old self.new (S.left source.old) (S.left source.new) }
        ensures legal { IfOk result (λ o. IfSome o (IsLegalFound schema.now)) }
        ensures going { OnOk result (¬ (self.new.place ≡ Ended)) }
        ensures sound { IfOk result (λ o. IfSome o (IsSoundFound schema.now)) }
        ensures turns { IfOk result (λ _. self.new.place ≡ Reading → (bytes : List ℕ)
            × Consumes (S.left source.old) (S.left source.new) bytes × (self.old.turns ≤ self.new.turns + length bytes)) }
        ensures count { OnOk result (S.failures source.new ≡ S.failures source.old) }
        ensures marks { IfOk result (λ _. KeepsMarks (marks_left self.old (S.left source.old)) (marks_left self.new (S.left source.new))) }
        ensures counted { IfOk result (λ o. IfNone o (IfSome (marks_left self.old (S.left source.old)) (λ n. self.new.unfolder.marks.passed ≡ n))) }
        ensures same { S.is_same source.old source.new }
    {
        let block = self.next_block(source)?;
        if block.is_empty() {
            return Ok(None);
        }
        let answer = answer_of(self.alloc, schema, &mut self.names, block.as_slice())?;
        self.spare.keep(block);
        Ok(Some(answer))
    }

    /// The next block. It is empty only at the end of the text.
    fn next_block<S: Source>(&mut self, source: &mut S) -> Result<Vec<Line>, StreamFault>
        requires { self.old.place ≡ Reading }
        ensures ok { IfOk result (λ block. (bytes : List ℕ)
            × Consumes (S.left source.old) (S.left source.new) bytes
            × Finds self.new.place (to_read self.old) block.items (to_read self.new) self.new.unfolder.marks.passed bytes (S.left source.new)
            × (self.new.place ≡ Reading → (self.old.turns ≤ self.new.turns + length bytes) × (is_empty block.items ≡ false))) }
        ensures used { IfOk result (λ block. self.new.place ≡ Reading → Uses self.old self.new block.items (S.left source.old) (S.left source.new)) }
        ensures shrinks { IfOk result (λ block. is_empty block.items ≡ false → bytes_ahead self.new < bytes_ahead self.old) }
        ensures err { IfErr result (λ fault. (bytes : List ℕ)
            × Consumes (S.left source.old) (S.left source.new) bytes
            × Stops fault self.old self.new bytes (S.left source.new) (S.failures source.old) (S.failures source.new)) }
        ensures soon { IfErr result (λ fault. StopsSoon fault self.old (S.left source.old) (S.left source.new)) }
        ensures pieces { IsInPieces self.old self.new (S.left source.old) (S.left source.new) }
        ensures count { OnOk result (S.failures source.new ≡ S.failures source.old) }
        ensures same { S.is_same source.old source.new }
    {
        loop {
            if let Some(block) = self.use_buffer()? {
                return Ok(block);
            }
            if self.place == Place::AtEnd {
                return Ok(Vec::new(self.alloc));
            }
            if !self.read_more(source)? {
                return self.finish();
            }
        }
    }

    /// Uses up the bytes in hand, to the end of a block if one ends in them. Answers that block, if there is one.
    fn use_buffer(&mut self) -> Result<Option<Vec<Line>>, StreamFault>
        requires { self.old.place ≡ Reading }
        ensures turns { self.new.turns ≡ self.old.turns }
        ensures place { IfOk result (λ o. MatchOption o ((self.new.place ≡ Reading) ⊎ ((self.new.place ≡ AtEnd) × (self.new.unfolder.marks.is_over ≡ true))) (λ _. self.new.place ≡ Reading)) }
        ensures ok { IfOk result (λ o. MatchOption o
            ((text : List ℕ) → to_read self.old text ≡ to_come self.new.unfolder text)
            (λ block. (text : List ℕ) → to_read self.old text ≡ then_rest block.items (to_read self.new text))) }
        ensures used { IfOk result (λ o. IfSome o (λ block. (used : List ℕ) × (hand self.old ≡ used ++ hand self.new)
            × ((text : List ℕ) → to_come self.old.unfolder (used ++ text) ≡ then_rest block.items (to_come self.new.unfolder text)))) }
        ensures shorter { IfOk result (λ o. IfSome o (λ _. length (hand self.new) < length (hand self.old))) }
        ensures none { IfOk result (λ o. IfNone o (self.new.at ≡ self.new.end)) }
        ensures some { IfOk result (λ o. IfSome o (λ block. is_empty block.items ≡ false)) }
        ensures err { IfErr result (λ fault. (text : List ℕ) → FailsAtOnce fault (to_read self.old text)) }
    {
        let piece = &self.buffer[self.at..self.end];
        match self.unfolder.push_chunk(&mut self.spare, piece) {
            Ok(Some((block, rest))) => {
                self.at = self.end - rest.len();
                Ok(Some(block))
            }
            Ok(None) => {
                self.at = self.end;
                if self.unfolder.is_over() {
                    self.place = Place::AtEnd;
                }
                Ok(None)
            }
            Err(fault) => {
                self.at = self.end;
                self.place = Place::Ended;
                Err(fault)
            }
        }
    }

    /// Reads the next piece, and answers whether there is one.
    fn read_more<S: Source>(&mut self, source: &mut S) -> Result<bool, StreamFault>
        requires { self.old.at ≡ self.old.end }
        ensures unfolder { self.new.unfolder ≡ self.old.unfolder }
        ensures place { self.new.place ≡ self.old.place }
        ensures bytes { Consumes (S.left source.old) (S.left source.new) (hand self.new) }
        ensures some { result ≡ Ok true → 0 < length (hand self.new) }
        ensures none { result ≡ Ok false → (hand self.new ≡ []) × IsAtEnd (S.left source.new) }
        ensures turns { IfOk result (λ _. self.old.turns ≡ self.new.turns + 1) }
        ensures spent { self.new.turns ≤ self.old.turns }
        ensures counts { IfOk result (λ _. S.failures source.new ≡ S.failures source.old) }
        ensures err { IfErr result (λ fault. (hand self.new ≡ []) × FailsToRead fault self.old.turns (S.failures source.old) (S.failures source.new)) }
        ensures same { S.is_same source.old source.new }
    {
        self.at = 0;
        self.end = 0;
        if self.turns == 0 {
            return Err(StreamFault::TooManyTurns);
        }
        self.turns -= 1;
        match source.read(self.buffer.as_mut_slice()) {
            Ok(n) => {
                self.end = n;
                Ok(n > 0)
            }
            Err(_) => Err(StreamFault::Read),
        }
    }

    /// Ends the text, and answers the last block.
    fn finish(&mut self) -> Result<Vec<Line>, StreamFault>
        requires empty { hand self.old ≡ [] }
        requires going { self.old.unfolder.marks.is_over ≡ false }
        requires room { self.old.unfolder.number + 8192 * self.old.turns + 1 < 2 ^ 62 }
        ensures place { self.new.place ≡ AtEnd }
        ensures empty { hand self.new ≡ [] }
        ensures turns { self.new.turns ≡ self.old.turns }
        ensures ok { IfOk result (λ block. to_read self.old [] ≡ then_rest block.items (done self.new.unfolder.marks.passed)) }
        ensures err { IfErr result (λ fault. FailsAtOnce fault (to_read self.old [])) }
    {
        self.place = Place::AtEnd;
        self.at = 0;
        self.end = 0;
        self.unfolder.finish(&mut self.spare)
    }
}

/// The answer on a block.
fn answer_of(
    alloc: Global,
    schema: &Schema,
    names: &mut NameReader,
    block: &[Line],
) -> Result<Answer, StreamFault>
    requires { 0 < length block.now }
    ensures ok { IfOk result (λ answer. answer ≡ found_of schema.now block.now) }
    ensures legal { IfOk result (IsLegalFound schema.now) }
    ensures sound { IfOk result (IsSoundFound schema.now) }
    ensures err { IfErr result (λ fault. fault ≡ StreamFault.Memory) }
{
    let number = block[0].number();
    match record_of(alloc, schema, names, block) {
        Ok(record) => Ok((number, Ok(record))),
        Err(Refusal::Fault(fault)) => Ok((number, Err(fault))),
        Err(Refusal::Memory) => Err(StreamFault::Memory),
    }
}

/// The records of a text, each with the number of its first line; or the stream fault, without the records
/// before it. A text of more than 9,007,199,254,732,800 bytes is `TooManyTurns`.
pub fn read_all(alloc: Global, schema: &Schema, text: &[u8]) -> Result<Vec<Answer>, StreamFault>
    ensures ok { IfOk result (λ answers. records_of schema.now text.now ≡ all_found answers.items) }
    ensures legal { IfOk result (λ answers. All (IsLegalFound schema.now) answers.items) }
    ensures sound { IfOk result (λ answers. All (IsSoundFound schema.now) answers.items) }
    ensures err { IfErr result (λ fault. EndsIn fault schema.now text.now) }
    ensures long { 9007199254732800 < length text.now → result ≡ Err StreamFault.TooManyTurns }
{
    if text.len() > MAX_TEXT {
        return Err(StreamFault::TooManyTurns);
    }
    let mut unfolder = Unfolder::new(alloc, Marks::ignored());
    let mut spare = Spare::new(alloc);
    let mut names = NameReader::new(alloc);
    let mut answers = Vec::new(alloc);
    let mut rest = text;
    while let Some((block, after)) = unfolder.push_chunk(&mut spare, rest)? {
        rest = after;
        push_answer(alloc, schema, &mut names, &mut answers, block.as_slice())?;
        spare.keep(block);
    }
    let block = unfolder.finish(&mut spare)?;
    if block.is_empty() {
        return Ok(answers);
    }
    push_answer(alloc, schema, &mut names, &mut answers, block.as_slice())?;
    Ok(answers)
}

/// Appends the answer on a block to the answers.
fn push_answer(
    alloc: Global,
    schema: &Schema,
    names: &mut NameReader,
    answers: &mut Vec<Answer>,
    block: &[Line],
) -> Result<(), StreamFault>
    requires { 0 < length block.now }
    ensures ok { OnOk result (answers.new.items ≡ answers.old.items ++ found_of schema.now block.now ∷ []) }
    ensures legal { OnOk result (All (IsLegalFound schema.now) answers.old.items → All (IsLegalFound schema.now) answers.new.items) }
    ensures sound { OnOk result (All (IsSoundFound schema.now) answers.old.items → All (IsSoundFound schema.now) answers.new.items) }
    ensures err { IfErr result (λ fault. fault ≡ StreamFault.Memory) }
{
    answers.push(answer_of(alloc, schema, names, block)?)?;
    Ok(())
}
