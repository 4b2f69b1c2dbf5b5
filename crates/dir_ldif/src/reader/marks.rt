//! The marks of groups in an undo text: a comment line `# undo N` before each group, N from 1.

ghost use Rattle.std.specs.Prelude.{◌≡◌, ◌+◌, MatchOption, drop, false, nat_lt, true};
ghost use Rattle.dir_ldif.specs.MarkText.{is_mark};

use crate::faults::StreamFault;
use dir_names::is_positive;
use itoa::Buffer;

/// What stands in a mark before its number.
const WORDS: &[u8] = b"# undo ";

/// How many marks a reader has passed, and which one ends the text.
#[derive(Clone, Copy)]
pub(crate) struct Marks {
    // how many groups are wanted; none where a mark is a comment like any other
    groups: Option<u64>,
    passed: u64,
    // whether the mark after the last wanted group was met
    is_over: bool,
}

impl Marks {
    ghost use Rattle.std.specs.Prelude.{◌≡◌, IfErr, None, Ok, OnOk, Some, false, true};
    ghost use Rattle.dir_ldif.specs.Marks.{after_comment, ignored, may_have_records, up_to};

    /// A mark is a comment.
    pub(crate) fn ignored() -> Marks
        ensures { result ≡ ignored }
    {
        Marks {
            groups: None,
            passed: 0,
            is_over: false,
        }
    }

    /// The text ends before the mark after so many.
    pub(crate) fn up_to(groups: u64) -> Marks
        ensures { result ≡ up_to groups }
    {
        Marks {
            groups: Some(groups),
            passed: 0,
            is_over: false,
        }
    }

    pub(crate) fn passed(&self) -> u64
        ensures { result ≡ self.now.passed }
    {
        self.passed
    }

    pub(crate) fn is_over(&self) -> bool
        ensures { result ≡ self.now.is_over }
    {
        self.is_over
    }

    /// Whether a record may come: where groups are wanted, none comes before the first mark.
    pub(crate) fn may_have_records(&self) -> bool
        ensures { result ≡ may_have_records self.now }
    {
        self.groups.is_none() || self.passed > 0
    }

    /// Takes a comment line that stands where a block may begin. A mark must be the one that is due.
    pub(crate) fn pass(&mut self, line: &[u8]) -> Result<(), StreamFault>
        ensures ok { OnOk result (after_comment self.old line.now ≡ Ok self.new) }
        ensures err { IfErr result (λ fault. after_comment self.old line.now ≡ Err fault) }
    {
        let (Some(groups), Some(number)) = (self.groups, number_of(line)) else {
            return Ok(());
        };
        if number != Buffer::new().format(u128::from(self.passed) + 1).as_bytes() {
            return Err(StreamFault::BadMark);
        }
        match next_below(self.passed, groups) {
            Some(next) => self.passed = next,
            None => self.is_over = true,
        }
        Ok(())
    }
}

/// The number after this one, unless it would be past the last.
fn next_below(number: u64, last: u64) -> Option<u64>
    ensures { MatchOption result (nat_lt number last ≡ false) (λ next. (nat_lt number last ≡ true) × (next ≡ number + 1)) }
{
    if number < last {
        Some(number + 1)
    } else {
        None
    }
}

/// The number of a mark: a decimal number from 1 on, without a leading zero.
fn number_of(line: &[u8]) -> Option<&[u8]>
    ensures { MatchOption result (is_mark line.now ≡ false) (λ number. (is_mark line.now ≡ true) × (number.now ≡ drop 7 line.now)) }
{
    let number = line.strip_prefix(WORDS)?;
    if is_positive(number) {
        Some(number)
    } else {
        None
    }
}
