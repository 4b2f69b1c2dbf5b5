//! Laws about the format, and about many calls of a reader: each is the contract of a function that does nothing.

ghost use Rattle.dir_ldif.specs.BlocksAtOnce.{LongLinesStay, TextsAreBlocks};
ghost use Rattle.dir_ldif.specs.LegalRecords.{LegalChangesHaveNoFault};
ghost use Rattle.dir_ldif.specs.LineText.{WrittenLinesAreFolded};
ghost use Rattle.dir_ldif.specs.RoundTrip.{WrittenLineReadsBack, RecordsReadBack};
ghost use Rattle.dir_ldif.specs.MarkedGroups.{MarkedGroupsReadBack, MarksAreKnown};
ghost use Rattle.dir_ldif.specs.SoundRecords.{FirstRecordsAreSound, RecordsAreSound};
ghost use Rattle.dir_ldif.specs.WrittenBlocks.{WrittenBlocksReadBack};
ghost use Rattle.dir_ldif.specs.ManyCalls.{ReadCallsAreUsed, ReadingEndsSoon, ReadingStopsThere};

/// A law: the blocks of a text are the pieces between its empty lines that have a line, among the lines that
/// are no comments and come before the first that is too long, without the version line.
pub fn texts_are_blocks()
    ensures { TextsAreBlocks }
{}

/// A law: a line that is too long stays so, whatever text follows. So there is a first byte that makes it
/// too long.
pub fn long_lines_stay()
    ensures { LongLinesStay }
{}

/// A law: what the contract of `RecordReader::next` says of a call that meets a line that is too long also
/// holds of all calls up to it together.
pub fn reading_ends_soon()
    ensures { ReadingEndsSoon }
{}

/// A law: where the source fails or gives no end, the answers of all calls up to there are those of the
/// blocks that its bytes complete, whatever text follows.
pub fn reading_stops_there()
    ensures { ReadingStopsThere }
{}

/// A law: where the read calls are used up, the source gave, over all calls, at least as many bytes as there
/// were read calls.
pub fn read_calls_are_used()
    ensures { ReadCallsAreUsed }
{}

/// A law: the changes in which `Change::check` finds no fault are the legal ones.
pub fn legal_changes_have_no_fault()
    ensures { LegalChangesHaveNoFault }
{}

/// A law: a written line is one physical line of at most 76 bytes; or the first has 76 bytes, each further
/// one a space and 75 bytes, and the last a space and 1 to 75 bytes.
pub fn written_lines_are_folded()
    ensures { WrittenLinesAreFolded }
{}

/// A law: a written line reads back as one line, with its name and its value.
pub fn written_lines_read_back()
    ensures { WrittenLineReadsBack }
{}

/// A law: blocks of lines, written one after the other, read back: as many blocks, whose lines have the names and the values
/// that were written. The first line may not be a version line, unless one comes before it.
pub fn written_blocks_read_back()
    ensures { WrittenBlocksReadBack }
{}

/// A law: legal and sound records, written one after the other, read back as they are, with or without a
/// version line before them.
pub fn written_records_read_back()
    ensures { RecordsReadBack }
{}

/// A law: each record of a text of bytes is legal and sound.
pub fn records_are_sound()
    ensures { RecordsAreSound }
{}

/// A law: each record that is read of the first groups of an undo text of bytes is legal and sound.
pub fn first_records_are_sound()
    ensures { FirstRecordsAreSound }
{}

/// A law: groups of legal and sound records, each after its mark, read back as they are: all of them where marks are
/// comments, and of `RecordReader::up_to` so many, with as many marks.
pub fn marked_groups_read_back()
    ensures { MarkedGroupsReadBack }
{}

/// A law: where a reader of the first groups of a text comes to an end that is no fault, the marks that it has passed
/// are known.
pub fn marks_are_known()
    ensures { MarksAreKnown }
{}
