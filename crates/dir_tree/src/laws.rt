//! Laws on the definitions of this crate.

ghost use Rattle.dir_tree.specs.NewEntryLaw.{EntriesHoldTheirLines};

/// A law: no two lines of an entry that an add makes give one value. The entry has the values of its
/// lines, followed by those of its own RDN, and nothing else. Each value has the bytes of the first line
/// that gives it, and each description is spelled as in the first line that has it.
pub fn entries_hold_their_lines()
    ensures { EntriesHoldTheirLines }
{}
