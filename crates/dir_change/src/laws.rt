//! Laws about changes, runs of changes and their undo: functions with no code, whose contracts are the laws.

ghost use Rattle.dir_change.specs.Runs.{GroupsUndo, RunsAreTakenBack, RunsStayInOrder, UndoTextsReadBack};

use dir_ldif::marked_groups_read_back;

/// A law: the group of a sound change that is accepted on a well-formed directory within the limits
/// undoes it. Its records are legal, and after the change all are accepted and lead back. It is one
/// delete for an add, one add for a delete, and at most one modify of the same keys for a modify; it
/// names the entry as spelled.
pub fn groups_undo_changes()
    ensures { GroupsUndo }
{}

/// A law: for every list of sound changes on a well-formed directory within the limits, going on after a
/// refused one or ending there, the groups of the accepted changes, the last first, are all accepted on
/// the directory at the end, and lead back to the directory at the start.
pub fn runs_are_taken_back()
    ensures { RunsAreTakenBack }
{}

/// A law: the undo text of these groups reads back as their changes, in the order in which they are to
/// be applied, and no record is faulty. A reader of its first groups reads the changes of these.
pub fn undo_texts_read_back()
    ensures { UndoTextsReadBack }
{
    marked_groups_read_back();
}

/// A law: the directory at the end of such a list is well formed and within the limits, as it was at the
/// start, and has the same suffix.
pub fn runs_stay_in_order()
    ensures { RunsStayInOrder }
{}
