//! Laws about copies and runs: functions with no code, whose contracts are the laws.

ghost use Rattle.std.specs.Prelude.{ℕ, List};
ghost use Rattle.dir_tools.specs.AccessAsBefore.{AccessIsAsBefore};
ghost use Rattle.dir_tools.specs.Headline.{CanonicalCopies, GoesBackToAnyPoint, Headline, RunTerms, UndosAreUndone};
ghost use Rattle.dir_tools.specs.Laws.{CanonicalTextsReadBack, CopiesAreSound, GroupsAreUndos, RunsAcceptChanges, WrittenRunsAreTakenBack, WrittenRunsGoBack};

use dir_change::{
    groups_undo_changes, runs_are_taken_back, runs_stay_in_order, undo_texts_read_back,
};
use dir_ldif::{first_records_are_sound, records_are_sound, written_records_read_back};

/// A law: what a text of bytes is the copy of, is well formed and within the limits.
pub fn copies_are_sound()
    ensures { CopiesAreSound }
{
    records_are_sound();
}

/// A law: the canonical text of a well-formed directory within the limits reads back as that directory.
pub fn canonical_texts_read_back()
    ensures { CanonicalTextsReadBack }
{
    written_records_read_back();
}

/// A law: a run over sound records accepts sound changes, one after the other.
pub fn runs_accept_changes()
    ensures { RunsAcceptChanges }
{}

/// A law: on a well-formed directory within the limits, the group of each accepted record of a run is an
/// undo of its change.
pub fn groups_are_undos()
    ensures { GroupsAreUndos }
{
    groups_undo_changes();
    runs_stay_in_order();
}

/// A law: the undo text of a run, run on the copy that the run wrote, in both modes, is accepted whole and
/// leads to the directory in which the run began.
pub fn written_runs_are_taken_back()
    ensures { WrittenRunsAreTakenBack }
{
    canonical_texts_read_back();
    runs_are_taken_back();
    runs_stay_in_order();
    undo_texts_read_back();
}

/// A law: as many groups of the undo text of a run as were accepted from a point on, run on the copy that the
/// run wrote, in both modes, are accepted whole and lead to the directory of that point.
pub fn written_runs_go_back()
    ensures { WrittenRunsGoBack }
{
    canonical_texts_read_back();
    runs_are_taken_back();
    runs_stay_in_order();
    undo_texts_read_back();
}

/// The headline: for every copy and every text of changes, where the run has an output, the whole of its undo
/// text, run on its new copy, refuses nothing, and gives the canonical text of the first copy, byte for byte,
/// whatever the other options.
pub fn headline()
    ensures { Headline }
{
    records_are_sound();
    first_records_are_sound();
    copies_are_sound();
    runs_accept_changes();
    written_runs_are_taken_back();
}

/// A law: for every number up to that of the accepted records, the run of as many groups of the undo text on the
/// new copy refuses nothing, and gives the canonical text of the directory that stood before the last accepted
/// records, as many.
pub fn goes_back_to_any_point()
    ensures { GoesBackToAnyPoint }
{
    records_are_sound();
    first_records_are_sound();
    copies_are_sound();
    written_runs_go_back();
}

/// A law: a run over a canonical copy is taken back to that copy, byte for byte: so the undo of an undo leads forward again, since the
/// new copy of every run is canonical.
pub fn undos_are_undone()
    ensures undone { UndosAreUndone }
    ensures canonical { (q : RunTerms) (copy : List ℕ) → CanonicalCopies q copy }
{
    records_are_sound();
    first_records_are_sound();
    copies_are_sound();
    canonical_texts_read_back();
    runs_accept_changes();
    runs_stay_in_order();
    written_runs_are_taken_back();
}

/// A law: after a run is taken back by the whole of its undo text, every question has the report that it had before the
/// run, or the same fault, under each configuration of the run's suffix.
pub fn access_is_as_before()
    ensures { AccessIsAsBefore }
{
    copies_are_sound();
    canonical_texts_read_back();
    headline();
}
