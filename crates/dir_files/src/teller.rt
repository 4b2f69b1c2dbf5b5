//! What a teller of notes is given in a run.

ghost use Rattle.std.specs.Prelude.{◌≡◌, ◌≢◌, [], IfErr, OnErr, OnOk};
ghost use Rattle.dir_files.specs.AccessRuns.{IsEndOfNotes};
ghost use Rattle.dir_files.specs.FaultArguments.{handed_over};
ghost use Rattle.dir_files.specs.Notes.{EndsIfUntold, MayBeAnswered, WereGiven};

use crate::fault::Fault;
use crate::note::NoteTeller;
use dir_acl::{FaultArgument, Note};
use dir_names::Memory;

/// Hands over the argument that a fault is about, where more is to be told than the fault.
pub(crate) fn hand_over<T: NoteTeller>(
    teller: &mut T,
    verbose: bool,
    argument: Result<Option<FaultArgument>, Memory>,
)
    ensures kept { WereGiven (T.arguments teller.old) (T.arguments teller.new) (handed_over verbose argument) }
    ensures given { T.given teller.new ≡ T.given teller.old }
    ensures count { T.failures teller.new ≡ T.failures teller.old }
{
    if !verbose {
        return;
    }
    if let Ok(Some(argument)) = argument {
        teller.keep(argument);
    }
}

/// Tells the notes, if there are any. Where a strict answer is wanted, that ends the run.
pub(crate) fn tell<'a, T: NoteTeller>(
    teller: &mut T,
    notes: &[Note],
    strict: bool,
) -> Result<(), Fault<'a>>
    ensures given { WereGiven (T.given teller.old) (T.given teller.new) notes.now }
    ensures untold { EndsIfUntold result (T.failures teller.old) (T.failures teller.new) }
    ensures ok { OnOk result (MayBeAnswered strict notes.now) }
    ensures some { OnErr result (notes.now ≢ []) }
    ensures err { IfErr result (IsEndOfNotes strict) }
    ensures arguments { T.arguments teller.new ≡ T.arguments teller.old }
{
    if notes.is_empty() {
        return Ok(());
    }
    if teller.tell(notes).is_err() {
        return Err(Fault::NotesUntold);
    }
    if strict {
        return Err(Fault::HasNotes);
    }
    Ok(())
}
