//! The delete operation (RFC 4511, section 4.8) and the add that takes it back.

ghost use Rattle.std.specs.Prelude.{◌≡◌, [], ◌∷◌, ◌++◌, IfErr, IfOk, IsSome, Ok, OnErr, OnOk};
ghost use Rattle.dir_ldif.specs.declared.records.ChangeKind.TheVariants as kind;
ghost use Rattle.dir_tree.specs.WellFormed.{all_lines, attribute_lines};
ghost use Rattle.dir_tree.specs.Dir.{entry_at};
ghost use Rattle.dir_tree.specs.SpelledNames.{spelled_name};
ghost use Rattle.dir_change.specs.Undo.{lines_of_entry};
ghost use Rattle.dir_change.specs.Operation.{IsRefused, directory_after_delete};

use crate::{Refusal, ResultCode, Undo};
use dir_ldif::{Change, ChangeKind};
use dir_names::{Bytes, Description, DnKey, Lines};
use dir_tree::{AttributeView, Directory, Entry};
use std::alloc::Global;

/// Deletes an entry (RFC 4511, section 4.8): 32 where it is missing, 66 where it has a child. An add
/// of all its attributes and values, as stored, takes it back.
pub(crate) fn delete<D: Directory>(
    alloc: Global,
    directory: &mut D,
    key: &DnKey,
) -> Result<Undo, Refusal>
    ensures ok { OnOk result (directory_after_delete (D.state directory.old) key.now ≡ Ok (D.state directory.new)) }
    ensures refused { IfErr result (λ e. IsRefused e (directory_after_delete (D.state directory.old) key.now)) }
    ensures err { OnErr result (D.state directory.new ≡ D.state directory.old) }
    ensures undo { IfOk result (λ undo. undo ≡ record { dn = spelled_name (D.state directory.old) key.now; kind = kind.Add (lines_of_entry (entry_at (D.state directory.old) key.now)) } ∷ []) }
{
    let Some(entry) = directory.get(key) else {
        return Err(Refusal::Code(ResultCode::NoSuchObject));
    };
    if directory.has_child(key) {
        return Err(Refusal::Code(ResultCode::NotAllowedOnNonLeaf));
    }
    let undo = undo_of_delete(alloc, directory, key, entry)?;
    let _ = directory.remove_leaf(key);
    Ok(undo)
}

/// The add that takes a delete back: of all values of the entry, by its name as spelled.
fn undo_of_delete<D: Directory>(
    alloc: Global,
    directory: &D,
    key: &DnKey,
    entry: &Entry,
) -> Result<Undo, Refusal>
    requires { IsSome (entry_at (D.state directory.now) key.now) }
    ensures ok { IfOk result (λ undo. undo ≡ record { dn = spelled_name (D.state directory.now) key.now; kind = kind.Add (all_lines entry.now.attributes) } ∷ []) }
    ensures memory { IfErr result (λ e. e ≡ Refusal.Memory) }
{
    let dn = directory.spelled(key)?;
    let kind = ChangeKind::Add(all_lines(alloc, entry)?);
    Ok(Undo::one(alloc, Change { dn, kind })?)
}

/// All values of an entry, in the order of its canonical text.
fn all_lines(alloc: Global, entry: &Entry) -> Result<Lines, Refusal>
    ensures ok { IfOk result (λ lines. lines ≡ all_lines entry.now.attributes) }
    ensures memory { IfErr result (λ e. e ≡ Refusal.Memory) }
{
    let mut lines = Vec::new(alloc);
    for (_, attribute) in entry.attributes() {
        push_values(alloc, &mut lines, &attribute)?;
    }
    Ok(Lines::new(lines))
}

/// Appends the values of an attribute, each with the attribute's description.
fn push_values(
    alloc: Global,
    lines: &mut Vec<(Description, Bytes)>,
    attribute: &AttributeView<'_>,
) -> Result<(), Refusal>
    ensures ok { OnOk result (lines.new.items ≡ lines.old.items ++ attribute_lines (attribute.now.key, attribute.now.stored)) }
    ensures memory { IfErr result (λ e. e ≡ Refusal.Memory) }
{
    for (_, bytes) in attribute.values() {
        let Ok(description) = attribute.description().try_clone(alloc) else {
            return Err(Refusal::Memory);
        };
        let Ok(bytes) = Bytes::copy_of(alloc, bytes) else {
            return Err(Refusal::Memory);
        };
        lines.push((description, bytes))?;
    }
    Ok(())
}
