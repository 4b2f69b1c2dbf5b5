//! One change on a directory: accepted with its undo, or refused with a result code.

ghost use Rattle.std.specs.Prelude.{◌≡◌, IfErr, IfOk, IsOk, IsTrue, Ok, OnErr, OnOk, Some};
ghost use Rattle.dir_change.specs.Operation.{IsRefused, IsRefusedWithoutKey, directory_after, step};
ghost use Rattle.dir_names.specs.NameKeys.{name_key};
ghost use Rattle.dir_tree.specs.WellFormed.{Each, IsWellFormed, IsWithinLimits};
ghost use Rattle.dir_change.specs.Runs.{group_of};
ghost use Rattle.dir_change.specs.SoundChange.{IsSoundChange};
ghost use Rattle.dir_change.specs.Undo.{IsUndo, undo_of};

use crate::add::add;
use crate::delete::delete;
use crate::modify::modify;
use crate::rename::rename;
use crate::{Refusal, ResultCode, Undo};
use dir_ldif::{Change, ChangeKind};
use dir_names::{Dn, DnKey, NameFault, Schema};
use dir_tree::Directory;
use std::alloc::Global;

/// Applies one change as the root identity (RFC 4511, sections 4.6 to 4.9): an add, a delete, a modify
/// or a rename. Answers the changes that take it back.
///
/// A refused change leaves the directory as it was. A sound change leaves a well-formed directory
/// within the limits so, and the answer takes it back.
///
/// # Errors
///
/// The first refusal in the operation's order, or out of memory.
pub fn apply<D: Directory>(
    alloc: Global,
    schema: &Schema,
    directory: &mut D,
    change: &Change,
) -> Result<Undo, Refusal>
    ensures ok { OnOk result (step schema.now (D.state directory.old) change.now ≡ Ok (D.state directory.new)) }
    ensures refused { IfErr result (λ e. IsRefused e (step schema.now (D.state directory.old) change.now)) }
    ensures err { OnErr result (D.state directory.new ≡ D.state directory.old) }
    ensures kept { IsOk result → IsWellFormed schema.now (D.state directory.old) → IsSoundChange schema.now change.now → IsWellFormed schema.now (D.state directory.new) }
    ensures limits { IsOk result → IsWithinLimits (D.state directory.old) → IsSoundChange schema.now change.now → IsWithinLimits (D.state directory.new) }
    ensures undo { IfOk result (λ undo. undo ≡ group_of schema.now (D.state directory.old) (D.state directory.new) change.now) }
    ensures sound { IfOk result (λ undo. IsWellFormed schema.now (D.state directory.old) → IsWithinLimits (D.state directory.old) → IsSoundChange schema.now change.now →
        Each (IsSoundChange schema.now) undo) }
    ensures undoes { IfOk result (λ undo. IsWellFormed schema.now (D.state directory.old) → IsWithinLimits (D.state directory.old) → IsSoundChange schema.now change.now →
        IsUndo schema.now (D.state directory.old) (D.state directory.new) change.now undo) }
{
    let key = key_of(alloc, schema, &change.dn)?;
    perform(alloc, schema, directory, change, &key)
}

/// The operation of a change, at the key of its name.
fn perform<D: Directory>(
    alloc: Global,
    schema: &Schema,
    directory: &mut D,
    change: &Change,
    key: &DnKey,
) -> Result<Undo, Refusal>
    ensures ok { OnOk result (directory_after schema.now (D.state directory.old) key.now change.now.dn change.now.kind ≡ Ok (D.state directory.new)) }
    ensures refused { IfErr result (λ e. IsRefused e (directory_after schema.now (D.state directory.old) key.now change.now.dn change.now.kind)) }
    ensures err { OnErr result (D.state directory.new ≡ D.state directory.old) }
    ensures undo { IfOk result (λ undo. undo ≡ undo_of schema.now (D.state directory.old) (D.state directory.new) key.now change.now.kind) }
{
    match &change.kind {
        ChangeKind::Add(lines) => add(alloc, schema, directory, &change.dn, key, lines),
        ChangeKind::Delete => delete(alloc, directory, key),
        ChangeKind::Modify(mods) => modify(alloc, schema, directory, key, mods.as_slice()),
        ChangeKind::Rename {
            newrdn,
            delete_old,
            newsuperior,
        } => rename(
            alloc,
            schema,
            directory,
            key,
            newrdn,
            *delete_old,
            newsuperior,
        ),
    }
}

/// The key of a name. A name without one names no entry.
fn key_of(alloc: Global, schema: &Schema, name: &Dn) -> Result<DnKey, Refusal>
    ensures ok { IfOk result (λ key. name_key schema.now name.now ≡ Some key) }
    ensures refused { IfErr result (λ e. IsRefusedWithoutKey e (name_key schema.now name.now)) }
{
    match name.key(alloc, schema) {
        Ok(key) => Ok(key),
        Err(NameFault::Memory) => Err(Refusal::Memory),
        Err(_) => Err(Refusal::Code(ResultCode::NoSuchObject)),
    }
}
