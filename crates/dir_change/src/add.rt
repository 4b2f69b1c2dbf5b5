//! The add operation (RFC 4511, section 4.7) and the delete that takes it back.

ghost use Rattle.std.specs.Prelude.{◌≡◌, ◌≤◌, ◌+◌, [], ◌∷◌, ◌++◌, IfErr, IfOk, IfSome, Ok, OnErr, OnOk, is_some, length, take};
ghost use Rattle.dir_ldif.specs.declared.records.ChangeKind.TheVariants as kind;
ghost use Rattle.dir_names.specs.Keys.{parent_of};
ghost use Rattle.dir_change.specs.Undo.{name_of_parent, undo_of};
ghost use Rattle.dir_change.specs.Operation.{IsRefused, directory_after_add};
ghost use Rattle.dir_change.specs.Refusals.{entry_or_code};
ghost use Rattle.dir_tree.specs.Dir.{has_parent};
ghost use Rattle.dir_tree.specs.NewEntry.{new_entry};
ghost use Rattle.dir_tree.specs.SpelledNames.{own_depth, own_rdns};

use crate::{Refusal, ResultCode, Undo};
use dir_ldif::{Change, ChangeKind};
use dir_names::{Dn, DnKey, Lines, Rdn, Schema};
use dir_tree::{Directory, Entry, own_rdns, spelled_own};
use std::alloc::Global;

/// Adds an entry (RFC 4511, section 4.7): 32 outside the suffix; 68 where the name is taken; 32
/// without a parent; then the result code of the entry's values. A delete takes it back.
pub(crate) fn add<D: Directory>(
    alloc: Global,
    schema: &Schema,
    directory: &mut D,
    name: &Dn,
    key: &DnKey,
    lines: &Lines,
) -> Result<Undo, Refusal>
    ensures ok { OnOk result (directory_after_add schema.now (D.state directory.old) key.now name.now lines.now ≡ Ok (D.state directory.new)) }
    ensures refused { IfErr result (λ e. IsRefused e (directory_after_add schema.now (D.state directory.old) key.now name.now lines.now)) }
    ensures err { OnErr result (D.state directory.new ≡ D.state directory.old) }
    ensures undo { IfOk result (λ undo. undo ≡ undo_of schema.now (D.state directory.old) (D.state directory.new) key.now (kind.Add lines.now)) }
{
    if !key.at_or_below(directory.suffix()) {
        return Err(Refusal::Code(ResultCode::NoSuchObject));
    }
    if directory.get(key).is_some() {
        return Err(Refusal::Code(ResultCode::EntryAlreadyExists));
    }
    let Some(above) = name_of_parent(alloc, directory, key)? else {
        return Err(Refusal::Code(ResultCode::NoSuchObject));
    };
    let (entry, undo) = entry_and_undo(alloc, schema, directory.suffix(), key, name, lines, above)?;
    match directory.insert(key, entry) {
        Ok(()) => Ok(undo),
        Err(_) => Err(Refusal::Memory),
    }
}

/// The entry that an add makes below a parent of this name, and the delete that takes it back.
fn entry_and_undo(
    alloc: Global,
    schema: &Schema,
    suffix: &DnKey,
    key: &DnKey,
    name: &Dn,
    lines: &Lines,
    above: Dn,
) -> Result<(Entry, Undo), Refusal>
    requires { own_depth suffix.now key.now + length above ≤ length key.now }
    ensures ok { IfOk result (λ made. new_entry schema.now (own_rdns suffix.now key.now name.now) lines.now ≡ Ok made.0) }
    ensures refused { IfErr result (λ e. IsRefused e (entry_or_code (new_entry schema.now (own_rdns suffix.now key.now name.now) lines.now))) }
    ensures undo { IfOk result (λ made. made.1 ≡ record { dn = take (own_depth suffix.now key.now) (own_rdns suffix.now key.now name.now) ++ above; kind = kind.Delete } ∷ []) }
{
    let own = own_name(alloc, suffix, key, name)?;
    let undo = undo_of_add(alloc, suffix, key, own.as_slice(), above)?;
    let entry = new_entry(alloc, schema, own, lines)?;
    Ok((entry, undo))
}

/// What a new entry keeps of its name: all RDNs for the suffix's entry, else the leaf RDN.
fn own_name(alloc: Global, suffix: &DnKey, key: &DnKey, name: &Dn) -> Result<Vec<Rdn>, Refusal>
    ensures ok { IfOk result (λ own. own.items ≡ own_rdns suffix.now key.now name.now) }
    ensures memory { IfErr result (λ e. e ≡ Refusal.Memory) }
{
    let Ok(name) = name.try_clone(alloc) else {
        return Err(Refusal::Memory);
    };
    Ok(own_rdns(name, key == suffix))
}

/// The entry of this own name with a copy of these values.
fn new_entry(alloc: Global, schema: &Schema, own: Vec<Rdn>, lines: &Lines) -> Result<Entry, Refusal>
    ensures ok { IfOk result (λ entry. new_entry schema.now own.items lines.now ≡ Ok entry) }
    ensures refused { IfErr result (λ e. IsRefused e (entry_or_code (new_entry schema.now own.items lines.now))) }
{
    let Ok(lines) = lines.try_clone(alloc) else {
        return Err(Refusal::Memory);
    };
    Ok(Entry::make(alloc, schema, own, lines)?)
}

/// The delete that takes an add back. It names the entry as the directory will spell it.
fn undo_of_add(
    alloc: Global,
    suffix: &DnKey,
    key: &DnKey,
    own: &[Rdn],
    above: Dn,
) -> Result<Undo, Refusal>
    requires { own_depth suffix.now key.now + length above ≤ length key.now }
    ensures ok { IfOk result (λ undo. undo ≡ record { dn = take (own_depth suffix.now key.now) own.now ++ above; kind = kind.Delete } ∷ []) }
    ensures memory { IfErr result (λ e. e ≡ Refusal.Memory) }
{
    let spelled = joined_name(alloc, key, spelled_own(suffix, key, own), above)?;
    Ok(Undo::one(
        alloc,
        Change {
            dn: spelled,
            kind: ChangeKind::Delete,
        },
    )?)
}

/// The parent's part of a new entry's name, as spelled in the directory: nothing for the suffix's
/// entry. None where the parent is missing.
fn name_of_parent<D: Directory>(
    alloc: Global,
    directory: &D,
    key: &DnKey,
) -> Result<Option<Dn>, Refusal>
    ensures parent { IfOk result (λ above. is_some above ≡ has_parent (D.state directory.now) key.now) }
    ensures name { IfOk result (λ above. IfSome above (λ name. name ≡ name_of_parent (D.state directory.now) key.now)) }
    ensures memory { IfErr result (λ e. e ≡ Refusal.Memory) }
{
    if key == directory.suffix() {
        return Ok(Some(Dn::empty(alloc)));
    }
    let Some(parent) = parent_key(alloc, key)? else {
        return Ok(None);
    };
    if directory.get(&parent).is_none() {
        return Ok(None);
    }
    Ok(Some(directory.spelled(&parent)?))
}

/// The parent's key, if there is one.
pub(crate) fn parent_key(alloc: Global, key: &DnKey) -> Result<Option<DnKey>, Refusal>
    ensures ok { IfOk result (λ parent. parent ≡ parent_of key.now) }
    ensures memory { IfErr result (λ e. e ≡ Refusal.Memory) }
{
    match key.parent(alloc) {
        Ok(parent) => Ok(parent),
        Err(_) => Err(Refusal::Memory),
    }
}

/// The own RDNs, and then the parent's.
pub(crate) fn joined_name(alloc: Global, key: &DnKey, own: &[Rdn], above: Dn) -> Result<Dn, Refusal>
    requires { length own.now + length above ≤ length key.now }
    ensures ok { IfOk result (λ name. name ≡ own.now ++ above) }
    ensures memory { IfErr result (λ e. e ≡ Refusal.Memory) }
{
    let mut rdns = Vec::with_capacity(alloc, key.depth())?;
    for rdn in own {
        let Ok(rdn) = rdn.try_clone(alloc) else {
            return Err(Refusal::Memory);
        };
        rdns.push(rdn)?;
    }
    for rdn in above.into_rdns() {
        rdns.push(rdn)?;
    }
    Ok(Dn::of_rdns(rdns))
}
