//! The modify DN operation (RFC 4511, section 4.9), which moves an entry with all that is below it, and the
//! changes that take it back: a rename, and a modify of what is left.

ghost use Rattle.std.specs.Prelude.{◌≡◌, [], ◌∷◌, ◌++◌, ◌+◌, ◌≤◌, IfErr, IfOk, IfSome, IsSome, IsTrue, None, Ok, OnErr, OnOk, Some, length, nat_lt, true};
ghost use Rattle.std.specs.List.{fold, list_any};
ghost use Rattle.std.specs.Option.{option_map};
ghost use Rattle.dir_ldif.specs.declared.records.ChangeKind.TheVariants as kind;
ghost use Rattle.dir_names.specs.NameKeys.{rdn_key};
ghost use Rattle.dir_names.specs.Keys.{DnKeys, parent_of};
ghost use Rattle.dir_names.specs.Orders.{attr_cmp, pair_eq};
ghost use Rattle.dir_names.specs.Sorted.{rises, set_of, with_member};
ghost use Rattle.dir_tree.specs.Content.{Content};
ghost use Rattle.dir_tree.specs.Dir.{entry_at, is_there};
ghost use Rattle.dir_tree.specs.Moves.{IsShallow, MayMoveTo, height_below, move_subtree};
ghost use Rattle.dir_tree.specs.NewEntry.{leaf_key, leaf_of};
ghost use Rattle.dir_tree.specs.SpelledNames.{spelled_name};
ghost use Rattle.dir_change.specs.Difference.{difference};
ghost use Rattle.dir_change.specs.Inside.Renamed.{IsUndoable, new_place};
ghost use Rattle.dir_change.specs.Inside.Touched.{AreSameApartFrom, types_of};
ghost use Rattle.dir_change.specs.Operation.{IsRefused};
ghost use Rattle.dir_change.specs.Rename.{directory_after_rename, pairs_missing_in, place_at, renamed_attributes, renamed_entry, slot_without_value, superior_at, superior_key, without_pair, without_pairs};
ghost use Rattle.dir_change.specs.Undo.{rename_back_in, rename_to, superior_back_in, undo_of};
ghost use Rattle.dir_change.specs.declared.refusal.Refusal.TheVariants as refusal;

use crate::add::{joined_name, parent_key};
use crate::difference::{difference, insert_key};
use crate::modify::if_any;
use crate::touched::{attributes_at, is_cheap_to_copy};
use crate::{Refusal, ResultCode, Undo};
use dir_ldif::{Change, ChangeKind, Mod};
use dir_names::{AttrKey, Bytes, Dn, DnKey, NameFault, Rdn, RdnKey, Schema, ValueKey};
use dir_tree::{Attribute, AttributeMap, Directory, Entry, KeptAttributes, Parts};
use std::alloc::Global;

/// Renames an entry (RFC 4511, section 4.9): 32 where it is missing; 53 for the suffix's entry; 53 where
/// the new superior is the entry or is below it; 32 where there is no such superior; 68 where the new name
/// is another entry's; 11 where a name would have more than 64 RDNs; 19 where a single type would have
/// more than one value. All that is below the entry moves with it.
///
/// A rename back takes it back, and then a modify of what that leaves.
pub(crate) fn rename<D: Directory>(
    alloc: Global,
    schema: &Schema,
    directory: &mut D,
    key: &DnKey,
    newrdn: &Rdn,
    delete_old: bool,
    newsuperior: &Option<Dn>,
) -> Result<Undo, Refusal>
    ensures ok { OnOk result (directory_after_rename schema.now (D.state directory.old) key.now newrdn.now delete_old newsuperior.now ≡ Ok (D.state directory.new)) }
    ensures refused { IfErr result (λ e. IsRefused e (directory_after_rename schema.now (D.state directory.old) key.now newrdn.now delete_old newsuperior.now)) }
    ensures err { OnErr result (D.state directory.new ≡ D.state directory.old) }
    ensures undo { IfOk result (λ undo. undo ≡ undo_of schema.now (D.state directory.old) (D.state directory.new) key.now (kind.Rename newrdn.now delete_old newsuperior.now)) }
{
    let Some(entry) = directory.get(key) else {
        return Err(Refusal::Code(ResultCode::NoSuchObject));
    };
    if key == directory.suffix() {
        return Err(Refusal::Code(ResultCode::UnwillingToPerform));
    }
    let to = destination_of(alloc, schema, directory, key, newrdn, newsuperior)?;
    let planned = move_to(alloc, schema, directory, key, entry, newrdn, delete_old, to)?;
    carry_out(directory, key, planned)
}

/// Where a renamed entry is to be: below which entry, by which RDN, and so at which key.
#[derive(Drop)]
struct Destination {
    superior: DnKey,
    rdn: RdnKey,
    place: DnKey,
}

/// Where the renamed entry is to be. The refusals are those of the superior, and then of the place.
fn destination_of<D: Directory>(
    alloc: Global,
    schema: &Schema,
    directory: &D,
    key: &DnKey,
    newrdn: &Rdn,
    newsuperior: &Option<Dn>,
) -> Result<Destination, Refusal>
    requires there { IsSome (entry_at (D.state directory.now) key.now) }
    requires shallow { IsShallow (D.state directory.now) }
    ensures superior { IfOk result (λ to. superior_at (D.state directory.now) key.now (superior_key schema.now key.now newsuperior.now) ≡ Ok to.superior) }
    ensures named { IfOk result (λ to. rdn_key schema.now newrdn.now ≡ Some to.rdn) }
    ensures is { IfOk result (λ to. to.place ≡ to.superior ++ to.rdn ∷ []) }
    ensures place { IfOk result (λ to. place_at (D.state directory.now) key.now to.place ≡ Ok to.place) }
    ensures refused { IfErr result (λ e. IsRefused e (new_place schema.now (D.state directory.now) key.now newrdn.now newsuperior.now)) }
{
    let superior = superior(alloc, schema, directory, key, newsuperior)?;
    let Some(rdn) = key_of(alloc, schema, newrdn)? else {
        return Err(Refusal::Code(ResultCode::NoSuchObject));
    };
    let place = place(alloc, directory, key, &superior, &rdn)?;
    Ok(Destination {
        superior,
        rdn,
        place,
    })
}

/// What a rename does to the directory: the entry's new key, the entry there, and what takes this back.
#[derive(Drop)]
struct Move {
    place: DnKey,
    renamed: Entry,
    undo: Undo,
}

/// The move of an entry to a destination, complete before the directory is touched.
fn move_to<D: Directory>(
    alloc: Global,
    schema: &Schema,
    directory: &D,
    key: &DnKey,
    entry: &Entry,
    newrdn: &Rdn,
    delete_old: bool,
    to: Destination,
) -> Result<Move, Refusal>
    requires named { rdn_key schema.now newrdn.now ≡ Some to.rdn }
    requires undoable { (renamed : Content) → renamed_entry schema.now entry.now newrdn.now to.rdn delete_old ≡ Ok renamed → IsUndoable (D.state directory.now) key.now to.superior to.place renamed entry.now }
    ensures place { IfOk result (λ m. m.place ≡ to.place) }
    ensures renamed { IfOk result (λ m. renamed_entry schema.now entry.now newrdn.now to.rdn delete_old ≡ Ok m.renamed) }
    ensures undo { IfOk result (λ m. m.undo ≡ rename_back_in schema.now (D.state directory.now) key.now to.superior m.renamed entry.now) }
    ensures refused { IfErr result (λ e. IsRefused e (renamed_entry schema.now entry.now newrdn.now to.rdn delete_old)) }
{
    let Destination {
        superior,
        rdn,
        place,
    } = to;
    let packs = directory.packs_entries();
    let renamed = renamed_entry(alloc, schema, entry, newrdn, rdn, delete_old, packs)?;
    let undo = undo_of_rename(
        alloc, schema, directory, key, &superior, &place, &renamed, entry,
    )?;
    Ok(Move {
        place,
        renamed,
        undo,
    })
}

/// Moves the entry with all that is below it. Answers what takes this back.
fn carry_out<D: Directory>(directory: &mut D, key: &DnKey, planned: Move) -> Result<Undo, Refusal>
    requires there { IsSome (entry_at (D.state directory.old) key.now) }
    requires inner { ¬ (key.now ≡ (D.state directory.old).suffix) }
    requires parent { IsTrue (is_there (D.state directory.old) (parent_of planned.place)) }
    requires place { MayMoveTo (D.state directory.old) key.now planned.place }
    requires fits { length planned.place + height_below (D.state directory.old) key.now ≤ 64 }
    ensures ok { OnOk result (D.state directory.new ≡ move_subtree (D.state directory.old) key.now planned.place planned.renamed) }
    ensures err { OnErr result (D.state directory.new ≡ D.state directory.old) }
    ensures undo { IfOk result (λ undo. undo ≡ planned.undo) }
    ensures memory { IfErr result (λ e. e ≡ refusal.Memory) }
{
    let Move {
        place,
        renamed,
        undo,
    } = planned;
    match directory.move_subtree(key, &place, renamed) {
        Ok(_) => Ok(undo),
        Err(_) => Err(Refusal::Memory),
    }
}

/// The changes that take a rename back: a rename back, and a modify of what that leaves. Nothing for an entry that
/// had no RDN with a key.
fn undo_of_rename<D: Directory>(
    alloc: Global,
    schema: &Schema,
    directory: &D,
    key: &DnKey,
    superior: &DnKey,
    place: &DnKey,
    renamed: &Entry,
    entry: &Entry,
) -> Result<Undo, Refusal>
    requires there { IsSome (entry_at (D.state directory.now) key.now) }
    requires above { IsSome (entry_at (D.state directory.now) superior.now) }
    requires has_parent { IsSome (parent_of key.now) }
    requires parent { (p : DnKeys) → parent_of key.now ≡ Some p → IsSome (entry_at (D.state directory.now) p) }
    requires fits { length renamed.now.own + length (spelled_name (D.state directory.now) superior.now) ≤ length place.now }
    requires same { AreSameApartFrom entry.now.key renamed.now.key renamed.now.attributes entry.now.attributes }
    ensures ok { IfOk result (λ undo. undo ≡ rename_back_in schema.now (D.state directory.now) key.now superior.now renamed.now entry.now) }
    ensures memory { IfErr result (λ e. e ≡ refusal.Memory) }
{
    let Some(leaf) = entry.own().first() else {
        return Ok(Undo::new(Vec::new(alloc)));
    };
    let Some(mods) = left_by_rename_back(alloc, schema, leaf, renamed, entry)? else {
        return Ok(Undo::new(Vec::new(alloc)));
    };
    let undo = Undo::modify(alloc, directory.spelled(key)?, mods)?;
    let back = rename_back(alloc, directory, key, superior, place, renamed, leaf)?;
    Ok(undo.with_first(back)?)
}

/// The key of the entry below which the renamed one is to be.
fn superior<D: Directory>(
    alloc: Global,
    schema: &Schema,
    directory: &D,
    key: &DnKey,
    newsuperior: &Option<Dn>,
) -> Result<DnKey, Refusal>
    ensures ok { IfOk result (λ p. superior_at (D.state directory.now) key.now (superior_key schema.now key.now newsuperior.now) ≡ Ok p) }
    ensures refused { IfErr result (λ e. IsRefused e (superior_at (D.state directory.now) key.now (superior_key schema.now key.now newsuperior.now))) }
{
    let Some(superior) = superior_key(alloc, schema, key, newsuperior)? else {
        return Err(Refusal::Code(ResultCode::NoSuchObject));
    };
    if superior.at_or_below(key) {
        return Err(Refusal::Code(ResultCode::UnwillingToPerform));
    }
    if directory.get(&superior).is_none() {
        return Err(Refusal::Code(ResultCode::NoSuchObject));
    }
    Ok(superior)
}

/// The key of the new superior, or of the parent where none is named. A name without a key has none.
fn superior_key(
    alloc: Global,
    schema: &Schema,
    key: &DnKey,
    newsuperior: &Option<Dn>,
) -> Result<Option<DnKey>, Refusal>
    ensures ok { IfOk result (λ p. p ≡ superior_key schema.now key.now newsuperior.now) }
    ensures memory { IfErr result (λ e. e ≡ refusal.Memory) }
{
    let Some(name) = newsuperior else {
        return parent_key(alloc, key);
    };
    match name.key(alloc, schema) {
        Ok(key) => Ok(Some(key)),
        Err(NameFault::Memory) => Err(Refusal::Memory),
        Err(_) => Ok(None),
    }
}

/// The new key of the entry.
fn place<D: Directory>(
    alloc: Global,
    directory: &D,
    key: &DnKey,
    superior: &DnKey,
    rdn: &RdnKey,
) -> Result<DnKey, Refusal>
    requires there { IsSome (entry_at (D.state directory.now) key.now) }
    requires shallow { IsShallow (D.state directory.now) }
    ensures is { IfOk result (λ new. new ≡ superior.now ++ rdn.now ∷ []) }
    ensures ok { IfOk result (λ new. place_at (D.state directory.now) key.now new ≡ Ok new) }
    ensures refused { IfErr result (λ e. IsRefused e (place_at (D.state directory.now) key.now (superior.now ++ rdn.now ∷ []))) }
{
    let place = match superior.child(alloc, rdn) {
        Ok(place) => place,
        Err(NameFault::Memory) => return Err(Refusal::Memory),
        Err(_) => return Err(Refusal::Code(ResultCode::AdminLimitExceeded)),
    };
    if directory.get(&place).is_some() && &place != key {
        return Err(Refusal::Code(ResultCode::EntryAlreadyExists));
    }
    if is_too_deep(directory, key, &place) {
        return Err(Refusal::Code(ResultCode::AdminLimitExceeded));
    }
    Ok(place)
}

/// Whether a name would have more than 64 RDNs. Only a longer name of the entry makes others longer, so
/// no other move looks at what is below.
fn is_too_deep<D: Directory>(directory: &D, key: &DnKey, place: &DnKey) -> bool
    requires there { IsSome (entry_at (D.state directory.now) key.now) }
    requires shallow { IsShallow (D.state directory.now) }
    ensures { result ≡ nat_lt 64 (length place.now + height_below (D.state directory.now) key.now) }
{
    place.depth() > key.depth() && directory.height_below(key) > 64 - place.depth()
}

/// The entry with the new RDN. 19 where a single type would have more than one value.
fn renamed_entry(
    alloc: Global,
    schema: &Schema,
    entry: &Entry,
    rdn: &Rdn,
    key: RdnKey,
    delete_old: bool,
    packs: bool,
) -> Result<Entry, Refusal>
    requires { rdn_key schema.now rdn.now ≡ Some key }
    ensures ok { IfOk result (λ renamed. renamed_entry schema.now entry.now rdn.now key delete_old ≡ Ok renamed) }
    ensures refused { IfErr result (λ e. IsRefused e (renamed_entry schema.now entry.now rdn.now key delete_old)) }
{
    let attributes = attributes_with_rdn(alloc, schema, entry, rdn, &key, delete_old, packs)?;
    if attributes.exceeds_single_value(schema) {
        return Err(Refusal::Code(ResultCode::ConstraintViolation));
    }
    Ok(Entry::of(Parts {
        own: one_rdn(alloc, rdn)?,
        key,
        attributes,
    }))
}

/// The attributes of the entry with the new RDN: by part where the directory packs entries and few values are copied for
/// it, else from a copy of all.
fn attributes_with_rdn(
    alloc: Global,
    schema: &Schema,
    entry: &Entry,
    rdn: &Rdn,
    key: &RdnKey,
    delete_old: bool,
    packs: bool,
) -> Result<KeptAttributes, Refusal>
    requires { rdn_key schema.now rdn.now ≡ Some key.now }
    ensures ok { IfOk result (λ renamed. renamed ≡ renamed_attributes schema.now entry.now.attributes entry.now.key rdn.now key.now delete_old) }
    ensures memory { IfErr result (λ e. e ≡ refusal.Memory) }
{
    if packs {
        if let Some(attributes) = renamed_by_part(alloc, schema, entry, rdn, key, delete_old)? {
            return Ok(attributes);
        }
    }
    renamed_whole(alloc, schema, entry, rdn, key, delete_old)
}

/// The same, where only the attributes of the two RDNs' types are copied to be changed. None where all have to be.
fn renamed_by_part(
    alloc: Global,
    schema: &Schema,
    entry: &Entry,
    rdn: &Rdn,
    key: &RdnKey,
    delete_old: bool,
) -> Result<Option<KeptAttributes>, Refusal>
    requires { rdn_key schema.now rdn.now ≡ Some key.now }
    ensures ok { IfOk result (λ renamed. IfSome renamed (λ renamed. renamed ≡ renamed_attributes schema.now entry.now.attributes entry.now.key rdn.now key.now delete_old)) }
    ensures memory { IfErr result (λ e. e ≡ refusal.Memory) }
{
    let types = types_of_both(alloc, entry.key(), key)?;
    let types = types.as_slice();
    if !is_cheap_to_copy(entry, types) {
        return Ok(None);
    }
    let part = attributes_at(alloc, entry, types)?;
    let part = renamed_attributes(alloc, schema, part, entry.key(), rdn, key, delete_old)?;
    Ok(entry.with_part(alloc, types, &part))
}

/// The same, where all attributes are copied.
fn renamed_whole(
    alloc: Global,
    schema: &Schema,
    entry: &Entry,
    rdn: &Rdn,
    key: &RdnKey,
    delete_old: bool,
) -> Result<KeptAttributes, Refusal>
    requires { rdn_key schema.now rdn.now ≡ Some key.now }
    ensures ok { IfOk result (λ renamed. renamed ≡ renamed_attributes schema.now entry.now.attributes entry.now.key rdn.now key.now delete_old) }
    ensures memory { IfErr result (λ e. e ≡ refusal.Memory) }
{
    let attributes = entry.to_map(alloc)?;
    let renamed = renamed_attributes(alloc, schema, attributes, entry.key(), rdn, key, delete_old)?;
    Ok(KeptAttributes::of(renamed))
}

fn one_rdn(alloc: Global, rdn: &Rdn) -> Result<Vec<Rdn>, Refusal>
    ensures ok { IfOk result (λ own. own.items ≡ rdn.now ∷ []) }
    ensures memory { IfErr result (λ e. e ≡ refusal.Memory) }
{
    let mut own = Vec::with_capacity(alloc, 1)?;
    let Ok(rdn) = rdn.try_clone(alloc) else {
        return Err(Refusal::Memory);
    };
    own.push(rdn)?;
    Ok(own)
}

/// The attributes with the values of the new RDN that are missing and, if asked, then without those of the
/// old RDN that are not of the new one.
fn renamed_attributes(
    alloc: Global,
    schema: &Schema,
    attributes: AttributeMap,
    old: &RdnKey,
    rdn: &Rdn,
    new: &RdnKey,
    delete_old: bool,
) -> Result<AttributeMap, Refusal>
    requires { rdn_key schema.now rdn.now ≡ Some new.now }
    ensures ok { IfOk result (λ renamed. renamed ≡ renamed_attributes schema.now attributes old.now rdn.now new.now delete_old) }
    ensures memory { IfErr result (λ e. e ≡ refusal.Memory) }
{
    let mut renamed = attributes;
    let Ok(()) = renamed.add_missing(alloc, schema, rdn) else {
        return Err(Refusal::Memory);
    };
    if delete_old {
        remove_missing(alloc, &mut renamed, old.pairs(), new.pairs())?;
    }
    Ok(renamed)
}

/// Removes the values of these pairs that are not among the others.
fn remove_missing(
    alloc: Global,
    attributes: &mut AttributeMap,
    pairs: &[(AttrKey, Bytes)],
    others: &[(AttrKey, Bytes)],
) -> Result<(), Refusal>
    ensures ok { OnOk result (attributes.new ≡ without_pairs attributes.old (pairs_missing_in pairs.now others.now)) }
    ensures memory { IfErr result (λ e. e ≡ refusal.Memory) }
{
    for pair in pairs {
        if !has_pair(others, pair) {
            remove_pair(alloc, attributes, pair)?;
        }
    }
    Ok(())
}

fn has_pair(pairs: &[(AttrKey, Bytes)], pair: &(AttrKey, Bytes)) -> bool
    ensures { result ≡ list_any (pair_eq pair.now) pairs.now }
{
    pairs.contains(pair)
}

/// Removes the value of a pair, and its attribute if that has no other.
fn remove_pair(
    alloc: Global,
    attributes: &mut AttributeMap,
    pair: &(AttrKey, Bytes),
) -> Result<(), Refusal>
    ensures ok { OnOk result (attributes.new ≡ without_pair attributes.old pair.now) }
    ensures memory { IfErr result (λ e. e ≡ refusal.Memory) }
{
    let Ok(text) = pair.1.try_clone(alloc) else {
        return Err(Refusal::Memory);
    };
    if let Some(attribute) = attributes.take(&pair.0) {
        if let Some(left) = without_value(alloc, attribute, &ValueKey::Text(text)) {
            attributes.put(left)?;
        }
    }
    Ok(())
}

/// The attribute without a value, if it has another.
fn without_value(alloc: Global, attribute: Attribute, value: &ValueKey) -> Option<Attribute>
    ensures slot { option_map (λ a. a.stored) result ≡ slot_without_value value.now (Some attribute.stored) }
    ensures key { IfSome result (λ a. a.key ≡ attribute.key) }
{
    let mut attribute = attribute;
    let _ = attribute.remove(alloc, value);
    if_any(attribute)
}

/// The superior that the rename back names: the old parent, if it isn't the parent any more.
fn superior_back<D: Directory>(
    alloc: Global,
    directory: &D,
    key: &DnKey,
    superior: &DnKey,
) -> Result<Option<Dn>, Refusal>
    requires { (p : DnKeys) → parent_of key.now ≡ Some p → IsSome (entry_at (D.state directory.now) p) }
    ensures ok { IfOk result (λ back. IsSome (parent_of key.now) → back ≡ superior_back_in (D.state directory.now) key.now superior.now) }
    ensures memory { IfErr result (λ e. e ≡ refusal.Memory) }
{
    let Some(parent) = parent_key(alloc, key)? else {
        return Ok(None);
    };
    if &parent == superior {
        return Ok(None);
    }
    Ok(Some(directory.spelled(&parent)?))
}

/// The rename back to an RDN, under the name that the entry has once it is renamed.
fn rename_back<D: Directory>(
    alloc: Global,
    directory: &D,
    key: &DnKey,
    superior: &DnKey,
    place: &DnKey,
    renamed: &Entry,
    leaf: &Rdn,
) -> Result<Change, Refusal>
    requires above { IsSome (entry_at (D.state directory.now) superior.now) }
    requires has_parent { IsSome (parent_of key.now) }
    requires parent { (p : DnKeys) → parent_of key.now ≡ Some p → IsSome (entry_at (D.state directory.now) p) }
    requires fits { length renamed.now.own + length (spelled_name (D.state directory.now) superior.now) ≤ length place.now }
    ensures ok { IfOk result (λ change. change ≡ rename_to (renamed.now.own ++ spelled_name (D.state directory.now) superior.now) (superior_back_in (D.state directory.now) key.now superior.now) leaf.now) }
    ensures memory { IfErr result (λ e. e ≡ refusal.Memory) }
{
    let dn = joined_name(alloc, place, renamed.own(), directory.spelled(superior)?)?;
    let newsuperior = superior_back(alloc, directory, key, superior)?;
    let Ok(newrdn) = leaf.try_clone(alloc) else {
        return Err(Refusal::Memory);
    };
    Ok(Change {
        dn,
        kind: ChangeKind::Rename {
            newrdn,
            delete_old: true,
            newsuperior,
        },
    })
}

/// The modifications that take back what the rename back to an RDN leaves, if that has a key.
fn left_by_rename_back(
    alloc: Global,
    schema: &Schema,
    leaf: &Rdn,
    after: &Entry,
    before: &Entry,
) -> Result<Option<Vec<Mod>>, Refusal>
    requires { AreSameApartFrom before.now.key after.now.key after.now.attributes before.now.attributes }
    ensures ok { IfOk result (λ mods. option_map (λ items. items.items) mods ≡ option_map (λ key. difference (renamed_attributes schema.now after.now.attributes after.now.key leaf.now key true) before.now.attributes) (rdn_key schema.now leaf.now)) }
    ensures memory { IfErr result (λ e. e ≡ refusal.Memory) }
{
    match key_of(alloc, schema, leaf)? {
        Some(key) => Ok(Some(difference_left(alloc, schema, leaf, &key, after, before)?)),
        None => Ok(None),
    }
}

/// The modifications that take back what the rename back to an RDN of this key leaves. Only the attributes of the
/// RDNs' types can differ.
fn difference_left(
    alloc: Global,
    schema: &Schema,
    leaf: &Rdn,
    key: &RdnKey,
    after: &Entry,
    before: &Entry,
) -> Result<Vec<Mod>, Refusal>
    requires key { rdn_key schema.now leaf.now ≡ Some key.now }
    requires same { AreSameApartFrom before.now.key after.now.key after.now.attributes before.now.attributes }
    ensures ok { IfOk result (λ mods. mods.items ≡ difference (renamed_attributes schema.now after.now.attributes after.now.key leaf.now key.now true) before.now.attributes) }
    ensures memory { IfErr result (λ e. e ≡ refusal.Memory) }
{
    let types = types_of_all(alloc, key, after.key(), before.key())?;
    let types = types.as_slice();
    let left = renamed_attributes(
        alloc,
        schema,
        attributes_at(alloc, after, types)?,
        after.key(),
        leaf,
        key,
        true,
    )?;
    let before = attributes_at(alloc, before, types)?;
    difference(alloc, types, &left, &before)
}

/// The types of two RDNs, in order, each once.
fn types_of_both(alloc: Global, first: &RdnKey, second: &RdnKey) -> Result<Vec<AttrKey>, Refusal>
    ensures ok { IfOk result (λ types. types.items ≡ set_of attr_cmp (types_of first.now ++ types_of second.now)) }
    ensures memory { IfErr result (λ e. e ≡ refusal.Memory) }
{
    let mut types = Vec::new(alloc);
    insert_types(alloc, &mut types, first)?;
    insert_types(alloc, &mut types, second)?;
    Ok(types)
}

/// The types of three RDNs, in order, each once.
fn types_of_all(
    alloc: Global,
    first: &RdnKey,
    second: &RdnKey,
    third: &RdnKey,
) -> Result<Vec<AttrKey>, Refusal>
    ensures ok { IfOk result (λ types. types.items ≡ set_of attr_cmp (types_of first.now ++ types_of second.now ++ types_of third.now)) }
    ensures memory { IfErr result (λ e. e ≡ refusal.Memory) }
{
    let mut types = Vec::new(alloc);
    insert_types(alloc, &mut types, first)?;
    insert_types(alloc, &mut types, second)?;
    insert_types(alloc, &mut types, third)?;
    Ok(types)
}

fn insert_types(alloc: Global, types: &mut Vec<AttrKey>, rdn: &RdnKey) -> Result<(), Refusal>
    requires { IsTrue (rises attr_cmp types.old.items) }
    ensures ok { OnOk result (types.new.items ≡ fold (λ set k. with_member attr_cmp k set) types.old.items (types_of rdn.now)) }
    ensures rises { OnOk result (IsTrue (rises attr_cmp types.new.items)) }
    ensures memory { IfErr result (λ e. e ≡ refusal.Memory) }
{
    for pair in rdn.pairs() {
        insert_key(alloc, types, &pair.0)?;
    }
    Ok(())
}

/// The key of an RDN, if it has one.
fn key_of(alloc: Global, schema: &Schema, rdn: &Rdn) -> Result<Option<RdnKey>, Refusal>
    ensures ok { IfOk result (λ key. key ≡ rdn_key schema.now rdn.now) }
    ensures memory { IfErr result (λ e. e ≡ refusal.Memory) }
{
    match rdn.key(alloc, schema) {
        Ok(key) => Ok(Some(key)),
        Err(NameFault::Memory) => Err(Refusal::Memory),
        Err(_) => Ok(None),
    }
}
