//! The modify operation (RFC 4511, section 4.6) and the modify that takes it back.

ghost use Rattle.std.specs.Prelude.{◌≡◌, IfErr, IfOk, IfSome, IsSome, IsTrue, Ok, OnErr, OnOk, Option, Some, is_none, not, true};
ghost use Rattle.std.specs.Option.{option_map};
ghost use Rattle.std.specs.FinMap as fin;
ghost use Rattle.dir_ldif.specs.declared.records.ChangeKind.TheVariants as kind;
ghost use Rattle.dir_ldif.specs.declared.records.ModOp.TheVariants as op;
ghost use Rattle.dir_tree.specs.Content.{Content, Stored};
ghost use Rattle.dir_tree.specs.Dir.{entry_at, put_entry};
ghost use Rattle.dir_tree.specs.Slots.{slot_of, spelling_or, values_of, with_slots};
ghost use Rattle.dir_tree.specs.SpelledNames.{spelled_name};
ghost use Rattle.dir_change.specs.Inside.Exchanged.{FitAttributes};
ghost use Rattle.dir_change.specs.Inside.Looked.{AreLooks};
ghost use Rattle.dir_change.specs.Inside.Touched.{IsPartAt};
ghost use Rattle.dir_change.specs.Inside.Planned.{AreExchanged, IsExchanged, IsExchangedAt, IsPlan, IsPlanWithUndo};
ghost use Rattle.dir_change.specs.Inside.ValuesInTurn.{are_new, are_there, without_each};
ghost use Rattle.dir_change.specs.Modify.{attributes_after, attributes_after_one, entry_after, keyed_value, keyed_values, slot_after, slot_after_op, values_with, with_attributes};
ghost use Rattle.dir_change.specs.Operation.{IsRefused, directory_after_modify};
ghost use Rattle.dir_change.specs.Refusals.{IsRefusedWith};
ghost use Rattle.dir_change.specs.Undo.{modify_if_any, undo_of};
ghost use Rattle.dir_change.specs.declared.refusal.Refusal.TheVariants as refusal;
ghost use Rattle.dir_change.specs.declared.result_code.ResultCode.TheVariants as code;

use crate::difference::{difference, named_keys};
use crate::exchange::exchange;
use crate::increment::incremented;
use crate::judged::judge;
use crate::looked::looked_at;
use crate::touched::{attributes_at, is_cheap_to_copy};
use crate::{Refusal, ResultCode, Undo};
use dir_ldif::{Mod, ModOp};
use dir_names::{AttrKey, Bytes, DnKey, NameFault, Schema, ValueKey};
use dir_tree::{Attribute, AttributeMap, Directory, Entry, KeptAttributes, Parts};
use std::alloc::Global;

/// Modifies an entry (RFC 4511, section 4.6): 32 where it is missing; then the first refusal of a
/// modification; then 67 where a value of the own RDN is missing, and 19 where a single type has more than
/// one value. A modify of the keys that differ takes it back.
pub(crate) fn modify<D: Directory>(
    alloc: Global,
    schema: &Schema,
    directory: &mut D,
    key: &DnKey,
    mods: &[Mod],
) -> Result<Undo, Refusal>
    ensures ok { OnOk result (directory_after_modify schema.now (D.state directory.old) key.now mods.now ≡ Ok (D.state directory.new)) }
    ensures refused { IfErr result (λ e. IsRefused e (directory_after_modify schema.now (D.state directory.old) key.now mods.now)) }
    ensures err { OnErr result (D.state directory.new ≡ D.state directory.old) }
    ensures undo { IfOk result (λ undo. undo ≡ undo_of schema.now (D.state directory.old) (D.state directory.new) key.now (kind.Modify mods.now)) }
{
    let Some(entry) = directory.get(key) else {
        return Err(Refusal::Code(ResultCode::NoSuchObject));
    };
    let Prepared {
        exchange,
        first,
        is_done,
        undo,
    } = prepare(alloc, schema, directory, key, entry, mods)?;
    carry_out(alloc, directory, key, exchange, first, is_done)?;
    Ok(undo)
}

/// A modify that no refusal can come of any more: what is exchanged, what first takes the entry's place, whether that is all,
/// and what takes this back.
#[derive(Drop)]
struct Prepared {
    exchange: Exchange,
    first: Entry,
    is_done: bool,
    undo: Undo,
}

/// Prepares a modify of an entry, so that its undo is complete before the directory is touched.
fn prepare<D: Directory>(
    alloc: Global,
    schema: &Schema,
    directory: &D,
    key: &DnKey,
    entry: &Entry,
    mods: &[Mod],
) -> Result<Prepared, Refusal>
    requires { IsSome (entry_at (D.state directory.now) key.now) }
    ensures plan { IfOk result (λ p. IsPlanWithUndo schema.now (spelled_name (D.state directory.now) key.now) entry.now mods.now p.exchange.before p.exchange.after p.undo) }
    ensures done { IfOk result (λ p. IsTrue p.is_done → IsExchanged entry.now p.exchange.before p.exchange.after p.first) }
    ensures refused { IfErr result (λ e. IsRefused e (entry_after schema.now entry.now mods.now)) }
{
    let Plan { exchange, back } = planned(alloc, schema, entry, mods, directory.packs_entries())?;
    let undo = undo_of_modify(alloc, directory, key, back)?;
    let (first, is_done) = replacement(alloc, entry, &exchange)?;
    Ok(Prepared {
        exchange,
        first,
        is_done,
        undo,
    })
}

/// The modify that takes a modify back, if there is a modification. The name of the entry as spelled doesn't change.
fn undo_of_modify<D: Directory>(
    alloc: Global,
    directory: &D,
    key: &DnKey,
    back: Vec<Mod>,
) -> Result<Undo, Refusal>
    requires { IsSome (entry_at (D.state directory.now) key.now) }
    ensures ok { IfOk result (λ undo. undo ≡ modify_if_any (spelled_name (D.state directory.now) key.now) back.items) }
    ensures memory { IfErr result (λ e. e ≡ refusal.Memory) }
{
    let dn = directory.spelled(key)?;
    Ok(Undo::modify(alloc, dn, back)?)
}

/// Puts what first takes an entry's place there, and then, if that isn't all, the entry with its attributes exchanged.
fn carry_out<D: Directory>(
    alloc: Global,
    directory: &mut D,
    key: &DnKey,
    exchange: Exchange,
    first: Entry,
    is_done: bool,
) -> Result<(), Refusal>
    requires there { IsSome (entry_at (D.state directory.old) key.now) }
    requires fit { (entry : Content) → entry_at (D.state directory.old) key.now ≡ Some entry → FitAttributes entry.attributes exchange.before exchange.after }
    requires done { (entry : Content) → entry_at (D.state directory.old) key.now ≡ Some entry → IsTrue is_done → IsExchanged entry exchange.before exchange.after first }
    ensures ok { OnOk result ((entry : Content) → entry_at (D.state directory.old) key.now ≡ Some entry → IsExchangedAt (D.state directory.old) key.now entry exchange.before exchange.after (D.state directory.new)) }
    ensures err { OnErr result (D.state directory.new ≡ D.state directory.old) }
    ensures memory { IfErr result (λ e. e ≡ refusal.Memory) }
{
    let entry = directory.replace(key, first);
    if is_done {
        return Ok(());
    }
    settle(alloc, directory, key, entry, exchange)
}

/// What takes an entry's place, and whether this is the entry after the exchange: if so, it is a copy with whole attributes
/// exchanged, and else an entry without attributes.
fn replacement(alloc: Global, entry: &Entry, exchange: &Exchange) -> Result<(Entry, bool), Refusal>
    ensures whole { IfOk result (λ r. IsTrue r.1 → IsTrue exchange.now.is_whole) }
    ensures modified { IfOk result (λ r. IsTrue r.1 → r.0 ≡ with_attributes entry.now (with_slots entry.now.attributes exchange.now.keys.items exchange.now.after)) }
    ensures memory { IfErr result (λ e. e ≡ refusal.Memory) }
{
    let keys = exchange.keys.as_slice();
    match modified_copy(alloc, entry, exchange.is_whole, keys, &exchange.after) {
        Some(modified) => Ok((modified, true)),
        None => Ok((stand_in(alloc, entry)?, false)),
    }
}

/// Puts an entry back in the place of its stand-in, with its attributes exchanged if memory suffices; else as it was.
fn settle<D: Directory>(
    alloc: Global,
    directory: &mut D,
    key: &DnKey,
    entry: Entry,
    exchange: Exchange,
) -> Result<(), Refusal>
    requires there { IsSome (entry_at (D.state directory.now) key.now) }
    requires fit { FitAttributes entry.attributes exchange.before exchange.after }
    ensures ok { OnOk result (IsExchangedAt (D.state directory.old) key.now entry exchange.before exchange.after (D.state directory.new)) }
    ensures err { OnErr result (D.state directory.new ≡ put_entry (D.state directory.old) key.now entry) }
    ensures memory { IfErr result (λ e. e ≡ refusal.Memory) }
{
    let after = exchange.after;
    let (entry, exchanged) = exchanged_entry(alloc, entry, &exchange.before, after);
    let _ = directory.replace(key, entry);
    exchanged
}

/// The entry with what a part has under these keys, if it is small and the part is of whole attributes.
fn modified_copy(
    alloc: Global,
    entry: &Entry,
    is_whole: bool,
    keys: &[AttrKey],
    part: &AttributeMap,
) -> Option<Entry>
    ensures whole { IfSome result (λ _. IsTrue is_whole) }
    ensures modified { IfSome result (λ e. e ≡ with_attributes entry.now (with_slots entry.now.attributes keys.now part.now)) }
{
    if !is_whole {
        return None;
    }
    let attributes = entry.with_part(alloc, keys, part)?;
    entry.with_attributes(alloc, attributes).ok()
}

/// The entry with a part of its attributes exchanged for another, if memory suffices; else as it was.
fn exchanged_entry(
    alloc: Global,
    entry: Entry,
    before: &AttributeMap,
    after: AttributeMap,
) -> (Entry, Result<(), Refusal>)
    requires { FitAttributes entry.attributes before.now after }
    ensures rest { result.0 ≡ with_attributes entry result.0.attributes }
    ensures ok { OnOk result.1 (AreExchanged entry.attributes before.now after result.0.attributes) }
    ensures err { OnErr result.1 (result.0 ≡ entry) }
    ensures memory { IfErr result.1 (λ e. e ≡ refusal.Memory) }
{
    let Parts {
        own,
        key,
        attributes,
    } = entry.into_parts();
    let (attributes, exchanged) = match attributes.open(alloc) {
        Ok(map) => exchanged_map(alloc, map, before, after),
        Err(attributes) => (attributes, Err(Refusal::Memory)),
    };
    (
        Entry::of(Parts {
            own,
            key,
            attributes,
        }),
        exchanged,
    )
}

/// The attributes with a part of them exchanged for another, if memory suffices; else as they were.
fn exchanged_map(
    alloc: Global,
    mut map: AttributeMap,
    before: &AttributeMap,
    after: AttributeMap,
) -> (KeptAttributes, Result<(), Refusal>)
    requires { FitAttributes map before.now after }
    ensures ok { OnOk result.1 (AreExchanged map before.now after result.0) }
    ensures err { OnErr result.1 (result.0 ≡ map) }
    ensures memory { IfErr result.1 (λ e. e ≡ refusal.Memory) }
{
    let exchanged = exchange(alloc, &mut map, before, after);
    (KeptAttributes::of(map), exchanged)
}

/// What a modify is to do to an entry: to exchange some of its attributes, or parts of them, and to tell
/// what takes this back.
#[derive(Drop)]
struct Plan {
    exchange: Exchange,
    back: Vec<Mod>,
}

/// Attributes of an entry, or parts of them, and what takes their place.
#[derive(Drop)]
struct Exchange {
    keys: Vec<AttrKey>,
    /// Whether whole attributes are exchanged.
    is_whole: bool,
    before: AttributeMap,
    after: AttributeMap,
}

/// The exchange that all modifications come to, if none of them, nor the entry after them, is refused.
fn planned(
    alloc: Global,
    schema: &Schema,
    entry: &Entry,
    mods: &[Mod],
    packs: bool,
) -> Result<Plan, Refusal>
    ensures ok { IfOk result (λ plan. IsPlan schema.now entry.now mods.now plan.exchange.before plan.exchange.after plan.back.items) }
    ensures whole { IfOk result (λ plan. IsTrue plan.exchange.is_whole → AreExchanged entry.now.attributes plan.exchange.before plan.exchange.after (with_slots entry.now.attributes plan.exchange.keys.items plan.exchange.after)) }
    ensures refused { IfErr result (λ e. IsRefused e (entry_after schema.now entry.now mods.now)) }
{
    let keys = named_keys(alloc, mods)?;
    let is_whole = copies_whole(packs, entry, keys.as_slice());
    let before = looks(alloc, schema, entry, keys.as_slice(), mods, is_whole)?;
    let mut after = before.try_clone(alloc)?;
    apply_all(alloc, schema, &mut after, mods)?;
    judge(schema, entry, keys.as_slice(), &after)?;
    let back = difference(alloc, keys.as_slice(), &after, &before)?;
    Ok(Plan {
        exchange: Exchange {
            keys,
            is_whole,
            before,
            after,
        },
        back,
    })
}

/// Whether whole attributes are copied to be exchanged: where that is cheap, in a directory that packs the entry again. Else no
/// more of them is copied than the modifications need.
fn copies_whole(packs: bool, entry: &Entry, keys: &[AttrKey]) -> bool {
    packs && is_cheap_to_copy(entry, keys)
}

/// What modifications look at under the keys that they name: whole attributes if asked, else no more than they need.
fn looks(
    alloc: Global,
    schema: &Schema,
    entry: &Entry,
    keys: &[AttrKey],
    mods: &[Mod],
    is_whole: bool,
) -> Result<AttributeMap, Refusal>
    ensures ok { IfOk result (λ before. AreLooks schema.now entry.now mods.now keys.now before) }
    ensures whole { IfOk result (λ before. IsTrue is_whole → IsPartAt keys.now entry.now.attributes before) }
    ensures memory { IfErr result (λ e. e ≡ refusal.Memory) }
{
    if is_whole {
        attributes_at(alloc, entry, keys)
    } else {
        looked_at(alloc, schema, entry, keys, mods)
    }
}

/// An entry without attributes, in the place of one that is changed.
fn stand_in(alloc: Global, entry: &Entry) -> Result<Entry, Refusal>
    ensures memory { IfErr result (λ e. e ≡ refusal.Memory) }
{
    let Ok(key) = entry.key().try_clone(alloc) else {
        return Err(Refusal::Memory);
    };
    Ok(Entry::of(Parts {
        own: Vec::new(alloc),
        key,
        attributes: KeptAttributes::of(AttributeMap::empty(alloc)),
    }))
}

fn apply_all(
    alloc: Global,
    schema: &Schema,
    attributes: &mut AttributeMap,
    mods: &[Mod],
) -> Result<(), Refusal>
    ensures ok { OnOk result (attributes_after schema.now attributes.old mods.now ≡ Ok attributes.new) }
    ensures refused { IfErr result (λ e. IsRefused e (attributes_after schema.now attributes.old mods.now)) }
{
    for m in mods {
        apply_one(alloc, schema, attributes, m)?;
    }
    Ok(())
}

fn apply_one(
    alloc: Global,
    schema: &Schema,
    attributes: &mut AttributeMap,
    m: &Mod,
) -> Result<(), Refusal>
    ensures ok { OnOk result (attributes_after_one schema.now attributes.old m.now ≡ Ok attributes.new) }
    ensures refused { IfErr result (λ e. IsRefused e (attributes_after_one schema.now attributes.old m.now)) }
{
    let attribute = attributes.take(m.description.key());
    if let Some(modified) = modified_attribute(alloc, schema, m, attribute)? {
        attributes.put(modified)?;
    }
    Ok(())
}

/// The attribute after a modification of its key, if it still has a value.
fn modified_attribute(
    alloc: Global,
    schema: &Schema,
    m: &Mod,
    attribute: Option<Attribute>,
) -> Result<Option<Attribute>, Refusal>
    requires { IfSome attribute (λ a. a.key ≡ m.now.description.key) }
    ensures ok { IfOk result (λ modified. slot_after schema.now m.now (option_map (λ a. a.stored) attribute) ≡ Ok (option_map (λ a. a.stored) modified)) }
    ensures key { IfOk result (λ modified. IfSome modified (λ a. a.key ≡ m.now.description.key)) }
    ensures refused { IfErr result (λ e. IsRefused e (slot_after schema.now m.now (option_map (λ a. a.stored) attribute))) }
{
    match m.op {
        ModOp::Add => with_values(alloc, schema, m, attribute),
        ModOp::Delete => without_values(alloc, schema, m, attribute),
        ModOp::Replace => replaced(alloc, schema, m),
        ModOp::Increment => incremented(alloc, schema, m, attribute),
    }
}

/// Adds the values of a modification. An attribute that is missing is made, spelled as in the
/// modification.
fn with_values(
    alloc: Global,
    schema: &Schema,
    m: &Mod,
    attribute: Option<Attribute>,
) -> Result<Option<Attribute>, Refusal>
    requires { IfSome attribute (λ a. a.key ≡ m.now.description.key) }
    ensures ok { IfOk result (λ modified. slot_after_op schema.now m.now op.Add m.now.values (option_map (λ a. a.stored) attribute) ≡ Ok (option_map (λ a. a.stored) modified)) }
    ensures key { IfOk result (λ modified. IfSome modified (λ a. a.key ≡ m.now.description.key)) }
    ensures refused { IfErr result (λ e. IsRefused e (slot_after_op schema.now m.now op.Add m.now.values (option_map (λ a. a.stored) attribute))) }
{
    if m.values.as_slice().is_empty() {
        return Err(Refusal::Code(ResultCode::ProtocolError));
    }
    let given = keyed_values(alloc, schema, m)?;
    let mut attribute = attribute_or_new(alloc, m, attribute)?;
    add_all(alloc, &mut attribute, given)?;
    Ok(if_any(attribute))
}

/// Removes the values of a modification, or the whole attribute if it gives none.
fn without_values(
    alloc: Global,
    schema: &Schema,
    m: &Mod,
    attribute: Option<Attribute>,
) -> Result<Option<Attribute>, Refusal>
    requires { IfSome attribute (λ a. a.key ≡ m.now.description.key) }
    ensures ok { IfOk result (λ modified. slot_after_op schema.now m.now op.Delete m.now.values (option_map (λ a. a.stored) attribute) ≡ Ok (option_map (λ a. a.stored) modified)) }
    ensures key { IfOk result (λ modified. IfSome modified (λ a. a.key ≡ m.now.description.key)) }
    ensures refused { IfErr result (λ e. IsRefused e (slot_after_op schema.now m.now op.Delete m.now.values (option_map (λ a. a.stored) attribute))) }
{
    if m.values.as_slice().is_empty() {
        return match attribute {
            Some(_) => Ok(None),
            None => Err(Refusal::Code(ResultCode::NoSuchAttribute)),
        };
    }
    let given = keyed_values(alloc, schema, m)?;
    let Some(attribute) = attribute else {
        return Err(Refusal::Code(ResultCode::NoSuchAttribute));
    };
    let mut attribute = attribute;
    if !remove_all(alloc, &mut attribute, given.as_slice()) {
        return Err(Refusal::Code(ResultCode::NoSuchAttribute));
    }
    Ok(if_any(attribute))
}

/// The attribute with the values of a modification alone, spelled as there.
fn replaced(alloc: Global, schema: &Schema, m: &Mod) -> Result<Option<Attribute>, Refusal>
    ensures ok { IfOk result (λ modified. (slot : Option Stored) → slot_after_op schema.now m.now op.Replace m.now.values slot ≡ Ok (option_map (λ a. a.stored) modified)) }
    ensures key { IfOk result (λ modified. IfSome modified (λ a. a.key ≡ m.now.description.key)) }
    ensures refused { IfErr result (λ e. (slot : Option Stored) → IsRefused e (slot_after_op schema.now m.now op.Replace m.now.values slot)) }
{
    if m.values.as_slice().is_empty() {
        return Ok(None);
    }
    let given = keyed_values(alloc, schema, m)?;
    let mut attribute = new_attribute(alloc, m)?;
    add_all(alloc, &mut attribute, given)?;
    Ok(if_any(attribute))
}

/// The attribute, or one that is spelled as in the modification and still has no values.
fn attribute_or_new(
    alloc: Global,
    m: &Mod,
    attribute: Option<Attribute>,
) -> Result<Attribute, Refusal>
    requires { IfSome attribute (λ a. a.key ≡ m.now.description.key) }
    ensures ok { IfOk result (λ a. a ≡ record { key = m.now.description.key; stored = record { spelling = spelling_or m.now.description.spelling (option_map (λ a. a.stored) attribute); values = values_of (option_map (λ a. a.stored) attribute) } }) }
    ensures memory { IfErr result (λ e. e ≡ refusal.Memory) }
{
    match attribute {
        Some(attribute) => Ok(attribute),
        None => new_attribute(alloc, m),
    }
}

/// The attribute of a modification, still without values.
fn new_attribute(alloc: Global, m: &Mod) -> Result<Attribute, Refusal>
    ensures ok { IfOk result (λ a. a ≡ record { key = m.now.description.key; stored = record { spelling = m.now.description.spelling; values = fin.empty } }) }
    ensures memory { IfErr result (λ e. e ≡ refusal.Memory) }
{
    match m.description.try_clone(alloc) {
        Ok(description) => Ok(Attribute::new(alloc, description)),
        Err(_) => Err(Refusal::Memory),
    }
}

/// The attribute, unless it has no value.
pub(crate) fn if_any(attribute: Attribute) -> Option<Attribute>
    ensures slot { option_map (λ a. a.stored) result ≡ slot_of attribute.stored.spelling attribute.stored.values }
    ensures key { IfSome result (λ a. a.key ≡ attribute.key) }
{
    if attribute.is_empty() {
        None
    } else {
        Some(attribute)
    }
}

/// The values of a modification with their keys. 21 where one has no key.
fn keyed_values(alloc: Global, schema: &Schema, m: &Mod) -> Result<Vec<(ValueKey, Bytes)>, Refusal>
    ensures ok { IfOk result (λ given. keyed_values schema.now m.now.description.key m.now.values ≡ Some given.items) }
    ensures refused { IfErr result (λ e. IsRefusedWith code.InvalidAttributeSyntax (is_none (keyed_values schema.now m.now.description.key m.now.values)) e) }
{
    let mut given = Vec::with_capacity(alloc, m.values.as_slice().len())?;
    for value in m.values.as_slice() {
        let key = value_key(alloc, schema, m.description.key(), value)?;
        let Ok(bytes) = value.try_clone(alloc) else {
            return Err(Refusal::Memory);
        };
        given.push((key, bytes))?;
    }
    Ok(given)
}

pub(crate) fn value_key(
    alloc: Global,
    schema: &Schema,
    attr: &AttrKey,
    value: &Bytes,
) -> Result<ValueKey, Refusal>
    ensures ok { IfOk result (λ key. keyed_value schema.now attr.now value.now ≡ Some (key, value.now)) }
    ensures refused { IfErr result (λ e. IsRefusedWith code.InvalidAttributeSyntax (is_none (keyed_value schema.now attr.now value.now)) e) }
{
    match schema.value_key(alloc, attr, value.as_slice()) {
        Ok(key) => Ok(key),
        Err(NameFault::Memory) => Err(Refusal::Memory),
        Err(_) => Err(Refusal::Code(ResultCode::InvalidAttributeSyntax)),
    }
}

/// Adds values. 20 where one is there already or comes twice.
fn add_all(
    alloc: Global,
    attribute: &mut Attribute,
    given: Vec<(ValueKey, Bytes)>,
) -> Result<(), Refusal>
    ensures ok { OnOk result (attribute.new ≡ record { key = attribute.old.key; stored = record { spelling = attribute.old.stored.spelling; values = values_with attribute.old.stored.values given.items } }) }
    ensures new { OnOk result (are_new attribute.old.stored.values given.items ≡ true) }
    ensures refused { IfErr result (λ e. IsRefusedWith code.AttributeOrValueExists (not (are_new attribute.old.stored.values given.items)) e) }
{
    for (key, bytes) in given {
        attribute.add(alloc, key, bytes)?;
    }
    Ok(())
}

/// Removes values, and tells whether each was there, none of them twice.
fn remove_all(alloc: Global, attribute: &mut Attribute, given: &[(ValueKey, Bytes)]) -> bool
    ensures there { result ≡ are_there attribute.old.stored.values given.now }
    ensures rest { result ≡ true → attribute.new ≡ record { key = attribute.old.key; stored = record { spelling = attribute.old.stored.spelling; values = without_each attribute.old.stored.values given.now } } }
{
    for value in given {
        if attribute.remove(alloc, &value.0).is_none() {
            return false;
        }
    }
    true
}
