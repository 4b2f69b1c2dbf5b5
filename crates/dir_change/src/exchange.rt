//! A part of an entry's attributes, exchanged in place for what modifications make of it.
//!
//! First the values that come are added, which can run out of memory; then those that go are taken away, which
//! can't. So an entry is never left between the two.

ghost use Rattle.std.specs.Prelude.{◌≡◌, IfErr, IfSome, IsSome, OnErr, OnOk, Some, cond, true};
ghost use Rattle.std.specs.Option.{option_map};
ghost use Rattle.std.specs.FinMap as fin;
ghost use Rattle.dir_names.specs.Attr.{Attr};
ghost use Rattle.dir_names.specs.Orders.{bytes_eq};
ghost use Rattle.dir_tree.specs.Content.{StoredAttributes};
ghost use Rattle.dir_tree.specs.Slots.{with_slot};
ghost use Rattle.dir_change.specs.Inside.Exchanged.{AreGrowing, AreGrowingAttributes, FitAttributes, all_grown, all_settled, all_shrunk, exchanged_slot, grown_at, grown_by, settled_by, settled_slot, shrunk_by, shrunk_slot};
ghost use Rattle.dir_change.specs.declared.refusal.Refusal.TheVariants as refusal;

use crate::Refusal;
use dir_names::{Bytes, ValueKey};
use dir_tree::{Attribute, AttributeMap, ValueMap};
use std::alloc::Global;

/// Exchanges a part of some attributes for another, if memory suffices; else they stay as they were. The
/// attributes have the part before, and no more of the part after than that.
pub(crate) fn exchange(
    alloc: Global,
    attributes: &mut AttributeMap,
    before: &AttributeMap,
    after: AttributeMap,
) -> Result<(), Refusal>
    requires { FitAttributes attributes.old before.now after }
    ensures ok { OnOk result ((q : Attr) → fin.get attributes.new q ≡ exchanged_slot (fin.get attributes.old q) (fin.get before.now q) (fin.get after q)) }
    ensures err { OnErr result (attributes.new ≡ attributes.old) }
    ensures memory { IfErr result (λ e. e ≡ refusal.Memory) }
{
    if let Err(refusal) = grow(alloc, attributes, &after) {
        shrink(alloc, attributes, before, &after);
        return Err(refusal);
    }
    settle(alloc, attributes, before, after);
    Ok(())
}

fn grow(alloc: Global, attributes: &mut AttributeMap, after: &AttributeMap) -> Result<(), Refusal>
    ensures ok { OnOk result (attributes.new ≡ all_grown attributes.old (fin.entries after.now)) }
    ensures growing { AreGrowingAttributes attributes.old after.now attributes.new }
    ensures memory { IfErr result (λ e. e ≡ refusal.Memory) }
{
    for (_, attribute) in after.iter() {
        grow_one(alloc, attributes, attribute)?;
    }
    Ok(())
}

fn shrink(alloc: Global, attributes: &mut AttributeMap, before: &AttributeMap, after: &AttributeMap)
    ensures { attributes.new ≡ all_shrunk before.now attributes.old (fin.entries after.now) }
{
    for (key, attribute) in after.iter() {
        shrink_one(alloc, attributes, before.get(key), attribute);
    }
}

fn settle(
    alloc: Global,
    attributes: &mut AttributeMap,
    before: &AttributeMap,
    mut after: AttributeMap,
)
    ensures { attributes.new ≡ all_settled after attributes.old (fin.entries before.now) }
{
    for (key, attribute) in before.iter() {
        settle_one(alloc, attributes, attribute, after.take(key));
    }
}

/// Adds the values that are not there yet.
fn grow_values(alloc: Global, values: &mut ValueMap, after: &Attribute) -> Result<(), Refusal>
    ensures ok { OnOk result (values.new ≡ grown_by values.old (fin.entries after.now.stored.values)) }
    ensures err { OnErr result (AreGrowing values.old after.now.stored.values values.new) }
    ensures memory { IfErr result (λ e. e ≡ refusal.Memory) }
{
    for (key, bytes) in after.values() {
        add_if_missing(alloc, values, key, bytes.as_slice())?;
    }
    Ok(())
}

pub(crate) fn add_if_missing(
    alloc: Global,
    values: &mut ValueMap,
    key: &ValueKey,
    bytes: &[u8],
) -> Result<(), Refusal>
    ensures ok { OnOk result (values.new ≡ cond (fin.contains_key values.old key.now) values.old (fin.insert values.old key.now bytes.now)) }
    ensures err { OnErr result (values.new ≡ values.old) }
    ensures memory { IfErr result (λ e. e ≡ refusal.Memory) }
{
    if values.contains_key(key) {
        return Ok(());
    }
    let Ok(key) = key.try_clone(alloc) else {
        return Err(Refusal::Memory);
    };
    let Ok(bytes) = Bytes::copy_of(alloc, bytes) else {
        return Err(Refusal::Memory);
    };
    match values.insert(alloc, key, bytes) {
        Ok(()) => Ok(()),
        Err(_) => Err(Refusal::Memory),
    }
}

/// Takes the values away that came.
fn shrink_values(alloc: Global, values: &mut ValueMap, before: &Attribute, after: &Attribute)
    ensures { values.new ≡ shrunk_by before.now.stored.values values.old (fin.entries after.now.stored.values) }
{
    for (key, _) in after.values() {
        if !before.has(key) {
            values.remove(alloc, key);
        }
    }
}

/// Gives each value of the part before its bytes of the part after, or takes it away if it isn't there.
fn settle_values(alloc: Global, values: &mut ValueMap, before: &Attribute, after: &mut Attribute)
    ensures { values.new ≡ settled_by after.old.stored.values values.old (fin.entries before.now.stored.values) }
{
    for (key, _) in before.values() {
        match after.remove(alloc, key) {
            Some(bytes) => values.set(key, bytes),
            None => {
                values.remove(alloc, key);
            }
        }
    }
}

/// Adds the values of an attribute that are not there yet, or the whole attribute.
fn grow_one(alloc: Global, attributes: &mut AttributeMap, after: &Attribute) -> Result<(), Refusal>
    ensures ok { OnOk result (attributes.new ≡ grown_at attributes.old after.now.key after.now.stored) }
    ensures growing { (all : StoredAttributes) → fin.get all after.now.key ≡ Some after.now.stored → AreGrowingAttributes attributes.old all attributes.new }
    ensures memory { IfErr result (λ e. e ≡ refusal.Memory) }
{
    let key = after.description().key();
    if attributes.get(key).is_none() {
        attributes.put(after.try_clone(alloc)?)?;
        return Ok(());
    }
    let mut values = attributes.replace_values(key, ValueMap::empty(alloc));
    let grown = grow_values(alloc, &mut values, after);
    let _ = attributes.replace_values(key, values);
    grown
}

/// Takes the values away that came, or the whole attribute if there was none before.
fn shrink_one(
    alloc: Global,
    attributes: &mut AttributeMap,
    before: Option<&Attribute>,
    after: &Attribute,
)
    ensures { attributes.new ≡ with_slot attributes.old after.now.key (shrunk_slot (fin.get attributes.old after.now.key) (option_map (λ a. a.now.stored) before.entry) after.now.stored) }
{
    let key = after.description().key();
    let Some(before) = before else {
        let _ = attributes.take(key);
        return;
    };
    if attributes.get(key).is_some() {
        let mut values = attributes.replace_values(key, ValueMap::empty(alloc));
        shrink_values(alloc, &mut values, before, after);
        let _ = attributes.replace_values(key, values);
    }
}

/// Gives an attribute what it has in the part after, or takes it away.
fn settle_one(
    alloc: Global,
    attributes: &mut AttributeMap,
    before: &Attribute,
    after: Option<Attribute>,
)
    requires { IfSome after (λ b. b.key ≡ before.now.key) }
    ensures { attributes.new ≡ with_slot attributes.old before.now.key (settled_slot (fin.get attributes.old before.now.key) before.now.stored (option_map (λ b. b.stored) after)) }
{
    let key = before.description().key();
    let Some(after) = after else {
        let _ = attributes.take(key);
        return;
    };
    if attributes.get(key).is_none() {
        return;
    }
    if before.description().spelling() == after.description().spelling() {
        settle_spelled(alloc, attributes, before, after);
    } else {
        let _ = attributes.replace(after);
    }
}

/// The same, where the attribute is there and is spelled in the part after as it was before: only its values change.
fn settle_spelled(
    alloc: Global,
    attributes: &mut AttributeMap,
    before: &Attribute,
    mut after: Attribute,
)
    requires there { IsSome (fin.get attributes.old before.now.key) }
    requires spelled { bytes_eq before.now.stored.spelling after.stored.spelling ≡ true }
    ensures { attributes.new ≡ with_slot attributes.old before.now.key (settled_slot (fin.get attributes.old before.now.key) before.now.stored (Some after.stored)) }
{
    let key = before.description().key();
    let mut values = attributes.replace_values(key, ValueMap::empty(alloc));
    settle_values(alloc, &mut values, before, &mut after);
    let _ = attributes.replace_values(key, values);
}
