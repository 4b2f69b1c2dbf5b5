//! What modifications look at of an entry: of an attribute in which they add and delete values only these
//! values and one more, so that a modify of a large group does not read all its members.

ghost use Rattle.std.specs.Prelude.{◌≡◌, ◌&&◌, ◌||◌, IfErr, IfOk, IfSome, OnOk, Some, false, not};
ghost use Rattle.std.specs.List.{list_all};
ghost use Rattle.std.specs.FinMap as fin;
ghost use Rattle.dir_names.specs.Orders.{attr_eq};
ghost use Rattle.dir_change.specs.Inside.Looked.{AreLooks, LooksAt, adds_or_deletes, all_name_values, all_named, is_free, names_values, with_each, with_names};
ghost use Rattle.dir_tree.specs.Lent.{lent_key};
ghost use Rattle.dir_change.specs.declared.refusal.Refusal.TheVariants as refusal;

use crate::Refusal;
use crate::exchange::add_if_missing;
use crate::modify::value_key;
use dir_ldif::{Mod, ModOp};
use dir_names::{AttrKey, RdnKey, Schema};
use dir_tree::{Attribute, AttributeMap, AttributeView, Entry, KeyView, ValueMap};
use std::alloc::Global;

/// If modifications name more keys than this, they look at whole attributes: to find those of each key among all of them
/// would take time that grows with the square of their number.
const MOST_NAMED_KEYS: usize = 1024;

/// What modifications look at under the keys that they name.
pub(crate) fn looked_at(
    alloc: Global,
    schema: &Schema,
    entry: &Entry,
    keys: &[AttrKey],
    mods: &[Mod],
) -> Result<AttributeMap, Refusal>
    ensures ok { IfOk result (λ before. AreLooks schema.now entry.now mods.now keys.now before) }
    ensures memory { IfErr result (λ e. e ≡ refusal.Memory) }
{
    let mut before = AttributeMap::empty(alloc);
    for key in keys {
        if let Some(attribute) = entry.attribute(key) {
            before.put(looked_part(alloc, schema, entry.key(), &attribute, keys.len(), mods)?)?;
        }
    }
    Ok(before)
}

/// What modifications of so many keys look at of an attribute: all of it, unless they only add and delete values in it, its
/// type may have many values and no value of it is in the own RDN.
fn looked_part(
    alloc: Global,
    schema: &Schema,
    own: &RdnKey,
    attribute: &AttributeView<'_>,
    count: usize,
    mods: &[Mod],
) -> Result<Attribute, Refusal>
    ensures key { IfOk result (λ part. part.key ≡ attribute.now.key) }
    ensures looks { IfOk result (λ part. LooksAt schema.now own.now mods.now attribute.now.key (Some attribute.now.stored) (Some part.stored)) }
    ensures memory { IfErr result (λ e. e ≡ refusal.Memory) }
{
    let key = attribute.description().key();
    if count <= MOST_NAMED_KEYS && is_free(schema, own, key) && all_name_values(key, mods) {
        let named = named_values(alloc, schema, key, mods)?;
        if let Some((one, bytes)) = other_value(attribute, &named) {
            return part_with(alloc, attribute, &named, one, bytes);
        }
    }
    Ok(attribute.to_attribute(alloc)?)
}

/// Whether a type may have many values, and the own RDN has none of it.
fn is_free(schema: &Schema, own: &RdnKey, attr: &AttrKey) -> bool
    ensures { result ≡ is_free schema.now own.now attr.now }
{
    if schema.single(attr) {
        return false;
    }
    for pair in own.pairs() {
        if &pair.0 == attr {
            return false;
        }
    }
    true
}

/// Whether each modification of the key names the values that it adds or deletes.
fn all_name_values(key: &AttrKey, mods: &[Mod]) -> bool
    ensures { result ≡ all_name_values key.now mods.now }
{
    for m in mods {
        if m.description.key() == key && !names_values(m) {
            return false;
        }
    }
    true
}

fn names_values(m: &Mod) -> bool
    ensures { result ≡ names_values m.now }
{
    adds_or_deletes(m.op) && !m.values.as_slice().is_empty()
}

fn adds_or_deletes(op: ModOp) -> bool
    ensures { result ≡ adds_or_deletes op }
{
    match op {
        ModOp::Add | ModOp::Delete => true,
        ModOp::Replace | ModOp::Increment => false,
    }
}

/// The values that modifications of the key name, if they have keys.
fn named_values(
    alloc: Global,
    schema: &Schema,
    key: &AttrKey,
    mods: &[Mod],
) -> Result<ValueMap, Refusal>
    ensures ok { IfOk result (λ named. named ≡ all_named schema.now key.now fin.empty mods.now) }
    ensures memory { IfErr result (λ e. e ≡ refusal.Memory) }
{
    let mut named = ValueMap::empty(alloc);
    for m in mods {
        if m.description.key() == key {
            add_named(alloc, schema, m, &mut named)?;
        }
    }
    Ok(named)
}

fn add_named(alloc: Global, schema: &Schema, m: &Mod, named: &mut ValueMap) -> Result<(), Refusal>
    ensures ok { OnOk result (named.new ≡ with_names schema.now m.now.description.key named.old m.now.values) }
    ensures memory { IfErr result (λ e. e ≡ refusal.Memory) }
{
    for value in m.values.as_slice() {
        match value_key(alloc, schema, m.description.key(), value) {
            Ok(key) => add_if_missing(alloc, named, &key, value.as_slice())?,
            Err(Refusal::Memory) => return Err(Refusal::Memory),
            Err(Refusal::Code(_)) => {}
        }
    }
    Ok(())
}

/// A value of the attribute that is not among those named.
fn other_value<'a>(
    attribute: &AttributeView<'a>,
    named: &ValueMap,
) -> Option<(KeyView<'a>, &'a [u8])>
    ensures there { IfSome result (λ one. fin.get attribute.now.stored.values (lent_key one.0) ≡ Some one.1.now) }
    ensures other { IfSome result (λ one. fin.contains_key named.now (lent_key one.0) ≡ false) }
{
    for (key, bytes) in attribute.values() {
        if !named.has_lent(key) {
            return Some((key, bytes));
        }
    }
    None
}

/// The values of the attribute that are named, and this one.
fn part_with(
    alloc: Global,
    attribute: &AttributeView<'_>,
    named: &ValueMap,
    one: KeyView<'_>,
    bytes: &[u8],
) -> Result<Attribute, Refusal>
    ensures ok { IfOk result (λ part. part ≡ record { key = attribute.now.key; stored = record { spelling = attribute.now.stored.spelling; values = with_each attribute.now.stored.values (fin.insert fin.empty (lent_key one.entry) bytes.now) (fin.entries named.now) } }) }
    ensures memory { IfErr result (λ e. e ≡ refusal.Memory) }
{
    let mut values = only_value(alloc, one, bytes)?;
    add_those_named(alloc, attribute, named, &mut values)?;
    let Ok(description) = attribute.description().try_clone(alloc) else {
        return Err(Refusal::Memory);
    };
    Ok(Attribute::of(description, values))
}

/// This value alone.
fn only_value(alloc: Global, one: KeyView<'_>, bytes: &[u8]) -> Result<ValueMap, Refusal>
    ensures ok { IfOk result (λ values. values ≡ fin.insert fin.empty (lent_key one.entry) bytes.now) }
    ensures memory { IfErr result (λ e. e ≡ refusal.Memory) }
{
    let key = one.to_key(alloc)?;
    let mut values = ValueMap::empty(alloc);
    add_if_missing(alloc, &mut values, &key, bytes)?;
    Ok(values)
}

/// Adds the values of the attribute that are named, if they are missing.
fn add_those_named(
    alloc: Global,
    attribute: &AttributeView<'_>,
    named: &ValueMap,
    values: &mut ValueMap,
) -> Result<(), Refusal>
    ensures ok { OnOk result (values.new ≡ with_each attribute.now.stored.values values.old (fin.entries named.now)) }
    ensures memory { IfErr result (λ e. e ≡ refusal.Memory) }
{
    for (key, _) in named.iter() {
        if let Some(bytes) = attribute.get(key) {
            add_if_missing(alloc, values, key, bytes)?;
        }
    }
    Ok(())
}
