//! The modifications that lead from one attribute, or some, to others.

ghost use Rattle.std.specs.Prelude.{◌≡◌, ◌++◌, IfErr, IfOk, IfSome, IsTrue, OnOk, Some, [], ◌∷◌, map};
ghost use Rattle.std.specs.Option.{option_map};
ghost use Rattle.std.specs.FinMap as fin;
ghost use Rattle.std.specs.List.Sorted.{IsPermutation};
ghost use Rattle.dir_names.specs.Attr.{Attr};
ghost use Rattle.dir_names.specs.Orders.{attr_cmp};
ghost use Rattle.dir_names.specs.Sorted.{rises, set_of, with_member};
ghost use Rattle.dir_change.specs.Difference.{bytes_of, difference_at, has_exactly, modification, modification_if_any, slot_difference, values_missing_in};
ghost use Rattle.dir_change.specs.declared.refusal.Refusal.TheVariants as refusal;

use crate::Refusal;
use dir_ldif::{Mod, ModOp};
use dir_names::{AttrKey, Bytes, Description, Texts, ValueKey};
use dir_tree::{Attribute, AttributeMap};
use std::alloc::Global;

/// The keys of more modifications than this are sorted before they are put together: then each comes after those before it, and
/// moves none of them. Of fewer, it takes longer to sort them than to move some.
const MOST_UNSORTED_MODS: usize = 64;

/// The modifications that lead from some attributes to others, at these keys. The values that an attribute
/// keeps are not repeated.
pub(crate) fn difference(
    alloc: Global,
    keys: &[AttrKey],
    from: &AttributeMap,
    to: &AttributeMap,
) -> Result<Vec<Mod>, Refusal>
    ensures ok { IfOk result (λ mods. mods.items ≡ difference_at keys.now from.now to.now) }
    ensures memory { IfErr result (λ e. e ≡ refusal.Memory) }
{
    let mut mods = Vec::new(alloc);
    for key in keys {
        push_difference(alloc, &mut mods, from.get(key), to.get(key))?;
    }
    Ok(mods)
}

/// The keys that modifications name, in order, each once.
pub(crate) fn named_keys(alloc: Global, mods: &[Mod]) -> Result<Vec<AttrKey>, Refusal>
    ensures ok { IfOk result (λ keys. keys.items ≡ set_of attr_cmp (map (λ m. m.description.key) mods.now)) }
    ensures memory { IfErr result (λ e. e ≡ refusal.Memory) }
{
    if mods.len() > MOST_UNSORTED_MODS {
        return distinct_keys(alloc, sorted_keys(alloc, mods)?.as_slice());
    }
    let mut keys = Vec::new(alloc);
    for m in mods {
        insert_key(alloc, &mut keys, m.description.key())?;
    }
    Ok(keys)
}

/// The keys that modifications name, sorted.
fn sorted_keys(alloc: Global, mods: &[Mod]) -> Result<Vec<AttrKey>, Refusal>
    ensures ok { IfOk result (λ keys. IsPermutation (map (λ m. m.description.key) mods.now) keys.items) }
    ensures memory { IfErr result (λ e. e ≡ refusal.Memory) }
{
    let mut keys = keys_of(alloc, mods)?;
    keys.sort_unstable();
    Ok(keys)
}

/// The key of each modification.
fn keys_of(alloc: Global, mods: &[Mod]) -> Result<Vec<AttrKey>, Refusal>
    ensures ok { IfOk result (λ keys. keys.items ≡ map (λ m. m.description.key) mods.now) }
    ensures memory { IfErr result (λ e. e ≡ refusal.Memory) }
{
    let mut keys = Vec::with_capacity(alloc, mods.len())?;
    for m in mods {
        let Ok(key) = m.description.key().try_clone(alloc) else {
            return Err(Refusal::Memory);
        };
        keys.push(key)?;
    }
    Ok(keys)
}

/// These keys in order, each once.
fn distinct_keys(alloc: Global, all: &[AttrKey]) -> Result<Vec<AttrKey>, Refusal>
    ensures ok { IfOk result (λ keys. keys.items ≡ set_of attr_cmp all.now) }
    ensures memory { IfErr result (λ e. e ≡ refusal.Memory) }
{
    let mut keys = Vec::new(alloc);
    for key in all {
        insert_key(alloc, &mut keys, key)?;
    }
    Ok(keys)
}

pub(crate) fn insert_key(
    alloc: Global,
    keys: &mut Vec<AttrKey>,
    key: &AttrKey,
) -> Result<(), Refusal>
    requires { IsTrue (rises attr_cmp keys.old.items) }
    ensures ok { OnOk result (keys.new.items ≡ with_member attr_cmp key.now keys.old.items) }
    ensures memory { IfErr result (λ e. e ≡ refusal.Memory) }
{
    if let Err(at) = keys.binary_search(key) {
        let Ok(key) = key.try_clone(alloc) else {
            return Err(Refusal::Memory);
        };
        keys.insert(at, key)?;
    }
    Ok(())
}

/// Appends the modifications that lead from one attribute to another of the same key.
fn push_difference(
    alloc: Global,
    mods: &mut Vec<Mod>,
    from: Option<&Attribute>,
    to: Option<&Attribute>,
) -> Result<(), Refusal>
    ensures ok { OnOk result ((k : Attr) → IfSome from.entry (λ a. a.now.key ≡ k) → IfSome to.entry (λ b. b.now.key ≡ k) →
        mods.new.items ≡ mods.old.items ++ slot_difference k (option_map (λ a. a.now.stored) from.entry) (option_map (λ b. b.now.stored) to.entry)) }
    ensures memory { IfErr result (λ e. e ≡ refusal.Memory) }
{
    match (from, to) {
        (None, None) => Ok(()),
        (Some(gone), None) => push(
            alloc,
            mods,
            gone.description(),
            ModOp::Delete,
            Vec::new(alloc),
        ),
        (None, Some(new)) => push(
            alloc,
            mods,
            new.description(),
            ModOp::Add,
            all_values(alloc, new)?,
        ),
        (Some(from), Some(to)) => push_exchange(alloc, mods, from, to),
    }
}

/// Appends the modifications that lead from one attribute to another that is there too.
fn push_exchange(
    alloc: Global,
    mods: &mut Vec<Mod>,
    from: &Attribute,
    to: &Attribute,
) -> Result<(), Refusal>
    ensures ok { OnOk result (from.now.key ≡ to.now.key →
        mods.new.items ≡ mods.old.items ++ slot_difference to.now.key (Some from.now.stored) (Some to.now.stored)) }
    ensures memory { IfErr result (λ e. e ≡ refusal.Memory) }
{
    let description = to.description();
    if from.description().spelling() != description.spelling() {
        return push(
            alloc,
            mods,
            description,
            ModOp::Replace,
            all_values(alloc, to)?,
        );
    }
    let gone = missing_values(alloc, from, to)?;
    push_if_any(alloc, mods, description, ModOp::Delete, gone)?;
    let new = missing_values(alloc, to, from)?;
    push_if_any(alloc, mods, description, ModOp::Add, new)
}

fn push(
    alloc: Global,
    mods: &mut Vec<Mod>,
    description: &Description,
    op: ModOp,
    values: Vec<Bytes>,
) -> Result<(), Refusal>
    ensures ok { OnOk result (mods.new.items ≡ mods.old.items ++ modification description.now.key description.now.spelling op values.items ∷ []) }
    ensures memory { IfErr result (λ e. e ≡ refusal.Memory) }
{
    let Ok(description) = description.try_clone(alloc) else {
        return Err(Refusal::Memory);
    };
    mods.push(Mod {
        op,
        description,
        values: Texts::new(values),
    })?;
    Ok(())
}

fn push_if_any(
    alloc: Global,
    mods: &mut Vec<Mod>,
    description: &Description,
    op: ModOp,
    values: Vec<Bytes>,
) -> Result<(), Refusal>
    ensures ok { OnOk result (mods.new.items ≡ mods.old.items ++ modification_if_any description.now.key description.now.spelling op values.items) }
    ensures memory { IfErr result (λ e. e ≡ refusal.Memory) }
{
    if values.is_empty() {
        Ok(())
    } else {
        push(alloc, mods, description, op, values)
    }
}

fn all_values(alloc: Global, attribute: &Attribute) -> Result<Vec<Bytes>, Refusal>
    ensures ok { IfOk result (λ values. values.items ≡ bytes_of (fin.entries attribute.now.stored.values)) }
    ensures memory { IfErr result (λ e. e ≡ refusal.Memory) }
{
    let mut values = Vec::new(alloc);
    for (_, bytes) in attribute.values() {
        let Ok(bytes) = bytes.try_clone(alloc) else {
            return Err(Refusal::Memory);
        };
        values.push(bytes)?;
    }
    Ok(values)
}

/// The values of an attribute that another has not with the same bytes.
fn missing_values(
    alloc: Global,
    attribute: &Attribute,
    other: &Attribute,
) -> Result<Vec<Bytes>, Refusal>
    ensures ok { IfOk result (λ values. values.items ≡ bytes_of (values_missing_in attribute.now.stored.values other.now.stored.values)) }
    ensures memory { IfErr result (λ e. e ≡ refusal.Memory) }
{
    let mut values = Vec::new(alloc);
    for (key, bytes) in attribute.values() {
        if !has_exactly(other, key, bytes) {
            let Ok(bytes) = bytes.try_clone(alloc) else {
                return Err(Refusal::Memory);
            };
            values.push(bytes)?;
        }
    }
    Ok(values)
}

/// Whether the attribute has the value with these bytes.
fn has_exactly(attribute: &Attribute, key: &ValueKey, bytes: &Bytes) -> bool
    ensures { result ≡ has_exactly attribute.now.stored.values (key.now, bytes.now) }
{
    match attribute.get(key) {
        Some(other) => bytes == other,
        None => false,
    }
}
