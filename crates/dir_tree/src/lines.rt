//! The attributes that the lines of an add give.

ghost use Rattle.std.specs.Prelude.{◌≡◌, IfErr, IfOk, IsTrue, OnOk, not, ok_or};
ghost use Rattle.std.specs.List.{filter};
ghost use Rattle.dir_names.specs.Attr.{Attr};
ghost use Rattle.dir_names.specs.declared.value.ValueKey.{ValueKey};
ghost use Rattle.dir_tree.specs.Inside.Arranged.{IsArranged, have_new_values, with_descriptions};
ghost use Rattle.dir_tree.specs.NewEntryLaw.{has_value_key, is_line_of};
ghost use Rattle.dir_tree.specs.NewEntry.{IsTwiceFaultOf, Makes, attributes_if_distinct, attributes_of, keyed_lines, with_lines};
ghost use Rattle.dir_tree.specs.declared.fault.EntryFault.TheVariants as EntryFault;

use crate::EntryFault;
use crate::attributes::AttributeMap;
use dir_names::{Bytes, Description, Lines, RecentNames, Schema, ValueKey};
use std::alloc::Global;

/// If an entry has more lines than this, they are sorted before they are added, so that each value goes
/// to the end of its attribute.
const MOST_UNSORTED_LINES: usize = 64;

/// A line of an entry with the key of its value.
#[derive(Drop)]
pub(crate) struct KeyedLine {
    description: Description,
    key: ValueKey,
    bytes: Bytes,
}

/// The attributes that a list of lines gives. A description is spelled as in its first line.
///
/// # Errors
///
/// `BadValue` if a value has no key; else `Twice` if two lines give an attribute one value.
pub(crate) fn attributes_of(
    alloc: Global,
    schema: &Schema,
    names: &mut RecentNames,
    lines: Lines,
) -> Result<AttributeMap, EntryFault>
    ensures { Makes (λ attributes. attributes) result (attributes_of schema.now lines) }
{
    attributes_if_distinct(alloc, keyed_lines(alloc, schema, names, lines)?)
}

fn keyed_lines(
    alloc: Global,
    schema: &Schema,
    names: &mut RecentNames,
    lines: Lines,
) -> Result<Vec<KeyedLine>, EntryFault>
    ensures { Makes (λ keyed. keyed.items) result (ok_or (keyed_lines schema.now lines) EntryFault.BadValue) }
{
    let items = lines.into_items();
    let mut keyed = Vec::with_capacity(alloc, items.len())?;
    for (description, bytes) in items {
        let key = names.value_key(alloc, schema, description.key(), bytes.as_slice())?;
        keyed.push(KeyedLine {
            description,
            key,
            bytes,
        })?;
    }
    Ok(keyed)
}

fn attributes_if_distinct(alloc: Global, lines: Vec<KeyedLine>) -> Result<AttributeMap, EntryFault>
    ensures { Makes (λ attributes. attributes) result (attributes_if_distinct lines.items) }
{
    let mut lines = lines;
    let mut attributes = AttributeMap::empty(alloc);
    if lines.len() > MOST_UNSORTED_LINES {
        attributes = sort_lines(alloc, &mut lines)?;
    }
    add_all(alloc, &mut attributes, lines)?;
    Ok(attributes)
}

/// Sorts the lines by the keys of their values. The answer is their descriptions, still without values,
/// each spelled as in its first line.
fn sort_lines(alloc: Global, lines: &mut Vec<KeyedLine>) -> Result<AttributeMap, EntryFault>
    ensures ok { IfOk result (λ attributes. IsArranged lines.old.items attributes lines.new.items) }
    ensures memory { IfErr result (λ e. e ≡ EntryFault.Memory) }
{
    let mut attributes = AttributeMap::empty(alloc);
    sort_by_description(lines)?;
    add_descriptions(alloc, &mut attributes, lines.as_slice())?;
    sort_by_value(lines)?;
    Ok(attributes)
}

fn sort_by_description(lines: &mut Vec<KeyedLine>) -> Result<(), EntryFault>
    ensures stable { (k : Attr) → filter (is_line_of k) lines.new.items ≡ filter (is_line_of k) lines.old.items }
    ensures memory { IfErr result (λ e. e ≡ EntryFault.Memory) }
{
    lines.sort_by(|a, b| a.description.key().cmp(b.description.key()))?;
    Ok(())
}

fn sort_by_value(lines: &mut Vec<KeyedLine>) -> Result<(), EntryFault>
    ensures stable { (v : ValueKey) → filter (has_value_key v) lines.new.items ≡ filter (has_value_key v) lines.old.items }
    ensures memory { IfErr result (λ e. e ≡ EntryFault.Memory) }
{
    lines.sort_by(|a, b| a.key.cmp(&b.key))?;
    Ok(())
}

/// Adds the descriptions of all lines, without values, each spelled as in its first line.
fn add_descriptions(
    alloc: Global,
    attributes: &mut AttributeMap,
    lines: &[KeyedLine],
) -> Result<(), EntryFault>
    ensures ok { OnOk result (attributes.new ≡ with_descriptions attributes.old lines.now) }
    ensures memory { IfErr result (λ e. e ≡ EntryFault.Memory) }
{
    for line in lines {
        attributes.add_description(alloc, &line.description)?;
    }
    Ok(())
}

/// Adds the value of each line.
fn add_all(
    alloc: Global,
    attributes: &mut AttributeMap,
    lines: Vec<KeyedLine>,
) -> Result<(), EntryFault>
    ensures ok { OnOk result (attributes.new ≡ with_lines attributes.old lines.items) }
    ensures free { OnOk result (IsTrue (have_new_values attributes.old lines.items)) }
    ensures fault { IfErr result (λ e. IsTwiceFaultOf e (not (have_new_values attributes.old lines.items))) }
{
    for line in lines {
        let KeyedLine {
            description,
            key,
            bytes,
        } = line;
        attributes.add(alloc, description, key, bytes)?;
    }
    Ok(())
}
