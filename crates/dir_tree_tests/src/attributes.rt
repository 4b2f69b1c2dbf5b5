//! What scripts do with a map of attributes and ask of it.

use crate::make::{check, described, keyed, made, map_count};
use crate::maps::Maps;
use crate::script::{Step, counts, says, split};
use crate::values::{are_all, values_answer, were_all};
use crate::views::one_value;
use dir_names::{AttrKey, Schema};
use dir_tree::{Attribute, AttributeMap, ValueMap};
use std::alloc::Global;
use std::process::Abort;

/// Whether a step has the answer that is wanted.
pub(crate) fn attributes_answer(
    rt: &impl Abort,
    alloc: Global,
    maps: &mut Maps,
    step: &Step<'_>,
) -> bool {
    match step.verb {
        "put" => put_line(rt, alloc, &maps.schema, &mut maps.attributes, step.given),
        "put-values" => put_values(rt, alloc, maps, step.given),
        "entry" => maps.attributes = map_made(rt, alloc, step.given),
        "copy" => keep_copies(rt, alloc, maps),
        "take" | "replace" | "replace-values" => {
            return changed(rt, alloc, &maps.schema, &mut maps.attributes, step);
        }
        _ => return asked(rt, alloc, maps, step),
    }
    step.want.is_empty()
}

/// Whether what is taken out or replaced is the answer.
fn changed(
    rt: &impl Abort,
    alloc: Global,
    schema: &Schema,
    attributes: &mut AttributeMap,
    step: &Step<'_>,
) -> bool {
    match step.verb {
        "replace" => has_replaced(rt, alloc, schema, attributes, step),
        "replace-values" => has_replaced_values(rt, alloc, schema, attributes, step),
        _ => says(
            step.want,
            is_taken_once(attributes, described(rt, alloc, schema, step.given).key()),
        ),
    }
}

/// Whether a question is answered so.
fn asked(rt: &impl Abort, alloc: Global, maps: &mut Maps, step: &Step<'_>) -> bool {
    match step.verb {
        "count" => counts(rt, alloc, step.want, map_count(&maps.attributes)),
        "in-order" => {
            are_in_order(&maps.attributes)
                && counts(rt, alloc, step.want, map_count(&maps.attributes))
        }
        "exceeds-single" => says(
            step.want,
            maps.attributes.exceeds_single_value(&maps.schema),
        ),
        "all-filled" => says(step.want, are_like(&maps.attributes, step.given, false)),
        "all-empty-of-copy" => says(step.want, are_like(&maps.attributes_copy, step.given, true)),
        "there" | "spelled" | "holds" | "has-text" => attribute_answers(rt, alloc, maps, step),
        _ => values_answer(rt, alloc, maps, step),
    }
}

/// Whether a question about an attribute is answered so.
fn attribute_answers(rt: &impl Abort, alloc: Global, maps: &Maps, step: &Step<'_>) -> bool {
    let (attr_type, text) = split(step.given, "=");
    let description = described(rt, alloc, &maps.schema, attr_type);
    key_answers(rt, alloc, maps, description.key(), step, text)
}

fn key_answers(
    rt: &impl Abort,
    alloc: Global,
    maps: &Maps,
    key: &AttrKey,
    step: &Step<'_>,
    text: &str,
) -> bool {
    match step.verb {
        "there" => says(step.want, maps.attributes.get(key).is_some()),
        "has-text" => says(step.want, maps.attributes.has_text(key, text.as_bytes())),
        _ => match maps.attributes.get(key) {
            Some(attribute) => found_answers(rt, alloc, &maps.schema, attribute, step),
            None => false,
        },
    }
}

/// Whether a question about an attribute that is there is answered so.
fn found_answers(
    rt: &impl Abort,
    alloc: Global,
    schema: &Schema,
    attribute: &Attribute,
    step: &Step<'_>,
) -> bool {
    if step.verb == "spelled" {
        return attribute.description().spelling() == step.want.as_bytes();
    }
    says(step.want, holds(rt, alloc, schema, attribute, step.given))
}

fn holds(
    rt: &impl Abort,
    alloc: Global,
    schema: &Schema,
    attribute: &Attribute,
    line: &str,
) -> bool {
    let (attr_type, text) = split(line, "=");
    attribute.has(&keyed(rt, alloc, schema, attr_type, text))
}

/// The attributes of the entry of a text, in memory of their own.
pub(crate) fn map_made(rt: &impl Abort, alloc: Global, text: &str) -> AttributeMap {
    made(rt, alloc, text).to_map(alloc).expect(rt, "memory")
}

/// Copies both maps.
fn keep_copies(rt: &impl Abort, alloc: Global, maps: &mut Maps) {
    maps.values_copy = maps.values.try_clone(alloc).expect(rt, "memory");
    maps.attributes_copy = maps.attributes.try_clone(alloc).expect(rt, "memory");
}

/// Puts in an attribute of this type that has the values, a copy of them.
fn put_values(rt: &impl Abort, alloc: Global, maps: &mut Maps, attr_type: &str) {
    let values = maps.values.try_clone(alloc).expect(rt, "memory");
    let description = described(rt, alloc, &maps.schema, attr_type);
    put(rt, &mut maps.attributes, Attribute::of(description, values));
}

fn put_line(
    rt: &impl Abort,
    alloc: Global,
    schema: &Schema,
    attributes: &mut AttributeMap,
    line: &str,
) {
    put(rt, attributes, attribute_of(rt, alloc, schema, line));
}

pub(crate) fn put(rt: &impl Abort, attributes: &mut AttributeMap, attribute: Attribute) {
    attributes.put(attribute).expect(rt, "memory");
}

/// The attribute of a line, as in `sn=a`, or one without values, as in `sn`.
pub(crate) fn attribute_of(
    rt: &impl Abort,
    alloc: Global,
    schema: &Schema,
    line: &str,
) -> Attribute {
    match line.split_once("=") {
        Some((attr_type, text)) => Attribute::of(
            described(rt, alloc, schema, attr_type),
            one_value(rt, alloc, schema, attr_type, text),
        ),
        None => Attribute::new(alloc, described(rt, alloc, schema, line)),
    }
}

/// Takes out the attribute of a key. Whether it was there.
pub(crate) fn is_taken(attributes: &mut AttributeMap, key: &AttrKey) -> bool {
    let Some(_taken) = attributes.take(key) else {
        return false;
    };
    true
}

/// Takes out the attribute of a key. Whether it was there, and is gone.
fn is_taken_once(attributes: &mut AttributeMap, key: &AttrKey) -> bool {
    is_taken(attributes, key) && !is_taken(attributes, key)
}

/// Whether the attribute of a line takes the place of one so spelled, with these values in this order.
fn has_replaced(
    rt: &impl Abort,
    alloc: Global,
    schema: &Schema,
    attributes: &mut AttributeMap,
    step: &Step<'_>,
) -> bool {
    let new = attribute_of(rt, alloc, schema, step.given);
    is_all(&exchange(rt, attributes, new), step.want)
}

/// Whether an attribute is so spelled, with these values in this order.
fn is_all(attribute: &Attribute, want: &str) -> bool {
    let (spelling, values) = split(want, " | ");
    attribute.description().spelling() == spelling.as_bytes() && are_all(attribute.values(), values)
}

/// Puts an attribute in the place of one that is there.
fn exchange(rt: &impl Abort, attributes: &mut AttributeMap, new: Attribute) -> Attribute {
    if attributes.get(new.description().key()).is_none() {
        panic!(rt; "not there");
    }
    attributes.replace(new)
}

/// Whether an attribute gets one value in the place of these.
fn has_replaced_values(
    rt: &impl Abort,
    alloc: Global,
    schema: &Schema,
    attributes: &mut AttributeMap,
    step: &Step<'_>,
) -> bool {
    let (attr_type, text) = split(step.given, "=");
    let new = one_value(rt, alloc, schema, attr_type, text);
    let description = described(rt, alloc, schema, attr_type);
    were_all(
        with_values(rt, attributes, description.key(), new),
        step.want,
    )
}

/// Gives an attribute that is there other values.
fn with_values(
    rt: &impl Abort,
    attributes: &mut AttributeMap,
    key: &AttrKey,
    values: ValueMap,
) -> ValueMap {
    if attributes.get(key).is_none() {
        panic!(rt; "not there");
    }
    attributes.replace_values(key, values)
}

/// Whether each attribute is below the next.
fn are_in_order(attributes: &AttributeMap) -> bool {
    let mut last: Option<&AttrKey> = None;
    for (key, _) in attributes.iter() {
        if last.is_some_and(|last| last >= key) {
            return false;
        }
        last = Some(key);
    }
    true
}

/// Whether all attributes have this type's spelling, and no values or some.
fn are_like(attributes: &AttributeMap, attr_type: &str, are_empty: bool) -> bool {
    for (_, attribute) in attributes.iter() {
        if !is_spelled(attribute, attr_type) || attribute.is_empty() != are_empty {
            return false;
        }
    }
    true
}

fn is_spelled(attribute: &Attribute, attr_type: &str) -> bool {
    attribute
        .description()
        .spelling()
        .starts_with(attr_type.as_bytes())
}
