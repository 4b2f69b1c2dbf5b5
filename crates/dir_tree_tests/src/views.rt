//! What an entry lends of an attribute, as steps of scripts ask for it.

use crate::make::{bytes, description, key_of, keyed, schema, value};
use crate::script::{Step, counts, is_next, pieces, says, split};
use dir_names::{Bytes, Schema};
use dir_tree::{Attribute, AttributeView, Entry, KeyView, ValueMap};
use std::alloc::Global;
use std::process::Abort;

/// Whether a question about an attribute is answered so.
pub(crate) fn view_answers(
    rt: &impl Abort,
    alloc: Global,
    attribute: &AttributeView<'_>,
    step: &Step<'_>,
) -> bool {
    let (attr_type, text) = split(step.given, "=");
    match step.verb {
        "values" => has_values(attribute, step.want),
        "stored" => stores(rt, alloc, attribute, step),
        "named" => says(step.want, attribute.has_name(&key_of(rt, alloc, text))),
        "many" => says(step.want, attribute.has_many()),
        "length" => counts(rt, alloc, step.want, attribute.len()),
        "copied" => says(step.want, is_copied(rt, alloc, attribute)),
        "among" => are_among(rt, alloc, attribute, step),
        _ => false,
    }
}

/// Whether an attribute is so spelled, and these are the keys of its values, and their bytes.
fn has_values(attribute: &AttributeView<'_>, want: &str) -> bool {
    let mut pieces = pieces(want);
    if !is_next(&mut pieces, attribute.description().spelling()) {
        return false;
    }
    for (key, bytes) in attribute.values() {
        let text = key.text().unwrap_or(b"a name");
        if !is_next(&mut pieces, text) || !is_next(&mut pieces, bytes) {
            return false;
        }
    }
    pieces.is_none()
}

/// Whether the value with the key of a text is there, with these bytes.
fn stores(rt: &impl Abort, alloc: Global, attribute: &AttributeView<'_>, step: &Step<'_>) -> bool {
    let (attr_type, text) = split(step.given, "=");
    attribute.has(&value(rt, alloc, attr_type, text))
        && has_stored(rt, alloc, attribute, attr_type, text, step.want)
}

/// Whether the value with the key of a text has these bytes.
fn has_stored(
    rt: &impl Abort,
    alloc: Global,
    attribute: &AttributeView<'_>,
    attr_type: &str,
    text: &str,
    want: &str,
) -> bool {
    let stored = attribute.get(&value(rt, alloc, attr_type, text));
    are_bytes(stored, want.as_bytes())
}

/// Whether there are bytes, and they are these.
pub(crate) fn are_bytes(found: Option<&[u8]>, want: &[u8]) -> bool {
    match found {
        Some(found) => found == want,
        None => false,
    }
}

/// Whether a copy of an attribute has its values under their keys.
fn is_copied(rt: &impl Abort, alloc: Global, attribute: &AttributeView<'_>) -> bool {
    let copy = attribute.to_attribute(alloc).expect(rt, "memory");
    is_copy(rt, alloc, &copy, attribute)
}

fn is_copy(
    rt: &impl Abort,
    alloc: Global,
    copy: &Attribute,
    attribute: &AttributeView<'_>,
) -> bool {
    for (key, bytes) in attribute.values() {
        if !has_copy(rt, alloc, copy, key, bytes) {
            return false;
        }
    }
    copy.description() == attribute.description()
}

fn has_copy(
    rt: &impl Abort,
    alloc: Global,
    copy: &Attribute,
    key: KeyView<'_>,
    bytes: &[u8],
) -> bool {
    is_stored(copy.get(&key.to_key(alloc).expect(rt, "memory")), bytes)
}

/// Whether there is a value, with these bytes.
fn is_stored(found: Option<&Bytes>, want: &[u8]) -> bool {
    match found {
        Some(found) => found.as_slice() == want,
        None => false,
    }
}

/// Whether this says of each value whether its key, as it is lent, is that of a text.
fn are_among(
    rt: &impl Abort,
    alloc: Global,
    attribute: &AttributeView<'_>,
    step: &Step<'_>,
) -> bool {
    let (attr_type, text) = split(step.given, "=");
    let values = one_value(rt, alloc, &schema(rt, alloc), attr_type, text);
    has_lent(&values, attribute, step.want)
}

fn has_lent(values: &ValueMap, attribute: &AttributeView<'_>, want: &str) -> bool {
    let mut pieces = pieces(want);
    for (key, _) in attribute.values() {
        let told: &[u8] = if values.has_lent(key) { b"yes" } else { b"no" };
        if !is_next(&mut pieces, told) {
            return false;
        }
    }
    pieces.is_none()
}

/// The map of one value of this type.
pub(crate) fn one_value(
    rt: &impl Abort,
    alloc: Global,
    schema: &Schema,
    attr_type: &str,
    text: &str,
) -> ValueMap {
    let mut values = ValueMap::empty(alloc);
    let key = keyed(rt, alloc, schema, attr_type, text);
    values
        .insert(alloc, key, bytes(rt, alloc, text))
        .expect(rt, "a value");
    values
}

/// Whether an entry has these lines, as they are spelled. They may begin with its own RDN.
pub(crate) fn has_lines(rt: &impl Abort, alloc: Global, entry: &Entry, lines: &str) -> bool {
    for line in lines.split(" | ") {
        if !has_line(rt, alloc, entry, line) {
            return false;
        }
    }
    true
}

fn has_line(rt: &impl Abort, alloc: Global, entry: &Entry, line: &str) -> bool {
    let (attr_type, text) = split(line, "=");
    match view_of(rt, alloc, entry, attr_type) {
        Some(attribute) => has_spelled(rt, alloc, &attribute, attr_type, text),
        None => false,
    }
}

/// The attribute of this type, as an entry lends it.
pub(crate) fn view_of<'e>(
    rt: &impl Abort,
    alloc: Global,
    entry: &'e Entry,
    attr_type: &str,
) -> Option<AttributeView<'e>> {
    entry.attribute(description(rt, alloc, attr_type).key())
}

fn has_spelled(
    rt: &impl Abort,
    alloc: Global,
    attribute: &AttributeView<'_>,
    attr_type: &str,
    text: &str,
) -> bool {
    attribute.description().spelling() == attr_type.as_bytes()
        && has_stored(rt, alloc, attribute, attr_type, text, text)
}
