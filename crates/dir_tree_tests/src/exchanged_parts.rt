//! Attributes of an entry exchanged for those of a part.

use crate::attributes::{attribute_of, is_taken, put};
use crate::entries::{changed, last_answers};
use crate::make::{check, description, made, map_count, schema, view_count};
use crate::script::{number_of, numbered, split, step_of};
use crate::views::are_bytes;
use dir_names::{AttrKey, Schema};
use dir_tree::{Attribute, AttributeMap, AttributeView, Entry, KeptAttributes};
use std::alloc::Global;
use std::process::Abort;

/// The attributes of an entry with those of a part in the place of those of some types, if that can be packed: as in
/// `title sn: title=Boss`, the types and the lines of the part.
pub(crate) fn with_part(
    rt: &impl Abort,
    alloc: Global,
    entry: &Entry,
    text: &str,
) -> Option<KeptAttributes> {
    let (types, lines) = split(text, ": ");
    let keys = keys_of(rt, alloc, types);
    let part = part_of(rt, alloc, &schema(rt, alloc), lines);
    entry.with_part(alloc, keys.as_slice(), &part)
}

fn keys_of(rt: &impl Abort, alloc: Global, types: &str) -> Vec<AttrKey> {
    let mut keys = Vec::new(alloc);
    for attr_type in types.split(' ') {
        keys.push(attr_key(rt, alloc, attr_type))
            .expect(rt, "memory");
    }
    keys
}

fn attr_key(rt: &impl Abort, alloc: Global, attr_type: &str) -> AttrKey {
    let key = description(rt, alloc, attr_type).key().try_clone(alloc);
    key.expect(rt, "memory")
}

fn part_of(rt: &impl Abort, alloc: Global, schema: &Schema, lines: &str) -> AttributeMap {
    let mut part = AttributeMap::empty(alloc);
    for line in lines.split(" | ") {
        put(rt, &mut part, attribute_of(rt, alloc, schema, line));
    }
    part
}

/// The entry with the attribute of a part. It must have that, and no others than before.
pub(crate) fn with_attribute(rt: &impl Abort, alloc: Global, entry: &Entry, part: &str) -> Entry {
    let changed = changed(rt, alloc, entry, part);
    let line = split(part, ": ").1;
    let holds = has_attributes(&changed, &exchanged(rt, alloc, entry, line));
    check(rt, holds, part);
    changed
}

/// The attributes of an entry in memory of their own, with that of a line in the place of the one of its key.
fn exchanged(rt: &impl Abort, alloc: Global, entry: &Entry, line: &str) -> AttributeMap {
    let mut attributes = entry.to_map(alloc).expect(rt, "memory");
    let new = attribute_of(rt, alloc, &schema(rt, alloc), line);
    let _ = is_taken(&mut attributes, new.description().key());
    put(rt, &mut attributes, new);
    attributes
}

/// Whether an entry has the attributes of a map, and no others.
fn has_attributes(entry: &Entry, attributes: &AttributeMap) -> bool {
    for (key, attribute) in attributes.iter() {
        match entry.attribute(key) {
            Some(found) => {
                if !is_like(&found, attribute) {
                    return false;
                }
            }
            None => return false,
        }
    }
    view_count(entry.attributes()) == map_count(attributes)
}

/// Whether an attribute is spelled as another, with the same values. None has more than two.
fn is_like(found: &AttributeView<'_>, attribute: &Attribute) -> bool {
    for (value, bytes) in attribute.values() {
        if !are_bytes(found.get(value), bytes.as_slice()) {
            return false;
        }
    }
    found.description() == attribute.description() && found.has_many() == attribute.has_many()
}

/// How many values an entry has, and how many bytes of text: whether it is small, and whether there is a packed entry with the
/// new value of an attribute that it lacks or has.
static SIZES: [&str; 11] = [
    "64 1000: small -> yes",
    "65 1000: small -> no",
    "3 65535: small -> yes",
    "3 65536: small -> no",
    "63 1000: takes-part title: title=t -> yes",
    "64 1000: takes-part title: title=t -> no",
    "64 1000: takes-part cn: cn=b -> yes",
    "3 65534: takes-part title: title=t -> yes",
    "3 65535: takes-part title: title=t -> no",
    "3 65534: takes-part cn: cn=bc -> yes",
    "3 65535: takes-part cn: cn=bc -> no",
];

/// An entry that grows too large is left to be changed in place.
#[test]
fn a_small_entry_has_few_values_and_little_text(rt: HostRuntime) {
    for row in &SIZES {
        check(&rt, sized_answers(&rt, rt.alloc(), row), row);
    }
}

/// Whether the question of a row is answered so by an entry of its size.
fn sized_answers(rt: &impl Abort, alloc: Global, row: &str) -> bool {
    let (size, asked) = split(row, ": ");
    last_answers(rt, alloc, sized(rt, alloc, size), &step_of(asked))
}

/// An entry with this many values, of so many bytes together, which are keys themselves.
fn sized(rt: &impl Abort, alloc: Global, size: &str) -> Entry {
    let (values, size) = split(size, " ");
    let text = sized_text(rt, alloc, number_of(rt, values), number_of(rt, size));
    made(rt, alloc, text.as_str())
}

fn sized_text(rt: &impl Abort, alloc: Global, values: usize, size: usize) -> String {
    let mut text = String::from_str(alloc, "cn=a").expect(rt, "memory");
    for number in 2..values {
        append(
            rt,
            &mut text,
            numbered(rt, alloc, " | x=#", number).as_str(),
        );
    }
    append(rt, &mut text, " | long=");
    let others = values.saturating_sub(2).saturating_mul(5);
    for _ in others.saturating_add(1)..size {
        append(rt, &mut text, "a");
    }
    text
}

fn append(rt: &impl Abort, text: &mut String, piece: &str) {
    text.push_str(piece).expect(rt, "memory");
}
