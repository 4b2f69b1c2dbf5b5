//! Copies, and lists of what they are made of.

use crate::make::{
    Case, are, check, description, each, fields, gives, gives_text, name, name_key, rdn, rdn_key,
    value_key,
};
use dir_names::{Bytes, Description, Lines, Rdn, RdnKey, Schema, Texts};
use std::alloc::Global;
use std::process::Abort;

/// What is copied.
static COPIED: [&str; 7] = [
    "name | ou=a,dc=com",
    "RDN | SN=B+cn=A",
    "description | cn;x-a",
    "value | cn;x-a | A",
    "value | member | cn=a",
    "texts | a | b",
    "lines | CN;lang-en | Ann",
];

#[test]
fn copies_are_equal_to_what_is_copied(rt: HostRuntime) {
    each::<IsCopied>(&rt, rt.alloc(), &COPIED);
}

/// A copy is equal to what is copied, and so is one of its key, where it has one.
struct IsCopied;

impl Case for IsCopied {
    fn holds(rt: &impl Abort, alloc: Global, schema: &Schema, row: &str) -> bool {
        let [kind, text, value, ..] = fields(row);
        match kind {
            "name" => is_name_copied(rt, alloc, schema, text),
            "RDN" => is_rdn_copied(rt, alloc, schema, &rdn(rt, alloc, text), text),
            "description" => is_description_copied(
                rt,
                alloc,
                &description(rt, alloc, schema, text),
            ),
            "value" => is_value_key_copied(rt, alloc, schema, text, value.as_bytes()),
            "texts" => are_texts_copied(rt, alloc, text, value),
            _ => are_lines_copied(rt, alloc, schema, text, value),
        }
    }
}

fn is_name_copied(rt: &impl Abort, alloc: Global, schema: &Schema, text: &str) -> bool {
    let name = name(rt, alloc, text);
    let key = name_key(rt, alloc, schema, text);
    check(rt, gives(rt, name.try_clone(alloc), &name), text);
    gives(rt, key.try_clone(alloc), &key)
}

fn is_rdn_copied(rt: &impl Abort, alloc: Global, schema: &Schema, rdn: &Rdn, text: &str) -> bool {
    let copy = rdn.try_clone(alloc).expect(rt, "memory");
    check(rt, copy == *rdn, text);
    check(rt, gives_text(rt, copy.print(alloc), text), text);
    is_rdn_key_copied(rt, alloc, &rdn_key(rt, alloc, schema, text))
}

fn is_rdn_key_copied(rt: &impl Abort, alloc: Global, key: &RdnKey) -> bool {
    let copy = key.try_clone(alloc).expect(rt, "memory");
    check(rt, copy.pairs().len() == 2, "two pairs");
    copy == *key
}

fn is_description_copied(rt: &impl Abort, alloc: Global, description: &Description) -> bool {
    gives(rt, description.try_clone(alloc), description)
        && gives(rt, description.key().try_clone(alloc), description.key())
}

fn is_value_key_copied(
    rt: &impl Abort,
    alloc: Global,
    schema: &Schema,
    attr: &str,
    value: &[u8],
) -> bool {
    let key = value_key(rt, alloc, schema, attr, value);
    gives(rt, key.try_clone(alloc), &key)
}

fn are_texts_copied(rt: &impl Abort, alloc: Global, first: &str, second: &str) -> bool {
    let texts = texts(rt, alloc, first, second);
    let copy = texts.try_clone(alloc).expect(rt, "memory");
    check(rt, copy == texts, first);
    are(
        copy.as_slice(),
        &bytes(rt, alloc, first),
        &bytes(rt, alloc, second),
    )
}

/// Two texts.
fn texts(rt: &impl Abort, alloc: Global, first: &str, second: &str) -> Texts {
    let mut items = Vec::new(alloc);
    items
        .push(copied_bytes(rt, alloc, first))
        .expect(rt, "memory");
    items
        .push(copied_bytes(rt, alloc, second))
        .expect(rt, "memory");
    Texts::new(items)
}

fn copied_bytes(rt: &impl Abort, alloc: Global, text: &str) -> Bytes {
    bytes(rt, alloc, text).try_clone(alloc).expect(rt, "memory")
}

fn bytes(rt: &impl Abort, alloc: Global, text: &str) -> Bytes {
    let bytes = Bytes::copy_of(alloc, text.as_bytes()).expect(rt, "memory");
    check(rt, bytes.as_slice() == text.as_bytes(), text);
    bytes
}

fn are_lines_copied(
    rt: &impl Abort,
    alloc: Global,
    schema: &Schema,
    spelling: &str,
    value: &str,
) -> bool {
    let lines = line(rt, alloc, schema, spelling, value);
    let copy = lines.try_clone(alloc).expect(rt, "memory");
    check(rt, copy == lines, spelling);
    is_one_line(copy.as_slice(), spelling, value)
}

/// The lines of one value.
fn line(rt: &impl Abort, alloc: Global, schema: &Schema, spelling: &str, value: &str) -> Lines {
    let mut items = Vec::new(alloc);
    let item = (
        description(rt, alloc, schema, spelling),
        bytes(rt, alloc, value),
    );
    items.push(item).expect(rt, "memory");
    Lines::new(items)
}

#[test]
fn lists_hold_what_they_are_made_of(rt: HostRuntime) {
    each::<HoldsItems>(&rt, rt.alloc(), &["cn | a value"]);
}

struct HoldsItems;

impl Case for HoldsItems {
    fn holds(rt: &impl Abort, alloc: Global, schema: &Schema, row: &str) -> bool {
        let [spelling, value, ..] = fields(row);
        let items = line(rt, alloc, schema, spelling, value).into_items();
        is_one_line(items.as_slice(), spelling, value)
    }
}

fn is_one_line(items: &[(Description, Bytes)], spelling: &str, value: &str) -> bool {
    match items {
        [item] => item.0.spelling() == spelling.as_bytes() && item.1.as_slice() == value.as_bytes(),
        _ => false,
    }
}
