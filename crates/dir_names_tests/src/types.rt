//! Each name of a built-in type, and texts that name none.

use crate::make::{Case, attr_key, check, copy_of, each, fields, shows};
use dir_names::{AttrKey, Description, Schema};
use std::alloc::Global;
use std::process::Abort;

/// All texts that name a built-in type, those of a type in a row (RFC 4519, 4524, 2798, 2307 and 4512). The first name
/// comes first, and once more where there are only two.
static TYPES: [&str; 27] = [
    "cn | 2.5.4.3 | commonName",
    "sn | 2.5.4.4 | surname",
    "c | 2.5.4.6 | countryName",
    "l | 2.5.4.7 | localityName",
    "st | 2.5.4.8 | st",
    "street | 2.5.4.9 | street",
    "o | 2.5.4.10 | organizationName",
    "ou | 2.5.4.11 | organizationalUnitName",
    "title | 2.5.4.12 | title",
    "description | 2.5.4.13 | description",
    "givenName | 2.5.4.42 | givenName",
    "uid | 0.9.2342.19200300.100.1.1 | userid",
    "displayName | 2.16.840.1.113730.3.1.241 | displayName",
    "employeeNumber | 2.16.840.1.113730.3.1.3 | employeeNumber",
    "mail | 0.9.2342.19200300.100.1.3 | mail",
    "dc | 0.9.2342.19200300.100.1.25 | domainComponent",
    "telephoneNumber | 2.5.4.20 | telephoneNumber",
    "member | 2.5.4.31 | member",
    "owner | 2.5.4.32 | owner",
    "seeAlso | 2.5.4.34 | seeAlso",
    "manager | 0.9.2342.19200300.100.1.10 | manager",
    "userPassword | 2.5.4.35 | userPassword",
    "uidNumber | 1.3.6.1.1.1.1.0 | uidNumber",
    "gidNumber | 1.3.6.1.1.1.1.1 | gidNumber",
    "homeDirectory | 1.3.6.1.1.1.1.3 | homeDirectory",
    "loginShell | 1.3.6.1.1.1.1.4 | loginShell",
    "objectClass | 2.5.4.0 | objectClass",
];

/// Texts that name no type: before all names in order, after all, just before and just after one of them, and between.
static OTHERS: [&str; 16] = [
    "0.0",
    "0.9.2342.19200300.100.1",
    "0.9.2342.19200300.100.1.11",
    "1.2",
    "2.5.4.7.1",
    "2.5.4.1",
    "2.5.4.99",
    "b",
    "cm",
    "cnn",
    "commonNam",
    "commonNames",
    "mai",
    "uie",
    "userPasswords",
    "z",
];

#[test]
fn each_name_of_a_type_means_it_in_any_case(rt: HostRuntime) {
    each::<Named>(&rt, rt.alloc(), &TYPES);
}

/// Each text of a row names the type of the first, which is known, under the built-in types and under a copy of them.
struct Named;

impl Case for Named {
    fn holds(rt: &impl Abort, alloc: Global, schema: &Schema, row: &str) -> bool {
        is_type(rt, alloc, schema, row, true)
    }
}

#[test]
fn another_text_means_a_type_of_its_own(rt: HostRuntime) {
    each::<Unknown>(&rt, rt.alloc(), &OTHERS);
}

/// The text names a type that is not known, under the built-in types and under a copy of them.
struct Unknown;

impl Case for Unknown {
    fn holds(rt: &impl Abort, alloc: Global, schema: &Schema, row: &str) -> bool {
        is_type(rt, alloc, schema, row, false)
    }
}

fn is_type(rt: &impl Abort, alloc: Global, schema: &Schema, row: &str, is_known: bool) -> bool {
    let [name, ..] = fields(row);
    let key = attr_key(rt, alloc, schema, name);
    check(rt, all_mean(rt, alloc, schema, row, &key, is_known), row);
    all_mean(rt, alloc, &copy_of(rt, alloc, schema), row, &key, is_known)
}

/// Whether the type of a key is known or not, and is what the texts of a row mean.
fn all_mean(
    rt: &impl Abort,
    alloc: Global,
    schema: &Schema,
    row: &str,
    key: &AttrKey,
    is_known: bool,
) -> bool {
    let [one, two, three, ..] = fields(row);
    schema.knows(key) == is_known
        && means(rt, alloc, schema, one, key)
        && (two.is_empty() || means(rt, alloc, schema, two, key))
        && (three.is_empty() || means(rt, alloc, schema, three, key))
}

#[test]
fn names_of_two_types_mean_two(rt: HostRuntime) {
    each::<Apart>(&rt, rt.alloc(), &TYPES);
}

/// The texts of this row have the key of each of them, and those of the other rows do not.
struct Apart;

impl Case for Apart {
    fn holds(rt: &impl Abort, alloc: Global, schema: &Schema, row: &str) -> bool {
        let [one, two, three, ..] = fields(row);
        check(rt, is_apart(rt, alloc, schema, row, one), one);
        check(rt, is_apart(rt, alloc, schema, row, two), two);
        is_apart(rt, alloc, schema, row, three)
    }
}

fn is_apart(rt: &impl Abort, alloc: Global, schema: &Schema, row: &str, text: &str) -> bool {
    are_apart(rt, alloc, schema, row, &attr_key(rt, alloc, schema, text))
}

fn are_apart(rt: &impl Abort, alloc: Global, schema: &Schema, row: &str, key: &AttrKey) -> bool {
    let mut are_apart = true;
    for other in &TYPES {
        are_apart = are_apart && have_key(rt, alloc, schema, other, key, *other == row);
    }
    are_apart
}

/// Whether all texts of a row have this key, or none has it.
fn have_key(
    rt: &impl Abort,
    alloc: Global,
    schema: &Schema,
    row: &str,
    key: &AttrKey,
    want: bool,
) -> bool {
    let [one, two, three, ..] = fields(row);
    has_key(rt, alloc, schema, one.as_bytes(), key) == want
        && has_key(rt, alloc, schema, two.as_bytes(), key) == want
        && has_key(rt, alloc, schema, three.as_bytes(), key) == want
}

/// Whether the text as it is, in capitals and in lower case has this key.
pub(crate) fn means(
    rt: &impl Abort,
    alloc: Global,
    schema: &Schema,
    text: &str,
    key: &AttrKey,
) -> bool {
    let bytes = text.as_bytes();
    let capitals = bytes.to_ascii_uppercase(alloc).expect(rt, "memory");
    let lower = bytes.to_ascii_lowercase(alloc).expect(rt, "memory");
    check(rt, has_key(rt, alloc, schema, bytes, key), text);
    check(
        rt,
        has_key(rt, alloc, schema, capitals.as_slice(), key),
        text,
    );
    has_key(rt, alloc, schema, lower.as_slice(), key)
}

fn has_key(rt: &impl Abort, alloc: Global, schema: &Schema, text: &[u8], key: &AttrKey) -> bool {
    let description = Description::read(alloc, schema, text);
    *description.expect(rt, "a description").key() == *key
}

/// Whether a schema says of a type what is told: its rule, whether it is known, and whether an attribute takes one value
/// or many.
pub(crate) fn is_told(
    rt: &impl Abort,
    alloc: Global,
    schema: &Schema,
    key: &AttrKey,
    want: &str,
) -> bool {
    let rule = schema.rule(key);
    let known = if schema.knows(key) {
        "known"
    } else {
        "unknown"
    };
    let values = if schema.single(key) { "one" } else { "many" };
    shows(rt, format!(in alloc; "{rule:?} {known} {values}"), want)
}
