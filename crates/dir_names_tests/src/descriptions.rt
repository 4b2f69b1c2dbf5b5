//! Attribute descriptions, and the types of the built-in table.

use crate::make::{
    Case, attr_key, check, copy_of, description, description_fault, each, fields, is_fault, schema,
};
use crate::types::is_told;
use dir_names::{AttrKey, Description, Schema};
use std::alloc::Global;
use std::process::Abort;

/// Descriptions with the same type and options.
static EQUAL: [&str; 4] = [
    "CommonName;lang-en | cn;lang-en",
    "2.5.4.3 | cn",
    "commonName | CN",
    "cn;x-b;x-a;X-B | CN;X-A;x-b",
];

#[test]
fn a_description_has_its_spelling_and_the_key_of_its_type_and_options(rt: HostRuntime) {
    each::<IsEqual>(&rt, rt.alloc(), &EQUAL);
}

struct IsEqual;

impl Case for IsEqual {
    fn holds(rt: &impl Abort, alloc: Global, schema: &Schema, row: &str) -> bool {
        let [one, other, ..] = fields(row);
        is_spelled(
            &description(rt, alloc, schema, one),
            one,
            &attr_key(rt, alloc, schema, other),
        )
    }
}

/// Whether a description has this spelling and this key.
fn is_spelled(description: &Description, spelling: &str, key: &AttrKey) -> bool {
    description.spelling() == spelling.as_bytes() && *description.key() == *key
}

#[test]
fn a_key_tells_whether_it_has_options(rt: HostRuntime) {
    let schema = schema(&rt, rt.alloc());
    assert!(&rt; !attr_key(&rt, rt.alloc(), &schema, "commonName").has_options());
    assert!(&rt; attr_key(&rt, rt.alloc(), &schema, "x-unknown;lang-en").has_options());
}

/// Descriptions, whether the first covers the second, and whether the second covers the first.
static COVERS: [&str; 12] = [
    "cn | CommonName;lang-en | yes | no",
    "cn;x-a | cn;x-b;lang-en;x-a | yes | no",
    "cn;x-b;x-a | cn;X-A;x-b | yes | yes",
    "cn;lang-e | cn;lang-en | no | no",
    "x-unknown;a | X-Unknown;b;A | yes | no",
    "cn | commonName | yes | yes",
    "x-unknown | X-Unknown | yes | yes",
    "cn | sn | no | no",
    "cn | x-unknown | no | no",
    "cn;x-aaaaaaaaaaaaaaaaa | CN;X-AAAAAAAAAAAAAAAAA | yes | yes",
    "cn;x-aaaaaaaaaaaaaaaaa | cn;x-aaaaaaaaaaaaaaaab | no | no",
    "cn;x-aaaaaaaaaaaaaa | cn;x-aaaaaaaaaaaaaaa | no | no",
];

#[test]
fn a_description_covers_those_of_its_type_with_its_options(rt: HostRuntime) {
    each::<IsCovered>(&rt, rt.alloc(), &COVERS);
}

/// They are equal where each covers the other.
struct IsCovered;

impl Case for IsCovered {
    fn holds(rt: &impl Abort, alloc: Global, schema: &Schema, row: &str) -> bool {
        let [one, other, covers, is_covered, ..] = fields(row);
        let one = attr_key(rt, alloc, schema, one);
        let other = attr_key(rt, alloc, schema, other);
        are_covered(&one, &other, covers == "yes", is_covered == "yes")
    }
}

/// Whether the first covers the second or not, and the second the first; they are equal where both is so.
fn are_covered(one: &AttrKey, other: &AttrKey, covers: bool, is_covered: bool) -> bool {
    one.covers(other) == covers
        && other.covers(one) == is_covered
        && (*one == *other) == (covers && is_covered)
}

/// Descriptions, of which the first comes first: by type, then by the options from the first on, a shorter list before those that it begins.
/// Options that are alike in their first 15, 16 or more bytes are among them.
static ORDERED: [&str; 13] = [
    "cn | cn;lang-en",
    "cn;lang-en | cn;lang-en;x-a",
    "cn;x-b | sn;x-a",
    "cn;x-b | x-unknown;x-a",
    "x-unknown;a | X-Unknown;b",
    "cn;a;b | cn;a-",
    "cn;a0 | cn;aa",
    "cn;x-aaaaaaaaaaaaa | cn;x-aaaaaaaaaaaaaa",
    "cn;x-aaaaaaaaaaaaaa | cn;x-aaaaaaaaaaaaaaa",
    "cn;x-aaaaaaaaaaaaaa | cn;x-aaaaaaaaaaaaab",
    "cn;x-aaaaaaaaaaaaaaaaa | cn;x-aaaaaaaaaaaaaaaab",
    "cn;x-aaaaaaaaaaaaaa;x-c | cn;x-aaaaaaaaaaaaaa;x-d",
    "cn;x-aaaaaaaaaaaaaaa;x-c | cn;x-aaaaaaaaaaaaaab;x-b",
];

#[test]
fn keys_are_in_the_order_of_their_types_and_options(rt: HostRuntime) {
    each::<IsBefore>(&rt, rt.alloc(), &ORDERED);
}

struct IsBefore;

impl Case for IsBefore {
    fn holds(rt: &impl Abort, alloc: Global, schema: &Schema, row: &str) -> bool {
        let [one, other, ..] = fields(row);
        let one = attr_key(rt, alloc, schema, one);
        let other = attr_key(rt, alloc, schema, other);
        one < other && other > one && one != other
    }
}

/// Texts, and the fault of each that is not read as a description.
static READ: [&str; 17] = [
    "1.2 | ",
    "0.0.1 | ",
    "x-y- | ",
    "a1 | ",
    "dn | ReservedName",
    "1cn | BadDescription",
    "cn; | BadDescription",
    "control;x-a | ReservedName",
    "control;x_a | BadDescription",
    "1 | BadDescription",
    "1.02 | BadDescription",
    "1..2 | BadDescription",
    ".1 | BadDescription",
    "1. | BadDescription",
    "-a | BadDescription",
    "a b | BadDescription",
    " | BadDescription",
];

#[test]
fn only_descriptions_are_read(rt: HostRuntime) {
    each::<IsRead>(&rt, rt.alloc(), &READ);
}

struct IsRead;

impl Case for IsRead {
    fn holds(rt: &impl Abort, alloc: Global, schema: &Schema, row: &str) -> bool {
        let [text, want, ..] = fields(row);
        is_fault(
            rt,
            alloc,
            description_fault(rt, alloc, schema, text.as_bytes()),
            want,
        )
    }
}

/// Types, with their rules, whether they are known, and whether an attribute takes one value or many (RFC 4519, 4524,
/// 2798, 2307 and 4512).
static TYPES: [&str; 12] = [
    "cn | CaseIgnore known many",
    "countryName | CaseIgnore known one",
    "displayName | CaseIgnore known one",
    "mail | Ia5CaseIgnore known many",
    "domainComponent | Ia5CaseIgnore known one",
    "telephoneNumber | Telephone known many",
    "2.5.4.31 | Name known many",
    "userPassword | Octet known many",
    "uidNumber | Integer known one",
    "homeDirectory | Ia5CaseExact known one",
    "objectClass | ObjectId known many",
    "x-unknown | Octet unknown many",
];

#[test]
fn types_have_the_rules_of_their_standards(rt: HostRuntime) {
    each::<IsTold>(&rt, rt.alloc(), &TYPES);
}

/// Descriptions of types in the table and outside it.
static KNOWN: [&str; 8] = [
    "cn | CaseIgnore known many",
    "USERID | CaseIgnore known many",
    "2.5.4.31 | Name known many",
    "userPassword | Octet known many",
    "mail;lang-en | Ia5CaseIgnore known many",
    "gn | Octet unknown many",
    "name | Octet unknown many",
    "x-unknown;binary | Octet unknown many",
];

#[test]
fn types_outside_the_table_are_not_known(rt: HostRuntime) {
    each::<IsTold>(&rt, rt.alloc(), &KNOWN);
}

/// A schema says this of a type, and so does its copy.
struct IsTold;

impl Case for IsTold {
    fn holds(rt: &impl Abort, alloc: Global, schema: &Schema, row: &str) -> bool {
        let [text, want, ..] = fields(row);
        is_told_twice(rt, alloc, schema, &attr_key(rt, alloc, schema, text), want)
    }
}

fn is_told_twice(
    rt: &impl Abort,
    alloc: Global,
    schema: &Schema,
    key: &AttrKey,
    want: &str,
) -> bool {
    check(rt, is_told(rt, alloc, schema, key, want), want);
    is_told(rt, alloc, &copy_of(rt, alloc, schema), key, want)
}
