//! Values and names of types that were added.

use crate::added_types::with_types;
use crate::make::{Case, check, each, fields, is_text, name};
use crate::parents::is_as_alone;
use crate::reading::{Reader, used_reader};
use crate::recent_parents::{FIRST_NAMES, Reading, assert_same, reading_after};
use dir_names::{Description, DnKey, NameFault, NameReader, Schema, ValueKey};
use std::alloc::Global;
use std::process::Abort;

/// Definitions as in a row of `added_types`, a type, a value of it, and the text of the value's key after `=` if it has one.
static VALUES: [&str; 11] = [
    " | room | a  1 | =a  1",
    "ROOM | room | A 1 | =a 1",
    "ROOM | roomName | a  1 | =a 1",
    " | level | 007 | =007",
    "LEVEL | level | 007 | ",
    "LEVEL | level | 7 | =7",
    "( 2.5.4.3 NAME 'fullName' ) | fullName |  Ann  LEE | =ann lee",
    " | mobile | +1 555-01 | =+1 555-01",
    "MOBILE | mobile | +1 555-01 | =+155501",
    "MOBILE | MobileTelephoneNumber | +1 555-01 | =+155501",
    "GECOS | gecos | Ann  LEE | =ann lee",
];

#[test]
fn values_are_compared_by_the_rule_that_was_added(rt: HostRuntime) {
    each::<Compared>(&rt, rt.alloc(), &VALUES);
}

/// The value has a key of this text, or none.
pub(crate) struct Compared;

impl Case for Compared {
    fn holds(rt: &impl Abort, alloc: Global, _schema: &Schema, row: &str) -> bool {
        let [_, attr_type, value, want, ..] = fields(row);
        let key = key_in(rt, alloc, &with_types(rt, alloc, row), attr_type, value);
        is_found(&key, want)
    }
}

fn is_found(key: &Result<ValueKey, NameFault>, want: &str) -> bool {
    match key {
        Ok(key) => !want.is_empty() && is_text(key.text(), want),
        Err(fault) => *fault == NameFault::BadValue && want.is_empty(),
    }
}

fn key_in(
    rt: &impl Abort,
    alloc: Global,
    schema: &Schema,
    attr_type: &str,
    value: &str,
) -> Result<ValueKey, NameFault> {
    let description = Description::read(alloc, schema, attr_type.as_bytes());
    let description = description.expect(rt, "a description");
    schema.value_key(alloc, description.key(), value.as_bytes())
}

/// Two names, and whether they are one under the built-in types, and where `ROOM` was added.
static NAMES: [&str; 8] = [
    "room=A 1,dc=com | room=a  1,dc=com | two | one",
    "room=A 1,dc=com | roomName=A 1,dc=com | two | one",
    "cn=a,room=A 1,dc=com | cn=a,room=a  1,dc=com | two | one",
    "cn=b,room=A 1,dc=com | CN=B,room=A 1,dc=com | one | one",
    "cn=c,room=A 1,dc=com | cn=c,roomName=a 1,dc=com | two | one",
    "room=b,cn=c,dc=com | room=B,cn=c,dc=com | two | one",
    "room=b,cn=c,dc=com | 1.3.6.1.4.1.32473.1=b,CN=C,dc=com | two | one",
    "cn=d,room=b,dc=com | cn=d,room=c,dc=com | two | two",
];

/// What names are read by: a reader and remembered names, each with the built-in types, and those types with `ROOM`.
#[derive(Drop)]
struct Readers {
    reader: Reader,
    reading: Reading,
    added: Schema,
}

fn make_readers(rt: &impl Abort, alloc: Global) -> Readers {
    Readers {
        reader: used_reader(rt, alloc),
        reading: reading_after(rt, alloc, FIRST_NAMES),
        added: with_types(rt, alloc, "ROOM"),
    }
}

#[test]
fn names_have_keys_by_the_schema_that_is_asked(rt: HostRuntime) {
    let mut readers = make_readers(&rt, rt.alloc());
    for _ in 0..3 {
        for row in &NAMES {
            assert_read(&rt, rt.alloc(), &mut readers, row);
            assert_remembered(&rt, rt.alloc(), &mut readers, row);
        }
    }
    drop(readers);
}

/// Asserts that a reader answers for both names as `Dn::read` does, and whether their keys are equal.
fn assert_read(rt: &impl Abort, alloc: Global, readers: &mut Readers, row: &str) {
    let [one, other, want, want_then, ..] = fields(row);
    let builtin = &readers.reader.schema;
    let names = &mut readers.reader.names;
    assert_names(rt, alloc, builtin, names, (one, other, want));
    assert_names(rt, alloc, &readers.added, names, (one, other, want_then));
}

fn assert_names(
    rt: &impl Abort,
    alloc: Global,
    schema: &Schema,
    names: &mut NameReader,
    (one, other, want): (&str, &str, &str),
) {
    check(rt, is_as_alone(alloc, schema, names, one.as_bytes()), one);
    check(
        rt,
        is_as_alone(alloc, schema, names, other.as_bytes()),
        other,
    );
    check(rt, count(rt, alloc, schema, one, other) == want, other);
}

/// How many names two names are.
fn count(rt: &impl Abort, alloc: Global, schema: &Schema, one: &str, other: &str) -> &'static str {
    if key_of(rt, alloc, schema, one) == key_of(rt, alloc, schema, other) {
        "one"
    } else {
        "two"
    }
}

fn key_of(rt: &impl Abort, alloc: Global, schema: &Schema, text: &str) -> DnKey {
    name(rt, alloc, text).key(alloc, schema).expect(rt, "a key")
}

/// Asserts that both names have the keys that they have where nothing was read before.
fn assert_remembered(rt: &impl Abort, alloc: Global, readers: &mut Readers, row: &str) {
    let [one, other, ..] = fields(row);
    let builtin = &readers.reading.schema;
    let recent = &mut readers.reading.names;
    assert_same(rt, alloc, builtin, recent, one.as_bytes());
    assert_same(rt, alloc, builtin, recent, other.as_bytes());
    assert_same(rt, alloc, &readers.added, recent, other.as_bytes());
    assert_same(rt, alloc, &readers.added, recent, one.as_bytes());
}
