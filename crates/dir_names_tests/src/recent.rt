//! The names that were last read as values.

use crate::make::{check, fields, is_fault, number, repeated, schema};
use crate::recent_parents::{Reading, assert_found, reading_after};
use dir_names::{DnSortKey, NameFault};
use std::alloc::Global;
use std::process::Abort;

/// Values that are read one after the other, of which some were read before: each a text, a second one so many times and
/// a last one, and its fault.
static NAMES: [&str; 10] = [
    "cn=a,dc=com",
    "cn=a,dc=com",
    "cn=b,dc=com",
    "cn=a,dc=com",
    "cn=b,dc=com",
    "CN=b, dc=com",
    "cn=c,dc=com",
    "cn=a,dc=com",
    "",
    "cn=c,dc=com",
];

/// A value without a key, which is not remembered, between two names.
static NO_KEY: [&str; 4] = [
    "cn=a,dc=com",
    "cn=a,dc:com |  |  |  | BadValue",
    "cn=a,dc:com |  |  |  | BadValue",
    "cn=a,dc=com",
];

/// Names of more than 512 bytes.
static LONG: [&str; 3] = [
    "cn= | a | 600 | b",
    "cn= | a | 600 | b",
    "cn= | a | 600 | c",
];

#[test]
fn a_name_has_its_key_again_and_what_has_none_is_not_remembered(rt: HostRuntime) {
    assert_read(&rt, rt.alloc(), reading_after(&rt, rt.alloc(), 0), &NAMES);
    assert_read(&rt, rt.alloc(), reading_after(&rt, rt.alloc(), 0), &NO_KEY);
}

#[test]
fn a_long_name_has_its_key_again(rt: HostRuntime) {
    assert_read(&rt, rt.alloc(), reading_after(&rt, rt.alloc(), 0), &LONG);
}

/// Asserts that each value has its fault, or the key that it has where nothing was read before and that of its name, read
/// under a schema of its own.
fn assert_read(rt: &impl Abort, alloc: Global, mut reading: Reading, rows: &[&str]) {
    for row in rows {
        reading.schema = schema(rt, alloc);
        check(rt, is_read(rt, alloc, &mut reading, row), row);
    }
    drop(reading);
}

fn is_read(rt: &impl Abort, alloc: Global, reading: &mut Reading, row: &str) -> bool {
    let [first, piece, count, last, want] = fields(row);
    let value = repeated(rt, alloc, first, piece, number(count), last);
    let got = reading.names.read(alloc, &reading.schema, value.as_slice());
    let fault = fault_of(&got);
    assert_found(rt, alloc, &reading.schema, got, value.as_slice());
    is_fault(rt, alloc, fault, want)
}

fn fault_of(got: &Result<DnSortKey, NameFault>) -> Option<NameFault> {
    match got {
        Ok(_) => None,
        Err(fault) => Some(*fault),
    }
}
