//! What the tests are made of, each read from its text.

use dir_names::{AttrKey, Description, Dn, DnKey, NameFault, Rdn, RdnKey, Schema, ValueKey};
use std::alloc::{AllocError, Global};
use std::process::Abort;

/// What is shown of each row of a table. A row is a text of fields (`fields`).
pub(crate) trait Case {
    fn holds(rt: &impl Abort, alloc: Global, schema: &Schema, row: &str) -> bool;
}

/// Ends the test at the first row for which this is not so. A test that only calls this costs a third of one with a
/// loop of its own.
pub(crate) fn each<C: Case>(rt: &impl Abort, alloc: Global, rows: &[&str]) {
    let schema = schema(rt, alloc);
    for row in rows {
        check(rt, C::holds(rt, alloc, &schema, row), row);
    }
}

/// The fields of a row, between which is ` | `: those that it does not have are empty.
pub(crate) fn fields(row: &str) -> [&str; 5] {
    let (first, row) = field(row);
    let (second, row) = field(row);
    let (third, row) = field(row);
    let (fourth, fifth) = field(row);
    [first, second, third, fourth, fifth]
}

/// The first field of a row, and the others.
fn field(row: &str) -> (&str, &str) {
    row.split_once(" | ").unwrap_or((row, ""))
}

/// The number that a field is. None is 0.
pub(crate) fn number(text: &str) -> usize {
    text.parse::<usize>().unwrap_or(0)
}

/// Whether this is the fault that a field says by its name, or none if the field is empty.
pub(crate) fn is_fault(
    rt: &impl Abort,
    alloc: Global,
    fault: Option<NameFault>,
    want: &str,
) -> bool {
    match fault {
        Some(fault) => shows(rt, format!(in alloc; "{fault:?}"), want),
        None => want.is_empty(),
    }
}

/// Whether this is the text that a field says after `=`, or none if the field is empty.
pub(crate) fn is_text(found: Option<&[u8]>, want: &str) -> bool {
    match (found, want.strip_prefix("=")) {
        (Some(found), Some(want)) => found == want.as_bytes(),
        (None, None) => want.is_empty(),
        _ => false,
    }
}

pub(crate) fn schema(rt: &impl Abort, alloc: Global) -> Schema {
    Schema::builtin(alloc).expect(rt, "memory")
}

pub(crate) fn copy_of(rt: &impl Abort, alloc: Global, schema: &Schema) -> Schema {
    schema.try_clone(alloc).expect(rt, "memory")
}

pub(crate) fn description(
    rt: &impl Abort,
    alloc: Global,
    schema: &Schema,
    text: &str,
) -> Description {
    Description::read(alloc, schema, text.as_bytes()).expect(rt, "a description")
}

/// The fault of what is no description.
pub(crate) fn description_fault(
    rt: &impl Abort,
    alloc: Global,
    schema: &Schema,
    text: &[u8],
) -> Option<NameFault> {
    Description::read(alloc, schema, text).err()
}

pub(crate) fn attr_key(rt: &impl Abort, alloc: Global, schema: &Schema, text: &str) -> AttrKey {
    let key = description(rt, alloc, schema, text).key().try_clone(alloc);
    key.expect(rt, "memory")
}

pub(crate) fn value_key(
    rt: &impl Abort,
    alloc: Global,
    schema: &Schema,
    attr: &str,
    value: &[u8],
) -> ValueKey {
    let key = schema.value_key(alloc, &attr_key(rt, alloc, schema, attr), value);
    key.expect(rt, "a value of the type")
}

pub(crate) fn name(rt: &impl Abort, alloc: Global, text: &str) -> Dn {
    Dn::read(alloc, text.as_bytes()).expect(rt, "a name")
}

pub(crate) fn name_key(rt: &impl Abort, alloc: Global, schema: &Schema, text: &str) -> DnKey {
    let key = name(rt, alloc, text).key(alloc, schema);
    key.expect(rt, "a key")
}

pub(crate) fn rdn(rt: &impl Abort, alloc: Global, text: &str) -> Rdn {
    Rdn::read(alloc, text.as_bytes()).expect(rt, "an RDN")
}

pub(crate) fn rdn_key(rt: &impl Abort, alloc: Global, schema: &Schema, text: &str) -> RdnKey {
    let key = rdn(rt, alloc, text).key(alloc, schema);
    key.expect(rt, "a key")
}

/// Ends the test with this text unless this holds. Each `assert!` makes the proof of its function longer, the more so
/// the more values are alive there; a call is cheaper.
pub(crate) fn check(rt: &impl Abort, holds: bool, what: &str) {
    assert!(rt; holds, "{what}");
}

/// Whether a call gave this value. Out of memory is no other value: it ends the test.
pub(crate) fn gives<T: PartialEq + Drop>(
    rt: &impl Abort,
    found: Result<T, NameFault>,
    want: &T,
) -> bool {
    match found {
        Ok(found) => found == *want,
        Err(fault) => {
            check(rt, fault != NameFault::Memory, "memory");
            false
        }
    }
}

/// The same of a text.
pub(crate) fn gives_text(rt: &impl Abort, found: Result<Vec<u8>, NameFault>, want: &str) -> bool {
    match found {
        Ok(found) => found.as_slice() == want.as_bytes(),
        Err(fault) => {
            check(rt, fault != NameFault::Memory, "memory");
            false
        }
    }
}

/// Whether these are all the values, in this order.
pub(crate) fn are<T: PartialEq>(found: &[T], first: &T, second: &T) -> bool {
    match found {
        [one, other] => *one == *first && *other == *second,
        _ => false,
    }
}

/// Whether a value is shown by this text.
pub(crate) fn shows(rt: &impl Abort, found: Result<String, AllocError>, want: &str) -> bool {
    let found = found.expect(rt, "memory");
    found.as_str() == want
}

/// A text, and so many times another one, and then a third.
pub(crate) fn repeated(
    rt: &impl Abort,
    alloc: Global,
    first: &str,
    piece: &str,
    count: usize,
    last: &str,
) -> Vec<u8> {
    let mut text = first.as_bytes().to_vec(alloc).expect(rt, "memory");
    for _ in 0..count {
        text.extend_from_slice(piece.as_bytes())
            .expect(rt, "memory");
    }
    text.extend_from_slice(last.as_bytes()).expect(rt, "memory");
    text
}
