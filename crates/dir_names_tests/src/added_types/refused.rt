//! Definitions that are refused, and those for which memory ran out: neither changes a schema.

use crate::added_types::{definition, has_meaning, key_of, with_types};
use crate::make::{
    Case, attr_key, check, copy_of, each, fields, gives, is_fault, number, repeated, schema,
};
use crate::types::{is_told, means};
use dir_names::{AttrKey, NameFault, Schema};
use std::alloc::Global;
use std::process::Abort;

/// Definitions that are refused where `ROOM` was added, each for one reason. What is right of them would give the name `x`.
static REFUSED: [&str; 19] = [
    // no definitions
    "",
    "( 1.2.9 NAME x )",
    "( 1.2.9 NAME 'x' ) more",
    "( OLcfgAt:1 NAME 'x' )",
    "( x NAME 'x' )",
    "( 1.2.9 NAME 'x'",
    // names that are no names of types, or are reserved
    "( 1.2.9 NAME ( 'x' '' ) )",
    "( 1.2.9 NAME ( 'x' 'a_b' ) )",
    "( 1.2.9 NAME ( 'x' '2b' ) )",
    "( 1.2.9 NAME ( 'x' '-b' ) )",
    "( 1.2.9 NAME ( 'x' 'a b' ) )",
    "( 1.2.9 NAME ( 'x' '1.2.8' ) )",
    "( 1.2.9 NAME ( 'x' 'a;b' ) )",
    "( 1.2.9 NAME ( 'x' '\u{e4}' ) )",
    "( 1.2.9 NAME ( 'x' 'dn' ) )",
    "( 1.2.9 NAME ( 'x' 'ChangeType' ) )",
    "( 1.2.9 NAME ( 'CONTROL' 'x' ) )",
    "( 2.5.4.3 NAME ( 'x' 'a_b' ) )",
    "( 2.5.4.3 NAME ( 'x' 'dn' ) )",
];

/// The same.
static REFUSED_FOR_OTHERS: [&str; 15] = [
    // names of other types
    "( 1.2.9 NAME ( 'x' 'cn' ) )",
    "( 1.2.9 NAME ( 'CommonName' 'x' ) )",
    "( 1.2.9 NAME ( 'x' 'room' ) )",
    "( 1.2.9 NAME ( 'x' 'ROOMNAME' ) EQUALITY caseIgnoreMatch SINGLE-VALUE )",
    "( 2.5.4.3 NAME ( 'x' 'sn' ) )",
    "( 2.5.4.4 NAME ( 'x' 'CN' ) )",
    "( 2.5.4.3 NAME ( 'x' 'cn' 'roomName' ) )",
    "( 1.3.6.1.4.1.32473.1 NAME ( 'room' 'x' 'cn' ) )",
    // no rule
    "( 1.2.9 NAME 'x' SUP nothing )",
    "( 1.2.9 NAME 'x' SUP x )",
    "( 1.2.9 NAME 'x' SUP 1.2.9 )",
    "( 1.2.9 NAME 'x' SUP 2.5.4.41 )",
    "( 1.2.9 NAME 'x' SUP mobile )",
    "( 1.2.9 NAME 'x' SUP caseIgnoreMatch )",
    "( 1.2.9 NAME 'x' SUP '' )",
];

/// What texts mean before and after a definition is refused, as rows of `added_types` without definitions.
static UNCHANGED: [&str; 6] = [
    " | x | x | Octet unknown many",
    " | 1.2.9 | 1.2.9 | Octet unknown many",
    " | room | room | CaseIgnore known one",
    " | roomName | room | CaseIgnore known one",
    " | commonName | cn | CaseIgnore known many",
    " | mobile | mobile | Octet unknown many",
];

#[test]
fn a_definition_that_is_refused_adds_nothing(rt: HostRuntime) {
    each::<AddsNothing>(&rt, rt.alloc(), &REFUSED);
    each::<AddsNothing>(&rt, rt.alloc(), &REFUSED_FOR_OTHERS);
}

struct AddsNothing;

impl Case for AddsNothing {
    fn holds(rt: &impl Abort, alloc: Global, schema: &Schema, row: &str) -> bool {
        let mut added = with_types(rt, alloc, "ROOM");
        let fault = fault_of(rt, &mut added, row.as_bytes());
        check(rt, fault == Some(NameFault::BadType), row);
        is_unchanged(rt, alloc, schema, &added)
    }
}

/// The fault of a definition. Out of memory ends the test.
fn fault_of(rt: &impl Abort, schema: &mut Schema, definition: &[u8]) -> Option<NameFault> {
    let fault = schema.add_type(definition).err();
    check(rt, fault != Some(NameFault::Memory), "memory");
    fault
}

fn is_unchanged(rt: &impl Abort, alloc: Global, builtin: &Schema, schema: &Schema) -> bool {
    let mut is_unchanged = true;
    for row in &UNCHANGED {
        let key = key_of(rt, alloc, builtin, row);
        is_unchanged = is_unchanged && has_meaning(rt, alloc, schema, row, &key);
    }
    is_unchanged
}

/// Definitions, each a first text, a second one so many times and a last one, and the fault of each: a name and a number
/// have at most 512 bytes.
static LONG: [&str; 6] = [
    "( 1.2.9 NAME ( 'x' ' | a | 512 | ' ) ) | ",
    "( 1.2.9 NAME ( 'x' ' | a | 513 | ' ) ) | BadType",
    "( 2.5.4.3 NAME ( 'x' ' | a | 512 | ' ) ) | ",
    "( 2.5.4.3 NAME ( 'x' ' | a | 513 | ' ) ) | BadType",
    "( 1. | 2 | 510 |  NAME 'x' ) | ",
    "( 1. | 2 | 511 |  NAME 'x' ) | BadType",
];

#[test]
fn a_name_and_a_number_have_at_most_512_bytes(rt: HostRuntime) {
    each::<Limited>(&rt, rt.alloc(), &LONG);
}

struct Limited;

impl Case for Limited {
    fn holds(rt: &impl Abort, alloc: Global, _schema: &Schema, row: &str) -> bool {
        let [first, piece, count, last, want] = fields(row);
        let fault = fault_of(
            rt,
            &mut schema(rt, alloc),
            repeated(rt, alloc, first, piece, number(count), last).as_slice(),
        );
        is_fault(rt, alloc, fault, want)
    }
}

/// Definitions that are added one after the other, as rows of `added_types`. Each text names no type before its definition.
static IN_TURN: [&str; 4] = [
    "ROOM | roomName | room | CaseIgnore known one",
    "( 2.5.4.3 NAME ( 'x' 'fullName' ) ) | fullName | cn | CaseIgnore known many",
    "MOBILE | mobile | mobile | Telephone known many",
    "( 1.2.9 NAME ( 'y' 'pager' ) SUP owner ) | pager | y | Name known many",
];

/// Each allocation of these may be made to fail, by `rt try --test --fail-alloc N`.
#[test]
fn out_of_memory_adds_nothing_and_the_definition_is_accepted_later(rt: HostRuntime) {
    each::<AreAccepted>(&rt, rt.alloc(), &["in turn"]);
}

struct AreAccepted;

impl Case for AreAccepted {
    fn holds(rt: &impl Abort, alloc: Global, schema: &Schema, _row: &str) -> bool {
        let mut added = copy_of(rt, alloc, schema);
        for row in &IN_TURN {
            assert_accepted_later(rt, alloc, schema, &mut added, row);
        }
        true
    }
}

/// Asserts that a definition for which memory ran out changes nothing, and is accepted when it comes once more.
fn assert_accepted_later(
    rt: &impl Abort,
    alloc: Global,
    builtin: &Schema,
    added: &mut Schema,
    row: &str,
) {
    let [text, name, ..] = fields(row);
    let text = definition(text).as_bytes();
    let is_right = match added.add_type(text) {
        Ok(()) => true,
        Err(NameFault::Memory) => names_no_type(
            rt,
            alloc,
            added,
            name,
            &attr_key(rt, alloc, builtin, name),
        ),
        Err(_) => false,
    };
    check(rt, is_right, row);
    check(rt, gives(rt, added.add_type(text), &()), row);
    let key = key_of(rt, alloc, builtin, row);
    check(rt, has_meaning(rt, alloc, added, row, &key), row);
}

fn names_no_type(
    rt: &impl Abort,
    alloc: Global,
    added: &Schema,
    text: &str,
    key: &AttrKey,
) -> bool {
    means(rt, alloc, added, text, key) && is_told(rt, alloc, added, key, "Octet unknown many")
}
