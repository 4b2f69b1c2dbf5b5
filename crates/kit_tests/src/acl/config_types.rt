//! Attribute types that a configuration defines (slapd.conf(5), `attributetype`), read again where memory ran out.

use crate::acl::make::schema;
use dir_acl::{ConfigCause, read_schema};
use dir_names::{Description, Rule, Schema};
use std::alloc::Global;
use std::process::Abort;

/// A configuration, the text of a type, and what it means then: another text of it, its rule, and whether an attribute takes one value.
struct Row {
    config: &'static str,
    text: &'static str,
    same: &'static str,
    rule: Rule,
    single: bool,
}

/// Configurations that define types of several names, one by another, and more names of a type that is known.
static AGAIN: [Row; 3] = [
    Row {
        config: "attributetype ( 1.2.3 NAME ( 'level' 'grade' )\n  EQUALITY integerMatch SINGLE-VALUE )\n",
        text: "GRADE",
        same: "level",
        rule: Rule::Integer,
        single: true,
    },
    Row {
        config: "attributetype ( 1.2.3 NAME 'level' SUP uidNumber )\ninclude x\nattributetype ( 1.2.4 NAME 'a1' SUP LEVEL )\n",
        text: "a1",
        same: "a1",
        rule: Rule::Integer,
        single: false,
    },
    Row {
        config: "attributetype ( 2.5.4.3 NAME ( 'cn' 'fullName' ) )\n",
        text: "fullName",
        same: "cn",
        rule: Rule::CaseIgnore,
        single: false,
    },
];

/// Each allocation of this may be made to fail, by `rt try --test --fail-alloc N`.
#[test]
fn types_for_which_memory_ran_out_are_read_later(rt: HostRuntime) {
    let schema = schema(&rt, rt.alloc());
    for row in &AGAIN {
        assert!(&rt;
            is_read_later(&rt, rt.alloc(), &schema, row),
            "{}",
            row.config
        );
    }
}

/// Whether a configuration gives these types, or has no memory for them and gives them when it is read once more.
fn is_read_later(rt: &impl Abort, alloc: Global, schema: &Schema, row: &Row) -> bool {
    match read_schema(alloc, schema, row.config.as_bytes()) {
        Ok(types) => means(rt, alloc, &types, row),
        Err(fault) => {
            fault.line == 0 && fault.cause == ConfigCause::Memory && is_read(rt, alloc, schema, row)
        }
    }
}

fn is_read(rt: &impl Abort, alloc: Global, schema: &Schema, row: &Row) -> bool {
    match read_schema(alloc, schema, row.config.as_bytes()) {
        Ok(types) => means(rt, alloc, &types, row),
        Err(_) => false,
    }
}

fn means(rt: &impl Abort, alloc: Global, types: &Schema, row: &Row) -> bool {
    let description = described(rt, alloc, types, row.text);
    let key = description.key();
    *key == *described(rt, alloc, types, row.same).key()
        && types.rule(key) == row.rule
        && types.single(key) == row.single
}

fn described(rt: &impl Abort, alloc: Global, types: &Schema, text: &str) -> Description {
    Description::read(alloc, types, text.as_bytes()).expect(rt, "a description")
}
