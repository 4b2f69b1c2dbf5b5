//! RDNs: their pairs and their keys.

use crate::make::{Case, attr_key, check, each, fields, gives_text, rdn, rdn_key};
use dir_names::{AttrKey, Bytes, RdnKey, Schema};
use std::alloc::Global;
use std::process::Abort;

/// An RDN of two pairs.
static TWO_PAIRS: [&str; 1] = ["SN=B+commonName=A"];

#[test]
fn pairs_are_as_spelled(rt: HostRuntime) {
    each::<AreSpelled>(&rt, rt.alloc(), &TWO_PAIRS);
}

struct AreSpelled;

impl Case for AreSpelled {
    fn holds(rt: &impl Abort, alloc: Global, _schema: &Schema, row: &str) -> bool {
        match rdn(rt, alloc, row).pairs() {
            [first, second] => is_pair(first, "SN", "B") && is_pair(second, "commonName", "A"),
            _ => false,
        }
    }
}

fn is_pair(pair: &(Bytes, Bytes), attr_type: &str, value: &str) -> bool {
    pair.0.as_slice() == attr_type.as_bytes() && pair.1.as_slice() == value.as_bytes()
}

#[test]
fn an_rdn_of_two_pairs_is_printed_and_has_a_key(rt: HostRuntime) {
    each::<IsPrinted>(&rt, rt.alloc(), &["SN=b+cn=a"]);
}

struct IsPrinted;

impl Case for IsPrinted {
    fn holds(rt: &impl Abort, alloc: Global, schema: &Schema, row: &str) -> bool {
        let rdn = rdn(rt, alloc, row);
        check(rt, gives_text(rt, rdn.print(alloc), row), row);
        rdn.has_key(alloc, schema).expect(rt, "memory")
    }
}

#[test]
fn pairs_of_a_key_are_in_order(rt: HostRuntime) {
    each::<AreInOrder>(&rt, rt.alloc(), &TWO_PAIRS);
}

struct AreInOrder;

impl Case for AreInOrder {
    fn holds(rt: &impl Abort, alloc: Global, schema: &Schema, row: &str) -> bool {
        let cn = attr_key(rt, alloc, schema, "cn");
        let sn = attr_key(rt, alloc, schema, "sn");
        are_pairs(rdn_key(rt, alloc, schema, row).pairs(), &cn, &sn)
    }
}

fn are_pairs(pairs: &[(AttrKey, Bytes)], cn: &AttrKey, sn: &AttrKey) -> bool {
    match pairs {
        [first, second] => is_key_pair(first, cn, b"a") && is_key_pair(second, sn, b"b"),
        _ => false,
    }
}

fn is_key_pair(pair: &(AttrKey, Bytes), attr_type: &AttrKey, value: &[u8]) -> bool {
    pair.0 == *attr_type && pair.1.as_slice() == value
}

/// RDNs, each with one whose key comes after its own, and one of the same key.
static RISING: [&str; 10] = [
    "cn=a | CN=B | cn=a",
    "cn=b | sn=a | cn=b",
    "cn=a | cn=aa | cn=a",
    "cn=a | cn=a+sn=a | cn=a",
    "cn=a+sn=a | sn=B+cn=A | cn=a+sn=a",
    "cn=a+sn=b | cn=aa | cn=a+sn=b",
    "cn=0123456789abcdef | cn=0123456789abcdef0 | cn=0123456789abcdef",
    "cn=0123456789abcdef0 | cn=0123456789abcdef1 | cn=0123456789abcdef0",
    "cn=0123456789abcdef0 | cn=0123456789abcdeg | cn=0123456789abcdef0",
    // in any order of the pairs
    "SN=b+cn=a | sn=c | cn=A+sn=B",
];

#[test]
fn keys_are_in_the_order_of_their_pairs(rt: HostRuntime) {
    each::<IsRising>(&rt, rt.alloc(), &RISING);
}

struct IsRising;

impl Case for IsRising {
    fn holds(rt: &impl Abort, alloc: Global, schema: &Schema, row: &str) -> bool {
        let [one, other, same, ..] = fields(row);
        let key = rdn_key(rt, alloc, schema, one);
        check(rt, is_below(&key, &rdn_key(rt, alloc, schema, other)), row);
        key == rdn_key(rt, alloc, schema, same)
    }
}

fn is_below(key: &RdnKey, other: &RdnKey) -> bool {
    key < other && other > key && key != other
}
