//! The limits of descriptions, RDNs and names, each from both sides.

use crate::make::{
    Case, check, description_fault, each, fields, gives_text, is_fault, name, name_key, number,
    rdn, rdn_key, repeated,
};
use dir_names::{Dn, DnKey, NameFault, Rdn, Schema};
use std::alloc::Global;
use std::process::Abort;

/// Texts, each a first one, a second one so many times and a last one, and the fault of each as an RDN: it has at most
/// 4,096 bytes as it is printed.
static RDNS: [&str; 4] = [
    "cn= | a | 4093 |  | ",
    "cn= | a | 4094 |  | NameLimit",
    "cn= | \u{e9} | 682 |  | ",
    "cn= | \u{e9} | 683 |  | NameLimit",
];

/// The same as a description, which has at most 512 bytes.
static DESCRIPTIONS: [&str; 2] = [" | a | 512 |  | ", " | a | 513 |  | BadDescription"];

/// The same as a name, which has at most 64 RDNs. A text past a limit is first of its kind, which is told once all of it
/// is read.
static NAMES: [&str; 7] = [
    "cn=a | ,dc=b | 63 |  | ",
    "cn=a | ,dc=b | 64 |  | NameLimit",
    "cn=a | ,dc=b | 64 | ,cn | BadDn",
    "cn= | a | 4093 | ,dc=com | ",
    "cn= | a | 4094 | ,dc=com | NameLimit",
    "cn= | a | 4093 | ,dc=com, | BadDn",
    "cn= | a | 4094 | ,dc=com, | BadDn",
];

#[test]
fn texts_are_read_up_to_their_limits(rt: HostRuntime) {
    each::<AsRdn>(&rt, rt.alloc(), &RDNS);
    each::<AsDescription>(&rt, rt.alloc(), &DESCRIPTIONS);
    each::<AsName>(&rt, rt.alloc(), &NAMES);
}

struct AsRdn;

impl Case for AsRdn {
    fn holds(rt: &impl Abort, alloc: Global, _schema: &Schema, row: &str) -> bool {
        let fault = Rdn::read(alloc, text_of(rt, alloc, row).as_slice()).err();
        has_fault(rt, alloc, fault, row)
    }
}

struct AsDescription;

impl Case for AsDescription {
    fn holds(rt: &impl Abort, alloc: Global, schema: &Schema, row: &str) -> bool {
        let fault = description_fault(rt, alloc, schema, text_of(rt, alloc, row).as_slice());
        has_fault(rt, alloc, fault, row)
    }
}

struct AsName;

impl Case for AsName {
    fn holds(rt: &impl Abort, alloc: Global, _schema: &Schema, row: &str) -> bool {
        let fault = Dn::read(alloc, text_of(rt, alloc, row).as_slice()).err();
        has_fault(rt, alloc, fault, row)
    }
}

fn text_of(rt: &impl Abort, alloc: Global, row: &str) -> Vec<u8> {
    let [first, piece, count, last, ..] = fields(row);
    repeated(rt, alloc, first, piece, number(count), last)
}

fn has_fault(rt: &impl Abort, alloc: Global, fault: Option<NameFault>, row: &str) -> bool {
    let [_, _, _, _, want] = fields(row);
    is_fault(rt, alloc, fault, want)
}

/// The text of a name of this many RDNs.
fn name_text(rt: &impl Abort, alloc: Global, count: usize) -> String {
    let mut text = "dc=com".to_string(alloc).expect(rt, "memory");
    for level in 1..count {
        text = format!(in alloc; "ou={level},{text}").expect(rt, "memory");
    }
    text
}

/// The key of a name of this many RDNs.
fn key(rt: &impl Abort, alloc: Global, schema: &Schema, count: usize) -> DnKey {
    let text = name_text(rt, alloc, count);
    name_key(rt, alloc, schema, text.as_str())
}

#[test]
fn a_name_has_at_most_64_rdns(rt: HostRuntime) {
    check(&rt, is_read(&rt, rt.alloc(), 63), "63 RDNs");
    check(&rt, is_read(&rt, rt.alloc(), 64), "64 RDNs");
    let fault = fault_of(&rt, rt.alloc(), 65);
    check(&rt, fault == Some(NameFault::NameLimit), "65 RDNs");
}

/// The fault of the text of a name of this many RDNs.
fn fault_of(rt: &impl Abort, alloc: Global, count: usize) -> Option<NameFault> {
    Dn::read(alloc, name_text(rt, alloc, count).as_bytes()).err()
}

/// Whether the name of this many RDNs is read, printed, and made of its RDNs again.
fn is_read(rt: &impl Abort, alloc: Global, count: usize) -> bool {
    let text = name_text(rt, alloc, count);
    let name = name(rt, alloc, text.as_str());
    let is_printed = gives_text(rt, name.print(alloc), text.as_str());
    check(rt, is_printed, "printed");
    let again = Dn::from_rdns(name.into_rdns()).expect(rt, "a name");
    gives_text(rt, again.print(alloc), text.as_str())
}

#[test]
fn a_name_is_not_made_of_65_rdns(rt: HostRuntime) {
    let fault = made_fault(&rt, rt.alloc(), 64);
    check(&rt, fault == Some(NameFault::NameLimit), "65 RDNs");
}

/// The fault of what is made of this many RDNs and one more.
fn made_fault(rt: &impl Abort, alloc: Global, count: usize) -> Option<NameFault> {
    let mut rdns = name(rt, alloc, name_text(rt, alloc, count).as_str()).into_rdns();
    rdns.push(rdn(rt, alloc, "cn=a")).expect(rt, "memory");
    Dn::from_rdns(rdns).err()
}

/// Numbers of RDNs, with the leaf of the name of one RDN more, and their number.
static CHILDREN: [&str; 2] = ["62 | ou=62 | 63", "63 | ou=63 | 64"];

#[test]
fn a_key_of_62_or_63_rdns_has_a_child_and_one_of_64_has_none(rt: HostRuntime) {
    each::<HasChild>(&rt, rt.alloc(), &CHILDREN);
    each::<HasNoChild>(&rt, rt.alloc(), &["64"]);
}

/// The key of this many RDNs has a child, the key of one RDN more.
struct HasChild;

impl Case for HasChild {
    fn holds(rt: &impl Abort, alloc: Global, schema: &Schema, row: &str) -> bool {
        let [count, leaf, below, ..] = fields(row);
        let above = key(rt, alloc, schema, number(count));
        let child = above.child(alloc, &rdn_key(rt, alloc, schema, leaf));
        let child = child.expect(rt, "a child");
        let want = key(rt, alloc, schema, number(below));
        is_child(&child, &above, &want, number(below))
    }
}

/// Whether a key is this one, of this many RDNs, and below the one above it.
fn is_child(child: &DnKey, above: &DnKey, want: &DnKey, depth: usize) -> bool {
    child == want && child.depth() == depth && above.is_parent_of(child)
}

/// The key of this many RDNs has none.
struct HasNoChild;

impl Case for HasNoChild {
    fn holds(rt: &impl Abort, alloc: Global, schema: &Schema, row: &str) -> bool {
        let above = key(rt, alloc, schema, number(row));
        let child = above.child(alloc, &rdn_key(rt, alloc, schema, "cn=a"));
        child.err() == Some(NameFault::NameLimit)
    }
}
