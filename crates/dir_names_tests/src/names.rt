//! Names: reading, printing, keys, and names made of RDNs.

use crate::make::{
    Case, are, check, each, fields, gives, gives_text, is_fault, name, name_key, number, rdn,
    rdn_key, shows,
};
use dir_names::{Dn, DnKey, NameFault, Rdn, Schema};
use std::alloc::Global;
use std::process::Abort;

/// Texts of names, and how the names are printed. The first is the example of the crate's README.
static PRINTED: [&str; 14] = [
    " cn = a\\,b , DC=com | cn=a\\2Cb,DC=com",
    "cn=a\\,b , OU = x y | cn=a\\2Cb,OU=x y",
    "cn=J\u{fc}rgen | cn=J\\C3\\BCrgen",
    "cn=\\#a | cn=\\23a",
    "cn=\\  | cn=\\20",
    "cn=a = b | cn=a = b",
    " | ",
    "cn=\\2c\\2C | cn=\\2C\\2C",
    "cn = a\\   | cn=a\\20",
    "cn=a  b | cn=a  b",
    "cn=\\  a | cn=\\20 a",
    " cn = a + sn = b , dc = c  | cn=a+sn=b,dc=c",
    "cn= | cn=",
    "2.5.4.3=a=b | 2.5.4.3=a=b",
];

/// Texts that are no names.
static NO_NAMES: [&str; 17] = [
    "cn",
    "dn=x",
    "=a",
    "cn=a,",
    "cn=\"a\"",
    "cn=#04",
    "cn=a;b=c",
    " ",
    "cn=a\\",
    "cn=\\2",
    "cn=\\2g",
    "cn=\\a",
    "cn=a,,cn=b",
    "cn=a+",
    "control=a",
    "oid.1.2=a",
    "1=a",
];

#[test]
fn names_print_and_read_back(rt: HostRuntime) {
    each::<Prints>(&rt, rt.alloc(), &PRINTED);
}

struct Prints;

impl Case for Prints {
    fn holds(rt: &impl Abort, alloc: Global, _schema: &Schema, row: &str) -> bool {
        let [text, want, ..] = fields(row);
        let name = name(rt, alloc, text);
        check(rt, gives_text(rt, name.print(alloc), want), row);
        gives(rt, Dn::read_text(alloc, want.as_bytes()), &name)
    }
}

#[test]
fn other_texts_are_no_names(rt: HostRuntime) {
    each::<IsNoName>(&rt, rt.alloc(), &NO_NAMES);
}

struct IsNoName;

impl Case for IsNoName {
    fn holds(_rt: &impl Abort, alloc: Global, _schema: &Schema, row: &str) -> bool {
        Dn::read(alloc, row.as_bytes()).err() == Some(NameFault::BadDn)
    }
}

/// Texts of names, and how the names are shown.
static SHOWN: [&str; 2] = [
    "l=b | Dn { rdns: [Rdn { pairs: One((Bytes { items: [108] }, Bytes { items: [98] })) }] }",
    " | Dn { rdns: [] }",
];

/// How the name `l=b` is laid out.
const LAID_OUT: &str =
    "Dn {\n    rdns: [\n        Rdn {\n            pairs: One(\n                (\n                    Bytes {\n                        items: [\n                            108,\n                        ],\n                    },\n                    Bytes {\n                        items: [\n                            98,\n                        ],\n                    },\n                ),\n            ),\n        },\n    ],\n}";

#[test]
fn a_name_is_shown(rt: HostRuntime) {
    each::<IsShown>(&rt, rt.alloc(), &SHOWN);
    let laid_out = laid_out(&rt, rt.alloc(), &name(&rt, rt.alloc(), "l=b"));
    check(&rt, laid_out, LAID_OUT);
}

struct IsShown;

impl Case for IsShown {
    fn holds(rt: &impl Abort, alloc: Global, _schema: &Schema, row: &str) -> bool {
        let [text, want, ..] = fields(row);
        is_shown(rt, alloc, &name(rt, alloc, text), want)
    }
}

fn is_shown(rt: &impl Abort, alloc: Global, name: &Dn, want: &str) -> bool {
    shows(rt, format!(in alloc; "{name:?}"), want)
}

fn laid_out(rt: &impl Abort, alloc: Global, name: &Dn) -> bool {
    shows(rt, format!(in alloc; "{name:#?}"), LAID_OUT)
}

/// Names, and the faults of those that have no key.
static KEYS: [&str; 7] = [
    " | ",
    "cn=a,dc=com | ",
    "cn=\\20,x-unknown= | ",
    "cn=a+sn=b,dc=com | ",
    "cn=a+commonName=b | BadDn",
    "member=x | BadDn",
    "uidNumber=x | BadDn",
];

#[test]
fn names_have_keys_unless_a_pair_has_none(rt: HostRuntime) {
    each::<HasKey>(&rt, rt.alloc(), &KEYS);
}

struct HasKey;

impl Case for HasKey {
    fn holds(rt: &impl Abort, alloc: Global, schema: &Schema, row: &str) -> bool {
        let [text, want, ..] = fields(row);
        has_key(rt, alloc, schema, &name(rt, alloc, text), want)
    }
}

/// Whether a name has a key, or this fault.
fn has_key(rt: &impl Abort, alloc: Global, schema: &Schema, name: &Dn, want: &str) -> bool {
    let has_key = name.has_key(alloc, schema).expect(rt, "memory");
    check(rt, has_key == want.is_empty(), want);
    is_fault(rt, alloc, name.key(alloc, schema).err(), want)
}

/// Names of two or three RDNs: the leaf, the name above it, the whole name and the number of RDNs. The last is the example
/// of the crate's README.
static BELOW: [&str; 3] = [
    "cn=a | dc=com | cn=a,dc=com | 2",
    "cn=Ann | ou=People,dc=com | cn=Ann,ou=People,dc=com | 3",
    "cn=a\\,b | dc=COM |  cn = a\\,b , DC=com | 2",
];

#[test]
fn a_key_has_children_and_a_parent(rt: HostRuntime) {
    each::<IsChild>(&rt, rt.alloc(), &BELOW);
    each::<HasNoParent>(&rt, rt.alloc(), &[""]);
}

struct HasNoParent;

impl Case for HasNoParent {
    fn holds(rt: &impl Abort, alloc: Global, schema: &Schema, row: &str) -> bool {
        parent(rt, alloc, schema, row).is_none()
    }
}

struct IsChild;

impl Case for IsChild {
    fn holds(rt: &impl Abort, alloc: Global, schema: &Schema, row: &str) -> bool {
        let [leaf, above, whole, depth, ..] = fields(row);
        let above = name_key(rt, alloc, schema, above);
        let below = above
            .child(alloc, &rdn_key(rt, alloc, schema, leaf))
            .expect(rt, "a child");
        check(rt, below.depth() == number(depth), row);
        check(
            rt,
            is_between(&above, &below, &name_key(rt, alloc, schema, whole)),
            row,
        );
        has_parent(&parent(rt, alloc, schema, whole), &above)
    }
}

fn has_parent(found: &Option<DnKey>, above: &DnKey) -> bool {
    match found {
        Some(found) => found == above,
        None => false,
    }
}

/// Whether a key is the whole one, and below the one above it.
fn is_between(above: &DnKey, below: &DnKey, whole: &DnKey) -> bool {
    below == whole
        && above.is_parent_of(whole)
        && above.is_parent_of(below)
        && below.at_or_below(above)
        && !above.at_or_below(below)
}

fn parent(rt: &impl Abort, alloc: Global, schema: &Schema, text: &str) -> Option<DnKey> {
    name_key(rt, alloc, schema, text)
        .parent(alloc)
        .expect(rt, "memory")
}

/// Names that are made of an RDN and of those of the name above it, and how they are printed.
static MADE: [&str; 2] = [
    "ou=a | dc=com | ou=a,dc=com",
    "cn=Ann | ou=People,dc=com | cn=Ann,ou=People,dc=com",
];

#[test]
fn names_are_made_of_a_leaf_and_the_name_above_it(rt: HostRuntime) {
    each::<IsMade>(&rt, rt.alloc(), &MADE);
}

struct IsMade;

impl Case for IsMade {
    fn holds(rt: &impl Abort, alloc: Global, _schema: &Schema, row: &str) -> bool {
        let [leaf, above, want, ..] = fields(row);
        is_name(
            rt,
            alloc,
            made_of(rt, alloc, rdn(rt, alloc, leaf), &name(rt, alloc, above)),
            want,
        )
    }
}

#[test]
fn names_are_made_of_no_rdn_and_of_one(rt: HostRuntime) {
    let is_empty = is_name(&rt, rt.alloc(), Dn::empty(rt.alloc()), "");
    check(&rt, is_empty, "no RDN");
    let root = root_of(&rt, rt.alloc(), rdn(&rt, rt.alloc(), "dc=com"));
    check(&rt, is_name(&rt, rt.alloc(), root, "dc=com"), "one RDN");
}

/// Whether a name is printed as this text, and is the name of it.
fn is_name(rt: &impl Abort, alloc: Global, made: Dn, want: &str) -> bool {
    check(rt, gives_text(rt, made.print(alloc), want), want);
    made == name(rt, alloc, want)
}

/// The name of one RDN.
fn root_of(rt: &impl Abort, alloc: Global, rdn: Rdn) -> Dn {
    let mut rdns = Vec::new(alloc);
    rdns.push(rdn).expect(rt, "memory");
    Dn::of_rdns(rdns)
}

/// The name of an RDN and those of the name above it.
fn made_of(rt: &impl Abort, alloc: Global, leaf: Rdn, above: &Dn) -> Dn {
    let mut rdns = Vec::new(alloc);
    rdns.push(leaf).expect(rt, "memory");
    for rdn in above.rdns() {
        rdns.push(rdn.try_clone(alloc).expect(rt, "memory"))
            .expect(rt, "memory");
    }
    Dn::from_rdns(rdns).expect(rt, "a name")
}

/// A name of two RDNs, its leaf and its root.
static PARTS: [&str; 1] = ["cn=a,dc=com | cn=a | dc=com"];

#[test]
fn names_have_their_rdns_leaf_first(rt: HostRuntime) {
    each::<HasLeafFirst>(&rt, rt.alloc(), &PARTS);
}

struct HasLeafFirst;

impl Case for HasLeafFirst {
    fn holds(rt: &impl Abort, alloc: Global, _schema: &Schema, row: &str) -> bool {
        let [whole, leaf, root, ..] = fields(row);
        are(
            name(rt, alloc, whole).into_rdns().as_slice(),
            &rdn(rt, alloc, leaf),
            &rdn(rt, alloc, root),
        )
    }
}

#[test]
fn keys_have_their_parts_root_first(rt: HostRuntime) {
    each::<HasRootFirst>(&rt, rt.alloc(), &PARTS);
}

struct HasRootFirst;

impl Case for HasRootFirst {
    fn holds(rt: &impl Abort, alloc: Global, schema: &Schema, row: &str) -> bool {
        let [whole, leaf, root, ..] = fields(row);
        are(
            name_key(rt, alloc, schema, whole).parts(),
            &rdn_key(rt, alloc, schema, root),
            &rdn_key(rt, alloc, schema, leaf),
        )
    }
}
