//! Names that are read one after the other, so that parents of the last ones are known.

use crate::make::{check, fields, gives, gives_text, is_fault, name_key, number, repeated, schema};
use crate::reading::{Reader, Reads, each_in_turn, used_reader};
use dir_names::{Dn, NameFault, Schema};
use std::alloc::Global;
use std::process::Abort;

/// Texts of names, some of which have the parent of another, and how the names are printed.
static IN_TURN: [&str; 16] = [
    "cn=a,ou=x,dc=com | cn=a,ou=x,dc=com",
    "cn=b,ou=x,dc=com | cn=b,ou=x,dc=com",
    "cn=c+sn=d,ou=x,dc=com | cn=c+sn=d,ou=x,dc=com",
    "cn=e\\,f,ou=x,dc=com | cn=e\\2Cf,ou=x,dc=com",
    "cn=e\\\\,ou=x,dc=com | cn=e\\5C,ou=x,dc=com",
    "cn=e\\,ou=x,dc=com | cn=e\\2Cou=x,dc=com",
    "cn=g , ou=x,dc=com | cn=g,ou=x,dc=com",
    " cn = h,ou=x,dc=com | cn=h,ou=x,dc=com",
    "ou=x,dc=com | ou=x,dc=com",
    "dc=com | dc=com",
    " | ",
    "cn=i,ou=y\\,z,dc=com | cn=i,ou=y\\2Cz,dc=com",
    "cn=j,ou=y\\,z,dc=com | cn=j,ou=y\\2Cz,dc=com",
    "cn=k\\\\,ou=y\\,z,dc=com | cn=k\\5C,ou=y\\2Cz,dc=com",
    "cn=k\\,ou=y\\,z,dc=com | cn=k\\2Cou=y\\2Cz,dc=com",
    "cn=l,ou=\\\\,dc=com | cn=l,ou=\\5C,dc=com",
];

/// Texts below a parent that `IN_TURN` has, which are no names or have no keys, with their faults.
static REFUSED: [&str; 9] = [
    "cn,ou=x,dc=com |  | BadDn",
    "cn=,ou=x,dc=com |  | BadDn",
    ",ou=x,dc=com |  | BadDn",
    "dn=a,ou=x,dc=com |  | BadDn",
    "cn=\"a\",ou=x,dc=com |  | BadDn",
    "cn=a+commonName=b,ou=x,dc=com |  | BadDn",
    "member=a,ou=x,dc=com |  | BadDn",
    "cn=a,,ou=x,dc=com |  | BadDn",
    "cn=a,ou=x,dc=com, |  | BadDn",
];

/// Texts of names whose two parents have one length, and the same bytes at first, and how the names are printed.
static ALIKE: [&str; 6] = [
    "cn=a,ou=xxxxxxxxxxxxxxxxxxxxxxxx1,dc=com | cn=a,ou=xxxxxxxxxxxxxxxxxxxxxxxx1,dc=com",
    "cn=b,ou=xxxxxxxxxxxxxxxxxxxxxxxx1,dc=com | cn=b,ou=xxxxxxxxxxxxxxxxxxxxxxxx1,dc=com",
    "cn=a,ou=xxxxxxxxxxxxxxxxxxxxxxxx2,dc=com | cn=a,ou=xxxxxxxxxxxxxxxxxxxxxxxx2,dc=com",
    "cn=b,ou=xxxxxxxxxxxxxxxxxxxxxxxx2,dc=com | cn=b,ou=xxxxxxxxxxxxxxxxxxxxxxxx2,dc=com",
    "cn=c,ou=xxxxxxxxxxxxxxxxxxxxxxxx1,dc=com | cn=c,ou=xxxxxxxxxxxxxxxxxxxxxxxx1,dc=com",
    "cn=c,ou=xxxxxxxxxxxxxxxxxxxxxxxx2,dc=com | cn=c,ou=xxxxxxxxxxxxxxxxxxxxxxxx2,dc=com",
];

#[test]
fn names_are_read_in_turn(rt: HostRuntime) {
    each_in_turn::<Prints>(&rt, rt.alloc(), &[&IN_TURN, &IN_TURN, &IN_TURN, &REFUSED]);
}

#[test]
fn parents_that_are_alike_are_told_apart(rt: HostRuntime) {
    each_in_turn::<Prints>(&rt, rt.alloc(), &[&ALIKE]);
}

/// A text is read, under a schema of its own, as a name that is printed so and has the key of its text, as has its copy;
/// or it has a fault.
struct Prints;

impl Reads for Prints {
    fn holds(rt: &impl Abort, alloc: Global, reader: &mut Reader, row: &str) -> bool {
        let [text, printed, want, ..] = fields(row);
        match read(rt, alloc, reader, text.as_bytes()) {
            Ok(name) => want.is_empty() && is_name(rt, alloc, &reader.schema, &name, text, printed),
            Err(fault) => is_fault(rt, alloc, Some(fault), want),
        }
    }
}

/// Whether a name is printed so and has the key of a text, as has its copy.
fn is_name(
    rt: &impl Abort,
    alloc: Global,
    schema: &Schema,
    name: &Dn,
    text: &str,
    printed: &str,
) -> bool {
    let copy = name.try_clone(alloc).expect(rt, "memory");
    check(rt, gives_text(rt, name.print(alloc), printed), printed);
    check(rt, has_key(rt, alloc, schema, name, text), text);
    has_key(rt, alloc, schema, &copy, text)
}

/// Whether a name has the key of the name of this text.
fn has_key(rt: &impl Abort, alloc: Global, schema: &Schema, name: &Dn, text: &str) -> bool {
    gives(
        rt,
        name.key(alloc, schema),
        &name_key(rt, alloc, schema, text),
    )
}

/// Texts that are read, each a first one, a second one so many times and a last one, with their faults. A name has at most
/// 64 RDNs, whatever was read before.
static MANY_RDNS: [&str; 6] = [
    "cn=a | ,l=b | 63 |  | ",
    "cn=a | ,l=b | 64 |  | NameLimit",
    "cn | ,l=b | 64 |  | BadDn",
    "cn=a | ,l=b | 63 |  | ",
    "cn=a | ,l=b | 64 |  | NameLimit",
    "cn | ,l=b | 64 |  | BadDn",
];

/// A leaf has at most 4,096 bytes. Each byte of the value is printed as three, so that the text is short enough for
/// its parent to be sought.
static LONG_LEAVES: [&str; 5] = [
    "cn= | \u{eb} | 1 | ,dc=com | ",
    "cn= | \u{eb} | 2 | ,dc=com | ",
    "cn= | \u{eb} | 682 | ,dc=com | ",
    "cn= | \u{eb} | 683 | ,dc=com | NameLimit",
    "cn= | \u{eb} | 1 | ,dc=com | ",
];

/// A text that is no leaf is told before a leaf past the limit, and that before one without a key.
static FIRST_FAULTS: [&str; 8] = [
    "cn= | \u{eb} | 1 | ,dc=com | ",
    "cn= | \u{eb} | 2 | ,dc=com | ",
    "cn= | \u{eb} | 683 | +,dc=com | BadDn",
    "member= | \u{eb} | 683 | ,dc=com | NameLimit",
    "member= | \u{eb} | 1 | ,dc=com | BadDn",
    "cn=a+CN= | \u{eb} | 683 | ,dc=com | NameLimit",
    "cn=a+CN= | \u{eb} | 1 | ,dc=com | BadDn",
    "dn= | \u{eb} | 683 | ,dc=com | BadDn",
];

/// The text of a parent that is remembered has at most 256 bytes.
static LONG_PARENTS: [&str; 7] = [
    "cn=a,o= | x | 253 |  | ",
    "cn=a,o= | x | 253 |  | ",
    "cn=a,o= | x | 253 |  | ",
    "cn=a,o= | x | 254 |  | ",
    "cn=a,o= | x | 254 |  | ",
    "cn=a,o= | x | 254 |  | ",
    "cn=a,o= | x | 253 |  | ",
];

#[test]
fn long_texts_below_a_known_parent_have_their_first_faults(rt: HostRuntime) {
    each_in_turn::<HasFault>(&rt, rt.alloc(), &[&MANY_RDNS]);
    each_in_turn::<HasFault>(&rt, rt.alloc(), &[&LONG_LEAVES]);
    each_in_turn::<HasFault>(&rt, rt.alloc(), &[&FIRST_FAULTS]);
    each_in_turn::<HasFault>(&rt, rt.alloc(), &[&LONG_PARENTS]);
}

/// A text has its fault, read under a schema of its own.
struct HasFault;

impl Reads for HasFault {
    fn holds(rt: &impl Abort, alloc: Global, reader: &mut Reader, row: &str) -> bool {
        let [first, piece, count, last, want] = fields(row);
        let text = repeated(rt, alloc, first, piece, number(count), last);
        let fault = read(rt, alloc, reader, text.as_slice()).err();
        is_fault(rt, alloc, fault, want)
    }
}

/// Reads a name under a schema of its own.
fn read(rt: &impl Abort, alloc: Global, reader: &mut Reader, text: &[u8]) -> Result<Dn, NameFault> {
    reader.names.read(alloc, &schema(rt, alloc), text)
}

#[test]
fn a_name_made_of_the_rdns_of_another_has_its_own_key(rt: HostRuntime) {
    each_in_turn::<LeafHasKey>(
        &rt,
        rt.alloc(),
        &[&[
            "cn=b,dc=com | cn=b",
            "cn=b,dc=com | cn=b",
            "cn=a,dc=com | cn=a",
        ]],
    );
}

/// A name of two RDNs is read, and the name that is made of its leaf has the key of its own text.
struct LeafHasKey;

impl Reads for LeafHasKey {
    fn holds(rt: &impl Abort, alloc: Global, reader: &mut Reader, row: &str) -> bool {
        let [text, leaf, ..] = fields(row);
        let name = read(rt, alloc, reader, text.as_bytes()).expect(rt, "a name");
        check(
            rt,
            is_name(rt, alloc, &reader.schema, &name, text, text),
            text,
        );
        has_key(rt, alloc, &reader.schema, &leaf_of(rt, name), leaf)
    }
}

/// The name without its last RDN.
fn leaf_of(rt: &impl Abort, name: Dn) -> Dn {
    let mut rdns = name.into_rdns();
    let _root = rdns.pop();
    Dn::from_rdns(rdns).expect(rt, "a name")
}
