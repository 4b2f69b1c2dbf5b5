//! Entries of a directory that are alike: each keeps what is its own.

use crate::directories::exchange;
use crate::entries::was;
use crate::make::{check, fill, key_of, made};
use crate::script::split;
use crate::views::has_lines;
use dir_tree::{AttributeMap, Directory, Entry, KeptAttributes, Parts};
use std::alloc::Global;
use std::process::Abort;

/// Entries of which neighbours differ in one thing: a value, a spelling, a class, a creator, or how many values there are.
static ENTRIES: [&str; 12] = [
    "cn=a,dc=com | objectClass=person | sn=A | manager=cn=x",
    "cn=b,dc=com | objectClass=person | sn=B | manager=cn=y",
    "cn=c,dc=com | objectClass=Person | sn=C | manager=cn=y",
    "cn=d,dc=com | objectClass=person | SN=D | manager=CN=Y",
    "cn=e,dc=com | objectClass=person | sn=E | sn=F",
    "cn=f,dc=com | objectClass=person | objectClass=top | sn=F",
    "cn=g,dc=com | objectClass=top | objectClass=person | sn=G",
    "cn=h,dc=com | objectclass=person | sn=H",
    "cn=i,dc=com | creatorsName=cn=x | sn=I | title=i",
    "cn=j,dc=com | creatorsName=cn=y | sn=J | title=j",
    "cn=k,dc=com | creatorsName=cn=y | sn=K | description=k",
    "cn=l,dc=com | objectClass=person | sn=L | manager=cn=x",
];

/// The entry with its attributes opened.
pub(crate) fn opened(rt: &impl Abort, alloc: Global, entry: Entry) -> Entry {
    let Parts {
        own,
        key,
        attributes,
    } = entry.into_parts();
    Entry::of(Parts {
        own,
        key,
        attributes: KeptAttributes::of(map_of_kept(rt, alloc, attributes)),
    })
}

/// The attributes, opened.
pub(crate) fn map_of_kept(
    rt: &impl Abort,
    alloc: Global,
    attributes: KeptAttributes,
) -> AttributeMap {
    match attributes.open(alloc) {
        Ok(map) => map,
        Err(_) => panic!(rt; "memory"),
    }
}

/// Puts in the entries; each has its lines, also when it is put back with its attributes opened.
pub(crate) fn assert_alike<D: Directory>(rt: &impl Abort, alloc: Global, directory: &mut D) {
    for text in &ENTRIES {
        fill(rt, alloc, directory, text);
    }
    for text in &ENTRIES {
        check(rt, is_kept(rt, alloc, directory, text), text);
    }
    for text in &ENTRIES {
        check(rt, is_put_back(rt, alloc, directory, text), text);
    }
    for text in &ENTRIES {
        check(rt, is_kept(rt, alloc, directory, text), text);
    }
}

/// Puts an entry, with its attributes opened, in the place of the one that is there. Whether that had its own RDN.
fn is_put_back<D: Directory>(
    rt: &impl Abort,
    alloc: Global,
    directory: &mut D,
    text: &str,
) -> bool {
    let name = split(text, " | ").0;
    let entry = opened(rt, alloc, made(rt, alloc, text));
    let former = exchange(rt, directory, &key_of(rt, alloc, name), entry);
    was(rt, alloc, split(name, ",").0, former)
}

/// Whether the entry at this key has these lines, as they are spelled.
fn is_kept<D: Directory>(rt: &impl Abort, alloc: Global, directory: &D, text: &str) -> bool {
    let (name, lines) = split(text, " | ");
    match directory.get(&key_of(rt, alloc, name)) {
        Some(entry) => has_lines(rt, alloc, entry, lines),
        None => false,
    }
}
