//! Names and own names of 64 RDNs.

use crate::directories::is_spelled;
use crate::make::{check, fill, key_of, put};
use crate::script::names;
use dir_names::Dn;
use dir_tree::{Directory, Entry};
use std::alloc::Global;
use std::process::Abort;

/// The name of one RDN below a name.
fn below(rt: &impl Abort, alloc: Global, name: &str, level: u8) -> String {
    format!(in alloc; "cn={level},{name}").expect(rt, "memory")
}

/// The name with these RDNs below a name: `cn=2`, `cn=3`, and so on to the last.
fn with_rdns(rt: &impl Abort, alloc: Global, name: &str, last: u8) -> String {
    let mut name = below(rt, alloc, name, 2);
    for level in 3..=last {
        name = below(rt, alloc, name.as_str(), level);
    }
    name
}

/// Adds 63 entries to that of `dc=com`, each below the last, and asserts that the name of the last is spelled whole.
pub(crate) fn assert_64_levels<D: Directory>(rt: &impl Abort, alloc: Global, directory: &mut D) {
    for level in 2..65 {
        fill(
            rt,
            alloc,
            directory,
            with_rdns(rt, alloc, "dc=com", level).as_str(),
        );
    }
    let last = with_rdns(rt, alloc, "dc=com", 64);
    assert_last_spelled(rt, alloc, directory, last.as_str());
}

/// Puts in an entry with an own name that no well-formed directory has, 64 RDNs below a suffix of one, and asserts that its
/// leaf is spelled.
pub(crate) fn assert_long_own_name<D: Directory>(
    rt: &impl Abort,
    alloc: Global,
    directory: &mut D,
) {
    let key = key_of(rt, alloc, "cn=64,dc=com");
    let own = with_rdns(rt, alloc, "cn=1", 64);
    put(rt, alloc, directory, &key, own.as_str(), true);
    assert_last_spelled(rt, alloc, directory, "cn=64,dc=com");
}

/// Asserts that the entry of this name is spelled so, and that a walk ends at it.
fn assert_last_spelled<D: Directory>(rt: &impl Abort, alloc: Global, directory: &D, name: &str) {
    check(rt, is_spelled(rt, alloc, directory, name, name), name);
    let walk = directory.walk().expect(rt, "memory");
    check_last(rt, alloc, walk.as_slice(), name);
}

fn check_last(rt: &impl Abort, alloc: Global, walk: &[(Dn, &Entry)], name: &str) {
    let last = walk.last().expect(rt, "nothing is walked");
    check(rt, names(rt, alloc, name, &last.0), name);
}
