//! Moves of subtrees, and how high they are.

use crate::make::{check, made};
use crate::script::counts;
use dir_names::DnKey;
use dir_tree::{Directory, Entry};
use std::alloc::Global;
use std::process::Abort;

/// Moves an entry and what is below it to a key that is free, where the entry of a text takes its place. Where memory runs
/// out, it must be where it was.
pub(crate) fn shift<D: Directory>(
    rt: &impl Abort,
    alloc: Global,
    directory: &mut D,
    old: &DnKey,
    new: &DnKey,
    text: &str,
) -> Entry {
    let Some(_) = directory.get(old) else {
        panic!(rt; "not there");
    };
    if directory.get(new).is_some() {
        panic!(rt; "there already");
    }
    if new.at_or_below(old) {
        panic!(rt; "below itself");
    }
    if old == directory.suffix() {
        panic!(rt; "the suffix");
    }
    let Some(parent) = new.parent(alloc).expect(rt, "memory") else {
        panic!(rt; "no parent");
    };
    let Some(_) = directory.get(&parent) else {
        panic!(rt; "no parent");
    };
    if directory.height_below(old) > 64 - new.depth() {
        panic!(rt; "too deep");
    }
    match directory.move_subtree(old, new, made(rt, alloc, text)) {
        Ok(former) => former,
        Err(_) => {
            check(rt, directory.get(old).is_some(), "taken away");
            check(rt, directory.get(new).is_none(), "put in");
            panic!(rt; "memory");
        }
    }
}

/// Whether the longest key below this one is longer by so many RDNs.
pub(crate) fn has_height<D: Directory>(
    rt: &impl Abort,
    alloc: Global,
    directory: &D,
    key: &DnKey,
    want: &str,
) -> bool {
    let Some(_) = directory.get(key) else {
        return false;
    };
    counts(rt, alloc, want, directory.height_below(key))
}
