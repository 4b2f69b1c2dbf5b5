//! What a directory answers: one map of whole names, and a tree of nodes, by the same scripts.
//!
//! A key is given as the text of a name. Of an entry that is replaced, removed or moved the answer is its own name, and of a
//! walk the names that it meets, in order.

use crate::alike::assert_alike;
use crate::entries::was;
use crate::levels::{assert_64_levels, assert_long_own_name};
use crate::make::{check, clone_of, fill, key_of, made};
use crate::moves::{has_height, shift};
use crate::script::{Step, begun, is_next, names, pieces, says, split, step_of};
use dir_names::{Dn, DnKey};
use dir_tree::{Directory, Entry, FlatDirectory, NotAdded, TreeDirectory};
use std::alloc::Global;
use std::process::Abort;

/// An entry is put in: the calls of the crate's README.
const PUT: &str = "
suffix DC=com
put DC=com
walk -> DC=com
";

/// Names are spelled as the entries on their path are.
const SPELLED: &str = "
suffix dc=com
put dc=com
put cn=A,dc=com
put cn=b,cn=a,DC=COM
walk -> dc=com | cn=A,dc=com | cn=b,cn=A,dc=com
spelled CN=B,cn=a,dc=COM -> cn=b,cn=A,dc=com
spelled DC=com -> dc=com
";

/// There is nothing to walk.
const EMPTY: &str = "
suffix dc=com
walk
";

/// Entries are walked parents first.
const WALKED: &str = "
suffix dc=com
put dc=com
put cn=c,dc=com
put cn=A,dc=com
put cn=b,cn=a,dc=com
walk -> dc=com | cn=A,dc=com | cn=b,cn=A,dc=com | cn=c,dc=com
";

/// A suffix of two RDNs is spelled whole, and the name above it has a child once it has an entry.
const LONG_SUFFIX: &str = "
suffix dc=example,dc=com
has-child dc=com -> no
put DC=Example, dc=com
put cn=A,dc=example,dc=com
has-child dc=com -> yes
walk -> DC=Example,dc=com | cn=A,DC=Example,dc=com
spelled cn=a,dc=example,dc=com -> cn=A,DC=Example,dc=com
";

/// An entry is added at a free key below its parent.
const ADDED: &str = "
suffix dc=com
add cn=a,dc=com -> no parent
add dc=org -> no parent
add dc=com -> added
add DC=COM -> taken
add dc=org -> no parent
add cn=a,dc=org -> no parent
add cn=c,cn=a,dc=com -> no parent
add cn=A,dc=com -> added
add CN=a,dc=com -> taken
add cn=d,cn=c,cn=a,dc=com -> no parent
add cn=c,cn=b,dc=com -> no parent
add cn=c,cn=a,dc=com -> added
add cn=C,cn=a,dc=com -> taken
walk -> dc=com | cn=A,dc=com | cn=c,cn=A,dc=com
";

/// An entry that is replaced comes back.
const REPLACED: &str = "
suffix dc=com
put dc=com
put cn=A,dc=com
put cn=b,cn=A,dc=com
replace cn=a,dc=com by CN=a,dc=com -> cn=A
walk -> dc=com | CN=a,dc=com | cn=b,CN=a,dc=com
";

/// A leaf is taken out.
const REMOVED: &str = "
suffix dc=com
put dc=com
put cn=A,dc=com
put cn=b,cn=A,dc=com
has-child cn=a,dc=com -> yes
remove cn=b,cn=a,dc=com -> cn=b
walk -> dc=com | cn=A,dc=com
has-child cn=a,dc=com -> no
";

/// A subtree moves with what is below it. A clone of an entry takes its place.
const MOVED: &str = "
suffix dc=com
put dc=com
put cn=A,dc=com
put cn=b,cn=A,dc=com
clone cn=b,cn=A,dc=com -> cn=b
height dc=com -> 2
move cn=a,dc=com to cn=C,dc=com -> cn=A
spelled cn=b,cn=c,dc=com -> cn=b,cn=C,dc=com
walk -> dc=com | cn=C,dc=com | cn=b,cn=C,dc=com
";

/// A name of 64 RDNs is spelled whole.
const LEVELS: &str = "
suffix dc=com
put dc=com
levels
";

/// Of an own name below the suffix one RDN is spelled.
const LONG_OWN_NAME: &str = "
suffix dc=com
put dc=com
long-own-name
";

/// Entries that are alike keep their own values.
const ALIKE: &str = "
suffix dc=com
put dc=com
alike
";

static SCRIPTS: [&str; 12] = [
    PUT,
    SPELLED,
    EMPTY,
    WALKED,
    LONG_SUFFIX,
    ADDED,
    REPLACED,
    REMOVED,
    MOVED,
    LEVELS,
    LONG_OWN_NAME,
    ALIKE,
];

#[test]
fn a_map_of_whole_names_answers_each_step(rt: HostRuntime) {
    for script in &SCRIPTS {
        run_flat(&rt, rt.alloc(), script);
    }
}

#[test]
fn a_tree_of_nodes_answers_each_step(rt: HostRuntime) {
    for script in &SCRIPTS {
        run_tree(&rt, rt.alloc(), script);
    }
}

fn run_flat(rt: &impl Abort, alloc: Global, script: &str) {
    let (suffix, steps) = begun(script);
    let key = key_of(rt, alloc, suffix);
    run(rt, alloc, FlatDirectory::new(alloc, key), steps);
}

fn run_tree(rt: &impl Abort, alloc: Global, script: &str) {
    let (suffix, steps) = begun(script);
    let key = key_of(rt, alloc, suffix);
    run(rt, alloc, TreeDirectory::new(alloc, key), steps);
}

/// Takes the steps of a script, and asserts each answer.
fn run<D: Directory + Drop>(rt: &impl Abort, alloc: Global, mut directory: D, steps: &str) {
    take_steps(rt, alloc, &mut directory, steps);
}

fn take_steps<D: Directory>(rt: &impl Abort, alloc: Global, directory: &mut D, steps: &str) {
    for line in steps.lines() {
        check(rt, answers(rt, alloc, directory, &step_of(line)), line);
    }
}

/// Whether a step has the answer that is wanted.
pub(crate) fn answers<D: Directory>(
    rt: &impl Abort,
    alloc: Global,
    directory: &mut D,
    step: &Step<'_>,
) -> bool {
    match step.verb {
        "has-child" => says(
            step.want,
            directory.has_child(&key_of(rt, alloc, step.given)),
        ),
        "height" => has_height(
            rt,
            alloc,
            directory,
            &key_of(rt, alloc, step.given),
            step.want,
        ),
        "spelled" => is_spelled(rt, alloc, directory, step.given, step.want),
        "walk" => is_walked(rt, alloc, directory, step.want),
        _ => changed(rt, alloc, directory, step),
    }
}

/// Whether a change is answered so: an entry that is replaced, taken out or moved had this RDN.
fn changed<D: Directory>(
    rt: &impl Abort,
    alloc: Global,
    directory: &mut D,
    step: &Step<'_>,
) -> bool {
    let former = match step.verb {
        "replace" => replaced(rt, alloc, directory, step.given),
        "move" => moved(rt, alloc, directory, step.given),
        "clone" => cloned(rt, alloc, directory, &key_of(rt, alloc, step.given)),
        "remove" => taken(rt, directory, &key_of(rt, alloc, step.given)),
        _ => return filled(rt, alloc, directory, step),
    };
    was(rt, alloc, step.want, former)
}

/// Whether an entry is put in or added with this answer.
fn filled<D: Directory>(
    rt: &impl Abort,
    alloc: Global,
    directory: &mut D,
    step: &Step<'_>,
) -> bool {
    match step.verb {
        "put" => fill(rt, alloc, directory, step.given),
        "add" => return is_added(rt, alloc, directory, step.given, step.want),
        "alike" => assert_alike(rt, alloc, directory),
        "levels" => assert_64_levels(rt, alloc, directory),
        "long-own-name" => assert_long_own_name(rt, alloc, directory),
        _ => return false,
    }
    step.want.is_empty()
}

/// Whether this comes of an entry that is added at this name. One that comes back is the one that was given.
fn is_added<D: Directory>(
    rt: &impl Abort,
    alloc: Global,
    directory: &mut D,
    text: &str,
    want: &str,
) -> bool {
    let entry = made(rt, alloc, text);
    match directory.add(alloc, &key_of(rt, alloc, text), entry) {
        Ok(()) => want == "added",
        Err(fault) => is_refused(rt, alloc, fault, text, want),
    }
}

fn is_refused(rt: &impl Abort, alloc: Global, fault: NotAdded, text: &str, want: &str) -> bool {
    match fault {
        NotAdded::Taken => want == "taken",
        NotAdded::NoParent(back) => {
            was(rt, alloc, split(text, ",").0, back) && want == "no parent"
        }
        NotAdded::Memory => panic!(rt; "memory"),
    }
}

/// Whether a walk meets entries of these names, in this order.
fn is_walked<D: Directory>(rt: &impl Abort, alloc: Global, directory: &D, want: &str) -> bool {
    let walk = directory.walk().expect(rt, "memory");
    are_names(rt, alloc, walk.as_slice(), want)
}

fn are_names(rt: &impl Abort, alloc: Global, walk: &[(Dn, &Entry)], want: &str) -> bool {
    let mut pieces = pieces(want);
    for item in walk {
        if !is_next_name(rt, alloc, &mut pieces, &item.0) {
            return false;
        }
    }
    pieces.is_none()
}

fn is_next_name(rt: &impl Abort, alloc: Global, pieces: &mut Option<&str>, name: &Dn) -> bool {
    is_next(pieces, name.print(alloc).expect(rt, "memory").as_slice())
}

/// Whether the entry at the key of this name is spelled so.
pub(crate) fn is_spelled<D: Directory>(
    rt: &impl Abort,
    alloc: Global,
    directory: &D,
    text: &str,
    want: &str,
) -> bool {
    has_spelling(rt, alloc, directory, &key_of(rt, alloc, text), want)
}

fn has_spelling<D: Directory>(
    rt: &impl Abort,
    alloc: Global,
    directory: &D,
    key: &DnKey,
    want: &str,
) -> bool {
    match directory.get(key) {
        Some(_) => names(
            rt,
            alloc,
            want,
            &directory.spelled(key).expect(rt, "memory"),
        ),
        None => false,
    }
}

/// Puts an entry of the second name in the place of the one at the first.
fn replaced<D: Directory>(rt: &impl Abort, alloc: Global, directory: &mut D, names: &str) -> Entry {
    let (old, new) = split(names, " by ");
    let entry = made(rt, alloc, new);
    exchange(rt, directory, &key_of(rt, alloc, old), entry)
}

/// Moves the entry at the first key, with what is below it, to the key of the second name.
fn moved<D: Directory>(rt: &impl Abort, alloc: Global, directory: &mut D, names: &str) -> Entry {
    let (old, new) = split(names, " to ");
    let key = key_of(rt, alloc, new);
    shift(rt, alloc, directory, &key_of(rt, alloc, old), &key, new)
}

/// Puts an entry in the place of the one at a key.
pub(crate) fn exchange<D: Directory>(
    rt: &impl Abort,
    directory: &mut D,
    key: &DnKey,
    entry: Entry,
) -> Entry {
    let Some(_) = directory.get(key) else {
        panic!(rt; "not there");
    };
    directory.replace(key, entry)
}

/// Puts a clone of the entry at a key in its place.
fn cloned<D: Directory>(rt: &impl Abort, alloc: Global, directory: &mut D, key: &DnKey) -> Entry {
    let Some(entry) = directory.get(key) else {
        panic!(rt; "not there");
    };
    let clone = clone_of(rt, alloc, entry);
    directory.replace(key, clone)
}

/// Takes out the entry at a key.
fn taken<D: Directory>(rt: &impl Abort, directory: &mut D, key: &DnKey) -> Entry {
    let Some(_) = directory.get(key) else {
        panic!(rt; "not there");
    };
    if directory.has_child(key) {
        panic!(rt; "has a child");
    }
    directory.remove_leaf(key)
}
