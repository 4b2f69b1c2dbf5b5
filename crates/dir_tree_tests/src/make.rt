//! What the tests are made of: names, keys, lines, entries and directories, each read from its text.

use crate::entries::last_answers;
use crate::script::{Step, is_shown, split};
use dir_names::{Bytes, Description, Dn, DnKey, Lines, Schema, ValueKey};
use dir_tree::{AttributeMap, AttributeViews, Directory, Entry, EntryFault, may_stand, own_rdns};
use std::alloc::Global;
use std::process::Abort;

pub(crate) fn schema(rt: &impl Abort, alloc: Global) -> Schema {
    Schema::builtin(alloc).expect(rt, "a schema")
}

pub(crate) fn name(rt: &impl Abort, alloc: Global, text: &str) -> Dn {
    Dn::read(alloc, text.as_bytes()).expect(rt, "a name")
}

pub(crate) fn key_of(rt: &impl Abort, alloc: Global, text: &str) -> DnKey {
    name(rt, alloc, text)
        .key(alloc, &schema(rt, alloc))
        .expect(rt, "a key")
}

pub(crate) fn description(rt: &impl Abort, alloc: Global, text: &str) -> Description {
    described(rt, alloc, &schema(rt, alloc), text)
}

pub(crate) fn described(
    rt: &impl Abort,
    alloc: Global,
    schema: &Schema,
    text: &str,
) -> Description {
    Description::read(alloc, schema, text.as_bytes()).expect(rt, "a description")
}

pub(crate) fn bytes(rt: &impl Abort, alloc: Global, text: &str) -> Bytes {
    Bytes::copy_of(alloc, text.as_bytes()).expect(rt, "memory")
}

/// The key of a value of this type.
pub(crate) fn value(rt: &impl Abort, alloc: Global, attr_type: &str, text: &str) -> ValueKey {
    keyed(rt, alloc, &schema(rt, alloc), attr_type, text)
}

/// The same, where there is a schema.
pub(crate) fn keyed(
    rt: &impl Abort,
    alloc: Global,
    schema: &Schema,
    attr_type: &str,
    text: &str,
) -> ValueKey {
    let description = described(rt, alloc, schema, attr_type);
    schema
        .value_key(alloc, description.key(), text.as_bytes())
        .expect(rt, "a key")
}

/// What an add makes of the text of an entry: its name, and then its lines, as in `cn=Kim | sn=Park`. Of the name the first
/// RDN is the entry's own, or all if it is the suffix's.
pub(crate) fn make(
    rt: &impl Abort,
    alloc: Global,
    text: &str,
    is_suffix: bool,
) -> Result<Entry, EntryFault> {
    let (own, lines) = split(text, " | ");
    let own = own_rdns(name(rt, alloc, own), is_suffix);
    Entry::make(alloc, &schema(rt, alloc), own, lines_of(rt, alloc, lines))
}

/// The entry of this text.
pub(crate) fn made(rt: &impl Abort, alloc: Global, text: &str) -> Entry {
    make(rt, alloc, text, false).expect(rt, "an entry")
}

/// The lines of a text.
pub(crate) fn lines_of(rt: &impl Abort, alloc: Global, text: &str) -> Lines {
    let mut items = Vec::new(alloc);
    for line in text.split(" | ") {
        if !line.is_empty() {
            items.push(line_of(rt, alloc, line)).expect(rt, "memory");
        }
    }
    Lines::new(items)
}

fn line_of(rt: &impl Abort, alloc: Global, line: &str) -> (Description, Bytes) {
    let (attr_type, text) = split(line, "=");
    (description(rt, alloc, attr_type), bytes(rt, alloc, text))
}

/// Puts the entry of a text at a key that may take it. Where memory runs out, the key must have no entry.
pub(crate) fn put<D: Directory>(
    rt: &impl Abort,
    alloc: Global,
    directory: &mut D,
    key: &DnKey,
    text: &str,
    is_suffix: bool,
) {
    if directory.get(key).is_some() {
        panic!(rt; "there already");
    }
    if !may_stand(alloc, directory, key).expect(rt, "memory") {
        panic!(rt; "no parent");
    }
    let entry = make(rt, alloc, text, is_suffix).expect(rt, "an entry");
    let Err(_back) = directory.insert(key, entry) else {
        return;
    };
    check(rt, directory.get(key).is_none(), "put in");
    panic!(rt; "memory");
}

/// Puts in the entry of a text.
pub(crate) fn fill<D: Directory>(rt: &impl Abort, alloc: Global, directory: &mut D, text: &str) {
    let key = key_of(rt, alloc, split(text, " | ").0);
    let is_suffix = &key == directory.suffix();
    put(rt, alloc, directory, &key, text, is_suffix);
}

pub(crate) fn clone_of(rt: &impl Abort, alloc: Global, entry: &Entry) -> Entry {
    entry.try_clone(alloc).expect(rt, "memory")
}

/// How many attributes a map has.
pub(crate) fn map_count(attributes: &AttributeMap) -> usize {
    let mut count: usize = 0;
    for _ in attributes.iter() {
        count = count.saturating_add(1);
    }
    count
}

/// How many attributes are seen.
pub(crate) fn view_count(attributes: AttributeViews<'_>) -> usize {
    let mut count: usize = 0;
    for _ in attributes {
        count = count.saturating_add(1);
    }
    count
}

/// Ends the test with this text unless this holds. Each `assert!` makes the proof of its function longer; a call is cheaper.
pub(crate) fn check(rt: &impl Abort, holds: bool, what: &str) {
    assert!(rt; holds, "{what}");
}

/// Whether a fault shows its text, and no other under `#`.
pub(crate) fn is_fault(rt: &impl Abort, alloc: Global, fault: EntryFault, want: &str) -> bool {
    is_shown(rt, format!(in alloc; "{fault}"), want)
        && is_shown(rt, format!(in alloc; "{fault:#}"), want)
}

/// Whether an entry is made with the lines of this text, or refused for this fault.
pub(crate) fn is_made(
    rt: &impl Abort,
    alloc: Global,
    outcome: Result<Entry, EntryFault>,
    text: &str,
    want: &str,
) -> bool {
    match outcome {
        Ok(entry) => {
            let step = Step {
                verb: "lines",
                given: text,
                want: "yes",
            };
            last_answers(rt, alloc, entry, &step) && want == "made"
        }
        Err(fault) => is_fault(rt, alloc, fault, want),
    }
}
