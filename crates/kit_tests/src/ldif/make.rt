//! What the tests are made of: names, changes, and the answers on a text.

use dir_ldif::{Change, ChangeKind, Mod, ModOp, Mods, Record, RecordFault, StreamFault, read_all};
use dir_names::{Bytes, Description, Dn, Lines, Rdn, Schema, Texts};
use std::alloc::Global;
use std::process::Abort;

/// The answer on one record: the number of its first line, and the record or its fault.
pub(crate) type Answer = (u64, Result<Record, RecordFault>);

/// What a change does. Each of its values is one byte, so many times.
pub(crate) enum Does {
    /// The add of an entry that has one value.
    Add(&'static str, u8, usize),
    Delete,
    /// The modify that adds one value of `sn`.
    Modify(u8, usize),
    /// The rename to an RDN that deletes the old values; below another entry, if there is its name.
    Rename(&'static str, Option<&'static str>),
}

pub(crate) fn schema(rt: &impl Abort, alloc: Global) -> Schema {
    Schema::builtin(alloc).expect(rt, "a schema")
}

pub(crate) fn name(rt: &impl Abort, alloc: Global, text: &str) -> Dn {
    Dn::read(alloc, text.as_bytes()).expect(rt, "a name")
}

fn description(rt: &impl Abort, alloc: Global, text: &str) -> Description {
    Description::read(alloc, &schema(rt, alloc), text.as_bytes()).expect(rt, "a description")
}

/// A value of so many of this byte.
fn value(rt: &impl Abort, alloc: Global, byte: u8, length: usize) -> Bytes {
    Bytes::new(vec![in alloc; byte; length].expect(rt, "memory"))
}

pub(crate) fn change(rt: &impl Abort, alloc: Global, dn: &str, does: &Does) -> Change {
    let dn = name(rt, alloc, dn);
    let kind = match does {
        Does::Add(attr_type, byte, length) => {
            ChangeKind::Add(one_line(rt, alloc, attr_type, *byte, *length))
        }
        Does::Delete => ChangeKind::Delete,
        Does::Modify(byte, length) => ChangeKind::Modify(added_mods(rt, alloc, *byte, *length)),
        Does::Rename(newrdn, superior) => rename(rt, alloc, newrdn, superior),
    };
    Change { dn, kind }
}

/// The lines of an entry that has one value.
fn one_line(rt: &impl Abort, alloc: Global, attr_type: &str, byte: u8, length: usize) -> Lines {
    let value = value(rt, alloc, byte, length);
    let mut items = Vec::new(alloc);
    items
        .push((description(rt, alloc, attr_type), value))
        .expect(rt, "memory");
    Lines::new(items)
}

/// The modifications that add one value of `sn`.
pub(crate) fn added_mods(rt: &impl Abort, alloc: Global, byte: u8, length: usize) -> Mods {
    let mut mods = Vec::new(alloc);
    mods.push(added_value(rt, alloc, byte, length))
        .expect(rt, "memory");
    Mods::new(mods)
}

/// The add of one value of `sn`.
fn added_value(rt: &impl Abort, alloc: Global, byte: u8, length: usize) -> Mod {
    let mut values = Vec::new(alloc);
    values
        .push(value(rt, alloc, byte, length))
        .expect(rt, "memory");
    Mod {
        op: ModOp::Add,
        description: description(rt, alloc, "sn"),
        values: Texts::new(values),
    }
}

fn rename(rt: &impl Abort, alloc: Global, newrdn: &str, superior: &Option<&str>) -> ChangeKind {
    ChangeKind::Rename {
        newrdn: Rdn::read(alloc, newrdn.as_bytes()).expect(rt, "an RDN"),
        delete_old: true,
        newsuperior: match superior {
            Some(text) => Some(name(rt, alloc, text)),
            None => None,
        },
    }
}

/// The answers on a text that is read at once.
pub(crate) fn answers(
    rt: &impl Abort,
    alloc: Global,
    text: &[u8],
) -> Result<Vec<Answer>, StreamFault> {
    read_all(alloc, &schema(rt, alloc), text)
}
