//! How the names of a copy go with the suffix.

use dir_ldif::{Record, RecordReader, Source};
use dir_names::{Dn, DnKey, Schema};
use std::alloc::Global;

/// How the names of a copy go with the suffix.
#[derive(Debug, Drop)]
pub enum CopyNames {
    /// It has no record.
    Empty,
    /// A record has the suffix's name.
    HasSuffix,
    /// No record has it. The name of the first one, as LDIF has it.
    Others(Vec<u8>),
}

/// Looks in a copy for a record of the suffix's name. None where that can't be told: a record can't be read, or memory runs out.
pub fn names_in<S: Source + Drop>(
    alloc: Global,
    schema: &Schema,
    suffix: &DnKey,
    source: S,
) -> Option<CopyNames> {
    let mut reader = RecordReader::new(alloc, schema, source).ok()?;
    let Some((_, first)) = reader.next().ok()? else {
        return Some(CopyNames::Empty);
    };
    let first = first.ok()?;
    if is_named(alloc, schema, suffix, &first)? {
        return Some(CopyNames::HasSuffix);
    }
    let first = name_of(&first).print(alloc).ok()?;
    while let Some((_, record)) = reader.next().ok()? {
        if is_named(alloc, schema, suffix, &record.ok()?)? {
            return Some(CopyNames::HasSuffix);
        }
    }
    Some(CopyNames::Others(first))
}

/// Whether a record has this name.
fn is_named(alloc: Global, schema: &Schema, name: &DnKey, record: &Record) -> Option<bool> {
    let key = name_of(record).key(alloc, schema).ok()?;
    Some(key == *name)
}

/// The name of a record.
fn name_of(record: &Record) -> &Dn {
    match record {
        Record::Content { dn, .. } => dn,
        Record::Change(change) => &change.dn,
    }
}
