//! Names that are read one after the other by one reader.

use crate::make::{check, schema};
use dir_names::{NameReader, Schema};
use std::alloc::Global;
use std::process::Abort;

/// More names than those that are read before parents are remembered.
const NAMES_BEFORE: usize = 70;

/// What names are read by.
#[derive(Drop)]
pub(crate) struct Reader {
    pub(crate) schema: Schema,
    pub(crate) names: NameReader,
}

/// A reader that has read more than the first names.
pub(crate) fn used_reader(rt: &impl Abort, alloc: Global) -> Reader {
    let mut reader = Reader {
        schema: schema(rt, alloc),
        names: NameReader::new(alloc),
    };
    for _ in 0..NAMES_BEFORE {
        let name = reader.names.read(alloc, &reader.schema, b"cn=a,dc=net");
        check(rt, name.is_ok(), "a name");
    }
    reader
}

/// What is shown of each row that a reader reads, a text of fields.
pub(crate) trait Reads {
    fn holds(rt: &impl Abort, alloc: Global, reader: &mut Reader, row: &str) -> bool;
}

/// Has one reader read the rows of these tables, and ends the test at the first row for which this is not so.
pub(crate) fn each_in_turn<R: Reads>(rt: &impl Abort, alloc: Global, tables: &[&[&str]]) {
    let mut reader = used_reader(rt, alloc);
    for rows in tables {
        for row in *rows {
            check(rt, R::holds(rt, alloc, &mut reader, row), row);
        }
    }
    drop(reader);
}
