//! How many records a text has.

use dir_ldif::{RecordReader, Source};
use dir_names::Schema;
use std::alloc::Global;

/// How many records a text has.
#[derive(Clone, Copy, PartialEq, Eq, Debug)]
pub struct RecordCount {
    /// How many were found, those with a fault too.
    pub records: u64,
    /// Whether the text was read to its end. Else it has at least so many: a line was too long, its version is another one, it could not be read, or memory ran
    /// out.
    pub is_all: bool,
}

/// Counts the records of a text of LDIF.
pub fn count_records<S: Source + Drop>(alloc: Global, schema: &Schema, source: S) -> RecordCount {
    let mut records: u64 = 0;
    let Ok(mut reader) = RecordReader::new(alloc, schema, source) else {
        return RecordCount {
            records,
            is_all: false,
        };
    };
    loop {
        match reader.next() {
            Ok(Some(_)) => records = records.saturating_add(1),
            Ok(None) => {
                return RecordCount {
                    records,
                    is_all: true,
                };
            }
            Err(_) => {
                return RecordCount {
                    records,
                    is_all: false,
                };
            }
        }
    }
}
