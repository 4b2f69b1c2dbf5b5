//! The same records over a flat directory, one map of whole names: what the tree of a run is compared with.

use crate::tools::running::{Ran, Run, WHOLE, assert_text, text_of, types_of, zeros};
use dir_change::{History, Refusal, apply};
use dir_ldif::{Record, RecordFault, RecordReader, Script, Tape};
use dir_names::{Dn, Schema};
use dir_tools::{ToolFault, read_copy, write_copy};
use dir_tree::FlatDirectory;
use std::alloc::Global;
use std::process::Abort;

/// The flat directory of a copy that is read in pieces of this size.
fn directory_of(
    rt: &impl Abort,
    alloc: Global,
    schema: &Schema,
    piece: usize,
    one: &Run<'_>,
) -> Result<FlatDirectory, ToolFault> {
    let name = Dn::read(alloc, one.suffix.as_bytes()).expect(rt, "memory");
    let empty = FlatDirectory::new(alloc, name.key(alloc, schema).expect(rt, "memory"));
    let mut copy = Script::new(one.copy.as_bytes()).pieces(piece);
    read_copy(alloc, schema, empty, &mut copy)
}

/// Applies a record, and keeps what takes it back. Whether it was accepted.
fn apply_record(
    rt: &impl Abort,
    alloc: Global,
    schema: &Schema,
    directory: &mut FlatDirectory,
    history: &mut History,
    record: &Result<Record, RecordFault>,
) -> bool {
    let Ok(Record::Change(change)) = record else {
        return false;
    };
    match apply(alloc, schema, directory, change) {
        Ok(undo) => {
            history.push(undo).expect(rt, "memory");
            true
        }
        Err(Refusal::Memory) => panic!(rt; "memory"),
        Err(Refusal::Code(_)) => false,
    }
}

/// Applies the next record of a text, if there is one. Whether it was accepted.
fn apply_next(
    rt: &impl Abort,
    alloc: Global,
    schema: &Schema,
    directory: &mut FlatDirectory,
    history: &mut History,
    reader: &mut RecordReader<'_, Script<'_>>,
) -> Option<bool> {
    let (_, record) = reader.next().expect(rt, "memory")?;
    Some(apply_record(rt, alloc, schema, directory, history, &record))
}

/// Applies the records of changes, and gives the text that takes them back.
fn undo_text_of(
    rt: &impl Abort,
    alloc: Global,
    schema: &Schema,
    directory: &mut FlatDirectory,
    one: &Run<'_>,
) -> Vec<u8> {
    let mut history = History::new(alloc);
    let changes = Script::new(one.changes.as_bytes());
    let reader = match one.options.last {
        Some(groups) => RecordReader::up_to(alloc, schema, changes, groups),
        None => RecordReader::new(alloc, schema, changes),
    };
    let mut reader = reader.expect(rt, "memory");
    for _ in 0..one.changes.len() {
        match apply_next(rt, alloc, schema, directory, &mut history, &mut reader) {
            Some(is_accepted) if is_accepted || one.options.go_on => {}
            _ => break,
        }
    }
    history.undo_text(alloc).expect(rt, "memory")
}

/// Asserts the canonical text of a directory, which is written in pieces of this size.
fn assert_copy(
    rt: &impl Abort,
    alloc: Global,
    directory: &FlatDirectory,
    piece: usize,
    want: &str,
) {
    let mut room = zeros(rt, alloc, 65536);
    let mut out = Tape::new(room.as_mut_slice()).pieces(piece);
    write_copy(alloc, directory, &mut out).expect(rt, "memory");
    assert_text(
        rt,
        "another copy over a flat directory",
        text_of(rt, out.as_slice()),
        want,
    );
}

/// Asserts the undo text that the records of a run give over a flat directory.
fn assert_undo(
    rt: &impl Abort,
    alloc: Global,
    schema: &Schema,
    directory: &mut FlatDirectory,
    one: &Run<'_>,
    ran: &Ran,
) {
    let undo = undo_text_of(rt, alloc, schema, directory, one);
    assert_text(
        rt,
        "another undo text over a flat directory",
        text_of(rt, undo.as_slice()),
        ran.undo.as_str(),
    );
}

/// Asserts that the records of a run give the same texts over a flat directory as those that it wrote, or the copy the same
/// fault.
pub(crate) fn assert_flat(rt: &impl Abort, alloc: Global, piece: usize, one: &Run<'_>, ran: &Ran) {
    let schema = types_of(rt, alloc, &WHOLE, one).expect(rt, "types");
    match directory_of(rt, alloc, &schema, piece, one) {
        Ok(mut directory) => {
            assert_undo(rt, alloc, &schema, &mut directory, one, ran);
            assert_copy(rt, alloc, &directory, piece, ran.out.as_str());
        }
        Err(ToolFault::Memory) => panic!(rt; "memory"),
        Err(fault) => assert_fault(rt, ran, fault),
    }
}

fn assert_fault(rt: &impl Abort, ran: &Ran, fault: ToolFault) {
    assert!(rt;
        ran.answer == Err(fault),
        "another fault over a flat directory"
    );
}
