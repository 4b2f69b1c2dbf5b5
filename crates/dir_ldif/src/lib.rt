//! LDIF (RFC 2849): devices that give and take bytes, records, and a reader and a writer of their text.
#![tactic(auto)]

mod device;
mod faults;
mod laws;
mod reader;
mod records;
mod scan;
mod writer;

pub use device::{
    DeviceFault, Reader, Script, Sink, Source, Tape, Writer, write_flushed, write_whole,
};
pub use faults::{RecordFault, StreamFault};
pub use laws::{
    first_records_are_sound, legal_changes_have_no_fault, long_lines_stay, marked_groups_read_back,
    marks_are_known, read_calls_are_used, reading_ends_soon, reading_stops_there,
    records_are_sound, texts_are_blocks, written_blocks_read_back, written_lines_are_folded,
    written_lines_read_back, written_records_read_back,
};
pub use reader::{
    Line, MAX_LINE, MAX_TURNS, MAX_VALUE, RecordReader, line_parts, read_all, read_blocks,
};
pub use records::{Change, ChangeKind, Mod, ModOp, Mods, Record};
pub use writer::{
    push_change, push_end, push_line, push_mark, push_name, push_record, record_text,
};
