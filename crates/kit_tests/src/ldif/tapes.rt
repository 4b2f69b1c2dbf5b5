//! What tapes take.

use crate::ldif::devices::written;
use dir_ldif::{DeviceFault, Sink, Tape, write_whole};
use std::process::Abort;

/// A call of a tape and its answer, or what the tape has taken or flushed.
enum Step {
    Write(&'static str, Result<usize, DeviceFault>),
    WriteWhole(&'static str, Result<(), DeviceFault>),
    Flush(Result<(), DeviceFault>),
    /// A text and a flush, by the tape that is lent.
    Lent(&'static str, Result<(), DeviceFault>),
    Taken(&'static str),
    Flushed(&'static str),
}

/// A tape, and what it does.
struct Row {
    /// At most 8 bytes.
    room: usize,
    pieces: Option<usize>,
    failing_from: Option<u64>,
    steps: &'static [Step],
}

static ROWS: [Row; 6] = [
    // A tape takes pieces.
    Row {
        room: 6,
        pieces: Some(4),
        failing_from: None,
        steps: &[
            Step::Taken(""),
            Step::Write("abcdef", Ok(4)),
            Step::Flush(Ok(())),
            Step::Write("ef", Ok(2)),
            Step::Write("g", Ok(0)),
            Step::Taken("abcdef"),
            Step::Flushed("abcd"),
        ],
    },
    // It takes some, and stalls.
    Row {
        room: 8,
        pieces: Some(3),
        failing_from: None,
        steps: &[
            Step::WriteWhole("abcdef", Ok(())),
            Step::Taken("abcdef"),
            Step::WriteWhole("ghi", Err(DeviceFault)),
            Step::Taken("abcdefgh"),
        ],
    },
    // A stalled tape takes nothing.
    Row {
        room: 6,
        pieces: Some(0),
        failing_from: None,
        steps: &[
            Step::WriteWhole("", Ok(())),
            Step::WriteWhole("a", Err(DeviceFault)),
            Step::Taken(""),
        ],
    },
    // Writes and flushes are counted together.
    Row {
        room: 6,
        pieces: Some(1),
        failing_from: Some(3),
        steps: &[
            Step::Flush(Ok(())),
            Step::WriteWhole("ab", Err(DeviceFault)),
            Step::Flush(Err(DeviceFault)),
            Step::Taken("a"),
        ],
    },
    // A tape fails at a flush.
    Row {
        room: 8,
        pieces: None,
        failing_from: Some(2),
        steps: &[
            Step::WriteWhole("abc", Ok(())),
            Step::Flush(Err(DeviceFault)),
            Step::Taken("abc"),
        ],
    },
    // A lent tape is a sink.
    Row {
        room: 6,
        pieces: Some(2),
        failing_from: Some(5),
        steps: &[
            Step::Lent("abc", Ok(())),
            Step::Flushed("abc"),
            Step::Lent("d", Err(DeviceFault)),
            Step::Taken("abcd"),
            Step::Flushed("abc"),
        ],
    },
];

#[test]
fn tapes_take_what_they_have_room_for(rt: HostRuntime) {
    for row in &ROWS {
        assert_row(&rt, row);
    }
}

fn assert_row(rt: &impl Abort, row: &Row) {
    let mut room = [0u8; 8];
    let mut tape = tape_of(&mut room[..row.room.min(8)], row);
    for step in row.steps {
        assert_step(rt, &mut tape, step);
    }
}

fn tape_of<'a>(room: &'a mut [u8], row: &Row) -> Tape<'a> {
    let mut tape = Tape::new(room);
    if let Some(most) = row.pieces {
        tape = tape.pieces(most);
    }
    if let Some(call) = row.failing_from {
        tape = tape.failing_from(call);
    }
    tape
}

fn assert_step(rt: &impl Abort, tape: &mut Tape, step: &Step) {
    match step {
        Step::Write(text, want) => assert!(rt; tape.write(text.as_bytes()) == *want),
        Step::WriteWhole(text, want) => { assert!(rt; write_whole(tape, text.as_bytes()) == *want) }
        Step::Flush(want) => assert!(rt; tape.flush() == *want),
        Step::Lent(text, want) => assert!(rt; written(tape, text.as_bytes()) == *want),
        Step::Taken(want) => assert!(rt; tape.as_slice() == want.as_bytes()),
        Step::Flushed(want) => assert!(rt; tape.flushed() == want.as_bytes()),
    }
}
