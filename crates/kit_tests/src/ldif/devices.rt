//! What scripts give, and std's readers and writers as devices.

use dir_ldif::{DeviceFault, Reader, Script, Sink, Source, Writer, write_whole};
use std::alloc::Global;
use std::io::{self, ErrorKind, Read, Write};
use std::process::Abort;

/// Asserts what a source gives in some calls, with room for four bytes in each: each piece after a `|`, and `!` for a
/// fault.
fn assert_gives<S: Source + Drop>(
    rt: &impl Abort,
    alloc: Global,
    mut source: S,
    calls: usize,
    want: &str,
) {
    let mut out = Vec::new(alloc);
    for _ in 0..calls {
        push_piece(rt, &mut source, &mut out);
    }
    assert!(rt; out.as_slice() == want.as_bytes(), "{want}");
}

fn push_piece<S: Source>(rt: &impl Abort, source: &mut S, out: &mut Vec<u8>) {
    let mut room = [0u8; 4];
    match source.read(&mut room) {
        Ok(n) => {
            out.push(b'|').expect(rt, "memory");
            out.extend_from_slice(&room[..n]).expect(rt, "memory");
        }
        Err(DeviceFault) => out.push(b'!').expect(rt, "memory"),
    }
}

/// How a script gives its text.
pub(crate) enum Way {
    Pieces(usize),
    FirstPiece(usize),
    Endless,
    FailingFrom(u64),
}

/// A script of this text, which gives it in all of these ways.
pub(crate) fn script<'a>(text: &'a str, ways: &[Way]) -> Script<'a> {
    let mut script = Script::new(text.as_bytes());
    for way in ways {
        script = match way {
            Way::Pieces(size) => script.pieces(*size),
            Way::FirstPiece(size) => script.first_piece(*size),
            Way::Endless => script.endless(),
            Way::FailingFrom(call) => script.failing_from(*call),
        };
    }
    script
}

/// Texts, how a script gives them, and what it gives in so many calls.
static GIVEN: [(&str, &[Way], usize, &str); 15] = [
    // All at once, or in pieces.
    ("abcdef", &[], 4, "|abcd|ef||"),
    ("abcdef", &[Way::Pieces(3)], 4, "|abc|def||"),
    ("abcdef", &[Way::Pieces(0)], 4, "|a|b|c|d"),
    ("abcdef", &[Way::FirstPiece(1)], 4, "|a|bcde|f|"),
    (
        "abcdef",
        &[Way::Pieces(2), Way::FirstPiece(3)],
        4,
        "|abc|de|f|",
    ),
    // To its end, to a fault or on and on.
    ("abcdef", &[Way::Endless], 4, "|abcd|ef|abcd|ef"),
    ("abcdef", &[Way::FailingFrom(1)], 4, "!!!!"),
    ("abcdef", &[Way::FailingFrom(3)], 4, "|abcd|ef!!"),
    ("", &[], 4, "||||"),
    ("", &[Way::Endless], 4, "||||"),
    // Over and over.
    ("abc", &[Way::Endless], 7, "|abc|abc|abc|abc|abc|abc|abc"),
    ("abc", &[Way::Endless, Way::Pieces(1)], 7, "|a|b|c|a|b|c|a"),
    (
        "abc",
        &[Way::Pieces(2), Way::Endless],
        7,
        "|ab|c|ab|c|ab|c|ab",
    ),
    (
        "abc",
        &[Way::FirstPiece(1), Way::Endless],
        7,
        "|a|bc|abc|abc|abc|abc|abc",
    ),
    (
        "abc",
        &[Way::Endless, Way::FailingFrom(3)],
        7,
        "|abc|abc!!!!!",
    ),
];

#[test]
fn scripts_give_their_texts(rt: HostRuntime) {
    for (text, ways, calls, want) in &GIVEN {
        assert_gives(&rt, rt.alloc(), script(text, ways), *calls, want);
    }
}

/// A device that counts its calls, and fails in those from one to another. It gives or takes one byte in a call.
#[derive(Drop)]
struct Counting<'a> {
    calls: &'a mut usize,
    failing: (usize, usize),
    kind: ErrorKind,
}

impl Counting<'_> {
    fn call(&mut self) -> io::Result<()> {
        *self.calls = self.calls.saturating_add(1);
        let (first, last) = self.failing;
        if first <= *self.calls && *self.calls <= last {
            return Err(io::Error::from(self.kind));
        }
        Ok(())
    }
}

impl Read for Counting<'_> {
    fn read(&mut self, buf: &mut [u8]) -> io::Result<usize> {
        self.call()?;
        match buf.first_mut() {
            Some(first) => {
                *first = b'x';
                Ok(1)
            }
            None => Ok(0),
        }
    }
}

impl Write for Counting<'_> {
    fn write(&mut self, buf: &[u8]) -> io::Result<usize> {
        self.call()?;
        Ok(buf.len().min(1))
    }

    fn flush(&mut self) -> io::Result<()> {
        self.call()
    }
}

/// The calls of three that fail, and what they give.
static READ_CALLS: [((usize, usize), ErrorKind, &str); 5] = [
    ((1, 1), ErrorKind::Interrupted, "!|x|x"),
    ((2, 2), ErrorKind::Interrupted, "|x!|x"),
    ((3, 3), ErrorKind::Interrupted, "|x|x!"),
    ((4, 4), ErrorKind::Interrupted, "|x|x|x"),
    ((1, 3), ErrorKind::Other, "!!!"),
];

#[test]
fn each_read_is_passed_on_once(rt: HostRuntime) {
    for (failing, kind, want) in &READ_CALLS {
        let mut calls = 0usize;
        let reader = Reader::new(Counting {
            calls: &mut calls,
            failing: *failing,
            kind: *kind,
        });
        assert_gives(&rt, rt.alloc(), reader, 3, want);
        assert!(rt; calls == 3);
    }
}

/// What a write and a flush answer, twice.
type FourCalls = [(Result<usize, DeviceFault>, Result<(), DeviceFault>); 2];

/// The calls of four that fail, and what they answer.
const WRITE_CALLS: [((usize, usize), ErrorKind, FourCalls); 5] = [
    (
        (1, 1),
        ErrorKind::Interrupted,
        [(Err(DeviceFault), Ok(())), (Ok(1), Ok(()))],
    ),
    (
        (2, 2),
        ErrorKind::Interrupted,
        [(Ok(1), Err(DeviceFault)), (Ok(1), Ok(()))],
    ),
    (
        (3, 3),
        ErrorKind::Interrupted,
        [(Ok(1), Ok(())), (Err(DeviceFault), Ok(()))],
    ),
    (
        (4, 4),
        ErrorKind::Interrupted,
        [(Ok(1), Ok(())), (Ok(1), Err(DeviceFault))],
    ),
    (
        (1, 4),
        ErrorKind::Other,
        [
            (Err(DeviceFault), Err(DeviceFault)),
            (Err(DeviceFault), Err(DeviceFault)),
        ],
    ),
];

#[test]
fn each_write_and_flush_is_passed_on_once(rt: HostRuntime) {
    for (failing, kind, want) in &WRITE_CALLS {
        let mut calls = 0usize;
        let writer = Writer::new(Counting {
            calls: &mut calls,
            failing: *failing,
            kind: *kind,
        });
        assert_four_calls(&rt, writer, want);
        assert!(rt; calls == 4);
    }
}

fn assert_four_calls<W: Sink + Drop>(rt: &impl Abort, mut sink: W, want: &FourCalls) {
    for (taken, flushed) in want {
        assert!(rt; sink.write(b"ab") == *taken);
        assert!(rt; sink.flush() == *flushed);
    }
}

/// A text, and a flush.
pub(crate) fn written<W: Sink + Drop>(mut sink: W, text: &[u8]) -> Result<(), DeviceFault> {
    write_whole(&mut sink, text)?;
    sink.flush()
}

#[test]
fn readers_and_writers_of_the_standard_library_are_devices(rt: HostRuntime) {
    assert_gives(
        &rt,
        rt.alloc(),
        Reader::new(b"abcdef".as_slice()),
        3,
        "|abcd|ef|",
    );
    let mut taken = Vec::new(rt.alloc());
    assert!(rt; written(Writer::new(&mut taken), b"abc") == Ok(()));
    assert!(rt; taken.as_slice() == b"abc".as_slice());
    let mut calls = 0usize;
    let failing = Counting {
        calls: &mut calls,
        failing: (1, 1),
        kind: ErrorKind::Other,
    };
    assert!(rt; written(Writer::new(failing), b"abc") == Err(DeviceFault));
}
