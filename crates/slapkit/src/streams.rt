//! The standard streams. The number of one that is closed when the program starts must not become that of another
//! file: its text would be read as changes, or have the report or a fault's text in it.

ghost use Rattle.std.specs.Prelude.{◌↔◌, ◌≤ℤ◌, IsTrue, pos};

use std::fs::File;
use std::io;
use std::os::fd::AsRawFd;

/// The greatest number of a standard stream, which is that of standard error.
const LAST_STREAM: i32 = 2;

/// What holds the numbers of the standard streams that were closed.
#[derive(Drop)]
pub struct HeldStreams {
    _files: [Option<File>; 3],
}

impl HeldStreams {
    /// What can be opened by everyone, and neither read as a text nor written.
    pub const PATH: &'static str = "/";

    /// Holds them, before anything else is opened. Whoever reads or writes such a stream gets an error, as if
    /// it were closed.
    ///
    /// # Errors
    ///
    /// `PATH` can't be opened.
    pub fn new(rt: &HostRuntime) -> io::Result<HeldStreams> {
        // The system gives a new file the least number that is free.
        let first = held_stream(rt)?;
        let second = held_stream(rt)?;
        let third = held_stream(rt)?;
        Ok(HeldStreams {
            _files: [first, second, third],
        })
    }
}

/// Holds a standard stream that is closed, if there is one.
fn held_stream(rt: &HostRuntime) -> io::Result<Option<File>> {
    let file = File::open(rt, HeldStreams::PATH)?;
    if is_standard(file.as_raw_fd()) {
        Ok(Some(file))
    } else {
        Ok(None)
    }
}

/// Whether a file of this number is a standard stream.
fn is_standard(number: i32) -> bool
    ensures { IsTrue result ↔ (number ≤ℤ pos 2) }
{
    number <= LAST_STREAM
}
