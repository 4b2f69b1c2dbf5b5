//! What the system tells of this process in its texts below `/proc` (proc(5)).

use crate::devices::PatientReader;
use dir_ldif::Source;
use std::fs::File;
use std::rt::Files;

/// Room for each text that is asked for, in bytes. The system gives it whole in one read.
pub const ROOM: usize = 4096;

/// The text at this path, or none where the system doesn't tell.
pub fn told<'a, R: Files>(rt: &R, path: &str, room: &'a mut [u8]) -> Option<&'a str> {
    let file = File::open(rt, path).ok()?;
    let n = PatientReader::new(file).read(room).ok()?;
    std::str::from_utf8(&room[..n]).ok()
}
