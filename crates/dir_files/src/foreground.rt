//! Whether a shell has put this process into the background: then another group of processes has the terminal.

use crate::proc::{ROOM, told};
use std::fs;
use std::os::unix::fs::MetadataExt;
use std::rt::Files;

/// Where the system tells of this process.
const PROCESS: &str = "/proc/self/stat";

/// The file that standard error is.
const STANDARD_ERROR: &str = "/proc/self/fd/2";

/// The number of the device `/dev/tty`, which is whatever terminal controls a process (tty(4)).
const OWN_TERMINAL: u64 = 5 << 8;

/// Whether standard error is the terminal that controls this process, and another group of processes is in its
/// foreground (tcgetpgrp(3)). It is not where the system doesn't tell.
pub fn is_in_background<R: Files>(rt: &R) -> bool {
    match (told_job(rt), fs::metadata(rt, STANDARD_ERROR)) {
        (Some(job), Ok(file)) => job.is_behind(file.rdev()),
        _ => false,
    }
}

/// A group of processes, and the terminal that controls it.
#[derive(Clone, Copy)]
struct Job {
    group: i32,
    /// The number of the terminal's device.
    terminal: u64,
    /// The group in the terminal's foreground.
    foreground: i32,
}

impl Job {
    /// Whether another group has the terminal that is this device.
    fn is_behind(self, device: u64) -> bool {
        self.group != self.foreground && (device == self.terminal || device == OWN_TERMINAL)
    }
}

fn told_job<R: Files>(rt: &R) -> Option<Job> {
    let mut room = [0u8; ROOM];
    job_in(told(rt, PROCESS, &mut room)?)
}

/// The fields after the program's name, which is in parentheses and may have some itself: the state, the parent, the
/// group, the session, the terminal and the group in its foreground.
fn job_in(text: &str) -> Option<Job> {
    let (_, fields) = text.rsplit_once(')')?;
    let mut fields = fields.split_ascii_whitespace().skip(2);
    let group = fields.next()?.parse::<i32>().ok()?;
    let mut fields = fields.skip(1);
    let terminal = fields.next()?.parse::<u64>().ok()?;
    let foreground = fields.next()?.parse::<i32>().ok()?;
    Some(Job {
        group,
        terminal,
        foreground,
    })
}
