//! Paths that must differ, and the texts of faults and of progress.

use crate::runs::STOP;
use dir_conf::{ConfFault, FileFault};
use dir_files::slapmodify::first_repeated;
use dir_files::{Amount, Doing, Fault, ModifyWords, Progress};
use dir_ldif::RecordFault;
use dir_names::NameFault;
use dir_tools::{Cause, ToolFault};
use std::alloc::Global;
use std::fmt::Display;
use std::io;
use std::process::Abort;

#[test]
fn the_first_path_that_is_repeated_is_found(rt: HostRuntime) {
    let words = ModifyWords {
        suffix: "dc=com",
        data: "a",
        out: Some("f"),
        undo: Some("a"),
        changes: Some("a"),
        config: Some("f"),
        options: STOP,
    };
    assert!(&rt; first_repeated(&words) == Some("f"));
}

/// Faults, and the text of each.
const FAULTS: [(Fault<'static>, &str); 11] = [
    (Fault::SamePath("a"), "same path twice: a"),
    (Fault::CannotOpen("a"), "cannot open a"),
    (
        Fault::CannotOpen("\tM\u{fc}ller\u{9b}\n\x7f"),
        "cannot open \\x09M\u{fc}ller\\x9b\\x0a\\x7f",
    ),
    (Fault::Exists("a"), "exists already: a"),
    (Fault::NotesUntold, "cannot write notes"),
    (Fault::FlatUnwritten, "cannot write flat configuration"),
    (
        Fault::Conf(FileFault {
            file: None,
            fault: ConfFault::NoDatabase,
        }),
        "config: K4 NoDatabase",
    ),
    (
        Fault::Conf(FileFault {
            file: None,
            fault: ConfFault::BadOrder(7),
        }),
        "config, line 7: K2 BadOrder",
    ),
    (
        Fault::TooFewGroups {
            wanted: 3,
            groups: 2,
        },
        "cannot go back 3, only 2 groups",
    ),
    (
        Fault::TooFewGroups {
            wanted: u64::MAX,
            groups: 0,
        },
        "cannot go back 18446744073709551615, only 0 groups",
    ),
    (
        Fault::Tool(ToolFault::BadCopy(7, Cause::Fault(RecordFault::Name(NameFault::BadDn)))),
        "copy, line 7: L9 N4 BadDn",
    ),
];

#[test]
fn each_fault_has_its_text(rt: HostRuntime) {
    for (fault, want) in &FAULTS {
        assert_shows(&rt, rt.alloc(), fault, want);
    }
    let no_words = Fault::NoWords(io::Error::from(io::ErrorKind::InvalidData));
    let want = "cannot read the command line: invalid data";
    assert_shows(&rt, rt.alloc(), &no_words, want);
}

/// What is done with a text, its path, how much of it is done, its size, and what is told.
static PROGRESS: [(Doing, &str, u64, Option<u64>, &str); 9] = [
    (
        Doing::Reading,
        "a",
        48_999_999,
        Some(98_200_000),
        "reading a, 48 of 98 MB",
    ),
    (
        Doing::Reading,
        "a",
        0,
        Some(1_000_000),
        "reading a, 0 of 1 MB",
    ),
    (Doing::Reading, "a", 999_999, Some(999_999), "reading a"),
    // more than the size was read: it is another one
    (
        Doing::Reading,
        "a",
        12_000_000,
        Some(11_999_999),
        "reading a, 12 MB",
    ),
    (Doing::Reading, "\x1b[2J", 999_999, None, "reading \\x1b[2J"),
    (Doing::HasRead, "a", 12_000_000, None, "read a, 12 MB"),
    (Doing::Writing, "a", 8_388_608, None, "writing a, 8 MB"),
    (
        Doing::Syncing,
        "0123456789012345678901234567890123456789",
        0,
        None,
        "syncing 0123456789012345678901234567890123456789",
    ),
    (
        Doing::Syncing,
        "/0123456789012345678901234567890123456789",
        0,
        None,
        "syncing ...0123456789012345678901234567890123456789",
    ),
];

#[test]
fn each_progress_has_its_text(rt: HostRuntime) {
    for (doing, path, done, size, want) in &PROGRESS {
        let amount = Amount {
            done: *done,
            size: *size,
        };
        let progress = Progress {
            doing: *doing,
            path,
            amount,
        };
        assert_shows(&rt, rt.alloc(), &progress, want);
    }
}

/// Asserts a text, plain and with `#`.
fn assert_shows<F: Display>(rt: &impl Abort, alloc: Global, shown: &F, want: &str) {
    let text = format!(in alloc; "{shown}; {shown:#}").expect(rt, "memory");
    let want = format!(in alloc; "{want}; {want}").expect(rt, "memory");
    assert!(rt; text.as_str() == want.as_str(), "{text}");
}
