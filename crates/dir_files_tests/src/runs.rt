//! Runs over a folder in memory: what they open, create and write, and in which order.

use crate::folder::{Asked, Folder};
use crate::sites::{COUNTS, FLAT};
use crate::suites::{SUITE, TALLY};
use dir_files::slapmodify::run;
use dir_files::{Fault, ModifyWords, Refusal};
use dir_tools::{ModifyOptions, Summary, ToolFault};
use std::alloc::Global;
use std::process::Abort;

const COPY: &[u8] = b"dn: dc=com\ndc: com\n\n";

const ADD: &[u8] = b"dn: ou=people,dc=com\nchangetype: add\n";

const MISSING: &[u8] = b"dn: ou=none,dc=com\nchangetype: delete\n";

/// Both, the one that is refused first.
const BOTH: &[u8] =
    b"dn: ou=none,dc=com\nchangetype: delete\n\ndn: ou=people,dc=com\nchangetype: add\n";

const NEW: &[u8] = b"dn: dc=com\ndc: com\n\ndn: ou=people,dc=com\nou: people\n\n";

const UNDO: &[u8] = b"version: 1\n\n# undo 1\ndn: ou=people,dc=com\nchangetype: delete\n\n";

const ACCEPTED: &[u8] = b"accepted 1, refused 0\n";

const REFUSED: &[u8] = b"line 1: refused, 32 noSuchObject\naccepted 0, refused 1\n";

const WENT_ON: &[u8] = b"line 1: refused, 32 noSuchObject\naccepted 1, refused 1\n";

/// The report of a question.
const ANSWER: &[u8] = b"authcDN: cn=u,dc=com\ncn/write: DENIED\nentry: =rscxd\n";

/// An entry with a value of a type that is not built in.
const WITH_ROOM: &[u8] = b"dn: dc=com\ndc: com\n\ndn: cn=e,dc=com\ncn: e\nroom: A 1\n\n";

/// Defines that type.
const ROOM: &[u8] =
    b"attributetype ( 1.3.6.1.4.1.32473.1 NAME ( 'room' 'roomName' )\n  EQUALITY caseIgnoreMatch SINGLE-VALUE )\n";

/// The type above it is not known.
const BAD_TYPE: &[u8] = b"attributetype ( 1.3.6.1.4.1.32473.2 NAME 'level' SUP nothing )\n";

pub(super) const STOP: ModifyOptions = ModifyOptions {
    go_on: false,
    dry: false,
    verbose: false,
    last: None,
};

const DRY: ModifyOptions = ModifyOptions {
    go_on: false,
    dry: true,
    verbose: false,
    last: None,
};

const DRY_ON: ModifyOptions = ModifyOptions {
    go_on: true,
    dry: true,
    verbose: false,
    last: None,
};

/// Takes the last two accepted records of an earlier run back.
const LAST_TWO: ModifyOptions = ModifyOptions {
    go_on: false,
    dry: false,
    verbose: false,
    last: Some(2),
};

/// A folder whose calls are all done.
pub(super) const ALL: u64 = u64::MAX;

/// A run, its words, and what must come of it.
#[derive(Clone, Copy)]
struct Run {
    shows: &'static str,
    config: Option<&'static str>,
    data: &'static str,
    changes: Option<&'static str>,
    /// The paths of the new copy and of the undo file.
    onto: [&'static str; 2],
    options: ModifyOptions,
    /// The texts of the copy and of the configuration.
    copy: &'static [u8],
    types: &'static [u8],
    /// What the standard input has.
    typed: &'static [u8],
    /// How many calls are done before one is refused.
    good: u64,
    /// The calls, and then the numbers of the run or its fault.
    told: &'static str,
}

/// The changes are in a file; other ones are typed.
const NAMED: Run = Run {
    shows: "",
    config: None,
    data: "copy",
    changes: Some("changes"),
    onto: ["new", "undo"],
    options: STOP,
    copy: COPY,
    types: b"",
    typed: MISSING,
    good: ALL,
    told: "",
};

/// The changes are typed.
const TYPED: Run = Run {
    changes: None,
    typed: ADD,
    ..NAMED
};

/// The types are those of the configuration too, and no file is made.
const TYPES: Run = Run {
    config: Some("config"),
    copy: WITH_ROOM,
    options: DRY_ON,
    ..TYPED
};

static RUNS: [Run; 29] = [
    Run {
        shows: "each file is made in its turn and takes its own text",
        told: "open copy;open changes;create undo 640;create new 640;sync undo UNDO;sync new NEW;publish undo UNDO;publish new NEW;report ACCEPTED;1, 0",
        ..NAMED
    },
    Run {
        shows: "the changes may come from standard input",
        told: "open copy;standard input;create undo 640;create new 640;sync undo UNDO;sync new NEW;publish undo UNDO;publish new NEW;report ACCEPTED;1, 0",
        ..TYPED
    },
    Run {
        shows: "a copy that is not there ends the run",
        data: "none",
        changes: Some("nothing"),
        typed: ADD,
        told: "open none, refused;cannot open none",
        ..NAMED
    },
    Run {
        shows: "so do changes that are not there",
        changes: Some("nothing"),
        typed: ADD,
        told: "open copy;open nothing, refused;cannot open nothing",
        ..NAMED
    },
    Run {
        shows: "so does an undo file that is there",
        data: "changes",
        onto: ["new", "copy"],
        told: "open changes;standard input;create copy 644, which exists;exists already: copy",
        ..TYPED
    },
    Run {
        shows: "so does a new copy that is there",
        onto: ["changes", "undo"],
        told: "open copy;standard input;create undo 640;create changes 640, which exists;discard undo;exists already: changes",
        ..TYPED
    },
    Run {
        shows: "no copy is written over, in a dry run too",
        onto: ["copy", "undo"],
        options: DRY,
        typed: ADD,
        told: "same path twice: copy",
        ..NAMED
    },
    Run {
        shows: "a copy is not its own changes",
        changes: Some("copy"),
        typed: ADD,
        told: "same path twice: copy",
        ..NAMED
    },
    Run {
        shows: "after the undo file is refused nothing is left",
        good: 0,
        told: "open copy;open changes;create undo 640, refused;cannot open undo",
        ..NAMED
    },
    Run {
        shows: "nor after the new copy is",
        good: 1,
        told: "open copy;open changes;create undo 640;create new 640, refused;discard undo;cannot open new",
        ..NAMED
    },
    Run {
        shows: "nor after a sync of the undo file",
        good: 2,
        told: "open copy;open changes;create undo 640;create new 640;sync undo UNDO, refused;discard new;discard undo;cannot write undo",
        ..NAMED
    },
    Run {
        shows: "nor after a sync of the new copy",
        good: 3,
        told: "open copy;open changes;create undo 640;create new 640;sync undo UNDO;sync new NEW, refused;discard new;discard undo;cannot write out",
        ..NAMED
    },
    Run {
        shows: "nor after the undo file's name",
        good: 4,
        told: "open copy;open changes;create undo 640;create new 640;sync undo UNDO;sync new NEW;publish undo UNDO, refused;discard new;cannot write undo",
        ..NAMED
    },
    Run {
        shows: "nor after the new copy's name",
        good: 5,
        told: "open copy;open changes;create undo 640;create new 640;sync undo UNDO;sync new NEW;publish undo UNDO;publish new NEW, refused;withdraw undo;cannot write out",
        ..NAMED
    },
    Run {
        shows: "nor after the report",
        good: 6,
        told: "open copy;open changes;create undo 640;create new 640;sync undo UNDO;sync new NEW;publish undo UNDO;publish new NEW;report ACCEPTED, refused;withdraw new;withdraw undo;cannot write report",
        ..NAMED
    },
    Run {
        shows: "nor after a fault of the tool",
        typed: b"version: 2\n",
        told: "open copy;standard input;create undo 640;create new 640;discard new;discard undo;changes: L15 BadVersion",
        ..TYPED
    },
    Run {
        shows: "nor after a mark that is missing",
        options: LAST_TWO,
        told: "open copy;standard input;create undo 640;create new 640;discard new;discard undo;changes: L16 BadMark",
        ..TYPED
    },
    Run {
        shows: "nor where there are too few groups",
        options: LAST_TWO,
        typed: b"# undo 1\ndn: ou=people,dc=com\nchangetype: add\n",
        told: "open copy;standard input;create undo 640;create new 640;discard new;discard undo;cannot go back 2, only 1 groups",
        ..TYPED
    },
    Run {
        shows: "the first groups of an undo file are run",
        options: LAST_TWO,
        typed: b"# undo 1\ndn: ou=people,dc=com\nchangetype: add\n\n# undo 2\n# undo 3\nx\n",
        told: "open copy;standard input;create undo 640;create new 640;sync undo UNDO;sync new NEW;publish undo UNDO;publish new NEW;report ACCEPTED;1, 0",
        ..TYPED
    },
    Run {
        shows: "a dry run makes no file",
        options: DRY,
        typed: BOTH,
        told: "open copy;standard input;report REFUSED;0, 1",
        ..TYPED
    },
    Run {
        shows: "and goes on where it is asked",
        options: DRY_ON,
        typed: BOTH,
        told: "open copy;standard input;report WENT_ON;1, 1",
        ..TYPED
    },
    Run {
        shows: "its report may be refused",
        options: DRY,
        typed: BOTH,
        good: 0,
        told: "open copy;standard input;report REFUSED, refused;cannot write report",
        ..TYPED
    },
    Run {
        shows: "the types are read first",
        config: Some("config"),
        types: ROOM,
        told: "open config;open copy;open changes;create undo 640;create new 640;sync undo UNDO;sync new NEW;publish undo UNDO;publish new NEW;report ACCEPTED;1, 0",
        ..NAMED
    },
    Run {
        shows: "a configuration that is not there ends the run before a copy that is not there",
        config: Some("nothing"),
        data: "none",
        told: "open nothing, refused;cannot open nothing",
        ..NAMED
    },
    Run {
        shows: "so does one that is faulty",
        config: Some("config"),
        types: BAD_TYPE,
        data: "none",
        told: "open config;config, line 1: C12 BadType",
        ..NAMED
    },
    Run {
        shows: "and before a file is made",
        config: Some("config"),
        types: BAD_TYPE,
        told: "open config;config, line 1: C12 BadType",
        ..NAMED
    },
    Run {
        shows: "in a dry run too",
        types: BAD_TYPE,
        told: "open config;config, line 1: C12 BadType",
        ..TYPES
    },
    Run {
        shows: "the configuration is not the copy",
        config: Some("copy"),
        told: "same path twice: copy",
        ..TYPES
    },
    Run {
        shows: "a copy that is not there is told after the types are read",
        data: "none",
        types: ROOM,
        told: "open config;open none, refused;cannot open none",
        ..TYPES
    },
];

#[test]
fn each_run_makes_its_calls_in_their_order(rt: HostRuntime) {
    for one in &RUNS {
        assert_run(&rt, rt.alloc(), one);
    }
}

fn assert_run(rt: &impl Abort, alloc: Global, one: &Run) {
    let mut folder = Folder::new(alloc, one.copy, ADD, one.typed, one.good).with_config(one.types);
    let answer = answer_over(alloc, &mut folder, one);
    let mut text = String::new(alloc);
    push_calls(rt, &mut text, &folder);
    push_answer(rt, &mut text, &answer);
    let shows = one.shows;
    assert!(rt; text.as_str() == one.told, "{shows}: {text}");
}

fn answer_over(
    alloc: Global,
    folder: &mut Folder<'_>,
    one: &Run,
) -> Result<Summary, Fault<'static>> {
    let [out, undo] = one.onto;
    let words = ModifyWords {
        suffix: "dc=com",
        data: one.data,
        out: Some(out),
        undo: Some(undo),
        changes: one.changes,
        config: one.config,
        options: one.options,
    };
    run(alloc, folder, &words)
}

fn push_answer(rt: &impl Abort, text: &mut String, answer: &Result<Summary, Fault<'_>>) {
    match answer {
        Ok(Summary { accepted, refused }) => write!(text, "{accepted}, {refused}"),
        Err(Fault::Tool(ToolFault::Memory)) => panic!(rt; "memory"),
        Err(fault) => write!(text, "{fault}"),
    }
    .expect(rt, "memory");
}

/// Appends the calls of a folder, and whether each was refused.
pub(super) fn push_calls(rt: &impl Abort, text: &mut String, folder: &Folder<'_>) {
    for call in folder.calls().expect(rt, "memory") {
        let (what, path, with, why) = parts_of(call);
        let end = match why {
            None => "",
            Some(Refusal::Exists) => ", which exists",
            Some(Refusal::Memory) => ", no memory",
            Some(Refusal::Other) => ", refused",
        };
        write!(text, "{what}{path}{with}{end};").expect(rt, "memory");
    }
}

/// What was asked, of which path, with what text or mode, and why it was refused.
fn parts_of(call: &Asked) -> (&'static str, &str, &'static str, Option<Refusal>) {
    match call {
        Asked::Opens(path, why) => ("open ", path.as_str(), "", *why),
        Asked::StandardInput => ("standard input", "", "", None),
        Asked::Creates(path, mode, why) => ("create ", path.as_str(), mode_text(*mode), *why),
        Asked::Syncs(path, bytes, why) => ("sync ", path.as_str(), shown(bytes), *why),
        Asked::Publishes(path, bytes, why) => ("publish ", path.as_str(), shown(bytes), *why),
        Asked::Discards(path) => ("discard ", path.as_str(), "", None),
        Asked::Withdraws(path) => ("withdraw ", path.as_str(), "", None),
        Asked::Reports(bytes, why) => ("report", "", shown(bytes), *why),
    }
}

fn mode_text(mode: u32) -> &'static str {
    match mode {
        0o640 => " 640",
        0o644 => " 644",
        _ => " ?",
    }
}

/// The texts that are written, each with a word for it.
static WORDS: [(&[u8], &str); 9] = [
    (NEW, " NEW"),
    (UNDO, " UNDO"),
    (ACCEPTED, " ACCEPTED"),
    (REFUSED, " REFUSED"),
    (WENT_ON, " WENT_ON"),
    (ANSWER, " ANSWER"),
    (SUITE, " SUITE"),
    (TALLY, " TALLY"),
    (COUNTS, " COUNTS"),
];

/// A text that was written, in one word.
fn shown(bytes: &Vec<u8>) -> &'static str {
    for (text, word) in &WORDS {
        if bytes.as_slice() == *text {
            return word;
        }
    }
    if bytes.as_slice().ends_with(FLAT) {
        return " FLAT";
    }
    " ?"
}
