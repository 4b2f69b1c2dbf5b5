//! Files of questions over a folder in memory: their calls, and the notes that are told before the answers.

use crate::folder::Folder;
use crate::questions::{COPY, INCLUDE, KeptNotes, RULES, push_end};
use crate::runs::{ALL, push_calls};
use dir_files::QuestionWords;
use dir_files::questions::run;
use std::alloc::Global;
use std::process::Abort;

/// The suite as it is written with its answers, and the report on it.
pub(super) const SUITE: &[u8] =
    b"authcDN: cn=u,dc=com\ndn: dc=com\ndc: =rscxd\ndc/write: DENIED\n\n";

pub(super) const TALLY: &[u8] =
    b"line 4: dc/write: DENIED, expected ALLOWED\nas expected 0, otherwise 1, asked 1\n";

const QUESTIONS: &[u8] = b"authcDN: cn=u,dc=com\ndn: dc=com\ndc:\ndc/write: ALLOWED\n";

const NO_WORD: &[u8] = b"dn: dc=com\n";

/// Two words ask for an attribute of a type that isn't known.
const UNKNOWN: &[u8] = b"dn: dc=com\ngn:\nentry:\n\ndn: dc=com\ncn:\ngn/read: DENIED\n";

const NO_SUFFIX: &[u8] = b"database mdb\n";

/// A run over a folder with a configuration at `config`, questions at `changes` and a copy, and what must come of it.
#[derive(Clone, Copy)]
struct Suite {
    shows: &'static str,
    rules: &'static [u8],
    text: &'static [u8],
    questions: &'static str,
    data: &'static str,
    answers: Option<&'static str>,
    strict: bool,
    /// How many calls are done before one is refused.
    good: u64,
    /// The notes, the calls, and the fault in which it ends.
    told: &'static str,
}

const ASKED: Suite = Suite {
    shows: "",
    rules: RULES,
    text: QUESTIONS,
    questions: "changes",
    data: "copy",
    answers: Some("out"),
    strict: false,
    good: ALL,
    told: "",
};

static SUITES: [Suite; 17] = [
    Suite {
        shows: "the configuration is opened, the questions, and the copy; the answers are published, and then the report is written",
        told: "open config;open changes;open copy;create out 644;sync out SUITE;publish out SUITE;report TALLY;",
        ..ASKED
    },
    Suite {
        shows: "without a path for them no answers are written",
        answers: None,
        told: "open config;open changes;open copy;report TALLY;",
        ..ASKED
    },
    Suite {
        shows: "the answers are not the questions",
        answers: Some("changes"),
        told: "same path twice: changes",
        ..ASKED
    },
    Suite {
        shows: "nor are these the configuration",
        questions: "config",
        told: "same path twice: config",
        ..ASKED
    },
    Suite {
        shows: "questions that are not there end it before the copy is opened",
        questions: "none",
        told: "open config;open none, refused;cannot open none",
        ..ASKED
    },
    Suite {
        shows: "so does a copy that is not there before the draft is created",
        data: "none",
        told: "open config;open changes;open none, refused;cannot open none",
        ..ASKED
    },
    Suite {
        shows: "a draft that can't be created",
        good: 0,
        told: "open config;open changes;open copy;create out 644, refused;cannot open out",
        ..ASKED
    },
    Suite {
        shows: "a fault of the configuration",
        rules: NO_SUFFIX,
        told: "open config;open changes;open copy;create out 644;discard out;config, line 0: C10 NoSuffix",
        ..ASKED
    },
    Suite {
        shows: "where only answers without notes are wanted, notes end it",
        rules: INCLUDE,
        strict: true,
        told: "note: config, line 3: include \"acl.conf\" is not read;open config;open changes;open copy;create out 644;discard out;not answered, because there are notes",
        ..ASKED
    },
    Suite {
        shows: "else they are told, and the questions are answered",
        rules: INCLUDE,
        told: "note: config, line 3: include \"acl.conf\" is not read;open config;open changes;open copy;create out 644;sync out SUITE;publish out SUITE;report TALLY;",
        ..ASKED
    },
    Suite {
        shows: "words have notes on their lines, after those on the configuration",
        rules: INCLUDE,
        text: UNKNOWN,
        strict: true,
        told: "note: config, line 3: include \"acl.conf\" is not read;note: questions, line 2: word \"gn\": unknown attribute \"gn\";note: questions, line 7: word \"gn/read\": unknown attribute \"gn\";open config;open changes;open copy;create out 644;discard out;not answered, because there are notes",
        ..ASKED
    },
    Suite {
        shows: "they are told without others",
        text: UNKNOWN,
        strict: true,
        told: "note: questions, line 2: word \"gn\": unknown attribute \"gn\";note: questions, line 7: word \"gn/read\": unknown attribute \"gn\";open config;open changes;open copy;create out 644;discard out;not answered, because there are notes",
        ..ASKED
    },
    Suite {
        shows: "questions with a fault have no notes, nor has the configuration then",
        rules: INCLUDE,
        text: NO_WORD,
        told: "open config;open changes;open copy;create out 644;discard out;questions, line 1: A1 BadBlock",
        ..ASKED
    },
    Suite {
        shows: "a fault of the questions",
        text: NO_WORD,
        told: "open config;open changes;open copy;create out 644;discard out;questions, line 1: A1 BadBlock",
        ..ASKED
    },
    Suite {
        shows: "answers that can't be synced",
        good: 1,
        told: "open config;open changes;open copy;create out 644;sync out SUITE, refused;discard out;cannot write answers",
        ..ASKED
    },
    Suite {
        shows: "answers that can't be published",
        good: 2,
        told: "open config;open changes;open copy;create out 644;sync out SUITE;publish out SUITE, refused;cannot write answers",
        ..ASKED
    },
    Suite {
        shows: "a report that can't be written",
        good: 3,
        told: "open config;open changes;open copy;create out 644;sync out SUITE;publish out SUITE;report TALLY, refused;withdraw out;cannot write report",
        ..ASKED
    },
];

#[test]
fn each_suite_makes_its_calls_in_their_order(rt: HostRuntime) {
    for suite in &SUITES {
        assert_answered(&rt, rt.alloc(), suite);
    }
}

fn assert_answered(rt: &impl Abort, alloc: Global, suite: &Suite) {
    let folder = Folder::new(alloc, COPY, suite.text, b"", suite.good);
    let mut folder = folder.with_config(suite.rules);
    let mut notes = KeptNotes::new(alloc);
    let words = QuestionWords {
        config: "config",
        questions: suite.questions,
        data: suite.data,
        answers: suite.answers,
        verbose: false,
        strict: suite.strict,
    };
    let answer = run(alloc, &mut folder, &mut notes, &words).map(|_| ());
    let told = notes.told(rt);
    push_calls(rt, told, &folder);
    push_end(rt, told, &answer, None);
    assert!(rt; told.as_str() == suite.told, "{}: {}", suite.shows, told);
}
