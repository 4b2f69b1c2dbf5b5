//! Questions of access over a folder in memory: its calls, the notes that are told before the report, and the argument of a fault.

use crate::folder::Folder;
use crate::runs::{ALL, push_calls};
use dir_acl::{FaultArgument, Note};
use dir_files::slapacl::run;
use dir_files::{AccessWords, Fault, NoteTeller, Refusal, ShownArgument, ShownNote};
use dir_tools::ToolFault;
use std::alloc::{AllocError, Global};
use std::process::Abort;

/// Keeps what each note shows, a line each, and the argument that it is handed.
#[derive(Drop)]
pub(super) struct KeptNotes {
    alloc: Global,
    text: String,
    argument: Option<FaultArgument>,
    /// They can't be told.
    is_closed: bool,
    /// Memory ran out.
    lacks_memory: bool,
    failures: u64,
}

impl KeptNotes {
    pub(super) fn new(alloc: Global) -> KeptNotes {
        KeptNotes {
            alloc,
            text: String::new(alloc),
            argument: None,
            is_closed: false,
            lacks_memory: false,
            failures: 0,
        }
    }

    /// What was told.
    pub(super) fn told(&mut self, rt: &impl Abort) -> &mut String {
        assert!(rt; !self.lacks_memory, "memory");
        &mut self.text
    }
}

impl NoteTeller for KeptNotes {
    ghost use Rattle.std.specs.Prelude.{None};

    ghost given = { λ _. None };

    ghost failures = { λ notes. notes.failures };

    ghost arguments = { λ _. None };

    fn tell(&mut self, notes: &[Note]) -> Result<(), Refusal> {
        self.lacks_memory = keep(self.alloc, &mut self.text, notes).is_err();
        if !self.is_closed && !self.lacks_memory {
            return Ok(());
        }
        self.failures = self.failures.saturating_add(1);
        Err(Refusal::Other)
    }

    fn keep(&mut self, argument: FaultArgument) {
        self.argument = Some(argument);
    }
}

fn keep(alloc: Global, text: &mut String, notes: &[Note]) -> Result<(), AllocError> {
    for note in notes {
        let shown = format!(in alloc; "{};", ShownNote(note))?;
        text.push_str(shown.as_str())?;
    }
    Ok(())
}

pub(super) const COPY: &[u8] = b"dn: dc=com\ndc: com\n\n";

pub(super) const RULES: &[u8] = b"database mdb\nsuffix dc=com\naccess to * by users read\n";

pub(super) const INCLUDE: &[u8] =
    b"database mdb\nsuffix dc=com\ninclude acl.conf\naccess to * by users read\n";

const FOLDED: &[u8] =
    b"database mdb\nsuffix dc=com\naccess to *\n  by self\n  selfwrite\n  by * read\n";

/// A question of two words on a folder with a configuration at `changes`, and what must come of it.
#[derive(Clone, Copy)]
struct Question {
    shows: &'static str,
    rules: &'static [u8],
    /// The paths of the configuration and of the copy.
    config: &'static str,
    data: &'static str,
    second_word: &'static str,
    verbose: bool,
    strict: bool,
    /// The notes can't be told.
    is_closed: bool,
    /// How many calls are done before one is refused.
    good: u64,
    /// The notes, the calls, the fault in which it ends, and the argument that it is about.
    told: &'static str,
}

const ASKED: Question = Question {
    shows: "",
    rules: RULES,
    config: "changes",
    data: "copy",
    second_word: "entry",
    verbose: true,
    strict: false,
    is_closed: false,
    good: ALL,
    told: "",
};

static QUESTIONS: [Question; 13] = [
    Question {
        shows: "the configuration is opened, then the copy, and then the report is written",
        told: "open changes;open copy;report ANSWER;",
        ..ASKED
    },
    Question {
        shows: "the configuration is not the copy",
        config: "copy",
        told: "same path twice: copy",
        ..ASKED
    },
    Question {
        shows: "a configuration that is not there ends it before the copy is opened",
        config: "none",
        told: "open none, refused;cannot open none",
        ..ASKED
    },
    Question {
        shows: "so does a copy that is not there before the configuration is read",
        data: "none",
        told: "open changes;open none, refused;cannot open none",
        ..ASKED
    },
    Question {
        shows: "the two are not exchanged",
        config: "copy",
        data: "changes",
        told: "open copy;open changes;config, line 0: C10 NoSuffix",
        ..ASKED
    },
    Question {
        shows: "a faulty word has no report",
        second_word: "cn/peek",
        told: "open changes;open copy;bad question: word 2",
        ..ASKED
    },
    Question {
        shows: "a report may be refused",
        good: 0,
        told: "open changes;open copy;report ANSWER, refused;cannot write report",
        ..ASKED
    },
    Question {
        shows: "notes are told",
        rules: INCLUDE,
        told: "note: config, line 3: include \"acl.conf\" is not read;open changes;open copy;report ANSWER;",
        ..ASKED
    },
    Question {
        shows: "where only an answer without notes is wanted, they end it",
        rules: INCLUDE,
        strict: true,
        told: "note: config, line 3: include \"acl.conf\" is not read;open changes;open copy;not answered, because there are notes",
        ..ASKED
    },
    Question {
        shows: "so do notes that can't be told",
        rules: INCLUDE,
        is_closed: true,
        told: "note: config, line 3: include \"acl.conf\" is not read;open changes;open copy;cannot write notes",
        ..ASKED
    },
    Question {
        shows: "without notes nobody needs to hear",
        strict: true,
        is_closed: true,
        told: "open changes;open copy;report ANSWER;",
        ..ASKED
    },
    Question {
        shows: "the argument of a fault is handed over",
        rules: FOLDED,
        told: "open changes;open copy;config, line 3: C2 Unsupported;note: line 5: \"selfwrite\"",
        ..ASKED
    },
    Question {
        shows: "but only where more is to be told",
        rules: FOLDED,
        verbose: false,
        told: "open changes;open copy;config, line 3: C2 Unsupported",
        ..ASKED
    },
];

#[test]
fn each_question_makes_its_calls_in_their_order(rt: HostRuntime) {
    for question in &QUESTIONS {
        assert_asked(&rt, rt.alloc(), question);
    }
}

fn assert_asked(rt: &impl Abort, alloc: Global, question: &Question) {
    let mut folder = Folder::new(alloc, COPY, question.rules, b"", question.good);
    let mut notes = KeptNotes::new(alloc);
    notes.is_closed = question.is_closed;
    let answer = ask(rt, alloc, &mut folder, &mut notes, question);
    assert!(rt; !notes.lacks_memory, "memory");
    push_calls(rt, &mut notes.text, &folder);
    push_end(rt, &mut notes.text, &answer, notes.argument.as_ref());
    assert!(rt;
        notes.text.as_str() == question.told,
        "{}: {}",
        question.shows,
        notes.text
    );
}

fn ask(
    rt: &impl Abort,
    alloc: Global,
    folder: &mut Folder<'_>,
    notes: &mut KeptNotes,
    question: &Question,
) -> Result<(), Fault<'static>> {
    let words = AccessWords {
        base: "dc=com",
        config: question.config,
        data: question.data,
        authc: Some("cn=u,dc=com"),
        words: ["cn/write", question.second_word]
            .to_vec(alloc)
            .expect(rt, "memory"),
        fake: false,
        verbose: question.verbose,
        strict: question.strict,
    };
    run(alloc, folder, notes, &words)
}

/// Appends the fault in which a question ends, and the argument that it is about.
pub(super) fn push_end(
    rt: &impl Abort,
    text: &mut String,
    answer: &Result<(), Fault<'_>>,
    argument: Option<&FaultArgument>,
) {
    match answer {
        Ok(()) => Ok(()),
        Err(Fault::Tool(ToolFault::Memory)) => panic!(rt; "memory"),
        Err(fault) => write!(text, "{fault}"),
    }
    .expect(rt, "memory");
    if let Some(argument) = argument {
        write!(text, ";{}", ShownArgument(argument)).expect(rt, "memory");
    }
}
