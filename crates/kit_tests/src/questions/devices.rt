//! Readers and writers that fail.

use crate::questions::make::{CONFIG, COPY, schema};
use dir_ldif::{Script, Tape};
use dir_questions::{QuestionOptions, QuestionsFault, run_questions};
use dir_tools::{Input, Output, ToolFault};
use std::alloc::Global;
use std::process::Abort;

const QUESTIONS: &str = "dn: dc=com\nsn: =rscxd\n";

const ANSWERS: &str = "dn: dc=com\nsn: =rscxd\n\n";

const REPORT: &str = "as expected 1, otherwise 0, asked 0\n";

/// No call fails.
const NEVER: u64 = 100;

/// From which call on each of the readers and writers fails, and the room of the writers.
#[derive(Clone, Copy)]
struct Trial {
    config: u64,
    questions: u64,
    copy: u64,
    answers: u64,
    report: u64,
    room: usize,
    /// The answers are wanted.
    wanted: bool,
    fault: Option<QuestionsFault>,
    written: &'static str,
    reported: &'static str,
}

const GOOD: Trial = Trial {
    config: NEVER,
    questions: NEVER,
    copy: NEVER,
    answers: NEVER,
    report: NEVER,
    room: 100,
    wanted: true,
    fault: None,
    written: ANSWERS,
    reported: REPORT,
};

const FAILED: Trial = Trial {
    written: "",
    reported: "",
    ..GOOD
};

static TRIALS: [Trial; 12] = [
    GOOD,
    Trial {
        wanted: false,
        answers: 1,
        written: "",
        ..GOOD
    },
    // A reader fails in its first call, or after it gave something.
    Trial {
        config: 1,
        fault: Some(QuestionsFault::Tool(ToolFault::Read(Input::Config))),
        ..FAILED
    },
    Trial {
        questions: 1,
        fault: Some(QuestionsFault::Read),
        ..FAILED
    },
    Trial {
        questions: 2,
        fault: Some(QuestionsFault::Read),
        ..FAILED
    },
    Trial {
        copy: 1,
        fault: Some(QuestionsFault::Tool(ToolFault::Read(Input::Copy))),
        ..FAILED
    },
    Trial {
        copy: 2,
        fault: Some(QuestionsFault::Tool(ToolFault::Read(Input::Copy))),
        ..FAILED
    },
    // The writer of the answers fails, also as it is flushed, or has no room: then there is no report.
    Trial {
        answers: 1,
        fault: Some(QuestionsFault::Write),
        ..FAILED
    },
    Trial {
        answers: 2,
        fault: Some(QuestionsFault::Write),
        written: ANSWERS,
        ..FAILED
    },
    Trial {
        room: 5,
        fault: Some(QuestionsFault::Write),
        written: "dn: d",
        ..FAILED
    },
    // The writer of the report fails, also as it is flushed.
    Trial {
        report: 1,
        fault: Some(QuestionsFault::Tool(ToolFault::Write(Output::Report))),
        reported: "",
        ..GOOD
    },
    Trial {
        report: 2,
        fault: Some(QuestionsFault::Tool(ToolFault::Write(Output::Report))),
        ..GOOD
    },
];

#[test]
fn devices_may_fail(rt: HostRuntime) {
    for trial in &TRIALS {
        run(&rt, rt.alloc(), trial);
    }
}

fn run(rt: &impl Abort, alloc: Global, trial: &Trial) {
    let mut answers = zeros(rt, alloc, trial.room);
    let mut report = zeros(rt, alloc, 100);
    run_onto(
        rt,
        alloc,
        trial,
        &mut tape(&mut answers, trial.answers),
        &mut tape(&mut report, trial.report),
    );
}

fn run_onto(
    rt: &impl Abort,
    alloc: Global,
    trial: &Trial,
    answers: &mut Tape<'_>,
    report: &mut Tape<'_>,
) {
    let fault = fault_of(rt, alloc, trial, answers, report);
    assert!(rt; fault == trial.fault);
    assert!(rt; answers.as_slice() == trial.written.as_bytes());
    assert!(rt; report.as_slice() == trial.reported.as_bytes());
    if fault.is_none() {
        assert!(rt; answers.flushed() == trial.written.as_bytes());
        assert!(rt; report.flushed() == trial.reported.as_bytes());
    }
}

/// The fault in which the run of a trial ends, if it does.
fn fault_of(
    rt: &impl Abort,
    alloc: Global,
    trial: &Trial,
    answers: &mut Tape<'_>,
    report: &mut Tape<'_>,
) -> Option<QuestionsFault> {
    let schema = schema(rt, alloc);
    let options = QuestionOptions {
        answers: trial.wanted,
        verbose: false,
    };
    let mut config = script(CONFIG, trial.config);
    let mut questions = script(QUESTIONS, trial.questions);
    let mut copy = script(COPY, trial.copy);
    run_questions(
        alloc,
        &schema,
        options,
        &mut config,
        &mut questions,
        &mut copy,
        answers,
        report,
    )
    .err()
}

/// A reader that fails from this call on.
fn script(text: &str, call: u64) -> Script<'_> {
    Script::new(text.as_bytes()).failing_from(call)
}

/// A writer with this room that fails from this call on.
fn tape(room: &mut Vec<u8>, call: u64) -> Tape<'_> {
    Tape::new(room.as_mut_slice()).failing_from(call)
}

fn zeros(rt: &impl Abort, alloc: Global, count: usize) -> Vec<u8> {
    vec![in alloc; 0u8; count].expect(rt, "memory")
}
