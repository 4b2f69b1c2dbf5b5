//! Runs over devices in memory, and what they are to write.

use crate::tools::flat::assert_flat;
use dir_ldif::{Script, Tape};
use dir_names::Schema;
use dir_tools::{ModifyOptions, Summary, ToolFault, run_modify, run_schema};
use std::alloc::Global;
use std::process::Abort;

pub(crate) const STOP: ModifyOptions = ModifyOptions {
    go_on: false,
    dry: false,
    verbose: false,
    last: None,
};

pub(crate) const GO_ON: ModifyOptions = ModifyOptions {
    go_on: true,
    dry: false,
    verbose: false,
    last: None,
};

pub(crate) const VERBOSE: ModifyOptions = ModifyOptions {
    go_on: false,
    dry: false,
    verbose: true,
    last: None,
};

pub(crate) const DRY: ModifyOptions = ModifyOptions {
    go_on: false,
    dry: true,
    verbose: false,
    last: None,
};

/// The text of a copy that has the suffix's entry alone.
pub(crate) const COM: &str = "dn: dc=com\ndc: com\n\n";

/// The undo text of a run that accepted nothing.
pub(crate) const NO_UNDO: &str = "version: 1\n\n";

/// The undo text of a run that accepted a change of nothing.
pub(crate) const EMPTY_GROUP: &str = "version: 1\n\n# undo 1\n";

/// A run, and what it must write and answer.
#[derive(Clone, Copy)]
pub(crate) struct Run<'a> {
    pub(crate) shows: &'a str,
    pub(crate) suffix: &'a str,
    pub(crate) options: ModifyOptions,
    /// A configuration whose types the run knows beside the built-in ones.
    pub(crate) types: &'a str,
    pub(crate) copy: &'a str,
    pub(crate) changes: &'a str,
    pub(crate) undo: &'a str,
    pub(crate) out: &'a str,
    pub(crate) report: &'a str,
    /// The numbers of the run, or the text of the fault that it ends in.
    pub(crate) answer: &'a str,
    /// The copy that the undo text gives on the new one, the canonical text of the first copy; none where neither is written.
    pub(crate) back: Option<&'a str>,
}

/// A run below `dc=com` that accepts one record.
pub(crate) const ACCEPTED: Run<'static> = Run {
    shows: "",
    suffix: "dc=com",
    options: STOP,
    types: "",
    copy: COM,
    changes: "",
    undo: NO_UNDO,
    out: COM,
    report: "accepted 1, refused 0\n",
    answer: "accepted 1, refused 0",
    back: Some(COM),
};

/// A run that ends in a fault, and writes nothing.
pub(crate) const FAULTY: Run<'static> = Run {
    undo: "",
    out: "",
    report: "",
    answer: "",
    back: None,
    ..ACCEPTED
};

/// How many bytes the devices of a tool give or take in a call, and from which call on each of them fails.
#[derive(Clone, Copy)]
pub(crate) struct Devices {
    pub(crate) piece: usize,
    pub(crate) config: u64,
    pub(crate) copy: u64,
    pub(crate) changes: u64,
    pub(crate) undo: u64,
    pub(crate) out: u64,
    pub(crate) report: u64,
    /// How many bytes there is room for in the text that is written last but the report, and in that of a question.
    pub(crate) room: usize,
}

/// Devices that give and take whole texts.
pub(crate) const WHOLE: Devices = Devices {
    piece: usize::MAX,
    config: u64::MAX,
    copy: u64::MAX,
    changes: u64::MAX,
    undo: u64::MAX,
    out: u64::MAX,
    report: u64::MAX,
    room: ROOM,
};

/// Devices that give and take eight bytes in a call.
pub(crate) const IN_EIGHTS: Devices = Devices { piece: 8, ..WHOLE };

/// Room for any of the texts.
const ROOM: usize = 65536;

/// What one run answered and wrote.
pub(crate) struct Ran {
    pub(crate) answer: Result<Summary, ToolFault>,
    pub(crate) undo: String,
    pub(crate) out: String,
    pub(crate) report: String,
}

// Written out, so that a drop is one call in proofs (docs/CONTRIBUTING.md).
impl Drop for Ran {
    fn drop(self) {
        let Ran {
            answer,
            undo,
            out,
            report,
        } = self;
        drop(answer);
        drop(undo);
        drop(out);
        drop(report);
    }
}

/// A reader of these devices, that fails from this call on.
pub(crate) fn script<'a>(devices: &Devices, text: &'a [u8], call: u64) -> Script<'a> {
    Script::new(text).pieces(devices.piece).failing_from(call)
}

/// A writer of these devices, that fails from this call on.
pub(crate) fn tape<'a>(devices: &Devices, room: &'a mut Vec<u8>, call: u64) -> Tape<'a> {
    Tape::new(room.as_mut_slice())
        .pieces(devices.piece)
        .failing_from(call)
}

pub(crate) fn zeros(rt: &impl Abort, alloc: Global, count: usize) -> Vec<u8> {
    vec![in alloc; 0u8; count].expect(rt, "memory")
}

/// What a writer took: of one that did not fail, what it had taken when it was flushed.
pub(crate) fn taken(rt: &impl Abort, alloc: Global, tape: &Tape<'_>, is_whole: bool) -> String {
    let bytes = if is_whole {
        tape.flushed()
    } else {
        tape.as_slice()
    };
    text_of(rt, bytes).to_string(alloc).expect(rt, "memory")
}

pub(crate) fn text_of<'a>(rt: &impl Abort, bytes: &'a [u8]) -> &'a str {
    let Ok(text) = std::str::from_utf8(bytes) else {
        panic!(rt; "no UTF-8");
    };
    text
}

/// A run over these devices, with what it is given by `one`.
pub(crate) fn run_over(rt: &impl Abort, alloc: Global, devices: &Devices, one: &Run<'_>) -> Ran {
    let mut undo = zeros(rt, alloc, ROOM);
    let mut out = zeros(rt, alloc, devices.room);
    let mut report = zeros(rt, alloc, ROOM);
    run_onto(
        rt,
        alloc,
        devices,
        one,
        &mut tape(devices, &mut undo, devices.undo),
        &mut tape(devices, &mut out, devices.out),
        &mut tape(devices, &mut report, devices.report),
    )
}

fn run_onto(
    rt: &impl Abort,
    alloc: Global,
    devices: &Devices,
    one: &Run<'_>,
    undo: &mut Tape<'_>,
    out: &mut Tape<'_>,
    report: &mut Tape<'_>,
) -> Ran {
    let answer = answer_onto(rt, alloc, devices, one, undo, out, report);
    Ran {
        answer,
        undo: taken(rt, alloc, undo, answer.is_ok()),
        out: taken(rt, alloc, out, answer.is_ok()),
        report: taken(rt, alloc, report, answer.is_ok()),
    }
}

fn answer_onto(
    rt: &impl Abort,
    alloc: Global,
    devices: &Devices,
    one: &Run<'_>,
    undo: &mut Tape<'_>,
    out: &mut Tape<'_>,
    report: &mut Tape<'_>,
) -> Result<Summary, ToolFault> {
    let answer = match types_of(rt, alloc, devices, one) {
        Ok(schema) => run_modify(
            alloc,
            &schema,
            one.suffix.as_bytes(),
            one.options,
            &mut script(devices, one.copy.as_bytes(), devices.copy),
            &mut script(devices, one.changes.as_bytes(), devices.changes),
            undo,
            out,
            report,
        ),
        Err(fault) => Err(fault),
    };
    if let Err(ToolFault::Memory) = answer {
        panic!(rt; "memory");
    }
    answer
}

/// The types that a run over these devices knows, or the fault of their configuration.
pub(crate) fn types_of(
    rt: &impl Abort,
    alloc: Global,
    devices: &Devices,
    one: &Run<'_>,
) -> Result<Schema, ToolFault> {
    let schema = Schema::builtin(alloc).expect(rt, "memory");
    let mut config = script(devices, one.types.as_bytes(), devices.config);
    run_schema(alloc, &schema, &mut config)
}

/// A run over these devices. Asserts that the same records over a flat directory give the same texts, or that the copy has
/// the same fault there.
pub(crate) fn run_both(rt: &impl Abort, alloc: Global, devices: &Devices, one: &Run<'_>) -> Ran {
    let ran = run_over(rt, alloc, devices, one);
    let is_compared = match ran.answer {
        Ok(_) => !one.options.dry,
        Err(fault) => matches!(fault, ToolFault::BadCopy(_, _)),
    };
    if is_compared {
        assert_flat(rt, alloc, devices.piece, one, &ran);
    }
    ran
}

/// The same run on another copy, with other changes.
pub(crate) fn with_texts<'a>(one: &Run<'a>, copy: &'a str, changes: &'a str) -> Run<'a> {
    Run {
        copy,
        changes,
        ..*one
    }
}

/// The run of the undo text on the copy that was written. Asserts that nothing is refused.
pub(crate) fn run_back(rt: &impl Abort, alloc: Global, one: &Run<'_>, ran: &Ran) -> Ran {
    let undo = Run {
        options: STOP,
        copy: ran.out.as_str(),
        changes: ran.undo.as_str(),
        ..*one
    };
    let back = run_both(rt, alloc, &WHOLE, &undo);
    assert!(rt; matches!(back.answer, Ok(Summary { refused: 0, .. })));
    back
}

/// Asserts what a run writes and answers over these devices, and what its undo text gives.
pub(crate) fn assert_run(rt: &impl Abort, alloc: Global, devices: &Devices, one: &Run<'_>) {
    let ran = run_both(rt, alloc, devices, one);
    assert_wrote(rt, alloc, one, &ran);
    if let Some(want) = one.back {
        let back = run_back(rt, alloc, one, &ran);
        assert_text(rt, one.shows, back.out.as_str(), want);
    }
}

fn assert_wrote(rt: &impl Abort, alloc: Global, one: &Run<'_>, ran: &Ran) {
    let answer = match ran.answer {
        Ok(Summary { accepted, refused }) => {
            format!(in alloc; "accepted {accepted}, refused {refused}").expect(rt, "memory")
        }
        Err(fault) => fault_text(rt, alloc, fault),
    };
    assert_text(rt, one.shows, answer.as_str(), one.answer);
    assert_text(rt, one.shows, ran.undo.as_str(), one.undo);
    assert_text(rt, one.shows, ran.out.as_str(), one.out);
    assert_text(rt, one.shows, ran.report.as_str(), one.report);
}

pub(crate) fn fault_text(rt: &impl Abort, alloc: Global, fault: ToolFault) -> String {
    format!(in alloc; "{fault}").expect(rt, "memory")
}

pub(crate) fn assert_text(rt: &impl Abort, shows: &str, text: &str, want: &str) {
    assert!(rt; text == want, "{shows}: {text}");
}
