//! Devices that fail in each of their calls.

use crate::tools::access::{NAMED, REPORT as NAMED_REPORT};
use crate::tools::asking::{Ask, PEOPLE, PHONES, assert_ask};
use crate::tools::running::{COM, FAULTY, IN_EIGHTS, Run, assert_run};
use crate::tools::runs::{CHANGES, OUT, REPORT, UNDO};
use std::alloc::Global;
use std::process::Abort;

/// A device, and of what it is.
enum Device {
    Run(OfRun),
    Question(OfQuestion),
}

/// A device of a run.
enum OfRun {
    Copy,
    Changes,
    Undo,
    Out,
    Report,
}

/// A device of a question.
enum OfQuestion {
    Config,
    Copy,
    Report,
}

/// Devices, and the text of each.
static TEXTS: [(Device, &str); 8] = [
    (Device::Run(OfRun::Copy), COM),
    (Device::Run(OfRun::Changes), CHANGES),
    (Device::Run(OfRun::Undo), UNDO),
    (Device::Run(OfRun::Out), OUT),
    (Device::Run(OfRun::Report), REPORT),
    (Device::Question(OfQuestion::Config), PHONES),
    (Device::Question(OfQuestion::Copy), PEOPLE),
    (Device::Question(OfQuestion::Report), NAMED_REPORT),
];

/// Each of the reads, of eight bytes at most, and the one that finds the end; each of the writes, and then the flush.
#[test]
fn each_call_of_each_device_fails_in_turn(rt: HostRuntime) {
    for (device, text) in &TEXTS {
        assert_each_call_fails(&rt, rt.alloc(), device, text);
    }
}

fn assert_each_call_fails(rt: &impl Abort, alloc: Global, device: &Device, text: &str) {
    for call in 1..=text.len().div_ceil(8) as u64 + 1 {
        match device {
            Device::Run(device) => assert_run_fails(rt, alloc, device, call),
            Device::Question(device) => assert_question_fails(rt, alloc, device, call),
        }
    }
}

/// A run that ends in a fault.
static FAILING: Run<'static> = Run {
    changes: CHANGES,
    ..FAULTY
};

/// Asserts what a run writes and answers where a device fails from this call on.
fn assert_run_fails(rt: &impl Abort, alloc: Global, device: &OfRun, call: u64) {
    let mut devices = IN_EIGHTS;
    let (undo, out, report, answer) = match device {
        OfRun::Copy => {
            devices.copy = call;
            ("", "", "", "cannot read copy")
        }
        OfRun::Changes => {
            devices.changes = call;
            ("", "", "", "cannot read changes")
        }
        OfRun::Undo => {
            devices.undo = call;
            (front(UNDO, call), "", "", "cannot write undo")
        }
        OfRun::Out => {
            devices.out = call;
            (UNDO, front(OUT, call), "", "cannot write out")
        }
        OfRun::Report => {
            devices.report = call;
            (UNDO, OUT, front(REPORT, call), "cannot write report")
        }
    };
    let one = Run {
        shows: answer,
        undo,
        out,
        report,
        answer,
        ..FAILING
    };
    assert_run(rt, alloc, &devices, &one);
}

/// The manager's question, which ends in a fault.
static ASKING: Ask<'static> = NAMED;

/// The same of a question.
fn assert_question_fails(rt: &impl Abort, alloc: Global, device: &OfQuestion, call: u64) {
    let mut devices = IN_EIGHTS;
    let (report, fault) = match device {
        OfQuestion::Config => {
            devices.config = call;
            ("", "cannot read config")
        }
        OfQuestion::Copy => {
            devices.copy = call;
            ("", "cannot read copy")
        }
        OfQuestion::Report => {
            devices.report = call;
            (front(NAMED_REPORT, call), "cannot write report")
        }
    };
    let ask = Ask {
        shows: fault,
        report,
        fault,
        ..ASKING
    };
    assert_ask(rt, alloc, &devices, &ask);
}

/// What was written before this call.
fn front(text: &str, call: u64) -> &str {
    let end = call.saturating_sub(1).saturating_mul(8);
    match usize::try_from(end) {
        Ok(end) => text.get(..end).unwrap_or(text),
        Err(_) => text,
    }
}
