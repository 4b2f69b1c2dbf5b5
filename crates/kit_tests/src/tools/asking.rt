//! Questions of access over devices in memory, and what they are to report.

use crate::tools::running::{COM, Devices, assert_text, fault_text, script, taken, tape, zeros};
use dir_ldif::{Script, Tape};
use dir_names::{Bytes, Schema, Texts};
use dir_tools::{
    HeldMemory, Question, ToolFault, read_config_with_argument, run_acl, run_acl_under,
};
use std::alloc::Global;
use std::process::Abort;

/// A question on a configuration and a copy, and what must come of it.
#[derive(Clone, Copy)]
pub(crate) struct Ask<'a> {
    pub(crate) shows: &'a str,
    pub(crate) config: &'a str,
    pub(crate) copy: &'a str,
    pub(crate) base: &'a str,
    pub(crate) authc: Option<&'a str>,
    pub(crate) words: &'a [&'a str],
    pub(crate) fake: bool,
    pub(crate) verbose: bool,
    pub(crate) report: &'a str,
    /// The text of the fault that the question ends in; empty where there is none.
    pub(crate) fault: &'a str,
}

/// A configuration without rules: all may read.
pub(crate) const READ: &str = "database mdb\nsuffix dc=com\n";

/// Nobody asks for the entry of the suffix, which all may read.
pub(crate) const ENTRY: Ask<'static> = Ask {
    shows: "without rules all may read",
    config: READ,
    copy: COM,
    base: "dc=com",
    authc: None,
    words: &[],
    fake: false,
    verbose: false,
    report: "entry: =rscxd\n",
    fault: "",
};

pub(crate) const PHONES: &str =
    "database mdb\nsuffix dc=com\naccess to attrs=telephoneNumber\n  by self write\n\
    \x20 by dnattr=manager read\n  by group=\"cn=g,dc=com\" search\n";

/// An entry with a manager, and a group with a member.
pub(crate) const PEOPLE: &str =
    "dn: dc=com\ndc: com\n\ndn: cn=t,dc=com\ncn: t\nmanager: cn=m,dc=com\n\n\
    dn: cn=g,dc=com\nobjectClass: groupOfNames\nmember: cn=k,dc=com\ncn: g\n\n";

/// The manager asks for the telephone number.
pub(crate) const PHONE: Ask<'static> = Ask {
    shows: "the manager",
    config: PHONES,
    copy: PEOPLE,
    base: "cn=t,dc=com",
    authc: Some("cn=m,dc=com"),
    words: &["telephoneNumber"],
    report: "telephoneNumber: =rscxd\n",
    ..ENTRY
};

fn bytes(rt: &impl Abort, alloc: Global, text: &str) -> Bytes {
    Bytes::copy_of(alloc, text.as_bytes()).expect(rt, "memory")
}

fn texts(rt: &impl Abort, alloc: Global, words: &[&str]) -> Texts {
    let mut items = Vec::new(alloc);
    for word in words {
        items.push(bytes(rt, alloc, word)).expect(rt, "memory");
    }
    Texts::new(items)
}

fn question(rt: &impl Abort, alloc: Global, ask: &Ask<'_>) -> Question {
    let authc = match ask.authc {
        Some(name) => Some(bytes(rt, alloc, name)),
        None => None,
    };
    Question {
        base: bytes(rt, alloc, ask.base),
        authc,
        words: texts(rt, alloc, ask.words),
        fake: ask.fake,
        verbose: ask.verbose,
    }
}

/// Asks over these devices, in one call or in two.
fn answer_onto(
    rt: &impl Abort,
    alloc: Global,
    devices: &Devices,
    ask: &Ask<'_>,
    in_two: bool,
    report: &mut Tape<'_>,
) -> Result<(), ToolFault> {
    let schema = Schema::builtin(alloc).expect(rt, "memory");
    let question = question(rt, alloc, ask);
    let mut config = script(devices, ask.config.as_bytes(), devices.config);
    let mut copy = script(devices, ask.copy.as_bytes(), devices.copy);
    let answer = if in_two {
        answer_in_two(alloc, &schema, &question, &mut config, &mut copy, report)
    } else {
        run_acl(alloc, &schema, &question, &mut config, &mut copy, report)
    };
    if let Err(ToolFault::Memory) = answer {
        panic!(rt; "memory");
    }
    answer
}

/// Asks in two calls, between which the notes on the configuration could be told.
fn answer_in_two(
    alloc: Global,
    schema: &Schema,
    question: &Question,
    config: &mut Script<'_>,
    copy: &mut Script<'_>,
    report: &mut Tape<'_>,
) -> Result<(), ToolFault> {
    let read = match read_config_with_argument(alloc, schema, config) {
        Ok(noted) => noted,
        Err(why) => return Err(why.fault),
    };
    run_acl_under(
        alloc,
        HeldMemory::Left,
        &read.types,
        question,
        &read.config,
        copy,
        report,
    )
}

/// Asserts what comes of a question over these devices, in one call or in two.
fn assert_asked(rt: &impl Abort, alloc: Global, devices: &Devices, ask: &Ask<'_>, in_two: bool) {
    let mut room = zeros(rt, alloc, devices.room);
    let mut report = tape(devices, &mut room, devices.report);
    let answer = answer_onto(rt, alloc, devices, ask, in_two, &mut report);
    let report = taken(rt, alloc, &report, answer.is_ok());
    assert_text(rt, ask.shows, report.as_str(), ask.report);
    assert_answer(rt, alloc, ask, answer);
}

fn assert_answer(rt: &impl Abort, alloc: Global, ask: &Ask<'_>, answer: Result<(), ToolFault>) {
    let fault = match answer {
        Ok(()) => String::new(alloc),
        Err(fault) => fault_text(rt, alloc, fault),
    };
    assert_text(rt, ask.shows, fault.as_str(), ask.fault);
}

/// Asserts that the same comes of a question over these devices in one call and in two.
pub(crate) fn assert_ask(rt: &impl Abort, alloc: Global, devices: &Devices, ask: &Ask<'_>) {
    assert_asked(rt, alloc, devices, ask, false);
    assert_asked(rt, alloc, devices, ask, true);
}
