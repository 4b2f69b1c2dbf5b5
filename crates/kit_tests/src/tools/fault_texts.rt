//! The texts of faults.

use crate::tools::running::assert_text;
use dir_acl::{ConfigCause, ConfigFault};
use dir_change::ResultCode;
use dir_ldif::{RecordFault, StreamFault};
use dir_tools::{Cause, Input, Item, Output, ToolFault};
use std::alloc::Global;
use std::process::Abort;

/// Asserts the text of a fault, plain, with `#`, and with a width and a precision.
fn assert_shown(rt: &impl Abort, alloc: Global, fault: ToolFault, want: &str) {
    let text = format!(in alloc; "{fault}; {fault:#}; {fault:<80.3}").expect(rt, "memory");
    let want = format!(in alloc; "{want}; {want}; {want}").expect(rt, "memory");
    assert_text(rt, "the text of a fault", text.as_str(), want.as_str());
}

/// Faults, and the text of each.
static FAULTS: [(ToolFault, &str); 22] = [
    (
        ToolFault::BadCopy(7, Cause::Code(ResultCode::NoSuchObject)),
        "copy, line 7: 32 noSuchObject",
    ),
    (
        ToolFault::BadCopy(u64::MAX, Cause::Fault(RecordFault::BadLine)),
        "copy, line 18446744073709551615: L1 BadLine",
    ),
    (
        ToolFault::BadCopy(0, Cause::Ended(StreamFault::LineTooLong)),
        "copy, line 0: L10 LineTooLong",
    ),
    (ToolFault::Read(Input::Copy), "cannot read copy"),
    (ToolFault::Read(Input::Changes), "cannot read changes"),
    (ToolFault::Read(Input::Config), "cannot read config"),
    (ToolFault::Write(Output::Undo), "cannot write undo"),
    (ToolFault::Write(Output::Out), "cannot write out"),
    (ToolFault::Write(Output::Report), "cannot write report"),
    (ToolFault::Memory, "out of memory"),
    (ToolFault::BadQuestion(Item::Suffix), "bad question: suffix"),
    (ToolFault::BadQuestion(Item::Base), "bad question: base"),
    (ToolFault::BadQuestion(Item::Authc), "bad question: authcDN"),
    (
        ToolFault::BadQuestion(Item::Word(12)),
        "bad question: word 12",
    ),
    (
        ToolFault::BadChanges(StreamFault::BadVersion),
        "changes: L15 BadVersion",
    ),
    (
        ToolFault::BadChanges(StreamFault::BadMark),
        "changes: L16 BadMark",
    ),
    (
        ToolFault::Config(ConfigFault {
            line: 12,
            cause: ConfigCause::Unsupported,
        }),
        "config, line 12: C2 Unsupported",
    ),
    (
        ToolFault::Config(ConfigFault {
            line: 0,
            cause: ConfigCause::ConfigTooLong,
        }),
        "config, line 0: C11 ConfigTooLong",
    ),
    (
        ToolFault::Config(ConfigFault {
            line: 3,
            cause: ConfigCause::BadType,
        }),
        "config, line 3: C12 BadType",
    ),
    (ToolFault::NoEntry, "no such entry"),
    (ToolFault::TooFewGroups(0), "cannot go back, only 0 groups"),
    (
        ToolFault::TooFewGroups(u64::MAX),
        "cannot go back, only 18446744073709551615 groups",
    ),
];

#[test]
fn each_fault_has_its_text_whatever_the_options(rt: HostRuntime) {
    for (fault, want) in &FAULTS {
        assert_shown(&rt, rt.alloc(), *fault, want);
    }
}
