//! Tests of the operations on a flat directory.

use dir_change::{History, Refusal, ResultCode, Undo, apply};
use dir_ldif::{Change, Record, RecordFault, read_all};
use dir_names::{Dn, Schema};
use dir_tree::{Directory, FlatDirectory};
use std::alloc::Global;
use std::process::Abort;

const TOP: &str = "dn: dc=com\nchangetype: add\ndc: com\n\n";

/// The directory at a suffix that has no entry.
pub(crate) fn empty(
    rt: &impl Abort,
    alloc: Global,
    schema: &Schema,
    suffix: &[u8],
) -> FlatDirectory {
    let name = Dn::read(alloc, suffix).expect(rt, "a name");
    FlatDirectory::new(alloc, name.key(alloc, schema).expect(rt, "a key"))
}

fn assert_entry_count(rt: &impl Abort, directory: &FlatDirectory, want: usize) {
    let entries = directory.walk().expect(rt, "memory");
    assert!(rt; entries.len() == want);
}

fn assert_text(rt: &impl Abort, bytes: &[u8], want: &str) {
    let Ok(text) = std::str::from_utf8(bytes) else {
        panic!(rt; "no UTF-8");
    };
    assert!(rt; text == want);
}

/// The change that a reader gave.
fn change_of(rt: &impl Abort, record: Result<Record, RecordFault>) -> Change {
    let Ok(Record::Change(change)) = record else {
        panic!(rt; "no change");
    };
    change
}

/// The change records of a text.
pub(crate) fn changes(rt: &impl Abort, alloc: Global, schema: &Schema, text: &str) -> Vec<Change> {
    let mut changes = Vec::new(alloc);
    for (_, record) in read_all(alloc, schema, text.as_bytes()).expect(rt, "records") {
        changes.push(change_of(rt, record)).expect(rt, "memory");
    }
    changes
}

/// Applies a change, and asserts what it is refused with; none where it is to be accepted.
fn assert_outcome(
    rt: &impl Abort,
    alloc: Global,
    schema: &Schema,
    directory: &mut FlatDirectory,
    change: &Change,
    want: Option<ResultCode>,
) {
    let outcome = apply(alloc, schema, directory, change).err();
    assert!(rt; outcome == want.map(Refusal::Code));
}

/// Applies the changes of a text, and asserts what each is refused with; none for those that are
/// accepted.
fn assert_outcomes(
    rt: &impl Abort,
    alloc: Global,
    schema: &Schema,
    directory: &mut FlatDirectory,
    text: &str,
    want: &[Option<ResultCode>],
) {
    let changes = changes(rt, alloc, schema, text);
    assert!(rt; changes.len() == want.len());
    for (change, want) in changes.iter().zip(want.iter()) {
        assert_outcome(rt, alloc, schema, directory, change, *want);
    }
}

/// Applies the changes of a text, and asserts that each is accepted.
fn assert_accepted(
    rt: &impl Abort,
    alloc: Global,
    schema: &Schema,
    directory: &mut FlatDirectory,
    text: &[u8],
) {
    let Ok(text) = std::str::from_utf8(text) else {
        panic!(rt; "no UTF-8");
    };
    for change in changes(rt, alloc, schema, text).as_slice() {
        assert_outcome(rt, alloc, schema, directory, change, None);
    }
}

/// Applies a change, and gives what takes it back: one record at most.
fn undo_of(
    rt: &impl Abort,
    alloc: Global,
    schema: &Schema,
    directory: &mut FlatDirectory,
    change: &Change,
) -> Undo {
    let undo = any_undo_of(rt, alloc, schema, directory, change);
    assert!(rt; undo.records().len() <= 1, "more than one record");
    undo
}

/// Applies a change, and gives what takes it back.
fn any_undo_of(
    rt: &impl Abort,
    alloc: Global,
    schema: &Schema,
    directory: &mut FlatDirectory,
    change: &Change,
) -> Undo {
    let Ok(undo) = apply(alloc, schema, directory, change) else {
        panic!(rt; "refused");
    };
    undo
}

/// Applies the changes of a text, and tells what takes them back.
fn history_of(
    rt: &impl Abort,
    alloc: Global,
    schema: &Schema,
    directory: &mut FlatDirectory,
    text: &str,
) -> History {
    let mut history = History::new(alloc);
    for change in changes(rt, alloc, schema, text).as_slice() {
        history
            .push(undo_of(rt, alloc, schema, directory, change))
            .expect(rt, "memory");
    }
    history
}

/// Applies the changes of a text, and gives the text that takes them back.
fn undo_text(
    rt: &impl Abort,
    alloc: Global,
    schema: &Schema,
    directory: &mut FlatDirectory,
    text: &str,
) -> Vec<u8> {
    let history = history_of(rt, alloc, schema, directory, text);
    history.undo_text(alloc).expect(rt, "memory")
}

/// Asserts the text that takes back the changes of a text, on a directory that other texts have
/// changed before.
fn assert_undo_text(rt: &impl Abort, alloc: Global, before: &[&str], text: &str, want: &str) {
    let schema = Schema::builtin(alloc).expect(rt, "a schema");
    let mut directory = empty(rt, alloc, &schema, b"dc=com");
    for earlier in before {
        let _ = history_of(rt, alloc, &schema, &mut directory, earlier);
    }
    let undo = undo_text(rt, alloc, &schema, &mut directory, text);
    assert_text(rt, undo.as_slice(), want);
}

/// Applies the changes of a text, asserts the text that takes them back, and applies that.
fn assert_taken_back(
    rt: &impl Abort,
    alloc: Global,
    schema: &Schema,
    directory: &mut FlatDirectory,
    text: &str,
    want: &str,
) {
    let undo = undo_text(rt, alloc, schema, directory, text);
    assert_text(rt, undo.as_slice(), want);
    assert_accepted(rt, alloc, schema, directory, undo.as_slice());
}

#[test]
fn adds_are_taken_back_by_deletes_the_last_first(rt: HostRuntime) {
    let alloc = rt.alloc();
    let schema = Schema::builtin(alloc).expect(&rt, "a schema");
    let mut directory = empty(&rt, alloc, &schema, b"dc=com");
    let text = "dn: DC=Com\nchangetype: add\n\ndn: ou=People, dc=com\nchangetype: add\n\n";
    let want =
        "version: 1\n\n# undo 1\ndn: ou=People,DC=Com\nchangetype: delete\n\n# undo 2\ndn: DC=Com\nchangetype: delete\n\n";
    assert_taken_back(&rt, alloc, &schema, &mut directory, text, want);
    assert_entry_count(&rt, &directory, 0);
}

#[test]
fn a_delete_is_taken_back_with_every_byte(rt: HostRuntime) {
    let entry =
        "dn: cn=a,dc=com\nchangetype: add\ncn: a\ndescription:: IGxlYWQ=\nnote:\nuserPassword:: AP8=\n\n";
    let text = "dn: CN=A,dc=com\nchangetype: delete\n";
    let want =
        "version: 1\n\n# undo 1\ndn: cn=a,dc=com\nchangetype: add\ncn: a\ndescription:: IGxlYWQ=\nnote:\nuserPassword:: AP8=\n\n";
    assert_undo_text(&rt, rt.alloc(), &[TOP, entry], text, want);
}

#[test]
fn a_modify_is_taken_back_by_what_came_and_went(rt: HostRuntime) {
    let group = "dn: cn=g,dc=com\nchangetype: add\nmember: cn=a\nmember: cn=b\nmember: cn=c\n";
    let text = "dn: CN=G,dc=com\nchangetype: modify\nadd: member\nmember: cn=d\n-\n\
        delete: member\nmember: CN=B\n-\n\ndn: cn=g,dc=com\nchangetype: modify\n";
    let want =
        "version: 1\n\n# undo 1\n# undo 2\ndn: cn=g,dc=com\nchangetype: modify\ndelete: member\nmember: cn=d\n-\n\
        add: member\nmember: cn=b\n-\n\n";
    assert_undo_text(&rt, rt.alloc(), &[TOP, group], text, want);
}

#[test]
fn a_rename_to_the_own_key_is_taken_back(rt: HostRuntime) {
    let entry = "dn: cn=x,dc=com\nchangetype: add\nsn: Z\n";
    let text = "dn: cn=x,dc=com\nchangetype: moddn\nnewrdn: CN=X\ndeleteoldrdn: 0\n";
    let want =
        "version: 1\n\n# undo 1\ndn: CN=X,dc=com\nchangetype: modrdn\nnewrdn: cn=x\ndeleteoldrdn: 1\n\n";
    assert_undo_text(&rt, rt.alloc(), &[TOP, entry], text, want);
}

/// Asserts the text of two records that take back a rename of an entry.
fn assert_rename_undo(rt: &impl Abort, alloc: Global, entry: &str, text: &str, want: &str) {
    let schema = Schema::builtin(alloc).expect(rt, "a schema");
    let mut directory = empty(rt, alloc, &schema, b"dc=com");
    for earlier in [TOP, entry] {
        let _ = history_of(rt, alloc, &schema, &mut directory, earlier);
    }
    let changes = changes(rt, alloc, &schema, text);
    let change = changes.as_slice().first().expect(rt, "a change");
    let undo = any_undo_of(rt, alloc, &schema, &mut directory, change);
    assert!(rt; undo.records().len() == 2, "two records");
    let mut history = History::new(alloc);
    history.push(undo).expect(rt, "memory");
    let undo = history.undo_text(alloc).expect(rt, "memory");
    assert_text(rt, undo.as_slice(), want);
}

#[test]
fn a_rename_is_taken_back_with_the_values_and_spellings_before(rt: HostRuntime) {
    let entry = "dn: cn=a,dc=com\nchangetype: add\nCN: A\ncn: B\nsn: Z\nuid: u\n";
    let text = "dn: cn=a,dc=com\nchangetype: modrdn\nnewrdn: sn=y+CN=b\ndeleteoldrdn: 1\n";
    let want = "version: 1\n\n# undo 1\ndn: sn=y+CN=b,dc=com\nchangetype: modrdn\nnewrdn: cn=a\n\
        deleteoldrdn: 1\n\ndn: cn=a,dc=com\nchangetype: modify\ndelete: CN\nCN: a\n-\n\
        add: CN\nCN: A\nCN: B\n-\n\n";
    assert_rename_undo(&rt, rt.alloc(), entry, text, want);
    let entry = "dn: uid=u,dc=com\nchangetype: add\nUID: u\nmail: m\n";
    let text = "dn: uid=u,dc=com\nchangetype: modrdn\nnewrdn: cn=x\ndeleteoldrdn: 1\n";
    let want = "version: 1\n\n# undo 1\ndn: cn=x,dc=com\nchangetype: modrdn\nnewrdn: uid=u\n\
        deleteoldrdn: 1\n\ndn: uid=u,dc=com\nchangetype: modify\nreplace: UID\nUID: u\n-\n\n";
    assert_rename_undo(&rt, rt.alloc(), entry, text, want);
}

/// Changes, some of which are refused.
const TRIED: &str = "dn: dc=org\nchangetype: add\n\n\
    dn: cn=a,dc=com\nchangetype: add\n\n\
    dn: dc=com\nchangetype: add\n\n\
    dn: DC=COM\nchangetype: add\n\n\
    dn: cn=a,cn=b,dc=com\nchangetype: add\n\n\
    dn: cn=a,dc=com\nchangetype: add\nuidNumber: 007\nuidNumber: 007\n\n\
    dn: cn=a,dc=com\nchangetype: add\nuidNumber: 7\nuidNumber: 7\n\n\
    dn: cn=a,dc=com\nchangetype: add\nuidNumber: 7\nuidNumber: 8\n\n\
    dn: cn=a,dc=com\nchangetype: add\n\n\
    dn: dc=com\nchangetype: delete\n\n\
    dn: cn=b,dc=com\nchangetype: delete\n\n\
    dn: cn=b,dc=com\nchangetype: modify\n\n\
    dn: cn=a,dc=com\nchangetype: modify\n\n\
    dn: cn=a,dc=com\nchangetype: modify\nadd: sn\n-\n\n\
    dn: cn=a,dc=com\nchangetype: modify\nadd: sn\nsn: x\n-\ndelete: sn\nsn: y\n-\n\n\
    dn: cn=a,dc=com\nchangetype: modify\nreplace: cn\ncn: b\n-\n\n\
    dn: cn=a,dc=com\nchangetype: modify\nadd: uidNumber\nuidNumber: 1\nuidNumber: 2\n-\n\n\
    dn: dc=com\nchangetype: modrdn\nnewrdn: dc=org\ndeleteoldrdn: 1\n\n";

/// What each of them is refused with; none for those that are accepted.
static REFUSED: [Option<ResultCode>; 18] = [
    Some(ResultCode::NoSuchObject),
    Some(ResultCode::NoSuchObject),
    None,
    Some(ResultCode::EntryAlreadyExists),
    Some(ResultCode::NoSuchObject),
    Some(ResultCode::InvalidAttributeSyntax),
    Some(ResultCode::AttributeOrValueExists),
    Some(ResultCode::ConstraintViolation),
    None,
    Some(ResultCode::NotAllowedOnNonLeaf),
    Some(ResultCode::NoSuchObject),
    Some(ResultCode::NoSuchObject),
    None,
    Some(ResultCode::ProtocolError),
    Some(ResultCode::NoSuchAttribute),
    Some(ResultCode::NotAllowedOnRdn),
    Some(ResultCode::ConstraintViolation),
    Some(ResultCode::UnwillingToPerform),
];

#[test]
fn refusals_come_in_the_order_of_the_operation(rt: HostRuntime) {
    let alloc = rt.alloc();
    let schema = Schema::builtin(alloc).expect(&rt, "a schema");
    let mut directory = empty(&rt, alloc, &schema, b"dc=com");
    assert_outcomes(&rt, alloc, &schema, &mut directory, TRIED, &REFUSED);
    assert_entry_count(&rt, &directory, 2);
}

/// What `{}` shows a result code as.
fn plain(rt: &impl Abort, alloc: Global, code: ResultCode) -> String {
    format!(in alloc; "{code}").expect(rt, "memory")
}

/// What `{:#}` shows a result code as.
fn styled(rt: &impl Abort, alloc: Global, code: ResultCode) -> String {
    format!(in alloc; "{code:#}").expect(rt, "memory")
}

/// Asserts that a result code is shown so, plain and with `#`.
fn assert_shown(rt: &impl Abort, alloc: Global, code: ResultCode, want: &str) {
    assert_text(rt, code.text().as_bytes(), want);
    assert_text(rt, plain(rt, alloc, code).as_bytes(), want);
    assert_text(rt, styled(rt, alloc, code).as_bytes(), want);
}

/// Each result code, and what it is shown as.
static SHOWN: [(ResultCode, &str); 11] = [
    (ResultCode::ProtocolError, "2 protocolError"),
    (ResultCode::AdminLimitExceeded, "11 adminLimitExceeded"),
    (ResultCode::NoSuchAttribute, "16 noSuchAttribute"),
    (ResultCode::ConstraintViolation, "19 constraintViolation"),
    (
        ResultCode::AttributeOrValueExists,
        "20 attributeOrValueExists",
    ),
    (
        ResultCode::InvalidAttributeSyntax,
        "21 invalidAttributeSyntax",
    ),
    (ResultCode::NoSuchObject, "32 noSuchObject"),
    (ResultCode::UnwillingToPerform, "53 unwillingToPerform"),
    (ResultCode::NotAllowedOnNonLeaf, "66 notAllowedOnNonLeaf"),
    (ResultCode::NotAllowedOnRdn, "67 notAllowedOnRDN"),
    (ResultCode::EntryAlreadyExists, "68 entryAlreadyExists"),
];

#[test]
fn each_result_code_shows_its_number_and_name(rt: HostRuntime) {
    for (code, want) in &SHOWN {
        assert_shown(&rt, rt.alloc(), *code, want);
    }
}
