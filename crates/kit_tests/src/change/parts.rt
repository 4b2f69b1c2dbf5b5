//! Changes of entries on both sides of each limit of the short way, which a tree goes with small entries: a flat directory, and
//! one with no methods but those that each must have, go the general way, and the same takes the changes back.

use crate::change::plain::PlainDirectory;
use crate::change::tests::{changes, empty};
use dir_change::{History, apply};
use dir_names::Schema;
use dir_tree::{Directory, TreeDirectory};
use std::alloc::Global;
use std::process::Abort;

/// An entry: how many notes it has, of how many bytes each, how many values of other types, and of how many bytes one more is.
type Row = (usize, usize, usize, usize);

static ROWS: [Row; 11] = [
    (0, 0, 0, 1),
    // five notes are copied whole, six are not
    (5, 8, 10, 1),
    (6, 8, 10, 1),
    // so are 1,024 bytes, and more are not
    (1, 1024, 10, 1),
    (1, 1025, 10, 1),
    (4, 256, 10, 1),
    (4, 257, 10, 1),
    // with the new note 64 values, and one more
    (1, 8, 60, 1),
    (1, 8, 61, 1),
    // with the new note 65,535 bytes, and one more
    (1, 8, 1, 65520),
    (1, 8, 1, 65521),
];

/// The entry of a row. Notes and others are numbers of so many digits.
fn text_of(rt: &impl Abort, alloc: Global, row: &Row) -> String {
    let (notes, bytes, others, long) = *row;
    let mut text = String::new(alloc);
    text.push_str("dn: cn=a,dc=com\nchangetype: add\ncn: a\nlong: ")
        .expect(rt, "memory");
    for _ in 0..long {
        text.push('a').expect(rt, "memory");
    }
    for number in 0..notes {
        push_value(rt, alloc, &mut text, "\nnote: ", number, bytes);
    }
    for number in 0..others {
        push_value(rt, alloc, &mut text, "\nother: ", number, 3);
    }
    text.push_str("\n\n").expect(rt, "memory");
    text
}

/// Appends a number of so many digits after this, two at least.
fn push_value(
    rt: &impl Abort,
    alloc: Global,
    text: &mut String,
    before: &str,
    number: usize,
    digits: usize,
) {
    text.push_str(before).expect(rt, "memory");
    for _ in 2..digits {
        text.push('0').expect(rt, "memory");
    }
    let number = format!(in alloc; "{number:02}").expect(rt, "memory");
    text.push_str(number.as_str()).expect(rt, "memory");
}

/// Changes of each kind, the third of which is refused. The last leaves its whole entry in what takes it back.
const CHANGES: &str = "dn: ou=o,dc=com\nchangetype: add\n\n\
    dn: cn=a,dc=com\nchangetype: modify\nadd: note\nnote: new\n-\n\n\
    dn: cn=a,dc=com\nchangetype: modify\nadd: note\nnote: NEW\n-\nadd: title\ntitle: t\n-\n\n\
    dn: cn=a,dc=com\nchangetype: modify\ndelete: note\nnote: New\n-\nreplace: title\ntitle: T\n-\n\n\
    dn: cn=a,dc=com\nchangetype: modrdn\nnewrdn: cn=b\ndeleteoldrdn: 0\n\n\
    dn: cn=b,dc=com\nchangetype: modify\nreplace: note\nnote: A\nnote: B\n-\nreplace: TITLE\nTITLE: b\n-\n\n\
    dn: cn=b,dc=com\nchangetype: moddn\nnewrdn: note=a+uid=u\ndeleteoldrdn: 1\nnewsuperior: ou=o,dc=com\n\n\
    dn: uid=u+note=a,ou=o,dc=com\nchangetype: delete\n\n";

/// The text that takes back the changes of a text but those that are refused, and how many these are.
fn undo_text<D: Directory + Drop>(
    rt: &impl Abort,
    alloc: Global,
    schema: &Schema,
    mut directory: D,
    text: &str,
) -> (Vec<u8>, usize) {
    let mut history = History::new(alloc);
    let mut refused: usize = 0;
    for change in changes(rt, alloc, schema, text).as_slice() {
        match apply(alloc, schema, &mut directory, change) {
            Ok(undo) => history.push(undo).expect(rt, "memory"),
            Err(_) => refused = refused.saturating_add(1),
        }
    }
    (history.undo_text(alloc).expect(rt, "memory"), refused)
}

/// The text of changes gives the same undo text, with so many refused, in each directory.
fn assert_same(rt: &impl Abort, alloc: Global, schema: &Schema, text: &str, count: usize) {
    let flat = empty(rt, alloc, schema, b"dc=com");
    let key = flat.suffix().try_clone(alloc).expect(rt, "memory");
    let inner = empty(rt, alloc, schema, b"dc=com");
    let (want, refused) = undo_text(rt, alloc, schema, flat, text);
    assert!(rt; refused == count);
    let plain = undo_text(rt, alloc, schema, PlainDirectory { inner }, text);
    assert!(rt; plain.0.as_slice() == want.as_slice() && plain.1 == count);
    let tree = undo_text(rt, alloc, schema, TreeDirectory::new(alloc, key), text);
    assert!(rt; tree.0.as_slice() == want.as_slice() && tree.1 == count);
}

#[test]
fn changes_by_part_are_as_changes_of_the_whole(rt: HostRuntime) {
    let alloc = rt.alloc();
    let schema = Schema::builtin(alloc).expect(&rt, "a schema");
    for row in &ROWS {
        let entry = text_of(&rt, alloc, row);
        let entry = entry.as_str();
        let text = format!(in alloc; "dn: dc=com\nchangetype: add\n\n{entry}{CHANGES}").expect(
            &rt, "memory",
        );
        assert_same(&rt, alloc, &schema, text.as_str(), 1);
    }
}

/// How many attributes one modify names. 16 are copied whole, 17 are not.
static NAMED: [usize; 3] = [16, 17, 70];

/// Appends a modify of so many attributes, each with an operation and a value.
fn push_modify(
    rt: &impl Abort,
    alloc: Global,
    text: &mut String,
    operation: &str,
    value: &str,
    count: usize,
) {
    text.push_str("dn: cn=a,dc=com\nchangetype: modify")
        .expect(rt, "memory");
    for number in 0..count {
        push_value(rt, alloc, text, operation, number, 2);
        push_value(rt, alloc, text, "\nnote;x-", number, 2);
        text.push_str(value).expect(rt, "memory");
    }
    text.push_str("\n\n").expect(rt, "memory");
}

#[test]
fn a_modify_of_many_attributes_is_as_one_of_the_whole(rt: HostRuntime) {
    let alloc = rt.alloc();
    let schema = Schema::builtin(alloc).expect(&rt, "a schema");
    for count in &NAMED {
        let mut text = text_of(&rt, alloc, &(1, 8, 3, 1));
        push_modify(&rt, alloc, &mut text, "\nadd: note;x-", ": a\n-", *count);
        push_modify(
            &rt,
            alloc,
            &mut text,
            "\nreplace: note;x-",
            ": b\n-",
            *count,
        );
        push_modify(&rt, alloc, &mut text, "\ndelete: note;x-", ": a\n-", *count);
        push_modify(&rt, alloc, &mut text, "\ndelete: note;x-", ": b\n-", *count);
        let changes = text.as_str();
        let text = format!(in alloc; "dn: dc=com\nchangetype: add\n\n{changes}").expect(
            &rt, "memory",
        );
        assert_same(&rt, alloc, &schema, text.as_str(), 1);
    }
}
