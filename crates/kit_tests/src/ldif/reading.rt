//! Texts and what they read as, in whatever pieces they come.

use crate::ldif::devices::{Way, script};
use crate::ldif::make::{Answer, answers, schema};
use dir_ldif::{Record, RecordFault, RecordReader, Script, Source, StreamFault, record_text};
use std::alloc::Global;
use std::process::Abort;

/// CR LF ends, a folded comment, folded values and base64, with a final line without its end.
const FOLDED: &str =
    "# folded\r\n  comment\r\ndn: cn=e,dc=com\r\nchangetype: modify\r\nadd: description\r\ndescription: two\r\n  words \r\n\r\n\r\ndn: cn=f,dc=com\r\nnote:: AP\r\n 8=\r\nnote: x";

const FOLDED_SHOWN: &str =
    "3 dn: cn=e,dc=com|changetype: modify|add: description|description:: dHdvIHdvcmRzIA==|-||;10 dn: cn=f,dc=com|note:: AP8=|note: x||;";

const TOO_MANY: &str = "L14 TooManyTurns;L13 Ended;";

/// A text whose second record is cut.
pub(crate) const CUT: &str = "dn: dc=com\n\ndn: cn=a,";

/// Texts, how a script gives them, how many read calls are allowed where they are fewer than usual, and what is read:
/// records, and faults with the lines of their records; then what ends the text. Each LF is a `|`.
static TEXTS: [(&str, &[Way], Option<u8>, &str); 24] = [
    (FOLDED, &[], None, FOLDED_SHOWN),
    (FOLDED, &[Way::Pieces(1)], None, FOLDED_SHOWN),
    (
        "version: 1\ndn: cn=B,dc=a\nobjectclass: top\ncn: B\n\n# c\ndn: cn=C,dc=a\ncn: C\n",
        &[],
        None,
        "2 dn: cn=B,dc=a|objectclass: top|cn: B||;7 dn: cn=C,dc=a|cn: C||;",
    ),
    (
        "cn: a\n\ndn: cn=b\n",
        &[],
        None,
        "1 L1 BadLine;3 dn: cn=b||;",
    ),
    ("version: 2\n", &[], None, "L15 BadVersion;L13 Ended;"),
    // Records of each kind, which are written as they were read.
    (
        "dn: DC=Example,dc=com\nDC: Example\nobjectClass: domain\n\n",
        &[],
        None,
        "1 dn: DC=Example,dc=com|DC: Example|objectClass: domain||;",
    ),
    (
        "dn: DC=Example,dc=com\nchangetype: delete\n\n",
        &[],
        None,
        "1 dn: DC=Example,dc=com|changetype: delete||;",
    ),
    (
        "dn: cn=a,dc=com\nchangetype: add\ncn: a\ndescription:: IGxlYWQ=\nnote:\nuserPassword:: AP8=\n\n",
        &[],
        None,
        "1 dn: cn=a,dc=com|changetype: add|cn: a|description:: IGxlYWQ=|note:|userPassword:: AP8=||;",
    ),
    (
        "dn: cn=e,dc=com\nchangetype: modify\ndelete: description\ndescription: Foo\n-\nadd: description\ndescription: foo\n-\n\n",
        &[],
        None,
        "1 dn: cn=e,dc=com|changetype: modify|delete: description|description: Foo|-|add: description|description: foo|-||;",
    ),
    (
        "dn: cn=max-uidNumber,dc=example,dc=com\nchangetype: modify\nincrement: uidNumber\nuidNumber: 1\n-\n\n",
        &[],
        None,
        "1 dn: cn=max-uidNumber,dc=example,dc=com|changetype: modify|increment: uidNumber|uidNumber: 1|-||;",
    ),
    (
        "dn: dc=b,dc=com\nchangetype: modrdn\nnewrdn: dc=a\ndeleteoldrdn: 1\n\n",
        &[],
        None,
        "1 dn: dc=b,dc=com|changetype: modrdn|newrdn: dc=a|deleteoldrdn: 1||;",
    ),
    (
        "dn: ou=Team,ou=B,dc=com\nchangetype: modrdn\nnewrdn: ou=Team\ndeleteoldrdn: 1\nnewsuperior: ou=A,dc=com\n\n",
        &[],
        None,
        "1 dn: ou=Team,ou=B,dc=com|changetype: modrdn|newrdn: ou=Team|deleteoldrdn: 1|newsuperior: ou=A,dc=com||;",
    ),
    // Sources end or fail, or use up the read calls.
    ("dn: dc=com\n", &[Way::Pieces(1)], Some(3), TOO_MANY),
    ("", &[Way::FailingFrom(1)], None, "L11 Read;L13 Ended;"),
    (
        "dn: dc=com\n\n",
        &[Way::FailingFrom(2)],
        None,
        "1 dn: dc=com||;L11 Read;L13 Ended;",
    ),
    (
        CUT,
        &[Way::FailingFrom(2)],
        None,
        "1 dn: dc=com||;L11 Read;L13 Ended;",
    ),
    // Eleven pieces of a byte, and the end, which takes one more.
    (
        "dn: dc=com\n",
        &[Way::Pieces(1)],
        Some(12),
        "1 dn: dc=com||;",
    ),
    ("dn: dc=com\n", &[Way::Pieces(1)], Some(11), TOO_MANY),
    // Texts that have no record, however often they come.
    ("\n", &[Way::Endless], Some(100), TOO_MANY),
    ("\r\n", &[Way::Endless], Some(100), TOO_MANY),
    ("#\n", &[Way::Endless], Some(100), TOO_MANY),
    ("# a comment\n", &[Way::Endless], Some(100), TOO_MANY),
    (" \n", &[Way::Endless], Some(100), TOO_MANY),
    (" \r\n", &[Way::Endless], Some(100), TOO_MANY),
];

#[test]
fn texts_are_read(rt: HostRuntime) {
    for (text, ways, turns, want) in &TEXTS {
        assert_read(&rt, rt.alloc(), script(text, ways), *turns, want);
    }
    for at in 1..FOLDED.len() {
        let cut = Script::new(FOLDED.as_bytes()).first_piece(at);
        assert_read(&rt, rt.alloc(), cut, None, FOLDED_SHOWN);
    }
    let piece = vec![in rt.alloc(); b'a'; 8192].expect(&rt, "memory");
    let endless = Script::new(piece.as_slice()).endless();
    let want = "L10 LineTooLong;L13 Ended;";
    assert_read(&rt, rt.alloc(), endless, None, want);
}

#[test]
fn texts_are_read_at_once(rt: HostRuntime) {
    let mut out = String::new(rt.alloc());
    let found = answers(&rt, rt.alloc(), FOLDED.as_bytes()).expect(&rt, "answers");
    for (line, answer) in &found {
        push_answer(&rt, rt.alloc(), &mut out, *line, answer);
    }
    assert_shown(&rt, rt.alloc(), &out, FOLDED_SHOWN);
    let line = vec![in rt.alloc(); b'a'; 2_097_153].expect(&rt, "memory");
    let fault = answers(&rt, rt.alloc(), line.as_slice()).err();
    assert!(rt; fault == Some(StreamFault::LineTooLong));
}

/// Asserts what a source's text reads as, of at most so many read calls, if there is such a number.
fn assert_read(rt: &impl Abort, alloc: Global, source: Script, turns: Option<u8>, want: &str) {
    let schema = schema(rt, alloc);
    let reader = match turns {
        Some(turns) => RecordReader::with_turns(alloc, &schema, source, turns.into()),
        None => RecordReader::new(alloc, &schema, source),
    };
    let mut reader = reader.expect(rt, "a reader");
    assert_shown(rt, alloc, &shown(rt, alloc, &mut reader), want);
    // without a number of groups no mark is counted
    assert!(rt; reader.marks() == 0);
}

const GROUPS: &str =
    "version: 1\n\n# undo 1\ndn: dc=a\n\ndn: dc=b\n\n# undo 2\n# undo 3\ndn: dc=c\n\n";

/// Texts, how many of their groups are read, what these read as, and how many marks are passed.
static GROUPED: [(&str, u64, &str, u64); 24] = [
    (GROUPS, 0, "", 0),
    (GROUPS, 1, "4 dn: dc=a||;6 dn: dc=b||;", 1),
    (GROUPS, 2, "4 dn: dc=a||;6 dn: dc=b||;", 2),
    (GROUPS, 3, "4 dn: dc=a||;6 dn: dc=b||;10 dn: dc=c||;", 3),
    // The end comes after fewer marks.
    (GROUPS, 4, "4 dn: dc=a||;6 dn: dc=b||;10 dn: dc=c||;", 3),
    (
        GROUPS,
        u64::MAX,
        "4 dn: dc=a||;6 dn: dc=b||;10 dn: dc=c||;",
        3,
    ),
    ("", 1, "", 0),
    ("version: 1\n", 1, "", 0),
    ("version: 1\n# undo 1", 1, "", 1),
    // Records before the first mark.
    ("dn: dc=a\n\n# undo 1\n", 0, "L16 BadMark;L13 Ended;", 0),
    ("version: 1\ndn: dc=a\n", 1, "L16 BadMark;L13 Ended;", 0),
    // Marks that are not due.
    ("# undo 2\n", 1, "L16 BadMark;L13 Ended;", 0),
    ("# undo 2\n", 0, "L16 BadMark;L13 Ended;", 0),
    ("# undo 1\n# undo 1\n", 2, "L16 BadMark;L13 Ended;", 1),
    (
        "# undo 1\ndn: dc=a\n\n# undo 3",
        1,
        "2 dn: dc=a||;L16 BadMark;L13 Ended;",
        1,
    ),
    (
        "# undo 111111111111111111111111111111\n",
        1,
        "L16 BadMark;L13 Ended;",
        0,
    ),
    // Comments of other forms.
    (
        "# undo 0\n# undo 01\n# undo  1\n#undo 1\n# undo\n# undo \n# undo 1a\n# Undo 1\n",
        1,
        "",
        0,
    ),
    (
        "# undo 1 \n # undo 2\n# undo 1\ndn: dc=a\n",
        1,
        "4 dn: dc=a||;",
        1,
    ),
    // Within a record, right after the version line, and at once after a record's empty line.
    (
        "version: 1\n# undo 1\ndn: dc=a\n# undo 7\nl: x\n# undo 2\n\n# undo 2\nx\n",
        1,
        "3 dn: dc=a|l: x||;",
        1,
    ),
    // Folded, and with CR LF.
    (
        "# un\n do 1\ndn: dc=a\n\n#\n  undo\n  2\nx\n",
        1,
        "3 dn: dc=a||;",
        1,
    ),
    (
        "# undo 1\r\ndn: dc=a\r\n\r\n# undo \r\n 2\r\nx\r\n",
        1,
        "2 dn: dc=a||;",
        1,
    ),
    ("# undo 1\n 0\ndn: dc=a\n", 1, "L16 BadMark;L13 Ended;", 0),
    // What comes after the last wanted group is not judged.
    (
        "# undo 1\ndn: dc=a\n\n# undo 2\n# undo 2\nversion: 2\n\nx\n",
        1,
        "2 dn: dc=a||;",
        1,
    ),
    ("# undo 1\nversion: 2\n", 1, "L15 BadVersion;L13 Ended;", 1),
];

#[test]
fn first_groups_are_read(rt: HostRuntime) {
    for (text, groups, want, marks) in &GROUPED {
        let script = Script::new(text.as_bytes());
        assert_groups(&rt, rt.alloc(), script, *groups, want, *marks);
        let script = Script::new(text.as_bytes()).pieces(1);
        assert_groups(&rt, rt.alloc(), script, *groups, want, *marks);
    }
}

/// Asserts what the first so many groups of a source's text read as, and how many marks are passed.
fn assert_groups(
    rt: &impl Abort,
    alloc: Global,
    source: Script,
    groups: u64,
    want: &str,
    marks: u64,
) {
    let schema = schema(rt, alloc);
    let mut reader = RecordReader::up_to(alloc, &schema, source, groups).expect(rt, "a reader");
    assert_shown(rt, alloc, &shown(rt, alloc, &mut reader), want);
    assert!(rt; reader.marks() == marks, "{want}");
}

fn assert_shown(rt: &impl Abort, alloc: Global, shown: &String, want: &str) {
    let shown = shown.replace(alloc, "\n", "|").expect(rt, "memory");
    assert!(rt; shown.as_str() == want, "{shown}");
}

/// What a reader answers.
fn shown(rt: &impl Abort, alloc: Global, reader: &mut RecordReader<Script>) -> String {
    let mut out = String::new(alloc);
    for _ in 0..100 {
        if !push_next(rt, alloc, &mut out, next(reader)) {
            break;
        }
    }
    out
}

/// What a reader answers next.
pub(crate) fn next<R: Source + Drop>(
    reader: &mut RecordReader<R>,
) -> Result<Option<Answer>, StreamFault> {
    reader.next()
}

/// Appends what a reader answered, and tells whether it can answer more.
fn push_next(
    rt: &impl Abort,
    alloc: Global,
    out: &mut String,
    next: Result<Option<Answer>, StreamFault>,
) -> bool {
    match next {
        Ok(Some((line, answer))) => {
            push_answer(rt, alloc, out, line, &answer);
            true
        }
        Ok(None) => false,
        Err(fault) => {
            write!(out, "{fault};").expect(rt, "memory");
            fault != StreamFault::Ended
        }
    }
}

/// Appends the line of a record, and its text or its fault.
fn push_answer(
    rt: &impl Abort,
    alloc: Global,
    out: &mut String,
    line: u64,
    answer: &Result<Record, RecordFault>,
) {
    match answer {
        Ok(record) => {
            let text = record_text(alloc, record).expect(rt, "memory");
            let text = String::from_utf8(text).expect(rt, "ASCII");
            write!(out, "{line} {text};").expect(rt, "memory");
        }
        Err(fault) => write!(out, "{line} {fault};").expect(rt, "memory"),
    }
}
