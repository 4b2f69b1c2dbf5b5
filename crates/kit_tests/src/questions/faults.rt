//! The faults of questions, with their lines, and which comes first.

use crate::questions::make::{CONFIG, COPY, told};
use std::alloc::Global;
use std::process::Abort;

/// Questions, and their fault.
static FAULTS: [(&str, &str); 27] = [
    // A line without a name and a value.
    ("dn: dc=com\nmail\n", "questions, line 2: L1 BadLine"),
    ("dn: dc=com\nmail:: *\n", "questions, line 2: L2 BadBase64"),
    (
        "dn:< file:///etc/passwd\nmail:\n",
        "questions, line 1: L3 UrlValue",
    ),
    // Lines out of their places.
    ("mail:\ndn: dc=com\n", "questions, line 1: A1 BadBlock"),
    (
        "dn: dc=com\nmail:\nsn:\ndn: dc=com\n",
        "questions, line 4: A1 BadBlock",
    ),
    (
        "dn: dc=com\nmail:\nfake: true\n",
        "questions, line 3: A1 BadBlock",
    ),
    (
        "dn: dc=com\nauthcDN: dc=com\nmail:\n",
        "questions, line 2: A1 BadBlock",
    ),
    (
        "fake: true\nauthcDN: dc=com\ndn: dc=com\nmail:\n",
        "questions, line 2: A1 BadBlock",
    ),
    (
        "authcDN: dc=com\nauthcDN: dc=com\ndn: dc=com\nmail:\n",
        "questions, line 2: A1 BadBlock",
    ),
    (
        "fake: false\ndn: dc=com\nmail:\n",
        "questions, line 1: A1 BadBlock",
    ),
    (
        "fake:\ndn: dc=com\nmail:\n",
        "questions, line 1: A1 BadBlock",
    ),
    // No `dn`, or no word: the block's first line.
    (
        "\n\nauthcDN: dc=com\nfake: true\n",
        "questions, line 3: A1 BadBlock",
    ),
    (
        "\nauthcDN: dc=com\ndn: dc=com\n\ndn: dc=com\nmail:\n",
        "questions, line 2: A1 BadBlock",
    ),
    // Names.
    ("dn: com\nmail:\n", "questions, line 1: A2 BadName"),
    (
        "authcDN: nobody\ndn: dc=com\nmail:\n",
        "questions, line 1: A2 BadName",
    ),
    (
        "authcDN: dc=com\ndn: dc=com,\nmail:\n",
        "questions, line 2: A2 BadName",
    ),
    // Words.
    (
        "dn: dc=com\nmail:\nma il:\n",
        "questions, line 3: A3 BadWord",
    ),
    ("dn: dc=com\nmail/all:\n", "questions, line 2: A3 BadWord"),
    ("dn: dc=com\nmail/:\n", "questions, line 2: A3 BadWord"),
    // Answers that no report has.
    ("dn: dc=com\nmail: =cs\n", "questions, line 2: A4 BadAnswer"),
    (
        "dn: dc=com\nmail: ALLOWED\n",
        "questions, line 2: A4 BadAnswer",
    ),
    (
        "dn: dc=com\nmail/read: =rscxd\n",
        "questions, line 2: A4 BadAnswer",
    ),
    (
        "dn: dc=com\nmail/read: allowed\n",
        "questions, line 2: A4 BadAnswer",
    ),
    (
        "dn: dc=com\nmail: No such entry\n",
        "questions, line 2: A4 BadAnswer",
    ),
    // The first line that is at fault decides; a block in the middle ends the run.
    (
        "dn: dc=com\nmail: x\nnot a word:\n",
        "questions, line 2: A4 BadAnswer",
    ),
    (
        "dn: dc=com\nmail:\n\ndn: dc=com\nmail: x\n\ndn: com\nmail:\n",
        "questions, line 5: A4 BadAnswer",
    ),
    ("version: 2\n", "questions: L15 BadVersion"),
];

#[test]
fn faults_are_told(rt: HostRuntime) {
    for (text, want) in &FAULTS {
        let out = told(&rt, rt.alloc(), [CONFIG, *text, COPY]);
        assert!(rt; out.as_str() == *want, "{out}");
    }
}

/// How often a byte comes, the byte, and the answer.
static LONG: [(usize, u8, &str); 4] = [
    (2_097_152, b'a', "questions, line 1: L1 BadLine"),
    (2_097_153, b'a', "questions: L10 LineTooLong"),
    (16_777_216, b'a', "questions: L10 LineTooLong"),
    (16_777_217, b'a', "questions: A5 TooLong"),
];

#[test]
fn long_texts_are_refused(rt: HostRuntime) {
    for (count, byte, want) in &LONG {
        assert_answer(&rt, rt.alloc(), *count, *byte, want);
    }
}

/// Asserts the answer to a text of one byte that comes so often.
fn assert_answer(rt: &impl Abort, alloc: Global, count: usize, byte: u8, want: &str) {
    let bytes = vec![in alloc; byte; count].expect(rt, "memory");
    let text = str::from_utf8(bytes.as_slice()).expect(rt, "UTF-8");
    let out = told(rt, alloc, [CONFIG, text, COPY]);
    assert!(rt; out.as_str() == want, "{out}");
}

/// A configuration, questions, a copy, and the fault.
static FIRST: [(&str, &str, &str, &str); 3] = [
    (
        "database mdb\nsuffix dc=com\naccess to\n",
        "dn: com\n",
        "dn: com\n",
        "config, line 3: C1 BadDirective",
    ),
    (
        CONFIG,
        "dn: com\n",
        "dn: com\n",
        "questions, line 1: A2 BadName",
    ),
    (
        CONFIG,
        "dn: dc=com\nmail:\n",
        "dn: com\nou: x\n",
        "copy, line 1: L9 N4 BadDn",
    ),
];

#[test]
fn faults_come_in_their_order(rt: HostRuntime) {
    for (config, questions, copy, want) in &FIRST {
        let out = told(&rt, rt.alloc(), [*config, *questions, *copy]);
        assert!(rt; out.as_str() == *want, "{out}");
    }
}

const WHOLE: &str =
    "version: 1\n\n# asked\nauthcDN: uid=mei,ou=trainees,dc=com\nfake: true\ndn: uid=zoe,ou=people,dc=com\nmail: =cxd\nmail/read: DENIED\n\nauthcDN:: dWlkPXpvZSxvdT1wZW9wbGUsZGM9Y29t\ndn: dc=com\nsn: =rscxd\n";

/// Where the whole text is cut, by the first bytes that are left out, and what the rest is answered.
static CUTS: [(&str, &str); 22] = [
    // No block yet: the version alone, or a comment.
    ("version", "as expected 0, otherwise 0, asked 0\n--\n"),
    ("ion: 1", "questions, line 1: L1 BadLine"),
    (" 1\n", "questions: L15 BadVersion"),
    ("\n\n# asked", "as expected 0, otherwise 0, asked 0\n--\n"),
    ("ked\n", "as expected 0, otherwise 0, asked 0\n--\n"),
    // A block without an entry or without a word.
    (": uid=mei", "questions, line 4: L1 BadLine"),
    (" uid=mei", "questions, line 4: A1 BadBlock"),
    ("e\ndn: uid=zoe", "questions, line 5: A1 BadBlock"),
    ("\ndn: uid=zoe", "questions, line 4: A1 BadBlock"),
    ("=zoe", "questions, line 6: A2 BadName"),
    ("\nmail: =cxd", "questions, line 4: A1 BadBlock"),
    // A word that is asked for, one with an answer that no report has, and one with another answer.
    (
        " =cxd",
        "line 7: mail: =cxd\nas expected 0, otherwise 0, asked 1\n--\nauthcDN: uid=mei,ou=trainees,dc=com\nfake: true\ndn: uid=zoe,ou=people,dc=com\nmail: =cxd\n\n",
    ),
    ("cxd\n", "questions, line 7: A4 BadAnswer"),
    (
        "xd\nmail/read",
        "line 7: mail: =cxd, expected =c\nas expected 0, otherwise 1, asked 0\n--\nauthcDN: uid=mei,ou=trainees,dc=com\nfake: true\ndn: uid=zoe,ou=people,dc=com\nmail: =cxd\n\n",
    ),
    ("ad: DENIED", "questions, line 8: L1 BadLine"),
    ("IED", "questions, line 8: A4 BadAnswer"),
    (
        "\n\nauthcDN::",
        "line 7: mail: =cxd, as expected\nline 8: mail/read: DENIED, as expected\nas expected 2, otherwise 0, asked 0\n--\nauthcDN: uid=mei,ou=trainees,dc=com\nfake: true\ndn: uid=zoe,ou=people,dc=com\nmail: =cxd\nmail/read: DENIED\n\n",
    ),
    // The second block.
    (" dWlk", "questions, line 10: A1 BadBlock"),
    ("kPXpv", "questions, line 10: L2 BadBase64"),
    ("sn:", "questions, line 10: A1 BadBlock"),
    (
        " =rscxd",
        "line 7: mail: =cxd, as expected\nline 8: mail/read: DENIED, as expected\nline 12: sn: =rscxd\nas expected 2, otherwise 0, asked 1\n--\nauthcDN: uid=mei,ou=trainees,dc=com\nfake: true\ndn: uid=zoe,ou=people,dc=com\nmail: =cxd\nmail/read: DENIED\n\nauthcDN: uid=zoe,ou=people,dc=com\ndn: dc=com\nsn: =rscxd\n\n",
    ),
    ("rscxd", "questions, line 12: A4 BadAnswer"),
];

#[test]
fn a_text_that_is_cut_is_answered_or_at_fault(rt: HostRuntime) {
    for (left_out, want) in &CUTS {
        let (text, _) = WHOLE.split_once(*left_out).expect(&rt, "a cut");
        let out = told(&rt, rt.alloc(), [CONFIG, text, COPY]);
        assert!(rt; out.as_str() == *want, "{out}");
    }
}
