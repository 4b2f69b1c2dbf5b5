//! What is answered, reported and written.

use crate::questions::make::{CONFIG, COPY, told};

/// Questions, and the verbose report with, after `--`, the questions as they are written with their answers.
static ANSWERED: [(&str, &str); 9] = [
    // No question.
    ("", "as expected 0, otherwise 0, asked 0\n--\n"),
    (
        "version: 1\n\n# none\n",
        "as expected 0, otherwise 0, asked 0\n--\n",
    ),
    // An answer that is otherwise, one that is as expected, and one that is only asked for.
    (
        "# trainees only compare mail\nauthcDN: uid=mei,ou=people,dc=com\ndn: uid=zoe,ou=people,dc=com\nmail: =sc\nuserPassword/read: DENIED\ntelephoneNumber:\n",
        "line 4: mail: =rscxd, expected =sc\nline 5: userPassword/read: DENIED, as expected\nline 6: telephoneNumber: =0\nas expected 1, otherwise 1, asked 1\n--\nauthcDN: uid=mei,ou=people,dc=com\ndn: uid=zoe,ou=people,dc=com\nmail: =rscxd\nuserPassword/read: DENIED\ntelephoneNumber: =0\n\n",
    ),
    // Each block has a requester of its own: none where it is absent, empty or `anonymous`.
    (
        "authcDN: uid=mei,ou=trainees,dc=com\ndn: uid=zoe,ou=people,dc=com\nmail: =cxd\n\ndn: uid=zoe,ou=people,dc=com\nmail: =rscxd\nuserPassword: =xd\n\nauthcDN:\ndn: uid=zoe,ou=people,dc=com\nuserPassword/auth: ALLOWED\n\nauthcdn: Anonymous\ndn: uid=zoe,ou=people,dc=com\nuserPassword/compare: ALLOWED\n",
        "line 3: mail: =cxd, as expected\nline 6: mail: =rscxd, as expected\nline 7: userPassword: =xd, as expected\nline 11: userPassword/auth: ALLOWED, as expected\nline 15: userPassword/compare: DENIED, expected ALLOWED\nas expected 4, otherwise 1, asked 0\n--\nauthcDN: uid=mei,ou=trainees,dc=com\ndn: uid=zoe,ou=people,dc=com\nmail: =cxd\n\ndn: uid=zoe,ou=people,dc=com\nmail: =rscxd\nuserPassword: =xd\n\ndn: uid=zoe,ou=people,dc=com\nuserPassword/auth: ALLOWED\n\ndn: uid=zoe,ou=people,dc=com\nuserPassword/compare: DENIED\n\n",
    ),
    // Requester and owner are the same.
    (
        "authcDN: UID=zoe, OU=people, DC=com\ndn: uid=zoe,ou=people,dc=com\nuserPassword: =wrscxd\n",
        "line 3: userPassword: =wrscxd, as expected\nas expected 1, otherwise 0, asked 0\n--\nauthcDN: UID=zoe,OU=people,DC=com\ndn: uid=zoe,ou=people,dc=com\nuserPassword: =wrscxd\n\n",
    ),
    // An entry that is not in the copy, or outside the suffix, has an answer too.
    (
        "dn: uid=abe,ou=people,dc=com\nmail: no such entry\nmail/read: DENIED\nsn:\n\ndn: dc=org\nentry: =rscxd\n",
        "line 2: mail: no such entry, as expected\nline 3: mail/read: no such entry, expected DENIED\nline 4: sn: no such entry\nline 7: entry: no such entry, expected =rscxd\nas expected 1, otherwise 2, asked 1\n--\ndn: uid=abe,ou=people,dc=com\nmail: no such entry\nmail/read: no such entry\nsn: no such entry\n\ndn: dc=org\nentry: no such entry\n\n",
    ),
    // An entry that is made up; outside the suffix it can't be.
    (
        "Fake: TRUE\nDN: uid=abe,ou=people,dc=com\nmail: =rscxd\n\nfake: true\ndn: dc=org\nmail:\n",
        "line 3: mail: =rscxd, as expected\nline 7: mail: no such entry\nas expected 1, otherwise 0, asked 1\n--\nfake: true\ndn: uid=abe,ou=people,dc=com\nmail: =rscxd\n\nfake: true\ndn: dc=org\nmail: no such entry\n\n",
    ),
    // Words in odd case, as they are written; `entry` and `children`; options; a number.
    (
        "dn: dc=com\nMAIL/Read: ALLOWED\nEntry:\ncHILDREN/write:\nou;lang-en/search:\n2.5.4.4/none:\n",
        "line 2: MAIL/Read: ALLOWED, as expected\nline 3: Entry: =rscxd\nline 4: cHILDREN/write: DENIED\nline 5: ou;lang-en/search: ALLOWED\nline 6: 2.5.4.4/none: ALLOWED\nas expected 1, otherwise 0, asked 4\n--\ndn: dc=com\nMAIL/Read: ALLOWED\nEntry: =rscxd\ncHILDREN/write: DENIED\nou;lang-en/search: ALLOWED\n2.5.4.4/none: ALLOWED\n\n",
    ),
    // Lines are those of LDIF: folded, in base64, after comments, with CR.
    (
        "dn:: dWlkPXpvZSxvdT1wZW9wbGUsZGM9Y29t\r\n# between\r\nma\r\n il:: PXJzY3hk\r\n\r\n\r\ndn: DC=com\r\nsn: =rscxd",
        "line 3: mail: =rscxd, as expected\nline 8: sn: =rscxd, as expected\nas expected 2, otherwise 0, asked 0\n--\ndn: uid=zoe,ou=people,dc=com\nmail: =rscxd\n\ndn: DC=com\nsn: =rscxd\n\n",
    ),
];

#[test]
fn questions_are_answered(rt: HostRuntime) {
    for (text, want) in &ANSWERED {
        let out = told(&rt, rt.alloc(), [CONFIG, *text, COPY]);
        assert!(rt; out.as_str() == *want, "{out}");
    }
}

/// What is written with its answers is answered as it expects, and written again is the same.
#[test]
fn answers_are_asked_again(rt: HostRuntime) {
    for (_, told_first) in &ANSWERED {
        let (_, answers) = told_first.split_once("--\n").expect(&rt, "answers");
        let out = told(&rt, rt.alloc(), [CONFIG, answers, COPY]);
        let (report, again) = out.as_str().split_once("--\n").expect(&rt, "answers");
        assert!(rt; again == answers, "{again}");
        assert!(rt; report.ends_with(", otherwise 0, asked 0\n"), "{report}");
    }
}
