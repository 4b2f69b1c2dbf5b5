//! Runs with the texts that they are to write, each of which is taken back, and faults in their order: over devices that give and take pieces, and that fail.
//! Many more are tried through the program (`tests/trial/rows.py`).

use crate::tools::running::{
    ACCEPTED, DRY, Devices, EMPTY_GROUP, FAULTY, GO_ON, IN_EIGHTS, NO_UNDO, Run, VERBOSE, WHOLE,
    assert_run,
};

pub(crate) const CHANGES: &str =
    "dn: cn=a,dc=com\nchangetype: add\nsn: b\n\ndn: cn=c,dc=com\nchangetype: delete\n";

pub(crate) const UNDO: &str = "version: 1\n\n# undo 1\ndn: cn=a,dc=com\nchangetype: delete\n\n";

pub(crate) const OUT: &str = "dn: dc=com\ndc: com\n\ndn: cn=a,dc=com\ncn: a\nsn: b\n\n";

pub(crate) const REPORT: &str = "line 5: refused, 32 noSuchObject\naccepted 1, refused 1\n";

const CANONICAL: &str = "dn: dc=com\ndc: com\n\ndn: cn=a,dc=com\ncn: a\nsn: B\nsn: z\n\n";

/// One refused record, and what a run tells of it that stops there.
const REFUSED: &str = "dn: cn=c,dc=com\nchangetype: delete\n\n";

const TOLD: Run<'static> = Run {
    changes: REFUSED,
    report: "line 1: refused, 32 noSuchObject\naccepted 0, refused 1\n",
    answer: "accepted 0, refused 1",
    ..ACCEPTED
};

/// A run that refuses one record of a copy with something to refuse changes for.
const REFUSING: Run<'static> = Run {
    copy: COPY,
    out: COPY,
    answer: "accepted 0, refused 1",
    back: Some(COPY),
    ..ACCEPTED
};

const COPY: &str = "dn: dc=com\ndc: com\n\ndn: cn=e,dc=com\ncn: e\ndescription: foo\n\n\
    dn: cn=p,dc=com\ncn: p\n\ndn: cn=q,cn=p,dc=com\ncn: q\n\ndn: cn=r,dc=com\ncn: r\n\ndn: dc=a,dc=com\ndc: a\n\n";

/// A run of one record, which is refused with this code or fault.
macro_rules! refused {
    ($shows:literal, $record:literal, $cause:literal) => {
        Run {
            shows: $shows,
            changes: $record,
            report: concat!("line 1: refused, ", $cause, "\naccepted 0, refused 1\n"),
            ..REFUSING
        }
    };
}

/// The text of a copy with an entry of this RDN and these lines below `dc=com`.
macro_rules! copy {
    ($rdn:literal, $lines:literal) => {
        concat!("dn: dc=com\ndc: com\n\ndn: ", $rdn, ",dc=com\n", $lines, "\n")
    };
}

/// The undo text of a modify of this entry that is taken back by these modifications, or by none.
macro_rules! undo {
    ($rdn:literal, none) => {
        EMPTY_GROUP
    };
    ($rdn:literal, $mods:literal) => {
        concat!("version: 1\n\n# undo 1\ndn: ", $rdn, ",dc=com\nchangetype: modify\n", $mods, "\n")
    };
}

/// A run of one modify: what it shows, the RDN of the entry, its lines, the modifications, the lines after them, and the
/// modifications that take them back.
macro_rules! modify {
    ($shows:literal, $rdn:literal, before: $before:literal, mods: $mods:literal, after: $after:literal, undo: $undo:tt) => {
        Run {
            shows: $shows,
            copy: copy!($rdn, $before),
            changes: concat!("dn: ", $rdn, ",dc=com\nchangetype: modify\n", $mods, "\n"),
            undo: undo!($rdn, $undo),
            out: copy!($rdn, $after),
            back: Some(copy!($rdn, $before)),
            ..ACCEPTED
        }
    };
}

pub(crate) const ROOM: &str =
    "attributetype ( 1.3.6.1.4.1.32473.1 NAME ( 'room' 'roomName' )\n  EQUALITY caseIgnoreMatch SINGLE-VALUE )\n";

const LEVEL: &str = "attributetype ( 1.3.6.1.4.1.32473.2 NAME 'level' SUP uidNumber )\n";

const IN_A_ROOM: &str = "dn: dc=com\ndc: com\n\ndn: cn=e,dc=com\ncn: e\nroom: A 1\n\n";

const LEVELS: &str =
    "dn: dc=com\ndc: com\n\ndn: cn=e,dc=com\ncn: e\nLevel: -5\nLevel: 0\nLevel: 5\n\n";

pub(crate) const ROOMS: &str = "dn: dc=com\ndc: com\n\ndn: room=A 1,dc=com\nroom: A 1\n\n";

/// A run over an entry with a room, which refuses all.
const UNDER_TYPES: Run<'static> = Run {
    types: ROOM,
    options: GO_ON,
    copy: IN_A_ROOM,
    undo: NO_UNDO,
    out: IN_A_ROOM,
    back: Some(IN_A_ROOM),
    ..ACCEPTED
};

/// Devices, and what comes of a run over them. The prover takes no more rows in one table.
static FIRST_RUNS: [(Devices, Run<'static>); 15] = [
    (
        IN_EIGHTS,
        Run {
            shows: "no device fails",
            changes: CHANGES,
            undo: UNDO,
            out: OUT,
            report: REPORT,
            answer: "accepted 1, refused 1",
            ..ACCEPTED
        },
    ),
    (
        Devices { piece: 1, ..WHOLE },
        Run {
            shows: "a copy is read and written byte by byte in the canonical order",
            copy: "dn: cn=a,dc=com\nsn: z\nsn: B\ncn: a\n\ndn: dc=com\n",
            out: CANONICAL,
            report: "accepted 0, refused 0\n",
            answer: "accepted 0, refused 0",
            back: Some(CANONICAL),
            ..ACCEPTED
        },
    ),
    (
        Devices {
            piece: 20,
            undo: 2,
            ..WHOLE
        },
        Run {
            shows: "an undo writer that fails leaves a prefix and the others empty",
            suffix: "dc=Example,dc=com",
            copy: "",
            changes: "dn: DC=Example, dc=com\nchangetype: add\nobjectClass: domain\n",
            undo: "version: 1\n\n# undo 1",
            answer: "cannot write undo",
            ..FAULTY
        },
    ),
    (
        Devices { room: 8, ..WHOLE },
        Run {
            shows: "a writer that takes no byte is at fault",
            undo: NO_UNDO,
            out: "dn: dc=c",
            answer: "cannot write out",
            ..FAULTY
        },
    ),
    (
        Devices {
            copy: 2,
            changes: 9,
            ..WHOLE
        },
        Run {
            shows: "a copy that can't be read",
            answer: "cannot read copy",
            ..FAULTY
        },
    ),
    (
        Devices {
            copy: 9,
            changes: 1,
            ..WHOLE
        },
        Run {
            shows: "changes that can't be read",
            answer: "cannot read changes",
            ..FAULTY
        },
    ),
    (
        Devices {
            changes: 2,
            ..WHOLE
        },
        Run {
            shows: "in stop mode a reader that fails after the first refused record is not read",
            ..TOLD
        },
    ),
    (
        Devices {
            changes: 2,
            ..WHOLE
        },
        Run {
            shows: "a run that goes on reads on",
            options: GO_ON,
            changes: REFUSED,
            answer: "cannot read changes",
            ..FAULTY
        },
    ),
    (
        Devices {
            copy: 1,
            changes: 1,
            ..WHOLE
        },
        Run {
            shows: "a bad suffix comes before readers that fail",
            suffix: "",
            changes: CHANGES,
            answer: "bad question: suffix",
            ..FAULTY
        },
    ),
    (
        Devices {
            changes: 1,
            ..WHOLE
        },
        Run {
            shows: "a bad copy comes before a reader of changes that fails",
            copy: "x\n\n",
            changes: CHANGES,
            answer: "copy, line 1: L1 BadLine",
            ..FAULTY
        },
    ),
    (
        Devices {
            copy: 2,
            changes: 1,
            ..WHOLE
        },
        Run {
            shows: "and before its own reader fails",
            copy: "x\n\n",
            changes: CHANGES,
            answer: "copy, line 1: L1 BadLine",
            ..FAULTY
        },
    ),
    (
        IN_EIGHTS,
        Run {
            shows: "the first entry of a directory",
            suffix: "dc=Example,dc=com",
            copy: "",
            changes: "dn: DC=Example, dc=com\nchangetype: add\nobjectClass: domain\n",
            undo: "version: 1\n\n# undo 1\ndn: DC=Example,dc=com\nchangetype: delete\n\n",
            out: "dn: DC=Example,dc=com\nDC: Example\nobjectClass: domain\n\n",
            back: Some(""),
            ..ACCEPTED
        },
    ),
    (
        IN_EIGHTS,
        Run {
            shows: "and with its spellings",
            copy: "dn: DC=Com\nDomainComponent: COM\n\ndn: CN=A  b,DC=Com\ncommonName: a B\nsn;lang-EN: X\n\n",
            changes: "dn: cn=a b,dc=com\nchangetype: delete\n",
            undo: "version: 1\n\n# undo 1\ndn: CN=A  b,DC=Com\nchangetype: add\ncommonName: a B\nsn;lang-EN: X\n\n",
            out: "dn: DC=Com\nDomainComponent: COM\n\n",
            back: Some(
                "dn: DC=Com\nDomainComponent: COM\n\ndn: CN=A  b,DC=Com\ncommonName: a B\nsn;lang-EN: X\n\n",
            ),
            ..ACCEPTED
        },
    ),
    (
        IN_EIGHTS,
        Run {
            shows: "many changes are taken back, the last one first",
            options: GO_ON,
            copy: "dn: dc=com\ndc: com\n\ndn: ou=a,dc=com\nou: a\n\ndn: cn=x,ou=a,dc=com\ncn: x\n\n",
            changes: "version: 1\n\ndn: cn=x,ou=a,dc=com\nchangetype: delete\n\ndn: ou=a,dc=com\nchangetype: delete\n\n\
            dn: cn=no,dc=com\nchangetype: delete\n\ndn: ou=A,dc=com\nchangetype: add\n\n\
            dn: cn=y,ou=a,dc=com\nchangetype: add\ndescription: new\n",
            undo: "version: 1\n\n# undo 1\ndn: cn=y,ou=A,dc=com\nchangetype: delete\n\n# undo 2\ndn: ou=A,dc=com\nchangetype: delete\n\n\
            # undo 3\ndn: ou=a,dc=com\nchangetype: add\nou: a\n\n# undo 4\ndn: cn=x,ou=a,dc=com\nchangetype: add\ncn: x\n\n",
            out: "dn: dc=com\ndc: com\n\ndn: ou=A,dc=com\nou: A\n\ndn: cn=y,ou=A,dc=com\ncn: y\ndescription: new\n\n",
            report: "line 9: refused, 32 noSuchObject\naccepted 4, refused 1\n",
            answer: "accepted 4, refused 1",
            back: Some(
                "dn: dc=com\ndc: com\n\ndn: ou=a,dc=com\nou: a\n\ndn: cn=x,ou=a,dc=com\ncn: x\n\n",
            ),
            ..ACCEPTED
        },
    ),
    (
        IN_EIGHTS,
        Run {
            shows: "a value of the new RDN is there already, and is lost by the way back",
            copy: "dn: dc=com\ndc: com\n\ndn: cn=x,dc=com\ncn: x\nsn: Z\n\n",
            changes: "dn: cn=x,dc=com\nchangetype: modrdn\nnewrdn: cn=y+sn=z\ndeleteoldrdn: 1\n",
            undo: "version: 1\n\n# undo 1\ndn: cn=y+sn=z,dc=com\nchangetype: modrdn\nnewrdn: cn=x\ndeleteoldrdn: 1\n\n\
            dn: cn=x,dc=com\nchangetype: modify\nadd: sn\nsn: Z\n-\n\n",
            out: "dn: dc=com\ndc: com\n\ndn: cn=y+sn=z,dc=com\ncn: y\nsn: Z\n\n",
            back: Some("dn: dc=com\ndc: com\n\ndn: cn=x,dc=com\ncn: x\nsn: Z\n\n"),
            ..ACCEPTED
        },
    ),
];

/// The same of more runs.
static MORE_RUNS: [(Devices, Run<'static>); 15] = [
    (
        IN_EIGHTS,
        Run {
            shows: "a subtree moves",
            copy: "dn: dc=com\ndc: com\n\ndn: ou=A,dc=com\nou: A\n\ndn: ou=Team,ou=A,dc=com\nou: Team\n\n\
            dn: cn=Kim,ou=Team,ou=A,dc=com\ncn: Kim\n\ndn: cn=desk,cn=Kim,ou=Team,ou=A,dc=com\ncn: desk\n\n\
            dn: ou=B,dc=com\nou: B\n\n",
            changes: "dn: ou=team,ou=a,dc=com\nchangetype: modrdn\nnewrdn: ou=Team\ndeleteoldrdn: 1\nnewsuperior: ou=b,dc=com\n",
            undo: "version: 1\n\n# undo 1\ndn: ou=Team,ou=B,dc=com\nchangetype: modrdn\nnewrdn: ou=Team\ndeleteoldrdn: 1\n\
            newsuperior: ou=A,dc=com\n\n",
            out: "dn: dc=com\ndc: com\n\ndn: ou=A,dc=com\nou: A\n\ndn: ou=B,dc=com\nou: B\n\ndn: ou=Team,ou=B,dc=com\nou: Team\n\n\
            dn: cn=Kim,ou=Team,ou=B,dc=com\ncn: Kim\n\ndn: cn=desk,cn=Kim,ou=Team,ou=B,dc=com\ncn: desk\n\n",
            back: Some(
                "dn: dc=com\ndc: com\n\ndn: ou=A,dc=com\nou: A\n\ndn: ou=Team,ou=A,dc=com\nou: Team\n\n\
            dn: cn=Kim,ou=Team,ou=A,dc=com\ncn: Kim\n\ndn: cn=desk,cn=Kim,ou=Team,ou=A,dc=com\ncn: desk\n\n\
            dn: ou=B,dc=com\nou: B\n\n",
            ),
            ..ACCEPTED
        },
    ),
    (
        IN_EIGHTS,
        Run {
            shows: "a record that is cut within its base64",
            options: GO_ON,
            changes: "dn: cn=e,dc=com\nchangetype: add\nnote: x\n\ndn: cn=f,dc=com\nchangetype: add\nnote:: AAE",
            undo: "version: 1\n\n# undo 1\ndn: cn=e,dc=com\nchangetype: delete\n\n",
            out: "dn: dc=com\ndc: com\n\ndn: cn=e,dc=com\ncn: e\nnote: x\n\n",
            report: "line 5: refused, L2 BadBase64\naccepted 1, refused 1\n",
            answer: "accepted 1, refused 1",
            ..ACCEPTED
        },
    ),
    (
        IN_EIGHTS,
        Run {
            shows: "the same of a modify",
            options: VERBOSE,
            copy: "dn: dc=com\ndc: com\n\ndn: cn=e,dc=com\ncn: e\nnote: x\n\n",
            changes: "# folded\r\n  comment\r\ndn: cn=e,dc=com\r\nchangetype: modify\r\nadd: description\r\n\
            description: two\r\n  words \r\n",
            undo: "version: 1\n\n# undo 1\ndn: cn=e,dc=com\nchangetype: modify\ndelete: description\n-\n\n",
            out: "dn: dc=com\ndc: com\n\ndn: cn=e,dc=com\ncn: e\ndescription:: dHdvIHdvcmRzIA==\nnote: x\n\n",
            report: "line 3: accepted\naccepted 1, refused 0\n",
            answer: "accepted 1, refused 0",
            back: Some("dn: dc=com\ndc: com\n\ndn: cn=e,dc=com\ncn: e\nnote: x\n\n"),
            ..ACCEPTED
        },
    ),
    (
        IN_EIGHTS,
        Run {
            shows: "a dry run reports and writes nothing else",
            options: DRY,
            changes: "dn: ou=people,DC=COM\nchangetype: add\ndescription: staff\n",
            undo: "",
            out: "",
            back: None,
            ..ACCEPTED
        },
    ),
    (
        IN_EIGHTS,
        Run {
            shows: "modifies between other changes are taken back, the last one first",
            copy: "dn: dc=com\ndc: com\n\ndn: cn=e,dc=com\ncn: e\nsn: A\n\n",
            changes: "dn: cn=e,dc=com\nchangetype: modify\nadd: sn\nsn: B\n-\n\n\
            dn: cn=e,dc=com\nchangetype: delete\n\n\
            dn: CN=E,dc=com\nchangetype: add\nsn: C\n\n\
            dn: cn=e,dc=com\nchangetype: modify\nreplace: sn\n-\n",
            undo: "version: 1\n\n# undo 1\ndn: CN=E,dc=com\nchangetype: modify\nadd: sn\nsn: C\n-\n\n\
            # undo 2\ndn: CN=E,dc=com\nchangetype: delete\n\n\
            # undo 3\ndn: cn=e,dc=com\nchangetype: add\ncn: e\nsn: A\nsn: B\n\n\
            # undo 4\ndn: cn=e,dc=com\nchangetype: modify\ndelete: sn\nsn: B\n-\n\n",
            out: "dn: dc=com\ndc: com\n\ndn: CN=E,dc=com\nCN: E\n\n",
            report: "accepted 4, refused 0\n",
            answer: "accepted 4, refused 0",
            back: Some("dn: dc=com\ndc: com\n\ndn: cn=e,dc=com\ncn: e\nsn: A\n\n"),
            ..ACCEPTED
        },
    ),
    (
        IN_EIGHTS,
        modify!(
        "the undo says only what the modify changes",
        "cn=e",
        before: "cn: e\ndescription: foo\n",
        mods: "delete: description\ndescription: FOO\n-\nadd: description\ndescription: Foo\n-\n",
        after: "cn: e\ndescription: Foo\n",
        undo: "delete: description\ndescription: Foo\n-\nadd: description\ndescription: foo\n-\n"
    ),
    ),
    (
        IN_EIGHTS,
        modify!(
        "a type comes back under the name that it had",
        "cn=a",
        before: "cn: a\n",
        mods: "replace: commonName\ncommonName: a\ncommonName: b\n-\n",
        after: "commonName: a\ncommonName: b\n",
        undo: "replace: cn\ncn: a\n-\n"
    ),
    ),
    (
        IN_EIGHTS,
        modify!(
        "values come back by themselves",
        "cn=g",
        before: "cn: g\nmember: cn=a\nmember: cn=b\nmember: cn=c\n",
        mods: "add: member\nmember: cn=d\n-\ndelete: member\nmember: CN=B\n-\n",
        after: "cn: g\nmember: cn=a\nmember: cn=c\nmember: cn=d\n",
        undo: "delete: member\nmember: cn=d\n-\nadd: member\nmember: cn=b\n-\n"
    ),
    ),
    (
        IN_EIGHTS,
        modify!(
        "a type comes back whole",
        "cn=e",
        before: "cn: e\nsn: S\nsn: T\n",
        mods: "delete: surname\n-\nadd: title\ntitle: Chief\n-\n",
        after: "cn: e\ntitle: Chief\n",
        undo: "add: sn\nsn: S\nsn: T\n-\ndelete: title\n-\n"
    ),
    ),
    (
        IN_EIGHTS,
        modify!(
        "a modify of nothing has an empty group",
        "cn=e",
        before: "cn: e\n",
        mods: "",
        after: "cn: e\n",
        undo: none
    ),
    ),
    (
        IN_EIGHTS,
        modify!(
        "an option has one key in all spellings",
        "cn=e",
        before: "cn: e\nCN;Lang-EN: F\nCN;Lang-EN: g\n",
        mods: "replace: cn;lang-en\ncn;lang-en: f\ncn;lang-en: g\n-\n",
        after: "cn: e\ncn;lang-en: f\ncn;lang-en: g\n",
        undo: "replace: CN;Lang-EN\nCN;Lang-EN: F\nCN;Lang-EN: g\n-\n"
    ),
    ),
    (
        IN_EIGHTS,
        modify!(
        "an increment is taken back by the values",
        "cn=u",
        before: "cn: u\nuidNumber: 1000\n",
        mods: "increment: uidNumber\nuidNumber: -1\n-\n",
        after: "cn: u\nuidNumber: 999\n",
        undo: "delete: uidNumber\nuidNumber: 999\n-\nadd: uidNumber\nuidNumber: 1000\n-\n"
    ),
    ),
    (
        IN_EIGHTS,
        refused!(
            "a delete of an entry with children",
            "dn: dc=com\nchangetype: delete\n",
            "66 notAllowedOnNonLeaf"
        ),
    ),
    (
        IN_EIGHTS,
        refused!(
            "an add of a name that is taken",
            "dn: CN=E,dc=com\nchangetype: add\n",
            "68 entryAlreadyExists"
        ),
    ),
    (
        IN_EIGHTS,
        refused!(
            "an add outside the suffix",
            "dn: cn=f,dc=org\nchangetype: add\n",
            "32 noSuchObject"
        ),
    ),
];

/// The same of more runs.
static LAST_RUNS: [(Devices, Run<'static>); 14] = [
    (
        IN_EIGHTS,
        refused!(
            "an add of a value twice",
            "dn: cn=f,dc=com\nchangetype: add\nsn: A\nsurname: a\n",
            "20 attributeOrValueExists"
        ),
    ),
    (
        IN_EIGHTS,
        refused!(
            "a content record",
            "dn: dc=com\ndc: com\n\n",
            "L5 BadChangetype"
        ),
    ),
    (
        IN_EIGHTS,
        refused!(
            "a rename that leaves two values where one is allowed",
            "dn: dc=a,dc=com\nchangetype: modrdn\nnewrdn: dc=b\ndeleteoldrdn: 0\n",
            "19 constraintViolation"
        ),
    ),
    (
        IN_EIGHTS,
        refused!(
            "an increment past the greatest number",
            "dn: cn=e,dc=com\nchangetype: modify\nadd: gidNumber\ngidNumber: 170141183460469231731687303715884105727\n-\n\
                increment: gidNumber\ngidNumber: 1\n-\n\n",
            "19 constraintViolation"
        ),
    ),
    (
        IN_EIGHTS,
        Run {
            shows: "refusals of renames come in order",
            options: GO_ON,
            changes: "dn: cn=p,dc=com\nchangetype: modrdn\nnewrdn: cn=r\ndeleteoldrdn: 1\nnewsuperior: cn=q,cn=p,dc=com\n\n\
                dn: cn=p,dc=com\nchangetype: modrdn\nnewrdn: cn=r\ndeleteoldrdn: 1\nnewsuperior: cn=none,dc=com\n\n\
                dn: cn=p,dc=com\nchangetype: modrdn\nnewrdn: cn=r\ndeleteoldrdn: 1\n",
            report: "line 1: refused, 53 unwillingToPerform\nline 7: refused, 32 noSuchObject\n\
                line 13: refused, 68 entryAlreadyExists\naccepted 0, refused 3\n",
            answer: "accepted 0, refused 3",
            ..REFUSING
        },
    ),
    (
        IN_EIGHTS,
        Run {
            shows: "an entry after its child has no parent",
            copy: "dn: cn=b,cn=a,dc=com\n\ndn: cn=a,dc=com\n",
            answer: "copy, line 3: 32 noSuchObject",
            ..FAULTY
        },
    ),
    (
        IN_EIGHTS,
        Run {
            shows: "a bad line in the copy",
            copy: "dn: dc=com\nsn\n",
            answer: "copy, line 1: L1 BadLine",
            ..FAULTY
        },
    ),
    (
        IN_EIGHTS,
        Run {
            shows: "an unknown version of the changes",
            changes: "version: 3\n",
            answer: "changes: L15 BadVersion",
            ..FAULTY
        },
    ),
    (
        IN_EIGHTS,
        Run {
            shows: "the same room with other spaces, and a second room",
            changes: "dn: cn=e,dc=com\nchangetype: modify\nadd: roomName\nroomName: a  1\n-\n\n\
            dn: cn=e,dc=com\nchangetype: modify\nadd: room\nroom: b\n-\n",
            report: "line 1: refused, 20 attributeOrValueExists\nline 7: refused, 19 constraintViolation\naccepted 0, refused 2\n",
            answer: "accepted 0, refused 2",
            ..UNDER_TYPES
        },
    ),
    (
        IN_EIGHTS,
        Run {
            shows: "several integers are incremented, past each other, and in the order of their texts",
            types: LEVEL,
            copy: LEVELS,
            changes: "dn: cn=e,dc=com\nchangetype: modify\nincrement: level\nlevel: 10\n-\n",
            undo: "version: 1\n\n# undo 1\ndn: cn=e,dc=com\nchangetype: modify\ndelete: Level\nLevel: 10\nLevel: 15\n-\n\
            add: Level\nLevel: -5\nLevel: 0\n-\n\n",
            out: "dn: dc=com\ndc: com\n\ndn: cn=e,dc=com\ncn: e\nLevel: 10\nLevel: 15\nLevel: 5\n\n",
            report: "accepted 1, refused 0\n",
            answer: "accepted 1, refused 0",
            back: Some(LEVELS),
            ..UNDER_TYPES
        },
    ),
    (
        IN_EIGHTS,
        Run {
            shows: "an entry is named by a room with other spaces",
            copy: ROOMS,
            changes: "dn: roomName=a  1,dc=com\nchangetype: delete\n",
            undo: "version: 1\n\n# undo 1\ndn: room=A 1,dc=com\nchangetype: add\nroom: A 1\n\n",
            out: "dn: dc=com\ndc: com\n\n",
            report: "accepted 1, refused 0\n",
            answer: "accepted 1, refused 0",
            back: Some(ROOMS),
            ..UNDER_TYPES
        },
    ),
    (
        Devices { config: 1, ..WHOLE },
        Run {
            shows: "a configuration that can't be read",
            types: ROOM,
            answer: "cannot read config",
            ..FAULTY
        },
    ),
    (
        Devices {
            config: 3,
            ..IN_EIGHTS
        },
        Run {
            shows: "nor after its first bytes",
            types: ROOM,
            answer: "cannot read config",
            ..FAULTY
        },
    ),
    (
        IN_EIGHTS,
        Run {
            shows: "a type that can't be added",
            types: "# two\n lines\nattributetype ( 1.2.3 NAME 'level' SUP nothing )\n",
            answer: "config, line 3: C12 BadType",
            ..FAULTY
        },
    ),
];

#[test]
fn runs_write_their_texts_and_are_taken_back(rt: HostRuntime) {
    for (devices, one) in &FIRST_RUNS {
        assert_run(&rt, rt.alloc(), devices, one);
    }
}

#[test]
fn more_runs_write_their_texts(rt: HostRuntime) {
    for (devices, one) in &MORE_RUNS {
        assert_run(&rt, rt.alloc(), devices, one);
    }
}

#[test]
fn the_last_runs_write_their_texts(rt: HostRuntime) {
    for (devices, one) in &LAST_RUNS {
        assert_run(&rt, rt.alloc(), devices, one);
    }
}
