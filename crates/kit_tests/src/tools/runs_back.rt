//! Runs of the first groups of an undo text (`--last`), over devices that give and take pieces.

use crate::tools::running::{
    ACCEPTED, COM, Devices, EMPTY_GROUP, FAULTY, GO_ON, IN_EIGHTS, Run, STOP, WHOLE, assert_run,
};
use crate::tools::runs::{OUT, ROOM, ROOMS, UNDO};
use dir_tools::ModifyOptions;

/// A copy with two entries that are changed: one is added, then the other is renamed.
const BEFORE_TWO: &str = "dn: dc=com\ndc: com\n\ndn: cn=x,dc=com\ncn: x\nsn: Z\n\n";

const BETWEEN_TWO: &str =
    "dn: dc=com\ndc: com\n\ndn: cn=k,dc=com\ncn: k\n\ndn: cn=x,dc=com\ncn: x\nsn: Z\n\n";

const AFTER_TWO: &str =
    "dn: dc=com\ndc: com\n\ndn: cn=k,dc=com\ncn: k\n\ndn: cn=y+sn=z,dc=com\ncn: y\nsn: Z\n\n";

/// What takes the two changes back: the rename by two records, then the add by one.
const UNDO_TWO: &str =
    "version: 1\n\n# undo 1\ndn: cn=y+sn=z,dc=com\nchangetype: modrdn\nnewrdn: cn=x\ndeleteoldrdn: 1\n\n\
    dn: cn=x,dc=com\nchangetype: modify\nadd: sn\nsn: Z\n-\n\n# undo 2\ndn: cn=k,dc=com\nchangetype: delete\n\n";

/// A run of the first groups of that, on the copy after the two changes.
const BACK: Run<'static> = Run {
    copy: AFTER_TWO,
    changes: UNDO_TWO,
    back: Some(AFTER_TWO),
    ..ACCEPTED
};

/// The same on a copy that the first group does not fit.
const UNFIT: Run<'static> = Run {
    changes: UNDO_TWO,
    report: "line 4: refused, 32 noSuchObject\naccepted 0, refused 1\n",
    answer: "accepted 0, refused 1",
    ..ACCEPTED
};

/// The run of the first so many groups.
macro_rules! last {
    ($groups:literal) => {
        ModifyOptions {
            last: Some($groups),
            ..STOP
        }
    };
}

/// Runs of the first groups of an undo text.
static RUNS_BACK: [(Devices, Run<'static>); 16] = [
    (
        IN_EIGHTS,
        Run {
            shows: "each accepted change has its mark",
            copy: BEFORE_TWO,
            changes: "dn: cn=k,dc=com\nchangetype: add\n\n\
                dn: cn=x,dc=com\nchangetype: modrdn\nnewrdn: cn=y+sn=z\ndeleteoldrdn: 1\n",
            undo: UNDO_TWO,
            out: AFTER_TWO,
            report: "accepted 2, refused 0\n",
            answer: "accepted 2, refused 0",
            back: Some(BEFORE_TWO),
            ..ACCEPTED
        },
    ),
    (
        IN_EIGHTS,
        Run {
            shows: "the last change is taken back, of two records",
            options: last!(1),
            undo: "version: 1\n\n# undo 1\ndn: cn=x,dc=com\nchangetype: modify\ndelete: sn\n-\n\n\
                # undo 2\ndn: cn=x,dc=com\nchangetype: modrdn\nnewrdn: cn=y+sn=z\ndeleteoldrdn: 1\n\n\
                dn: cn=y+sn=z,dc=com\nchangetype: modify\ndelete: sn\nsn: z\n-\nadd: sn\nsn: Z\n-\n\n",
            out: BETWEEN_TWO,
            report: "accepted 2, refused 0\n",
            answer: "accepted 2, refused 0",
            ..BACK
        },
    ),
    (
        Devices { piece: 1, ..WHOLE },
        Run {
            shows: "both are taken back",
            options: last!(2),
            undo: "version: 1\n\n# undo 1\ndn: cn=k,dc=com\nchangetype: add\ncn: k\n\n\
                # undo 2\ndn: cn=x,dc=com\nchangetype: modify\ndelete: sn\n-\n\n\
                # undo 3\ndn: cn=x,dc=com\nchangetype: modrdn\nnewrdn: cn=y+sn=z\ndeleteoldrdn: 1\n\n\
                dn: cn=y+sn=z,dc=com\nchangetype: modify\ndelete: sn\nsn: z\n-\nadd: sn\nsn: Z\n-\n\n",
            out: BEFORE_TWO,
            report: "accepted 3, refused 0\n",
            answer: "accepted 3, refused 0",
            ..BACK
        },
    ),
    (
        IN_EIGHTS,
        Run {
            shows: "none is taken back",
            options: last!(0),
            out: AFTER_TWO,
            report: "accepted 0, refused 0\n",
            answer: "accepted 0, refused 0",
            ..BACK
        },
    ),
    (
        IN_EIGHTS,
        Run {
            shows: "there are too few groups",
            options: last!(3),
            copy: AFTER_TWO,
            changes: UNDO_TWO,
            answer: "cannot go back, only 2 groups",
            ..FAULTY
        },
    ),
    (
        IN_EIGHTS,
        Run {
            shows: "where a run stops at a refused record of a wanted group, its text has not ended",
            options: last!(3),
            ..UNFIT
        },
    ),
    (
        IN_EIGHTS,
        Run {
            shows: "a run that goes on comes to the end of the text",
            options: ModifyOptions {
                last: Some(3),
                ..GO_ON
            },
            changes: UNDO_TWO,
            answer: "cannot go back, only 2 groups",
            ..FAULTY
        },
    ),
    (
        IN_EIGHTS,
        Run {
            shows: "an empty group",
            options: last!(1),
            changes: EMPTY_GROUP,
            report: "accepted 0, refused 0\n",
            answer: "accepted 0, refused 0",
            ..ACCEPTED
        },
    ),
    (
        IN_EIGHTS,
        Run {
            shows: "the first mark is not the first number",
            options: last!(1),
            changes: "version: 1\n\n# undo 2\ndn: cn=k,dc=com\nchangetype: add\n\n",
            answer: "changes: L16 BadMark",
            ..FAULTY
        },
    ),
    (
        IN_EIGHTS,
        Run {
            shows: "a record before the first mark, where no group is wanted either",
            options: last!(0),
            changes: "version: 1\n\ndn: cn=k,dc=com\nchangetype: add\n\n# undo 1\n",
            answer: "changes: L16 BadMark",
            ..FAULTY
        },
    ),
    (
        IN_EIGHTS,
        Run {
            shows: "a mark is left out after the last wanted group",
            options: last!(1),
            changes: "# undo 1\ndn: cn=a,dc=com\nchangetype: add\n\n# undo 3\n",
            answer: "changes: L16 BadMark",
            ..FAULTY
        },
    ),
    (
        IN_EIGHTS,
        Run {
            shows: "what comes after the last wanted group is not judged",
            options: last!(1),
            changes: "# undo 1\ndn: cn=a,dc=com\nchangetype: add\nsn: b\n\n# undo 2\nx\n\n# undo 2\nversion: 2\n",
            undo: UNDO,
            out: OUT,
            ..ACCEPTED
        },
    ),
    (
        Devices { piece: 1, ..WHOLE },
        Run {
            shows: "marks are folded, and end in CR LF",
            options: last!(1),
            changes: "version: 1\r\n# un\r\n do 1\r\ndn: cn=a,dc=com\r\nchangetype: add\r\nsn: b\r\n\r\n#\n  undo\n  2\nx\n",
            undo: UNDO,
            out: OUT,
            ..ACCEPTED
        },
    ),
    (
        IN_EIGHTS,
        Run {
            shows: "a comment within a record is no mark, nor one of another form",
            options: last!(1),
            changes: "# undo 0\n# undo 01\n#undo 1\n# undo  1\n# undo 1 \n# undo 1\ndn: cn=a,dc=com\n# undo 7\n\
                changetype: add\n# undo 2\nsn: b\n\n",
            undo: UNDO,
            out: OUT,
            ..ACCEPTED
        },
    ),
    (
        IN_EIGHTS,
        Run {
            shows: "a group is run under types of its own, and taken back under them",
            types: ROOM,
            options: last!(1),
            copy: ROOMS,
            changes: "# undo 1\ndn: roomName=a  1,dc=com\nchangetype: delete\n\n# undo 2\nx\n",
            undo: "version: 1\n\n# undo 1\ndn: room=A 1,dc=com\nchangetype: add\nroom: A 1\n\n",
            out: COM,
            back: Some(ROOMS),
            ..ACCEPTED
        },
    ),
    (
        IN_EIGHTS,
        Run {
            shows: "without a number of groups, marks are comments",
            changes: "# undo 2\ndn: cn=a,dc=com\nchangetype: add\nsn: b\n\n# undo 2\n",
            undo: UNDO,
            out: OUT,
            ..ACCEPTED
        },
    ),
];

#[test]
fn the_first_groups_of_an_undo_text_are_run(rt: HostRuntime) {
    for (devices, one) in &RUNS_BACK {
        assert_run(&rt, rt.alloc(), devices, one);
    }
}
