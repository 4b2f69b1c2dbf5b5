//! Questions of access, their reports and their faults in their order: over devices that give and take pieces, and that fail. Many more are tried through
//! the program (`tests/trial/rows.py`).

use crate::tools::asking::{Ask, ENTRY, PHONE, assert_ask};
use crate::tools::running::{Devices, IN_EIGHTS, WHOLE};

const CONTINUE: &str =
    "database mdb\nsuffix dc=com\naccess to *\n  by * =cs continue\n  by users +r\n";

const ROOT: &str = "database mdb\nsuffix dc=com\nrootdn cn=u,dc=com\naccess to * by * read break\n";

const USERS: &str = "database mdb\nsuffix dc=com\naccess to * by users read\n";

const U: Option<&str> = Some("cn=u,dc=com");

/// The number is for the manager alone, and only if the entry has a description.
const DESCRIBED: Ask<'static> = Ask {
    shows: "a filter looks at the attributes of the entry",
    config: "database mdb\nsuffix dc=com\naccess to filter=(description=*) by dnattr=manager write\n\
        access to * by * compare\n",
    copy: "dn: dc=com\n\ndn: cn=t,dc=com\nmanager: cn=m,dc=com\ndescription: d\n",
    words: &["sn"],
    report: "sn: =wrscxd\n",
    ..PHONE
};

/// A question that ends in a fault.
const FAULTY: Ask<'static> = Ask {
    report: "",
    ..ENTRY
};

pub(crate) const REPORT: &str = "authcDN: cn=m,dc=com\ntelephoneNumber: =rscxd\n";

pub(crate) const NAMED: Ask<'static> = Ask {
    shows: "the manager's question, with the requester's name",
    verbose: true,
    report: REPORT,
    ..PHONE
};

/// Devices, and what comes of a question over them.
static QUESTIONS: [(Devices, Ask<'static>); 22] = [
    (
        Devices { piece: 1, ..WHOLE },
        Ask {
            shows: "texts are read and written byte by byte",
            ..PHONE
        },
    ),
    (IN_EIGHTS, NAMED),
    (
        Devices { room: 5, ..WHOLE },
        Ask {
            shows: "a report that takes no byte",
            report: "entry",
            fault: "cannot write report",
            ..ENTRY
        },
    ),
    // the configuration is read first, and after its fault the copy is not read
    (
        Devices { copy: 1, ..WHOLE },
        Ask {
            shows: "a fault of the configuration comes before a copy that can't be read",
            config: "database mdb\n",
            fault: "config, line 0: C10 NoSuffix",
            ..FAULTY
        },
    ),
    (
        Devices {
            piece: 4,
            config: 3,
            copy: 1,
            ..WHOLE
        },
        Ask {
            shows: "a configuration that can't be read comes before such a copy",
            config: "access to\n",
            fault: "cannot read config",
            ..FAULTY
        },
    ),
    (
        Devices { copy: 1, ..WHOLE },
        Ask {
            shows: "a copy that can't be read",
            fault: "cannot read copy",
            ..FAULTY
        },
    ),
    (
        IN_EIGHTS,
        Ask {
            shows: "`continue` goes on with the later clauses",
            config: CONTINUE,
            authc: U,
            report: "entry: =rsc\n",
            ..ENTRY
        },
    ),
    (
        IN_EIGHTS,
        Ask {
            shows: "the rootdn has each privilege",
            config: ROOT,
            authc: U,
            report: "entry: =mwrscxd\n",
            ..ENTRY
        },
    ),
    (
        IN_EIGHTS,
        Ask {
            shows: "levels, and the part of a word that is not used",
            config: USERS,
            authc: U,
            words: &["cn/write:foo", "cn/read"],
            report: "cn/write: DENIED\ncn/read: ALLOWED\n",
            ..ENTRY
        },
    ),
    (
        IN_EIGHTS,
        Ask {
            shows: "the requester's name as it is printed",
            config: USERS,
            authc: Some("CN = U\\,V, dc=com"),
            verbose: true,
            report: "authcDN: CN=U\\2CV,dc=com\nentry: =rscxd\n",
            ..ENTRY
        },
    ),
    (
        IN_EIGHTS,
        Ask {
            shows: "a group",
            authc: Some("cn=k,dc=com"),
            report: "telephoneNumber: =scxd\n",
            ..PHONE
        },
    ),
    (
        IN_EIGHTS,
        Ask {
            shows: "for an entry that is made up the copy's groups are looked up all the same",
            base: "cn=no,dc=com",
            authc: Some("cn=k,dc=com"),
            fake: true,
            report: "telephoneNumber: =scxd\n",
            ..PHONE
        },
    ),
    (
        IN_EIGHTS,
        Ask {
            shows: "a suffix in another spelling",
            config: "database mdb\nsuffix \"DC = Com\"\n",
            ..ENTRY
        },
    ),
    (IN_EIGHTS, DESCRIBED),
    (
        IN_EIGHTS,
        Ask {
            shows: "a form of rule that is not read",
            config: "database mdb\nsuffix dc=com\naccess to * by peername.ip=127.0.0.1 read\n",
            fault: "config, line 3: C2 Unsupported",
            ..FAULTY
        },
    ),
    (
        IN_EIGHTS,
        Ask {
            shows: "a base without a value",
            base: "cn",
            fault: "bad question: base",
            ..FAULTY
        },
    ),
    (
        IN_EIGHTS,
        Ask {
            shows: "the first faulty word",
            words: &["cn", "entry", "", "1cn"],
            fault: "bad question: word 3",
            ..FAULTY
        },
    ),
    (
        IN_EIGHTS,
        Ask {
            shows: "the requester comes before the words",
            authc: Some("cn"),
            words: &[""],
            fault: "bad question: authcDN",
            ..FAULTY
        },
    ),
    (
        IN_EIGHTS,
        Ask {
            shows: "the copy comes before the entry",
            copy: "x\n",
            base: "cn=no,dc=com",
            fault: "copy, line 1: L1 BadLine",
            ..FAULTY
        },
    ),
    (
        IN_EIGHTS,
        Ask {
            shows: "an entry that the copy lacks",
            base: "cn=no,dc=com",
            fault: "no such entry",
            ..FAULTY
        },
    ),
    (
        IN_EIGHTS,
        Ask {
            shows: "a rule and a word by other names of an added type",
            config: "database mdb\nsuffix dc=com\naccess to attrs=ROOMNAME by * read\n\
                attributetype ( 1.3.6.1.4.1.32473.1 NAME ( 'room' 'roomName' ) EQUALITY caseIgnoreMatch )\n",
            copy: "dn: dc=com\ndc: com\n\ndn: cn=e,dc=com\ncn: e\nroom: A 1\n\n",
            base: "cn=e,dc=com",
            words: &["1.3.6.1.4.1.32473.1", "cn"],
            report: "1.3.6.1.4.1.32473.1: =rscxd\ncn: =0\n",
            ..ENTRY
        },
    ),
    (
        IN_EIGHTS,
        Ask {
            shows: "a definition that can't be added, after a line with another fault",
            config: "suffix BAD\nattributetype ( 1.3.6.1.4.1.32473.2 NAME 'level'\n  SUP nothing )\n",
            fault: "config, line 2: C12 BadType",
            ..FAULTY
        },
    ),
];

#[test]
fn questions_have_their_reports_and_their_faults(rt: HostRuntime) {
    for (devices, ask) in &QUESTIONS {
        assert_ask(&rt, rt.alloc(), devices, ask);
    }
}
