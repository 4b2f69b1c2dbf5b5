//! Flat configurations of texts of cn=config (slapd-config(5)), and the faults of such texts.

use crate::conf::flat::after_own_types;
use dir_conf::{ConfFault, flat_of_config};
use dir_names::{Dn, Schema};
use std::alloc::Global;
use std::process::Abort;

/// A text of cn=config, and the flat configuration of dc=com.
struct Row {
    config: &'static str,
    flat: &'static str,
}

static FLAT: [Row; 7] = [
    // the rules of the database come first, whatever the order of the records; passwords are left out
    Row {
        config: "dn: olcDatabase={-1}frontend,cn=config\nolcDatabase: {-1}frontend\nolcAccess: {0}to * by * read\n\n\
dn: olcDatabase={1}mdb,cn=config\nolcDatabase: {1}mdb\nolcSuffix: dc=com\nolcRootDN: cn=a b,dc=com\nolcRootPW: secret\n\
olcAccess: {0}to attrs=userPassword by * none\nolcAccess: {1}to dn.base=\"cn=x y,dc=com\" by * read\n",
        flat: "database mdb\nsuffix dc=com\nrootdn \"cn=a b,dc=com\"\naccess to attrs=userPassword by * none\n\
access to \"dn.base=cn=x y,dc=com\" by * read\naccess to * by * read\n",
    },
    // no numbers at all; a suffix in other case and with a space is the same name, and stays as it is written
    Row {
        config: "dn: olcDatabase=mdb,cn=config\nOLCSUFFIX: DC = Com\nolcaccess: to *\n  by * read\n",
        flat: "database mdb\nsuffix \"DC = Com\"\naccess to * by * read\n",
    },
    // macros, of which one names another; a name is told by its letters
    Row {
        config: "dn: cn={0}x,cn=schema,cn=config\nolcObjectIdentifier: {0}Site 1.3.6.1.4.1.99999\nolcObjectIdentifier: {1}SiteTypes Site:1\n\
olcAttributeTypes: {0}( SiteTypes:7 NAME 'room' SUP name )\nolcAttributeTypes: {1}(site:8 NAME 'floor' SUP name )\n\ndn: cn=b\nolcSuffix: dc=com\n",
        flat: "attributetype ( 1.3.6.1.4.1.99999.1.7 NAME 'room' SUP name )\nattributetype ( site:8 NAME 'floor' SUP name )\ndatabase mdb\nsuffix dc=com\n",
    },
    // a macro stays known in the records after its own; tabs and line feeds (here in base64) become spaces
    Row {
        config: "dn: cn=a\nolcObjectIdentifier: Site 1.2\n\ndn: cn=b\nolcSuffix: dc=com\nolcAttributeTypes:: KCBTaXRlOjMKCU5BTUUgJ2EnICk=\n",
        flat: "attributetype ( 1.2.3  NAME 'a' )\ndatabase mdb\nsuffix dc=com\n",
    },
    // slapd reads no types from the record of its own schema, whatever the case of its name; a macro of it is known
    Row {
        config: "dn: cn=Schema,cn=config\nolcObjectIdentifier: {0}Own 1.2\nolcAttributeTypes: {0}( 2.5.4.0 NAME 'objectClass' )\n\n\
dn: cn={0}x,cn=schema,cn=config\nolcAttributeTypes: {0}( Own:3 NAME 'a' )\n\ndn: cn=b\nolcSuffix: dc=com\n",
        flat: "attributetype ( 1.2.3 NAME 'a' )\ndatabase mdb\nsuffix dc=com\n",
    },
    // a backslash in a rule is a byte like others, and is written with another before it
    Row {
        config: "dn: cn=b\nolcSuffix: dc=com\nolcAccess: to dn.base=\"cn=a\\2Cb,dc=com\" by * none\n",
        flat: "database mdb\nsuffix dc=com\naccess to \"dn.base=cn=a\\\\2Cb,dc=com\" by * none\n",
    },
    // two suffixes of one database are both written, where the reader of the flat text refuses the second
    Row {
        config: "dn: cn=b\nolcSuffix: dc=net\nolcSuffix: dc=com\n",
        flat: "database mdb\nsuffix dc=net\nsuffix dc=com\n",
    },
];

#[test]
fn texts_have_flat_configurations(rt: HostRuntime) {
    for row in &FLAT {
        assert_flat(&rt, rt.alloc(), row);
    }
}

fn assert_flat(rt: &impl Abort, alloc: Global, row: &Row) {
    let flat = flat(rt, alloc, row.config.as_bytes()).expect(rt, row.config);
    assert!(rt;
        after_own_types(rt, flat.as_slice()) == row.flat.as_bytes(),
        "{}",
        row.config
    );
}

fn flat(rt: &impl Abort, alloc: Global, config: &[u8]) -> Result<Vec<u8>, ConfFault> {
    let schema = Schema::builtin(alloc).expect(rt, "memory");
    let name = Dn::read(alloc, b"dc=com").expect(rt, "a name");
    let suffix = name.key(alloc, &schema).expect(rt, "a key");
    Ok(flat_of_config(alloc, &schema, &suffix, config)?.text)
}

/// Texts of cn=config, and their faults with the numbers of the lines.
static FAULTS: [(&str, &str); 15] = [
    ("", "K4 NoDatabase"),
    ("dn: cn=a\nolcSuffix: dc=net\n", "K4 NoDatabase"),
    (
        "dn: cn=a\nolcSuffix: dc=com\n\ndn: cn=b\nolcSuffix: DC=COM\n",
        "5 K5 SecondDatabase",
    ),
    (
        "dn: cn=a\nolcSuffix: dc=com\n\ndn: cn=b\nolcSuffix: dc=x,dc=com\n",
        "5 K6 Subordinate",
    ),
    (
        "dn: cn=b\nolcSuffix: dc=x,dc=com\n\ndn: cn=a\nolcSuffix: dc=com\n",
        "2 K6 Subordinate",
    ),
    ("dn: cn=a\nolcSuffix: com\n", "2 K8 BadName"),
    (
        "dn: cn=a\nolcSuffix: dc=com\nolcAccess: {1}to * by * read\n",
        "3 K2 BadOrder",
    ),
    (
        "dn: cn=a\nolcSuffix: dc=com\nolcAccess: {0}to * by * read\nolcAccess: to * by * read\n",
        "4 K2 BadOrder",
    ),
    (
        "dn: cn=a\nolcSuffix: dc=com\nolcAttributeTypes: {0}( 1.2 )\nolcAttributeTypes: {2}( 1.3 )\n",
        "4 K2 BadOrder",
    ),
    (
        "dn: cn=a\nolcSuffix: dc=com\nolcAccess: to \"* by * read\n",
        "3 K3 BadArguments",
    ),
    (
        "dn: cn=a\nolcSuffix: dc=com\nolcAccess: to \"dn.base\"=x by * read\n",
        "3 K3 BadArguments",
    ),
    (
        "dn: cn=a\nolcSuffix: dc=com\nolcObjectIdentifier: Site\n",
        "3 K3 BadArguments",
    ),
    (
        "dn: cn=a\nolcSuffix: dc=com\nolcRootDN:: Y249YQpiLGRjPWNvbQ==\n",
        "3 K3 BadArguments",
    ),
    ("dn: cn=a\nolcSuffix: dc=com\nolcAccess\n", "3 L1 BadLine"),
    ("version: 2\n", "L15 BadVersion"),
];

#[test]
fn faults_have_their_lines(rt: HostRuntime) {
    for (config, want) in &FAULTS {
        assert_fault(&rt, rt.alloc(), config, want);
    }
}

fn assert_fault(rt: &impl Abort, alloc: Global, config: &str, want: &str) {
    let Err(fault) = flat(rt, alloc, config.as_bytes()) else {
        panic!(rt; "{config}");
    };
    let text = match fault.line() {
        Some(line) => format!(in alloc; "{line} {fault}"),
        None => format!(in alloc; "{fault}"),
    };
    let text = text.expect(rt, "memory");
    assert!(rt; text.as_str() == want, "{config}: {text}");
}
