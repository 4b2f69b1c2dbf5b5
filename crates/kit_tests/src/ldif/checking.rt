//! Changes that are legal or not.

use crate::ldif::make::{Does, change, schema};
use dir_ldif::RecordFault;
use dir_names::NameFault;

const NO_NAME: Result<(), RecordFault> = Err(RecordFault::Name(NameFault::BadDn));

const TOO_LONG: Result<(), RecordFault> = Err(RecordFault::ValueTooLong);

/// Names, what is done to their entries, and what the check of that change answers.
static CHANGES: [(&str, Does, Result<(), RecordFault>); 10] = [
    // Legal changes.
    (
        "ou=people,DC=COM",
        Does::Add("description", b's', 5),
        Ok(()),
    ),
    (
        "cn=x,dc=com",
        Does::Rename("cn=y", Some("ou=A,dc=com")),
        Ok(()),
    ),
    // A new RDN or a superior whose value has no key.
    (
        "cn=x,dc=com",
        Does::Rename("member=y", Some("ou=A,dc=com")),
        NO_NAME,
    ),
    (
        "cn=x,dc=com",
        Does::Rename("cn=y", Some("uidNumber=x")),
        NO_NAME,
    ),
    // Values at their limit and past it.
    ("cn=x,dc=com", Does::Modify(b'a', 1_048_576), Ok(())),
    ("cn=x,dc=com", Does::Add("sn", b'a', 1_048_576), Ok(())),
    ("cn=x,dc=com", Does::Modify(b'a', 1_048_577), TOO_LONG),
    ("cn=x,dc=com", Does::Add("sn", b'a', 1_048_577), TOO_LONG),
    // The first fault is told.
    ("cn=a+commonName=b", Does::Delete, NO_NAME),
    (
        "cn=a+commonName=b",
        Does::Add("sn", b'a', 1_048_577),
        NO_NAME,
    ),
];

#[test]
fn changes_are_checked(rt: HostRuntime) {
    let schema = schema(&rt, rt.alloc());
    for (dn, does, want) in &CHANGES {
        let change = change(&rt, rt.alloc(), dn, does);
        assert!(rt; change.check(rt.alloc(), &schema) == *want, "{dn}");
    }
}
