//! Changes and lines as they are written.

use crate::ldif::make::{Does, added_mods, change, name};
use dir_ldif::{
    ModOp, Record, push_change, push_end, push_line, push_mark, push_name, push_record,
};

/// Names and what is done to their entries. Each change is written twice: by itself, and as a record.
static CHANGES: [(&str, Does); 2] = [
    ("cn=y + sn=z, dc=com", Does::Rename("cn=x", None)),
    ("cn=x,dc=com", Does::Modify(b'Z', 1)),
];

const WRITTEN: &[u8] = b"version: 1\n\n\
    dn: cn=y+sn=z,dc=com\nchangetype: modrdn\nnewrdn: cn=x\ndeleteoldrdn: 1\n\n\
    dn: cn=y+sn=z,dc=com\nchangetype: modrdn\nnewrdn: cn=x\ndeleteoldrdn: 1\n\n\
    dn: cn=x,dc=com\nchangetype: modify\nadd: sn\nsn: Z\n-\n\n\
    dn: cn=x,dc=com\nchangetype: modify\nadd: sn\nsn: Z\n-\n\n\
    newsuperior: ou=A,dc=com\n\
    # undo 1\n# undo 18446744073709551615\n";

#[test]
fn changes_and_lines_are_written(rt: HostRuntime) {
    let mut out = Vec::new(rt.alloc());
    push_line(&mut out, b"version", b"1").expect(&rt, "memory");
    push_end(&mut out).expect(&rt, "memory");
    for (dn, does) in &CHANGES {
        let change = change(&rt, rt.alloc(), dn, does);
        push_change(&mut out, &change).expect(&rt, "memory");
        push_record(&mut out, &Record::Change(change)).expect(&rt, "memory");
    }
    let superior = name(&rt, rt.alloc(), "ou=A, dc=com");
    push_name(&mut out, b"newsuperior", &superior).expect(&rt, "memory");
    push_mark(&mut out, 1).expect(&rt, "memory");
    push_mark(&mut out, u64::MAX).expect(&rt, "memory");
    assert!(rt; out.as_slice() == WRITTEN);
}

#[test]
fn modifications_are_moved_out(rt: HostRuntime) {
    let mods = added_mods(&rt, rt.alloc(), b'Z', 1);
    assert!(rt; mods.as_slice().len() == 1);
    let items = mods.into_items();
    let [item] = items.as_slice() else {
        panic!(rt; "not one modification");
    };
    assert!(rt; item.op == ModOp::Add);
    assert!(rt; item.description.spelling() == b"sn".as_slice());
    assert!(rt; item.values.as_slice().len() == 1);
}
