//! What becomes of a run's memory makes no difference to what it writes.

use crate::tools::running::STOP;
use dir_ldif::Script;
use dir_names::Schema;
use dir_tools::{Buffer, HeldMemory, Summary, run_modify_holding};
use std::alloc::Global;
use std::process::Abort;

const COPY: &str = "dn: dc=com\ndc: com\n\ndn: ou=b,dc=com\nou: b\n\n";

const CHANGES: &str = "dn: ou=b,dc=com\nchangetype: delete\n";

fn assert_deleted(rt: &impl Abort, alloc: Global, held: HeldMemory) {
    let schema = Schema::builtin(alloc).expect(rt, "memory");
    let mut undo = Buffer::new(alloc);
    let mut out = Buffer::new(alloc);
    let mut report = Buffer::new(alloc);
    let answer = run_modify_holding(
        alloc,
        held,
        &schema,
        b"dc=com",
        STOP,
        &mut Script::new(COPY.as_bytes()),
        &mut Script::new(CHANGES.as_bytes()),
        &mut undo,
        &mut out,
        &mut report,
    );
    let deleted = Ok(Summary {
        accepted: 1,
        refused: 0,
    });
    assert!(rt; answer == deleted);
    assert!(rt;
        undo.as_slice()
            == b"version: 1\n\n# undo 1\ndn: ou=b,dc=com\nchangetype: add\nou: b\n\n".as_slice()
    );
    assert!(rt; out.as_slice() == b"dn: dc=com\ndc: com\n\n".as_slice());
    assert!(rt; report.as_slice() == b"accepted 1, refused 0\n".as_slice());
}

#[test]
fn memory_may_be_freed_or_left(rt: HostRuntime) {
    assert_deleted(&rt, rt.alloc(), HeldMemory::Freed);
    assert_deleted(&rt, rt.alloc(), HeldMemory::Left);
}
