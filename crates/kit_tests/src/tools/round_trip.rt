//! Runs there and back, by the one call that makes both.

use crate::tools::running::STOP;
use dir_names::Schema;
use dir_tools::{RoundTrip, run_there_and_back};
use std::alloc::Global;
use std::process::Abort;

/// The runs of these changes there and back.
fn there_and_back(rt: &impl Abort, alloc: Global, copy: &[u8], changes: &[u8]) -> RoundTrip {
    let schema = Schema::builtin(alloc).expect(rt, "a schema");
    let Ok(trip) = run_there_and_back(alloc, &schema, b"dc=com", STOP, copy, changes) else {
        panic!(rt; "one of the runs ends in a fault");
    };
    trip
}

#[test]
fn a_run_there_and_back_gives_the_canonical_text_of_the_first_copy(rt: HostRuntime) {
    let copy = b"dn: ou=b,dc=com\nou: b\n\ndn: dc=com\n\n";
    let changes =
        b"dn: OU=B,dc=com\nchangetype: delete\n\ndn: ou=a,dc=com\nchangetype: add\nou: a\n";
    let trip = there_and_back(&rt, rt.alloc(), copy, changes);
    assert!(rt; trip.there.accepted == 2 && trip.back.accepted == 2 && trip.back.refused == 0);
    let want = b"dn: dc=com\ndc: com\n\ndn: ou=b,dc=com\nou: b\n\n";
    assert!(rt; trip.copy.as_slice() == want.as_slice());
}
