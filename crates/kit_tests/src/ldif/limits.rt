//! The limits.

use dir_ldif::{MAX_LINE, MAX_TURNS, MAX_VALUE};

#[test]
fn limits_are_as_documented(rt: HostRuntime) {
    assert!(rt; MAX_TURNS == 1_099_511_627_776);
    assert!(rt; MAX_LINE == 2_097_152);
    assert!(rt; MAX_VALUE == 1_048_576);
}
