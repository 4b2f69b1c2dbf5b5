//! The texts of faults.

use crate::make::{check, shows};
use dir_names::{Memory, NameFault};
use std::alloc::Global;
use std::fmt::Display;
use std::process::Abort;

static TEXTS: [(NameFault, &str); 7] = [
    (NameFault::BadDescription, "N1 BadDescription"),
    (NameFault::ReservedName, "N2 ReservedName"),
    (NameFault::BadValue, "N3 BadValue"),
    (NameFault::BadDn, "N4 BadDn"),
    (NameFault::NameLimit, "N5 NameLimit"),
    (NameFault::Memory, "N6 Memory"),
    (NameFault::BadType, "N7 BadType"),
];

#[test]
fn each_fault_shows_its_text(rt: HostRuntime) {
    for (fault, want) in &TEXTS {
        assert_shows(&rt, rt.alloc(), fault, want);
    }
    assert_shows(&rt, rt.alloc(), &Memory, "out of memory");
}

/// Asserts that a fault shows this text, and no other under `#`.
fn assert_shows<F: Display>(rt: &impl Abort, alloc: Global, fault: &F, want: &str) {
    check(rt, shows(rt, format!(in alloc; "{fault}"), want), want);
    check(rt, shows(rt, format!(in alloc; "{fault:#}"), want), want);
}
