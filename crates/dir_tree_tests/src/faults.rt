//! The texts of the faults.

use crate::make::{check, is_fault};
use dir_tree::EntryFault;

static TEXTS: [(EntryFault, &str); 5] = [
    (EntryFault::BadValue, "E1 BadValue"),
    (EntryFault::Twice, "E2 Twice"),
    (EntryFault::NotNamed, "E3 NotNamed"),
    (EntryFault::Single, "E4 Single"),
    (EntryFault::Memory, "E5 Memory"),
];

/// Each fault shows its text, and no other under `#`.
#[test]
fn each_fault_shows_its_text(rt: HostRuntime) {
    for (fault, want) in &TEXTS {
        check(&rt, is_fault(&rt, rt.alloc(), *fault, want), want);
    }
}
