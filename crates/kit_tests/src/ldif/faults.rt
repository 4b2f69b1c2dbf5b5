//! The texts of the faults.

use crate::acl::words::assert_shows;
use dir_ldif::{DeviceFault, RecordFault, StreamFault};
use dir_names::NameFault;

static OF_RECORDS: [(RecordFault, &str); 15] = [
    (RecordFault::BadLine, "L1 BadLine"),
    (RecordFault::BadBase64, "L2 BadBase64"),
    (RecordFault::UrlValue, "L3 UrlValue"),
    (RecordFault::Control, "L4 Control"),
    (RecordFault::BadChangetype, "L5 BadChangetype"),
    (RecordFault::BadModify, "L6 BadModify"),
    (RecordFault::BadRename, "L7 BadRename"),
    (RecordFault::ValueTooLong, "L8 ValueTooLong"),
    (
        RecordFault::Name(NameFault::BadDescription),
        "L9 N1 BadDescription",
    ),
    (
        RecordFault::Name(NameFault::ReservedName),
        "L9 N2 ReservedName",
    ),
    (RecordFault::Name(NameFault::BadValue), "L9 N3 BadValue"),
    (RecordFault::Name(NameFault::BadDn), "L9 N4 BadDn"),
    (RecordFault::Name(NameFault::NameLimit), "L9 N5 NameLimit"),
    (RecordFault::Name(NameFault::Memory), "L9 N6 Memory"),
    (RecordFault::Name(NameFault::BadType), "L9 N7 BadType"),
];

static OF_STREAMS: [(StreamFault, &str); 7] = [
    (StreamFault::LineTooLong, "L10 LineTooLong"),
    (StreamFault::Read, "L11 Read"),
    (StreamFault::Memory, "L12 Memory"),
    (StreamFault::Ended, "L13 Ended"),
    (StreamFault::TooManyTurns, "L14 TooManyTurns"),
    (StreamFault::BadVersion, "L15 BadVersion"),
    (StreamFault::BadMark, "L16 BadMark"),
];

#[test]
fn each_fault_shows_its_text(rt: HostRuntime) {
    let alloc = rt.alloc();
    for (fault, want) in &OF_RECORDS {
        assert_shows(&rt, alloc, fault, want);
    }
    for (fault, want) in &OF_STREAMS {
        assert_shows(&rt, alloc, fault, want);
    }
    assert_shows(&rt, alloc, &DeviceFault, "the device failed");
}
