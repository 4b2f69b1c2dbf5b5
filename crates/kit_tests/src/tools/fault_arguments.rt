//! Faults of a configuration, each with the argument that it is about.

use crate::tools::asking::READ;
use crate::tools::running::{Devices, IN_EIGHTS, WHOLE, assert_text, fault_text, script};
use dir_acl::FaultArgument;
use dir_names::Schema;
use dir_tools::{FaultWithArgument, read_config_with_argument};
use std::alloc::Global;
use std::process::Abort;

/// A configuration, and what is to be told of it.
struct Row {
    devices: Devices,
    config: &'static str,
    /// The text of its fault; empty where it is read.
    fault: &'static str,
    /// The line and the text of the argument that the fault is about; no text where it has an open quote. Line 0 where there is none.
    line: u64,
    argument: &'static str,
}

static ROWS: [Row; 5] = [
    Row {
        devices: WHOLE,
        config: READ,
        fault: "",
        line: 0,
        argument: "",
    },
    // the text comes in pieces
    Row {
        devices: IN_EIGHTS,
        config: "database mdb\nsuffix dc=com\naccess to *\n  by self\n  selfwrite\n  by * read\n",
        fault: "config, line 3: C2 Unsupported",
        line: 5,
        argument: "selfwrite",
    },
    Row {
        devices: WHOLE,
        config: "database mdb\nsuffix\n \"dc=com\n",
        fault: "config, line 2: C1 BadDirective",
        line: 3,
        argument: "",
    },
    Row {
        devices: WHOLE,
        config: "database mdb\n",
        fault: "config, line 0: C10 NoSuffix",
        line: 0,
        argument: "",
    },
    // a reader that fails after a line that is at fault
    Row {
        devices: Devices {
            config: 3,
            ..IN_EIGHTS
        },
        config: "suffix\ndatabase mdb\nsuffix dc=com\n",
        fault: "cannot read config",
        line: 0,
        argument: "",
    },
];

#[test]
fn faults_come_with_their_arguments(rt: HostRuntime) {
    for row in &ROWS {
        assert_row(&rt, rt.alloc(), row);
    }
}

fn assert_row(rt: &impl Abort, alloc: Global, row: &Row) {
    let schema = Schema::builtin(alloc).expect(rt, "memory");
    let mut config = script(&row.devices, row.config.as_bytes(), row.devices.config);
    match read_config_with_argument(alloc, &schema, &mut config) {
        Ok(_) => assert_text(rt, row.config, "", row.fault),
        Err(why) => assert_fault(rt, alloc, &why, row),
    }
}

fn assert_fault(rt: &impl Abort, alloc: Global, why: &FaultWithArgument, row: &Row) {
    let fault = fault_text(rt, alloc, why.fault);
    assert_text(rt, row.config, fault.as_str(), row.fault);
    let Ok(found) = &why.argument else {
        panic!(rt; "memory");
    };
    let (line, argument) = match found {
        Some(
            FaultArgument {
                line,
                argument: Some(argument),
            },
        ) => (*line, argument.as_slice()),
        Some(
            FaultArgument {
                line,
                argument: None,
            },
        ) => (*line, b"".as_slice()),
        None => (0, b"".as_slice()),
    };
    assert!(rt;
        line == row.line && argument == row.argument.as_bytes(),
        "{line}: {}",
        row.config
    );
}
