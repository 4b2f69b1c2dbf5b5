//! Configurations: their notes, and the argument of a fault. The program looks at a configuration's length as it reads its types; `Config::read` looks at it too.

use crate::acl::make::schema;
use dir_acl::{
    Config, ConfigCause, ConfigFault, FaultArgument, Note, NoteCause, cut_config, fault_argument,
};
use std::alloc::Global;
use std::process::Abort;

#[test]
fn a_configuration_is_read_with_its_notes(rt: HostRuntime) {
    let text = b"database mdb\nsuffix dc=com\ninclude acl.conf\naccess to * by * read";
    match notes_on(&rt, rt.alloc(), text) {
        Ok(notes) => assert!(&rt; tells_the_file(notes.as_slice())),
        Err(fault) => panic!(&rt; "{}", fault.cause),
    }
}

fn notes_on(rt: &impl Abort, alloc: Global, text: &[u8]) -> Result<Vec<Note>, ConfigFault> {
    let lines = cut_config(alloc, text)?;
    let (_, notes) = Config::with_notes(alloc, &schema(rt, alloc), lines)?;
    Ok(notes)
}

fn tells_the_file(notes: &[Note]) -> bool {
    match notes {
        [
            Note {
                line,
                cause: NoteCause::Include(file),
            },
        ] => *line == 3 && file.as_slice() == "acl.conf".as_bytes(),
        _ => false,
    }
}

#[test]
fn a_fault_names_its_argument(rt: HostRuntime) {
    let text = b"database mdb\nsuffix dc=com\naccess to *\n  by self\r\n  selfwrite\n  by * read\n";
    let schema = schema(&rt, rt.alloc());
    let Err(fault) = Config::read(rt.alloc(), &schema, text) else {
        panic!(&rt; "it is read");
    };
    assert!(&rt; fault.line == 3 && fault.cause == ConfigCause::Unsupported);
    let Ok(lines) = cut_config(rt.alloc(), text) else {
        panic!(&rt; "it is not cut");
    };
    match fault_argument(rt.alloc(), &schema, text, &lines, fault).expect(&rt, "memory") {
        Some(found) => assert!(&rt; is_on_line_5(&found)),
        None => panic!(&rt; "no argument"),
    }
}

fn is_on_line_5(found: &FaultArgument) -> bool {
    match &found.argument {
        Some(argument) => found.line == 5 && argument.as_slice() == "selfwrite".as_bytes(),
        None => false,
    }
}

#[test]
fn a_text_may_not_be_too_long(rt: HostRuntime) {
    let mut text = b"#".to_vec(rt.alloc()).expect(&rt, "memory");
    text.resize(16_777_217, b'a').expect(&rt, "memory");
    match Config::read(rt.alloc(), &schema(&rt, rt.alloc()), text.as_slice()) {
        Ok(_) => panic!(&rt; "it is read"),
        Err(fault) => {
            assert!(&rt; fault.line == 0 && fault.cause == ConfigCause::ConfigTooLong);
        }
    }
}
