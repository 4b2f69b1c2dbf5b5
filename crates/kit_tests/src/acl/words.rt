//! Levels, and the texts that the program doesn't show.

use crate::acl::grants::assert_text;
use dir_acl::{ConfigCause, FilterFault, Level, Privileges};
use std::alloc::Global;
use std::fmt::Display;
use std::process::Abort;

#[test]
fn a_level_names_and_allows_its_privileges(rt: HostRuntime) {
    assert!(&rt; Level::read(b"Add") == Some(Level::Add) && Level::read(b"peek").is_none());
    let add = Level::Add.privileges();
    assert!(&rt; add.allows(Level::Add) && !add.allows(Level::Write));
    assert!(&rt; !Privileges::none().allows(Level::Disclose));
    assert_text(&rt, rt.alloc(), Privileges::all(), "=mwrscxd");
}

/// Texts, and whether a set of privileges has them.
static TEXTS: [(&str, bool); 12] = [
    ("=mwrscxd", true),
    ("=azrscxd", false),
    ("=ar", true),
    ("=z", true),
    ("=sc", true),
    ("=cs", false),
    ("=0", true),
    ("=", false),
    ("+r", false),
    ("=R", false),
    ("=rr", false),
    ("", false),
];

#[test]
fn a_text_of_privileges_is_read_as_it_is_written(rt: HostRuntime) {
    for (text, is_one) in &TEXTS {
        assert_reads(&rt, rt.alloc(), text, *is_one);
    }
}

/// Asserts that a text is that of a set, and is read as that set; or of none.
fn assert_reads(rt: &impl Abort, alloc: Global, text: &str, is_one: bool) {
    match Privileges::read(alloc, text.as_bytes()).expect(rt, "memory") {
        Some(set) => {
            assert!(rt; is_one, "{text}");
            assert_text(rt, alloc, set, text);
        }
        None => assert!(rt; !is_one, "{text}"),
    }
}

static FILTER_FAULTS: [(FilterFault, &str); 3] = [
    (FilterFault::BadFilter, "Q1 BadFilter"),
    (FilterFault::TooDeep, "Q2 TooDeep"),
    (FilterFault::Memory, "Q3 Memory"),
];

#[test]
fn faults_show_their_number_and_name(rt: HostRuntime) {
    for (fault, want) in &FILTER_FAULTS {
        assert_shows(&rt, rt.alloc(), fault, want);
    }
    assert_shows(&rt, rt.alloc(), &ConfigCause::Memory, "C9 Memory");
}

/// Asserts a text, plain and with `#`.
pub(crate) fn assert_shows<F: Display>(rt: &impl Abort, alloc: Global, shown: &F, want: &str) {
    let text = format!(in alloc; "{shown}; {shown:#}").expect(rt, "memory");
    let want = format!(in alloc; "{want}; {want}").expect(rt, "memory");
    assert!(rt; text.as_str() == want.as_str(), "{text}");
}
