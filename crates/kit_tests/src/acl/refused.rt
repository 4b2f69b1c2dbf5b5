//! The words of access rules that are no form of slapd.access(5): `OpenConfig` refuses them, as it does an `include`.

use crate::acl::make::schema;
use dir_acl::{ConfigFault, OpenConfig, cut_config};
use dir_names::Schema;
use std::alloc::Global;
use std::process::Abort;

/// What is after the lines of a database, and the fault with its line.
static REFUSED: [(&str, &str); 36] = [
    // no forms of a <who>
    ("access to * by peername.foo=x read", "3 C2 Unsupported"),
    (
        "\naccess to *\n by * read\naccess to *\n by dn.foo=dc=com",
        "6 C2 Unsupported",
    ),
    ("access to * by dn.level{x}=dc=com read", "3 C2 Unsupported"),
    ("access to * by dn.level{}=dc=com read", "3 C2 Unsupported"),
    ("access to * by dn.level{-}=dc=com read", "3 C2 Unsupported"),
    ("access to * by dn.level{1=dc=com read", "3 C2 Unsupported"),
    (
        "access to * by dn.level{1}x=dc=com read",
        "3 C2 Unsupported",
    ),
    (
        "access to * by dn.exact,foo=dc=com read",
        "3 C2 Unsupported",
    ),
    ("access to * by self.level{x} read", "3 C2 Unsupported"),
    ("access to * by users self.level{} read", "3 C2 Unsupported"),
    ("access to * by set.regex=user read", "3 C2 Unsupported"),
    ("access to * by sockname.path=/x read", "3 C2 Unsupported"),
    ("access to * by domain.ip=x read", "3 C2 Unsupported"),
    ("access to * by ssf.x=1 read", "3 C2 Unsupported"),
    ("access to * by group.regex=dc=com read", "3 C2 Unsupported"),
    ("access to * by selfwrite", "3 C2 Unsupported"),
    ("access to * by realset=user read", "3 C2 Unsupported"),
    ("access to * by realgroup=cn=g read", "3 C2 Unsupported"),
    ("access to * by realdn=* read", "3 C4 Name"),
    ("access to * by users selfpeek", "3 C2 Unsupported"),
    ("access to * by dnattr=x;; read", "3 C4 Name"),
    // nor of a <what>
    ("access to dn.level{1}=dc=com by * read", "3 C2 Unsupported"),
    ("access to dn.expand=dc=com by * read", "3 C2 Unsupported"),
    ("access to val.foo=x by * read", "3 C2 Unsupported"),
    ("access to dn.regex by * read", "3 C2 Unsupported"),
    ("access to attrs=@ by * read", "3 C4 Name"),
    ("access to attrs=cn,!person;x by * read", "3 C4 Name"),
    ("access to filter=(cn=a*)) by * read", "3 C3 BadFilter"),
    // two parts of one form
    (
        "access to dn.regex=.* dn=dc=com by * read",
        "3 C1 BadDirective",
    ),
    (
        "access to dn=dc=com dn.regex=.* by * read",
        "3 C1 BadDirective",
    ),
    ("access to attrs=foo attr=cn by * read", "3 C1 BadDirective"),
    (
        "access to attrs=cn attrs=@person by * read",
        "3 C1 BadDirective",
    ),
    (
        "access to filter=(cn=a*) filter=(cn=a) by * read",
        "3 C1 BadDirective",
    ),
    // lines
    (
        "access to * by * read\ninclude acl.conf",
        "4 C2 Unsupported",
    ),
    ("access to * by ssf=1 read by \"users", "3 C1 BadDirective"),
    (
        "access to dn.regex=.*\naccess to * by * read",
        "3 C1 BadDirective",
    ),
];

/// A line, the lines after it, and the fault.
static REFUSED_ELSEWHERE: [(&str, &str, &str); 4] = [
    (
        "access to dn.regex=.* by * read",
        "database mdb",
        "1 C7 GlobalAccess",
    ),
    (
        "database mdb",
        "access to dn.regex=.* by * read",
        "0 C10 NoSuffix",
    ),
    (
        "include a",
        "database mdb\nsuffix dc=com",
        "1 C2 Unsupported",
    ),
    ("database config", "include a", "2 C2 Unsupported"),
];

#[test]
fn what_is_no_form_is_refused(rt: HostRuntime) {
    let schema = schema(&rt, rt.alloc());
    for (rules, fault) in &REFUSED {
        assert_fault(
            &rt,
            rt.alloc(),
            &schema,
            "database mdb\nsuffix dc=com",
            rules,
            fault,
        );
    }
    for (first, rest, fault) in &REFUSED_ELSEWHERE {
        assert_fault(&rt, rt.alloc(), &schema, first, rest, fault);
    }
}

fn assert_fault(
    rt: &impl Abort,
    alloc: Global,
    schema: &Schema,
    first: &str,
    rest: &str,
    want: &str,
) {
    let text = format!(in alloc; "{first}\n{rest}\n").expect(rt, "memory");
    let fault = fault_in(rt, alloc, schema, text.as_str());
    let told = format!(in alloc; "{} {}", fault.line, fault.cause).expect(rt, "memory");
    assert!(rt; told.as_str() == want, "{rest}: {told}");
}

fn fault_in(rt: &impl Abort, alloc: Global, schema: &Schema, text: &str) -> ConfigFault {
    let lines = cut_config(alloc, text.as_bytes()).expect(rt, "lines");
    match OpenConfig::of_text(alloc, schema, &lines) {
        Ok(_) => panic!(rt; "it is read: {text}"),
        Err(fault) => fault,
    }
}
