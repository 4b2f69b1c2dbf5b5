//! The text of a flat configuration, and what `dir_acl` reads of it.

use dir_acl::{Config, read_schema};
use dir_conf::{Directive, Line, Site, flat_text};
use dir_names::{Bytes, Description, Rule, Schema, Texts};
use std::alloc::Global;
use std::process::Abort;

/// The first line of a flat configuration.
const COMMENT: &[u8] = b"# slapkit slapconf\n";

/// What comes after slapd's own types. The words of lines are in quotes as slapd.conf(5) wants them: white space and a backslash stand in quotes.
const FLAT: &str = "\
attributetype ( 1.2.3 NAME 'room' SUP name )\n\
database mdb\n\
suffix dc=com\n\
rootdn \"cn=a b,dc=com\"\n\
access to attrs=room by * read\n\
access to \"dn.base=cn=a\\\\2Cb,dc=com\" by * none\n";

fn texts(rt: &impl Abort, alloc: Global, words: &[&str]) -> Texts {
    let mut items = Vec::new(alloc);
    for word in words {
        let text = Bytes::copy_of(alloc, word.as_bytes()).expect(rt, "memory");
        items.push(text).expect(rt, "memory");
    }
    Texts::new(items)
}

/// A directive, and its arguments.
static OWN: [(Directive, &[&str]); 3] = [
    (Directive::Suffix, &["dc=com"]),
    (Directive::RootDn, &["cn=a b,dc=com"]),
    (Directive::Access, &["to", "attrs=room", "by", "*", "read"]),
];

/// The frontend's rule.
const FRONTEND: &[&str] = &["to", "dn.base=cn=a\\2Cb,dc=com", "by", "*", "none"];

fn line(rt: &impl Abort, alloc: Global, directive: Directive, words: &[&str]) -> Line {
    let arguments = texts(rt, alloc, words);
    Line {
        directive,
        arguments,
    }
}

fn site(rt: &impl Abort, alloc: Global) -> Site {
    let mut own = Vec::new(alloc);
    for (directive, words) in &OWN {
        own.push(line(rt, alloc, *directive, words))
            .expect(rt, "memory");
    }
    let mut frontend = Vec::new(alloc);
    frontend
        .push(line(rt, alloc, Directive::Access, FRONTEND))
        .expect(rt, "memory");
    Site {
        types: texts(rt, alloc, &["( 1.2.3 NAME 'room' SUP name )"]),
        own,
        frontend,
    }
}

#[test]
fn a_flat_configuration_has_what_its_site_has(rt: HostRuntime) {
    let site = site(&rt, rt.alloc());
    let text = flat_text(rt.alloc(), &site).expect(&rt, "memory");
    assert!(&rt; after_own_types(&rt, text.as_slice()) == FLAT.as_bytes());
}

#[test]
fn a_flat_configuration_is_read(rt: HostRuntime) {
    let alloc = rt.alloc();
    let builtin = Schema::builtin(alloc).expect(&rt, "memory");
    let site = site(&rt, alloc);
    let text = flat_text(alloc, &site).expect(&rt, "memory");
    let schema = read_schema(alloc, &builtin, text.as_slice()).expect(&rt, "types");
    assert_rule(&rt, alloc, &schema, b"room", Rule::CaseIgnore);
    assert_rule(&rt, alloc, &schema, b"creatorsName", Rule::Name);
    assert_rule(&rt, alloc, &schema, b"labeledURI", Rule::Octet);
    let config = Config::read(alloc, &schema, text.as_slice()).expect(&rt, "a configuration");
    assert!(&rt; config.suffix().depth() == 1);
}

fn assert_rule(rt: &impl Abort, alloc: Global, schema: &Schema, name: &[u8], rule: Rule) {
    let description = Description::read(alloc, schema, name).expect(rt, "a description");
    assert!(rt; schema.rule(description.key()) == rule);
}

/// A flat configuration without its first line and the 44 definitions of slapd's own types.
pub(crate) fn after_own_types<'t>(rt: &impl Abort, text: &'t [u8]) -> &'t [u8] {
    let mut rest = text.strip_prefix(COMMENT).expect(rt, "a comment");
    for _ in 0..44 {
        let line = rest
            .strip_prefix(b"attributetype ( ")
            .expect(rt, "a definition");
        let end = line.iter().position(|b| *b == b'\n').expect(rt, "its end");
        rest = line.get(end + 1..).expect(rt, "a line");
    }
    rest
}
