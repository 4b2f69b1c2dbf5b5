//! What is held however the open parts of a configuration come to be, and what may be held. `open_forms` has the forms of a `<what>` and a `<who>` that are open.
//! What slapd makes of each is in `tests/slapd/slapd_forms.py`.

use crate::acl::grants::{GRANTS, has_text};
use crate::acl::make::{key_under, schema};
use dir_acl::{
    Asked, Config, OpenConfig, PrivilegeBounds, Privileges, Request, cut_config, types_of_text,
};
use dir_conf_text::ConfigText;
use dir_names::{Bytes, Description, Dn, DnKey, Lines, Schema};
use dir_tree::{Entry, FlatDirectory};
use std::alloc::Global;
use std::process::Abort;

/// Types with others below them, one whose values aren't known to be names, and a database.
const DATABASE: &str = "attributetype ( 2.5.4.41 NAME 'name' EQUALITY caseIgnoreMatch )\n\
    attributetype ( 2.5.4.50 NAME 'uniqueMember' EQUALITY uniqueMemberMatch )\n\
    attributetype ( 1.3.6.1.4.1.32473.1 NAME 'post' SUP description )\n\
    attributetype ( 1.3.6.1.4.1.32473.2 NAME 'deputy' SUP manager )\n\
    database mdb\nsuffix dc=com\n";

/// The value of `manager`.
pub(crate) const U: &str = "cn=u,dc=com";

/// The lines of `cn=t,dc=com`, of which is asked.
static LINES: [(&str, &str); 5] = [
    ("objectClass", "person"),
    ("cn", "t"),
    ("sn", "One"),
    ("description", "d"),
    ("manager", U),
];

/// The clauses of a rule for all, and what `cn=u` has by them.
static ACCESSES: [(&str, &str, &str); 28] = [
    // `self` before it: for the values alone that are the requester's name
    ("by users selfwrite by * =s", "=s", "=wrscxd"),
    ("by users realselfwrite by * =s", "=s", "=wrscxd"),
    ("by users SelfRead by * none", "=0", "=rscxd"),
    ("by users realselfread by * =s", "=s", "=rscxd"),
    ("by users selfnone by * read", "=0", "=rscxd"),
    ("by users self=w by * =s", "=0", "=ws"),
    ("by users realself=w by * =s", "=0", "=ws"),
    ("by * =s continue by users self+r by * +c", "=s", "=rsc"),
    ("by * =rs continue by * self-r by * -c", "=s", "=rs"),
    // where it doesn't apply no clause is left
    ("by * =rs continue by * self-r", "=0", "=s"),
    ("by users selfwrite continue by * +s", "=s", "=wrscxd"),
    ("by users selfread stop by * =s", "=s", "=rscxd"),
    ("by anonymous selfwrite by * =s", "=s", "=s"),
    // and the word alone is a part of the <who>: the requester is the target
    ("by users self read by * =s", "=s", "=s"),
    // one of `a` and `z` is taken away: the other one is left or not
    ("by * =wr continue by * -z", "=r", "=ar"),
    ("by * =wr continue by * -a", "=r", "=zr"),
    ("by * =wr continue by * -zr", "=0", "=a"),
    ("by * =ar continue by * -z", "=r", "=ar"),
    ("by * =r continue by * -z", "=r", "=r"),
    ("by * =w continue by * -z continue by * +z", "=z", "=w"),
    ("by * =w continue by * -z continue by * -a", "=0", "=0"),
    ("by * =wr continue by ssf=1 -z by * =s", "=0", "=ars"),
    ("by * =wr continue by * self-z by * +s", "=r", "=wrs"),
    // both, or neither
    ("by * =wr continue by * -w", "=r", "=r"),
    ("by * =wr continue by * -az", "=r", "=r"),
    ("by * =wr continue by * -r", "=w", "=w"),
    ("by * +z", "=z", "=z"),
    ("by * =a", "=a", "=a"),
];

#[test]
fn an_access_may_be_for_some_values_or_take_more_away(rt: HostRuntime) {
    let types = types(&rt, rt.alloc());
    for (clauses, held, possible) in &ACCESSES {
        assert_access(&rt, rt.alloc(), &types, clauses, held, possible);
    }
}

fn assert_access(
    rt: &impl Abort,
    alloc: Global,
    types: &Schema,
    clauses: &str,
    held: &str,
    possible: &str,
) {
    let rules = format!(in alloc; "access to * {clauses}").expect(rt, "memory");
    let found = bounds(rt, alloc, types, rules.as_str(), "sn", U);
    assert!(rt; are_bounds(rt, alloc, found, held, possible), "{clauses}");
}

/// The lines after those of the database, and what `cn=u` has by them.
static ORDERS: [(&str, &str, &str); 26] = [
    // a rule that may be for the target may end the search
    (
        "access to dn.regex=.* by * =r\naccess to * by * =s\n",
        "=0",
        "=rs",
    ),
    (
        "access to dn.regex=.* by * =rs\naccess to * by * =sc\n",
        "=s",
        "=rsc",
    ),
    (
        "access to dn.regex=.* by * +r break\naccess to * by * +s\n",
        "=s",
        "=rs",
    ),
    (
        "access to * by * =rs break\naccess to dn.regex=.* by * -r break\naccess to * by * +c\n",
        "=sc",
        "=rsc",
    ),
    (
        "access to dn.regex=.* by anonymous =r\naccess to * by * =s\n",
        "=0",
        "=s",
    ),
    ("access to dn.regex=.* by * =r\n", "=0", "=r"),
    // rules that end the search before it
    (
        "access to * by * =c\naccess to dn.regex=.* by * =r\n",
        "=c",
        "=c",
    ),
    // `stop` after a clause that may apply
    ("access to * by ssf=1 =r by * =s\n", "=0", "=rs"),
    ("access to * by ssf=1 =rs by * =sc\n", "=s", "=rsc"),
    ("access to * by ssf=1 =r stop by * =r\n", "=r", "=r"),
    ("access to * by ssf=1 =r\naccess to * by * =s\n", "=0", "=r"),
    ("access to * by ssf=1 by * =s\n", "=0", "=s"),
    // `continue`
    ("access to * by ssf=1 +r continue by * +s\n", "=s", "=rs"),
    (
        "access to * by * =r continue by ssf=1 +s continue by * +c\n",
        "=rc",
        "=rsc",
    ),
    (
        "access to * by * =rs continue by ssf=1 -r continue by * +c\n",
        "=sc",
        "=rsc",
    ),
    (
        "access to * by * =rs continue by ssf=1 =c continue by * +x\n",
        "=x",
        "=rscx",
    ),
    ("access to * by ssf=1 =r continue\n", "=0", "=0"),
    // `break`
    (
        "access to * by ssf=1 +r break by * +s\naccess to * by * +c\n",
        "=0",
        "=rsc",
    ),
    ("access to * by ssf=1 =r break\n", "=0", "=0"),
    // each part is its own, also of one text, and all parts of a clause must hold
    (
        "access to * by ssf=1 =r by ssf=1 =s by * =c\n",
        "=0",
        "=rsc",
    ),
    ("access to * by ssf=1 anonymous =r by * =s\n", "=s", "=s"),
    (
        "access to * by ssf=1 users set=user =r by * =s\n",
        "=0",
        "=rs",
    ),
    // the rootdn has all
    (
        "rootdn CN=U,dc=com\naccess to dn.regex=.* by ssf=1 none\n",
        "=mwrscxd",
        "=mwrscxd",
    ),
    (
        "rootdn cn=v,dc=com\naccess to dn.regex=.* by * =r\n",
        "=0",
        "=r",
    ),
    // no rule: all may read
    ("", "=rscxd", "=rscxd"),
    (
        "database monitor\naccess to dn.regex=.* by ssf=1 =r\n",
        "=rscxd",
        "=rscxd",
    ),
];

#[test]
fn what_is_held_comes_of_all_ways_through_the_rules(rt: HostRuntime) {
    let types = types(&rt, rt.alloc());
    for (rules, held, possible) in &ORDERS {
        let found = bounds(&rt, rt.alloc(), &types, rules, "entry", U);
        assert!(&rt;
            are_bounds(&rt, rt.alloc(), found, held, possible),
            "{rules}"
        );
    }
}

/// Rules without an open part, what is asked for, by whom, and what is held.
static DECIDED: [(&str, &str, &str, &str); 13] = [
    ("access to * by * =r", "entry", "", "=r"),
    ("access to attrs=sn,entry by users =r", "entry", U, "=r"),
    ("access to attrs=sn,entry by users =r", "children", U, "=0"),
    (
        "access to dn.one=dc=com filter=(cn=T) by * =r",
        "sn",
        U,
        "=r",
    ),
    ("access to * by anonymous =r by * =s", "sn", "", "=r"),
    ("access to * by users =r by * =s", "sn", "", "=s"),
    ("access to * by self =r by * =s", "sn", "cn=T,dc=com", "=r"),
    ("access to * by dnattr=owner =r by * =s", "sn", U, "=s"),
    ("access to * by group=cn=g,dc=com =r by * =s", "sn", U, "=s"),
    (
        "access to * by group.exact=cn=g,dc=com =r by * =s",
        "sn",
        U,
        "=s",
    ),
    ("access to * by dn=cn=u,dc=com =r by * =s", "sn", U, "=r"),
    ("access to * by dn=cn=u,dc=com =r by * =s", "sn", "", "=s"),
    ("rootdn cn=u,dc=com", "sn", U, "=mwrscxd"),
];

#[test]
fn without_an_open_part_all_that_may_be_held_is(rt: HostRuntime) {
    let types = types(&rt, rt.alloc());
    for (rules, what, who, want) in &DECIDED {
        assert_decided(&rt, rt.alloc(), &types, rules, what, who, want);
    }
}

/// Names of a style in a `<who>`, and what `cn=u` has of `cn=t`.
static NAMES: [(&str, &str); 10] = [
    ("dn.exact=cn=u,dc=com", "=r"),
    ("dn.base=cn=v,dc=com", "=s"),
    ("dn.one=dc=com", "=r"),
    ("dn.onelevel=cn=u,dc=com", "=s"),
    ("dn.sub=dc=com", "=r"),
    ("dn.subtree=cn=u,dc=com", "=r"),
    ("dn.subtree=cn=t,dc=com", "=s"),
    ("dn.children=dc=com", "=r"),
    ("dn.children=cn=u,dc=com", "=s"),
    ("DN.Exact=CN=U,dc=com", "=r"),
];

#[test]
fn names_of_a_style_are_decided(rt: HostRuntime) {
    let types = types(&rt, rt.alloc());
    for (form, want) in &NAMES {
        assert_name(&rt, rt.alloc(), &types, form, want);
    }
}

fn assert_name(rt: &impl Abort, alloc: Global, types: &Schema, form: &str, want: &str) {
    let rules = format!(in alloc; "access to * by {form} =r by * =s").expect(rt, "memory");
    assert_decided(rt, alloc, types, rules.as_str(), "sn", U, want);
}

/// Asserts what is held, whichever way it is asked.
fn assert_decided(
    rt: &impl Abort,
    alloc: Global,
    types: &Schema,
    rules: &str,
    what: &str,
    who: &str,
    want: &str,
) {
    let found = bounds(rt, alloc, types, rules, what, who);
    assert!(rt; are_bounds(rt, alloc, found, want, want), "{rules}");
    let held = granted(rt, alloc, types, rules, what, who);
    assert!(rt; found.held == held && found.possible == held, "{rules}");
}

#[test]
fn what_a_configuration_grants_is_held(rt: HostRuntime) {
    let schema = schema(&rt, rt.alloc());
    for (text, want) in &GRANTS {
        let found = suffix_bounds(&rt, rt.alloc(), &schema, text);
        assert!(&rt; are_bounds(&rt, rt.alloc(), found, want, want), "{text}");
    }
}

/// What `cn=u` has of the entry of the suffix, which is made up.
fn suffix_bounds(rt: &impl Abort, alloc: Global, schema: &Schema, text: &str) -> PrivilegeBounds {
    let lines = cut_config(alloc, text.as_bytes()).expect(rt, "lines");
    let config = OpenConfig::of_text(alloc, schema, &lines).expect(rt, "a configuration");
    let request = Request {
        requester: Some(key_under(rt, alloc, schema, U)),
        target: key_under(rt, alloc, schema, "dc=com"),
        entry: None,
        asked: Asked::Entry,
    };
    config.bounds(&directory(rt, alloc, schema), &request)
}

/// What somebody has of `cn=t`, by the rules after the database.
pub(crate) fn bounds(
    rt: &impl Abort,
    alloc: Global,
    types: &Schema,
    rules: &str,
    what: &str,
    who: &str,
) -> PrivilegeBounds {
    let lines = lines_with(rt, alloc, rules);
    let config = OpenConfig::of_text(alloc, types, &lines).expect(rt, rules);
    assert!(rt; *config.suffix() == key_under(rt, alloc, types, "DC=Com"));
    let entry = entry(rt, alloc, types);
    let request = request(rt, alloc, types, &entry, what, who);
    config.bounds(&directory(rt, alloc, types), &request)
}

/// The same by the configuration without open parts.
fn granted(
    rt: &impl Abort,
    alloc: Global,
    types: &Schema,
    rules: &str,
    what: &str,
    who: &str,
) -> Privileges {
    let lines = lines_with(rt, alloc, rules);
    let config = Config::of_text(alloc, types, &lines).expect(rt, rules);
    let entry = entry(rt, alloc, types);
    let request = request(rt, alloc, types, &entry, what, who);
    config.privileges(&directory(rt, alloc, types), &request)
}

/// The built-in types with those before the database.
pub(crate) fn types(rt: &impl Abort, alloc: Global) -> Schema {
    let lines = lines_with(rt, alloc, "");
    types_of_text(alloc, &schema(rt, alloc), &lines).expect(rt, "types")
}

fn lines_with(rt: &impl Abort, alloc: Global, rules: &str) -> ConfigText {
    let text = format!(in alloc; "{DATABASE}{rules}\n").expect(rt, "memory");
    cut_config(alloc, text.as_bytes()).expect(rt, "lines")
}

/// A directory without entries: no group has a member.
fn directory(rt: &impl Abort, alloc: Global, types: &Schema) -> FlatDirectory {
    FlatDirectory::new(alloc, key_under(rt, alloc, types, "dc=com"))
}

fn request<'e>(
    rt: &impl Abort,
    alloc: Global,
    types: &Schema,
    entry: &'e Entry,
    what: &str,
    who: &str,
) -> Request<'e> {
    Request {
        requester: requester(rt, alloc, types, who),
        target: key_under(rt, alloc, types, "cn=t,dc=com"),
        entry: Some(entry),
        asked: asked(rt, alloc, types, what),
    }
}

/// The requester of this name; nobody if it is empty.
fn requester(rt: &impl Abort, alloc: Global, types: &Schema, name: &str) -> Option<DnKey> {
    if name.is_empty() {
        None
    } else {
        Some(key_under(rt, alloc, types, name))
    }
}

fn asked(rt: &impl Abort, alloc: Global, types: &Schema, what: &str) -> Asked {
    if what == "entry" {
        return Asked::Entry;
    }
    if what == "children" {
        return Asked::Children;
    }
    let description = described(rt, alloc, types, what);
    Asked::Attribute(description.key().try_clone(alloc).expect(rt, "memory"))
}

fn described(rt: &impl Abort, alloc: Global, types: &Schema, text: &str) -> Description {
    Description::read(alloc, types, text.as_bytes()).expect(rt, "a description")
}

fn entry(rt: &impl Abort, alloc: Global, types: &Schema) -> Entry {
    let name = Dn::read(alloc, b"cn=t").expect(rt, "a name");
    let mut lines = Vec::new(alloc);
    for (attr_type, value) in &LINES {
        let value = Bytes::copy_of(alloc, value.as_bytes()).expect(rt, "memory");
        lines
            .push((described(rt, alloc, types, attr_type), value))
            .expect(rt, "memory");
    }
    Entry::make(alloc, types, name.into_rdns(), Lines::new(lines)).expect(rt, "an entry")
}

pub(crate) fn are_bounds(
    rt: &impl Abort,
    alloc: Global,
    found: PrivilegeBounds,
    held: &str,
    possible: &str,
) -> bool {
    has_text(rt, alloc, found.held, held) && has_text(rt, alloc, found.possible, possible)
}
