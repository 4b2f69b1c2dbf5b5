//! The forms of a `<what>` and a `<who>` that are open (slapd.access(5)), and beside each what is decided of it. A rule gives `r` where it is for the question, and a
//! clause where it applies; `s` is given after it.

use crate::acl::bounds::{U, are_bounds, bounds, types};
use dir_names::Schema;
use std::alloc::Global;
use std::process::Abort;

/// A name that no value of `cn=t` is.
const V: &str = "cn=v,dc=com";

/// A `<what>`, what is asked for, what `cn=u` has surely, and what it may have.
static WHATS: [(&str, &str, &str, &str); 96] = [
    // names: a pattern, and styles that are decided
    ("dn.regex=^cn=t,.*", "entry", "=0", "=rs"),
    ("dn.regex=*", "sn", "=0", "=rs"),
    ("DN.Regex=^$", "children", "=0", "=rs"),
    ("dn.baseobject=cn=t,dc=com", "entry", "=r", "=r"),
    ("dn.baseobject=dc=com", "entry", "=s", "=s"),
    ("dn=*", "entry", "=r", "=r"),
    ("dn.exact=* attrs=sn", "sn", "=r", "=r"),
    ("dn.exact=cn=t,dc=com", "entry", "=r", "=r"),
    ("dn.children=cn=t,dc=com", "entry", "=s", "=s"),
    ("*", "entry", "=r", "=r"),
    // values
    ("val=x", "entry", "=0", "=rs"),
    ("attrs=sn val=One", "sn", "=0", "=rs"),
    ("attrs=sn val=One", "cn", "=s", "=s"),
    ("attrs=sn val=One", "entry", "=s", "=s"),
    ("val.exact=One attrs=sn", "sn", "=0", "=rs"),
    ("attrs=sn val.regex=^O", "sn", "=0", "=rs"),
    ("attrs=manager val.base=cn=u,dc=com", "manager", "=0", "=rs"),
    ("attrs=owner val.baseobject=cn=u", "owner", "=0", "=rs"),
    ("attrs=owner val.one=dc=com", "owner", "=0", "=rs"),
    ("attrs=owner val.onelevel=dc=com", "owner", "=0", "=rs"),
    ("attrs=owner val.sub=dc=com", "owner", "=0", "=rs"),
    ("attrs=owner val.SubTree=dc=com", "owner", "=0", "=rs"),
    ("attrs=owner val.children=dc=com", "owner", "=0", "=rs"),
    ("attrs=sn val/caseExactMatch=One", "sn", "=0", "=rs"),
    ("attrs=sn VAL/2.5.13.5.regex=^O", "sn", "=0", "=rs"),
    // `attr` is `attrs`
    ("attr=sn", "sn", "=r", "=r"),
    ("attr=sn", "cn", "=s", "=s"),
    ("attr=foo", "cn", "=0", "=rs"),
    // types that aren't known
    ("attrs=sn,foo", "sn", "=r", "=r"),
    ("attrs=sn,foo", "cn", "=0", "=rs"),
    ("attrs=sn,foo", "entry", "=s", "=s"),
    ("attrs=sn,foo", "children", "=s", "=s"),
    ("attrs=foo", "FOO", "=r", "=r"),
    ("attrs=foo,entry", "entry", "=r", "=r"),
    ("attrs=1.2.3.4", "sn", "=0", "=rs"),
    // types with others below them
    ("attrs=description", "description", "=r", "=r"),
    ("attrs=description", "description;x-a", "=r", "=r"),
    ("attrs=description", "post", "=0", "=rs"),
    ("attrs=description", "sn", "=0", "=rs"),
    ("attrs=description", "entry", "=s", "=s"),
    ("attrs=description;x-a", "post;x-a", "=0", "=rs"),
    ("attrs=name", "name", "=r", "=r"),
    ("attrs=name", "cn", "=0", "=rs"),
    ("attrs=name", "children", "=s", "=s"),
    ("attrs=post", "post", "=r", "=r"),
    ("attrs=post", "description", "=s", "=s"),
    ("attrs=sn;x-a", "sn", "=s", "=s"),
    // classes
    ("attrs=@person,cn", "cn", "=r", "=r"),
    ("attrs=@person,cn", "sn", "=0", "=rs"),
    ("attrs=@person,cn", "mail", "=0", "=rs"),
    ("attrs=@person,cn", "entry", "=0", "=rs"),
    ("attrs=@person,cn", "children", "=0", "=rs"),
    ("attrs=entry,@person", "entry", "=r", "=r"),
    ("attrs=@2.5.6.6", "sn", "=0", "=rs"),
    ("attrs=!person", "mail", "=0", "=rs"),
    ("attrs=!person", "sn", "=0", "=rs"),
    ("attrs=!person", "entry", "=0", "=rs"),
    ("attrs=!person,children", "children", "=r", "=r"),
    ("attrs=extensibleObject", "cn", "=0", "=rs"),
    ("attrs=ExtensibleObject", "entry", "=0", "=rs"),
    ("attrs=@extensibleObject", "children", "=0", "=rs"),
    ("attrs=1.3.6.1.4.1.1466.101.120.111", "entry", "=0", "=rs"),
    ("attrs=sn,extensibleObject", "sn", "=r", "=r"),
    // a class without a sign is a type that isn't known
    ("attrs=person", "sn", "=0", "=rs"),
    ("attrs=person", "entry", "=s", "=s"),
    // filters with a type that isn't known, one with others below it, a class
    ("filter=(foo=a)", "entry", "=0", "=rs"),
    ("filter=(foo=*)", "entry", "=0", "=rs"),
    ("filter=(&(cn=t)(!(foo=a)))", "entry", "=0", "=rs"),
    ("filter=(description=d)", "entry", "=0", "=rs"),
    ("filter=(name=*)", "entry", "=0", "=rs"),
    ("filter=(objectClass=person)", "entry", "=0", "=rs"),
    ("filter=(2.5.4.0=top)", "entry", "=0", "=rs"),
    ("filter=(objectClass=*)", "entry", "=r", "=r"),
    // with tests but of presence and equality
    ("filter=(uidNumber>=1000)", "entry", "=0", "=rs"),
    ("filter=(uidNumber<=1000)", "sn", "=0", "=rs"),
    ("filter=(cn~=t)", "entry", "=0", "=rs"),
    ("filter=(cn=t*)", "entry", "=0", "=rs"),
    ("filter=(cn=*t*)", "entry", "=0", "=rs"),
    ("filter=(|(cn=t)(sn=O*))", "entry", "=0", "=rs"),
    ("filter=cn=*t", "entry", "=0", "=rs"),
    // and with these alone
    ("filter=(cn=*)", "entry", "=r", "=r"),
    ("filter=(mail=*)", "entry", "=s", "=s"),
    ("filter=(cn=T)", "entry", "=r", "=r"),
    ("filter=(cn=x)", "entry", "=s", "=s"),
    ("filter=(uidNumber=1)", "entry", "=s", "=s"),
    ("filter=(post=d)", "entry", "=s", "=s"),
    ("filter=cn=t", "entry", "=r", "=r"),
    ("filter=(&(cn=t)(!(mail=a)))", "entry", "=r", "=r"),
    ("filter=(&(cn=t)(!(sn=Two)))", "entry", "=r", "=r"),
    ("filter=(&)", "entry", "=r", "=r"),
    // all parts must fit
    ("dn.regex=.* attrs=sn", "sn", "=0", "=rs"),
    ("dn.regex=.* attrs=sn", "entry", "=s", "=s"),
    ("attrs=foo dn.regex=.*", "foo", "=0", "=rs"),
    ("filter=(cn=t) dn.regex=.*", "entry", "=0", "=rs"),
    ("filter=(cn=x) dn.regex=.*", "entry", "=s", "=s"),
    (
        "dn.one=cn=t,dc=com filter=(cn=t*) attrs=@person",
        "entry",
        "=s",
        "=s",
    ),
];

#[test]
fn an_open_what_may_fit(rt: HostRuntime) {
    let types = types(&rt, rt.alloc());
    for (form, what, held, possible) in &WHATS {
        assert_what(&rt, rt.alloc(), &types, form, what, held, possible);
    }
}

fn assert_what(
    rt: &impl Abort,
    alloc: Global,
    types: &Schema,
    form: &str,
    what: &str,
    held: &str,
    possible: &str,
) {
    let rules = format!(in alloc; "access to {form} by * =r\naccess to * by * =s");
    let rules = rules.expect(rt, "memory");
    let found = bounds(rt, alloc, types, rules.as_str(), what, U);
    assert!(rt;
        are_bounds(rt, alloc, found, held, possible),
        "{form} {what}"
    );
}

/// Forms that are open whoever asks.
static OF_ANYBODY: [&str; 61] = [
    // the requester's name, and the target's
    "dn.regex=^cn=u,.*",
    "DN.regex=.*",
    "dn.expand=cn=$1,dc=com",
    "dn.exact,expand=cn=$1,dc=com",
    "dn.subtree,expand=$1",
    "dn.level{1}=dc=com",
    "dn.level{0}=cn=u,dc=com",
    "dn.level{-1}=dc=com",
    "dn.Level{12},expand=$1",
    "self.level{0}",
    "self.level{1}",
    "self.level{-1}",
    // the same of the identity before a proxied one
    "RealSelf.level{-10}",
    "realdn.regex=.*",
    "realdn.sub,expand=$1",
    "realdn.level{1}=dc=com",
    // groups whose name is made of the target's
    "group.expand=cn=$1,dc=com",
    "group/groupOfNames.expand=cn=$1,dc=com",
    "group/groupOfNames/member.Expand=cn=$1,dc=com",
    // the connection
    "peername=IP=127.0.0.1:1234",
    "peername.exact=IP=127.0.0.1:1234",
    "peername.regex=^IP=",
    "peername.expand=$1",
    "peername.ip=127.0.0.0%255.0.0.0{389}",
    "peername.ipv6=::1",
    "PEERNAME.PATH=/run/ldapi",
    "sockname=IP=0.0.0.0:389",
    "sockname.exact=IP=0.0.0.0:389",
    "sockname.regex=:389$",
    "sockname.expand=$1",
    "sockurl=ldap:///",
    "sockurl.exact=ldap:///",
    "sockurl.regex=.*",
    "sockurl.expand=$1",
    "domain=a.example.com",
    "domain.exact=a.example.com",
    "domain.regex=.*",
    "domain.expand=$1",
    "domain.sub=example.com",
    "domain.subtree=example.com",
    "domain.exact,expand=$1",
    "domain.subtree,expand=$1",
    "ssf=128",
    "SSF=0",
    "transport_ssf=56",
    "tls_ssf=128",
    "sasl_ssf=128",
    // sets, modules
    "set=user",
    "set.exact=user",
    "set.expand=[$1]",
    "\"set=this/manager & user\"",
    "set=\"[cn=g,dc=com]/member* & user\"",
    "dynacl/x",
    "dynacl/x=y",
    "DynACL/x.regex=y",
    "aci",
    "aci=OpenLDAPaci",
    // beside a part that holds
    "* ssf=1",
    "ssf=1 *",
    "ssf=1 tls_ssf=1",
    "* peername.ip=127.0.0.1",
];

#[test]
fn an_open_who_may_hold_whoever_asks(rt: HostRuntime) {
    let types = types(&rt, rt.alloc());
    for form in &OF_ANYBODY {
        assert_who(&rt, rt.alloc(), &types, form, U, "=0", "=rs");
        assert_who(&rt, rt.alloc(), &types, form, "", "=0", "=rs");
    }
}

/// A `<who>`, who asks, what is held surely, and what may be.
static WHOS: [(&str, &str, &str, &str); 40] = [
    // groups by values that aren't known to be names
    ("group/groupOfUniqueNames/uniqueMember=cn=g", U, "=0", "=rs"),
    ("group/groupOfUniqueNames/uniqueMember=cn=g", "", "=s", "=s"),
    ("group/g/foo.exact=cn=g", V, "=0", "=rs"),
    ("group/g/foo.exact=cn=g", "", "=s", "=s"),
    ("group/g/owner=cn=g", V, "=s", "=s"),
    // names among such values
    ("dnattr=uniqueMember", U, "=0", "=rs"),
    ("dnattr=uniqueMember", "", "=s", "=s"),
    ("dnattr=foo", U, "=0", "=rs"),
    ("dnattr=foo", "", "=s", "=s"),
    // names among the values of a type with others below it
    ("dnattr=manager", U, "=r", "=r"),
    ("dnattr=manager", "CN=U,dc=com", "=r", "=r"),
    ("dnattr=manager", V, "=0", "=rs"),
    ("dnattr=manager", "", "=s", "=s"),
    ("DNAttr=manager;x-a", U, "=0", "=rs"),
    ("dnattr=deputy", U, "=s", "=s"),
    ("dnattr=owner", V, "=s", "=s"),
    // nobody asks by another one's name
    ("realself", U, "=s", "=s"),
    ("RealSelf", "cn=t,dc=com", "=r", "=r"),
    ("realusers", U, "=r", "=r"),
    ("realusers", "", "=s", "=s"),
    ("realanonymous", U, "=s", "=s"),
    ("realanonymous", "", "=r", "=r"),
    ("realdn=cn=u,dc=com", U, "=r", "=r"),
    ("realdn.baseobject=cn=u,dc=com", V, "=s", "=s"),
    ("dn.baseobject=cn=u,dc=com", U, "=r", "=r"),
    ("realdnattr=owner", U, "=s", "=s"),
    ("realdnattr=manager", U, "=r", "=r"),
    ("realdnattr=manager", V, "=0", "=rs"),
    ("realdnattr=foo", "", "=s", "=s"),
    // all parts must hold
    ("users ssf=1", U, "=0", "=rs"),
    ("users ssf=1", "", "=s", "=s"),
    ("ssf=1 anonymous", U, "=s", "=s"),
    ("anonymous realanonymous", "", "=r", "=r"),
    ("self self.level{0}", U, "=s", "=s"),
    ("self self.level{0}", "cn=t,dc=com", "=0", "=rs"),
    ("dnattr=manager ssf=1", U, "=0", "=rs"),
    ("dn=cn=v,dc=com dn.regex=.*", U, "=s", "=s"),
    ("dn.regex=.* dn=cn=v,dc=com", V, "=0", "=rs"),
    ("dn.regex=.* dnattr=foo", "", "=s", "=s"),
    ("realdn=cn=u,dc=com dnattr=manager", "", "=s", "=s"),
];

#[test]
fn an_open_who_may_hold(rt: HostRuntime) {
    let types = types(&rt, rt.alloc());
    for (form, who, held, possible) in &WHOS {
        assert_who(&rt, rt.alloc(), &types, form, who, held, possible);
    }
}

fn assert_who(
    rt: &impl Abort,
    alloc: Global,
    types: &Schema,
    form: &str,
    who: &str,
    held: &str,
    possible: &str,
) {
    let rules = format!(in alloc; "access to * by {form} =r by * =s").expect(rt, "memory");
    let found = bounds(rt, alloc, types, rules.as_str(), "entry", who);
    assert!(rt;
        are_bounds(rt, alloc, found, held, possible),
        "{form} {who}"
    );
}
