//! What rules grant: by a configuration, by the rules for a target, and without a configuration.

use crate::acl::make::{key, schema};
use dir_acl::{Asked, Config, Privileges, Request};
use dir_tree::{Directory, FlatDirectory};
use std::alloc::Global;
use std::process::Abort;

/// A configuration with definitions of types that can't be added: a definition says nothing to the rest, whatever it holds.
const CONTINUE: &str = "attributetype ( 1.2.3 NAME 'a1' DESC 'a \" and a \\' SUP nothing )\n\
    database mdb\nattributetype access to \"\nsuffix dc=com\n\
    access to *\n  by * =cs continue\n  by users +r\nattributetype \\\n";

/// Rules that are for the entry of the suffix, each followed by one that isn't.
const EACH_WHAT: &str = "database mdb\nsuffix dc=com\n\
    access to attrs=sn,entry filter=(&) by * +r break\naccess to attrs=sn,children by * =m\n\
    access to filter=(!(|)) attrs=entry by * +s break\naccess to filter=(|) by * =m\n\
    access to dn.sub=dc=com by * +c break\naccess to dn.one=dc=com by * =m\n\
    access to dn=dc=com attrs=entry filter=(&) by * +d continue by self =m by dn.one=dc=com +x\n";

/// Configurations, and what `cn=u,dc=com` may do by each with the entry of the suffix, which is made up.
pub(crate) static GRANTS: [(&str, &str); 5] = [
    (CONTINUE, "=rsc"),
    (EACH_WHAT, "=rscxd"),
    (
        "database mdb\nsuffix dc=com\naccess to * by * read break\n",
        "=0",
    ),
    ("database mdb\nsuffix dc=com\n", "=rscxd"),
    (
        "database mdb\nsuffix dc=com\nrootdn cn=U,dc=com\naccess to * by * none\n",
        "=mwrscxd",
    ),
];

#[test]
fn a_configuration_grants_what_its_rules_say(rt: HostRuntime) {
    for (text, want) in &GRANTS {
        assert_granted(&rt, rt.alloc(), text, want);
    }
}

fn assert_granted(rt: &impl Abort, alloc: Global, text: &str, want: &str) {
    let config = Config::read(alloc, &schema(rt, alloc), text.as_bytes());
    let config = config.expect(rt, "a configuration");
    assert!(rt; *config.suffix() == key(rt, alloc, "DC=Com"));
    assert_text(rt, alloc, granted(rt, alloc, &config), want);
}

/// What a configuration grants, and the rules for the target too.
fn granted(rt: &impl Abort, alloc: Global, config: &Config) -> Privileges {
    let directory = FlatDirectory::new(alloc, key(rt, alloc, "dc=com"));
    let target = key(rt, alloc, "dc=com");
    let request = Request {
        requester: Some(key(rt, alloc, "cn=u,dc=com")),
        entry: directory.get(&target),
        asked: Asked::Entry,
        target: target.try_clone(alloc).expect(rt, "memory"),
    };
    let held = config.privileges(&directory, &request);
    let mut rules = config.rules_for(alloc, &target, request.entry);
    assert!(rt; rules.privileges(&directory, &request) == held);
    held
}

pub(crate) fn assert_text(rt: &impl Abort, alloc: Global, privileges: Privileges, want: &str) {
    assert!(rt; has_text(rt, alloc, privileges, want), "{want}");
}

pub(crate) fn has_text(rt: &impl Abort, alloc: Global, privileges: Privileges, want: &str) -> bool {
    let text = privileges.text(alloc).expect(rt, "memory");
    text.as_slice() == want.as_bytes()
}
