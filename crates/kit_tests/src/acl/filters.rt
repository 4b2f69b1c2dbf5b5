//! A filter on an entry.

use crate::acl::make::schema;
use dir_acl::{Filter, Truth};
use dir_names::{Dn, Lines};
use dir_tree::Entry;
use std::alloc::Global;
use std::process::Abort;

#[test]
fn a_filter_is_true_of_an_entry(rt: HostRuntime) {
    let entry = foo_bar(&rt, rt.alloc());
    let filter = Filter::read(rt.alloc(), &schema(&rt, rt.alloc()), b"(cn=f*b*r)");
    assert!(&rt; filter.expect(&rt, "a filter").truth(&entry) == Truth::True);
}

/// The entry `cn=Foo Bar`, with that value alone.
fn foo_bar(rt: &impl Abort, alloc: Global) -> Entry {
    let name = Dn::read(alloc, b"cn=Foo Bar").expect(rt, "a name");
    let lines = Lines::new(Vec::new(alloc));
    let entry = Entry::make(alloc, &schema(rt, alloc), name.into_rdns(), lines);
    entry.expect(rt, "an entry")
}
