//! What the tests are made of.

use dir_names::{Dn, DnKey, Schema};
use std::alloc::Global;
use std::process::Abort;

pub(crate) fn schema(rt: &impl Abort, alloc: Global) -> Schema {
    Schema::builtin(alloc).expect(rt, "memory")
}

pub(crate) fn key(rt: &impl Abort, alloc: Global, name: &str) -> DnKey {
    key_under(rt, alloc, &schema(rt, alloc), name)
}

pub(crate) fn key_under(rt: &impl Abort, alloc: Global, schema: &Schema, name: &str) -> DnKey {
    let name = Dn::read(alloc, name.as_bytes()).expect(rt, "a name");
    name.key(alloc, schema).expect(rt, "a key")
}
