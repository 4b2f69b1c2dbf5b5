//! Fields of an entry: its attributes as they are lent, packed as it is made and open as it is changed; and fields that are
//! closed to an entry, or refused.
//!
//! A script begins with the entry whose fields are asked and changed: its name, and the lines of an add. The fields of an entry
//! that is closed are taken again. Of an attribute the answer is its spelling, and then the
//! key and the bytes of each value, in order.

use crate::alike::map_of_kept;
use crate::make::{bytes, check, description, is_fault, made, schema, value, view_count};
use crate::script::{Step, begun, counts, says, split, step_of};
use crate::views::view_answers;
use dir_names::{Rdn, RdnKey};
use dir_tree::{Attribute, AttributeMap, KeptAttributes, Parts};
use std::alloc::Global;
use std::process::Abort;

/// Fields are closed to an entry.
const CLOSED: &str = "
entry cn=Kim | uidNumber=1
own -> 1
add sn=Park
close -> closed
own -> 1
count -> 3
";

/// An entry has the values of its own RDN. Fields that do not make an entry come back.
const REFUSED: &str = "
entry cn=Kim | uidNumber=1
key cn=Lee
add uidNumber=2
close -> E3 NotNamed
add cn=LEE
close -> E4 Single
count -> 2
";

/// An entry with keys of each kind, the value itself, a text of its own, a name: values are found, come in order, and can
/// be copied; and a map is asked for each.
const LENT: &str = "
entry cn=Kim Park | title=lead | title=Head  of Staff | telephoneNumber=+1 555-0100 | manager=CN=Lee,DC=Example | uidNumber=7
count -> 5
exceeds-single -> no
stored title=HEAD OF STAFF -> Head  of Staff
stored telephoneNumber=+15550100 -> +1 555-0100
stored manager=cn=lee,dc=example -> CN=Lee,DC=Example
stored cn=kim park -> Kim Park
many title -> yes
values title -> title | head of staff | Head  of Staff | lead | lead
many uidNumber -> no
named manager=cn=lee, dc=EXAMPLE -> yes
named manager=cn=kim,dc=example -> no
values manager -> manager | a name | CN=Lee,DC=Example
copied manager -> yes
copied title -> yes
among title=Lead -> no | yes
";

static SCRIPTS: [&str; 3] = [CLOSED, REFUSED, LENT];

/// The attributes are asked and changed as they are packed.
#[test]
fn fields_of_a_packed_entry_are_lent_and_closed_or_refused(rt: HostRuntime) {
    run_all(&rt, rt.alloc(), "own -> 1");
}

/// The attributes are asked and changed once they are open.
#[test]
fn fields_of_an_open_entry_are_lent_and_closed_or_refused(rt: HostRuntime) {
    run_all(&rt, rt.alloc(), "open");
}

/// Takes the steps of each script after this one.
fn run_all(rt: &impl Abort, alloc: Global, first: &str) {
    for script in &SCRIPTS {
        let (text, steps) = begun(script);
        let parts = made(rt, alloc, text).into_parts();
        take_steps(rt, alloc, after(rt, alloc, parts, first), steps);
    }
}

fn take_steps(rt: &impl Abort, alloc: Global, mut parts: Parts, steps: &str) {
    for line in steps.lines() {
        parts = after(rt, alloc, parts, line);
    }
}

/// The fields after a step. Each answer must be the one that is wanted.
fn after(rt: &impl Abort, alloc: Global, parts: Parts, line: &str) -> Parts {
    let step = step_of(line);
    match step.verb {
        "key" => with_key(rt, alloc, parts, step.given),
        "add" => with_value(rt, alloc, parts, step.given),
        "close" => closed(rt, alloc, parts, step.want),
        "open" => opened_parts(rt, alloc, parts),
        _ => {
            check(rt, answers(rt, alloc, &parts, &step), line);
            parts
        }
    }
}

/// Whether a question is answered so.
fn answers(rt: &impl Abort, alloc: Global, parts: &Parts, step: &Step<'_>) -> bool {
    match step.verb {
        "own" => counts(rt, alloc, step.want, parts.own.len()),
        "count" => counts(rt, alloc, step.want, view_count(parts.attributes.iter())),
        "exceeds-single" => says(
            step.want,
            parts.attributes.exceeds_single_value(&schema(rt, alloc)),
        ),
        _ => attribute_answers(rt, alloc, &parts.attributes, step),
    }
}

fn attribute_answers(
    rt: &impl Abort,
    alloc: Global,
    kept: &KeptAttributes,
    step: &Step<'_>,
) -> bool {
    let description = description(rt, alloc, split(step.given, "=").0);
    match kept.get(description.key()) {
        Some(attribute) => view_answers(rt, alloc, &attribute, step),
        None => false,
    }
}

/// The fields with their attributes in memory of their own.
fn opened_parts(rt: &impl Abort, alloc: Global, parts: Parts) -> Parts {
    let map = parts.attributes.to_map(alloc).expect(rt, "memory");
    Parts {
        attributes: KeptAttributes::of(map),
        ..parts
    }
}

/// The fields with the key of another RDN.
fn with_key(rt: &impl Abort, alloc: Global, parts: Parts, text: &str) -> Parts {
    Parts {
        key: rdn_key(rt, alloc, text),
        ..parts
    }
}

fn rdn_key(rt: &impl Abort, alloc: Global, text: &str) -> RdnKey {
    let rdn = Rdn::read(alloc, text.as_bytes()).expect(rt, "an RDN");
    rdn.key(alloc, &schema(rt, alloc)).expect(rt, "a key")
}

/// The fields with one value more in the attribute of this type, or in a new attribute.
fn with_value(rt: &impl Abort, alloc: Global, parts: Parts, line: &str) -> Parts {
    let Parts {
        own,
        key,
        attributes,
    } = parts;
    Parts {
        own,
        key,
        attributes: with_line(rt, alloc, attributes, line),
    }
}

fn with_line(
    rt: &impl Abort,
    alloc: Global,
    attributes: KeptAttributes,
    line: &str,
) -> KeptAttributes {
    let mut map = map_of_kept(rt, alloc, attributes);
    let attribute = grown(rt, alloc, &mut map, line);
    map.put(attribute).expect(rt, "memory");
    KeptAttributes::of(map)
}

/// An attribute of a map, which leaves it, or one without values, with one value more.
fn grown(rt: &impl Abort, alloc: Global, map: &mut AttributeMap, line: &str) -> Attribute {
    let (attr_type, text) = split(line, "=");
    let mut attribute = taken(rt, alloc, map, attr_type);
    let key = value(rt, alloc, attr_type, text);
    attribute
        .add(alloc, key, bytes(rt, alloc, text))
        .expect(rt, "a value");
    attribute
}

/// The attribute of this type, which leaves the map, or one without values.
fn taken(
    rt: &impl Abort,
    alloc: Global,
    attributes: &mut AttributeMap,
    attr_type: &str,
) -> Attribute {
    let description = description(rt, alloc, attr_type);
    match attributes.take(description.key()) {
        Some(attribute) => attribute,
        None => Attribute::new(alloc, description),
    }
}

/// The fields of the entry that they make, or those that do not make an entry. This must be the outcome.
fn closed(rt: &impl Abort, alloc: Global, parts: Parts, want: &str) -> Parts {
    match parts.close(&schema(rt, alloc)) {
        Ok(entry) => {
            check(rt, want == "closed", want);
            entry.into_parts()
        }
        Err((back, fault)) => {
            check(rt, is_fault(rt, alloc, fault, want), want);
            back
        }
    }
}
