//! What an add makes of its lines, and each fault before the next; and entries that get the attributes of a part.
//!
//! A script begins with an entry: its name, and the lines of an add. Of an attribute the answer is its spelling, and then the
//! key and the bytes of each value, in order. `part TYPES: LINES` puts what a part of these lines has in the place of the attributes of these types.

use crate::alike::opened;
use crate::exchanged_parts::{with_attribute, with_part};
use crate::make::{
    check, clone_of, description, is_made, made, make, name, schema, value, view_count,
};
use crate::script::{Step, begun, counts, is_next, names_own, pieces, says, split, step_of};
use crate::views::{has_lines, view_answers, view_of};
use dir_names::{Bytes, Description, Lines};
use dir_tree::{AttributeView, Entry, entries_hold_their_lines};
use std::alloc::Global;
use std::process::Abort;

/// An entry has its lines.
const HELD: &str = "
entry cn=Kim | Description=Staff | description=lead
has description=STAFF -> yes
has description=none -> no
";

/// An entry has its own RDN, also when it is made again of its fields.
const NAMED: &str = "
entry cn=Kim
own -> cn=Kim
values commonName -> cn | kim | Kim
values sn -> none
make-again
has-text cn=kim -> yes
key -> 1
";

/// Attributes and values come in the order of their keys, also in a clone.
const ORDERED: &str = "
entry cn=Kim | sn=Z | Description=b | description=A
clone
spellings -> cn | Description | sn
values description -> Description | a | A | b | b
";

/// A small entry gets the attributes of a part: a title, a description and no number.
const PART_TAKEN: &str = "
entry cn=Kim Park | objectClass=person | title=Head  of Staff | title=lead | telephoneNumber=+1 555-0100 | manager=CN=Lee,DC=Example | uidNumber=7
part title uidNumber description: title=Boss | description=New  one
count -> 6
lines cn=Kim Park | objectClass=person | title=Boss | telephoneNumber=+1 555-0100 | manager=CN=Lee,DC=Example | description=New  one -> yes
length title -> 1
";

/// What a part has under other keys is left out.
const PART_LEFT: &str = "
entry cn=Kim Park | objectClass=person | title=Head  of Staff | title=lead | telephoneNumber=+1 555-0100 | manager=CN=Lee,DC=Example | uidNumber=7
part uidNumber: title=Boss | description=New  one
count -> 5
length title -> 2
";

/// An open entry is left to be changed in place.
const OPENED: &str = "
entry cn=Kim Park | objectClass=person | title=Head  of Staff | title=lead | telephoneNumber=+1 555-0100 | manager=CN=Lee,DC=Example | uidNumber=7
open
small -> no
takes-part title: title=Boss | description=New  one -> no
";

/// What takes the place of one attribute of an entry: as many values or not, of its own or such as many entries have, a name,
/// spelled otherwise, and an attribute that it lacks. The map of its attributes, changed alike, has the same ones then.
const EXCHANGED: &str = "
entry cn=Kim Park | objectClass=person | title=Head  of Staff | title=lead | telephoneNumber=+1 555-0100 | manager=CN=Lee,DC=Example | uidNumber=7
exchange cn: cn=Kim Lee
exchange telephoneNumber: telephoneNumber=+1 555-0199, by day
exchange manager: manager=CN=Ann, DC=Example
exchange uidNumber: uidNumber=8
exchange title: title=Boss
exchange objectClass: objectClass=device
exchange UIDNUMBER: UIDNUMBER=9
exchange description: description=New  one
";

static SCRIPTS: [&str; 7] = [
    HELD, NAMED, ORDERED, PART_TAKEN, PART_LEFT, OPENED, EXCHANGED,
];

#[test]
fn an_entry_answers_each_step(rt: HostRuntime) {
    entries_hold_their_lines();
    for script in &SCRIPTS {
        run(&rt, rt.alloc(), script);
    }
}

fn run(rt: &impl Abort, alloc: Global, script: &str) {
    let (text, steps) = begun(script);
    take_steps(rt, alloc, &mut made(rt, alloc, text), steps);
}

/// Takes the steps with this entry.
fn take_steps(rt: &impl Abort, alloc: Global, entry: &mut Entry, steps: &str) {
    for line in steps.lines() {
        take_step(rt, alloc, entry, line);
    }
}

/// Changes the entry, or asks it: the answer must be the one that is wanted.
fn take_step(rt: &impl Abort, alloc: Global, entry: &mut Entry, line: &str) {
    let step = step_of(line);
    match after(rt, alloc, entry, &step) {
        Some(next) => *entry = next,
        None => check(rt, answers(rt, alloc, entry, &step), line),
    }
}

/// The entry after a step that makes another of it.
fn after(rt: &impl Abort, alloc: Global, entry: &Entry, step: &Step<'_>) -> Option<Entry> {
    match step.verb {
        "clone" => Some(clone_of(rt, alloc, entry)),
        "make-again" => Some(Entry::of(clone_of(rt, alloc, entry).into_parts())),
        "open" => Some(opened(rt, alloc, clone_of(rt, alloc, entry))),
        "part" => Some(changed(rt, alloc, entry, step.given)),
        "exchange" => Some(with_attribute(rt, alloc, entry, step.given)),
        _ => None,
    }
}

/// Whether a question is answered so.
fn answers(rt: &impl Abort, alloc: Global, entry: &Entry, step: &Step<'_>) -> bool {
    match step.verb {
        "own" => names_own(rt, alloc, step.want, entry.own()),
        "key" => counts(rt, alloc, step.want, entry.key().pairs().len()),
        "count" => counts(rt, alloc, step.want, view_count(entry.attributes())),
        "spellings" => are_spelled(entry, step.want),
        "notes" => says(step.want, has_notes(rt, alloc, entry)),
        "small" => says(step.want, entry.is_small()),
        "lines" => says(step.want, has_lines(rt, alloc, entry, step.given)),
        "takes-part" => says(step.want, with_part(rt, alloc, entry, step.given).is_some()),
        _ => attribute_answers(rt, alloc, entry, step),
    }
}

/// Whether a question is answered so by an entry that is needed no more. To give an entry away here makes the proof of a
/// function short.
pub(crate) fn last_answers(rt: &impl Abort, alloc: Global, entry: Entry, step: &Step<'_>) -> bool {
    answers(rt, alloc, &entry, step)
}

/// Whether an entry that was there or comes back has this own name.
pub(crate) fn was(rt: &impl Abort, alloc: Global, own: &str, former: Entry) -> bool {
    let step = Step {
        verb: "own",
        given: "",
        want: own,
    };
    last_answers(rt, alloc, former, &step)
}

/// Whether a question about an attribute is answered so.
fn attribute_answers(rt: &impl Abort, alloc: Global, entry: &Entry, step: &Step<'_>) -> bool {
    let (attr_type, text) = split(step.given, "=");
    match step.verb {
        "has" => says(step.want, has(rt, alloc, entry, attr_type, text)),
        "has-text" => says(step.want, has_text(rt, alloc, entry, attr_type, text)),
        _ => match view_of(rt, alloc, entry, attr_type) {
            Some(attribute) => view_answers(rt, alloc, &attribute, step),
            None => step.want == "none",
        },
    }
}

fn has(rt: &impl Abort, alloc: Global, entry: &Entry, attr_type: &str, text: &str) -> bool {
    let description = description(rt, alloc, attr_type);
    entry.has(description.key(), &value(rt, alloc, attr_type, text))
}

fn has_text(rt: &impl Abort, alloc: Global, entry: &Entry, attr_type: &str, text: &str) -> bool {
    entry.has_text(description(rt, alloc, attr_type).key(), text.as_bytes())
}

/// Whether an entry's attributes are so spelled, in order.
fn are_spelled(entry: &Entry, want: &str) -> bool {
    let mut pieces = pieces(want);
    for (_, attribute) in entry.attributes() {
        if !is_next(&mut pieces, attribute.description().spelling()) {
            return false;
        }
    }
    pieces.is_none()
}

/// The entry with the attributes of a part, which leave its name.
pub(crate) fn changed(rt: &impl Abort, alloc: Global, entry: &Entry, part: &str) -> Entry {
    let attributes = with_part(rt, alloc, entry, part).expect(rt, "a small entry");
    let changed = entry.with_attributes(alloc, attributes);
    let changed = changed.expect(rt, "memory");
    check(rt, changed.own() == entry.own(), "its own name");
    check(rt, changed.key() == entry.key(), "its key");
    changed
}

/// The notes 199 to 0, of one byte each, of which the first is spelled `NOTE`.
fn notes(rt: &impl Abort, alloc: Global) -> Lines {
    let mut items = Vec::new(alloc);
    for n in 0..200u8 {
        items.push(note(rt, alloc, n)).expect(rt, "memory");
    }
    Lines::new(items)
}

fn note(rt: &impl Abort, alloc: Global, n: u8) -> (Description, Bytes) {
    let description = description(rt, alloc, if n == 0 { "NOTE" } else { "note" });
    let value = Bytes::copy_of(alloc, &[199u8.saturating_sub(n)]);
    (description, value.expect(rt, "memory"))
}

/// The values are the bytes from 0 to 199.
#[test]
fn many_lines_make_the_entry_that_few_would(rt: HostRuntime) {
    let step = step_of("notes -> yes");
    let answers = last_answers(&rt, rt.alloc(), noted(&rt, rt.alloc()), &step);
    check(&rt, answers, "notes");
}

/// The entry with these notes.
fn noted(rt: &impl Abort, alloc: Global) -> Entry {
    let own = name(rt, alloc, "cn=Kim").into_rdns();
    let entry = Entry::make(alloc, &schema(rt, alloc), own, notes(rt, alloc));
    entry.expect(rt, "an entry")
}

fn has_notes(rt: &impl Abort, alloc: Global, entry: &Entry) -> bool {
    match view_of(rt, alloc, entry, "note") {
        Some(notes) => are_notes(&notes),
        None => false,
    }
}

/// Whether these are the notes 0 to 199, in this order.
fn are_notes(notes: &AttributeView<'_>) -> bool {
    let mut at = 0u8;
    for (_, bytes) in notes.values() {
        if bytes != [at].as_slice() {
            return false;
        }
        at = at.wrapping_add(1);
    }
    at == 200 && notes.description().spelling() == b"NOTE".as_slice()
}

/// Texts of entries, and what each is refused for; the last has no name.
static FAULTS: [&str; 5] = [
    "cn=Kim | note= -> made",
    "cn=Kim | uidNumber=1 | uidNumber=2 -> E4 Single",
    "cn=Kim | uidNumber=1 | uidNumber=1 -> E2 Twice",
    "cn=Kim | sn=a | surname=A | uidNumber=007 -> E1 BadValue",
    " -> E3 NotNamed",
];

#[test]
fn faults_of_values_come_in_their_order_and_an_entry_has_a_name(rt: HostRuntime) {
    for row in &FAULTS {
        check(&rt, makes(&rt, rt.alloc(), row), row);
    }
}

/// Whether an add makes the entry of a row, or refuses it for its fault.
fn makes(rt: &impl Abort, alloc: Global, row: &str) -> bool {
    let (text, want) = split(row, " -> ");
    is_made(rt, alloc, make(rt, alloc, text, false), text, want)
}
