//! The map of values and that of attributes, short and long. A long one is kept in pieces: what it has is put in, found,
//! exchanged and removed in orders of its own.
//!
//! A script begins with empty maps; the values of its map of values are those of `sn`. What is found, replaced or removed, or a
//! fault, is the answer. `each STEP FIRST END` takes a step with each of the numbers that a count from FIRST to before END
//! gives, times STEP, by the remainder of `COUNT`: all of them, in no order, if STEP has no divisor in common with that. A
//! number stands for `#`.

use crate::attributes::attributes_answer;
use crate::make::{check, schema};
use crate::script::{Step, begun, number_of, numbered, split, step_of};
use dir_names::Schema;
use dir_tree::{AttributeMap, ValueMap};
use std::alloc::Global;
use std::process::Abort;

/// Values are found by their keys, and put in once.
const FOUND: &str = "
values of sn
insert b
insert A
has B -> yes
get a -> A
get c -> none
insert a -> E2 Twice
length -> 2
all -> A | b
";

/// A value gets other bytes; one that is not there gets none.
const SET: &str = "
values of sn
insert a
set a=A
set b=b
length -> 1
get a -> A
remove a -> A
empty -> yes
";

/// How many values or attributes a long map has. There is one for each number below this, and they come in the order of the
/// numbers.
const COUNT: usize = 5000;

/// Values are listed in order however they are put in: in no order, upwards and downwards.
const LISTED: &str = "
values of sn
each 1237 0 5000: insert #
numbers -> 5000
";

const LISTED_UPWARDS: &str = "
values of sn
each 1 0 5000: insert #
numbers -> 5000
";

const LISTED_DOWNWARDS: &str = "
values of sn
each 4999 1 5001: insert #
numbers -> 5000
";

/// Values of a long list are found, and put in once.
const FOUND_AMONG_MANY: &str = "
values of sn
each 1237 0 5000: insert #
each 3001 0 5000: get # -> #
each 3001 0 5000: insert # -> E2 Twice
get 05000 -> none
numbers -> 5000
length -> 5000
";

/// Values of a long list get other bytes; one that is not there gets none.
const SET_AMONG_MANY: &str = "
values of sn
each 1237 0 5000: insert #
set 05000=new
numbers -> 5000
each 3001 0 5000: set #=new
each 3001 0 5000: get # -> new
length -> 5000
";

/// Values of a long list are removed, a copy keeps its own, and the list takes other values then.
const REMOVED: &str = "
values of sn
each 1237 0 5000: insert #
numbers -> 5000
copy
each 2743 0 4000: remove # -> #
each 2743 0 4000: has # -> no
each 2743 4000 5000: has # -> yes
length -> 1000
each 2743 4000 5000: remove # -> #
empty -> yes
numbers -> 0
numbers-of-copy -> 5000
each 3001 0 5000: insert #
numbers -> 5000
";

/// Values of a long list are found by their texts in the attribute that has them.
const FOUND_BY_TEXTS: &str = "
values of sn
each 1237 0 5000: insert #
numbers -> 5000
put-values sn
each 3001 0 5000: has-text sn=# -> yes
has-text sn=05000 -> no
";

/// Attributes and their values are found by their keys.
const LOOKED_UP: &str = "
attributes of an entry
entry sn=b | SN=b | SN=a
there surname -> yes
there cn -> no
count -> 1
spelled sn -> SN
holds sn=A -> yes
holds sn=b -> yes
holds sn=c -> no
";

/// An attribute gets other values.
const OTHER_VALUES: &str = "
attributes
put sn=a
there sn -> yes
replace-values sn=b -> a
holds sn=b -> yes
has-text sn=b -> yes
exceeds-single -> no
";

/// An attribute takes the place of another.
const OTHER_ATTRIBUTE: &str = "
attributes
put sn=a
there SN -> yes
replace SN=b -> sn | a
spelled sn -> SN
";

/// Attributes are put in in no order, and listed in order; each is found, and no other. They have no values.
const MANY: &str = "
attributes
each 1237 0 5000: put cn;lang-a#
in-order -> 5000
each 3001 0 5000: there cn;lang-a# -> yes
there cn;lang-a05000 -> no
";

/// The same upwards.
const MANY_UPWARDS: &str = "
attributes
each 1 0 5000: put cn;lang-a#
in-order -> 5000
each 3001 0 5000: there cn;lang-a# -> yes
there cn;lang-a05000 -> no
";

/// The same downwards.
const MANY_DOWNWARDS: &str = "
attributes
each 4999 0 5000: put cn;lang-a#
in-order -> 5000
each 3001 0 5000: there cn;lang-a# -> yes
there cn;lang-a05000 -> no
";

/// An attribute takes the place of another, and gets other values; a copy keeps its own.
const MANY_EXCHANGED: &str = "
attributes
each 1237 0 5000: put cn;lang-a#
copy
each 3001 0 5000: replace CN;lang-a# -> cn;lang-a#
each 1237 0 5000: replace-values cn;lang-a#=a
in-order -> 5000
all-filled CN -> yes
all-empty-of-copy cn -> yes
";

/// Attributes are taken out, and others are put in between.
const MANY_TAKEN: &str = "
attributes
each 1237 0 5000: put cn;lang-a#
each 3001 0 2500: take cn;lang-a# -> yes
count -> 2500
each 3001 0 2500: put cn;lang-a#
in-order -> 5000
each 1237 0 5000: take cn;lang-a# -> yes
count -> 0
";

static VALUES: [&str; 2] = [FOUND, SET];

static LISTED_VALUES: [&str; 4] = [LISTED, LISTED_UPWARDS, LISTED_DOWNWARDS, FOUND_AMONG_MANY];

static CHANGED_VALUES: [&str; 3] = [SET_AMONG_MANY, REMOVED, FOUND_BY_TEXTS];

static ATTRIBUTES: [&str; 3] = [LOOKED_UP, OTHER_VALUES, OTHER_ATTRIBUTE];

static MANY_ATTRIBUTES: [&str; 3] = [MANY, MANY_UPWARDS, MANY_DOWNWARDS];

#[test]
fn values_are_found_put_in_once_and_get_other_bytes(rt: HostRuntime) {
    run_all(&rt, rt.alloc(), &VALUES);
}

#[test]
fn values_of_a_long_list_are_listed_in_order_and_put_in_once(rt: HostRuntime) {
    run_all(&rt, rt.alloc(), &LISTED_VALUES);
}

#[test]
fn values_of_a_long_list_are_changed_removed_and_found_by_their_texts(rt: HostRuntime) {
    run_all(&rt, rt.alloc(), &CHANGED_VALUES);
}

#[test]
fn attributes_are_found_and_exchanged_with_their_values(rt: HostRuntime) {
    run_all(&rt, rt.alloc(), &ATTRIBUTES);
}

#[test]
fn many_attributes_are_listed_in_order_and_found(rt: HostRuntime) {
    run_all(&rt, rt.alloc(), &MANY_ATTRIBUTES);
}

#[test]
fn many_attributes_are_exchanged_in_place(rt: HostRuntime) {
    run_all(&rt, rt.alloc(), &[MANY_EXCHANGED]);
}

#[test]
fn many_attributes_are_taken_out(rt: HostRuntime) {
    run_all(&rt, rt.alloc(), &[MANY_TAKEN]);
}

/// What a script is about, and copies of both maps.
#[derive(Drop)]
pub(crate) struct Maps {
    pub(crate) schema: Schema,
    pub(crate) values: ValueMap,
    pub(crate) values_copy: ValueMap,
    pub(crate) attributes: AttributeMap,
    pub(crate) attributes_copy: AttributeMap,
}

fn run_all(rt: &impl Abort, alloc: Global, scripts: &[&str]) {
    for script in scripts {
        run(rt, alloc, empty(rt, alloc), script);
    }
}

fn run(rt: &impl Abort, alloc: Global, mut maps: Maps, script: &str) {
    take_steps(rt, alloc, &mut maps, begun(script).1);
}

fn empty(rt: &impl Abort, alloc: Global) -> Maps {
    Maps {
        schema: schema(rt, alloc),
        values: ValueMap::empty(alloc),
        values_copy: ValueMap::empty(alloc),
        attributes: AttributeMap::empty(alloc),
        attributes_copy: AttributeMap::empty(alloc),
    }
}

/// Takes the steps of a script, and asserts each answer.
fn take_steps(rt: &impl Abort, alloc: Global, maps: &mut Maps, steps: &str) {
    for line in steps.lines() {
        check(rt, line_answers(rt, alloc, maps, line), line);
    }
}

/// Whether the steps of a line have the answers that are wanted.
fn line_answers(rt: &impl Abort, alloc: Global, maps: &mut Maps, line: &str) -> bool {
    let step = step_of(line);
    match step.verb {
        "each" => each_answers(rt, alloc, maps, &step),
        _ => attributes_answer(rt, alloc, maps, &step),
    }
}

/// Whether a step that is taken with numbers has the answers that are wanted.
fn each_answers(rt: &impl Abort, alloc: Global, maps: &mut Maps, step: &Step<'_>) -> bool {
    let (range, each) = split(step.given, ": ");
    let (times, range) = split(range, " ");
    let (first, end) = split(range, " ");
    for i in number_of(rt, first)..number_of(rt, end) {
        let number = i.wrapping_mul(number_of(rt, times)) % COUNT;
        if !number_answers(rt, alloc, maps, each, step.want, number) {
            return false;
        }
    }
    true
}

/// Whether a step that is taken with a number has the answer that is wanted.
fn number_answers(
    rt: &impl Abort,
    alloc: Global,
    maps: &mut Maps,
    asked: &str,
    want: &str,
    number: usize,
) -> bool {
    let (verb, given) = split(asked, " ");
    let given = numbered(rt, alloc, given, number);
    let want = numbered(rt, alloc, want, number);
    let step = Step {
        verb,
        given: given.as_str(),
        want: want.as_str(),
    };
    attributes_answer(rt, alloc, maps, &step)
}
