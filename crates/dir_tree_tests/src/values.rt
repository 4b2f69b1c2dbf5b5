//! What scripts do with a map of values and ask of it.

use crate::make::{bytes, check, is_fault, keyed};
use crate::maps::Maps;
use crate::script::{Step, counts, is_next, numbered, pieces, says, split};
use dir_names::{Bytes, Schema, ValueKey};
use dir_tree::{ValueMap, Values};
use std::alloc::Global;
use std::process::Abort;

/// Whether a step has the answer that is wanted.
pub(crate) fn values_answer(
    rt: &impl Abort,
    alloc: Global,
    maps: &mut Maps,
    step: &Step<'_>,
) -> bool {
    match step.verb {
        "length" => counts(rt, alloc, step.want, maps.values.len()),
        "empty" => says(step.want, maps.values.is_empty()),
        "all" => are_all_of_copy(rt, alloc, &maps.values, step.want),
        "numbers" => counts(rt, alloc, step.want, numbers(rt, alloc, &maps.values)),
        "numbers-of-copy" => counts(rt, alloc, step.want, numbers(rt, alloc, &maps.values_copy)),
        "insert" => is_inserted(rt, alloc, &maps.schema, &mut maps.values, step),
        _ => value_answers(rt, alloc, maps, step),
    }
}

fn value_answers(rt: &impl Abort, alloc: Global, maps: &mut Maps, step: &Step<'_>) -> bool {
    let (text, new) = split(step.given, "=");
    let key = keyed(rt, alloc, &maps.schema, "sn", text);
    key_answers(rt, alloc, &mut maps.values, &key, step, new)
}

/// Whether a step with the value of a key has the answer that is wanted.
fn key_answers(
    rt: &impl Abort,
    alloc: Global,
    values: &mut ValueMap,
    key: &ValueKey,
    step: &Step<'_>,
    new: &str,
) -> bool {
    match step.verb {
        "set" => {
            values.set(key, bytes(rt, alloc, new));
            step.want.is_empty()
        }
        "remove" => is_removed(alloc, values, key, step.want),
        "has" => says(step.want, values.contains_key(key)),
        "get" => is_told(values.get(key), step.want),
        _ => false,
    }
}

/// Whether the value of a text is put in with this answer.
fn is_inserted(
    rt: &impl Abort,
    alloc: Global,
    schema: &Schema,
    values: &mut ValueMap,
    step: &Step<'_>,
) -> bool {
    let key = keyed(rt, alloc, schema, "sn", step.given);
    match values.insert(alloc, key, bytes(rt, alloc, step.given)) {
        Ok(()) => step.want.is_empty(),
        Err(fault) => is_fault(rt, alloc, fault, step.want),
    }
}

/// Whether these bytes, if any, are removed.
fn is_removed(alloc: Global, values: &mut ValueMap, key: &ValueKey, want: &str) -> bool {
    match values.remove(alloc, key) {
        Some(bytes) => bytes.as_slice() == want.as_bytes(),
        None => want == "none",
    }
}

/// Whether these bytes, if any, are the answer that is wanted.
fn is_told(bytes: Option<&Bytes>, want: &str) -> bool {
    match bytes {
        Some(bytes) => bytes.as_slice() == want.as_bytes(),
        None => want == "none",
    }
}

/// Whether a copy has these values, in order of their keys.
fn are_all_of_copy(rt: &impl Abort, alloc: Global, values: &ValueMap, want: &str) -> bool {
    were_all(values.try_clone(alloc).expect(rt, "memory"), want)
}

/// Whether these are all values of a map that is needed no more, in order of their keys.
pub(crate) fn were_all(values: ValueMap, want: &str) -> bool {
    are_all(values.iter(), want)
}

/// Whether these are all values, in order of their keys.
pub(crate) fn are_all(values: Values<'_>, want: &str) -> bool {
    let mut pieces = pieces(want);
    for (_, bytes) in values {
        if !is_next(&mut pieces, bytes.as_slice()) {
            return false;
        }
    }
    pieces.is_none()
}

/// How many values there are. They must be those of the first numbers, in order.
fn numbers(rt: &impl Abort, alloc: Global, values: &ValueMap) -> usize {
    let mut number = 0usize;
    for (_, bytes) in values.iter() {
        check(rt, is_number(rt, alloc, bytes, number), "a number in order");
        number = number.wrapping_add(1);
    }
    check(rt, number == values.len(), "as many as are listed");
    number
}

/// Whether these are the bytes of the value with a number.
fn is_number(rt: &impl Abort, alloc: Global, bytes: &Bytes, number: usize) -> bool {
    bytes.as_slice() == numbered(rt, alloc, "#", number).as_bytes()
}
