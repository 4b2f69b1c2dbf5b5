//! Scripts: what is done with a value under test and what is asked of it, a step in a line; and what is told of it.

use dir_names::{Dn, NameFault, Rdn};
use std::alloc::{AllocError, Global};
use std::process::Abort;

/// A step, as in `height dc=com -> 2`: what is done or asked, of what, and the answer that is wanted, if any.
#[derive(Drop)]
pub(crate) struct Step<'s> {
    pub(crate) verb: &'s str,
    pub(crate) given: &'s str,
    pub(crate) want: &'s str,
}

/// The step of a line.
pub(crate) fn step_of(line: &str) -> Step<'_> {
    let (asked, want) = split(line, " -> ");
    let (verb, given) = split(asked, " ");
    Step { verb, given, want }
}

/// The first line of a script, of which the first word says what it is, and the lines of its steps.
pub(crate) fn begun(script: &str) -> (&str, &str) {
    let (first, steps) = split(script.trim(), "\n");
    (split(first, " ").1, steps)
}

/// What is before a mark in a text, and what is after it.
pub(crate) fn split<'t>(text: &'t str, mark: &str) -> (&'t str, &'t str) {
    text.split_once(mark).unwrap_or((text, ""))
}

pub(crate) fn number_of(rt: &impl Abort, text: &str) -> usize {
    text.parse::<usize>().expect(rt, "a number")
}

/// A text with a number in the place of `#`.
pub(crate) fn numbered(rt: &impl Abort, alloc: Global, text: &str, number: usize) -> String {
    let text = match text.split_once("#") {
        Some((before, after)) => format!(in alloc; "{before}{number:05}{after}"),
        None => String::from_str(alloc, text),
    };
    text.expect(rt, "memory")
}

/// Whether the answer that is wanted says so.
pub(crate) fn says(want: &str, holds: bool) -> bool {
    want == (if holds { "yes" } else { "no" })
}

/// Whether this number is the answer that is wanted.
pub(crate) fn counts(rt: &impl Abort, alloc: Global, want: &str, count: usize) -> bool {
    is_shown(rt, format!(in alloc; "{count}"), want)
}

/// Whether a value is shown by this text. A text that goes straight on to here makes the proof of a function short.
pub(crate) fn is_shown(rt: &impl Abort, shown: Result<String, AllocError>, want: &str) -> bool {
    shown.expect(rt, "memory").as_str() == want
}

/// Whether a name is the answer that is wanted.
pub(crate) fn names(rt: &impl Abort, alloc: Global, want: &str, name: &Dn) -> bool {
    is_printed(rt, name.print(alloc), want)
}

/// Whether an own name of one RDN is the answer that is wanted.
pub(crate) fn names_own(rt: &impl Abort, alloc: Global, want: &str, own: &[Rdn]) -> bool {
    match own {
        [rdn] => is_printed(rt, rdn.print(alloc), want),
        _ => false,
    }
}

fn is_printed(rt: &impl Abort, printed: Result<Vec<u8>, NameFault>, want: &str) -> bool {
    printed.expect(rt, "memory").as_slice() == want.as_bytes()
}

/// The pieces of an answer, as in `A | b`, from which `is_next` takes one after the other; none once all are taken.
pub(crate) fn pieces(want: &str) -> Option<&str> {
    if want.is_empty() { None } else { Some(want) }
}

/// Takes the next piece of an answer, if there is one. Whether it is this one.
pub(crate) fn is_next<'w>(pieces: &mut Option<&'w str>, piece: &[u8]) -> bool {
    let Some(text) = *pieces else {
        return false;
    };
    let (next, rest) = match text.split_once(" | ") {
        Some((next, rest)) => (next, Some(rest)),
        None => (text, None),
    };
    *pieces = rest;
    next.as_bytes() == piece
}
