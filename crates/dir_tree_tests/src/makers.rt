//! Entries that are made one after the other.
//!
//! A row has the text of an entry, and whether it is made or what it is refused for.

use crate::make::{check, is_made, lines_of, name, schema};
use crate::script::split;
use dir_tree::{Entry, EntryFault, EntryMaker};
use std::alloc::Global;
use std::process::Abort;

/// Entries whose lines are arranged alike, or in another order.
static ARRANGED: [&str; 8] = [
    "cn=a | objectClass=top | objectClass=person | sn=A | cn=a | cn=Anna A | seeAlso=cn=x -> made",
    "cn=b | objectClass=top | objectClass=person | sn=B | cn=b | cn=Bernd B | seeAlso=cn=y -> made",
    "cn=c | objectClass=person | objectClass=top | sn=c | cn=Ξ C | cn=c | seeAlso=CN=Y -> made",
    "cn=d | sn=D | objectClass=top | objectClass=person | cn=d | cn=Dieter D | seeAlso=cn=y -> made",
    "cn=e | objectClass=top | objectClass=person | SN=E | cn=e | cn=Elena E | seeAlso=cn=y -> made",
    "cn=f | objectClass=top | objectClass=person | sn=F | cn=Frank | cn=Frank F | seeAlso=cn=y -> made",
    "cn=g | sn=G -> made",
    "cn=h | objectClass=top | objectClass=person | sn=H | cn=h | cn=Hannes H | seeAlso=cn=x -> made",
];

/// An entry that is arranged as another is refused for its own faults.
static FAULTY: [&str; 4] = [
    "cn=a | cn=a | sn=A | sn=B | title=t -> made",
    "cn=a | cn=a | sn=A | sn=a | title=t -> E2 Twice",
    "cn=a | cn=a | sn=A | sn=B | title= -> E1 BadValue",
    "cn=a | cn=a | sn=A | sn=B | title=t -> made",
];

/// Names that were values before are refused for their own faults.
static NAMES: [&str; 4] = [
    "cn=a | cn=a | seeAlso=cn=x | seeAlso=cn=y -> made",
    "cn=a | cn=a | seeAlso=cn=y | seeAlso=cn=y -> E2 Twice",
    "cn=a | cn=a | seeAlso=cn=x | seeAlso=cn:y -> E1 BadValue",
    "cn=a | cn=a | seeAlso=cn=x | seeAlso=cn=y -> made",
];

#[test]
fn entries_that_are_arranged_alike_have_their_own_lines(rt: HostRuntime) {
    check_rows(&rt, rt.alloc(), &ARRANGED);
}

#[test]
fn entries_of_one_maker_are_refused_for_their_own_faults(rt: HostRuntime) {
    check_rows(&rt, rt.alloc(), &FAULTY);
    check_rows(&rt, rt.alloc(), &NAMES);
}

/// Asserts what one maker makes of the rows.
fn check_rows(rt: &impl Abort, alloc: Global, rows: &[&str]) {
    take_rows(rt, alloc, &mut EntryMaker::new(alloc), rows);
}

fn take_rows(rt: &impl Abort, alloc: Global, maker: &mut EntryMaker, rows: &[&str]) {
    for row in rows {
        check(rt, makes(rt, alloc, maker, row), row);
    }
}

/// Whether a maker makes the entry of a row with its lines, or refuses it for its fault.
fn makes(rt: &impl Abort, alloc: Global, maker: &mut EntryMaker, row: &str) -> bool {
    let (text, want) = split(row, " -> ");
    is_made(rt, alloc, made_of(rt, alloc, maker, text), text, want)
}

fn made_of(
    rt: &impl Abort,
    alloc: Global,
    maker: &mut EntryMaker,
    text: &str,
) -> Result<Entry, EntryFault> {
    let (own, lines) = split(text, " | ");
    let own = name(rt, alloc, own).into_rdns();
    let lines = lines_of(rt, alloc, lines);
    maker.make(alloc, &schema(rt, alloc), own, lines)
}
