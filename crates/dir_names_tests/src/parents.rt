//! Names that are read after many others, so that parents that come again are remembered.

use crate::make::{Case, each, fields, number, repeated, shows};
use crate::reading::{Reader, Reads, each_in_turn, used_reader};
use dir_names::{Dn, DnKey, NameFault, NameReader, Schema};
use std::alloc::Global;
use std::process::Abort;

/// Texts of names below parents that come again, by turns, and of some that are no names or have no keys. The
/// parents with `aa` and `tl` have one slot.
static BY_TURNS: [&str; 18] = [
    "cn=a,ou=x,dc=com",
    "cn=b,ou=x,dc=com",
    "cn=b,ou=y,dc=com",
    "cn=c+sn=d,ou=x,dc=com",
    "cn=\\,,ou=x,dc=com",
    "cn=a,ou=aa,dc=com",
    "cn=a,ou=tl,dc=com",
    "cn=a,ou=aa,dc=com",
    "cn=a,ou=tl,dc=com",
    "cn=a,ou=Zo\u{eb},dc=com",
    "cn=a,ou=\u{fdfa},dc=com",
    "cn=a, ou=x,dc=com",
    "cn,ou=x,dc=com",
    "member=a,ou=x,dc=com",
    "cn=a,ou,dc=com",
    "cn=a,member=x,dc=com",
    "cn=a,ou=x,dc=com,",
    "dc=com",
];

/// All by turns, three times, and then by another reader each three times.
#[test]
fn names_below_parents_that_come_again_are_read_as_alone(rt: HostRuntime) {
    each_in_turn::<Once>(&rt, rt.alloc(), &[&BY_TURNS, &BY_TURNS, &BY_TURNS]);
    each_in_turn::<ThreeTimes>(&rt, rt.alloc(), &[&BY_TURNS]);
}

/// A reader answers as `Dn::read` does, with the same key. A row is a text, a second one so many times and a last one.
struct Once;

impl Reads for Once {
    fn holds(rt: &impl Abort, alloc: Global, reader: &mut Reader, row: &str) -> bool {
        let [first, piece, count, last, ..] = fields(row);
        let text = repeated(rt, alloc, first, piece, number(count), last);
        is_as_alone(alloc, &reader.schema, &mut reader.names, text.as_slice())
    }
}

/// It does so three times, one after the other.
struct ThreeTimes;

impl Reads for ThreeTimes {
    fn holds(rt: &impl Abort, alloc: Global, reader: &mut Reader, row: &str) -> bool {
        Once::holds(rt, alloc, reader, row)
            && Once::holds(rt, alloc, reader, row)
            && Once::holds(rt, alloc, reader, row)
    }
}

/// Whether a reader answers as `Dn::read` does, with the same key.
pub(crate) fn is_as_alone(
    alloc: Global,
    schema: &Schema,
    names: &mut NameReader,
    text: &[u8],
) -> bool {
    let found = with_key(alloc, schema, names.read(alloc, schema, text));
    found == with_key(alloc, schema, Dn::read(alloc, text))
}

fn with_key(
    alloc: Global,
    schema: &Schema,
    name: Result<Dn, NameFault>,
) -> Result<(Dn, DnKey), NameFault> {
    let name = name?;
    let has_key = name.has_key(alloc, schema)?;
    let key = name.key(alloc, schema)?;
    if has_key {
        Ok((name, key))
    } else {
        Err(NameFault::Memory)
    }
}

/// Long texts, each a first one, a second one so many times and a last one.
static LONG: [&str; 16] = [
    // A parent that is remembered has at most 256 bytes, and its key is not much longer.
    "cn=a,ou= | x | 253 | ",
    "cn=a,ou= | x | 254 | ",
    "cn=a,ou= | x | 255 | ",
    "cn=a,ou= | \u{fdfa} | 80 | ",
    // It has at most 8 pairs, and a name 64 RDNs.
    "cn=a | ,l=b | 7 | ",
    "cn=a | ,l=b | 8 | ",
    "cn=a | ,l=b | 9 | ",
    "cn=a | ,l=b | 62 | ",
    "cn=a | ,l=b | 63 | ",
    "cn=a | ,l=b | 64 | ",
    // A leaf has at most 4,096 bytes.
    "cn= | a | 4092 | ,dc=com",
    "cn= | a | 4093 | ,dc=com",
    "cn= | a | 4094 | ,dc=com",
    // Of a text of at most 2,048 bytes the parent is sought.
    "cn= | a | 2037 | ,dc=com",
    "cn= | a | 2038 | ,dc=com",
    "cn= | a | 2039 | ,dc=com",
];

#[test]
fn long_texts_are_read_as_alone(rt: HostRuntime) {
    for row in &LONG {
        each_in_turn::<ThreeTimes>(&rt, rt.alloc(), &[&[*row, "cn=a,dc=com", *row]]);
    }
}

/// Names whose parents share a slot: the highest 8 bits of their hashes are the same, or the whole hash is.
static OF_ONE_SLOT: [&str; 2] = [
    "cn=a,ou=aa,dc=com | cn=a,ou=tl,dc=com",
    "cn=a,ou=greenhouses12,dc=com | cn=a,ou=dchaahou26itv,dc=com",
];

/// A parent is read for a slot only after 16 names that are not below the one that is remembered there: the first
/// name is read a few times, the second so many times, and then both by turns.
#[test]
fn a_parent_takes_the_place_of_another(rt: HostRuntime) {
    each::<TakesPlace>(&rt, rt.alloc(), &OF_ONE_SLOT);
}

struct TakesPlace;

impl Case for TakesPlace {
    fn holds(rt: &impl Abort, alloc: Global, _schema: &Schema, row: &str) -> bool {
        let [first, second, ..] = fields(row);
        for times in 15..19 {
            let seconds = [second; 18];
            each_in_turn::<Once>(
                rt,
                alloc,
                &[
                    &[first; 3],
                    &seconds[..times],
                    &[first, second],
                    &[first, second],
                    &[first, second],
                ],
            );
        }
        true
    }
}

/// How the name `l=b,l=b` is shown.
const SHOWN: &str =
    "Dn { rdns: [Rdn { pairs: One((Bytes { items: [108] }, Bytes { items: [98] })) }, Rdn { pairs: One((Bytes { items: [108] }, Bytes { items: [98] })) }] }";

/// Whether its key is kept is not shown.
#[test]
fn a_name_is_shown_by_its_rdns(rt: HostRuntime) {
    each_in_turn::<IsShown>(&rt, rt.alloc(), &[&["l=b,l=b", "l=b,l=b", "l=b,l=b"]]);
}

struct IsShown;

impl Reads for IsShown {
    fn holds(rt: &impl Abort, alloc: Global, reader: &mut Reader, row: &str) -> bool {
        match reader.names.read(alloc, &reader.schema, row.as_bytes()) {
            Ok(name) => shows(rt, format!(in alloc; "{name:?}"), SHOWN),
            Err(_) => false,
        }
    }
}
