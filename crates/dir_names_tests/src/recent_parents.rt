//! Names that were read as values before, and their parents, which are remembered after the first 64 names.

use crate::make::{attr_key, check, repeated, schema};
use dir_names::{AttrKey, Dn, DnKey, DnSortKey, NameFault, RecentNames, Schema};
use std::alloc::Global;
use std::process::Abort;

/// Values that are read one after the other: names, and texts that are none or have no keys. Most end in the text of
/// the parent of one before.
static IN_TURN: [&str; 34] = [
    "uid=a,ou=x,dc=com",
    "uid=b,ou=x,dc=com",
    "uid=a,ou=x,dc=com",
    "UID=C  d,ou=x,dc=com",
    "uid=c\\,d,ou=x,dc=com",
    "cn=e\\,ou=x,dc=com",
    "cn=e\\\\,ou=x,dc=com",
    "cn=f\\2C,ou=x,dc=com",
    "cn=g+sn=h,ou=x,dc=com",
    "sn=h+cn=g,ou=x,dc=com",
    "cn=i,cn=j,ou=x,dc=com",
    "cn=i,you=x,dc=com",
    "cn=k, ou=x,dc=com",
    " cn = k ,ou=x,dc=com",
    "cn=l,OU=X,DC=COM",
    "cn=m,OU=X,DC=COM",
    "cn=n,ou=x1,dc=com",
    "cn=n,ou=x2,dc=com",
    "dc=com",
    "ou=x,dc=com",
    "dc=net",
    "ou=y,dc=com",
    "",
    ",ou=x,dc=com",
    ",dc=com",
    "cn,dc=com",
    "cn=,dc=com",
    "cn=o,,dc=com",
    "cn=o,dc=com,",
    "dn=o,dc=com",
    "member=o,dc=com",
    "cn=o+commonName=p,dc=com",
    "commonName=q,dc=com",
    "cn=\u{e4} \u{fb01},dc=com",
];

/// Leaves, spelled as they are printed and otherwise, and texts that are none or have no keys. After the first two their
/// parent is remembered, if it may be.
static LEAVES: [&str; 36] = [
    "cn=one",
    "cn=two",
    "cn=a",
    "CN=A",
    "commonName=b",
    "2.5.4.3=c",
    "0.9.2342.19200300.100.1.1=d",
    "x-y=Z",
    "l=e  f",
    "l=e f",
    "l= e",
    "l=e ",
    " l = e ",
    "cn=M\\C3\\BCller",
    "cn=\u{e4} \u{fb01}",
    "cn=g\\",
    "cn=g\\\\",
    "cn=g\\,cn=h",
    "cn=g\\2C",
    "cn=g\\=h",
    "cn=g=h",
    "cn=#616263",
    "cn=\"g\"",
    "cn=g+sn=h",
    "sn=h+cn=g",
    "cn=g+commonName=h",
    "mail=I@J",
    "telephoneNumber=+1 2-3",
    "uidNumber=01",
    "userPassword=",
    "member=k",
    "dn=k",
    "cn;lang-en=k",
    "cn=",
    "cn",
    "",
];

/// What follows the leaf of a name: parents of many spellings, and texts that are none.
static PARENTS: [&str; 14] = [
    "",
    ",",
    ",dc=com",
    ",ou=x,dc=com",
    ",OU=X,DC=COM",
    ",organizationalUnitName=x,domainComponent=com",
    ",2.5.4.11=x,0.9.2342.19200300.100.1.25=com",
    ", ou = x , dc=com",
    ",ou=y\\,z,dc=com",
    ",ou=y\\\\,dc=com",
    ",ou=y\\C3\\BC,dc=com",
    ",ou=y+l=z,dc=com",
    ",ou=,dc=com",
    ",ou=x,dc=com,",
];

/// Parents whose hashes have one slot.
static OF_ONE_SLOT: [&str; 3] = [",ou=x2,dc=com", ",ou=x227,dc=com", ",ou=x525,dc=com"];

/// The number of names that are read before parents are remembered, and a few more.
pub(crate) const FIRST_NAMES: usize = 70;

/// Two plain children, after which their parent is remembered if it may be.
static CHILDREN: [&str; 2] = ["cn=one,ou=x,dc=com", "cn=two,ou=x,dc=com"];

/// Names after so many others.
pub(crate) fn names_after(rt: &impl Abort, alloc: Global, count: usize) -> RecentNames {
    let schema = schema(rt, alloc);
    let mut names = RecentNames::new();
    for number in 0..count {
        assert_repeated(
            rt,
            alloc,
            &schema,
            &mut names,
            ("cn=", "a", number + 1, ",o=first"),
        );
    }
    names
}

/// A value: a text, a second one so many times and a last one.
type Value = (&'static str, &'static str, usize, &'static str);

/// Values that are read one after the other.
trait Values {
    /// The value at a place, which may go by a number that looks like chance.
    fn value(at: usize, chance: u64) -> Value;
}

/// What values are read by, and what remembers them.
#[derive(Drop)]
pub(crate) struct Reading {
    pub(crate) schema: Schema,
    pub(crate) names: RecentNames,
}

/// Reading after so many names.
pub(crate) fn reading_after(rt: &impl Abort, alloc: Global, count: usize) -> Reading {
    Reading {
        schema: schema(rt, alloc),
        names: names_after(rt, alloc, count),
    }
}

/// Asserts that each value has the key that it has where nothing was read before. A schema is made anew for each so many
/// of them, or there is one for all.
fn assert_all<V: Values>(
    rt: &impl Abort,
    alloc: Global,
    mut reading: Reading,
    count: usize,
    for_each: usize,
) {
    let mut chance = 1u64;
    for at in 0..count {
        chance = chance
            .wrapping_mul(6_364_136_223_846_793_005)
            .wrapping_add(1);
        if at.checked_rem(for_each) == Some(0) {
            reading.schema = schema(rt, alloc);
        }
        assert_repeated(
            rt,
            alloc,
            &reading.schema,
            &mut reading.names,
            V::value(at, chance),
        );
    }
    drop(reading);
}

fn assert_repeated(
    rt: &impl Abort,
    alloc: Global,
    schema: &Schema,
    names: &mut RecentNames,
    value: Value,
) {
    let value = repeated(rt, alloc, value.0, value.1, value.2, value.3);
    assert_same(rt, alloc, schema, names, value.as_slice());
}

/// Asserts that a value has the key that it has where nothing was read before, which is that of the name that it
/// spells, or none.
pub(crate) fn assert_same(
    rt: &impl Abort,
    alloc: Global,
    schema: &Schema,
    names: &mut RecentNames,
    value: &[u8],
) {
    let got = names.read(alloc, schema, value);
    assert_found(rt, alloc, schema, got, value);
}

/// Asserts that this is what was found for a value.
pub(crate) fn assert_found(
    rt: &impl Abort,
    alloc: Global,
    schema: &Schema,
    got: Result<DnSortKey, NameFault>,
    value: &[u8],
) {
    let is_read = got == DnSortKey::read(alloc, schema, value);
    check_value(rt, is_read, value);
    check_value(rt, is_same(got, whole_key(alloc, schema, value)), value);
}

fn check_value(rt: &impl Abort, holds: bool, value: &[u8]) {
    assert!(rt; holds, "{value:?}");
}

/// Whether both are keys of one name, or neither is a key.
fn is_same(got: Result<DnSortKey, NameFault>, want: Result<DnKey, NameFault>) -> bool {
    match (got, want) {
        (Ok(got), Ok(want)) => got.is_same(&want),
        (Err(got), Err(_)) => got == NameFault::BadValue,
        _ => false,
    }
}

fn whole_key(alloc: Global, schema: &Schema, value: &[u8]) -> Result<DnKey, NameFault> {
    Dn::read(alloc, value)?.key(alloc, schema)
}

#[test]
fn names_are_read_in_turn(rt: HostRuntime) {
    assert_all::<InTurn>(
        &rt,
        rt.alloc(),
        reading_after(&rt, rt.alloc(), FIRST_NAMES),
        34,
        1,
    );
    assert_all::<Backwards>(
        &rt,
        rt.alloc(),
        reading_after(&rt, rt.alloc(), FIRST_NAMES),
        34,
        1,
    );
    assert_all::<Below>(
        &rt,
        rt.alloc(),
        reading_after(&rt, rt.alloc(), FIRST_NAMES),
        3 * 34,
        3,
    );
}

struct InTurn;

impl Values for InTurn {
    fn value(at: usize, _chance: u64) -> Value {
        (IN_TURN[at % IN_TURN.len()], "", 0, "")
    }
}

struct Backwards;

impl Values for Backwards {
    fn value(at: usize, _chance: u64) -> Value {
        (IN_TURN[33 - at % IN_TURN.len()], "", 0, "")
    }
}

/// Each after the two children of one parent.
struct Below;

impl Values for Below {
    fn value(at: usize, _chance: u64) -> Value {
        let value = match at % 3 {
            0 => CHILDREN[0],
            1 => CHILDREN[1],
            _ => IN_TURN[at / 3 % IN_TURN.len()],
        };
        (value, "", 0, "")
    }
}

/// A name has at most 64 RDNs below each parent.
static MANY_RDNS: [Value; 14] = [
    ("cn=a", ",l=b", 62, ""),
    ("cn=a", ",l=b", 63, ""),
    ("cn=b", ",l=b", 62, ""),
    ("cn=b", ",l=b", 63, ""),
    ("cn=c,cn=d", ",l=b", 62, ""),
    ("cn=c,cn=d", ",l=b", 63, ""),
    ("cn=e", ",l=b", 62, ""),
    ("cn=e", ",l=b", 63, ""),
    ("cn=a", ",l=b", 63, ""),
    ("cn=a", ",l=b", 64, ""),
    ("cn=a", ",l=b", 64, ""),
    ("cn=b", ",l=b", 63, ""),
    ("cn=b", ",l=b", 64, ""),
    ("cn=b", ",l=b", 64, ""),
];

/// A leaf has at most 4,096 bytes below a parent.
static LONG_LEAVES: [Value; 4] = [
    ("cn=", "a", 1, ",dc=com"),
    ("cn=", "a", 4093, ",dc=com"),
    ("cn=", "a", 4094, ",dc=com"),
    ("cn=", "a", 1, ",dc=com"),
];

/// The text of a parent that is remembered has at most 256 bytes.
static LONG_PARENTS: [Value; 8] = [
    ("cn=a,o=", "x", 253, ""),
    ("cn=b,o=", "x", 253, ""),
    ("cn=a,o=", "x", 254, ""),
    ("cn=b,o=", "x", 254, ""),
    ("cn=a,o=", "x", 253, ""),
    ("cn=b,o=", "x", 253, ""),
    ("cn=a,o=", "x", 254, ""),
    ("cn=b,o=", "x", 254, ""),
];

#[test]
fn long_values_have_the_same_keys_below_a_parent(rt: HostRuntime) {
    assert_all::<ManyRdns>(
        &rt,
        rt.alloc(),
        reading_after(&rt, rt.alloc(), FIRST_NAMES),
        14,
        0,
    );
    assert_all::<LongLeaves>(
        &rt,
        rt.alloc(),
        reading_after(&rt, rt.alloc(), FIRST_NAMES),
        4,
        0,
    );
    assert_all::<LongParents>(
        &rt,
        rt.alloc(),
        reading_after(&rt, rt.alloc(), FIRST_NAMES),
        8,
        0,
    );
}

struct ManyRdns;

impl Values for ManyRdns {
    fn value(at: usize, _chance: u64) -> Value {
        MANY_RDNS[at % MANY_RDNS.len()]
    }
}

struct LongLeaves;

impl Values for LongLeaves {
    fn value(at: usize, _chance: u64) -> Value {
        LONG_LEAVES[at % LONG_LEAVES.len()]
    }
}

struct LongParents;

impl Values for LongParents {
    fn value(at: usize, _chance: u64) -> Value {
        LONG_PARENTS[at % LONG_PARENTS.len()]
    }
}

/// Each leaf below each parent, which is remembered by then if it may be.
#[test]
fn a_leaf_has_the_same_key_below_a_parent_that_is_remembered(rt: HostRuntime) {
    assert_all::<LeafBelow>(
        &rt,
        rt.alloc(),
        reading_after(&rt, rt.alloc(), FIRST_NAMES),
        14 * 36,
        0,
    );
}

struct LeafBelow;

impl Values for LeafBelow {
    fn value(at: usize, _chance: u64) -> Value {
        let above = PARENTS[at / LEAVES.len() % PARENTS.len()];
        (LEAVES[at % LEAVES.len()], above, 1, "")
    }
}

/// Leaves and parents in an order that looks like chance.
#[test]
fn leaves_and_parents_in_no_order_have_the_same_keys(rt: HostRuntime) {
    assert_all::<InNoOrder>(
        &rt,
        rt.alloc(),
        reading_after(&rt, rt.alloc(), FIRST_NAMES),
        5000,
        0,
    );
}

struct InNoOrder;

impl Values for InNoOrder {
    fn value(_at: usize, chance: u64) -> Value {
        let leaf = LEAVES[(chance >> 33) as usize % LEAVES.len()];
        (
            leaf,
            PARENTS[(chance >> 53) as usize % PARENTS.len()],
            1,
            "",
        )
    }
}

/// Each of them comes often enough to take the place of another one.
#[test]
fn parents_of_one_slot_are_told_apart(rt: HostRuntime) {
    assert_all::<OfOneSlot>(
        &rt,
        rt.alloc(),
        reading_after(&rt, rt.alloc(), FIRST_NAMES),
        72,
        0,
    );
}

/// Below each parent in turn a number of leaves: 1, 2, 3, 4, 5 and 9.
struct OfOneSlot;

impl Values for OfOneSlot {
    fn value(at: usize, _chance: u64) -> Value {
        let (parent, count) = match at {
            0..=2 => (at, 1),
            3..=8 => ((at - 3) / 2, (at - 3) % 2 + 1),
            9..=17 => ((at - 9) / 3, (at - 9) % 3 + 1),
            18..=29 => ((at - 18) / 4, (at - 18) % 4 + 1),
            30..=44 => ((at - 30) / 5, (at - 30) % 5 + 1),
            _ => (at.wrapping_sub(45) / 9, at.wrapping_sub(45) % 9 + 1),
        };
        ("cn=", "a", count, OF_ONE_SLOT[parent % OF_ONE_SLOT.len()])
    }
}

/// The last name is remembered whatever its length, the one before it if it has at most 512 bytes.
#[test]
fn long_names_have_their_keys_again(rt: HostRuntime) {
    assert_all::<LongAgain>(
        &rt,
        rt.alloc(),
        reading_after(&rt, rt.alloc(), 0),
        13 * 4,
        0,
    );
}

/// Lengths of leaves, each below four parents.
static LENGTHS: [usize; 13] = [1, 503, 504, 503, 1, 504, 504, 1, 503, 4093, 4093, 1, 4093];

static ENDINGS: [&str; 4] = [",dc=a", ",dc=b", ",dc=a", ",dc=a"];

struct LongAgain;

impl Values for LongAgain {
    fn value(at: usize, _chance: u64) -> Value {
        let length = LENGTHS[at / ENDINGS.len() % LENGTHS.len()];
        ("cn=", "a", length, ENDINGS[at % ENDINGS.len()])
    }
}

#[test]
fn values_of_each_type_have_their_keys(rt: HostRuntime) {
    let mut reading = reading_after(&rt, rt.alloc(), FIRST_NAMES);
    for value in &IN_TURN {
        assert_value_keys(&rt, rt.alloc(), &mut reading, value);
    }
    drop(reading);
}

/// Asserts that a value of these types has the keys that it has where nothing was read before.
fn assert_value_keys(rt: &impl Abort, alloc: Global, reading: &mut Reading, value: &str) {
    let member = attr_key(rt, alloc, &reading.schema, "member");
    assert_value_key(rt, alloc, reading, &member, value);
    let cn = attr_key(rt, alloc, &reading.schema, "cn");
    assert_value_key(rt, alloc, reading, &cn, value);
}

fn assert_value_key(
    rt: &impl Abort,
    alloc: Global,
    reading: &mut Reading,
    attr: &AttrKey,
    value: &str,
) {
    let schema = &reading.schema;
    let names = &mut reading.names;
    let got = names.value_key(alloc, schema, attr, value.as_bytes());
    let is_same = got == schema.value_key(alloc, attr, value.as_bytes());
    check(rt, is_same, value);
}
