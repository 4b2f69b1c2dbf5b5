//! Keys of values by the rules of their types, and the pieces of substring assertions.

use crate::make::{Case, attr_key, check, each, fields, is_text, name_key, value_key};
use dir_names::{AttrKey, DnKey, DnSortKey, NameFault, PiecePlace, PushedKey, RecentNames, Schema};
use std::alloc::Global;
use std::process::Abort;

/// Types and values, with the texts of the values' keys after `=`. The first is the example of the crate's README.
static KEYS: [&str; 16] = [
    "CommonName;lang-en |   A  b  | =a b",
    "cn |   A  b  | =a b",
    "cn | Stra\u{df}e | =strasse",
    "cn |   | =",
    "cn |     | =",
    "cn |  LEE | =lee",
    "cn | Lee  | =lee",
    "cn | Ann   Lee | =ann lee",
    "cn |   A BC  D  | =a bc d",
    "mail |   A@Org  | =a@org",
    "mail |    | =",
    "telephoneNumber | +1 555-01 | =+155501",
    "uidNumber | -7 | =-7",
    "cn | \u{ff21}\u{fb01} | =afi",
    "homeDirectory | /home/A | =/home/A",
    "objectClass | inetOrgPerson | =inetorgperson",
];

/// Vectors of Unicode's CaseFolding and of UAX 15.
static FOLDED: [&str; 14] = [
    "cn | \u{1e9e} | =ss",
    "cn | \u{130} | =i\u{307}",
    "cn | \u{fb03} | =ffi",
    "cn | \u{fb05} | =st",
    "cn | \u{ff35}\u{ff34}\u{ff26} | =utf",
    "cn | \u{3a3}\u{391}\u{3c2} | =\u{3c3}\u{3b1}\u{3c3}",
    "cn | \u{390} | =\u{390}",
    "cn | E\u{301} | =\u{e9}",
    "cn | \u{212b} | =\u{e5}",
    "cn | \u{212a} | =k",
    "cn | \u{2102} | =C",
    "cn | \u{1d2c} | =A",
    "cn | \u{a0}x\u{a0} | =x",
    "cn | \u{2461} | =2",
];

#[test]
fn values_have_keys_by_the_rule_of_their_type(rt: HostRuntime) {
    each::<HasKey>(&rt, rt.alloc(), &KEYS);
}

#[test]
fn values_are_folded_and_normalised(rt: HostRuntime) {
    each::<HasKey>(&rt, rt.alloc(), &FOLDED);
}

struct HasKey;

impl Case for HasKey {
    fn holds(rt: &impl Abort, alloc: Global, schema: &Schema, row: &str) -> bool {
        let [attr_type, value, want, ..] = fields(row);
        !want.is_empty()
            && is_text(
                value_key(rt, alloc, schema, attr_type, value.as_bytes()).text(),
                want,
            )
    }
}

#[test]
fn pushed_keys_are_those_of_the_values(rt: HostRuntime) {
    each::<IsPushed>(&rt, rt.alloc(), &KEYS);
}

#[test]
fn a_pushed_key_follows_the_text_before_it(rt: HostRuntime) {
    each::<IsPushed>(&rt, rt.alloc(), &["cn |  A  B  | =a b |  X "]);
}

/// The key of a value is pushed after a text, also where names are remembered.
struct IsPushed;

impl Case for IsPushed {
    fn holds(rt: &impl Abort, alloc: Global, schema: &Schema, row: &str) -> bool {
        let [attr_type, ..] = fields(row);
        let attr = attr_key(rt, alloc, schema, attr_type);
        check(rt, pushes(rt, alloc, schema, &attr, row), row);
        pushes_among_names(rt, alloc, schema, &attr, row)
    }
}

fn pushes(rt: &impl Abort, alloc: Global, schema: &Schema, attr: &AttrKey, row: &str) -> bool {
    let [_, value, _, before, ..] = fields(row);
    let mut text = before.as_bytes().to_vec(alloc).expect(rt, "memory");
    let pushed = schema.push_value_key(alloc, attr, value.as_bytes(), &mut text);
    has_pushed(&pushed, text.as_slice(), row)
}

/// The same where names are remembered.
fn pushes_among_names(
    rt: &impl Abort,
    alloc: Global,
    schema: &Schema,
    attr: &AttrKey,
    row: &str,
) -> bool {
    let [_, value, _, before, ..] = fields(row);
    let mut text = before.as_bytes().to_vec(alloc).expect(rt, "memory");
    let mut names = RecentNames::new();
    let pushed = names.push_value_key(alloc, schema, attr, value.as_bytes(), &mut text);
    drop(names);
    has_pushed(&pushed, text.as_slice(), row)
}

/// Whether the key of a value is in its place, and the one of the row.
fn has_pushed(pushed: &Result<PushedKey, NameFault>, text: &[u8], row: &str) -> bool {
    let [_, value, want, before, ..] = fields(row);
    let is_same = is_text(Some(value.as_bytes()), want);
    match pushed {
        Ok(PushedKey::Same) => is_same && text == before.as_bytes(),
        Ok(PushedKey::Appended) => {
            !is_same && !want.is_empty() && is_text(text.strip_prefix(before.as_bytes()), want)
        }
        _ => false,
    }
}

/// Types, and texts that are no values of them. No text is of the encoding where `cut` says that its first byte is taken.
static NO_VALUES: [&str; 4] = [
    "cn | ",
    "uidNumber | 007",
    "uidNumber | -0",
    "dc | \u{eb} | cut",
];

#[test]
fn what_is_no_value_of_its_type_has_no_key(rt: HostRuntime) {
    each::<HasNoKey>(&rt, rt.alloc(), &NO_VALUES);
}

struct HasNoKey;

impl Case for HasNoKey {
    fn holds(rt: &impl Abort, alloc: Global, schema: &Schema, row: &str) -> bool {
        let [attr_type, value, cut, ..] = fields(row);
        let key = schema.value_key(
            alloc,
            &attr_key(rt, alloc, schema, attr_type),
            bytes(value, cut),
        );
        key.err() == Some(NameFault::BadValue)
    }
}

/// The bytes of a text, or the first of them.
fn bytes<'t>(text: &'t str, cut: &str) -> &'t [u8] {
    match text.as_bytes().split_at_checked(1) {
        Some((first, _)) if cut == "cut" => first,
        _ => text.as_bytes(),
    }
}

/// Values that are names, each with the same name.
static MEMBERS: [&str; 2] = ["CN=K, DC=Com | cn=k,dc=com", " | "];

#[test]
fn a_name_as_a_value_has_the_key_of_the_name(rt: HostRuntime) {
    each::<IsMember>(&rt, rt.alloc(), &MEMBERS);
}

struct IsMember;

impl Case for IsMember {
    fn holds(rt: &impl Abort, alloc: Global, schema: &Schema, row: &str) -> bool {
        let [value, want, ..] = fields(row);
        let key = value_key(rt, alloc, schema, "member", value.as_bytes());
        is_key_of(key.name(), &name_key(rt, alloc, schema, want))
    }
}

/// Whether there is a key, that of a name.
fn is_key_of(key: Option<&DnSortKey>, name: &DnKey) -> bool {
    match key {
        Some(key) => key.is_same(name) && key.cmp_key(name).is_eq(),
        None => false,
    }
}

/// Pieces of substring assertions: the type, the place, the text, and the text of the key after `=`. A piece keeps one
/// space where a value has some within. Numbers and texts in another encoding have no keys.
static PIECES: [&str; 8] = [
    "cn | first |   Foo  b  | =foo b ",
    "cn | last |   Foo  b  | = foo b",
    "cn | middle |   Foo  b  | = foo b ",
    "telephoneNumber | first | +1 555- | =+1555",
    "homeDirectory | last | /A | =/A",
    "mail | last | @A.Org | =@a.org",
    "uidNumber | first |   Foo  b  | ",
    "mail | last | \u{eb} |  | cut",
];

#[test]
fn pieces_are_folded_and_keep_the_spaces_that_count_in_their_place(rt: HostRuntime) {
    each::<IsPiece>(&rt, rt.alloc(), &PIECES);
}

struct IsPiece;

impl Case for IsPiece {
    fn holds(rt: &impl Abort, alloc: Global, schema: &Schema, row: &str) -> bool {
        let [attr_type, place, text, want, cut] = fields(row);
        let key = schema.piece_key(
            alloc,
            &attr_key(rt, alloc, schema, attr_type),
            place_of(place),
            bytes(text, cut),
        );
        has_text(&key.expect(rt, "memory"), want)
    }
}

fn has_text(key: &Option<Vec<u8>>, want: &str) -> bool {
    match key {
        Some(key) => is_text(Some(key.as_slice()), want),
        None => want.is_empty(),
    }
}

fn place_of(text: &str) -> PiecePlace {
    match text {
        "first" => PiecePlace::First,
        "last" => PiecePlace::Last,
        _ => PiecePlace::Middle,
    }
}
