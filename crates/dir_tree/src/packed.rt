//! The attributes of an entry in little memory: the texts of all values in one, and where in it each of them is.

ghost use Rattle.std.specs.Prelude.{◌≡◌, ◌-◌, ◌<◌, ℕ, List, [], IfSome, IsTrue, drop, get_or, length, map};
ghost use Rattle.dir_names.specs.declared.value.ValueKey.{ValueKey};
ghost use Rattle.std.specs.FinMap as fin;
ghost use Rattle.std.specs.Option.{option_map};
ghost use Rattle.dir_names.specs.Orders.{attr_cmp};
ghost use Rattle.dir_names.specs.Sorted.{place, rises};
ghost use Rattle.dir_names.specs.Values.{value_key_cmp};
ghost use Rattle.dir_tree.specs.Lent.{key_or_value, lent_key};
ghost use Rattle.dir_tree.specs.Inside.Packed.{IsPacked, packed_attribute, packed_value, part_of, values_of};
ghost use Rattle.dir_tree.specs.Inside.Searches.{sought_key};
ghost use Rattle.dir_tree.specs.Inside.Stored.{are_rising, attributes_in, attributes_rise, value_pair};
ghost use Rattle.std.specs.List.Sorted.{IsSearchInRange};

mod exchanging;
mod packing;
pub(crate) mod pattern;
mod sharing;

use crate::search::{Sought, cmp_lent};
use crate::views::{AttributeView, KeyView};
use dir_names::{AttrKey, Description, DnSortKey};
pub(crate) use packing::Rooms;
pub(crate) use sharing::Shared;
use std::cmp::Ordering;
use std::marker::Model;
use std::rc::Rc;
use std::slice;

/// Whether the values of an attribute are likely to be the same in many entries.
fn is_common(description: &Description) -> bool {
    let spelling = description.spelling();
    let common = match spelling.first() {
        Some(b'c') => b"creatorsName".as_slice(),
        Some(b'o') => b"objectClass".as_slice(),
        Some(b's') => b"structuralObjectClass".as_slice(),
        _ => return false,
    };
    spelling == common
}

/// How the key of a value is kept.
#[derive(PartialEq, Drop)]
pub(crate) enum PackedKey {
    /// The key is the value itself.
    Same,
    /// The key is a text, which follows the value up to this index.
    Text(u16),
    /// The key is that of a name: the one at this index.
    Name(u16),
}

/// Where a value is in the text, and its key.
#[derive(PartialEq, Drop)]
pub(crate) struct PackedValue {
    start: u16,
    end: u16,
    key: PackedKey,
}

impl PackedValue {
    fn bytes<'a>(&self, pool: PoolView<'a>) -> &'a [u8]
        ensures { result.now ≡ part_of pool.entry.text.now self.now.start self.now.end }
    {
        part_of(pool.text, self.start, self.end)
    }

    fn key<'a>(&self, pool: PoolView<'a>) -> KeyView<'a>
        ensures { lent_key result ≡ (packed_value pool.entry.text.now pool.entry.names.now self.now).0 }
    {
        match self.own_key(pool) {
            Some(key) => key,
            None => KeyView::Text(self.bytes(pool)),
        }
    }

    /// The key, unless it is the value itself.
    fn own_key<'a>(&self, pool: PoolView<'a>) -> Option<KeyView<'a>>
        ensures { key_or_value result (packed_value pool.entry.text.now pool.entry.names.now self.now).1 ≡ (packed_value pool.entry.text.now pool.entry.names.now self.now).0 }
    {
        match &self.key {
            PackedKey::Same => None,
            PackedKey::Text(to) => Some(KeyView::Text(part_of(pool.text, self.end, *to))),
            PackedKey::Name(at) => match pool.names.get(*at as usize) {
                Some(name) => Some(KeyView::Name(name)),
                None => Some(KeyView::Text(&[])),
            },
        }
    }
}

/// What values are made of: the bytes of all in one text, and the keys that are names.
#[derive(Drop)]
struct Pool {
    text: Vec<u8>,
    names: Vec<DnSortKey>,
}

impl Pool {
    fn lend(&self) -> PoolView<'_>
        ensures text { result.text.now ≡ self.now.text.items }
        ensures names { result.names.now ≡ self.now.names.items }
    {
        PoolView {
            text: self.text.as_slice(),
            names: self.names.as_slice(),
        }
    }
}

/// What values are made of, lent.
#[derive(Clone, Copy)]
pub(crate) struct PoolView<'a> {
    text: &'a [u8],
    names: &'a [DnSortKey],
}

/// The part of a list from one index up to another, as far as there is one.
fn part_of<T>(items: &[T], start: u16, end: u16) -> &[T]
    ensures { result.now ≡ part_of items.now start end }
{
    let end = (end as usize).min(items.len());
    let start = (start as usize).min(end);
    &items[start..end]
}

/// Values, whose texts are all in one.
#[derive(Drop)]
struct PackedValues {
    values: Vec<PackedValue>,
    pool: Pool,
}

impl Model for PackedValues {
    ghost use Rattle.std.specs.Prelude.{ℕ, List, map};
    ghost use Rattle.std.specs.List.{All};
    ghost use Rattle.dir_names.specs.declared.value.ValueKey.{ValueKey};
    ghost use Rattle.dir_tree.specs.Inside.Packed.{IsInside, packed_value};

    ghost Value = { List (ValueKey × List ℕ) };

    ghost view = { λ p. map (packed_value p.pool.text.items p.pool.names.items) p.values.items };

    ghost invariant = { λ p. All (IsInside p.pool.text.items p.pool.names.items) p.values.items };
}

impl PackedValues {
    /// Whether these values are made of the same parts as the others.
    fn is_like(&self, other: &PackedValues) -> bool
        ensures { IsTrue result → self.now ≡ other.now }
    {
        self.pool.text.as_slice() == other.pool.text.as_slice()
            && self.values.as_slice() == other.values.as_slice()
            && self.pool.names.as_slice() == other.pool.names.as_slice()
    }

    fn as_slice(&self) -> PackedSlice<'_>
        ensures { values_of result ≡ self.now }
    {
        PackedSlice {
            values: self.values.as_slice(),
            pool: self.pool.lend(),
        }
    }
}

/// Values in a text, lent.
#[derive(Clone, Copy)]
pub(crate) struct PackedSlice<'a> {
    values: &'a [PackedValue],
    pool: PoolView<'a>,
}

impl<'a> PackedSlice<'a> {
    pub(crate) fn empty() -> PackedSlice<'a>
        ensures { values_of result ≡ [] }
    {
        PackedSlice {
            values: &[],
            pool: PoolView {
                text: &[],
                names: &[],
            },
        }
    }

    pub(crate) fn len(self) -> usize
        ensures { result ≡ length (values_of self.entry) }
    {
        self.values.len()
    }

    /// The values from one index up to another, as far as there are any.
    fn part(self, start: u16, end: u16) -> PackedSlice<'a>
        ensures { values_of result ≡ part_of (values_of self.entry) start end }
    {
        PackedSlice {
            values: part_of(self.values, start, end),
            pool: self.pool,
        }
    }

    /// The index of the value with the key that is sought, or the index at which it would be inserted.
    pub(crate) fn find(self, sought: &Sought<'_>) -> Result<usize, usize>
        requires { IsTrue (are_rising (values_of self)) }
        ensures range { IsSearchInRange result (length (values_of self.entry)) }
        ensures place { result ≡ place value_key_cmp (sought_key sought.now) (map (λ value. (value_pair value).0) (values_of self.entry)) }
    {
        self.values
            .binary_search_by(|value| cmp_lent(value.key(self.pool), sought))
    }

    /// The bytes of the value at an index.
    pub(crate) fn bytes(self, at: usize) -> &'a [u8]
        requires { at < length (values_of self) }
        ensures { (value : ValueKey × List ℕ) → result.now ≡ (get_or (values_of self.entry) at value).1 }
    {
        self.values[at].bytes(self.pool)
    }

    /// The values from an index on.
    fn after(self, start: usize) -> PackedSlice<'a>
        ensures { values_of result ≡ drop start (values_of self.entry) }
    {
        let start = start.min(self.values.len());
        PackedSlice {
            values: &self.values[start..],
            pool: self.pool,
        }
    }

    /// Whether the keys of the values rise.
    fn rises(self) -> bool
        ensures { IsTrue result → IsTrue (are_rising (values_of self.entry)) }
    {
        self.values.is_sorted_by(|one, another| {
            cmp_lent(one.key(self.pool), &Sought::Key(another.key(self.pool))) == Ordering::Less
        })
    }

    pub(crate) fn iter(self) -> PackedIter<'a>
        ensures { result ≡ values_of self.entry }
    {
        PackedIter {
            values: self.values.iter(),
            pool: self.pool,
        }
    }
}

/// Values in a text, one after the other.
#[derive(Drop)]
pub(crate) struct PackedIter<'a> {
    values: slice::Iter<'a, PackedValue>,
    pool: PoolView<'a>,
}

impl<'a> Model for PackedIter<'a> {
    ghost use Rattle.std.specs.Prelude.{ℕ, List, map};
    ghost use Rattle.std.specs.Slice.Iter.{iter_rest};
    ghost use Rattle.dir_names.specs.declared.value.ValueKey.{ValueKey};
    ghost use Rattle.dir_tree.specs.Inside.Packed.{packed_value};

    ghost Value = { List (ValueKey × List ℕ) };

    ghost view = { λ s. map (packed_value s.pool.text.now s.pool.names.now) (iter_rest s.values) };
}

impl<'a> Iterator for PackedIter<'a> {
    ghost use Rattle.std.specs.Iterator.{YieldsFirstBy, item_count};
    ghost use Rattle.dir_tree.specs.Lent.{key_or_value, lent_key};

    type Item = (KeyView<'a>, &'a [u8]);

    ghost next_gives = { YieldsFirstBy (λ value. (lent_key value.0, value.1.now)) (λ rest. rest) };

    ghost remaining = { item_count (λ rest. rest) };

    fn next(&mut self) -> Option<(KeyView<'a>, &'a [u8])> {
        let value = self.values.next()?;
        Some((value.key(self.pool), value.bytes(self.pool)))
    }
}

/// An attribute whose values are some of a list: of the values that many entries have, or of an entry's own.
#[derive(PartialEq, Drop)]
pub(crate) struct PackedAttribute {
    is_common: bool,
    start: u16,
    end: u16,
    description: Description,
}

impl PackedAttribute {
    /// How many values it has.
    fn len(&self) -> usize
        ensures { result ≡ self.now.end - self.now.start }
    {
        usize::from(self.end.saturating_sub(self.start))
    }
}

/// Attributes with their values. Entries that are alike share the list of attributes, and the values that many have.
#[derive(Drop)]
pub(crate) struct PackedAttributes {
    attributes: Rc<Vec<PackedAttribute>>,
    common: Rc<PackedValues>,
    own: PackedValues,
}

impl Model for PackedAttributes {
    ghost use Rattle.std.specs.Prelude.{List, map};
    ghost use Rattle.std.specs.List.{All};
    ghost use Rattle.std.specs.Coded.{coded_list};
    ghost use Rattle.dir_tree.specs.Content.{Keyed};
    ghost use Rattle.dir_tree.specs.Inside.Codes.{keyed_code};
    ghost use Rattle.dir_tree.specs.Inside.Packed.{IsPacked, packed_attribute};

    ghost Value = { List Keyed };

    ghost coded = { coded_list keyed_code };

    ghost view = { λ p. map (packed_attribute p.common.value p.own) p.attributes.value.items };

    ghost invariant = { λ p. All (IsPacked p.common.value p.own) p.attributes.value.items };
}

impl PackedAttributes {
    pub(crate) fn len(&self) -> usize
        ensures { result ≡ length self.now }
    {
        self.attributes.len()
    }

    /// How many values the attributes have in all.
    pub(crate) fn value_count(&self) -> usize {
        let common = self.common.as_slice().len();
        common.saturating_add(self.own.as_slice().len())
    }

    /// The attribute with this description key.
    pub(crate) fn get(&self, key: &AttrKey) -> Option<AttributeView<'_>>
        requires { IsTrue (attributes_rise self.now) }
        ensures value { option_map (λ a. a.stored) result ≡ fin.get (attributes_in self.now) key.now }
        ensures key { IfSome result (λ a. a.key ≡ key.now) }
    {
        match place_of(self.attributes.as_slice(), key) {
            Ok(at) => Some(view_of(
                &self.attributes[at],
                self.common.as_slice(),
                self.own.as_slice(),
            )),
            Err(_) => None,
        }
    }

    pub(crate) fn iter(&self) -> PackedViews<'_>
        ensures { result ≡ self.now }
    {
        PackedViews {
            attributes: self.attributes.as_slice().iter(),
            common: self.common.as_slice(),
            own: self.own.as_slice(),
        }
    }
}

/// The index of the attribute with this key, or the index at which it would be inserted.
fn place_of(attributes: &[PackedAttribute], key: &AttrKey) -> Result<usize, usize>
    requires { IsTrue (rises attr_cmp (map (λ a. a.description.key) attributes.now)) }
    ensures range { IsSearchInRange result (length attributes.now) }
    ensures place { result ≡ place attr_cmp key.now (map (λ a. a.description.key) attributes.now) }
{
    attributes.binary_search_by(|attribute| attribute.description.key().cmp(key))
}

/// An attribute whose values are some of a list, lent.
fn view_of<'a>(
    attribute: &'a PackedAttribute,
    common: PackedSlice<'a>,
    own: PackedSlice<'a>,
) -> AttributeView<'a>
    requires { IsPacked (values_of common) (values_of own) attribute.now }
    ensures { result ≡ packed_attribute (values_of common.entry) (values_of own.entry) attribute.now }
{
    let values = if attribute.is_common { common } else { own };
    AttributeView::packed(
        &attribute.description,
        values.part(attribute.start, attribute.end),
    )
}

/// Attributes with their values, lent one after the other.
#[derive(Drop)]
pub(crate) struct PackedViews<'a> {
    attributes: slice::Iter<'a, PackedAttribute>,
    common: PackedSlice<'a>,
    own: PackedSlice<'a>,
}

impl<'a> Model for PackedViews<'a> {
    ghost use Rattle.std.specs.Prelude.{List, map};
    ghost use Rattle.std.specs.List.{All};
    ghost use Rattle.std.specs.Coded.{coded_list};
    ghost use Rattle.std.specs.Slice.Iter.{iter_rest};
    ghost use Rattle.dir_tree.specs.Content.{Keyed};
    ghost use Rattle.dir_tree.specs.Inside.Codes.{keyed_code};
    ghost use Rattle.dir_tree.specs.Inside.Packed.{IsPacked, packed_attribute, values_of};

    ghost Value = { List Keyed };

    ghost coded = { coded_list keyed_code };

    ghost view = { λ s. map (packed_attribute (values_of s.common) (values_of s.own)) (iter_rest s.attributes) };

    ghost invariant = { λ s. All (IsPacked (values_of s.common) (values_of s.own)) (iter_rest s.attributes) };
}

impl<'a> PackedViews<'a> {
    pub(crate) fn none() -> PackedViews<'a>
        ensures { result ≡ [] }
    {
        PackedViews {
            attributes: [].iter(),
            common: PackedSlice::empty(),
            own: PackedSlice::empty(),
        }
    }
}

impl<'a> Iterator for PackedViews<'a> {
    ghost use Rattle.std.specs.Iterator.{YieldsFirstBy, item_count};

    type Item = AttributeView<'a>;

    ghost next_gives = { YieldsFirstBy (λ attribute. attribute) (λ rest. rest) };

    ghost remaining = { item_count (λ rest. rest) };

    fn next(&mut self) -> Option<AttributeView<'a>> {
        let attribute = self.attributes.next()?;
        Some(view_of(attribute, self.common, self.own))
    }
}
