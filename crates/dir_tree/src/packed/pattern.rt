//! How the lines of entries are arranged: the attributes of an entry whose lines are arranged as those of another are packed at once.

ghost use Rattle.std.specs.Prelude.{◌≡◌, ◌++◌, ◌≤◌, ℕ, List, IfOk, IfSome, IsTrue, Ok, length, map};
ghost use Rattle.dir_names.specs.Keys.{DnKeys};
ghost use Rattle.dir_names.specs.NameKeys.{value_key_of};
ghost use Rattle.dir_names.specs.Orders.{attr_cmp};
ghost use Rattle.dir_names.specs.Sorted.{rises};
ghost use Rattle.dir_tree.specs.Inside.Packed.{IsInside, packed_value};
ghost use Rattle.dir_tree.specs.Inside.Patterns.{AddsLines, HasEach, InsertsValue};
ghost use Rattle.dir_tree.specs.Inside.Stored.{attributes_in, attributes_rise};
ghost use Rattle.dir_tree.specs.NewEntry.{attributes_of};

use crate::packed::packing::{Room, index};
use crate::packed::{
    PackedAttribute, PackedAttributes, PackedKey, PackedValue, PackedValues, Pool, PoolView,
    is_common,
};
use crate::search::{Sought, cmp_lent};
use dir_names::{AttrKey, Bytes, Description, PushedKey, RecentNames, Schema};
use std::alloc::Global;
use std::cmp::Ordering;
use std::rc::Rc;

/// How the lines of an entry are arranged: its attributes, and which lines give the values of each of them in turn.
#[derive(Drop)]
pub(crate) struct Pattern {
    attributes: Rc<Vec<PackedAttribute>>,
    order: Vec<u16>,
    ghost rise: { IsTrue (rises attr_cmp (map (λ a. a.description.key) attributes.value.items)) },
    ghost each_line: { HasEach order.items },
}

impl Pattern {
    /// The pattern of these lines. None where lines of one attribute are spelled in different ways, or memory runs out.
    pub(crate) fn of(alloc: Global, lines: &[(Description, Bytes)]) -> Option<Pattern> {
        let order = order_of(alloc, lines)?;
        let attributes = attributes_in_order(alloc, lines, order.as_slice())?;
        if !keys_rise(attributes.as_slice()) {
            return None;
        }
        let attributes = Rc::new(alloc, attributes).ok()?;
        Some(Pattern { attributes, order })
    }

    /// The attributes that lines give, if they are arranged so.
    pub(crate) fn packed(
        &self,
        alloc: Global,
        schema: &Schema,
        recent: &mut RecentNames,
        lines: &[(Description, Bytes)],
    ) -> Option<PackedAttributes>
        ensures rise { IfSome result (λ packed. IsTrue (attributes_rise packed)) }
        ensures value { IfSome result (λ packed. attributes_of schema.now lines.now ≡ Ok (attributes_in packed)) }
    {
        if lines.len() != self.order.len() {
            return None;
        }
        let Some((common, own)) = self.rooms(lines) else {
            return None;
        };
        let Ok(mut common) = PackedValues::with_room(alloc, common) else {
            return None;
        };
        let Ok(mut own) = PackedValues::with_room(alloc, own) else {
            return None;
        };
        let mut rest = self.order.as_slice();
        for attribute in self.attributes.as_slice() {
            let (taken, after) = rest.split_at_checked(attribute.len())?;
            rest = after;
            if attribute.is_common {
                common = common.with_lines(alloc, schema, recent, attribute, lines, taken)?;
            } else {
                own = own.with_lines(alloc, schema, recent, attribute, lines, taken)?;
            }
        }
        if !rest.is_empty() {
            return None;
        }
        let Ok(attributes) = self.attributes.clone() else {
            return None;
        };
        let Ok(common) = Rc::new(alloc, common.fitted()) else {
            return None;
        };
        Some(PackedAttributes {
            attributes,
            common,
            own: own.fitted(),
        })
    }

    /// The room that values take at most, where no key is longer than its value. None where the lines are of other attributes.
    fn rooms(&self, lines: &[(Description, Bytes)]) -> Option<(Room, Room)> {
        let mut common = Room::none();
        let mut own = Room::none();
        let mut rest = self.order.as_slice();
        for attribute in self.attributes.as_slice() {
            let (taken, after) = rest.split_at_checked(attribute.len())?;
            rest = after;
            if attribute.is_common {
                common = common.with_lines(attribute, lines, taken)?;
            } else {
                own = own.with_lines(attribute, lines, taken)?;
            }
        }
        Some((common, own))
    }
}

/// The attributes of lines in an order, each with the places that its values will have.
fn attributes_in_order(
    alloc: Global,
    lines: &[(Description, Bytes)],
    order: &[u16],
) -> Option<Vec<PackedAttribute>> {
    let mut attributes: Vec<PackedAttribute> = Vec::with_capacity(alloc, order.len()).ok()?;
    let mut common: u16 = 0;
    let mut own: u16 = 0;
    for number in order {
        let line = lines.get(usize::from(*number))?;
        let is_common = is_common(&line.0);
        let start = if is_common { common } else { own };
        let end = start.checked_add(1)?;
        if is_common {
            common = end;
        } else {
            own = end;
        }
        let count = attributes.len();
        if count > 0 && attributes[count - 1].description == line.0 {
            attributes[count - 1].end = end;
        } else {
            let description = line.0.try_clone(alloc).ok()?;
            attributes
                .push(PackedAttribute {
                    is_common,
                    start,
                    end,
                    description,
                })
                .ok()?;
        }
    }
    // An entry keeps the list, and lines of one attribute have one place in it.
    attributes.shrink_to_fit();
    Some(attributes)
}

/// The numbers of lines, so that those of one attribute are side by side, and the attributes in the order of their keys.
fn order_of(alloc: Global, lines: &[(Description, Bytes)]) -> Option<Vec<u16>>
    ensures { IfSome result (λ order. HasEach order.items) }
{
    let mut order = Vec::with_capacity(alloc, lines.len()).ok()?;
    for at in 0..lines.len() {
        order.push(index(at).ok()?).ok()?;
    }
    order
        .sort_by(|one, another| cmp_at(lines, *one, *another))
        .ok()?;
    Some(order)
}

/// How the keys of the descriptions of two lines compare.
fn cmp_at(lines: &[(Description, Bytes)], one: u16, another: u16) -> Ordering {
    match (lines.get(one as usize), lines.get(another as usize)) {
        (Some(one), Some(another)) => one.0.key().cmp(another.0.key()),
        _ => Ordering::Equal,
    }
}

/// Whether the keys of attributes rise.
fn keys_rise(attributes: &[PackedAttribute]) -> bool
    ensures { IsTrue result → IsTrue (rises attr_cmp (map (λ a. a.description.key) attributes.now)) }
{
    attributes.is_sorted_by(|one, another| one.description.key() < another.description.key())
}

impl Room {
    /// The room for the values of some lines more, and for keys that are as long, if the lines are of this attribute.
    fn with_lines(
        self,
        attribute: &PackedAttribute,
        lines: &[(Description, Bytes)],
        taken: &[u16],
    ) -> Option<Room> {
        let mut room = self;
        for number in taken {
            let line = lines.get(usize::from(*number))?;
            if line.0.key() != attribute.description.key() {
                return None;
            }
            room.values = room.values.saturating_add(1);
            room.text = room
                .text
                .saturating_add(line.1.as_slice().len().saturating_mul(2));
        }
        Some(room)
    }
}

impl PackedValues {
    /// The values and those of an attribute, which the lines with these numbers give.
    fn with_lines(
        self,
        alloc: Global,
        schema: &Schema,
        recent: &mut RecentNames,
        attribute: &PackedAttribute,
        lines: &[(Description, Bytes)],
        numbers: &[u16],
    ) -> Option<PackedValues>
        ensures { IfSome result (AddsLines schema.now lines.now attribute.now numbers.now self) }
    {
        let start = self.len();
        if start != usize::from(attribute.start) || numbers.is_empty() {
            return None;
        }
        let mut values = self;
        for number in numbers {
            let line = lines.get(usize::from(*number))?;
            if line.0 != attribute.description {
                return None;
            }
            values = values.with_value_after(
                alloc,
                schema,
                recent,
                line.0.key(),
                line.1.as_slice(),
                start,
            )?;
        }
        if values.len() != usize::from(attribute.end) || !values.as_slice().after(start).rises() {
            return None;
        }
        Some(values)
    }

    /// The values and one more, if it has a key. It goes to its place among those from an index on, which are in order.
    fn with_value_after(
        self,
        alloc: Global,
        schema: &Schema,
        recent: &mut RecentNames,
        attr: &AttrKey,
        bytes: &[u8],
        start: usize,
    ) -> Option<PackedValues>
        requires { start ≤ length self }
        ensures { IfSome result (InsertsValue schema.now attr.now bytes.now start self) }
    {
        let PackedValues { mut values, pool } = self;
        let (pool, value) = pooled_line(alloc, schema, recent, pool, attr, bytes)?;
        let at = place_after(values.as_slice(), start, &value, pool.lend());
        match values.insert(at, value) {
            Ok(()) => Some(PackedValues { values, pool }),
            Err(_) => None,
        }
    }

    fn len(&self) -> usize
        ensures { result ≡ length self.now }
    {
        self.values.len()
    }

    /// The same in no more memory than it needs.
    fn fitted(self) -> PackedValues
        ensures { result ≡ self }
    {
        let PackedValues { values, pool } = self;
        let Pool {
            mut text,
            mut names,
        } = pool;
        text.shrink_to_fit();
        names.shrink_to_fit();
        PackedValues {
            values,
            pool: Pool { text, names },
        }
    }
}

/// The place of a value among those from an index on, which are in order.
fn place_after(
    values: &[PackedValue],
    start: usize,
    value: &PackedValue,
    pool: PoolView<'_>,
) -> usize
    requires { start ≤ length values.now }
    ensures after { start ≤ result }
    ensures inside { result ≤ length values.now }
{
    let sought = Sought::Key(value.key(pool));
    let mut at = values.len();
    while at > start && cmp_lent(values[at - 1].key(pool), &sought) == Ordering::Greater {
        at -= 1;
    }
    at
}

/// The pool with a value and its key, and where they are, if the value has a key.
fn pooled_line(
    alloc: Global,
    schema: &Schema,
    recent: &mut RecentNames,
    pool: Pool,
    attr: &AttrKey,
    bytes: &[u8],
) -> Option<(Pool, PackedValue)>
    ensures key { IfSome result (λ with. value_key_of schema.now attr.now bytes.now ≡ Ok (packed_value with.0.text.items with.0.names.items with.1).0) }
    ensures bytes { IfSome result (λ with. (packed_value with.0.text.items with.0.names.items with.1).1 ≡ bytes.now) }
    ensures inside { IfSome result (λ with. IsInside with.0.text.items with.0.names.items with.1) }
    ensures text { IfSome result (λ with. (more : List ℕ) × (with.0.text.items ≡ pool.text.items ++ more)) }
    ensures names { IfSome result (λ with. (more : List DnKeys) × (with.0.names.items ≡ pool.names.items ++ more)) }
{
    let Pool {
        mut text,
        mut names,
    } = pool;
    let start = index(text.len()).ok()?;
    text.extend_from_slice(bytes).ok()?;
    let end = index(text.len()).ok()?;
    let Ok(pushed) = recent.push_value_key(alloc, schema, attr, bytes, &mut text) else {
        return None;
    };
    let key = match pushed {
        PushedKey::Same => PackedKey::Same,
        PushedKey::Appended => PackedKey::Text(index(text.len()).ok()?),
        PushedKey::Name(name) => {
            let at = index(names.len()).ok()?;
            names.push(name).ok()?;
            PackedKey::Name(at)
        }
    };
    Some((Pool { text, names }, PackedValue { start, end, key }))
}
