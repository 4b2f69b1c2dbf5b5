//! How attributes are packed.

ghost use Rattle.std.specs.Prelude.{◌≡◌, ◌++◌, ◌∷◌, ℕ, List, [], IfOk, drop, length, map};
ghost use Rattle.dir_names.specs.Keys.{DnKeys};
ghost use Rattle.std.specs.FinMap as fin;
ghost use Rattle.dir_tree.specs.Lent.{key_or_value};
ghost use Rattle.dir_tree.specs.Inside.Packed.{IsInside, IsKeyInside, key_in, packed_value, part_of, values_of};

use crate::packed::{
    PackedAttribute, PackedAttributes, PackedKey, PackedSlice, PackedValue, PackedValues, Pool,
    is_common,
};
use crate::values::ValueMap;
use crate::views::{AttributeView, KeyView, LentValues};
use dir_names::Memory;
use std::alloc::Global;
use std::marker::Model;
use std::rc::Rc;

/// How much room some values take when they are packed.
#[derive(Clone, Copy)]
pub(super) struct Room {
    pub(super) values: usize,
    pub(super) text: usize,
    names: usize,
}

impl Room {
    pub(super) fn none() -> Room {
        Room {
            values: 0,
            text: 0,
            names: 0,
        }
    }

    /// The room for the values of one attribute more.
    fn with_values(self, attribute: &AttributeView<'_>) -> Room {
        match attribute.lent() {
            LentValues::Open(values) => self.with_map(values),
            LentValues::Packed(values) => self.with_packed(values),
        }
    }

    /// The room for the values of a map more.
    fn with_map(self, values: &ValueMap) -> Room {
        let mut room = self;
        for value in values.stored() {
            room = room.with(value.bytes().as_slice().len(), value.own_key());
        }
        room
    }

    /// The room for more values, which are packed.
    fn with_packed(self, values: PackedSlice<'_>) -> Room {
        let mut room = self;
        for value in values.values {
            room = room.with(value.bytes(values.pool).len(), value.own_key(values.pool));
        }
        room
    }

    /// Whether so much text can be packed: an index must reach its end.
    fn can_be_packed(self) -> bool {
        index(self.text).is_ok()
    }

    /// This room with room for some values in place of room for others.
    fn exchanged(self, others: Room, new: Room) -> Room {
        Room {
            values: self
                .values
                .saturating_sub(others.values)
                .saturating_add(new.values),
            text: self
                .text
                .saturating_sub(others.text)
                .saturating_add(new.text),
            names: self
                .names
                .saturating_sub(others.names)
                .saturating_add(new.names),
        }
    }

    /// The room for one value more, of so many bytes, with the key that is not the value itself.
    fn with(self, bytes: usize, key: Option<KeyView<'_>>) -> Room {
        let (own, names) = match key {
            None => (0, 0),
            Some(KeyView::Text(own)) => (own.len(), 0),
            Some(KeyView::Name(_)) => (0, 1),
        };
        Room {
            values: self.values.saturating_add(1),
            text: self.text.saturating_add(bytes).saturating_add(own),
            names: self.names.saturating_add(names),
        }
    }
}

/// How much room the values of an entry take: those that many entries have, and its own.
#[derive(Clone, Copy)]
pub(crate) struct Rooms {
    common: Room,
    own: Room,
}

impl Rooms {
    /// The room for the values of these attributes.
    pub(crate) fn of(attributes: &[AttributeView<'_>]) -> Rooms {
        let mut rooms = Rooms {
            common: Room::none(),
            own: Room::none(),
        };
        for attribute in attributes {
            if is_common(attribute.description()) {
                rooms.common = rooms.common.with_values(attribute);
            } else {
                rooms.own = rooms.own.with_values(attribute);
            }
        }
        rooms
    }

    /// Whether so much text can be packed: the common values have one text, the entry's own another.
    pub(crate) fn can_be_packed(self) -> bool {
        self.common.can_be_packed() && self.own.can_be_packed()
    }
}

/// Attributes that are being packed.
#[derive(Drop)]
struct Packing {
    attributes: Vec<PackedAttribute>,
    common: PackedValues,
    own: PackedValues,
}

impl Model for Packing {
    ghost use Rattle.std.specs.Prelude.{List, map};
    ghost use Rattle.std.specs.List.{All};
    ghost use Rattle.std.specs.Coded.{coded_list};
    ghost use Rattle.dir_tree.specs.Content.{Keyed};
    ghost use Rattle.dir_tree.specs.Inside.Codes.{keyed_code};
    ghost use Rattle.dir_tree.specs.Inside.Packed.{IsPacked, packed_attribute};

    ghost Value = { List Keyed };

    ghost coded = { coded_list keyed_code };

    ghost view = { λ p. map (packed_attribute p.common p.own) p.attributes.items };

    ghost invariant = { λ p. All (IsPacked p.common p.own) p.attributes.items };
}

impl Packing {
    /// The attributes and one more.
    fn with_attribute(self, alloc: Global, attribute: &AttributeView<'_>) -> Result<Packing, Memory>
        ensures { IfOk result (λ p. p ≡ self ++ attribute.now ∷ []) }
    {
        let Packing {
            mut attributes,
            common,
            own,
        } = self;
        let Ok(description) = attribute.description().try_clone(alloc) else {
            return Err(Memory);
        };
        let is_common = is_common(attribute.description());
        let (common, own, start, end) = if is_common {
            let (common, start, end) = common.with_values_at(alloc, attribute)?;
            (common, own, start, end)
        } else {
            let (own, start, end) = own.with_values_at(alloc, attribute)?;
            (common, own, start, end)
        };
        attributes.push(PackedAttribute {
            is_common,
            start,
            end,
            description,
        })?;
        Ok(Packing {
            attributes,
            common,
            own,
        })
    }

    fn finish(self, alloc: Global) -> Result<PackedAttributes, Memory>
        ensures { IfOk result (λ p. p ≡ self) }
    {
        let Packing {
            attributes,
            common,
            own,
        } = self;
        Ok(PackedAttributes {
            attributes: Rc::new(alloc, attributes)?,
            common: Rc::new(alloc, common)?,
            own,
        })
    }
}

impl PackedAttributes {
    /// These attributes, whose values take so much room.
    pub(crate) fn of(
        alloc: Global,
        attributes: &[AttributeView<'_>],
        rooms: Rooms,
    ) -> Result<PackedAttributes, Memory>
        ensures { IfOk result (λ p. p ≡ attributes.now) }
    {
        let mut packing = Packing {
            attributes: Vec::with_capacity(alloc, attributes.len())?,
            common: PackedValues::with_room(alloc, rooms.common)?,
            own: PackedValues::with_room(alloc, rooms.own)?,
        };
        for attribute in attributes {
            packing = packing.with_attribute(alloc, attribute)?;
        }
        packing.finish(alloc)
    }
}

impl PackedValues {
    /// No values, with room for so many.
    pub(super) fn with_room(alloc: Global, room: Room) -> Result<PackedValues, Memory>
        ensures { IfOk result (λ p. p ≡ []) }
    {
        Ok(PackedValues {
            values: Vec::with_capacity(alloc, room.values)?,
            pool: Pool::with_room(alloc, room)?,
        })
    }

    /// The values and one more, with its key unless that is the value itself.
    fn with_value(
        self,
        alloc: Global,
        bytes: &[u8],
        key: Option<KeyView<'_>>,
    ) -> Result<PackedValues, Memory>
        ensures { IfOk result (λ p. p ≡ self ++ (key_or_value key.entry bytes.now, bytes.now) ∷ []) }
    {
        let PackedValues { mut values, pool } = self;
        match pooled(alloc, pool, bytes, key) {
            Ok((pool, value)) => match values.push(value) {
                Ok(()) => Ok(PackedValues { values, pool }),
                Err(_) => Err(Memory),
            },
            Err(_) => Err(Memory),
        }
    }

    /// The values with those of a map in place of those from one index up to another.
    pub(super) fn with_exchanged(
        &self,
        alloc: Global,
        start: u16,
        end: u16,
        map: &ValueMap,
    ) -> Result<PackedValues, Memory>
        ensures { IfOk result (λ p. p ≡ (part_of self.now 0 start ++ fin.entries map.now) ++ drop end self.now) }
    {
        let values = self.as_slice();
        let room = self.room().exchanged(
            Room::none().with_packed(values.part(start, end)),
            Room::none().with_map(map),
        );
        // Text that is too long for an index is refused before anything is packed.
        let _last = index(room.text)?;
        PackedValues::with_room(alloc, room)?
            .with_packed(alloc, values.part(0, start))?
            .with_map(alloc, map)?
            .with_packed(alloc, values.after(usize::from(end)))
    }

    /// The room that these values take.
    fn room(&self) -> Room {
        Room {
            values: self.values.len(),
            text: self.pool.text.len(),
            names: self.pool.names.len(),
        }
    }

    /// The values and those of an attribute, which are between two indices.
    fn with_values_at(
        self,
        alloc: Global,
        attribute: &AttributeView<'_>,
    ) -> Result<(PackedValues, u16, u16), Memory>
        ensures values { IfOk result (λ with. with.0 ≡ self ++ fin.entries attribute.now.stored.values) }
        ensures start { IfOk result (λ with. with.1 ≡ length self) }
        ensures end { IfOk result (λ with. with.2 ≡ length with.0) }
    {
        let start = index(self.values.len())?;
        let packed = self.with_values(alloc, attribute)?;
        let end = index(packed.values.len())?;
        Ok((packed, start, end))
    }

    /// The values and those of an attribute.
    fn with_values(
        self,
        alloc: Global,
        attribute: &AttributeView<'_>,
    ) -> Result<PackedValues, Memory>
        ensures { IfOk result (λ p. p ≡ self ++ fin.entries attribute.now.stored.values) }
    {
        match attribute.lent() {
            LentValues::Open(values) => self.with_map(alloc, values),
            LentValues::Packed(values) => self.with_packed(alloc, values),
        }
    }

    /// The values and those of a map.
    fn with_map(self, alloc: Global, map: &ValueMap) -> Result<PackedValues, Memory>
        ensures { IfOk result (λ p. p ≡ self ++ fin.entries map.now) }
    {
        let mut packed = self;
        for value in map.stored() {
            packed = packed.with_value(alloc, value.bytes().as_slice(), value.own_key())?;
        }
        Ok(packed)
    }

    /// The values and others that are packed.
    fn with_packed(self, alloc: Global, others: PackedSlice<'_>) -> Result<PackedValues, Memory>
        ensures { IfOk result (λ p. p ≡ self ++ values_of others.entry) }
    {
        let mut packed = self;
        for value in others.values {
            let bytes = value.bytes(others.pool);
            packed = packed.with_value(alloc, bytes, value.own_key(others.pool))?;
        }
        Ok(packed)
    }
}

impl Pool {
    fn with_room(alloc: Global, room: Room) -> Result<Pool, Memory> {
        Ok(Pool {
            text: Vec::with_capacity(alloc, room.text)?,
            names: Vec::with_capacity(alloc, room.names)?,
        })
    }
}

/// The pool with a value and its key, unless that is the value itself, and where they are.
fn pooled(
    alloc: Global,
    pool: Pool,
    bytes: &[u8],
    key: Option<KeyView<'_>>,
) -> Result<(Pool, PackedValue), Memory>
    ensures value { IfOk result (λ with. packed_value with.0.text.items with.0.names.items with.1 ≡ (key_or_value key.entry bytes.now, bytes.now)) }
    ensures inside { IfOk result (λ with. IsInside with.0.text.items with.0.names.items with.1) }
    ensures text { IfOk result (λ with. (more : List ℕ) × (with.0.text.items ≡ pool.text.items ++ more)) }
    ensures names { IfOk result (λ with. (more : List DnKeys) × (with.0.names.items ≡ pool.names.items ++ more)) }
{
    let Pool { mut text, names } = pool;
    let start = index(text.len())?;
    text.extend_from_slice(bytes)?;
    let end = index(text.len())?;
    let (pool, key) = pooled_key(alloc, Pool { text, names }, key)?;
    Ok((pool, PackedValue { start, end, key }))
}

/// The pool, whose text ends with a value, with the value's key, unless that is the value itself.
fn pooled_key(
    alloc: Global,
    pool: Pool,
    key: Option<KeyView<'_>>,
) -> Result<(Pool, PackedKey), Memory>
    ensures key { IfOk result (λ with. (start : ℕ) → key_in with.0.text.items with.0.names.items start (length pool.text.items) with.1 ≡ key_or_value key.entry (part_of pool.text.items start (length pool.text.items))) }
    ensures inside { IfOk result (λ with. IsKeyInside with.0.text.items with.0.names.items with.1) }
    ensures text { IfOk result (λ with. (more : List ℕ) × (with.0.text.items ≡ pool.text.items ++ more)) }
    ensures names { IfOk result (λ with. (more : List DnKeys) × (with.0.names.items ≡ pool.names.items ++ more)) }
{
    let Some(key) = key else {
        return Ok((pool, PackedKey::Same));
    };
    let Pool {
        mut text,
        mut names,
    } = pool;
    match key {
        KeyView::Text(own) => {
            text.extend_from_slice(own)?;
            let end = index(text.len())?;
            Ok((Pool { text, names }, PackedKey::Text(end)))
        }
        KeyView::Name(name) => {
            let at = index(names.len())?;
            match name.try_clone(alloc) {
                Ok(name) => match names.push(name) {
                    Ok(()) => Ok((Pool { text, names }, PackedKey::Name(at))),
                    Err(_) => Err(Memory),
                },
                Err(_) => Err(Memory),
            }
        }
    }
}

/// An index of a text or a list, if that is short enough to be packed.
pub(super) fn index(at: usize) -> Result<u16, Memory>
    ensures { IfOk result (λ n. n ≡ at) }
{
    u16::try_from(at).map_err(|_| Memory)
}
