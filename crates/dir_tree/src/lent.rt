//! The attributes of an entry, lent, as an ordered map in which some can be exchanged before all are packed again.

ghost use Rattle.std.specs.Prelude.{◌≡◌, IfOk, IfSome, IsTrue, OnOk, length, map};
ghost use Rattle.std.specs.Option.{option_map};
ghost use Rattle.std.specs.FinMap as fin;
ghost use Rattle.std.specs.List.Sorted.{IsSearchInRange};
ghost use Rattle.dir_names.specs.Orders.{attr_cmp};
ghost use Rattle.dir_names.specs.Sorted.{place};
ghost use Rattle.dir_tree.specs.Inside.Stored.{attribute_pair, attributes_in, attributes_rise};
ghost use Rattle.dir_tree.specs.Slots.{with_slots};

use crate::attributes::{Attribute, AttributeMap};
use crate::kept::KeptAttributes;
use crate::packed::{PackedAttributes, Rooms};
use crate::views::AttributeView;
use dir_names::{AttrKey, Memory};
use std::alloc::Global;
use std::marker::Model;

/// Attributes that are lent: an ordered map from description keys.
#[derive(Drop)]
pub(crate) struct LentAttributes<'a> {
    items: Vec<AttributeView<'a>>,
}

impl<'a> Model for LentAttributes<'a> {
    ghost use Rattle.std.specs.Prelude.{IsTrue};
    ghost use Rattle.dir_tree.specs.Content.{StoredAttributes};
    ghost use Rattle.dir_tree.specs.Inside.Codes.{attributes_code};
    ghost use Rattle.dir_tree.specs.Inside.Stored.{attributes_in, attributes_rise};

    ghost Value = { StoredAttributes };

    ghost coded = { attributes_code };

    ghost view = { λ m. attributes_in m.items.items };

    ghost invariant = { λ m. IsTrue (attributes_rise m.items.items) };
}

impl<'a> LentAttributes<'a> {
    /// These attributes, which are in order.
    pub(crate) fn of_slice(
        alloc: Global,
        attributes: &'a [Attribute],
    ) -> Result<LentAttributes<'a>, Memory>
        requires { IsTrue (attributes_rise attributes.now) }
        ensures { IfOk result (λ m. m ≡ attributes_in attributes.now) }
    {
        let mut items = Vec::with_capacity(alloc, attributes.len())?;
        for attribute in attributes {
            items.push(AttributeView::of(attribute))?;
        }
        Ok(LentAttributes { items })
    }

    /// These attributes, which are packed.
    pub(crate) fn of_packed(
        alloc: Global,
        packed: &'a PackedAttributes,
    ) -> Result<LentAttributes<'a>, Memory>
        requires { IsTrue (attributes_rise packed.now) }
        ensures { IfOk result (λ m. m ≡ attributes_in packed.now) }
    {
        let mut items = Vec::with_capacity(alloc, packed.len())?;
        for attribute in packed.iter() {
            items.push(attribute)?;
        }
        Ok(LentAttributes { items })
    }

    /// Gives each of these keys what a part has there.
    pub(crate) fn set_all(&mut self, keys: &[AttrKey], part: &'a AttributeMap) -> Result<(), Memory>
        ensures { OnOk result (self.new ≡ with_slots self.old keys.now part.now) }
    {
        for key in keys {
            match part.get(key) {
                Some(attribute) => self.put(key, AttributeView::of(attribute))?,
                None => self.remove(key),
            }
        }
        Ok(())
    }

    /// Puts an attribute of this key into the map, in place of the one that is there.
    fn put(&mut self, key: &AttrKey, attribute: AttributeView<'a>) -> Result<(), Memory>
        requires { attribute.key ≡ key.now }
        ensures { OnOk result (self.new ≡ fin.insert self.old key.now attribute.entry.stored) }
    {
        match place_of(self.items.as_slice(), key) {
            Ok(at) => {
                self.items[at] = attribute;
                Ok(())
            }
            Err(at) => {
                self.items.insert(at, attribute)?;
                Ok(())
            }
        }
    }

    /// Takes the attribute of this key out of the map, if there is one.
    fn remove(&mut self, key: &AttrKey)
        ensures { self.new ≡ fin.remove self.old key.now }
    {
        match place_of(self.items.as_slice(), key) {
            Ok(at) => {
                let _ = self.items.remove(at);
            }
            Err(_) => {}
        }
    }

    /// The attributes in little memory, unless they have more values than that, or more text than can be packed, or there is
    /// no memory for it. Values and text are counted before anything is packed.
    pub(crate) fn packed_up_to(&self, alloc: Global, most: usize) -> Option<KeptAttributes>
        ensures { IfSome result (λ kept. kept ≡ self.now) }
    {
        let attributes = self.items.as_slice();
        if count_of(attributes) > most {
            return None;
        }
        let rooms = Rooms::of(attributes);
        if !rooms.can_be_packed() {
            return None;
        }
        let packed = PackedAttributes::of(alloc, attributes, rooms).ok()?;
        Some(KeptAttributes::of_packed(packed))
    }
}

/// How many values attributes have in all.
fn count_of(attributes: &[AttributeView<'_>]) -> usize {
    let mut count: usize = 0;
    for attribute in attributes {
        count = count.saturating_add(attribute.len());
    }
    count
}

/// The index of the attribute with this key, or the index at which it would be inserted.
fn place_of(items: &[AttributeView<'_>], key: &AttrKey) -> Result<usize, usize>
    requires { IsTrue (attributes_rise items.now) }
    ensures range { IsSearchInRange result (length items.now) }
    ensures place { result ≡ place attr_cmp key.now (map (λ attribute. (attribute_pair attribute).0) items.now) }
{
    items.binary_search_by(|attribute| attribute.description().key().cmp(key))
}
