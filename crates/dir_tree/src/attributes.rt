//! The attributes of an entry, as an ordered map from the keys of their descriptions.

ghost use Rattle.std.specs.Prelude.{◌≡◌, ◌&&◌, ◌==◌, IfErr, IfOk, IfSome, IsSome, IsTrue, OnErr, OnOk, Some, [], false, nat_lt, option_copied};
ghost use Rattle.std.specs.List.{list_any};
ghost use Rattle.dir_names.specs.Names.Sound.{is_sound_pair};
ghost use Rattle.dir_names.specs.declared.value.ValueKey.TheVariants.{Text};
ghost use Rattle.dir_names.specs.Table.{single_of};
ghost use Rattle.std.specs.Option.{option_map};
ghost use Rattle.std.specs.FinMap as fin;
ghost use Rattle.dir_tree.specs.Content.{has_value};
ghost use Rattle.dir_tree.specs.Inside.Stored.{attribute_pair, attributes_in, attributes_rise};
ghost use Rattle.dir_tree.specs.Slots.{spelling_or};
ghost use Rattle.dir_tree.specs.NewEntry.{IsTwiceFaultOf, exceeds_single_value, pair_line, rdn_lines, with_description, with_line, with_missing_of};
ghost use Rattle.dir_tree.specs.declared.fault.EntryFault.TheVariants as EntryFault;

mod list;

use crate::EntryFault;
use crate::list_iter::ListIter;
use crate::packed::PackedAttributes;
use crate::search::Sought;
use crate::values::{ValueMap, Values};
use crate::views::KeyView;
use dir_names::{AttrKey, Bytes, Description, Memory, Rdn, Schema, ValueKey};
pub(crate) use list::{AttributeList, FewOrMany};
use std::alloc::Global;
use std::marker::Model;
use std::{fmt, mem};

/// An attribute of an entry: its description as spelled, and its values.
#[derive(Debug)]
pub struct Attribute {
    description: Description,
    values: ValueMap,
}

// Written out, so that a drop is one call in proofs (docs/CONTRIBUTING.md).
impl Drop for Attribute {
    fn drop(self) {
        let Attribute {
            description,
            values,
        } = self;
        drop(description);
        drop(values);
    }
}

impl Model for Attribute {
    ghost use Rattle.dir_tree.specs.Content.{Keyed};
    ghost use Rattle.dir_tree.specs.Inside.Codes.{keyed_code};

    ghost Value = { Keyed };

    ghost coded = { keyed_code };

    ghost view = { λ a. record { key = a.description.key; stored = record { spelling = a.description.spelling; values = a.values } } };
}

impl Attribute {
    pub fn description(&self) -> &Description
        ensures { result.now ≡ record { spelling = self.now.stored.spelling; key = self.now.key } }
    {
        &self.description
    }

    /// The values, in order of their keys.
    pub fn values(&self) -> Values<'_>
        ensures { result ≡ fin.entries self.now.stored.values }
    {
        self.values.iter()
    }

    /// The attribute of this description, still without values. An entry has no attribute without values.
    pub fn new(alloc: Global, description: Description) -> Attribute
        ensures { result ≡ record { key = description.key; stored = record { spelling = description.spelling; values = fin.empty } } }
    {
        Attribute {
            description,
            values: ValueMap::empty(alloc),
        }
    }

    /// The attribute of this description with these values. An entry has no attribute without values.
    pub fn of(description: Description, values: ValueMap) -> Attribute
        ensures { result ≡ record { key = description.key; stored = record { spelling = description.spelling; values = values } } }
    {
        Attribute {
            description,
            values,
        }
    }

    /// The stored bytes of the value with this key.
    pub fn get(&self, key: &ValueKey) -> Option<&Bytes>
        ensures { option_copied result ≡ fin.get self.now.stored.values key.now }
    {
        self.values.get(key)
    }

    /// Whether there are no values.
    pub fn is_empty(&self) -> bool
        ensures { result ≡ (fin.len self.now.stored.values == 0) }
    {
        self.values.is_empty()
    }

    pub fn try_clone(&self, alloc: Global) -> Result<Attribute, Memory>
        ensures { IfOk result (λ a. a ≡ self.now) }
    {
        let Ok(description) = self.description.try_clone(alloc) else {
            return Err(Memory);
        };
        Ok(Attribute {
            description,
            values: self.values.try_clone(alloc)?,
        })
    }

    /// Whether there is a value with this key.
    pub fn has(&self, key: &ValueKey) -> bool
        ensures { result ≡ fin.contains_key self.now.stored.values key.now }
    {
        self.values.contains_key(key)
    }

    fn has_text(&self, text: &[u8]) -> bool
        ensures { result ≡ fin.contains_key self.now.stored.values (Text text.now) }
    {
        self.values.has_sought(&Sought::Key(KeyView::Text(text)))
    }

    pub(crate) fn value_map(&self) -> &ValueMap
        ensures { result.now ≡ self.now.stored.values }
    {
        &self.values
    }

    /// Adds a value.
    ///
    /// # Errors
    ///
    /// `Twice` if its key is there already. `Memory` if memory runs out. Then the attribute is as it was.
    pub fn add(&mut self, alloc: Global, key: ValueKey, bytes: Bytes) -> Result<(), EntryFault>
        ensures key { self.new.key ≡ self.old.key }
        ensures ok { OnOk result (self.new.stored ≡ record { spelling = self.old.stored.spelling; values = fin.insert self.old.stored.values key bytes }) }
        ensures free { OnOk result (fin.contains_key self.old.stored.values key ≡ false) }
        ensures err { OnErr result (self.new ≡ self.old) }
        ensures fault { IfErr result (λ e. IsTwiceFaultOf e (fin.contains_key self.old.stored.values key)) }
    {
        self.values.insert(alloc, key, bytes)
    }

    /// Removes a value, and returns its stored bytes. The call doesn't allocate.
    pub fn remove(&mut self, alloc: Global, key: &ValueKey) -> Option<Bytes>
        ensures value { result ≡ fin.get self.old.stored.values key.now }
        ensures rest { self.new ≡ record { key = self.old.key; stored = record { spelling = self.old.stored.spelling; values = fin.remove self.old.stored.values key.now } } }
    {
        self.values.remove(alloc, key)
    }

    /// Gives the attribute other values, and returns the old ones.
    pub(crate) fn replace_values(&mut self, values: ValueMap) -> ValueMap
        ensures old { result ≡ self.old.stored.values }
        ensures new { self.new ≡ record { key = self.old.key; stored = record { spelling = self.old.stored.spelling; values = values } } }
    {
        mem::replace(&mut self.values, values)
    }

    /// Whether there is more than one value.
    pub fn has_many(&self) -> bool
        ensures { result ≡ nat_lt 1 (fin.len self.now.stored.values) }
    {
        self.values.len() > 1
    }
}

/// The attributes of an entry: an ordered map from description keys.
pub struct AttributeMap {
    items: AttributeList,
}

// Written out, so that a drop is one call in proofs (docs/CONTRIBUTING.md).
impl Drop for AttributeMap {
    fn drop(self) {
        let AttributeMap { items } = self;
        drop(items);
    }
}

/// Shows no attributes: there can be many.
impl fmt::Debug for AttributeMap {
    fn fmt<W: fmt::Write>(&self, f: &mut fmt::Formatter<W>) -> fmt::Result {
        f.debug_struct("AttributeMap").finish_non_exhaustive()
    }
}

impl Model for AttributeMap {
    ghost use Rattle.std.specs.Prelude.{IsTrue};
    ghost use Rattle.dir_tree.specs.Content.{StoredAttributes};
    ghost use Rattle.dir_tree.specs.Inside.Codes.{attributes_code};
    ghost use Rattle.dir_tree.specs.Inside.Stored.{attributes_in, attributes_rise};

    ghost Value = { StoredAttributes };

    ghost coded = { attributes_code };

    ghost view = { λ m. attributes_in m.items };

    ghost invariant = { λ m. IsTrue (attributes_rise m.items) };
}

impl AttributeMap {
    /// The map without attributes.
    pub fn empty(alloc: Global) -> AttributeMap
        ensures { result ≡ fin.empty }
    {
        AttributeMap {
            items: AttributeList::empty(alloc),
        }
    }

    /// How many values the attributes have in all.
    pub(crate) fn value_count(&self) -> usize {
        let mut count: usize = 0;
        for attribute in self.items.iter() {
            count = count.saturating_add(attribute.values.len());
        }
        count
    }

    /// These attributes in a form that can be changed.
    pub(crate) fn unpacked(alloc: Global, packed: &PackedAttributes) -> Result<AttributeMap, Memory>
        requires { IsTrue (attributes_rise packed.now) }
        ensures { IfOk result (λ m. m ≡ attributes_in packed.now) }
    {
        let mut items = AttributeList::with_capacity(alloc, packed.len())?;
        for attribute in packed.iter() {
            items.push(attribute.to_attribute(alloc)?)?;
        }
        Ok(AttributeMap { items })
    }

    /// The attributes, unless they are so many that they are kept in pieces.
    pub(crate) fn as_slice(&self) -> Option<&[Attribute]>
        ensures rises { IfSome result (λ attributes. IsTrue (attributes_rise attributes.now)) }
        ensures map { IfSome result (λ attributes. attributes_in attributes.now ≡ self.now) }
    {
        self.items.as_slice()
    }

    pub fn get(&self, key: &AttrKey) -> Option<&Attribute>
        ensures value { option_map (λ a. a.now.stored) result ≡ fin.get self.now key.now }
        ensures key { IfSome result (λ a. a.now.key ≡ key.now) }
    {
        match self.items.find(key) {
            Ok(at) => Some(self.items.get(at)),
            Err(_) => None,
        }
    }

    /// The attributes, in order of their keys.
    pub fn iter(&self) -> Attributes<'_>
        ensures { result ≡ fin.entries self.now }
    {
        Attributes {
            rest: self.items.iter(),
        }
    }

    pub fn try_clone(&self, alloc: Global) -> Result<AttributeMap, Memory>
        ensures { IfOk result (λ m. m ≡ self.now) }
    {
        Ok(AttributeMap {
            items: self.items.try_clone(alloc)?,
        })
    }

    /// Takes an attribute out of the map. The call doesn't allocate.
    pub fn take(&mut self, key: &AttrKey) -> Option<Attribute>
        ensures attribute { option_map (λ a. a.stored) result ≡ fin.get self.old key.now }
        ensures key { IfSome result (λ a. a.key ≡ key.now) }
        ensures rest { self.new ≡ fin.remove self.old key.now }
    {
        match self.items.find(key) {
            Ok(at) => Some(self.items.remove(at)),
            Err(_) => None,
        }
    }

    /// Puts an attribute into the map, in place of one with the same key. An entry's attributes have values
    /// (`Parts`).
    ///
    /// # Errors
    ///
    /// `Memory`. Then the map is as it was.
    pub fn put(&mut self, attribute: Attribute) -> Result<(), Memory>
        ensures ok { OnOk result (self.new ≡ fin.insert self.old attribute.key attribute.stored) }
        ensures err { OnErr result (self.new ≡ self.old) }
    {
        match self.items.find(attribute.description().key()) {
            Ok(at) => {
                let _ = self.items.replace(at, attribute);
                Ok(())
            }
            Err(at) => {
                self.items.insert(at, attribute)?;
                Ok(())
            }
        }
    }

    /// Puts an attribute in the place of the one with the same key, and returns the old one. There must be
    /// one. The call doesn't allocate.
    pub fn replace(&mut self, attribute: Attribute) -> Attribute
        requires { IsSome (fin.get self.old attribute.key) }
        ensures old { fin.get self.old attribute.key ≡ Some result.stored }
        ensures key { result.key ≡ attribute.key }
        ensures new { self.new ≡ fin.insert self.old attribute.key attribute.stored }
    {
        match self.items.find(attribute.description().key()) {
            Ok(at) => self.items.replace(at, attribute),
            Err(_) => unreachable!(),
        }
    }

    /// Gives the attribute with this key other values, and returns the old ones. There must be one. The call
    /// doesn't allocate. An entry's attributes have values (`Parts`).
    pub fn replace_values(&mut self, key: &AttrKey, values: ValueMap) -> ValueMap
        requires { IsSome (fin.get self.old key.now) }
        ensures old { option_map (λ a. a.values) (fin.get self.old key.now) ≡ Some result }
        ensures new { self.new ≡ fin.insert self.old key.now (record { spelling = spelling_or [] (fin.get self.old key.now); values = values }) }
    {
        match self.items.find(key) {
            Ok(at) => self.items.replace_values(at, values),
            Err(_) => unreachable!(),
        }
    }

    /// Adds a value. A new attribute is spelled as in `description`.
    ///
    /// # Errors
    ///
    /// `Twice` if the value's key is there already. `Memory` if memory runs out.
    pub(crate) fn add(
        &mut self,
        alloc: Global,
        description: Description,
        key: ValueKey,
        bytes: Bytes,
    ) -> Result<(), EntryFault>
        ensures ok { OnOk result (self.new ≡ with_line self.old (record { description = description; key = key; bytes = bytes })) }
        ensures free { OnOk result (has_value self.old description.key key ≡ false) }
        ensures fault { IfErr result (λ e. IsTwiceFaultOf e (has_value self.old description.key key)) }
    {
        match self.items.find(description.key()) {
            Ok(at) => self.items.add(at, alloc, key, bytes),
            Err(at) => {
                let values = ValueMap::one(key, bytes);
                self.items.insert(
                    at,
                    Attribute {
                        description,
                        values,
                    },
                )?;
                Ok(())
            }
        }
    }

    /// Adds an attribute of this description, without values, unless it is there already.
    pub(crate) fn add_description(
        &mut self,
        alloc: Global,
        description: &Description,
    ) -> Result<(), EntryFault>
        ensures ok { OnOk result (self.new ≡ with_description self.old description.now) }
        ensures memory { IfErr result (λ e. e ≡ EntryFault.Memory) }
    {
        if let Err(at) = self.items.find(description.key()) {
            let description = description.try_clone(alloc)?;
            let values = ValueMap::empty(alloc);
            self.items.insert(
                at,
                Attribute {
                    description,
                    values,
                },
            )?;
        }
        Ok(())
    }

    /// Adds the value of each pair of an RDN, unless its key is there already. A new attribute is spelled
    /// as in the RDN. Each pair must have a key.
    ///
    /// # Errors
    ///
    /// `Memory` alone. Then some of the values may have been added.
    pub fn add_missing(
        &mut self,
        alloc: Global,
        schema: &Schema,
        rdn: &Rdn,
    ) -> Result<(), EntryFault>
        requires { IsSome (rdn_lines schema.now rdn.now) }
        ensures ok { OnOk result (self.new ≡ with_missing_of self.old (rdn_lines schema.now rdn.now)) }
        ensures memory { IfErr result (λ e. e ≡ EntryFault.Memory) }
    {
        for pair in rdn.pairs() {
            let (description, key) = keyed_pair(alloc, schema, pair)?;
            if !self.has(description.key(), &key) {
                self.add(alloc, description, key, pair.1.try_clone(alloc)?)?;
            }
        }
        Ok(())
    }

    /// Whether the attribute has the value.
    pub(crate) fn has(&self, attr: &AttrKey, value: &ValueKey) -> bool
        ensures { result ≡ has_value self.now attr.now value.now }
    {
        match self.get(attr) {
            Some(attribute) => attribute.has(value),
            None => false,
        }
    }

    /// Whether the attribute has the value with this text as its key.
    pub fn has_text(&self, attr: &AttrKey, text: &[u8]) -> bool
        ensures { result ≡ has_value self.now attr.now (Text text.now) }
    {
        match self.get(attr) {
            Some(attribute) => attribute.has_text(text),
            None => false,
        }
    }

    /// Whether an attribute of a single type has more than one value.
    pub fn exceeds_single_value(&self, schema: &Schema) -> bool
        ensures { result ≡ exceeds_single_value schema.now self.now }
    {
        any_exceeds_single_value(&self.items, schema)
    }
}

/// Whether one of the attributes is of a single type and has more than one value.
fn any_exceeds_single_value(attributes: &AttributeList, schema: &Schema) -> bool
    ensures { result ≡ list_any (λ a. nat_lt 1 (fin.len a.stored.values) && single_of schema.now a.key) attributes.now }
{
    for attribute in attributes.iter() {
        if attribute.has_many() && schema.single(attribute.description.key()) {
            return true;
        }
    }
    false
}

/// A pair of an RDN as a description and the key of its value.
fn keyed_pair(
    alloc: Global,
    schema: &Schema,
    pair: &(Bytes, Bytes),
) -> Result<(Description, ValueKey), EntryFault>
    requires sound { IsTrue (is_sound_pair pair.now) }
    requires keyed { IsSome (pair_line schema.now pair.now) }
    ensures ok { IfOk result (λ found. pair_line schema.now pair.now ≡ Some (record { description = found.0; key = found.1; bytes = pair.now.1 })) }
    ensures memory { IfErr result (λ e. e ≡ EntryFault.Memory) }
{
    let description = Description::read(alloc, schema, pair.0.as_slice())?;
    let key = schema.value_key(alloc, description.key(), pair.1.as_slice())?;
    Ok((description, key))
}

/// The attributes of an entry, in order of their keys.
#[derive(Drop)]
pub struct Attributes<'a> {
    rest: ListIter<'a, Attribute>,
}

impl<'a> Model for Attributes<'a> {
    ghost use Rattle.std.specs.Prelude.{List, map};
    ghost use Rattle.dir_names.specs.Attr.{Attr};
    ghost use Rattle.std.specs.Coded.{coded_list, coded×};
    ghost use Rattle.dir_tree.specs.Content.{Stored};
    ghost use Rattle.dir_tree.specs.Inside.Codes.{attr_code, stored_code};
    ghost use Rattle.dir_tree.specs.Inside.Stored.{attribute_pair};

    ghost Value = { List (Attr × Stored) };

    ghost coded = { coded_list (coded× attr_code stored_code) };

    ghost view = { λ s. map attribute_pair s.rest };
}

impl<'a> Attributes<'a> {
    pub(crate) fn none() -> Attributes<'a>
        ensures { result ≡ [] }
    {
        Attributes {
            rest: ListIter::none(),
        }
    }
}

impl<'a> Iterator for Attributes<'a> {
    ghost use Rattle.std.specs.Iterator.{YieldsFirstBy, item_count};
    ghost use Rattle.std.specs.Prelude.{◌≡◌, IfSome};

    type Item = (&'a AttrKey, &'a Attribute);

    ghost next_gives = { λ s item t. YieldsFirstBy (λ item. (item.0.now, item.1.now.stored)) (λ rest. rest) s item t × IfSome item (λ item. item.1.now.key ≡ item.0.now) };

    ghost remaining = { item_count (λ rest. rest) };

    fn next(&mut self) -> Option<(&'a AttrKey, &'a Attribute)> {
        let attribute = self.rest.next()?;
        Some((attribute.description.key(), attribute))
    }
}
