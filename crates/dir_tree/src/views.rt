//! What an entry lends of its attributes, in whatever form it keeps them.

ghost use Rattle.std.specs.Prelude.{◌≡◌, IfOk, IsTrue, map, nat_lt, option_copied};
ghost use Rattle.std.specs.FinMap as fin;
ghost use Rattle.dir_names.specs.Values.{text_of};
ghost use Rattle.dir_names.specs.declared.value.ValueKey.TheVariants.{Name, Text};
ghost use Rattle.dir_tree.specs.Lent.{lent_key};
ghost use Rattle.dir_tree.specs.Inside.Lent.{AreInOrder, lent_values};
ghost use Rattle.dir_tree.specs.Inside.Packed.{values_of};
ghost use Rattle.dir_tree.specs.Inside.Searches.{sought_key};
ghost use Rattle.dir_tree.specs.Inside.Stored.{are_rising, values_in};

use crate::attributes::Attribute;
use crate::packed::{PackedIter, PackedSlice};
use crate::search::Sought;
use crate::values::{ValueMap, Values};
use dir_names::{Bytes, Description, DnKey, DnSortKey, Memory, ValueKey};
use std::alloc::Global;
use std::marker::Model;

/// The key of a value, lent.
#[derive(Clone, Copy)]
pub enum KeyView<'a> {
    /// The key under every rule but `Name`: bytes.
    Text(&'a [u8]),
    /// The key under the rule `Name`: that of a name.
    Name(&'a DnSortKey),
}

impl<'a> KeyView<'a> {
    pub(crate) fn of(key: &'a ValueKey) -> KeyView<'a>
        ensures { lent_key result ≡ key.now }
    {
        match key {
            ValueKey::Text(text) => KeyView::Text(text.as_slice()),
            ValueKey::Name(name) => KeyView::Name(name),
        }
    }

    pub fn text(self) -> Option<&'a [u8]>
        ensures { option_copied result ≡ text_of (lent_key self.entry) }
    {
        match self {
            KeyView::Text(text) => Some(text),
            KeyView::Name(_) => None,
        }
    }

    /// The key in memory of its own.
    pub fn to_key(self, alloc: Global) -> Result<ValueKey, Memory>
        ensures { IfOk result (λ key. key ≡ lent_key self.entry) }
    {
        match self {
            KeyView::Text(text) => match Bytes::copy_of(alloc, text) {
                Ok(text) => Ok(ValueKey::Text(text)),
                Err(_) => Err(Memory),
            },
            KeyView::Name(name) => match name.try_clone(alloc) {
                Ok(name) => Ok(ValueKey::Name(name)),
                Err(_) => Err(Memory),
            },
        }
    }
}

/// The values of an attribute, lent.
#[derive(Clone, Copy)]
pub(crate) enum LentValues<'a> {
    Open(&'a ValueMap),
    Packed(PackedSlice<'a>),
}

/// An attribute of an entry, lent: its description as spelled, and its values.
#[derive(Drop)]
pub struct AttributeView<'a> {
    description: &'a Description,
    values: LentValues<'a>,
}

impl<'a> Model for AttributeView<'a> {
    ghost use Rattle.dir_tree.specs.Content.{Keyed};
    ghost use Rattle.dir_tree.specs.Inside.Codes.{keyed_code};
    ghost use Rattle.dir_tree.specs.Inside.Lent.{AreInOrder, lent_values};

    ghost Value = { Keyed };

    ghost coded = { keyed_code };

    ghost view = { λ a. record { key = a.description.now.key; stored = record { spelling = a.description.now.spelling; values = lent_values a.values } } };

    ghost invariant = { λ a. AreInOrder a.values };
}

impl<'a> AttributeView<'a> {
    pub(crate) fn of(attribute: &'a Attribute) -> AttributeView<'a>
        ensures { result ≡ attribute.now }
    {
        AttributeView {
            description: attribute.description(),
            values: LentValues::Open(attribute.value_map()),
        }
    }

    /// The attribute of this description with these values.
    pub(crate) fn packed(description: &'a Description, values: PackedSlice<'a>) -> AttributeView<'a>
        requires { IsTrue (are_rising (values_of values)) }
        ensures { result ≡ record { key = description.now.key; stored = record { spelling = description.now.spelling; values = values_in (values_of values.entry) } } }
    {
        AttributeView {
            description,
            values: LentValues::Packed(values),
        }
    }

    pub fn description(&self) -> &'a Description
        ensures { result.now ≡ record { spelling = self.now.stored.spelling; key = self.now.key } }
    {
        self.description
    }

    /// The values in the form in which they are lent.
    pub(crate) fn lent(&self) -> LentValues<'a>
        ensures values { lent_values result ≡ self.now.stored.values }
        ensures order { AreInOrder result }
    {
        self.values
    }

    /// The values, in order of their keys.
    pub fn values(&self) -> ValueViews<'a>
        ensures { result ≡ fin.entries self.now.stored.values }
    {
        match self.values {
            LentValues::Open(values) => ValueViews {
                open: values.iter(),
                packed: PackedSlice::empty().iter(),
            },
            LentValues::Packed(values) => ValueViews {
                open: Values::none(),
                packed: values.iter(),
            },
        }
    }

    /// The stored bytes of the value with this key.
    pub fn get(&self, key: &ValueKey) -> Option<&'a [u8]>
        ensures { option_copied result ≡ fin.get self.now.stored.values key.now }
    {
        match self.values {
            LentValues::Open(values) => match values.get(key) {
                Some(bytes) => Some(bytes.as_slice()),
                None => None,
            },
            LentValues::Packed(values) => match values.find(&Sought::Key(KeyView::of(key))) {
                Ok(at) => Some(values.bytes(at)),
                Err(_) => None,
            },
        }
    }

    /// Whether there is a value with this key.
    pub fn has(&self, key: &ValueKey) -> bool
        ensures { result ≡ fin.contains_key self.now.stored.values key.now }
    {
        self.has_sought(&Sought::Key(KeyView::of(key)))
    }

    /// Whether there is a value with this name as its key. The search is by the key, and makes none.
    pub fn has_name(&self, name: &DnKey) -> bool
        ensures { result ≡ fin.contains_key self.now.stored.values (Name name.now) }
    {
        self.has_sought(&Sought::Name(name))
    }

    /// Whether there is a value with this text as its key.
    pub(crate) fn has_text(&self, text: &[u8]) -> bool
        ensures { result ≡ fin.contains_key self.now.stored.values (Text text.now) }
    {
        self.has_sought(&Sought::Key(KeyView::Text(text)))
    }

    fn has_sought(&self, sought: &Sought<'_>) -> bool
        ensures { result ≡ fin.contains_key self.now.stored.values (sought_key sought.now) }
    {
        match self.values {
            LentValues::Open(values) => values.has_sought(sought),
            LentValues::Packed(values) => values.find(sought).is_ok(),
        }
    }

    /// How many values there are. The call takes no time by them.
    pub fn len(&self) -> usize
        ensures { result ≡ fin.len self.now.stored.values }
    {
        match self.values {
            LentValues::Open(values) => values.len(),
            LentValues::Packed(values) => values.len(),
        }
    }

    /// Whether there is more than one value.
    pub fn has_many(&self) -> bool
        ensures { result ≡ nat_lt 1 (fin.len self.now.stored.values) }
    {
        match self.values {
            LentValues::Open(values) => values.len() > 1,
            LentValues::Packed(values) => values.len() > 1,
        }
    }

    /// The attribute in memory of its own.
    pub fn to_attribute(&self, alloc: Global) -> Result<Attribute, Memory>
        ensures { IfOk result (λ attribute. attribute ≡ self.now) }
    {
        let Ok(description) = self.description.try_clone(alloc) else {
            return Err(Memory);
        };
        let values = match self.values {
            LentValues::Open(values) => values.try_clone(alloc)?,
            LentValues::Packed(values) => ValueMap::unpacked(alloc, values)?,
        };
        Ok(Attribute::of(description, values))
    }
}

/// The values of an attribute, lent, in order of their keys.
#[derive(Drop)]
pub struct ValueViews<'a> {
    open: Values<'a>,
    packed: PackedIter<'a>,
}

impl<'a> Model for ValueViews<'a> {
    ghost use Rattle.std.specs.Prelude.{◌++◌, ℕ, List};
    ghost use Rattle.dir_names.specs.declared.value.ValueKey.{ValueKey};

    ghost Value = { List (ValueKey × List ℕ) };

    ghost view = { λ s. s.open ++ s.packed };
}

impl<'a> Iterator for ValueViews<'a> {
    ghost use Rattle.std.specs.Iterator.{YieldsFirstBy, item_count};
    ghost use Rattle.dir_tree.specs.Lent.{lent_key};

    type Item = (KeyView<'a>, &'a [u8]);

    ghost next_gives = { YieldsFirstBy (λ value. (lent_key value.0, value.1.now)) (λ rest. rest) };

    ghost remaining = { item_count (λ rest. rest) };

    fn next(&mut self) -> Option<(KeyView<'a>, &'a [u8])> {
        if let Some((key, bytes)) = self.open.next() {
            return Some((KeyView::of(key), bytes.as_slice()));
        }
        self.packed.next()
    }
}
