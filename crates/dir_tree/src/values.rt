//! The values of an attribute, as an ordered map from their keys to their bytes.

ghost use Rattle.std.specs.Prelude.{◌≡◌, ◌==◌, [], IfErr, IfOk, IsTrue, OnErr, OnOk, cond, false, option_copied};
ghost use Rattle.std.specs.FinMap as fin;
ghost use Rattle.dir_tree.specs.Inside.Packed.{values_of};
ghost use Rattle.dir_tree.specs.Inside.Searches.{sought_key};
ghost use Rattle.dir_tree.specs.Inside.Stored.{are_rising, values_in};
ghost use Rattle.dir_tree.specs.Lent.{lent_key};
ghost use Rattle.dir_tree.specs.NewEntry.{IsTwiceFaultOf};

use crate::EntryFault;
use crate::list::ValueList;
use crate::list_iter::ListIter;
use crate::packed::PackedSlice;
use crate::search::Sought;
use crate::stored::StoredValue;
use crate::views::KeyView;
use dir_names::{Bytes, Memory, ValueKey};
use std::alloc::Global;
use std::fmt;
use std::marker::Model;

/// The values of an attribute: an ordered map from value keys to stored bytes.
pub struct ValueMap {
    items: ValueList,
}

// Written out, so that a drop is one call in proofs (docs/CONTRIBUTING.md).
impl Drop for ValueMap {
    fn drop(self) {
        let ValueMap { items } = self;
        drop(items);
    }
}

/// Shows no values: there can be many.
impl fmt::Debug for ValueMap {
    fn fmt<W: fmt::Write>(&self, f: &mut fmt::Formatter<W>) -> fmt::Result {
        f.debug_struct("ValueMap").finish_non_exhaustive()
    }
}

impl Model for ValueMap {
    ghost use Rattle.std.specs.Prelude.{IsTrue};
    ghost use Rattle.dir_tree.specs.Content.{StoredValues};
    ghost use Rattle.dir_tree.specs.Inside.Codes.{values_code};
    ghost use Rattle.dir_tree.specs.Inside.Stored.{values_in, are_rising};

    ghost Value = { StoredValues };

    ghost coded = { values_code };

    ghost view = { λ m. values_in m.items };

    ghost invariant = { λ m. IsTrue (are_rising m.items) };
}

impl ValueMap {
    /// The map without values.
    pub fn empty(alloc: Global) -> ValueMap
        ensures { result ≡ fin.empty }
    {
        ValueMap {
            items: ValueList::empty(alloc),
        }
    }

    /// The map with one value.
    pub(crate) fn one(key: ValueKey, bytes: Bytes) -> ValueMap
        ensures { result ≡ fin.insert fin.empty key bytes }
    {
        ValueMap {
            items: ValueList::one(StoredValue::new(key, bytes)),
        }
    }

    pub fn len(&self) -> usize
        ensures { result ≡ fin.len self.now }
    {
        self.items.len()
    }

    pub fn is_empty(&self) -> bool
        ensures { result ≡ (fin.len self.now == 0) }
    {
        self.len() == 0
    }

    /// The stored bytes of the value with this key.
    pub fn get(&self, key: &ValueKey) -> Option<&Bytes>
        ensures { option_copied result ≡ fin.get self.now key.now }
    {
        match self.items.find(&Sought::Key(KeyView::of(key))) {
            Ok(at) => Some(self.items.get(at).bytes()),
            Err(_) => None,
        }
    }

    pub fn contains_key(&self, key: &ValueKey) -> bool
        ensures { result ≡ fin.contains_key self.now key.now }
    {
        self.has_sought(&Sought::Key(KeyView::of(key)))
    }

    /// Whether there is a value with this key.
    pub fn has_lent(&self, key: KeyView<'_>) -> bool
        ensures { result ≡ fin.contains_key self.now (lent_key key.entry) }
    {
        self.has_sought(&Sought::Key(key))
    }

    /// Whether there is a value with the key that is sought.
    pub(crate) fn has_sought(&self, sought: &Sought<'_>) -> bool
        ensures { result ≡ fin.contains_key self.now (sought_key sought.now) }
    {
        self.items.find(sought).is_ok()
    }

    /// The map of values in a text.
    pub(crate) fn unpacked(alloc: Global, values: PackedSlice<'_>) -> Result<ValueMap, Memory>
        requires { IsTrue (are_rising (values_of values)) }
        ensures { IfOk result (λ m. m ≡ values_in (values_of values.entry)) }
    {
        Ok(ValueMap {
            items: ValueList::unpacked(alloc, values)?,
        })
    }

    /// Adds a value.
    ///
    /// # Errors
    ///
    /// `Twice` if its key is there already, `Memory` if memory runs out. Then the map is as it was.
    pub fn insert(&mut self, alloc: Global, key: ValueKey, bytes: Bytes) -> Result<(), EntryFault>
        ensures ok { OnOk result (self.new ≡ fin.insert self.old key bytes) }
        ensures free { OnOk result (fin.contains_key self.old key ≡ false) }
        ensures err { OnErr result (self.new ≡ self.old) }
        ensures fault { IfErr result (λ e. IsTwiceFaultOf e (fin.contains_key self.old key)) }
    {
        match self.items.place_for(&Sought::Key(KeyView::of(&key))) {
            Ok(_) => Err(EntryFault::Twice),
            Err(at) => {
                self.items.insert(alloc, at, StoredValue::new(key, bytes))?;
                Ok(())
            }
        }
    }

    /// Gives the value with this key, if there is one, other bytes. The call doesn't allocate.
    pub fn set(&mut self, key: &ValueKey, bytes: Bytes)
        ensures { self.new ≡ cond (fin.contains_key self.old key.now) (fin.insert self.old key.now bytes) self.old }
    {
        if let Ok(at) = self.items.find(&Sought::Key(KeyView::of(key))) {
            self.items.set_bytes(at, bytes);
        }
    }

    /// Removes a value, and returns its stored bytes. The call doesn't allocate.
    pub fn remove(&mut self, alloc: Global, key: &ValueKey) -> Option<Bytes>
        ensures value { result ≡ fin.get self.old key.now }
        ensures rest { self.new ≡ fin.remove self.old key.now }
    {
        match self.items.find(&Sought::Key(KeyView::of(key))) {
            Ok(at) => Some(self.items.remove(alloc, at).into_bytes()),
            Err(_) => None,
        }
    }

    /// The keys with their stored bytes, in order of keys.
    pub fn iter(&self) -> Values<'_>
        ensures { result ≡ fin.entries self.now }
    {
        Values {
            rest: self.items.iter(),
        }
    }

    /// The values as they are stored, in order of keys.
    pub(crate) fn stored(&self) -> ListIter<'_, StoredValue>
        ensures { result ≡ fin.entries self.now }
    {
        self.items.iter()
    }

    pub fn try_clone(&self, alloc: Global) -> Result<ValueMap, Memory>
        ensures { IfOk result (λ m. m ≡ self.now) }
    {
        Ok(ValueMap {
            items: self.items.try_clone(alloc)?,
        })
    }
}

/// The values of an attribute, in order of their keys.
#[derive(Drop)]
pub struct Values<'a> {
    rest: ListIter<'a, StoredValue>,
}

impl<'a> Model for Values<'a> {
    ghost use Rattle.std.specs.Prelude.{ℕ, List};
    ghost use Rattle.dir_names.specs.declared.value.ValueKey.{ValueKey};

    ghost Value = { List (ValueKey × List ℕ) };

    ghost view = { λ s. s.rest };
}

impl<'a> Values<'a> {
    pub(crate) fn none() -> Values<'a>
        ensures { result ≡ [] }
    {
        Values {
            rest: ListIter::none(),
        }
    }
}

impl<'a> Iterator for Values<'a> {
    ghost use Rattle.std.specs.Iterator.{YieldsFirstBy, item_count};

    type Item = (&'a ValueKey, &'a Bytes);

    ghost next_gives = { YieldsFirstBy (λ value. (value.0.now, value.1.now)) (λ rest. rest) };

    ghost remaining = { item_count (λ rest. rest) };

    fn next(&mut self) -> Option<(&'a ValueKey, &'a Bytes)> {
        let value = self.rest.next()?;
        Some((value.key(), value.bytes()))
    }
}
