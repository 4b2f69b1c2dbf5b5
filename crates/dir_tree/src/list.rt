//! The values of an attribute as a list. A single value needs no memory of its own, and a long list is kept in pieces.

ghost use Rattle.std.specs.List.{insert, remove};
ghost use Rattle.std.specs.List.Sorted.{IsSearchInRange};
ghost use Rattle.std.specs.Prelude.{◌≡◌, ◌≤◌, ◌<◌, ℕ, List, [], ◌∷◌, ◌++◌, Err, IfErr, IfOk, IsTrue, OnErr, OnOk, get_or, length, map, set, true};
ghost use Rattle.dir_names.specs.Sorted.{place};
ghost use Rattle.dir_names.specs.Values.{value_key_cmp};
ghost use Rattle.dir_names.specs.declared.value.ValueKey.{ValueKey};
ghost use Rattle.dir_tree.specs.Inside.Packed.{values_of};
ghost use Rattle.dir_tree.specs.Inside.Searches.{sought_key};
ghost use Rattle.dir_tree.specs.Inside.Stored.{are_rising, value_pair};
ghost use Rattle.dir_tree.specs.Inside.ValueLists.{IsShort, list_values};

use crate::list_iter::ListIter;
use crate::packed::PackedSlice;
use crate::pieces::{MOST, Pieces};
use crate::search::{Sought, are_below, place_of};
use crate::stored::{OneOrMany, StoredValue, clones};
use dir_names::{Bytes, Memory};
use std::alloc::Global;
use std::marker::Model;
use std::{mem, slice};

/// The values of an attribute, in order. One value alone needs no memory of its own.
#[derive(Drop)]
pub(crate) struct ValueList {
    kept: OneOrMany,
}

impl Model for ValueList {
    ghost use Rattle.std.specs.Prelude.{ℕ, List};
    ghost use Rattle.dir_names.specs.declared.value.ValueKey.{ValueKey};
    ghost use Rattle.dir_tree.specs.Inside.ValueLists.{IsShort, list_values};

    ghost Value = { List (ValueKey × List ℕ) };

    ghost view = { λ list. list_values list.kept };

    ghost invariant = { λ list. IsShort 1024 list.kept };
}

impl ValueList {
    pub(crate) fn empty(alloc: Global) -> ValueList
        ensures { result ≡ [] }
    {
        ValueList {
            kept: OneOrMany::Many(Vec::new(alloc)),
        }
    }

    pub(crate) fn one(value: StoredValue) -> ValueList
        ensures { result ≡ value ∷ [] }
    {
        ValueList {
            kept: OneOrMany::One(value),
        }
    }

    /// The values in a text, in memory of their own.
    pub(crate) fn unpacked(alloc: Global, values: PackedSlice<'_>) -> Result<ValueList, Memory>
        ensures { IfOk result (λ list. list ≡ values_of values.entry) }
    {
        let mut list = ValueList::empty(alloc);
        for (key, bytes) in values.iter() {
            let value = StoredValue::copy_of(alloc, key, bytes)?;
            list = list.with_last(alloc, value)?;
        }
        Ok(list)
    }

    /// The list with one value more, at its end.
    fn with_last(self, alloc: Global, value: StoredValue) -> Result<ValueList, Memory>
        ensures { IfOk result (λ list. list ≡ self ++ value ∷ []) }
    {
        let mut list = self;
        let end = list.len();
        if end == 0 {
            return Ok(ValueList::one(value));
        }
        list.insert(alloc, end, value)?;
        Ok(list)
    }

    pub(crate) fn len(&self) -> usize
        ensures { result ≡ length self.now }
    {
        match &self.kept {
            OneOrMany::One(_) => 1,
            OneOrMany::Many(values) => values.len(),
            OneOrMany::InPieces(pieces) => pieces.len(),
        }
    }

    /// The index of the value with the key that is sought, or the index at which it would be inserted.
    pub(crate) fn find(&self, sought: &Sought<'_>) -> Result<usize, usize>
        requires { IsTrue (are_rising self.now) }
        ensures range { IsSearchInRange result (length self.now) }
        ensures place { result ≡ place value_key_cmp (sought_key sought.now) (map (λ value. (value_pair value).0) self.now) }
    {
        match &self.kept {
            OneOrMany::One(value) => place_of(slice::from_ref(value), sought),
            OneOrMany::Many(values) => place_of(values.as_slice(), sought),
            OneOrMany::InPieces(pieces) => pieces.find(sought),
        }
    }

    /// `find` for a key that is to be inserted. The last value is asked first, since most values come in their order.
    pub(crate) fn place_for(&self, sought: &Sought<'_>) -> Result<usize, usize>
        requires { IsTrue (are_rising self.now) }
        ensures range { IsSearchInRange result (length self.now) }
        ensures place { result ≡ place value_key_cmp (sought_key sought.now) (map (λ value. (value_pair value).0) self.now) }
    {
        if self.is_below(sought) {
            return Err(self.len());
        }
        self.find(sought)
    }

    /// Whether all values are below the key that is sought, which then would be inserted at the end.
    fn is_below(&self, sought: &Sought<'_>) -> bool
        requires { IsTrue (are_rising self.now) }
        ensures { result ≡ true → place value_key_cmp (sought_key sought.now) (map (λ value. (value_pair value).0) self.now) ≡ Err (length self.now) }
    {
        match &self.kept {
            OneOrMany::One(value) => are_below(slice::from_ref(value), sought),
            OneOrMany::Many(values) => are_below(values.as_slice(), sought),
            OneOrMany::InPieces(pieces) => pieces.is_below(sought),
        }
    }

    /// The value at an index.
    pub(crate) fn get(&self, at: usize) -> &StoredValue
        requires { at < length self.now }
        ensures { result.now ≡ get_or self.now at result.now }
    {
        match &self.kept {
            OneOrMany::One(value) => value,
            OneOrMany::Many(values) => &values[at],
            OneOrMany::InPieces(pieces) => pieces.get(at),
        }
    }

    pub(crate) fn iter(&self) -> ListIter<'_, StoredValue>
        ensures { result ≡ self.now }
    {
        match &self.kept {
            OneOrMany::One(value) => ListIter::of_slice(slice::from_ref(value)),
            OneOrMany::Many(values) => ListIter::of_slice(values.as_slice()),
            OneOrMany::InPieces(pieces) => ListIter::of_pieces(pieces.as_slice()),
        }
    }

    /// Inserts a value at an index.
    ///
    /// # Errors
    ///
    /// `Memory`. Then the list is as it was.
    pub(crate) fn insert(
        &mut self,
        alloc: Global,
        at: usize,
        value: StoredValue,
    ) -> Result<(), Memory>
        requires { at ≤ length self.old }
        ensures ok { OnOk result (self.new ≡ insert self.old at value) }
        ensures err { OnErr result (self.new ≡ self.old) }
    {
        let kept = mem::replace(&mut self.kept, OneOrMany::Many(Vec::new(alloc)));
        let (kept, put) = with_value(alloc, kept, at, value);
        self.kept = kept;
        put
    }

    /// Gives the value at an index other bytes. The call doesn't allocate.
    pub(crate) fn set_bytes(&mut self, at: usize, bytes: Bytes)
        requires { at < length self.old }
        ensures { (value : ValueKey × List ℕ) → self.new ≡ set self.old at ((get_or self.old at value).0, bytes) }
    {
        match &mut self.kept {
            OneOrMany::One(value) => value.set_bytes(bytes),
            OneOrMany::Many(values) => values[at].set_bytes(bytes),
            OneOrMany::InPieces(pieces) => pieces.set_bytes(at, bytes),
        }
    }

    /// Removes the value at an index. The call doesn't allocate.
    pub(crate) fn remove(&mut self, alloc: Global, at: usize) -> StoredValue
        requires { at < length self.old }
        ensures value { result ≡ get_or self.old at result }
        ensures rest { self.new ≡ remove self.old at }
    {
        match mem::replace(&mut self.kept, OneOrMany::Many(Vec::new(alloc))) {
            OneOrMany::One(value) => value,
            OneOrMany::Many(mut values) => {
                let value = values.remove(at);
                self.kept = OneOrMany::Many(values);
                value
            }
            OneOrMany::InPieces(mut pieces) => {
                let value = pieces.remove(at);
                self.kept = OneOrMany::InPieces(pieces);
                value
            }
        }
    }

    pub(crate) fn try_clone(&self, alloc: Global) -> Result<ValueList, Memory>
        ensures { IfOk result (λ list. list ≡ self.now) }
    {
        let kept = match &self.kept {
            OneOrMany::One(value) => OneOrMany::One(value.try_clone(alloc)?),
            OneOrMany::Many(values) => OneOrMany::Many(clones(alloc, values.as_slice())?),
            OneOrMany::InPieces(pieces) => OneOrMany::InPieces(pieces.try_clone(alloc)?),
        };
        Ok(ValueList { kept })
    }
}

/// The values with one more, at this index, unless memory runs out: then they are as they were.
fn with_value(
    alloc: Global,
    kept: OneOrMany,
    at: usize,
    value: StoredValue,
) -> (OneOrMany, Result<(), Memory>)
    requires at { at ≤ length (list_values kept) }
    requires short { IsShort MOST kept }
    ensures ok { OnOk result.1 (list_values result.0 ≡ insert (list_values kept) at value) }
    ensures err { OnErr result.1 (list_values result.0 ≡ list_values kept) }
    ensures short { IsShort MOST result.0 }
{
    match kept {
        OneOrMany::One(only) => match into_vec(alloc, only) {
            Ok(values) => vec_with_value(values, at, value),
            Err(only) => (OneOrMany::One(only), Err(Memory)),
        },
        OneOrMany::Many(values) => {
            if values.len() < MOST {
                return vec_with_value(values, at, value);
            }
            match Pieces::from_vec(alloc, values) {
                Ok(pieces) => pieces_with_value(alloc, pieces, at, value),
                Err(values) => (OneOrMany::Many(values), Err(Memory)),
            }
        }
        OneOrMany::InPieces(pieces) => pieces_with_value(alloc, pieces, at, value),
    }
}

/// The value in a `Vec`, so that others can be added. If memory runs out, it is given back.
fn into_vec(alloc: Global, value: StoredValue) -> Result<Vec<StoredValue>, StoredValue>
    ensures ok { IfOk result (λ values. values.items ≡ value ∷ []) }
    ensures err { IfErr result (λ back. back ≡ value) }
{
    let Ok(mut values) = Vec::with_capacity(alloc, 2) else {
        return Err(value);
    };
    match values.push(value) {
        Ok(()) => Ok(values),
        Err(refused) => Err(refused.value),
    }
}

fn vec_with_value(
    mut values: Vec<StoredValue>,
    at: usize,
    value: StoredValue,
) -> (OneOrMany, Result<(), Memory>)
    requires at { at ≤ length values.items }
    requires room { length values.items < MOST }
    ensures ok { OnOk result.1 (list_values result.0 ≡ insert values.items at value) }
    ensures err { OnErr result.1 (list_values result.0 ≡ values.items) }
    ensures short { IsShort MOST result.0 }
{
    match values.insert(at, value) {
        Ok(()) => (OneOrMany::Many(values), Ok(())),
        Err(_) => (OneOrMany::Many(values), Err(Memory)),
    }
}

fn pieces_with_value(
    alloc: Global,
    mut pieces: Pieces<StoredValue>,
    at: usize,
    value: StoredValue,
) -> (OneOrMany, Result<(), Memory>)
    requires { at ≤ length pieces }
    ensures ok { OnOk result.1 (list_values result.0 ≡ insert pieces at value) }
    ensures err { OnErr result.1 (list_values result.0 ≡ pieces) }
    ensures short { IsShort MOST result.0 }
{
    let put = pieces.insert(alloc, at, value);
    (OneOrMany::InPieces(pieces), put)
}
