//! A value as it is stored. Most values are their own keys, and are stored once.

ghost use Rattle.std.specs.Prelude.{◌≡◌, IfOk, IsTrue, None, true};
ghost use Rattle.dir_names.specs.declared.value.ValueKey.TheVariants.{Text};
ghost use Rattle.dir_tree.specs.Inside.Stored.{kept_bytes, has_bytes};
ghost use Rattle.dir_tree.specs.Lent.{key_or_value, lent_key};

use crate::pieces::Pieces;
use crate::views::KeyView;
use dir_names::{Bytes, Memory, ValueKey};
use std::alloc::Global;
use std::marker::Model;

/// A value as it is stored: its key, and its bytes unless they are those of the key.
#[derive(Drop)]
pub(crate) struct StoredValue {
    key: ValueKey,
    bytes: Option<Bytes>,
}

/// The values of an attribute as they are stored.
#[derive(Drop)]
pub(crate) enum OneOrMany {
    /// A single value, without a `Vec`.
    One(StoredValue),
    /// A number of them in one `Vec`.
    Many(Vec<StoredValue>),
    /// So many that an insertion into one `Vec` would move too many.
    InPieces(Pieces<StoredValue>),
}

impl Model for StoredValue {
    ghost use Rattle.std.specs.Prelude.{ℕ, List, IsTrue};
    ghost use Rattle.dir_names.specs.declared.value.ValueKey.{ValueKey};
    ghost use Rattle.dir_tree.specs.Inside.Stored.{kept_bytes, has_bytes};

    ghost Value = { ValueKey × List ℕ };

    ghost view = { λ value. (value.key, kept_bytes value.key value.bytes) };

    ghost invariant = { λ value. IsTrue (has_bytes value.key value.bytes) };
}

impl StoredValue {
    pub(crate) fn new(key: ValueKey, bytes: Bytes) -> StoredValue
        ensures { result ≡ (key, bytes) }
    {
        if are_key_bytes(&key, &bytes) {
            StoredValue { key, bytes: None }
        } else {
            StoredValue {
                key,
                bytes: Some(bytes),
            }
        }
    }

    /// The value in memory of its own.
    pub(crate) fn copy_of(
        alloc: Global,
        key: KeyView<'_>,
        bytes: &[u8],
    ) -> Result<StoredValue, Memory>
        ensures { IfOk result (λ value. value ≡ (lent_key key.entry, bytes.now)) }
    {
        let key = key.to_key(alloc)?;
        match Bytes::copy_of(alloc, bytes) {
            Ok(bytes) => Ok(StoredValue::new(key, bytes)),
            Err(_) => Err(Memory),
        }
    }

    pub(crate) fn key(&self) -> &ValueKey
        ensures { result.now ≡ self.now.0 }
    {
        &self.key
    }

    pub(crate) fn bytes(&self) -> &Bytes
        ensures { result.now ≡ self.now.1 }
    {
        match &self.bytes {
            Some(bytes) => bytes,
            None => match &self.key {
                ValueKey::Text(text) => text,
                ValueKey::Name(_) => unreachable!(),
            },
        }
    }

    /// The key, unless it is the value itself.
    pub(crate) fn own_key(&self) -> Option<KeyView<'_>>
        ensures { key_or_value result self.now.1 ≡ self.now.0 }
    {
        match &self.bytes {
            Some(_) => Some(KeyView::of(&self.key)),
            None => None,
        }
    }

    /// Gives the value other bytes under its key.
    pub(crate) fn set_bytes(&mut self, bytes: Bytes)
        ensures { self.new ≡ (self.old.0, bytes) }
    {
        self.bytes = if are_key_bytes(&self.key, &bytes) {
            None
        } else {
            Some(bytes)
        };
    }

    pub(crate) fn into_bytes(self) -> Bytes
        ensures { result ≡ self.1 }
    {
        let StoredValue { key, bytes } = self;
        match bytes {
            Some(bytes) => bytes,
            None => match key {
                ValueKey::Text(text) => text,
                ValueKey::Name(_) => unreachable!(),
            },
        }
    }

    pub(crate) fn try_clone(&self, alloc: Global) -> Result<StoredValue, Memory>
        ensures { IfOk result (λ value. value ≡ self.now) }
    {
        match (self.key.try_clone(alloc), self.bytes().try_clone(alloc)) {
            (Ok(key), Ok(bytes)) => Ok(StoredValue::new(key, bytes)),
            _ => Err(Memory),
        }
    }
}

/// Whether these bytes are those of the key.
fn are_key_bytes(key: &ValueKey, bytes: &Bytes) -> bool
    ensures { result ≡ true → (kept_bytes key.now None ≡ bytes.now) × IsTrue (has_bytes key.now None) }
{
    match key {
        ValueKey::Text(text) => text == bytes,
        ValueKey::Name(_) => false,
    }
}

/// An element of a list.
pub(crate) trait Element {
    /// The same element in memory of its own.
    fn copied(&self, alloc: Global) -> Result<Self, Memory>
        ensures { IfOk result (λ copy. copy ≡ self.now) };
}

impl Element for StoredValue {
    fn copied(&self, alloc: Global) -> Result<StoredValue, Memory> {
        self.try_clone(alloc)
    }
}

/// The same elements in memory of their own.
pub(crate) fn clones<T: Element + Drop>(alloc: Global, elements: &[T]) -> Result<Vec<T>, Memory>
    ensures { IfOk result (λ copy. copy.items ≡ elements.now) }
{
    let mut copy = Vec::with_capacity(alloc, elements.len())?;
    for element in elements {
        copy.push(element.copied(alloc)?)?;
    }
    Ok(copy)
}
