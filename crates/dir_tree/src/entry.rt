//! Entries: made by an add, looked up, and taken apart to be changed (RFC 4512, sections 2.2 and 2.3).

ghost use Rattle.std.specs.Prelude.{◌≡◌, IfOk, IfSome, cond, ok_or, option_copied, take};
ghost use Rattle.std.specs.Option.{option_map};
ghost use Rattle.std.specs.FinMap as fin;
ghost use Rattle.dir_names.specs.NameKeys.{rdn_key};
ghost use Rattle.dir_names.specs.declared.value.ValueKey.TheVariants.{Text};
ghost use Rattle.dir_tree.specs.ChangedEntry.{content_of};
ghost use Rattle.dir_tree.specs.Content.{has_value};
ghost use Rattle.dir_tree.specs.NewEntry.{Makes, new_entry};
ghost use Rattle.dir_tree.specs.Slots.{with_slots};
ghost use Rattle.dir_tree.specs.declared.fault.EntryFault.TheVariants as EntryFault;

use crate::EntryFault;
use crate::attributes::AttributeMap;
use crate::kept::{AttributeViews, KeptAttributes};
use crate::lines::attributes_of;
use crate::packed::Shared;
use crate::parts::Parts;
use crate::views::AttributeView;
use dir_names::{
    AttrKey, Dn, Lines, Memory, NameFault, Rdn, RdnKey, RecentNames, Schema, ValueKey,
};
use std::alloc::Global;
use std::marker::Model;

/// An entry: its own name as spelled, and its attributes (RFC 4512, section 2.2). The own name is one
/// RDN, or for the entry of the suffix the whole suffix, leaf first.
#[derive(Debug)]
pub struct Entry {
    own: Vec<Rdn>,
    key: RdnKey,
    attributes: KeptAttributes,
}

// Written out, so that a drop is one call in proofs (docs/CONTRIBUTING.md).
impl Drop for Entry {
    fn drop(self) {
        let Entry {
            own,
            key,
            attributes,
        } = self;
        drop(own);
        drop(key);
        drop(attributes);
    }
}

impl Model for Entry {
    ghost use Rattle.dir_tree.specs.Content.{Content};
    ghost use Rattle.dir_tree.specs.Inside.Codes.{content_code};

    ghost Value = { Content };

    ghost coded = { content_code };

    ghost view = { λ e. record { own = e.own.items; key = e.key; attributes = e.attributes } };
}

impl Entry {
    /// The entry that an add makes: it has the values of the lines, and those of its own RDN that no line
    /// gives. A description is spelled as in its first line, or else as in the RDN.
    ///
    /// # Errors
    ///
    /// `NotNamed` if the own name has no RDN, or its leaf RDN has no key; else `BadValue` if a value of a
    /// line has no key; else `Twice` if two lines give an attribute one value; else `Single` if an
    /// attribute of a single type has more than one value.
    pub fn make(
        alloc: Global,
        schema: &Schema,
        spelled: Vec<Rdn>,
        values: Lines,
    ) -> Result<Entry, EntryFault>
        ensures { Makes (λ entry. entry) result (new_entry schema.now spelled.items values) }
    {
        Entry::make_by(alloc, schema, &mut RecentNames::new(), spelled, values)
    }

    /// `make`, by the names that were read before.
    pub(crate) fn make_by(
        alloc: Global,
        schema: &Schema,
        names: &mut RecentNames,
        spelled: Vec<Rdn>,
        values: Lines,
    ) -> Result<Entry, EntryFault>
        ensures { Makes (λ entry. entry) result (new_entry schema.now spelled.items values) }
    {
        let mut own = spelled;
        own.shrink_to_fit();
        let Some(leaf) = own.first() else {
            return Err(EntryFault::NotNamed);
        };
        let key = leaf_key(alloc, schema, leaf)?;
        let mut attributes = attributes_of(alloc, schema, names, values)?;
        attributes.add_missing(alloc, schema, leaf)?;
        if attributes.exceeds_single_value(schema) {
            return Err(EntryFault::Single);
        }
        Ok(Entry {
            own,
            key,
            attributes: KeptAttributes::packed(alloc, attributes),
        })
    }

    /// The own name as spelled, leaf first: one RDN, or all of the suffix.
    pub fn own(&self) -> &[Rdn]
        ensures { result.now ≡ self.now.own }
    {
        self.own.as_slice()
    }

    /// The key of its own RDN: the leaf of its own name.
    pub fn key(&self) -> &RdnKey
        ensures { result.now ≡ self.now.key }
    {
        &self.key
    }

    /// The attribute with this description key.
    pub fn attribute(&self, key: &AttrKey) -> Option<AttributeView<'_>>
        ensures value { option_map (λ a. a.stored) result ≡ fin.get self.now.attributes key.now }
        ensures key { IfSome result (λ a. a.key ≡ key.now) }
    {
        self.attributes.get(key)
    }

    /// Whether the attribute has the value.
    pub fn has(&self, attr: &AttrKey, value: &ValueKey) -> bool
        ensures { result ≡ has_value self.now.attributes attr.now value.now }
    {
        self.attributes.has(attr, value)
    }

    /// Whether the attribute has the value with this text as its key.
    pub fn has_text(&self, attr: &AttrKey, text: &[u8]) -> bool
        ensures { result ≡ has_value self.now.attributes attr.now (Text text.now) }
    {
        self.attributes.has_text(attr, text)
    }

    /// The attributes, in order of their keys.
    pub fn attributes(&self) -> AttributeViews<'_>
        ensures { result ≡ fin.entries self.now.attributes }
    {
        self.attributes.iter()
    }

    /// The attributes as a map in memory of its own.
    pub fn to_map(&self, alloc: Global) -> Result<AttributeMap, Memory>
        ensures { IfOk result (λ map. map ≡ self.now.attributes) }
    {
        self.attributes.to_map(alloc)
    }

    /// Whether the entry is packed and has at most 64 values: only then `with_part` may answer attributes.
    pub fn is_small(&self) -> bool {
        self.attributes.are_small()
    }

    /// The attributes with what a part has under these keys, packed. None where the entry is not small, where it would have
    /// more than 64 values or more than 65,535 bytes of text, or memory runs out: then they are to be opened.
    pub fn with_part(
        &self,
        alloc: Global,
        keys: &[AttrKey],
        part: &AttributeMap,
    ) -> Option<KeptAttributes>
        ensures { IfSome result (λ attributes. attributes ≡ with_slots self.now.attributes keys.now part.now) }
    {
        self.attributes.with_part(alloc, keys, part)
    }

    /// The entry with other attributes, in memory of its own.
    pub fn with_attributes(
        &self,
        alloc: Global,
        attributes: KeptAttributes,
    ) -> Result<Entry, Memory>
        ensures { IfOk result (λ e. e ≡ record { own = self.now.own; key = self.now.key; attributes = attributes }) }
    {
        let own = clones(alloc, self.own.as_slice())?;
        let Ok(key) = self.key.try_clone(alloc) else {
            return Err(Memory);
        };
        Ok(Entry {
            own,
            key,
            attributes,
        })
    }

    /// The entry in little memory, at this key: it shares what the key and the entries before have too.
    pub(crate) fn settled(self, alloc: Global, key: &RdnKey, shared: &mut Shared) -> Entry
        ensures { result ≡ self }
    {
        let Entry {
            own,
            key: mut own_key,
            attributes,
        } = self;
        share_key(alloc, &mut own_key, key);
        let mut attributes = attributes.packed_again(alloc);
        attributes.share(alloc, shared);
        Entry {
            own,
            key: own_key,
            attributes,
        }
    }

    /// The fields of the entry. The call doesn't allocate.
    pub fn into_parts(self) -> Parts
        ensures { content_of result ≡ self }
    {
        let Entry {
            own,
            key,
            attributes,
        } = self;
        Parts {
            own,
            key,
            attributes,
        }
    }

    /// The entry with these fields, as they are: whether an entry may have them is for the caller to know
    /// (`Parts::close` judges it). The call doesn't allocate.
    pub fn of(parts: Parts) -> Entry
        ensures { result ≡ content_of parts }
    {
        let Parts {
            own,
            key,
            attributes,
        } = parts;
        Entry {
            own,
            key,
            attributes,
        }
    }

    pub fn try_clone(&self, alloc: Global) -> Result<Entry, Memory>
        ensures { IfOk result (λ e. e ≡ self.now) }
    {
        let attributes = KeptAttributes::of(self.attributes.to_map(alloc)?);
        self.with_attributes(alloc, attributes)
    }
}

/// The same RDNs in memory of their own.
fn clones(alloc: Global, rdns: &[Rdn]) -> Result<Vec<Rdn>, Memory>
    ensures { IfOk result (λ copy. copy.items ≡ rdns.now) }
{
    let mut copy = Vec::with_capacity(alloc, rdns.len())?;
    for rdn in rdns {
        let Ok(rdn) = rdn.try_clone(alloc) else {
            return Err(Memory);
        };
        copy.push(rdn)?;
    }
    Ok(copy)
}

/// The key of an entry's own RDN.
pub(crate) fn leaf_key(alloc: Global, schema: &Schema, leaf: &Rdn) -> Result<RdnKey, EntryFault>
    ensures { Makes (λ key. key) result (ok_or (rdn_key schema.now leaf.now) EntryFault.NotNamed) }
{
    match leaf.key(alloc, schema) {
        Ok(key) => Ok(key),
        Err(NameFault::Memory) => Err(EntryFault::Memory),
        Err(_) => Err(EntryFault::NotNamed),
    }
}

/// The own name of an entry of this name: the whole name for the suffix's entry, else the leaf RDN.
pub fn own_rdns(name: Dn, is_suffix: bool) -> Vec<Rdn>
    ensures { result.items ≡ cond is_suffix name (take 1 name) }
{
    let mut rdns = name.into_rdns();
    if !is_suffix {
        rdns.truncate(1);
    }
    rdns
}

/// Exchanges a key for a clone of the other, if they are equal.
fn share_key(alloc: Global, own: &mut RdnKey, key: &RdnKey)
    ensures { own.new ≡ own.old }
{
    if *own == *key {
        if let Ok(key) = key.try_clone(alloc) {
            *own = key;
        }
    }
}
