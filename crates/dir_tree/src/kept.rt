//! The attributes of an entry as it keeps them: packed, from when it is made until it is changed.

ghost use Rattle.std.specs.Prelude.{◌≡◌, IfErr, IfOk, IfSome, IsTrue, Ok, Some, false};
ghost use Rattle.std.specs.Option.{option_map};
ghost use Rattle.std.specs.FinMap as fin;
ghost use Rattle.dir_names.specs.NameKeys.{rdn_key};
ghost use Rattle.dir_names.specs.declared.value.ValueKey.TheVariants.{Text};
ghost use Rattle.dir_tree.specs.Content.{has_value};
ghost use Rattle.dir_tree.specs.Inside.Stored.{attributes_in, attributes_rise};
ghost use Rattle.dir_tree.specs.Slots.{with_slots};
ghost use Rattle.dir_tree.specs.Inside.Patterns.{attributes_named};
ghost use Rattle.dir_tree.specs.NewEntry.{exceeds_single_value, rdn_lines, with_missing_of};

use crate::attributes::{AttributeMap, Attributes};
use crate::lent::LentAttributes;
use crate::packed::pattern::Pattern;
use crate::packed::{PackedAttributes, PackedViews, Shared};
use crate::parts::has_each;
use crate::views::AttributeView;
use dir_names::{AttrKey, Bytes, Description, Memory, Rdn, RdnKey, RecentNames, Schema, ValueKey};
use std::alloc::Global;
use std::fmt;
use std::marker::Model;

/// An entry with more values than this is not packed, so that its first change need not open it.
const MOST_PACKED: usize = 1024;

/// The most values of an entry that is packed again after a change. Larger entries stay unpacked, so the next change needs no unpacking.
const MOST_PACKED_AGAIN: usize = 64;

/// The form of an entry's attributes.
#[derive(Drop)]
pub(crate) enum Form {
    /// A form that can be changed.
    Open(AttributeMap),
    /// A form that takes little memory.
    Packed(PackedAttributes),
}

/// The attributes of an entry: an ordered map from description keys, which can be looked up, and opened to be
/// changed.
pub struct KeptAttributes {
    form: Form,
}

// Written out, so that a drop is one call in proofs (docs/CONTRIBUTING.md).
impl Drop for KeptAttributes {
    fn drop(self) {
        let KeptAttributes { form } = self;
        drop(form);
    }
}

/// Shows no attributes: there can be many.
impl fmt::Debug for KeptAttributes {
    fn fmt<W: fmt::Write>(&self, f: &mut fmt::Formatter<W>) -> fmt::Result {
        f.debug_struct("KeptAttributes").finish_non_exhaustive()
    }
}

impl Model for KeptAttributes {
    ghost use Rattle.dir_tree.specs.Content.{StoredAttributes};
    ghost use Rattle.dir_tree.specs.Inside.Codes.{attributes_code};
    ghost use Rattle.dir_tree.specs.Inside.Kept.{IsInOrder, kept_attributes};

    ghost Value = { StoredAttributes };

    ghost coded = { attributes_code };

    ghost view = { λ kept. kept_attributes kept.form };

    ghost invariant = { λ kept. IsInOrder kept.form };
}

impl KeptAttributes {
    /// The attributes of a map, as they are. The call doesn't allocate.
    pub fn of(map: AttributeMap) -> KeptAttributes
        ensures { result ≡ map }
    {
        KeptAttributes {
            form: Form::Open(map),
        }
    }

    /// These attributes, which are packed.
    pub(crate) fn of_packed(packed: PackedAttributes) -> KeptAttributes
        requires { IsTrue (attributes_rise packed) }
        ensures { result ≡ attributes_in packed }
    {
        KeptAttributes {
            form: Form::Packed(packed),
        }
    }

    /// The attributes of a new entry whose lines are arranged in a pattern, with the values of its own RDN that no line
    /// gives. None where this is not so, a line is at fault, an attribute of a single type has several values, or memory
    /// runs out.
    pub(crate) fn made(
        alloc: Global,
        schema: &Schema,
        recent: &mut RecentNames,
        leaf: &Rdn,
        key: &RdnKey,
        lines: &[(Description, Bytes)],
        pattern: &Pattern,
    ) -> Option<KeptAttributes>
        requires { rdn_key schema.now leaf.now ≡ Some key.now }
        ensures made { IfSome result (λ made. attributes_named schema.now leaf.now lines.now ≡ Ok made) }
        ensures single { IfSome result (λ made. exceeds_single_value schema.now made ≡ false) }
    {
        let lines = pattern.packed(alloc, schema, recent, lines)?;
        let made = KeptAttributes::of_packed(lines).with_missing(alloc, schema, leaf, key)?;
        if made.exceeds_single_value(schema) {
            return None;
        }
        Some(made)
    }

    /// The attributes with the values of an RDN of this key that are missing. None where memory runs out.
    fn with_missing(
        self,
        alloc: Global,
        schema: &Schema,
        rdn: &Rdn,
        key: &RdnKey,
    ) -> Option<KeptAttributes>
        requires { rdn_key schema.now rdn.now ≡ Some key.now }
        ensures { IfSome result (λ all. all ≡ with_missing_of self (rdn_lines schema.now rdn.now)) }
    {
        if has_each(&self, key.pairs()) {
            return Some(self);
        }
        let mut map = self.open(alloc).ok()?;
        map.add_missing(alloc, schema, rdn).ok()?;
        Some(KeptAttributes::packed(alloc, map))
    }

    /// The attributes of a map in little memory, unless they have many values, or there is no memory for that.
    pub(crate) fn packed(alloc: Global, map: AttributeMap) -> KeptAttributes
        ensures { result ≡ map }
    {
        KeptAttributes::packed_up_to(alloc, map, MOST_PACKED)
    }

    /// The attributes, packed again if they were opened.
    pub(crate) fn packed_again(self, alloc: Global) -> KeptAttributes
        ensures { result ≡ self }
    {
        let KeptAttributes { form } = self;
        match form {
            Form::Open(map) => KeptAttributes::packed_up_to(alloc, map, MOST_PACKED_AGAIN),
            Form::Packed(packed) => KeptAttributes {
                form: Form::Packed(packed),
            },
        }
    }

    /// The attributes of a map in little memory, unless they have more values than that, or there is no memory for it.
    fn packed_up_to(alloc: Global, map: AttributeMap, most: usize) -> KeptAttributes
        ensures { result ≡ map }
    {
        match packed_map(alloc, &map, most) {
            Some(packed) => packed,
            None => KeptAttributes::of(map),
        }
    }

    /// Whether the attributes are packed and not many, so that `with_part` may exchange some.
    pub(crate) fn are_small(&self) -> bool {
        match &self.form {
            Form::Open(_) => false,
            Form::Packed(packed) => packed.value_count() <= MOST_PACKED_AGAIN,
        }
    }

    /// The attributes with what a part has under these keys. None where they are not small, would have many values or too
    /// much text to be packed, or memory runs out.
    pub(crate) fn with_part(
        &self,
        alloc: Global,
        keys: &[AttrKey],
        part: &AttributeMap,
    ) -> Option<KeptAttributes>
        ensures { IfSome result (λ new. new ≡ with_slots self.now keys.now part.now) }
    {
        if !self.are_small() {
            return None;
        }
        let Form::Packed(packed) = &self.form else {
            return None;
        };
        if let Some(exchanged) = exchanged(alloc, packed, keys, part).ok()? {
            return Some(exchanged);
        }
        let mut attributes = LentAttributes::of_packed(alloc, packed).ok()?;
        attributes.set_all(keys, part).ok()?;
        attributes.packed_up_to(alloc, MOST_PACKED_AGAIN)
    }

    /// Shares the memory of what entries before have too.
    pub(crate) fn share(&mut self, alloc: Global, shared: &mut Shared)
        ensures { self.new ≡ self.old }
    {
        if let Form::Packed(packed) = &mut self.form {
            packed.share(alloc, shared);
        }
    }

    /// The attributes as a map, to be changed.
    ///
    /// # Errors
    ///
    /// The attributes, if memory runs out.
    pub fn open(self, alloc: Global) -> Result<AttributeMap, KeptAttributes>
        ensures ok { IfOk result (λ map. map ≡ self) }
        ensures err { IfErr result (λ kept. kept ≡ self) }
    {
        let KeptAttributes { form } = self;
        match form {
            Form::Open(map) => Ok(map),
            Form::Packed(packed) => match AttributeMap::unpacked(alloc, &packed) {
                Ok(map) => Ok(map),
                Err(_) => Err(KeptAttributes {
                    form: Form::Packed(packed),
                }),
            },
        }
    }

    /// The attributes as a map in memory of its own.
    pub fn to_map(&self, alloc: Global) -> Result<AttributeMap, Memory>
        ensures { IfOk result (λ map. map ≡ self.now) }
    {
        match &self.form {
            Form::Open(map) => map.try_clone(alloc),
            Form::Packed(packed) => AttributeMap::unpacked(alloc, packed),
        }
    }

    /// The attribute with this description key.
    pub fn get(&self, key: &AttrKey) -> Option<AttributeView<'_>>
        ensures value { option_map (λ a. a.stored) result ≡ fin.get self.now key.now }
        ensures key { IfSome result (λ a. a.key ≡ key.now) }
    {
        match &self.form {
            Form::Open(map) => match map.get(key) {
                Some(attribute) => Some(AttributeView::of(attribute)),
                None => None,
            },
            Form::Packed(packed) => packed.get(key),
        }
    }

    /// The attributes, in order of their keys.
    pub fn iter(&self) -> AttributeViews<'_>
        ensures { result ≡ fin.entries self.now }
    {
        match &self.form {
            Form::Open(map) => AttributeViews {
                open: map.iter(),
                packed: PackedViews::none(),
            },
            Form::Packed(packed) => AttributeViews {
                open: Attributes::none(),
                packed: packed.iter(),
            },
        }
    }

    /// Whether the attribute has the value.
    pub(crate) fn has(&self, attr: &AttrKey, value: &ValueKey) -> bool
        ensures { result ≡ has_value self.now attr.now value.now }
    {
        match self.get(attr) {
            Some(attribute) => attribute.has(value),
            None => false,
        }
    }

    /// Whether the attribute has the value with this text as its key.
    pub fn has_text(&self, attr: &AttrKey, text: &[u8]) -> bool
        ensures { result ≡ has_value self.now attr.now (Text text.now) }
    {
        match self.get(attr) {
            Some(attribute) => attribute.has_text(text),
            None => false,
        }
    }

    /// Whether an attribute of a single type has more than one value.
    pub fn exceeds_single_value(&self, schema: &Schema) -> bool
        ensures { result ≡ exceeds_single_value schema.now self.now }
    {
        for (key, attribute) in self.iter() {
            if attribute.has_many() && schema.single(key) {
                return true;
            }
        }
        false
    }
}

/// Packed attributes with what a part has under these keys, if that is one attribute in place of one with as many values.
fn exchanged(
    alloc: Global,
    packed: &PackedAttributes,
    keys: &[AttrKey],
    part: &AttributeMap,
) -> Result<Option<KeptAttributes>, Memory>
    requires { IsTrue (attributes_rise packed.now) }
    ensures { IfOk result (λ new. IfSome new (λ all. all ≡ with_slots (attributes_in packed.now) keys.now part.now)) }
{
    let [key] = keys else {
        return Ok(None);
    };
    let Some(attribute) = part.get(key) else {
        return Ok(None);
    };
    match packed.with_exchanged(alloc, attribute)? {
        Some(new) => Ok(Some(KeptAttributes::of_packed(new))),
        None => Ok(None),
    }
}

/// The attributes of a map in little memory, unless they have more values than that, or there is no memory for it.
fn packed_map(alloc: Global, map: &AttributeMap, most: usize) -> Option<KeptAttributes>
    ensures { IfSome result (λ kept. kept ≡ map.now) }
{
    if map.value_count() > most {
        return None;
    }
    LentAttributes::of_slice(alloc, map.as_slice()?)
        .ok()?
        .packed_up_to(alloc, most)
}

/// The attributes of an entry, lent, in order of their keys.
#[derive(Drop)]
pub struct AttributeViews<'a> {
    open: Attributes<'a>,
    packed: PackedViews<'a>,
}

impl<'a> Model for AttributeViews<'a> {
    ghost use Rattle.std.specs.Prelude.{◌++◌, List, map};
    ghost use Rattle.std.specs.Coded.{coded_list, coded×};
    ghost use Rattle.dir_names.specs.Attr.{Attr};
    ghost use Rattle.dir_tree.specs.Content.{Stored};
    ghost use Rattle.dir_tree.specs.Inside.Codes.{attr_code, stored_code};
    ghost use Rattle.dir_tree.specs.Inside.Stored.{attribute_pair};

    ghost Value = { List (Attr × Stored) };

    ghost coded = { coded_list (coded× attr_code stored_code) };

    ghost view = { λ s. s.open ++ map attribute_pair s.packed };
}

impl<'a> Iterator for AttributeViews<'a> {
    ghost use Rattle.std.specs.Iterator.{YieldsFirstBy, item_count};
    ghost use Rattle.std.specs.Prelude.{◌≡◌, IfSome};

    type Item = (&'a AttrKey, AttributeView<'a>);

    ghost next_gives = { λ s item t. YieldsFirstBy (λ item. (item.0.now, item.1.stored)) (λ rest. rest) s item t × IfSome item (λ item. item.1.key ≡ item.0.now) };

    ghost remaining = { item_count (λ rest. rest) };

    fn next(&mut self) -> Option<(&'a AttrKey, AttributeView<'a>)> {
        if let Some((key, attribute)) = self.open.next() {
            return Some((key, AttributeView::of(attribute)));
        }
        let attribute = self.packed.next()?;
        Some((attribute.description().key(), attribute))
    }
}
