//! The attributes of an entry as a list. A long list is kept in pieces.

ghost use Rattle.std.specs.FinMap as fin;
ghost use Rattle.std.specs.List.{insert, remove};
ghost use Rattle.std.specs.List.Sorted.{IsSearchInRange};
ghost use Rattle.std.specs.Prelude.{◌≡◌, ◌+◌, ◌-◌, ◌^◌, ◌≤◌, ◌<◌, ◌∷◌, ◌++◌, List, [], IfErr, IfOk, IfSome, IsTrue, OnErr, OnOk, false, get_or, length, map, set, slice_index_or};
ghost use Rattle.std.specs.Ordering.{is_lt};
ghost use Rattle.dir_names.specs.Orders.{attr_cmp};
ghost use Rattle.dir_names.specs.Sorted.{place};
ghost use Rattle.dir_tree.specs.Content.{Keyed};
ghost use Rattle.dir_tree.specs.Inside.AttributeLists.{AreFew, list_attributes, with_values};
ghost use Rattle.dir_tree.specs.Inside.Pieces.{AreFilled, IsPieceFor, joined};
ghost use Rattle.dir_tree.specs.Inside.Stored.{attribute_pair, attributes_rise};
ghost use Rattle.dir_tree.specs.NewEntry.{IsTwiceFaultOf};

use crate::EntryFault;
use crate::attributes::Attribute;
use crate::list_iter::ListIter;
use crate::pieces::{MOST, Pieces, index_in_all};
use crate::stored::{Element, clones};
use crate::values::ValueMap;
use dir_names::{AttrKey, Bytes, Memory, ValueKey};
use std::alloc::Global;
use std::marker::Model;
use std::mem;

/// The attributes of an entry, in order.
#[derive(Drop)]
pub(crate) struct AttributeList {
    kept: FewOrMany,
}

/// Attributes as they are kept.
#[derive(Drop)]
pub(crate) enum FewOrMany {
    /// A number of them in one `Vec`.
    Few(Vec<Attribute>),
    /// So many that an insertion into one `Vec` would move too many.
    InPieces(Pieces<Attribute>),
}

impl Model for AttributeList {
    ghost use Rattle.std.specs.Prelude.{List};
    ghost use Rattle.dir_tree.specs.Content.{Keyed};
    ghost use Rattle.std.specs.Coded.{coded_list};
    ghost use Rattle.dir_tree.specs.Inside.Codes.{keyed_code};
    ghost use Rattle.dir_tree.specs.Inside.AttributeLists.{AreFew, list_attributes};

    ghost Value = { List Keyed };

    ghost coded = { coded_list keyed_code };

    ghost view = { λ list. list_attributes list.kept };

    ghost invariant = { λ list. AreFew 1024 list.kept };
}

impl Element for Attribute {
    fn copied(&self, alloc: Global) -> Result<Attribute, Memory> {
        self.try_clone(alloc)
    }
}

impl AttributeList {
    pub(crate) fn empty(alloc: Global) -> AttributeList
        ensures { result ≡ [] }
    {
        AttributeList {
            kept: FewOrMany::Few(Vec::new(alloc)),
        }
    }

    /// The list without attributes, with room for so many in one `Vec`.
    pub(crate) fn with_capacity(alloc: Global, capacity: usize) -> Result<AttributeList, Memory>
        ensures { IfOk result (λ list. list ≡ []) }
    {
        Ok(AttributeList {
            kept: FewOrMany::Few(Vec::with_capacity(alloc, capacity)?),
        })
    }

    pub(crate) fn len(&self) -> usize
        ensures { result ≡ length self.now }
    {
        match &self.kept {
            FewOrMany::Few(attributes) => attributes.len(),
            FewOrMany::InPieces(pieces) => pieces.len(),
        }
    }

    /// The attributes, if they are in one `Vec`.
    pub(crate) fn as_slice(&self) -> Option<&[Attribute]>
        ensures { IfSome result (λ attributes. attributes.now ≡ self.now) }
    {
        match &self.kept {
            FewOrMany::Few(attributes) => Some(attributes.as_slice()),
            FewOrMany::InPieces(_) => None,
        }
    }

    pub(crate) fn iter(&self) -> ListIter<'_, Attribute>
        ensures { result ≡ self.now }
    {
        match &self.kept {
            FewOrMany::Few(attributes) => ListIter::of_slice(attributes.as_slice()),
            FewOrMany::InPieces(pieces) => ListIter::of_pieces(pieces.as_slice()),
        }
    }

    /// The index of the attribute with this key, or the index at which it would be inserted.
    pub(crate) fn find(&self, key: &AttrKey) -> Result<usize, usize>
        requires { IsTrue (attributes_rise self.now) }
        ensures range { IsSearchInRange result (length self.now) }
        ensures place { result ≡ place attr_cmp key.now (map (λ attribute. (attribute_pair attribute).0) self.now) }
    {
        match &self.kept {
            FewOrMany::Few(attributes) => place_of(attributes.as_slice(), key),
            FewOrMany::InPieces(pieces) => place_in(pieces.as_slice(), pieces.len(), key),
        }
    }

    /// The attribute at an index.
    pub(crate) fn get(&self, at: usize) -> &Attribute
        requires { at < length self.now }
        ensures { result.now ≡ get_or self.now at result.now }
    {
        match &self.kept {
            FewOrMany::Few(attributes) => &attributes[at],
            FewOrMany::InPieces(pieces) => pieces.get(at),
        }
    }

    /// Inserts an attribute at an index.
    ///
    /// # Errors
    ///
    /// `Memory`. Then the list is as it was.
    pub(crate) fn insert(&mut self, at: usize, attribute: Attribute) -> Result<(), Memory>
        requires { at ≤ length self.old }
        ensures ok { OnOk result (self.new ≡ insert self.old at attribute) }
        ensures err { OnErr result (self.new ≡ self.old) }
    {
        if let FewOrMany::Few(attributes) = &mut self.kept {
            if attributes.len() < MOST {
                attributes.insert(at, attribute)?;
                return Ok(());
            }
        }
        self.insert_in_pieces(at, attribute)
    }

    /// Inserts an attribute at an index of a long list.
    fn insert_in_pieces(&mut self, at: usize, attribute: Attribute) -> Result<(), Memory>
        requires { at ≤ length self.old }
        ensures ok { OnOk result (self.new ≡ insert self.old at attribute) }
        ensures err { OnErr result (self.new ≡ self.old) }
    {
        let alloc = self.allocator();
        let kept = mem::replace(&mut self.kept, FewOrMany::Few(Vec::new(alloc)));
        let (kept, put) = with_attribute(alloc, kept, at, attribute);
        self.kept = kept;
        put
    }

    fn allocator(&self) -> Global {
        match &self.kept {
            FewOrMany::Few(attributes) => *attributes.allocator(),
            FewOrMany::InPieces(pieces) => pieces.allocator(),
        }
    }

    /// Removes the attribute at an index. The call doesn't allocate.
    pub(crate) fn remove(&mut self, at: usize) -> Attribute
        requires { at < length self.old }
        ensures value { result ≡ get_or self.old at result }
        ensures rest { self.new ≡ remove self.old at }
    {
        match &mut self.kept {
            FewOrMany::Few(attributes) => attributes.remove(at),
            FewOrMany::InPieces(pieces) => pieces.remove(at),
        }
    }

    /// Puts an attribute in the place of the one at an index, and returns the old one. The call doesn't allocate.
    pub(crate) fn replace(&mut self, at: usize, attribute: Attribute) -> Attribute
        requires { at < length self.old }
        ensures old { result ≡ get_or self.old at result }
        ensures new { self.new ≡ set self.old at attribute }
    {
        match &mut self.kept {
            FewOrMany::Few(attributes) => mem::replace(&mut attributes[at], attribute),
            FewOrMany::InPieces(pieces) => pieces.replace(at, attribute),
        }
    }

    /// Gives the attribute at an index other values, and returns the old ones. The call doesn't allocate.
    pub(crate) fn replace_values(&mut self, at: usize, values: ValueMap) -> ValueMap
        requires { at < length self.old }
        ensures old { (a : Keyed) → result ≡ (get_or self.old at a).stored.values }
        ensures new { (a : Keyed) → self.new ≡ set self.old at (with_values (get_or self.old at a) values) }
    {
        match &mut self.kept {
            FewOrMany::Few(attributes) => attributes[at].replace_values(values),
            FewOrMany::InPieces(pieces) => pieces.replace_values(at, values),
        }
    }

    /// Adds a value to the attribute at an index.
    ///
    /// # Errors
    ///
    /// `Twice` if its key is there already. `Memory` if memory runs out. Then the list is as it was.
    pub(crate) fn add(
        &mut self,
        at: usize,
        alloc: Global,
        key: ValueKey,
        bytes: Bytes,
    ) -> Result<(), EntryFault>
        requires { at < length self.old }
        ensures ok { OnOk result ((a : Keyed) → self.new ≡ set self.old at (with_values (get_or self.old at a) (fin.insert (get_or self.old at a).stored.values key bytes))) }
        ensures free { OnOk result ((a : Keyed) → fin.contains_key (get_or self.old at a).stored.values key ≡ false) }
        ensures err { OnErr result (self.new ≡ self.old) }
        ensures fault { IfErr result (λ e. (a : Keyed) → IsTwiceFaultOf e (fin.contains_key (get_or self.old at a).stored.values key)) }
    {
        if let FewOrMany::Few(attributes) = &mut self.kept {
            return attributes[at].add(alloc, key, bytes);
        }
        let mut values = self.replace_values(at, ValueMap::empty(alloc));
        let added = values.insert(alloc, key, bytes);
        let _ = self.replace_values(at, values);
        added
    }

    /// Appends an attribute.
    ///
    /// # Errors
    ///
    /// `Memory`. Then the list is as it was.
    pub(crate) fn push(&mut self, attribute: Attribute) -> Result<(), Memory>
        ensures ok { OnOk result (self.new ≡ self.old ++ attribute ∷ []) }
        ensures err { OnErr result (self.new ≡ self.old) }
    {
        let end = self.len();
        self.insert(end, attribute)
    }

    pub(crate) fn try_clone(&self, alloc: Global) -> Result<AttributeList, Memory>
        ensures { IfOk result (λ list. list ≡ self.now) }
    {
        let kept = match &self.kept {
            FewOrMany::Few(attributes) => FewOrMany::Few(clones(alloc, attributes.as_slice())?),
            FewOrMany::InPieces(pieces) => FewOrMany::InPieces(pieces.try_clone(alloc)?),
        };
        Ok(AttributeList { kept })
    }
}

/// The attributes with one more, at this index, unless memory runs out: then they are as they were.
fn with_attribute(
    alloc: Global,
    kept: FewOrMany,
    at: usize,
    attribute: Attribute,
) -> (FewOrMany, Result<(), Memory>)
    requires at { at ≤ length (list_attributes kept) }
    requires few { AreFew MOST kept }
    ensures ok { OnOk result.1 (list_attributes result.0 ≡ insert (list_attributes kept) at attribute) }
    ensures err { OnErr result.1 (list_attributes result.0 ≡ list_attributes kept) }
    ensures few { AreFew MOST result.0 }
{
    match kept {
        FewOrMany::Few(mut attributes) => {
            if attributes.len() < MOST {
                let put = match attributes.insert(at, attribute) {
                    Ok(()) => Ok(()),
                    Err(_) => Err(Memory),
                };
                return (FewOrMany::Few(attributes), put);
            }
            match Pieces::from_vec(alloc, attributes) {
                Ok(pieces) => pieces_with_attribute(alloc, pieces, at, attribute),
                Err(attributes) => (FewOrMany::Few(attributes), Err(Memory)),
            }
        }
        FewOrMany::InPieces(pieces) => pieces_with_attribute(alloc, pieces, at, attribute),
    }
}

fn pieces_with_attribute(
    alloc: Global,
    mut pieces: Pieces<Attribute>,
    at: usize,
    attribute: Attribute,
) -> (FewOrMany, Result<(), Memory>)
    requires { at ≤ length pieces }
    ensures ok { OnOk result.1 (list_attributes result.0 ≡ insert pieces at attribute) }
    ensures err { OnErr result.1 (list_attributes result.0 ≡ pieces) }
    ensures few { AreFew MOST result.0 }
{
    let put = pieces.insert(alloc, at, attribute);
    (FewOrMany::InPieces(pieces), put)
}

/// The index of the attribute with this key, or the index at which it would be inserted.
fn place_of(attributes: &[Attribute], key: &AttrKey) -> Result<usize, usize>
    requires { IsTrue (attributes_rise attributes.now) }
    ensures range { IsSearchInRange result (length attributes.now) }
    ensures place { result ≡ place attr_cmp key.now (map (λ attribute. (attribute_pair attribute).0) attributes.now) }
{
    attributes.binary_search_by(|attribute| attribute.description().key().cmp(key))
}

/// The same index, among attributes that are in pieces, of which there are so many.
fn place_in(pieces: &[Vec<Attribute>], len: usize, key: &AttrKey) -> Result<usize, usize>
    requires filled { AreFilled MOST pieces.now }
    requires len { len ≡ length (joined pieces.now) }
    requires rises { IsTrue (attributes_rise (joined pieces.now)) }
    ensures range { IsSearchInRange result (length (joined pieces.now)) }
    ensures place { result ≡ place attr_cmp key.now (map (λ attribute. (attribute_pair attribute).0) (joined pieces.now)) }
{
    let piece = piece_for(pieces, key);
    if piece == pieces.len() {
        return Err(len);
    }
    let found = place_of(pieces[piece].as_slice(), key);
    index_in_all(pieces, piece, found)
}

/// The piece to which a key belongs, or the number of pieces if all end below it.
fn piece_for(pieces: &[Vec<Attribute>], key: &AttrKey) -> usize
    requires { AreFilled MOST pieces.now }
    ensures { IsPieceFor attr_cmp (λ attribute. (attribute_pair attribute).0) pieces.now key.now result }
{
    let mut low = 0;
    let mut high = pieces.len();
    while low < high {
        let middle = low + (high - low) / 2;
        if ends_below(pieces[middle].as_slice(), key) {
            low = middle + 1;
        } else {
            high = middle;
        }
    }
    low
}

/// Whether the last attribute is below a key.
fn ends_below(attributes: &[Attribute], key: &AttrKey) -> bool
    requires { 0 < length attributes.now }
    ensures { (a : Keyed) → result ≡ is_lt (attr_cmp (attribute_pair (slice_index_or attributes.now (length attributes.now - 1) a)).0 key.now) }
{
    attributes[attributes.len() - 1]
        .description()
        .key()
        .cmp(key)
        .is_lt()
}
