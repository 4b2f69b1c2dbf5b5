//! A long list in pieces, so that an insertion or a removal moves the elements of one piece alone.

ghost use Rattle.std.specs.List.{insert, remove};
ghost use Rattle.std.specs.List.Sorted.{IsSearchInRange};
ghost use Rattle.std.specs.Prelude.{◌≡◌, ◌+◌, ◌^◌, ◌≤◌, ◌<◌, ◌-◌, ◌∷◌, ◌++◌, ℕ, List, [], Err, IfErr, IfOk, IsTrue, OnErr, OnOk, false, get_or, length, map, set, slice_index_or, take, true};
ghost use Rattle.std.specs.Ordering.{is_lt};
ghost use Rattle.dir_names.specs.Sorted.{place};
ghost use Rattle.dir_names.specs.Values.{value_key_cmp};
ghost use Rattle.dir_names.specs.declared.value.ValueKey.{ValueKey};
ghost use Rattle.dir_tree.specs.Content.{Keyed};
ghost use Rattle.dir_tree.specs.Inside.AttributeLists.{with_values};
ghost use Rattle.dir_tree.specs.Inside.Searches.{sought_key};
ghost use Rattle.dir_tree.specs.Inside.Stored.{are_rising, value_pair};
ghost use Rattle.dir_tree.specs.Inside.Pieces.{after_elements, AreFilled, HasRoom, IsInside, IsPieceFor, IsPlace, IsSearchInPiece, IsSplitAt, joined};

use crate::attributes::Attribute;
use crate::search::{Sought, ends_below, place_of};
use crate::stored::{Element, StoredValue, clones};
use crate::values::ValueMap;
use dir_names::{Bytes, Memory};
use std::alloc::Global;
use std::marker::Model;
use std::mem;

/// How many elements one `Vec` has at most. It is the most that an insertion or a removal moves.
pub(crate) const MOST: usize = 1024;

/// A list in pieces, none of which is empty or has more than `MOST` elements.
#[derive(Drop)]
pub(crate) struct Pieces<T> {
    pieces: Vec<Vec<T>>,
    /// How many elements the pieces have together.
    len: usize,
}

impl<T> Model for Pieces<T> {
    ghost use Rattle.std.specs.Prelude.{◌≡◌, List, length};
    ghost use Rattle.dir_tree.specs.Inside.Pieces.{AreFilled, joined};

    ghost Value = { List T };

    ghost view = { λ list. joined list.pieces.items };

    ghost invariant = { λ list. (list.len ≡ length (joined list.pieces.items)) × AreFilled 1024 list.pieces.items };
}

/// A place in pieces: an index in one of them.
#[derive(Drop)]
struct Place {
    piece: usize,
    within: usize,
}

impl<T: Drop> Pieces<T> {
    /// The elements of a `Vec`, in one piece. If memory runs out, they are given back.
    pub(crate) fn from_vec(alloc: Global, values: Vec<T>) -> Result<Pieces<T>, Vec<T>>
        requires some { 0 < length values.items }
        requires most { length values.items ≤ MOST }
        ensures ok { IfOk result (λ list. list ≡ values.items) }
        ensures err { IfErr result (λ back. back ≡ values) }
    {
        let len = values.len();
        let mut pieces = Vec::new(alloc);
        match pieces.push(values) {
            Ok(()) => Ok(Pieces { pieces, len }),
            Err(refused) => Err(refused.value),
        }
    }

    pub(crate) fn len(&self) -> usize
        ensures { result ≡ length self.now }
    {
        self.len
    }

    pub(crate) fn allocator(&self) -> Global {
        *self.pieces.allocator()
    }

    pub(crate) fn as_slice(&self) -> &[Vec<T>]
        ensures all { joined result.now ≡ self.now }
        ensures filled { AreFilled MOST result.now }
    {
        self.pieces.as_slice()
    }

    /// The element at an index.
    pub(crate) fn get(&self, at: usize) -> &T
        requires { at < length self.now }
        ensures { result.now ≡ get_or self.now at result.now }
    {
        let place = place_at(self.pieces.as_slice(), at);
        &self.pieces[place.piece][place.within]
    }

    /// Inserts an element at an index.
    ///
    /// # Errors
    ///
    /// `Memory`. Then the list is as it was.
    pub(crate) fn insert(&mut self, alloc: Global, at: usize, value: T) -> Result<(), Memory>
        requires { at ≤ length self.old }
        ensures ok { OnOk result (self.new ≡ insert self.old at value) }
        ensures err { OnErr result (self.new ≡ self.old) }
    {
        let len = one_more(self.len)?;
        if at == self.len && is_last_full(self.pieces.as_slice()) {
            push_piece(alloc, &mut self.pieces, value)?;
        } else {
            let place = place_before(self.pieces.as_slice(), at);
            let place = place_with_room(&mut self.pieces, place)?;
            insert_at(&mut self.pieces, place, value)?;
        }
        self.len = len;
        Ok(())
    }

    /// Removes the element at an index. The call doesn't allocate.
    pub(crate) fn remove(&mut self, at: usize) -> T
        requires { at < length self.old }
        ensures value { result ≡ get_or self.old at result }
        ensures rest { self.new ≡ remove self.old at }
    {
        let place = place_at(self.pieces.as_slice(), at);
        let value = remove_at(&mut self.pieces, place);
        self.len -= 1;
        value
    }

    /// Puts an element in the place of the one at an index, and returns the old one. The call doesn't allocate.
    pub(crate) fn replace(&mut self, at: usize, value: T) -> T
        requires { at < length self.old }
        ensures old { result ≡ get_or self.old at result }
        ensures new { self.new ≡ set self.old at value }
    {
        let place = place_at(self.pieces.as_slice(), at);
        let values = &mut self.pieces[place.piece];
        mem::replace(&mut values[place.within], value)
    }
}

impl<T: Element + Drop> Pieces<T> {
    pub(crate) fn try_clone(&self, alloc: Global) -> Result<Pieces<T>, Memory>
        ensures { IfOk result (λ list. list ≡ self.now) }
    {
        let mut pieces = Vec::with_capacity(alloc, self.pieces.len())?;
        for piece in self.pieces.as_slice() {
            pieces.push(clones(alloc, piece.as_slice())?)?;
        }
        Ok(Pieces {
            pieces,
            len: self.len,
        })
    }
}

impl Pieces<StoredValue> {
    /// The index of the value with the key that is sought, or the index at which it would be inserted.
    pub(crate) fn find(&self, sought: &Sought<'_>) -> Result<usize, usize>
        requires { IsTrue (are_rising self.now) }
        ensures range { IsSearchInRange result (length self.now) }
        ensures place { result ≡ place value_key_cmp (sought_key sought.now) (map (λ value. (value_pair value).0) self.now) }
    {
        let len = self.len();
        let piece = piece_for(self.pieces.as_slice(), sought);
        if piece == self.pieces.len() {
            return Err(len);
        }
        let found = place_of(self.pieces[piece].as_slice(), sought);
        index_in_all(self.pieces.as_slice(), piece, found)
    }

    /// Whether all values are below the key that is sought, which then would be inserted at the end.
    pub(crate) fn is_below(&self, sought: &Sought<'_>) -> bool
        requires { IsTrue (are_rising self.now) }
        ensures { result ≡ true → place value_key_cmp (sought_key sought.now) (map (λ value. (value_pair value).0) self.now) ≡ Err (length self.now) }
    {
        let pieces = self.pieces.as_slice();
        pieces.is_empty() || ends_below(pieces[pieces.len() - 1].as_slice(), sought)
    }

    /// Gives the value at an index other bytes. The call doesn't allocate.
    pub(crate) fn set_bytes(&mut self, at: usize, bytes: Bytes)
        requires { at < length self.old }
        ensures { (value : ValueKey × List ℕ) → self.new ≡ set self.old at ((get_or self.old at value).0, bytes) }
    {
        let place = place_at(self.pieces.as_slice(), at);
        let values = &mut self.pieces[place.piece];
        values[place.within].set_bytes(bytes);
    }
}

impl Pieces<Attribute> {
    /// Gives the attribute at an index other values, and returns the old ones. The call doesn't allocate.
    pub(crate) fn replace_values(&mut self, at: usize, values: ValueMap) -> ValueMap
        requires { at < length self.old }
        ensures old { (a : Keyed) → result ≡ (get_or self.old at a).stored.values }
        ensures new { (a : Keyed) → self.new ≡ set self.old at (with_values (get_or self.old at a) values) }
    {
        let place = place_at(self.pieces.as_slice(), at);
        let attributes = &mut self.pieces[place.piece];
        attributes[place.within].replace_values(values)
    }
}

/// The number after this one. A list of `usize::MAX` elements takes no more, since no memory has so many.
fn one_more(len: usize) -> Result<usize, Memory>
    ensures { IfOk result (λ n. n ≡ len + 1) }
{
    len.checked_add(1).ok_or(Memory)
}

/// How many elements the pieces have together.
fn count<T>(pieces: &[Vec<T>]) -> usize
    requires { length (joined pieces.now) < 2 ^ 64 }
    ensures { result ≡ length (joined pieces.now) }
{
    let mut values = 0;
    for piece in pieces {
        values += piece.len();
    }
    values
}

/// What a search in one piece found, as an index of the whole list.
pub(crate) fn index_in_all<T>(
    pieces: &[Vec<T>],
    piece: usize,
    found: Result<usize, usize>,
) -> Result<usize, usize>
    requires piece { piece < length pieces.now }
    requires found { IsSearchInPiece pieces.now piece found }
    requires len { length (joined pieces.now) < 2 ^ 64 }
    ensures range { IsSearchInRange result (length (joined pieces.now)) }
    ensures is { result ≡ after_elements (length (joined (take piece pieces.now))) found }
{
    let before = count(&pieces[..piece]);
    match found {
        Ok(within) => Ok(before + within),
        Err(within) => Err(before + within),
    }
}

/// The place of the element at an index.
fn place_at<T>(pieces: &[Vec<T>], at: usize) -> Place
    requires { at < length (joined pieces.now) }
    ensures place { IsPlace pieces.now result.piece result.within at }
    ensures inside { IsInside pieces.now result.piece result.within }
{
    let mut within = at;
    for (piece, values) in pieces.iter().enumerate() {
        if within < values.len() {
            return Place { piece, within };
        }
        within -= values.len();
    }
    unreachable!()
}

/// The place at which an element is inserted to have this index: after the element that comes before it.
fn place_before<T>(pieces: &[Vec<T>], at: usize) -> Place
    requires some { 0 < length pieces.now }
    requires at { at ≤ length (joined pieces.now) }
    ensures { IsPlace pieces.now result.piece result.within at }
{
    if at == 0 {
        return Place {
            piece: 0,
            within: 0,
        };
    }
    let place = place_at(pieces, at - 1);
    Place {
        piece: place.piece,
        within: place.within + 1,
    }
}

/// Whether the last piece is full, or there is none.
fn is_last_full<T>(pieces: &[Vec<T>]) -> bool
    ensures { result ≡ false → 0 < length pieces.now }
{
    match pieces.last() {
        Some(piece) => piece.len() >= MOST,
        None => true,
    }
}

/// Adds a piece of one element at the end.
fn push_piece<T: Drop>(alloc: Global, pieces: &mut Vec<Vec<T>>, value: T) -> Result<(), Memory>
    ensures ok { OnOk result (joined pieces.new.items ≡ joined pieces.old.items ++ value ∷ []) }
    ensures err { OnErr result (joined pieces.new.items ≡ joined pieces.old.items) }
    ensures filled { AreFilled MOST pieces.old.items → AreFilled MOST pieces.new.items }
{
    let mut piece = Vec::new(alloc);
    piece.push(value)?;
    pieces.push(piece)?;
    Ok(())
}

/// A place for the same index in a piece that isn't full: a full piece is split in two halves.
///
/// # Errors
///
/// `Memory`.
fn place_with_room<T: Drop>(pieces: &mut Vec<Vec<T>>, place: Place) -> Result<Place, Memory>
    requires piece { place.piece < length pieces.old.items }
    requires filled { AreFilled MOST pieces.old.items }
    ensures place { IfOk result (λ to. (at : ℕ) → IsPlace pieces.old.items place.piece place.within at → IsPlace pieces.new.items to.piece to.within at) }
    ensures room { IfOk result (λ to. HasRoom MOST pieces.new.items to.piece) }
    ensures joined { joined pieces.new.items ≡ joined pieces.old.items }
    ensures filled { AreFilled MOST pieces.new.items }
{
    let Place { piece, within } = place;
    if pieces[piece].len() < MOST {
        return Ok(Place { piece, within });
    }
    let half = pieces[piece].len() / 2;
    split(pieces, piece, half)?;
    if within <= half {
        Ok(Place { piece, within })
    } else {
        Ok(Place {
            piece: piece + 1,
            within: within - half,
        })
    }
}

/// Splits a piece at an index.
///
/// # Errors
///
/// `Memory`. Then the pieces are as they were.
fn split<T: Drop>(pieces: &mut Vec<Vec<T>>, piece: usize, at: usize) -> Result<(), Memory>
    requires piece { piece < length pieces.old.items }
    requires at { IsInside pieces.old.items piece at }
    ensures ok { OnOk result (IsSplitAt pieces.old.items pieces.new.items piece at) }
    ensures err { OnErr result (pieces.new.items ≡ pieces.old.items) }
{
    pieces.reserve(1)?;
    let values = &mut pieces[piece];
    let rest = values.split_off(at)?;
    match pieces.insert(piece + 1, rest) {
        Ok(()) => Ok(()),
        Err(_) => unreachable!(),
    }
}

/// Inserts an element at a place.
///
/// # Errors
///
/// `Memory`. Then the elements are as they were.
fn insert_at<T: Drop>(pieces: &mut Vec<Vec<T>>, place: Place, value: T) -> Result<(), Memory>
    requires { (at : ℕ) × IsPlace pieces.old.items place.piece place.within at }
    ensures ok { OnOk result ((at : ℕ) → IsPlace pieces.old.items place.piece place.within at → joined pieces.new.items ≡ insert (joined pieces.old.items) at value) }
    ensures err { OnErr result (joined pieces.new.items ≡ joined pieces.old.items) }
    ensures filled { HasRoom MOST pieces.old.items place.piece → AreFilled MOST pieces.old.items → AreFilled MOST pieces.new.items }
{
    let values = &mut pieces[place.piece];
    values.insert(place.within, value)?;
    Ok(())
}

/// Removes the element at a place, and the piece if it becomes empty.
fn remove_at<T: Drop>(pieces: &mut Vec<Vec<T>>, place: Place) -> T
    requires piece { place.piece < length pieces.old.items }
    requires inside { IsInside pieces.old.items place.piece place.within }
    ensures value { (at : ℕ) → IsPlace pieces.old.items place.piece place.within at → result ≡ get_or (joined pieces.old.items) at result }
    ensures rest { (at : ℕ) → IsPlace pieces.old.items place.piece place.within at → joined pieces.new.items ≡ remove (joined pieces.old.items) at }
    ensures filled { AreFilled MOST pieces.old.items → AreFilled MOST pieces.new.items }
{
    let values = &mut pieces[place.piece];
    let value = values.remove(place.within);
    if values.is_empty() {
        let _ = pieces.remove(place.piece);
    }
    value
}

/// The piece to which the key that is sought belongs, or the number of pieces if all end below it.
fn piece_for(pieces: &[Vec<StoredValue>], sought: &Sought<'_>) -> usize
    requires { AreFilled MOST pieces.now }
    ensures { IsPieceFor value_key_cmp (λ value. (value_pair value).0) pieces.now (sought_key sought.now) result }
{
    let mut low = 0;
    let mut high = pieces.len();
    while low < high {
        let middle = low + (high - low) / 2;
        if ends_below(pieces[middle].as_slice(), sought) {
            low = middle + 1;
        } else {
            high = middle;
        }
    }
    low
}
