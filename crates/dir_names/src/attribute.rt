//! Attribute descriptions as they are spelled, and what they mean (RFC 4512, section 2.5); in `options` their options.

ghost use Rattle.std.specs.Cmp.{partial_order_from_agreeing_total};
ghost use Rattle.std.specs.List.{list_all};
ghost use Rattle.std.specs.Ordering.{as_partial_cmp};
ghost use Rattle.std.specs.Prelude.{◌≡◌, ◌↔◌, IsTrue, Ok, refl, [], IfSome, map, option_copied};
ghost use Rattle.std.specs.Str.{str_to_ascii_lowercase};
ghost use Rattle.dir_names.specs.Ascii.{dot};
ghost use Rattle.dir_names.specs.Attr.{has_options};
ghost use Rattle.dir_names.specs.Covers.{Covers, covers};
ghost use Rattle.dir_names.specs.Inside.Left.{parts_left};
ghost use Rattle.dir_names.specs.Inside.Ranks.{HasRank, IsTextAt};
ghost use Rattle.dir_names.specs.Described.{described_eq, described_eq_laws, partial_described_eq_laws};
ghost use Rattle.dir_names.specs.Descriptions.{description_of, is_descr, is_keychar, is_number, is_numericoid, is_reserved, is_type};
ghost use Rattle.dir_names.specs.Orders.{bytes_cmp, bytes_eq, attr_cmp, attr_eq, attr_cmp_total, attr_cmp_ties, tied_equiv, tied_per};
ghost use Rattle.dir_names.specs.Outcome.{Gives};

pub(crate) mod options;

use crate::attribute::options::OptionSet;
use crate::limits::MAX_DESCRIPTION;
use crate::schema::table::RANKED;
use crate::text::{are_digits, split_once};
use crate::value::folding::lowercase_copy;
use crate::{Bytes, NameFault, Schema};
use std::alloc::Global;
use std::cmp::Ordering;
use std::marker::Model;
use std::rc::Rc;

/// What an attribute description means: the key of its type and the set of its options, in lower
/// case (RFC 4512, section 2.5). Copies share its memory.
#[derive(Debug, Drop)]
pub struct AttrKey {
    shared: Rc<AttrParts>,
}

#[derive(Debug, Drop)]
struct AttrParts {
    attr_type: Bytes,
    options: OptionSet,
    /// The place in `RANKED` of a frequent type.
    rank: Option<u8>,
}

impl Model for AttrParts {
    ghost use Rattle.dir_names.specs.Attr.{Attr};

    ghost Value = { Attr };

    ghost view = { λ p. record { attr_type = p.attr_type; options = p.options } };

    ghost use Rattle.std.specs.Prelude.{IfSome};
    ghost use Rattle.dir_names.specs.Inside.Ranks.{HasRank};

    ghost invariant = { λ p. IfSome p.rank (HasRank p.attr_type) };
}

impl AttrParts {
    fn rank(&self) -> Option<u8>
        ensures { IfSome result (HasRank self.now.attr_type) }
    {
        self.rank
    }

    fn attr_type(&self) -> &Bytes
        ensures { result.now ≡ self.now.attr_type }
    {
        &self.attr_type
    }

    fn options(&self) -> &OptionSet
        ensures { result.now ≡ self.now.options }
    {
        &self.options
    }
}

impl Model for AttrKey {
    ghost use Rattle.dir_names.specs.Attr.{Attr};

    ghost Value = { Attr };

    ghost view = { λ a. a.shared.value };
}

impl AttrKey {
    /// Whether an attribute described by `other` is described by this key too: the types are the same,
    /// and all options of this key are among those of `other` (RFC 4512, section 2.5.2.1).
    pub fn covers(&self, other: &AttrKey) -> bool
        ensures value { result ≡ covers self.now other.now }
        ensures meaning { IsTrue result ↔ Covers self.now other.now }
    {
        self.has_type_of(other) && self.options().is_subset(other.options())
    }

    /// Whether it has options.
    pub fn has_options(&self) -> bool
        ensures { result ≡ has_options self.now }
    {
        self.options().joined().is_some()
    }

    /// The same key, in the same memory. The one fault is `Memory`, if no more copies can be counted.
    pub fn try_clone(&self, _alloc: Global) -> Result<AttrKey, NameFault>
        ensures { Gives (λ key. key) result (Ok self.now) }
    {
        Ok(AttrKey {
            shared: self.shared.clone()?,
        })
    }

    /// The key of a type without options.
    pub(crate) fn of_type(alloc: Global, attr_type: Bytes) -> Result<AttrKey, NameFault>
        ensures { Gives (λ key. key) result (Ok (record { attr_type = attr_type; options = [] })) }
    {
        AttrKey::of(alloc, attr_type, OptionSet::empty())
    }

    fn of(alloc: Global, attr_type: Bytes, options: OptionSet) -> Result<AttrKey, NameFault>
        ensures { Gives (λ key. key) result (Ok (record { attr_type = attr_type; options = options })) }
    {
        let rank = rank_of(attr_type.as_slice());
        Ok(AttrKey {
            shared: Rc::new(
                alloc,
                AttrParts {
                    attr_type,
                    options,
                    rank,
                },
            )?,
        })
    }

    pub(crate) fn attr_type(&self) -> &[u8]
        ensures { result.now ≡ self.now.attr_type }
    {
        self.shared.attr_type().as_slice()
    }

    pub(crate) fn options(&self) -> &OptionSet
        ensures { result.now ≡ self.now.options }
    {
        self.shared.options()
    }

    /// The place in `RANKED` of the type.
    pub(crate) fn rank(&self) -> Option<u8>
        ensures { IfSome result (HasRank self.now.attr_type) }
    {
        self.shared.rank()
    }

    #[inline(always)]
    fn has_type_of(&self, other: &AttrKey) -> bool
        ensures { result ≡ bytes_eq self.now.attr_type other.now.attr_type }
    {
        match (self.rank(), other.rank()) {
            (Some(rank), Some(other_rank)) => rank == other_rank,
            _ => self.attr_type() == other.attr_type(),
        }
    }

    fn cmp_types(&self, other: &AttrKey) -> Ordering
        ensures { result ≡ bytes_cmp self.now.attr_type other.now.attr_type }
    {
        match (self.rank(), other.rank()) {
            (Some(rank), Some(other_rank)) => rank.cmp(&other_rank),
            _ => self.attr_type().cmp(other.attr_type()),
        }
    }
}

/// The place in `RANKED` of a type, if it is there.
fn rank_of(attr_type: &[u8]) -> Option<u8>
    ensures { IfSome result (HasRank attr_type.now) }
{
    match place_of(&RANKED, attr_type) {
        Some(rank) if rank < RANKED.len() => Some(rank as u8),
        _ => None,
    }
}

/// A place at which a text is among these, which are in order: by a binary search.
fn place_of(texts: &[&str], text: &[u8]) -> Option<usize>
    ensures { IfSome result (λ at. IsTextAt (map (λ one. one.now) texts.now) text.now at) }
{
    let mut low = 0;
    let mut high = texts.len();
    while low < high {
        let middle = low + (high - low) / 2;
        let one = texts[middle].as_bytes();
        if one == text {
            return Some(middle);
        }
        if one < text {
            low = middle + 1;
        } else {
            high = middle;
        }
    }
    None
}

impl PartialEq for AttrKey {
    ghost eq = { attr_eq };

    ghost laws = { tied_per attr_cmp attr_cmp_total attr_cmp_ties };

    fn eq(&self, other: &AttrKey) -> bool {
        self.has_type_of(other) && self.options() == other.options()
    }
}

impl Eq for AttrKey {
    ghost laws = { tied_equiv attr_cmp attr_cmp_total attr_cmp_ties };
}

impl PartialOrd for AttrKey {
    ghost partial_cmp = { as_partial_cmp attr_cmp };

    ghost laws = { partial_order_from_agreeing_total attr_cmp attr_cmp_total (λ _ _. refl) attr_cmp_ties };

    fn partial_cmp(&self, other: &AttrKey) -> Option<Ordering> {
        Some(self.cmp(other))
    }
}

impl Ord for AttrKey {
    ghost cmp = { attr_cmp };

    ghost total = { attr_cmp_total };

    ghost matches_partial_cmp = { λ _ _. refl };

    ghost matches_eq = { attr_cmp_ties };

    fn cmp(&self, other: &AttrKey) -> Ordering {
        self.cmp_types(other)
            .then_with(|| self.options().cmp(other.options()))
    }
}

/// An attribute description as spelled, with its key. Copies share its memory.
#[derive(Debug, Drop)]
pub struct Description {
    shared: Rc<DescriptionParts>,
}

#[derive(Debug, Drop)]
struct DescriptionParts {
    spelling: Bytes,
    key: AttrKey,
}

impl Model for Description {
    ghost use Rattle.dir_names.specs.Described.{Described};

    ghost Value = { Described };

    ghost view = { λ d. record { spelling = d.shared.value.spelling; key = d.shared.value.key } };
}

impl Description {
    /// Reads a description of at most 512 bytes.
    ///
    /// # Errors
    ///
    /// `BadDescription` if the text is not a description; else `ReservedName` if its type is `dn`,
    /// `changetype` or `control`.
    pub fn read(alloc: Global, schema: &Schema, text: &[u8]) -> Result<Description, NameFault>
        ensures { Gives (λ description. description) result (description_of schema.now text.now) }
    {
        if let Some(frequent) = schema.frequent(text) {
            return frequent.try_clone(alloc);
        }
        if text.len() > MAX_DESCRIPTION {
            return Err(NameFault::BadDescription);
        }
        let (attr_type, more) = split_once(text, b';');
        if !is_type(attr_type) {
            return Err(NameFault::BadDescription);
        }
        let options = OptionSet::read(alloc, more)?;
        if is_reserved(attr_type) {
            return Err(NameFault::ReservedName);
        }
        let spelling = Bytes::copy_of(alloc, text)?;
        let key = AttrKey::of(alloc, schema.type_key(alloc, attr_type)?, options)?;
        Ok(Description {
            shared: Rc::new(alloc, DescriptionParts { spelling, key })?,
        })
    }

    pub fn spelling(&self) -> &[u8]
        ensures { result.now ≡ self.now.spelling }
    {
        self.shared.spelling.as_slice()
    }

    pub fn key(&self) -> &AttrKey
        ensures { result.now ≡ self.now.key }
    {
        &self.shared.key
    }

    /// The same description, in the same memory.
    pub fn try_clone(&self, _alloc: Global) -> Result<Description, NameFault>
        ensures { Gives (λ description. description) result (Ok self.now) }
    {
        Ok(Description {
            shared: self.shared.clone()?,
        })
    }
}

impl PartialEq for Description {
    ghost eq = { described_eq };

    ghost laws = { partial_described_eq_laws };

    fn eq(&self, other: &Description) -> bool {
        self.spelling() == other.spelling() && self.key() == other.key()
    }
}

impl Eq for Description {
    ghost laws = { described_eq_laws };
}

/// `oid`: a `descr` or a `numericoid`, without options (RFC 4512, section 1.4).
pub(crate) fn is_type(text: &[u8]) -> bool
    ensures { result ≡ is_type text.now }
{
    (is_descr(text) || is_numericoid(text)) && text.len() <= MAX_DESCRIPTION
}

/// `descr`: a letter followed by letters, digits and hyphens (RFC 4512, section 1.4).
pub(crate) fn is_descr(text: &[u8]) -> bool
    ensures { result ≡ is_descr text.now }
{
    let Some((first, rest)) = text.split_first() else {
        return false;
    };
    first.is_ascii_alphabetic() && are_keychars(rest)
}

pub(crate) fn are_keychars(text: &[u8]) -> bool
    ensures { result ≡ list_all is_keychar text.now }
{
    text.iter().all(|b| b.is_ascii_alphanumeric() || *b == b'-')
}

/// `numericoid`: two or more numbers, joined by dots.
pub(crate) fn is_numericoid(text: &[u8]) -> bool
    ensures { result ≡ is_numericoid text.now }
{
    text.contains(&b'.') && are_numbers(Some(text))
}

fn are_numbers(text: Option<&[u8]>) -> bool
    ensures { result ≡ list_all is_number (parts_left dot (option_copied text.entry)) }
{
    let mut rest = text;
    while let Some(more) = rest {
        let (part, after) = split_once(more, b'.');
        if !is_number(part) {
            return false;
        }
        rest = after;
    }
    true
}

/// `number`: `0`, or digits that don't begin with 0.
fn is_number(text: &[u8]) -> bool
    ensures { result ≡ is_number text.now }
{
    let Some((first, rest)) = text.split_first() else {
        return false;
    };
    first.is_ascii_digit() && (*first != b'0' || rest.is_empty()) && are_digits(rest)
}

/// The words that LDIF uses for its own lines.
pub(crate) fn is_reserved(attr_type: &[u8]) -> bool
    ensures { result ≡ is_reserved attr_type.now }
{
    attr_type.eq_ignore_ascii_case(b"dn")
        || attr_type.eq_ignore_ascii_case(b"changetype")
        || attr_type.eq_ignore_ascii_case(b"control")
}

pub(crate) fn lowercase_bytes(alloc: Global, text: &[u8]) -> Result<Bytes, NameFault>
    ensures { Gives (λ copy. copy) result (Ok (str_to_ascii_lowercase text.now)) }
{
    Ok(Bytes::new(lowercase_copy(alloc, text)?))
}
