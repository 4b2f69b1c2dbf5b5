//! What a value is compared by, under the matching rule of its type (RFC 4517, section 4.2).

ghost use Rattle.std.specs.Cmp.{partial_order_from_agreeing_total};
ghost use Rattle.std.specs.List.{list_all};
ghost use Rattle.std.specs.Ordering.{as_partial_cmp};
ghost use Rattle.std.specs.Result.{result_ok};
ghost use Rattle.std.specs.Prelude.{◌≡◌, ◌&&◌, is_some, nat_lt, Ok, refl, option_copied};
ghost use Rattle.std.specs.Str.{str_to_ascii_lowercase};
ghost use Rattle.dir_names.specs.Orders.{tied_equiv, tied_per};
ghost use Rattle.dir_names.specs.Outcome.{Gives};
ghost use Rattle.dir_names.specs.ValueKeys.Spaces.{without_extra_spaces, without_spaces_and_hyphens};
ghost use Rattle.dir_names.specs.ValueKeys.{folded_text, is_ascii, is_integer, is_object_id, is_text, key_if, text_key_of};
ghost use Rattle.dir_names.specs.Values.{value_key_cmp, value_key_eq, value_key_cmp_total, value_key_cmp_ties, text_of, name_of_key};

pub(crate) mod folding;
pub(crate) mod pieces;
pub(crate) mod pushed;
pub(crate) mod spaces;

use crate::attribute::lowercase_bytes;
use crate::text::is_positive;
use crate::value::folding::{folded_text, is_ascii, lowercase_copy};
use crate::value::spaces::{without_extra_spaces, without_spaces_and_hyphens};
use crate::{AttrKey, Bytes, DnSortKey, NameFault, RecentNames, Rule, Schema};
use std::alloc::Global;
use std::cmp::Ordering;
use std::str;

/// What a value is compared by: two values with the same key are the same value.
#[derive(Debug, Drop)]
pub enum ValueKey {
    /// The key under every rule but `Name`: bytes.
    Text(Bytes),
    /// The key under the rule `Name`: that of a name.
    Name(DnSortKey),
}

impl ValueKey {
    pub fn text(&self) -> Option<&[u8]>
        ensures { option_copied result ≡ text_of self.now }
    {
        match self {
            ValueKey::Text(text) => Some(text.as_slice()),
            ValueKey::Name(_) => None,
        }
    }

    pub fn name(&self) -> Option<&DnSortKey>
        ensures { option_copied result ≡ name_of_key self.now }
    {
        match self {
            ValueKey::Text(_) => None,
            ValueKey::Name(key) => Some(key),
        }
    }

    /// A copy. A text has memory of its own, and a name shares the memory of this one. The one fault is
    /// `Memory`.
    pub fn try_clone(&self, alloc: Global) -> Result<ValueKey, NameFault>
        ensures { Gives (λ key. key) result (Ok self.now) }
    {
        match self {
            ValueKey::Text(text) => Ok(ValueKey::Text(text.try_clone(alloc)?)),
            ValueKey::Name(key) => Ok(ValueKey::Name(key.try_clone(alloc)?)),
        }
    }
}

impl PartialEq for ValueKey {
    ghost eq = { value_key_eq };

    ghost laws = { tied_per value_key_cmp value_key_cmp_total value_key_cmp_ties };

    fn eq(&self, other: &ValueKey) -> bool {
        match (self, other) {
            (ValueKey::Text(one), ValueKey::Text(another)) => one == another,
            (ValueKey::Name(one), ValueKey::Name(another)) => one == another,
            _ => false,
        }
    }
}

impl Eq for ValueKey {
    ghost laws = { tied_equiv value_key_cmp value_key_cmp_total value_key_cmp_ties };
}

impl PartialOrd for ValueKey {
    ghost partial_cmp = { as_partial_cmp value_key_cmp };

    ghost laws = { partial_order_from_agreeing_total value_key_cmp value_key_cmp_total (λ _ _. refl) value_key_cmp_ties };

    fn partial_cmp(&self, other: &ValueKey) -> Option<Ordering> {
        Some(self.cmp(other))
    }
}

impl Ord for ValueKey {
    ghost cmp = { value_key_cmp };

    ghost total = { value_key_cmp_total };

    ghost matches_partial_cmp = { λ _ _. refl };

    ghost matches_eq = { value_key_cmp_ties };

    fn cmp(&self, other: &ValueKey) -> Ordering {
        match (self, other) {
            (ValueKey::Text(one), ValueKey::Text(another)) => one.cmp(another),
            (ValueKey::Text(_), ValueKey::Name(_)) => Ordering::Less,
            (ValueKey::Name(_), ValueKey::Text(_)) => Ordering::Greater,
            (ValueKey::Name(one), ValueKey::Name(another)) => one.cmp(another),
        }
    }
}

impl Schema {
    ghost use Rattle.dir_names.specs.NameKeys.{value_key_of};

    /// The key of a value of this type.
    ///
    /// # Errors
    ///
    /// `BadValue` if the value has no key under the rule of its type.
    pub fn value_key(
        &self,
        alloc: Global,
        attr: &AttrKey,
        bytes: &[u8],
    ) -> Result<ValueKey, NameFault>
        ensures { Gives (λ key. key) result (value_key_of self.now attr.now bytes.now) }
    {
        match self.rule(attr) {
            Rule::Name => Ok(ValueKey::Name(DnSortKey::read(alloc, self, bytes)?)),
            rule => Ok(ValueKey::Text(text_key(alloc, rule, bytes)?)),
        }
    }
}

impl RecentNames {
    ghost use Rattle.dir_names.specs.NameKeys.{value_key_of};

    /// The key of a value, as `Schema::value_key` answers it. A name that is one of the last is not read again.
    ///
    /// # Errors
    ///
    /// As for `Schema::value_key`.
    pub fn value_key(
        &mut self,
        alloc: Global,
        schema: &Schema,
        attr: &AttrKey,
        value: &[u8],
    ) -> Result<ValueKey, NameFault>
        ensures { Gives (λ key. key) result (value_key_of schema.now attr.now value.now) }
    {
        match schema.rule(attr) {
            Rule::Name => Ok(ValueKey::Name(self.read(alloc, schema, value)?)),
            rule => Ok(ValueKey::Text(text_key(alloc, rule, value)?)),
        }
    }
}

/// The key of a value under a rule other than `Name`.
pub(crate) fn text_key(alloc: Global, rule: Rule, value: &[u8]) -> Result<Bytes, NameFault>
    ensures { Gives (λ key. key) result (text_key_of rule value.now) }
{
    match rule {
        Rule::Octet => Bytes::copy_of(alloc, value),
        Rule::CaseIgnore => case_ignore_key(alloc, value),
        Rule::Telephone => telephone_key(alloc, value),
        Rule::Ia5CaseIgnore => ia5_case_ignore_key(alloc, value),
        Rule::Ia5CaseExact => ia5_case_exact_key(alloc, value),
        Rule::Integer => integer_key(alloc, value),
        Rule::ObjectId => object_id_key(alloc, value),
        Rule::Name => Err(NameFault::BadValue),
    }
}

/// Whether a value has a key under a rule other than `Name`.
pub(crate) fn has_text_key(rule: Rule, value: &[u8]) -> bool
    ensures { result ≡ is_some (result_ok (text_key_of rule value.now)) }
{
    match rule {
        Rule::Octet => true,
        Rule::CaseIgnore | Rule::Telephone => is_text(value),
        Rule::Ia5CaseIgnore | Rule::Ia5CaseExact => is_ascii(value),
        Rule::Integer => is_integer(value),
        Rule::ObjectId => is_object_id(value),
        Rule::Name => false,
    }
}

/// Whether a value is UTF-8 and not empty.
fn is_text(value: &[u8]) -> bool
    ensures { result ≡ is_text value.now }
{
    match str::from_utf8(value) {
        Ok(_) => !value.is_empty(),
        Err(_) => false,
    }
}

fn case_ignore_key(alloc: Global, value: &[u8]) -> Result<Bytes, NameFault>
    ensures { Gives (λ key. key) result (key_if (is_text value.now) (without_extra_spaces (folded_text value.now))) }
{
    if value.is_empty() {
        return Err(NameFault::BadValue);
    }
    if is_ascii(value) {
        return lowercase_key(alloc, value);
    }
    let text = folded_text(alloc, value)?;
    Ok(Bytes::new(without_extra_spaces(alloc, text)?))
}

/// The text in lower case, without extra spaces.
fn lowercase_key(alloc: Global, text: &[u8]) -> Result<Bytes, NameFault>
    ensures { Gives (λ key. key) result (Ok (without_extra_spaces (str_to_ascii_lowercase text.now))) }
{
    let copy = lowercase_copy(alloc, text)?;
    Ok(Bytes::new(without_extra_spaces(alloc, copy)?))
}

fn telephone_key(alloc: Global, value: &[u8]) -> Result<Bytes, NameFault>
    ensures { Gives (λ key. key) result (key_if (is_text value.now) (without_spaces_and_hyphens (folded_text value.now))) }
{
    if value.is_empty() {
        return Err(NameFault::BadValue);
    }
    let text = folded_text(alloc, value)?;
    Ok(Bytes::new(without_spaces_and_hyphens(text)))
}

fn ia5_case_ignore_key(alloc: Global, value: &[u8]) -> Result<Bytes, NameFault>
    ensures { Gives (λ key. key) result (key_if (is_ascii value.now) (without_extra_spaces (str_to_ascii_lowercase value.now))) }
{
    if is_ascii(value) {
        lowercase_key(alloc, value)
    } else {
        Err(NameFault::BadValue)
    }
}

fn ia5_case_exact_key(alloc: Global, value: &[u8]) -> Result<Bytes, NameFault>
    ensures { Gives (λ key. key) result (key_if (is_ascii value.now) (without_extra_spaces value.now)) }
{
    if !is_ascii(value) {
        return Err(NameFault::BadValue);
    }
    let text = value.to_vec(alloc)?;
    Ok(Bytes::new(without_extra_spaces(alloc, text)?))
}

fn integer_key(alloc: Global, value: &[u8]) -> Result<Bytes, NameFault>
    ensures { Gives (λ key. key) result (key_if (is_integer value.now) value.now) }
{
    if is_integer(value) {
        Bytes::copy_of(alloc, value)
    } else {
        Err(NameFault::BadValue)
    }
}

fn object_id_key(alloc: Global, value: &[u8]) -> Result<Bytes, NameFault>
    ensures { Gives (λ key. key) result (key_if (is_object_id value.now) (str_to_ascii_lowercase value.now)) }
{
    if is_object_id(value) {
        lowercase_bytes(alloc, value)
    } else {
        Err(NameFault::BadValue)
    }
}

/// `0`, or an optional minus and digits that don't begin with 0.
pub fn is_integer(value: &[u8]) -> bool
    ensures { result ≡ is_integer value.now }
{
    let Some((first, rest)) = value.split_first() else {
        return false;
    };
    match *first {
        b'0' => rest.is_empty(),
        b'-' => is_positive(rest),
        _ => is_positive(value),
    }
}

fn is_object_id(value: &[u8]) -> bool
    ensures { result ≡ is_object_id value.now }
{
    !value.is_empty() && are_visible(value)
}

fn are_visible(value: &[u8]) -> bool
    ensures { result ≡ list_all (λ b. nat_lt 32 b && nat_lt b 127) value.now }
{
    value.iter().all(|b| *b > 32 && *b < 127)
}
