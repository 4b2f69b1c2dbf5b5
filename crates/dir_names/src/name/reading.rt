//! The name that a text spells (RFC 4514, section 3).

ghost use Rattle.std.specs.List.{list_all};
ghost use Rattle.std.specs.Prelude.{◌≡◌, ◌<◌, ◌≤◌, [], ◌∷◌, ◌++◌, Ok, Some, None, false, cond, not, ◌&&◌, ◌==◌, IsTrue, IfOk, IfSome, OnOk, option_copied, length};
ghost use Rattle.dir_names.specs.Ascii.{comma, plus};
ghost use Rattle.dir_names.specs.Outcome.{Gives};
ghost use Rattle.dir_names.specs.Names.Reading.{begins_with_hash, name_within_limits, pair_of, pieces, rdn_of, rdn_within_limit, value_of};
ghost use Rattle.dir_names.specs.Inside.Few.{few_items};
ghost use Rattle.dir_names.specs.Inside.Left.{pieces_left};
ghost use Rattle.dir_names.specs.Inside.Steps.{is_outside, has_digit, keeps_digit, step_of};
ghost use Rattle.dir_names.specs.Outcome.{ok_or_bad_dn};
ghost use Rattle.dir_names.specs.Results.{option_collect};
ghost use Rattle.dir_names.specs.Names.Limits.{is_rdn_within_limit, ok_if_within};
ghost use Rattle.dir_names.specs.ValueKeys.Spaces.{without_leading_spaces};
ghost use Rattle.dir_names.specs.Names.Escapes.{is_hex, hex_of, is_refused, is_escapable};
ghost use Rattle.dir_names.specs.Names.Sound.{is_sound_rdn};

use crate::attribute::{is_reserved, is_type};
use crate::limits::{MAX_RDN_TEXT, MAX_RDNS};
use crate::list::few::Few;
use crate::name::printing::{is_plain_value, is_refused_sign, print_pairs};
use crate::text::split_once;
use crate::value::spaces::{without_leading_spaces, without_trailing_spaces};
use crate::{Bytes, Dn, NameFault, Rdn};
use std::alloc::Global;

/// Reads a whole name.
pub(crate) fn read_name(alloc: Global, text: &[u8]) -> Result<Dn, NameFault>
    ensures { Gives (λ name. name) result (name_within_limits text.now) }
{
    if text.is_empty() {
        return Ok(Dn::empty(alloc));
    }
    Dn::from_rdns(read_rdns(alloc, text)?)
}

/// Reads exactly one RDN.
pub(crate) fn read_one_rdn(alloc: Global, text: &[u8]) -> Result<Rdn, NameFault>
    ensures { Gives (λ rdn. rdn) result (rdn_within_limit text.now) }
{
    let (piece, after) = split_once_unescaped(text, b',');
    match after {
        Some(_) => Err(NameFault::BadDn),
        None => read_rdn_within_limit(alloc, piece),
    }
}

/// Reads an RDN, of which the text has no other.
pub(crate) fn read_rdn_within_limit(alloc: Global, text: &[u8]) -> Result<Rdn, NameFault>
    ensures { Gives (λ rdn. rdn) result (ok_if_within is_rdn_within_limit (rdn_of text.now)) }
{
    let pairs = read_pairs(alloc, text)?;
    let mut scratch = Vec::new(alloc);
    if is_within_limit(pairs.as_slice(), &mut scratch)? {
        Rdn::from_pairs(alloc, pairs)
    } else {
        Err(NameFault::NameLimit)
    }
}

/// Whether pairs print within the limit of an RDN. Only if their length doesn't show it, they are printed,
/// into `scratch`.
fn is_within_limit(pairs: &[(Bytes, Bytes)], scratch: &mut Vec<u8>) -> Result<bool, NameFault>
    ensures { Gives (λ small. small) result (Ok (is_rdn_within_limit pairs.now)) }
{
    if are_short(pairs) {
        return Ok(true);
    }
    scratch.clear();
    print_pairs(pairs, scratch)?;
    Ok(scratch.len() <= MAX_RDN_TEXT)
}

/// Whether pairs print within the limit even if each byte of their values takes the three bytes of an
/// escape.
fn are_short(pairs: &[(Bytes, Bytes)]) -> bool
    ensures { IsTrue result → IsTrue (is_rdn_within_limit pairs.now) }
{
    let mut room = MAX_RDN_TEXT;
    for pair in pairs {
        let attr_type = pair.0.as_slice().len();
        let value = pair.1.as_slice().len();
        if attr_type > room || value > room || attr_type + 3 * value + 2 > room {
            return false;
        }
        room -= attr_type + 3 * value + 2;
    }
    true
}

/// The RDNs of a text that is not empty. The whole text is read before an RDN past the limit is told, since a
/// text that is no name is `BadDn`.
fn read_rdns(alloc: Global, text: &[u8]) -> Result<Vec<Rdn>, NameFault>
    ensures { Gives (λ rdns. rdns.items) result (ok_if_within (list_all is_rdn_within_limit) (option_collect rdn_of (pieces comma false text.now))) }
{
    let mut rdns = Vec::with_capacity(alloc, rdns_at_most(text))?;
    let mut scratch = Vec::new(alloc);
    let mut are_within = true;
    let mut rest = Some(text);
    while let Some(more) = rest {
        let (piece, after) = split_once_unescaped(more, b',');
        let pairs = read_pairs(alloc, piece)?;
        let is_within = push_if_within(alloc, pairs, &mut rdns, &mut scratch)?;
        are_within = are_within && is_within;
        rest = after;
    }
    if are_within {
        Ok(rdns)
    } else {
        Err(NameFault::NameLimit)
    }
}

/// How many RDNs a text has at most, if it is within the limits.
fn rdns_at_most(text: &[u8]) -> usize
    ensures { result ≤ 64 }
{
    let commas = text.iter().filter(|b| **b == b',').count();
    commas.saturating_add(1).min(MAX_RDNS)
}

/// Appends the RDN of these pairs, if it is within the limit, and tells whether it is.
fn push_if_within(
    alloc: Global,
    pairs: Few<(Bytes, Bytes)>,
    rdns: &mut Vec<Rdn>,
    scratch: &mut Vec<u8>,
) -> Result<bool, NameFault>
    requires { IsTrue (is_sound_rdn (few_items pairs)) }
    ensures is_within { Gives (λ is_within. is_within) result (Ok (is_rdn_within_limit (few_items pairs))) }
    ensures pushed { OnOk result (rdns.new.items ≡ cond (is_rdn_within_limit (few_items pairs)) (rdns.old.items ++ few_items pairs ∷ []) rdns.old.items) }
{
    if !is_within_limit(pairs.as_slice(), scratch)? {
        return Ok(false);
    }
    rdns.push(Rdn::from_pairs(alloc, pairs)?)?;
    Ok(true)
}

/// The pairs of an RDN, whatever its length.
fn read_pairs(alloc: Global, text: &[u8]) -> Result<Few<(Bytes, Bytes)>, NameFault>
    ensures read { Gives few_items result (ok_or_bad_dn (rdn_of text.now)) }
    ensures sound { IfOk result (λ pairs. IsTrue (is_sound_rdn (few_items pairs))) }
{
    let mut pairs = Few::None;
    let mut rest = Some(text);
    while let Some(more) = rest {
        let (piece, after) = split_at_plus(more);
        pairs = pairs.with_last(alloc, read_pair(alloc, piece)?)?;
        rest = after;
    }
    Ok(pairs)
}

/// The text before the first plus sign that no backslash escapes, and, if there is one, the text after it.
fn split_at_plus(text: &[u8]) -> (&[u8], Option<&[u8]>)
    ensures pieces { pieces plus false text.now ≡ result.0.now ∷ pieces_left plus (option_copied result.1) }
    ensures smaller { IfSome (option_copied result.1) (λ after. length after < length text.now) }
{
    if text.contains(&b'+') {
        split_once_unescaped(text, b'+')
    } else {
        (text, None)
    }
}

/// The text before the first separator that no backslash escapes, and, if there is one, the text after it.
pub(crate) fn split_once_unescaped(text: &[u8], separator: u8) -> (&[u8], Option<&[u8]>)
    ensures pieces { pieces separator false text.now ≡ result.0.now ∷ pieces_left separator (option_copied result.1) }
    ensures smaller { IfSome (option_copied result.1) (λ after. length after < length text.now) }
{
    let mut is_escaped = false;
    for (i, b) in text.iter().enumerate() {
        if is_unescaped(*b, separator, is_escaped) {
            return (&text[..i], Some(&text[i + 1..]));
        }
        is_escaped = is_unescaped(*b, b'\\', is_escaped);
    }
    (text, None)
}

fn is_unescaped(b: u8, wanted: u8, is_escaped: bool) -> bool
    ensures { result ≡ (not is_escaped && b == wanted) }
{
    !is_escaped && b == wanted
}

fn read_pair(alloc: Global, text: &[u8]) -> Result<(Bytes, Bytes), NameFault>
    ensures { Gives (λ pair. pair) result (ok_or_bad_dn (pair_of text.now)) }
{
    let (before, after) = split_once(text, b'=');
    let Some(after) = after else {
        return Err(NameFault::BadDn);
    };
    let attr_type = without_trailing_spaces(without_leading_spaces(before));
    if !is_type(attr_type) || is_reserved(attr_type) {
        return Err(NameFault::BadDn);
    }
    let value = read_value_after(alloc, after)?;
    Ok((Bytes::copy_of(alloc, attr_type)?, Bytes::new(value)))
}

/// The value that the text after an equals sign stands for. Most values are spelled as they are.
fn read_value_after(alloc: Global, text: &[u8]) -> Result<Vec<u8>, NameFault>
    ensures { Gives (λ value. value.items) result (ok_or_bad_dn (value_of (without_leading_spaces text.now))) }
{
    if is_plain_value(text) {
        return Ok(text.to_vec(alloc)?);
    }
    read_value(alloc, without_leading_spaces(text))
}

/// Where a value is being read.
#[derive(Clone, Copy)]
pub(crate) enum Place {
    /// Outside an escape.
    Outside,
    /// After the backslash of an escape.
    AfterBackslash,
    /// After the first hexadecimal digit of an escape.
    AfterDigit(u8),
}

/// What a byte means in its place.
#[derive(Clone, Copy)]
pub(crate) enum Step {
    /// A space, which counts if more of the value follows.
    Space,
    /// A byte of the value.
    Byte(u8),
    /// A part of an escape, which goes on in this place.
    Inside(Place),
    /// The text is not a value.
    Refused,
}

/// The value that a text with escapes stands for, without the plain spaces at its end.
fn read_value(alloc: Global, text: &[u8]) -> Result<Vec<u8>, NameFault>
    ensures { Gives (λ value. value.items) result (ok_or_bad_dn (value_of text.now)) }
{
    if begins_with_hash(text) {
        return Err(NameFault::BadDn);
    }
    let mut out = Vec::with_capacity(alloc, text.len())?;
    let mut kept = 0;
    let mut place = Place::Outside;
    for b in text {
        match step_at(place, *b) {
            Step::Space => out.push(b' ')?,
            Step::Byte(byte) => {
                out.push(byte)?;
                kept = out.len();
                place = Place::Outside;
            }
            Step::Inside(next) => place = next,
            Step::Refused => return Err(NameFault::BadDn),
        }
    }
    if !is_outside(place) {
        return Err(NameFault::BadDn);
    }
    out.truncate(kept);
    Ok(out)
}

fn begins_with_hash(text: &[u8]) -> bool
    ensures { result ≡ begins_with_hash text.now }
{
    match text {
        [first, ..] => *first == b'#',
        [] => false,
    }
}

fn is_outside(place: Place) -> bool
    ensures { result ≡ is_outside place }
{
    matches!(place, Place::Outside)
}

fn step_at(place: Place, b: u8) -> Step
    requires { IsTrue (has_digit place) }
    ensures step { result ≡ step_of place b }
    ensures digit { IsTrue (keeps_digit result) }
{
    match place {
        Place::Outside => match b {
            b' ' => Step::Space,
            b'\\' => Step::Inside(Place::AfterBackslash),
            _ if is_refused(b) => Step::Refused,
            _ => Step::Byte(b),
        },
        Place::AfterBackslash => match hex_value(b) {
            Some(high) => Step::Inside(Place::AfterDigit(high)),
            None if is_escapable(b) => Step::Byte(b),
            None => Step::Refused,
        },
        Place::AfterDigit(high) => match hex_value(b) {
            Some(low) => Step::Byte(high * 16 + low),
            None => Step::Refused,
        },
    }
}

/// Whether a value has this byte only as an escape.
fn is_refused(b: u8) -> bool
    ensures { result ≡ is_refused b }
{
    is_refused_sign(b) || b == 0
}

/// Whether a backslash may escape this byte by itself.
fn is_escapable(b: u8) -> bool
    ensures { result ≡ is_escapable b }
{
    is_refused_sign(b) || matches!(b, b' ' | b'#' | b'=')
}

fn hex_value(b: u8) -> Option<u8>
    ensures value { result ≡ cond (is_hex b) (Some (hex_of b)) None }
    ensures small { IfSome result (λ n. n < 16) }
{
    match b {
        b'0'..=b'9' => Some(b - b'0'),
        b'a'..=b'f' => Some(b - b'a' + 10),
        b'A'..=b'F' => Some(b - b'A' + 10),
        _ => None,
    }
}
