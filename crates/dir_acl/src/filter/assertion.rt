//! The tests of a filter as texts: a description, an operator and a value (RFC 4515, section 3).

ghost use Rattle.std.specs.List.{list_all};
ghost use Rattle.std.specs.Prelude.{◌≡◌, ◌+◌, ◌-◌, ◌<◌, ◌==◌, IfSome, IsTrue, Ok, Some, None, cond, length, option_copied, option_map, take};
ghost use Rattle.dir_names.specs.Cut.{parts_at};
ghost use Rattle.dir_names.specs.Names.Escapes.{hex_of, is_hex};
ghost use Rattle.dir_names.specs.Results.{option_collect};
ghost use Rattle.dir_names.specs.ValueKeys.Pieces.{piece_of};
ghost use Rattle.dir_acl.specs.Inside.Escapes.{has_digit, is_outside, is_refused, keeps_digit, step_of};
ghost use Rattle.dir_acl.specs.Outcome.{Reads, ok_or_bad_filter};
ghost use Rattle.dir_acl.specs.Tests.{assertion_key, bound_of, described_by, last_piece, matching_by, matching_of_more, matching_of_parts, matching_with, operator_of, operator_of_sign, pieces_of, test_from, test_of, unescaped};

use crate::{FilterFault, Matching, Pieces, Test};
use dir_names::{
    AttrKey, Bytes, Description, NameFault, PiecePlace, Rule, Schema, Texts, ValueKey, is_integer,
    split_once,
};
use std::alloc::Global;

/// How a test compares.
#[derive(Clone, Copy)]
pub(crate) enum Operator {
    Equal,
    Approximate,
    AtLeast,
    AtMost,
}

/// Reads what is between the parentheses of a test.
pub(crate) fn read_test(alloc: Global, schema: &Schema, text: &[u8]) -> Result<Test, FilterFault>
    ensures { Reads (λ test. test) result (ok_or_bad_filter (test_of schema.now text.now)) }
{
    let (before, after) = split_once(text, b'=');
    match after {
        Some(value) => read_operation(alloc, schema, before, value),
        None => Err(FilterFault::BadFilter),
    }
}

/// The test of what is before the `=` and the value after it.
fn read_operation(
    alloc: Global,
    schema: &Schema,
    before: &[u8],
    value: &[u8],
) -> Result<Test, FilterFault>
    ensures { Reads (λ test. test) result (ok_or_bad_filter (test_from schema.now before.now (Some value.now))) }
{
    let operator = operator_of(before);
    match Description::read(alloc, schema, described_by(operator, before)) {
        Ok(description) => {
            let attr = attr_of(alloc, &description)?;
            test_of_attr(alloc, schema, attr, operator, value)
        }
        Err(NameFault::Memory) => Err(FilterFault::Memory),
        Err(_) => Err(FilterFault::BadFilter),
    }
}

#[tactic(auto, using(crate::proofs::Tested::test_steps))]
fn test_of_attr(
    alloc: Global,
    schema: &Schema,
    attr: AttrKey,
    operator: Operator,
    value: &[u8],
) -> Result<Test, FilterFault>
    ensures { Reads (λ test. test) result (ok_or_bad_filter (option_map (λ matching. record { attr = attr; matching = matching }) (matching_by schema.now attr operator value.now))) }
{
    let matching = read_matching(alloc, schema, &attr, operator, value)?;
    Ok(Test { attr, matching })
}

fn attr_of(alloc: Global, description: &Description) -> Result<AttrKey, FilterFault>
    ensures { Reads (λ attr. attr) result (Ok description.now.key) }
{
    match description.key().try_clone(alloc) {
        Ok(attr) => Ok(attr),
        Err(_) => Err(FilterFault::Memory),
    }
}

/// The operator of what is before the `=`.
pub(crate) fn operator_of(before: &[u8]) -> Operator
    ensures { result ≡ operator_of before.now }
{
    match before.last() {
        Some(sign) => operator_of_sign(*sign),
        None => Operator::Equal,
    }
}

fn operator_of_sign(sign: u8) -> Operator
    ensures { result ≡ operator_of_sign sign }
{
    match sign {
        b'~' => Operator::Approximate,
        b'>' => Operator::AtLeast,
        b'<' => Operator::AtMost,
        _ => Operator::Equal,
    }
}

/// The text of the description, before the operator.
pub(crate) fn described_by(operator: Operator, before: &[u8]) -> &[u8]
    ensures { result.now ≡ described_by operator before.now }
{
    match operator {
        Operator::Equal => before,
        _ => without_last(before),
    }
}

fn without_last(text: &[u8]) -> &[u8]
    ensures { result.now ≡ take (length text.now - 1) text.now }
{
    let end = text.len().saturating_sub(1);
    text.split_at(end).0
}

fn read_matching(
    alloc: Global,
    schema: &Schema,
    attr: &AttrKey,
    operator: Operator,
    value: &[u8],
) -> Result<Matching, FilterFault>
    ensures { Reads (λ matching. matching) result (ok_or_bad_filter (matching_by schema.now attr.now operator value.now)) }
{
    match operator {
        Operator::Equal => read_equal(alloc, schema, attr, value),
        Operator::Approximate | Operator::AtLeast | Operator::AtMost => {
            let bytes = read_value(alloc, value)?;
            compared_with(alloc, schema, attr, operator, bytes.as_slice())
        }
    }
}

fn read_equal(
    alloc: Global,
    schema: &Schema,
    attr: &AttrKey,
    value: &[u8],
) -> Result<Matching, FilterFault>
    ensures { Reads (λ matching. matching) result (ok_or_bad_filter (option_map (matching_of_parts schema.now attr.now) (option_collect unescaped (parts_at 42 value.now)))) }
{
    let parts = read_parts(alloc, value)?;
    matching_of_parts(alloc, schema, attr, parts.as_slice())
}

/// What an operator other than `=` asks with this value.
fn compared_with(
    alloc: Global,
    schema: &Schema,
    attr: &AttrKey,
    operator: Operator,
    bytes: &[u8],
) -> Result<Matching, FilterFault>
    ensures { Reads (λ matching. matching) result (Ok (matching_with schema.now attr.now operator bytes.now)) }
{
    match operator {
        Operator::AtLeast => Ok(Matching::AtLeast(bound_of(alloc, schema, attr, bytes)?)),
        Operator::AtMost => Ok(Matching::AtMost(bound_of(alloc, schema, attr, bytes)?)),
        _ => Ok(Matching::Equal(assertion_key(alloc, schema, attr, bytes)?)),
    }
}

/// What `=` asks with the parts of a value between asterisks.
fn matching_of_parts(
    alloc: Global,
    schema: &Schema,
    attr: &AttrKey,
    parts: &[Bytes],
) -> Result<Matching, FilterFault>
    ensures { Reads (λ matching. matching) result (Ok (matching_of_parts schema.now attr.now parts.now)) }
{
    match parts.split_first() {
        Some((first, more)) => matching_of_more(alloc, schema, attr, first, more),
        None => Ok(Matching::Present),
    }
}

fn matching_of_more(
    alloc: Global,
    schema: &Schema,
    attr: &AttrKey,
    first: &Bytes,
    more: &[Bytes],
) -> Result<Matching, FilterFault>
    ensures { Reads (λ matching. matching) result (Ok (matching_of_more schema.now attr.now first.now more.now)) }
{
    if more.is_empty() {
        let key = assertion_key(alloc, schema, attr, first.as_slice())?;
        return Ok(Matching::Equal(key));
    }
    if first.as_slice().is_empty() && are_empty(more) {
        return Ok(Matching::Present);
    }
    let pieces = pieces_of(alloc, schema, attr, first.as_slice(), more)?;
    Ok(Matching::Substrings(pieces))
}

fn are_empty(parts: &[Bytes]) -> bool
    ensures { result ≡ list_all (λ part. length part == 0) parts.now }
{
    for part in parts {
        if !part.as_slice().is_empty() {
            return false;
        }
    }
    true
}

/// The key of an assertion's value, if it has one.
fn assertion_key(
    alloc: Global,
    schema: &Schema,
    attr: &AttrKey,
    bytes: &[u8],
) -> Result<Option<ValueKey>, FilterFault>
    ensures { Reads (λ key. key) result (Ok (assertion_key schema.now attr.now bytes.now)) }
{
    match schema.value_key(alloc, attr, bytes) {
        Ok(key) => Ok(Some(key)),
        Err(NameFault::Memory) => Err(FilterFault::Memory),
        Err(_) => Ok(None),
    }
}

/// The number to compare with, if the type's values are numbers and this is one.
fn bound_of(
    alloc: Global,
    schema: &Schema,
    attr: &AttrKey,
    bytes: &[u8],
) -> Result<Option<Bytes>, FilterFault>
    ensures { Reads (λ bound. bound) result (Ok (bound_of schema.now attr.now bytes.now)) }
{
    match schema.rule(attr) {
        Rule::Integer if is_integer(bytes) => Ok(Some(Bytes::new(bytes.to_vec(alloc)?))),
        _ => Ok(None),
    }
}

/// The pieces to look for, if each is one under the rule of the type.
fn pieces_of(
    alloc: Global,
    schema: &Schema,
    attr: &AttrKey,
    first: &[u8],
    more: &[Bytes],
) -> Result<Option<Pieces>, FilterFault>
    ensures { Reads (λ pieces. pieces) result (Ok (pieces_of schema.now attr.now first.now more.now)) }
{
    let first = piece(alloc, schema, attr, PiecePlace::First, first)?;
    let middle = middle_pieces(alloc, schema, attr, without_last_part(more))?;
    let last = last_piece(alloc, schema, attr, more.last())?;
    match (first, middle, last) {
        (Some(first), Some(middle), Some(last)) => Ok(Some(Pieces {
            first,
            middle,
            last,
        })),
        _ => Ok(None),
    }
}

fn piece(
    alloc: Global,
    schema: &Schema,
    attr: &AttrKey,
    place: PiecePlace,
    bytes: &[u8],
) -> Result<Option<Bytes>, FilterFault>
    ensures { Reads (λ piece. piece) result (Ok (piece_of schema.now attr.now place bytes.now)) }
{
    match schema.piece_key(alloc, attr, place, bytes) {
        Ok(Some(piece)) => Ok(Some(Bytes::new(piece))),
        Ok(None) => Ok(None),
        Err(_) => Err(FilterFault::Memory),
    }
}

fn without_last_part(parts: &[Bytes]) -> &[Bytes]
    ensures { result.now ≡ take (length parts.now - 1) parts.now }
{
    let end = parts.len().saturating_sub(1);
    parts.split_at(end).0
}

fn last_piece(
    alloc: Global,
    schema: &Schema,
    attr: &AttrKey,
    part: Option<&Bytes>,
) -> Result<Option<Bytes>, FilterFault>
    ensures { Reads (λ piece. piece) result (Ok (last_piece schema.now attr.now (option_copied part.entry))) }
{
    match part {
        Some(part) => piece(alloc, schema, attr, PiecePlace::Last, part.as_slice()),
        None => Ok(None),
    }
}

fn middle_pieces(
    alloc: Global,
    schema: &Schema,
    attr: &AttrKey,
    parts: &[Bytes],
) -> Result<Option<Texts>, FilterFault>
    ensures { Reads (λ pieces. pieces) result (Ok (option_collect (λ p. piece_of schema.now attr.now PiecePlace.Middle p) parts.now)) }
{
    let mut pieces = Vec::with_capacity(alloc, parts.len())?;
    for part in parts {
        match piece(alloc, schema, attr, PiecePlace::Middle, part.as_slice())? {
            Some(piece) => pieces.push(piece)?,
            None => return Ok(None),
        }
    }
    Ok(Some(Texts::new(pieces)))
}

/// The parts of a value between asterisks, each without its escapes.
fn read_parts(alloc: Global, value: &[u8]) -> Result<Vec<Bytes>, FilterFault>
    ensures { Reads (λ parts. parts.items) result (ok_or_bad_filter (option_collect unescaped (parts_at 42 value.now))) }
{
    let mut parts = Vec::new(alloc);
    let mut rest = Some(value);
    while let Some(more) = rest {
        let (part, after) = split_once(more, b'*');
        parts.push(Bytes::new(read_value(alloc, part)?))?;
        rest = after;
    }
    Ok(parts)
}

/// Where in a value an escape is being read.
#[derive(Clone, Copy)]
pub(crate) enum Escape {
    Outside,
    AfterBackslash,
    /// After the first hexadecimal digit.
    AfterDigit(u8),
}

/// What a byte means in its place.
#[derive(Clone, Copy)]
pub(crate) enum Step {
    /// A byte of the value.
    Byte(u8),
    /// A part of an escape, which goes on in this place.
    Inside(Escape),
    /// The text is not a value.
    Refused,
}

/// The bytes that a text with escapes is for.
fn read_value(alloc: Global, text: &[u8]) -> Result<Vec<u8>, FilterFault>
    ensures { Reads (λ value. value.items) result (ok_or_bad_filter (unescaped text.now)) }
{
    let mut out = Vec::with_capacity(alloc, text.len())?;
    let mut place = Escape::Outside;
    for b in text {
        match step_at(place, *b) {
            Step::Byte(byte) => {
                out.push(byte)?;
                place = Escape::Outside;
            }
            Step::Inside(next) => place = next,
            Step::Refused => return Err(FilterFault::BadFilter),
        }
    }
    if is_outside(place) {
        Ok(out)
    } else {
        Err(FilterFault::BadFilter)
    }
}

fn is_outside(place: Escape) -> bool
    ensures { result ≡ is_outside place }
{
    matches!(place, Escape::Outside)
}

fn step_at(place: Escape, b: u8) -> Step
    requires { IsTrue (has_digit place) }
    ensures step { result ≡ step_of place b }
    ensures digit { IsTrue (keeps_digit result) }
{
    match place {
        Escape::Outside => match b {
            b'\\' => Step::Inside(Escape::AfterBackslash),
            _ if is_refused(b) => Step::Refused,
            _ => Step::Byte(b),
        },
        Escape::AfterBackslash => match hex_value(b) {
            Some(high) => Step::Inside(Escape::AfterDigit(high)),
            None => Step::Refused,
        },
        Escape::AfterDigit(high) => match hex_value(b) {
            Some(low) => Step::Byte(high * 16 + low),
            None => Step::Refused,
        },
    }
}

/// Whether a value has this byte only as an escape.
fn is_refused(b: u8) -> bool
    ensures { result ≡ is_refused b }
{
    matches!(b, 0 | b'(' | b')' | b'*')
}

fn hex_value(b: u8) -> Option<u8>
    ensures value { result ≡ cond (is_hex b) (Some (hex_of b)) None }
    ensures small { IfSome result (λ n. n < 16) }
{
    match b {
        b'0'..=b'9' => Some(b - b'0'),
        b'a'..=b'f' => Some(b - b'a' + 10),
        b'A'..=b'F' => Some(b - b'A' + 10),
        _ => None,
    }
}
