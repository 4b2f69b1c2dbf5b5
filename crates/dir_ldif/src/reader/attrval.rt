//! The name and the value of one line, plain or in base64 (RFC 2849, `attrval-spec`).

ghost use Rattle.std.specs.Prelude.{◌≡◌, ◌<◌, ◌&&◌, ◌++◌, ℕ, List, Ok, Err, IfErr, IfOk, MatchResult, length};
ghost use Rattle.std.specs.List.{list_any};
ghost use Rattle.base64.specs.GeneralPurpose.{IsBytes};
ghost use Rattle.dir_names.specs.Results.{Meets, and_then};
ghost use Rattle.dir_ldif.specs.Inside.Refusals.{Refuses};
ghost use Rattle.dir_ldif.specs.AttrVal.{base64_value, is_base64, is_nul_or_cr, attrval_of, plain_value, value_of, within_limit};
ghost use Rattle.dir_ldif.specs.Inside.Values.{bytes_of};

use crate::faults::{RecordFault, Refusal};
use crate::reader::bytes::{cut_near, without_spaces};
use crate::scan::all_usual;
use base64::DecodeAllocError;
use base64::engine::general_purpose::STANDARD;
use dir_names::{Bytes, Memory};
use memchr::memchr2;
use std::alloc::Global;

/// The greatest length of a value, in bytes, decoded.
pub const MAX_VALUE: usize = 1_048_576;

/// The greatest length of a base64 text whose value may be within the limit.
const MAX_ENCODED: usize = 1_398_104;

/// How many bytes of a base64 text are tested at once, in whole groups of four.
const ENCODED_PIECE: usize = 1024;

/// How many bytes such a piece decodes to, if it has no padding.
const DECODED_PIECE: usize = 768;

/// The greatest length of a value that is copied by one call: a longer one is copied in a loop, which is as fast.
const SHORT: usize = 512;

/// The value of a line: a part of the line, or decoded.
#[derive(Drop)]
pub(crate) enum Value<'a> {
    Plain(&'a [u8]),
    Decoded(Vec<u8>),
}

impl Value<'_> {
    pub(crate) fn as_slice(&self) -> &[u8]
        ensures { result.now ≡ bytes_of self.now }
    {
        match self {
            Value::Plain(text) => text,
            Value::Decoded(value) => value.as_slice(),
        }
    }

    /// The value in its own memory: only a plain one is copied.
    fn into_vec(self, alloc: Global) -> Result<Vec<u8>, Refusal>
        ensures ok { IfOk result (λ v. v.items ≡ bytes_of self.entry) }
        ensures err { IfErr result (λ refusal. refusal ≡ Refusal.Memory) }
    {
        match self {
            Value::Plain(text) => copy_of(alloc, text),
            Value::Decoded(value) => Ok(value),
        }
    }

    /// The same, as bytes.
    pub(crate) fn into_bytes(self, alloc: Global) -> Result<Bytes, Refusal>
        ensures ok { IfOk result (λ v. v ≡ bytes_of self.entry) }
        ensures bytes { IfOk result (λ v. IsBytes v) }
        ensures err { IfErr result (λ refusal. refusal ≡ Refusal.Memory) }
    {
        match self {
            Value::Plain(text) => Ok(owned(copy_of(alloc, text)?)),
            Value::Decoded(value) => Ok(owned(value)),
        }
    }
}

/// A copy of a text, in memory of exactly its size.
fn copy_of(alloc: Global, text: &[u8]) -> Result<Vec<u8>, Refusal>
    ensures ok { IfOk result (λ v. v.items ≡ text.now) }
    ensures err { IfErr result (λ refusal. refusal ≡ Refusal.Memory) }
{
    if text.len() > SHORT {
        return Ok(text.to_vec(alloc)?);
    }
    let mut copy = Vec::with_capacity(alloc, text.len())?;
    copy.extend_from_slice(text)?;
    Ok(copy)
}

fn owned(value: Vec<u8>) -> Bytes
    ensures value { result ≡ value.items }
    ensures bytes { IsBytes result }
{
    Bytes::new(value)
}

/// The name and the value of a line: what comes before its first colon, and what comes after it, plain or in base64 (RFC 2849,
/// `attrval-spec`). Or the fault of the line, in the inner result: `BadLine` for a line without a name or a colon; then
/// `UrlValue`, `BadBase64`, or `BadLine` for a NUL or a CR in a plain value; then `ValueTooLong`.
///
/// # Errors
///
/// Memory ran out. That says nothing of the line.
pub fn line_parts(
    alloc: Global,
    line: &[u8],
) -> Result<Result<(&[u8], Vec<u8>), RecordFault>, Memory>
    ensures { IfOk result (λ parts. MatchResult parts
        (λ p. attrval_of line.now ≡ Ok (p.0.now, p.1.items))
        (λ fault. attrval_of line.now ≡ Err fault)) }
{
    let (name, value) = match attrval_of(alloc, line) {
        Ok(parts) => parts,
        Err(Refusal::Fault(fault)) => return Ok(Err(fault)),
        Err(Refusal::Memory) => return Err(Memory),
    };
    match value.into_vec(alloc) {
        Ok(value) => Ok(Ok((name, value))),
        Err(_) => Err(Memory),
    }
}

/// The name and the value of a line (RFC 2849, `attrval-spec`).
///
/// # Errors
///
/// `BadLine` for a line without a name or a colon; then `UrlValue`, `BadBase64`, or `BadLine` for a
/// NUL or a CR in a plain value; then `ValueTooLong`.
#[inline(always)]
pub(crate) fn attrval_of(alloc: Global, line: &[u8]) -> Result<(&[u8], Value<'_>), Refusal>
    ensures { Meets Refuses (λ p. (p.0.now, bytes_of p.1)) result (attrval_of line.now) }
{
    let Some((name, rest)) = cut_near(b':', line) else {
        return Err(Refusal::Fault(RecordFault::BadLine));
    };
    if name.is_empty() {
        return Err(Refusal::Fault(RecordFault::BadLine));
    }
    Ok((name, limited_value(alloc, rest)?))
}

/// The value in what follows a name and its colon, within the limit.
#[inline(always)]
fn limited_value(alloc: Global, text: &[u8]) -> Result<Value<'_>, Refusal>
    ensures { Meets Refuses bytes_of result (and_then (value_of text.now) within_limit) }
{
    match text {
        [b':', rest @ ..] => limited_decoded(alloc, without_spaces(rest)),
        [b'<', ..] => Err(Refusal::Fault(RecordFault::UrlValue)),
        _ => plain(without_spaces(text)),
    }
}

/// The value of a base64 text, within the limit. A text that is too long for that is not decoded.
#[inline(never)]
fn limited_decoded(alloc: Global, text: &[u8]) -> Result<Value<'_>, Refusal>
    ensures { Meets Refuses bytes_of result (and_then (base64_value text.now) within_limit) }
{
    if text.len() > MAX_ENCODED {
        if is_base64(text) {
            return Err(Refusal::Fault(RecordFault::ValueTooLong));
        }
        return Err(Refusal::Fault(RecordFault::BadBase64));
    }
    limited(Value::Decoded(decoded(alloc, text)?))
}

/// Whether a text is base64. It allocates nothing.
fn is_base64(text: &[u8]) -> bool
    ensures { result ≡ is_base64 text.now }
{
    let mut rest = text;
    while rest.len() > ENCODED_PIECE {
        let (piece, after) = rest.split_at(ENCODED_PIECE);
        if !is_whole_piece(piece) {
            return false;
        }
        rest = after;
    }
    let mut value = [0u8; DECODED_PIECE];
    STANDARD.decode_slice_unchecked(rest, &mut value).is_ok()
}

/// Whether a piece is base64 without padding, so that the rest of the text decides whether all is base64.
fn is_whole_piece(piece: &[u8]) -> bool
    requires { length piece.now ≡ 1024 }
    ensures { (rest : List ℕ) → IsBytes rest → 0 < length rest → is_base64 (piece.now ++ rest) ≡ (result && is_base64 rest) }
{
    let mut value = [0u8; DECODED_PIECE];
    match STANDARD.decode_slice_unchecked(piece, &mut value) {
        Ok(length) => length == DECODED_PIECE,
        Err(_) => false,
    }
}

fn decoded(alloc: Global, text: &[u8]) -> Result<Vec<u8>, Refusal>
    ensures { Meets Refuses (λ v. v.items) result (base64_value text.now) }
{
    match STANDARD.decode(alloc, text) {
        Ok(value) => Ok(value),
        Err(DecodeAllocError::OutOfMemory) => Err(Refusal::Memory),
        Err(DecodeAllocError::DecodeError(_)) => Err(Refusal::Fault(RecordFault::BadBase64)),
    }
}

/// A value that is written plainly, within the limit.
#[inline(always)]
fn plain(text: &[u8]) -> Result<Value<'_>, Refusal>
    ensures { Meets Refuses bytes_of result (and_then (plain_value text.now) within_limit) }
{
    if has_nul_or_cr(text) {
        return Err(Refusal::Fault(RecordFault::BadLine));
    }
    limited(Value::Plain(text))
}

fn limited(value: Value<'_>) -> Result<Value<'_>, Refusal>
    ensures { Meets Refuses bytes_of result (within_limit (bytes_of value.entry)) }
{
    if value.as_slice().len() > MAX_VALUE {
        return Err(Refusal::Fault(RecordFault::ValueTooLong));
    }
    Ok(value)
}

/// Whether a text has a NUL or a CR.
fn has_nul_or_cr(text: &[u8]) -> bool
    ensures { result ≡ list_any is_nul_or_cr text.now }
{
    !all_usual(text) && finds_nul_or_cr(text)
}

/// The same, by a search: few texts need it.
#[inline(never)]
fn finds_nul_or_cr(text: &[u8]) -> bool
    ensures { result ≡ list_any is_nul_or_cr text.now }
{
    memchr2(0, b'\r', text).is_some()
}
