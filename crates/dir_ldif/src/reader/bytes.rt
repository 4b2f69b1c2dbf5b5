//! Small operations on bytes.

ghost use Rattle.std.specs.Prelude.{◌≡◌, ◌==◌, ◌++◌, ◌≤◌, length, not, take};
ghost use Rattle.std.specs.List.{prefix_len};
ghost use Rattle.std.specs.Option.{option_map};
ghost use Rattle.dir_ldif.specs.Bytes.{begins_with, cut_at, without_leading, without_last};
ghost use Rattle.dir_names.specs.Ascii.{carriage_return, space};

use memchr::memchr;
use std::simd::prelude::*;

/// How many bytes are searched at once for a byte that is near.
const NEAR: usize = 16;

/// The bytes before the first such byte, and those after it.
#[inline(always)]
pub(crate) fn cut_at(byte: u8, text: &[u8]) -> Option<(&[u8], &[u8])>
    ensures { option_map (λ p. (p.0.now, p.1.now)) result ≡ cut_at byte text.now }
{
    match memchr(byte, text) {
        Some(at) => Some((&text[..at], &text[at + 1..])),
        None => None,
    }
}

/// The same, where the byte is mostly among the first 16.
#[inline(always)]
pub(crate) fn cut_near(byte: u8, text: &[u8]) -> Option<(&[u8], &[u8])>
    ensures { option_map (λ p. (p.0.now, p.1.now)) result ≡ cut_at byte text.now }
{
    if text.len() >= NEAR {
        let at = bytes_before(byte, text);
        if at < NEAR {
            return Some((&text[..at], &text[at + 1..]));
        }
    }
    cut_at(byte, text)
}

/// How many of the first 16 bytes come before the first such byte.
#[inline(always)]
fn bytes_before(byte: u8, text: &[u8]) -> usize
    requires { 16 ≤ length text.now }
    ensures { result ≡ prefix_len (λ b. not (b == byte)) (take 16 text.now) }
{
    let found = u8x16::from_slice(text)
        .simd_eq(u8x16::splat(byte))
        .to_bitmask();
    if found == 0 {
        NEAR
    } else {
        found.trailing_zeros() as usize
    }
}

/// The text without the spaces that it begins with.
pub(crate) fn without_spaces(text: &[u8]) -> &[u8]
    ensures { result.now ≡ without_leading space text.now }
{
    let mut rest = text;
    while let [b' ', after @ ..] = rest {
        rest = after;
    }
    rest
}

pub(crate) fn begins_with_space(text: &[u8]) -> bool
    ensures { result ≡ begins_with space text.now }
{
    text.first() == Some(&b' ')
}

/// The text without one final CR.
pub(crate) fn without_cr(text: &[u8]) -> &[u8]
    ensures { result.now ≡ without_last carriage_return text.now }
{
    let Some((last, before)) = text.split_last() else {
        return text;
    };
    if *last == b'\r' { before } else { text }
}

/// A text in two parts, without one final CR. Its first byte, if it has one, is in the first part.
pub(crate) fn parts_without_cr<'a>(front: &'a [u8], back: &'a [u8]) -> (&'a [u8], &'a [u8])
    ensures text { result.0.now ++ result.1.now ≡ without_last carriage_return (front.now ++ back.now) }
    ensures first { begins_with space result.0.now ≡ begins_with space (without_last carriage_return (front.now ++ back.now)) }
{
    if front.is_empty() {
        (without_cr(back), &[])
    } else if back.is_empty() {
        (without_cr(front), &[])
    } else {
        (front, without_cr(back))
    }
}
