//! Spaces that don't count in a comparison (RFC 4518, section 2.6.1).

ghost use Rattle.std.specs.Prelude.{◌≡◌, ◌==◌, ◌≤◌, ◌&&◌, [], ◌∷◌, ◌++◌, cond, length, Ok, IsTrue};
ghost use Rattle.dir_names.specs.Inside.TidyRuns.{is_end_or_space, tidy_len};
ghost use Rattle.dir_names.specs.Outcome.{Gives};
ghost use Rattle.dir_names.specs.ValueKeys.Spaces.{without_leading_spaces, without_trailing_spaces, without_extra_spaces, without_spaces_and_hyphens};

use crate::NameFault;
use std::alloc::Global;

/// The text without spaces at its ends, and with one space for each run of spaces.
pub(crate) fn without_extra_spaces(alloc: Global, text: Vec<u8>) -> Result<Vec<u8>, NameFault>
    ensures { Gives (λ tidy. tidy.items) result (Ok (without_extra_spaces text.items)) }
{
    if has_no_extra_space(text.as_slice()) {
        return Ok(text);
    }
    copy_without_extra_spaces(alloc, text.as_slice())
}

/// Whether no space is at an end or beside another one.
pub(crate) fn has_no_extra_space(text: &[u8]) -> bool
    ensures { IsTrue result → without_extra_spaces text.now ≡ text.now }
{
    !text.contains(&b' ') || are_spaces_apart(text)
}

fn are_spaces_apart(text: &[u8]) -> bool
    ensures { IsTrue result → without_extra_spaces text.now ≡ text.now }
{
    let mut after_space = true;
    for b in text {
        if *b == b' ' && after_space {
            return false;
        }
        after_space = *b == b' ';
    }
    text.is_empty() || !after_space
}

fn copy_without_extra_spaces(alloc: Global, text: &[u8]) -> Result<Vec<u8>, NameFault>
    ensures { Gives (λ tidy. tidy.items) result (Ok (without_extra_spaces text.now)) }
{
    let rest = without_leading_spaces(text);
    let mut out = Vec::with_capacity(alloc, rest.len())?;
    put_words(rest, &mut out)?;
    Ok(out)
}

/// Appends the words of a text, with one space between them: in runs that have no extra space.
pub(crate) fn put_words(text: &[u8], out: &mut Vec<u8>) -> Result<(), NameFault>
    ensures { Gives (λ _. out.new.items) result (Ok (out.old.items ++ without_extra_spaces text.now)) }
{
    let mut rest = without_leading_spaces(text);
    while !rest.is_empty() {
        let end = tidy_len(rest);
        put_run(&rest[..end], out)?;
        rest = without_leading_spaces(&rest[end..]);
        put_space_before(rest, out)?;
    }
    Ok(())
}

/// Appends a run. One byte alone takes less time by itself.
fn put_run(run: &[u8], out: &mut Vec<u8>) -> Result<(), NameFault>
    ensures { Gives (λ _. out.new.items) result (Ok (out.old.items ++ run.now)) }
{
    match run {
        [b] => out.push(*b)?,
        _ => out.extend_from_slice(run)?,
    }
    Ok(())
}

/// Where the first extra space is, or the length of the text if it has none.
fn tidy_len(text: &[u8]) -> usize
    ensures value { result ≡ tidy_len text.now }
    ensures within { result ≤ length text.now }
{
    for (i, b) in text.iter().enumerate() {
        if *b == b' ' && is_end_or_space(&text[i + 1..]) {
            return i;
        }
    }
    text.len()
}

fn is_end_or_space(text: &[u8]) -> bool
    ensures { result ≡ is_end_or_space text.now }
{
    match text.first() {
        Some(b) => *b == b' ',
        None => true,
    }
}

/// Appends a space if more text is to follow.
fn put_space_before(rest: &[u8], out: &mut Vec<u8>) -> Result<(), NameFault>
    ensures { Gives (λ _. out.new.items) result (Ok (out.old.items ++ cond (length rest.now == 0) [] (32 ∷ []))) }
{
    if !rest.is_empty() {
        out.push(b' ')?;
    }
    Ok(())
}

/// The text without its leading spaces.
pub(crate) fn without_leading_spaces(text: &[u8]) -> &[u8]
    ensures { result.now ≡ without_leading_spaces text.now }
{
    for (i, b) in text.iter().enumerate() {
        if *b != b' ' {
            return &text[i..];
        }
    }
    &text[..0]
}

/// The text without its trailing spaces.
pub(crate) fn without_trailing_spaces(text: &[u8]) -> &[u8]
    ensures { result.now ≡ without_trailing_spaces text.now }
{
    let mut end = text.len();
    while end > 0 && text[end - 1] == b' ' {
        end -= 1;
    }
    &text[..end]
}

/// The text without any space or hyphen.
pub(crate) fn without_spaces_and_hyphens(mut text: Vec<u8>) -> Vec<u8>
    ensures { result.items ≡ without_spaces_and_hyphens text.items }
{
    text.retain(|b| *b != b' ' && *b != b'-');
    text
}
