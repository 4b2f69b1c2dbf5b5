//! How a physical line goes on with the line before it (slapd.conf(5), "GENERAL FORMAT").

ghost use Rattle.std.specs.Prelude.{◌≡◌, IfOk, codes, length, take};
ghost use Rattle.dir_conf_text.specs.Keywords.{is_word};
ghost use Rattle.dir_conf_text.specs.Lines.{begins_with_blank, begins_with_include, begins_with_space, ends_in_backslash, is_open, is_space, joined, joined_by_slapd, joins, joins_in_slapd, text_of, without_feed};

use dir_names::{Memory, is_blank};

/// How physical lines are joined.
#[derive(Clone, Copy, PartialEq, Eq, Debug)]
pub enum Joining {
    /// A physical line that begins with space or tab goes on with the line before it, as it is.
    Plain,
    /// As slapd does. A physical line goes on with the line before it if that ends in a backslash with none before it, and stands in its
    /// place; or if it begins with white space (`is_space`), whose first byte becomes a space. A line that begins with `include` ends
    /// with its physical line. What comes after the line feed that ends the text is no line.
    AsSlapd,
}

/// The text whose physical lines are read.
pub(crate) fn text_of(joining: Joining, text: &[u8]) -> &[u8]
    ensures { result.now ≡ text_of joining text.now }
{
    match joining {
        Joining::Plain => text,
        Joining::AsSlapd => without_feed(text),
    }
}

/// Whether the next physical line goes on with a line.
pub(crate) fn joins(joining: Joining, line: &[u8], next: &[u8]) -> bool
    ensures { result ≡ joins joining line.now next.now }
{
    match joining {
        Joining::Plain => begins_with_blank(next),
        Joining::AsSlapd => joins_in_slapd(line, next),
    }
}

/// A line with the physical line that goes on with it.
pub(crate) fn joined(joining: Joining, line: Vec<u8>, next: &[u8]) -> Result<Vec<u8>, Memory>
    ensures { IfOk result (λ whole. whole.items ≡ joined joining line.items next.now) }
{
    match joining {
        Joining::Plain => {
            let mut line = line;
            line.extend_from_slice(next)?;
            Ok(line)
        }
        Joining::AsSlapd => joined_by_slapd(line, next),
    }
}

/// Whether a line begins with white space, which is space and tab.
pub(crate) fn begins_with_blank(line: &[u8]) -> bool
    ensures { result ≡ begins_with_blank line.now }
{
    match line {
        [first, ..] => is_blank(*first),
        [] => false,
    }
}

/// A text without the line feed that ends it.
fn without_feed(text: &[u8]) -> &[u8]
    ensures { result.now ≡ without_feed text.now }
{
    match text.last() {
        Some(last) if *last == b'\n' => text.split_at(text.len() - 1).0,
        _ => text,
    }
}

fn joins_in_slapd(line: &[u8], next: &[u8]) -> bool
    ensures { result ≡ joins_in_slapd line.now next.now }
{
    !begins_with_include(line) && (is_open(line) || begins_with_space(next))
}

/// Whether a line begins with `include`, and so ends with its physical line.
fn begins_with_include(line: &[u8]) -> bool
    ensures { result ≡ begins_with_include line.now }
{
    begins_with(line, b"include")
}

/// Whether a line ends in a backslash that has none before it.
fn is_open(line: &[u8]) -> bool
    ensures { result ≡ is_open line.now }
{
    match line.split_last() {
        Some((last, before)) => *last == b'\\' && !ends_in_backslash(before),
        None => false,
    }
}

fn ends_in_backslash(line: &[u8]) -> bool
    ensures { result ≡ ends_in_backslash line.now }
{
    match line.last() {
        Some(last) => *last == b'\\',
        None => false,
    }
}

fn begins_with_space(line: &[u8]) -> bool
    ensures { result ≡ begins_with_space line.now }
{
    match line {
        [first, ..] => is_space(*first),
        [] => false,
    }
}

fn joined_by_slapd(line: Vec<u8>, next: &[u8]) -> Result<Vec<u8>, Memory>
    ensures { IfOk result (λ whole. whole.items ≡ joined_by_slapd line.items next.now) }
{
    let mut line = line;
    if is_open(line.as_slice()) {
        line.pop();
        line.extend_from_slice(next)?;
        return Ok(line);
    }
    line.push(b' ')?;
    if let [_, rest @ ..] = next {
        line.extend_from_slice(rest)?;
    }
    Ok(line)
}

/// Whether a text begins with these bytes, in any ASCII case.
pub fn begins_with(text: &[u8], first: &[u8]) -> bool
    ensures { result ≡ is_word (take (length first.now) text.now) first.now }
{
    match text.get(..first.len()) {
        Some(begin) => begin.eq_ignore_ascii_case(first),
        None => false,
    }
}

/// Whether a byte is white space to slapd: a space, or one of the control characters from tab to carriage return.
pub fn is_space(b: u8) -> bool
    ensures { result ≡ is_space b }
{
    matches!(b, b' ' | 9..=13)
}
