//! Cutting and trimming texts of bytes.

ghost use Rattle.std.specs.List.{before_first, list_all};
ghost use Rattle.std.specs.Prelude.{◌≡◌, ◌<◌, ◌∷◌, ◌==◌, IfSome, length, option_copied, position};
ghost use Rattle.dir_names.specs.Cut.{after_first_separator, parts_at};
ghost use Rattle.dir_names.specs.Descriptions.{is_digit};
ghost use Rattle.dir_names.specs.Inside.Left.{parts_left};
ghost use Rattle.dir_names.specs.Trimming.{is_blank, without_return};
ghost use Rattle.dir_names.specs.ValueKeys.{is_positive};

use memchr::memchr;

/// The text before the first separator, and the text after it if there is one.
pub fn split_once(text: &[u8], separator: u8) -> (&[u8], Option<&[u8]>)
    ensures before { result.0.now ≡ before_first (λ b. b == separator) text.now }
    ensures after { option_copied result.1 ≡ after_first_separator separator text.now }
    ensures shorter { IfSome result.1 (λ rest. length rest.now < length text.now) }
    ensures parts { parts_at separator text.now ≡ result.0.now ∷ parts_left separator (option_copied result.1) }
{
    match position_of(text, separator) {
        Some(at) => (&text[..at], Some(&text[at + 1..])),
        None => (text, None),
    }
}

fn position_of(text: &[u8], separator: u8) -> Option<usize>
    ensures { result ≡ position (λ b. b == separator) text.now }
{
    // An empty text is found at once; any other is searched by many bytes at a time.
    match text.first() {
        Some(first) if *first == separator => Some(0),
        _ => memchr(separator, text),
    }
}

/// A line without the carriage return at its end.
pub fn without_return(line: &[u8]) -> &[u8]
    ensures { result.now ≡ without_return line.now }
{
    match line.last() {
        Some(last) if *last == b'\r' => line.split_at(line.len() - 1).0,
        _ => line,
    }
}

/// Whether a byte is a space or a tab.
pub fn is_blank(b: u8) -> bool
    ensures { result ≡ is_blank b }
{
    matches!(b, b' ' | b'\t')
}

/// Whether these are the digits of a number from 1 on, without a leading zero.
pub fn is_positive(digits: &[u8]) -> bool
    ensures { result ≡ is_positive digits.now }
{
    let Some((first, _)) = digits.split_first() else {
        return false;
    };
    *first != b'0' && are_digits(digits)
}

pub(crate) fn are_digits(text: &[u8]) -> bool
    ensures { result ≡ list_all is_digit text.now }
{
    text.iter().all(|b| b.is_ascii_digit())
}
