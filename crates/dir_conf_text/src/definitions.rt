//! The definitions of attribute types in the lines of a configuration (slapd.conf(5), `attributetype`).

ghost use Rattle.std.specs.Prelude.{◌≡◌, ◌≤◌, length, option_copied, position};
ghost use Rattle.std.specs.List.{position_or_len};
ghost use Rattle.dir_names.specs.Trimming.{is_blank};
ghost use Rattle.dir_conf_text.specs.Definitions.{definition_in, without_blanks};

use dir_names::is_blank;

/// The definition in a line: all that is after its first word, where that is `attributetype`. It is not cut into arguments.
pub(crate) fn definition_in(line: &[u8]) -> Option<&[u8]>
    ensures { option_copied result ≡ definition_in line.now }
{
    let text = without_blanks(line);
    let (word, after) = text.split_at(word_length(text));
    if word.eq_ignore_ascii_case(b"attributetype") {
        Some(after)
    } else {
        None
    }
}

/// A text without the white space that it begins with.
fn without_blanks(text: &[u8]) -> &[u8]
    ensures { result.now ≡ without_blanks text.now }
{
    let mut rest = text;
    while let [b, more @ ..] = rest {
        if !is_blank(*b) {
            return rest;
        }
        rest = more;
    }
    rest
}

/// The number of bytes of a text before its first white space.
fn word_length(text: &[u8]) -> usize
    ensures place { result ≡ position_or_len is_blank text.now }
    ensures bound { result ≤ length text.now }
{
    first_blank(text).unwrap_or(text.len())
}

fn first_blank(text: &[u8]) -> Option<usize>
    ensures { result ≡ position is_blank text.now }
{
    text.iter().position(|b| is_blank(*b))
}
