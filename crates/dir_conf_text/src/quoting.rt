//! Arguments, written so that they are read as they are (slapd.conf(5), "GENERAL FORMAT").

ghost use Rattle.std.specs.Prelude.{◌≡◌, ◌++◌, OnOk};
ghost use Rattle.std.specs.List.{flat_map, list_all};
ghost use Rattle.dir_conf_text.specs.Quoting.{escaped, is_bare, is_bare_byte, is_escaped, preceded};

use dir_names::Memory;

/// Appends an argument to a line that has a word already, after a space. Where the argument is empty or has white space, another control
/// character, a quote or a backslash, it stands in quotes. One that has a line feed is no part of one line.
///
/// # Errors
///
/// Memory runs out.
pub fn push_argument(line: &mut Vec<u8>, argument: &[u8]) -> Result<(), Memory>
    ensures { OnOk result (line.new.items ≡ line.old.items ++ preceded argument.now) }
{
    line.push(b' ')?;
    if is_bare(argument) {
        line.extend_from_slice(argument)?;
        return Ok(());
    }
    line.push(b'"')?;
    push_escaped(line, argument)?;
    line.push(b'"')?;
    Ok(())
}

/// Whether an argument can stand without quotes.
fn is_bare(argument: &[u8]) -> bool
    ensures { result ≡ is_bare argument.now }
{
    match argument {
        [] => false,
        [first, rest @ ..] => is_bare_byte(*first) && are_bare_bytes(rest),
    }
}

fn are_bare_bytes(text: &[u8]) -> bool
    ensures { result ≡ list_all is_bare_byte text.now }
{
    text.iter().all(|b| is_bare_byte(*b))
}

fn is_bare_byte(b: u8) -> bool
    ensures { result ≡ is_bare_byte b }
{
    b > 32 && !is_escaped(b)
}

/// Whether a byte has a backslash before it.
fn is_escaped(b: u8) -> bool
    ensures { result ≡ is_escaped b }
{
    matches!(b, b'"' | b'\\')
}

/// Appends bytes, with a backslash before each quote and each backslash.
fn push_escaped(line: &mut Vec<u8>, argument: &[u8]) -> Result<(), Memory>
    ensures { OnOk result (line.new.items ≡ line.old.items ++ flat_map escaped argument.now) }
{
    for b in argument {
        if is_escaped(*b) {
            line.push(b'\\')?;
        }
        line.push(*b)?;
    }
    Ok(())
}
