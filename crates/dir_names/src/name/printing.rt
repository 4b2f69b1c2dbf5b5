//! The text of a name (RFC 4514, section 2).

ghost use Rattle.std.specs.List.{list_all};
ghost use Rattle.std.specs.Prelude.{◌≡◌, ◌<◌, ◌++◌, Ok, cond, flat_map, not, true, IsTrue};
ghost use Rattle.dir_names.specs.Outcome.{Gives};
ghost use Rattle.dir_names.specs.Names.Printing.{escape_of, is_special, printed_byte, printed_name, printed_pair, printed_rdn, printed_rest, printed_value, upper_digit};
ghost use Rattle.dir_names.specs.Names.Escapes.{is_refused_sign};
ghost use Rattle.dir_names.specs.Names.Limits.{is_rdn_within_limit};
ghost use Rattle.dir_names.specs.Names.Sound.{is_sound_rdn};

use crate::{Bytes, NameFault, Rdn};

/// Appends the RDNs, joined by commas.
pub(crate) fn print_name(rdns: &[Rdn], out: &mut Vec<u8>) -> Result<(), NameFault>
    ensures { Gives (λ _. out.new.items) result (Ok (out.old.items ++ printed_name rdns.now)) }
{
    let Some((first, rest)) = rdns.split_first() else {
        return Ok(());
    };
    print_rdn(first, out)?;
    for rdn in rest {
        out.push(b',')?;
        print_rdn(rdn, out)?;
    }
    Ok(())
}

/// Appends the text of an RDN.
pub(crate) fn print_rdn(rdn: &Rdn, out: &mut Vec<u8>) -> Result<(), NameFault>
    ensures text { Gives (λ _. out.new.items) result (Ok (out.old.items ++ printed_rdn rdn.now)) }
    ensures sound { IsTrue (is_sound_rdn rdn.now) }
    ensures within_limit { IsTrue (is_rdn_within_limit rdn.now) }
{
    print_pairs(rdn.pairs(), out)
}

/// Appends the pairs, joined by plus signs.
pub(crate) fn print_pairs(pairs: &[(Bytes, Bytes)], out: &mut Vec<u8>) -> Result<(), NameFault>
    ensures { Gives (λ _. out.new.items) result (Ok (out.old.items ++ printed_rdn pairs.now)) }
{
    let Some((first, rest)) = pairs.split_first() else {
        return Ok(());
    };
    print_pair(first, out)?;
    for pair in rest {
        out.push(b'+')?;
        print_pair(pair, out)?;
    }
    Ok(())
}

fn print_pair(pair: &(Bytes, Bytes), out: &mut Vec<u8>) -> Result<(), NameFault>
    ensures { Gives (λ _. out.new.items) result (Ok (out.old.items ++ printed_pair pair.now)) }
{
    out.extend_from_slice(pair.0.as_slice())?;
    out.push(b'=')?;
    print_value(pair.1.as_slice(), out)
}

fn print_value(value: &[u8], out: &mut Vec<u8>) -> Result<(), NameFault>
    ensures { Gives (λ _. out.new.items) result (Ok (out.old.items ++ printed_value value.now)) }
{
    if is_plain_value(value) {
        out.extend_from_slice(value)?;
        return Ok(());
    }
    let Some((first, rest)) = value.split_first() else {
        return Ok(());
    };
    put_byte(*first, matches!(*first, b' ' | b'#'), out)?;
    print_rest(rest, out)
}

/// Appends the bytes after a value's first one.
fn print_rest(rest: &[u8], out: &mut Vec<u8>) -> Result<(), NameFault>
    ensures { Gives (λ _. out.new.items) result (Ok (out.old.items ++ printed_rest rest.now)) }
{
    let Some((last, middle)) = rest.split_last() else {
        return Ok(());
    };
    put_bytes(middle, out)?;
    put_byte(*last, *last == b' ', out)?;
    Ok(())
}

fn put_bytes(bytes: &[u8], out: &mut Vec<u8>) -> Result<(), NameFault>
    ensures { Gives (λ _. out.new.items) result (Ok (out.old.items ++ flat_map printed_byte bytes.now)) }
{
    for b in bytes {
        put_byte(*b, false, out)?;
    }
    Ok(())
}

/// Appends a byte, escaped if it is special or `is_escaped`.
fn put_byte(b: u8, is_escaped: bool, out: &mut Vec<u8>) -> Result<(), NameFault>
    ensures { Gives (λ _. out.new.items) result (Ok (out.old.items ++ cond is_escaped (escape_of b) (printed_byte b))) }
{
    if is_escaped || is_special(b) {
        out.extend_from_slice(&[b'\\', upper_digit(b / 16), upper_digit(b % 16)])?;
    } else {
        out.push(b)?;
    }
    Ok(())
}

/// Whether a value is printed as it is.
pub(crate) fn is_plain_value(value: &[u8]) -> bool
    ensures { result ≡ true → printed_value value.now ≡ value.now }
{
    match value.split_first() {
        None => true,
        Some((first, rest)) => {
            *first != b' ' && *first != b'#' && !is_special(*first) && is_plain_rest(rest)
        }
    }
}

/// Whether the bytes of a value after the first one are printed as they are.
fn is_plain_rest(rest: &[u8]) -> bool
    ensures { result ≡ true → printed_rest rest.now ≡ rest.now }
{
    match rest.split_last() {
        None => true,
        Some((last, middle)) => *last != b' ' && !is_special(*last) && are_plain(middle),
    }
}

fn are_plain(bytes: &[u8]) -> bool
    ensures { result ≡ list_all (λ b. not (is_special b)) bytes.now }
{
    bytes.iter().all(|b| !is_special(*b))
}

/// Whether a byte is escaped anywhere in a value.
fn is_special(b: u8) -> bool
    ensures { result ≡ is_special b }
{
    b < 32 || b > 126 || is_refused_sign(b)
}

/// Whether a byte is one of the signs that a value has only as escapes.
pub(crate) fn is_refused_sign(b: u8) -> bool
    ensures { result ≡ is_refused_sign b }
{
    matches!(b, b'"' | b'+' | b',' | b';' | b'<' | b'>' | b'\\')
}

/// The upper-case hexadecimal digit of a number.
fn upper_digit(n: u8) -> u8
    requires { n < 16 }
    ensures { result ≡ upper_digit n }
{
    if n < 10 { n + b'0' } else { n + (b'A' - 10) }
}
