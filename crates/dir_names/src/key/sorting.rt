//! The text that a name's key is kept with: its bytes are in the order of the keys.

ghost use Rattle.std.specs.List.{flat_map, list_all};
ghost use Rattle.std.specs.Prelude.{◌≡◌, ◌++◌, [], ◌∷◌, IsTrue, Ok, nat_lt};
ghost use Rattle.std.specs.Str.{str_to_ascii_lowercase};
ghost use Rattle.dir_names.specs.Outcome.{Gives};
ghost use Rattle.dir_names.specs.Inside.SortTexts.{marked_byte, text_sort, list_sort, pair_sort, rdn_sort, name_sort};

use crate::attribute::options::OptionSet;
use crate::text::split_once;
use crate::{AttrKey, Bytes, NameFault, RdnKey};

/// Appends the text that the key of a name is ordered by.
pub(crate) fn put_name(parts: &[RdnKey], out: &mut Vec<u8>) -> Result<(), NameFault>
    ensures { Gives (λ _. out.new.items) result (Ok (out.old.items ++ name_sort parts.now)) }
{
    for part in parts {
        put_part(part, out)?;
    }
    Ok(())
}

/// Appends the text of one RDN.
pub(crate) fn put_part(part: &RdnKey, out: &mut Vec<u8>) -> Result<(), NameFault>
    ensures { Gives (λ _. out.new.items) result (Ok (out.old.items ++ 1 ∷ rdn_sort part.now)) }
{
    put_set(part.pairs(), out)
}

/// The length of the text of one RDN. It is longer if a byte in it has to be marked.
pub(crate) fn part_len(part: &RdnKey) -> usize {
    let mut len = 2usize;
    for pair in part.pairs() {
        len = len.saturating_add(pair_len(pair));
    }
    len
}

fn pair_len(pair: &(AttrKey, Bytes)) -> usize {
    let len = pair.0.attr_type().len().saturating_add(4);
    len.saturating_add(options_len(pair.0.options()))
        .saturating_add(pair.1.as_slice().len())
}

/// The length of the text of options, without its end.
fn options_len(options: &OptionSet) -> usize {
    let mut len = 0usize;
    let mut rest = options.joined();
    while let Some(more) = rest {
        let (option, after) = split_once(more, b'\0');
        len = len.saturating_add(option.len()).saturating_add(2);
        rest = after;
    }
    len
}

/// Appends the text of the RDN that has these pairs.
pub(crate) fn put_set(pairs: &[(AttrKey, Bytes)], out: &mut Vec<u8>) -> Result<(), NameFault>
    ensures { Gives (λ _. out.new.items) result (Ok (out.old.items ++ 1 ∷ rdn_sort pairs.now)) }
{
    out.push(1)?;
    put_pairs(pairs, out)?;
    out.push(0)?;
    Ok(())
}

/// Appends the text of the RDN that has this attribute alone, with this value in lower case.
pub(crate) fn put_lowercase_pair(
    attr: &AttrKey,
    value: &[u8],
    out: &mut Vec<u8>,
) -> Result<(), NameFault>
    requires { IsTrue (list_all (λ b. nat_lt 1 b) (str_to_ascii_lowercase value.now)) }
    ensures { Gives (λ _. out.new.items) result (Ok (out.old.items ++ 1 ∷ rdn_sort ((attr.now, str_to_ascii_lowercase value.now) ∷ []))) }
{
    out.extend_from_slice(&[1, 1])?;
    put_text(attr.attr_type(), out)?;
    put_options(attr.options(), out)?;
    put_lowercase(value, out)?;
    out.extend_from_slice(&[0, 0])?;
    Ok(())
}

/// Appends a text in lower case.
pub(crate) fn put_lowercase(text: &[u8], out: &mut Vec<u8>) -> Result<(), NameFault>
    ensures { Gives (λ _. out.new.items) result (Ok (out.old.items ++ str_to_ascii_lowercase text.now)) }
{
    let start = out.len();
    out.extend_from_slice(text)?;
    out.as_mut_slice()[start..].make_ascii_lowercase();
    Ok(())
}

fn put_pairs(pairs: &[(AttrKey, Bytes)], out: &mut Vec<u8>) -> Result<(), NameFault>
    ensures { Gives (λ _. out.new.items) result (Ok (out.old.items ++ flat_map (λ p. 1 ∷ pair_sort p) pairs.now)) }
{
    for pair in pairs {
        out.push(1)?;
        put_pair(pair, out)?;
    }
    Ok(())
}

fn put_pair(pair: &(AttrKey, Bytes), out: &mut Vec<u8>) -> Result<(), NameFault>
    ensures { Gives (λ _. out.new.items) result (Ok (out.old.items ++ pair_sort pair.now)) }
{
    put_text(pair.0.attr_type(), out)?;
    put_options(pair.0.options(), out)?;
    put_text(pair.1.as_slice(), out)?;
    Ok(())
}

fn put_options(options: &OptionSet, out: &mut Vec<u8>) -> Result<(), NameFault>
    ensures { Gives (λ _. out.new.items) result (Ok (out.old.items ++ list_sort text_sort options.now)) }
{
    let mut rest = options.joined();
    while let Some(more) = rest {
        let (option, after) = split_once(more, b'\0');
        out.push(1)?;
        put_text(option, out)?;
        rest = after;
    }
    out.push(0)?;
    Ok(())
}

/// Appends a text and the mark of its end.
fn put_text(text: &[u8], out: &mut Vec<u8>) -> Result<(), NameFault>
    ensures { Gives (λ _. out.new.items) result (Ok (out.old.items ++ text_sort text.now)) }
{
    if is_plain(text) {
        out.extend_from_slice(text)?;
    } else {
        put_marked(text, out)?;
    }
    out.push(0)?;
    Ok(())
}

fn is_plain(text: &[u8]) -> bool
    ensures { result ≡ list_all (λ b. nat_lt 1 b) text.now }
{
    text.iter().all(|b| *b > 1)
}

fn put_marked(text: &[u8], out: &mut Vec<u8>) -> Result<(), NameFault>
    ensures { Gives (λ _. out.new.items) result (Ok (out.old.items ++ flat_map marked_byte text.now)) }
{
    for b in text {
        if *b < 2 {
            out.push(1)?;
        }
        out.push(*b)?;
    }
    Ok(())
}
