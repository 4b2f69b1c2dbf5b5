//! Texts without regard to case: Unicode's case folding and NFKC.

ghost use Rattle.std.specs.Prelude.{◌≡◌, Ok};
ghost use Rattle.std.specs.Str.{is_utf8, str_to_ascii_lowercase};
ghost use Rattle.dir_names.specs.Outcome.{Gives};
ghost use Rattle.dir_names.specs.ValueKeys.{folded_text, is_ascii, key_if};

use crate::NameFault;
use caseless::default_case_fold_str;
use std::alloc::Global;
use std::str;
use unicode_normalization::to_nfkc;

/// Default case folding and then NFKC of a text in UTF-8. For ASCII a shorter way gives the same bytes.
pub(crate) fn folded_text(alloc: Global, text: &[u8]) -> Result<Vec<u8>, NameFault>
    ensures { Gives (λ key. key.items) result (key_if (is_utf8 text.now) (folded_text text.now)) }
{
    if is_ascii(text) {
        return lowercase_copy(alloc, text);
    }
    match str::from_utf8(text) {
        Ok(text) => folded_str(alloc, text),
        Err(_) => Err(NameFault::BadValue),
    }
}

fn folded_str(alloc: Global, text: &str) -> Result<Vec<u8>, NameFault>
    ensures { Gives (λ key. key.items) result (Ok (folded_text text.now)) }
{
    let small = default_case_fold_str(alloc, text)?;
    Ok(to_nfkc(alloc, small.as_str())?.into_bytes())
}

/// The text with A to Z in lower case.
pub(crate) fn lowercase_copy(alloc: Global, text: &[u8]) -> Result<Vec<u8>, NameFault>
    ensures { Gives (λ copy. copy.items) result (Ok (str_to_ascii_lowercase text.now)) }
{
    let mut copy = text.to_vec(alloc)?;
    copy.as_mut_slice().make_ascii_lowercase();
    Ok(copy)
}

pub(crate) fn is_ascii(text: &[u8]) -> bool
    ensures { result ≡ is_ascii text.now }
{
    text.is_ascii()
}
