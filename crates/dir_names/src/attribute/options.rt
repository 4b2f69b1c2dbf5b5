//! The options of an attribute description (RFC 4512, section 2.5), as a set.

ghost use Rattle.std.specs.Cmp.{partial_order_from_agreeing_total};
ghost use Rattle.std.specs.List.{list_all, list_any};
ghost use Rattle.std.specs.Ordering.{as_partial_cmp};
ghost use Rattle.std.specs.Prelude.{◌≡◌, IsTrue, Ok, [], nat_lt, option_copied, refl};
ghost use Rattle.std.proofs.Math.ListN.{get_or};
ghost use Rattle.dir_names.specs.Ascii.{semicolon};
ghost use Rattle.dir_names.specs.Descriptions.{is_option, option_set};
ghost use Rattle.dir_names.specs.Inside.Left.{lacks_nul, options_joined, parts_left};
ghost use Rattle.dir_names.specs.Inside.Starts.{IsStart};
ghost use Rattle.dir_names.specs.Orders.{bytes_cmp, bytes_eq, texts_cmp, texts_eq, texts_cmp_total, texts_cmp_ties, tied_equiv, tied_per};
ghost use Rattle.dir_names.specs.Outcome.{Gives};
ghost use Rattle.dir_names.specs.Sorted.{rises, with_member};

use crate::attribute::{are_keychars, lowercase_bytes};
use crate::text::split_once;
use crate::{Bytes, NameFault};
use std::alloc::Global;
use std::cmp::Ordering;
use std::marker::Model;

/// The options of a description in lower case, each once and in order.
#[derive(Debug, Drop)]
pub(crate) struct OptionSet {
    /// The options joined by bytes 0, if there are any, so that two sets are compared by one run over bytes.
    joined: Option<Bytes>,
    /// The number that the first 16 bytes of these are: texts with different numbers compare as the numbers do.
    start: u128,
}

impl Model for OptionSet {
    ghost use Rattle.std.specs.Prelude.{ℕ, List, IfSome};
    ghost use Rattle.dir_names.specs.Inside.Left.{options_joined};
    ghost use Rattle.dir_names.specs.Inside.Starts.{IsStart};

    ghost Value = { List (List ℕ) };

    ghost view = { λ o. options_joined o.joined };

    ghost invariant = { λ o. IfSome o.joined (λ text. IsStart text o.start) };
}

impl OptionSet {
    pub(crate) fn empty() -> OptionSet
        ensures { result ≡ [] }
    {
        OptionSet {
            joined: None,
            start: 0,
        }
    }

    /// Reads the options after a type, if there are any.
    pub(crate) fn read(alloc: Global, text: Option<&[u8]>) -> Result<OptionSet, NameFault>
        ensures { Gives (λ options. options) result (option_set (parts_left semicolon (option_copied text.entry))) }
    {
        let mut options = Vec::new(alloc);
        let mut rest = text;
        while let Some(more) = rest {
            let (option, after) = split_once(more, b';');
            if !is_option(option) {
                return Err(NameFault::BadDescription);
            }
            insert_option(&mut options, lowercase_bytes(alloc, option)?)?;
            rest = after;
        }
        OptionSet::of(alloc, options.as_slice())
    }

    /// The set of these options, which are in order.
    fn of(alloc: Global, options: &[Bytes]) -> Result<OptionSet, NameFault>
        requires { IsTrue (list_all lacks_nul options.now) }
        ensures { Gives (λ set. set) result (Ok options.now) }
    {
        let Some((first, rest)) = options.split_first() else {
            return Ok(OptionSet::empty());
        };
        let mut joined = Vec::with_capacity(alloc, joined_len(options))?;
        joined.extend_from_slice(first.as_slice())?;
        for option in rest {
            joined.push(b'\0')?;
            joined.extend_from_slice(option.as_slice())?;
        }
        let start = start_of(joined.as_slice());
        Ok(OptionSet {
            joined: Some(Bytes::new(joined)),
            start,
        })
    }

    /// The options joined by bytes 0, if there are any.
    pub(crate) fn joined(&self) -> Option<&[u8]>
        ensures { options_joined (option_copied result) ≡ self.now }
    {
        match &self.joined {
            Some(joined) => Some(joined.as_slice()),
            None => None,
        }
    }

    /// Whether each option is one of the other set.
    pub(crate) fn is_subset(&self, other: &OptionSet) -> bool
        ensures { result ≡ list_all (λ option. list_any (λ one. bytes_eq one option) other.now) self.now }
    {
        let mut rest = self.joined();
        while let Some(more) = rest {
            let (option, after) = split_once(more, b'\0');
            if !other.contains(option) {
                return false;
            }
            rest = after;
        }
        true
    }

    fn contains(&self, option: &[u8]) -> bool
        ensures { result ≡ list_any (λ one. bytes_eq one option.now) self.now }
    {
        let mut rest = self.joined();
        while let Some(more) = rest {
            let (one, after) = split_once(more, b'\0');
            if one == option {
                return true;
            }
            rest = after;
        }
        false
    }
}

impl PartialEq for OptionSet {
    ghost eq = { texts_eq };

    ghost laws = { tied_per texts_cmp texts_cmp_total texts_cmp_ties };

    fn eq(&self, other: &OptionSet) -> bool {
        match (&self.joined, &other.joined) {
            (None, None) => true,
            (None, Some(_)) => false,
            (Some(_), None) => false,
            (Some(mine), Some(theirs)) => self.start == other.start && mine == theirs,
        }
    }
}

impl Eq for OptionSet {
    ghost laws = { tied_equiv texts_cmp texts_cmp_total texts_cmp_ties };
}

impl PartialOrd for OptionSet {
    ghost partial_cmp = { as_partial_cmp texts_cmp };

    ghost laws = { partial_order_from_agreeing_total texts_cmp texts_cmp_total (λ _ _. refl) texts_cmp_ties };

    fn partial_cmp(&self, other: &OptionSet) -> Option<Ordering> {
        Some(self.cmp(other))
    }
}

impl Ord for OptionSet {
    ghost cmp = { texts_cmp };

    ghost total = { texts_cmp_total };

    ghost matches_partial_cmp = { λ _ _. refl };

    ghost matches_eq = { texts_cmp_ties };

    fn cmp(&self, other: &OptionSet) -> Ordering {
        match (&self.joined, &other.joined) {
            (None, None) => Ordering::Equal,
            (None, Some(_)) => Ordering::Less,
            (Some(_), None) => Ordering::Greater,
            (Some(mine), Some(theirs)) => self
                .start
                .cmp(&other.start)
                .then_with(|| mine.cmp(theirs)),
        }
    }
}

/// The number that the first 16 bytes of a text are, the first one worth most; where it has fewer, bytes 0 follow.
fn start_of(text: &[u8]) -> u128
    ensures { IsStart text.now result }
{
    u128::from_be_bytes([
        byte_at(text, 0),
        byte_at(text, 1),
        byte_at(text, 2),
        byte_at(text, 3),
        byte_at(text, 4),
        byte_at(text, 5),
        byte_at(text, 6),
        byte_at(text, 7),
        byte_at(text, 8),
        byte_at(text, 9),
        byte_at(text, 10),
        byte_at(text, 11),
        byte_at(text, 12),
        byte_at(text, 13),
        byte_at(text, 14),
        byte_at(text, 15),
    ])
}

/// The byte at a place of a text, or 0 beyond its end.
fn byte_at(text: &[u8], at: usize) -> u8
    ensures is { result ≡ get_or text.now at 0 }
    ensures small { IsTrue (nat_lt result 256) }
{
    match text.get(at) {
        Some(byte) => *byte,
        None => 0,
    }
}

/// How much memory the joined options take: their bytes, and one for each.
fn joined_len(options: &[Bytes]) -> usize {
    let mut len = options.len();
    for option in options {
        len = len.saturating_add(option.as_slice().len());
    }
    len
}

/// `option`: one or more letters, digits and hyphens (RFC 4512, section 2.5).
fn is_option(text: &[u8]) -> bool
    ensures { result ≡ is_option text.now }
{
    !text.is_empty() && are_keychars(text)
}

/// Inserts an option into a set.
fn insert_option(options: &mut Vec<Bytes>, option: Bytes) -> Result<(), NameFault>
    requires { IsTrue (rises bytes_cmp options.old.items) }
    ensures { Gives (λ _. options.new.items) result (Ok (with_member bytes_cmp option options.old.items)) }
{
    if let Err(at) = options.binary_search(&option) {
        options.insert(at, option)?;
    }
    Ok(())
}
