//! Integers of any length, as texts (RFC 4517, section 3.3.16).

ghost use Rattle.std.specs.Prelude.{◌≡◌, IsTrue, int_lt, nat_lt};
ghost use Rattle.dir_names.specs.Descriptions.{is_number};
ghost use Rattle.dir_names.specs.ValueKeys.{is_integer};
ghost use Rattle.dir_acl.specs.Inside.Digits.{digits_of, is_negative};
ghost use Rattle.dir_acl.specs.Integers.{integer_of, is_at_least, is_at_most, number_of};

use dir_names::is_integer;

/// Whether two texts are integers, and the second is at least the first.
pub(crate) fn is_at_least(bound: &[u8], text: &[u8]) -> bool
    ensures { result ≡ is_at_least bound.now text.now }
{
    is_integer(bound) && is_integer(text) && !is_below(text, bound)
}

/// Whether two texts are integers, and the second is at most the first.
pub(crate) fn is_at_most(bound: &[u8], text: &[u8]) -> bool
    ensures { result ≡ is_at_most bound.now text.now }
{
    is_integer(bound) && is_integer(text) && !is_below(bound, text)
}

/// Whether the first integer is below the second.
#[tactic(auto, using(crate::proofs::Digits::integer_forms))]
fn is_below(one: &[u8], another: &[u8]) -> bool
    requires one { IsTrue (is_integer one.now) }
    requires another { IsTrue (is_integer another.now) }
    ensures { result ≡ int_lt (integer_of one.now) (integer_of another.now) }
{
    match (is_negative(one), is_negative(another)) {
        (false, false) => is_smaller(digits_of(one), digits_of(another)),
        (true, true) => is_smaller(digits_of(another), digits_of(one)),
        (true, false) => true,
        (false, true) => false,
    }
}

fn is_negative(text: &[u8]) -> bool
    ensures { result ≡ is_negative text.now }
{
    match text {
        [first, ..] => *first == b'-',
        [] => false,
    }
}

/// The text without its minus.
fn digits_of(text: &[u8]) -> &[u8]
    ensures { result.now ≡ digits_of text.now }
{
    match text.split_first() {
        Some((b'-', digits)) => digits,
        _ => text,
    }
}

/// Whether the first number is smaller than the second: numbers of one length are in the order of their
/// bytes.
#[tactic(auto, using(crate::proofs::Digits::smaller_steps))]
fn is_smaller(one: &[u8], another: &[u8]) -> bool
    requires one { IsTrue (is_number one.now) }
    requires another { IsTrue (is_number another.now) }
    ensures { result ≡ nat_lt (number_of one.now) (number_of another.now) }
{
    one.len() < another.len() || (one.len() == another.len() && one.cmp(another).is_lt())
}
