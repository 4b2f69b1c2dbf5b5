//! The values of an attribute in cn=config, in their order (slapd-config(5)).

ghost use Rattle.std.specs.Prelude.{◌≡◌, Ok, IfOk, map, option_copied};
ghost use Rattle.dir_conf.specs.CnConfig.Values.{after_prefix, begins_with_brace, in_turn, numbered, place_words, value_at, without_places};
ghost use Rattle.dir_conf.specs.Outcome.{GivesConf};

use crate::fault::ConfFault;
use dir_names::Bytes;
use std::alloc::Global;

/// A value, with the number of its line.
#[derive(Drop)]
pub(crate) struct Value {
    pub(crate) line: u64,
    pub(crate) text: Bytes,
}

/// The values without their places in braces, where they have them.
pub(crate) fn without_places(alloc: Global, values: Vec<Value>) -> Result<Vec<Value>, ConfFault>
    ensures { GivesConf (λ found. map numbered found.items) result (without_places (map numbered values.items)) }
{
    match values.first() {
        Some(first) if begins_with_brace(first.text.as_slice()) => in_turn(
            alloc,
            values.as_slice(),
        ),
        _ => Ok(values),
    }
}

/// The values without their places, from 0 on.
fn in_turn(alloc: Global, values: &[Value]) -> Result<Vec<Value>, ConfFault>
    ensures { GivesConf (λ found. map numbered found.items) result (in_turn 0 (map numbered values.now)) }
{
    let mut found = Vec::new(alloc);
    for (place, value) in values.iter().enumerate() {
        found.push(at_place(alloc, place, value)?)?;
    }
    Ok(found)
}

/// A value without its place.
fn at_place(alloc: Global, place: usize, value: &Value) -> Result<Value, ConfFault>
    ensures { GivesConf numbered result (value_at place (numbered value.now)) }
{
    let words = place_words(alloc, place)?;
    match after_prefix(words.as_slice(), value.text.as_slice()) {
        Some(text) => Ok(Value {
            line: value.line,
            text: Bytes::new(text.to_vec(alloc)?),
        }),
        None => Err(ConfFault::BadOrder(value.line)),
    }
}

/// A place in braces.
fn place_words(alloc: Global, place: usize) -> Result<Vec<u8>, ConfFault>
    ensures { GivesConf (λ words. words.items) result (Ok (place_words place)) }
{
    let mut words = Vec::new(alloc);
    words.push(b'{')?;
    let digits = format!(in alloc; "{place}")?;
    words.extend_from_slice(digits.as_bytes())?;
    words.push(b'}')?;
    Ok(words)
}

/// What comes after a text, where another begins with it.
pub(crate) fn after_prefix<'t>(prefix: &[u8], text: &'t [u8]) -> Option<&'t [u8]>
    ensures { option_copied result ≡ after_prefix prefix.now text.now }
{
    text.strip_prefix(prefix)
}

pub(crate) fn begins_with_brace(text: &[u8]) -> bool
    ensures { result ≡ begins_with_brace text.now }
{
    match text {
        [first, ..] => *first == b'{',
        [] => false,
    }
}
