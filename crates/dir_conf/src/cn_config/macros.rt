//! Object identifiers that have names (slapd-config(5), `olcObjectIdentifier`), in definitions of attribute types.

ghost use Rattle.std.specs.List.{before_first, position_or_len};
ghost use Rattle.std.specs.Prelude.{◌≡◌, Ok, Some, drop, map, option_copied, position};
ghost use Rattle.dir_conf_text.specs.Lines.{is_space};
ghost use Rattle.dir_conf.specs.CnConfig.Macros.{by_first, definition, expanded, macro_by, oid_named, plain_byte, with_first_word, with_macro, with_macros, without_spaces};
ghost use Rattle.dir_conf.specs.CnConfig.Values.{numbered};
ghost use Rattle.dir_conf.specs.Outcome.{GivesConf};

use crate::cn_config::arguments::read_arguments;
use crate::cn_config::values::Value;
use crate::fault::ConfFault;
use dir_conf_text::is_space;
use dir_names::{Bytes, split_once};
use std::alloc::Global;

/// An object identifier that has a name.
#[derive(Drop)]
pub(crate) struct Macro {
    pub(crate) name: Bytes,
    pub(crate) oid: Bytes,
}

/// The macros with those of more values.
pub(crate) fn with_macros(
    alloc: Global,
    macros: Vec<Macro>,
    values: &[Value],
) -> Result<Vec<Macro>, ConfFault>
    ensures { GivesConf (λ found. found.items) result (with_macros macros.items (map numbered values.now)) }
{
    let mut macros = macros;
    for value in values {
        macros = with_macro(alloc, macros, value)?;
    }
    Ok(macros)
}

fn with_macro(alloc: Global, macros: Vec<Macro>, value: &Value) -> Result<Vec<Macro>, ConfFault>
    ensures { GivesConf (λ found. found.items) result (with_macro macros.items (numbered value.now)) }
{
    let Some(arguments) = read_arguments(alloc, value.text.as_slice())? else {
        return Err(ConfFault::BadArguments(value.line));
    };
    with_macro_of(alloc, macros, value.line, arguments.as_slice())
}

/// The macros with the one that the arguments of a line say.
pub(crate) fn with_macro_of(
    alloc: Global,
    macros: Vec<Macro>,
    line: u64,
    arguments: &[Bytes],
) -> Result<Vec<Macro>, ConfFault>
    ensures { GivesConf (λ found. found.items) result (macro_by macros.items line (Some arguments.now)) }
{
    let [name, word] = arguments else {
        return Err(ConfFault::BadArguments(line));
    };
    let oid = expanded(alloc, macros.as_slice(), word.as_slice())?;
    let name = Bytes::new(name.as_slice().to_vec(alloc)?);
    let mut macros = macros;
    macros.push(Macro { name, oid })?;
    Ok(macros)
}

/// A word, with the object identifier of its name, where it has one.
fn expanded(alloc: Global, macros: &[Macro], word: &[u8]) -> Result<Bytes, ConfFault>
    ensures { GivesConf (λ text. text) result (Ok (expanded macros.now word.now)) }
{
    let (name, rest) = split_once(word, b':');
    let Some(oid) = oid_named(macros, name) else {
        return Ok(Bytes::new(word.to_vec(alloc)?));
    };
    let mut text = oid.to_vec(alloc)?;
    if let Some(rest) = rest {
        text.push(b'.')?;
        text.extend_from_slice(rest)?;
    }
    Ok(Bytes::new(text))
}

/// The object identifier of the first macro of this name.
fn oid_named<'m>(macros: &'m [Macro], name: &[u8]) -> Option<&'m [u8]>
    ensures { option_copied result ≡ oid_named macros.now name.now }
{
    for one in macros {
        if one.name.as_slice() == name {
            return Some(one.oid.as_slice());
        }
    }
    None
}

/// The definition of an attribute type in a value: its number may be a macro, and its white space is written as spaces.
pub(crate) fn definition(alloc: Global, macros: &[Macro], text: &[u8]) -> Result<Bytes, ConfFault>
    ensures { GivesConf (λ found. found) result (Ok (definition macros.now text.now)) }
{
    let whole = by_first(alloc, macros, text)?;
    plain(alloc, whole.as_slice())
}

fn by_first(alloc: Global, macros: &[Macro], text: &[u8]) -> Result<Bytes, ConfFault>
    ensures { GivesConf (λ found. found) result (Ok (by_first macros.now text.now (without_spaces text.now))) }
{
    match without_spaces(text) {
        [b'(', rest @ ..] => with_first_word(alloc, macros, without_spaces(rest)),
        _ => Ok(Bytes::new(text.to_vec(alloc)?)),
    }
}

fn with_first_word(alloc: Global, macros: &[Macro], text: &[u8]) -> Result<Bytes, ConfFault>
    ensures { GivesConf (λ found. found) result (Ok (with_first_word macros.now text.now)) }
{
    let (word, rest) = first_word(text);
    let word = expanded(alloc, macros, word)?;
    let mut found = Vec::new(alloc);
    found.extend_from_slice(b"( ")?;
    found.extend_from_slice(word.as_slice())?;
    found.extend_from_slice(rest)?;
    Ok(Bytes::new(found))
}

/// A text up to its first white space, and the rest.
pub(crate) fn first_word(text: &[u8]) -> (&[u8], &[u8])
    ensures word { result.0.now ≡ before_first is_space text.now }
    ensures rest { result.1.now ≡ drop (position_or_len is_space text.now) text.now }
{
    match first_space(text) {
        Some(at) => text.split_at(at),
        None => (text, &[]),
    }
}

fn first_space(text: &[u8]) -> Option<usize>
    ensures { result ≡ position is_space text.now }
{
    text.iter().position(|b| is_space(*b))
}

/// A text without the white space that it begins with.
pub(crate) fn without_spaces(text: &[u8]) -> &[u8]
    ensures { result.now ≡ without_spaces text.now }
{
    let mut rest = text;
    while let [b, more @ ..] = rest {
        if !is_space(*b) {
            return rest;
        }
        rest = more;
    }
    rest
}

/// A text with its white space written as spaces.
fn plain(alloc: Global, text: &[u8]) -> Result<Bytes, ConfFault>
    ensures { GivesConf (λ found. found) result (Ok (map plain_byte text.now)) }
{
    let mut found = Vec::new(alloc);
    for b in text {
        found.push(plain_byte(*b))?;
    }
    Ok(Bytes::new(found))
}

fn plain_byte(b: u8) -> u8
    ensures { result ≡ plain_byte b }
{
    if is_space(b) { b' ' } else { b }
}
