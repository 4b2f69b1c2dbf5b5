//! The parts of a question: the base, the requester, and the words.

ghost use Rattle.std.specs.Prelude.{◌≡◌, IfOk, map, option_copied, option_map};
ghost use Rattle.dir_tools.specs.AccessReport.{access_of, access_terms, asked_of, named_key, parts_of, requester_of, word_of, words_of};
ghost use Rattle.dir_tools.specs.Inside.Asking.{GivesPart, access_in, parts_in, word_in};

use crate::acl::Question;
use crate::{Item, ToolFault};
use dir_acl::{Asked, Level};
use dir_names::{Bytes, Description, Dn, DnKey, Memory, NameFault, Schema, split_once};
use std::alloc::Global;

/// The parts of a question, as they were read.
pub(super) struct Parts<'q> {
    pub(super) base: DnKey,
    pub(super) requester: Option<(Dn, DnKey)>,
    pub(super) words: Vec<Word<'q>>,
}

// Written out, so that a drop is one call in proofs (docs/CONTRIBUTING.md).
impl Drop for Parts<'_> {
    fn drop(self) {
        let Parts {
            base,
            requester,
            words,
        } = self;
        drop(base);
        drop(requester);
        drop(words);
    }
}

/// A word of a question, `attr[/access]`. What is written of it is kept for the report.
#[derive(Drop)]
pub struct Word<'q> {
    /// What it asks for, as it is written.
    pub attr: &'q [u8],
    /// What it asks for: the entry, its children, or an attribute.
    pub asked: Asked,
    /// The level of access that it asks about, if it names one: as it is written, and what it is.
    pub access: Option<(&'q [u8], Level)>,
}

/// Reads the parts of a question, in their order.
///
/// # Errors
///
/// `BadQuestion` for the first part that is faulty, and `Memory`.
pub(super) fn read_parts<'q>(
    alloc: Global,
    schema: &Schema,
    question: &'q Question,
) -> Result<Parts<'q>, ToolFault>
    ensures { GivesPart parts_in result (parts_of (access_terms schema.now question.now)) }
{
    let base = match read_name(alloc, schema, question.base.as_slice())? {
        Some((_, key)) => key,
        None => return Err(ToolFault::BadQuestion(Item::Base)),
    };
    let requester = match read_requester(alloc, schema, question.authc.as_ref())? {
        Some(requester) => requester,
        None => return Err(ToolFault::BadQuestion(Item::Authc)),
    };
    match read_words(alloc, schema, question.words.as_slice()) {
        Ok(words) => Ok(Parts {
            base,
            requester,
            words,
        }),
        Err(fault) => Err(fault),
    }
}

/// The requester: none if there is no name. No requester at all if the name is not legal.
fn read_requester(
    alloc: Global,
    schema: &Schema,
    authc: Option<&Bytes>,
) -> Result<Option<Option<(Dn, DnKey)>>, Memory>
    ensures { IfOk result (λ requester. requester ≡ requester_of schema.now (option_copied authc.entry)) }
{
    match authc {
        None => Ok(Some(None)),
        Some(text) => Ok(read_name(alloc, schema, text.as_slice())?.map(Some)),
    }
}

/// The name that a text spells, with its key, if it is legal.
///
/// # Errors
///
/// Memory ran out.
pub fn read_name(alloc: Global, schema: &Schema, text: &[u8]) -> Result<Option<(Dn, DnKey)>, Memory>
    ensures { IfOk result (λ name. name ≡ named_key schema.now text.now) }
{
    let name = match Dn::read(alloc, text) {
        Ok(name) => name,
        Err(NameFault::Memory) => return Err(Memory),
        Err(_) => return Ok(None),
    };
    match name.key_if_any(alloc, schema)? {
        Some(key) => Ok(Some((name, key))),
        None => Ok(None),
    }
}

/// The words, in their order; `entry` if there is none.
fn read_words<'q>(
    alloc: Global,
    schema: &Schema,
    texts: &'q [Bytes],
) -> Result<Vec<Word<'q>>, ToolFault>
    ensures { GivesPart (λ words. map word_in words.items) result (words_of schema.now texts.now) }
{
    let mut words = Vec::new(alloc);
    if texts.is_empty() {
        words.push(Word {
            attr: b"entry",
            asked: Asked::Entry,
            access: None,
        })?;
    }
    for (i, text) in texts.iter().enumerate() {
        match read_word(alloc, schema, text.as_slice())? {
            Some(word) => words.push(word)?,
            None => return Err(ToolFault::BadQuestion(Item::Word(i as u64 + 1))),
        }
    }
    Ok(words)
}

/// A word `attr[/access][:value]`, if it is one.
///
/// # Errors
///
/// Memory ran out.
pub fn read_word<'q>(
    alloc: Global,
    schema: &Schema,
    text: &'q [u8],
) -> Result<Option<Word<'q>>, Memory>
    ensures { IfOk result (λ word. option_map word_in word ≡ word_of schema.now text.now) }
{
    let (used, _) = split_once(text, b':');
    let (attr, access) = split_once(used, b'/');
    let asked = match read_asked(alloc, schema, attr)? {
        Some(asked) => asked,
        None => return Ok(None),
    };
    match read_access(access) {
        Some(access) => Ok(Some(Word {
            attr,
            asked,
            access,
        })),
        None => Ok(None),
    }
}

/// A pseudo attribute or a description.
fn read_asked(alloc: Global, schema: &Schema, text: &[u8]) -> Result<Option<Asked>, Memory>
    ensures { IfOk result (λ asked. asked ≡ asked_of schema.now text.now) }
{
    if text.eq_ignore_ascii_case(b"entry") {
        return Ok(Some(Asked::Entry));
    }
    if text.eq_ignore_ascii_case(b"children") {
        return Ok(Some(Asked::Children));
    }
    match Description::read(alloc, schema, text) {
        Ok(description) => match description.key().try_clone(alloc) {
            Ok(key) => Ok(Some(Asked::Attribute(key))),
            Err(_) => Err(Memory),
        },
        Err(NameFault::Memory) => Err(Memory),
        Err(_) => Ok(None),
    }
}

/// No access, or the level that the text names.
fn read_access(text: Option<&[u8]>) -> Option<Option<(&[u8], Level)>>
    ensures { option_map access_in result ≡ access_of (option_copied text.entry) }
{
    match text {
        None => Some(None),
        Some(text) => match Level::read(text) {
            Some(level) => Some(Some((text, level))),
            None => None,
        },
    }
}
