//! The notes on the words of a question.

ghost use Rattle.std.specs.Prelude.{◌≡◌, ◌++◌, IfOk};
ghost use Rattle.dir_tools.specs.Inside.Asking.{word_in};
ghost use Rattle.dir_tools.specs.WordNotes.{asks_for_unknown, note_on, noted_word, notes_on_word, notes_on_words};

use crate::acl::parts::{Word, read_word};
use dir_acl::{Asked, Note, NoteCause};
use dir_names::{Bytes, Memory, Schema};
use std::alloc::Global;

/// The notes with those on the words of a question, in their order: one on each word that asks for an attribute of a type that the
/// schema doesn't know. A text that is no word has none, nor have the pseudo attributes `entry` and `children`.
///
/// # Errors
///
/// Memory ran out.
pub fn with_notes_on_words(
    alloc: Global,
    schema: &Schema,
    notes: Vec<Note>,
    words: &[Bytes],
) -> Result<Vec<Note>, Memory>
    ensures { IfOk result (λ noted. noted.items ≡ notes.items ++ notes_on_words schema.now words.now) }
{
    let mut notes = notes;
    for text in words {
        notes = with_notes_on_word(alloc, schema, notes, text.as_slice())?;
    }
    Ok(notes)
}

fn with_notes_on_word(
    alloc: Global,
    schema: &Schema,
    notes: Vec<Note>,
    text: &[u8],
) -> Result<Vec<Note>, Memory>
    ensures { IfOk result (λ noted. noted.items ≡ notes.items ++ notes_on_word schema.now text.now) }
{
    match read_word(alloc, schema, text)? {
        Some(word) => with_note_on_word(alloc, schema, notes, 0, text, &word),
        None => Ok(notes),
    }
}

/// The notes with the one on this word, if it asks for an attribute of a type that the schema doesn't know. `text` is the word as it is
/// written, and `line` the number, from 1, of the line on which it stands; 0 is for a word of a command line.
///
/// # Errors
///
/// Memory ran out.
pub fn with_note_on_word(
    alloc: Global,
    schema: &Schema,
    notes: Vec<Note>,
    line: u64,
    text: &[u8],
    word: &Word<'_>,
) -> Result<Vec<Note>, Memory>
    ensures { IfOk result (λ noted. noted.items ≡ notes.items ++ noted_word schema.now line text.now (word_in word.now)) }
{
    let mut notes = notes;
    if asks_for_unknown(schema, &word.asked) {
        notes.push(note_on(alloc, line, text, word.attr)?)?;
    }
    Ok(notes)
}

fn asks_for_unknown(schema: &Schema, asked: &Asked) -> bool
    ensures { result ≡ asks_for_unknown schema.now asked.now }
{
    match asked {
        Asked::Entry | Asked::Children => false,
        Asked::Attribute(key) => !schema.knows(key),
    }
}

fn note_on(alloc: Global, line: u64, text: &[u8], attr: &[u8]) -> Result<Note, Memory>
    ensures { IfOk result (λ note. note ≡ note_on line text.now attr.now) }
{
    let text = text.to_vec(alloc)?;
    let attr = attr.to_vec(alloc)?;
    Ok(Note {
        line,
        cause: NoteCause::UnknownInWord(Bytes::new(text), Bytes::new(attr)),
    })
}
