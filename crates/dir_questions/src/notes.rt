//! The notes on the words of a file of questions.

ghost use Rattle.std.specs.Prelude.{◌≡◌, ◌++◌, IfOk, map};
ghost use Rattle.dir_questions.specs.Notes.{notes_on_block, notes_on_questions};
ghost use Rattle.dir_questions.specs.Reading.{block_in};

use crate::reading::Block;
use dir_acl::Note;
use dir_names::{Memory, Schema};
use dir_tools::with_note_on_word;
use std::alloc::Global;

/// The notes with those on the words of a file of questions, in their order: one, with the word's line, on each word that asks for an
/// attribute of a type that the schema doesn't know. A word that comes twice has two. The pseudo attributes `entry` and `children` have
/// none.
///
/// # Errors
///
/// Memory ran out.
pub fn with_notes_on_questions(
    alloc: Global,
    schema: &Schema,
    notes: Vec<Note>,
    blocks: &[Block<'_>],
) -> Result<Vec<Note>, Memory>
    ensures { IfOk result (λ noted. noted.items ≡ notes.items ++ notes_on_questions schema.now (map block_in blocks.now)) }
{
    let mut notes = notes;
    for block in blocks {
        notes = with_notes_on_block(alloc, schema, notes, block)?;
    }
    Ok(notes)
}

fn with_notes_on_block(
    alloc: Global,
    schema: &Schema,
    notes: Vec<Note>,
    block: &Block<'_>,
) -> Result<Vec<Note>, Memory>
    ensures { IfOk result (λ noted. noted.items ≡ notes.items ++ notes_on_block schema.now (block_in block.now)) }
{
    let mut notes = notes;
    for asked in block.words.as_slice() {
        notes = with_note_on_word(alloc, schema, notes, asked.line, asked.text, &asked.word)?;
    }
    Ok(notes)
}
