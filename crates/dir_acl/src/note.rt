//! Notes on a configuration: what it says that is passed over here, or that is taken for something of its own, so that an answer
//! may rest on what isn't known. `types` finds the types from which others are derived, `lines` goes through the lines, `words` through
//! the words of a rule, and `filters` through a filter.
//! A note on a word of a question has the same form; whoever reads the question makes it.

ghost use Rattle.std.specs.Prelude.{◌++◌, ◌∷◌, [], Ok};
ghost use Rattle.dir_acl.specs.Notes.{note_at, type_notes};
ghost use Rattle.dir_acl.specs.Inside.NotedTypes.{noted_by};
ghost use Rattle.dir_acl.specs.Outcome.{GivesPart};

pub(crate) mod filters;
pub(crate) mod lines;
pub(crate) mod types;
pub(crate) mod words;

use crate::ConfigCause;
use crate::note::types::RuleTypes;
use dir_names::{Bytes, Description};
use std::alloc::Global;

/// What a configuration says on a line, or a word of a question, that answers may rest on, and that isn't known or not looked at here.
#[derive(Debug, Drop)]
pub struct Note {
    /// The number, from 1, of the line on which what is noted begins; 0 for `NoRule`, and for a word of a command line.
    pub line: u64,
    pub cause: NoteCause,
}

/// What a note tells.
#[derive(Debug, Drop)]
pub enum NoteCause {
    /// An `include` of this file, which isn't read: the rules in it are not known.
    Include(Bytes),
    /// An attribute description, in `attrs=` or in a test of a filter, of a type that the schema doesn't know: it may be misspelt,
    /// another name of a type, the name of an object class, or that of a type from which others are derived. Here it is a type of its
    /// own, whose values are compared byte by byte.
    UnknownType(Bytes),
    /// An attribute description, in `attrs=`, in a test of a filter or in `dnattr=`, of a type from which the configuration derives
    /// another one (`SUP`; RFC 4512, section 2.5.1). In slapd it names the attributes of both, and here those of the one type.
    Supertype(Bytes),
    /// A test of a filter for a value of `objectClass`. The classes that an entry lists are looked at, and not those above them.
    ObjectClass,
    /// An `<access>` that takes `a` or `z` away, and not both, as `-z` does. In slapd 2.5 neither is left then, until one of them is
    /// added again; here the other one is.
    HalfOfWrite,
    /// An access rule in the part of `database config` or `database monitor`, which is passed over.
    OtherDatabase,
    /// No access rule was read, so everybody may read everything.
    NoRule,
    /// This word of a question asks for the attribute of this description, of a type that the schema doesn't know: another name of a
    /// type, or a type that only the server writes, may have other rules there. No configuration has this note.
    UnknownInWord(Bytes, Bytes),
}

/// The notes with one more.
fn with_note(notes: Vec<Note>, line: u64, cause: NoteCause) -> Result<Vec<Note>, ConfigCause>
    ensures { GivesPart (λ notes. notes.items) result (Ok (notes.items ++ note_at line cause ∷ [])) }
{
    let mut notes = notes;
    notes.push(Note { line, cause })?;
    Ok(notes)
}

/// The notes with one if the type of this description isn't known, or if others are derived from it.
fn with_type(
    alloc: Global,
    types: &RuleTypes<'_>,
    notes: Vec<Note>,
    line: u64,
    description: &Description,
) -> Result<Vec<Note>, ConfigCause>
    ensures { GivesPart (λ notes. notes.items) result (Ok (notes.items ++ type_notes (noted_by types.now) line description.now)) }
{
    let is_known = types.schema().knows(description.key());
    if is_known && !types.is_supertype(alloc, description.spelling())? {
        return Ok(notes);
    }
    let text = Bytes::new(description.spelling().to_vec(alloc)?);
    with_note(
        notes,
        line,
        if is_known {
            NoteCause::Supertype(text)
        } else {
            NoteCause::UnknownType(text)
        },
    )
}
