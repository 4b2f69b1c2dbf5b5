//! The pieces of a substring assertion, as they are looked for in the keys of values (RFC 4517, section 4.2).

ghost use Rattle.std.specs.Prelude.{[], ◌∷◌, ◌++◌, ◌&&◌, ◌==◌, Ok, cond, option_map};
ghost use Rattle.dir_names.specs.Outcome.{Gives};
ghost use Rattle.dir_names.specs.ValueKeys.Spaces.{with_single_spaces};
ghost use Rattle.dir_names.specs.ValueKeys.Pieces.{piece_by, piece_spaces};

use crate::value::folding::{folded_text, is_ascii, lowercase_copy};
use crate::value::spaces::{
    without_leading_spaces, without_spaces_and_hyphens, without_trailing_spaces,
};
use crate::{AttrKey, NameFault, Rule, Schema};
use std::alloc::Global;

/// Where in a substring assertion a piece is.
#[derive(Clone, Copy, PartialEq, Eq, Debug)]
pub enum PiecePlace {
    /// Before the first `*`: the piece begins a value.
    First,
    /// Between two `*`.
    Middle,
    /// After the last `*`: the piece ends a value.
    Last,
}

impl Schema {
    ghost use Rattle.dir_names.specs.ValueKeys.Pieces.{piece_of};

    /// The text to look for in the keys of this type's values: the piece, folded as they are. `None` if the
    /// rule of the type has no substrings, or the piece is not UTF-8 (under the IA5 rules, not ASCII).
    ///
    /// # Errors
    ///
    /// `Memory` alone.
    pub fn piece_key(
        &self,
        alloc: Global,
        attr: &AttrKey,
        place: PiecePlace,
        piece: &[u8],
    ) -> Result<Option<Vec<u8>>, NameFault>
        ensures { Gives (option_map (λ text. text.items)) result (Ok (piece_of self.now attr.now place piece.now)) }
    {
        match self.rule(attr) {
            Rule::CaseIgnore => case_ignore_piece(alloc, place, piece),
            Rule::Telephone => telephone_piece(alloc, piece),
            Rule::Ia5CaseIgnore => ia5_case_ignore_piece(alloc, place, piece),
            Rule::Ia5CaseExact => ia5_case_exact_piece(alloc, place, piece),
            _ => Ok(None),
        }
    }
}

fn case_ignore_piece(
    alloc: Global,
    place: PiecePlace,
    piece: &[u8],
) -> Result<Option<Vec<u8>>, NameFault>
    ensures { Gives (option_map (λ text. text.items)) result (Ok (piece_by Rule.CaseIgnore place piece.now)) }
{
    match folded_text(alloc, piece) {
        Ok(text) => Ok(Some(piece_text(alloc, place, text.as_slice())?)),
        Err(NameFault::Memory) => Err(NameFault::Memory),
        Err(_) => Ok(None),
    }
}

fn telephone_piece(alloc: Global, piece: &[u8]) -> Result<Option<Vec<u8>>, NameFault>
    ensures { Gives (option_map (λ text. text.items)) result (Ok (piece_by Rule.Telephone PiecePlace.Middle piece.now)) }
{
    match folded_text(alloc, piece) {
        Ok(text) => Ok(Some(without_spaces_and_hyphens(text))),
        Err(NameFault::Memory) => Err(NameFault::Memory),
        Err(_) => Ok(None),
    }
}

fn ia5_case_ignore_piece(
    alloc: Global,
    place: PiecePlace,
    piece: &[u8],
) -> Result<Option<Vec<u8>>, NameFault>
    ensures { Gives (option_map (λ text. text.items)) result (Ok (piece_by Rule.Ia5CaseIgnore place piece.now)) }
{
    if !is_ascii(piece) {
        return Ok(None);
    }
    let text = lowercase_copy(alloc, piece)?;
    Ok(Some(piece_text(alloc, place, text.as_slice())?))
}

fn ia5_case_exact_piece(
    alloc: Global,
    place: PiecePlace,
    piece: &[u8],
) -> Result<Option<Vec<u8>>, NameFault>
    ensures { Gives (option_map (λ text. text.items)) result (Ok (piece_by Rule.Ia5CaseExact place piece.now)) }
{
    if !is_ascii(piece) {
        return Ok(None);
    }
    Ok(Some(piece_text(alloc, place, piece)?))
}

/// A folded piece with the spaces that count in its place.
fn piece_text(alloc: Global, place: PiecePlace, text: &[u8]) -> Result<Vec<u8>, NameFault>
    ensures { Gives (λ piece. piece.items) result (Ok (piece_spaces place text.now)) }
{
    let single = with_single_spaces(alloc, text)?;
    match place {
        PiecePlace::First => Ok(without_leading_spaces(single.as_slice()).to_vec(alloc)?),
        PiecePlace::Middle => Ok(single),
        PiecePlace::Last => Ok(without_trailing_spaces(single.as_slice()).to_vec(alloc)?),
    }
}

/// The text with one space for each run of spaces.
fn with_single_spaces(alloc: Global, text: &[u8]) -> Result<Vec<u8>, NameFault>
    ensures { Gives (λ single. single.items) result (Ok (with_single_spaces text.now)) }
{
    let mut out = Vec::with_capacity(alloc, text.len())?;
    let mut after_space = false;
    for b in text {
        push_unless_repeated(&mut out, after_space, *b)?;
        after_space = *b == b' ';
    }
    Ok(out)
}

/// Appends a byte, unless it is a space after another one.
fn push_unless_repeated(out: &mut Vec<u8>, after_space: bool, b: u8) -> Result<(), NameFault>
    ensures { Gives (λ _. out.new.items) result (Ok (out.old.items ++ cond (b == 32 && after_space) [] (b ∷ []))) }
{
    if !(b == b' ' && after_space) {
        out.push(b)?;
    }
    Ok(())
}
