//! The notes on a filter: on each of its tests, in their order.

ghost use Rattle.std.specs.Prelude.{◌≡◌, ◌++◌, ◌∷◌, Ok, option_copied};
ghost use Rattle.dir_names.specs.Descriptions.{description_of};
ghost use Rattle.dir_acl.specs.Filters.{begins_test};
ghost use Rattle.dir_acl.specs.Notes.{asks_presence, class_notes, compared_notes, filter_notes, is_object_class, test_notes, tested_notes, tests_notes, type_notes};
ghost use Rattle.dir_acl.specs.Inside.NotedTypes.{noted_by};
ghost use Rattle.dir_acl.specs.Outcome.{GivesPart};

use crate::filter::assertion::{described_by, operator_of};
use crate::filter::reading::in_parentheses;
use crate::note::types::RuleTypes;
use crate::note::{with_note, with_type};
use crate::{ConfigCause, FilterFault, Note, NoteCause};
use dir_names::{Description, NameFault, split_once};
use std::alloc::Global;

/// The notes with those on the filter of a rule on this line.
pub(crate) fn with_filter(
    alloc: Global,
    types: &RuleTypes<'_>,
    notes: Vec<Note>,
    line: u64,
    text: &[u8],
) -> Result<Vec<Note>, ConfigCause>
    ensures { GivesPart (λ notes. notes.items) result (Ok (notes.items ++ filter_notes (noted_by types.now) line text.now)) }
{
    match in_parentheses(alloc, text) {
        Ok(whole) => with_tests(alloc, types, notes, line, whole.as_slice()),
        Err(FilterFault::Memory) => Err(ConfigCause::Memory),
        Err(_) => Err(ConfigCause::BadFilter),
    }
}

fn with_tests(
    alloc: Global,
    types: &RuleTypes<'_>,
    notes: Vec<Note>,
    line: u64,
    text: &[u8],
) -> Result<Vec<Note>, ConfigCause>
    ensures { GivesPart (λ notes. notes.items) result (Ok (notes.items ++ tests_notes (noted_by types.now) line text.now)) }
{
    let mut notes = notes;
    let mut rest = text;
    while let Some((b, after)) = rest.split_first() {
        notes = with_opened(alloc, types, notes, line, *b, after)?;
        rest = after;
    }
    Ok(notes)
}

/// After a `(` stands a test, unless a list of filters or a negation begins.
fn with_opened(
    alloc: Global,
    types: &RuleTypes<'_>,
    notes: Vec<Note>,
    line: u64,
    b: u8,
    after: &[u8],
) -> Result<Vec<Note>, ConfigCause>
    ensures { GivesPart (λ notes. notes.items ++ tests_notes (noted_by types.now) line after.now) result (Ok (notes.items ++ tests_notes (noted_by types.now) line (b ∷ after.now))) }
{
    if b == b'(' && begins_test(after) {
        return with_test(alloc, types, notes, line, after);
    }
    Ok(notes)
}

pub(crate) fn begins_test(text: &[u8]) -> bool
    ensures { result ≡ begins_test text.now }
{
    !matches!(text, [b'&' | b'|' | b'!', ..])
}

/// The test that a text begins with.
fn with_test(
    alloc: Global,
    types: &RuleTypes<'_>,
    notes: Vec<Note>,
    line: u64,
    text: &[u8],
) -> Result<Vec<Note>, ConfigCause>
    ensures { GivesPart (λ notes. notes.items) result (Ok (notes.items ++ test_notes (noted_by types.now) line text.now)) }
{
    let (before, value) = split_once(text, b'=');
    with_compared(alloc, types, notes, line, before, value)
}

/// A test of what is before the operator, for what is after it.
fn with_compared(
    alloc: Global,
    types: &RuleTypes<'_>,
    notes: Vec<Note>,
    line: u64,
    before: &[u8],
    value: Option<&[u8]>,
) -> Result<Vec<Note>, ConfigCause>
    ensures { GivesPart (λ notes. notes.items) result (Ok (notes.items ++ compared_notes (noted_by types.now) line before.now (option_copied value.entry))) }
{
    match Description::read(
        alloc,
        types.schema(),
        described_by(operator_of(before), before),
    ) {
        Ok(description) => {
            let notes = with_type(alloc, types, notes, line, &description)?;
            with_class(notes, line, &description, value)
        }
        Err(NameFault::Memory) => Err(ConfigCause::Memory),
        Err(_) => Ok(notes),
    }
}

fn with_class(
    notes: Vec<Note>,
    line: u64,
    description: &Description,
    value: Option<&[u8]>,
) -> Result<Vec<Note>, ConfigCause>
    ensures { GivesPart (λ notes. notes.items) result (Ok (notes.items ++ class_notes line description.now (option_copied value.entry))) }
{
    if is_object_class(description.spelling()) && !asks_presence(value) {
        return with_note(notes, line, NoteCause::ObjectClass);
    }
    Ok(notes)
}

/// `objectClass`, by its name or its number.
fn is_object_class(spelling: &[u8]) -> bool
    ensures { result ≡ is_object_class spelling.now }
{
    spelling.eq_ignore_ascii_case(b"objectClass") || spelling.eq_ignore_ascii_case(b"2.5.4.0")
}

/// Whether a test asks no more than that the attribute is there.
pub(crate) fn asks_presence(value: Option<&[u8]>) -> bool
    ensures { result ≡ asks_presence (option_copied value.entry) }
{
    match value {
        Some(value) => value.starts_with(b"*)"),
        None => false,
    }
}
