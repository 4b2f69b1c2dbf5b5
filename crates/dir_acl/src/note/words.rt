//! The notes on an access rule: on its words that name attributes, have a filter, or take privileges away.

ghost use Rattle.std.specs.List.{list_all};
ghost use Rattle.std.specs.Prelude.{◌≡◌, ◌++◌, [], IfSome, Ok, Some, map, option_copied, true};
ghost use Rattle.dir_names.specs.Cut.{parts_at};
ghost use Rattle.dir_names.specs.Descriptions.{description_of};
ghost use Rattle.dir_acl.specs.Notes.{attrs_notes, dnattr_notes, edit_notes, form_notes, item_notes, items_notes, named_notes, rule_notes, word_notes};
ghost use Rattle.dir_acl.specs.Config.AccessRules.{access_rule_of};
ghost use Rattle.dir_acl.specs.Config.Permissions.{edit_of};
ghost use Rattle.dir_acl.specs.Notes.Halves.{takes_half};
ghost use Rattle.dir_acl.specs.Notes.Known.{asked_known};
ghost use Rattle.dir_acl.specs.Inside.ClearLists.{AreSilent, HasClearLists, goes_on, is_clear_list, list_notes, listed_notes};
ghost use Rattle.dir_acl.specs.Inside.NotedTypes.{noted_by};
ghost use Rattle.dir_acl.specs.Outcome.{GivesPart};
ghost use Rattle.dir_acl.specs.Rules.{restriction_of, rule_of};

use crate::config::access_rules::is_by;
use crate::config::permissions::edit_of;
use crate::note::filters::with_filter;
use crate::note::types::RuleTypes;
use crate::note::{with_note, with_type};
use crate::{Asked, ConfigCause, Edit, Note, NoteCause, Rule, What};
use dir_names::{Bytes, Description, NameFault, split_once};
use std::alloc::Global;

/// The notes with those on a rule of these words, on this line. Where the rule that they were read as is given, its lists of known
/// attributes are not read again.
pub(crate) fn with_rule(
    alloc: Global,
    types: &RuleTypes<'_>,
    notes: Vec<Note>,
    line: u64,
    words: &[Option<Bytes>],
    rule: Option<&Rule>,
) -> Result<Vec<Note>, ConfigCause>
    requires { IfSome rule (λ rule. access_rule_of (noted_by types.now).rows words.now ≡ Ok (rule_of rule.now)) }
    ensures { GivesPart (λ notes. notes.items) result (Ok (notes.items ++ rule_notes (noted_by types.now) line words.now)) }
{
    with_words(
        alloc,
        types,
        notes,
        line,
        words,
        has_clear_lists(types, rule),
    )
}

fn with_words(
    alloc: Global,
    types: &RuleTypes<'_>,
    notes: Vec<Note>,
    line: u64,
    words: &[Option<Bytes>],
    are_silent: bool,
) -> Result<Vec<Note>, ConfigCause>
    requires { are_silent ≡ true → AreSilent (noted_by types.now) line words.now }
    ensures { GivesPart (λ notes. notes.items) result (Ok (notes.items ++ rule_notes (noted_by types.now) line words.now)) }
{
    let mut notes = notes;
    let mut is_silent = are_silent;
    for word in words {
        is_silent = is_silent && goes_on(word);
        notes = with_word(alloc, types, notes, line, word, is_silent)?;
    }
    Ok(notes)
}

/// Whether the `<what>` goes on after this word of a rule, or with it.
fn goes_on(word: &Option<Bytes>) -> bool
    ensures { result ≡ goes_on word.now }
{
    match word {
        Some(word) => !is_by(word.as_slice()),
        None => false,
    }
}

/// Whether a rule is given, and each item of its lists is an attribute without a note, or a pseudo attribute.
fn has_clear_lists(types: &RuleTypes<'_>, rule: Option<&Rule>) -> bool
    ensures { result ≡ true → HasClearLists (noted_by types.now) (option_copied rule.entry) }
{
    match rule {
        Some(rule) => are_clear_lists(types, rule.what.as_slice()),
        None => false,
    }
}

fn are_clear_lists(types: &RuleTypes<'_>, whats: &[What]) -> bool
    ensures { result ≡ true → list_all (is_clear_list (noted_by types.now)) (map restriction_of whats.now) ≡ true }
{
    for what in whats {
        if !is_clear_list(types, what) {
            return false;
        }
    }
    true
}

fn is_clear_list(types: &RuleTypes<'_>, what: &What) -> bool
    ensures { result ≡ true → is_clear_list (noted_by types.now) (restriction_of what.now) ≡ true }
{
    match what {
        What::Attrs(items) => are_clear(types, items.as_slice()),
        What::Dn(_, _) | What::Filter(_) => true,
        What::Open(_) => false,
    }
}

fn are_clear(types: &RuleTypes<'_>, items: &[Asked]) -> bool
    ensures { result ≡ true → list_all (asked_known (noted_by types.now)) items.now ≡ true }
{
    for item in items {
        if !is_clear(types, item) {
            return false;
        }
    }
    true
}

fn is_clear(types: &RuleTypes<'_>, item: &Asked) -> bool
    ensures { result ≡ true → asked_known (noted_by types.now) item.now ≡ true }
{
    match item {
        Asked::Entry | Asked::Children => true,
        Asked::Attribute(attr) => types.is_clear(attr),
    }
}

/// The notes with those on a word. Where it is silent it has none as a list of attributes.
fn with_word(
    alloc: Global,
    types: &RuleTypes<'_>,
    notes: Vec<Note>,
    line: u64,
    word: &Option<Bytes>,
    is_silent: bool,
) -> Result<Vec<Note>, ConfigCause>
    requires { is_silent ≡ true → listed_notes (noted_by types.now) line word.now ≡ [] }
    ensures { GivesPart (λ notes. notes.items) result (Ok (notes.items ++ word_notes (noted_by types.now) line word.now)) }
{
    let Some(word) = word else {
        return Ok(notes);
    };
    let notes = with_edit(notes, line, word.as_slice())?;
    let (form, value) = split_once(word.as_slice(), b'=');
    match value {
        Some(text) => with_form(alloc, types, notes, line, form, text, is_silent),
        None => Ok(notes),
    }
}

/// Most words are no `<access>` that takes something away, as their first byte tells.
fn with_edit(notes: Vec<Note>, line: u64, word: &[u8]) -> Result<Vec<Note>, ConfigCause>
    ensures { GivesPart (λ notes. notes.items) result (Ok (notes.items ++ edit_notes line (edit_of word.now))) }
{
    match word {
        [b'-', ..] => with_removal(notes, line, edit_of(word)),
        _ => Ok(notes),
    }
}

fn with_removal(notes: Vec<Note>, line: u64, edit: Option<Edit>) -> Result<Vec<Note>, ConfigCause>
    ensures { GivesPart (λ notes. notes.items) result (Ok (notes.items ++ edit_notes line edit)) }
{
    match edit {
        Some(edit) if takes_half(edit) => with_note(notes, line, NoteCause::HalfOfWrite),
        _ => Ok(notes),
    }
}

/// Whether `a` or `z` is taken away, and not both.
pub(crate) fn takes_half(edit: Edit) -> bool
    ensures { result ≡ takes_half edit }
{
    match edit {
        Edit::Remove(set) => set.add != set.delete,
        Edit::Set(_) | Edit::Add(_) => false,
    }
}

fn with_form(
    alloc: Global,
    types: &RuleTypes<'_>,
    notes: Vec<Note>,
    line: u64,
    form: &[u8],
    text: &[u8],
    is_silent: bool,
) -> Result<Vec<Note>, ConfigCause>
    requires { is_silent ≡ true → list_notes (noted_by types.now) line form.now (Some text.now) ≡ [] }
    ensures { GivesPart (λ notes. notes.items) result (Ok (notes.items ++ form_notes (noted_by types.now) line form.now (Some text.now))) }
{
    if form.eq_ignore_ascii_case(b"filter") {
        return with_filter(alloc, types, notes, line, text);
    }
    with_attrs(alloc, types, notes, line, form, text, is_silent)
}

fn with_attrs(
    alloc: Global,
    types: &RuleTypes<'_>,
    notes: Vec<Note>,
    line: u64,
    form: &[u8],
    text: &[u8],
    is_silent: bool,
) -> Result<Vec<Note>, ConfigCause>
    requires { is_silent ≡ true → list_notes (noted_by types.now) line form.now (Some text.now) ≡ [] }
    ensures { GivesPart (λ notes. notes.items) result (Ok (notes.items ++ attrs_notes (noted_by types.now) line form.now text.now)) }
{
    if !form.eq_ignore_ascii_case(b"attrs") {
        return with_dnattr(alloc, types, notes, line, form, text);
    }
    if is_silent {
        return Ok(notes);
    }
    with_items(alloc, types, notes, line, text)
}

fn with_dnattr(
    alloc: Global,
    types: &RuleTypes<'_>,
    notes: Vec<Note>,
    line: u64,
    form: &[u8],
    text: &[u8],
) -> Result<Vec<Note>, ConfigCause>
    ensures { GivesPart (λ notes. notes.items) result (Ok (notes.items ++ dnattr_notes (noted_by types.now) line form.now text.now)) }
{
    if form.eq_ignore_ascii_case(b"dnattr") {
        return with_named(alloc, types, notes, line, text);
    }
    Ok(notes)
}

/// The items of `attrs=LIST`.
pub(crate) fn with_items(
    alloc: Global,
    types: &RuleTypes<'_>,
    notes: Vec<Note>,
    line: u64,
    text: &[u8],
) -> Result<Vec<Note>, ConfigCause>
    ensures { GivesPart (λ notes. notes.items) result (Ok (notes.items ++ items_notes (noted_by types.now) line (parts_at 44 text.now))) }
{
    let mut notes = notes;
    let mut rest = Some(text);
    while let Some(more) = rest {
        let (item, after) = split_once(more, b',');
        notes = with_item(alloc, types, notes, line, item)?;
        rest = after;
    }
    Ok(notes)
}

/// An item but the pseudo attributes `entry` and `children` is a description.
fn with_item(
    alloc: Global,
    types: &RuleTypes<'_>,
    notes: Vec<Note>,
    line: u64,
    text: &[u8],
) -> Result<Vec<Note>, ConfigCause>
    ensures { GivesPart (λ notes. notes.items) result (Ok (notes.items ++ item_notes (noted_by types.now) line text.now)) }
{
    if text.eq_ignore_ascii_case(b"entry") || text.eq_ignore_ascii_case(b"children") {
        return Ok(notes);
    }
    with_named(alloc, types, notes, line, text)
}

pub(crate) fn with_named(
    alloc: Global,
    types: &RuleTypes<'_>,
    notes: Vec<Note>,
    line: u64,
    text: &[u8],
) -> Result<Vec<Note>, ConfigCause>
    ensures { GivesPart (λ notes. notes.items) result (Ok (notes.items ++ named_notes (noted_by types.now) line (description_of (noted_by types.now).rows text.now))) }
{
    match Description::read(alloc, types.schema(), text) {
        Ok(description) => with_type(alloc, types, notes, line, &description),
        Err(NameFault::Memory) => Err(ConfigCause::Memory),
        Err(_) => Ok(notes),
    }
}
