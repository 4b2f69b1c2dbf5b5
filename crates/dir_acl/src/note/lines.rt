//! The lines of a configuration, read with the notes on them.

ghost use Rattle.std.specs.Prelude.{◌≡◌, ◌++◌, IfOk, IfSome, Ok, codes, false, true};
ghost use Rattle.dir_acl.specs.Config.{after_line, after_lines, at_line, no_settings};
ghost use Rattle.dir_acl.specs.Config.AccessRules.{access_rule_of};
ghost use Rattle.dir_acl.specs.Notes.{after_keyword, begins_with, end_notes, file_of, is_rule, line_notes, lines_notes, notes_of_lines, passed_notes, read_notes};
ghost use Rattle.dir_conf_text.specs.Text.{words_by};
ghost use Rattle.dir_acl.specs.Inside.Noting.{has_rules};
ghost use Rattle.dir_acl.specs.Inside.NotedTypes.{noted_by};
ghost use Rattle.dir_acl.specs.Inside.ReadingConfig.{settings_of};
ghost use Rattle.dir_acl.specs.Outcome.{GivesConfig, GivesPart};
ghost use Rattle.dir_acl.specs.Rules.{rule_of};

use crate::config::directives::{Settings, after_line};
use crate::config::out_of_memory;
use crate::note::types::RuleTypes;
use crate::note::with_note;
use crate::note::words::with_rule;
use crate::{ConfigCause, ConfigFault, Note, NoteCause, Rule};
use dir_conf_text::{ConfigLine, ConfigText};
use dir_names::{Bytes, Schema};
use std::alloc::Global;

/// What the lines so far say, and the notes on them.
#[derive(Drop)]
pub(crate) struct Noted {
    pub(crate) settings: Settings,
    pub(crate) notes: Vec<Note>,
}

/// What all lines say, and the notes on them.
pub(crate) fn read_noted(
    alloc: Global,
    schema: &Schema,
    text: ConfigText,
) -> Result<Noted, ConfigFault>
    ensures read { GivesConfig (λ noted. settings_of noted.settings) result (after_lines schema.now no_settings text) }
    ensures notes { IfOk result (λ noted. noted.notes.items ≡ notes_of_lines schema.now text) }
{
    let Ok(types) = RuleTypes::of_lines(alloc, schema, text.lines()) else {
        return Err(out_of_memory());
    };
    finished(read_noted_lines(alloc, &types, text.into_lines())?)
}

fn read_noted_lines(
    alloc: Global,
    types: &RuleTypes<'_>,
    lines: Vec<ConfigLine>,
) -> Result<Noted, ConfigFault>
    ensures read { GivesConfig (λ noted. settings_of noted.settings) result (after_lines (noted_by types.now).rows no_settings lines.items) }
    ensures notes { IfOk result (λ noted. noted.notes.items ++ end_notes (has_rules (settings_of noted.settings).rules) ≡ lines_notes (noted_by types.now) false false lines.items) }
{
    let mut noted = Noted {
        settings: Settings::new(alloc),
        notes: Vec::new(alloc),
    };
    for line in lines {
        noted = after_noted_line(alloc, types, noted, &line)?;
    }
    Ok(noted)
}

/// Last comes that there is no rule.
fn finished(noted: Noted) -> Result<Noted, ConfigFault>
    ensures read { GivesConfig (λ now. settings_of now.settings) result (Ok (settings_of noted.settings)) }
    ensures notes { IfOk result (λ now. now.notes.items ≡ noted.notes.items ++ end_notes (has_rules (settings_of noted.settings).rules)) }
{
    let Noted { settings, notes } = noted;
    if !settings.rules.is_empty() {
        return Ok(Noted { settings, notes });
    }
    match with_note(notes, 0, NoteCause::NoRule) {
        Ok(notes) => Ok(Noted { settings, notes }),
        Err(_) => Err(out_of_memory()),
    }
}

/// What the lines say after one line more, with the notes on it.
fn after_noted_line(
    alloc: Global,
    types: &RuleTypes<'_>,
    noted: Noted,
    line: &ConfigLine,
) -> Result<Noted, ConfigFault>
    ensures read { GivesConfig (λ now. settings_of now.settings) result (at_line line.now.number (after_line (noted_by types.now).rows (settings_of noted.settings) line.now.said)) }
    ensures notes { IfOk result (λ now. now.notes.items ≡ noted.notes.items ++ line_notes (noted_by types.now) noted.settings.is_passed_over line.now.number (words_by line.now.said)) }
{
    let Noted { settings, notes } = noted;
    let is_passed_over = settings.is_passed_over;
    let settings = after_line(alloc, types.schema(), settings, line)?;
    let Ok(notes) = with_notes_on_line(
        alloc,
        types,
        notes,
        is_passed_over,
        line.number,
        line.words(),
        settings.rules.last(),
    ) else {
        return Err(out_of_memory());
    };
    Ok(Noted { settings, notes })
}

/// The notes with those on a line. If it is a rule that is not passed over, it was read as the one that is given.
fn with_notes_on_line(
    alloc: Global,
    types: &RuleTypes<'_>,
    notes: Vec<Note>,
    is_passed_over: bool,
    number: u64,
    words: &[Option<Bytes>],
    rule: Option<&Rule>,
) -> Result<Vec<Note>, ConfigCause>
    requires { is_rule is_passed_over words.now ≡ true → IfSome rule (λ rule. access_rule_of (noted_by types.now).rows (after_keyword words.now) ≡ Ok (rule_of rule.now)) }
    ensures { GivesPart (λ notes. notes.items) result (Ok (notes.items ++ line_notes (noted_by types.now) is_passed_over number words.now)) }
{
    if is_passed_over {
        with_passed(notes, number, words)
    } else {
        with_read(alloc, types, notes, number, words, rule)
    }
}

/// In a part that is passed over a rule is noted, and no other line.
fn with_passed(
    notes: Vec<Note>,
    number: u64,
    words: &[Option<Bytes>],
) -> Result<Vec<Note>, ConfigCause>
    ensures { GivesPart (λ notes. notes.items) result (Ok (notes.items ++ passed_notes number words.now)) }
{
    if begins_with(words, b"access") {
        return with_note(notes, number, NoteCause::OtherDatabase);
    }
    Ok(notes)
}

fn with_read(
    alloc: Global,
    types: &RuleTypes<'_>,
    notes: Vec<Note>,
    number: u64,
    words: &[Option<Bytes>],
    rule: Option<&Rule>,
) -> Result<Vec<Note>, ConfigCause>
    requires { begins_with words.now (codes "access") ≡ true → IfSome rule (λ rule. access_rule_of (noted_by types.now).rows (after_keyword words.now) ≡ Ok (rule_of rule.now)) }
    ensures { GivesPart (λ notes. notes.items) result (Ok (notes.items ++ read_notes (noted_by types.now) number words.now)) }
{
    if begins_with(words, b"access") {
        return with_rule(alloc, types, notes, number, after_keyword(words), rule);
    }
    if begins_with(words, b"include") {
        let file = file_of(alloc, after_keyword(words))?;
        return with_note(notes, number, NoteCause::Include(file));
    }
    Ok(notes)
}

pub(crate) fn begins_with(words: &[Option<Bytes>], keyword: &[u8]) -> bool
    ensures { result ≡ begins_with words.now keyword.now }
{
    match words.first() {
        Some(Some(word)) => word.as_slice().eq_ignore_ascii_case(keyword),
        _ => false,
    }
}

pub(crate) fn after_keyword(words: &[Option<Bytes>]) -> &[Option<Bytes>]
    ensures { result.now ≡ after_keyword words.now }
{
    match words {
        [_, more @ ..] => more,
        [] => words,
    }
}

/// The file of an `include`.
fn file_of(alloc: Global, words: &[Option<Bytes>]) -> Result<Bytes, ConfigCause>
    ensures { GivesPart (λ file. file) result (Ok (file_of words.now)) }
{
    match words.first() {
        Some(Some(word)) => Ok(Bytes::new(word.as_slice().to_vec(alloc)?)),
        _ => Ok(Bytes::new(Vec::new(alloc))),
    }
}
