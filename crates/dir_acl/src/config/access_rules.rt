//! The rule that the arguments of an `access` directive give (slapd.access(5)), read from left to right.

ghost use Rattle.std.specs.Prelude.{◌≡◌, ◌++◌, [], ◌∷◌, Ok, Err, codes, cond, map};
ghost use Rattle.dir_names.specs.Results.{and_then};
ghost use Rattle.dir_acl.specs.Config.AccessRules.{access_rule_of, after_argument, after_what, after_whos, after_word, at_end, before_what, before_who, by_or_control, by_or_what, first_who, in_who, is_by, next_who, with_clause};
ghost use Rattle.dir_conf_text.specs.Keywords.{is_word};
ghost use Rattle.dir_acl.specs.Config.Permissions.{edit_of};
ghost use Rattle.dir_acl.specs.Config.Whos.{who_of};
ghost use Rattle.dir_acl.specs.Inside.ReadingConfig.{place_of};
ghost use Rattle.dir_acl.specs.Outcome.{GivesPart};
ghost use Rattle.dir_acl.specs.Rules.{restriction_of, rule_of};

use crate::config::permissions::{control_of, edit_of, no_edit};
use crate::config::whats::with_what;
use crate::config::whos::read_who;
use crate::{Clause, ConfigCause, Control, Edit, Rule, What, Who};
use dir_names::{Bytes, Schema};
use std::alloc::Global;

/// Where the reader is, with what it has read.
#[derive(Drop)]
pub(crate) enum Place {
    /// Before `to`.
    BeforeTo,
    /// Before the first word of the `<what>`.
    BeforeWhat,
    /// After words of the `<what>`.
    InWhat(Vec<What>),
    /// After `by`. The rule has the clauses before it.
    BeforeWho(Rule),
    /// After words of the `<who>`.
    InWho(Rule, Vec<Who>),
    /// After the `<access>`.
    AfterAccess(Rule, Vec<Who>, Edit),
    /// After the `<control>`.
    AfterControl(Rule),
}

/// The rule of these arguments.
pub(crate) fn read_rule(
    alloc: Global,
    schema: &Schema,
    arguments: &[Option<Bytes>],
) -> Result<Rule, ConfigCause>
    ensures { GivesPart rule_of result (access_rule_of schema.now arguments.now) }
{
    let mut place = Place::BeforeTo;
    for argument in arguments {
        place = after_argument(alloc, schema, place, argument)?;
    }
    at_end(place)
}

pub(crate) fn after_argument(
    alloc: Global,
    schema: &Schema,
    place: Place,
    argument: &Option<Bytes>,
) -> Result<Place, ConfigCause>
    ensures { GivesPart place_of result (after_argument schema.now (place_of place) argument.now) }
{
    match argument {
        Some(word) => after_word(alloc, schema, place, word.as_slice()),
        None => Err(ConfigCause::BadDirective),
    }
}

pub(crate) fn after_word(
    alloc: Global,
    schema: &Schema,
    place: Place,
    word: &[u8],
) -> Result<Place, ConfigCause>
    ensures { GivesPart place_of result (after_word schema.now (place_of place) word.now) }
{
    match place {
        Place::BeforeTo => after_to(word),
        Place::BeforeWhat => after_what(alloc, schema, Vec::new(alloc), word),
        Place::InWhat(whats) => by_or_what(alloc, schema, whats, word),
        Place::BeforeWho(rule) => first_who(alloc, schema, rule, word),
        Place::InWho(rule, whos) => next_who(alloc, schema, rule, whos, word),
        Place::AfterAccess(rule, whos, edit) => by_or_control(rule, whos, edit, word),
        Place::AfterControl(rule) => by_alone(rule, word),
    }
}

pub(crate) fn is_by(word: &[u8]) -> bool
    ensures { result ≡ is_by word.now }
{
    word.eq_ignore_ascii_case(b"by")
}

fn after_to(word: &[u8]) -> Result<Place, ConfigCause>
    ensures { GivesPart place_of result (cond (is_word word.now (codes "to")) (Ok before_what) (Err ConfigCause.BadDirective)) }
{
    if word.eq_ignore_ascii_case(b"to") {
        Ok(Place::BeforeWhat)
    } else {
        Err(ConfigCause::BadDirective)
    }
}

fn after_what(
    alloc: Global,
    schema: &Schema,
    whats: Vec<What>,
    word: &[u8],
) -> Result<Place, ConfigCause>
    ensures { GivesPart place_of result (after_what schema.now (map restriction_of whats.items) word.now) }
{
    Ok(Place::InWhat(with_what(alloc, schema, whats, word)?))
}

fn by_or_what(
    alloc: Global,
    schema: &Schema,
    whats: Vec<What>,
    word: &[u8],
) -> Result<Place, ConfigCause>
    ensures { GivesPart place_of result (by_or_what schema.now (map restriction_of whats.items) word.now) }
{
    if is_by(word) {
        return Ok(Place::BeforeWho(Rule {
            what: whats,
            clauses: Vec::new(alloc),
        }));
    }
    after_what(alloc, schema, whats, word)
}

fn first_who(alloc: Global, schema: &Schema, rule: Rule, word: &[u8]) -> Result<Place, ConfigCause>
    ensures { GivesPart place_of result (and_then (who_of schema.now word.now) (λ who. first_who (rule_of rule) who)) }
{
    match read_who(alloc, schema, word)? {
        Some(who) => in_who(rule, Vec::new(alloc), who),
        None => Err(ConfigCause::Unsupported),
    }
}

fn next_who(
    alloc: Global,
    schema: &Schema,
    rule: Rule,
    whos: Vec<Who>,
    word: &[u8],
) -> Result<Place, ConfigCause>
    ensures { GivesPart place_of result (and_then (who_of schema.now word.now) (λ who. next_who (rule_of rule) whos.items word.now who)) }
{
    match read_who(alloc, schema, word)? {
        Some(who) => in_who(rule, whos, who),
        None => after_whos(rule, whos, word),
    }
}

pub(crate) fn in_who(rule: Rule, whos: Vec<Who>, who: Who) -> Result<Place, ConfigCause>
    ensures { GivesPart place_of result (Ok (in_who (rule_of rule) (whos.items ++ who ∷ []))) }
{
    let mut whos = whos;
    whos.push(who)?;
    Ok(Place::InWho(rule, whos))
}

/// After a word that is not of a `<who>`.
pub(crate) fn after_whos(rule: Rule, whos: Vec<Who>, word: &[u8]) -> Result<Place, ConfigCause>
    ensures { GivesPart place_of result (after_whos (rule_of rule) whos.items (edit_of word.now) word.now) }
{
    match edit_of(word) {
        Some(edit) => Ok(Place::AfterAccess(rule, whos, edit)),
        None => by_or_control(rule, whos, no_edit(), word),
    }
}

/// After `by`, which ends the clause with the control `stop`, or a `<control>`.
fn by_or_control(rule: Rule, whos: Vec<Who>, edit: Edit, word: &[u8]) -> Result<Place, ConfigCause>
    ensures { GivesPart place_of result (by_or_control (rule_of rule) whos.items edit word.now) }
{
    if is_by(word) {
        return Ok(Place::BeforeWho(with_clause(rule, whos, edit, Control::Stop)?));
    }
    match control_of(word) {
        Some(control) => Ok(Place::AfterControl(with_clause(rule, whos, edit, control)?)),
        None => Err(ConfigCause::Unsupported),
    }
}

/// After a `<control>` comes `by`.
fn by_alone(rule: Rule, word: &[u8]) -> Result<Place, ConfigCause>
    ensures { GivesPart place_of result (cond (is_by word.now) (Ok (before_who (rule_of rule))) (Err ConfigCause.Unsupported)) }
{
    if is_by(word) {
        Ok(Place::BeforeWho(rule))
    } else {
        Err(ConfigCause::Unsupported)
    }
}

fn with_clause(rule: Rule, who: Vec<Who>, edit: Edit, control: Control) -> Result<Rule, ConfigCause>
    ensures { GivesPart rule_of result (Ok (with_clause (rule_of rule) who.items edit control)) }
{
    let Rule { what, clauses } = rule;
    let mut clauses = clauses;
    clauses.push(Clause { who, edit, control })?;
    Ok(Rule { what, clauses })
}

/// The rule, where the line ends.
pub(crate) fn at_end(place: Place) -> Result<Rule, ConfigCause>
    ensures { GivesPart rule_of result (at_end (place_of place)) }
{
    match place {
        Place::BeforeTo | Place::BeforeWhat | Place::InWhat(_) | Place::BeforeWho(_) => Err(
            ConfigCause::BadDirective,
        ),
        Place::InWho(rule, whos) => with_clause(rule, whos, no_edit(), Control::Stop),
        Place::AfterAccess(rule, whos, edit) => with_clause(rule, whos, edit, Control::Stop),
        Place::AfterControl(rule) => Ok(rule),
    }
}
