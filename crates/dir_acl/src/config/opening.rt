//! The configuration of a slapd.conf whose rules may have parts that aren't decided (slapd.access(5)).

ghost use Rattle.std.specs.Prelude.{◌≡◌, ◌++◌, ◌↔◌, [], ◌∷◌, Ok, codes, map, option_copied, true};
ghost use Rattle.std.specs.List.{list_any};
ghost use Rattle.dir_names.specs.Cut.{parts_at};
ghost use Rattle.dir_names.specs.Results.{and_then};
ghost use Rattle.dir_conf_text.specs.Keywords.{is_word};
ghost use Rattle.dir_acl.specs.Bounds.{MayBeHeld, SurelyHeld};
ghost use Rattle.dir_acl.specs.Config.{at_line, no_settings};
ghost use Rattle.dir_acl.specs.Config.AccessRules.{first_who, in_what};
ghost use Rattle.dir_acl.specs.Config.OpenForms.{names_class, self_edit};
ghost use Rattle.dir_acl.specs.Config.Opening.{after_open_argument, after_open_line, after_open_lines, after_open_what, after_open_word, after_open_words, filter_part, has_notes, list_of, named_by, open_access, open_after_whos, open_config_of_lines, open_next_who, open_rule_of, open_identity_of, open_who_of, opened_who, with_item, with_items, with_list, with_named, with_open_filter, with_open_form, with_open_value, with_open_what, with_pattern, with_read_form};
ghost use Rattle.dir_acl.specs.Filters.Packed.{tree_of};
ghost use Rattle.dir_acl.specs.Inside.NotedTypes.{noted_by};
ghost use Rattle.dir_acl.specs.Inside.ReadingConfig.{configuration_of, place_of, settings_of};
ghost use Rattle.dir_acl.specs.Inside.Requests.{question_of};
ghost use Rattle.dir_acl.specs.Outcome.{GivesConfig, GivesPart};
ghost use Rattle.dir_acl.specs.Privileges.{has};
ghost use Rattle.dir_acl.specs.Rules.{restriction_of, rule_of};
ghost use Rattle.dir_acl.specs.declared.privileges.Privilege.{Privilege};

use crate::config::access_rules::{Place, after_whos, after_word, at_end, in_who, is_by};
use crate::config::directives::{Settings, after_arguments, with_rule};
use crate::config::names::{is_class, style_of};
use crate::config::open_forms::{
    has_plain_tests, is_open_name, is_open_who, is_value_form, names_class, self_edit,
    without_real, without_sign,
};
use crate::config::whats::{Form, has_form, read_filter, read_item, with_last, with_name};
use crate::config::whos::read_who;
use crate::config::{out_of_memory, with_suffix};
use crate::note::filters::with_filter as with_filter_notes;
use crate::note::lines::{after_keyword, begins_with};
use crate::note::types::RuleTypes;
use crate::note::words::{with_items as with_items_notes, with_named as with_named_notes};
use crate::open_rules::bounds_under;
use crate::{
    Asked, Config, ConfigCause, ConfigFault, Filter, OpenWhat, OpenWho, PrivilegeBounds, Request,
    Rule, Style, What, Who,
};
use dir_conf_text::{ConfigLine, ConfigText};
use dir_names::{AttrKey, Bytes, DnKey, Schema, split_once};
use dir_tree::Directory;
use std::alloc::Global;

/// The configuration of one database, whose rules may have parts that aren't decided.
#[derive(Debug, Drop)]
pub struct OpenConfig {
    config: Config,
}

impl OpenConfig {
    /// Reads the lines of a slapd.conf. A form of slapd.access(5) that isn't decided is open, and so is what `Config::with_notes` has a note
    /// on, as far as an answer may rest on it.
    ///
    /// # Errors
    ///
    /// The fault of the first faulty line, and in it that of the first faulty argument: those of `Config::of_text`, and `Unsupported` for an
    /// `include`, which isn't read. Else `NoSuffix`, if no line has a suffix. `Memory` if memory runs out.
    pub fn of_text(
        alloc: Global,
        schema: &Schema,
        text: &ConfigText,
    ) -> Result<OpenConfig, ConfigFault>
        ensures { GivesConfig (λ read. configuration_of read.config) result (open_config_of_lines schema.now text.now) }
    {
        let Ok(types) = RuleTypes::of_lines(alloc, schema, text.lines()) else {
            return Err(out_of_memory());
        };
        let settings = read_open_lines(alloc, &types, text.lines())?;
        Ok(OpenConfig {
            config: with_suffix(settings)?,
        })
    }

    /// The suffix of the database. The call doesn't allocate.
    pub fn suffix(&self) -> &DnKey
        ensures { result.now ≡ (configuration_of self.now.config).suffix }
    {
        self.config.suffix()
    }

    /// What a request has whatever the open parts come to, and what it may have. The call doesn't allocate.
    pub fn bounds<D: Directory>(&self, directory: &D, request: &Request<'_>) -> PrivilegeBounds
        ensures held { (p : Privilege) → (has result.held p ≡ true) ↔ SurelyHeld (D.state directory.now) (configuration_of self.now.config).root (configuration_of self.now.config).rules (question_of request.now) p }
        ensures possible { (p : Privilege) → (has result.possible p ≡ true) ↔ MayBeHeld (D.state directory.now) (configuration_of self.now.config).root (configuration_of self.now.config).rules (question_of request.now) p }
    {
        bounds_under(self.config.root(), self.config.rules(), directory, request)
    }
}

// ---- lines

fn read_open_lines(
    alloc: Global,
    types: &RuleTypes<'_>,
    lines: &[ConfigLine],
) -> Result<Settings, ConfigFault>
    ensures { GivesConfig settings_of result (after_open_lines (noted_by types.now) no_settings lines.now) }
{
    let mut settings = Settings::new(alloc);
    for line in lines {
        settings = after_open_line(alloc, types, settings, line)?;
    }
    Ok(settings)
}

fn after_open_line(
    alloc: Global,
    types: &RuleTypes<'_>,
    settings: Settings,
    line: &ConfigLine,
) -> Result<Settings, ConfigFault>
    ensures { GivesConfig settings_of result (at_line line.now.number (after_open_line (noted_by types.now) (settings_of settings) line.now.said)) }
{
    match after_open_words(alloc, types, settings, line.words()) {
        Ok(settings) => Ok(settings),
        Err(ConfigCause::Memory) => Err(out_of_memory()),
        Err(cause) => Err(ConfigFault {
            line: line.number,
            cause,
        }),
    }
}

fn after_open_words(
    alloc: Global,
    types: &RuleTypes<'_>,
    settings: Settings,
    words: &[Option<Bytes>],
) -> Result<Settings, ConfigCause>
    ensures { GivesPart settings_of result (after_open_words (noted_by types.now) (settings_of settings) words.now) }
{
    if !settings.is_passed_over && begins_with(words, b"access") {
        return open_access(alloc, types, settings, after_keyword(words));
    }
    if begins_with(words, b"include") {
        return Err(ConfigCause::Unsupported);
    }
    after_arguments(alloc, types.schema(), settings, words)
}

fn open_access(
    alloc: Global,
    types: &RuleTypes<'_>,
    settings: Settings,
    arguments: &[Option<Bytes>],
) -> Result<Settings, ConfigCause>
    ensures { GivesPart settings_of result (open_access (noted_by types.now) (settings_of settings) arguments.now) }
{
    if !settings.has_database {
        return Err(ConfigCause::GlobalAccess);
    }
    let rule = read_open_rule(alloc, types, arguments)?;
    with_rule(settings, rule)
}

// ---- rules

fn read_open_rule(
    alloc: Global,
    types: &RuleTypes<'_>,
    arguments: &[Option<Bytes>],
) -> Result<Rule, ConfigCause>
    ensures { GivesPart rule_of result (open_rule_of (noted_by types.now) arguments.now) }
{
    let mut place = Place::BeforeTo;
    for argument in arguments {
        place = after_open_argument(alloc, types, place, argument)?;
    }
    at_end(place)
}

fn after_open_argument(
    alloc: Global,
    types: &RuleTypes<'_>,
    place: Place,
    argument: &Option<Bytes>,
) -> Result<Place, ConfigCause>
    ensures { GivesPart place_of result (after_open_argument (noted_by types.now) (place_of place) argument.now) }
{
    match argument {
        Some(word) => after_open_word(alloc, types, place, word.as_slice()),
        None => Err(ConfigCause::BadDirective),
    }
}

fn after_open_word(
    alloc: Global,
    types: &RuleTypes<'_>,
    place: Place,
    word: &[u8],
) -> Result<Place, ConfigCause>
    ensures { GivesPart place_of result (after_open_word (noted_by types.now) (place_of place) word.now) }
{
    match place {
        Place::BeforeWhat => after_open_what(alloc, types, Vec::new(alloc), word),
        Place::InWhat(whats) => by_or_open_what(alloc, types, whats, word),
        Place::BeforeWho(rule) => first_open_who(alloc, types, rule, word),
        Place::InWho(rule, whos) => next_open_who(alloc, types, rule, whos, word),
        Place::BeforeTo | Place::AfterAccess(..) | Place::AfterControl(_) => after_word(
            alloc,
            types.schema(),
            place,
            word,
        ),
    }
}

fn by_or_open_what(
    alloc: Global,
    types: &RuleTypes<'_>,
    whats: Vec<What>,
    word: &[u8],
) -> Result<Place, ConfigCause>
    ensures { GivesPart place_of result (after_open_word (noted_by types.now) (in_what (map restriction_of whats.items)) word.now) }
{
    if is_by(word) {
        return Ok(Place::BeforeWho(Rule {
            what: whats,
            clauses: Vec::new(alloc),
        }));
    }
    after_open_what(alloc, types, whats, word)
}

fn after_open_what(
    alloc: Global,
    types: &RuleTypes<'_>,
    whats: Vec<What>,
    word: &[u8],
) -> Result<Place, ConfigCause>
    ensures { GivesPart place_of result (after_open_what (noted_by types.now) (map restriction_of whats.items) word.now) }
{
    Ok(Place::InWhat(with_open_what(alloc, types, whats, word)?))
}

fn first_open_who(
    alloc: Global,
    types: &RuleTypes<'_>,
    rule: Rule,
    word: &[u8],
) -> Result<Place, ConfigCause>
    ensures { GivesPart place_of result (and_then (open_who_of (noted_by types.now) word.now) (λ who. first_who (rule_of rule) who)) }
{
    match read_open_who(alloc, types, word)? {
        Some(who) => in_who(rule, Vec::new(alloc), who),
        None => Err(ConfigCause::Unsupported),
    }
}

fn next_open_who(
    alloc: Global,
    types: &RuleTypes<'_>,
    rule: Rule,
    whos: Vec<Who>,
    word: &[u8],
) -> Result<Place, ConfigCause>
    ensures { GivesPart place_of result (and_then (open_who_of (noted_by types.now) word.now) (λ who. open_next_who (rule_of rule) whos.items word.now who)) }
{
    match read_open_who(alloc, types, word)? {
        Some(who) => in_who(rule, whos, who),
        None => after_open_whos(rule, whos, word),
    }
}

/// After a word that is not of a `<who>`. An `<access>` with `self` before it is for some values alone.
fn after_open_whos(rule: Rule, whos: Vec<Who>, word: &[u8]) -> Result<Place, ConfigCause>
    ensures { GivesPart place_of result (open_after_whos (rule_of rule) whos.items (self_edit word.now) word.now) }
{
    let Some(edit) = self_edit(word) else {
        return after_whos(rule, whos, word);
    };
    let mut whos = whos;
    whos.push(Who::Open(OpenWho::Anybody))?;
    Ok(Place::AfterAccess(rule, whos, edit))
}

// ---- the words of a `<what>`

fn with_open_what(
    alloc: Global,
    types: &RuleTypes<'_>,
    whats: Vec<What>,
    word: &[u8],
) -> Result<Vec<What>, ConfigCause>
    ensures { GivesPart (λ whats. map restriction_of whats.items) result (with_open_what (noted_by types.now) (map restriction_of whats.items) word.now) }
{
    if is_asterisk(word) {
        return Ok(whats);
    }
    let (form, value) = split_once(word, b'=');
    with_open_value(alloc, types, whats, form, value)
}

fn is_asterisk(word: &[u8]) -> bool
    ensures { result ≡ is_word word.now (codes "*") }
{
    word.eq_ignore_ascii_case(b"*")
}

fn with_open_value(
    alloc: Global,
    types: &RuleTypes<'_>,
    whats: Vec<What>,
    form: &[u8],
    value: Option<&[u8]>,
) -> Result<Vec<What>, ConfigCause>
    ensures { GivesPart (λ whats. map restriction_of whats.items) result (with_open_value (noted_by types.now) (map restriction_of whats.items) form.now (option_copied value.entry)) }
{
    match value {
        Some(text) => with_read_form(alloc, types, whats, form, text),
        None => Err(ConfigCause::Unsupported),
    }
}

fn with_read_form(
    alloc: Global,
    types: &RuleTypes<'_>,
    whats: Vec<What>,
    form: &[u8],
    text: &[u8],
) -> Result<Vec<What>, ConfigCause>
    ensures { GivesPart (λ whats. map restriction_of whats.items) result (with_read_form (noted_by types.now) (map restriction_of whats.items) form.now text.now) }
{
    if form.eq_ignore_ascii_case(b"filter") {
        return with_open_filter(alloc, types, whats, text);
    }
    if form.eq_ignore_ascii_case(b"attrs") || form.eq_ignore_ascii_case(b"attr") {
        return with_list(alloc, types, whats, text);
    }
    with_open_form(alloc, types, whats, form, text)
}

fn with_open_form(
    alloc: Global,
    types: &RuleTypes<'_>,
    whats: Vec<What>,
    form: &[u8],
    text: &[u8],
) -> Result<Vec<What>, ConfigCause>
    ensures { GivesPart (λ whats. map restriction_of whats.items) result (with_open_form (noted_by types.now) (map restriction_of whats.items) form.now text.now) }
{
    if is_value_form(form) {
        return with_last(whats, What::Open(OpenWhat::Value));
    }
    match style_of(form) {
        Some(style) => with_named(alloc, types, whats, style, text),
        None => with_pattern(whats, form),
    }
}

/// `dn[.STYLE]=NAME`. `*` is every name, in each style.
fn with_named(
    alloc: Global,
    types: &RuleTypes<'_>,
    whats: Vec<What>,
    style: Style,
    text: &[u8],
) -> Result<Vec<What>, ConfigCause>
    ensures { GivesPart (λ whats. map restriction_of whats.items) result (with_named (noted_by types.now) (map restriction_of whats.items) style text.now) }
{
    if is_asterisk(text) {
        return with_name(alloc, types.schema(), whats, Style::Subtree, b"");
    }
    with_name(alloc, types.schema(), whats, style, text)
}

/// `dn.STYLE=PATTERN`
fn with_pattern(whats: Vec<What>, form: &[u8]) -> Result<Vec<What>, ConfigCause>
    ensures { GivesPart (λ whats. map restriction_of whats.items) result (with_pattern (map restriction_of whats.items) form.now) }
{
    if !is_open_name(form) {
        return Err(ConfigCause::Unsupported);
    }
    if has_form(whats.as_slice(), Form::Dn) {
        return Err(ConfigCause::BadDirective);
    }
    with_last(whats, What::Open(OpenWhat::Name))
}

/// A filter with a note, or with a test but of presence and equality, is open.
fn with_open_filter(
    alloc: Global,
    types: &RuleTypes<'_>,
    whats: Vec<What>,
    text: &[u8],
) -> Result<Vec<What>, ConfigCause>
    ensures { GivesPart (λ whats. map restriction_of whats.items) result (with_open_filter (noted_by types.now) (map restriction_of whats.items) text.now) }
{
    if has_form(whats.as_slice(), Form::Filter) {
        return Err(ConfigCause::BadDirective);
    }
    let filter = read_filter(alloc, types.schema(), text)?;
    let what = filter_part(alloc, types, text, filter)?;
    with_last(whats, what)
}

fn filter_part(
    alloc: Global,
    types: &RuleTypes<'_>,
    text: &[u8],
    filter: Filter,
) -> Result<What, ConfigCause>
    ensures { GivesPart restriction_of result (Ok (filter_part (noted_by types.now) text.now (tree_of filter))) }
{
    if has_plain_tests(alloc, text)?
        && with_filter_notes(alloc, types, Vec::new(alloc), 0, text)?.is_empty()
    {
        Ok(What::Filter(filter))
    } else {
        Ok(What::Open(OpenWhat::Filter))
    }
}

fn with_list(
    alloc: Global,
    types: &RuleTypes<'_>,
    whats: Vec<What>,
    text: &[u8],
) -> Result<Vec<What>, ConfigCause>
    ensures { GivesPart (λ whats. map restriction_of whats.items) result (with_list (noted_by types.now) (map restriction_of whats.items) text.now) }
{
    if has_form(whats.as_slice(), Form::Attrs) {
        return Err(ConfigCause::BadDirective);
    }
    let items = read_open_items(alloc, types, text)?;
    let what = list_of(alloc, types, text, items)?;
    with_last(whats, what)
}

/// The items of `attrs=LIST`, but its classes.
fn read_open_items(
    alloc: Global,
    types: &RuleTypes<'_>,
    text: &[u8],
) -> Result<Vec<Asked>, ConfigCause>
    ensures { GivesPart (λ items. items.items) result (with_items (noted_by types.now) [] (parts_at 44 text.now)) }
{
    let mut items = Vec::new(alloc);
    let mut rest = Some(text);
    while let Some(more) = rest {
        let (item, after) = split_once(more, b',');
        items = with_item(alloc, types, items, item)?;
        rest = after;
    }
    Ok(items)
}

fn with_item(
    alloc: Global,
    types: &RuleTypes<'_>,
    items: Vec<Asked>,
    text: &[u8],
) -> Result<Vec<Asked>, ConfigCause>
    ensures { GivesPart (λ items. items.items) result (with_item (noted_by types.now) items.items text.now) }
{
    if names_class(text) {
        return if is_class(alloc, types.schema(), without_sign(text))? {
            Ok(items)
        } else {
            Err(ConfigCause::Name)
        };
    }
    let item = read_item(alloc, types.schema(), text)?;
    let mut items = items;
    items.push(item)?;
    Ok(items)
}

/// A list with a class, or with an item that has a note, is open.
fn list_of(
    alloc: Global,
    types: &RuleTypes<'_>,
    text: &[u8],
    items: Vec<Asked>,
) -> Result<What, ConfigCause>
    ensures { GivesPart restriction_of result (Ok (list_of (noted_by types.now) text.now items.items)) }
{
    if has_class(text) {
        return Ok(What::Open(OpenWhat::Classes(items)));
    }
    if with_items_notes(alloc, types, Vec::new(alloc), 0, text)?.is_empty() {
        Ok(What::Attrs(items))
    } else {
        Ok(What::Open(OpenWhat::Types(items)))
    }
}

fn has_class(text: &[u8]) -> bool
    ensures { result ≡ list_any names_class (parts_at 44 text.now) }
{
    let mut rest = Some(text);
    while let Some(more) = rest {
        let (item, after) = split_once(more, b',');
        if names_class(item) {
            return true;
        }
        rest = after;
    }
    false
}

// ---- the words of a `<who>`

fn read_open_who(
    alloc: Global,
    types: &RuleTypes<'_>,
    word: &[u8],
) -> Result<Option<Who>, ConfigCause>
    ensures { GivesPart (λ who. who) result (open_who_of (noted_by types.now) word.now) }
{
    read_open_identity(alloc, types, without_real(word))
}

fn read_open_identity(
    alloc: Global,
    types: &RuleTypes<'_>,
    word: &[u8],
) -> Result<Option<Who>, ConfigCause>
    ensures { GivesPart (λ who. who) result (open_identity_of (noted_by types.now) word.now) }
{
    if is_open_who(word) {
        return Ok(Some(Who::Open(OpenWho::Anybody)));
    }
    match read_who(alloc, types.schema(), word) {
        Ok(Some(who)) => Ok(Some(opened_who(alloc, types, word, who)?)),
        Ok(None) => Ok(None),
        Err(ConfigCause::Unsupported) => Ok(Some(Who::Open(OpenWho::Somebody))),
        Err(cause) => Err(cause),
    }
}

/// `dnattr=` of a type with a note is open.
fn opened_who(
    alloc: Global,
    types: &RuleTypes<'_>,
    word: &[u8],
    who: Who,
) -> Result<Who, ConfigCause>
    ensures { GivesPart (λ who. who) result (Ok (opened_who (noted_by types.now) word.now who)) }
{
    let Who::DnAttr(attr) = who else {
        return Ok(who);
    };
    let (_, value) = split_once(word, b'=');
    match value {
        Some(text) => named_by(alloc, types, text, attr),
        None => Ok(Who::DnAttr(attr)),
    }
}

fn named_by(
    alloc: Global,
    types: &RuleTypes<'_>,
    text: &[u8],
    attr: AttrKey,
) -> Result<Who, ConfigCause>
    ensures { GivesPart (λ who. who) result (Ok (named_by (noted_by types.now) text.now attr)) }
{
    if with_named_notes(alloc, types, Vec::new(alloc), 0, text)?.is_empty() {
        Ok(Who::DnAttr(attr))
    } else {
        Ok(Who::Open(OpenWho::DnAttr(attr)))
    }
}
