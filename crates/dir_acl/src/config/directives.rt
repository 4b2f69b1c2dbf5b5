//! The directives of a configuration (slapd.conf(5)): `database`, `suffix`, `rootdn` and `access`. Others are passed over.

ghost use Rattle.std.specs.List.{list_all};
ghost use Rattle.std.specs.Prelude.{◌≡◌, Ok, is_some};
ghost use Rattle.dir_acl.specs.Config.{access, after_arguments, after_line, after_lines, at_line, database, directive, first_argument, if_complete, if_last, new_root, new_suffix, no_settings, of_database, other_than_database, rootdn, suffix, suffix_at, with_rule};
ghost use Rattle.dir_acl.specs.Inside.ReadingConfig.{settings_of};
ghost use Rattle.dir_acl.specs.Outcome.{GivesConfig, GivesPart};
ghost use Rattle.dir_acl.specs.Rules.{rule_of};

use crate::config::access_rules::read_rule;
use crate::config::names::read_name;
use crate::config::out_of_memory;
use crate::{ConfigCause, ConfigFault, Rule};
use dir_conf_text::ConfigLine;
use dir_names::{Bytes, DnKey, Schema};
use std::alloc::Global;

/// What the lines so far say.
#[derive(Drop)]
pub(crate) struct Settings {
    /// There was a `database` other than those of `config` and `monitor`.
    pub(crate) has_database: bool,
    /// In the part of `database config` or `database monitor`, which is passed over.
    pub(crate) is_passed_over: bool,
    pub(crate) suffix: Option<DnKey>,
    pub(crate) root: Option<DnKey>,
    pub(crate) rules: Vec<Rule>,
}

impl Settings {
    ghost use Rattle.std.specs.Prelude.{◌≡◌};
    ghost use Rattle.dir_acl.specs.Config.{no_settings};
    ghost use Rattle.dir_acl.specs.Inside.ReadingConfig.{settings_of};

    pub(crate) fn new(alloc: Global) -> Settings
        ensures { settings_of result ≡ no_settings }
    {
        Settings {
            has_database: false,
            is_passed_over: false,
            suffix: None,
            root: None,
            rules: Vec::new(alloc),
        }
    }
}

/// What all lines say.
pub(crate) fn read_lines(
    alloc: Global,
    schema: &Schema,
    lines: &[ConfigLine],
) -> Result<Settings, ConfigFault>
    ensures { GivesConfig settings_of result (after_lines schema.now no_settings lines.now) }
{
    let mut settings = Settings::new(alloc);
    for line in lines {
        settings = after_line(alloc, schema, settings, line)?;
    }
    Ok(settings)
}

/// The settings after one line more.
pub(crate) fn after_line(
    alloc: Global,
    schema: &Schema,
    settings: Settings,
    line: &ConfigLine,
) -> Result<Settings, ConfigFault>
    ensures { GivesConfig settings_of result (at_line line.now.number (after_line schema.now (settings_of settings) line.now.said)) }
{
    match after_arguments(alloc, schema, settings, line.words()) {
        Ok(settings) => Ok(settings),
        Err(ConfigCause::Memory) => Err(out_of_memory()),
        Err(cause) => Err(ConfigFault {
            line: line.number,
            cause,
        }),
    }
}

pub(crate) fn after_arguments(
    alloc: Global,
    schema: &Schema,
    settings: Settings,
    arguments: &[Option<Bytes>],
) -> Result<Settings, ConfigCause>
    ensures { GivesPart settings_of result (after_arguments schema.now (settings_of settings) arguments.now) }
{
    if arguments.is_empty() {
        return Ok(settings);
    }
    let (keyword, more) = first_argument(arguments)?;
    directive(alloc, schema, settings, keyword, more)
}

/// The first argument, and those after it.
fn first_argument(arguments: &[Option<Bytes>]) -> Result<(&[u8], &[Option<Bytes>]), ConfigCause>
    ensures { GivesPart (λ p. (p.0.now, p.1.now)) result (first_argument arguments.now) }
{
    match arguments.split_first() {
        Some((first, more)) => match first {
            Some(argument) => Ok((argument.as_slice(), more)),
            None => Err(ConfigCause::BadDirective),
        },
        None => Err(ConfigCause::BadDirective),
    }
}

/// The settings, if each argument is complete.
fn if_complete(arguments: &[Option<Bytes>], settings: Settings) -> Result<Settings, ConfigCause>
    ensures { GivesPart settings_of result (if_complete arguments.now (settings_of settings)) }
{
    if are_complete(arguments) {
        Ok(settings)
    } else {
        Err(ConfigCause::BadDirective)
    }
}

pub(crate) fn are_complete(arguments: &[Option<Bytes>]) -> bool
    ensures { result ≡ list_all is_some arguments.now }
{
    for argument in arguments {
        if argument.is_none() {
            return false;
        }
    }
    true
}

/// The settings, if there is no argument more.
fn if_last(
    arguments: &[Option<Bytes>],
    cause: ConfigCause,
    settings: Settings,
) -> Result<Settings, ConfigCause>
    ensures { GivesPart settings_of result (if_last arguments.now cause (settings_of settings)) }
{
    match arguments.first() {
        None => Ok(settings),
        Some(argument) => match argument {
            Some(_) => Err(cause),
            None => Err(ConfigCause::BadDirective),
        },
    }
}

fn directive(
    alloc: Global,
    schema: &Schema,
    settings: Settings,
    keyword: &[u8],
    arguments: &[Option<Bytes>],
) -> Result<Settings, ConfigCause>
    ensures { GivesPart settings_of result (directive schema.now (settings_of settings) keyword.now arguments.now) }
{
    if keyword.eq_ignore_ascii_case(b"database") {
        return database(settings, arguments);
    }
    other_than_database(alloc, schema, settings, keyword, arguments)
}

fn other_than_database(
    alloc: Global,
    schema: &Schema,
    settings: Settings,
    keyword: &[u8],
    arguments: &[Option<Bytes>],
) -> Result<Settings, ConfigCause>
    ensures { GivesPart settings_of result (other_than_database schema.now (settings_of settings) keyword.now arguments.now) }
{
    if settings.is_passed_over {
        return if_complete(arguments, settings);
    }
    if keyword.eq_ignore_ascii_case(b"suffix") {
        return suffix(alloc, schema, settings, arguments);
    }
    if keyword.eq_ignore_ascii_case(b"rootdn") {
        return rootdn(alloc, schema, settings, arguments);
    }
    if keyword.eq_ignore_ascii_case(b"access") {
        return access(alloc, schema, settings, arguments);
    }
    if_complete(arguments, settings)
}

fn database(settings: Settings, arguments: &[Option<Bytes>]) -> Result<Settings, ConfigCause>
    ensures { GivesPart settings_of result (database (settings_of settings) arguments.now) }
{
    let (name, more) = first_argument(arguments)?;
    of_database(settings, name, more)
}

fn of_database(
    settings: Settings,
    name: &[u8],
    more: &[Option<Bytes>],
) -> Result<Settings, ConfigCause>
    ensures { GivesPart settings_of result (of_database (settings_of settings) name.now more.now) }
{
    let mut settings = settings;
    if name.eq_ignore_ascii_case(b"config") || name.eq_ignore_ascii_case(b"monitor") {
        settings.is_passed_over = true;
        return if_complete(more, settings);
    }
    if settings.has_database {
        return Err(ConfigCause::SecondDatabase);
    }
    settings.has_database = true;
    settings.is_passed_over = false;
    if_complete(more, settings)
}

fn suffix(
    alloc: Global,
    schema: &Schema,
    settings: Settings,
    arguments: &[Option<Bytes>],
) -> Result<Settings, ConfigCause>
    ensures { GivesPart settings_of result (suffix schema.now (settings_of settings) arguments.now) }
{
    if !settings.has_database {
        return Err(ConfigCause::BadDirective);
    }
    if settings.suffix.is_some() {
        return Err(ConfigCause::SecondSuffix);
    }
    new_suffix(alloc, schema, settings, arguments)
}

fn new_suffix(
    alloc: Global,
    schema: &Schema,
    settings: Settings,
    arguments: &[Option<Bytes>],
) -> Result<Settings, ConfigCause>
    ensures { GivesPart settings_of result (new_suffix schema.now (settings_of settings) arguments.now) }
{
    let (text, more) = first_argument(arguments)?;
    let name = read_suffix(alloc, schema, text)?;
    let mut settings = settings;
    settings.suffix = Some(name);
    if_last(more, ConfigCause::SecondSuffix, settings)
}

/// A name of at least one RDN.
fn read_suffix(alloc: Global, schema: &Schema, text: &[u8]) -> Result<DnKey, ConfigCause>
    ensures { GivesPart (λ name. name) result (suffix_at schema.now text.now) }
{
    let name = read_name(alloc, schema, text)?;
    if name.depth() == 0 {
        return Err(ConfigCause::Name);
    }
    Ok(name)
}

fn rootdn(
    alloc: Global,
    schema: &Schema,
    settings: Settings,
    arguments: &[Option<Bytes>],
) -> Result<Settings, ConfigCause>
    ensures { GivesPart settings_of result (rootdn schema.now (settings_of settings) arguments.now) }
{
    if !settings.has_database || settings.root.is_some() {
        return Err(ConfigCause::BadDirective);
    }
    new_root(alloc, schema, settings, arguments)
}

fn new_root(
    alloc: Global,
    schema: &Schema,
    settings: Settings,
    arguments: &[Option<Bytes>],
) -> Result<Settings, ConfigCause>
    ensures { GivesPart settings_of result (new_root schema.now (settings_of settings) arguments.now) }
{
    let (text, more) = first_argument(arguments)?;
    let name = read_name(alloc, schema, text)?;
    let mut settings = settings;
    settings.root = Some(name);
    if_last(more, ConfigCause::BadDirective, settings)
}

fn access(
    alloc: Global,
    schema: &Schema,
    settings: Settings,
    arguments: &[Option<Bytes>],
) -> Result<Settings, ConfigCause>
    ensures { GivesPart settings_of result (access schema.now (settings_of settings) arguments.now) }
{
    if !settings.has_database {
        return Err(ConfigCause::GlobalAccess);
    }
    let rule = read_rule(alloc, schema, arguments)?;
    with_rule(settings, rule)
}

pub(crate) fn with_rule(settings: Settings, rule: Rule) -> Result<Settings, ConfigCause>
    ensures { GivesPart settings_of result (Ok (with_rule (settings_of settings) (rule_of rule))) }
{
    let mut settings = settings;
    settings.rules.push(rule)?;
    Ok(settings)
}
