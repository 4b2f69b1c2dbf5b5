//! The parts of a slapd.conf (slapd.conf(5), `database`): what is said of each database, and of the frontend, whose rules hold in all.

ghost use Rattle.std.specs.Prelude.{◌≡◌, IfOk, Ok, map, option_map};
ghost use Rattle.dir_conf_text.specs.Keywords.{is_word};
ghost use Rattle.dir_conf.specs.Outcome.{GivesConf};
ghost use Rattle.dir_conf.specs.SlapdConf.Parts.{after_database, after_one, after_statement, after_suffix, after_words, database_by, database_of, in_database, in_frontend, lines_of, no_database, no_parts, opened, part_named, parts_by, parts_of, with_own};
ghost use Rattle.dir_conf.specs.SlapdConf.Statements.{statement_of};

use crate::cn_config::databases::{Suffix, first_at, first_within, suffix_of};
use crate::fault::ConfFault;
use crate::site::{Directive, Line};
use crate::slapd_conf::statements::{Said, SaidLine};
use dir_names::{Bytes, DnKey, Memory, Schema, Texts};
use std::alloc::Global;

/// The part of a configuration that a line is in.
#[derive(Clone, Copy, PartialEq, Eq)]
pub(crate) enum Part {
    /// That of all databases: it comes first, or after `database frontend`.
    Frontend,
    /// That of a database.
    OneDatabase,
    /// That of a database which is no directory: `config` and `monitor`.
    PassedOver,
}

/// What is said of a database.
#[derive(Drop)]
pub(crate) struct Database {
    suffixes: Vec<Suffix>,
    lines: Vec<Line>,
}

impl Database {
    fn new(alloc: Global) -> Database
        ensures { database_by result ≡ no_database }
    {
        Database {
            suffixes: Vec::new(alloc),
            lines: Vec::new(alloc),
        }
    }
}

/// What the lines so far say.
#[derive(Drop)]
pub(crate) struct Parts {
    /// The part that the next line is in.
    part: Part,
    /// The databases before the last one.
    before: Vec<Database>,
    /// The last one, which is empty as long as there is none.
    last: Database,
    frontend: Vec<Line>,
}

impl Parts {
    fn new(alloc: Global) -> Parts
        ensures { parts_by result ≡ no_parts }
    {
        Parts {
            part: Part::Frontend,
            before: Vec::new(alloc),
            last: Database::new(alloc),
            frontend: Vec::new(alloc),
        }
    }

    /// The lines of the one database whose suffix this is, where no other has a suffix below it; and the rules of the frontend.
    pub(crate) fn database_of(self, wanted: &DnKey) -> Result<(Vec<Line>, Vec<Line>), ConfFault>
        ensures { GivesConf (λ found. (found.0.items, found.1.items)) result (lines_of wanted.now (parts_by self)) }
    {
        let Parts {
            part: _,
            mut before,
            last,
            frontend,
        } = self;
        before.push(last)?;
        let mut found = None;
        for database in before {
            found = after_one(wanted, database, found)?;
        }
        match found {
            Some(database) => Ok((database.lines, frontend)),
            None => Err(ConfFault::NoDatabase),
        }
    }
}

fn after_one(
    wanted: &DnKey,
    database: Database,
    found: Option<Database>,
) -> Result<Option<Database>, ConfFault>
    ensures { GivesConf (option_map database_by) result (after_one wanted.now (database_by database) (option_map database_by found)) }
{
    let own = first_at(wanted, database.suffixes.as_slice());
    let within = first_within(wanted, database.suffixes.as_slice());
    match (own, within) {
        (Some(line), _) if found.is_some() => Err(ConfFault::SecondDatabase(line)),
        (Some(_), _) => Ok(Some(database)),
        (None, Some(line)) => Err(ConfFault::Subordinate(line)),
        (None, None) => Ok(found),
    }
}

/// What all statements of a configuration say.
pub(crate) fn read_parts(
    alloc: Global,
    schema: &Schema,
    statements: &[SaidLine],
) -> Result<Parts, ConfFault>
    ensures { GivesConf parts_by result (parts_of schema.now (map statement_of statements.now)) }
{
    let mut parts = Parts::new(alloc);
    for statement in statements {
        parts = after_statement(alloc, schema, statement, parts)?;
    }
    Ok(parts)
}

fn after_statement(
    alloc: Global,
    schema: &Schema,
    statement: &SaidLine,
    parts: Parts,
) -> Result<Parts, ConfFault>
    ensures { GivesConf parts_by result (after_statement schema.now (statement_of statement.now) (parts_by parts)) }
{
    match &statement.said {
        Said::Defines(_) => Ok(parts),
        Said::Words(words) => after_words(alloc, schema, statement.line, words.as_slice(), parts),
    }
}

fn after_words(
    alloc: Global,
    schema: &Schema,
    line: u64,
    words: &[Bytes],
    parts: Parts,
) -> Result<Parts, ConfFault>
    ensures { GivesConf parts_by result (after_words schema.now line words.now (parts_by parts)) }
{
    let [keyword, arguments @ ..] = words else {
        return Ok(parts);
    };
    if is_word(keyword, b"database") {
        return after_database(alloc, line, arguments, parts);
    }
    match parts.part {
        Part::Frontend => in_frontend(alloc, keyword, arguments, parts),
        Part::OneDatabase => in_database(alloc, schema, line, keyword, arguments, parts),
        Part::PassedOver => Ok(parts),
    }
}

/// Whether a word is this one, in any ASCII case.
fn is_word(word: &Bytes, wanted: &[u8]) -> bool
    ensures { result ≡ is_word word.now wanted.now }
{
    word.as_slice().eq_ignore_ascii_case(wanted)
}

fn after_database(
    alloc: Global,
    line: u64,
    arguments: &[Bytes],
    parts: Parts,
) -> Result<Parts, ConfFault>
    ensures { GivesConf parts_by result (after_database line arguments.now (parts_by parts)) }
{
    match arguments {
        [name, ..] => Ok(opened(alloc, part_named(name), parts)?),
        [] => Err(ConfFault::BadArguments(line)),
    }
}

fn part_named(name: &Bytes) -> Part
    ensures { result ≡ part_named name.now }
{
    if is_word(name, b"frontend") {
        Part::Frontend
    } else if is_word(name, b"config") || is_word(name, b"monitor") {
        Part::PassedOver
    } else {
        Part::OneDatabase
    }
}

fn opened(alloc: Global, part: Part, parts: Parts) -> Result<Parts, Memory>
    ensures { IfOk result (λ now. parts_by now ≡ opened part (parts_by parts)) }
{
    let Parts {
        part: _,
        mut before,
        mut last,
        frontend,
    } = parts;
    if part == Part::OneDatabase {
        before.push(last)?;
        last = Database::new(alloc);
    }
    Ok(Parts {
        part,
        before,
        last,
        frontend,
    })
}

fn in_frontend(
    alloc: Global,
    keyword: &Bytes,
    arguments: &[Bytes],
    parts: Parts,
) -> Result<Parts, ConfFault>
    ensures { GivesConf parts_by result (Ok (in_frontend keyword.now arguments.now (parts_by parts))) }
{
    let mut parts = parts;
    if is_word(keyword, b"access") {
        parts
            .frontend
            .push(new_line(alloc, Directive::Access, arguments)?)?;
    }
    Ok(parts)
}

fn in_database(
    alloc: Global,
    schema: &Schema,
    line: u64,
    keyword: &Bytes,
    arguments: &[Bytes],
    parts: Parts,
) -> Result<Parts, ConfFault>
    ensures { GivesConf parts_by result (in_database schema.now line keyword.now arguments.now (parts_by parts)) }
{
    if is_word(keyword, b"suffix") {
        after_suffix(alloc, schema, line, arguments, parts)
    } else if is_word(keyword, b"rootdn") {
        with_own(alloc, Directive::RootDn, arguments, parts)
    } else if is_word(keyword, b"access") {
        with_own(alloc, Directive::Access, arguments, parts)
    } else {
        Ok(parts)
    }
}

fn after_suffix(
    alloc: Global,
    schema: &Schema,
    line: u64,
    arguments: &[Bytes],
    parts: Parts,
) -> Result<Parts, ConfFault>
    ensures { GivesConf parts_by result (after_suffix schema.now line arguments.now (parts_by parts)) }
{
    let [name] = arguments else {
        return Err(ConfFault::BadArguments(line));
    };
    let suffix = suffix_of(alloc, schema, line, name.as_slice())?;
    let mut parts = parts;
    parts.last.suffixes.push(suffix)?;
    with_own(alloc, Directive::Suffix, arguments, parts)
}

/// One line more of the last database.
fn with_own(
    alloc: Global,
    directive: Directive,
    arguments: &[Bytes],
    parts: Parts,
) -> Result<Parts, ConfFault>
    ensures { GivesConf parts_by result (Ok (with_own directive arguments.now (parts_by parts))) }
{
    let line = new_line(alloc, directive, arguments)?;
    let mut parts = parts;
    parts.last.lines.push(line)?;
    Ok(parts)
}

fn new_line(alloc: Global, directive: Directive, arguments: &[Bytes]) -> Result<Line, Memory>
    ensures { IfOk result (λ line. line ≡ record { directive = directive; arguments = arguments.now }) }
{
    let mut copies = Vec::new(alloc);
    for argument in arguments {
        copies.push(Bytes::new(argument.as_slice().to_vec(alloc)?))?;
    }
    let arguments = Texts::new(copies);
    Ok(Line {
        directive,
        arguments,
    })
}
