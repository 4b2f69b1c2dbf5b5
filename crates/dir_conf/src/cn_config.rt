//! The configuration of a slapd that keeps it in cn=config (slapd-config(5)), as `slapcat -n 0` writes it. `records` reads its lines, `values` orders
//! the values of an attribute, `macros` and `arguments` read them, and `databases` finds the database.

ghost use Rattle.std.specs.Prelude.{◌≡◌, ◌≤◌, ◌∷◌, [], Ok, length, map};
ghost use Rattle.dir_conf.specs.Inside.{ended};
ghost use Rattle.dir_conf.specs.CnConfig.{definitions, entries_of, entry_of, flat_of_config, is_own_schema, lines_in, macros_after, rule_line, rules_if_frontend, rules_in, site_of, types_in, types_of, whole_line, whole_lines};
ghost use Rattle.dir_conf.specs.CnConfig.Records.{gather};
ghost use Rattle.dir_conf.specs.CnConfig.Values.{numbered};
ghost use Rattle.dir_conf.specs.Flat.{content_of, flat_parts, is_no_feed};
ghost use Rattle.dir_conf.specs.Outcome.{GivesConf};
ghost use Rattle.std.specs.List.{list_all};

pub(crate) mod arguments;
pub(crate) mod databases;
pub(crate) mod macros;
pub(crate) mod records;
pub(crate) mod values;

use crate::cn_config::arguments::read_arguments;
use crate::cn_config::databases::{database_of, is_frontend};
use crate::cn_config::macros::{Macro, definition, with_macros};
use crate::cn_config::records::{Attribute, read_record, values_of};
use crate::cn_config::values::Value;
use crate::fault::ConfFault;
use crate::flat::{Flat, flat_of_site};
use crate::site::{Directive, Line, Site};
use dir_conf_text::MAX_CONFIG;
use dir_ldif::{Line as LdifLine, StreamFault, read_blocks};
use dir_names::{Bytes, DnKey, Schema, Texts};
use std::alloc::Global;

/// The flat slapd.conf of the database of a suffix, by the LDIF of cn=config: its attribute types, its suffixes, rootdn and access rules, and the
/// frontend's rules after these. Passwords are not in it. The record `cn=schema,cn=config` defines no types: slapd writes its own there.
///
/// # Errors
///
/// `TooLong` if the text has more than 16,777,216 bytes. Then the fault in which it ends (`Ended`), and the first line that can't be read (`BadLine`). Then,
/// of the attribute types, `BadOrder` or `BadArguments`; of the databases, `BadOrder`, `BadName`, `SecondDatabase` or `Subordinate` in the order of the records,
/// and `NoDatabase`; of the suffixes, the rootdn, the rules and the frontend's rules, `BadOrder` or `BadArguments`. Last `TooLong`, if the flat
/// configuration has more bytes. `Memory` if memory runs out.
pub fn flat_of_config(
    alloc: Global,
    schema: &Schema,
    suffix: &DnKey,
    text: &[u8],
) -> Result<Flat, ConfFault>
    ensures { GivesConf flat_parts result (flat_of_config schema.now suffix.now text.now) }
{
    if text.len() > MAX_CONFIG {
        return Err(ConfFault::TooLong);
    }
    let entries = entries_of(alloc, text)?;
    let site = site_of(alloc, schema, suffix, entries.as_slice())?;
    flat_of_site(alloc, &site)
}

pub(crate) fn entries_of(alloc: Global, text: &[u8]) -> Result<Vec<Vec<Attribute>>, ConfFault>
    requires { length text.now ≤ 16777216 }
    ensures { GivesConf (λ found. map (λ entry. entry.items) found.items) result (entries_of text.now) }
{
    match read_blocks(alloc, text) {
        Ok(blocks) => entries_in(alloc, blocks.as_slice()),
        Err(fault) => Err(ended(fault)),
    }
}

/// The fault in which a text ends, as one of its configuration.
fn ended(fault: StreamFault) -> ConfFault
    ensures { result ≡ ended fault }
{
    match fault {
        StreamFault::Memory => ConfFault::Memory,
        _ => ConfFault::Ended(fault),
    }
}

fn entries_in(alloc: Global, blocks: &[Vec<LdifLine>]) -> Result<Vec<Vec<Attribute>>, ConfFault>
    ensures { GivesConf (λ found. map (λ entry. entry.items) found.items) result (gather entry_of (map (λ block. block.items) blocks.now)) }
{
    let mut found = Vec::new(alloc);
    for block in blocks {
        found.push(read_record(alloc, block.as_slice())?)?;
    }
    Ok(found)
}

/// What the records of cn=config say of the database of a suffix.
fn site_of(
    alloc: Global,
    schema: &Schema,
    wanted: &DnKey,
    entries: &[Vec<Attribute>],
) -> Result<Site, ConfFault>
    ensures { GivesConf content_of result (site_of schema.now wanted.now (map (λ entry. entry.items) entries.now)) }
{
    let types = types_of(alloc, entries)?;
    let database = database_of(alloc, schema, wanted, entries)?;
    let own = lines_in(alloc, database)?;
    let frontend = frontend_rules(alloc, entries)?;
    Ok(Site {
        types,
        own,
        frontend,
    })
}

fn types_of(alloc: Global, entries: &[Vec<Attribute>]) -> Result<Texts, ConfFault>
    ensures { GivesConf (λ types. types) result (types_of [] (map (λ entry. entry.items) entries.now)) }
{
    let mut types = Vec::new(alloc);
    let mut macros = Vec::new(alloc);
    for entry in entries {
        macros = macros_after(alloc, macros, entry.as_slice())?;
        let mut some = types_in(alloc, macros.as_slice(), entry.as_slice())?;
        types.append(&mut some)?;
    }
    Ok(Texts::new(types))
}

/// The macros of a record, after those of the records before.
fn macros_after(
    alloc: Global,
    macros: Vec<Macro>,
    entry: &[Attribute],
) -> Result<Vec<Macro>, ConfFault>
    ensures { GivesConf (λ found. found.items) result (macros_after macros.items entry.now) }
{
    let values = values_of(alloc, b"olcObjectIdentifier", entry)?;
    with_macros(alloc, macros, values.as_slice())
}

/// The definitions of a record, under these macros.
fn types_in(alloc: Global, macros: &[Macro], entry: &[Attribute]) -> Result<Vec<Bytes>, ConfFault>
    ensures { GivesConf (λ types. types.items) result (types_in macros.now entry.now) }
{
    if is_own_schema(entry) {
        return Ok(Vec::new(alloc));
    }
    let values = values_of(alloc, b"olcAttributeTypes", entry)?;
    definitions(alloc, macros, values.as_slice())
}

/// Whether a record is that of slapd's own schema, from which slapd reads no types.
fn is_own_schema(entry: &[Attribute]) -> bool
    ensures { result ≡ is_own_schema entry.now }
{
    entry.iter().any(|attribute| {
        attribute.name.as_slice().eq_ignore_ascii_case(b"dn")
            && attribute
                .value
                .as_slice()
                .eq_ignore_ascii_case(b"cn=schema,cn=config")
    })
}

fn definitions(alloc: Global, macros: &[Macro], values: &[Value]) -> Result<Vec<Bytes>, ConfFault>
    ensures { GivesConf (λ types. types.items) result (Ok (definitions macros.now (map numbered values.now))) }
{
    let mut types = Vec::new(alloc);
    for value in values {
        types.push(definition(alloc, macros, value.text.as_slice())?)?;
    }
    Ok(types)
}

/// The lines of a database: its suffixes, its rootdn and its rules.
fn lines_in(alloc: Global, entry: &[Attribute]) -> Result<Vec<Line>, ConfFault>
    ensures { GivesConf (λ lines. lines.items) result (lines_in entry.now) }
{
    let mut lines = whole_lines(alloc, Directive::Suffix, b"olcSuffix", entry)?;
    let mut roots = whole_lines(alloc, Directive::RootDn, b"olcRootDN", entry)?;
    let mut rules = rules_in(alloc, entry)?;
    lines.append(&mut roots)?;
    lines.append(&mut rules)?;
    Ok(lines)
}

/// The rules of the frontend, which hold in all databases.
fn frontend_rules(alloc: Global, entries: &[Vec<Attribute>]) -> Result<Vec<Line>, ConfFault>
    ensures { GivesConf (λ lines. lines.items) result (gather rules_if_frontend (map (λ entry. entry.items) entries.now)) }
{
    let mut lines = Vec::new(alloc);
    for entry in entries {
        let mut some = rules_if_frontend(alloc, entry.as_slice())?;
        lines.append(&mut some)?;
    }
    Ok(lines)
}

fn rules_if_frontend(alloc: Global, entry: &[Attribute]) -> Result<Vec<Line>, ConfFault>
    ensures { GivesConf (λ lines. lines.items) result (rules_if_frontend entry.now) }
{
    if is_frontend(alloc, entry)? {
        rules_in(alloc, entry)
    } else {
        Ok(Vec::new(alloc))
    }
}

/// The lines of a directive that has each value of an attribute as its one argument.
fn whole_lines(
    alloc: Global,
    directive: Directive,
    name: &[u8],
    entry: &[Attribute],
) -> Result<Vec<Line>, ConfFault>
    ensures { GivesConf (λ lines. lines.items) result (whole_lines directive name.now entry.now) }
{
    let values = values_of(alloc, name, entry)?;
    lines_of(alloc, directive, values.as_slice())
}

fn lines_of(alloc: Global, directive: Directive, values: &[Value]) -> Result<Vec<Line>, ConfFault>
    ensures { GivesConf (λ lines. lines.items) result (gather (whole_line directive) (map numbered values.now)) }
{
    let mut lines = Vec::new(alloc);
    for value in values {
        lines.push(whole_line(alloc, directive, value)?)?;
    }
    Ok(lines)
}

fn whole_line(alloc: Global, directive: Directive, value: &Value) -> Result<Line, ConfFault>
    ensures { GivesConf (λ line. line ∷ []) result (whole_line directive (numbered value.now)) }
{
    let text = value.text.as_slice();
    if !is_one_line(text) {
        return Err(ConfFault::BadArguments(value.line));
    }
    let mut arguments = Vec::new(alloc);
    arguments.push(Bytes::new(text.to_vec(alloc)?))?;
    Ok(Line {
        directive,
        arguments: Texts::new(arguments),
    })
}

pub(crate) fn is_one_line(text: &[u8]) -> bool
    ensures { result ≡ list_all is_no_feed text.now }
{
    text.iter().all(|b| *b != b'\n')
}

/// The access rules of a record.
fn rules_in(alloc: Global, entry: &[Attribute]) -> Result<Vec<Line>, ConfFault>
    ensures { GivesConf (λ lines. lines.items) result (rules_in entry.now) }
{
    let values = values_of(alloc, b"olcAccess", entry)?;
    rules_of(alloc, values.as_slice())
}

fn rules_of(alloc: Global, values: &[Value]) -> Result<Vec<Line>, ConfFault>
    ensures { GivesConf (λ lines. lines.items) result (gather rule_line (map numbered values.now)) }
{
    let mut lines = Vec::new(alloc);
    for value in values {
        lines.push(rule_line(alloc, value)?)?;
    }
    Ok(lines)
}

fn rule_line(alloc: Global, value: &Value) -> Result<Line, ConfFault>
    ensures { GivesConf (λ line. line ∷ []) result (rule_line (numbered value.now)) }
{
    match read_arguments(alloc, value.text.as_slice())? {
        Some(arguments) => Ok(Line {
            directive: Directive::Access,
            arguments,
        }),
        None => Err(ConfFault::BadArguments(value.line)),
    }
}
