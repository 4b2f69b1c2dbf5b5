//! The database of a suffix among the records of cn=config, and the frontend (slapd-config(5), `olcDatabase`, `olcSuffix`).

ghost use Rattle.std.specs.Prelude.{◌≡◌, ◌∷◌, ◌&&◌, [], Ok, map, option_copied, unwrap_or};
ghost use Rattle.std.specs.List.{list_any};
ghost use Rattle.dir_names.specs.Below.{is_at_or_below};
ghost use Rattle.dir_names.specs.NameKeys.{name_value_key};
ghost use Rattle.dir_conf.specs.CnConfig.Databases.{after_record, after_records, by_suffixes, database_of, is_at, is_frontend, is_frontend_name, is_within, line_of_first, suffix_by, suffix_in, suffixes_of, without_number};
ghost use Rattle.dir_conf.specs.CnConfig.Records.{gather};
ghost use Rattle.dir_conf.specs.CnConfig.Values.{numbered};
ghost use Rattle.dir_conf.specs.Outcome.{GivesConf};

use crate::cn_config::records::{Attribute, named, values_of};
use crate::cn_config::values::{Value, begins_with_brace};
use crate::fault::ConfFault;
use dir_names::{Dn, DnKey, NameFault, Schema, split_once};
use std::alloc::Global;

/// A suffix of a database, with the number of its line.
#[derive(Drop)]
pub(crate) struct Suffix {
    line: u64,
    key: DnKey,
}

/// The one record whose suffix this is, where no other has a suffix below it.
pub(crate) fn database_of<'r>(
    alloc: Global,
    schema: &Schema,
    wanted: &DnKey,
    records: &'r [Vec<Attribute>],
) -> Result<&'r [Attribute], ConfFault>
    ensures { GivesConf (λ entry. entry.now) result (database_of schema.now wanted.now (map (λ entry. entry.items) records.now)) }
{
    let mut found: Option<&[Attribute]> = None;
    for entry in records {
        found = after_record(alloc, schema, wanted, found, entry.as_slice())?;
    }
    match found {
        Some(entry) => Ok(entry),
        None => Err(ConfFault::NoDatabase),
    }
}

fn after_record<'r>(
    alloc: Global,
    schema: &Schema,
    wanted: &DnKey,
    found: Option<&'r [Attribute]>,
    entry: &'r [Attribute],
) -> Result<Option<&'r [Attribute]>, ConfFault>
    ensures { GivesConf option_copied result (after_record schema.now wanted.now (option_copied found.entry) entry.now) }
{
    let suffixes = suffixes_of(alloc, schema, entry)?;
    let suffixes = suffixes.as_slice();
    match (first_at(wanted, suffixes), first_within(wanted, suffixes)) {
        (Some(line), _) if found.is_some() => Err(ConfFault::SecondDatabase(line)),
        (Some(_), _) => Ok(Some(entry)),
        (None, Some(line)) => Err(ConfFault::Subordinate(line)),
        (None, None) => Ok(found),
    }
}

/// The line of the first suffix that is the wanted one.
pub(crate) fn first_at(wanted: &DnKey, suffixes: &[Suffix]) -> Option<u64>
    ensures { result ≡ line_of_first (is_at wanted.now) suffixes.now }
{
    for suffix in suffixes {
        if is_within(wanted, suffix) && is_at_or_below(wanted, &suffix.key) {
            return Some(suffix.line);
        }
    }
    None
}

/// The line of the first suffix that is the wanted one, or is below it.
pub(crate) fn first_within(wanted: &DnKey, suffixes: &[Suffix]) -> Option<u64>
    ensures { result ≡ line_of_first (is_within wanted.now) suffixes.now }
{
    for suffix in suffixes {
        if is_within(wanted, suffix) {
            return Some(suffix.line);
        }
    }
    None
}

fn is_within(wanted: &DnKey, suffix: &Suffix) -> bool
    ensures { result ≡ is_within wanted.now suffix.now }
{
    is_at_or_below(&suffix.key, wanted)
}

fn is_at_or_below(key: &DnKey, above: &DnKey) -> bool
    ensures { result ≡ is_at_or_below key.now above.now }
{
    key.at_or_below(above)
}

fn suffixes_of(
    alloc: Global,
    schema: &Schema,
    entry: &[Attribute],
) -> Result<Vec<Suffix>, ConfFault>
    ensures { GivesConf (λ found. found.items) result (suffixes_of schema.now entry.now) }
{
    let values = values_of(alloc, b"olcSuffix", entry)?;
    suffixes_in(alloc, schema, values.as_slice())
}

fn suffixes_in(alloc: Global, schema: &Schema, values: &[Value]) -> Result<Vec<Suffix>, ConfFault>
    ensures { GivesConf (λ found. found.items) result (gather (suffix_in schema.now) (map numbered values.now)) }
{
    let mut found = Vec::new(alloc);
    for value in values {
        found.push(suffix_in(alloc, schema, value)?)?;
    }
    Ok(found)
}

fn suffix_in(alloc: Global, schema: &Schema, value: &Value) -> Result<Suffix, ConfFault>
    ensures { GivesConf (λ suffix. suffix ∷ []) result (suffix_in schema.now (numbered value.now)) }
{
    suffix_of(alloc, schema, value.line, value.text.as_slice())
}

/// The suffix that a text of this line spells.
pub(crate) fn suffix_of(
    alloc: Global,
    schema: &Schema,
    line: u64,
    text: &[u8],
) -> Result<Suffix, ConfFault>
    ensures { GivesConf (λ suffix. suffix ∷ []) result (suffix_by line (name_value_key schema.now text.now)) }
{
    match name_in(alloc, schema, text)? {
        Some(key) => Ok(Suffix { line, key }),
        None => Err(ConfFault::BadName(line)),
    }
}

/// The key of the name that a text spells, if it is a legal one.
fn name_in(alloc: Global, schema: &Schema, text: &[u8]) -> Result<Option<DnKey>, ConfFault>
    ensures { GivesConf (λ key. key) result (Ok (name_value_key schema.now text.now)) }
{
    match Dn::read(alloc, text) {
        Ok(name) => Ok(name.key_if_any(alloc, schema)?),
        Err(NameFault::Memory) => Err(ConfFault::Memory),
        Err(_) => Ok(None),
    }
}

/// Whether a record is the frontend, whose rules hold in all databases.
pub(crate) fn is_frontend(alloc: Global, entry: &[Attribute]) -> Result<bool, ConfFault>
    ensures { GivesConf (λ is_it. is_it) result (Ok (is_frontend entry.now)) }
{
    let names = named(alloc, b"olcDatabase", entry)?;
    Ok(has_frontend_name(names.as_slice()))
}

fn has_frontend_name(names: &[Value]) -> bool
    ensures { result ≡ list_any is_frontend_name (map numbered names.now) }
{
    for name in names {
        if is_frontend_name(name) {
            return true;
        }
    }
    false
}

fn is_frontend_name(name: &Value) -> bool
    ensures { result ≡ is_frontend_name (numbered name.now) }
{
    without_number(name.text.as_slice()) == b"frontend".as_slice()
}

/// A text without the number in braces that it begins with.
fn without_number(text: &[u8]) -> &[u8]
    ensures { result.now ≡ without_number text.now }
{
    if begins_with_brace(text) {
        split_once(text, b'}').1.unwrap_or(text)
    } else {
        text
    }
}
