//! The suffixes of all databases of a configuration, as it has them: what there is to choose from where none is the wanted one.

ghost use Rattle.std.specs.Prelude.{◌≡◌, ◌++◌, IfOk, OnOk, map};
ghost use Rattle.dir_conf.specs.CnConfig.Records.{gather};
ghost use Rattle.dir_conf.specs.CnConfig.Values.{numbered};
ghost use Rattle.dir_conf.specs.Outcome.{GivesConf};
ghost use Rattle.dir_conf.specs.SlapdConf.Files.{file_of};
ghost use Rattle.dir_conf.specs.SlapdConf.Statements.{statement_of};
ghost use Rattle.dir_conf.specs.Suffixes.{suffix_said, suffixes_in_entry, suffixes_of_config, suffixes_of_files, suffixes_said, texts_of};

use crate::cn_config::entries_of;
use crate::cn_config::records::{Attribute, values_of};
use crate::cn_config::values::Value;
use crate::fault::ConfFault;
use crate::slapd_conf::files::{ConfFile, lines_of_files};
use crate::slapd_conf::statements::{Said, SaidLine, read_statements};
use dir_conf_text::MAX_CONFIG;
use dir_names::{Bytes, Memory, Texts};
use std::alloc::Global;

/// The suffixes of all records of cn=config, in their order (slapd-config(5), `olcSuffix`).
///
/// # Errors
///
/// `TooLong`, `Ended` and `BadLine` as of `flat_of_config`; `BadOrder` of a suffix; `Memory`.
pub fn suffixes_of_config(alloc: Global, text: &[u8]) -> Result<Texts, ConfFault>
    ensures { GivesConf (λ suffixes. suffixes) result (suffixes_of_config text.now) }
{
    if text.len() > MAX_CONFIG {
        return Err(ConfFault::TooLong);
    }
    let entries = entries_of(alloc, text)?;
    suffixes_in(alloc, entries.as_slice())
}

fn suffixes_in(alloc: Global, entries: &[Vec<Attribute>]) -> Result<Texts, ConfFault>
    ensures { GivesConf (λ suffixes. suffixes) result (gather suffixes_in_entry (map (λ entry. entry.items) entries.now)) }
{
    let mut found = Vec::new(alloc);
    for entry in entries {
        let mut some = suffixes_in_entry(alloc, entry.as_slice())?;
        found.append(&mut some)?;
    }
    Ok(Texts::new(found))
}

fn suffixes_in_entry(alloc: Global, entry: &[Attribute]) -> Result<Vec<Bytes>, ConfFault>
    ensures { GivesConf (λ found. found.items) result (suffixes_in_entry entry.now) }
{
    let values = values_of(alloc, b"olcSuffix", entry)?;
    Ok(texts_of(alloc, values.as_slice())?)
}

fn texts_of(alloc: Global, values: &[Value]) -> Result<Vec<Bytes>, Memory>
    ensures { IfOk result (λ texts. texts.items ≡ texts_of (map numbered values.now)) }
{
    let mut found = Vec::new(alloc);
    for value in values {
        found.push(Bytes::new(value.text.as_slice().to_vec(alloc)?))?;
    }
    Ok(found)
}

/// The suffixes that the lines of a slapd.conf name, and those of the files that it includes, in their order (slapd.conf(5), `suffix`).
///
/// # Errors
///
/// `TooLong`, `BadInclude` and `BadArguments` of a line, as of `flat_of_files`; `Memory`.
pub fn suffixes_of_files(alloc: Global, files: &[ConfFile]) -> Result<Texts, ConfFault>
    ensures { GivesConf (λ suffixes. suffixes) result (suffixes_of_files (map file_of files.now)) }
{
    let lines = lines_of_files(alloc, files)?;
    let statements = read_statements(alloc, lines.as_slice())?;
    Ok(suffixes_said(alloc, statements.as_slice())?)
}

fn suffixes_said(alloc: Global, statements: &[SaidLine]) -> Result<Texts, Memory>
    ensures { IfOk result (λ suffixes. suffixes ≡ suffixes_said (map statement_of statements.now)) }
{
    let mut found = Vec::new(alloc);
    for statement in statements {
        push_if_suffix(alloc, &mut found, &statement.said)?;
    }
    Ok(Texts::new(found))
}

fn push_if_suffix(alloc: Global, found: &mut Vec<Bytes>, said: &Said) -> Result<(), Memory>
    ensures { OnOk result (found.new.items ≡ found.old.items ++ suffix_said said.now) }
{
    if let Said::Words(words) = said
        && let [keyword, suffix, ..] = words.as_slice()
        && keyword.as_slice().eq_ignore_ascii_case(b"suffix")
    {
        found.push(Bytes::new(suffix.as_slice().to_vec(alloc)?))?;
    }
    Ok(())
}
