//! The configuration of a slapd.conf (slapd.conf(5)): the suffix and the rootdn of its database, and its access rules.
//! `dir_conf_text` cuts the text; `directives` reads its lines, `access_rules` the rules among them, and `types` the attribute types that
//! they define.

ghost use Rattle.std.specs.Prelude.{◌≡◌, IfOk, option_copied};
ghost use Rattle.dir_acl.specs.Config.{bounded_lines, config_of, config_of_lines, of_suffix};
ghost use Rattle.dir_acl.specs.Decision.{is_granted};
ghost use Rattle.dir_acl.specs.Inside.ReadingConfig.{configuration_of, settings_of};
ghost use Rattle.dir_acl.specs.Inside.Requests.{question_of};
ghost use Rattle.dir_acl.specs.Notes.{notes_of_lines};
ghost use Rattle.dir_acl.specs.Outcome.{GivesConfig};
ghost use Rattle.dir_acl.specs.Privileges.{has};
ghost use Rattle.dir_acl.specs.Rules.{rules_of};
ghost use Rattle.dir_acl.specs.declared.fault.ConfigCause.TheVariants as ConfigCause;
ghost use Rattle.dir_acl.specs.declared.privileges.Privilege.{Privilege};

pub(crate) mod access_rules;
pub(crate) mod directives;
mod names;
mod open_forms;
pub(crate) mod opening;
pub(crate) mod permissions;
pub(crate) mod types;
mod whats;
mod whos;

use crate::access::decision::privileges_under;
use crate::config::directives::{Settings, read_lines};
use crate::note::lines::{Noted, read_noted};
use crate::{ConfigCause, ConfigFault, Note, Privileges, Request, Rule};
use dir_conf_text::{ConfigText, MAX_CONFIG};
use dir_names::{DnKey, Schema};
use dir_tree::Directory;
use std::alloc::Global;

/// The configuration of one database.
#[derive(Debug)]
pub struct Config {
    suffix: DnKey,
    root: Option<DnKey>,
    rules: Vec<Rule>,
}

// Written out, so that a drop is one call in proofs (docs/CONTRIBUTING.md).
impl Drop for Config {
    fn drop(self) {
        let Config {
            suffix,
            root,
            rules,
        } = self;
        drop(suffix);
        drop(root);
        drop(rules);
    }
}

impl Config {
    /// Reads a slapd.conf.
    ///
    /// # Errors
    ///
    /// `ConfigTooLong` if the text has more than `MAX_CONFIG` bytes. Else those of `of_text`.
    pub fn read(alloc: Global, schema: &Schema, text: &[u8]) -> Result<Config, ConfigFault>
        ensures { GivesConfig configuration_of result (config_of schema.now text.now) }
    {
        Config::of_text(alloc, schema, &cut_config(alloc, text)?)
    }

    /// Reads the lines of a slapd.conf.
    ///
    /// # Errors
    ///
    /// The fault of the first faulty line, and in it that of the first faulty argument. Else `NoSuffix`, if no line has a suffix.
    /// `Memory` if memory runs out.
    pub fn of_text(alloc: Global, schema: &Schema, text: &ConfigText) -> Result<Config, ConfigFault>
        ensures { GivesConfig configuration_of result (config_of_lines schema.now text.now) }
    {
        with_suffix(read_lines(alloc, schema, text.lines())?)
    }

    /// Reads the lines of a slapd.conf as `of_text` does, with the notes on them, in their order; `NoRule` comes last. The words of a
    /// line go when it is read.
    ///
    /// # Errors
    ///
    /// Those of `of_text`.
    pub fn with_notes(
        alloc: Global,
        schema: &Schema,
        text: ConfigText,
    ) -> Result<(Config, Vec<Note>), ConfigFault>
        ensures read { GivesConfig (λ noted. configuration_of noted.0) result (config_of_lines schema.now text) }
        ensures notes { IfOk result (λ noted. noted.1.items ≡ notes_of_lines schema.now text) }
    {
        let Noted { settings, notes } = read_noted(alloc, schema, text)?;
        Ok((with_suffix(settings)?, notes))
    }

    /// The suffix of the database. The call doesn't allocate.
    pub fn suffix(&self) -> &DnKey
        ensures { result.now ≡ (configuration_of self.now).suffix }
    {
        &self.suffix
    }

    /// The privileges of a request. The call doesn't allocate.
    pub fn privileges<D: Directory>(&self, directory: &D, request: &Request<'_>) -> Privileges
        ensures { (p : Privilege) → has result p ≡ is_granted (D.state directory.now) (configuration_of self.now).root (configuration_of self.now).rules (question_of request.now) p }
    {
        privileges_under(
            self.root.as_ref(),
            self.rules.as_slice(),
            directory,
            request,
        )
    }

    pub(crate) fn root(&self) -> Option<&DnKey>
        ensures { option_copied result ≡ (configuration_of self.now).root }
    {
        self.root.as_ref()
    }

    pub(crate) fn rules(&self) -> &[Rule]
        ensures { rules_of result.now ≡ (configuration_of self.now).rules }
    {
        self.rules.as_slice()
    }
}

/// Cuts the text of a slapd.conf into its lines: all that reads it goes through these.
///
/// # Errors
///
/// `ConfigTooLong` if the text has more than `MAX_CONFIG` bytes. `Memory` if memory runs out.
pub fn cut_config(alloc: Global, text: &[u8]) -> Result<ConfigText, ConfigFault>
    ensures { GivesConfig (λ lines. lines) result (bounded_lines text.now) }
{
    if text.len() > MAX_CONFIG {
        return Err(too_long());
    }
    match ConfigText::cut(alloc, text) {
        Ok(lines) => Ok(lines),
        Err(_) => Err(out_of_memory()),
    }
}

pub(crate) fn out_of_memory() -> ConfigFault
    ensures { result ≡ record { line = 0; cause = ConfigCause.Memory } }
{
    ConfigFault {
        line: 0,
        cause: ConfigCause::Memory,
    }
}

pub(crate) fn too_long() -> ConfigFault
    ensures { result ≡ record { line = 0; cause = ConfigCause.ConfigTooLong } }
{
    ConfigFault {
        line: 0,
        cause: ConfigCause::ConfigTooLong,
    }
}

/// The configuration of all lines, if one of them has the suffix.
fn with_suffix(settings: Settings) -> Result<Config, ConfigFault>
    ensures { GivesConfig configuration_of result (of_suffix (settings_of settings) settings.suffix) }
{
    let Settings {
        has_database: _,
        is_passed_over: _,
        suffix,
        root,
        rules,
    } = settings;
    match suffix {
        Some(suffix) => Ok(Config {
            suffix,
            root,
            rules,
        }),
        None => Err(ConfigFault {
            line: 0,
            cause: ConfigCause::NoSuffix,
        }),
    }
}
