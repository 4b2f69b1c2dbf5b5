//! The attribute types that a configuration defines (slapd.conf(5), `attributetype`; RFC 4512, section 4.1.2).

ghost use Rattle.std.specs.Prelude.{◌≡◌, Ok};
ghost use Rattle.dir_acl.specs.Config.{at_line, config_types, types_after, types_with};
ghost use Rattle.dir_conf_text.specs.Text.{definition_by};
ghost use Rattle.dir_acl.specs.Outcome.{GivesConfig};

use crate::config::{out_of_memory, too_long};
use crate::{ConfigCause, ConfigFault};
use dir_conf_text::{ConfigLine, ConfigText, MAX_CONFIG};
use dir_names::{NameFault, Schema};
use std::alloc::Global;

/// A schema with the attribute types that a slapd.conf defines: each line of the directive `attributetype` in turn, wherever it
/// stands, adds what it says (`Schema::add_type`). All other lines are passed over, whatever they hold.
///
/// # Errors
///
/// `ConfigTooLong` if the text has more than `MAX_CONFIG` bytes. Else those of `types_of_text`.
#[tactic(auto, using(crate::proofs::DefinedTypes::types_defined))]
pub fn read_schema(alloc: Global, schema: &Schema, text: &[u8]) -> Result<Schema, ConfigFault>
    ensures { GivesConfig (λ types. types) result (config_types schema.now text.now) }
{
    if text.len() > MAX_CONFIG {
        return Err(too_long());
    }
    match ConfigText::cut_definitions(alloc, text) {
        Ok(definitions) => types_of_text(alloc, schema, &definitions),
        Err(_) => Err(out_of_memory()),
    }
}

/// A schema with the attribute types that the lines of a slapd.conf define.
///
/// # Errors
///
/// `BadType` at the first line whose definition can't be added. `Memory` if memory runs out.
pub fn types_of_text(
    alloc: Global,
    schema: &Schema,
    text: &ConfigText,
) -> Result<Schema, ConfigFault>
    ensures { GivesConfig (λ types. types) result (types_after schema.now text.now) }
{
    let mut types = copied(alloc, schema)?;
    for line in text.lines() {
        types = with_line(types, line)?;
    }
    types.find_frequent();
    Ok(types)
}

fn copied(alloc: Global, schema: &Schema) -> Result<Schema, ConfigFault>
    ensures { GivesConfig (λ types. types) result (Ok schema.now) }
{
    match schema.try_clone(alloc) {
        Ok(copy) => Ok(copy),
        Err(_) => Err(out_of_memory()),
    }
}

/// The types with what a line defines.
fn with_line(types: Schema, line: &ConfigLine) -> Result<Schema, ConfigFault>
    ensures { GivesConfig (λ now. now) result (at_line line.now.number (types_with types (definition_by line.now.said))) }
{
    let Some(definition) = line.definition() else {
        return Ok(types);
    };
    let mut types = types;
    match types.add_type(definition) {
        Ok(()) => Ok(types),
        Err(NameFault::Memory) => Err(out_of_memory()),
        Err(_) => Err(ConfigFault {
            line: line.number,
            cause: ConfigCause::BadType,
        }),
    }
}
