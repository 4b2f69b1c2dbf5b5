//! The configuration read from its source, with the types that it defines, in pieces, and no further than it may be long.

ghost use Rattle.std.specs.Io.KnownBytes.{Consumes, IsAtEnd};
ghost use Rattle.std.specs.Prelude.{◌≡◌, ◌⊎◌, ◌<◌, ◌≤◌, ℕ, Err, IfErr, IfNone, IfOk, IfSome, List, None, Ok, OnOk, Some, length};
ghost use Rattle.dir_acl.specs.Config.{bounded_lines, config_types};
ghost use Rattle.dir_acl.specs.Notes.{notes_of, notes_of_lines};
ghost use Rattle.dir_ldif.specs.Device.{HasFailed};
ghost use Rattle.dir_acl.specs.Outcome.{GivesConfig, IsConfigFaultOf};
ghost use Rattle.dir_tools.specs.AccessReport.{configured, configured_by_lines};
ghost use Rattle.dir_tools.specs.Inside.Asking.{IsReadFault, config_fault, configured_by, configured_of};
ghost use Rattle.dir_tools.specs.AccessAnswers.{IsArgumentOf, IsConfigFault, IsTextOf, IsTypesFault, argument_under};
ghost use Rattle.dir_tools.specs.declared.fault.Input.TheVariants as Input;
ghost use Rattle.dir_tools.specs.declared.fault.ToolFault.TheVariants as ToolFault;

use crate::{Input, ToolFault};
use dir_acl::{
    Config, ConfigCause, ConfigFault, FaultArgument, Note, cut_config, fault_argument, read_schema,
    types_of_text,
};
use dir_conf_text::{ConfigText, MAX_CONFIG};
use dir_ldif::Source;
use dir_names::{Memory, Schema};
use std::alloc::Global;

/// The greatest number of bytes that one read call is asked for.
const PIECE: usize = 8192;

/// Reads the attribute types that a slapd.conf defines, and adds them to a schema's (`read_schema`).
///
/// At most 16,785,408 bytes are read, whatever the reader gives.
///
/// # Errors
///
/// A read fault; the first definition that can't be added, or a text that is too long; out of memory.
pub fn run_schema<R: Source>(
    alloc: Global,
    schema: &Schema,
    config: &mut R,
) -> Result<Schema, ToolFault>
    ensures ok { IfOk result (λ types. IfSome (R.left config.old) (λ text. config_types schema.now text ≡ Ok types)) }
    ensures fault { IfErr result (IsTypesFault schema.now (R.left config.old)) }
    ensures bounded { (bytes : List ℕ) × Consumes (R.left config.old) (R.left config.new) bytes × (length bytes ≤ 16785408) }
    ensures read { result ≡ Err (ToolFault.Read Input.Config) → HasFailed (R.failures config.old) (R.failures config.new) }
    ensures unfailed { OnOk result (R.failures config.new ≡ R.failures config.old) }
{
    let text = match read_text(alloc, config) {
        Ok(text) => text,
        Err(fault) => return Err(fault),
    };
    match read_schema(alloc, schema, text.as_slice()) {
        Ok(types) => Ok(types),
        Err(fault) => Err(config_fault(fault)),
    }
}

/// Reads a configuration, and the types that it defines. At most 16,785,408 bytes are read.
///
/// # Errors
///
/// A read fault; the configuration's first fault; out of memory.
pub fn read_config<R: Source>(
    alloc: Global,
    schema: &Schema,
    source: &mut R,
) -> Result<(Schema, Config), ToolFault>
    ensures ok { IfOk result (λ found. IsTextOf schema.now (R.left source.old) (configured_by found)) }
    ensures fault { IfErr result (IsConfigFault schema.now (R.left source.old)) }
    ensures bounded { (bytes : List ℕ) × Consumes (R.left source.old) (R.left source.new) bytes × (length bytes ≤ 16785408) }
    ensures read { result ≡ Err (ToolFault.Read Input.Config) → HasFailed (R.failures source.old) (R.failures source.new) }
    ensures unfailed { OnOk result (R.failures source.new ≡ R.failures source.old) }
{
    let text = match read_text(alloc, source) {
        Ok(text) => text,
        Err(fault) => return Err(fault),
    };
    match configured(alloc, schema, text.as_slice()) {
        Ok(found) => Ok(found),
        Err(fault) => Err(config_fault(fault)),
    }
}

/// A configuration with the types that it defines.
fn configured(alloc: Global, schema: &Schema, text: &[u8]) -> Result<(Schema, Config), ConfigFault>
    ensures { GivesConfig configured_by result (configured schema.now text.now) }
{
    let lines = cut_config(alloc, text)?;
    let types = types_of_text(alloc, schema, &lines)?;
    let config = Config::of_text(alloc, &types, &lines)?;
    Ok((types, config))
}

/// A configuration that was read.
#[derive(Debug, Drop)]
pub struct NotedConfig {
    /// The attribute types, with those that it defines. All else of it was read under them, and so is what is asked.
    pub types: Schema,
    pub config: Config,
    /// The notes on it (`Config::with_notes`).
    pub notes: Vec<Note>,
}

/// The configuration of these lines with the types that they define, and the notes on it.
fn noted(alloc: Global, schema: &Schema, lines: ConfigText) -> Result<NotedConfig, ConfigFault>
    ensures read { GivesConfig configured_of result (configured_by_lines schema.now lines) }
    ensures notes { IfOk result (λ found. found.notes.items ≡ notes_of_lines found.types lines) }
{
    let types = types_of_text(alloc, schema, &lines)?;
    let (config, notes) = Config::with_notes(alloc, &types, lines)?;
    Ok(NotedConfig {
        types,
        config,
        notes,
    })
}

/// A fault that comes as a configuration is read, with the argument of the configuration that it is about.
#[derive(Debug, Drop)]
pub struct FaultWithArgument {
    pub fault: ToolFault,
    /// The argument, if the fault is about one (`fault_argument`). `Memory` says that memory ran out as it was sought: the fault is
    /// told all the same.
    pub argument: Result<Option<FaultArgument>, Memory>,
}

/// Reads a slapd.conf as `run_acl` does: first the attribute types that it defines, which are added to the schema's, and then the rest
/// under them, with the notes on it. A fault of the configuration comes with the argument that it is about.
///
/// At most 16,785,408 bytes are read, whatever the reader gives.
///
/// # Errors
///
/// A read fault; the configuration's first fault; out of memory.
pub fn read_config_with_argument<R: Source>(
    alloc: Global,
    schema: &Schema,
    source: &mut R,
) -> Result<NotedConfig, FaultWithArgument>
    ensures config { IfOk result (λ found. IsTextOf schema.now (R.left source.old) (configured_of found)) }
    ensures notes { IfOk result (λ found. IfSome (R.left source.old) (λ text. found.notes.items ≡ notes_of found.types text)) }
    ensures fault { IfErr result (λ why. IsConfigFault schema.now (R.left source.old) why.fault) }
    ensures argument { IfErr result (λ why. IfOk why.argument (IsArgumentOf schema.now (R.left source.old) why.fault)) }
    ensures bounded { (bytes : List ℕ) × Consumes (R.left source.old) (R.left source.new) bytes × (length bytes ≤ 16785408) }
    ensures read { IfErr result (λ why. why.fault ≡ ToolFault.Read Input.Config → HasFailed (R.failures source.old) (R.failures source.new)) }
    ensures unfailed { OnOk result (R.failures source.new ≡ R.failures source.old) }
{
    let text = match read_text(alloc, source) {
        Ok(text) => text,
        Err(fault) => {
            return Err(FaultWithArgument {
                fault,
                argument: Ok(None),
            });
        }
    };
    match noted_text(alloc, schema, text.as_slice()) {
        Ok(found) => Ok(found),
        Err(why) => Err(FaultWithArgument {
            fault: config_fault(why.fault),
            argument: why.argument,
        }),
    }
}

/// The fault of a configuration with the argument that it is about.
#[derive(Drop)]
struct FaultAt {
    fault: ConfigFault,
    argument: Result<Option<FaultArgument>, Memory>,
}

/// The configuration of a text, which is cut once; one with a fault is cut again, for the argument.
fn noted_text(alloc: Global, schema: &Schema, text: &[u8]) -> Result<NotedConfig, FaultAt>
    ensures config { IfOk result (λ found. configured schema.now text.now ≡ Ok (configured_of found)) }
    ensures notes { IfOk result (λ found. found.notes.items ≡ notes_of found.types text.now) }
    ensures fault { IfErr result (λ why. IsConfigFaultOf why.fault (configured schema.now text.now)) }
    ensures argument { IfErr result (λ why. IfOk why.argument (IsArgumentOf schema.now (Some text.now) (config_fault why.fault))) }
{
    let lines = match cut_config(alloc, text) {
        Ok(lines) => lines,
        Err(fault) => {
            return Err(FaultAt {
                fault,
                argument: Ok(None),
            });
        }
    };
    match noted(alloc, schema, lines) {
        Ok(found) => Ok(found),
        Err(fault) => Err(FaultAt {
            fault,
            argument: argument_of(alloc, schema, text, fault),
        }),
    }
}

/// The argument that the fault of a configuration with this text is about, under the types that the text defines.
fn argument_of(
    alloc: Global,
    schema: &Schema,
    text: &[u8],
    fault: ConfigFault,
) -> Result<Option<FaultArgument>, Memory>
    ensures { IfOk result (IsArgumentOf schema.now (Some text.now) (config_fault fault)) }
{
    match fault.cause {
        ConfigCause::Memory => Ok(None),
        _ => argument_in(alloc, schema, text, fault),
    }
}

fn argument_in(
    alloc: Global,
    schema: &Schema,
    text: &[u8],
    fault: ConfigFault,
) -> Result<Option<FaultArgument>, Memory>
    ensures { IfOk result (λ found. found ≡ argument_under (config_types schema.now text.now) text.now fault) }
{
    match cut_config(alloc, text) {
        Ok(lines) => argument_under(alloc, schema, text, &lines, fault),
        Err(
            ConfigFault {
                line: _,
                cause: ConfigCause::Memory,
            },
        ) => Err(Memory),
        Err(_) => Ok(None),
    }
}

fn argument_under(
    alloc: Global,
    schema: &Schema,
    text: &[u8],
    lines: &ConfigText,
    fault: ConfigFault,
) -> Result<Option<FaultArgument>, Memory>
    requires { bounded_lines text.now ≡ Ok lines.now }
    ensures { IfOk result (λ found. found ≡ argument_under (config_types schema.now text.now) text.now fault) }
{
    match types_of_text(alloc, schema, lines) {
        Ok(types) => fault_argument(alloc, &types, text, lines, fault),
        Err(
            ConfigFault {
                line: _,
                cause: ConfigCause::Memory,
            },
        ) => Err(Memory),
        Err(_) => Ok(None),
    }
}

/// The fault of a configuration, as a fault of the tool.
fn config_fault(fault: ConfigFault) -> ToolFault
    ensures { result ≡ config_fault fault }
{
    match fault.cause {
        ConfigCause::Memory => ToolFault::Memory,
        _ => ToolFault::Config(fault),
    }
}

/// All that a source gives, or more than a configuration may have.
fn read_text<R: Source>(alloc: Global, source: &mut R) -> Result<Vec<u8>, ToolFault>
    ensures text { IfOk result (λ text. Consumes (R.left source.old) (R.left source.new) text.items) }
    ensures whole { IfOk result (λ text. (16777216 < length text.items) ⊎ IsAtEnd (R.left source.new)) }
    ensures bounded { (bytes : List ℕ) × Consumes (R.left source.old) (R.left source.new) bytes × (length bytes ≤ 16785408) }
    ensures fault { IfErr result (IsReadFault (R.failures source.old) (R.failures source.new)) }
    ensures unfailed { OnOk result (R.failures source.new ≡ R.failures source.old) }
{
    match read_bounded(alloc, source)? {
        Some(text) => Ok(text),
        None => Err(ToolFault::Read(Input::Config)),
    }
}

/// All that a source gives, or more than 16,777,216 bytes of it; none, if the source failed. At most 16,785,408 bytes are read,
/// whatever it gives.
///
/// # Errors
///
/// Memory ran out.
pub fn read_bounded<R: Source>(alloc: Global, source: &mut R) -> Result<Option<Vec<u8>>, Memory>
    ensures text { IfOk result (λ found. IfSome found (λ text. Consumes (R.left source.old) (R.left source.new) text.items)) }
    ensures whole { IfOk result (λ found. IfSome found (λ text. (16777216 < length text.items) ⊎ IsAtEnd (R.left source.new))) }
    ensures bounded { (bytes : List ℕ) × Consumes (R.left source.old) (R.left source.new) bytes × (length bytes ≤ 16785408) }
    ensures failed { IfOk result (λ found. IfNone found (HasFailed (R.failures source.old) (R.failures source.new))) }
    ensures unfailed { IfOk result (λ found. IfSome found (λ _. R.failures source.new ≡ R.failures source.old)) }
{
    let mut text = Vec::new(alloc);
    let mut buffer = [0u8; PIECE];
    while text.len() <= MAX_CONFIG {
        match source.read(&mut buffer) {
            Ok(0) => return Ok(Some(text)),
            Ok(n) => text.extend_from_slice(&buffer[..n])?,
            Err(_) => return Ok(None),
        }
    }
    Ok(Some(text))
}
