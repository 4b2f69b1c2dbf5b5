//! The configuration of a slapd that has a slapd.conf (slapd.conf(5)), in one file or in several that include one another. `files` puts their lines
//! together, `statements` reads each of them, `parts` tells which database they are about, and this module finds the one that is wanted.

ghost use Rattle.std.specs.Prelude.{◌≡◌, [], map, option_copied, option_map};
ghost use Rattle.dir_conf.specs.Flat.{content_of, flat_parts};
ghost use Rattle.dir_conf.specs.Outcome.{GivesConf, GivesInFile, IsLocated};
ghost use Rattle.dir_conf.specs.SlapdConf.{at_line, flat_of_files, flat_of_lines, located, macros_by, place_at, site_of, site_of_lines, types_of};
ghost use Rattle.dir_conf.specs.SlapdConf.Files.{file_of, placed};
ghost use Rattle.dir_conf.specs.SlapdConf.Statements.{statement_of};

pub(crate) mod files;
mod parts;
pub(crate) mod statements;

use crate::cn_config::macros::{Macro, definition, with_macro_of};
use crate::fault::ConfFault;
use crate::flat::{Flat, flat_of_site};
use crate::site::Site;
use crate::slapd_conf::files::{ConfFile, PlacedLine, lines_of_files};
use crate::slapd_conf::parts::read_parts;
use crate::slapd_conf::statements::{Said, SaidLine, read_statements};
use dir_names::{Bytes, DnKey, Schema, Texts};
use std::alloc::Global;

/// What is wrong with the configuration of a site, and in which of its files.
#[derive(Debug, Drop)]
pub struct FileFault {
    /// The path of the file whose line is at fault; none, where no line of a slapd.conf is.
    pub file: Option<Bytes>,
    pub fault: ConfFault,
}

/// The flat slapd.conf of the database of a suffix, by the files of a slapd.conf, the first of which is the one that includes the others: its attribute
/// types, its suffixes, rootdn and access rules, and the frontend's rules after these. Passwords are not in it.
///
/// # Errors
///
/// `TooLong` if the files, each taken as often as it is included, have more than 16,777,216 bytes. Then, in the order of the lines, `BadInclude` of one
/// that can't be followed, and `BadArguments` of one with an open quote or a final backslash, or of a definition whose first word stands in quotes.
/// Then `BadArguments` of a macro; of the lines of databases `BadArguments` of a `database` without a name and of a suffix that isn't one argument, and
/// `BadName`; then, in the order of the databases, `SecondDatabase` or `Subordinate`, and `NoDatabase`. Last `TooLong`, if the flat configuration has
/// more bytes. `Memory` if memory runs out.
pub fn flat_of_files(
    alloc: Global,
    schema: &Schema,
    suffix: &DnKey,
    files: &[ConfFile],
) -> Result<Flat, FileFault>
    ensures { GivesInFile flat_parts result (flat_of_files schema.now suffix.now (map file_of files.now)) }
{
    let lines = match lines_of_files(alloc, files) {
        Ok(lines) => lines,
        Err(fault) => return Err(FileFault { file: None, fault }),
    };
    match flat_of_lines(alloc, schema, suffix, lines.as_slice()) {
        Ok(flat) => Ok(flat),
        Err(fault) => Err(located(alloc, files, lines.as_slice(), fault)),
    }
}

fn flat_of_lines(
    alloc: Global,
    schema: &Schema,
    wanted: &DnKey,
    lines: &[PlacedLine],
) -> Result<Flat, ConfFault>
    ensures { GivesConf flat_parts result (flat_of_lines schema.now wanted.now (map placed lines.now)) }
{
    let site = site_of_lines(alloc, schema, wanted, lines)?;
    flat_of_site(alloc, &site)
}

fn site_of_lines(
    alloc: Global,
    schema: &Schema,
    wanted: &DnKey,
    lines: &[PlacedLine],
) -> Result<Site, ConfFault>
    ensures { GivesConf content_of result (site_of_lines schema.now wanted.now (map placed lines.now)) }
{
    let statements = read_statements(alloc, lines)?;
    site_of(alloc, schema, wanted, statements.as_slice())
}

/// What the statements of a configuration say of the database of a suffix.
fn site_of(
    alloc: Global,
    schema: &Schema,
    wanted: &DnKey,
    statements: &[SaidLine],
) -> Result<Site, ConfFault>
    ensures { GivesConf content_of result (site_of schema.now wanted.now (map statement_of statements.now)) }
{
    let types = types_of(alloc, statements)?;
    let parts = read_parts(alloc, schema, statements)?;
    let (own, frontend) = parts.database_of(wanted)?;
    Ok(Site {
        types,
        own,
        frontend,
    })
}

fn types_of(alloc: Global, statements: &[SaidLine]) -> Result<Texts, ConfFault>
    ensures { GivesConf (λ types. types) result (types_of [] (map statement_of statements.now)) }
{
    let mut types = Vec::new(alloc);
    let mut macros = Vec::new(alloc);
    for statement in statements {
        match &statement.said {
            Said::Defines(text) => {
                types.push(definition(alloc, macros.as_slice(), text.as_slice())?)?;
            }
            Said::Words(words) => {
                macros = macros_by(alloc, macros, statement.line, words.as_slice())?;
            }
        }
    }
    Ok(Texts::new(types))
}

/// The macros after a line of these words.
fn macros_by(
    alloc: Global,
    macros: Vec<Macro>,
    line: u64,
    words: &[Bytes],
) -> Result<Vec<Macro>, ConfFault>
    ensures { GivesConf (λ found. found.items) result (macros_by macros.items line words.now) }
{
    match words {
        [keyword, arguments @ ..] if keyword.as_slice().eq_ignore_ascii_case(b"objectidentifier") =>
            with_macro_of(alloc, macros, line, arguments),
        _ => Ok(macros),
    }
}

/// A fault with the file of its line, and the number that the line has there.
fn located(alloc: Global, files: &[ConfFile], lines: &[PlacedLine], fault: ConfFault) -> FileFault
    ensures { IsLocated (located (map file_of files.now) (map placed lines.now) fault) result }
{
    let Some(place) = place_at(lines, fault) else {
        return FileFault { file: None, fault };
    };
    let Some(file) = files.get(place.file) else {
        return FileFault { file: None, fault };
    };
    match file.path.try_clone(alloc) {
        Ok(path) => FileFault {
            file: Some(path),
            fault: at_line(fault, place.line),
        },
        Err(_) => FileFault {
            file: None,
            fault: ConfFault::Memory,
        },
    }
}

/// The line that a fault is about.
fn place_at(lines: &[PlacedLine], fault: ConfFault) -> Option<&PlacedLine>
    ensures { option_map placed (option_copied result) ≡ place_at (map placed lines.now) fault }
{
    let number = fault.line()?;
    lines.get((number as usize).saturating_sub(1))
}

/// A fault of a line, with another number.
fn at_line(fault: ConfFault, line: u64) -> ConfFault
    ensures { result ≡ at_line fault line }
{
    match fault {
        ConfFault::BadLine(_, why) => ConfFault::BadLine(line, why),
        ConfFault::BadInclude(_) => ConfFault::BadInclude(line),
        ConfFault::BadOrder(_) => ConfFault::BadOrder(line),
        ConfFault::BadArguments(_) => ConfFault::BadArguments(line),
        ConfFault::BadName(_) => ConfFault::BadName(line),
        ConfFault::SecondDatabase(_) => ConfFault::SecondDatabase(line),
        ConfFault::Subordinate(_) => ConfFault::Subordinate(line),
        ConfFault::Ended(_) | ConfFault::NoDatabase | ConfFault::TooLong | ConfFault::Memory =>
            fault,
    }
}
