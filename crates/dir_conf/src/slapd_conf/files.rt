//! Files of a slapd.conf that include one another, and their lines in the order in which slapd reads them (slapd.conf(5), `include`).

ghost use Rattle.std.specs.Prelude.{◌≡◌, ◌≤◌, IfOk, Ok, Some, length, map, option_copied, option_map};
ghost use Rattle.dir_conf.specs.Outcome.{GivesConf};
ghost use Rattle.dir_conf.specs.SlapdConf.Files.{after_file, after_line, file_of, found_by, included, included_path, includes_in, lines_of_files, placed, text_at, text_of_first, with_line, with_place};
ghost use Rattle.dir_conf_text.specs.Lines.{line_by};

use crate::fault::ConfFault;
use dir_conf_text::{Joining, MAX_CONFIG, TextLine, line_words, text_lines};
use dir_names::{Bytes, Memory};
use std::alloc::Global;

/// How many files deep a configuration may include others, below its first file.
pub const MAX_INCLUDE_DEPTH: u32 = 15;

/// A file of a configuration.
#[derive(Debug, Drop)]
pub struct ConfFile {
    /// Its path, as the line that includes it has it.
    pub path: Bytes,
    /// Its text; none, if it can't be read.
    pub text: Option<Bytes>,
}

/// A line of a file.
#[derive(Drop)]
pub(crate) struct PlacedLine {
    /// The place of its file among all.
    pub(crate) file: usize,
    /// Its number in the file.
    pub(crate) line: u64,
    pub(crate) text: Bytes,
}

/// The lines so far.
#[derive(Drop)]
struct Found {
    /// The bytes of the texts that they stand in.
    size: usize,
    lines: Vec<PlacedLine>,
}

/// The paths that a text of at most 16,777,216 bytes includes, in the order of its lines.
///
/// # Errors
///
/// Memory runs out.
pub fn includes_in(alloc: Global, text: &[u8]) -> Result<Vec<Bytes>, Memory>
    requires { length text.now ≤ 16777216 }
    ensures { IfOk result (λ paths. paths.items ≡ includes_in text.now) }
{
    let lines = text_lines(alloc, text, Joining::AsSlapd)?;
    let mut paths = Vec::new(alloc);
    for line in lines.as_slice() {
        if let Some(path) = included_path(alloc, line.text.as_slice())? {
            paths.push(path)?;
        }
    }
    Ok(paths)
}

/// The path in a line that includes a file.
fn included_path(alloc: Global, line: &[u8]) -> Result<Option<Bytes>, Memory>
    ensures { IfOk result (λ path. path ≡ included_path line.now) }
{
    let Some(words) = line_words(alloc, line)? else {
        return Ok(None);
    };
    match words.as_slice() {
        [keyword, path] if keyword.as_slice().eq_ignore_ascii_case(b"include") => {
            Ok(Some(Bytes::new(path.as_slice().to_vec(alloc)?)))
        }
        _ => Ok(None),
    }
}

/// The lines of a configuration of these files, the first of which includes the others. A line that includes a file is taken as the lines of that
/// file, where it has a text and is at most 16 files deep; else it stays as it is.
pub(crate) fn lines_of_files(
    alloc: Global,
    files: &[ConfFile],
) -> Result<Vec<PlacedLine>, ConfFault>
    ensures { GivesConf (λ lines. map placed lines.items) result (lines_of_files (map file_of files.now)) }
{
    let found = Found {
        size: 0,
        lines: Vec::new(alloc),
    };
    let found = match text_of_first(files) {
        Some(text) => after_file(alloc, files, MAX_INCLUDE_DEPTH, 0, text, found)?,
        None => found,
    };
    Ok(found.lines)
}

/// The lines so far with those of a file.
#[cycle(including)]
fn after_file(
    alloc: Global,
    files: &[ConfFile],
    below: u32,
    file: usize,
    text: &[u8],
    found: Found,
) -> Result<Found, ConfFault>
    ensures { GivesConf found_by result (after_file (map file_of files.now) below (file, text.now) (found_by found)) }
{
    let size = match found.size.checked_add(text.len()) {
        Some(size) if size <= MAX_CONFIG => size,
        _ => return Err(ConfFault::TooLong),
    };
    let lines = text_lines(alloc, text, Joining::AsSlapd)?;
    let mut found = Found {
        size,
        lines: found.lines,
    };
    for line in lines {
        found = after_line(alloc, files, below, file, line, found)?;
    }
    Ok(found)
}

/// The lines so far with a line, or with those of the file that it includes.
#[cycle(including)]
fn after_line(
    alloc: Global,
    files: &[ConfFile],
    below: u32,
    file: usize,
    line: TextLine,
    found: Found,
) -> Result<Found, ConfFault>
    ensures { GivesConf found_by result (after_line (map file_of files.now) below file (line_by line) (found_by found)) }
{
    match included(alloc, files, below, line.text.as_slice())? {
        Some((place, text)) => after_file(alloc, files, below - 1, place, text, found),
        None => with_line(file, line, found),
    }
}

/// The lines so far with one more.
fn with_line(file: usize, line: TextLine, found: Found) -> Result<Found, ConfFault>
    ensures { GivesConf found_by result (Ok (with_line file (line_by line) (found_by found))) }
{
    let Found { size, mut lines } = found;
    lines.push(PlacedLine {
        file,
        line: line.number,
        text: line.text,
    })?;
    Ok(Found { size, lines })
}

/// The place and the text of the file that a line includes, where so many files may stand below one another.
fn included<'f>(
    alloc: Global,
    files: &'f [ConfFile],
    below: u32,
    line: &[u8],
) -> Result<Option<(usize, &'f [u8])>, ConfFault>
    ensures { GivesConf (λ found. option_map (λ p. (p.0, p.1.now)) found) result (Ok (included (map file_of files.now) below line.now)) }
{
    if below == 0 {
        return Ok(None);
    }
    match included_path(alloc, line)? {
        Some(path) => Ok(text_at(files, path.as_slice())),
        None => Ok(None),
    }
}

/// The place and the text of the first file of this path, if it has a text.
fn text_at<'f>(files: &'f [ConfFile], path: &[u8]) -> Option<(usize, &'f [u8])>
    ensures { option_map (λ p. (p.0, p.1.now)) result ≡ text_at 0 (map file_of files.now) path.now }
{
    for (place, file) in files.iter().enumerate() {
        if file.path.as_slice() == path {
            return placed_text(place, file);
        }
    }
    None
}

fn placed_text(place: usize, file: &ConfFile) -> Option<(usize, &[u8])>
    ensures { option_map (λ p. (p.0, p.1.now)) result ≡ with_place place (file_of file.now).text }
{
    match &file.text {
        Some(text) => Some((place, text.as_slice())),
        None => None,
    }
}

fn text_of_first(files: &[ConfFile]) -> Option<&[u8]>
    ensures { option_copied result ≡ text_of_first (map file_of files.now) }
{
    match files {
        [first, ..] => match &first.text {
            Some(text) => Some(text.as_slice()),
            None => None,
        },
        [] => None,
    }
}
