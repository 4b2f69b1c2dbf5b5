//! The files of a slapd.conf that include one another, as they are read (slapd.conf(5), `include`).

ghost use Rattle.std.specs.Option.{option_copied};
ghost use Rattle.std.specs.Prelude.{◌≡◌, ◌-◌, ◌<◌, ◌≤◌, ◌∷◌, ◌++◌, [], Err, IfErr, IfOk, IfSome, Some, length, map, option_map};
ghost use Rattle.dir_conf.specs.SlapdConf.Files.{file_of, includes_in};
ghost use Rattle.dir_ldif.specs.Device.{HasFailed};
ghost use Rattle.dir_files.specs.Failures.{FailsByDevice};
ghost use Rattle.dir_files.specs.Including.{Does, FailsUnread, IncludedBelow, IsLevel, IsNotRead, IsUnreadAt, ReadsFiles, ReadsMore, ReadsOrStops, files_of_level, included_by_text, is_known, is_passed_over, new_paths, room_before, text_size};
ghost use Rattle.dir_files.specs.declared.including.Unread.TheVariants as unread;

use crate::call_faults::not_opened;
use crate::fault::Fault;
use crate::files::{FileSystem, Opened, Refusal};
use dir_conf::{ConfFault, ConfFile, FileFault, MAX_INCLUDE_DEPTH, includes_in};
use dir_conf_text::MAX_CONFIG;
use dir_ldif::Source;
use dir_names::{Bytes, Memory};
use dir_tools::{Input, ToolFault, read_bounded};
use std::alloc::{AllocError, AllocFailed, Global};

/// How many files are read at most, the first one and those that can't be opened among them.
const MAX_FILES: usize = 1000;

/// The files of a configuration.
#[derive(Drop)]
pub(crate) struct ReadFiles {
    /// The bits of the first one's mode that say who may read and write it.
    pub(crate) mode: u32,
    /// The first one, and all that it includes, each once.
    pub(crate) files: Vec<ConfFile>,
}

/// Files that stand at the same depth.
#[derive(Drop)]
pub(crate) struct Level {
    files: Vec<ConfFile>,
    /// Their paths.
    paths: Vec<Bytes>,
    /// The paths that they include.
    wanted: Vec<Bytes>,
    /// How many bytes more may be read.
    room: usize,
}

/// Why a file isn't read.
#[derive(Clone, Copy, PartialEq, Eq, Debug)]
pub(crate) enum Unread {
    /// It can't be read, though it was opened.
    Failed,
    /// All that were read and this one have together more than 16,777,216 bytes.
    TooLong,
    /// Memory ran out.
    Memory,
}

/// Reads the file at a path and all files that it includes, which are up to 16 files deep: those that it names itself in the order of its lines, then those
/// that these name, and so on. A path is opened once, and at most 1,000 are. A file that can't be opened has no text.
///
/// # Errors
///
/// The first file can't be opened; a file can't be read; all that were opened have together more than 16,777,216 bytes; memory runs out.
pub(crate) fn read_files<'a, F: FileSystem>(
    alloc: Global,
    files: &mut F,
    path: &'a str,
) -> Result<ReadFiles, Fault<'a>>
    ensures fault { IfErr result (IsUnreadAt path.entry.now) }
    ensures calls { Does (F.disk files.old) (F.disk files.new) (ReadsFiles path.entry.now result) }
    ensures failed { FailsByDevice result (F.failures files.old) (F.failures files.new) }
{
    let Opened { file, mode } = match files.open(path) {
        Ok(opened) => opened,
        Err(why) => return Err(not_opened(path, why)),
    };
    let text = match read_file(alloc, files, file, MAX_CONFIG) {
        Ok(text) => text,
        Err(why) => return Err(not_read(why)),
    };
    let more = match read_included(alloc, files, path.as_bytes(), text.as_slice()) {
        Ok(more) => more,
        Err(why) => return Err(not_read(why)),
    };
    match with_first(alloc, path, text, more) {
        Ok(found) => Ok(ReadFiles { mode, files: found }),
        Err(_) => Err(not_read(Unread::Memory)),
    }
}

/// A file before others.
fn with_first(
    alloc: Global,
    path: &str,
    text: Vec<u8>,
    more: Vec<ConfFile>,
) -> Result<Vec<ConfFile>, Memory>
    ensures { IfOk result (λ all. map file_of all.items ≡ record { path = path.now; text = Some text.items } ∷ map file_of more.items) }
{
    let mut more = more;
    let mut all = Vec::new(alloc);
    all.push(ConfFile {
        path: Bytes::new(path.as_bytes().to_vec(alloc)?),
        text: Some(Bytes::new(text)),
    })?;
    all.append(&mut more)?;
    Ok(all)
}

/// What it means that a file of a configuration isn't read.
pub(crate) fn not_read<'a>(why: Unread) -> Fault<'a>
    ensures { IsNotRead why result }
{
    match why {
        Unread::Failed => Fault::Tool(ToolFault::Read(Input::Config)),
        Unread::TooLong => Fault::Conf(FileFault {
            file: None,
            fault: ConfFault::TooLong,
        }),
        Unread::Memory => Fault::Tool(ToolFault::Memory),
    }
}

/// All that a file has that was opened, which may be so many bytes. It is closed.
pub(crate) fn read_file<F: FileSystem>(
    alloc: Global,
    files: &mut F,
    file: F::Input,
    room: usize,
) -> Result<Vec<u8>, Unread>
    requires room { room ≤ 16777216 }
    requires fresh { F.Input.failures file ≡ 0 }
    ensures text { IfOk result (λ text. IfSome (F.Input.left file) (λ known. text.items ≡ known)) }
    ensures short { IfOk result (λ text. length text.items ≤ room) }
    ensures long { result ≡ Err Unread.TooLong → IfSome (F.Input.left file) (λ known. room < length known) }
    ensures told { F.disk files.new ≡ F.disk files.old }
    ensures failed { FailsUnread result (F.failures files.old) (F.failures files.new) }
{
    let mut file = file;
    let text = whole_text(alloc, &mut file, room);
    files.close(file);
    text
}

/// All that a file has, which may be so many bytes.
fn whole_text<R: Source>(alloc: Global, file: &mut R, room: usize) -> Result<Vec<u8>, Unread>
    requires { room ≤ 16777216 }
    ensures text { IfOk result (λ text. IfSome (R.left file.old) (λ known. text.items ≡ known)) }
    ensures short { IfOk result (λ text. length text.items ≤ room) }
    ensures long { result ≡ Err Unread.TooLong → IfSome (R.left file.old) (λ known. room < length known) }
    ensures failed { result ≡ Err Unread.Failed → HasFailed (R.failures file.old) (R.failures file.new) }
{
    match read_bounded(alloc, file)? {
        Some(text) if text.len() <= room => Ok(text),
        Some(_) => Err(Unread::TooLong),
        None => Err(Unread::Failed),
    }
}

/// The files that the first one includes, which has this text.
fn read_included<F: FileSystem>(
    alloc: Global,
    files: &mut F,
    path: &[u8],
    text: &[u8],
) -> Result<Vec<ConfFile>, Unread>
    requires { length text.now ≤ 16777216 }
    ensures included { IfOk result (λ more. IncludedBelow 15 (path.now ∷ []) (includes_in text.now) (map file_of more.items)) }
    ensures calls { Does (F.disk files.old) (F.disk files.new) (ReadsOrStops (16777216 - length text.now) (λ more. map file_of more.items) result) }
    ensures failed { FailsUnread result (F.failures files.old) (F.failures files.new) }
{
    let wanted = includes_in(alloc, text)?;
    let mut known = Vec::new(alloc);
    known.push(Bytes::new(path.to_vec(alloc)?))?;
    let room = MAX_CONFIG - text.len();
    read_below(
        alloc,
        files,
        MAX_INCLUDE_DEPTH,
        known,
        wanted.as_slice(),
        room,
    )
}

/// The files of these paths that are not known, with those that these include, so many times below.
fn read_below<F: FileSystem>(
    alloc: Global,
    files: &mut F,
    below: u32,
    known: Vec<Bytes>,
    wanted: &[Bytes],
    room: usize,
) -> Result<Vec<ConfFile>, Unread>
    requires { room ≤ 16777216 }
    ensures included { IfOk result (λ found. IncludedBelow below known.items wanted.now (map file_of found.items)) }
    ensures calls { Does (F.disk files.old) (F.disk files.new) (ReadsOrStops room (λ found. map file_of found.items) result) }
    ensures failed { FailsUnread result (F.failures files.old) (F.failures files.new) }
{
    if below == 0 {
        return Ok(Vec::new(alloc));
    }
    let Level {
        files: mut found,
        paths,
        wanted,
        room,
    } = read_level(alloc, files, known.as_slice(), wanted, room)?;
    let mut paths = paths;
    let mut known = known;
    known.append(&mut paths)?;
    let mut deeper = read_below(alloc, files, below - 1, known, wanted.as_slice(), room)?;
    found.append(&mut deeper)?;
    Ok(found)
}

/// Reads those of these files that are not known.
fn read_level<F: FileSystem>(
    alloc: Global,
    files: &mut F,
    known: &[Bytes],
    wanted: &[Bytes],
    room: usize,
) -> Result<Level, Unread>
    requires { room ≤ 16777216 }
    ensures paths { IfOk result (λ level. level.paths.items ≡ new_paths known.now wanted.now) }
    ensures level { IfOk result IsLevel }
    ensures room { IfOk result (λ level. room_before level ≡ room) }
    ensures calls { Does (F.disk files.old) (F.disk files.new) (ReadsOrStops room files_of_level result) }
    ensures failed { FailsUnread result (F.failures files.old) (F.failures files.new) }
{
    let mut level = Level {
        files: Vec::new(alloc),
        paths: Vec::new(alloc),
        wanted: Vec::new(alloc),
        room,
    };
    for path in wanted {
        level = with_new(alloc, files, known, level, path)?;
    }
    Ok(level)
}

/// The files so far with that of a path, if it is not known.
fn with_new<F: FileSystem>(
    alloc: Global,
    files: &mut F,
    known: &[Bytes],
    level: Level,
    path: &Bytes,
) -> Result<Level, Unread>
    requires level { IsLevel level }
    requires room { level.room ≤ 16777216 }
    ensures paths { IfOk result (λ now. now.paths.items ≡ level.paths.items ++ new_paths (known.now ++ level.paths.items) (path.now ∷ [])) }
    ensures level { IfOk result IsLevel }
    ensures room { IfOk result (λ now. room_before now ≡ room_before level) }
    ensures calls { Does (F.disk files.old) (F.disk files.new) (ReadsMore level.room (files_of_level level) files_of_level result) }
    ensures failed { FailsUnread result (F.failures files.old) (F.failures files.new) }
{
    if is_passed_over(known, level.paths.as_slice(), path) {
        return Ok(level);
    }
    with_file(alloc, files, level, path)
}

/// Whether a path is among these or among more, or so many are known that no other is read.
fn is_passed_over(known: &[Bytes], more: &[Bytes], path: &Bytes) -> bool
    ensures { result ≡ is_passed_over (known.now ++ more.now) path.now }
{
    known.len().saturating_add(more.len()) >= MAX_FILES
        || is_known(known, path)
        || is_known(more, path)
}

/// Whether a path is among these.
fn is_known(known: &[Bytes], path: &Bytes) -> bool
    ensures { result ≡ is_known known.now path.now }
{
    known.iter().any(|one| *path == *one)
}

/// The files so far with one more, which is read.
fn with_file<F: FileSystem>(
    alloc: Global,
    files: &mut F,
    level: Level,
    path: &Bytes,
) -> Result<Level, Unread>
    requires level { IsLevel level }
    requires room { level.room ≤ 16777216 }
    ensures path { IfOk result (λ now. now.paths.items ≡ level.paths.items ++ path.now ∷ []) }
    ensures level { IfOk result IsLevel }
    ensures room { IfOk result (λ now. room_before now ≡ room_before level) }
    ensures calls { Does (F.disk files.old) (F.disk files.new) (ReadsMore level.room (files_of_level level) files_of_level result) }
    ensures failed { FailsUnread result (F.failures files.old) (F.failures files.new) }
{
    let Level {
        files: mut found,
        mut paths,
        mut wanted,
        room,
    } = level;
    let path = path.as_slice();
    let text = text_at(alloc, files, path, room)?;
    let room = room - text_size(text.as_deref());
    let mut included = included_by_text(alloc, text.as_deref())?;
    wanted.append(&mut included)?;
    paths.push(Bytes::new(path.to_vec(alloc)?))?;
    found.push(file_with(alloc, path, text)?)?;
    Ok(Level {
        files: found,
        paths,
        wanted,
        room,
    })
}

/// How many bytes a text has; none, if there is no text.
fn text_size(text: Option<&[u8]>) -> usize
    ensures { result ≡ text_size (option_copied text.entry) }
{
    match text {
        Some(text) => text.len(),
        None => 0,
    }
}

/// The file of a path that has this text, if it has one.
fn file_with(alloc: Global, path: &[u8], text: Option<Vec<u8>>) -> Result<ConfFile, Memory>
    ensures { IfOk result (λ file. file_of file ≡ record { path = path.now; text = option_map (λ text. text.items) text }) }
{
    let path = Bytes::new(path.to_vec(alloc)?);
    match text {
        Some(text) => Ok(ConfFile {
            path,
            text: Some(Bytes::new(text)),
        }),
        None => Ok(ConfFile { path, text: None }),
    }
}

/// The paths that a file of this text includes; none, if it has no text.
fn included_by_text(alloc: Global, text: Option<&[u8]>) -> Result<Vec<Bytes>, Memory>
    requires { IfSome text (λ text. length text.now ≤ 16777216) }
    ensures { IfOk result (λ paths. paths.items ≡ included_by_text (option_copied text.entry)) }
{
    match text {
        Some(text) => includes_in(alloc, text),
        None => Ok(Vec::new(alloc)),
    }
}

/// Opens and reads the file at a path, where another includes it, which may have so many bytes. One that can't be opened has no text.
fn text_at<F: FileSystem>(
    alloc: Global,
    files: &mut F,
    path: &[u8],
    room: usize,
) -> Result<Option<Vec<u8>>, Unread>
    requires { room ≤ 16777216 }
    ensures short { IfOk result (λ text. IfSome text (λ text. length text.items ≤ room)) }
    ensures calls { Does (F.disk files.old) (F.disk files.new) (ReadsOrStops room (λ text. record { path = path.now; text = option_map (λ text. text.items) text } ∷ []) result) }
    ensures failed { FailsUnread result (F.failures files.old) (F.failures files.new) }
{
    let Ok(path) = std::str::from_utf8(path) else {
        return Ok(None);
    };
    match files.open(path) {
        Ok(opened) => Ok(Some(read_file(alloc, files, opened.file, room)?)),
        Err(Refusal::Memory) => Err(Unread::Memory),
        Err(Refusal::Exists) => Ok(None),
        Err(Refusal::Other) => Ok(None),
    }
}

impl From<AllocError> for Unread {
    ghost from_gives = { λ _ e. e ≡ unread.Memory };

    fn from(_error: AllocError) -> Unread {
        Unread::Memory
    }
}

impl<T: Drop> From<AllocFailed<T>> for Unread {
    ghost from_gives = { λ _ e. e ≡ unread.Memory };

    fn from(_error: AllocFailed<T>) -> Unread {
        Unread::Memory
    }
}

impl From<Memory> for Unread {
    ghost from_gives = { λ _ e. e ≡ unread.Memory };

    fn from(_error: Memory) -> Unread {
        Unread::Memory
    }
}
