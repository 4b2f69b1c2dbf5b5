//! The system's own files and standard streams. What they hold no contract can tell.

ghost use Rattle.std.specs.Prelude.{◌≡◌, ◌++◌, IfOk, None, codes, decimal};
ghost use Rattle.dir_files.specs.Failures.{CountsCall, CountsDevice};
ghost use Rattle.std.specs.String.{string_bytes};
ghost use Rattle.dir_files.specs.Files.{is_never_synced, meant_by};
ghost use Rattle.dir_files.specs.System.{HasToldSize, IsFolderOf, told_mode};

use crate::devices::{PatientReader, PatientWriter};
use crate::files::{FileSystem, Opened, Refusal};
use crate::limit::{LimitedWriter, largest_file, room_of_output};
use crate::progress::{Progress, ProgressLine, TellingReader, TellingWriter};
use dir_ldif::{DeviceFault, Sink, Source, write_flushed};
use std::alloc::{AllocError, Global};
use std::fs::{self, File, Metadata, OpenFile, OpenOptions};
use std::io::{self, ErrorKind, Input, IsTerminal};
use std::os::unix::fs::{MetadataExt, OpenOptionsExt};
use std::rt::Files;

/// How many names are tried for a draft. A run that was killed may have left one behind.
const MOST_DRAFTS: u32 = 1000;

/// Of a mode, the bits that say who may read and write the file.
const READ_AND_WRITE: u32 = 0o666;

/// Only the owner may read and write the file.
const OWNER_ALONE: u32 = 0o600;

/// The system's files and standard streams.
#[derive(Drop)]
pub struct SystemFiles<'a, R> {
    rt: &'a R,
    line: &'a ProgressLine,
    alloc: Global,
    /// What the system last said where a file could not be opened or created.
    reason: Option<io::Error>,
    /// How often the system has refused something.
    failures: u64,
}

impl<'a, R: Files + Input + Print> SystemFiles<'a, R> {
    pub fn new(rt: &'a R, line: &'a ProgressLine, alloc: Global) -> SystemFiles<'a, R> {
        SystemFiles {
            rt,
            line,
            alloc,
            reason: None,
            failures: 0,
        }
    }

    /// What the system last said where a file could not be opened or created.
    pub fn reason(&self) -> Option<&io::Error> {
        self.reason.as_ref()
    }

    /// Whether a path names a file of bytes that can be read once more: no pipe, no terminal, and no device.
    pub fn is_regular(&self, path: &str) -> bool {
        match fs::metadata(self.rt, path) {
            Ok(metadata) => metadata.is_file(),
            Err(_) => false,
        }
    }

    /// What it means that a file can't be opened or created, which the system says of it.
    fn refused(&mut self, error: io::Error) -> Refusal
        ensures { self.new.failures ≡ self.old.failures }
    {
        let why = meaning_of(error.kind());
        self.reason = Some(error);
        why
    }

    /// Counts these failures, too.
    fn count(&mut self, failures: u64)
        ensures { CountsDevice failures self.old.failures self.new.failures }
    {
        self.failures = self.failures.saturating_add(failures);
    }

    /// Counts a call that is refused.
    fn counted<T>(&mut self, answer: Result<T, Refusal>) -> Result<T, Refusal>
        ensures answer { result ≡ answer }
        ensures count { CountsCall result self.old.failures self.new.failures }
    {
        if answer.is_err() {
            self.count(1);
        }
        answer
    }

    /// The file at a path, to be read.
    fn input_at(
        &mut self,
        path: &str,
    ) -> Result<Opened<TellingReader<'a, PatientReader<R::File>>>, Refusal>
        ensures fresh { IfOk result (λ opened. ⟦<TellingReader<'a, PatientReader<R::File>> as Source>⟧.failures opened.file ≡ 0) }
        ensures count { self.new.failures ≡ self.old.failures }
    {
        match File::open(self.rt, path) {
            Ok(file) => {
                let Facts { mode, size } = facts_of(&file);
                let file = PatientReader::new(file);
                let file = TellingReader::new(file, self.line, self.alloc, path, size);
                Ok(Opened { file, mode })
            }
            Err(error) => Err(self.refused(error)),
        }
    }

    /// A new file beside the path, under a name that no file has, where no file is at the path.
    fn draft_at(&mut self, path: &str, mode: u32) -> Result<Draft<'a, R::File>, Refusal>
        ensures fresh { IfOk result (λ draft. draft.failures ≡ 0) }
        ensures count { self.new.failures ≡ self.old.failures }
    {
        if fs::symlink_metadata(self.rt, path).is_ok() {
            return Err(Refusal::Exists);
        }
        self.new_draft(path, mode)
    }

    /// A new file beside the path, under a name that no file has.
    fn new_draft(&mut self, path: &str, mode: u32) -> Result<Draft<'a, R::File>, Refusal>
        ensures fresh { IfOk result (λ draft. draft.failures ≡ 0) }
        ensures count { self.new.failures ≡ self.old.failures }
    {
        for n in 0..MOST_DRAFTS {
            let Ok(name) = draft_name(self.alloc, path, n) else {
                return Err(Refusal::Memory);
            };
            match new_file(self.rt, name.as_str(), mode) {
                Ok(file) => {
                    let file = PatientWriter::new(file);
                    let file = LimitedWriter::new(file, largest_file(self.rt));
                    let file = TellingWriter::new(file, self.line, self.alloc, path);
                    return Ok(Draft {
                        name,
                        file,
                        failures: 0,
                    });
                }
                Err(error) => {
                    let why = self.refused(error);
                    if why != Refusal::Exists {
                        return Err(why);
                    }
                }
            }
        }
        Err(Refusal::Other)
    }

    /// Gives a draft its name, and syncs the name. Of one that is refused nothing is left.
    fn give_draft_its_name(&mut self, path: &str, draft: Draft<'a, R::File>) -> Result<(), Refusal>
        ensures { self.new.failures ≡ self.old.failures }
    {
        let name = draft.name.as_str();
        if let Err(error) = give_name(self.rt, name, path) {
            remove(self.rt, name);
            return Err(self.refused(error));
        }
        if sync_folder(self.rt, path).is_err() {
            self.remove_published(path);
            return Err(Refusal::Other);
        }
        Ok(())
    }

    /// Removes a file that was published, and syncs that.
    fn remove_published(&self, path: &str) {
        remove(self.rt, path);
        // A run that has failed tells its first fault alone.
        let _ = sync_folder(self.rt, path);
    }

    /// Writes a text to the standard output, up to the limit on the size of its file.
    fn write_report(&self, text: &[u8]) -> Result<(), Refusal> {
        self.line.clear();
        let output = PatientWriter::new(io::writer(self.rt));
        let mut output = LimitedWriter::new(output, room_of_output(self.rt));
        match write_flushed(&mut output, text) {
            Ok(()) => Ok(()),
            Err(_) => Err(Refusal::Other),
        }
    }
}

/// A file that is being made.
#[derive(Drop)]
pub struct Draft<'a, F> {
    /// Its own name, beside the one that it is to have.
    name: String,
    file: TellingWriter<'a, LimitedWriter<PatientWriter<F>>>,
    /// How often it couldn't be written.
    failures: u64,
}

impl<F: OpenFile + io::Write> Draft<'_, F> {
    /// Syncs what was written.
    fn sync(&self) -> Result<(), Refusal> {
        match self.file.inner().inner().inner().sync_all() {
            Ok(()) => Ok(()),
            Err(_) => Err(Refusal::Other),
        }
    }
}

impl<'a, F: io::Write> Sink for Draft<'a, F> {
    ghost use Rattle.std.specs.Prelude.{⊤, None};

    ghost taken = { λ _. None };

    ghost failures = { λ d. d.failures };

    ghost may_stall = { λ _. ⊥ };

    ghost is_flushed = { λ _. ⊤ };

    fn write(&mut self, bytes: &[u8]) -> Result<usize, DeviceFault> {
        match self.file.write(bytes) {
            Ok(n) if 0 < n || bytes.is_empty() => Ok(n),
            // Past a limit on its size a file takes nothing more.
            _ => {
                self.failures = self.failures.saturating_add(1);
                Err(DeviceFault)
            }
        }
    }

    fn flush(&mut self) -> Result<(), DeviceFault> {
        match self.file.flush() {
            Ok(()) => Ok(()),
            Err(fault) => {
                self.failures = self.failures.saturating_add(1);
                Err(fault)
            }
        }
    }
}

impl<'a, R: Files + Input + Print> FileSystem for SystemFiles<'a, R>
where
    R::Reader: IsTerminal,
{
    type Input = TellingReader<'a, PatientReader<R::File>>;

    type Typed = TellingReader<'a, PatientReader<R::Reader>>;

    type Draft = Draft<'a, R::File>;

    ghost disk = { λ _. None };

    ghost failures = { λ s. s.failures };

    fn open(
        &mut self,
        path: &str,
    ) -> Result<Opened<TellingReader<'a, PatientReader<R::File>>>, Refusal> {
        let answer = self.input_at(path);
        self.counted(answer)
    }

    fn standard_input(&mut self) -> TellingReader<'a, PatientReader<R::Reader>> {
        let reader = self.rt.reader();
        let is_typed = reader.is_terminal();
        let reader = PatientReader::new(reader);
        if is_typed {
            TellingReader::typed(reader, self.line)
        } else {
            TellingReader::new(reader, self.line, self.alloc, "changes", None)
        }
    }

    fn close(&mut self, file: TellingReader<'a, PatientReader<R::File>>) {
        self.count(file.inner().failures());
    }

    fn close_standard_input(&mut self, input: TellingReader<'a, PatientReader<R::Reader>>) {
        self.count(input.inner().failures());
    }

    fn create(&mut self, path: &str, mode: u32) -> Result<Draft<'a, R::File>, Refusal> {
        let answer = self.draft_at(path, mode);
        self.counted(answer)
    }

    fn sync(&mut self, path: &str, draft: &Draft<'a, R::File>) -> Result<(), Refusal> {
        self.line.update(&Progress::syncing(path));
        self.counted(draft.sync())
    }

    fn publish(&mut self, path: &str, draft: Draft<'a, R::File>) -> Result<(), Refusal> {
        let answer = self.give_draft_its_name(path, draft);
        self.counted(answer)
    }

    fn discard(&mut self, _path: &str, draft: Draft<'a, R::File>) {
        remove(self.rt, draft.name.as_str());
        self.count(draft.failures);
    }

    fn withdraw(&mut self, path: &str) {
        self.remove_published(path);
    }

    fn report(&mut self, text: &[u8]) -> Result<(), Refusal> {
        let answer = self.write_report(text);
        self.counted(answer)
    }

    ghost never_stalls = { λ _ stalls. stalls };
}

/// The name of the draft with this number, beside the path.
fn draft_name(alloc: Global, path: &str, n: u32) -> Result<String, AllocError>
    ensures { IfOk result (λ name. string_bytes name ≡ path.now ++ (codes ".slapkit-" ++ decimal n)) }
{
    format!(in alloc; "{path}.slapkit-{n}")
}

/// What the system's answer means.
fn meaning_of(kind: ErrorKind) -> Refusal
    ensures { result ≡ meant_by kind }
{
    match kind {
        ErrorKind::AlreadyExists => Refusal::Exists,
        ErrorKind::OutOfMemory => Refusal::Memory,
        _ => Refusal::Other,
    }
}

/// What the system says of an open file.
#[derive(Drop)]
struct Facts {
    /// Who may read and write it: its owner alone, where the system doesn't say.
    mode: u32,
    /// Its size. A pipe or a device has none.
    size: Option<u64>,
}

fn facts_of<F: OpenFile>(file: &F) -> Facts {
    facts_in(&file.metadata())
}

/// What the system's answer says of a file.
fn facts_in(told: &io::Result<Metadata>) -> Facts
    ensures mode { result.mode ≡ told_mode told.now }
    ensures size { HasToldSize told.now result.size }
{
    match told {
        Ok(metadata) => Facts {
            mode: metadata.mode() & READ_AND_WRITE,
            size: metadata.is_file().then_some(metadata.len()),
        },
        Err(_) => Facts {
            mode: OWNER_ALONE,
            size: None,
        },
    }
}

/// Makes a file that is written, where no file is.
fn new_file<R: Files>(rt: &R, path: &str, mode: u32) -> io::Result<R::File> {
    OpenOptions::new()
        .write(true)
        .create_new(true)
        .mode(mode)
        .open(rt, path)
}

/// Gives a file another name, which no file has, in place of its own.
fn give_name<R: Files>(rt: &R, name: &str, path: &str) -> io::Result<()> {
    match fs::hard_link(rt, name, path) {
        Ok(()) => {
            if let Err(error) = fs::remove_file(rt, name) {
                remove(rt, path);
                return Err(error);
            }
            Ok(())
        }
        Err(error) if has_no_links(error.kind()) => take_place(rt, name, path),
        Err(error) => Err(error),
    }
}

/// Whether the system refuses a hard link since the file system has none.
fn has_no_links(kind: ErrorKind) -> bool {
    matches!(kind, ErrorKind::PermissionDenied | ErrorKind::Unsupported)
}

/// Gives a file another name without a hard link: the name is taken by an empty file, whose place the whole
/// one takes.
fn take_place<R: Files>(rt: &R, name: &str, path: &str) -> io::Result<()> {
    new_file(rt, path, OWNER_ALONE)?;
    if let Err(error) = fs::rename(rt, name, path) {
        remove(rt, path);
        return Err(error);
    }
    Ok(())
}

/// Removes a file, if the system lets it be removed: a run that has failed tells its first fault alone.
fn remove<R: Files>(rt: &R, path: &str) {
    let _ = fs::remove_file(rt, path);
}

/// Syncs the names in the folder of a file, if the system lets folders be opened and synced.
fn sync_folder<R: Files>(rt: &R, path: &str) -> io::Result<()> {
    let synced = match File::open(rt, folder_of(path)) {
        Ok(folder) => folder.sync_all(),
        Err(error) => Err(error),
    };
    match synced {
        Err(error) if !is_never_synced(error.kind()) => Err(error),
        _ => Ok(()),
    }
}

/// Whether the answer means that this folder can't be opened and synced at all.
fn is_never_synced(kind: ErrorKind) -> bool
    ensures { result ≡ is_never_synced kind }
{
    matches!(
        kind,
        ErrorKind::PermissionDenied | ErrorKind::InvalidInput | ErrorKind::Unsupported
    )
}

/// The folder of a file.
fn folder_of(path: &str) -> &str
    ensures { IsFolderOf path.now result.now }
{
    match path.rsplit_once('/') {
        None => ".",
        Some(("", _)) => "/",
        Some((folder, _)) => folder,
    }
}
