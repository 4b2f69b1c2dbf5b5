//! A folder in memory, which tells all that it is asked.

ghost use Rattle.std.specs.Prelude.{◌≡◌, IfOk, string_bytes};
ghost use Rattle.dir_files_tests.specs.Folder.{folder_mode};

use crate::counting::Counting;
use dir_files::{FileSystem, Opened, Refusal};
use dir_ldif::Script;
use dir_tools::Buffer;
use std::alloc::{AllocError, Global};

/// A call of a folder.
#[derive(Drop)]
pub(super) enum Asked {
    Opens(String, Option<Refusal>),
    StandardInput,
    Creates(String, u32, Option<Refusal>),
    Syncs(String, Vec<u8>, Option<Refusal>),
    Publishes(String, Vec<u8>, Option<Refusal>),
    Discards(String),
    Withdraws(String),
    Reports(Vec<u8>, Option<Refusal>),
}

/// A call as contracts see it.
trait IsCall {
    ghost use Rattle.dir_files.specs.Files.{Call};

    ghost call: { Self → Call };
}

impl IsCall for Asked {
    ghost use Rattle.std.specs.Prelude.{Some, string_bytes};
    ghost use Rattle.dir_files.specs.Files as call;
    ghost use Rattle.dir_files_tests.specs.declared.folder.Asked.TheVariants.{Creates, Discards, Opens, Publishes, Reports, StandardInput, Syncs, Withdraws};

    ghost call = { elim [
      | Opens path why ↦ call.opens (string_bytes path) why
      | StandardInput ↦ call.standard_input
      | Creates path mode why ↦ call.creates (string_bytes path) mode why
      | Syncs path text why ↦ call.syncs (string_bytes path) (Some text.items) why
      | Publishes path text why ↦ call.publishes (string_bytes path) (Some text.items) why
      | Discards path ↦ call.discards (string_bytes path)
      | Withdraws path ↦ call.withdraws (string_bytes path)
      | Reports text why ↦ call.reports text.items why
    ] };
}

/// A folder with the files `copy`, `changes` and `config`. No other file can be opened, and those can't be created. A
/// call may be refused that could be done.
#[derive(Drop)]
pub(super) struct Folder<'a> {
    alloc: Global,
    copy: &'a [u8],
    changes: &'a [u8],
    config: &'a [u8],
    typed: &'a [u8],
    // How many calls are done before one is refused; the greatest number: all.
    good: u64,
    calls: Vec<Asked>,
    // A call is missing, since memory ran out.
    lost: bool,
    // How often a call was refused, or a file that came back had failed.
    failures: u64,
}

impl<'a> Folder<'a> {
    ghost use Rattle.std.specs.Prelude.{◌≡◌, IfOk, Some};
    ghost use Rattle.std.specs.Option.{option_copied};
    ghost use Rattle.dir_files.specs.Failures.{CountsCall, CountsDevice};
    ghost use Rattle.dir_files.specs.Files.{Told, opens, refusal_of};
    ghost use Rattle.dir_files_tests.specs.Folder.{folder_text};

    pub(super) fn new(
        alloc: Global,
        copy: &'a [u8],
        changes: &'a [u8],
        typed: &'a [u8],
        good: u64,
    ) -> Folder<'a> {
        Folder {
            alloc,
            copy,
            changes,
            config: b"",
            typed,
            good,
            calls: Vec::new(alloc),
            lost: false,
            failures: 0,
        }
    }

    /// A folder with this text at `config`, which is empty at first.
    pub(super) fn with_config(self, config: &'a [u8]) -> Folder<'a> {
        Folder { config, ..self }
    }

    /// The calls, if none is missing.
    pub(super) fn calls(&self) -> Option<&[Asked]> {
        if self.lost {
            return None;
        }
        Some(self.calls.as_slice())
    }

    fn note(&mut self, call: Asked)
        ensures told { Told (⟦<Folder<'a> as FileSystem>⟧.disk self.old) (⟦<Folder<'a> as FileSystem>⟧.disk self.new) (⟦<Asked as IsCall>⟧.call call) }
        ensures texts { (self.new.copy ≡ self.old.copy) × (self.new.changes ≡ self.old.changes) × (self.new.config ≡ self.old.config) × (self.new.typed ≡ self.old.typed) }
        ensures failures { self.new.failures ≡ self.old.failures }
    {
        if self.calls.push(call).is_err() {
            self.lost = true;
        }
    }

    /// Counts these failures, too.
    fn count(&mut self, failures: u64)
        ensures count { CountsDevice failures self.old.failures self.new.failures }
        ensures same { self.new ≡ record self.old { failures = self.new.failures } }
    {
        self.failures = self.failures.saturating_add(failures);
    }

    /// The answer of a call that is refused for this reason, if there is one, which counts.
    fn answer(&mut self, why: Option<Refusal>) -> Result<(), Refusal>
        ensures answer { refusal_of result ≡ why }
        ensures count { CountsCall result self.old.failures self.new.failures }
        ensures same { self.new ≡ record self.old { failures = self.new.failures } }
    {
        match why {
            None => Ok(()),
            Some(why) => {
                self.count(1);
                Err(why)
            }
        }
    }

    /// Why the next call that could be done is refused, if it is.
    fn refusal(&mut self) -> Option<Refusal>
        ensures { self.new ≡ record self.old { good = self.new.good } }
    {
        if self.good == 0 {
            return Some(Refusal::Other);
        }
        if self.good != u64::MAX {
            self.good -= 1;
        }
        None
    }

    fn note_opened(&mut self, path: &str, why: Option<Refusal>)
        ensures told { Told (⟦<Folder<'a> as FileSystem>⟧.disk self.old) (⟦<Folder<'a> as FileSystem>⟧.disk self.new) (opens path.now why) }
        ensures texts { (self.new.copy ≡ self.old.copy) × (self.new.changes ≡ self.old.changes) × (self.new.config ≡ self.old.config) × (self.new.typed ≡ self.old.typed) }
        ensures failures { self.new.failures ≡ self.old.failures }
    {
        match String::from_str(self.alloc, path) {
            Ok(name) => self.note(Asked::Opens(name, why)),
            Err(_) => self.lost = true,
        }
    }

    fn text_at(&self, path: &str) -> Option<&'a [u8]>
        ensures { option_copied result ≡ folder_text self.now.copy.now self.now.changes.now self.now.config.now path.now }
    {
        if path == "copy" {
            Some(self.copy)
        } else if path == "changes" {
            Some(self.changes)
        } else if path == "config" {
            Some(self.config)
        } else {
            None
        }
    }
}

impl<'a> FileSystem for Folder<'a> {
    ghost use Rattle.std.specs.Prelude.{None, Some, if◌then◌else◌, map};
    ghost use Rattle.dir_files_tests.specs.Folder.{folder_mode, folder_text};

    type Input = Counting<Script<'a>>;

    type Typed = Counting<Script<'a>>;

    type Draft = Counting<Buffer>;

    ghost disk = { λ f. if f.lost then None else Some (record { calls = map ⟦<Asked as IsCall>⟧.call f.calls.items; text_at = folder_text f.copy.now f.changes.now f.config.now; mode_at = folder_mode; typed = f.typed.now }) };

    ghost failures = { λ f. f.failures };

    fn open(&mut self, path: &str) -> Result<Opened<Counting<Script<'a>>>, Refusal> {
        match self.text_at(path) {
            Some(text) => {
                self.note_opened(path, None);
                Ok(Opened {
                    file: Counting::new(Script::new(text)),
                    mode: mode_at(path),
                })
            }
            None => {
                self.note_opened(path, Some(Refusal::Other));
                self.count(1);
                Err(Refusal::Other)
            }
        }
    }

    fn standard_input(&mut self) -> Counting<Script<'a>> {
        self.note(Asked::StandardInput);
        Counting::new(Script::new(self.typed))
    }

    fn close(&mut self, file: Counting<Script<'a>>) {
        self.count(file.failures);
    }

    fn close_standard_input(&mut self, input: Counting<Script<'a>>) {
        self.count(input.failures);
    }

    fn create(&mut self, path: &str, mode: u32) -> Result<Counting<Buffer>, Refusal> {
        let why = if path == "copy" || path == "changes" || path == "config" {
            Some(Refusal::Exists)
        } else {
            self.refusal()
        };
        match String::from_str(self.alloc, path) {
            Ok(name) => self.note(Asked::Creates(name, mode, why)),
            Err(_) => self.lost = true,
        }
        match why {
            None => Ok(Counting::new(Buffer::new(self.alloc))),
            Some(why) => {
                self.count(1);
                Err(why)
            }
        }
    }

    fn sync(&mut self, path: &str, draft: &Counting<Buffer>) -> Result<(), Refusal> {
        let why = self.refusal();
        match copied(self.alloc, path, draft.device.as_slice()) {
            Ok((name, text)) => self.note(Asked::Syncs(name, text, why)),
            Err(_) => self.lost = true,
        }
        self.answer(why)
    }

    fn publish(&mut self, path: &str, draft: Counting<Buffer>) -> Result<(), Refusal> {
        let why = self.refusal();
        match copied(self.alloc, path, draft.device.as_slice()) {
            Ok((name, text)) => self.note(Asked::Publishes(name, text, why)),
            Err(_) => self.lost = true,
        }
        self.answer(why)
    }

    fn discard(&mut self, path: &str, draft: Counting<Buffer>) {
        match String::from_str(self.alloc, path) {
            Ok(name) => self.note(Asked::Discards(name)),
            Err(_) => self.lost = true,
        }
        self.count(draft.failures);
    }

    fn withdraw(&mut self, path: &str) {
        match String::from_str(self.alloc, path) {
            Ok(name) => self.note(Asked::Withdraws(name)),
            Err(_) => self.lost = true,
        }
    }

    fn report(&mut self, text: &[u8]) -> Result<(), Refusal> {
        let why = self.refusal();
        match text.to_vec(self.alloc) {
            Ok(copy) => self.note(Asked::Reports(copy, why)),
            Err(_) => self.lost = true,
        }
        self.answer(why)
    }

    ghost never_stalls = { λ _ stalls. stalls };
}

/// Copies of a path and of a text.
fn copied(alloc: Global, path: &str, text: &[u8]) -> Result<(String, Vec<u8>), AllocError>
    ensures { IfOk result (λ both. (string_bytes both.0 ≡ path.now) × (both.1.items ≡ text.now)) }
{
    let path = String::from_str(alloc, path)?;
    let text = text.to_vec(alloc)?;
    Ok((path, text))
}

/// The mode of the file at a path.
fn mode_at(path: &str) -> u32
    ensures { result ≡ folder_mode path.now }
{
    if path == "copy" { 0o640 } else { 0o644 }
}
