//! The files of a run: a file system as the program needs it.

ghost use Rattle.std.specs.Prelude.{◌≡◌, ℕ, [], IfOk, IfSome, Option, Some};
ghost use Rattle.dir_files.specs.Failures.{CountsCall, CountsDevice};
ghost use Rattle.dir_files.specs.Files.{Disk, Told, refusal_of};
ghost use Rattle.dir_files.specs.Files.{creates, discards, opens, publishes, reports, standard_input, syncs, withdraws};

use dir_ldif::{Sink, Source};

/// Why a file system doesn't do what it is asked.
#[derive(Clone, Copy, PartialEq, Eq, Debug)]
pub enum Refusal {
    /// A file that was to be made exists already.
    Exists,
    /// Memory ran out.
    Memory,
    /// Any other reason.
    Other,
}

/// A file that is open to be read.
#[derive(Drop)]
pub struct Opened<F> {
    pub file: F,
    /// The bits of its mode that say who may read and write it.
    pub mode: u32,
}

/// A file system, and the standard streams.
///
/// A file is made in steps: it is created as a draft, which has a name of its own; its text is written, and
/// then synced, so that it outlasts a loss of power; and only then is it published under the name that it is to
/// have.
pub trait FileSystem {
    /// A file that is read.
    type Input: Source + Drop;

    /// The standard input.
    type Typed: Source + Drop;

    /// A file that is being made.
    type Draft: Sink + Drop;

    // Its calls so far and the texts that it has, where it tells them.
    ghost disk: { Self → Option Disk };

    // How often it has refused a call, or a device that was handed back to it had failed. The count stops at a greatest number.
    ghost failures: { Self → ℕ };

    /// Opens a file to be read.
    fn open(&mut self, path: &str) -> Result<Opened<Self::Input>, Refusal>
        ensures told { Told (disk self.old) (disk self.new) (opens path.now (refusal_of result)) }
        ensures text { IfOk result (λ opened. IfSome (disk self.new) (λ d. Self.Input.left opened.file ≡ d.text_at path.now)) }
        ensures mode { IfOk result (λ opened. IfSome (disk self.new) (λ d. opened.mode ≡ d.mode_at path.now)) }
        ensures count { CountsCall result (failures self.old) (failures self.new) }
        ensures fresh { IfOk result (λ opened. Self.Input.failures opened.file ≡ 0) };

    /// Opens the standard input.
    fn standard_input(&mut self) -> Self::Typed
        ensures told { Told (disk self.old) (disk self.new) standard_input }
        ensures text { IfSome (disk self.new) (λ d. Self.Typed.left result ≡ Some d.typed) }
        ensures count { failures self.new ≡ failures self.old }
        ensures fresh { Self.Typed.failures result ≡ 0 };

    /// Takes a file back that was read.
    fn close(&mut self, file: Self::Input)
        ensures told { disk self.new ≡ disk self.old }
        ensures count { CountsDevice (Self.Input.failures file) (failures self.old) (failures self.new) };

    /// Takes the standard input back.
    fn close_standard_input(&mut self, input: Self::Typed)
        ensures told { disk self.new ≡ disk self.old }
        ensures count { CountsDevice (Self.Typed.failures input) (failures self.old) (failures self.new) };

    /// Creates the draft of a file that is to be made at this path, where no file is. Of the bits of the mode
    /// it has those that the system leaves to a new file.
    fn create(&mut self, path: &str, mode: u32) -> Result<Self::Draft, Refusal>
        ensures told { Told (disk self.old) (disk self.new) (creates path.now mode (refusal_of result)) }
        ensures empty { IfOk result (λ draft. IfSome (disk self.new) (λ d. Self.Draft.taken draft ≡ Some [])) }
        ensures count { CountsCall result (failures self.old) (failures self.new) }
        ensures fresh { IfOk result (λ draft. Self.Draft.failures draft ≡ 0) };

    /// Syncs what was written into the draft of the file at this path.
    fn sync(&mut self, path: &str, draft: &Self::Draft) -> Result<(), Refusal>
        ensures told { Told (disk self.old) (disk self.new) (syncs path.now (Self.Draft.taken draft.now) (refusal_of result)) }
        ensures count { CountsCall result (failures self.old) (failures self.new) };

    /// Gives a draft its name, and syncs the name. A file that has come there is left as it is. Of a draft that is refused nothing is left.
    fn publish(&mut self, path: &str, draft: Self::Draft) -> Result<(), Refusal>
        ensures told { Told (disk self.old) (disk self.new) (publishes path.now (Self.Draft.taken draft) (refusal_of result)) }
        ensures count { CountsCall result (failures self.old) (failures self.new) };

    /// Removes the draft of the file at this path.
    fn discard(&mut self, path: &str, draft: Self::Draft)
        ensures told { Told (disk self.old) (disk self.new) (discards path.now) }
        ensures count { CountsDevice (Self.Draft.failures draft) (failures self.old) (failures self.new) };

    /// Removes a file that was published at this path.
    fn withdraw(&mut self, path: &str)
        ensures told { Told (disk self.old) (disk self.new) (withdraws path.now) }
        ensures count { failures self.new ≡ failures self.old };

    /// Writes a report to the standard output.
    fn report(&mut self, text: &[u8]) -> Result<(), Refusal>
        ensures told { Told (disk self.old) (disk self.new) (reports text.now (refusal_of result)) }
        ensures count { CountsCall result (failures self.old) (failures self.new) };

    // A draft takes a byte of every text that has one, or fails.
    ghost never_stalls: { (draft : Self.Draft) → Self.Draft.may_stall draft → ⊥ };
}
