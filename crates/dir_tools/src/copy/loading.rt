//! A copy as far as it was read.

ghost use Rattle.std.specs.Prelude.{◌≡◌, Err, IfErr, IfOk, None, Ok, OnOk, is_some, true};
ghost use Rattle.dir_change.specs.Refusals.{entry_refusal};
ghost use Rattle.dir_tools.specs.Inside.Loading.{IsNotMade, IsNotPut, IsPut, copy_fault};
ghost use Rattle.dir_tools.specs.CompleteRecords.{CompleteRecordsLoad, GaveBytesTo, IsReaderFault};
ghost use Rattle.dir_tools.specs.ReadCalls.{GaveAtLeast};
ghost use Rattle.dir_ldif.specs.declared.faults.StreamFault.TheVariants as StreamFault;
ghost use Rattle.dir_tools.specs.declared.fault.Cause.TheVariants as Cause;
ghost use Rattle.dir_tools.specs.declared.fault.ToolFault.TheVariants as ToolFault;
ghost use Rattle.dir_tree.specs.Dir.{entry_at};

use super::orphans::Orphans;
use crate::taking::{End, Taker, take_records};
use crate::{Cause, Input, ToolFault};
use dir_change::{Refusal, ResultCode};
use dir_ldif::{Record, RecordFault, RecordReader, Source, StreamFault};
use dir_names::{Dn, DnKey, Lines, NameFault, Schema};
use dir_tree::{Directory, Entry, EntryFault, EntryMaker, NotAdded, own_rdns};
use std::alloc::Global;
use std::collections::BTreeMap;

/// An entry with more lines than this is large.
const MOST_LINES: usize = 64;

/// An entry whose values have more bytes than this is large.
const MOST_BYTES: usize = 4096;

/// A copy as far as it was read: the entries whose parents were there, and those that wait for theirs.
#[derive(Drop)]
pub(super) struct Loading<D: Directory + Drop> {
    directory: D,
    waiting: BTreeMap<DnKey, Waiting>,
    maker: EntryMaker,
}

/// An entry that came before its parent, and its line.
#[derive(Drop)]
struct Waiting {
    line: u64,
    entry: Entry,
}

impl<D: Directory + Drop> Loading<D> {
    ghost use Rattle.std.specs.Prelude.{◌≡◌, IfErr, IfOk, IfSome, None, Ok, OnOk, true};
    ghost use Rattle.std.specs.BTreeMap.{IsEmpty, get};
    ghost use Rattle.dir_ldif.specs.Reader.{IsReading, answers_to_come, schema_of, source_of, turns_left};
    ghost use Rattle.dir_names.specs.Below.{is_at_or_below};
    ghost use Rattle.dir_names.specs.NameKeys.{name_key};
    ghost use Rattle.dir_names.specs.Orders.{dn_key_cmp};
    ghost use Rattle.dir_tree.specs.Dir.{IsClosed, entry_at};
    ghost use Rattle.dir_tools.specs.CopyOf.{LoadedCopy, whole_directory, with_content, with_record};
    ghost use Rattle.dir_tools.specs.Inside.Loading.{IsCopyFault, IsLoaded, IsNotPut, IsRecordFault, KeepsSound, LoadsOver, LoadsTo, RefusesPlace, StopsLoading, with_put};

    pub(super) fn new(alloc: Global, directory: D) -> Loading<D>
        ensures directory { result.directory ≡ directory }
        ensures waiting { IsEmpty result.waiting }
    {
        Loading {
            directory,
            waiting: BTreeMap::new(alloc),
            maker: EntryMaker::new(alloc),
        }
    }

    /// Takes the records of the copy to their end.
    pub(super) fn take_records<S: Source + Drop>(
        &mut self,
        alloc: Global,
        schema: &Schema,
        records: &mut RecordReader<'_, S>,
    ) -> Result<(), ToolFault>
        requires reading { IsReading records.old }
        requires schema { schema_of records.old ≡ schema.now }
        ensures suffix { OnOk result ((D.state self.new.directory).suffix ≡ (D.state self.old.directory).suffix) }
        ensures order { OnOk result (KeepsSound D.state schema.now self.old self.new) }
        ensures reads { OnOk result (LoadsOver D.state schema.now (answers_to_come S.left records.old) self.old self.new) }
        ensures blamed { IfErr result (StopsLoading D.state schema.now (answers_to_come S.left records.old) (S.failures (source_of records.old)) (S.failures (source_of records.new)) self.old) }
        ensures settled { IfErr result (λ fault. IsReaderFault fault → (start : LoadedCopy) → IsLoaded D.state start self.old → GaveBytesTo S.left records.old records.new (CompleteRecordsLoad schema.now start)) }
        ensures turns { result ≡ Err (ToolFault.BadCopy 0 (Cause.Ended StreamFault.TooManyTurns)) → GaveAtLeast (S.left (source_of records.old)) (S.left (source_of records.new)) (turns_left records.old) }
        ensures unfailed { OnOk result (S.failures (source_of records.new) ≡ S.failures (source_of records.old)) }
        ensures same { S.is_same (source_of records.old) (source_of records.new) }
    {
        match take_records(self, alloc, schema, records) {
            End::AtEnd | End::Enough => Ok(()),
            End::TextFault(fault) => Err(ended(fault)),
            End::TakeFault(fault) => Err(fault),
        }
    }

    fn take_entry(
        &mut self,
        alloc: Global,
        schema: &Schema,
        line: u64,
        name: Dn,
        lines: Lines,
    ) -> Result<(), ToolFault>
        ensures suffix { OnOk result ((D.state self.new.directory).suffix ≡ (D.state self.old.directory).suffix) }
        ensures reads { OnOk result ((m : LoadedCopy) → IsLoaded D.state m self.old → LoadsTo D.state (with_content schema.now m line name lines (name_key schema.now name)) self.new) }
        ensures fault { IfErr result IsRecordFault }
        ensures cause { IfErr result (λ fault. (m : LoadedCopy) → IsLoaded D.state m self.old → IsCopyFault (with_content schema.now m line name lines (name_key schema.now name)) fault) }
    {
        let key = match name.key(alloc, schema) {
            Ok(key) => key,
            Err(NameFault::Memory) => return Err(ToolFault::Memory),
            Err(_) => return Err(refused(line, ResultCode::NoSuchObject)),
        };
        if let Some(code) = self.refusal_of_place(&key, &lines) {
            return Err(refused(line, code));
        }
        let own = own_rdns(name, key == *self.directory.suffix());
        match self.maker.make(alloc, schema, own, lines) {
            Ok(entry) => self.put_or_keep(alloc, line, key, entry),
            Err(fault) => Err(not_made(&self.directory, line, &key, fault)),
        }
    }

    /// What an entry of this key and these lines is refused with for its place, as far as that is seen before it is made: it is outside the suffix, another
    /// waits there, or it is large and its place is taken.
    fn refusal_of_place(&self, key: &DnKey, lines: &Lines) -> Option<ResultCode>
        ensures refused { IfSome result (RefusesPlace D.state self.now key.now) }
        ensures inside { result ≡ None → is_at_or_below key.now (D.state self.now.directory).suffix ≡ true }
        ensures waits { result ≡ None → get dn_key_cmp self.now.waiting key.now ≡ None }
    {
        if !key.at_or_below(self.directory.suffix()) {
            return Some(ResultCode::NoSuchObject);
        }
        if self.waiting.contains_key(key) || is_taken_from_large(&self.directory, key, lines) {
            return Some(ResultCode::EntryAlreadyExists);
        }
        None
    }

    /// Puts an entry below its parent, or lets it wait for that.
    fn put_or_keep(
        &mut self,
        alloc: Global,
        line: u64,
        key: DnKey,
        entry: Entry,
    ) -> Result<(), ToolFault>
        requires { get dn_key_cmp self.old.waiting key ≡ None }
        ensures suffix { OnOk result ((D.state self.new.directory).suffix ≡ (D.state self.old.directory).suffix) }
        ensures reads { OnOk result ((m : LoadedCopy) → IsLoaded D.state m self.old → (entry_at m.entries key ≡ None) × IsLoaded D.state (with_put m line key entry) self.new) }
        ensures fault { IfErr result (IsNotPut line (entry_at (D.state self.old.directory) key)) }
    {
        if let Some(entry) = put(alloc, &mut self.directory, line, &key, entry)? {
            drop(self.waiting.insert(key, Waiting { line, entry })?);
        }
        Ok(())
    }

    /// The whole directory, once each entry that waited is put below its parent. In the order of keys
    /// parents come before their children.
    pub(super) fn finish(self, alloc: Global) -> Result<D, ToolFault>
        ensures suffix { IfOk result (λ d. (D.state d).suffix ≡ (D.state self.directory).suffix) }
        ensures reads { IfOk result (λ d. (m : LoadedCopy) → IsLoaded D.state m self → (whole_directory m ≡ Ok (D.state d)) × (m.entries ≡ D.state d) × IsClosed (D.state d)) }
        ensures fault { IfErr result IsRecordFault }
        ensures cause { IfErr result (λ fault. (m : LoadedCopy) → IsLoaded D.state m self → IsCopyFault (whole_directory m) fault) }
    {
        let Loading {
            mut directory,
            waiting,
            maker,
        } = self;
        drop(maker);
        let mut orphans = Orphans::new(alloc);
        for (key, waiting) in waiting {
            let Waiting { line, entry } = waiting;
            // No entry waits at a place that is taken, so that none is refused here.
            if put(alloc, &mut directory, line, &key, entry)?.is_some() {
                orphans.add(alloc, key, line)?;
            }
        }
        match orphans.first {
            Some(line) => Err(refused(line, ResultCode::NoSuchObject)),
            None => Ok(directory),
        }
    }
}

impl<D: Directory + Drop> Taker for Loading<D> {
    ghost use Rattle.dir_tools.specs.Inside.Loading.{TakesRecord};

    ghost take_gives = { TakesRecord D.state };

    ghost counted = { λ _. 0 };

    fn take(
        &mut self,
        alloc: Global,
        schema: &Schema,
        line: u64,
        found: Result<Record, RecordFault>,
    ) -> Result<bool, ToolFault> {
        match found {
            Ok(Record::Content { dn, lines }) => {
                match self.take_entry(alloc, schema, line, dn, lines) {
                    Ok(()) => Ok(true),
                    Err(fault) => Err(fault),
                }
            }
            Ok(Record::Change(_)) => Err(ToolFault::BadCopy(
                line,
                Cause::Fault(RecordFault::BadChangetype),
            )),
            Err(fault) => Err(ToolFault::BadCopy(line, Cause::Fault(fault))),
        }
    }
}

/// Why an entry that can't be made is not taken. A place that is taken is told before a fault of the entry.
fn not_made<D: Directory>(directory: &D, line: u64, key: &DnKey, fault: EntryFault) -> ToolFault
    ensures { IsNotMade line (entry_at (D.state directory.now) key.now) (entry_refusal fault) result }
{
    if directory.get(key).is_some() {
        return refused(line, ResultCode::EntryAlreadyExists);
    }
    match Refusal::from(fault) {
        Refusal::Code(code) => refused(line, code),
        Refusal::Memory => ToolFault::Memory,
    }
}

/// Whether the place of a large entry is taken, so that it is not made in vain. That of another is found once, by `put`.
fn is_taken_from_large<D: Directory>(directory: &D, key: &DnKey, lines: &Lines) -> bool
    ensures { result ≡ true → is_some (entry_at (D.state directory.now) key.now) ≡ true }
{
    is_large(lines) && directory.get(key).is_some()
}

/// Whether lines are many or have many bytes.
fn is_large(lines: &Lines) -> bool {
    let lines = lines.as_slice();
    if lines.len() > MOST_LINES {
        return true;
    }
    let mut bytes: usize = 0;
    for (_, value) in lines {
        bytes = bytes.saturating_add(value.as_slice().len());
    }
    bytes > MOST_BYTES
}

/// Puts an entry into a directory. It comes back where its parent is missing.
fn put<D: Directory>(
    alloc: Global,
    directory: &mut D,
    line: u64,
    key: &DnKey,
    entry: Entry,
) -> Result<Option<Entry>, ToolFault>
    ensures suffix { (D.state directory.new).suffix ≡ (D.state directory.old).suffix }
    ensures free { OnOk result (entry_at (D.state directory.old) key.now ≡ None) }
    ensures put { IfOk result (IsPut key.now entry (D.state directory.old) (D.state directory.new)) }
    ensures fault { IfErr result (IsNotPut line (entry_at (D.state directory.old) key.now)) }
{
    match directory.add(alloc, key, entry) {
        Ok(()) => Ok(None),
        Err(NotAdded::NoParent(entry)) => Ok(Some(entry)),
        Err(NotAdded::Taken) => Err(refused(line, ResultCode::EntryAlreadyExists)),
        Err(NotAdded::Memory) => Err(ToolFault::Memory),
    }
}

/// What a fault that ends a copy's text means.
pub(super) fn ended(fault: StreamFault) -> ToolFault
    ensures { result ≡ copy_fault fault }
{
    match fault {
        StreamFault::Read => ToolFault::Read(Input::Copy),
        StreamFault::Memory => ToolFault::Memory,
        fault => ToolFault::BadCopy(0, Cause::Ended(fault)),
    }
}

fn refused(line: u64, code: ResultCode) -> ToolFault
    ensures { result ≡ ToolFault.BadCopy line (Cause.Code code) }
{
    ToolFault::BadCopy(line, Cause::Code(code))
}
