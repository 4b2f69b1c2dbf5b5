//! A copy of a directory: read from LDIF text, and written as its canonical text.

mod loading;
mod orphans;

ghost use Rattle.std.specs.Prelude.{◌≡◌, ◌⊎◌, Err, IfErr, IfOk, IfSome, Ok, OnOk};
ghost use Rattle.dir_ldif.specs.Device.{HasFailed};
ghost use Rattle.dir_tools.specs.Canonical.{canonical_of};
ghost use Rattle.dir_tools.specs.CopyOf.{copy_of, empty_copy};
ghost use Rattle.dir_tools.specs.CopyFaults.{HasNoEntries, HasRdn, IsCopyFaultCause};
ghost use Rattle.dir_tools.specs.CompleteRecords.{CompleteRecordsLoad, GaveBytes, IsReaderFault, answers_after};
ghost use Rattle.dir_tools.specs.Writing.{WroteCopy};
ghost use Rattle.dir_tools.specs.declared.fault.Output.TheVariants as Output;
ghost use Rattle.dir_tools.specs.declared.fault.ToolFault.TheVariants as ToolFault;
ghost use Rattle.dir_tree.specs.WellFormed.{IsWellFormed, IsWithinLimits};

use crate::canonical::canonical_text;
use crate::write::write_text;
use crate::{Output, ToolFault};
use dir_ldif::{RecordReader, Sink, Source};
use dir_names::Schema;
use dir_tree::Directory;
use loading::{Loading, ended};
use std::alloc::Global;

/// Reads a copy of a directory into `empty`, whose map is empty. All records are content records, in
/// any order; each entry is completed by the values of its own RDN.
///
/// # Errors
///
/// The first of these, in the order of the text: a record's own fault; `BadChangetype` for a change
/// record; 32 for a name without a key, or outside the suffix; 68 for the name of an earlier record; 21,
/// 20 and 19 for its values; the fault in which the text ends. Then 32 for the first record whose parent
/// is missing. A read fault and out of memory come where they are met, and `TooManyTurns` where the text
/// has at least as many bytes as a reader has read calls.
pub fn read_copy<R: Source, D: Directory>(
    alloc: Global,
    schema: &Schema,
    empty: D,
    copy: &mut R,
) -> Result<D, ToolFault>
where
    D: Drop,
    ensures suffix { IfOk result (λ d. (D.state d).suffix ≡ (D.state empty).suffix) }
    ensures reads { IfOk result (λ d. HasNoEntries (D.state empty) → IfSome (R.left copy.old) (λ text. copy_of schema.now (D.state empty).suffix text ≡ Ok (D.state d))) }
    ensures sound { IfOk result (λ d. HasNoEntries (D.state empty) → HasRdn (D.state empty).suffix → IsWellFormed schema.now (D.state d) × IsWithinLimits (D.state d)) }
    ensures unfailed { OnOk result (R.failures copy.new ≡ R.failures copy.old) }
    ensures blamed { IfErr result (IsCopyFaultCause schema.now (D.state empty) (R.left copy.old) (R.failures copy.old) (R.failures copy.new)) }
    ensures settled { IfErr result (λ fault. IsReaderFault fault → HasNoEntries (D.state empty) → GaveBytes (R.left copy.old) (R.left copy.new)
        (λ bytes. CompleteRecordsLoad schema.now (empty_copy (D.state empty).suffix) (answers_after schema.now bytes))) }
{
    let mut loading = Loading::new(alloc, empty);
    let mut records = match RecordReader::new(alloc, schema, copy) {
        Ok(records) => records,
        Err(fault) => return Err(ended(fault)),
    };
    let answer = loading.take_records(alloc, schema, &mut records);
    records.into_source();
    match answer {
        Ok(()) => loading.finish(alloc),
        Err(fault) => Err(fault),
    }
}

/// Writes the canonical text of a directory, built whole before its first byte is written.
///
/// # Errors
///
/// A write fault names `out`.
pub fn write_copy<D: Directory, W: Sink>(
    alloc: Global,
    directory: &D,
    out: &mut W,
) -> Result<(), ToolFault>
    ensures text { WroteCopy result (W.taken out.old, W.taken out.new) (canonical_of (D.state directory.now)) }
    ensures unfailed { OnOk result (W.failures out.new ≡ W.failures out.old) }
    ensures flushed { OnOk result (W.is_flushed out.new) }
    ensures cause { result ≡ Err (ToolFault.Write Output.Out) → HasFailed (W.failures out.old) (W.failures out.new) ⊎ W.may_stall out.new }
{
    let Ok(text) = canonical_text(alloc, directory) else {
        return Err(ToolFault::Memory);
    };
    write_text(out, text.as_slice(), Output::Out)
}
