//! A run there and back in memory: it shows in one call what the headline says.

ghost use Rattle.std.specs.Prelude.{◌≡◌, IfErr, IfOk, Ok, Some, [], false};
ghost use Rattle.dir_tools.specs.AccessAsBefore.{HaveSameAccess};
ghost use Rattle.dir_tools.specs.Headline.{canonical_copy_of, terms};
ghost use Rattle.dir_tools.specs.Inside.RunInMemory.{IsRunInMemory};
ghost use Rattle.dir_tools.specs.RoundTrip.{IsFaultThere, IsRoundTrip, IsRoundTripFault};

use crate::memory::{Buffer, Text};
use crate::run::{ModifyOptions, Summary};
use crate::{ToolFault, access_is_as_before, headline, run_modify};
use dir_names::Schema;
use std::alloc::Global;

/// What a run there and back gives.
#[derive(Drop)]
pub struct RoundTrip {
    /// The numbers of the run there.
    pub there: Summary,
    /// The numbers of the run back.
    pub back: Summary,
    /// The new copy of the run back.
    pub copy: Vec<u8>,
}

/// Runs changes on a copy in memory, and then the undo text of that run on its new copy. If both runs
/// come to their ends, the second refuses nothing, and its new copy is the canonical text of the first
/// copy, on which each question of access has the same report as on the first copy itself.
///
/// # Errors
///
/// The fault of the run there. The run back has none, but that memory may run out, also as a writer's
/// fault, or that a text has a byte for each of the 2^40 read calls.
pub fn run_there_and_back(
    alloc: Global,
    schema: &Schema,
    suffix: &[u8],
    options: ModifyOptions,
    copy: &[u8],
    changes: &[u8],
) -> Result<RoundTrip, ToolFault>
    ensures taken_back { IfOk result (λ trip. (trip.back.refused ≡ 0) × (canonical_copy_of (terms schema.now suffix.now options) copy.now ≡ Ok trip.copy.items)) }
    ensures access { IfOk result (λ trip. HaveSameAccess (terms schema.now suffix.now options) copy.now trip.copy.items) }
    ensures runs { IfOk result (IsRoundTrip (terms schema.now suffix.now options) copy.now changes.now) }
    ensures fault { IfErr result (IsRoundTripFault (terms schema.now suffix.now options) copy.now changes.now) }
{
    let written = ModifyOptions {
        go_on: options.go_on,
        dry: false,
        verbose: options.verbose,
        last: options.last,
    };
    let whole = ModifyOptions {
        last: None,
        ..written
    };
    headline();
    access_is_as_before();
    let there = match run_in_memory(alloc, schema, suffix, written, copy, changes) {
        Ok(there) => there,
        Err(fault) => return Err(fault),
    };
    let new = there.out.as_slice();
    let undo = there.undo.as_slice();
    match run_in_memory(alloc, schema, suffix, whole, new, undo) {
        Ok(back) => Ok(RoundTrip {
            there: there.summary,
            back: back.summary,
            copy: back.out,
        }),
        Err(fault) => Err(fault),
    }
}

/// What a run wrote into memory, and its numbers.
#[derive(Drop)]
struct RunInMemory {
    undo: Vec<u8>,
    out: Vec<u8>,
    summary: Summary,
}

fn run_in_memory(
    alloc: Global,
    schema: &Schema,
    suffix: &[u8],
    options: ModifyOptions,
    copy: &[u8],
    changes: &[u8],
) -> Result<RunInMemory, ToolFault>
    requires { options.dry ≡ false }
    ensures ok { IfOk result (IsRunInMemory (terms schema.now suffix.now options) copy.now changes.now) }
    ensures fault { IfErr result (IsFaultThere (terms schema.now suffix.now options) copy.now changes.now) }
{
    let mut copy = Text::new(copy);
    let mut changes = Text::new(changes);
    let mut undo = Buffer::new(alloc);
    let mut out = Buffer::new(alloc);
    let mut report = Buffer::new(alloc);
    match run_modify(
        alloc,
        schema,
        suffix,
        options,
        &mut copy,
        &mut changes,
        &mut undo,
        &mut out,
        &mut report,
    ) {
        Ok(summary) => Ok(RunInMemory {
            undo: undo.into_vec(),
            out: out.into_vec(),
            summary,
        }),
        Err(fault) => Err(fault),
    }
}
