//! The entries of a copy without a parent, and which of their records comes first.

ghost use Rattle.std.specs.Prelude.{◌≡◌, ◌&&◌, IfErr, IfOk, None, Ok, OnOk, cond, true};
ghost use Rattle.dir_names.specs.Keys.{parent_of};
ghost use Rattle.dir_names.specs.Orders.{dn_key_cmp};
ghost use Rattle.dir_tools.specs.CopyOf.{earlier_line};
ghost use Rattle.dir_tools.specs.Inside.Loading.{is_among};
ghost use Rattle.dir_tools.specs.declared.fault.ToolFault.TheVariants as ToolFault;

use crate::ToolFault;
use dir_names::DnKey;
use std::alloc::Global;
use std::collections::BTreeSet;

/// The entries of a copy that have no parent in it, and those below them.
#[derive(Drop)]
pub(super) struct Orphans {
    keys: BTreeSet<DnKey>,
    /// The line of the first record in the text whose parent is missing.
    pub(super) first: Option<u64>,
}

impl Orphans {
    ghost use Rattle.std.specs.Prelude.{Some};
    ghost use Rattle.std.specs.BTreeSet.{IsEmpty, Updates};

    pub(super) fn new(alloc: Global) -> Orphans
        ensures keys { IsEmpty result.keys }
        ensures first { result.first ≡ None }
    {
        Orphans {
            keys: BTreeSet::new(alloc),
            first: None,
        }
    }

    /// Adds an entry that was not put, in the order of keys. The parent of an entry below another orphan
    /// is in the copy, so such an entry is no fault of its own.
    pub(super) fn add(&mut self, alloc: Global, key: DnKey, line: u64) -> Result<(), ToolFault>
        ensures first { OnOk result (self.new.first ≡ cond (is_among self.old.keys (parent_of key)) self.old.first (earlier_line line self.old.first)) }
        ensures keys { OnOk result (Updates dn_key_cmp self.old.keys self.new.keys key true) }
        ensures fault { IfErr result (λ fault. fault ≡ ToolFault.Memory) }
    {
        if self.is_earlier(line) && !self.is_below(alloc, &key)? {
            self.first = Some(line);
        }
        self.keys.insert(key)?;
        Ok(())
    }

    /// Whether the line is before the first one.
    fn is_earlier(&self, line: u64) -> bool
        ensures { earlier_line line self.now.first ≡ cond result (Some line) self.now.first }
    {
        match self.first {
            Some(first) => line < first,
            None => true,
        }
    }

    /// Whether the parent is one of the entries.
    fn is_below(&self, alloc: Global, key: &DnKey) -> Result<bool, ToolFault>
        ensures ok { IfOk result (λ is_below. is_below ≡ is_among self.now.keys (parent_of key.now)) }
        ensures fault { IfErr result (λ fault. fault ≡ ToolFault.Memory) }
    {
        Ok(match key.parent(alloc).map_err(|_| ToolFault::Memory)? {
            Some(parent) => self.keys.contains(&parent),
            None => false,
        })
    }
}
