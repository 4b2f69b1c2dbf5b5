//! The groups of changes that take a run back, and the undo text.

ghost use Rattle.std.specs.Prelude.{◌≡◌, [], ◌∷◌, ◌++◌, IfErr, IfOk, OnErr, OnOk, reverse};
ghost use Rattle.dir_change.specs.UndoText.{group_text, marked_text, undo_text_of};

use crate::Undo;
use dir_ldif::{push_change, push_mark};
use dir_names::Memory;
use std::alloc::Global;
use std::marker::Model;

/// The groups of changes that take back the accepted records of a run, in the records' order.
#[derive(Debug, Drop)]
pub struct History {
    groups: Vec<Undo>,
}

impl Model for History {
    ghost use Rattle.std.specs.Prelude.{List};
    ghost use Rattle.dir_ldif.specs.declared.records.Change.{Change};

    ghost Value = { List (List Change) };

    ghost view = { λ h. h.groups.items };
}

impl History {
    /// The history of no record.
    pub fn new(alloc: Global) -> History
        ensures { result ≡ [] }
    {
        History {
            groups: Vec::new(alloc),
        }
    }

    /// Adds the group of the last accepted record.
    ///
    /// # Errors
    ///
    /// Where memory runs out the group comes back, and the history is as it was.
    pub fn push(&mut self, group: Undo) -> Result<(), Undo>
        ensures ok { OnOk result (self.new ≡ self.old ++ group ∷ []) }
        ensures err { OnErr result (self.new ≡ self.old) }
        ensures value_returned { IfErr result (λ u. u ≡ group) }
    {
        match self.groups.push(group) {
            Ok(()) => Ok(()),
            Err(refused) => Err(refused.value),
        }
    }

    /// The undo text: `version: 1`, an empty line, and the groups, the last accepted record's first. Before each stands its
    /// mark, the comment line `# undo N`, with N from 1.
    pub fn undo_text(&self, alloc: Global) -> Result<Vec<u8>, Memory>
        ensures { IfOk result (λ text. text.items ≡ undo_text_of self.now) }
    {
        let mut text = b"version: 1\n\n".to_vec(alloc)?;
        push_groups(&mut text, self.groups.as_slice())?;
        Ok(text)
    }
}

/// Appends the texts of groups, the last one first, each after its mark.
fn push_groups(out: &mut Vec<u8>, groups: &[Undo]) -> Result<(), Memory>
    ensures { OnOk result (out.new.items ≡ out.old.items ++ marked_text 1 (reverse groups.now)) }
{
    let mut at = groups.len();
    let mut number: u64 = 0;
    while at > 0 {
        at -= 1;
        number += 1;
        push_mark(out, number)?;
        push_group(out, &groups[at])?;
    }
    Ok(())
}

/// Appends the texts of a group's changes.
fn push_group(out: &mut Vec<u8>, group: &Undo) -> Result<(), Memory>
    ensures { OnOk result (out.new.items ≡ out.old.items ++ group_text group.now) }
{
    for change in group.records() {
        push_change(out, change)?;
    }
    Ok(())
}
