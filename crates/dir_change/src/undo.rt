//! The changes that take one change back.

ghost use Rattle.std.specs.Prelude.{◌≡◌, [], ◌∷◌, IfOk};
ghost use Rattle.dir_change.specs.Undo.{modify_if_any};

use dir_ldif::{Change, ChangeKind, Mod, Mods};
use dir_names::{Dn, Memory};
use std::alloc::Global;
use std::marker::Model;

/// The changes that take one change back, in the order in which they are to be applied.
#[derive(Debug, Drop)]
pub struct Undo {
    records: Vec<Change>,
}

impl Model for Undo {
    ghost use Rattle.std.specs.Prelude.{List};
    ghost use Rattle.dir_ldif.specs.declared.records.Change.{Change};

    ghost Value = { List Change };

    ghost view = { λ u. u.records.items };
}

impl Undo {
    pub fn records(&self) -> &[Change]
        ensures { result.now ≡ self.now }
    {
        self.records.as_slice()
    }

    pub(crate) fn new(records: Vec<Change>) -> Undo
        ensures { result ≡ records.items }
    {
        Undo { records }
    }

    /// A modify of this name, if there is a modification.
    pub(crate) fn modify(alloc: Global, dn: Dn, mods: Vec<Mod>) -> Result<Undo, Memory>
        ensures { IfOk result (λ u. u ≡ modify_if_any dn mods.items) }
    {
        if mods.is_empty() {
            return Ok(Undo::new(Vec::new(alloc)));
        }
        let kind = ChangeKind::Modify(Mods::new(mods));
        Undo::one(alloc, Change { dn, kind })
    }

    /// The change, and then those of the undo.
    pub(crate) fn with_first(self, change: Change) -> Result<Undo, Memory>
        ensures { IfOk result (λ u. u ≡ change ∷ self) }
    {
        let mut records = self.records;
        records.insert(0, change)?;
        Ok(Undo::new(records))
    }

    pub(crate) fn one(alloc: Global, change: Change) -> Result<Undo, Memory>
        ensures { IfOk result (λ u. u ≡ change ∷ []) }
    {
        let mut records = Vec::with_capacity(alloc, 1)?;
        records.push(change)?;
        Ok(Undo::new(records))
    }
}
