//! The records of LDIF: content records and change records.

ghost use Rattle.std.specs.Prelude.{◌≡◌};

mod checking;

use dir_names::{Description, Dn, Lines, Rdn, Texts};
use std::marker::Model;

/// A record of LDIF: an entry's content, or a change (RFC 2849).
#[derive(Debug, Drop)]
pub enum Record {
    Content { dn: Dn, lines: Lines },
    Change(Change),
}

/// A change to the entry of one name.
#[derive(Debug)]
pub struct Change {
    pub dn: Dn,
    pub kind: ChangeKind,
}

// Written out, so that a drop is one call in proofs (docs/CONTRIBUTING.md).
impl Drop for Change {
    fn drop(self) {
        let Change { dn, kind } = self;
        drop(dn);
        drop(kind);
    }
}

#[derive(Debug, Drop)]
pub enum ChangeKind {
    Add(Lines),
    Delete,
    Modify(Mods),
    Rename {
        newrdn: Rdn,
        delete_old: bool,
        newsuperior: Option<Dn>,
    },
}

/// What a modification does with its values.
#[derive(Clone, Copy, PartialEq, Eq, Debug)]
pub enum ModOp {
    Add,
    Delete,
    Replace,
    /// Adds a number to each value (RFC 4525).
    Increment,
}

/// One modification of an entry: an operation on an attribute, with a list of values.
#[derive(Debug, Drop)]
pub struct Mod {
    pub op: ModOp,
    pub description: Description,
    pub values: Texts,
}

/// A list of modifications.
#[derive(Debug, Drop)]
pub struct Mods {
    items: Vec<Mod>,
}

impl Model for Mods {
    ghost use Rattle.std.specs.Prelude.{List};
    ghost use Rattle.dir_ldif.specs.declared.records.Mod.{Mod};

    ghost Value = { List Mod };

    ghost view = { λ m. m.items.items };
}

impl Mods {
    pub fn new(items: Vec<Mod>) -> Mods
        ensures { result ≡ items.items }
    {
        Mods { items }
    }

    pub fn as_slice(&self) -> &[Mod]
        ensures { result.now ≡ self.now }
    {
        self.items.as_slice()
    }

    /// The modifications, moved out of the list.
    pub fn into_items(self) -> Vec<Mod>
        ensures { result.items ≡ self }
    {
        self.items
    }
}
