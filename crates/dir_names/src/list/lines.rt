//! The lines of an entry: attribute descriptions, each with a value.

ghost use Rattle.std.specs.Prelude.{◌≡◌, Ok};
ghost use Rattle.dir_names.specs.Described.{lines_eq, lines_eq_laws, partial_lines_eq_laws};
ghost use Rattle.dir_names.specs.Outcome.{Gives};

use crate::{Bytes, Description, NameFault};
use std::alloc::Global;
use std::marker::Model;

/// A list of attribute descriptions, each with a value.
#[derive(Debug, Drop)]
pub struct Lines {
    items: Vec<(Description, Bytes)>,
}

impl Model for Lines {
    ghost use Rattle.std.specs.Prelude.{ℕ, List};
    ghost use Rattle.dir_names.specs.Described.{Described};

    ghost Value = { List (Described × List ℕ) };

    ghost view = { λ l. l.items.items };
}

impl Lines {
    pub fn new(items: Vec<(Description, Bytes)>) -> Lines
        ensures { result ≡ items.items }
    {
        Lines { items }
    }

    pub fn as_slice(&self) -> &[(Description, Bytes)]
        ensures { result.now ≡ self.now }
    {
        self.items.as_slice()
    }

    /// The pairs, moved out of the list.
    pub fn into_items(self) -> Vec<(Description, Bytes)>
        ensures { result.items ≡ self }
    {
        self.items
    }

    /// A copy: its list and values have memory of their own, and its descriptions share the memory of
    /// these. The one fault is `Memory`.
    pub fn try_clone(&self, alloc: Global) -> Result<Lines, NameFault>
        ensures { Gives (λ lines. lines) result (Ok self.now) }
    {
        let mut items = Vec::with_capacity(alloc, self.items.len())?;
        for line in self.items.as_slice() {
            items.push((line.0.try_clone(alloc)?, line.1.try_clone(alloc)?))?;
        }
        Ok(Lines { items })
    }
}

impl PartialEq for Lines {
    ghost eq = { lines_eq };

    ghost laws = { partial_lines_eq_laws };

    fn eq(&self, other: &Lines) -> bool {
        self.items == other.items
    }
}

impl Eq for Lines {
    ghost laws = { lines_eq_laws };
}
