//! Entries that are made one after the other.

ghost use Rattle.std.specs.Prelude.{◌≡◌, IfSome, Ok, Some, false};
ghost use Rattle.dir_names.specs.NameKeys.{rdn_key};
ghost use Rattle.dir_tree.specs.Inside.Patterns.{attributes_named};
ghost use Rattle.dir_tree.specs.NewEntry.{Makes, exceeds_single_value, new_entry};

use crate::EntryFault;
use crate::entry::{Entry, leaf_key};
use crate::kept::KeptAttributes;
use crate::packed::pattern::Pattern;
use crate::parts::Parts;
use dir_names::{Bytes, Description, Lines, Rdn, RdnKey, RecentNames, Schema};
use std::alloc::Global;

/// How many patterns are remembered.
const MOST_PATTERNS: usize = 8;

/// An entry of more lines is made by the general way.
const MOST_LINES: usize = 64;

/// Makes entries one after the other. It remembers how the lines of the last ones were arranged, and the last values
/// that are names: an entry whose lines are arranged as those of one of them, or that has such a value, is made in less
/// time.
#[derive(Drop)]
pub struct EntryMaker {
    patterns: Vec<Pattern>,
    names: RecentNames,
}

impl EntryMaker {
    pub fn new(alloc: Global) -> EntryMaker {
        EntryMaker {
            patterns: Vec::new(alloc),
            names: RecentNames::new(),
        }
    }

    /// The entry that an add makes, as `Entry::make` answers it.
    ///
    /// # Errors
    ///
    /// As for `Entry::make`.
    pub fn make(
        &mut self,
        alloc: Global,
        schema: &Schema,
        spelled: Vec<Rdn>,
        values: Lines,
    ) -> Result<Entry, EntryFault>
        ensures { Makes (λ entry. entry) result (new_entry schema.now spelled.items values) }
    {
        let mut own = spelled;
        own.shrink_to_fit();
        let Some(leaf) = own.first() else {
            return Err(EntryFault::NotNamed);
        };
        let key = leaf_key(alloc, schema, leaf)?;
        match self.made(alloc, schema, leaf, &key, values.as_slice()) {
            Some(attributes) => Ok(Entry::of(Parts {
                own,
                key,
                attributes,
            })),
            None => Entry::make_by(alloc, schema, &mut self.names, own, values),
        }
    }

    /// The attributes of a new entry whose own RDN has this key, packed at once by the pattern of an entry before, or
    /// else by their own, which is remembered. None where there are many lines, or where an add would be refused.
    fn made(
        &mut self,
        alloc: Global,
        schema: &Schema,
        leaf: &Rdn,
        key: &RdnKey,
        lines: &[(Description, Bytes)],
    ) -> Option<KeptAttributes>
        requires { rdn_key schema.now leaf.now ≡ Some key.now }
        ensures made { IfSome result (λ made. attributes_named schema.now leaf.now lines.now ≡ Ok made) }
        ensures single { IfSome result (λ made. exceeds_single_value schema.now made ≡ false) }
    {
        if lines.len() > MOST_LINES {
            return None;
        }
        for at in 0..self.patterns.len() {
            if let Some(made) = KeptAttributes::made(
                alloc,
                schema,
                &mut self.names,
                leaf,
                key,
                lines,
                &self.patterns[at],
            ) {
                self.patterns.as_mut_slice().swap(0, at);
                return Some(made);
            }
        }
        let pattern = Pattern::of(alloc, lines)?;
        let made = KeptAttributes::made(
            alloc,
            schema,
            &mut self.names,
            leaf,
            key,
            lines,
            &pattern,
        )?;
        self.remember(pattern);
        Some(made)
    }

    /// Remembers a pattern, in place of one that was not met for long if there are many.
    fn remember(&mut self, pattern: Pattern) {
        if self.patterns.len() < MOST_PATTERNS {
            let _ = self.patterns.push(pattern);
        } else {
            self.patterns[MOST_PATTERNS - 1] = pattern;
        }
    }
}
