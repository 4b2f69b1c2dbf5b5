//! A directory with the methods that each must have and no others: it adds, and tells how it keeps entries, by the default bodies.

use dir_names::{Dn, DnKey, Memory};
use dir_tree::{Directory, Entry, FlatDirectory};

/// A flat directory behind the methods that each directory must have.
#[derive(Drop)]
pub(crate) struct PlainDirectory {
    pub(crate) inner: FlatDirectory,
}

impl Directory for PlainDirectory {
    ghost state = { λ d. d.inner };

    fn suffix(&self) -> &DnKey {
        self.inner.suffix()
    }

    fn get(&self, key: &DnKey) -> Option<&Entry> {
        self.inner.get(key)
    }

    fn has_child(&self, key: &DnKey) -> bool {
        self.inner.has_child(key)
    }

    fn replace(&mut self, key: &DnKey, entry: Entry) -> Entry {
        self.inner.replace(key, entry)
    }

    fn remove_leaf(&mut self, key: &DnKey) -> Entry {
        self.inner.remove_leaf(key)
    }

    fn insert(&mut self, key: &DnKey, entry: Entry) -> Result<(), Entry> {
        self.inner.insert(key, entry)
    }

    fn height_below(&self, key: &DnKey) -> usize {
        self.inner.height_below(key)
    }

    fn move_subtree(&mut self, old: &DnKey, new: &DnKey, entry: Entry) -> Result<Entry, Entry> {
        self.inner.move_subtree(old, new, entry)
    }

    fn spelled(&self, key: &DnKey) -> Result<Dn, Memory> {
        self.inner.spelled(key)
    }

    fn walk(&self) -> Result<Vec<(Dn, &Entry)>, Memory> {
        self.inner.walk()
    }
}
