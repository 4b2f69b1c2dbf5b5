//! What every directory offers, and which keys may take an entry.

ghost use Rattle.dir_names.specs.declared.fault.NameFault.TheVariants as NameFault;
ghost use Rattle.std.specs.Prelude.{◌≡◌, ◌↔◌, ◌+◌, ◌≤◌, IfErr, IfOk, IsSome, IsTrue, None, OnErr, OnOk, Some, length, map, option_copied, take};
ghost use Rattle.dir_names.specs.Keys.{parent_of};
ghost use Rattle.dir_tree.specs.Added.{IsNotAdded};
ghost use Rattle.dir_tree.specs.Dir.{Dir, HasChild, IsClosed, entry_at, has_parent, is_there, put_entry, remove_entry};
ghost use Rattle.dir_tree.specs.Moves.{IsShallow, MayMoveTo, height_below, move_subtree};
ghost use Rattle.dir_tree.specs.SpelledNames.{named_entries, own_depth, spelled_name};

use crate::Entry;
use dir_names::{Dn, DnKey, Memory, NameFault, Rdn};
use std::alloc::Global;

/// Why an entry was not added to a directory.
#[derive(Drop)]
pub enum NotAdded {
    /// There is an entry with this key.
    Taken,
    /// The key is not the suffix, and there is no entry with its parent's key. The entry comes back.
    NoParent(Entry),
    /// Memory ran out.
    Memory,
}

/// A directory: a suffix, and a map from the keys of names to entries. Each entry but the suffix's has
/// its parent in the map.
pub trait Directory {
    // The suffix and the entries.
    ghost state: { Self → Dir };

    /// The key of the suffix: the name of each entry is it or is below it.
    fn suffix(&self) -> &DnKey
        ensures key { result.now ≡ (state self.now).suffix }
        ensures closed { IsClosed (state self.now) }
        ensures shallow { IsShallow (state self.now) };

    fn get(&self, key: &DnKey) -> Option<&Entry>
        ensures { option_copied result ≡ entry_at (state self.now) key.now };

    /// Whether there is an entry directly below this key.
    fn has_child(&self, key: &DnKey) -> bool
        ensures { IsTrue result ↔ HasChild (state self.now) key.now };

    /// Replaces the entry at a key by another, and returns the old one. There must be one.
    fn replace(&mut self, key: &DnKey, entry: Entry) -> Entry
        requires { IsSome (entry_at (state self.old) key.now) }
        ensures old { entry_at (state self.old) key.now ≡ Some result }
        ensures new { state self.new ≡ put_entry (state self.old) key.now entry };

    /// Removes the entry at a key, and returns it. There must be one, and it must have no child.
    fn remove_leaf(&mut self, key: &DnKey) -> Entry
        requires there { IsSome (entry_at (state self.old) key.now) }
        requires leaf { ¬ (HasChild (state self.old) key.now) }
        ensures old { entry_at (state self.old) key.now ≡ Some result }
        ensures new { state self.new ≡ remove_entry (state self.old) key.now };

    /// Puts an entry at a key that has none. The key must be the suffix, or its parent must be in the map.
    ///
    /// # Errors
    ///
    /// The entry, if memory runs out. Then the map is as it was.
    fn insert(&mut self, key: &DnKey, entry: Entry) -> Result<(), Entry>
        requires free { entry_at (state self.old) key.now ≡ None }
        requires parent { IsTrue (has_parent (state self.old) key.now) }
        ensures ok { OnOk result (state self.new ≡ put_entry (state self.old) key.now entry) }
        ensures err { OnErr result (state self.new ≡ state self.old) }
        ensures value_returned { IfErr result (λ e. e ≡ entry) };

    /// Whether an entry may be put at a key: it is the suffix, or its parent is in the map.
    ///
    /// # Errors
    ///
    /// `Memory` alone.
    fn accepts_key(&self, alloc: Global, key: &DnKey) -> Result<bool, Memory>
        ensures { IfOk result (λ b. b ≡ has_parent (state self.now) key.now) }
    {
        if key == self.suffix() {
            return Ok(true);
        }
        match key.parent(alloc) {
            Ok(Some(parent)) => Ok(self.get(&parent).is_some()),
            Ok(None) => Ok(false),
            Err(_) => Err(Memory),
        }
    }

    /// Puts an entry at a key, if that has none, and is the suffix or has its parent in the map. This way looks three
    /// times; a directory that can do it by one look has its own.
    ///
    /// # Errors
    ///
    /// Why the entry was not added. Then the map is as it was.
    fn add(&mut self, alloc: Global, key: &DnKey, entry: Entry) -> Result<(), NotAdded>
        ensures ok { OnOk result (state self.new ≡ put_entry (state self.old) key.now entry) }
        ensures free { OnOk result (entry_at (state self.old) key.now ≡ None) }
        ensures parent { OnOk result (IsTrue (has_parent (state self.old) key.now)) }
        ensures err { OnErr result (state self.new ≡ state self.old) }
        ensures cause { IfErr result (IsNotAdded (state self.old) key.now entry) }
    {
        if self.get(key).is_some() {
            return Err(NotAdded::Taken);
        }
        match self.accepts_key(alloc, key) {
            Ok(true) => {}
            Ok(false) => return Err(NotAdded::NoParent(entry)),
            Err(_) => return Err(NotAdded::Memory),
        }
        match self.insert(key, entry) {
            Ok(()) => Ok(()),
            Err(_) => Err(NotAdded::Memory),
        }
    }

    /// Whether the directory packs a small entry that it takes in, so that to change one in its packed form saves to open and
    /// to pack it. One that keeps entries as they are given opens each at its first change, once.
    fn packs_entries(&self) -> bool {
        false
    }

    /// By how many RDNs the longest key at or below this one is longer: 0 for an entry without children.
    /// There must be an entry.
    fn height_below(&self, key: &DnKey) -> usize
        requires { IsSome (entry_at (state self.now) key.now) }
        ensures { result ≡ height_below (state self.now) key.now };

    /// Moves an entry and all that is below it to a new key, which may be its own, puts another entry in
    /// its place there, and returns the old one.
    ///
    /// There must be an entry, and it is not the suffix's. The parent of the new key must be in the map,
    /// and the new key is free and not below the old one, or is the old one. No key may become longer than
    /// 64 RDNs.
    ///
    /// # Errors
    ///
    /// The given entry, if memory runs out. Then the map is as it was.
    fn move_subtree(&mut self, old: &DnKey, new: &DnKey, entry: Entry) -> Result<Entry, Entry>
        requires there { IsSome (entry_at (state self.old) old.now) }
        requires inner { ¬ (old.now ≡ (state self.old).suffix) }
        requires parent { IsTrue (is_there (state self.old) (parent_of new.now)) }
        requires place { MayMoveTo (state self.old) old.now new.now }
        requires fits { length new.now + height_below (state self.old) old.now ≤ 64 }
        ensures old { IfOk result (λ e. entry_at (state self.old) old.now ≡ Some e) }
        ensures ok { OnOk result (state self.new ≡ move_subtree (state self.old) old.now new.now entry) }
        ensures err { OnErr result (state self.new ≡ state self.old) }
        ensures value_returned { IfErr result (λ e. e ≡ entry) };

    /// The name of the entry at a key, as spelled on its path: the own names of the entries from it up to
    /// the suffix's, joined, leaf first. There must be an entry.
    ///
    /// # Errors
    ///
    /// `Memory` alone.
    fn spelled(&self, key: &DnKey) -> Result<Dn, Memory>
        requires { IsSome (entry_at (state self.now) key.now) }
        ensures { IfOk result (λ name. name ≡ spelled_name (state self.now) key.now) };

    /// Every entry with its name as spelled, in order of keys, so that a parent comes before the entries
    /// below it.
    ///
    /// # Errors
    ///
    /// As for `spelled`.
    fn walk(&self) -> Result<Vec<(Dn, &Entry)>, Memory>
        ensures { IfOk result (λ walk. map (λ item. (item.0, item.1.now)) walk.items ≡ named_entries (state self.now)) };
}

/// Whether an entry may be put at a key: it is the suffix, or its parent is in the map.
///
/// # Errors
///
/// `Memory` alone.
pub fn may_stand<D: Directory>(alloc: Global, directory: &D, key: &DnKey) -> Result<bool, NameFault>
    ensures ok { IfOk result (λ b. b ≡ has_parent (D.state directory.now) key.now) }
    ensures memory { IfErr result (λ e. e ≡ NameFault.Memory) }
{
    match directory.accepts_key(alloc, key) {
        Ok(is_accepted) => Ok(is_accepted),
        Err(_) => Err(NameFault::Memory),
    }
}

/// The part of an entry's own name that counts in its name as spelled: at most as many RDNs as the key has
/// at the suffix, and one below it.
pub fn spelled_own<'o>(suffix: &DnKey, key: &DnKey, own: &'o [Rdn]) -> &'o [Rdn]
    ensures { result.now ≡ take (own_depth suffix.now key.now) own.now }
{
    let depth = if key == suffix { key.depth() } else { 1 };
    &own[..own.len().min(depth)]
}
