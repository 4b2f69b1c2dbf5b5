//! A directory in one ordered map.

ghost use Rattle.std.specs.Prelude.{◌≡◌, ◌++◌, IfNone, IfOk, IfSome, IsSome, None, OnOk, false, map, reverse};
ghost use Rattle.std.specs.List.{flat_map};
ghost use Rattle.std.specs.BTreeMap.{IsOrdered, get};
ghost use Rattle.std.specs.Ordering.{is_gt};
ghost use Rattle.std.specs.declared.cmp.Ordering.TheVariants.{Less};
ghost use Rattle.dir_names.specs.Keys.{DnKeys};
ghost use Rattle.dir_names.specs.Orders.{dn_key_cmp};
ghost use Rattle.std.specs.FinMap as fin;
ghost use Rattle.dir_tree.specs.Dir.{IsClosed, dir_over};
ghost use Rattle.dir_tree.specs.Moves.{IsShallow, greatest, length_or_zero, moved_key, rest_below};
ghost use Rattle.dir_tree.specs.SpelledNames.{named_entries};

use crate::{Directory, Entry, spelled_own};
use dir_names::{Dn, DnKey, Memory, NameFault, Rdn};
use std::alloc::Global;
use std::collections::BTreeMap;
use std::marker::Model;
use std::mem;
use std::ops::Bound;

/// A directory in one ordered map from the keys of names to entries.
pub struct FlatDirectory {
    alloc: Global,
    suffix: DnKey,
    entries: BTreeMap<DnKey, Entry>,
}

// Written out, so that a drop is one call in proofs (docs/CONTRIBUTING.md).
impl Drop for FlatDirectory {
    fn drop(self) {
        let FlatDirectory {
            alloc: _,
            suffix,
            entries,
        } = self;
        drop(suffix);
        drop(entries);
    }
}

impl Model for FlatDirectory {
    ghost use Rattle.dir_tree.specs.Dir.{Dir, IsClosed, dir_over};
    ghost use Rattle.dir_tree.specs.Inside.Codes.{dir_code};
    ghost use Rattle.dir_tree.specs.Moves.{IsShallow};

    ghost Value = { Dir };

    ghost coded = { dir_code };

    ghost view = { λ d. dir_over d.suffix d.entries.entries };

    ghost invariant = { λ d. IsClosed (dir_over d.suffix d.entries.entries) × IsShallow (dir_over d.suffix d.entries.entries) };
}

impl FlatDirectory {
    /// The directory of this suffix without entries.
    pub fn new(alloc: Global, suffix: DnKey) -> FlatDirectory
        ensures { result ≡ record { suffix = suffix; entries = fin.empty } }
    {
        FlatDirectory {
            alloc,
            suffix,
            entries: BTreeMap::new(alloc),
        }
    }
}

impl Directory for FlatDirectory {
    ghost state = { λ d. d };

    fn suffix(&self) -> &DnKey {
        &self.suffix
    }

    fn get(&self, key: &DnKey) -> Option<&Entry> {
        self.entries.get(key)
    }

    fn has_child(&self, key: &DnKey) -> bool {
        match first_after(&self.entries, key) {
            Some(next) => key.is_parent_of(next),
            None => false,
        }
    }

    fn replace(&mut self, key: &DnKey, entry: Entry) -> Entry {
        mem::replace(self.entries.get_mut(key).unwrap(), entry)
    }

    fn remove_leaf(&mut self, key: &DnKey) -> Entry {
        self.entries.remove(key).unwrap()
    }

    fn insert(&mut self, key: &DnKey, entry: Entry) -> Result<(), Entry> {
        let depth = key.depth();
        prove!(depth <= 64);
        let Ok(key) = key.try_clone(self.alloc) else {
            return Err(entry);
        };
        match self.entries.insert(key, entry) {
            Ok(_) => Ok(()),
            Err(refused) => Err(refused.value.1),
        }
    }

    fn height_below(&self, key: &DnKey) -> usize {
        height_in(&self.entries, key)
    }

    fn move_subtree(&mut self, old: &DnKey, new: &DnKey, entry: Entry) -> Result<Entry, Entry> {
        let Ok(moved) = moved_entries(self.alloc, &self.entries, old, new) else {
            return Err(entry);
        };
        self.entries = moved;
        Ok(mem::replace(self.entries.get_mut(new).unwrap(), entry))
    }

    fn spelled(&self, key: &DnKey) -> Result<Dn, Memory> {
        let mut rdns = Vec::with_capacity(self.alloc, key.depth())?;
        let Ok(key) = key.try_clone(self.alloc) else {
            return Err(Memory);
        };
        let mut above = Some(key);
        while let Some(key) = above {
            let Some(entry) = self.entries.get(&key) else {
                break;
            };
            let own = spelled_own(&self.suffix, &key, entry.own());
            push_clones(&mut rdns, own, self.alloc)?;
            let Ok(parent) = key.parent(self.alloc) else {
                return Err(Memory);
            };
            above = parent;
        }
        Ok(Dn::of_rdns(rdns))
    }

    fn walk(&self) -> Result<Vec<(Dn, &Entry)>, Memory> {
        walk_over(self.alloc, &self.entries, &self.suffix)
    }
}

/// The entries of a directory with their names as spelled, in order of keys. The entries above each one
/// are among those that the loop has met last.
fn walk_over<'m>(
    alloc: Global,
    entries: &'m BTreeMap<DnKey, Entry>,
    suffix: &DnKey,
) -> Result<Vec<(Dn, &'m Entry)>, Memory>
    requires closed { IsClosed (dir_over suffix.now entries.now.entries) }
    ensures { IfOk result (λ walk. map (λ item. (item.0, item.1.now)) walk.items ≡ named_entries (dir_over suffix.now entries.now.entries)) }
{
    let mut walk = Vec::with_capacity(alloc, entries.len())?;
    let mut path: Vec<&[Rdn]> = Vec::new(alloc);
    for (key, entry) in entries {
        path.truncate(key.depth() - suffix.depth());
        path.push(spelled_own(suffix, key, entry.own()))?;
        let rdns = joined_rdns(alloc, path.as_slice(), key.depth())?;
        walk.push((Dn::of_rdns(rdns), entry))?;
    }
    Ok(walk)
}

/// By how many RDNs the longest key at or below this one is longer.
fn height_in(entries: &BTreeMap<DnKey, Entry>, key: &DnKey) -> usize
    ensures { result ≡ greatest (map (λ p. length_or_zero (rest_below key.now p.0)) entries.now.entries) }
{
    let mut height = 0;
    for (below, _) in entries {
        if below.at_or_below(key) {
            let deeper = below.depth() - key.depth();
            height = if deeper > height { deeper } else { height };
        }
    }
    height
}

/// Clones of all entries, those at or below the old key under their keys below the new one.
fn moved_entries(
    alloc: Global,
    entries: &BTreeMap<DnKey, Entry>,
    old: &DnKey,
    new: &DnKey,
) -> Result<BTreeMap<DnKey, Entry>, NameFault>
    ensures ordered { IsOrdered dn_key_cmp entries.now }
    ensures ok { IfOk result (λ moved. fin.from_entries {R = dn_key_cmp} moved.entries ≡ fin.from_entries (map (λ p. (moved_key old.now new.now p.0, p.1)) entries.now.entries)) }
{
    let mut moved = BTreeMap::new(alloc);
    for (key, entry) in entries.iter().rev() {
        let key = moved_key(alloc, key, old, new)?;
        let Ok(entry) = entry.try_clone(alloc) else {
            return Err(NameFault::Memory);
        };
        let Ok(_) = moved.insert(key, entry) else {
            return Err(NameFault::Memory);
        };
    }
    Ok(moved)
}

/// The key, with the old key at its beginning exchanged for the new one.
fn moved_key(alloc: Global, key: &DnKey, old: &DnKey, new: &DnKey) -> Result<DnKey, NameFault>
    ensures { IfOk result (λ moved. moved ≡ moved_key old.now new.now key.now) }
{
    if !key.at_or_below(old) {
        return key.try_clone(alloc);
    }
    let mut moved = new.try_clone(alloc)?;
    for part in &key.parts()[old.depth()..] {
        moved = moved.child(alloc, part)?;
    }
    Ok(moved)
}

/// The first key of the map that is greater than this one.
fn first_after<'m>(entries: &'m BTreeMap<DnKey, Entry>, key: &DnKey) -> Option<&'m DnKey>
    ensures after { IfSome result (λ next. dn_key_cmp key.now next.now ≡ Less) }
    ensures there { IfSome result (λ next. IsSome (get dn_key_cmp entries.now next.now)) }
    ensures first { IfSome result (λ next. (q : DnKeys) → dn_key_cmp key.now q ≡ Less →
        IsSome (get dn_key_cmp entries.now q) → is_gt (dn_key_cmp next.now q) ≡ false) }
    ensures none { IfNone result ((q : DnKeys) → dn_key_cmp key.now q ≡ Less → get dn_key_cmp entries.now q ≡ None) }
{
    let (next, _) = entries
        .range((Bound::Excluded(key), Bound::Unbounded))
        .next()?;
    Some(next)
}

/// Clones of the own names on a path, the last first, in memory for this many.
fn joined_rdns(alloc: Global, path: &[&[Rdn]], depth: usize) -> Result<Vec<Rdn>, Memory>
    ensures { IfOk result (λ rdns. rdns.items ≡ flat_map (λ own. own) (reverse (map (λ own. own.now) path.now))) }
{
    let mut rdns = Vec::with_capacity(alloc, depth)?;
    push_joined(&mut rdns, path, alloc)?;
    Ok(rdns)
}

/// Clones the own names on a path onto the end of a list, the last first.
fn push_joined(rdns: &mut Vec<Rdn>, path: &[&[Rdn]], alloc: Global) -> Result<(), Memory>
    ensures { OnOk result (rdns.new.items ≡ rdns.old.items ++ flat_map (λ own. own) (reverse (map (λ own. own.now) path.now))) }
{
    for own in path.iter().rev() {
        push_clones(rdns, own, alloc)?;
    }
    Ok(())
}

/// Clones RDNs onto the end of a list.
pub(crate) fn push_clones(rdns: &mut Vec<Rdn>, more: &[Rdn], alloc: Global) -> Result<(), Memory>
    ensures { OnOk result (rdns.new.items ≡ rdns.old.items ++ more.now) }
{
    for rdn in more {
        let Ok(copy) = rdn.try_clone(alloc) else {
            return Err(Memory);
        };
        rdns.push(copy)?;
    }
    Ok(())
}
