//! The nodes of a tree: each owns its entry and its children, in the order of the keys of their RDNs.

ghost use Rattle.std.specs.Borrow.{sem};
ghost use Rattle.std.specs.Prelude.{◌≡◌, ◌↔◌, ◌+◌, ◌≤◌, ℕ, [], ◌∷◌, ◌++◌, IfErr, IfNone, IfOk, IfSome, IsSome, IsTrue, None, OnErr, OnOk, Some, length, map, take};
ghost use Rattle.std.specs.FinMap as fin;
ghost use Rattle.dir_names.specs.Keys.{DnKeys, RdnKeys};
ghost use Rattle.dir_tree.specs.Inside.TreeAdds.{IsNotAddedOn, leaf_places, path_above};
ghost use Rattle.dir_tree.specs.Inside.TreeLends.{LendsNode, LendsPlace, LendsPlaceIf};
ghost use Rattle.dir_tree.specs.Moves.{rest_below};
ghost use Rattle.dir_tree.specs.Inside.TreeNames.{name_in, named_places};
ghost use Rattle.dir_tree.specs.Inside.TreePlaces.{HasPlace, IsAt, IsGraft, IsMove, entry_on, place_map};

use crate::flat::push_clones;
use crate::packed::Shared;
use crate::{Entry, NotAdded};
use dir_names::{Dn, Memory, Rdn, RdnKey};
use std::alloc::Global;
use std::collections::BTreeMap;
use std::marker::Model;
use std::mem;

/// A node: its entry, and its children under the keys of their RDNs. A child's place is empty only while
/// a subtree moves there.
#[derive(Drop)]
pub(crate) struct Node {
    entry: Entry,
    children: BTreeMap<RdnKey, Option<Node>>,
}

impl Model for Node {
    ghost use Rattle.dir_tree.specs.Inside.TreePlaces.{Places, places_code, node_map};

    ghost Value = { Places };

    ghost coded = { places_code };

    ghost use Rattle.std.specs.FinMap as fin;
    ghost use Rattle.dir_tree.specs.Inside.TreeOrder.{AreOrdered};

    ghost view = { λ n. node_map n.entry n.children.entries };

    ghost invariant = { λ n. AreOrdered n.children.entries };

    ghost size = { λ m. fin.len m };

    ghost use Rattle.dir_tree.specs.Inside.TreeFalls.{children_fall};

    ghost size_decreases = { children_fall };
}

impl Node {
    /// A node without children.
    pub(crate) fn leaf(alloc: Global, entry: Entry) -> Node
        ensures { result ≡ fin.insert fin.empty [] (Some entry) }
    {
        Node {
            entry,
            children: BTreeMap::new(alloc),
        }
    }

    pub(crate) fn entry(&self) -> &Entry
        ensures { fin.get self.now [] ≡ Some (Some result.now) }
    {
        &self.entry
    }

    pub(crate) fn into_entry(self) -> Entry
        ensures { fin.get self [] ≡ Some (Some result) }
    {
        self.entry
    }

    fn child(&self, part: &RdnKey) -> Option<&Node>
        ensures some { IfSome result (λ child. IsAt self.now (part.now ∷ []) child.now) }
        ensures none { IfNone result ((q : DnKeys) → entry_on self.now (part.now ∷ q) ≡ None) }
    {
        match self.children.get(part) {
            Some(place) => place.as_ref(),
            None => None,
        }
    }

    /// The node at a path.
    pub(crate) fn at(&self, path: &[RdnKey]) -> Option<&Node>
        ensures some { IfSome result (λ node. IsAt self.now path.now node.now) }
        ensures none { IfNone result (entry_on self.now path.now ≡ None) }
    {
        match path.split_first() {
            None => Some(self),
            Some((first, rest)) => self.child(first)?.at(rest),
        }
    }

    /// The place of a child, for writing.
    fn place(&mut self, part: &RdnKey) -> &mut Option<Node>
        requires { HasPlace self.old part.now }
        ensures* writes_back { sem 𝓛 (LendsPlace self.entry part.now result) }
        ensures is { IsAt self.old (part.now ∷ []) (place_map result.now) }
    {
        self.children.get_mut(part).unwrap()
    }

    /// The place of a child, for writing, if there is one.
    fn place_if(&mut self, part: &RdnKey) -> Option<&mut Option<Node>>
        ensures* writes_back { sem 𝓛 (LendsPlaceIf self.entry part.now result) }
        ensures some { IfSome result (λ place. IsAt self.old (part.now ∷ []) (place_map place.now)) }
        ensures none { IfNone result ((q : DnKeys) → entry_on self.old (part.now ∷ q) ≡ None) }
    {
        self.children.get_mut(part)
    }

    /// Puts another entry into this node, and returns the old one.
    pub(crate) fn exchange(&mut self, entry: Entry) -> Entry
        ensures old { fin.get self.old [] ≡ Some (Some result) }
        ensures new { self.new ≡ fin.insert self.old [] (Some entry) }
    {
        mem::replace(&mut self.entry, entry)
    }

    /// Replaces the entry at a path by another, and returns the old one.
    pub(crate) fn replace_at(&mut self, path: &[RdnKey], entry: Entry) -> Entry
        requires { IsSome (entry_on self.old path.now) }
        ensures old { entry_on self.old path.now ≡ Some result }
        ensures new { self.new ≡ fin.insert self.old path.now (Some entry) }
    {
        match path.split_first() {
            None => self.exchange(entry),
            Some((first, rest)) => node_in(self.place(first)).replace_at(rest, entry),
        }
    }

    /// Puts a place at a path below this node; there must be a node above it.
    ///
    /// # Errors
    ///
    /// The place, if memory runs out. Then the node is as it was.
    pub(crate) fn grow_at(
        &mut self,
        alloc: Global,
        first: &RdnKey,
        rest: &[RdnKey],
        place: Option<Node>,
    ) -> Result<(), Option<Node>>
        requires { IsSome (entry_on self.old (take (length rest.now) (first.now ∷ rest.now))) }
        ensures ok { OnOk result (IsGraft self.old (first.now ∷ rest.now) (fin.get (place_map place)) self.new) }
        ensures err { OnErr result (self.new ≡ self.old) }
        ensures value_returned { IfErr result (λ e. e ≡ place) }
    {
        match rest.split_first() {
            Some((second, rest)) => {
                node_in(self.place(first)).grow_at(alloc, second, rest, place)
            }
            None => {
                let Ok(part) = first.try_clone(alloc) else {
                    return Err(place);
                };
                match self.children.insert(part, place) {
                    Ok(_) => Ok(()),
                    Err(refused) => Err(refused.value.1),
                }
            }
        }
    }

    /// Adds an entry at a path below this node, if there is none, and there is a node above it. It shares what entries
    /// before have too.
    ///
    /// # Errors
    ///
    /// Why it was not added. Then the node is as it was.
    pub(crate) fn add_at(
        &mut self,
        alloc: Global,
        shared: &mut Shared,
        first: &RdnKey,
        rest: &[RdnKey],
        entry: Entry,
    ) -> Result<(), NotAdded>
        ensures ok { OnOk result (IsGraft self.old (first.now ∷ rest.now) (fin.get (leaf_places entry)) self.new) }
        ensures free { OnOk result (entry_on self.old (first.now ∷ rest.now) ≡ None) }
        ensures parent { OnOk result (IsSome (entry_on self.old (path_above first.now rest.now))) }
        ensures err { OnErr result (self.new ≡ self.old) }
        ensures cause { IfErr result (IsNotAddedOn self.old first.now rest.now entry) }
    {
        let Some((second, rest)) = rest.split_first() else {
            return self.add_child(alloc, shared, first, entry);
        };
        let Some(place) = self.place_if(first) else {
            return Err(NotAdded::NoParent(entry));
        };
        match place {
            Some(child) => child.add_at(alloc, shared, second, rest, entry),
            None => Err(NotAdded::NoParent(entry)),
        }
    }

    /// Adds an entry directly below this node, if there is none.
    ///
    /// # Errors
    ///
    /// As for `add_at`.
    fn add_child(
        &mut self,
        alloc: Global,
        shared: &mut Shared,
        part: &RdnKey,
        entry: Entry,
    ) -> Result<(), NotAdded>
        ensures ok { OnOk result (IsGraft self.old (part.now ∷ []) (fin.get (leaf_places entry)) self.new) }
        ensures free { OnOk result (entry_on self.old (part.now ∷ []) ≡ None) }
        ensures parent { IsSome (entry_on self.old []) }
        ensures err { OnErr result (self.new ≡ self.old) }
        ensures cause { IfErr result (IsNotAddedOn self.old part.now [] entry) }
    {
        // Each node is asked for its entry, so that the proof knows that it has one.
        let _entry = self.entry();
        if let Some(child) = self.child(part) {
            let _entry = child.entry();
            return Err(NotAdded::Taken);
        }
        let entry = entry.settled(alloc, part, shared);
        match self.grow_at(alloc, part, &[], Some(Node::leaf(alloc, entry))) {
            Ok(()) => Ok(()),
            Err(_) => Err(NotAdded::Memory),
        }
    }

    /// Takes out the node at a path below this one, with all below it.
    pub(crate) fn cut_at(&mut self, first: &RdnKey, rest: &[RdnKey]) -> Node
        requires { IsSome (entry_on self.old (first.now ∷ rest.now)) }
        ensures node { IsAt self.old (first.now ∷ rest.now) result }
        ensures rest { IsGraft self.old (first.now ∷ rest.now) (λ _. None) self.new }
    {
        match rest.split_first() {
            Some((second, rest)) => node_in(self.place(first)).cut_at(second, rest),
            None => self.children.remove(first).flatten().unwrap(),
        }
    }

    /// Puts a node into the empty place at a path below this node. The call doesn't allocate.
    pub(crate) fn put_at(&mut self, first: &RdnKey, rest: &[RdnKey], node: Node)
        requires { fin.get self.old (first.now ∷ rest.now) ≡ Some None }
        ensures { IsGraft self.old (first.now ∷ rest.now) (fin.get node) self.new }
    {
        match rest.split_first() {
            Some((second, rest)) => node_in(self.place(first)).put_at(second, rest, node),
            None => *self.place(first) = Some(node),
        }
    }

    /// Moves the node at a path below this one, with all below it, to another path, puts another entry into
    /// it, and returns the old one. At the new path there is nothing, its parent has a node, and neither
    /// path begins with the other.
    ///
    /// # Errors
    ///
    /// The entry, if memory runs out. Then this node is as it was.
    pub(crate) fn move_at(
        &mut self,
        alloc: Global,
        first: &RdnKey,
        rest: &[RdnKey],
        new_first: &RdnKey,
        new_rest: &[RdnKey],
        entry: Entry,
    ) -> Result<Entry, Entry>
        requires there { IsSome (entry_on self.old (first.now ∷ rest.now)) }
        requires parent { IsSome (entry_on self.old (take (length new_rest.now) (new_first.now ∷ new_rest.now))) }
        requires free { fin.get self.old (new_first.now ∷ new_rest.now) ≡ None }
        requires outside { rest_below (first.now ∷ rest.now) (new_first.now ∷ new_rest.now) ≡ None }
        requires apart { rest_below (new_first.now ∷ new_rest.now) (first.now ∷ rest.now) ≡ None }
        ensures old { IfOk result (λ e. entry_on self.old (first.now ∷ rest.now) ≡ Some e) }
        ensures ok { OnOk result (IsMove self.old (first.now ∷ rest.now) (new_first.now ∷ new_rest.now) entry self.new) }
        ensures err { OnErr result (self.new ≡ self.old) }
        ensures value_returned { IfErr result (λ e. e ≡ entry) }
    {
        let Ok(()) = self.grow_at(alloc, new_first, new_rest, None) else {
            return Err(entry);
        };
        let mut node = self.cut_at(first, rest);
        let former = node.exchange(entry);
        self.put_at(new_first, new_rest, node);
        Ok(former)
    }

    /// Whether the node has a child.
    pub(crate) fn has_child(&self) -> bool
        ensures { IsTrue result ↔ ((part : RdnKeys) × IsSome (entry_on self.now (part ∷ []))) }
    {
        for (_, place) in &self.children {
            if let Some(child) = place {
                // The child is opened, so that the proof knows that it has an entry.
                let _entry = &child.entry;
                return true;
            }
        }
        false
    }

    /// The length of the longest path from this node to one at or below it.
    pub(crate) fn height(&self) -> usize
        requires { (path : DnKeys) → IsSome (entry_on self.now path) → length path ≤ 64 }
        ensures root { IsSome (entry_on self.now []) }
        ensures reaches { (path : DnKeys) → IsSome (entry_on self.now path) → length path ≤ result }
        ensures least { (n : ℕ) → ((path : DnKeys) → IsSome (entry_on self.now path) → length path ≤ n) → result ≤ n }
    {
        let mut height = 0;
        for (_, place) in &self.children {
            if let Some(child) = place {
                let below = child.height() + 1;
                if below > height {
                    height = below;
                }
            }
        }
        height
    }

    /// Clones the own names of the entries on a path onto the end of a list, the last first. Of the node's
    /// own name at most `depth` RDNs count, of each other one.
    pub(crate) fn push_name(
        &self,
        alloc: Global,
        depth: usize,
        path: &[RdnKey],
        rdns: &mut Vec<Rdn>,
    ) -> Result<(), Memory>
        requires { IsSome (entry_on self.now path.now) }
        ensures { OnOk result (rdns.new.items ≡ rdns.old.items ++ name_in self.now depth path.now) }
    {
        if let Some((first, rest)) = path.split_first() {
            self.child(first).unwrap().push_name(alloc, 1, rest, rdns)?;
        }
        push_clones(rdns, first_rdns(self.entry.own(), depth), alloc)
    }

    /// Appends every entry with its name as spelled, in order of paths. The RDNs above this node are given;
    /// of its own name at most `depth` count.
    pub(crate) fn walk<'t>(
        &'t self,
        alloc: Global,
        depth: usize,
        above: &[Rdn],
        walk: &mut Vec<(Dn, &'t Entry)>,
    ) -> Result<(), Memory>
        requires { (path : DnKeys) → IsSome (entry_on self.now path) → length path + (depth + length above.now) ≤ 64 }
        ensures { OnOk result (map (λ item. (item.0, item.1.now)) walk.new.items ≡ map (λ item. (item.0, item.1.now)) walk.old.items ++ named_places self.now depth above.now) }
    {
        let own = first_rdns(self.entry.own(), depth);
        let name = joined(alloc, own, above)?;
        walk.push((Dn::of_rdns(name), &self.entry))?;
        if self.children.is_empty() {
            return Ok(());
        }
        let name = joined(alloc, own, above)?;
        for (_, place) in &self.children {
            if let Some(child) = place {
                child.walk(alloc, 1, name.as_slice(), walk)?;
            }
        }
        Ok(())
    }
}

/// The node in a place, for writing.
pub(crate) fn node_in(place: &mut Option<Node>) -> &mut Node
    requires { IsSome place.old }
    ensures* writes_back { sem 𝓛 (LendsNode place.entry result) }
    ensures is { place.old ≡ Some result.now }
{
    place.as_mut().unwrap()
}

/// The first RDNs of a name, at most so many.
fn first_rdns(own: &[Rdn], depth: usize) -> &[Rdn]
    ensures { result.now ≡ take depth own.now }
{
    &own[..own.len().min(depth)]
}

/// Clones of two lists of RDNs, one after the other.
fn joined(alloc: Global, first: &[Rdn], second: &[Rdn]) -> Result<Vec<Rdn>, Memory>
    ensures { IfOk result (λ rdns. rdns.items ≡ first.now ++ second.now) }
{
    let mut rdns = Vec::with_capacity(alloc, first.len().saturating_add(second.len()))?;
    push_clones(&mut rdns, first, alloc)?;
    push_clones(&mut rdns, second, alloc)?;
    Ok(rdns)
}
