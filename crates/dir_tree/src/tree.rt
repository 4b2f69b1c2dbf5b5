//! A directory as a tree of owned nodes.

ghost use Rattle.std.specs.Prelude.{◌≡◌, ◌∷◌, ◌++◌, ◌≤◌, IfNone, IfSome, None, length};
ghost use Rattle.std.specs.FinMap as fin;
ghost use Rattle.std.specs.Option.{option_map};
ghost use Rattle.dir_names.specs.Keys.{DnKeys};
ghost use Rattle.dir_tree.specs.Dir.{IsClosed, entry_at};
ghost use Rattle.dir_tree.specs.Inside.TreePlaces.{entry_on};
ghost use Rattle.dir_tree.specs.Inside.Trees.{IsBelow};
ghost use Rattle.dir_tree.specs.Moves.{IsShallow, rest_below};

use crate::packed::Shared;
use crate::tree::node::{Node, node_in};
use crate::{Directory, Entry, NotAdded};
use dir_names::{Dn, DnKey, Memory, RdnKey};
use std::alloc::Global;
use std::marker::Model;

mod node;

/// A directory as a tree of owned nodes: each has its entry, and its children in an ordered map under the
/// keys of their RDNs.
pub struct TreeDirectory {
    alloc: Global,
    suffix: DnKey,
    root: Option<Node>,
    shared: Shared,
}

// Written out, so that a drop is one call in proofs (docs/CONTRIBUTING.md).
impl Drop for TreeDirectory {
    fn drop(self) {
        let TreeDirectory {
            alloc: _,
            suffix,
            root,
            shared,
        } = self;
        drop(suffix);
        drop(root);
        drop(shared);
    }
}

impl Model for TreeDirectory {
    ghost use Rattle.dir_tree.specs.Dir.{Dir};
    ghost use Rattle.dir_tree.specs.Inside.Codes.{dir_code};

    ghost Value = { Dir };

    ghost coded = { dir_code };

    ghost use Rattle.dir_tree.specs.Inside.Trees.{IsTree, tree_dir};

    ghost view = { λ d. tree_dir d.suffix d.root };

    ghost invariant = { λ d. IsTree d.suffix d.root };
}

impl TreeDirectory {
    /// The directory of this suffix without entries.
    pub fn new(alloc: Global, suffix: DnKey) -> TreeDirectory
        ensures { result ≡ record { suffix = suffix; entries = fin.empty } }
    {
        TreeDirectory {
            alloc,
            suffix,
            root: None,
            shared: Shared::new(alloc),
        }
    }

    /// The node at a key.
    fn node(&self, key: &DnKey) -> Option<&Node>
        ensures some { IfSome result (λ node. (path : DnKeys) → entry_on node.now path ≡ entry_at self.now (key.now ++ path)) }
        ensures none { IfNone result (entry_at self.now key.now ≡ None) }
        ensures closed { IsClosed self.now }
        ensures shallow { IsShallow self.now }
    {
        let Some(root) = &self.root else {
            return None;
        };
        match path_below(&self.suffix, key) {
            Some(path) => root.at(path),
            None => None,
        }
    }
}

impl Directory for TreeDirectory {
    ghost state = { λ d. d };

    fn suffix(&self) -> &DnKey {
        &self.suffix
    }

    fn get(&self, key: &DnKey) -> Option<&Entry> {
        match self.node(key) {
            Some(node) => Some(node.entry()),
            None => None,
        }
    }

    fn has_child(&self, key: &DnKey) -> bool {
        match self.node(key) {
            Some(node) => node.has_child(),
            None => key.is_parent_of(&self.suffix) && self.get(&self.suffix).is_some(),
        }
    }

    fn replace(&mut self, key: &DnKey, entry: Entry) -> Entry {
        let entry = settled(self.alloc, &mut self.shared, key, entry);
        let path = path_below(&self.suffix, key).unwrap();
        node_in(&mut self.root).replace_at(path, entry)
    }

    fn remove_leaf(&mut self, key: &DnKey) -> Entry {
        let path = path_below(&self.suffix, key).unwrap();
        match path.split_first() {
            None => self.root.take().unwrap().into_entry(),
            Some((first, rest)) => node_in(&mut self.root).cut_at(first, rest).into_entry(),
        }
    }

    fn insert(&mut self, key: &DnKey, entry: Entry) -> Result<(), Entry> {
        let entry = settled(self.alloc, &mut self.shared, key, entry);
        let leaf = Node::leaf(self.alloc, entry);
        let path = path_below(&self.suffix, key).unwrap();
        match path.split_first() {
            None => {
                self.root = Some(leaf);
                Ok(())
            }
            Some((first, rest)) => {
                match node_in(&mut self.root).grow_at(self.alloc, first, rest, Some(leaf)) {
                    Ok(()) => Ok(()),
                    Err(place) => Err(place.unwrap().into_entry()),
                }
            }
        }
    }

    fn add(&mut self, _alloc: Global, key: &DnKey, entry: Entry) -> Result<(), NotAdded> {
        let Some(path) = path_below(&self.suffix, key) else {
            return Err(NotAdded::NoParent(entry));
        };
        match path.split_first() {
            None => {
                if let Some(root) = &self.root {
                    // The root is asked for its entry, so that the proof knows that it has one.
                    let _entry = root.entry();
                    return Err(NotAdded::Taken);
                }
                let entry = settled(self.alloc, &mut self.shared, key, entry);
                self.root = Some(Node::leaf(self.alloc, entry));
                Ok(())
            }
            Some((first, rest)) => {
                let Some(root) = &mut self.root else {
                    return Err(NotAdded::NoParent(entry));
                };
                root.add_at(self.alloc, &mut self.shared, first, rest, entry)
            }
        }
    }

    fn packs_entries(&self) -> bool {
        true
    }

    fn height_below(&self, key: &DnKey) -> usize {
        self.node(key).unwrap().height()
    }

    fn move_subtree(&mut self, old: &DnKey, new: &DnKey, entry: Entry) -> Result<Entry, Entry> {
        if old == new {
            return Ok(self.replace(old, entry));
        }
        let entry = settled(self.alloc, &mut self.shared, new, entry);
        let (first, rest) = parts_below(&self.suffix, old);
        let (new_first, new_rest) = parts_below(&self.suffix, new);
        node_in(&mut self.root).move_at(self.alloc, first, rest, new_first, new_rest, entry)
    }

    fn spelled(&self, key: &DnKey) -> Result<Dn, Memory> {
        let mut rdns = Vec::with_capacity(self.alloc, key.depth())?;
        let path = path_below(&self.suffix, key).unwrap();
        let root = self.root.as_ref().unwrap();
        root.push_name(self.alloc, self.suffix.depth(), path, &mut rdns)?;
        Ok(Dn::of_rdns(rdns))
    }

    fn walk(&self) -> Result<Vec<(Dn, &Entry)>, Memory> {
        let mut walk = Vec::new(self.alloc);
        if let Some(root) = &self.root {
            root.walk(self.alloc, self.suffix.depth(), &[], &mut walk)?;
        }
        Ok(walk)
    }
}

/// The entry in little memory, at a key.
fn settled(alloc: Global, shared: &mut Shared, key: &DnKey, entry: Entry) -> Entry
    ensures { result ≡ entry }
{
    match key.parts().last() {
        Some(leaf) => entry.settled(alloc, leaf, shared),
        None => entry,
    }
}

/// What follows the suffix in a key, if the key is at or below it.
fn path_below<'k>(suffix: &DnKey, key: &'k DnKey) -> Option<&'k [RdnKey]>
    ensures value { option_map (λ path. path.now) result ≡ rest_below suffix.now key.now }
    ensures within_limit { length key.now ≤ 64 }
{
    key.parts().strip_prefix(suffix.parts())
}

/// What follows the suffix in a key below it: the first part, and the rest.
fn parts_below<'k>(suffix: &DnKey, key: &'k DnKey) -> (&'k RdnKey, &'k [RdnKey])
    requires { IsBelow suffix.now key.now }
    ensures { key.now ≡ suffix.now ++ result.0.now ∷ result.1.now }
{
    path_below(suffix, key).unwrap().split_first().unwrap()
}
