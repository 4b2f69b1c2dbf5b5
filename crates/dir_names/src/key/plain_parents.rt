//! The parents of the names that were read as values. Of a name below one of them only the leaf is read. A parent is
//! remembered only where its types are built in, so that its key is the same under each schema.

ghost use Rattle.std.specs.Prelude.{◌≡◌, ◌++◌, IfOk, IfSome, Some, option_map};
ghost use Rattle.dir_names.specs.Inside.PlainParents.{IsPlainParentEverywhere};
ghost use Rattle.dir_names.specs.Inside.Scopes.{HoldsWithin};
ghost use Rattle.dir_names.specs.Inside.SortTexts.{name_sort};
ghost use Rattle.dir_names.specs.NameKeys.{name_value_key};

use crate::key::plain::{put_plain_parent, put_plain_rdn};
use crate::name::reader::hash_of;
use crate::schema::scope::Scope;
use crate::{NameFault, Schema};
use std::alloc::Global;

/// The number of slots, each of which remembers one parent: as many as 10 bits tell apart.
const SLOTS: usize = 1024;

/// So many names are read before parents are remembered, so that a few names cost no slots.
const FIRST_NAMES: usize = 64;

/// A parent whose text has more bytes is not remembered. The text of its key has at most 11 bytes more for each RDN.
const MOST_BYTES: usize = 256;

/// So many names are read in vain at a slot before its parent gives way to another one. To remember a parent takes less
/// time than to read two, so parents that come by turns cost little, and one that comes no more is soon forgotten.
const MOST_MISSES: u32 = 4;

/// By how many bytes the text of the key of a plain RDN is longer than the RDN, if its type is spelled as in the key.
const MARKS: usize = 5;

/// Parents of the plain names that were read: those that were met again.
#[derive(Drop)]
pub(crate) struct PlainParents {
    /// How many names have been read before there are slots.
    names: usize,
    /// The slots of the parents' texts.
    slots: Option<Vec<Slot>>,
}

/// A place for a parent.
#[derive(Drop)]
struct Slot {
    /// The upper half of the hash of the text that was last sought here in vain.
    sought: u32,
    /// How many texts were sought here in vain since the parent came.
    misses: u32,
    parent: Option<Box<PlainParent>>,
}

/// The text after the leaf of a plain name, and the text of the key of the parent, which is the same under each schema.
#[derive(Drop)]
pub(crate) struct PlainParent {
    text: Vec<u8>,
    sort_text: Vec<u8>,
    ghost is_parent: { ∥ IsPlainParentEverywhere text.items sort_text.items ∥₁ },
}

impl PlainParents {
    pub(crate) fn none() -> PlainParents {
        PlainParents {
            names: 0,
            slots: None,
        }
    }

    /// The parent with this text after the leaf of each child, if it is remembered.
    pub(crate) fn known_parent(&self, text: &[u8]) -> Option<&PlainParent>
        ensures { IfSome result (λ parent. parent.now.text.items ≡ text.now) }
    {
        let slots = self.slots.as_ref()?;
        if text.len() > MOST_BYTES {
            return None;
        }
        match slots.get(slot_of(hash_of(text))) {
            Some(
                Slot {
                    parent: Some(parent),
                    ..
                },
            ) if parent.text.as_slice() == text => Some(parent),
            _ => None,
        }
    }

    /// Does what `put_plain_name` does, remembers the parent, which is not known yet, and answers under which schemas the
    /// text is that of the key.
    pub(crate) fn put_plain_name(
        &mut self,
        alloc: Global,
        schema: &Schema,
        value: &[u8],
        out: &mut Vec<u8>,
    ) -> Result<Scope, NameFault>
        ensures { IfOk result (λ scope. HoldsWithin scope schema.now (λ rows. option_map name_sort (name_value_key rows value.now) ≡ Some out.new.items)) }
    {
        schema.keeps_builtin_types();
        match put_plain_parent(alloc, schema, value, out) {
            Ok((leaf, above, scope)) => {
                if scope.is_each_schema() {
                    self.remember(alloc, above, out.as_slice());
                }
                match put_plain_rdn(alloc, schema, leaf, out) {
                    Ok(of_leaf) => Ok(scope.and(of_leaf)),
                    Err(fault) => Err(fault),
                }
            }
            Err(fault) => Err(fault),
        }
    }

    /// Puts a parent into its slot, if it has RDNs and short texts, was sought there the last time too, and there is memory
    /// for it. The parent that is there stays at first.
    fn remember(&mut self, alloc: Global, text: &[u8], sort_text: &[u8])
        requires { IsPlainParentEverywhere text.now sort_text.now }
    {
        if text.is_empty() || text.len() > MOST_BYTES {
            return;
        }
        if self.names < FIRST_NAMES {
            self.names += 1;
            return;
        }
        if self.slots.is_none() {
            self.slots = empty_slots(alloc).ok();
        }
        let hash = hash_of(text);
        let Some(slot) = self
            .slots
            .as_mut()
            .and_then(|slots| slots.get_mut(slot_of(hash)))
        else {
            return;
        };
        if !slot.gives_way(hash) {
            return;
        }
        if let Ok(parent) = PlainParent::boxed(alloc, text, sort_text) {
            slot.parent = Some(parent);
            slot.misses = 0;
        }
    }
}

impl Slot {
    /// Whether a text that was sought here in vain is to be remembered here.
    fn gives_way(&mut self, hash: u64) -> bool {
        self.misses = self.misses.saturating_add(1);
        let sought = (hash >> 32) as u32;
        if self.sought != sought {
            self.sought = sought;
            return false;
        }
        self.parent.is_none() || self.misses >= MOST_MISSES
    }
}

impl PlainParent {
    fn boxed(alloc: Global, text: &[u8], sort_text: &[u8]) -> Result<Box<PlainParent>, NameFault>
        requires { IsPlainParentEverywhere text.now sort_text.now }
    {
        let text = text.to_vec(alloc)?;
        let sort_text = sort_text.to_vec(alloc)?;
        Ok(Box::new(alloc, PlainParent { text, sort_text })?)
    }

    /// How long the text of the key of a child is, if its leaf is plain.
    pub(crate) fn child_sort_len(&self, leaf: &[u8]) -> usize {
        let len = self.sort_text.len().saturating_add(leaf.len());
        len.saturating_add(MARKS)
    }

    /// Writes the text of the key of a child whose leaf has this text, if the leaf is plain, and answers under which schemas
    /// it is that of the key.
    pub(crate) fn put_child(
        &self,
        alloc: Global,
        schema: &Schema,
        leaf: &[u8],
        out: &mut Vec<u8>,
    ) -> Result<Scope, NameFault>
        ensures { IfOk result (λ scope. HoldsWithin scope schema.now (λ rows. option_map name_sort (name_value_key rows (leaf.now ++ self.now.text.items)) ≡ Some out.new.items)) }
    {
        schema.keeps_builtin_types();
        out.clear();
        match out.extend_from_slice(self.sort_text.as_slice()) {
            Ok(()) => put_plain_rdn(alloc, schema, leaf, out),
            Err(e) => Err(e.into()),
        }
    }
}

/// Slots without parents.
fn empty_slots(alloc: Global) -> Result<Vec<Slot>, NameFault> {
    let mut slots = Vec::with_capacity(alloc, SLOTS)?;
    for _ in 0..SLOTS {
        slots.push(Slot {
            sought: 0,
            misses: 0,
            parent: None,
        })?;
    }
    Ok(slots)
}

fn slot_of(hash: u64) -> usize {
    (hash >> 54) as usize
}
