//! Names that are read one after the other, most of them below the same parents.

ghost use Rattle.std.specs.Prelude.{◌≡◌, ◌<◌, false, length, Some, IfOk, IfSome};
ghost use Rattle.dir_names.specs.Ascii.{comma};
ghost use Rattle.dir_names.specs.Inside.Children.{child_within_limits, if_keyed, keyed_child};
ghost use Rattle.dir_names.specs.Inside.KnownKeys.{IsKeyOf};
ghost use Rattle.dir_names.specs.KeyedNames.{keyed_name};
ghost use Rattle.dir_names.specs.Names.Reading.{pieces, rdn_of};
ghost use Rattle.dir_names.specs.Outcome.{Gives};
ghost use Rattle.dir_names.specs.Results.{option_collect};

use crate::name::reading::{read_rdn_within_limit, split_once_unescaped};
use crate::name::scope_of_rdns;
use crate::{Dn, DnKey, NameFault, Schema};
use std::alloc::Global;
use std::rc::Rc;

/// The number of names that are read before parents are remembered.
const FIRST_NAMES: usize = 64;

/// The number of slots, each of which remembers one parent: as many as 8 bits tell apart.
const SLOTS: usize = 256;

/// So many names whose parents have a slot are read, and are not below the parent that is remembered there,
/// before another parent is read for it: so parents that come by turns cost no reading of a parent each time.
const MISSES: u8 = 16;

/// A large odd number, by which hashes are multiplied.
const MULTIPLIER: u64 = 0x9e37_79b9_7f4a_7c15;

/// The length of the longest text whose parent is sought, in bytes. A longer one takes as long without it.
const MOST_TEXT: usize = 2048;

/// The length of the longest text of a parent that is remembered, in bytes.
const MOST_PARENT_TEXT: usize = 256;

/// The greatest number of pairs of type and value, in all RDNs, of a parent that is remembered.
const MOST_PARENT_PAIRS: usize = 8;

/// The length of the longest text that the key of a parent is ordered by, in bytes, if it is remembered.
const MOST_PARENT_KEY: usize = 1024;

/// Reads names one after the other. After some of them it remembers parents that come again: of a name below
/// one of these only the leaf is read.
#[derive(Drop)]
pub struct NameReader {
    /// How many of the first names were read.
    first_names: usize,
    /// No slots, until the first names were read.
    slots: Vec<Slot>,
}

impl NameReader {
    /// A reader that remembers no parent yet.
    pub fn new(alloc: Global) -> NameReader {
        NameReader {
            first_names: 0,
            slots: Vec::new(alloc),
        }
    }

    /// Reads a name that has a key. The empty text is the name without RDNs.
    ///
    /// # Errors
    ///
    /// `BadDn` if the text is not a name; else `NameLimit` if the name has more than 64 RDNs, or one that
    /// prints to more than 4,096 bytes; else `BadDn` if an RDN has no key.
    pub fn read(&mut self, alloc: Global, schema: &Schema, text: &[u8]) -> Result<Dn, NameFault>
        ensures { Gives (λ name. name) result (keyed_name schema.now text.now) }
    {
        // By its leaf alone, if its parent is remembered; else as a whole.
        match self.read_child(alloc, schema, text) {
            Some(answer) => answer,
            None => read_whole(alloc, schema, text),
        }
    }

    /// What `read` answers, if the parent that the text names is remembered.
    fn read_child(
        &mut self,
        alloc: Global,
        schema: &Schema,
        text: &[u8],
    ) -> Option<Result<Dn, NameFault>>
        ensures { IfSome result (λ answer. Gives (λ name. name) answer (keyed_name schema.now text.now)) }
    {
        if self.first_names < FIRST_NAMES {
            self.first_names += 1;
            return None;
        }
        if text.len() > MOST_TEXT {
            return None;
        }
        let (leaf, above) = split_once_unescaped(text, b',');
        let above = above?;
        if above.is_empty() || above.len() > MOST_PARENT_TEXT {
            return None;
        }
        let hash = hash_of(above);
        let slot = self.slot(alloc, hash)?;
        slot.read_child(alloc, schema, leaf, above, hash)
    }

    /// The slot of a hash. There is none if memory runs out.
    fn slot(&mut self, alloc: Global, hash: u64) -> Option<&mut Slot> {
        if self.slots.is_empty() {
            self.slots = empty_slots(alloc).ok()?;
        }
        let slots = self.slots.as_mut_slice();
        slots.get_mut((hash >> 56) as usize)
    }
}

/// Slots without parents.
fn empty_slots(alloc: Global) -> Result<Vec<Slot>, NameFault> {
    let mut slots = Vec::with_capacity(alloc, SLOTS)?;
    for _ in 0..SLOTS {
        slots.push(Slot::empty())?;
    }
    Ok(slots)
}

/// A number for a text, of which each byte of the text changes the highest bits.
pub(crate) fn hash_of(text: &[u8]) -> u64 {
    let (words, rest) = text.as_chunks::<8>();
    let mut hash = 0u64;
    for word in words {
        hash = mixed(hash, u64::from_le_bytes(*word));
    }
    for b in rest {
        hash = mixed(hash, u64::from(*b));
    }
    hash
}

fn mixed(hash: u64, word: u64) -> u64 {
    (hash ^ word).wrapping_mul(MULTIPLIER)
}

/// What is known of the parents whose hashes have this slot.
#[derive(Drop)]
struct Slot {
    /// The hash of the text that was last sought here in vain.
    missed: u64,
    /// Before another parent is read, so many more texts must be sought here in vain.
    misses_left: u8,
    parent: Option<Box<KnownParent>>,
}

impl Slot {
    fn empty() -> Slot {
        Slot {
            missed: 0,
            misses_left: 0,
            parent: None,
        }
    }

    /// The name with this leaf below the parent that the text `above` spells, if that is remembered, or is
    /// read here since its text comes again.
    fn read_child(
        &mut self,
        alloc: Global,
        schema: &Schema,
        leaf: &[u8],
        above: &[u8],
        hash: u64,
    ) -> Option<Result<Dn, NameFault>>
        requires { 0 < length above.now }
        ensures { IfSome result (λ answer. Gives (λ name. name) answer (keyed_child schema.now leaf.now above.now)) }
    {
        if let Some(parent) = &self.parent
            && parent.text.as_slice() == above
        {
            self.misses_left = MISSES;
            return Some(parent.read_child(alloc, schema, leaf));
        }
        if !self.is_due(hash) {
            return None;
        }
        // The parent is read before the leaf, since its text is short; one that can't be remembered is read again
        // with the whole name.
        let parent = KnownParent::read(alloc, schema, above).ok()??;
        let answer = parent.read_child(alloc, schema, leaf);
        self.remember(alloc, parent);
        Some(answer)
    }

    /// Whether a text that is sought in vain is the one that was last sought so, and enough others were.
    fn is_due(&mut self, hash: u64) -> bool {
        let comes_again = self.missed == hash;
        self.missed = hash;
        if self.misses_left > 0 {
            self.misses_left -= 1;
            return false;
        }
        if comes_again {
            self.misses_left = MISSES;
        }
        comes_again
    }

    /// Puts a parent into the slot, unless memory runs out.
    fn remember(&mut self, alloc: Global, parent: KnownParent) {
        if let Ok(parent) = Box::new(alloc, parent) {
            self.parent = Some(parent);
        }
    }
}

/// The name that a text spells, and the key of the name.
#[derive(Drop)]
struct KnownParent {
    text: Vec<u8>,
    name: Dn,
    key: Rc<DnKey>,
    ghost spelled: { option_collect rdn_of (pieces comma false text.items) ≡ Some name },
    ghost keyed: { IsKeyOf name key.value },
}

impl KnownParent {
    /// Reads a parent by its text, which is not empty, if the parent is small enough to be remembered, and its types are
    /// built in: so its key is the same under each schema.
    fn read(alloc: Global, schema: &Schema, text: &[u8]) -> Result<Option<KnownParent>, NameFault>
        requires { 0 < length text.now }
        ensures { IfOk result (λ parent. IfSome parent (λ parent. parent.text.items ≡ text.now)) }
    {
        schema.keeps_builtin_types();
        if pairs_at_most(text) > MOST_PARENT_PAIRS {
            return Ok(None);
        }
        let name = Dn::read(alloc, text)?;
        if !scope_of_rdns(schema, name.rdns()).is_each_schema() {
            return Ok(None);
        }
        let key = name.key(alloc, schema)?;
        if key.sort_text().len() > MOST_PARENT_KEY {
            return Ok(None);
        }
        let text = text.to_vec(alloc)?;
        let key = Rc::new(alloc, key)?;
        Ok(Some(KnownParent { text, name, key }))
    }

    /// Reads the name of a child that has a key, by the text of its leaf.
    fn read_child(&self, alloc: Global, schema: &Schema, leaf: &[u8]) -> Result<Dn, NameFault>
        ensures { Gives (λ name. name) result (keyed_child schema.now leaf.now self.now.text.items) }
    {
        let name = self.child(alloc, leaf)?;
        if_keyed(alloc, schema, name)
    }

    /// The name of a child, by the text of its leaf.
    fn child(&self, alloc: Global, leaf: &[u8]) -> Result<Dn, NameFault>
        ensures { Gives (λ name. name) result (child_within_limits leaf.now self.now.text.items) }
    {
        let rdn = read_rdn_within_limit(alloc, leaf)?;
        let _rdns = self.name.rdns();
        self.name.child(alloc, rdn, &self.key)
    }
}

/// How many pairs of type and value a text has at most.
fn pairs_at_most(text: &[u8]) -> usize {
    let separators = text.iter().filter(|b| matches!(**b, b',' | b'+')).count();
    separators.saturating_add(1)
}

/// Reads a name that has a key.
fn read_whole(alloc: Global, schema: &Schema, text: &[u8]) -> Result<Dn, NameFault>
    ensures { Gives (λ name. name) result (keyed_name schema.now text.now) }
{
    let name = Dn::read(alloc, text)?;
    if_keyed(alloc, schema, name)
}

/// The name, if it has a key.
fn if_keyed(alloc: Global, schema: &Schema, name: Dn) -> Result<Dn, NameFault>
    ensures { Gives (λ name. name) result (if_keyed schema.now name) }
{
    if !name.has_key(alloc, schema)? {
        return Err(NameFault::BadDn);
    }
    Ok(name)
}
