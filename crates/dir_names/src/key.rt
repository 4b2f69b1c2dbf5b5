//! What names and RDNs are compared by. `sorting` has the texts that make a comparison one pass over bytes,
//! `sort_key` the keys of names that are values, and `recent` those that were read last.

ghost use Rattle.std.specs.Cmp.{partial_order_from_agreeing_total};
ghost use Rattle.std.specs.Ordering.{as_partial_cmp};
ghost use Rattle.std.specs.Prelude.{◌≡◌, ◌<◌, ◌≤◌, ◌↔◌, [], ◌∷◌, ◌++◌, IfErr, IfOk, IfSome, IsTrue, Ok, Err, cond, nat_lt, refl, length};
ghost use Rattle.dir_names.specs.Keys.{is_rdn_key, with_pair, IsAtOrBelow, IsParent, parent_of};
ghost use Rattle.dir_names.specs.Orders.{rdn_key_cmp, rdn_key_eq, rdn_key_cmp_total, rdn_key_cmp_ties, pair_cmp, pair_eq, dn_key_cmp, dn_key_eq, dn_key_cmp_total, dn_key_cmp_ties, tied_equiv, tied_per};
ghost use Rattle.dir_names.specs.Inside.Parents.{AreSortTexts, parts_above};
ghost use Rattle.dir_names.specs.Inside.SortTexts.{name_sort};
ghost use Rattle.dir_names.specs.Outcome.{Gives};
ghost use Rattle.dir_names.specs.declared.fault.NameFault.TheVariants.{NameLimit};

mod plain;
pub(crate) mod plain_parents;
pub(crate) mod recent;
pub(crate) mod sort_key;
pub(crate) mod sorting;

use crate::key::sorting::{part_len, put_name, put_part};
use crate::limits::MAX_RDNS;
use crate::list::few::Few;
use crate::list::short::cmp_short;
use crate::{AttrKey, Bytes, NameFault};
use std::alloc::Global;
use std::cmp::Ordering;
use std::marker::Model;
use std::rc::Rc;

/// The pairs of attribute and value key of an RDN, in order.
#[derive(Debug, Drop)]
pub(crate) struct PairSet {
    pairs: Few<(AttrKey, Bytes)>,
}

impl Model for PairSet {
    ghost use Rattle.std.specs.Prelude.{ℕ, List};
    ghost use Rattle.dir_names.specs.Attr.{Attr};

    ghost Value = { List (Attr × List ℕ) };

    ghost use Rattle.std.specs.Prelude.{IsTrue};
    ghost use Rattle.dir_names.specs.Inside.Few.{few_items};
    ghost use Rattle.dir_names.specs.Keys.{is_rdn_key};

    ghost view = { λ set. few_items set.pairs };

    ghost invariant = { λ set. IsTrue (is_rdn_key (few_items set.pairs)) };
}

impl PairSet {
    pub(crate) fn empty() -> PairSet
        ensures { result ≡ [] }
    {
        PairSet { pairs: Few::None }
    }

    /// The set with one pair more, or `BadDn` if its type is there already.
    pub(crate) fn with(
        self,
        alloc: Global,
        attr: AttrKey,
        value: Bytes,
    ) -> Result<PairSet, NameFault>
        ensures { Gives (λ set. set) result (with_pair attr value self) }
    {
        let pairs = self.pairs;
        match pairs.as_slice().binary_search_by(|pair| pair.0.cmp(&attr)) {
            Ok(_) => Err(NameFault::BadDn),
            Err(at) => Ok(PairSet {
                pairs: pairs.with(alloc, at, (attr, value))?,
            }),
        }
    }

    fn as_slice(&self) -> &[(AttrKey, Bytes)]
        ensures value { result.now ≡ self.now }
        ensures set { IsTrue (is_rdn_key self.now) }
    {
        self.pairs.as_slice()
    }

    /// The pair of a set that has one alone.
    #[inline(always)]
    fn only(&self) -> Option<&(AttrKey, Bytes)>
        ensures { IfSome result (λ pair. self.now ≡ pair.now ∷ []) }
    {
        match &self.pairs {
            Few::One(pair) => Some(pair),
            _ => None,
        }
    }
}

/// What an RDN is compared by: the set of its pairs of attribute and value key, in order. Copies
/// share its memory.
#[derive(Debug, Drop)]
pub struct RdnKey {
    set: Rc<PairSet>,
}

impl Model for RdnKey {
    ghost use Rattle.std.specs.Prelude.{ℕ, List};
    ghost use Rattle.dir_names.specs.Attr.{Attr};

    ghost Value = { List (Attr × List ℕ) };

    ghost view = { λ key. key.set.value };
}

impl RdnKey {
    /// The pairs in order of their keys. No type occurs twice.
    pub fn pairs(&self) -> &[(AttrKey, Bytes)]
        ensures value { result.now ≡ self.now }
        ensures set { IsTrue (is_rdn_key self.now) }
    {
        self.set.as_slice()
    }

    /// The same key, in the same memory.
    pub fn try_clone(&self, _alloc: Global) -> Result<RdnKey, NameFault>
        ensures { Gives (λ key. key) result (Ok self.now) }
    {
        Ok(RdnKey {
            set: self.set.clone()?,
        })
    }

    pub(crate) fn of(alloc: Global, set: PairSet) -> Result<RdnKey, NameFault>
        ensures { Gives (λ key. key) result (Ok set) }
    {
        Ok(RdnKey {
            set: Rc::new(alloc, set)?,
        })
    }

    #[inline(always)]
    fn only_pair(&self) -> Option<&(AttrKey, Bytes)>
        ensures { IfSome result (λ pair. self.now ≡ pair.now ∷ []) }
    {
        self.set.only()
    }

    #[inline(never)]
    fn eq_by_pairs(&self, other: &RdnKey) -> bool
        ensures { result ≡ rdn_key_eq self.now other.now }
    {
        self.pairs() == other.pairs()
    }

    #[inline(never)]
    fn cmp_by_pairs(&self, other: &RdnKey) -> Ordering
        ensures { result ≡ rdn_key_cmp self.now other.now }
    {
        self.pairs().cmp(other.pairs())
    }
}

fn eq_pair(one: &(AttrKey, Bytes), other: &(AttrKey, Bytes)) -> bool
    ensures { result ≡ pair_eq one.now other.now }
{
    one.0 == other.0 && one.1 == other.1
}

#[inline(always)]
fn cmp_pair(one: &(AttrKey, Bytes), other: &(AttrKey, Bytes)) -> Ordering
    ensures { result ≡ pair_cmp one.now other.now }
{
    match one.0.cmp(&other.0) {
        Ordering::Equal => cmp_short(one.1.as_slice(), other.1.as_slice()),
        found => found,
    }
}

impl PartialEq for RdnKey {
    ghost eq = { rdn_key_eq };

    ghost laws = { tied_per rdn_key_cmp rdn_key_cmp_total rdn_key_cmp_ties };

    fn eq(&self, other: &RdnKey) -> bool {
        match (self.only_pair(), other.only_pair()) {
            (Some(pair), Some(other_pair)) => eq_pair(pair, other_pair),
            _ => self.eq_by_pairs(other),
        }
    }
}

impl Eq for RdnKey {
    ghost laws = { tied_equiv rdn_key_cmp rdn_key_cmp_total rdn_key_cmp_ties };
}

impl PartialOrd for RdnKey {
    ghost partial_cmp = { as_partial_cmp rdn_key_cmp };

    ghost laws = { partial_order_from_agreeing_total rdn_key_cmp rdn_key_cmp_total (λ _ _. refl) rdn_key_cmp_ties };

    fn partial_cmp(&self, other: &RdnKey) -> Option<Ordering> {
        Some(self.cmp(other))
    }
}

impl Ord for RdnKey {
    ghost cmp = { rdn_key_cmp };

    ghost total = { rdn_key_cmp_total };

    ghost matches_partial_cmp = { λ _ _. refl };

    ghost matches_eq = { rdn_key_cmp_ties };

    #[inline(always)]
    fn cmp(&self, other: &RdnKey) -> Ordering {
        match (self.only_pair(), other.only_pair()) {
            (Some(pair), Some(other_pair)) => cmp_pair(pair, other_pair),
            _ => self.cmp_by_pairs(other),
        }
    }
}

/// The keys of the at most 64 RDNs of a name, root first, and the text that the name is ordered by, which
/// begins with that of its parent.
#[derive(Debug, Drop)]
struct NameKey {
    parts: Vec<RdnKey>,
    sort: Vec<u8>,
    /// The length of the parent's text.
    above: usize,
}

impl Model for NameKey {
    ghost use Rattle.std.specs.Prelude.{ℕ, List};
    ghost use Rattle.dir_names.specs.Attr.{Attr};

    ghost Value = { List (List (Attr × List ℕ)) };

    ghost view = { λ key. key.parts.items };

    ghost use Rattle.std.specs.Prelude.{◌≤◌, length};
    ghost use Rattle.dir_names.specs.Inside.Parents.{AreSortTexts};

    ghost invariant = { λ key. AreSortTexts key.parts.items key.sort.items key.above × (length key.parts.items ≤ 64) };
}

impl NameKey {
    fn new(alloc: Global, parts: Vec<RdnKey>) -> Result<NameKey, NameFault>
        requires { length parts.items ≤ 64 }
        ensures { Gives (λ key. key) result (Ok parts.items) }
    {
        let mut sort = Vec::with_capacity(alloc, parts.len().saturating_mul(24))?;
        let above = put_name_and_above(parts.as_slice(), &mut sort)?;
        sort.shrink_to_fit();
        Ok(NameKey { parts, sort, above })
    }

    /// The key of the name that has these parts and one more. `sort` is the text of these.
    fn with_leaf(
        alloc: Global,
        parts: &[RdnKey],
        sort: &[u8],
        leaf: &RdnKey,
    ) -> Result<NameKey, NameFault>
        requires room { length parts.now < 64 }
        requires sorted { sort.now ≡ name_sort parts.now }
        ensures { Gives (λ key. key) result (Ok (parts.now ++ leaf.now ∷ [])) }
    {
        let above = sort.len();
        let mut whole = Vec::with_capacity(alloc, above.saturating_add(part_len(leaf)))?;
        whole.extend_from_slice(sort)?;
        put_part(leaf, &mut whole)?;
        whole.shrink_to_fit();
        let mut parts = cloned_parts(alloc, parts, 1)?;
        parts.push(leaf.try_clone(alloc)?)?;
        Ok(NameKey {
            parts,
            sort: whole,
            above,
        })
    }

    fn as_slice(&self) -> &[RdnKey]
        ensures value { result.now ≡ self.now }
        ensures within_limit { length self.now ≤ 64 }
    {
        self.parts.as_slice()
    }

    fn sort_text(&self) -> &[u8]
        ensures { result.now ≡ name_sort self.now }
    {
        self.sort.as_slice()
    }

    /// The parts above the leaf.
    fn above(&self) -> &[RdnKey]
        ensures value { result.now ≡ parts_above self.now }
        ensures within_limit { length self.now ≤ 64 }
    {
        &self.parts[..self.parts.len().saturating_sub(1)]
    }

    fn sort_text_above(&self) -> &[u8]
        ensures { result.now ≡ name_sort (parts_above self.now) }
    {
        &self.sort[..self.above]
    }
}

/// Puts the text of a name, and tells how long that of its parent is.
fn put_name_and_above(parts: &[RdnKey], sort: &mut Vec<u8>) -> Result<usize, NameFault>
    requires { sort.old.items ≡ [] }
    ensures texts { IfOk result (AreSortTexts parts.now sort.new.items) }
    ensures memory { IfErr result (λ e. e ≡ NameFault.Memory) }
{
    let Some((leaf, above)) = parts.split_last() else {
        return Ok(0);
    };
    put_name(above, sort)?;
    let len = sort.len();
    put_part(leaf, sort)?;
    Ok(len)
}

/// What a name is compared by: the keys of its RDNs, root first, so that a name comes before all names
/// below it. It has at most 64, as a name has. Copies share its memory, and so does the key of the parent.
#[derive(Debug, Drop)]
pub struct DnKey {
    shared: Rc<NameKey>,
    /// Whether the name is the parent of the one that is shared.
    is_above: bool,
}

impl Model for DnKey {
    ghost use Rattle.std.specs.Prelude.{ℕ, List};
    ghost use Rattle.dir_names.specs.Attr.{Attr};

    ghost Value = { List (List (Attr × List ℕ)) };

    ghost use Rattle.dir_names.specs.Inside.Parents.{parts_or_above};

    ghost view = { λ key. parts_or_above key.is_above key.shared.value };
}

impl DnKey {
    /// Whether this name is `other` or is below it.
    pub fn at_or_below(&self, other: &DnKey) -> bool
        ensures { IsTrue result ↔ IsAtOrBelow self.now other.now }
    {
        self.parts().starts_with(other.parts())
    }

    /// Whether this name is that of the parent of `other`.
    pub fn is_parent_of(&self, other: &DnKey) -> bool
        ensures { IsTrue result ↔ IsParent self.now other.now }
    {
        match other.parts().split_last() {
            Some((_, above)) => above == self.parts(),
            None => false,
        }
    }

    /// The number of RDNs.
    pub fn depth(&self) -> usize
        ensures value { result ≡ length self.now }
        ensures within_limit { length self.now ≤ 64 }
    {
        self.parts().len()
    }

    /// The key of the name with one RDN more at its leaf.
    ///
    /// # Errors
    ///
    /// `NameLimit` if this name has 64 RDNs.
    pub fn child(&self, alloc: Global, part: &RdnKey) -> Result<DnKey, NameFault>
        ensures { Gives (λ key. key) result (cond (nat_lt (length self.now) 64) (Ok (self.now ++ part.now ∷ [])) (Err NameLimit)) }
    {
        if self.depth() >= MAX_RDNS {
            return Err(NameFault::NameLimit);
        }
        let child = NameKey::with_leaf(alloc, self.parts(), self.sort_text(), part)?;
        DnKey::of(alloc, child)
    }

    /// The key of the name without its leaf, or `None` for the name without RDNs.
    pub fn parent(&self, alloc: Global) -> Result<Option<DnKey>, NameFault>
        ensures { Gives (λ key. key) result (Ok (parent_of self.now)) }
    {
        let Some((_, above)) = self.parts().split_last() else {
            return Ok(None);
        };
        if self.is_above {
            let parts = cloned_parts(alloc, above, 0)?;
            return Ok(Some(DnKey::from_parts(alloc, parts)?));
        }
        Ok(Some(DnKey {
            shared: self.shared.clone()?,
            is_above: true,
        }))
    }

    /// The keys of the RDNs, root first.
    pub fn parts(&self) -> &[RdnKey]
        ensures value { result.now ≡ self.now }
        ensures within_limit { length self.now ≤ 64 }
    {
        if self.is_above {
            self.shared.above()
        } else {
            self.shared.as_slice()
        }
    }

    /// The text that the key is ordered by.
    pub(crate) fn sort_text(&self) -> &[u8]
        ensures { result.now ≡ name_sort self.now }
    {
        if self.is_above {
            self.shared.sort_text_above()
        } else {
            self.shared.sort_text()
        }
    }

    /// The same key, in the same memory.
    pub fn try_clone(&self, _alloc: Global) -> Result<DnKey, NameFault>
        ensures { Gives (λ key. key) result (Ok self.now) }
    {
        Ok(DnKey {
            shared: self.shared.clone()?,
            is_above: self.is_above,
        })
    }

    fn of(alloc: Global, key: NameKey) -> Result<DnKey, NameFault>
        ensures { Gives (λ key. key) result (Ok key) }
    {
        Ok(DnKey {
            shared: Rc::new(alloc, key)?,
            is_above: false,
        })
    }

    pub(crate) fn from_parts(alloc: Global, parts: Vec<RdnKey>) -> Result<DnKey, NameFault>
        requires { length parts.items ≤ 64 }
        ensures { Gives (λ key. key) result (Ok parts.items) }
    {
        DnKey::of(alloc, NameKey::new(alloc, parts)?)
    }
}

impl PartialEq for DnKey {
    ghost eq = { dn_key_eq };

    ghost laws = { tied_per dn_key_cmp dn_key_cmp_total dn_key_cmp_ties };

    fn eq(&self, other: &DnKey) -> bool {
        self.sort_text() == other.sort_text()
    }
}

impl Eq for DnKey {
    ghost laws = { tied_equiv dn_key_cmp dn_key_cmp_total dn_key_cmp_ties };
}

impl PartialOrd for DnKey {
    ghost partial_cmp = { as_partial_cmp dn_key_cmp };

    ghost laws = { partial_order_from_agreeing_total dn_key_cmp dn_key_cmp_total (λ _ _. refl) dn_key_cmp_ties };

    fn partial_cmp(&self, other: &DnKey) -> Option<Ordering> {
        Some(self.cmp(other))
    }
}

impl Ord for DnKey {
    ghost cmp = { dn_key_cmp };

    ghost total = { dn_key_cmp_total };

    ghost matches_partial_cmp = { λ _ _. refl };

    ghost matches_eq = { dn_key_cmp_ties };

    fn cmp(&self, other: &DnKey) -> Ordering {
        self.sort_text().cmp(other.sort_text())
    }
}

/// Copies of the parts, with room for so many more.
fn cloned_parts(alloc: Global, parts: &[RdnKey], room: usize) -> Result<Vec<RdnKey>, NameFault>
    ensures { Gives (λ copy. copy.items) result (Ok parts.now) }
{
    let mut copy = Vec::with_capacity(alloc, parts.len().saturating_add(room))?;
    for part in parts {
        copy.push(part.try_clone(alloc)?)?;
    }
    Ok(copy)
}
