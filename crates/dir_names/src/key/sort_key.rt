//! The key of a name that is a value. Such a key is only compared, so it is kept as its text alone.

ghost use Rattle.std.specs.Cmp.{partial_order_from_agreeing_total};
ghost use Rattle.std.specs.Ordering.{as_partial_cmp};
ghost use Rattle.std.specs.Prelude.{◌≡◌, ◌++◌, ◌∷◌, [], IfOk, Ok, Some, option_map, refl};
ghost use Rattle.dir_names.specs.Orders.{dn_key_cmp, dn_key_eq, dn_key_cmp_total, dn_key_cmp_ties, tied_equiv, tied_per};
ghost use Rattle.dir_names.specs.Outcome.{Gives, ok_or_bad_dn, ok_or_bad_value};
ghost use Rattle.dir_names.specs.Inside.Scopes.{IsScopeOfValue};
ghost use Rattle.dir_names.specs.Inside.SortTexts.{name_sort, rdn_sort};
ghost use Rattle.dir_names.specs.NameKeys.{name_key, name_value_key, rdn_key};
ghost use Rattle.dir_names.specs.Names.Reading.{name_within_limits};

use crate::key::plain::{cut_at_first_comma, put_plain_name};
use crate::key::plain_parents::{PlainParent, PlainParents};
use crate::key::sorting::{put_part, put_set};
use crate::name::{pair_key, scope_of_rdns};
use crate::schema::scope::Scope;
use crate::{Bytes, Dn, DnKey, NameFault, Rdn, Schema};
use std::alloc::Global;
use std::cmp::Ordering;
use std::marker::Model;
use std::rc::Rc;
use std::snapshot::Snapshot;
use std::{fmt, slice};

/// The text that the key of a name is ordered by. Of the value that spells the name nothing is kept: the
/// snapshots are for contracts, and take no memory.
#[derive(Drop)]
struct SortText {
    text: Vec<u8>,
    schema: Snapshot<Schema>,
    value: Snapshot<Vec<u8>>,
}

impl Model for SortText {
    ghost use Rattle.std.specs.Prelude.{ℕ, List};
    ghost use Rattle.dir_names.specs.Attr.{Attr};

    ghost Value = { List (List (Attr × List ℕ)) };

    ghost use Rattle.std.specs.Prelude.{◌≡◌};
    ghost use Rattle.dir_names.specs.Inside.SortKeys.{kept_key};
    ghost use Rattle.dir_names.specs.Inside.SortTexts.{name_sort};

    ghost view = { λ s. kept_key s.schema.value s.value.value.items };

    ghost invariant = { λ s. s.text.items ≡ name_sort (kept_key s.schema.value s.value.value.items) };
}

impl SortText {
    fn as_slice(&self) -> &[u8]
        ensures { result.now ≡ name_sort self.now }
    {
        self.text.as_slice()
    }
}

/// The key of a name as one text, whose bytes are in the order of the keys. Copies share its memory.
#[derive(Drop)]
pub struct DnSortKey {
    shared: Rc<SortText>,
}

impl Model for DnSortKey {
    ghost use Rattle.std.specs.Prelude.{ℕ, List};
    ghost use Rattle.dir_names.specs.Attr.{Attr};

    ghost Value = { List (List (Attr × List ℕ)) };

    ghost view = { λ key. key.shared.value };
}

impl DnSortKey {
    /// The key of the name that a value spells.
    ///
    /// # Errors
    ///
    /// `BadValue` if the value is not a name within the limits, or one of its RDNs has no key.
    pub fn read(alloc: Global, schema: &Schema, value: &[u8]) -> Result<DnSortKey, NameFault>
        ensures { Gives (λ key. key) result (ok_or_bad_value (name_value_key schema.now value.now)) }
    {
        let mut text = Vec::with_capacity(alloc, sort_len(value))?;
        text.extend_from_slice(value)?;
        let spelled = Snapshot::of(&text);
        match put_name(alloc, schema, value, &mut text) {
            Ok(()) => DnSortKey::of(
                alloc,
                SortText {
                    text,
                    schema: Snapshot::of(schema),
                    value: spelled,
                },
            ),
            Err(fault) => Err(fault),
        }
    }

    /// `read`, by the parents of the names that were read before, and the schemas under which this is the key.
    pub(crate) fn read_after(
        alloc: Global,
        schema: &Schema,
        value: &[u8],
        parents: &mut PlainParents,
    ) -> Result<(DnSortKey, Scope), NameFault>
        ensures key { Gives (λ read. read.0) result (ok_or_bad_value (name_value_key schema.now value.now)) }
        ensures scope { IfOk result (λ read. IsScopeOfValue read.1 schema.now value.now) }
    {
        if let Some((leaf, above)) = cut_at_first_comma(value) {
            if let Some(parent) = parents.known_parent(above) {
                return DnSortKey::read_child(alloc, schema, value, leaf, parent);
            }
        }
        DnSortKey::read_other(alloc, schema, value, parents)
    }

    /// `read` of a leaf below a parent. If the leaf isn't plain, the name is read as any other.
    fn read_child(
        alloc: Global,
        schema: &Schema,
        value: &[u8],
        leaf: &[u8],
        parent: &PlainParent,
    ) -> Result<(DnSortKey, Scope), NameFault>
        requires { value.now ≡ leaf.now ++ parent.now.text.items }
        ensures key { Gives (λ read. read.0) result (ok_or_bad_value (name_value_key schema.now value.now)) }
        ensures scope { IfOk result (λ read. IsScopeOfValue read.1 schema.now value.now) }
    {
        let mut text = Vec::with_capacity(alloc, value.len().max(parent.child_sort_len(leaf)))?;
        text.extend_from_slice(value)?;
        let spelled = Snapshot::of(&text);
        let scope = match put_child_name(alloc, schema, value, leaf, parent, &mut text) {
            Ok(scope) => scope,
            Err(fault) => return Err(fault),
        };
        text.shrink_to_fit();
        let key = DnSortKey::of(
            alloc,
            SortText {
                text,
                schema: Snapshot::of(schema),
                value: spelled,
            },
        )?;
        Ok((key, scope))
    }

    /// `read`, which remembers the parent of the name.
    #[inline(never)]
    fn read_other(
        alloc: Global,
        schema: &Schema,
        value: &[u8],
        parents: &mut PlainParents,
    ) -> Result<(DnSortKey, Scope), NameFault>
        ensures key { Gives (λ read. read.0) result (ok_or_bad_value (name_value_key schema.now value.now)) }
        ensures scope { IfOk result (λ read. IsScopeOfValue read.1 schema.now value.now) }
    {
        let mut text = Vec::with_capacity(alloc, sort_len(value))?;
        text.extend_from_slice(value)?;
        let spelled = Snapshot::of(&text);
        let scope = match put_name_below(alloc, schema, value, parents, &mut text) {
            Ok(scope) => scope,
            Err(fault) => return Err(fault),
        };
        let key = DnSortKey::of(
            alloc,
            SortText {
                text,
                schema: Snapshot::of(schema),
                value: spelled,
            },
        )?;
        Ok((key, scope))
    }

    fn of(alloc: Global, kept: SortText) -> Result<DnSortKey, NameFault>
        ensures { Gives (λ key. key) result (Ok kept) }
    {
        Ok(DnSortKey {
            shared: Rc::new(alloc, kept)?,
        })
    }

    /// Whether this is the key of the same name.
    pub fn is_same(&self, key: &DnKey) -> bool
        ensures { result ≡ dn_key_eq self.now key.now }
    {
        self.as_slice() == key.sort_text()
    }

    /// How this key compares to the key of a name.
    pub fn cmp_key(&self, key: &DnKey) -> Ordering
        ensures { result ≡ dn_key_cmp self.now key.now }
    {
        self.as_slice().cmp(key.sort_text())
    }

    /// The same key, in the same memory.
    pub fn try_clone(&self, _alloc: Global) -> Result<DnSortKey, NameFault>
        ensures { Gives (λ key. key) result (Ok self.now) }
    {
        Ok(DnSortKey {
            shared: self.shared.clone()?,
        })
    }

    fn as_slice(&self) -> &[u8]
        ensures { result.now ≡ name_sort self.now }
    {
        self.shared.as_slice()
    }
}

impl fmt::Debug for DnSortKey {
    fn fmt<W: fmt::Write>(&self, f: &mut fmt::Formatter<W>) -> fmt::Result {
        let text = self.as_slice();
        write!(f, "{text:?}")
    }
}

impl PartialEq for DnSortKey {
    ghost eq = { dn_key_eq };

    ghost laws = { tied_per dn_key_cmp dn_key_cmp_total dn_key_cmp_ties };

    fn eq(&self, other: &DnSortKey) -> bool {
        self.as_slice() == other.as_slice()
    }
}

impl Eq for DnSortKey {
    ghost laws = { tied_equiv dn_key_cmp dn_key_cmp_total dn_key_cmp_ties };
}

impl PartialOrd for DnSortKey {
    ghost partial_cmp = { as_partial_cmp dn_key_cmp };

    ghost laws = { partial_order_from_agreeing_total dn_key_cmp dn_key_cmp_total (λ _ _. refl) dn_key_cmp_ties };

    fn partial_cmp(&self, other: &DnSortKey) -> Option<Ordering> {
        Some(self.cmp(other))
    }
}

impl Ord for DnSortKey {
    ghost cmp = { dn_key_cmp };

    ghost total = { dn_key_cmp_total };

    ghost matches_partial_cmp = { λ _ _. refl };

    ghost matches_eq = { dn_key_cmp_ties };

    fn cmp(&self, other: &DnSortKey) -> Ordering {
        self.as_slice().cmp(other.as_slice())
    }
}

/// How long the text of a plain name is, if its types are spelled as in their keys.
fn sort_len(value: &[u8]) -> usize {
    let commas = value.iter().filter(|b| **b == b',').count();
    value
        .len()
        .saturating_add(commas.saturating_mul(4))
        .saturating_add(5)
}

/// Writes the text of the key of the name that a value spells.
fn put_name(
    alloc: Global,
    schema: &Schema,
    value: &[u8],
    out: &mut Vec<u8>,
) -> Result<(), NameFault>
    ensures { Gives (λ _. out.new.items) result (ok_or_bad_value (option_map name_sort (name_value_key schema.now value.now))) }
{
    match put_plain_name(alloc, schema, value, out) {
        Ok(()) => Ok(()),
        Err(NameFault::Memory) => Err(NameFault::Memory),
        Err(_) => match put_any_name(alloc, schema, value, out) {
            Ok(_) => Ok(()),
            Err(fault) => Err(fault),
        },
    }
}

/// `put_name`, which remembers the parent of the name, and answers under which schemas this is the key.
fn put_name_below(
    alloc: Global,
    schema: &Schema,
    value: &[u8],
    parents: &mut PlainParents,
    out: &mut Vec<u8>,
) -> Result<Scope, NameFault>
    ensures text { Gives (λ _. out.new.items) result (ok_or_bad_value (option_map name_sort (name_value_key schema.now value.now))) }
    ensures scope { IfOk result (λ scope. IsScopeOfValue scope schema.now value.now) }
{
    schema.keeps_builtin_types();
    match parents.put_plain_name(alloc, schema, value, out) {
        Ok(scope) => Ok(scope),
        Err(NameFault::Memory) => Err(NameFault::Memory),
        Err(_) => put_unplain_name(alloc, schema, value, out),
    }
}

/// `put_name` of a leaf below a parent, which answers under which schemas this is the key.
fn put_child_name(
    alloc: Global,
    schema: &Schema,
    value: &[u8],
    leaf: &[u8],
    parent: &PlainParent,
    out: &mut Vec<u8>,
) -> Result<Scope, NameFault>
    requires { value.now ≡ leaf.now ++ parent.now.text.items }
    ensures text { Gives (λ _. out.new.items) result (ok_or_bad_value (option_map name_sort (name_value_key schema.now value.now))) }
    ensures scope { IfOk result (λ scope. IsScopeOfValue scope schema.now value.now) }
{
    schema.keeps_builtin_types();
    match parent.put_child(alloc, schema, leaf, out) {
        Ok(scope) => Ok(scope),
        Err(NameFault::Memory) => Err(NameFault::Memory),
        Err(_) => put_unplain_name(alloc, schema, value, out),
    }
}

/// `put_any_name`, which answers under which schemas this is the key.
fn put_unplain_name(
    alloc: Global,
    schema: &Schema,
    value: &[u8],
    out: &mut Vec<u8>,
) -> Result<Scope, NameFault>
    ensures text { Gives (λ _. out.new.items) result (ok_or_bad_value (option_map name_sort (name_value_key schema.now value.now))) }
    ensures scope { IfOk result (λ scope. IsScopeOfValue scope schema.now value.now) }
{
    schema.keeps_builtin_types();
    match put_any_name(alloc, schema, value, out) {
        Ok(name) => Ok(scope_of_rdns(schema, name.rdns())),
        Err(fault) => Err(fault),
    }
}

/// `put_name` of a name that may be spelled in any way. The name is answered.
fn put_any_name(
    alloc: Global,
    schema: &Schema,
    value: &[u8],
    out: &mut Vec<u8>,
) -> Result<Dn, NameFault>
    ensures text { Gives (λ _. out.new.items) result (ok_or_bad_value (option_map name_sort (name_value_key schema.now value.now))) }
    ensures name { IfOk result (λ name. name_within_limits value.now ≡ Ok name) }
{
    match Dn::read(alloc, value) {
        Ok(name) => match put_rdns(alloc, schema, name.rdns(), out) {
            Ok(()) => Ok(name),
            Err(NameFault::Memory) => Err(NameFault::Memory),
            Err(_) => Err(NameFault::BadValue),
        },
        Err(NameFault::Memory) => Err(NameFault::Memory),
        Err(_) => Err(NameFault::BadValue),
    }
}

/// Writes the text of the key of a name that has these RDNs, leaf first.
fn put_rdns(
    alloc: Global,
    schema: &Schema,
    rdns: &[Rdn],
    out: &mut Vec<u8>,
) -> Result<(), NameFault>
    ensures { Gives (λ _. out.new.items) result (ok_or_bad_dn (option_map name_sort (name_key schema.now rdns.now))) }
{
    out.clear();
    let mut at = rdns.len();
    while at > 0 {
        at -= 1;
        match put_rdn(alloc, schema, &rdns[at], out) {
            Ok(()) => (),
            Err(fault) => return Err(fault),
        }
    }
    Ok(())
}

/// Appends the text of an RDN's key.
fn put_rdn(alloc: Global, schema: &Schema, rdn: &Rdn, out: &mut Vec<u8>) -> Result<(), NameFault>
    ensures { Gives (λ _. out.new.items) result (ok_or_bad_dn (option_map (λ key. out.old.items ++ 1 ∷ rdn_sort key) (rdn_key schema.now rdn.now))) }
{
    match rdn.pairs().split_first() {
        Some((pair, rest)) if rest.is_empty() => put_only_pair(alloc, schema, pair, out),
        _ => match rdn.key(alloc, schema) {
            Ok(key) => put_part(&key, out),
            Err(fault) => Err(fault),
        },
    }
}

/// Appends the text of the key of an RDN that has this pair alone.
fn put_only_pair(
    alloc: Global,
    schema: &Schema,
    pair: &(Bytes, Bytes),
    out: &mut Vec<u8>,
) -> Result<(), NameFault>
    ensures { Gives (λ _. out.new.items) result (ok_or_bad_dn (option_map (λ key. out.old.items ++ 1 ∷ rdn_sort key) (rdn_key schema.now (pair.now ∷ [])))) }
{
    match pair_key(alloc, schema, pair) {
        Ok(key) => put_set(slice::from_ref(&key), out),
        Err(fault) => Err(fault),
    }
}
