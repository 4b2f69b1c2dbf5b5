//! Names and RDNs as they are spelled (RFC 4514): read, printed, and turned into keys.

ghost use Rattle.std.specs.Prelude.{◌≡◌, ◌≤◌, [], ◌∷◌, IfSome, cond, is_some, length, nat_le, nat_lt, Ok, Err, IsTrue, IsFalse, IfOk, IsErrOf, true};
ghost use Rattle.std.specs.List.{list_all};
ghost use Rattle.dir_names.specs.Inside.Few.{few_items};
ghost use Rattle.dir_names.specs.Inside.KnownKeys.{IsKeyAbove, IsKeyOf};
ghost use Rattle.dir_names.specs.Inside.Scopes.{IsScopeOfName, names_builtin};
ghost use Rattle.dir_names.specs.NameKeys.{pair_key, rdn_key, name_key};
ghost use Rattle.dir_names.specs.Names.{name_eq, rdn_eq, name_eq_laws, rdn_eq_laws, partial_name_eq_laws, partial_rdn_eq_laws, SpelledRdn, SpelledName};
ghost use Rattle.dir_names.specs.Outcome.{Gives};
ghost use Rattle.dir_names.specs.Names.Printing.{printed_name, printed_rdn};
ghost use Rattle.dir_names.specs.Names.Reading.{name_of, name_within_limits, only_rdn_of, rdn_within_limit};
ghost use Rattle.dir_names.specs.Outcome.{ok_or_bad_dn};
ghost use Rattle.dir_names.specs.Names.Limits.{is_rdn_within_limit, is_within_limits};
ghost use Rattle.dir_names.specs.Names.Sound.{is_sound_name, is_sound_rdn};
ghost use Rattle.dir_names.specs.Names.Spells.{Spells, SpellsRdn};
ghost use Rattle.dir_names.specs.ValueKeys.{is_ascii};
ghost use Rattle.dir_names.specs.declared.fault.NameFault.TheVariants.{BadDn, NameLimit};

pub(crate) mod printing;
pub(crate) mod reader;
pub(crate) mod reading;

use crate::attribute::AttrKey;
use crate::fault::as_bad_dn;
use crate::key::PairSet;
use crate::limits::MAX_RDNS;
use crate::list::few::Few;
use crate::name::printing::{print_name, print_rdn};
use crate::name::reading::{read_name, read_one_rdn};
use crate::schema::scope::Scope;
use crate::value::{has_text_key, text_key};
use crate::{Bytes, DnKey, Memory, NameFault, RdnKey, Schema};
use std::alloc::Global;
use std::fmt;
use std::marker::Model;
use std::rc::Rc;

/// A relative distinguished name as spelled: one or more pairs of type and value (RFC 4512,
/// section 2.3.1). Copies share its memory.
#[derive(Debug, Drop)]
pub struct Rdn {
    pairs: Rc<Few<(Bytes, Bytes)>>,
}

impl Model for Rdn {
    ghost use Rattle.std.specs.Prelude.{ℕ, List};

    ghost Value = { List (List ℕ × List ℕ) };

    ghost use Rattle.std.specs.Prelude.{IsTrue};
    ghost use Rattle.dir_names.specs.Inside.Few.{few_items};
    ghost use Rattle.dir_names.specs.Names.Limits.{is_rdn_within_limit};
    ghost use Rattle.dir_names.specs.Names.Sound.{is_sound_rdn};

    ghost view = { λ rdn. few_items rdn.pairs.value };

    ghost invariant = { λ rdn. IsTrue (is_sound_rdn (few_items rdn.pairs.value)) × IsTrue (is_rdn_within_limit (few_items rdn.pairs.value)) };
}

impl Rdn {
    /// Reads exactly one RDN (RFC 4514, section 3).
    ///
    /// # Errors
    ///
    /// `BadDn` if the text is not an RDN; else `NameLimit` if the RDN prints to more than 4,096 bytes.
    pub fn read(alloc: Global, text: &[u8]) -> Result<Rdn, NameFault>
        ensures read { Gives (λ rdn. rdn) result (rdn_within_limit text.now) }
        ensures spelled { IfOk result (λ rdn. SpellsRdn text.now rdn × IsTrue (is_rdn_within_limit rdn)) }
        ensures exact { (rdn : SpelledRdn) → SpellsRdn text.now rdn → IsTrue (is_rdn_within_limit rdn) → Gives (λ r. r) result (Ok rdn) }
        ensures no_name { IsErrOf result BadDn → (rdn : SpelledRdn) → SpellsRdn text.now rdn → ⊥ }
        ensures past_limits { IsErrOf result NameLimit → (rdn : SpelledRdn) × SpellsRdn text.now rdn × IsFalse (is_rdn_within_limit rdn) }
    {
        read_one_rdn(alloc, text)
    }

    /// The text of the RDN, in ASCII (RFC 4514, section 2).
    pub fn print(&self, alloc: Global) -> Result<Vec<u8>, NameFault>
        ensures text { Gives (λ text. text.items) result (Ok (printed_rdn self.now)) }
        ensures ascii { IsTrue (is_ascii (printed_rdn self.now)) }
        ensures back { only_rdn_of (printed_rdn self.now) ≡ Some self.now }
        ensures read_back { rdn_within_limit (printed_rdn self.now) ≡ Ok self.now }
        ensures spells { SpellsRdn (printed_rdn self.now) self.now }
    {
        let mut out = Vec::new(alloc);
        print_rdn(self, &mut out)?;
        Ok(out)
    }

    /// The key of the RDN: the set of its pairs of attribute and value key.
    ///
    /// # Errors
    ///
    /// `BadDn` if a type occurs twice or has the rule `Name`, or if a value has no key.
    pub fn key(&self, alloc: Global, schema: &Schema) -> Result<RdnKey, NameFault>
        ensures { Gives (λ key. key) result (ok_or_bad_dn (rdn_key schema.now self.now)) }
    {
        let mut key = PairSet::empty();
        for pair in self.pairs.as_slice() {
            let (attr, value) = pair_key(alloc, schema, pair)?;
            key = key.with(alloc, attr, value)?;
        }
        RdnKey::of(alloc, key)
    }

    /// Whether the RDN has a key. The call allocates if the RDN has more than one pair, or a type other
    /// than the frequent ones.
    pub fn has_key(&self, alloc: Global, schema: &Schema) -> Result<bool, NameFault>
        ensures { Gives (λ has. has) result (Ok (is_some (rdn_key schema.now self.now))) }
    {
        match self.pairs.as_slice().split_first() {
            Some((pair, rest)) if rest.is_empty() => {
                let rule = schema.rule_of(alloc, pair.0.as_slice())?;
                Ok(has_text_key(rule, pair.1.as_slice()))
            }
            _ => match self.key(alloc, schema) {
                Ok(_) => Ok(true),
                Err(NameFault::Memory) => Err(NameFault::Memory),
                Err(_) => Ok(false),
            },
        }
    }

    /// The pairs of type and value, as spelled.
    pub fn pairs(&self) -> &[(Bytes, Bytes)]
        ensures value { result.now ≡ self.now }
        ensures sound { IsTrue (is_sound_rdn self.now) }
        ensures within_limit { IsTrue (is_rdn_within_limit self.now) }
    {
        self.pairs.as_slice()
    }

    /// The same RDN, in the same memory.
    pub fn try_clone(&self, _alloc: Global) -> Result<Rdn, NameFault>
        ensures { Gives (λ rdn. rdn) result (Ok self.now) }
    {
        Ok(Rdn {
            pairs: self.pairs.clone()?,
        })
    }

    pub(crate) fn from_pairs(alloc: Global, pairs: Few<(Bytes, Bytes)>) -> Result<Rdn, NameFault>
        requires sound { IsTrue (is_sound_rdn (few_items pairs)) }
        requires within_limit { IsTrue (is_rdn_within_limit (few_items pairs)) }
        ensures { Gives (λ rdn. rdn) result (Ok (few_items pairs)) }
    {
        Ok(Rdn {
            pairs: Rc::new(alloc, pairs)?,
        })
    }
}

impl PartialEq for Rdn {
    ghost eq = { rdn_eq };

    ghost laws = { partial_rdn_eq_laws };

    fn eq(&self, other: &Rdn) -> bool {
        self.pairs() == other.pairs()
    }
}

impl Eq for Rdn {
    ghost laws = { rdn_eq_laws };
}

/// The attribute of a pair, and the key of its value.
pub(crate) fn pair_key(
    alloc: Global,
    schema: &Schema,
    pair: &(Bytes, Bytes),
) -> Result<(AttrKey, Bytes), NameFault>
    ensures { Gives (λ key. key) result (ok_or_bad_dn (pair_key schema.now pair.now)) }
{
    type_and_value_key(alloc, schema, pair.0.as_slice(), pair.1.as_slice())
}

/// The attribute of a type, and the key of its value.
pub(crate) fn type_and_value_key(
    alloc: Global,
    schema: &Schema,
    attr_type: &[u8],
    value: &[u8],
) -> Result<(AttrKey, Bytes), NameFault>
    ensures { Gives (λ key. key) result (ok_or_bad_dn (pair_key schema.now (attr_type.now, value.now))) }
{
    let attr = schema.attr_of(alloc, attr_type)?;
    match text_key(alloc, schema.rule(&attr), value) {
        Ok(value) => Ok((attr, value)),
        Err(fault) => Err(as_bad_dn(fault)),
    }
}

/// Where the types of these RDNs mean the same: under each schema, if all are built in.
pub(crate) fn scope_of_rdns(schema: &Schema, rdns: &[Rdn]) -> Scope
    ensures { IsScopeOfName result rdns.now }
{
    for rdn in rdns {
        if !has_builtin_types(schema, rdn.pairs()) {
            return Scope::ThisSchema;
        }
    }
    Scope::EachSchema
}

/// Whether each of the types is known to be built in.
fn has_builtin_types(schema: &Schema, pairs: &[(Bytes, Bytes)]) -> bool
    ensures { result ≡ true → list_all (λ p. names_builtin p.0) pairs.now ≡ true }
{
    for pair in pairs {
        if !schema.scope_of(pair.0.as_slice()).is_each_schema() {
            return false;
        }
    }
    true
}

/// A distinguished name as spelled: its RDNs, leaf first. It keeps neither the spaces around separators
/// nor the choice of escapes.
#[derive(Drop)]
pub struct Dn {
    rdns: Vec<Rdn>,
    /// The key of the parent, if the name was read below one that is remembered. All such names share it. It is the key
    /// under each schema: the types of the parent are built in.
    above: Option<Rc<DnKey>>,
}

impl Model for Dn {
    ghost use Rattle.std.specs.Prelude.{ℕ, List};

    ghost Value = { List (List (List ℕ × List ℕ)) };

    ghost view = { λ name. name.rdns.items };

    ghost use Rattle.std.specs.Prelude.{IsTrue, IfSome};
    ghost use Rattle.dir_names.specs.Inside.KnownKeys.{IsKeyAbove};
    ghost use Rattle.dir_names.specs.Names.Limits.{is_within_limits};
    ghost use Rattle.dir_names.specs.Names.Sound.{is_sound_name};

    ghost invariant = { λ name. IsTrue (is_sound_name name.rdns.items) × IsTrue (is_within_limits name.rdns.items) × IfSome name.above (λ key. IsKeyAbove name.rdns.items key.value) };
}

impl Dn {
    /// Reads a name (RFC 4514, section 3). The empty text is the name without RDNs.
    ///
    /// # Errors
    ///
    /// `BadDn` if the text is not a name; else `NameLimit` if the name has more than 64 RDNs, or one that
    /// prints to more than 4,096 bytes.
    pub fn read(alloc: Global, text: &[u8]) -> Result<Dn, NameFault>
        ensures read { Gives (λ name. name) result (name_within_limits text.now) }
        ensures spelled { IfOk result (λ name. Spells text.now name × IsTrue (is_within_limits name)) }
        ensures exact { (name : SpelledName) → Spells text.now name → IsTrue (is_within_limits name) → Gives (λ n. n) result (Ok name) }
        ensures no_name { IsErrOf result BadDn → (name : SpelledName) → Spells text.now name → ⊥ }
        ensures past_limits { IsErrOf result NameLimit → (name : SpelledName) × Spells text.now name × IsFalse (is_within_limits name) }
    {
        read_name(alloc, text)
    }

    /// The same as `read`, for stored values.
    pub fn read_text(alloc: Global, text: &[u8]) -> Result<Dn, NameFault>
        ensures read { Gives (λ name. name) result (name_within_limits text.now) }
        ensures spelled { IfOk result (λ name. Spells text.now name × IsTrue (is_within_limits name)) }
        ensures exact { (name : SpelledName) → Spells text.now name → IsTrue (is_within_limits name) → Gives (λ n. n) result (Ok name) }
        ensures no_name { IsErrOf result BadDn → (name : SpelledName) → Spells text.now name → ⊥ }
        ensures past_limits { IsErrOf result NameLimit → (name : SpelledName) × Spells text.now name × IsFalse (is_within_limits name) }
    {
        Dn::read(alloc, text)
    }

    /// The text of the name, in ASCII (RFC 4514, section 2).
    pub fn print(&self, alloc: Global) -> Result<Vec<u8>, NameFault>
        ensures text { Gives (λ text. text.items) result (Ok (printed_name self.now)) }
        ensures ascii { IsTrue (is_ascii (printed_name self.now)) }
        ensures back { name_of (printed_name self.now) ≡ Some self.now }
        ensures read_back { name_within_limits (printed_name self.now) ≡ Ok self.now }
        ensures spells { Spells (printed_name self.now) self.now }
    {
        let mut out = Vec::new(alloc);
        print_name(self.rdns.as_slice(), &mut out)?;
        Ok(out)
    }

    /// The key of the name: the keys of its RDNs, root first.
    ///
    /// # Errors
    ///
    /// `BadDn` if an RDN has no key.
    pub fn key(&self, alloc: Global, schema: &Schema) -> Result<DnKey, NameFault>
        ensures { Gives (λ key. key) result (ok_or_bad_dn (name_key schema.now self.now)) }
    {
        schema.keeps_builtin_types();
        match (self.rdns.as_slice().first(), self.key_above()) {
            (Some(leaf), Some(above)) => above.child(alloc, &leaf.key(alloc, schema)?),
            _ => self.key_of_rdns(alloc, schema),
        }
    }

    /// The key of the name, if it has one.
    ///
    /// # Errors
    ///
    /// Memory ran out.
    pub fn key_if_any(&self, alloc: Global, schema: &Schema) -> Result<Option<DnKey>, Memory>
        ensures { IfOk result (λ key. key ≡ name_key schema.now self.now) }
    {
        match self.key(alloc, schema) {
            Ok(key) => Ok(Some(key)),
            Err(NameFault::Memory) => Err(Memory),
            Err(_) => Ok(None),
        }
    }

    /// The key of the parent, if it is known.
    fn key_above(&self) -> Option<&DnKey>
        ensures { IfSome result (λ key. IsKeyAbove self.now key.now) }
    {
        match &self.above {
            Some(above) => Some(above.as_ref()),
            None => None,
        }
    }

    fn key_of_rdns(&self, alloc: Global, schema: &Schema) -> Result<DnKey, NameFault>
        ensures { Gives (λ key. key) result (ok_or_bad_dn (name_key schema.now self.now)) }
    {
        let mut parts = Vec::with_capacity(alloc, self.rdns.len())?;
        let mut at = self.rdns.len();
        while at > 0 {
            at -= 1;
            parts.push(self.rdns[at].key(alloc, schema)?)?;
        }
        DnKey::from_parts(alloc, parts)
    }

    /// Whether the name has a key, that is, whether each of its RDNs has one.
    pub fn has_key(&self, alloc: Global, schema: &Schema) -> Result<bool, NameFault>
        ensures { Gives (λ has. has) result (Ok (is_some (name_key schema.now self.now))) }
    {
        schema.keeps_builtin_types();
        match (self.rdns.as_slice().first(), self.key_above()) {
            (Some(leaf), Some(_)) => leaf.has_key(alloc, schema),
            _ => self.rdns_have_keys(alloc, schema),
        }
    }

    fn rdns_have_keys(&self, alloc: Global, schema: &Schema) -> Result<bool, NameFault>
        ensures { Gives (λ has. has) result (Ok (is_some (name_key schema.now self.now))) }
    {
        for rdn in self.rdns.as_slice() {
            if !rdn.has_key(alloc, schema)? {
                return Ok(false);
            }
        }
        Ok(true)
    }

    /// The RDNs, leaf first.
    pub fn rdns(&self) -> &[Rdn]
        ensures value { result.now ≡ self.now }
        ensures sound { IsTrue (is_sound_name self.now) }
        ensures within_limits { IsTrue (is_within_limits self.now) }
    {
        self.rdns.as_slice()
    }

    /// The RDNs, leaf first, moved out of the name.
    pub fn into_rdns(self) -> Vec<Rdn>
        ensures { result.items ≡ self }
    {
        let Dn { rdns, above: _ } = self;
        rdns
    }

    /// The name with these RDNs, leaf first.
    ///
    /// # Errors
    ///
    /// `NameLimit` if there are more than 64. The list is dropped.
    pub fn from_rdns(rdns: Vec<Rdn>) -> Result<Dn, NameFault>
        ensures { result ≡ cond (nat_le (length rdns.items) 64) (Ok rdns.items) (Err NameLimit) }
    {
        if rdns.len() > MAX_RDNS {
            return Err(NameFault::NameLimit);
        }
        Ok(Dn::of_rdns(rdns))
    }

    /// The name with these at most 64 RDNs, leaf first.
    pub fn of_rdns(rdns: Vec<Rdn>) -> Dn
        requires { length rdns.items ≤ 64 }
        ensures { result ≡ rdns.items }
    {
        // Each RDN is opened once, so that its invariant is known to the proof.
        for rdn in rdns.as_slice() {
            let _pairs = &rdn.pairs;
        }
        Dn { rdns, above: None }
    }

    /// The name of a child, by its leaf and the key of this name. The other RDNs share the memory of these.
    ///
    /// # Errors
    ///
    /// `NameLimit` if this name has 64 RDNs.
    pub(crate) fn child(&self, alloc: Global, leaf: Rdn, key: &Rc<DnKey>) -> Result<Dn, NameFault>
        requires { IsKeyOf self.now key.now.value }
        ensures { Gives (λ name. name) result (cond (nat_lt (length self.now) 64) (Ok (leaf ∷ self.now)) (Err NameLimit)) }
    {
        if self.rdns.len() >= MAX_RDNS {
            return Err(NameFault::NameLimit);
        }
        let mut rdns = Vec::with_capacity(alloc, self.rdns.len() + 1)?;
        rdns.push(leaf)?;
        for rdn in self.rdns.as_slice() {
            rdns.push(rdn.try_clone(alloc)?)?;
        }
        let above = key.clone()?;
        let Dn { rdns, above: _ } = Dn::of_rdns(rdns);
        Ok(Dn {
            rdns,
            above: Some(above),
        })
    }

    /// The name without RDNs.
    pub fn empty(alloc: Global) -> Dn
        ensures { result ≡ [] }
    {
        Dn {
            rdns: Vec::new(alloc),
            above: None,
        }
    }

    /// A copy: its list has memory of its own, and its RDNs and the key of its parent share the memory of
    /// these. The one fault is `Memory`.
    pub fn try_clone(&self, alloc: Global) -> Result<Dn, NameFault>
        ensures { Gives (λ name. name) result (Ok self.now) }
    {
        let mut rdns = Vec::with_capacity(alloc, self.rdns.len())?;
        for rdn in self.rdns.as_slice() {
            rdns.push(rdn.try_clone(alloc)?)?;
        }
        let above = match &self.above {
            Some(above) => Some(above.clone()?),
            None => None,
        };
        Ok(Dn { rdns, above })
    }
}

/// Shows the RDNs alone.
impl fmt::Debug for Dn {
    fn fmt<W: fmt::Write>(&self, f: &mut fmt::Formatter<W>) -> fmt::Result {
        f.debug_struct("Dn").field("rdns", &self.rdns).finish()
    }
}

impl PartialEq for Dn {
    ghost eq = { name_eq };

    ghost laws = { partial_name_eq_laws };

    fn eq(&self, other: &Dn) -> bool {
        self.rdns == other.rdns
    }
}

impl Eq for Dn {
    ghost laws = { name_eq_laws };
}
