//! Attribute types, their names and their matching rules. `table` has those of the standards, `types` all that
//! are known, `definition` reads what is added to them, and `scope` says under which schemas a key is the same.

ghost use Rattle.std.specs.Prelude.{◌≡◌, ◌<◌, ◌∷◌, All, IfErr, IfOk, IfSome, Ok, OnErr, is_some, map, ok_or};
ghost use Rattle.std.specs.Prelude.{List, IsTrue, Some};
ghost use Rattle.dir_names.specs.NameKeys.{attr_of};
ghost use Rattle.dir_names.specs.declared.schema.TypeRow.{TypeRow};
ghost use Rattle.dir_names.specs.declared.schema.definition.TypeDefinition.{TypeDefinition};
ghost use Rattle.dir_names.specs.Types.Adding.{IsAddition, is_table, table_with, table_with_text};
ghost use Rattle.dir_names.specs.declared.fault.NameFault.TheVariants.{BadType};
ghost use Rattle.dir_names.specs.Inside.Frequent.{IsFrequentSlot, IsFrequentDescription, IsFrequentType, IsRankedType};
ghost use Rattle.dir_names.specs.Inside.Rows.{is_row_of, type_row};
ghost use Rattle.dir_names.specs.Inside.Scopes.{IsScopeOf, names_builtin};
ghost use Rattle.std.specs.List.{list_any};
ghost use Rattle.std.specs.Str.{str_eq_ignore_ascii_case};
ghost use Rattle.dir_names.specs.Outcome.{Gives};
ghost use Rattle.dir_names.specs.Table.{row_named};
ghost use Rattle.dir_names.specs.Table.Builtin.{builtin_rows};

pub(crate) mod definition;
mod index;
mod rules;
pub(crate) mod scope;
pub(crate) mod table;
mod types;

use crate::attribute::lowercase_bytes;
use crate::schema::definition::TypeDefinition;
use crate::schema::scope::Scope;
use crate::schema::table::{FREQUENT, RANKED, ROWS, Row};
use crate::schema::types::TypeTable;
use crate::{AttrKey, Bytes, Description, NameFault, Texts};
use std::alloc::Global;
use std::fmt;
use std::marker::Model;

/// How the values of an attribute type are compared (RFC 4517, section 4.2).
#[derive(Clone, Copy, PartialEq, Eq, Debug)]
pub enum Rule {
    /// Byte by byte.
    Octet,
    /// Without regard to case, to spaces at the ends, and to how many spaces are in a row.
    CaseIgnore,
    /// As `CaseIgnore`, for ASCII values.
    Ia5CaseIgnore,
    /// For ASCII values, without regard to spaces at the ends and to how many spaces are in a row.
    Ia5CaseExact,
    /// Without regard to case, spaces and hyphens.
    Telephone,
    /// By number.
    Integer,
    /// By the key of the name.
    Name,
    /// Without regard to case, for ASCII values without spaces.
    ObjectId,
}

/// An attribute type: its key, the names and the number that name it, the rule of its values, and
/// whether it takes at most one.
#[derive(Debug, Drop)]
pub struct TypeRow {
    pub key: Bytes,
    pub names: Texts,
    pub rule: Rule,
    pub single: bool,
}

impl TypeRow {
    fn try_clone(&self, alloc: Global) -> Result<TypeRow, NameFault>
        ensures { Gives (λ row. row) result (Ok self.now) }
    {
        Ok(TypeRow {
            key: self.key.try_clone(alloc)?,
            names: self.names.try_clone(alloc)?,
            rule: self.rule,
            single: self.single,
        })
    }
}

/// The attribute types that are known. Values of any other type are compared byte by byte, and an
/// attribute of it takes any number of them.
#[derive(Drop)]
pub struct Schema {
    types: TypeTable,
    /// The types that copies of directories use most, each in the slot of its text.
    frequent: Vec<Option<FrequentType>>,
    /// The types that have ranks, each at its rank.
    ranked: Vec<RankedType>,
}

/// What is known of the type that has this rank.
#[derive(Clone, Copy)]
struct RankedType {
    rank: u8,
    rule: Rule,
    single: bool,
}

/// The number of slots for frequent types.
const SLOTS: usize = 256;

/// What is known of a frequent type, so that it isn't looked up in the table.
#[derive(Drop)]
pub(crate) struct FrequentType {
    text: Bytes,
    description: Description,
    pub(crate) rule: Rule,
    pub(crate) scope: Scope,
}

/// Shows no types: there can be many.
impl fmt::Debug for Schema {
    fn fmt<W: fmt::Write>(&self, f: &mut fmt::Formatter<W>) -> fmt::Result {
        f.debug_struct("Schema").finish_non_exhaustive()
    }
}

impl FrequentType {
    pub(crate) fn key(&self) -> &AttrKey
        ensures { result.now ≡ self.now.description.key }
    {
        self.description.key()
    }
}

impl Model for Schema {
    ghost use Rattle.std.specs.Prelude.{List};
    ghost use Rattle.dir_names.specs.declared.schema.TypeRow.{TypeRow};

    ghost Value = { List TypeRow };

    ghost view = { λ schema. schema.types };

    ghost use Rattle.std.specs.Prelude.{All};
    ghost use Rattle.dir_names.specs.Inside.Frequent.{IsFrequentSlot, IsRankedType};

    ghost invariant = { λ schema. All (IsFrequentSlot schema.types) schema.frequent.items × All (IsRankedType schema.types) schema.ranked.items };
}

impl Schema {
    ghost use Rattle.dir_names.specs.Table.Builtin.{builtin_rows};
    ghost use Rattle.dir_names.specs.Table.{type_key_of, row_of, rule_of, single_of, is_known};
    ghost use Rattle.dir_names.specs.Types.Adding.{KeepsTypes};

    /// The types of RFC 4519, 4524, 2798 and 2307 that this kit knows, and `objectClass` (RFC 4512,
    /// section 3.3).
    pub fn builtin(alloc: Global) -> Result<Schema, NameFault>
        ensures { Gives (λ schema. schema) result (Ok builtin_rows) }
    {
        Schema::of(alloc, TypeTable::of(alloc, known_types(alloc)?)?)
    }

    /// A copy in memory of its own. The one fault is `Memory`.
    pub fn try_clone(&self, alloc: Global) -> Result<Schema, NameFault>
        ensures { Gives (λ schema. schema) result (Ok self.now) }
    {
        Schema::of(alloc, self.types.try_clone(alloc)?)
    }

    /// Adds what the definition of an attribute type says (RFC 4512, section 4.1.2): a new type, or more names of the known
    /// one that has its number, whose key, rule and number of values stay. Values of a new type are compared by the rule
    /// that `EQUALITY` names, byte by byte by one that `Rule` doesn't have; without `EQUALITY` by that of the type that `SUP`
    /// names. Whether an attribute takes one value is not passed on by `SUP`.
    ///
    /// # Errors
    ///
    /// `BadType` if the text is no definition, if its number has more than `MAX_DESCRIPTION` bytes, if one of its names is no
    /// `descr`, is longer, or is reserved for a word, if one names another type, or if `SUP` names no known type; `Memory`.
    /// The schema stays as it was.
    pub fn add_type(&mut self, definition: &[u8]) -> Result<(), NameFault>
        ensures types { Gives (λ _. self.new) result (ok_or (table_with_text self.old definition.now) BadType) }
        ensures err { OnErr result (self.new ≡ self.old) }
    {
        let alloc = self.types.allocator();
        let Some(definition) = TypeDefinition::read(alloc, definition)? else {
            return Err(NameFault::BadType);
        };
        self.types.add(alloc, definition)?;
        self.frequent.clear();
        self.ranked.clear();
        Ok(())
    }

    /// Looks up the types that copies of directories use most, which `add_type` forgets, so that they are not looked up in the
    /// table each time. It belongs after the last `add_type`: no answer hangs on it, and without memory it does nothing.
    pub fn find_frequent(&mut self)
        ensures { self.new ≡ self.old }
    {
        let alloc = self.types.allocator();
        if self.frequent.is_empty() {
            let _ = self.keep_frequent(alloc);
        }
    }

    /// The schema of these types, with the frequent and the ranked ones.
    fn of(alloc: Global, types: TypeTable) -> Result<Schema, NameFault>
        ensures { Gives (λ schema. schema) result (Ok types) }
    {
        let mut schema = Schema {
            types,
            frequent: Vec::new(alloc),
            ranked: Vec::new(alloc),
        };
        schema.keep_frequent(alloc)?;
        Ok(schema)
    }

    /// Keeps what the table says of the frequent and the ranked types.
    fn keep_frequent(&mut self, alloc: Global) -> Result<(), NameFault>
        ensures same { self.new ≡ self.old }
        ensures memory { IfErr result (λ e. e ≡ NameFault.Memory) }
    {
        let frequent = frequent_types(alloc, self)?;
        let ranked = ranked_types(alloc, self)?;
        self.frequent = frequent;
        self.ranked = ranked;
        Ok(())
    }

    /// A law, for proofs: a schema has the built-in types, so that what rests on these alone holds under each.
    #[inline(always)]
    pub(crate) fn keeps_builtin_types(&self)
        ensures { KeepsTypes builtin_rows self.now }
    {
        self.types.keep_builtin_types();
    }

    /// The frequent type in the slot of this text.
    fn slot(&self, text: &[u8]) -> Option<&FrequentType>
        ensures { IfSome result (λ frequent. IsFrequentType self.now frequent.now) }
    {
        match self.frequent.get(slot_of(text)) {
            Some(Some(frequent)) => Some(frequent),
            _ => None,
        }
    }

    /// What is known of the type that this text names, if it is a frequent one.
    pub(crate) fn frequent_type(&self, text: &[u8]) -> Option<&FrequentType>
        ensures frequent { IfSome result (λ frequent. IsFrequentType self.now frequent.now) }
        ensures text { IfSome result (λ frequent. frequent.now.text ≡ text.now) }
    {
        let frequent = self.slot(text)?;
        if frequent.text.as_slice() == text {
            Some(frequent)
        } else {
            None
        }
    }

    /// The description of this text, if it is a frequent type.
    pub(crate) fn frequent(&self, text: &[u8]) -> Option<&Description>
        ensures { IfSome result (λ d. IsFrequentDescription self.now (text.now, d.now)) }
    {
        match self.frequent_type(text) {
            Some(frequent) => Some(&frequent.description),
            None => None,
        }
    }

    /// Where a type means the same: under each schema, if it is a frequent one and built in. Its case makes no difference.
    pub(crate) fn scope_of(&self, attr_type: &[u8]) -> Scope
        ensures { IsScopeOf result attr_type.now }
    {
        match self.slot(attr_type) {
            Some(frequent) if is_same(frequent.text.as_slice(), attr_type) => frequent.scope,
            _ => Scope::ThisSchema,
        }
    }

    /// The rule by which values of this type are compared.
    pub fn rule(&self, attr: &AttrKey) -> Rule
        ensures { result ≡ rule_of self.now attr.now }
    {
        match self.ranked_type(attr) {
            Some(ranked) => ranked.rule,
            None => self.rule_in_slot(attr),
        }
    }

    fn ranked_type(&self, attr: &AttrKey) -> Option<RankedType>
        ensures rule { IfSome result (λ ranked. ranked.rule ≡ rule_of self.now attr.now) }
        ensures single { IfSome result (λ ranked. ranked.single ≡ single_of self.now attr.now) }
    {
        let rank = attr.rank()?;
        match self.ranked.get(usize::from(rank)) {
            Some(ranked) if ranked.rank == rank => Some(*ranked),
            _ => None,
        }
    }

    fn rule_in_slot(&self, attr: &AttrKey) -> Rule
        ensures { result ≡ rule_of self.now attr.now }
    {
        match self.slot(attr.attr_type()) {
            Some(frequent) if frequent.description.key().attr_type() == attr.attr_type() =>
                frequent.rule,
            _ => self.rule_in_table(attr),
        }
    }

    fn rule_in_table(&self, attr: &AttrKey) -> Rule
        ensures { result ≡ rule_of self.now attr.now }
    {
        match self.types.with_key(attr.attr_type()) {
            Some(row) => row.rule,
            None => Rule::Octet,
        }
    }

    /// Whether an attribute of this type takes at most one value.
    pub fn single(&self, attr: &AttrKey) -> bool
        ensures { result ≡ single_of self.now attr.now }
    {
        match self.ranked_type(attr) {
            Some(ranked) => ranked.single,
            None => self.single_in_table(attr),
        }
    }

    fn single_in_table(&self, attr: &AttrKey) -> bool
        ensures { result ≡ single_of self.now attr.now }
    {
        match self.types.with_key(attr.attr_type()) {
            Some(row) => row.single,
            None => false,
        }
    }

    /// Whether the type is known: one of those that `builtin` has, or that `add_type` added. What it is called, by which rule
    /// its values are compared, and how many an attribute of it takes, is known of no other. Options make no difference.
    pub fn knows(&self, attr: &AttrKey) -> bool
        ensures { result ≡ is_known self.now attr.now }
    {
        match self.ranked_type(attr) {
            Some(ranked) if ranked.rule != Rule::Octet => true,
            _ => self.is_in_table(attr),
        }
    }

    fn is_in_table(&self, attr: &AttrKey) -> bool
        ensures { result ≡ is_known self.now attr.now }
    {
        self.types.with_key(attr.attr_type()).is_some()
    }

    /// The attribute of a type without options.
    pub(crate) fn attr_of(&self, alloc: Global, attr_type: &[u8]) -> Result<AttrKey, NameFault>
        ensures { Gives (λ attr. attr) result (Ok (attr_of self.now attr_type.now)) }
    {
        match self.frequent(attr_type) {
            Some(description) => description.key().try_clone(alloc),
            None => AttrKey::of_type(alloc, self.type_key(alloc, attr_type)?),
        }
    }

    /// The rule of a type without options.
    pub(crate) fn rule_of(&self, alloc: Global, attr_type: &[u8]) -> Result<Rule, NameFault>
        ensures { Gives (λ rule. rule) result (Ok (rule_of self.now (attr_of self.now attr_type.now))) }
    {
        match self.frequent(attr_type) {
            Some(description) => Ok(self.rule(description.key())),
            None => {
                let attr = self.attr_of(alloc, attr_type)?;
                Ok(self.rule(&attr))
            }
        }
    }

    /// The key of the type that a name or a number names: its primary name in lower case, or, for a type
    /// that isn't known, the text itself in lower case.
    pub(crate) fn type_key(&self, alloc: Global, attr_type: &[u8]) -> Result<Bytes, NameFault>
        ensures { Gives (λ key. key) result (Ok (type_key_of self.now attr_type.now)) }
    {
        match self.types.named(attr_type) {
            Some(row) => row.key.try_clone(alloc),
            None => lowercase_bytes(alloc, attr_type),
        }
    }
}

/// A law: what a definition adds to a table is what it says, and no type that was known changes its meaning.
pub fn types_are_added()
    ensures { (rows : List TypeRow) (d : TypeDefinition) (now : List TypeRow) → IsTrue (is_table rows) → table_with rows d ≡ Some now → IsTrue (is_table now) × IsAddition rows d now }
{}

/// The slot of a frequent type, in any ASCII case. No two of `FREQUENT` share a slot.
fn slot_of(text: &[u8]) -> usize {
    let (Some(first), Some(last), Some(middle)) = (
        text.first(),
        text.last(),
        text.get(text.len() / 2),
    ) else {
        return 0;
    };
    let letters = (letter_number(*first) * 23 + letter_number(*last)) * 23 + letter_number(*middle);
    (letters * 23 + text.len() % SLOTS) % SLOTS
}

/// The number of a letter, the same in any ASCII case.
fn letter_number(b: u8) -> usize
    ensures { result < 256 }
{
    usize::from(b | 32)
}

/// The frequent types, each in its slot.
fn frequent_types(alloc: Global, schema: &Schema) -> Result<Vec<Option<FrequentType>>, NameFault>
    ensures frequent { IfOk result (λ slots. All (IsFrequentSlot schema.now) slots.items) }
    ensures memory { IfErr result (λ e. e ≡ NameFault.Memory) }
{
    let mut slots = empty_slots(alloc)?;
    for name in &FREQUENT {
        if let Some(slot) = slots.get_mut(slot_of(name.as_bytes())) {
            *slot = frequent_type(alloc, schema, name.as_bytes())?;
        }
    }
    Ok(slots)
}

/// Slots without types.
fn empty_slots(alloc: Global) -> Result<Vec<Option<FrequentType>>, NameFault>
    ensures empty { IfOk result (λ slots. (rows : List TypeRow) → All (IsFrequentSlot rows) slots.items) }
    ensures memory { IfErr result (λ e. e ≡ NameFault.Memory) }
{
    let mut slots = Vec::with_capacity(alloc, SLOTS)?;
    for _ in 0..SLOTS {
        slots.push(None)?;
    }
    Ok(slots)
}

/// The frequent type of this text, or `None` if the text is not a type without options.
fn frequent_type(
    alloc: Global,
    schema: &Schema,
    text: &[u8],
) -> Result<Option<FrequentType>, NameFault>
    ensures frequent { IfOk result (IsFrequentSlot schema.now) }
    ensures memory { IfErr result (λ e. e ≡ NameFault.Memory) }
{
    let attr = AttrKey::of_type(alloc, schema.type_key(alloc, text)?)?;
    match Description::read(alloc, schema, text) {
        Ok(description) if *description.key() == attr => Ok(Some(FrequentType {
            text: Bytes::copy_of(alloc, text)?,
            rule: schema.rule(description.key()),
            scope: scope_of_type(text),
            description,
        })),
        Err(NameFault::Memory) => Err(NameFault::Memory),
        _ => Ok(None),
    }
}

fn scope_of_type(text: &[u8]) -> Scope
    ensures { IsScopeOf result text.now }
{
    if is_builtin(text) {
        Scope::EachSchema
    } else {
        Scope::ThisSchema
    }
}

/// Whether a text names a built-in type.
fn is_builtin(text: &[u8]) -> bool
    ensures { result ≡ names_builtin text.now }
{
    names_row(&ROWS, text)
}

fn names_row(rows: &[Row], text: &[u8]) -> bool
    ensures { result ≡ is_some (row_named (map type_row rows.now) text.now) }
{
    is_in_rows(rows, text)
}

fn is_in_rows(rows: &[Row], text: &[u8]) -> bool
    ensures { result ≡ list_any (is_row_of text.now) rows.now }
{
    for row in rows {
        if is_row_of(row, text) {
            return true;
        }
    }
    false
}

fn is_row_of(row: &Row, text: &[u8]) -> bool
    ensures { result ≡ is_row_of text.now row.now }
{
    is_same(row.name.as_bytes(), text) || is_one_of(row.others, text)
}

fn is_one_of(others: &[&str], text: &[u8]) -> bool
    ensures { result ≡ list_any (λ other. str_eq_ignore_ascii_case other.now text.now) others.now }
{
    for other in others {
        if is_same(other.as_bytes(), text) {
            return true;
        }
    }
    false
}

/// The types that have ranks.
fn ranked_types(alloc: Global, schema: &Schema) -> Result<Vec<RankedType>, NameFault>
    ensures ranked { IfOk result (λ types. All (IsRankedType schema.now) types.items) }
    ensures memory { IfErr result (λ e. e ≡ NameFault.Memory) }
{
    let mut types = Vec::with_capacity(alloc, RANKED.len())?;
    for name in &RANKED {
        let attr = AttrKey::of_type(alloc, Bytes::copy_of(alloc, name.as_bytes())?)?;
        let Some(ranked) = ranked_type_of(schema, &attr) else {
            return Ok(types);
        };
        types.push(ranked)?;
    }
    Ok(types)
}

fn ranked_type_of(schema: &Schema, attr: &AttrKey) -> Option<RankedType>
    ensures { IfSome result (IsRankedType schema.now) }
{
    let rank = attr.rank()?;
    Some(RankedType {
        rank,
        rule: schema.rule(attr),
        single: schema.single(attr),
    })
}

/// The types of the table.
fn known_types(alloc: Global) -> Result<Vec<TypeRow>, NameFault>
    ensures { Gives (λ types. types.items) result (Ok builtin_rows) }
{
    type_rows(alloc, &ROWS)
}

fn type_rows(alloc: Global, rows: &[Row]) -> Result<Vec<TypeRow>, NameFault>
    ensures { Gives (λ types. types.items) result (Ok (map type_row rows.now)) }
{
    let mut types = Vec::with_capacity(alloc, rows.len())?;
    for row in rows {
        types.push(type_row(alloc, row)?)?;
    }
    Ok(types)
}

fn type_row(alloc: Global, row: &Row) -> Result<TypeRow, NameFault>
    ensures { Gives (λ attr_type. attr_type) result (Ok (type_row row.now)) }
{
    Ok(TypeRow {
        key: lowercase_bytes(alloc, row.name.as_bytes())?,
        names: Texts::new(names_of(alloc, row.name, row.others)?),
        rule: row.rule,
        single: row.single,
    })
}

fn names_of(alloc: Global, name: &str, others: &[&str]) -> Result<Vec<Bytes>, NameFault>
    ensures { Gives (λ names. names.items) result (Ok (name.now ∷ map (λ other. other.now) others.now)) }
{
    let mut names = Vec::new(alloc);
    names.push(Bytes::copy_of(alloc, name.as_bytes())?)?;
    for other in others {
        names.push(Bytes::copy_of(alloc, other.as_bytes())?)?;
    }
    Ok(names)
}

fn is_same(one: &[u8], another: &[u8]) -> bool
    ensures { result ≡ str_eq_ignore_ascii_case one.now another.now }
{
    one.eq_ignore_ascii_case(another)
}
