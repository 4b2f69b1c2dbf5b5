//! The types that a schema knows: their rows, with an index of their names. Definitions add to them (RFC 4512, section 4.1.2).

ghost use Rattle.std.specs.Prelude.{◌≡◌, [], ◌∷◌, ◌++◌, ◌+◌, ◌≤◌, List, IfErr, IsOk, IsTrue, None, Ok, OnOk, OnErr, Some, find, length, map, ok_or, option_copied};
ghost use Rattle.std.specs.List.{list_all, list_any, position};
ghost use Rattle.std.specs.Str.{str_eq_ignore_ascii_case, str_to_ascii_lowercase};
ghost use Rattle.std.specs.Vec.{vec_capacity, vec_len};
ghost use Rattle.dir_names.specs.declared.fault.NameFault.TheVariants.{BadType, Memory};
ghost use Rattle.dir_names.specs.Inside.TypeNames.{Gains, are_rising, is_named};
ghost use Rattle.dir_names.specs.Orders.{bytes_eq};
ghost use Rattle.dir_names.specs.Outcome.{Gives};
ghost use Rattle.dir_names.specs.Table.{row_named};
ghost use Rattle.dir_names.specs.Table.Builtin.{builtin_rows};
ghost use Rattle.dir_names.specs.Types.Adding.{KeepsTypes, base_rules, gaining, is_free, is_table, may_be_added, may_be_given, new_names, new_row, primary_name, rule_by, rule_listed, rule_of_row, table_with};

use crate::attribute::{is_descr, is_reserved, lowercase_bytes};
use crate::limits::MAX_DESCRIPTION;
use crate::schema::TypeRow;
use crate::schema::definition::TypeDefinition;
use crate::schema::index::{index_of, insert, row_number};
use crate::schema::rules::{rule_of_base, rule_of_match};
use crate::{Bytes, NameFault, Rule, Texts};
use std::alloc::Global;
use std::marker::Model;

/// The types in their order. No text names two of them.
#[derive(Drop)]
pub(crate) struct TypeTable {
    rows: Vec<TypeRow>,
    /// The names and numbers of the types in lower case, in order, each with the number of its row.
    names: Vec<(Bytes, usize)>,
}

impl Model for TypeTable {
    ghost use Rattle.std.specs.Prelude.{◌≡◌, IsTrue, List};
    ghost use Rattle.dir_names.specs.declared.schema.TypeRow.{TypeRow};
    ghost use Rattle.dir_names.specs.Inside.TypeNames.{IsIndex};
    ghost use Rattle.dir_names.specs.Table.Builtin.{builtin_rows};
    ghost use Rattle.dir_names.specs.Types.Adding.{KeepsTypes, is_table};

    ghost Value = { List TypeRow };

    ghost view = { λ types. types.rows.items };

    ghost invariant = { λ types. IsIndex types.rows.items types.names.items × IsTrue (is_table types.rows.items) × KeepsTypes builtin_rows types.rows.items };
}

impl TypeTable {
    /// The types of these rows.
    pub(crate) fn of(alloc: Global, rows: Vec<TypeRow>) -> Result<TypeTable, NameFault>
        requires table { IsTrue (is_table rows.items) }
        requires keeps { KeepsTypes builtin_rows rows.items }
        ensures { Gives (λ types. types) result (Ok rows.items) }
    {
        let names = index_of(alloc, rows.as_slice())?;
        Ok(TypeTable { rows, names })
    }

    /// A copy in memory of its own.
    pub(crate) fn try_clone(&self, alloc: Global) -> Result<TypeTable, NameFault>
        ensures { Gives (λ types. types) result (Ok self.now) }
    {
        TypeTable::of(alloc, cloned_rows(alloc, self.rows.as_slice())?)
    }

    pub(crate) fn allocator(&self) -> Global {
        *self.rows.allocator()
    }

    /// A law, for proofs: the built-in types are among them.
    #[inline(always)]
    pub(crate) fn keep_builtin_types(&self)
        ensures { KeepsTypes builtin_rows self.now }
    {
        let _rows = &self.rows;
    }

    /// A law, for proofs: no text names two of them.
    #[inline(always)]
    pub(crate) fn are_told_apart(&self)
        ensures { IsTrue (is_table self.now) }
    {
        let _rows = &self.rows;
    }

    /// The row of the type that a name or a number names, in any ASCII case.
    pub(crate) fn named(&self, attr_type: &[u8]) -> Option<&TypeRow>
        ensures { option_copied result ≡ row_named self.now attr_type.now }
    {
        self.rows.get(row_number(self.names.as_slice(), attr_type)?)
    }

    /// The row of the type with this key. A key is one of the names of its row.
    pub(crate) fn with_key(&self, key: &[u8]) -> Option<&TypeRow>
        ensures { option_copied result ≡ find (λ row. bytes_eq row.key key.now) self.now }
    {
        self.are_told_apart();
        let row = self.named(key)?;
        if row.key.as_slice() == key {
            Some(row)
        } else {
            None
        }
    }

    /// Adds what a definition says: a new type, or more names of the known one that has its number.
    ///
    /// # Errors
    ///
    /// `BadType` if a name can't be given, or a new type has no rule; `Memory`. The types stay as they were.
    pub(crate) fn add(&mut self, alloc: Global, definition: TypeDefinition) -> Result<(), NameFault>
        ensures types { Gives (λ _. self.new) result (ok_or (table_with self.old definition) BadType) }
        ensures err { OnErr result (self.new ≡ self.old) }
    {
        if !self.may_be_added(&definition) {
            return Err(NameFault::BadType);
        }
        match row_number(self.names.as_slice(), definition.number.as_slice()) {
            Some(at) => self.add_names(alloc, at, &definition),
            None => match self.rule_by(&definition) {
                Some(rule) => self.add_row(alloc, definition, rule),
                None => Err(NameFault::BadType),
            },
        }
    }

    // ---- what may be added

    fn may_be_added(&self, definition: &TypeDefinition) -> bool
        ensures { result ≡ may_be_added self.now definition.now }
    {
        definition.number.as_slice().len() <= MAX_DESCRIPTION && self.may_each_be_given(definition)
    }

    fn may_each_be_given(&self, definition: &TypeDefinition) -> bool
        ensures { result ≡ list_all (may_be_given self.now definition.now) definition.now.names }
    {
        for name in definition.names.as_slice() {
            if !self.may_be_given(definition, name.as_slice()) {
                return false;
            }
        }
        true
    }

    fn may_be_given(&self, definition: &TypeDefinition, name: &[u8]) -> bool
        ensures { result ≡ may_be_given self.now definition.now name.now }
    {
        is_descr(name)
            && name.len() <= MAX_DESCRIPTION
            && !is_reserved(name)
            && is_free(self.named(definition.number.as_slice()), self.named(name))
    }

    /// The rule of a new type, if it has one.
    fn rule_by(&self, definition: &TypeDefinition) -> Option<Rule>
        ensures { result ≡ rule_by self.now definition.now.equality definition.now.sup }
    {
        if let Some(equality) = &definition.equality {
            return Some(rule_of_match(equality.as_slice()));
        }
        match &definition.sup {
            Some(sup) => self.rule_of_sup(sup.as_slice()),
            None => Some(Rule::Octet),
        }
    }

    fn rule_of_sup(&self, sup: &[u8]) -> Option<Rule>
        ensures { result ≡ rule_of_row (row_named self.now sup.now) (rule_listed base_rules sup.now) }
    {
        match self.named(sup) {
            Some(row) => Some(row.rule),
            None => rule_of_base(sup),
        }
    }

    // ---- what is added

    fn add_row(
        &mut self,
        alloc: Global,
        definition: TypeDefinition,
        rule: Rule,
    ) -> Result<(), NameFault>
        requires added { IsTrue (may_be_added self.old definition) }
        requires new { row_named self.old definition.number ≡ None }
        requires rule { rule_by self.old definition.equality definition.sup ≡ Some rule }
        ensures ok { OnOk result (self.new ≡ self.old ++ new_row definition rule ∷ []) }
        ensures err { IfErr result (λ e. (e ≡ Memory) × (self.new ≡ self.old)) }
    {
        let row = new_row(alloc, definition, rule)?;
        let lowered = lowercase_names(alloc, row.names.as_slice())?;
        self.rows.reserve(1)?;
        self.names.reserve(lowered.len())?;
        let at = self.rows.len();
        self.rows.push(row)?;
        insert_each(&mut self.names, lowered, at)
    }

    fn add_names(
        &mut self,
        alloc: Global,
        at: usize,
        definition: &TypeDefinition,
    ) -> Result<(), NameFault>
        requires added { IsTrue (may_be_added self.old definition.now) }
        requires known { position (is_named definition.now.number) self.old ≡ Some at }
        ensures ok { OnOk result (self.new ≡ map (gaining definition.now (new_names self.old definition.now)) self.old) }
        ensures err { IfErr result (λ e. (e ≡ Memory) × (self.new ≡ self.old)) }
    {
        let gained = self.new_names(alloc, definition)?;
        let lowered = lowercase_names(alloc, gained.as_slice())?;
        self.names.reserve(lowered.len())?;
        self.rows[at].names.append(gained)?;
        insert_each(&mut self.names, lowered, at)
    }

    /// The names that name nothing yet.
    fn new_names(&self, alloc: Global, definition: &TypeDefinition) -> Result<Vec<Bytes>, NameFault>
        ensures { Gives (λ names. names.items) result (Ok (new_names self.now definition.now)) }
    {
        let mut names = Vec::new(alloc);
        for name in definition.names.as_slice() {
            if self.named(name.as_slice()).is_none() {
                names.push(name.try_clone(alloc)?)?;
            }
        }
        Ok(names)
    }
}

/// Copies of the rows.
fn cloned_rows(alloc: Global, rows: &[TypeRow]) -> Result<Vec<TypeRow>, NameFault>
    ensures { Gives (λ copy. copy.items) result (Ok rows.now) }
{
    let mut copy = Vec::with_capacity(alloc, rows.len())?;
    for row in rows {
        copy.push(row.try_clone(alloc)?)?;
    }
    Ok(copy)
}

/// Whether a name that names this is still to be given to the type that its number names.
fn is_free(numbered: Option<&TypeRow>, named: Option<&TypeRow>) -> bool
    ensures { result ≡ is_free (option_copied numbered.entry) (option_copied named.entry) }
{
    match (numbered, named) {
        (_, None) => true,
        (None, Some(_)) => false,
        (Some(numbered), Some(named)) => numbered.key == named.key,
    }
}

/// The row of a new type.
fn new_row(alloc: Global, definition: TypeDefinition, rule: Rule) -> Result<TypeRow, NameFault>
    ensures { Gives (λ row. row) result (Ok (new_row definition rule)) }
{
    let key = lowercase_bytes(alloc, primary_name(&definition))?;
    let single = definition.single;
    Ok(TypeRow {
        key,
        names: definition.names.with(definition.number)?,
        rule,
        single,
    })
}

/// The first name, or the number where there is none.
fn primary_name(definition: &TypeDefinition) -> &[u8]
    ensures { result.now ≡ primary_name definition.now definition.now.names }
{
    match definition.names.as_slice().first() {
        Some(name) => name.as_slice(),
        None => definition.number.as_slice(),
    }
}

/// The names in lower case.
fn lowercase_names(alloc: Global, names: &[Bytes]) -> Result<Vec<Bytes>, NameFault>
    ensures { Gives (λ lowered. lowered.items) result (Ok (map str_to_ascii_lowercase names.now)) }
{
    let mut lowered = Vec::with_capacity(alloc, names.len())?;
    for name in names {
        lowered.push(lowercase_bytes(alloc, name.as_slice())?)?;
    }
    Ok(lowered)
}

/// Inserts names in lower case, for which there is room, into an index.
fn insert_each(
    names: &mut Vec<(Bytes, usize)>,
    lowered: Vec<Bytes>,
    row: usize,
) -> Result<(), NameFault>
    requires rising { IsTrue (are_rising names.old.items) }
    requires room { vec_len names.old + length lowered.items ≤ vec_capacity names.old }
    ensures rising { IsTrue (are_rising names.new.items) }
    ensures gains { Gains (λ t. list_any (λ name. bytes_eq name (str_to_ascii_lowercase t)) lowered.items) row names.old.items names.new.items }
    ensures succeeds { IsOk result }
{
    for name in lowered {
        insert(names, name, row)?;
    }
    Ok(())
}
