//! The types that rules may name: those that are known, and those of them from which a configuration derives others (RFC 4512,
//! section 2.5.1).

ghost use Rattle.std.specs.Prelude.{◌≡◌, IfErr, IfOk, Ok, OnOk, Some};
ghost use Rattle.dir_acl.specs.Inside.NotedTypes.{AreStandard, IsWith, noted_by};
ghost use Rattle.dir_acl.specs.Notes.Supertypes.{derives_from, is_named, is_supertype, sup_in, type_named};
ghost use Rattle.dir_acl.specs.Outcome.{GivesPart};
ghost use Rattle.dir_acl.specs.declared.fault.ConfigCause.TheVariants as ConfigCause;

use crate::ConfigCause;
use dir_conf_text::ConfigLine;
use dir_names::{AttrKey, Bytes, Description, NameFault, Schema, TypeDefinition, split_once};
use std::alloc::Global;
use std::collections::BTreeSet;

/// The types that are known, and those from which others are derived.
#[derive(Drop)]
pub(crate) struct RuleTypes<'s> {
    schema: &'s Schema,
    /// Without options.
    supertypes: BTreeSet<AttrKey>,
}

impl<'s> RuleTypes<'s> {
    ghost use Rattle.std.specs.Prelude.{false, true};
    ghost use Rattle.dir_acl.specs.Notes.Known.{is_clear};
    ghost use Rattle.dir_acl.specs.Notes.Supertypes.{noted_types, without_options};

    /// Those of the lines of a configuration. The one fault is `Memory`.
    pub(crate) fn of_lines(
        alloc: Global,
        schema: &'s Schema,
        lines: &[ConfigLine],
    ) -> Result<RuleTypes<'s>, ConfigCause>
        ensures types { IfOk result (λ types. noted_by types ≡ noted_types schema.now lines.now) }
        ensures fault { IfErr result (λ cause. cause ≡ ConfigCause.Memory) }
    {
        let mut types = RuleTypes::of_standards(alloc, schema)?;
        for line in lines {
            types.add_line(alloc, line)?;
        }
        Ok(types)
    }

    /// The two that are above built-in types.
    fn of_standards(alloc: Global, schema: &'s Schema) -> Result<RuleTypes<'s>, ConfigCause>
        ensures types { IfOk result (λ types. AreStandard schema.now (noted_by types)) }
        ensures fault { IfErr result (λ cause. cause ≡ ConfigCause.Memory) }
    {
        let mut types = RuleTypes {
            schema,
            supertypes: BTreeSet::new(alloc),
        };
        types.add(alloc, b"name")?;
        types.add(alloc, b"distinguishedName")?;
        Ok(types)
    }

    /// Adds the type from which the one that a line defines is derived.
    fn add_line(&mut self, alloc: Global, line: &ConfigLine) -> Result<(), ConfigCause>
        ensures types { OnOk result (IsWith (λ attr. derives_from self.old.schema.now attr line.now.said) (noted_by self.old) (noted_by self.new)) }
        ensures fault { IfErr result (λ cause. cause ≡ ConfigCause.Memory) }
    {
        match read_sup(alloc, line)? {
            Some(sup) => self.add(alloc, sup.as_slice()),
            None => Ok(()),
        }
    }

    /// Adds the type of this description, if it is known.
    fn add(&mut self, alloc: Global, spelling: &[u8]) -> Result<(), ConfigCause>
        ensures types { OnOk result (IsWith (λ attr. is_named self.old.schema.now attr (type_named self.old.schema.now spelling.now)) (noted_by self.old) (noted_by self.new)) }
        ensures fault { IfErr result (λ cause. cause ≡ ConfigCause.Memory) }
    {
        match read_type(alloc, self.schema, spelling)? {
            Some(attr) if self.schema.knows(&attr) => {
                self.supertypes.insert(attr)?;
                Ok(())
            }
            _ => Ok(()),
        }
    }

    pub(crate) fn schema(&self) -> &Schema
        ensures { result.now ≡ self.now.schema.now }
    {
        self.schema
    }

    /// Whether this is an attribute of a known type from which no other is derived. Not all that are so are found.
    pub(crate) fn is_clear(&self, attr: &AttrKey) -> bool
        ensures { result ≡ true → is_clear (noted_by self.now) attr.now ≡ true }
    {
        self.schema.knows(attr) && self.has_no_subtypes(attr)
    }

    fn has_no_subtypes(&self, attr: &AttrKey) -> bool
        ensures { result ≡ true → (noted_by self.now).has_subtypes (without_options attr.now) ≡ false }
    {
        self.supertypes.is_empty() || !attr.has_options() && !self.supertypes.contains(attr)
    }

    /// Whether others are derived from the type of this description. The one fault is `Memory`.
    pub(crate) fn is_supertype(&self, alloc: Global, spelling: &[u8]) -> Result<bool, ConfigCause>
        ensures { GivesPart (λ is. is) result (Ok (is_supertype (noted_by self.now) spelling.now)) }
    {
        if self.supertypes.is_empty() {
            return Ok(false);
        }
        Ok(match read_type(alloc, self.schema, spelling)? {
            Some(attr) => self.supertypes.contains(&attr),
            None => false,
        })
    }
}

/// What the definition that a line has names after `SUP`. The one fault is `Memory`.
fn read_sup(alloc: Global, line: &ConfigLine) -> Result<Option<Bytes>, ConfigCause>
    ensures { GivesPart (λ sup. sup) result (Ok (sup_in line.now.said)) }
{
    let Some(definition) = line.definition() else {
        return Ok(None);
    };
    match TypeDefinition::read(alloc, definition) {
        Ok(Some(definition)) => Ok(definition.sup),
        Err(NameFault::Memory) => Err(ConfigCause::Memory),
        _ => Ok(None),
    }
}

/// The type that a description begins with. The one fault is `Memory`.
fn read_type(
    alloc: Global,
    schema: &Schema,
    spelling: &[u8],
) -> Result<Option<AttrKey>, ConfigCause>
    ensures { GivesPart (λ attr. attr) result (Ok (type_named schema.now spelling.now)) }
{
    let (name, _) = split_once(spelling, b';');
    match Description::read(alloc, schema, name) {
        Ok(description) => key_of(alloc, &description),
        Err(NameFault::Memory) => Err(ConfigCause::Memory),
        Err(_) => Ok(None),
    }
}

fn key_of(alloc: Global, description: &Description) -> Result<Option<AttrKey>, ConfigCause>
    ensures { GivesPart (λ attr. attr) result (Ok (Some description.now.key)) }
{
    match description.key().try_clone(alloc) {
        Ok(attr) => Ok(Some(attr)),
        Err(_) => Err(ConfigCause::Memory),
    }
}
