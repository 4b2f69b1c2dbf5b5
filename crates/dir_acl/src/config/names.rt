//! Names, descriptions and object classes in a configuration.

ghost use Rattle.std.specs.List.{list_any};
ghost use Rattle.std.specs.Prelude.{◌≡◌, ◌==◌, Ok, ok_or};
ghost use Rattle.dir_names.specs.NameKeys.{name_key};
ghost use Rattle.dir_acl.specs.Config.Names.{attr_at, class_key_at, if_of_names, is_class, name_at, names_attr_at, style_of};
ghost use Rattle.dir_acl.specs.Outcome.{GivesPart};

use crate::{ConfigCause, Style};
use dir_names::{AttrKey, Description, Dn, DnKey, NameFault, Rule, Schema, ValueKey};
use std::alloc::Global;

/// The style of a form `dn[.STYLE]`.
pub(crate) fn style_of(form: &[u8]) -> Option<Style>
    ensures { result ≡ style_of form.now }
{
    if form.eq_ignore_ascii_case(b"dn")
        || form.eq_ignore_ascii_case(b"dn.base")
        || form.eq_ignore_ascii_case(b"dn.baseobject")
        || form.eq_ignore_ascii_case(b"dn.exact")
    {
        Some(Style::Base)
    } else if form.eq_ignore_ascii_case(b"dn.one") || form.eq_ignore_ascii_case(b"dn.onelevel") {
        Some(Style::One)
    } else if form.eq_ignore_ascii_case(b"dn.sub") || form.eq_ignore_ascii_case(b"dn.subtree") {
        Some(Style::Subtree)
    } else if form.eq_ignore_ascii_case(b"dn.children") {
        Some(Style::Children)
    } else {
        None
    }
}

/// The key of the name that a text spells.
pub(crate) fn read_name(alloc: Global, schema: &Schema, text: &[u8]) -> Result<DnKey, ConfigCause>
    ensures { GivesPart (λ name. name) result (name_at schema.now text.now) }
{
    match Dn::read(alloc, text) {
        Ok(name) => key_of(alloc, schema, &name),
        Err(NameFault::Memory) => Err(ConfigCause::Memory),
        Err(_) => Err(ConfigCause::Name),
    }
}

fn key_of(alloc: Global, schema: &Schema, name: &Dn) -> Result<DnKey, ConfigCause>
    ensures { GivesPart (λ key. key) result (ok_or (name_key schema.now name.now) ConfigCause.Name) }
{
    match name.key(alloc, schema) {
        Ok(key) => Ok(key),
        Err(NameFault::Memory) => Err(ConfigCause::Memory),
        Err(_) => Err(ConfigCause::Name),
    }
}

/// The attribute of the description that a text spells.
pub(crate) fn read_attr(alloc: Global, schema: &Schema, text: &[u8]) -> Result<AttrKey, ConfigCause>
    ensures { GivesPart (λ attr. attr) result (attr_at schema.now text.now) }
{
    match Description::read(alloc, schema, text) {
        Ok(description) => attr_of(alloc, &description),
        Err(NameFault::Memory) => Err(ConfigCause::Memory),
        Err(_) => Err(ConfigCause::Name),
    }
}

fn attr_of(alloc: Global, description: &Description) -> Result<AttrKey, ConfigCause>
    ensures { GivesPart (λ attr. attr) result (Ok description.now.key) }
{
    match description.key().try_clone(alloc) {
        Ok(attr) => Ok(attr),
        Err(_) => Err(ConfigCause::Memory),
    }
}

/// The same of one whose values are names.
pub(crate) fn read_names_attr(
    alloc: Global,
    schema: &Schema,
    text: &[u8],
) -> Result<AttrKey, ConfigCause>
    ensures { GivesPart (λ attr. attr) result (names_attr_at schema.now text.now) }
{
    let attr = read_attr(alloc, schema, text)?;
    if_of_names(schema, attr)
}

fn if_of_names(schema: &Schema, attr: AttrKey) -> Result<AttrKey, ConfigCause>
    ensures { GivesPart (λ attr. attr) result (if_of_names schema.now attr) }
{
    match schema.rule(&attr) {
        Rule::Name => Ok(attr),
        _ => Err(ConfigCause::Unsupported),
    }
}

/// The key of an object class as a value of an attribute. A class is written as an attribute type is, known or not.
pub(crate) fn read_class(
    alloc: Global,
    schema: &Schema,
    attr: &AttrKey,
    text: &[u8],
) -> Result<ValueKey, ConfigCause>
    ensures { GivesPart (λ key. key) result (class_key_at schema.now attr.now text.now) }
{
    if !is_class(alloc, schema, text)? {
        return Err(ConfigCause::Name);
    }
    match schema.value_key(alloc, attr, text) {
        Ok(key) => Ok(key),
        Err(NameFault::Memory) => Err(ConfigCause::Memory),
        Err(_) => Err(ConfigCause::Name),
    }
}

pub(crate) fn is_class(alloc: Global, schema: &Schema, text: &[u8]) -> Result<bool, ConfigCause>
    ensures { GivesPart (λ is. is) result (Ok (is_class schema.now text.now)) }
{
    if has_semicolon(text) {
        return Ok(false);
    }
    match Description::read(alloc, schema, text) {
        Ok(_) | Err(NameFault::ReservedName) => Ok(true),
        Err(NameFault::Memory) => Err(ConfigCause::Memory),
        Err(_) => Ok(false),
    }
}

fn has_semicolon(text: &[u8]) -> bool
    ensures { result ≡ list_any (λ b. b == 59) text.now }
{
    text.contains(&b';')
}
