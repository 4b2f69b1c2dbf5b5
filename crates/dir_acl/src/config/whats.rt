//! The words of a `<what>` (slapd.access(5)).

ghost use Rattle.std.specs.List.{list_any};
ghost use Rattle.std.specs.Prelude.{◌≡◌, ◌++◌, [], ◌∷◌, Ok, map};
ghost use Rattle.dir_acl.specs.Config.Whats.{filter_at, is_of_form, item_at, items_at, with_attrs, with_filter, with_form, with_name, with_what};
ghost use Rattle.dir_acl.specs.Filters.Packed.{tree_of};
ghost use Rattle.dir_acl.specs.Outcome.{GivesPart};
ghost use Rattle.dir_acl.specs.Rules.{restriction_of};

use crate::config::names::{read_attr, read_name, style_of};
use crate::{Asked, ConfigCause, Filter, FilterFault, OpenWhat, Style, What};
use dir_names::{Schema, split_once};
use std::alloc::Global;

/// The forms of which each may be in a `<what>` once.
#[derive(Clone, Copy)]
pub(crate) enum Form {
    Dn,
    Filter,
    Attrs,
}

/// The `<what>` with one word more. `*` restricts nothing.
pub(crate) fn with_what(
    alloc: Global,
    schema: &Schema,
    whats: Vec<What>,
    word: &[u8],
) -> Result<Vec<What>, ConfigCause>
    ensures { GivesPart (λ whats. map restriction_of whats.items) result (with_what schema.now (map restriction_of whats.items) word.now) }
{
    if word.eq_ignore_ascii_case(b"*") {
        return Ok(whats);
    }
    let (form, value) = split_once(word, b'=');
    match value {
        Some(text) => with_form(alloc, schema, whats, form, text),
        None => Err(ConfigCause::Unsupported),
    }
}

fn with_form(
    alloc: Global,
    schema: &Schema,
    whats: Vec<What>,
    form: &[u8],
    text: &[u8],
) -> Result<Vec<What>, ConfigCause>
    ensures { GivesPart (λ whats. map restriction_of whats.items) result (with_form schema.now (map restriction_of whats.items) form.now text.now) }
{
    if form.eq_ignore_ascii_case(b"filter") {
        return with_filter(alloc, schema, whats, text);
    }
    if form.eq_ignore_ascii_case(b"attrs") {
        return with_attrs(alloc, schema, whats, text);
    }
    match style_of(form) {
        Some(style) => with_name(alloc, schema, whats, style, text),
        None => Err(ConfigCause::Unsupported),
    }
}

pub(crate) fn with_name(
    alloc: Global,
    schema: &Schema,
    whats: Vec<What>,
    style: Style,
    text: &[u8],
) -> Result<Vec<What>, ConfigCause>
    ensures { GivesPart (λ whats. map restriction_of whats.items) result (with_name schema.now (map restriction_of whats.items) style text.now) }
{
    if has_form(whats.as_slice(), Form::Dn) {
        return Err(ConfigCause::BadDirective);
    }
    let name = read_name(alloc, schema, text)?;
    with_last(whats, What::Dn(style, name))
}

fn with_filter(
    alloc: Global,
    schema: &Schema,
    whats: Vec<What>,
    text: &[u8],
) -> Result<Vec<What>, ConfigCause>
    ensures { GivesPart (λ whats. map restriction_of whats.items) result (with_filter schema.now (map restriction_of whats.items) text.now) }
{
    if has_form(whats.as_slice(), Form::Filter) {
        return Err(ConfigCause::BadDirective);
    }
    let filter = read_filter(alloc, schema, text)?;
    with_last(whats, What::Filter(filter))
}

fn with_attrs(
    alloc: Global,
    schema: &Schema,
    whats: Vec<What>,
    text: &[u8],
) -> Result<Vec<What>, ConfigCause>
    ensures { GivesPart (λ whats. map restriction_of whats.items) result (with_attrs schema.now (map restriction_of whats.items) text.now) }
{
    if has_form(whats.as_slice(), Form::Attrs) {
        return Err(ConfigCause::BadDirective);
    }
    let items = read_items(alloc, schema, text)?;
    with_last(whats, What::Attrs(items))
}

pub(crate) fn with_last(whats: Vec<What>, what: What) -> Result<Vec<What>, ConfigCause>
    ensures { GivesPart (λ whats. map restriction_of whats.items) result (Ok (map restriction_of whats.items ++ restriction_of what ∷ [])) }
{
    let mut whats = whats;
    whats.push(what)?;
    Ok(whats)
}

pub(crate) fn has_form(whats: &[What], form: Form) -> bool
    ensures { result ≡ list_any (is_of_form form) (map restriction_of whats.now) }
{
    for what in whats {
        if is_of_form(form, what) {
            return true;
        }
    }
    false
}

fn is_of_form(form: Form, what: &What) -> bool
    ensures { result ≡ is_of_form form (restriction_of what.now) }
{
    matches!(
        (form, what),
        (Form::Dn, What::Dn(_, _) | What::Open(OpenWhat::Name))
            | (Form::Filter, What::Filter(_) | What::Open(OpenWhat::Filter))
            | (
                Form::Attrs,
                What::Attrs(_) | What::Open(OpenWhat::Types(_) | OpenWhat::Classes(_))
            )
    )
}

pub(crate) fn read_filter(
    alloc: Global,
    schema: &Schema,
    text: &[u8],
) -> Result<Filter, ConfigCause>
    ensures { GivesPart tree_of result (filter_at schema.now text.now) }
{
    match Filter::read(alloc, schema, text) {
        Ok(filter) => Ok(filter),
        Err(FilterFault::BadFilter) => Err(ConfigCause::BadFilter),
        Err(FilterFault::TooDeep) => Err(ConfigCause::FilterTooDeep),
        Err(FilterFault::Memory) => Err(ConfigCause::Memory),
    }
}

/// The items of `attrs=LIST`.
fn read_items(alloc: Global, schema: &Schema, text: &[u8]) -> Result<Vec<Asked>, ConfigCause>
    ensures { GivesPart (λ items. items.items) result (items_at schema.now text.now) }
{
    let mut items = Vec::new(alloc);
    let mut rest = Some(text);
    while let Some(more) = rest {
        let (part, after) = split_once(more, b',');
        items.push(read_item(alloc, schema, part)?)?;
        rest = after;
    }
    Ok(items)
}

/// A pseudo attribute or a description.
pub(crate) fn read_item(alloc: Global, schema: &Schema, text: &[u8]) -> Result<Asked, ConfigCause>
    ensures { GivesPart (λ item. item) result (item_at schema.now text.now) }
{
    if text.eq_ignore_ascii_case(b"entry") {
        return Ok(Asked::Entry);
    }
    if text.eq_ignore_ascii_case(b"children") {
        return Ok(Asked::Children);
    }
    Ok(Asked::Attribute(read_attr(alloc, schema, text)?))
}
