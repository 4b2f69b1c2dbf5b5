//! The words of a `<who>` (slapd.access(5)).

ghost use Rattle.std.specs.Prelude.{◌≡◌, option_copied};
ghost use Rattle.dir_names.specs.Inside.Left.{parts_left};
ghost use Rattle.dir_acl.specs.Config.Names.{style_of};
ghost use Rattle.dir_acl.specs.Config.Whos.{group_at, group_of, group_with, who_of, who_of_style, who_without_style, without_exact};
ghost use Rattle.dir_acl.specs.Outcome.{GivesPart};

use crate::config::names::{read_attr, read_class, read_name, read_names_attr, style_of};
use crate::{ConfigCause, Who};
use dir_names::{Schema, split_once};
use std::alloc::Global;

/// The part of a `<who>` that a word is, if it is one.
pub(crate) fn read_who(
    alloc: Global,
    schema: &Schema,
    word: &[u8],
) -> Result<Option<Who>, ConfigCause>
    ensures { GivesPart (λ who. who) result (who_of schema.now word.now) }
{
    if word.eq_ignore_ascii_case(b"*") {
        return Ok(Some(Who::Anyone));
    }
    if word.eq_ignore_ascii_case(b"anonymous") {
        return Ok(Some(Who::Anonymous));
    }
    if word.eq_ignore_ascii_case(b"users") {
        return Ok(Some(Who::Users));
    }
    if word.eq_ignore_ascii_case(b"self") {
        return Ok(Some(Who::Myself));
    }
    let (form, value) = split_once(word, b'=');
    match value {
        Some(text) => who_of_form(alloc, schema, form, text),
        None => Ok(None),
    }
}

fn who_of_form(
    alloc: Global,
    schema: &Schema,
    form: &[u8],
    text: &[u8],
) -> Result<Option<Who>, ConfigCause>
    ensures { GivesPart (λ who. who) result (who_of_style schema.now (style_of form.now) form.now text.now) }
{
    if let Some(style) = style_of(form) {
        let name = read_name(alloc, schema, text)?;
        return Ok(Some(Who::Dn(style, name)));
    }
    who_without_style(alloc, schema, form, text)
}

fn who_without_style(
    alloc: Global,
    schema: &Schema,
    form: &[u8],
    text: &[u8],
) -> Result<Option<Who>, ConfigCause>
    ensures { GivesPart (λ who. who) result (who_without_style schema.now form.now text.now) }
{
    if form.eq_ignore_ascii_case(b"dnattr") {
        let attr = read_names_attr(alloc, schema, text)?;
        return Ok(Some(Who::DnAttr(attr)));
    }
    group_of(alloc, schema, form, text)
}

/// `group[/CLASS[/ATTR]][.exact]=NAME`
fn group_of(
    alloc: Global,
    schema: &Schema,
    form: &[u8],
    text: &[u8],
) -> Result<Option<Who>, ConfigCause>
    ensures { GivesPart (λ who. who) result (group_of schema.now form.now text.now) }
{
    let (first, parts) = split_once(without_exact(form), b'/');
    if !first.eq_ignore_ascii_case(b"group") {
        return Ok(None);
    }
    group_with(alloc, schema, parts, text)
}

/// A form without `.exact` at its end.
fn without_exact(form: &[u8]) -> &[u8]
    ensures { result.now ≡ without_exact form.now }
{
    let (before, last) = form.split_at(form.len().saturating_sub(6));
    if last.eq_ignore_ascii_case(b".exact") {
        before
    } else {
        form
    }
}

/// The group of the parts after `group`: the class is `groupOfNames` by default, and the attribute `member`.
#[tactic(auto, using(crate::proofs::Groups::surplus_part))]
fn group_with(
    alloc: Global,
    schema: &Schema,
    parts: Option<&[u8]>,
    text: &[u8],
) -> Result<Option<Who>, ConfigCause>
    ensures { GivesPart (λ who. who) result (group_with schema.now (parts_left 47 (option_copied parts.entry)) text.now) }
{
    let Some(parts) = parts else {
        return group_at(alloc, schema, b"groupOfNames", b"member", text);
    };
    let (class, more) = split_once(parts, b'/');
    let Some(more) = more else {
        return group_at(alloc, schema, class, b"member", text);
    };
    let (member, surplus) = split_once(more, b'/');
    match surplus {
        None => group_at(alloc, schema, class, member, text),
        Some(_) => Ok(None),
    }
}

/// The group of this name, class and attribute of members.
fn group_at(
    alloc: Global,
    schema: &Schema,
    class: &[u8],
    member: &[u8],
    text: &[u8],
) -> Result<Option<Who>, ConfigCause>
    ensures { GivesPart (λ who. who) result (group_at schema.now class.now member.now text.now) }
{
    let class_attr = read_attr(alloc, schema, b"objectClass")?;
    let class = read_class(alloc, schema, &class_attr, class)?;
    let member = read_names_attr(alloc, schema, member)?;
    let name = read_name(alloc, schema, text)?;
    Ok(Some(Who::Group(name, class_attr, class, member)))
}
