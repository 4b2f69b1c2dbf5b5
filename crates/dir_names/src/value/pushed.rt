//! The key of a value, appended to a text unless it is the value itself. ASCII values need no memory of their own.

ghost use Rattle.std.specs.List.{list_any};
ghost use Rattle.std.specs.Prelude.{◌≡◌, ◌==◌, ◌||◌, ◌++◌, false, true, IfErr, IfOk, IsTrue, Ok};
ghost use Rattle.std.specs.Char.{is_ascii_uppercase};
ghost use Rattle.std.specs.Str.{str_to_ascii_lowercase};
ghost use Rattle.dir_names.specs.Inside.ShortKeys.{IsKeyByWay};
ghost use Rattle.dir_names.specs.NameKeys.{as_text};
ghost use Rattle.dir_names.specs.Outcome.{Gives, IsNameFaultOf};
ghost use Rattle.dir_names.specs.ValueKeys.{is_ascii, text_key_of};
ghost use Rattle.dir_names.specs.ValueKeys.Pushed.{Pushes, is_appended};
ghost use Rattle.dir_names.specs.ValueKeys.Spaces.{without_extra_spaces, without_spaces_and_hyphens};

use crate::key::sorting::put_lowercase;
use crate::value::folding::is_ascii;
use crate::value::spaces::{has_no_extra_space, put_words};
use crate::value::{is_integer, is_object_id, text_key};
use crate::{AttrKey, DnSortKey, NameFault, RecentNames, Rule, Schema};
use std::alloc::Global;

/// Where the key of a value is, after `Schema::push_value_key`.
#[derive(Debug, Drop)]
pub enum PushedKey {
    /// The key is the value itself: nothing was appended.
    Same,
    /// The key is the text that was appended.
    Appended,
    /// The key is that of a name: nothing was appended.
    Name(DnSortKey),
}

/// How the key of a value is found.
enum Way {
    /// It is the value itself.
    Same,
    /// It is the value in lower case.
    Lowercase,
    /// It is the value in lower case, without extra spaces.
    Squeezed,
    /// It is the value in lower case, without spaces and hyphens.
    Dialed,
    /// By its rule.
    ByRule,
}

impl Schema {
    ghost use Rattle.dir_names.specs.NameKeys.{value_key_of};

    /// Finds the key of a value of this type, and appends it to a text unless it is the value itself or that
    /// of a name. Where it fails, the text may have grown.
    ///
    /// # Errors
    ///
    /// `BadValue` if the value has no key under the rule of its type.
    pub fn push_value_key(
        &self,
        alloc: Global,
        attr: &AttrKey,
        value: &[u8],
        text: &mut Vec<u8>,
    ) -> Result<PushedKey, NameFault>
        ensures key { IfOk result (Pushes (value_key_of self.now attr.now value.now) value.now text.old.items text.new.items) }
        ensures kept { IfOk result (λ pushed. is_appended pushed ≡ false → text.new.items ≡ text.old.items) }
        ensures fault { IfErr result (λ e. IsNameFaultOf e (value_key_of self.now attr.now value.now)) }
    {
        match self.rule(attr) {
            Rule::Name => Ok(PushedKey::Name(DnSortKey::read(alloc, self, value)?)),
            rule => push_text_key(alloc, rule, value, text),
        }
    }
}

impl RecentNames {
    ghost use Rattle.dir_names.specs.NameKeys.{value_key_of};

    /// Finds the key of a value as `Schema::push_value_key` does. A name that is one of the last is not read again.
    ///
    /// # Errors
    ///
    /// As for `Schema::push_value_key`.
    pub fn push_value_key(
        &mut self,
        alloc: Global,
        schema: &Schema,
        attr: &AttrKey,
        value: &[u8],
        text: &mut Vec<u8>,
    ) -> Result<PushedKey, NameFault>
        ensures key { IfOk result (Pushes (value_key_of schema.now attr.now value.now) value.now text.old.items text.new.items) }
        ensures kept { IfOk result (λ pushed. is_appended pushed ≡ false → text.new.items ≡ text.old.items) }
        ensures fault { IfErr result (λ e. IsNameFaultOf e (value_key_of schema.now attr.now value.now)) }
    {
        match schema.rule(attr) {
            Rule::Name => Ok(PushedKey::Name(self.read(alloc, schema, value)?)),
            rule => push_text_key(alloc, rule, value, text),
        }
    }
}

/// `push_value_key` under a rule other than `Name`.
fn push_text_key(
    alloc: Global,
    rule: Rule,
    value: &[u8],
    text: &mut Vec<u8>,
) -> Result<PushedKey, NameFault>
    ensures key { IfOk result (Pushes (as_text (text_key_of rule value.now)) value.now text.old.items text.new.items) }
    ensures kept { IfOk result (λ pushed. is_appended pushed ≡ false → text.new.items ≡ text.old.items) }
    ensures fault { IfErr result (λ e. IsNameFaultOf e (as_text (text_key_of rule value.now))) }
{
    match way_of(rule, value) {
        Way::Same => Ok(PushedKey::Same),
        Way::Lowercase => {
            put_lowercase(value, text)?;
            Ok(PushedKey::Appended)
        }
        Way::Squeezed => {
            put_squeezed(value, text)?;
            Ok(PushedKey::Appended)
        }
        Way::Dialed => {
            put_dialed(value, text)?;
            Ok(PushedKey::Appended)
        }
        Way::ByRule => push_key_by_rule(alloc, rule, value, text),
    }
}

fn push_key_by_rule(
    alloc: Global,
    rule: Rule,
    value: &[u8],
    text: &mut Vec<u8>,
) -> Result<PushedKey, NameFault>
    ensures key { IfOk result (Pushes (as_text (text_key_of rule value.now)) value.now text.old.items text.new.items) }
    ensures kept { IfOk result (λ pushed. is_appended pushed ≡ false → text.new.items ≡ text.old.items) }
    ensures fault { IfErr result (λ e. IsNameFaultOf e (as_text (text_key_of rule value.now))) }
{
    let key = text_key(alloc, rule, value)?;
    if key.as_slice() == value {
        return Ok(PushedKey::Same);
    }
    text.extend_from_slice(key.as_slice())?;
    Ok(PushedKey::Appended)
}

fn way_of(rule: Rule, value: &[u8]) -> Way
    ensures { IsKeyByWay (text_key_of rule value.now) value.now result }
{
    match rule {
        Rule::Octet => Way::Same,
        Rule::CaseIgnore if !value.is_empty() && is_ascii(value) => way_to_squeezed(value),
        Rule::Telephone if !value.is_empty() && is_ascii(value) => way_to_dialed(value),
        Rule::Ia5CaseIgnore if is_ascii(value) => way_to_squeezed(value),
        Rule::Ia5CaseExact if is_tidy(value) => Way::Same,
        Rule::ObjectId if is_object_id(value) => way_to_lowercase(value),
        Rule::Integer if is_integer(value) => Way::Same,
        _ => Way::ByRule,
    }
}

fn way_to_squeezed(value: &[u8]) -> Way
    ensures { IsKeyByWay (Ok (without_extra_spaces (str_to_ascii_lowercase value.now))) value.now result }
{
    if has_no_extra_space(value) {
        way_to_lowercase(value)
    } else {
        Way::Squeezed
    }
}

fn way_to_lowercase(value: &[u8]) -> Way
    ensures { IsKeyByWay (Ok (str_to_ascii_lowercase value.now)) value.now result }
{
    if has_capital(value) {
        Way::Lowercase
    } else {
        Way::Same
    }
}

fn way_to_dialed(value: &[u8]) -> Way
    ensures { IsKeyByWay (Ok (without_spaces_and_hyphens (str_to_ascii_lowercase value.now))) value.now result }
{
    if has_undialed(value) {
        Way::Dialed
    } else {
        Way::Same
    }
}

/// Whether there is a space, a hyphen or a letter that is not in lower case.
fn has_undialed(value: &[u8]) -> bool
    ensures { result ≡ list_any (λ b. b == 32 || b == 45 || is_ascii_uppercase b) value.now }
{
    value
        .iter()
        .any(|b| *b == b' ' || *b == b'-' || b.is_ascii_uppercase())
}

/// Appends a text in lower case, without extra spaces.
fn put_squeezed(value: &[u8], text: &mut Vec<u8>) -> Result<(), NameFault>
    ensures { Gives (λ _. text.new.items) result (Ok (text.old.items ++ without_extra_spaces (str_to_ascii_lowercase value.now))) }
{
    let start = text.len();
    put_words(value, text)?;
    text.as_mut_slice()[start..].make_ascii_lowercase();
    Ok(())
}

/// Appends a text in lower case, without its spaces and hyphens.
fn put_dialed(value: &[u8], text: &mut Vec<u8>) -> Result<(), NameFault>
    ensures { Gives (λ _. text.new.items) result (Ok (text.old.items ++ without_spaces_and_hyphens (str_to_ascii_lowercase value.now))) }
{
    for b in value {
        if *b != b' ' && *b != b'-' {
            text.push(b.to_ascii_lowercase())?;
        }
    }
    Ok(())
}

/// Whether a letter is not in lower case.
fn has_capital(value: &[u8]) -> bool
    ensures { result ≡ list_any is_ascii_uppercase value.now }
{
    value.iter().any(|b| b.is_ascii_uppercase())
}

fn is_tidy(value: &[u8]) -> bool
    ensures ascii { IsTrue result → is_ascii value.now ≡ true }
    ensures tidy { IsTrue result → without_extra_spaces value.now ≡ value.now }
{
    is_ascii(value) && has_no_extra_space(value)
}
