//! The forms of slapd.access(5) that aren't decided. A form is what is before the `=` of a word: a keyword, and mostly a style after a dot.

ghost use Rattle.std.specs.List.{before_first, list_all, list_any};
ghost use Rattle.std.specs.Prelude.{◌≡◌, ◌==◌, Ok, option_copied};
ghost use Rattle.dir_names.specs.Descriptions.{is_digit};
ghost use Rattle.dir_acl.specs.Config.OpenForms.{are_plain_tests, begins_with_word, has_class_sign, has_identity, has_plain_tests, is_braced, is_class_sign, is_connection, is_domain_style, is_equality, is_expanded_group, is_level, is_modified, is_modifier, is_name_style, is_number, is_open_flag, is_open_flag_of, is_open_form, is_open_identity, is_open_keyword, is_open_name, is_open_who, is_open_with, is_pattern_style, is_peer_style, is_plain_after, is_plain_keyword, is_plain_test, is_plain_value, is_requester_style, is_set_style, is_signed, is_strength, is_strength_or_set, is_styled_value, is_undecided_form, is_value_form, names_class, keyword_of, self_edit, without_real, without_sign};
ghost use Rattle.dir_acl.specs.Config.Names.{form_of};
ghost use Rattle.dir_acl.specs.Outcome.{GivesPart};

use crate::config::names::style_of;
use crate::config::permissions::edit_of;
use crate::filter::assertion::{Operator, operator_of};
use crate::filter::reading::in_parentheses;
use crate::note::filters::{asks_presence, begins_test};
use crate::{ConfigCause, Edit, FilterFault};
use dir_names::split_once;
use std::alloc::Global;

// ---- styles

fn is_pattern_style(style: &[u8]) -> bool
    ensures { result ≡ is_pattern_style style.now }
{
    style.eq_ignore_ascii_case(b"exact")
        || style.eq_ignore_ascii_case(b"regex")
        || style.eq_ignore_ascii_case(b"expand")
}

fn is_set_style(style: &[u8]) -> bool
    ensures { result ≡ is_set_style style.now }
{
    style.eq_ignore_ascii_case(b"exact") || style.eq_ignore_ascii_case(b"expand")
}

fn is_peer_style(style: &[u8]) -> bool
    ensures { result ≡ is_peer_style style.now }
{
    is_pattern_style(style)
        || style.eq_ignore_ascii_case(b"ip")
        || style.eq_ignore_ascii_case(b"ipv6")
        || style.eq_ignore_ascii_case(b"path")
}

fn is_domain_style(style: &[u8]) -> bool
    ensures { result ≡ is_domain_style style.now }
{
    is_pattern_style(style)
        || style.eq_ignore_ascii_case(b"sub")
        || style.eq_ignore_ascii_case(b"subtree")
}

/// Those of a name in a `<what>`, and of a value.
fn is_name_style(style: &[u8]) -> bool
    ensures { result ≡ is_name_style style.now }
{
    style.eq_ignore_ascii_case(b"exact")
        || style.eq_ignore_ascii_case(b"base")
        || style.eq_ignore_ascii_case(b"baseobject")
        || style.eq_ignore_ascii_case(b"one")
        || style.eq_ignore_ascii_case(b"onelevel")
        || style.eq_ignore_ascii_case(b"sub")
        || style.eq_ignore_ascii_case(b"subtree")
        || style.eq_ignore_ascii_case(b"children")
        || style.eq_ignore_ascii_case(b"regex")
}

/// Those of a name in a `<who>`.
fn is_requester_style(style: &[u8]) -> bool
    ensures { result ≡ is_requester_style style.now }
{
    is_name_style(style) || style.eq_ignore_ascii_case(b"expand") || is_level(style)
}

/// `level{N}`
fn is_level(style: &[u8]) -> bool
    ensures { result ≡ is_level style.now }
{
    let (word, number) = split_once(style, b'{');
    word.eq_ignore_ascii_case(b"level") && is_braced(number)
}

fn is_braced(text: Option<&[u8]>) -> bool
    ensures { result ≡ is_braced (option_copied text.entry) }
{
    let Some(text) = text else {
        return false;
    };
    let (number, after) = split_once(text, b'}');
    is_signed(number) && matches!(after, Some([]))
}

fn is_signed(number: &[u8]) -> bool
    ensures { result ≡ is_signed number.now }
{
    match number {
        [b'-', digits @ ..] => is_number(digits),
        _ => is_number(number),
    }
}

fn are_digits(text: &[u8]) -> bool
    ensures { result ≡ list_all is_digit text.now }
{
    text.iter().all(|b| b.is_ascii_digit())
}

fn is_number(digits: &[u8]) -> bool
    ensures { result ≡ is_number digits.now }
{
    !digits.is_empty() && are_digits(digits)
}

/// `STYLE[,expand]`, of the style of a domain.
fn is_modified_domain(text: &[u8]) -> bool
    ensures { result ≡ is_modified is_domain_style text.now }
{
    let (style, modifier) = split_once(text, b',');
    is_domain_style(style) && is_modifier(modifier)
}

/// The same of the style of a name in a `<who>`.
fn is_modified_requester(text: &[u8]) -> bool
    ensures { result ≡ is_modified is_requester_style text.now }
{
    let (style, modifier) = split_once(text, b',');
    is_requester_style(style) && is_modifier(modifier)
}

fn is_modifier(modifier: Option<&[u8]>) -> bool
    ensures { result ≡ is_modifier (option_copied modifier.entry) }
{
    match modifier {
        Some(modifier) => modifier.eq_ignore_ascii_case(b"expand"),
        None => true,
    }
}

// ---- `<who>`

/// Whether a word of a `<who>` isn't decided.
pub(crate) fn is_open_who(word: &[u8]) -> bool
    ensures { result ≡ is_open_who word.now }
{
    if begins_with_word(word, b"dynacl/") {
        return true;
    }
    let (form, value) = split_once(word, b'=');
    match value {
        Some(_) => is_open_form(form),
        None => is_open_flag(word),
    }
}

/// A word of a `<who>` without the `real` before it: nobody asks by another one's name here, so it says nothing.
pub(crate) fn without_real(word: &[u8]) -> &[u8]
    ensures { result.now ≡ without_real word.now }
{
    if !begins_with_word(word, b"real") {
        return word;
    }
    let rest = &word[4..];
    if has_identity(rest) { rest } else { word }
}

/// Whether a word begins with a keyword for who asks.
fn has_identity(word: &[u8]) -> bool
    ensures { result ≡ has_identity (keyword_of (form_of word.now)) }
{
    let (form, _) = split_once(word, b'=');
    let (keyword, _) = split_once(form, b'.');
    keyword.eq_ignore_ascii_case(b"anonymous")
        || keyword.eq_ignore_ascii_case(b"users")
        || keyword.eq_ignore_ascii_case(b"self")
        || keyword.eq_ignore_ascii_case(b"dn")
        || keyword.eq_ignore_ascii_case(b"dnattr")
}

fn begins_with_word(text: &[u8], word: &[u8]) -> bool
    ensures { result ≡ begins_with_word text.now word.now }
{
    if text.len() < word.len() {
        return false;
    }
    let (first, _) = text.split_at(word.len());
    first.eq_ignore_ascii_case(word)
}

/// A word without a value.
fn is_open_flag(word: &[u8]) -> bool
    ensures { result ≡ is_open_flag word.now }
{
    let (keyword, style) = split_once(word, b'.');
    match style {
        Some(style) => keyword.eq_ignore_ascii_case(b"self") && is_level(style),
        None => keyword.eq_ignore_ascii_case(b"aci"),
    }
}

fn is_open_form(form: &[u8]) -> bool
    ensures { result ≡ is_open_form form.now }
{
    style_of(form).is_none() && is_undecided_form(form)
}

fn is_undecided_form(form: &[u8]) -> bool
    ensures { result ≡ is_undecided_form form.now }
{
    let (keyword, style) = split_once(form, b'.');
    is_open_keyword(keyword, style) || is_expanded_group(form)
}

fn is_open_keyword(keyword: &[u8], style: Option<&[u8]>) -> bool
    ensures { result ≡ is_open_keyword keyword.now (option_copied style.entry) }
{
    is_strength_or_set(keyword, style)
        || is_connection(keyword, style)
        || is_open_identity(keyword, style)
}

fn is_strength_or_set(keyword: &[u8], style: Option<&[u8]>) -> bool
    ensures { result ≡ is_strength_or_set keyword.now (option_copied style.entry) }
{
    if is_plain_keyword(keyword) {
        return style.is_none();
    }
    keyword.eq_ignore_ascii_case(b"set") && style.is_none_or(is_set_style)
}

/// A keyword without a style.
fn is_plain_keyword(keyword: &[u8]) -> bool
    ensures { result ≡ is_plain_keyword keyword.now }
{
    is_strength(keyword) || keyword.eq_ignore_ascii_case(b"aci")
}

/// How strong the connection is.
fn is_strength(keyword: &[u8]) -> bool
    ensures { result ≡ is_strength keyword.now }
{
    keyword.eq_ignore_ascii_case(b"ssf")
        || keyword.eq_ignore_ascii_case(b"transport_ssf")
        || keyword.eq_ignore_ascii_case(b"tls_ssf")
        || keyword.eq_ignore_ascii_case(b"sasl_ssf")
}

/// The client, and the server's end of the connection.
fn is_connection(keyword: &[u8], style: Option<&[u8]>) -> bool
    ensures { result ≡ is_connection keyword.now (option_copied style.entry) }
{
    if keyword.eq_ignore_ascii_case(b"peername") {
        return style.is_none_or(is_peer_style);
    }
    if keyword.eq_ignore_ascii_case(b"sockname") || keyword.eq_ignore_ascii_case(b"sockurl") {
        return style.is_none_or(is_pattern_style);
    }
    keyword.eq_ignore_ascii_case(b"domain") && style.is_none_or(is_modified_domain)
}

fn is_open_identity(keyword: &[u8], style: Option<&[u8]>) -> bool
    ensures { result ≡ is_open_identity keyword.now (option_copied style.entry) }
{
    keyword.eq_ignore_ascii_case(b"dn") && style.is_some_and(is_modified_requester)
}

/// `group[/CLASS[/ATTR]].expand`
fn is_expanded_group(form: &[u8]) -> bool
    ensures { result ≡ is_expanded_group form.now }
{
    let (before, last) = form.split_at(form.len().saturating_sub(7));
    let (keyword, _) = split_once(before, b'/');
    keyword.eq_ignore_ascii_case(b"group") && last.eq_ignore_ascii_case(b".expand")
}

// ---- `<what>`

pub(crate) fn is_open_name(form: &[u8]) -> bool
    ensures { result ≡ is_open_name form.now }
{
    let (keyword, style) = split_once(form, b'.');
    keyword.eq_ignore_ascii_case(b"dn") && style.is_some_and(is_name_style)
}

/// `val[/RULE][.STYLE]`
pub(crate) fn is_value_form(form: &[u8]) -> bool
    ensures { result ≡ is_value_form form.now }
{
    begins_with_word(form, b"val/") || is_styled_value(form)
}

fn is_styled_value(form: &[u8]) -> bool
    ensures { result ≡ is_styled_value form.now }
{
    let (keyword, style) = split_once(form, b'.');
    keyword.eq_ignore_ascii_case(b"val") && style.is_none_or(is_name_style)
}

/// Whether an item of `attrs=` is a class.
pub(crate) fn names_class(item: &[u8]) -> bool
    ensures { result ≡ names_class item.now }
{
    has_class_sign(item)
        || item.eq_ignore_ascii_case(b"extensibleObject")
        || item.eq_ignore_ascii_case(b"1.3.6.1.4.1.1466.101.120.111")
}

fn has_class_sign(item: &[u8]) -> bool
    ensures { result ≡ has_class_sign item.now }
{
    match item {
        [first, ..] => is_class_sign(*first),
        [] => false,
    }
}

fn is_class_sign(b: u8) -> bool
    ensures { result ≡ is_class_sign b }
{
    b == b'@' || b == b'!'
}

pub(crate) fn without_sign(item: &[u8]) -> &[u8]
    ensures { result.now ≡ without_sign item.now }
{
    match item {
        [first, more @ ..] => { if is_class_sign(*first) { more } else { item } }
        [] => item,
    }
}

// ---- filters

/// Whether each test of a filter asks whether an attribute is there, or has a value. The one fault is `Memory`.
pub(crate) fn has_plain_tests(alloc: Global, filter: &[u8]) -> Result<bool, ConfigCause>
    ensures { GivesPart (λ is. is) result (Ok (has_plain_tests filter.now)) }
{
    match in_parentheses(alloc, filter) {
        Ok(whole) => Ok(are_plain_tests(whole.as_slice())),
        Err(FilterFault::Memory) => Err(ConfigCause::Memory),
        Err(_) => Err(ConfigCause::BadFilter),
    }
}

fn are_plain_tests(text: &[u8]) -> bool
    ensures { result ≡ are_plain_tests text.now }
{
    let mut rest = text;
    while let Some((b, after)) = rest.split_first() {
        if !is_plain_after(*b, after) {
            return false;
        }
        rest = after;
    }
    true
}

fn is_plain_after(b: u8, after: &[u8]) -> bool
    ensures { result ≡ is_plain_after b after.now }
{
    if b == b'(' && begins_test(after) {
        is_plain_test(after)
    } else {
        true
    }
}

/// The test that a text begins with.
fn is_plain_test(text: &[u8]) -> bool
    ensures { result ≡ is_plain_test text.now }
{
    let (before, value) = split_once(text, b'=');
    is_equality(operator_of(before)) && is_plain_value(value)
}

fn is_equality(operator: Operator) -> bool
    ensures { result ≡ is_equality operator }
{
    matches!(operator, Operator::Equal)
}

fn is_plain_value(value: Option<&[u8]>) -> bool
    ensures { result ≡ is_plain_value (option_copied value.entry) }
{
    match value {
        Some(text) => asks_presence(value) || !has_asterisk(text),
        None => false,
    }
}

fn has_asterisk(text: &[u8]) -> bool
    ensures { result ≡ list_any (λ b. b == 42) (before_first (λ b. b == 41) text.now) }
{
    let (value, _) = split_once(text, b')');
    value.contains(&b'*')
}

// ---- `<access>`

/// The edit after `self` or `realself`.
pub(crate) fn self_edit(word: &[u8]) -> Option<Edit>
    ensures { result ≡ self_edit word.now }
{
    if begins_with_word(word, b"realself") {
        return edit_of(&word[8..]);
    }
    if begins_with_word(word, b"self") {
        return edit_of(&word[4..]);
    }
    None
}
