//! A short way to the text of the key of a plain name: one that is spelled as it is printed, with one pair in
//! each RDN. Any other name is refused, with any fault but `Memory`: it may still be a name, and some text may have
//! been written.

ghost use Rattle.std.specs.List.{list_all};
ghost use Rattle.std.specs.Prelude.{◌≡◌, ◌++◌, ◌∷◌, ◌&&◌, nat_lt, IfOk, IfSome, OnOk, Some, option_copied, option_map, true};
ghost use Rattle.dir_names.specs.Ascii.{equals_sign};
ghost use Rattle.dir_names.specs.Inside.PlainParents.{IsPlainParent};
ghost use Rattle.dir_names.specs.Inside.Scopes.{HoldsWithin, IsScopeOf};
ghost use Rattle.dir_names.specs.Inside.SortKeys.{IsKeyLowercase, IsPairPut, IsPlainRdn, with_piece};
ghost use Rattle.dir_names.specs.Inside.SortTexts.{name_sort};
ghost use Rattle.dir_names.specs.NameKeys.{name_value_key};

use crate::attribute::{is_reserved, is_type};
use crate::key::sorting::{put_lowercase_pair, put_set};
use crate::limits::{MAX_RDN_TEXT, MAX_RDNS};
use crate::name::printing::is_plain_value;
use crate::name::type_and_value_key;
use crate::schema::scope::Scope;
use crate::value::spaces::has_no_extra_space;
use crate::{NameFault, Rule, Schema};
use std::alloc::Global;
use std::slice;

/// Writes the text of the key of the name that a value spells, if it is plain.
pub(crate) fn put_plain_name(
    alloc: Global,
    schema: &Schema,
    value: &[u8],
    out: &mut Vec<u8>,
) -> Result<(), NameFault>
    ensures { OnOk result (option_map name_sort (name_value_key schema.now value.now) ≡ Some out.new.items) }
{
    schema.keeps_builtin_types();
    match put_plain_parent(alloc, schema, value, out) {
        Ok((leaf, _above, _scope)) => match put_plain_rdn(alloc, schema, leaf, out) {
            Ok(_of_leaf) => Ok(()),
            Err(fault) => Err(fault),
        },
        Err(fault) => Err(fault),
    }
}

/// Writes the text of the key of the parent of the name that a value spells, if it is plain, and answers the text of
/// the leaf, the text after it, and the schemas under which it is that key.
pub(crate) fn put_plain_parent<'a>(
    alloc: Global,
    schema: &Schema,
    value: &'a [u8],
    out: &mut Vec<u8>,
) -> Result<(&'a [u8], &'a [u8], Scope), NameFault>
    ensures { IfOk result (λ cut. (value.now ≡ cut.0.now ++ cut.1.now) × HoldsWithin cut.2 schema.now (λ rows. IsPlainParent rows cut.1.now out.new.items)) }
{
    schema.keeps_builtin_types();
    out.clear();
    let mut scope = Scope::EachSchema;
    let mut rest = value;
    let mut room = MAX_RDNS;
    while room > 0 {
        room -= 1;
        let (before, piece) = cut_at_last_comma(rest);
        match before {
            Some(before) => {
                match put_plain_rdn(alloc, schema, piece, out) {
                    Ok(of_rdn) => scope = scope.and(of_rdn),
                    Err(fault) => return Err(fault),
                }
                rest = before;
            }
            None => {
                let (leaf, above) = value.split_at(rest.len());
                return Ok((leaf, above, scope));
            }
        }
    }
    Err(NameFault::NameLimit)
}

/// Appends the text of the key of an RDN, if it is plain, and answers under which schemas it is that key.
pub(crate) fn put_plain_rdn(
    alloc: Global,
    schema: &Schema,
    piece: &[u8],
    out: &mut Vec<u8>,
) -> Result<Scope, NameFault>
    ensures { IfOk result (λ scope. HoldsWithin scope schema.now (λ rows. IsPlainRdn rows piece.now out.old.items out.new.items)) }
{
    schema.keeps_builtin_types();
    let Some((attr_type, value)) = cut_at_equals(piece) else {
        return Err(NameFault::BadDn);
    };
    if piece.len() > MAX_RDN_TEXT
        || !is_type(attr_type)
        || is_reserved(attr_type)
        || !is_plain_value(value)
    {
        return Err(NameFault::BadDn);
    }
    put_plain_pair(alloc, schema, attr_type, value, out)
}

/// Appends the text of the key of an RDN that has this pair alone, and answers where the type means the same.
fn put_plain_pair(
    alloc: Global,
    schema: &Schema,
    attr_type: &[u8],
    value: &[u8],
    out: &mut Vec<u8>,
) -> Result<Scope, NameFault>
    ensures put { OnOk result (IsPairPut schema.now (attr_type.now, value.now) out.old.items out.new.items) }
    ensures scope { IfOk result (λ scope. IsScopeOf scope attr_type.now) }
{
    match schema.frequent_type(attr_type) {
        Some(frequent) if is_key_lowercase(frequent.rule, value) => match put_lowercase_pair(
            frequent.key(),
            value,
            out,
        ) {
            Ok(()) => Ok(frequent.scope),
            Err(fault) => Err(fault),
        },
        _ => match put_any_pair(alloc, schema, attr_type, value, out) {
            Ok(()) => Ok(schema.scope_of(attr_type)),
            Err(fault) => Err(fault),
        },
    }
}

fn put_any_pair(
    alloc: Global,
    schema: &Schema,
    attr_type: &[u8],
    value: &[u8],
    out: &mut Vec<u8>,
) -> Result<(), NameFault>
    ensures { OnOk result (IsPairPut schema.now (attr_type.now, value.now) out.old.items out.new.items) }
{
    match type_and_value_key(alloc, schema, attr_type, value) {
        Ok(key) => put_set(slice::from_ref(&key), out),
        Err(fault) => Err(fault),
    }
}

/// Whether the key of a value is its text in lower case, without a byte that is marked.
fn is_key_lowercase(rule: Rule, value: &[u8]) -> bool
    ensures { result ≡ true → IsKeyLowercase rule value.now }
{
    match rule {
        Rule::CaseIgnore | Rule::Ia5CaseIgnore => is_tidy_ascii(value),
        _ => false,
    }
}

fn is_tidy_ascii(value: &[u8]) -> bool
    ensures case { result ≡ true → IsKeyLowercase Rule.CaseIgnore value.now }
    ensures ia5 { result ≡ true → IsKeyLowercase Rule.Ia5CaseIgnore value.now }
{
    if value.is_empty() {
        return false;
    }
    if !are_unmarked(value) {
        return false;
    }
    has_no_extra_space(value)
}

fn are_unmarked(value: &[u8]) -> bool
    ensures { result ≡ list_all (λ b. nat_lt 1 b && nat_lt b 128) value.now }
{
    value.iter().all(|b| *b > 1 && *b < 128)
}

/// The text before the last comma, if there is one, and the text after it.
fn cut_at_last_comma(text: &[u8]) -> (Option<&[u8]>, &[u8])
    ensures { text.now ≡ with_piece (option_copied result.0) result.1.now }
{
    let mut at = text.len();
    while at > 0 {
        at -= 1;
        if text[at] == b',' {
            return (Some(&text[..at]), &text[at + 1..]);
        }
    }
    (None, text)
}

/// The text before the first comma, and the rest.
pub(crate) fn cut_at_first_comma(text: &[u8]) -> Option<(&[u8], &[u8])>
    ensures { IfSome result (λ cut. text.now ≡ cut.0.now ++ cut.1.now) }
{
    for (at, b) in text.iter().enumerate() {
        if *b == b',' {
            return Some((&text[..at], &text[at..]));
        }
    }
    None
}

/// The texts before and after the first equals sign.
fn cut_at_equals(text: &[u8]) -> Option<(&[u8], &[u8])>
    ensures { IfSome result (λ cut. text.now ≡ cut.0.now ++ equals_sign ∷ cut.1.now) }
{
    for (at, b) in text.iter().enumerate() {
        if *b == b'=' {
            return Some((&text[..at], &text[at + 1..]));
        }
    }
    None
}
