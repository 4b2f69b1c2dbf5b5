//! The increment of a modify (RFC 4525): a number is added to each value of an attribute.

ghost use Rattle.std.specs.Prelude.{◌≡◌, ◌&&◌, IfErr, IfOk, IfSome, Ok, OnOk, Some, cond, is_none, is_some, map, not, true};
ghost use Rattle.std.specs.Option.{option_map};
ghost use Rattle.std.specs.FinMap as fin;
ghost use Rattle.dir_ldif.specs.declared.records.ModOp.TheVariants as op;
ghost use Rattle.dir_names.specs.Table.{rule_of};
ghost use Rattle.dir_names.specs.declared.value.ValueKey.TheVariants.{Text};
ghost use Rattle.dir_change.specs.Increment.{keyed_integer, number_within, sum_text, sums};
ghost use Rattle.dir_change.specs.Modify.{has_integers, keyed_value, slot_after_op, slot_with_sums, values_with};
ghost use Rattle.dir_change.specs.Operation.{IsRefused};
ghost use Rattle.dir_change.specs.Refusals.{IsRefusedWith};
ghost use Rattle.dir_change.specs.declared.refusal.Refusal.TheVariants as refusal;
ghost use Rattle.dir_change.specs.declared.result_code.ResultCode.TheVariants as code;

use crate::exchange::add_if_missing;
use crate::modify::{if_any, value_key};
use crate::{Refusal, ResultCode};
use dir_ldif::Mod;
use dir_names::{AttrKey, Bytes, Rule, Schema, ValueKey};
use dir_tree::{Attribute, ValueMap};
use itoa::Buffer;
use std::alloc::{AllocError, Global};
use std::str;

/// Adds the value of a modification to each value of the attribute. 2 unless it gives one value; 21 where the values of the
/// type are no integers, or the one given is none; 16 where the attribute is missing; 19 where the one given, a value or a sum is
/// no number of 128 bits.
pub(crate) fn incremented(
    alloc: Global,
    schema: &Schema,
    m: &Mod,
    attribute: Option<Attribute>,
) -> Result<Option<Attribute>, Refusal>
    requires { IfSome attribute (λ a. a.key ≡ m.now.description.key) }
    ensures ok { IfOk result (λ modified. slot_after_op schema.now m.now op.Increment m.now.values (option_map (λ a. a.stored) attribute) ≡ Ok (option_map (λ a. a.stored) modified)) }
    ensures key { IfOk result (λ modified. IfSome modified (λ a. a.key ≡ m.now.description.key)) }
    ensures refused { IfErr result (λ e. IsRefused e (slot_after_op schema.now m.now op.Increment m.now.values (option_map (λ a. a.stored) attribute))) }
{
    let [amount] = m.values.as_slice() else {
        return Err(Refusal::Code(ResultCode::ProtocolError));
    };
    check_amount(alloc, schema, m.description.key(), amount)?;
    let Some(attribute) = attribute else {
        return Err(Refusal::Code(ResultCode::NoSuchAttribute));
    };
    with_sums(alloc, amount, &attribute)
}

/// Checks that the amount is an integer, and of a type whose values are integers. 21 where it isn't.
fn check_amount(
    alloc: Global,
    schema: &Schema,
    attr: &AttrKey,
    amount: &Bytes,
) -> Result<(), Refusal>
    ensures ok { OnOk result ((has_integers (rule_of schema.now attr.now) && is_some (keyed_value schema.now attr.now amount.now)) ≡ true) }
    ensures refused { IfErr result (λ e. IsRefusedWith code.InvalidAttributeSyntax (not (has_integers (rule_of schema.now attr.now) && is_some (keyed_value schema.now attr.now amount.now))) e) }
{
    if !has_integers(schema.rule(attr)) {
        return Err(Refusal::Code(ResultCode::InvalidAttributeSyntax));
    }
    let _ = value_key(alloc, schema, attr, amount)?;
    Ok(())
}

fn has_integers(rule: Rule) -> bool
    ensures { result ≡ has_integers rule }
{
    matches!(rule, Rule::Integer)
}

/// The attribute with the sum of the amount and each value in its place. 19 where one of them is no number of 128 bits.
fn with_sums(
    alloc: Global,
    amount: &Bytes,
    attribute: &Attribute,
) -> Result<Option<Attribute>, Refusal>
    ensures ok { IfOk result (λ modified. slot_with_sums amount.now (Some attribute.now.stored) ≡ Ok (option_map (λ a. a.stored) modified)) }
    ensures key { IfOk result (λ modified. IfSome modified (λ a. a.key ≡ attribute.now.key)) }
    ensures refused { IfErr result (λ e. IsRefused e (slot_with_sums amount.now (Some attribute.now.stored))) }
{
    let Some(number) = number_of(amount.as_slice()) else {
        return Err(Refusal::Code(ResultCode::ConstraintViolation));
    };
    let texts = sums(alloc, number, attribute)?;
    let values = integers(alloc, texts.as_slice())?;
    let Ok(description) = attribute.description().try_clone(alloc) else {
        return Err(Refusal::Memory);
    };
    Ok(if_any(Attribute::of(description, values)))
}

/// The texts of the sums of the amount and each value. 19 where a value or a sum is no number of 128 bits.
fn sums(alloc: Global, amount: i128, attribute: &Attribute) -> Result<Vec<Bytes>, Refusal>
    ensures ok { IfOk result (λ texts. sums amount attribute.now.stored.values ≡ Some texts.items) }
    ensures refused { IfErr result (λ e. IsRefusedWith code.ConstraintViolation (is_none (sums amount attribute.now.stored.values)) e) }
{
    let mut texts = Vec::new(alloc);
    for (_, value) in attribute.values() {
        let Some(text) = sum_text(alloc, amount, value.as_slice())? else {
            return Err(Refusal::Code(ResultCode::ConstraintViolation));
        };
        texts.push(text)?;
    }
    Ok(texts)
}

/// The text of the sum of the amount and a value, if both are numbers of 128 bits.
fn sum_text(alloc: Global, amount: i128, value: &[u8]) -> Result<Option<Bytes>, AllocError>
    ensures { IfOk result (λ text. text ≡ sum_text amount value.now) }
{
    let Some(sum) = number_of(value).and_then(|number| amount.checked_add(number)) else {
        return Ok(None);
    };
    let mut buffer = Buffer::new();
    let text = Vec::from_slice(alloc, buffer.format(sum).as_bytes())?;
    Ok(Some(Bytes::new(text)))
}

/// The number that a text writes, if it is one of 128 bits.
fn number_of(text: &[u8]) -> Option<i128>
    ensures { result ≡ number_within text.now }
{
    match str::from_utf8(text) {
        Ok(text) => i128::from_str_radix(text, 10).ok(),
        Err(_) => None,
    }
}

/// The values of an attribute of integers: each is its own key.
fn integers(alloc: Global, texts: &[Bytes]) -> Result<ValueMap, Refusal>
    ensures ok { IfOk result (λ values. values ≡ values_with fin.empty (map keyed_integer texts.now)) }
    ensures memory { IfErr result (λ e. e ≡ refusal.Memory) }
{
    let mut values = ValueMap::empty(alloc);
    for text in texts {
        add_integer(alloc, &mut values, text.as_slice())?;
    }
    Ok(values)
}

/// Adds an integer, if it is not there yet.
fn add_integer(alloc: Global, values: &mut ValueMap, text: &[u8]) -> Result<(), Refusal>
    ensures ok { OnOk result (values.new ≡ cond (fin.contains_key values.old (Text text.now)) values.old (fin.insert values.old (Text text.now) text.now)) }
    ensures memory { IfErr result (λ e. e ≡ refusal.Memory) }
{
    let key = ValueKey::Text(Bytes::new(text.to_vec(alloc)?));
    add_if_missing(alloc, values, &key, text)
}
