//! The records of cn=config, as lines of LDIF (RFC 2849).

ghost use Rattle.std.specs.Prelude.{◌≡◌, ◌++◌, ◌∷◌, [], IfErr, Ok, OnOk, map};
ghost use Rattle.dir_conf.specs.CnConfig.Records.{attribute_of, if_named, named, numbered_value, record_of, values_of};
ghost use Rattle.dir_conf.specs.CnConfig.Values.{numbered};
ghost use Rattle.dir_conf.specs.Outcome.{GivesConf};
ghost use Rattle.dir_conf.specs.declared.fault.ConfFault.TheVariants as fault;

use crate::cn_config::values::{Value, without_places};
use crate::fault::ConfFault;
use dir_ldif::{Line, line_parts};
use dir_names::Bytes;
use std::alloc::Global;

/// An attribute of a record with one of its values, and the number of its line.
#[derive(Drop)]
pub(crate) struct Attribute {
    pub(crate) line: u64,
    pub(crate) name: Bytes,
    pub(crate) value: Bytes,
}

/// The attributes of a record's lines.
pub(crate) fn read_record(alloc: Global, lines: &[Line]) -> Result<Vec<Attribute>, ConfFault>
    ensures { GivesConf (λ found. found.items) result (record_of lines.now) }
{
    let mut found = Vec::new(alloc);
    for line in lines {
        found.push(attribute_of(alloc, line)?)?;
    }
    Ok(found)
}

fn attribute_of(alloc: Global, line: &Line) -> Result<Attribute, ConfFault>
    ensures { GivesConf (λ attribute. attribute ∷ []) result (attribute_of line.now) }
{
    match line_parts(alloc, line.text())? {
        Ok((name, value)) => Ok(Attribute {
            line: line.number(),
            name: Bytes::new(name.to_vec(alloc)?),
            value: Bytes::new(value),
        }),
        Err(fault) => Err(ConfFault::BadLine(line.number(), fault)),
    }
}

/// The values of the attribute of this name, without their places.
pub(crate) fn values_of(
    alloc: Global,
    name: &[u8],
    attributes: &[Attribute],
) -> Result<Vec<Value>, ConfFault>
    ensures { GivesConf (λ found. map numbered found.items) result (values_of name.now attributes.now) }
{
    without_places(alloc, named(alloc, name, attributes)?)
}

pub(crate) fn named(
    alloc: Global,
    name: &[u8],
    attributes: &[Attribute],
) -> Result<Vec<Value>, ConfFault>
    ensures { GivesConf (λ found. map numbered found.items) result (Ok (named name.now attributes.now)) }
{
    let mut found = Vec::new(alloc);
    for attribute in attributes {
        push_if_named(alloc, &mut found, name, attribute)?;
    }
    Ok(found)
}

fn push_if_named(
    alloc: Global,
    found: &mut Vec<Value>,
    name: &[u8],
    attribute: &Attribute,
) -> Result<(), ConfFault>
    ensures found { OnOk result (map numbered found.new.items ≡ map numbered found.old.items ++ if_named name.now attribute.now) }
    ensures memory { IfErr result (λ e. e ≡ fault.Memory) }
{
    if attribute.name.as_slice().eq_ignore_ascii_case(name) {
        found.push(value_in(alloc, attribute)?)?;
    }
    Ok(())
}

fn value_in(alloc: Global, attribute: &Attribute) -> Result<Value, ConfFault>
    ensures { GivesConf numbered result (Ok (numbered_value attribute.now)) }
{
    let text = Bytes::new(attribute.value.as_slice().to_vec(alloc)?);
    let line = attribute.line;
    Ok(Value { line, text })
}
