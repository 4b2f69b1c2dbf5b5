//! Whether a change is legal, as each change is that was read.

ghost use Rattle.dir_names.specs.Results.{and_then};
ghost use Rattle.dir_ldif.specs.LegalRecords.{Checks, check_of, check_of_description, check_of_kind, check_of_line, check_of_mod, check_of_name, check_of_rdn, check_of_superior, check_of_value, first_fault};

use crate::faults::RecordFault;
use crate::reader::MAX_VALUE;
use crate::records::{Change, ChangeKind, Mod};
use dir_names::{Bytes, Description, Dn, NameFault, Rdn, Schema};
use std::alloc::Global;

impl Change {
    /// Whether the change is legal under the schema: its names have keys, its descriptions were read under
    /// the schema, and no value is too long. If it is not, the answer is the first fault in the order of the
    /// record's lines.
    ///
    /// # Errors
    ///
    /// `ValueTooLong`; or `Name`: with the fault of a name that has no key, with `BadDescription` for a
    /// description that has another key under the schema, and with `Memory` when memory runs out.
    pub fn check(&self, alloc: Global, schema: &Schema) -> Result<(), RecordFault>
        ensures { Checks result (check_of schema.now self.now) }
    {
        check_dn(alloc, schema, &self.dn)?;
        check_kind(alloc, schema, &self.kind)
    }
}

fn check_kind(alloc: Global, schema: &Schema, kind: &ChangeKind) -> Result<(), RecordFault>
    ensures { Checks result (check_of_kind schema.now kind.now) }
{
    match kind {
        ChangeKind::Add(lines) => check_lines(alloc, schema, lines.as_slice()),
        ChangeKind::Delete => Ok(()),
        ChangeKind::Modify(mods) => check_mods(alloc, schema, mods.as_slice()),
        ChangeKind::Rename {
            newrdn,
            delete_old: _,
            newsuperior,
        } => check_rename(alloc, schema, newrdn, newsuperior),
    }
}

fn check_dn(alloc: Global, schema: &Schema, dn: &Dn) -> Result<(), RecordFault>
    ensures { Checks result (check_of_name schema.now dn.now) }
{
    match dn.key(alloc, schema) {
        Ok(_) => Ok(()),
        Err(fault) => Err(RecordFault::Name(fault)),
    }
}

fn check_rdn(alloc: Global, schema: &Schema, rdn: &Rdn) -> Result<(), RecordFault>
    ensures { Checks result (check_of_rdn schema.now rdn.now) }
{
    match rdn.key(alloc, schema) {
        Ok(_) => Ok(()),
        Err(fault) => Err(RecordFault::Name(fault)),
    }
}

fn check_rename(
    alloc: Global,
    schema: &Schema,
    newrdn: &Rdn,
    newsuperior: &Option<Dn>,
) -> Result<(), RecordFault>
    ensures { Checks result (and_then (check_of_rdn schema.now newrdn.now) (λ _. check_of_superior schema.now newsuperior.now)) }
{
    check_rdn(alloc, schema, newrdn)?;
    match newsuperior {
        Some(dn) => check_dn(alloc, schema, dn),
        None => Ok(()),
    }
}

/// Whether the schema gives the description's spelling the same key.
fn check_description(
    alloc: Global,
    schema: &Schema,
    description: &Description,
) -> Result<(), RecordFault>
    ensures { Checks result (check_of_description schema.now description.now) }
{
    match Description::read(alloc, schema, description.spelling()) {
        Ok(read) => {
            if read.key() == description.key() {
                Ok(())
            } else {
                Err(RecordFault::Name(NameFault::BadDescription))
            }
        }
        Err(fault) => Err(RecordFault::Name(fault)),
    }
}

fn check_value(value: &Bytes) -> Result<(), RecordFault>
    ensures { Checks result (check_of_value value.now) }
{
    if value.as_slice().len() > MAX_VALUE {
        return Err(RecordFault::ValueTooLong);
    }
    Ok(())
}

fn check_lines(
    alloc: Global,
    schema: &Schema,
    lines: &[(Description, Bytes)],
) -> Result<(), RecordFault>
    ensures { Checks result (first_fault (check_of_line schema.now) lines.now) }
{
    for line in lines {
        check_line(alloc, schema, line)?;
    }
    Ok(())
}

fn check_line(
    alloc: Global,
    schema: &Schema,
    line: &(Description, Bytes),
) -> Result<(), RecordFault>
    ensures { Checks result (check_of_line schema.now line.now) }
{
    check_value(&line.1)?;
    check_description(alloc, schema, &line.0)
}

fn check_mods(alloc: Global, schema: &Schema, mods: &[Mod]) -> Result<(), RecordFault>
    ensures { Checks result (first_fault (check_of_mod schema.now) mods.now) }
{
    for m in mods {
        check_mod(alloc, schema, m)?;
    }
    Ok(())
}

/// Whether the modification is legal, each of its values under its one description.
fn check_mod(alloc: Global, schema: &Schema, m: &Mod) -> Result<(), RecordFault>
    ensures { Checks result (check_of_mod schema.now m.now) }
{
    check_description(alloc, schema, &m.description)?;
    check_values(m.values.as_slice())
}

fn check_values(values: &[Bytes]) -> Result<(), RecordFault>
    ensures { Checks result (first_fault check_of_value values.now) }
{
    for value in values {
        check_value(value)?;
    }
    Ok(())
}
