//! The record that a block of lines is (RFC 2849, `ldif-attrval-record` and `ldif-change-record`).

ghost use Rattle.std.specs.Prelude.{◌≡◌, ◌++◌, ◌∷◌, ◌<◌, [], Ok, Err, IfOk, codes, cond, length};
ghost use Rattle.base64.specs.GeneralPurpose.{IsBytes};
ghost use Rattle.dir_ldif.specs.declared.faults.RecordFault.TheVariants.{BadModify};
ghost use Rattle.dir_ldif.specs.RecordGrammar.{body_of, change_of, content_of, deletion_of, dn_line, flag_of, head_of, is_dash, is_keyword, legal_dn, legal_rdn, mod_head, mod_of, mod_value, mods_of, only_superior, op_of, record_of, rename_after_rdn, rename_line, rename_of, superior_of, try_map, value_line, value_lines};
ghost use Rattle.dir_ldif.specs.SoundRecords.{AreBytes, IsSoundKind, IsSoundName, IsSoundRdn, IsSoundRecord, IsSoundSuperior, ModsAreBytes, ValuesAreBytes};
ghost use Rattle.dir_ldif.specs.LogicalLines.{cut};
ghost use Rattle.dir_names.specs.Results.{Meets, and_then};
ghost use Rattle.dir_ldif.specs.Inside.Refusals.{Refuses};
ghost use Rattle.dir_ldif.specs.Inside.Values.{bytes_of};

use crate::faults::{RecordFault, Refusal};
use crate::reader::attrval::{Value, attrval_of};
use crate::reader::unfolder::Line;
use crate::records::{Change, ChangeKind, Mod, ModOp, Mods, Record};
use dir_names::{Bytes, Description, Dn, Lines, NameFault, NameReader, Rdn, Schema, Texts};
use std::alloc::Global;

/// The record that a block of lines is (RFC 2849, `ldif-attrval-record` and `ldif-change-record`).
#[tactic(auto, unfolding(crate::specs::RecordGrammar::record_of))]
pub(crate) fn record_of(
    alloc: Global,
    schema: &Schema,
    names: &mut NameReader,
    block: &[Line],
) -> Result<Record, Refusal>
    ensures read { Meets Refuses (λ r. r) result (record_of schema.now block.now) }
    ensures sound { IfOk result (λ r. IsSoundRecord r) }
{
    match block.split_first() {
        Some((first, rest)) => {
            let dn = dn_line(alloc, schema, names, first)?;
            body_of(alloc, schema, dn, rest)
        }
        None => Err(Refusal::Fault(RecordFault::BadLine)),
    }
}

/// The record of a name and the lines after it.
fn body_of(alloc: Global, schema: &Schema, dn: Dn, lines: &[Line]) -> Result<Record, Refusal>
    ensures read { Meets Refuses (λ r. r) result (body_of schema.now dn lines.now) }
    ensures sound { IsSoundName dn → IfOk result (λ r. IsSoundRecord r) }
{
    let Some((second, further)) = lines.split_first() else {
        return content_of(alloc, schema, dn, lines);
    };
    let (name, value) = attrval_of(alloc, second.text())?;
    if is_keyword(name, b"control") {
        return Err(Refusal::Fault(RecordFault::Control));
    }
    if is_keyword(name, b"changetype") {
        return change_record(alloc, schema, dn, value.as_slice(), further);
    }
    content_of(alloc, schema, dn, lines)
}

/// Whether a text is this keyword, in any ASCII case.
fn is_keyword(text: &[u8], word: &[u8]) -> bool
    ensures { result ≡ is_keyword text.now word.now }
{
    text.eq_ignore_ascii_case(word)
}

fn content_of(alloc: Global, schema: &Schema, dn: Dn, lines: &[Line]) -> Result<Record, Refusal>
    ensures read { Meets Refuses (λ r. r) result (content_of schema.now dn lines.now) }
    ensures sound { IsSoundName dn → IfOk result (λ r. IsSoundRecord r) }
{
    let lines = value_lines(alloc, schema, lines)?;
    Ok(Record::Content { dn, lines })
}

fn change_record(
    alloc: Global,
    schema: &Schema,
    dn: Dn,
    word: &[u8],
    lines: &[Line],
) -> Result<Record, Refusal>
    ensures read { Meets Refuses (λ r. r) result
        (and_then (change_of schema.now word.now lines.now) (λ kind. Ok (Record.Change (record { dn = dn; kind = kind })))) }
    ensures sound { IsSoundName dn → IfOk result (λ r. IsSoundRecord r) }
{
    let kind = change_of(alloc, schema, word, lines)?;
    Ok(Record::Change(Change { dn, kind }))
}

/// The name of the line that begins a record.
fn dn_line(
    alloc: Global,
    schema: &Schema,
    names: &mut NameReader,
    line: &Line,
) -> Result<Dn, Refusal>
    ensures read { Meets Refuses (λ name. name) result (dn_line schema.now line.now) }
    ensures sound { IfOk result (λ name. IsSoundName name) }
{
    let (name, value) = attrval_of(alloc, line.text())?;
    if !is_keyword(name, b"dn") {
        return Err(Refusal::Fault(RecordFault::BadLine));
    }
    next_dn(alloc, schema, names, value.as_slice())
}

/// The name that a text spells, if it has a key, for a text that is one of many.
fn next_dn(
    alloc: Global,
    schema: &Schema,
    names: &mut NameReader,
    text: &[u8],
) -> Result<Dn, Refusal>
    ensures read { Meets Refuses (λ name. name) result (legal_dn schema.now text.now) }
    ensures sound { IfOk result (λ name. IsSoundName name) }
{
    let dn = names.read(alloc, schema, text)?;
    let _rdns = dn.rdns();
    Ok(dn)
}

/// The name that a text spells, if it has a key.
fn legal_dn(alloc: Global, schema: &Schema, text: &[u8]) -> Result<Dn, Refusal>
    ensures read { Meets Refuses (λ name. name) result (legal_dn schema.now text.now) }
    ensures sound { IfOk result (λ name. IsSoundName name) }
{
    let dn = Dn::read(alloc, text)?;
    if !dn.has_key(alloc, schema)? {
        return Err(Refusal::from(NameFault::BadDn));
    }
    Ok(dn)
}

/// The RDN that a text spells, if it has a key.
fn legal_rdn(alloc: Global, schema: &Schema, text: &[u8]) -> Result<Rdn, Refusal>
    ensures read { Meets Refuses (λ rdn. rdn) result (legal_rdn schema.now text.now) }
    ensures sound { IfOk result (λ rdn. IsSoundRdn rdn) }
{
    let rdn = Rdn::read(alloc, text)?;
    if !rdn.has_key(alloc, schema)? {
        return Err(Refusal::from(NameFault::BadDn));
    }
    Ok(rdn)
}

/// The descriptions and values of lines.
fn value_lines(alloc: Global, schema: &Schema, lines: &[Line]) -> Result<Lines, Refusal>
    ensures read { Meets Refuses (λ ls. ls) result (value_lines schema.now lines.now) }
    ensures sound { IfOk result (λ ls. ValuesAreBytes ls) }
{
    let mut items = Vec::with_capacity(alloc, lines.len())?;
    for line in lines {
        items.push(value_line(alloc, schema, line)?)?;
    }
    Ok(Lines::new(items))
}

#[inline(always)]
fn value_line(alloc: Global, schema: &Schema, line: &Line) -> Result<(Description, Bytes), Refusal>
    ensures read { Meets Refuses (λ p. p) result (value_line schema.now line.now) }
    ensures sound { IfOk result (λ p. IsBytes p.1) }
{
    let (name, value) = attrval_of(alloc, line.text())?;
    let description = Description::read(alloc, schema, name)?;
    Ok((description, value.into_bytes(alloc)?))
}

/// The change of a changetype and the lines after it.
fn change_of(
    alloc: Global,
    schema: &Schema,
    word: &[u8],
    lines: &[Line],
) -> Result<ChangeKind, Refusal>
    ensures read { Meets Refuses (λ kind. kind) result (change_of schema.now word.now lines.now) }
    ensures sound { IfOk result (λ kind. IsSoundKind kind) }
{
    if is_keyword(word, b"add") {
        return Ok(ChangeKind::Add(value_lines(alloc, schema, lines)?));
    }
    if is_keyword(word, b"delete") {
        return deletion_of(alloc, lines);
    }
    if is_keyword(word, b"modify") {
        return Ok(ChangeKind::Modify(mods_of(alloc, schema, lines)?));
    }
    if is_keyword(word, b"modrdn") || is_keyword(word, b"moddn") {
        return rename_of(alloc, schema, lines);
    }
    Err(Refusal::Fault(RecordFault::BadChangetype))
}

/// A deletion has no further line; a line that is there has its own fault first.
fn deletion_of(alloc: Global, lines: &[Line]) -> Result<ChangeKind, Refusal>
    ensures read { Meets Refuses (λ kind. kind) result (deletion_of lines.now) }
    ensures sound { IfOk result (λ kind. IsSoundKind kind) }
{
    match lines.split_first() {
        None => Ok(ChangeKind::Delete),
        Some((line, _)) => {
            let _ = attrval_of(alloc, line.text())?;
            Err(Refusal::Fault(RecordFault::BadLine))
        }
    }
}

fn mods_of(alloc: Global, schema: &Schema, lines: &[Line]) -> Result<Mods, Refusal>
    ensures read { Meets Refuses (λ mods. mods) result (mods_of schema.now lines.now) }
    ensures sound { IfOk result (λ mods. ModsAreBytes mods) }
{
    let mut mods = Vec::new(alloc);
    let mut rest = lines;
    while !rest.is_empty() {
        let (group, after) = cut_dash(rest);
        mods.push(mod_of(alloc, schema, group)?)?;
        rest = after;
    }
    Ok(Mods::new(mods))
}

/// The lines before the first `-`, and those after it.
fn cut_dash(lines: &[Line]) -> (&[Line], &[Line])
    requires { 0 < length lines.now }
    ensures cut { cut is_dash lines.now ≡ result.0.now ∷ cut is_dash result.1.now }
    ensures shorter { length result.1.now < length lines.now }
{
    for (i, line) in lines.iter().enumerate() {
        if is_dash(line) {
            return (&lines[..i], &lines[i + 1..]);
        }
    }
    (lines, &lines[lines.len()..])
}

fn is_dash(line: &Line) -> bool
    ensures { result ≡ is_dash line.now }
{
    line.text() == b"-".as_slice()
}

/// One modification: its head and its values, all of one attribute.
fn mod_of(alloc: Global, schema: &Schema, lines: &[Line]) -> Result<Mod, Refusal>
    ensures read { Meets Refuses (λ m. m) result (mod_of schema.now lines.now) }
    ensures sound { IfOk result (λ m. AreBytes m.values) }
{
    let Some((head, rest)) = lines.split_first() else {
        return Err(Refusal::Fault(RecordFault::BadLine));
    };
    let (op, description) = mod_head(alloc, schema, head)?;
    let values = mod_values(alloc, schema, &description, rest)?;
    Ok(Mod {
        op,
        description,
        values,
    })
}

fn mod_head(alloc: Global, schema: &Schema, line: &Line) -> Result<(ModOp, Description), Refusal>
    ensures { Meets Refuses (λ p. p) result (mod_head schema.now line.now) }
{
    let (name, value) = attrval_of(alloc, line.text())?;
    let Some(op) = op_of(name) else {
        return Err(Refusal::Fault(RecordFault::BadModify));
    };
    let description = Description::read(alloc, schema, value.as_slice())?;
    Ok((op, description))
}

fn op_of(name: &[u8]) -> Option<ModOp>
    ensures { result ≡ op_of name.now }
{
    if is_keyword(name, b"add") {
        Some(ModOp::Add)
    } else if is_keyword(name, b"delete") {
        Some(ModOp::Delete)
    } else if is_keyword(name, b"replace") {
        Some(ModOp::Replace)
    } else if is_keyword(name, b"increment") {
        Some(ModOp::Increment)
    } else {
        None
    }
}

fn mod_values(
    alloc: Global,
    schema: &Schema,
    of: &Description,
    lines: &[Line],
) -> Result<Texts, Refusal>
    ensures read { Meets Refuses (λ values. values) result (try_map (mod_value schema.now of.now) lines.now) }
    ensures sound { IfOk result (λ values. AreBytes values) }
{
    let mut values = Vec::new(alloc);
    for line in lines {
        values.push(mod_value(alloc, schema, of, line)?)?;
    }
    Ok(Texts::new(values))
}

/// The value of a line whose attribute must be the one that the head names.
fn mod_value(
    alloc: Global,
    schema: &Schema,
    of: &Description,
    line: &Line,
) -> Result<Bytes, Refusal>
    ensures read { Meets Refuses (λ value. value) result (mod_value schema.now of.now line.now) }
    ensures sound { IfOk result (λ value. IsBytes value) }
{
    let (description, value) = value_line(alloc, schema, line)?;
    if description.key() == of.key() {
        Ok(value)
    } else {
        Err(Refusal::Fault(RecordFault::BadModify))
    }
}

fn rename_of(alloc: Global, schema: &Schema, lines: &[Line]) -> Result<ChangeKind, Refusal>
    ensures read { Meets Refuses (λ kind. kind) result (rename_of schema.now lines.now) }
    ensures sound { IfOk result (λ kind. IsSoundKind kind) }
{
    let Some((first, rest)) = lines.split_first() else {
        return Err(Refusal::Fault(RecordFault::BadRename));
    };
    let value = rename_line(alloc, b"newrdn", first)?;
    let newrdn = legal_rdn(alloc, schema, value.as_slice())?;
    rename_after_rdn(alloc, schema, newrdn, rest)
}

fn rename_after_rdn(
    alloc: Global,
    schema: &Schema,
    newrdn: Rdn,
    lines: &[Line],
) -> Result<ChangeKind, Refusal>
    ensures read { Meets Refuses (λ kind. kind) result (rename_after_rdn schema.now newrdn lines.now) }
    ensures sound { IsSoundRdn newrdn → IfOk result (λ kind. IsSoundKind kind) }
{
    let Some((line, rest)) = lines.split_first() else {
        return Err(Refusal::Fault(RecordFault::BadRename));
    };
    let value = rename_line(alloc, b"deleteoldrdn", line)?;
    let delete_old = flag_of(value.as_slice())?;
    let newsuperior = superior_of(alloc, schema, rest)?;
    Ok(ChangeKind::Rename {
        newrdn,
        delete_old,
        newsuperior,
    })
}

/// The value of a line of a rename that must have this keyword.
fn rename_line<'a>(alloc: Global, word: &[u8], line: &'a Line) -> Result<Value<'a>, Refusal>
    ensures { Meets Refuses bytes_of result (rename_line word.now line.now) }
{
    let (name, value) = attrval_of(alloc, line.text())?;
    if !is_keyword(name, word) {
        return Err(Refusal::Fault(RecordFault::BadRename));
    }
    Ok(value)
}

fn flag_of(value: &[u8]) -> Result<bool, Refusal>
    ensures { Meets Refuses (λ flag. flag) result (flag_of value.now) }
{
    if value == b"0".as_slice() {
        Ok(false)
    } else if value == b"1".as_slice() {
        Ok(true)
    } else {
        Err(Refusal::Fault(RecordFault::BadRename))
    }
}

/// The new superior, with which a rename may end.
fn superior_of(alloc: Global, schema: &Schema, lines: &[Line]) -> Result<Option<Dn>, Refusal>
    ensures read { Meets Refuses (λ superior. superior) result (superior_of schema.now lines.now) }
    ensures sound { IfOk result (λ superior. IsSoundSuperior superior) }
{
    let Some((line, further)) = lines.split_first() else {
        return Ok(None);
    };
    let value = rename_line(alloc, b"newsuperior", line)?;
    let dn = legal_dn(alloc, schema, value.as_slice())?;
    only_superior(alloc, dn, further)
}

/// A rename has no line after its new superior; a line that is there has its own fault first.
fn only_superior(alloc: Global, dn: Dn, lines: &[Line]) -> Result<Option<Dn>, Refusal>
    ensures read { Meets Refuses (λ superior. superior) result (only_superior dn lines.now) }
    ensures sound { IsSoundName dn → IfOk result (λ superior. IsSoundSuperior superior) }
{
    match lines.split_first() {
        None => Ok(Some(dn)),
        Some((line, _)) => {
            let _ = attrval_of(alloc, line.text())?;
            Err(Refusal::Fault(RecordFault::BadRename))
        }
    }
}
