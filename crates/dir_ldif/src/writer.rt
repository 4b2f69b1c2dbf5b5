//! The writer: the text of a record, line by line, folded.

ghost use Rattle.std.specs.Prelude.{◌≡◌, ◌+◌, ◌++◌, ◌∷◌, ◌≤◌, ℕ, List, [], IfOk, OnOk, codes, length, true};
ghost use Rattle.std.specs.Io.{StartsWith};
ghost use Rattle.std.specs.List.{flat_map, list_all};
ghost use Rattle.dir_names.specs.Names.Printing.{printed_rdn};
ghost use Rattle.dir_ldif.specs.Bytes.{ends_in};
ghost use Rattle.dir_ldif.specs.RecordText.{change_text, change_word, flag_text, kind_text, mod_text, name_line, op_word, record_text_of, superior_text, value_text};
ghost use Rattle.dir_ldif.specs.MarkText.{mark_line};
ghost use Rattle.dir_ldif.specs.RoundTrip.{ReadsBackAs};
ghost use Rattle.dir_ldif.specs.SoundRecords.{AreBytes, IsBytes, IsSoundKind, IsSoundName, IsSoundRdn, IsSoundRecord, IsSoundSuperior, ModsAreBytes, ValuesAreBytes};
ghost use Rattle.dir_ldif.specs.LineText.{base64_of, fold_from, is_plain, is_safe, is_safe_first, value_spec, written_line};
ghost use Rattle.dir_names.specs.Ascii.{line_feed, space};

use crate::records::{Change, ChangeKind, Mod, ModOp, Record};
use crate::scan::all_usual;
use base64::engine::general_purpose::STANDARD;
use dir_names::{Bytes, Description, Dn, Lines, Memory, Rdn};
use itoa::Buffer;
use std::alloc::Global;

/// The greatest length of a written line without its LF, in bytes.
const COLUMNS: usize = 76;

/// The text of a record: its `dn` line, its further lines and an empty line (RFC 2849).
pub fn record_text(alloc: Global, record: &Record) -> Result<Vec<u8>, Memory>
    ensures text { IfOk result (λ text. text.items ≡ record_text_of «record».now) }
    ensures back { IfOk result (λ text. ReadsBackAs text.items «record».now) }
{
    let mut out = Vec::new(alloc);
    push_record(&mut out, record)?;
    Ok(out)
}

/// Appends the text of a record.
pub fn push_record(out: &mut Vec<u8>, record: &Record) -> Result<(), Memory>
    ensures text { OnOk result (out.new.items ≡ out.old.items ++ record_text_of «record».now) }
    ensures back { OnOk result (ReadsBackAs (record_text_of «record».now) «record».now) }
    ensures kept { StartsWith out.new.items out.old.items }
{
    match record {
        Record::Content { dn, lines } => push_content(out, dn, lines),
        Record::Change(change) => push_change(out, change),
    }
}

fn push_content(out: &mut Vec<u8>, dn: &Dn, lines: &Lines) -> Result<(), Memory>
    ensures text { OnOk result (out.new.items ≡ out.old.items ++ record_text_of (Record.Content dn.now lines.now)) }
    ensures sound { OnOk result (IsSoundRecord (Record.Content dn.now lines.now)) }
    ensures kept { StartsWith out.new.items out.old.items }
{
    push_name(out, b"dn", dn)?;
    push_values(out, lines.as_slice())?;
    push_end(out)
}

/// Appends the mark of a group: the comment line `# undo N`.
pub fn push_mark(out: &mut Vec<u8>, number: u64) -> Result<(), Memory>
    ensures { OnOk result (out.new.items ≡ out.old.items ++ mark_line number) }
{
    out.extend_from_slice(b"# undo ")?;
    out.extend_from_slice(Buffer::new().format(number).as_bytes())?;
    Ok(out.push(b'\n')?)
}

/// Appends the text of a change record.
pub fn push_change(out: &mut Vec<u8>, change: &Change) -> Result<(), Memory>
    ensures text { OnOk result (out.new.items ≡ out.old.items ++ change_text change.now) }
    ensures back { OnOk result (ReadsBackAs (change_text change.now) (Record.Change change.now)) }
    ensures kept { StartsWith out.new.items out.old.items }
{
    push_name(out, b"dn", &change.dn)?;
    push_line(out, b"changetype", change_word(&change.kind))?;
    push_kind(out, &change.kind)?;
    push_end(out)
}

/// Appends one line of a name and a value: plain where the value can be written so, else in base64; folded at
/// 76 bytes; with its LF (RFC 2849, notes 2, 4 and 8).
#[inline(always)]
pub fn push_line(out: &mut Vec<u8>, name: &[u8], value: &[u8]) -> Result<(), Memory>
    ensures text { OnOk result (out.new.items ≡ out.old.items ++ written_line name.now value.now) }
    ensures bytes { OnOk result (IsBytes value.now) }
    ensures kept { StartsWith out.new.items out.old.items }
{
    if name.len() + value.len() <= COLUMNS - 2 && is_plain(value) {
        return push_short_line(out, name, value);
    }
    push_any_line(out, name, value)
}

/// The same of any line: one that is folded, or whose value is empty or not plain.
#[inline(never)]
fn push_any_line(out: &mut Vec<u8>, name: &[u8], value: &[u8]) -> Result<(), Memory>
    ensures text { OnOk result (out.new.items ≡ out.old.items ++ written_line name.now value.now) }
    ensures bytes { OnOk result (IsBytes value.now) }
    ensures kept { StartsWith out.new.items out.old.items }
{
    let room = push_folded(out, COLUMNS, name)?;
    let _ = push_value(out, room, value)?;
    push_end(out)
}

/// Appends a line that is not folded, with a plain value.
#[inline(always)]
fn push_short_line(out: &mut Vec<u8>, name: &[u8], value: &[u8]) -> Result<(), Memory>
    requires plain { is_plain value.now ≡ true }
    requires fits { length name.now + length value.now ≤ 74 }
    ensures text { OnOk result (out.new.items ≡ out.old.items ++ written_line name.now value.now) }
    ensures kept { StartsWith out.new.items out.old.items }
{
    out.reserve(name.len() + value.len() + 3)?;
    out.extend_from_slice(name)?;
    out.extend_from_slice(b": ")?;
    out.extend_from_slice(value)?;
    push_end(out)
}

/// Appends what follows a line's name. Answers the room that is left in its physical line.
fn push_value(out: &mut Vec<u8>, room: usize, value: &[u8]) -> Result<usize, Memory>
    requires { room ≤ 76 }
    ensures text { IfOk result (λ left. (rest : List ℕ)
        → out.new.items ++ fold_from left rest ≡ out.old.items ++ fold_from room (value_spec value.now ++ rest)) }
    ensures kept { StartsWith out.new.items out.old.items }
{
    if value.is_empty() {
        push_folded(out, room, b":")
    } else if is_plain(value) {
        let room = push_folded(out, room, b": ")?;
        push_folded(out, room, value)
    } else {
        let text = encoded(*out.allocator(), value)?;
        let room = push_folded(out, room, b":: ")?;
        push_folded(out, room, text.as_slice())
    }
}

/// The base64 text of a value.
fn encoded(alloc: Global, value: &[u8]) -> Result<Vec<u8>, Memory>
    ensures { IfOk result (λ v. v.items ≡ base64_of value.now) }
{
    Ok(STANDARD.encode(alloc, value)?.into_bytes())
}

/// Appends the LF that ends a line, or the empty line that ends a record.
pub fn push_end(out: &mut Vec<u8>) -> Result<(), Memory>
    ensures text { OnOk result (out.new.items ≡ out.old.items ++ line_feed ∷ []) }
    ensures kept { StartsWith out.new.items out.old.items }
{
    out.push(b'\n')?;
    Ok(())
}

/// Appends bytes to a line whose physical line has room for so many more, and begins a continuation wherever
/// no room is left. Answers the room that is left.
fn push_folded(out: &mut Vec<u8>, room: usize, text: &[u8]) -> Result<usize, Memory>
    requires { room ≤ 76 }
    ensures room { IfOk result (λ left. left ≤ 76) }
    ensures text { IfOk result (λ left. (rest : List ℕ)
        → out.new.items ++ fold_from left rest ≡ out.old.items ++ fold_from room (text.now ++ rest)) }
    ensures kept { StartsWith out.new.items out.old.items }
{
    let mut room = room;
    let mut rest = text;
    while rest.len() > room {
        let (head, after) = rest.split_at(room);
        out.extend_from_slice(head)?;
        out.extend_from_slice(b"\n ")?;
        rest = after;
        room = COLUMNS - 1;
    }
    out.extend_from_slice(rest)?;
    Ok(room - rest.len())
}

/// Whether a value is written in a line as it is.
#[inline(always)]
fn is_plain(value: &[u8]) -> bool
    ensures { result ≡ is_plain value.now }
{
    match value {
        [first, rest @ ..] => is_safe_first(*first) && all_safe(rest) && !ends_in_space(value),
        [] => false,
    }
}

/// Whether all bytes are safe.
fn all_safe(text: &[u8]) -> bool
    ensures { result ≡ list_all is_safe text.now }
{
    all_usual(text) || each_safe(text)
}

/// The same: it tests each byte, without an early end, so that it becomes vector code.
#[inline(never)]
fn each_safe(text: &[u8]) -> bool
    ensures { result ≡ list_all is_safe text.now }
{
    let mut safe = true;
    for b in text {
        safe &= is_safe(*b);
    }
    safe
}

/// `SAFE-CHAR`: ASCII without NUL, LF and CR.
fn is_safe(b: u8) -> bool
    ensures { result ≡ is_safe b }
{
    b < 128 && (b > b'\r' || (b != 0 && b != b'\n' && b != b'\r'))
}

/// `SAFE-INIT-CHAR`: no space, colon or less-than sign either.
fn is_safe_first(b: u8) -> bool
    ensures { result ≡ is_safe_first b }
{
    is_safe(b) && b != b' ' && b != b':' && b != b'<'
}

fn ends_in_space(text: &[u8]) -> bool
    ensures { result ≡ ends_in space text.now }
{
    match text.split_last() {
        Some((last, _)) => *last == b' ',
        None => false,
    }
}

/// Appends the line of a keyword whose value is a name, as the `dn` line of a record.
pub fn push_name(out: &mut Vec<u8>, word: &[u8], dn: &Dn) -> Result<(), Memory>
    ensures text { OnOk result (out.new.items ≡ out.old.items ++ name_line word.now dn.now) }
    ensures sound { OnOk result (IsSoundName dn.now) }
    ensures kept { StartsWith out.new.items out.old.items }
{
    match dn.print(*out.allocator()) {
        Ok(text) => push_line(out, word, text.as_slice()),
        Err(_) => Err(Memory),
    }
}

fn push_rdn(out: &mut Vec<u8>, rdn: &Rdn) -> Result<(), Memory>
    ensures text { OnOk result (out.new.items ≡ out.old.items ++ written_line (codes "newrdn") (printed_rdn rdn.now)) }
    ensures sound { OnOk result (IsSoundRdn rdn.now) }
    ensures kept { StartsWith out.new.items out.old.items }
{
    match rdn.print(*out.allocator()) {
        Ok(text) => push_line(out, b"newrdn", text.as_slice()),
        Err(_) => Err(Memory),
    }
}

fn push_values(out: &mut Vec<u8>, lines: &[(Description, Bytes)]) -> Result<(), Memory>
    ensures text { OnOk result (out.new.items ≡ out.old.items ++ flat_map value_text lines.now) }
    ensures bytes { OnOk result (ValuesAreBytes lines.now) }
    ensures kept { StartsWith out.new.items out.old.items }
{
    for line in lines {
        push_line(out, line.0.spelling(), line.1.as_slice())?;
    }
    Ok(())
}

fn change_word(kind: &ChangeKind) -> &'static [u8]
    ensures { result.now ≡ change_word kind.now }
{
    match kind {
        ChangeKind::Add(_) => b"add",
        ChangeKind::Delete => b"delete",
        ChangeKind::Modify(_) => b"modify",
        ChangeKind::Rename { .. } => b"modrdn",
    }
}

/// Appends the lines after the changetype.
fn push_kind(out: &mut Vec<u8>, kind: &ChangeKind) -> Result<(), Memory>
    ensures text { OnOk result (out.new.items ≡ out.old.items ++ kind_text kind.now) }
    ensures sound { OnOk result (IsSoundKind kind.now) }
    ensures kept { StartsWith out.new.items out.old.items }
{
    match kind {
        ChangeKind::Add(lines) => push_values(out, lines.as_slice()),
        ChangeKind::Delete => Ok(()),
        ChangeKind::Modify(mods) => push_mods(out, mods.as_slice()),
        ChangeKind::Rename {
            newrdn,
            delete_old,
            newsuperior,
        } => push_rename(out, newrdn, *delete_old, newsuperior),
    }
}

fn push_rename(
    out: &mut Vec<u8>,
    newrdn: &Rdn,
    delete_old: bool,
    newsuperior: &Option<Dn>,
) -> Result<(), Memory>
    ensures text { OnOk result (out.new.items ≡ out.old.items ++ kind_text (ChangeKind.Rename newrdn.now delete_old newsuperior.now)) }
    ensures sound { OnOk result (IsSoundRdn newrdn.now × IsSoundSuperior newsuperior.now) }
    ensures kept { StartsWith out.new.items out.old.items }
{
    push_rdn(out, newrdn)?;
    push_flag(out, delete_old)?;
    push_superior(out, newsuperior)
}

fn push_flag(out: &mut Vec<u8>, delete_old: bool) -> Result<(), Memory>
    ensures text { OnOk result (out.new.items ≡ out.old.items ++ written_line (codes "deleteoldrdn") (flag_text delete_old)) }
    ensures kept { StartsWith out.new.items out.old.items }
{
    if delete_old {
        push_line(out, b"deleteoldrdn", b"1")
    } else {
        push_line(out, b"deleteoldrdn", b"0")
    }
}

fn push_superior(out: &mut Vec<u8>, newsuperior: &Option<Dn>) -> Result<(), Memory>
    ensures text { OnOk result (out.new.items ≡ out.old.items ++ superior_text newsuperior.now) }
    ensures sound { OnOk result (IsSoundSuperior newsuperior.now) }
    ensures kept { StartsWith out.new.items out.old.items }
{
    match newsuperior {
        Some(dn) => push_name(out, b"newsuperior", dn),
        None => Ok(()),
    }
}

fn push_mods(out: &mut Vec<u8>, mods: &[Mod]) -> Result<(), Memory>
    ensures text { OnOk result (out.new.items ≡ out.old.items ++ flat_map mod_text mods.now) }
    ensures bytes { OnOk result (ModsAreBytes mods.now) }
    ensures kept { StartsWith out.new.items out.old.items }
{
    for m in mods {
        push_mod(out, m)?;
    }
    Ok(())
}

fn push_mod(out: &mut Vec<u8>, m: &Mod) -> Result<(), Memory>
    ensures text { OnOk result (out.new.items ≡ out.old.items ++ mod_text m.now) }
    ensures bytes { OnOk result (AreBytes m.now.values) }
    ensures kept { StartsWith out.new.items out.old.items }
{
    let spelling = m.description.spelling();
    push_line(out, op_word(m.op), spelling)?;
    push_texts(out, spelling, m.values.as_slice())?;
    out.extend_from_slice(b"-\n")?;
    Ok(())
}

/// Appends a line for each value of one attribute.
fn push_texts(out: &mut Vec<u8>, spelling: &[u8], values: &[Bytes]) -> Result<(), Memory>
    ensures text { OnOk result (out.new.items ≡ out.old.items ++ flat_map (λ value. written_line spelling.now value) values.now) }
    ensures bytes { OnOk result (AreBytes values.now) }
    ensures kept { StartsWith out.new.items out.old.items }
{
    for value in values {
        push_line(out, spelling, value.as_slice())?;
    }
    Ok(())
}

fn op_word(op: ModOp) -> &'static [u8]
    ensures { result.now ≡ op_word op }
{
    match op {
        ModOp::Add => b"add",
        ModOp::Delete => b"delete",
        ModOp::Replace => b"replace",
        ModOp::Increment => b"increment",
    }
}
