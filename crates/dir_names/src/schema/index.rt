//! An index of the names of attribute types: which row a text names is found by a binary search, without memory.

ghost use Rattle.std.specs.Prelude.{◌≡◌, ◌<◌, ◌≤◌, ◌+◌, IfErr, IfOk, IsOk, IsTrue, length, map};
ghost use Rattle.std.specs.List.{list_any};
ghost use Rattle.std.specs.List.Sorted.{IsSearchInRange};
ghost use Rattle.std.specs.Str.{str_eq_ignore_ascii_case, str_to_ascii_lowercase};
ghost use Rattle.std.specs.Vec.{vec_capacity, vec_len};
ghost use Rattle.dir_names.specs.Inside.TypeNames.{Gains, IsIndex, are_rising, row_number};
ghost use Rattle.dir_names.specs.Orders.{bytes_cmp, bytes_eq};
ghost use Rattle.dir_names.specs.Sorted.{place};

use crate::attribute::lowercase_bytes;
use crate::schema::TypeRow;
use crate::{Bytes, NameFault};
use std::alloc::Global;
use std::cmp::Ordering;

/// The index of these rows: each name and number in lower case, with the number of the first row that it names.
pub(crate) fn index_of(alloc: Global, rows: &[TypeRow]) -> Result<Vec<(Bytes, usize)>, NameFault>
    ensures index { IfOk result (λ names. IsIndex rows.now names.items) }
    ensures memory { IfErr result (λ e. e ≡ NameFault.Memory) }
{
    let mut names = Vec::new(alloc);
    for (number, row) in rows.iter().enumerate() {
        insert_names(alloc, &mut names, row.names.as_slice(), number)?;
    }
    Ok(names)
}

/// Inserts the names of a row.
fn insert_names(
    alloc: Global,
    names: &mut Vec<(Bytes, usize)>,
    of_row: &[Bytes],
    row: usize,
) -> Result<(), NameFault>
    requires { IsTrue (are_rising names.old.items) }
    ensures rising { IsTrue (are_rising names.new.items) }
    ensures gains { IfOk result (λ _. Gains (λ t. list_any (λ name. str_eq_ignore_ascii_case name t) of_row.now) row names.old.items names.new.items) }
    ensures memory { IfErr result (λ e. e ≡ NameFault.Memory) }
{
    for name in of_row {
        insert(names, lowercase_bytes(alloc, name.as_slice())?, row)?;
    }
    Ok(())
}

/// Inserts a name in lower case, unless it is there. With room for it this doesn't fail.
pub(crate) fn insert(
    names: &mut Vec<(Bytes, usize)>,
    name: Bytes,
    row: usize,
) -> Result<(), NameFault>
    requires { IsTrue (are_rising names.old.items) }
    ensures rising { IsTrue (are_rising names.new.items) }
    ensures gains { IfOk result (λ _. Gains (λ t. bytes_eq name (str_to_ascii_lowercase t)) row names.old.items names.new.items) }
    ensures err { IfErr result (λ e. (e ≡ NameFault.Memory) × (names.new.items ≡ names.old.items)) }
    ensures len { vec_len names.new ≤ vec_len names.old + 1 }
    ensures capacity { vec_capacity names.old ≤ vec_capacity names.new }
    ensures succeeds { vec_len names.old < vec_capacity names.old → IsOk result }
{
    if let Err(at) = names.binary_search_by(|entry| entry.0.cmp(&name)) {
        names.insert(at, (name, row))?;
    }
    Ok(())
}

/// The number of the row that a text names.
pub(crate) fn row_number(names: &[(Bytes, usize)], text: &[u8]) -> Option<usize>
    requires { IsTrue (are_rising names.now) }
    ensures { result ≡ row_number names.now text.now }
{
    match place_of(names, text) {
        Ok(at) => Some(names[at].1),
        Err(_) => None,
    }
}

/// The place of a text in lower case.
fn place_of(names: &[(Bytes, usize)], text: &[u8]) -> Result<usize, usize>
    requires { IsTrue (are_rising names.now) }
    ensures range { IsSearchInRange result (length names.now) }
    ensures place { result ≡ place bytes_cmp (str_to_ascii_lowercase text.now) (map (λ n. n.0) names.now) }
{
    names.binary_search_by(|entry| cmp_lowercase(entry.0.as_slice(), text))
}

/// How a text compares with another one in lower case.
fn cmp_lowercase(one: &[u8], text: &[u8]) -> Ordering
    ensures { result ≡ bytes_cmp one.now (str_to_ascii_lowercase text.now) }
{
    let shorter = one.len().min(text.len());
    for at in 0..shorter {
        let lower = text[at].to_ascii_lowercase();
        if one[at] != lower {
            return one[at].cmp(&lower);
        }
    }
    one.len().cmp(&text.len())
}
