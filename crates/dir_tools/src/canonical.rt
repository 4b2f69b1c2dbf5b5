//! The canonical text of a directory.

ghost use Rattle.std.specs.Prelude.{◌≡◌, ◌++◌, IfOk, OnOk};
ghost use Rattle.std.specs.List.{flat_map};
ghost use Rattle.dir_ldif.specs.RecordText.{value_text};
ghost use Rattle.dir_tree.specs.WellFormed.{attribute_lines};
ghost use Rattle.dir_tools.specs.Canonical.{canonical_of, entry_text};

use dir_ldif::{push_end, push_line, push_name};
use dir_names::{Dn, Memory};
use dir_tree::{AttributeView, Directory, Entry};
use std::alloc::Global;

/// The canonical text of a directory: a record for each entry in order of keys, with its name as put
/// together from the stored spellings, its attributes in order of their keys, and their values in
/// order of theirs, as stored.
pub(crate) fn canonical_text<D: Directory>(alloc: Global, directory: &D) -> Result<Vec<u8>, Memory>
    ensures { IfOk result (λ text. text.items ≡ canonical_of (D.state directory.now)) }
{
    let mut text = Vec::new(alloc);
    for (name, entry) in directory.walk()? {
        push_entry(&mut text, &name, entry)?;
    }
    Ok(text)
}

fn push_entry(text: &mut Vec<u8>, name: &Dn, entry: &Entry) -> Result<(), Memory>
    ensures { OnOk result (text.new.items ≡ text.old.items ++ entry_text (name.now, entry.now)) }
{
    push_name(text, b"dn", name)?;
    for (_, attribute) in entry.attributes() {
        push_values(text, &attribute)?;
    }
    push_end(text)
}

fn push_values(text: &mut Vec<u8>, attribute: &AttributeView<'_>) -> Result<(), Memory>
    ensures { OnOk result (text.new.items ≡ text.old.items ++ flat_map value_text (attribute_lines (attribute.now.key, attribute.now.stored))) }
{
    let spelling = attribute.description().spelling();
    for (_, bytes) in attribute.values() {
        push_line(text, spelling, bytes)?;
    }
    Ok(())
}
