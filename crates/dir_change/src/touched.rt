//! The attributes that an operation can change, and no others, so that it doesn't copy all of a large entry.

ghost use Rattle.std.specs.Prelude.{◌≡◌, IfErr, IfOk};
ghost use Rattle.dir_change.specs.Inside.Touched.{IsPartAt};
ghost use Rattle.dir_change.specs.declared.refusal.Refusal.TheVariants as refusal;

use crate::Refusal;
use dir_names::AttrKey;
use dir_tree::{AttributeMap, Entry};
use std::alloc::Global;

/// More attributes than this are not copied whole to be changed: the entry after them may have too many values to be packed by
/// part, and all would be made twice. A change of a person names fewer.
const MOST_KEYS: usize = 16;

/// Copy whole attributes only if they have at most this many values beyond the first of each. The first is looked at in any
/// case; to copy eight for a modify that is refused at its first value takes longer than to look at less.
const MOST_OTHER_VALUES: usize = 4;

/// Attributes whose values have more bytes than this together are not copied whole to be changed, for the same reason.
const MOST_BYTES: usize = 1024;

/// Whether an entry is small, and has few and short values under these few keys, so that whole attributes are copied to be
/// changed. All are counted before one is copied.
pub(crate) fn is_cheap_to_copy(entry: &Entry, keys: &[AttrKey]) -> bool {
    if keys.len() > MOST_KEYS || !entry.is_small() {
        return false;
    }
    let mut others: usize = 0;
    let mut bytes: usize = 0;
    for key in keys {
        if let Some(attribute) = entry.attribute(key) {
            others = others.saturating_add(attribute.len().saturating_sub(1));
            if others > MOST_OTHER_VALUES {
                return false;
            }
            for (_, value) in attribute.values() {
                bytes = bytes.saturating_add(value.len());
            }
        }
    }
    bytes <= MOST_BYTES
}

/// The attributes of an entry under these keys.
pub(crate) fn attributes_at(
    alloc: Global,
    entry: &Entry,
    keys: &[AttrKey],
) -> Result<AttributeMap, Refusal>
    ensures ok { IfOk result (λ part. IsPartAt keys.now entry.now.attributes part) }
    ensures memory { IfErr result (λ e. e ≡ refusal.Memory) }
{
    let mut part = AttributeMap::empty(alloc);
    for key in keys {
        if let Some(attribute) = entry.attribute(key) {
            part.put(attribute.to_attribute(alloc)?)?;
        }
    }
    Ok(part)
}
