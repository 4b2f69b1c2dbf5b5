//! The entry after modifications, judged by what they look at.

ghost use Rattle.std.specs.Prelude.{◌≡◌, ◌&&◌, IfErr, None, Ok, OnOk, false, nat_lt, not};
ghost use Rattle.std.specs.List.{list_all, list_any};
ghost use Rattle.std.specs.FinMap as fin;
ghost use Rattle.dir_names.specs.declared.value.ValueKey.TheVariants.{Text};
ghost use Rattle.dir_names.specs.Attr.{Attr};
ghost use Rattle.dir_names.specs.Table.{single_of};
ghost use Rattle.dir_tree.specs.ChangedEntry.{changed_entry};
ghost use Rattle.dir_tree.specs.Content.{has_value};
ghost use Rattle.dir_change.specs.Inside.Looked.{is_one_of};
ghost use Rattle.dir_change.specs.Inside.Overlaid.{overlaid};
ghost use Rattle.dir_change.specs.Modify.{with_attributes};
ghost use Rattle.dir_change.specs.Operation.{IsRefused};
ghost use Rattle.dir_change.specs.Refusals.{entry_or_code};

use crate::{Refusal, ResultCode};
use dir_names::{AttrKey, Schema};
use dir_tree::{AttributeMap, Entry};

/// Judges an entry that has these attributes under the keys, and all others as they are: 67 where a value of
/// the own RDN is missing; then 19 where a single type has more than one value.
pub(crate) fn judge(
    schema: &Schema,
    entry: &Entry,
    keys: &[AttrKey],
    after: &AttributeMap,
) -> Result<(), Refusal>
    requires { (q : Attr) → is_one_of q keys.now ≡ false → fin.get after.now q ≡ None }
    ensures ok { OnOk result (entry_or_code (changed_entry schema.now (with_attributes entry.now (overlaid entry.now.attributes keys.now after.now))) ≡ Ok (with_attributes entry.now (overlaid entry.now.attributes keys.now after.now))) }
    ensures refused { IfErr result (λ e. IsRefused e (entry_or_code (changed_entry schema.now (with_attributes entry.now (overlaid entry.now.attributes keys.now after.now))))) }
{
    if !has_own_values(entry, keys, after) {
        return Err(Refusal::Code(ResultCode::NotAllowedOnRdn));
    }
    if others_exceed(schema, entry, keys) || after.exceeds_single_value(schema) {
        return Err(Refusal::Code(ResultCode::ConstraintViolation));
    }
    Ok(())
}

fn has_own_values(entry: &Entry, keys: &[AttrKey], after: &AttributeMap) -> bool
    ensures { result ≡ list_all (λ p. has_value (overlaid entry.now.attributes keys.now after.now) p.0 (Text p.1)) entry.now.key }
{
    for pair in entry.key().pairs() {
        if !has_text(entry, keys, after, &pair.0, pair.1.as_slice()) {
            return false;
        }
    }
    true
}

fn has_text(
    entry: &Entry,
    keys: &[AttrKey],
    after: &AttributeMap,
    attr: &AttrKey,
    text: &[u8],
) -> bool
    ensures { result ≡ has_value (overlaid entry.now.attributes keys.now after.now) attr.now (Text text.now) }
{
    if is_one_of(attr, keys) {
        after.has_text(attr, text)
    } else {
        entry.has_text(attr, text)
    }
}

/// Whether an attribute under none of the keys is of a single type and has more than one value.
fn others_exceed(schema: &Schema, entry: &Entry, keys: &[AttrKey]) -> bool
    ensures { result ≡ list_any (λ a. not (is_one_of a.0 keys.now) && (nat_lt 1 (fin.len a.1.values) && single_of schema.now a.0)) (fin.entries entry.now.attributes) }
{
    for (key, attribute) in entry.attributes() {
        if attribute.has_many() && schema.single(key) && !is_one_of(key, keys) {
            return true;
        }
    }
    false
}

fn is_one_of(attr: &AttrKey, keys: &[AttrKey]) -> bool
    ensures { result ≡ is_one_of attr.now keys.now }
{
    keys.contains(attr)
}
