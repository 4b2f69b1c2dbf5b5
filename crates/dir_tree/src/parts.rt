//! The fields of an entry, to change them and close them to an entry again.

ghost use Rattle.std.specs.List.{list_all};
ghost use Rattle.std.specs.Prelude.{◌≡◌, IfErr, IfOk, Ok, Err};
ghost use Rattle.dir_names.specs.declared.value.ValueKey.TheVariants.{Text};
ghost use Rattle.dir_tree.specs.ChangedEntry.{changed_entry, content_of};
ghost use Rattle.dir_tree.specs.Content.{has_value};

use crate::kept::KeptAttributes;
use crate::{Entry, EntryFault};
use dir_names::{AttrKey, Bytes, Rdn, RdnKey, Schema};

/// The fields of an entry, which can be changed before they make an entry again.
#[derive(Debug, Drop)]
pub struct Parts {
    /// The own name as spelled, leaf first: one RDN, or all of the suffix.
    pub own: Vec<Rdn>,
    /// The key of the leaf RDN.
    pub key: RdnKey,
    /// The attributes, under the keys of their descriptions.
    pub attributes: KeptAttributes,
}

impl Parts {
    /// The entry with these fields. The call doesn't allocate.
    ///
    /// # Errors
    ///
    /// `NotNamed` if a value of the leaf RDN's key is missing; else `Single` if an attribute of a single
    /// type has more than one value. The fields come back.
    pub fn close(self, schema: &Schema) -> Result<Entry, (Parts, EntryFault)>
        ensures ok { IfOk result (λ entry. changed_entry schema.now (content_of self) ≡ Ok entry) }
        ensures err { IfErr result (λ back. (back.0 ≡ self) × (changed_entry schema.now (content_of self) ≡ Err back.1)) }
    {
        if !has_each(&self.attributes, self.key.pairs()) {
            return Err((self, EntryFault::NotNamed));
        }
        if self.attributes.exceeds_single_value(schema) {
            return Err((self, EntryFault::Single));
        }
        Ok(Entry::of(self))
    }
}

/// Whether the attributes have each of these values.
pub(crate) fn has_each(attributes: &KeptAttributes, pairs: &[(AttrKey, Bytes)]) -> bool
    ensures { result ≡ list_all (λ pair. has_value attributes.now pair.0 (Text pair.1)) pairs.now }
{
    for pair in pairs {
        if !attributes.has_text(&pair.0, pair.1.as_slice()) {
            return false;
        }
    }
    true
}
