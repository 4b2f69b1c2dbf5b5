//! How one attribute of a packed entry is exchanged, with as little work as the others allow.

ghost use Rattle.std.specs.Prelude.{◌≡◌, IfOk, IfSome, IsTrue};
ghost use Rattle.std.specs.FinMap as fin;
ghost use Rattle.dir_tree.specs.Inside.Packed.{IsAlone, IsApart};
ghost use Rattle.dir_tree.specs.Inside.Stored.{attributes_in, attributes_rise};

use crate::attributes::Attribute;
use crate::packed::{PackedAttribute, PackedAttributes, place_of};
use dir_names::Memory;
use std::alloc::Global;

impl PackedAttributes {
    /// The attributes with this one in place of that of the same description. The list of attributes and the values that
    /// many entries have stay in the memory in which they are. None where the two have not as many values, or where these
    /// are not the entry's own.
    pub(crate) fn with_exchanged(
        &self,
        alloc: Global,
        attribute: &Attribute,
    ) -> Result<Option<PackedAttributes>, Memory>
        requires { IsTrue (attributes_rise self.now) }
        ensures value { IfOk result (λ new. IfSome new (λ all. attributes_in all ≡ fin.insert (attributes_in self.now) attribute.now.key attribute.now.stored)) }
        ensures rise { IfOk result (λ new. IfSome new (λ all. IsTrue (attributes_rise all))) }
    {
        let listed = self.attributes.as_slice();
        let Ok(at) = place_of(listed, attribute.description().key()) else {
            return Ok(None);
        };
        let old = &listed[at];
        let values = attribute.value_map();
        if old.description != *attribute.description()
            || old.len() != values.len()
            || !old.is_alone(at, listed)
        {
            return Ok(None);
        }
        let own = self.own.with_exchanged(alloc, old.start, old.end, values)?;
        let attributes = self.attributes.clone()?;
        let common = self.common.clone()?;
        Ok(Some(PackedAttributes {
            attributes,
            common,
            own,
        }))
    }
}

impl PackedAttribute {
    /// Whether the values are an entry's own, and none of them are those of another attribute than the one at this index.
    fn is_alone(&self, at: usize, attributes: &[PackedAttribute]) -> bool
        ensures { IsTrue result → IsAlone self.now at attributes.now }
    {
        if self.is_common || self.end < self.start {
            return false;
        }
        for number in 0..attributes.len() {
            if number != at && !self.is_apart(&attributes[number]) {
                return false;
            }
        }
        true
    }

    /// Whether the values of another attribute are none of this one's own.
    fn is_apart(&self, other: &PackedAttribute) -> bool
        ensures { IsTrue result → IsApart self.now other.now }
    {
        other.is_common || other.end <= self.start || self.end <= other.start
    }
}
