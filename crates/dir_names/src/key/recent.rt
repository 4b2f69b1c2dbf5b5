//! The names that were last read as values, with their keys.

ghost use Rattle.std.specs.Prelude.{IfSome};
ghost use Rattle.dir_names.specs.Inside.KnownKeys.{IsKeyOfValue};
ghost use Rattle.dir_names.specs.NameKeys.{name_value_key};
ghost use Rattle.dir_names.specs.Outcome.{Gives, ok_or_bad_value};

use crate::key::plain_parents::PlainParents;
use crate::{DnSortKey, NameFault, Schema};
use std::alloc::Global;
use std::mem;

/// A name of more bytes is remembered only until the next one is read, so that no more than one such name is kept.
const MOST_BYTES: usize = 512;

/// The last two names that were read as values, with their keys, and the parents of names that were read. Only names and
/// parents whose types are built in are remembered, so that their keys are the same under each schema. A value of the same bytes as one of the two is not read again, and of a
/// plain name below one of the parents only the leaf is read.
#[derive(Drop)]
pub struct RecentNames {
    /// Of any length.
    last: Option<RecentName>,
    /// Of at most `MOST_BYTES`.
    before: Option<RecentName>,
    parents: PlainParents,
}

#[derive(Drop)]
struct RecentName {
    value: Vec<u8>,
    key: DnSortKey,
    ghost is_key: { IsKeyOfValue value.items key },
}

impl RecentNames {
    pub fn new() -> RecentNames {
        RecentNames {
            last: None,
            before: None,
            parents: PlainParents::none(),
        }
    }

    /// The key of the name that a value spells, as `DnSortKey::read` answers it.
    ///
    /// # Errors
    ///
    /// As for `DnSortKey::read`.
    pub fn read(
        &mut self,
        alloc: Global,
        schema: &Schema,
        value: &[u8],
    ) -> Result<DnSortKey, NameFault>
        ensures { Gives (λ key. key) result (ok_or_bad_value (name_value_key schema.now value.now)) }
    {
        schema.keeps_builtin_types();
        match key_in(&self.last, value) {
            Some(key) => key.try_clone(alloc),
            None => self.read_other(alloc, schema, value),
        }
    }

    /// `read` of a value that is not the last name.
    #[inline(never)]
    fn read_other(
        &mut self,
        alloc: Global,
        schema: &Schema,
        value: &[u8],
    ) -> Result<DnSortKey, NameFault>
        ensures { Gives (λ key. key) result (ok_or_bad_value (name_value_key schema.now value.now)) }
    {
        schema.keeps_builtin_types();
        if let Some(key) = key_in(&self.before, value) {
            let key = key.try_clone(alloc)?;
            let found = self.before.take();
            self.put_last(found);
            return Ok(key);
        }
        let (key, scope) = DnSortKey::read_after(alloc, schema, value, &mut self.parents)?;
        if scope.is_each_schema() {
            self.keep(alloc, value, &key);
        }
        Ok(key)
    }

    /// Remembers a name in place of the older one, if there is memory for it.
    fn keep(&mut self, alloc: Global, value: &[u8], key: &DnSortKey)
        requires { IsKeyOfValue value.now key.now }
    {
        let mut bytes = match self.before.take() {
            Some(RecentName { value, key: _key }) => value,
            None => Vec::new(alloc),
        };
        bytes.clear();
        let Ok(()) = bytes.extend_from_slice(value) else {
            return;
        };
        let Ok(key) = key.try_clone(alloc) else {
            return;
        };
        self.put_last(Some(RecentName { value: bytes, key }));
    }

    /// Puts a name before the others: the last is then the one before it, unless it is long.
    fn put_last(&mut self, name: Option<RecentName>) {
        let last = mem::replace(&mut self.last, name);
        self.before = match last {
            Some(last) if last.value.len() <= MOST_BYTES => Some(last),
            _long => None,
        };
    }
}

/// The key of a remembered name, if a value is its bytes.
#[inline(always)]
fn key_in<'a>(name: &'a Option<RecentName>, value: &[u8]) -> Option<&'a DnSortKey>
    ensures { IfSome result (λ key. IsKeyOfValue value.now key.now) }
{
    match name {
        Some(name) if name.value.as_slice() == value => Some(&name.key),
        _ => None,
    }
}
