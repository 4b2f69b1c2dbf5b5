//! A list for one item, mostly.

ghost use Rattle.std.specs.Mem.{FitsInMemory};
ghost use Rattle.std.specs.List.{insert};
ghost use Rattle.std.specs.Prelude.{◌≡◌, ◌≤◌, [], ◌∷◌, ◌++◌, Ok, length};
ghost use Rattle.dir_names.specs.Inside.Few.{few_items};
ghost use Rattle.dir_names.specs.Outcome.{Gives};

use crate::NameFault;
use std::alloc::Global;
use std::slice;

/// A list that mostly has one item, which then needs no memory of its own.
#[derive(Debug, Drop)]
pub(crate) enum Few<T> {
    None,
    One(T),
    Many(Vec<T>),
}

impl<T: Drop> Few<T> {
    pub(crate) fn as_slice(&self) -> &[T]
        requires { FitsInMemory T.row }
        ensures { result.now ≡ few_items self.now }
    {
        match self {
            Few::None => &[],
            Few::One(item) => slice::from_ref(item),
            Few::Many(items) => items.as_slice(),
        }
    }

    /// The list with one item more, at its end.
    pub(crate) fn with_last(self, alloc: Global, item: T) -> Result<Few<T>, NameFault>
        requires { FitsInMemory T.row }
        ensures { Gives (λ few. few_items few) result (Ok (few_items self ++ item ∷ [])) }
    {
        let count = self.as_slice().len();
        self.with(alloc, count, item)
    }

    /// The list with one item more, at this index.
    pub(crate) fn with(self, alloc: Global, at: usize, item: T) -> Result<Few<T>, NameFault>
        requires { at ≤ length (few_items self) }
        ensures { Gives (λ few. few_items few) result (Ok (insert (few_items self) at item)) }
    {
        match self {
            Few::None => Ok(Few::One(item)),
            Few::One(only) => {
                let mut items = Vec::with_capacity(alloc, 2)?;
                items.push(only)?;
                items.insert(at, item)?;
                Ok(Few::Many(items))
            }
            Few::Many(mut items) => {
                items.insert(at, item)?;
                Ok(Few::Many(items))
            }
        }
    }
}
