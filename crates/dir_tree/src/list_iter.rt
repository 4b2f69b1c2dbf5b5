//! The elements of a list, in order: of one `Vec`, or of pieces.

ghost use Rattle.std.specs.Prelude.{◌≡◌, []};
ghost use Rattle.dir_tree.specs.Inside.Pieces.{joined};

use std::marker::Model;
use std::slice;

/// The elements of a list, in order.
#[derive(Drop)]
pub(crate) struct ListIter<'a, T> {
    /// The elements of the piece that was begun.
    first: slice::Iter<'a, T>,
    /// The pieces after it.
    rest: slice::Iter<'a, Vec<T>>,
}

impl<'a, T> Model for ListIter<'a, T> {
    ghost use Rattle.std.specs.Prelude.{◌++◌, List};
    ghost use Rattle.std.specs.Slice.Iter.{iter_rest};
    ghost use Rattle.dir_tree.specs.Inside.Pieces.{joined};

    ghost Value = { List T };

    ghost view = { λ s. iter_rest s.first ++ joined (iter_rest s.rest) };
}

impl<'a, T> ListIter<'a, T> {
    pub(crate) fn none() -> ListIter<'a, T>
        ensures { result ≡ [] }
    {
        ListIter {
            first: [].iter(),
            rest: [].iter(),
        }
    }

    /// The elements of one `Vec`.
    pub(crate) fn of_slice(elements: &'a [T]) -> ListIter<'a, T>
        ensures { result ≡ elements.now }
    {
        ListIter {
            first: elements.iter(),
            rest: [].iter(),
        }
    }

    /// The elements of pieces.
    pub(crate) fn of_pieces(pieces: &'a [Vec<T>]) -> ListIter<'a, T>
        ensures { result ≡ joined pieces.now }
    {
        ListIter {
            first: [].iter(),
            rest: pieces.iter(),
        }
    }
}

impl<'a, T> Iterator for ListIter<'a, T> {
    ghost use Rattle.std.specs.Iterator.{YieldsFirstRef, item_count};

    type Item = &'a T;

    ghost next_gives = { YieldsFirstRef (λ rest. rest) };

    ghost remaining = { item_count (λ rest. rest) };

    fn next(&mut self) -> Option<&'a T> {
        loop {
            if let Some(value) = self.first.next() {
                return Some(value);
            }
            self.first = self.rest.next()?.iter();
        }
    }
}
