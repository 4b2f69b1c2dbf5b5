//! What entries that are alike have in one memory.

ghost use Rattle.std.specs.Prelude.{◌≡◌, IfSome};

use crate::packed::{PackedAttribute, PackedAttributes, PackedValues};
use dir_names::DnSortKey;
use std::alloc::Global;
use std::rc::Rc;

/// How many lists of attributes, and how many keys of names, are kept to be shared.
const MOST_RECENT: usize = 8;

impl PackedAttributes {
    /// Shares the memory of the list of attributes, of common values and of the keys of names with entries before.
    pub(crate) fn share(&mut self, alloc: Global, shared: &mut Shared)
        ensures { self.new ≡ self.old }
    {
        share_shape(&mut self.attributes, &mut shared.shapes);
        share_values(&mut self.common, &mut shared.values);
        share_names(alloc, &mut self.own.pool.names, &mut shared.names);
    }
}

/// What entries have that others after them may share.
#[derive(Drop)]
pub(crate) struct Shared {
    shapes: Recent<Rc<Vec<PackedAttribute>>>,
    values: Recent<Rc<PackedValues>>,
    names: Recent<DnSortKey>,
}

impl Shared {
    pub(crate) fn new(alloc: Global) -> Shared {
        Shared {
            shapes: Recent::new(alloc),
            values: Recent::new(alloc),
            names: Recent::new(alloc),
        }
    }
}

/// Exchanges a list of attributes for one that is alike, if one was met not long ago.
fn share_shape(shape: &mut Rc<Vec<PackedAttribute>>, recent: &mut Recent<Rc<Vec<PackedAttribute>>>)
    ensures { shape.new.value.items ≡ shape.old.value.items }
{
    if is_shared(recent.as_slice(), shape) {
        return;
    }
    if let Some(alike) = find_shape(recent.as_slice(), shape.as_slice()) {
        if let Ok(alike) = alike.clone() {
            *shape = alike;
        }
    } else if let Ok(shape) = shape.clone() {
        recent.add(shape);
    }
}

/// Whether something is in the memory of one of these.
fn is_shared<T: Drop>(recent: &[Rc<T>], item: &Rc<T>) -> bool {
    recent.iter().any(|known| Rc::ptr_eq(known, item))
}

/// A list that has the same attributes, if there is one.
fn find_shape<'a>(
    shapes: &'a [Rc<Vec<PackedAttribute>>],
    attributes: &[PackedAttribute],
) -> Option<&'a Rc<Vec<PackedAttribute>>>
    ensures { IfSome result (λ shape. shape.now.value.items ≡ attributes.now) }
{
    for shape in shapes {
        if shape.as_slice() == attributes {
            return Some(shape);
        }
    }
    None
}

/// Exchanges values for the same ones, if they were met not long ago.
fn share_values(values: &mut Rc<PackedValues>, recent: &mut Recent<Rc<PackedValues>>)
    ensures { values.new.value ≡ values.old.value }
{
    if is_shared(recent.as_slice(), values) {
        return;
    }
    if let Some(same) = find_values(recent.as_slice(), values) {
        if let Ok(same) = same.clone() {
            *values = same;
        }
    } else if let Ok(values) = values.clone() {
        recent.add(values);
    }
}

/// The same values, if they are there.
fn find_values<'a>(
    recent: &'a [Rc<PackedValues>],
    values: &PackedValues,
) -> Option<&'a Rc<PackedValues>>
    ensures { IfSome result (λ found. found.now.value ≡ values.now) }
{
    for found in recent {
        if found.is_like(values) {
            return Some(found);
        }
    }
    None
}

/// Exchanges keys of names for the same ones, where they were met not long ago.
fn share_names(alloc: Global, names: &mut Vec<DnSortKey>, recent: &mut Recent<DnSortKey>)
    ensures { names.new.items ≡ names.old.items }
{
    for at in 0..names.len() {
        share_name(alloc, &mut names[at], recent);
    }
}

/// Exchanges the key of a name for the same one, if it was met not long ago.
fn share_name(alloc: Global, name: &mut DnSortKey, recent: &mut Recent<DnSortKey>)
    ensures { name.new ≡ name.old }
{
    if let Some(same) = find_name(recent.as_slice(), name) {
        if let Ok(same) = same.try_clone(alloc) {
            *name = same;
        }
    } else if let Ok(name) = name.try_clone(alloc) {
        recent.add(name);
    }
}

/// The same key, if it is there.
fn find_name<'a>(names: &'a [DnSortKey], name: &DnSortKey) -> Option<&'a DnSortKey>
    ensures { IfSome result (λ found. found.now ≡ name.now) }
{
    for found in names {
        if found == name {
            return Some(found);
        }
    }
    None
}

/// The last few items that were added.
#[derive(Drop)]
struct Recent<T> {
    items: Vec<T>,
    oldest: usize,
}

impl<T: Drop> Recent<T> {
    fn new(alloc: Global) -> Recent<T> {
        Recent {
            items: Vec::new(alloc),
            oldest: 0,
        }
    }

    fn as_slice(&self) -> &[T] {
        self.items.as_slice()
    }

    /// Adds an item, in place of the oldest if there are many. Where memory runs out it is not added.
    fn add(&mut self, item: T) {
        if self.items.len() < MOST_RECENT {
            let _ = self.items.push(item);
            return;
        }
        let oldest = self.oldest % MOST_RECENT;
        self.items[oldest] = item;
        self.oldest = oldest + 1;
    }
}
