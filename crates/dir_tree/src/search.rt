//! Searches among the values of an attribute, by a key or by what a key is made of.

ghost use Rattle.std.specs.Prelude.{◌≡◌, ◌-◌, ◌<◌, ℕ, List, Err, IfOk, IsTrue, length, map, slice_index_or, true};
ghost use Rattle.std.specs.List.Sorted.{IsSearchInRange};
ghost use Rattle.dir_names.specs.Sorted.{place};
ghost use Rattle.dir_names.specs.Values.{value_key_cmp};
ghost use Rattle.std.specs.Ordering.{is_lt};
ghost use Rattle.dir_names.specs.declared.value.ValueKey.{ValueKey};
ghost use Rattle.dir_names.specs.declared.value.ValueKey.TheVariants.{Name};
ghost use Rattle.dir_tree.specs.Lent.{lent_key};
ghost use Rattle.dir_tree.specs.Inside.Searches.{sought_key};
ghost use Rattle.dir_tree.specs.Inside.Stored.{are_rising, value_pair};

use crate::stored::StoredValue;
use crate::views::KeyView;
use dir_names::{DnKey, ValueKey};
use std::cmp::Ordering;

/// What a search is for: a key, or the name that is the key.
#[derive(Drop)]
pub(crate) enum Sought<'a> {
    Key(KeyView<'a>),
    Name(&'a DnKey),
}

/// The index of the value with the key that is sought, or the index at which it would be inserted.
pub(crate) fn place_of(items: &[StoredValue], sought: &Sought<'_>) -> Result<usize, usize>
    requires { IsTrue (are_rising items.now) }
    ensures range { IsSearchInRange result (length items.now) }
    ensures place { result ≡ place value_key_cmp (sought_key sought.now) (map (λ value. (value_pair value).0) items.now) }
{
    items.binary_search_by(|value| cmp_sought(value.key(), sought))
}

/// Whether all values are below the key that is sought, which then would be inserted after them.
pub(crate) fn are_below(items: &[StoredValue], sought: &Sought<'_>) -> bool
    requires { IsTrue (are_rising items.now) }
    ensures { result ≡ true → place value_key_cmp (sought_key sought.now) (map (λ value. (value_pair value).0) items.now) ≡ Err (length items.now) }
{
    items.is_empty() || ends_below(items, sought)
}

/// Whether the last value is below the key that is sought.
pub(crate) fn ends_below(items: &[StoredValue], sought: &Sought<'_>) -> bool
    requires { 0 < length items.now }
    ensures { (value : ValueKey × List ℕ) → result ≡ is_lt (value_key_cmp (slice_index_or items.now (length items.now - 1) value).0 (sought_key sought.now)) }
{
    cmp_sought(items[items.len() - 1].key(), sought).is_lt()
}

/// How a key compares to the one that is sought.
pub(crate) fn cmp_sought(key: &ValueKey, sought: &Sought<'_>) -> Ordering
    ensures { result ≡ value_key_cmp key.now (sought_key sought.now) }
{
    cmp_lent(KeyView::of(key), sought)
}

/// How a key that is lent compares to the one that is sought.
pub(crate) fn cmp_lent(key: KeyView<'_>, sought: &Sought<'_>) -> Ordering
    ensures { result ≡ value_key_cmp (lent_key key.entry) (sought_key sought.now) }
{
    match sought {
        Sought::Key(other) => cmp_keys(key, *other),
        Sought::Name(name) => cmp_name(key, name),
    }
}

fn cmp_keys(one: KeyView<'_>, another: KeyView<'_>) -> Ordering
    ensures { result ≡ value_key_cmp (lent_key one.entry) (lent_key another.entry) }
{
    match (one, another) {
        (KeyView::Text(one), KeyView::Text(another)) => one.cmp(another),
        (KeyView::Text(_), KeyView::Name(_)) => Ordering::Less,
        (KeyView::Name(_), KeyView::Text(_)) => Ordering::Greater,
        (KeyView::Name(one), KeyView::Name(another)) => one.cmp(another),
    }
}

/// How a key compares to the key that is this name.
fn cmp_name(key: KeyView<'_>, name: &DnKey) -> Ordering
    ensures { result ≡ value_key_cmp (lent_key key.entry) (Name name.now) }
{
    match key {
        KeyView::Text(_) => Ordering::Less,
        KeyView::Name(own) => own.cmp_key(name),
    }
}
