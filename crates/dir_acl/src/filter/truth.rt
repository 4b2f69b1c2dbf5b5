//! The truth of a filter on an entry (RFC 4511, section 4.5.1.7).

ghost use Rattle.std.specs.List.{list_any};
ghost use Rattle.std.specs.FinMap as fin;
ghost use Rattle.std.specs.Prelude.{◌≡◌, ◌<◌, ◌≤◌, ◌∷◌, IsTrue, false, length, option_copied};
ghost use Rattle.dir_names.specs.Values.{text_of};
ghost use Rattle.dir_tree.specs.Lent.{lent_key};
ghost use Rattle.dir_acl.specs.Filters.Packed.{before_last, complete, has_filter, last_tree, outer};
ghost use Rattle.dir_acl.specs.Inside.Fakes.{attributes_of};
ghost use Rattle.dir_acl.specs.Truth.{both, either, has_matching, is_any_covered, matching_truth, opposite, text_has, tree_truth, truth_if, truth_of};
ghost use Rattle.dir_acl.specs.declared.filter.Step.TheVariants as Step;

use crate::filter::Step;
use crate::filter::integers::{is_at_least, is_at_most};
use crate::filter::substrings::has_pieces;
use crate::{Filter, Matching, Test};
use dir_names::AttrKey;
use dir_tree::{AttributeView, Entry, KeyView};

/// What a filter is on an entry.
#[derive(Clone, Copy, PartialEq, Eq, Debug)]
pub enum Truth {
    True,
    False,
    /// A test has no answer: its attribute's type has no such matching rule, or its assertion no key.
    Undefined,
}

impl Filter {
    /// The truth of the filter on an entry. The call doesn't allocate.
    pub fn truth(&self, entry: &Entry) -> Truth
        ensures { result ≡ truth_of entry.now.attributes self.now }
    {
        self.truth_on(Some(entry))
    }

    /// The truth of the filter on an entry, or on one without attributes.
    pub(crate) fn truth_on(&self, entry: Option<&Entry>) -> Truth
        ensures { result ≡ truth_of (attributes_of (option_copied entry.entry)) self.now }
    {
        last_truth(self.steps.as_slice(), self.tests.as_slice(), entry).truth
    }
}

/// The truth of a filter, with the steps and tests of those before it.
#[derive(Clone, Copy)]
pub(crate) struct LastTruth<'f> {
    truth: Truth,
    steps: &'f [Step],
    tests: &'f [Test],
}

/// The truth of the last filter that these steps make, the last step first. Without any it is True.
#[tactic(auto, using(crate::proofs::Truths::truth_steps))]
fn last_truth<'f>(steps: &'f [Step], tests: &'f [Test], entry: Option<&Entry>) -> LastTruth<'f>
    ensures truth { result.truth ≡ tree_truth (attributes_of (option_copied entry.entry)) (last_tree (complete steps.now tests.now)) }
    ensures before { complete result.steps.now result.tests.now ≡ before_last (complete steps.now tests.now) }
    ensures within { length result.steps.now ≤ length steps.now }
    ensures shorter { IsTrue (has_filter steps.now) → length result.steps.now < length steps.now }
{
    match steps {
        [] | [Step::Begin, ..] => LastTruth {
            truth: Truth::True,
            steps,
            tests,
        },
        [Step::Test, before @ ..] => last_test_truth(before, tests, entry),
        [Step::Not, before @ ..] => {
            let last = last_truth(before, tests, entry);
            LastTruth {
                truth: opposite(last.truth),
                ..last
            }
        }
        [Step::And, before @ ..] => {
            let mut all = LastTruth {
                truth: Truth::True,
                steps: before,
                tests,
            };
            'all: while has_filter(all.steps) {
                let last = last_truth(all.steps, all.tests, entry);
                all = LastTruth {
                    truth: both(last.truth, all.truth),
                    ..last
                };
            }
            before_list(all)
        }
        [Step::Or, before @ ..] => {
            let mut any = LastTruth {
                truth: Truth::False,
                steps: before,
                tests,
            };
            'any: while has_filter(any.steps) {
                let last = last_truth(any.steps, any.tests, entry);
                any = LastTruth {
                    truth: either(last.truth, any.truth),
                    ..last
                };
            }
            before_list(any)
        }
    }
}

fn last_test_truth<'f>(steps: &'f [Step], tests: &'f [Test], entry: Option<&Entry>) -> LastTruth<'f>
    ensures truth { result.truth ≡ tree_truth (attributes_of (option_copied entry.entry)) (last_tree (complete (Step.Test ∷ steps.now) tests.now)) }
    ensures before { complete result.steps.now result.tests.now ≡ before_last (complete (Step.Test ∷ steps.now) tests.now) }
    ensures steps { result.steps.now ≡ steps.now }
{
    match tests {
        [test, before @ ..] => LastTruth {
            truth: test_truth(test, entry),
            steps,
            tests: before,
        },
        [] => LastTruth {
            truth: Truth::True,
            steps,
            tests,
        },
    }
}

/// Whether the innermost list has a filter.
fn has_filter(steps: &[Step]) -> bool
    ensures { result ≡ has_filter steps.now }
{
    !matches!(steps, [] | [Step::Begin, ..])
}

/// The same truth, of a list, with the steps before the list began.
fn before_list<'f>(list: LastTruth<'f>) -> LastTruth<'f>
    requires { has_filter list.steps.now ≡ false }
    ensures truth { result.truth ≡ list.entry.truth }
    ensures before { complete result.steps.now result.tests.now ≡ outer (complete list.entry.steps.now list.entry.tests.now).around }
    ensures within { length result.steps.now ≤ length list.entry.steps.now }
{
    match list.steps {
        [_, steps @ ..] => LastTruth { steps, ..list },
        [] => list,
    }
}

/// The truth of `&` with two filters.
fn both(one: Truth, another: Truth) -> Truth
    ensures { result ≡ both one another }
{
    match (one, another) {
        (Truth::False, _) | (_, Truth::False) => Truth::False,
        (Truth::True, Truth::True) => Truth::True,
        _ => Truth::Undefined,
    }
}

/// The truth of `|` with two filters.
fn either(one: Truth, another: Truth) -> Truth
    ensures { result ≡ either one another }
{
    match (one, another) {
        (Truth::True, _) | (_, Truth::True) => Truth::True,
        (Truth::False, Truth::False) => Truth::False,
        _ => Truth::Undefined,
    }
}

fn opposite(truth: Truth) -> Truth
    ensures { result ≡ opposite truth }
{
    match truth {
        Truth::True => Truth::False,
        Truth::False => Truth::True,
        Truth::Undefined => Truth::Undefined,
    }
}

fn truth_if(holds: bool) -> Truth
    ensures { result ≡ truth_if holds }
{
    if holds { Truth::True } else { Truth::False }
}

fn test_truth(test: &Test, entry: Option<&Entry>) -> Truth
    ensures { result ≡ matching_truth (attributes_of (option_copied entry.entry)) test.now.attr test.now.matching }
{
    match &test.matching {
        Matching::Equal(None)
        | Matching::AtLeast(None)
        | Matching::AtMost(None)
        | Matching::Substrings(None) => Truth::Undefined,
        matching => truth_if(is_any_covered(&test.attr, matching, entry)),
    }
}

/// Whether an attribute that the description covers is as the test asks.
fn is_any_covered(attr: &AttrKey, matching: &Matching, entry: Option<&Entry>) -> bool
    ensures { result ≡ is_any_covered attr.now (has_matching matching.now) (attributes_of (option_copied entry.entry)) }
{
    match entry {
        Some(entry) => is_any_covered_in(attr, matching, entry),
        None => false,
    }
}

fn is_any_covered_in(attr: &AttrKey, matching: &Matching, entry: &Entry) -> bool
    ensures { result ≡ is_any_covered attr.now (has_matching matching.now) entry.now.attributes }
{
    for (key, attribute) in entry.attributes() {
        if attr.covers(key) && has_matching(matching, &attribute) {
            return true;
        }
    }
    false
}

fn has_matching(matching: &Matching, attribute: &AttributeView<'_>) -> bool
    ensures { result ≡ has_matching matching.now attribute.now.stored }
{
    match matching {
        Matching::Present => true,
        Matching::Equal(Some(key)) => attribute.has(key),
        matching => has_matching_text(matching, attribute),
    }
}

fn has_matching_text(matching: &Matching, attribute: &AttributeView<'_>) -> bool
    ensures { result ≡ list_any (λ v. text_has matching.now (text_of v.0)) (fin.entries attribute.now.stored.values) }
{
    for (key, _) in attribute.values() {
        if key_has(matching, key) {
            return true;
        }
    }
    false
}

fn key_has(matching: &Matching, key: KeyView<'_>) -> bool
    ensures { result ≡ text_has matching.now (text_of (lent_key key.entry)) }
{
    let Some(text) = key.text() else {
        return false;
    };
    match matching {
        Matching::AtLeast(Some(bound)) => is_at_least(bound.as_slice(), text),
        Matching::AtMost(Some(bound)) => is_at_most(bound.as_slice(), text),
        Matching::Substrings(Some(pieces)) => has_pieces(pieces, text),
        _ => false,
    }
}
