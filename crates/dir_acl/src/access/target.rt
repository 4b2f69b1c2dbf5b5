//! Which targets a rule is for: its `<what>`.

ghost use Rattle.std.specs.List.{list_any, starts_with};
ghost use Rattle.std.specs.Prelude.{◌≡◌, ◌&&◌, option_copied, true};
ghost use Rattle.dir_names.specs.Orders.{rdn_key_eq};
ghost use Rattle.dir_acl.specs.Decision.{fits, is_asked, is_of_style, rule_fits};
ghost use Rattle.dir_acl.specs.Inside.Fakes.{attributes_of};
ghost use Rattle.dir_acl.specs.Inside.Requests.{question_of};
ghost use Rattle.dir_acl.specs.Rules.{restriction_of, rule_of};
ghost use Rattle.dir_acl.specs.TargetRules.{agrees, allows_asked, is_for, rule_allows_asked, rule_is_for};
ghost use Rattle.dir_acl.specs.Truth.{is_true};

use crate::access::{Asked, Request, Rule, Style, What};
use crate::filter::truth::Truth;
use dir_names::DnKey;
use dir_tree::Entry;

/// Whether a rule is for the target, whatever of it is asked for.
#[derive(Clone, Copy)]
pub(crate) enum ForTarget {
    NotYetKnown,
    No,
    Yes,
}

impl Rule {
    /// Whether the rule is for the target and what is asked of it.
    pub(crate) fn fits(&self, request: &Request<'_>) -> bool
        ensures { result ≡ rule_fits (question_of request.now) (rule_of self.now) }
    {
        for what in &self.what {
            if !what.fits(request) {
                return false;
            }
        }
        true
    }

    /// Whether the rule is for the target and what is asked of it, and what is known then of the target alone. The
    /// parts are tried in their order, up to the first that doesn't fit.
    pub(crate) fn trial(
        &self,
        target: &DnKey,
        entry: Option<&Entry>,
        asked: &Asked,
    ) -> (bool, ForTarget)
        ensures fits { result.0 ≡ (rule_is_for target.now (attributes_of (option_copied entry.entry)) (rule_of self.now) && rule_allows_asked asked.now (rule_of self.now)) }
        ensures known { agrees result.1 (rule_is_for target.now (attributes_of (option_copied entry.entry)) (rule_of self.now)) ≡ true }
    {
        for (index, what) in self.what.iter().enumerate() {
            if !what.is_for(target, entry) {
                return (false, ForTarget::No);
            }
            if !what.allows_asked(asked) {
                let known = if index + 1 == self.what.len() {
                    ForTarget::Yes
                } else {
                    ForTarget::NotYetKnown
                };
                return (false, known);
            }
        }
        (true, ForTarget::Yes)
    }

    /// Whether a rule that is for the target is for what is asked of it.
    pub(crate) fn allows_asked(&self, asked: &Asked) -> bool
        ensures { result ≡ rule_allows_asked asked.now (rule_of self.now) }
    {
        for what in &self.what {
            if !what.allows_asked(asked) {
                return false;
            }
        }
        true
    }
}

impl What {
    fn is_for(&self, target: &DnKey, entry: Option<&Entry>) -> bool
        ensures { result ≡ is_for target.now (attributes_of (option_copied entry.entry)) (restriction_of self.now) }
    {
        match self {
            What::Dn(style, name) => style.has(name, target),
            What::Filter(filter) => is_true(filter.truth_on(entry)),
            What::Attrs(_) => true,
            What::Open(_) => false,
        }
    }

    fn allows_asked(&self, asked: &Asked) -> bool
        ensures { result ≡ allows_asked asked.now (restriction_of self.now) }
    {
        match self {
            What::Dn(..) | What::Filter(_) => true,
            What::Attrs(items) => is_any_asked(items, asked),
            What::Open(_) => false,
        }
    }

    pub(crate) fn fits(&self, request: &Request<'_>) -> bool
        ensures { result ≡ fits (question_of request.now) (restriction_of self.now) }
    {
        match self {
            What::Dn(style, name) => style.has(name, &request.target),
            What::Filter(filter) => is_true(filter.truth_on(request.entry)),
            What::Attrs(items) => is_any_asked(items, &request.asked),
            What::Open(_) => false,
        }
    }
}

fn is_true(truth: Truth) -> bool
    ensures { result ≡ is_true truth }
{
    matches!(truth, Truth::True)
}

pub(crate) fn is_any_asked(items: &[Asked], asked: &Asked) -> bool
    ensures { result ≡ list_any (λ item. is_asked item asked.now) items.now }
{
    for item in items {
        if is_asked(item, asked) {
            return true;
        }
    }
    false
}

/// Whether an item of `attrs=` is for what is asked.
fn is_asked(item: &Asked, asked: &Asked) -> bool
    ensures { result ≡ is_asked item.now asked.now }
{
    match (item, asked) {
        (Asked::Entry, Asked::Entry) | (Asked::Children, Asked::Children) => true,
        (Asked::Attribute(item), Asked::Attribute(attr)) => item.covers(attr),
        _ => false,
    }
}

impl Style {
    /// Whether a name of this style is for a key.
    pub(crate) fn has(self, name: &DnKey, key: &DnKey) -> bool
        ensures { result ≡ is_of_style self name.now key.now }
    {
        match self {
            Style::Base => key == name,
            Style::One => begins_with(key, name) && key.depth() == name.depth() + 1,
            Style::Subtree => begins_with(key, name),
            Style::Children => begins_with(key, name) && key != name,
        }
    }
}

/// Whether a key is that of a name at or below another.
fn begins_with(key: &DnKey, name: &DnKey) -> bool
    ensures { result ≡ starts_with rdn_key_eq key.now name.now }
{
    key.parts().starts_with(name.parts())
}
