//! Whom a clause is for: its `<who>`.

ghost use Rattle.std.specs.Prelude.{◌≡◌, ◌==◌, None, Some, cond, length, option_copied};
ghost use Rattle.dir_acl.specs.Decision.{applies, has_name, holds_for, holds_of, named};
ghost use Rattle.dir_acl.specs.Inside.Fakes.{attributes_of};
ghost use Rattle.dir_acl.specs.Inside.Requests.{question_of};
ghost use Rattle.dir_acl.specs.Rules.{clause_of};

use crate::access::{Clause, Request, Who};
use dir_names::{AttrKey, DnKey};
use dir_tree::{Directory, Entry};

impl<'e> Request<'e> {
    /// The requester's name, if it is somebody's.
    pub(crate) fn named(&self) -> Option<&DnKey>
        ensures { option_copied result ≡ named self.now.requester }
    {
        match &self.requester {
            Some(name) => somebody(name),
            None => None,
        }
    }
}

fn somebody(name: &DnKey) -> Option<&DnKey>
    ensures { option_copied result ≡ cond (length name.now == 0) None (Some name.now) }
{
    if name.depth() == 0 { None } else { Some(name) }
}

impl Clause {
    /// Whether the clause is for the requester.
    pub(crate) fn applies<D: Directory>(&self, directory: &D, request: &Request<'_>) -> bool
        ensures { result ≡ applies (D.state directory.now) (question_of request.now) (clause_of self.now) }
    {
        for who in &self.who {
            if !who.holds(directory, request) {
                return false;
            }
        }
        true
    }
}

impl Who {
    pub(crate) fn holds<D: Directory>(&self, directory: &D, request: &Request<'_>) -> bool
        ensures { result ≡ holds_for (D.state directory.now) (question_of request.now) (named request.now.requester) self.now }
    {
        match request.named() {
            Some(name) => self.holds_of(directory, request, name),
            None => matches!(self, Who::Anyone | Who::Anonymous),
        }
    }

    fn holds_of<D: Directory>(&self, directory: &D, request: &Request<'_>, name: &DnKey) -> bool
        ensures { result ≡ holds_of (D.state directory.now) (question_of request.now) self.now name.now }
    {
        match self {
            Who::Anyone | Who::Users => true,
            Who::Anonymous | Who::Open(_) => false,
            Who::Myself => name == &request.target,
            Who::Dn(style, other) => style.has(other, name),
            Who::DnAttr(attr) => has_name(attr, name, request.entry),
            Who::Group(group, class_attr, class, member) => match directory.get(group) {
                Some(entry) => entry.has(class_attr, class) && has_name(member, name, Some(entry)),
                None => false,
            },
        }
    }
}

/// Whether an attribute that the description covers has the name as a value.
pub(crate) fn has_name(attr: &AttrKey, name: &DnKey, entry: Option<&Entry>) -> bool
    ensures { result ≡ has_name attr.now name.now (attributes_of (option_copied entry.entry)) }
{
    match entry {
        Some(entry) => has_name_in(attr, name, entry),
        None => false,
    }
}

fn has_name_in(attr: &AttrKey, name: &DnKey, entry: &Entry) -> bool
    ensures { result ≡ has_name attr.now name.now entry.now.attributes }
{
    for (key, attribute) in entry.attributes() {
        if attr.covers(key) && attribute.has_name(name) {
            return true;
        }
    }
    false
}
