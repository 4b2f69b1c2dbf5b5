//! Which privileges a request has.

ghost use Rattle.std.specs.Prelude.{◌≡◌, filter, map, option_copied};
ghost use Rattle.dir_acl.specs.Decision.{all_edits, applies, edits_of, edits_of_rules, ends_in_break, is_granted, is_root_for, named, rule_fits};
ghost use Rattle.dir_acl.specs.Inside.Requests.{question_of};
ghost use Rattle.dir_acl.specs.Inside.RunningSet.{after_edits, edited, joined, without};
ghost use Rattle.dir_acl.specs.Privileges.{has, no_privileges};
ghost use Rattle.dir_acl.specs.Rules.{clause_of, rules_of};
ghost use Rattle.dir_acl.specs.declared.privileges.Privilege.{Privilege};

use crate::access::{Clause, Control, Edit, Request, Rule};
use crate::{Level, Privileges};
use dir_names::DnKey;
use dir_tree::Directory;

/// The privileges of a request under a list of rules, in their order. `root` is the rootdn. The call doesn't
/// allocate.
pub(crate) fn privileges_under<D: Directory>(
    root: Option<&DnKey>,
    rules: &[Rule],
    directory: &D,
    request: &Request<'_>,
) -> Privileges
    ensures { (p : Privilege) → has result p ≡ is_granted (D.state directory.now) (option_copied root.entry) (rules_of rules.now) (question_of request.now) p }
{
    if is_root(root, request) {
        return Privileges::all();
    }
    if rules.is_empty() {
        return Level::Read.privileges();
    }
    under_rules(rules, directory, request)
}

pub(crate) fn is_root(root: Option<&DnKey>, request: &Request<'_>) -> bool
    ensures { result ≡ is_root_for (option_copied root.entry) (named request.now.requester) }
{
    match (root, request.named()) {
        (Some(root), Some(name)) => name == root,
        _ => false,
    }
}

/// What the rules give, one after the other.
#[tactic(auto, using(crate::proofs::RunningSets::rule_rules))]
fn under_rules<D: Directory>(rules: &[Rule], directory: &D, request: &Request<'_>) -> Privileges
    ensures { result ≡ after_edits no_privileges (edits_of_rules (D.state directory.now) (question_of request.now) (filter (rule_fits (question_of request.now)) (rules_of rules.now))) }
{
    let mut held = Privileges::none();
    for rule in rules {
        if rule.fits(request) {
            let (after, goes_on) = after_clauses(rule.clauses.as_slice(), directory, request, held);
            if !goes_on {
                return after;
            }
            held = after;
        }
    }
    Privileges::none()
}

/// The privileges after the clauses that apply, and whether they end in `break`.
#[tactic(auto, using(crate::proofs::RunningSets::clause_rules))]
pub(crate) fn after_clauses<D: Directory>(
    clauses: &[Clause],
    directory: &D,
    request: &Request<'_>,
    before: Privileges,
) -> (Privileges, bool)
    ensures held { result.0 ≡ after_edits before (edits_of (filter (applies (D.state directory.now) (question_of request.now)) (map clause_of clauses.now))) }
    ensures goes_on { result.1 ≡ ends_in_break (filter (applies (D.state directory.now) (question_of request.now)) (map clause_of clauses.now)) }
{
    let mut held = before;
    for clause in clauses {
        if clause.applies(directory, request) {
            held = held.edited(clause.edit);
            match clause.control {
                Control::Stop => return (held, false),
                Control::Continue => {}
                Control::Break => return (held, true),
            }
        }
    }
    (Privileges::none(), false)
}

impl Privileges {
    fn edited(self, edit: Edit) -> Privileges
        ensures { result ≡ edited self edit }
    {
        match edit {
            Edit::Set(new) => new,
            Edit::Add(more) => self.joined(more),
            Edit::Remove(less) => self.without(less),
        }
    }

    pub(crate) fn joined(self, more: Privileges) -> Privileges
        ensures { result ≡ joined self more }
    {
        Privileges {
            manage: self.manage | more.manage,
            add: self.add | more.add,
            delete: self.delete | more.delete,
            read: self.read | more.read,
            search: self.search | more.search,
            compare: self.compare | more.compare,
            auth: self.auth | more.auth,
            disclose: self.disclose | more.disclose,
        }
    }

    pub(crate) fn without(self, less: Privileges) -> Privileges
        ensures { result ≡ without self less }
    {
        Privileges {
            manage: self.manage & !less.manage,
            add: self.add & !less.add,
            delete: self.delete & !less.delete,
            read: self.read & !less.read,
            search: self.search & !less.search,
            compare: self.compare & !less.compare,
            auth: self.auth & !less.auth,
            disclose: self.disclose & !less.disclose,
        }
    }
}
