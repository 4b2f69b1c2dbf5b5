//! What rules surely grant and what they may grant, where some of their parts aren't decided (slapd.access(5)).

ghost use Rattle.std.specs.List.{list_all, list_any};
ghost use Rattle.std.specs.Prelude.{◌≡◌, ◌↔◌, cond, map, option_copied, true};
ghost use Rattle.dir_acl.specs.Bounds.{MayBeHeld, SurelyHeld, decided, is_attribute, open_what_says, open_who_says, what_says, who_says, with_write};
ghost use Rattle.dir_acl.specs.Decision.{is_asked, named};
ghost use Rattle.dir_acl.specs.Inside.Bounding.{after_clauses, after_rules, all_runs, both_runs, edited_runs, is_possible, is_sure, may_hold, must_hold, no_runs, told_runs, weighed, weighed_clause, without_it};
ghost use Rattle.dir_acl.specs.Inside.OpenRules.{left, parted_at, runs_at, with_taken};
ghost use Rattle.dir_acl.specs.Inside.Requests.{question_of};
ghost use Rattle.dir_acl.specs.Inside.RunningSet.{without};
ghost use Rattle.dir_acl.specs.Decision.{says};
ghost use Rattle.dir_acl.specs.Notes.Halves.{takes_half};
ghost use Rattle.dir_acl.specs.Privileges.{has};
ghost use Rattle.dir_acl.specs.Rules.{clause_of, open_restriction_of, restriction_of, rules_of};
ghost use Rattle.dir_acl.specs.declared.open_rules.Verdict.TheVariants as Verdict;
ghost use Rattle.dir_acl.specs.declared.privileges.Privilege.{Privilege};

use crate::access::decision::is_root;
use crate::access::requester::has_name;
use crate::access::target::is_any_asked;
use crate::access::{Asked, Clause, Control, Edit, OpenWhat, OpenWho, Request, Rule, What, Who};
use crate::note::words::takes_half;
use crate::{Level, Privileges};
use dir_names::DnKey;
use dir_tree::Directory;

/// What a request has whatever the open parts of rules come to, and what it has for some truth values of them.
#[derive(Clone, Copy, PartialEq, Eq, Debug)]
pub struct PrivilegeBounds {
    pub held: Privileges,
    pub possible: Privileges,
}

/// What a part of a rule says for a question.
#[derive(Clone, Copy)]
pub(crate) enum Verdict {
    Holds,
    Fails,
    /// Either may be so.
    Open,
}

/// Whether all parts of a rule or a clause may hold, and whether they must.
#[derive(Clone, Copy)]
struct Weight {
    may: bool,
    must: bool,
}

/// The privileges that are held in some of the runs that come to a place, and those that some of them lack.
#[derive(Clone, Copy)]
struct Runs {
    held: Privileges,
    lacking: Privileges,
}

/// The runs that go on with the later rules, and those that have ended.
#[derive(Clone, Copy)]
struct Parted {
    on: Runs,
    ended: Runs,
}

/// What a request surely has under rules, and what it may have: the privileges that are held whatever truth values the open parts have,
/// and those that are held for some of them. `root` is the rootdn. The call doesn't allocate.
pub(crate) fn bounds_under<D: Directory>(
    root: Option<&DnKey>,
    rules: &[Rule],
    directory: &D,
    request: &Request<'_>,
) -> PrivilegeBounds
    ensures held { (p : Privilege) → (has result.held p ≡ true) ↔ SurelyHeld (D.state directory.now) (option_copied root.entry) (rules_of rules.now) (question_of request.now) p }
    ensures possible { (p : Privilege) → (has result.possible p ≡ true) ↔ MayBeHeld (D.state directory.now) (option_copied root.entry) (rules_of rules.now) (question_of request.now) p }
{
    bounds_by_runs(root, rules, directory, request)
}

/// The same, by the runs through the rules.
fn bounds_by_runs<D: Directory>(
    root: Option<&DnKey>,
    rules: &[Rule],
    directory: &D,
    request: &Request<'_>,
) -> PrivilegeBounds
    ensures held { (p : Privilege) → has result.held p ≡ is_sure (D.state directory.now) (option_copied root.entry) (rules_of rules.now) (question_of request.now) p }
    ensures possible { (p : Privilege) → has result.possible p ≡ is_possible (D.state directory.now) (option_copied root.entry) (rules_of rules.now) (question_of request.now) p }
{
    if is_root(root, request) {
        return PrivilegeBounds {
            held: Privileges::all(),
            possible: Privileges::all(),
        };
    }
    let runs = all_runs(rules, directory, request);
    PrivilegeBounds {
        held: Privileges::all().without(runs.lacking),
        possible: runs.held,
    }
}

/// Without any rule the policy is `access to * by * read`.
fn all_runs<D: Directory>(rules: &[Rule], directory: &D, request: &Request<'_>) -> Runs
    ensures { (p : Privilege) → runs_at result p ≡ all_runs p (map (weighed (D.state directory.now) (question_of request.now)) (rules_of rules.now)) }
{
    if rules.is_empty() {
        let read = Level::Read.privileges();
        return Runs {
            held: read,
            lacking: Privileges::all().without(read),
        };
    }
    let start = Runs {
        held: Privileges::none(),
        lacking: Privileges::all(),
    };
    after_rules(rules, directory, request, start)
}

/// The runs that end in rules, or after them.
fn after_rules<D: Directory>(
    rules: &[Rule],
    directory: &D,
    request: &Request<'_>,
    start: Runs,
) -> Runs
    ensures { (p : Privilege) → runs_at result p ≡ after_rules p (map (weighed (D.state directory.now) (question_of request.now)) (rules_of rules.now)) (runs_at start p) }
{
    let mut live = start;
    let mut ended = Runs::none();
    for rule in rules {
        let weight = weight_of_what(rule.what.as_slice(), request);
        let parted = after_clauses(
            rule.clauses.as_slice(),
            directory,
            request,
            live.if_so(weight.may),
        );
        ended = ended.both(parted.ended);
        live = parted.on.both(live.if_so(!weight.must));
    }
    ended.both(live.without_all())
}

/// The runs through the clauses of a rule.
fn after_clauses<D: Directory>(
    clauses: &[Clause],
    directory: &D,
    request: &Request<'_>,
    start: Runs,
) -> Parted
    ensures { (p : Privilege) → parted_at result p ≡ after_clauses p (map (weighed_clause (D.state directory.now) (question_of request.now)) (map clause_of clauses.now)) (runs_at start p) }
{
    let mut live = start;
    let mut parted = Parted {
        on: Runs::none(),
        ended: Runs::none(),
    };
    for clause in clauses {
        let weight = weight_of_who(clause.who.as_slice(), directory, request);
        let taken = live.if_so(weight.may).edited_either(clause.edit);
        let passed = live.if_so(!weight.must);
        parted = parted.with(clause.control, taken);
        live = left(clause.control, taken, passed);
    }
    Parted {
        on: parted.on,
        ended: parted.ended.both(live.without_all()),
    }
}

/// The runs for which the later clauses are gone through.
fn left(control: Control, taken: Runs, passed: Runs) -> Runs
    ensures { (p : Privilege) → runs_at result p ≡ left control (runs_at taken p) (runs_at passed p) }
{
    match control {
        Control::Stop | Control::Break => passed,
        Control::Continue => taken.both(passed),
    }
}

fn weight_of_what(parts: &[What], request: &Request<'_>) -> Weight
    ensures may { result.may ≡ list_all (may_hold (what_says (question_of request.now))) (map restriction_of parts.now) }
    ensures must { result.must ≡ list_all (must_hold (what_says (question_of request.now))) (map restriction_of parts.now) }
{
    let mut must = true;
    for part in parts {
        match part.said(request) {
            Verdict::Holds => {}
            Verdict::Fails => return Weight::NOTHING,
            Verdict::Open => must = false,
        }
    }
    Weight { may: true, must }
}

fn weight_of_who<D: Directory>(parts: &[Who], directory: &D, request: &Request<'_>) -> Weight
    ensures may { result.may ≡ list_all (may_hold (who_says (D.state directory.now) (question_of request.now))) parts.now }
    ensures must { result.must ≡ list_all (must_hold (who_says (D.state directory.now) (question_of request.now))) parts.now }
{
    let mut must = true;
    for part in parts {
        match part.said(directory, request) {
            Verdict::Holds => {}
            Verdict::Fails => return Weight::NOTHING,
            Verdict::Open => must = false,
        }
    }
    Weight { may: true, must }
}

impl What {
    fn said(&self, request: &Request<'_>) -> Verdict
        ensures { result ≡ what_says (question_of request.now) (restriction_of self.now) }
    {
        match self {
            What::Dn(..) | What::Filter(_) | What::Attrs(_) => Verdict::of(self.fits(request)),
            What::Open(what) => what.said(request),
        }
    }
}

impl OpenWhat {
    fn said(&self, request: &Request<'_>) -> Verdict
        ensures { result ≡ open_what_says (question_of request.now) (open_restriction_of self.now) }
    {
        match self {
            OpenWhat::Name | OpenWhat::Filter | OpenWhat::Value => Verdict::Open,
            OpenWhat::Types(items) => said_by_items(
                items,
                &request.asked,
                said_of_attributes(&request.asked),
            ),
            OpenWhat::Classes(items) => said_by_items(items, &request.asked, Verdict::Open),
        }
    }
}

/// What a list says of what is asked: that it has it, where an item covers it.
fn said_by_items(items: &[Asked], asked: &Asked, otherwise: Verdict) -> Verdict
    ensures { result ≡ cond (list_any (λ item. is_asked item asked.now) items.now) Verdict.Holds otherwise }
{
    if is_any_asked(items, asked) {
        Verdict::Holds
    } else {
        otherwise
    }
}

fn said_of_attributes(asked: &Asked) -> Verdict
    ensures { result ≡ cond (is_attribute asked.now) Verdict.Open Verdict.Fails }
{
    match asked {
        Asked::Entry | Asked::Children => Verdict::Fails,
        Asked::Attribute(_) => Verdict::Open,
    }
}

impl Who {
    fn said<D: Directory>(&self, directory: &D, request: &Request<'_>) -> Verdict
        ensures { result ≡ who_says (D.state directory.now) (question_of request.now) self.now }
    {
        match self {
            Who::Anyone
            | Who::Anonymous
            | Who::Users
            | Who::Myself
            | Who::Dn(..)
            | Who::DnAttr(_)
            | Who::Group(..) => Verdict::of(self.holds(directory, request)),
            Who::Open(who) => who.said(request),
        }
    }
}

impl OpenWho {
    fn said(&self, request: &Request<'_>) -> Verdict
        ensures { result ≡ open_who_says (question_of request.now) (named request.now.requester) self.now }
    {
        match (self, request.named()) {
            (OpenWho::Anybody, _) => Verdict::Open,
            (_, None) => Verdict::Fails,
            (OpenWho::Somebody, Some(_)) => Verdict::Open,
            (OpenWho::DnAttr(attr), Some(name)) => {
                if has_name(attr, name, request.entry) {
                    Verdict::Holds
                } else {
                    Verdict::Open
                }
            }
        }
    }
}

impl Verdict {
    fn of(holds: bool) -> Verdict
        ensures { result ≡ decided holds }
    {
        if holds {
            Verdict::Holds
        } else {
            Verdict::Fails
        }
    }
}

impl Weight {
    const NOTHING: Weight = Weight {
        may: false,
        must: false,
    };
}

impl Parted {
    /// With the runs that take a clause of this control.
    fn with(self, control: Control, taken: Runs) -> Parted
        ensures { (p : Privilege) → parted_at result p ≡ with_taken control (parted_at self p) (runs_at taken p) }
    {
        match control {
            Control::Stop => Parted {
                on: self.on,
                ended: self.ended.both(taken),
            },
            Control::Break => Parted {
                on: self.on.both(taken),
                ended: self.ended,
            },
            Control::Continue => self,
        }
    }
}

impl Runs {
    fn none() -> Runs
        ensures { (p : Privilege) → runs_at result p ≡ no_runs }
    {
        Runs {
            held: Privileges::none(),
            lacking: Privileges::none(),
        }
    }

    /// These runs, or none.
    fn if_so(self, is: bool) -> Runs
        ensures { (p : Privilege) → runs_at result p ≡ cond is (runs_at self p) no_runs }
    {
        if is { self } else { Runs::none() }
    }

    fn both(self, other: Runs) -> Runs
        ensures { (p : Privilege) → runs_at result p ≡ both_runs (runs_at self p) (runs_at other p) }
    {
        Runs {
            held: self.held.joined(other.held),
            lacking: self.lacking.joined(other.lacking),
        }
    }

    /// They lose all privileges.
    fn without_all(self) -> Runs
        ensures { (p : Privilege) → runs_at result p ≡ without_it (runs_at self p) }
    {
        Runs {
            held: Privileges::none(),
            lacking: self.held.joined(self.lacking),
        }
    }

    /// One that takes one of `a` and `z` away may take the other one too.
    fn edited_either(self, edit: Edit) -> Runs
        ensures { (p : Privilege) → runs_at result p ≡ edited_runs edit p (runs_at self p) }
    {
        let edited = self.edited(edit);
        if takes_half(edit) {
            edited.both(self.edited(with_write(edit)))
        } else {
            edited
        }
    }

    fn edited(self, edit: Edit) -> Runs
        ensures { (p : Privilege) → runs_at result p ≡ told_runs (says edit p) (runs_at self p) }
    {
        let any = self.held.joined(self.lacking);
        match edit {
            Edit::Set(new) => Runs {
                held: any.common(new),
                lacking: any.without(new),
            },
            Edit::Add(more) => Runs {
                held: self.held.joined(any.common(more)),
                lacking: self.lacking.without(more),
            },
            Edit::Remove(less) => Runs {
                held: self.held.without(less),
                lacking: self.lacking.joined(any.common(less)),
            },
        }
    }
}

/// What an edit takes away, and `a` and `z` with it.
fn with_write(edit: Edit) -> Edit
    ensures { result ≡ with_write edit }
{
    match edit {
        Edit::Set(_) | Edit::Add(_) => edit,
        Edit::Remove(set) => Edit::Remove(Privileges {
            add: true,
            delete: true,
            ..set
        }),
    }
}

impl Privileges {
    /// The privileges of both.
    fn common(self, other: Privileges) -> Privileges
        ensures { result ≡ without self (without self other) }
    {
        self.without(self.without(other))
    }
}
