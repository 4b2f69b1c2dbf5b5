//! Access rules and what they grant (slapd.access(5)). `decision` has the call that decides.

pub(crate) mod decision;
pub(crate) mod requester;
pub(crate) mod target;
pub(crate) mod target_rules;

ghost use Rattle.std.specs.Prelude.{◌≡◌, IfOk};

use crate::{Filter, Privileges};
use dir_names::{AttrKey, DnKey, Memory, ValueKey};
use dir_tree::Entry;
use std::alloc::Global;

/// Which names a name is for.
#[derive(Clone, Copy, PartialEq, Eq, Debug)]
pub enum Style {
    /// The name itself.
    Base,
    /// Its children.
    One,
    /// The name, and all below it.
    Subtree,
    /// All below it.
    Children,
}

/// What of an entry access is asked for.
#[derive(Debug, Drop)]
pub enum Asked {
    /// The entry itself: the pseudo attribute `entry`.
    Entry,
    /// Its children: the pseudo attribute `children`.
    Children,
    /// One of its attributes.
    Attribute(AttrKey),
}

impl Asked {
    /// A copy in memory of its own.
    ///
    /// # Errors
    ///
    /// Memory ran out.
    pub fn try_clone(&self, alloc: Global) -> Result<Asked, Memory>
        ensures { IfOk result (λ clone. clone ≡ self.now) }
    {
        match self {
            Asked::Entry => Ok(Asked::Entry),
            Asked::Children => Ok(Asked::Children),
            Asked::Attribute(key) => match key.try_clone(alloc) {
                Ok(key) => Ok(Asked::Attribute(key)),
                Err(_) => Err(Memory),
            },
        }
    }
}

/// A part of the `<what>` of a rule. The word `*` is none: it restricts nothing.
#[derive(Debug, Drop)]
pub enum What {
    /// `dn[.STYLE]=NAME`
    Dn(Style, DnKey),
    /// `filter=FILTER`
    Filter(Filter),
    /// `attrs=LIST`
    Attrs(Vec<Asked>),
    /// A form that isn't decided. A decision takes it as one that doesn't fit; `OpenConfig` alone has such parts.
    Open(OpenWhat),
}

/// A part of the `<what>` of a rule in a form that isn't decided: it may fit or not.
#[derive(Debug, Drop)]
pub enum OpenWhat {
    /// `dn.STYLE=PATTERN`, as `dn.regex` is.
    Name,
    /// `filter=FILTER`, of a filter with a test that isn't decided.
    Filter,
    /// `val[/RULE][.STYLE]=VALUE`
    Value,
    /// `attrs=LIST` of these items: the type of one isn't known, or others are derived from it. So an attribute that none of them covers
    /// may be one of the list.
    Types(Vec<Asked>),
    /// `attrs=LIST` of these items and of object classes: all else that may be asked for may be one of the list.
    Classes(Vec<Asked>),
}

/// A part of the `<who>` of a clause.
#[derive(Debug, Drop)]
pub enum Who {
    /// `*`
    Anyone,
    /// `anonymous`: a requester without a name.
    Anonymous,
    /// `users`: a requester with a name.
    Users,
    /// `self`: the requester is the target.
    Myself,
    /// `dn[.STYLE]=NAME`
    Dn(Style, DnKey),
    /// `dnattr=DESCRIPTION`: the target has the requester as a value.
    DnAttr(AttrKey),
    /// `group[/CLASS[/ATTR]]=NAME`: the entry of this name has this value of this attribute as its class, and the
    /// requester as a value of the last attribute.
    Group(DnKey, AttrKey, ValueKey, AttrKey),
    /// A form that isn't decided. A decision takes it as one that doesn't hold; `OpenConfig` alone has such parts.
    Open(OpenWho),
}

/// A part of the `<who>` of a clause in a form that isn't decided: it may hold or not.
#[derive(Debug, Drop)]
pub enum OpenWho {
    /// Of any requester, as `ssf=128` is.
    Anybody,
    /// Of a requester with a name, as a group is.
    Somebody,
    /// `dnattr=DESCRIPTION`, of a type from which others are derived: a requester that no value of its own names may be named by one of
    /// theirs.
    DnAttr(AttrKey),
}

/// What a clause does to the privileges that were given before it.
#[derive(Clone, Copy, PartialEq, Eq, Debug)]
pub enum Edit {
    /// `=`, or a level
    Set(Privileges),
    /// `+`
    Add(Privileges),
    /// `-`
    Remove(Privileges),
}

/// What comes after a clause that applies.
#[derive(Clone, Copy, PartialEq, Eq, Debug)]
pub enum Control {
    /// Nothing more.
    Stop,
    /// The later clauses of the rule.
    Continue,
    /// The later rules.
    Break,
}

/// A clause `by <who> [<access>] [<control>]`.
#[derive(Debug, Drop)]
pub struct Clause {
    pub who: Vec<Who>,
    pub edit: Edit,
    pub control: Control,
}

/// A rule `access to <what> [by <who> [<access>] [<control>]]+`.
#[derive(Debug, Drop)]
pub struct Rule {
    pub what: Vec<What>,
    pub clauses: Vec<Clause>,
}

/// Who asks, and for what.
#[derive(Debug)]
pub struct Request<'e> {
    /// The requester's name. `None`, or a name without RDNs, is nobody's.
    pub requester: Option<DnKey>,
    pub target: DnKey,
    /// The target's entry, or `None` for one that is made up, without attributes.
    pub entry: Option<&'e Entry>,
    pub asked: Asked,
}

// Written out, so that a drop is one call in proofs (docs/CONTRIBUTING.md).
impl Drop for Request<'_> {
    fn drop(self) {
        let Request {
            requester,
            target,
            entry: _,
            asked,
        } = self;
        drop(requester);
        drop(target);
        drop(asked);
    }
}
