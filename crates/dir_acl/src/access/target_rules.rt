//! The rules of a configuration, for many questions about one target. A rule is tried when a question comes to it, and
//! what that told of the target is remembered for the later questions.

ghost use Rattle.std.specs.Prelude.{◌≡◌, Some, filter, option_copied, slice_get};
ghost use Rattle.dir_acl.specs.Decision.{edits_of_rules, is_granted, rule_fits};
ghost use Rattle.dir_acl.specs.Inside.Fakes.{attributes_of};
ghost use Rattle.dir_acl.specs.Inside.ReadingConfig.{configuration_of};
ghost use Rattle.dir_acl.specs.Inside.Requests.{question_of};
ghost use Rattle.dir_acl.specs.Inside.RunningSet.{after_edits};
ghost use Rattle.dir_acl.specs.Privileges.{has, no_privileges};
ghost use Rattle.dir_acl.specs.Rules.{rule_of, rules_of};
ghost use Rattle.dir_acl.specs.TargetRules.{AreKnownOf, IsKnownAt, rule_is_for};
ghost use Rattle.dir_acl.specs.declared.privileges.Privilege.{Privilege};

use crate::access::decision::{after_clauses, is_root};
use crate::access::target::ForTarget;
use crate::access::{Request, Rule};
use crate::{Config, Level, Privileges};
use dir_names::DnKey;
use dir_tree::{Directory, Entry};
use std::alloc::Global;

/// The rules of a configuration, for questions about one target.
#[derive(Drop)]
pub struct TargetRules<'a> {
    config: &'a Config,
    target: &'a DnKey,
    entry: Option<&'a Entry>,
    // what is known of each of the first rules, as far as questions have come
    known: Vec<ForTarget>,
    ghost are_known: { AreKnownOf (rule_is_for target.now (attributes_of (option_copied entry))) (configuration_of config.now).rules known.items },
}

impl Config {
    ghost use Rattle.dir_acl.specs.RulesFor.{IsRulesFor};

    /// The rules, for questions about a target. `entry` is the target's entry, or `None` for one that is made up. No
    /// rule is tried yet.
    pub fn rules_for<'a>(
        &'a self,
        alloc: Global,
        target: &'a DnKey,
        entry: Option<&'a Entry>,
    ) -> TargetRules<'a>
        ensures config { result.config.now ≡ self.now }
        ensures target { IsRulesFor target.now (attributes_of (option_copied entry.entry)) result }
    {
        TargetRules {
            config: self,
            target,
            entry,
            known: Vec::new(alloc),
        }
    }
}

impl TargetRules<'_> {
    ghost use Rattle.dir_acl.specs.RulesFor.{IsRulesFor};

    /// The privileges of a request for the target of these rules. No part of a rule is tried that `Config::privileges`
    /// would not try, nor a name or a filter of one of which an earlier question told whether it is for the target.
    /// Where there is no memory to remember that, the rule is tried again.
    pub fn privileges<D: Directory>(&mut self, directory: &D, request: &Request<'_>) -> Privileges
        requires { IsRulesFor (question_of request.now).target (question_of request.now).attributes self.old }
        ensures granted { (p : Privilege) → has result p ≡ is_granted (D.state directory.now) (configuration_of self.old.config.now).root (configuration_of self.old.config.now).rules (question_of request.now) p }
        ensures config { self.new.config.now ≡ self.old.config.now }
        ensures target { IsRulesFor (question_of request.now).target (question_of request.now).attributes self.new }
    {
        let config = self.config;
        if is_root(config.root(), request) {
            return Privileges::all();
        }
        let rules = config.rules();
        if rules.is_empty() {
            return Level::Read.privileges();
        }
        self.under_rules(rules, directory, request)
    }

    /// What the rules give, one after the other.
    #[tactic(auto, using(crate::proofs::RunningSets::rule_rules))]
    fn under_rules<D: Directory>(
        &mut self,
        rules: &[Rule],
        directory: &D,
        request: &Request<'_>,
    ) -> Privileges
        requires rules { rules_of rules.now ≡ (configuration_of self.old.config.now).rules }
        requires target { IsRulesFor (question_of request.now).target (question_of request.now).attributes self.old }
        ensures held { result ≡ after_edits no_privileges (edits_of_rules (D.state directory.now) (question_of request.now) (filter (rule_fits (question_of request.now)) (rules_of rules.now))) }
        ensures config { self.new.config.now ≡ self.old.config.now }
        ensures target { IsRulesFor (question_of request.now).target (question_of request.now).attributes self.new }
    {
        let mut held = Privileges::none();
        for (index, rule) in rules.iter().enumerate() {
            if self.fits(index, rule, request) {
                let (after, goes_on) = after_clauses(
                    rule.clauses.as_slice(),
                    directory,
                    request,
                    held,
                );
                if !goes_on {
                    return after;
                }
                held = after;
            }
        }
        Privileges::none()
    }

    /// Whether the rule at an index fits a request for the target. What is known of the rule answers for it, and where
    /// that is nothing yet, it is tried.
    fn fits(&mut self, index: usize, rule: &Rule, request: &Request<'_>) -> bool
        requires at { slice_get (configuration_of self.old.config.now).rules index ≡ Some (rule_of rule.now) }
        requires target { IsRulesFor (question_of request.now).target (question_of request.now).attributes self.old }
        ensures fits { result ≡ rule_fits (question_of request.now) (rule_of rule.now) }
        ensures config { self.new.config.now ≡ self.old.config.now }
        ensures target { IsRulesFor (question_of request.now).target (question_of request.now).attributes self.new }
    {
        match self.known_of(index) {
            ForTarget::No => false,
            ForTarget::Yes => rule.allows_asked(&request.asked),
            ForTarget::NotYetKnown => {
                let (fits, for_target) = rule.trial(self.target, self.entry, &request.asked);
                self.remember(index, for_target);
                fits
            }
        }
    }

    /// What is known of the rule at an index.
    fn known_of(&self, index: usize) -> ForTarget
        ensures { IsKnownAt (rule_is_for self.now.target.now (attributes_of (option_copied self.now.entry))) (configuration_of self.now.config.now).rules index result }
    {
        self.known
            .get(index)
            .copied()
            .unwrap_or(ForTarget::NotYetKnown)
    }

    /// Remembers what is known of the rule at an index, if there is memory for it.
    fn remember(&mut self, index: usize, for_target: ForTarget)
        requires { IsKnownAt (rule_is_for self.old.target.now (attributes_of (option_copied self.old.entry))) (configuration_of self.old.config.now).rules index for_target }
        ensures config { self.new.config.now ≡ self.old.config.now }
        ensures target { IsRulesFor self.old.target.now (attributes_of (option_copied self.old.entry)) self.new }
    {
        if index < self.known.len() {
            self.known[index] = for_target;
        } else if index == self.known.len() {
            let _ = self.known.push(for_target);
        }
    }
}
