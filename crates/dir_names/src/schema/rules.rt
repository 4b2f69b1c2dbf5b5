//! The matching rules that are told apart, by name (RFC 4517, section 4.2).

ghost use Rattle.std.specs.Prelude.{◌≡◌, map};
ghost use Rattle.dir_names.specs.Inside.Rows.{named_rule};
ghost use Rattle.dir_names.specs.Types.Adding.{base_rules, equality_rules, or_octet, rule_listed};

use crate::Rule;

/// A name and its rule.
#[derive(Clone, Copy)]
pub(crate) struct NamedRule {
    pub name: &'static str,
    pub rule: Rule,
}

const EQUALITY_RULES: [NamedRule; 8] = [
    NamedRule {
        name: "caseIgnoreMatch",
        rule: Rule::CaseIgnore,
    },
    NamedRule {
        name: "caseIgnoreIA5Match",
        rule: Rule::Ia5CaseIgnore,
    },
    NamedRule {
        name: "caseExactIA5Match",
        rule: Rule::Ia5CaseExact,
    },
    NamedRule {
        name: "telephoneNumberMatch",
        rule: Rule::Telephone,
    },
    NamedRule {
        name: "integerMatch",
        rule: Rule::Integer,
    },
    NamedRule {
        name: "distinguishedNameMatch",
        rule: Rule::Name,
    },
    NamedRule {
        name: "octetStringMatch",
        rule: Rule::Octet,
    },
    NamedRule {
        name: "objectIdentifierMatch",
        rule: Rule::ObjectId,
    },
];

/// The types that others are derived from (RFC 4519, sections 2.7 and 2.18).
const BASE_RULES: [NamedRule; 2] = [
    NamedRule {
        name: "name",
        rule: Rule::CaseIgnore,
    },
    NamedRule {
        name: "distinguishedName",
        rule: Rule::Name,
    },
];

/// The rule of this name, in any ASCII case; values are compared byte by byte by any other.
pub(crate) fn rule_of_match(word: &[u8]) -> Rule
    ensures { result ≡ or_octet (rule_listed equality_rules word.now) }
{
    listed(&EQUALITY_RULES, word).unwrap_or(Rule::Octet)
}

/// The rule of a type that others are derived from.
pub(crate) fn rule_of_base(word: &[u8]) -> Option<Rule>
    ensures { result ≡ rule_listed base_rules word.now }
{
    listed(&BASE_RULES, word)
}

fn listed(rules: &[NamedRule], word: &[u8]) -> Option<Rule>
    ensures { result ≡ rule_listed (map named_rule rules.now) word.now }
{
    for rule in rules {
        if rule.name.as_bytes().eq_ignore_ascii_case(word) {
            return Some(rule.rule);
        }
    }
    None
}
