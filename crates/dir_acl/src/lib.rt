//! What a slapd.conf grants: search filters, access rules, the decisions that they come to, and the configuration that
//! has them (RFC 4515; slapd.access(5), slapd.conf(5)).
#![tactic(auto)]

mod access;
mod config;
mod deciding;
mod fault;
mod filter;
mod laws;
mod note;
mod open_rules;
mod privileges;

pub use access::target_rules::TargetRules;
pub use access::{
    Asked, Clause, Control, Edit, OpenWhat, OpenWho, Request, Rule, Style, What, Who,
};
pub use config::opening::OpenConfig;
pub use config::types::{read_schema, types_of_text};
pub use config::{Config, cut_config};
pub use deciding::{FaultArgument, fault_argument};
pub use fault::{ConfigCause, ConfigFault, FilterFault};
pub use filter::truth::Truth;
pub use filter::{Filter, Matching, Pieces, Test};
pub use laws::{
    bounds_are_exact, cuts_are_found, decided_rules_are_granted, known_rules_are_granted,
    privileges_read_back, reading_is_the_grammar, rules_without_notes_are_understood,
};
pub use note::{Note, NoteCause};
pub use open_rules::PrivilegeBounds;
pub use privileges::{Level, Privilege, Privileges};
