//! One flat slapd.conf (slapd.conf(5)) of what a site's configuration says of one database: its attribute types, suffixes, rootdn and access
//! rules.
#![tactic(auto)]

mod cn_config;
mod fault;
mod flat;
mod laws;
mod own_types;
mod site;
mod slapd_conf;
mod suffixes;

pub use cn_config::flat_of_config;
pub use fault::ConfFault;
pub use flat::{Flat, flat_text};
pub use laws::{flat_configs_are_read, flat_files_are_read, flat_texts_are_read};
pub use site::{Directive, Line, Site, Tally};
pub use slapd_conf::files::{ConfFile, MAX_INCLUDE_DEPTH, includes_in};
pub use slapd_conf::{FileFault, flat_of_files};
pub use suffixes::{suffixes_of_config, suffixes_of_files};
