//! Tests of `dir_ldif`, `dir_change`, `dir_conf_text`, `dir_acl`, `dir_conf`, `dir_tools` and `dir_questions`, a module for each. They are one crate of their own: so the
//! proof of each of those is made once, without its tests, and what all of them stand on is loaded and compiled once.
#![tactic(auto)]

#[cfg(test)]
mod acl;
#[cfg(test)]
mod change;
#[cfg(test)]
mod conf;
#[cfg(test)]
mod conf_text;
#[cfg(test)]
mod ldif;
#[cfg(test)]
mod questions;
#[cfg(test)]
mod tools;
