//! Tests of `dir_files`: runs, flat configurations, questions and files of them over a folder in memory, which tells its calls, paths that must differ, and
//! texts. They are a crate of their own, and not a part of `kit_tests`, which is so proved while `dir_files` is.
#![tactic(auto)]

#[cfg(test)]
mod counting;
#[cfg(test)]
mod folder;
#[cfg(test)]
mod questions;
#[cfg(test)]
mod runs;
#[cfg(test)]
mod sites;
#[cfg(test)]
mod suites;
#[cfg(test)]
mod texts;
