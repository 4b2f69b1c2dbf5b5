//! Tests of `dir_conf`: flat configurations of texts and of files, with their faults, and what `dir_acl` reads of one.

mod configs;
mod files;
mod flat;
