//! Tests of `dir_acl`: a call of each of its functions, types for which memory ran out, what the program doesn't show, and rules
//! with open parts. What rules grant, faults and notes are tried through the program, by `tests/trial/questions.py`.

mod bounds;
mod config_types;
mod configs;
mod filters;
mod grants;
mod make;
mod open_forms;
mod refused;
pub(crate) mod words;
