//! Tests of `dir_change`: changes on both sides of each limit, parts of names, and a directory of a plain list.

mod parts;
mod plain;
mod tests;
