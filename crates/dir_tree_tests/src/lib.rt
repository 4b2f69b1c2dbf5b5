//! Tests of `dir_tree`: entries, their maps and fields, and both directories by the same functions. They are a crate of
//! their own, so that the proof of `dir_tree` is made once, without them.
#![tactic(auto)]

#[cfg(test)]
mod alike;
#[cfg(test)]
mod attributes;
#[cfg(test)]
mod directories;
#[cfg(test)]
mod entries;
#[cfg(test)]
mod exchanged_parts;
#[cfg(test)]
mod faults;
#[cfg(test)]
mod levels;
#[cfg(test)]
mod make;
#[cfg(test)]
mod makers;
#[cfg(test)]
mod maps;
#[cfg(test)]
mod moves;
#[cfg(test)]
mod parts;
#[cfg(test)]
mod script;
#[cfg(test)]
mod values;
#[cfg(test)]
mod views;
