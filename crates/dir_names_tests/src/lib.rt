//! Tests of `dir_names`: worked examples, limits, and vectors of Unicode's case folding and NFKC. They are a crate of
//! their own, so that the proof of `dir_names` is made once, without them.
#![tactic(auto)]

#[cfg(test)]
mod added_types;
#[cfg(test)]
mod copies;
#[cfg(test)]
mod definitions;
#[cfg(test)]
mod descriptions;
#[cfg(test)]
mod faults;
#[cfg(test)]
mod limits;
#[cfg(test)]
mod make;
#[cfg(test)]
mod names;
#[cfg(test)]
mod parents;
#[cfg(test)]
mod rdns;
#[cfg(test)]
mod reader;
#[cfg(test)]
mod reading;
#[cfg(test)]
mod recent;
#[cfg(test)]
mod recent_parents;
#[cfg(test)]
mod types;
#[cfg(test)]
mod values;
