//! Tests of `dir_questions`: what files of questions are answered, their faults, texts that are cut, and devices that fail.

mod answers;
mod devices;
mod faults;
mod make;
mod notes;
