//! Tests of `dir_tools`: runs and questions with the texts that they are to write, faults, devices that fail, and runs at random.

mod access;
mod asking;
mod failing;
mod fault_arguments;
mod fault_texts;
mod flat;
mod holding;
mod random;
mod round_trip;
mod running;
mod runs;
mod runs_back;
