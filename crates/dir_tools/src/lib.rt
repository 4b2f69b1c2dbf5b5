//! The tools over any readers and writers: `run_modify` applies changes to a copy of a directory and
//! writes the new copy, the undo text and the report; `run_acl` reports what a requester may do.
#![tactic(auto)]

mod acl;
mod canonical;
mod copy;
mod fault;
mod held;
mod laws;
mod memory;
mod modify;
mod report;
mod round_trip;
mod run;
mod taking;
mod write;

pub use acl::{
    FaultWithArgument, NotedConfig, Question, Word, find_target, push_answer, read_bounded,
    read_config, read_config_with_argument, read_copy_under, read_name, read_word, run_acl,
    run_acl_under, run_schema, with_note_on_word, with_notes_on_words,
};
pub use copy::{read_copy, write_copy};
pub use fault::{Cause, Input, Item, Number, Output, ToolFault};
pub use held::HeldMemory;
pub use laws::{
    access_is_as_before, canonical_texts_read_back, copies_are_sound, goes_back_to_any_point,
    groups_are_undos, headline, runs_accept_changes, undos_are_undone, written_runs_are_taken_back,
    written_runs_go_back,
};
pub use memory::Buffer;
pub use modify::{run_modify, run_modify_holding, suffix_key};
pub use round_trip::{RoundTrip, run_there_and_back};
pub use run::{ModifyOptions, Summary};
