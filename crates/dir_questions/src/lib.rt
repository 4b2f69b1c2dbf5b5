//! Files of questions about access (slapacl(8)): many questions with the answers that are expected of them, over a configuration and a copy that
//! are read once.
#![tactic(auto)]

mod answering;
mod fault;
mod laws;
mod notes;
mod reading;
mod report;
mod run;

pub use fault::{QuestionCause, QuestionsFault};
pub use laws::{answers_are_fixed, answers_are_reports};
pub use notes::with_notes_on_questions;
pub use reading::{Block, read_lines, read_questions};
pub use report::Tally;
pub use run::{QuestionOptions, answer_questions, run_questions};
