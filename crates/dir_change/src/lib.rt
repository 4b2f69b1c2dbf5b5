//! The update operations of LDAP on a directory, each with the changes that take it back.
#![tactic(auto)]

mod add;
mod delete;
mod difference;
mod exchange;
mod history;
mod increment;
mod judged;
mod laws;
mod looked;
mod modify;
mod operation;
mod refusal;
mod rename;
mod result_code;
mod touched;
mod undo;

pub use history::History;
pub use laws::{
    groups_undo_changes, runs_are_taken_back, runs_stay_in_order, undo_texts_read_back,
};
pub use operation::apply;
pub use refusal::Refusal;
pub use result_code::ResultCode;
pub use undo::Undo;
