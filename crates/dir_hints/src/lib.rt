//! What an administrator is told beside a fault: what a text is that is no LDIF, how the names of a copy go with the suffix, and how many records a text of
//! changes has.
#![tactic(auto)]

mod copy;
mod count;
mod form;

pub use copy::{CopyNames, names_in};
pub use count::{RecordCount, count_records};
pub use form::{Form, form_in, form_of};
