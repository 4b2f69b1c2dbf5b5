//! The text of a slapd.conf (slapd.conf(5), "GENERAL FORMAT"): its lines, which are cut once (`ConfigText`), and how an argument is
//! written into one (`push_argument`). What the lines say is left to those who read them.
#![tactic(auto)]

mod arguments;
mod definitions;
mod joining;
mod laws;
mod lines;
mod physical;
mod quoting;
mod text;

pub use arguments::line_words;
pub use joining::{Joining, begins_with, is_space};
pub use laws::written_arguments_are_read;
pub use lines::{TextLine, text_lines};
pub use physical::line_with_words;
pub use quoting::push_argument;
pub use text::{ConfigLine, ConfigText, Said, Words};

/// The greatest number of bytes of a configuration.
pub const MAX_CONFIG: usize = 16_777_216;
