//! The tools over a file system: the files that `slapmodify` opens, makes and publishes, those that `slapacl` opens, also with a file of
//! questions, and the one that it makes of their answers; and those that `slapconf` opens, and the one that it makes.
#![tactic(auto)]

mod argument;
mod call_faults;
mod devices;
mod escape;
mod fault;
mod files;
mod foreground;
mod including;
mod limit;
mod note;
mod one_output;
mod proc;
mod progress;
pub mod questions;
pub mod slapacl;
pub mod slapconf;
pub mod slapmodify;
mod system;
mod teller;
mod words;

pub use argument::ShownArgument;
pub use escape::ShownText;
pub use fault::Fault;
pub use files::{FileSystem, Opened, Refusal};
pub use note::{NoteTeller, ShownNote};
pub use progress::{Amount, Doing, Progress, ProgressLine};
pub use system::SystemFiles;
pub use words::{AccessWords, ConfSource, ConfWords, ModifyWords, OutputPaths, QuestionWords};
