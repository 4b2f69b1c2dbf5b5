//! Entries of an LDAP directory, and the directory as a suffix and a map from names to entries.
#![tactic(auto)]

mod attributes;
mod directory;
mod entry;
mod fault;
mod flat;
mod kept;
mod laws;
mod lent;
mod lines;
mod list;
mod list_iter;
mod maker;
mod packed;
mod parts;
mod pieces;
mod search;
mod stored;
mod tree;
mod values;
mod views;

pub use attributes::{Attribute, AttributeMap, Attributes};
pub use directory::{Directory, NotAdded, may_stand, spelled_own};
pub use entry::{Entry, own_rdns};
pub use fault::EntryFault;
pub use flat::FlatDirectory;
pub use kept::{AttributeViews, KeptAttributes};
pub use laws::entries_hold_their_lines;
pub use maker::EntryMaker;
pub use parts::Parts;
pub use tree::TreeDirectory;
pub use values::{ValueMap, Values};
pub use views::{AttributeView, KeyView, ValueViews};
