//! Names of an LDAP directory: attribute types and descriptions, comparison keys of values,
//! distinguished names and their keys.
#![tactic(auto)]

mod attribute;
mod fault;
mod key;
mod limits;
mod list;
mod name;
mod schema;
mod text;
mod value;

pub use attribute::{AttrKey, Description};
pub use fault::NameFault;
pub use fault::memory::Memory;
pub use key::recent::RecentNames;
pub use key::sort_key::DnSortKey;
pub use key::{DnKey, RdnKey};
pub use limits::{MAX_DESCRIPTION, MAX_RDN_TEXT, MAX_RDNS};
pub use list::lines::Lines;
pub use list::{Bytes, Texts};
pub use name::reader::NameReader;
pub use name::{Dn, Rdn};
pub use schema::definition::TypeDefinition;
pub use schema::{Rule, Schema, types_are_added};
pub use text::{is_blank, is_positive, split_once, without_return};
pub use value::pieces::PiecePlace;
pub use value::pushed::PushedKey;
pub use value::{ValueKey, is_integer};
