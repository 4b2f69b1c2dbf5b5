//! The limits of names and descriptions.

/// The greatest length of an attribute description, in bytes.
pub const MAX_DESCRIPTION: usize = 512;

/// The greatest number of RDNs in a name.
pub const MAX_RDNS: usize = 64;

/// The greatest length of a printed RDN, in bytes.
pub const MAX_RDN_TEXT: usize = 4096;
