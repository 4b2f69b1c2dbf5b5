//! Search filters (RFC 4511, section 4.5.1.7). `reading` reads their texts, `assertion` the tests in them, and `truth` judges
//! an entry by them.

pub(crate) mod assertion;
pub(crate) mod integers;
pub(crate) mod reading;
pub(crate) mod substrings;
pub(crate) mod truth;

use dir_names::{AttrKey, Bytes, Texts, ValueKey};

/// A filter, without extensible matches. It is packed: a step takes a byte, and a filter one or two steps.
#[derive(Debug, Drop)]
pub struct Filter {
    /// The steps that make it of its tests, the last one first.
    steps: Vec<Step>,
    /// The last one first.
    tests: Vec<Test>,
}

/// A step in making a filter, from the left of its text to the right.
#[derive(Clone, Copy, Debug)]
pub(crate) enum Step {
    /// Begins a list, without filters.
    Begin,
    /// Appends the next test to the list.
    Test,
    /// Negates the last filter of the list.
    Not,
    /// Ends the list and appends to the one around it that all its filters hold. Without any it is True (RFC 4526).
    And,
    /// Ends the list and appends to the one around it that one of its filters holds. Without any it is False (RFC 4526).
    Or,
}

/// A test of the attributes that a description covers.
#[derive(Debug, Drop)]
pub struct Test {
    pub attr: AttrKey,
    pub matching: Matching,
}

/// What a test asks. A matching rule that the attribute's type doesn't have, or an assertion without a key, is
/// `None`: such a test is Undefined.
#[derive(Debug, Drop)]
pub enum Matching {
    /// There is an attribute.
    Present,
    /// A value has this key.
    Equal(Option<ValueKey>),
    /// A value is this number or a greater one, whatever its length.
    AtLeast(Option<Bytes>),
    /// A value is this number or a smaller one, whatever its length.
    AtMost(Option<Bytes>),
    /// A value's key has these pieces in their order.
    Substrings(Option<Pieces>),
}

/// The pieces of a substring assertion, as they are looked for in keys. An empty piece is in every key.
#[derive(Debug, Drop)]
pub struct Pieces {
    pub first: Bytes,
    pub middle: Texts,
    pub last: Bytes,
}
