//! What becomes of the memory that a run held.

use std::mem::forget;

/// What becomes of the memory that a run held, most of which is its directory.
#[derive(Clone, Copy, PartialEq, Eq, Debug)]
pub enum HeldMemory {
    /// It is given back, which takes time by the size of the directory.
    Freed,
    /// It is left to the system, which takes it back when the program ends. Where the program goes on,
    /// each run takes memory that nothing can use again.
    Left,
}

impl HeldMemory {
    /// Gives the memory of a value back, or leaves it.
    pub fn let_go<T: Drop>(self, value: T) {
        match self {
            HeldMemory::Freed => drop(value),
            HeldMemory::Left => forget(value),
        }
    }
}
