//! Memory that is used again from one block to the next.

ghost use Rattle.std.specs.Prelude.{◌≡◌};

use crate::reader::unfolder::Line;
use std::alloc::Global;

/// The greatest number of texts whose memory is kept.
const MOST: usize = 64;

/// The greatest length for which a text's memory is kept, in bytes.
const SHORT: usize = 512;

/// The memory of lines that were read, kept for lines to come.
#[derive(Drop)]
pub(crate) struct Spare {
    texts: Vec<Vec<u8>>,
}

impl Spare {
    pub(crate) fn new(alloc: Global) -> Spare {
        Spare {
            texts: Vec::new(alloc),
        }
    }

    /// The same text; an empty one gets memory that was kept, if there is some.
    pub(crate) fn text(&mut self, text: Vec<u8>) -> Vec<u8>
        ensures { result.items ≡ text.items }
    {
        if !text.is_empty() {
            return text;
        }
        match self.texts.pop() {
            Some(mut kept) => {
                kept.clear();
                kept
            }
            None => text,
        }
    }

    /// Keeps the memory of lines that are short.
    pub(crate) fn keep(&mut self, lines: Vec<Line>) {
        for line in lines {
            let text = line.into_text();
            if self.texts.len() < MOST
                && text.capacity() <= SHORT
                && self.texts.push(text).is_err()
            {
                return;
            }
        }
    }
}
