//! The blocks of a text that is read at once, for callers that make something else of them than records.

ghost use Rattle.std.specs.Prelude.{◌≡◌, ◌<◌, All, Err, IfErr, IfOk, false, length, map};
ghost use Rattle.dir_ldif.specs.Blocks.{BlocksEndIn, all_blocks, blocks_of};
ghost use Rattle.dir_ldif.specs.Bytes.{is_empty};

use crate::faults::StreamFault;
use crate::reader::MAX_TEXT;
use crate::reader::marks::Marks;
use crate::reader::spare::Spare;
use crate::reader::unfolder::{Line, Unfolder};
use std::alloc::Global;

/// The blocks of a text: its logical lines, without comments and without the version line that it may begin with, cut at empty
/// lines. Each block has a line or more.
///
/// # Errors
///
/// `LineTooLong` for a line of more than 2,097,152 bytes, a comment too; `BadVersion` where the text begins with a version
/// line of another version than 1; `TooManyTurns` for a text of more than 9,007,199,254,732,800 bytes; `Memory`. No other.
pub fn read_blocks(alloc: Global, text: &[u8]) -> Result<Vec<Vec<Line>>, StreamFault>
    ensures ok { IfOk result (λ blocks. blocks_of text.now ≡ all_blocks (map (λ b. b.items) blocks.items)) }
    ensures some { IfOk result (λ blocks. All (λ b. is_empty b.items ≡ false) blocks.items) }
    ensures err { IfErr result (λ fault. BlocksEndIn fault text.now) }
    ensures long { 9007199254732800 < length text.now → result ≡ Err StreamFault.TooManyTurns }
{
    if text.len() > MAX_TEXT {
        return Err(StreamFault::TooManyTurns);
    }
    let mut unfolder = Unfolder::new(alloc, Marks::ignored());
    let mut spare = Spare::new(alloc);
    let mut blocks = Vec::new(alloc);
    let mut rest = text;
    while let Some((block, after)) = unfolder.push_chunk(&mut spare, rest)? {
        rest = after;
        blocks.push(block)?;
    }
    let block = unfolder.finish(&mut spare)?;
    if block.is_empty() {
        return Ok(blocks);
    }
    blocks.push(block)?;
    Ok(blocks)
}
