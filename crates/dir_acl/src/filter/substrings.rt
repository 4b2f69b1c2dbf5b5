//! Whether a text has the pieces of a substring assertion (RFC 4511, section 4.5.1.7.2).

ghost use Rattle.std.specs.Prelude.{◌≡◌, option_copied};
ghost use Rattle.dir_acl.specs.Inside.FirstPiece.{after_piece};
ghost use Rattle.dir_acl.specs.Substrings.{has_middles, has_pieces};

use crate::Pieces;
use dir_names::Bytes;
use memchr::memmem;

/// Whether a text has the pieces. Each middle piece is taken where it comes first, which leaves the most to the
/// others.
pub(crate) fn has_pieces(pieces: &Pieces, text: &[u8]) -> bool
    ensures { result ≡ has_pieces pieces.now text.now }
{
    let first = pieces.first.as_slice();
    if !text.starts_with(first) {
        return false;
    }
    let after = text.split_at(first.len()).1;
    has_middles(pieces.middle.as_slice(), pieces.last.as_slice(), after)
}

fn has_middles(middle: &[Bytes], last: &[u8], text: &[u8]) -> bool
    ensures { result ≡ has_middles middle.now last.now text.now }
{
    let mut rest = text;
    for piece in middle {
        match after_piece(piece.as_slice(), rest) {
            Some(after) => rest = after,
            None => return false,
        }
    }
    rest.ends_with(last)
}

/// What follows a piece where it comes first. The time is the text's length and the piece's, not their product.
fn after_piece<'t>(piece: &[u8], text: &'t [u8]) -> Option<&'t [u8]>
    ensures { option_copied result ≡ after_piece piece.now text.now }
{
    let at = memmem::find(text, piece)?;
    Some(text.split_at(at + piece.len()).1)
}
