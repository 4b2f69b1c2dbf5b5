//! A test of the bytes of a text, many at a time.

ghost use Rattle.std.specs.Prelude.{◌≡◌, ◌*◌, ◌≤◌, length};
ghost use Rattle.std.specs.List.{list_all};
ghost use Rattle.dir_ldif.specs.Inside.Usual.{is_usual};

/// How many bytes of a long text are tested at once.
const PIECE: usize = 32;

/// Whether all bytes are usual: ASCII past CR, as most texts have no other. Such a text has no NUL, LF or CR.
#[inline(never)]
pub(crate) fn all_usual(text: &[u8]) -> bool
    ensures { result ≡ list_all is_usual text.now }
{
    let mut rest = text;
    while rest.len() > PIECE {
        let (piece, after) = rest.split_at(PIECE);
        if !each_usual(piece) {
            return false;
        }
        rest = after;
    }
    short_usual(rest)
}

/// The same of a text that is no longer than a piece.
#[inline(always)]
fn short_usual(text: &[u8]) -> bool
    requires { length text.now ≤ 32 }
    ensures { result ≡ list_all is_usual text.now }
{
    let length = text.len();
    if length >= 16 {
        ends_usual::<16>(text)
    } else if length >= 8 {
        ends_usual::<8>(text)
    } else if length >= 4 {
        ends_usual::<4>(text)
    } else {
        each_usual(text)
    }
}

/// The same of a text that its first N bytes and its last N bytes cover.
#[inline(always)]
fn ends_usual<const N: usize>(text: &[u8]) -> bool
    requires { (N ≤ length text.now) × (length text.now ≤ 2 * N) }
    ensures { result ≡ list_all is_usual text.now }
{
    each_usual(&text[..N]) & each_usual(&text[text.len() - N..])
}

/// The same, without an early end: of a text of known length it becomes vector code.
#[inline(always)]
fn each_usual(text: &[u8]) -> bool
    ensures { result ≡ list_all is_usual text.now }
{
    let mut usual = true;
    for b in text {
        usual &= is_usual(*b);
    }
    usual
}

fn is_usual(b: u8) -> bool
    ensures { result ≡ is_usual b }
{
    b > b'\r' && b < 128
}
