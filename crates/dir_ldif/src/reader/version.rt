//! The version line of a text.

ghost use Rattle.std.specs.Prelude.{◌≡◌};
ghost use Rattle.dir_ldif.specs.Blocks.{version_of};

use crate::reader::bytes::{cut_at, without_spaces};

/// What a line says of the version of LDIF.
pub(crate) enum Version {
    /// It is no version line.
    Absent,
    One,
    Other,
}

/// The version line of a text has the plain value 1 (RFC 2849, `version-spec`).
#[inline(never)]
pub(crate) fn version_of(line: &[u8]) -> Version
    ensures { result ≡ version_of line.now }
{
    let Some((name, rest)) = cut_at(b':', line) else {
        return Version::Absent;
    };
    if !name.eq_ignore_ascii_case(b"version") {
        return Version::Absent;
    }
    if without_spaces(rest) == b"1".as_slice() {
        Version::One
    } else {
        Version::Other
    }
}
