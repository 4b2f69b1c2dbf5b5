//! Texts of other forms, given for LDIF or for a slapd.conf.

ghost use Rattle.std.specs.Io.KnownBytes.{Consumes};
ghost use Rattle.std.specs.Prelude.{◌≡◌, ◌≤◌, ℕ, List, Some, length};
ghost use Rattle.dir_hints.specs.Forms.{form_of, form_text};

use dir_ldif::Source;
use std::fmt::{self, Display};

/// What a text is that begins neither as LDIF does nor as a slapd.conf.
#[derive(Clone, Copy, PartialEq, Eq, Debug)]
pub enum Form {
    /// UTF-8 after a byte order mark, as some editors write it.
    Marked,
    /// UTF-16, by its byte order mark.
    Utf16,
    /// Compressed by gzip (RFC 1952, section 2.3.1).
    Gzip,
    /// The output of ldapsearch without `-LLL`.
    Search,
}

/// What the first bytes of a text show that it is: none where they may begin LDIF or a slapd.conf.
pub fn form_of(start: &[u8]) -> Option<Form>
    ensures { result ≡ form_of start.now }
{
    if start.starts_with(&[0xEF, 0xBB, 0xBF]) {
        Some(Form::Marked)
    } else if start.starts_with(&[0xFE, 0xFF]) || start.starts_with(&[0xFF, 0xFE]) {
        Some(Form::Utf16)
    } else if start.starts_with(&[0x1F, 0x8B]) {
        Some(Form::Gzip)
    } else if start.starts_with(b"# extended LDIF\n") {
        Some(Form::Search)
    } else {
        None
    }
}

/// How many bytes are looked at.
const START: usize = 16;

/// What the first bytes that a source gives in one read call, 16 at most, show that its text is: none where they can't be read.
pub fn form_in<S: Source>(source: &mut S) -> Option<Form>
    ensures { (bytes : List ℕ) × Consumes (S.left source.old) (S.left source.new) bytes × (length bytes ≤ 16) × (result ≡ form_of bytes) }
{
    let mut start = [0; START];
    match source.read(&mut start) {
        Ok(n) => form_of(&start[..n]),
        Err(_) => None,
    }
}

impl Display for Form {
    ghost output = { λ form. Some (form_text form) };

    ghost styled_output = { λ form _. Some (form_text form) };

    fn fmt<W: fmt::Write>(&self, f: &mut fmt::Formatter<W>) -> fmt::Result {
        f.write_str(match self {
            Form::Marked => "begins with a byte order mark (BOM): remove its first three bytes",
            Form::Utf16 => "is UTF-16: make UTF-8 of it",
            Form::Gzip => "is compressed by gzip: decompress it",
            Form::Search => "is what ldapsearch writes without -LLL: search again with -LLL",
        })
    }
}
