//! A text within a message: its control characters are escaped, so that they neither end the line nor steer a
//! terminal.

ghost use Rattle.std.specs.Prelude.{◌≡◌, ◌<◌};
ghost use Rattle.std.specs.Fmt.{WritesOnOk, WritesStyledOnOk};
ghost use Rattle.dir_files.specs.Escape.{escaped, hex_digit, shown_char};

use std::fmt::{self, Display};

/// A text of the command line within a message, with its control characters escaped.
#[derive(Drop)]
pub struct ShownText<'a>(pub &'a str);

impl Display for ShownText<'_> {
    ghost use Rattle.std.specs.Prelude.{Some};

    ghost output = { λ text. Some (escaped text.0.now) };

    ghost styled_output = { λ text _. Some (escaped text.0.now) };

    fn fmt<W: fmt::Write>(&self, f: &mut fmt::Formatter<W>) -> fmt::Result {
        show_escaped(f, self.0)
    }
}

/// Shows a text with its control characters escaped.
pub fn show_escaped<W: fmt::Write>(f: &mut fmt::Formatter<W>, text: &str) -> fmt::Result
    ensures writes { WritesOnOk W.write_str_gives f.old result (escaped text.now) f.new }
    ensures styled { WritesStyledOnOk W.write_str_gives f.old result (escaped text.now) f.new }
{
    for c in text.chars() {
        show_char(f, c)?;
    }
    Ok(())
}

/// Shows a character, or its code if it is a control character.
pub fn show_char<W: fmt::Write>(f: &mut fmt::Formatter<W>, c: char) -> fmt::Result
    ensures writes { WritesOnOk W.write_str_gives f.old result (shown_char c) f.new }
    ensures styled { WritesStyledOnOk W.write_str_gives f.old result (shown_char c) f.new }
{
    if !c.is_control() {
        return f.write_char(c);
    }
    let code = c as u32 as u8;
    f.write_str("\\x")?;
    f.write_char(hex_digit(code / 16))?;
    f.write_char(hex_digit(code % 16))
}

/// A hexadecimal digit.
fn hex_digit(n: u8) -> char
    requires { n < 16 }
    ensures value { result ≡ hex_digit n }
    ensures ascii { result < 128 }
{
    if n < 10 {
        char::from(b'0' + n)
    } else {
        char::from(b'a' + (n - 10))
    }
}
