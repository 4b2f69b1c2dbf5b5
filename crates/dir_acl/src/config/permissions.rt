//! The `<access>` and the `<control>` of a clause (slapd.access(5)).

ghost use Rattle.std.specs.Prelude.{◌≡◌};
ghost use Rattle.dir_acl.specs.Privileges.{no_privileges};
ghost use Rattle.dir_acl.specs.Config.Permissions.{control_of, edit_by, edit_of, joined_letters, no_edit, privileges_of_letter, privileges_of_letters, privileges_of_small, signed_edit};

use crate::{Control, Edit, Level, Privileges};

/// What a clause without an `<access>` does: nothing.
pub(crate) fn no_edit() -> Edit
    ensures { result ≡ no_edit }
{
    Edit::Add(Privileges::none())
}

/// The edit of an `<access>`: a level, or a sign and privileges.
pub(crate) fn edit_of(word: &[u8]) -> Option<Edit>
    ensures { result ≡ edit_of word.now }
{
    match Level::read(word) {
        Some(level) => Some(Edit::Set(level.privileges())),
        None => signed_edit(word),
    }
}

fn signed_edit(word: &[u8]) -> Option<Edit>
    ensures { result ≡ signed_edit word.now }
{
    let (sign, letters) = word.split_first()?;
    let set = privileges_of_letters(letters)?;
    edit_by(*sign, set)
}

fn edit_by(sign: u8, set: Privileges) -> Option<Edit>
    ensures { result ≡ edit_by sign set }
{
    match sign {
        b'=' => Some(Edit::Set(set)),
        b'+' => Some(Edit::Add(set)),
        b'-' => Some(Edit::Remove(set)),
        _ => None,
    }
}

/// The set of `0` alone, or of one or more letters.
pub(crate) fn privileges_of_letters(letters: &[u8]) -> Option<Privileges>
    ensures { result ≡ privileges_of_letters letters.now }
{
    if letters.eq_ignore_ascii_case(b"0") {
        return Some(Privileges::none());
    }
    if letters.is_empty() {
        return None;
    }
    joined_letters(letters)
}

fn joined_letters(letters: &[u8]) -> Option<Privileges>
    ensures { result ≡ joined_letters no_privileges letters.now }
{
    let mut set = Privileges::none();
    for letter in letters {
        match privileges_of_letter(*letter) {
            Some(more) => set = set.joined(more),
            None => return None,
        }
    }
    Some(set)
}

/// The privileges of a letter, in any ASCII case.
fn privileges_of_letter(letter: u8) -> Option<Privileges>
    ensures { result ≡ privileges_of_letter letter }
{
    privileges_of_small(letter.to_ascii_lowercase())
}

fn privileges_of_small(letter: u8) -> Option<Privileges>
    ensures { result ≡ privileges_of_small letter }
{
    let mut set = Privileges::none();
    match letter {
        b'm' => set.manage = true,
        b'w' => {
            set.add = true;
            set.delete = true;
        }
        b'a' => set.add = true,
        b'z' => set.delete = true,
        b'r' => set.read = true,
        b's' => set.search = true,
        b'c' => set.compare = true,
        b'x' => set.auth = true,
        b'd' => set.disclose = true,
        _ => return None,
    }
    Some(set)
}

pub(crate) fn control_of(word: &[u8]) -> Option<Control>
    ensures { result ≡ control_of word.now }
{
    if word.eq_ignore_ascii_case(b"stop") {
        Some(Control::Stop)
    } else if word.eq_ignore_ascii_case(b"continue") {
        Some(Control::Continue)
    } else if word.eq_ignore_ascii_case(b"break") {
        Some(Control::Break)
    } else {
        None
    }
}
