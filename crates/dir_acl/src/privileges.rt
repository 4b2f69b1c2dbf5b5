//! What may be granted: privileges and the levels that name sets of them (slapd.access(5), "THE <ACCESS> FIELD").

ghost use Rattle.std.specs.Prelude.{◌≡◌, ◌++◌, [], ◌∷◌, IfOk, cond};
ghost use Rattle.std.specs.Str.{str_eq_ignore_ascii_case};
ghost use Rattle.dir_acl.specs.Config.Permissions.{set_with_text};
ghost use Rattle.dir_acl.specs.Privileges.{all_privileges, is_allowed, is_none, level_of, level_set, no_privileges, privileges_text, write_level, letter_if};

use crate::config::permissions::privileges_of_letters;
use dir_names::Memory;
use std::alloc::Global;

/// A set of privileges.
#[derive(Clone, Copy, PartialEq, Eq, Debug)]
pub struct Privileges {
    /// `m`
    pub manage: bool,
    /// `a`; with `z`, `w`
    pub add: bool,
    /// `z`
    pub delete: bool,
    /// `r`
    pub read: bool,
    /// `s`
    pub search: bool,
    /// `c`
    pub compare: bool,
    /// `x`
    pub auth: bool,
    /// `d`
    pub disclose: bool,
}

/// One privilege.
#[derive(Clone, Copy, PartialEq, Eq, Debug)]
pub enum Privilege {
    Manage,
    Add,
    Delete,
    Read,
    Search,
    Compare,
    Auth,
    Disclose,
}

/// A word for a set of privileges.
#[derive(Clone, Copy, PartialEq, Eq, Debug)]
pub enum Level {
    None,
    Disclose,
    Auth,
    Compare,
    Search,
    Read,
    Write,
    /// The privileges of `Read`, and `a`.
    Add,
    /// The privileges of `Read`, and `z`.
    Delete,
    Manage,
}

impl Level {
    /// The level of a word, in any ASCII case. The call doesn't allocate.
    pub fn read(word: &[u8]) -> Option<Level>
        ensures { result ≡ level_of word.now }
    {
        if word.eq_ignore_ascii_case(b"none") {
            Some(Level::None)
        } else if word.eq_ignore_ascii_case(b"disclose") {
            Some(Level::Disclose)
        } else if word.eq_ignore_ascii_case(b"auth") {
            Some(Level::Auth)
        } else if word.eq_ignore_ascii_case(b"compare") {
            Some(Level::Compare)
        } else if word.eq_ignore_ascii_case(b"search") {
            Some(Level::Search)
        } else if word.eq_ignore_ascii_case(b"read") {
            Some(Level::Read)
        } else {
            write_level(word)
        }
    }

    /// The privileges that the level names. The call doesn't allocate.
    pub fn privileges(self) -> Privileges
        ensures { result ≡ level_set self }
    {
        let none = Privileges::none();
        let disclose = Privileges {
            disclose: true,
            ..none
        };
        let auth = Privileges {
            auth: true,
            ..disclose
        };
        let compare = Privileges {
            compare: true,
            ..auth
        };
        let search = Privileges {
            search: true,
            ..compare
        };
        let read = Privileges {
            read: true,
            ..search
        };
        match self {
            Level::None => none,
            Level::Disclose => disclose,
            Level::Auth => auth,
            Level::Compare => compare,
            Level::Search => search,
            Level::Read => read,
            Level::Write => Privileges {
                add: true,
                delete: true,
                ..read
            },
            Level::Add => Privileges { add: true, ..read },
            Level::Delete => Privileges {
                delete: true,
                ..read
            },
            Level::Manage => Privileges::all(),
        }
    }
}

/// The levels that change an entry.
fn write_level(word: &[u8]) -> Option<Level>
    ensures { result ≡ write_level word.now }
{
    if word.eq_ignore_ascii_case(b"write") {
        Some(Level::Write)
    } else if word.eq_ignore_ascii_case(b"add") {
        Some(Level::Add)
    } else if word.eq_ignore_ascii_case(b"delete") {
        Some(Level::Delete)
    } else if word.eq_ignore_ascii_case(b"manage") {
        Some(Level::Manage)
    } else {
        None
    }
}

impl Privileges {
    pub fn none() -> Privileges
        ensures { result ≡ no_privileges }
    {
        Privileges {
            manage: false,
            add: false,
            delete: false,
            read: false,
            search: false,
            compare: false,
            auth: false,
            disclose: false,
        }
    }

    pub fn all() -> Privileges
        ensures { result ≡ all_privileges }
    {
        Privileges {
            manage: true,
            add: true,
            delete: true,
            read: true,
            search: true,
            compare: true,
            auth: true,
            disclose: true,
        }
    }

    /// Whether the level's own privilege is held: `a` and `z` for `Write`, the one with the level's first
    /// letter for the others. `None` is always allowed. The call doesn't allocate.
    pub fn allows(&self, level: Level) -> bool
        ensures { result ≡ is_allowed self.now level }
    {
        match level {
            Level::None => true,
            Level::Disclose => self.disclose,
            Level::Auth => self.auth,
            Level::Compare => self.compare,
            Level::Search => self.search,
            Level::Read => self.read,
            Level::Write => self.add & self.delete,
            Level::Add => self.add,
            Level::Delete => self.delete,
            Level::Manage => self.manage,
        }
    }

    fn is_none(&self) -> bool
        ensures { result ≡ is_none self.now }
    {
        !(self.manage
            | self.add
            | self.delete
            | self.read
            | self.search
            | self.compare
            | self.auth
            | self.disclose)
    }

    /// The set that has this text, as `text` gives it: `=cs` is that of no set, since the letters of `=sc` stand in this order.
    ///
    /// # Errors
    ///
    /// Memory ran out.
    pub fn read(alloc: Global, text: &[u8]) -> Result<Option<Privileges>, Memory>
        ensures { IfOk result (λ set. set ≡ set_with_text text.now) }
    {
        let Some((_, letters)) = text.split_first() else {
            return Ok(None);
        };
        match privileges_of_letters(letters) {
            Some(set) if set.text(alloc)?.as_slice() == text => Ok(Some(set)),
            _ => Ok(None),
        }
    }

    /// `=` and the letters of the privileges, or `=0`.
    pub fn text(&self, alloc: Global) -> Result<Vec<u8>, Memory>
        ensures { IfOk result (λ text. text.items ≡ privileges_text self.now) }
    {
        let mut text = Vec::new(alloc);
        text.push(b'=')?;
        push_if(&mut text, self.manage, b'm')?;
        push_if(&mut text, self.add & self.delete, b'w')?;
        push_if(&mut text, self.add & !self.delete, b'a')?;
        push_if(&mut text, self.delete & !self.add, b'z')?;
        push_if(&mut text, self.read, b'r')?;
        push_if(&mut text, self.search, b's')?;
        push_if(&mut text, self.compare, b'c')?;
        push_if(&mut text, self.auth, b'x')?;
        push_if(&mut text, self.disclose, b'd')?;
        push_if(&mut text, self.is_none(), b'0')?;
        Ok(text)
    }
}

fn push_if(text: &mut Vec<u8>, is_held: bool, letter: u8) -> Result<(), Memory>
    ensures { IfOk result (λ _. text.new.items ≡ text.old.items ++ letter_if is_held letter) }
{
    if is_held {
        text.push(letter)?;
    }
    Ok(())
}
