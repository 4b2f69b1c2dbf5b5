//! What a configuration says of one database.

ghost use Rattle.std.specs.Prelude.{◌≡◌};
ghost use Rattle.dir_conf.specs.Flat.{name_of};

use dir_names::Texts;

/// A directive that a flat configuration has (slapd.conf(5)).
#[derive(Clone, Copy, PartialEq, Eq, Debug)]
pub enum Directive {
    Suffix,
    RootDn,
    Access,
}

impl Directive {
    ghost use Rattle.std.specs.Prelude.{◌≡◌};
    ghost use Rattle.dir_conf.specs.Flat.{name_of};

    pub(crate) fn name(self) -> &'static [u8]
        ensures { result.now ≡ name_of self }
    {
        match self {
            Directive::Suffix => b"suffix",
            Directive::RootDn => b"rootdn",
            Directive::Access => b"access",
        }
    }
}

/// A directive with its arguments.
#[derive(Debug, Drop)]
pub struct Line {
    pub directive: Directive,
    pub arguments: Texts,
}

/// What a configuration says of one database: the definitions of attribute types (RFC 4512, section 4.1.2), the lines of the database, and the
/// frontend's rules, which hold in all databases after their own.
#[derive(Debug, Drop)]
pub struct Site {
    pub types: Texts,
    pub own: Vec<Line>,
    pub frontend: Vec<Line>,
}

/// How much a configuration says of one database.
#[derive(Clone, Copy, PartialEq, Eq, Debug)]
pub struct Tally {
    /// Attribute types that it defines.
    pub types: usize,
    /// Access rules of the database.
    pub rules: usize,
    /// Access rules of the frontend.
    pub frontend: usize,
}
